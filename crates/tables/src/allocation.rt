//! Allocations (RFC 8656, section 6).

use attributes::{Addr, Family};

/// An allocation of a client (RFC 8656, section 6).
/// See docs/DESIGN.md, "Rows end with their allocation".
#[derive(Clone, Copy, Debug, PartialEq, Eq)]
pub struct Allocation {
    /// The slot whose relayed address it has.
    pub slot: usize,
    /// The client's address and port.
    pub client: Addr,
    /// The family of its relayed address, and of all its peers.
    pub family: Family,
    /// The user whose credentials made it, by index.
    pub user: usize,
    /// Whom it is counted for: the digest of a name.
    pub owner: [u8; 20],
    /// The transaction id of the Allocate request that made it.
    pub tx: [u8; 12],
    /// The lifetime that this request was given, in seconds.
    pub lifetime: u32,
    /// The first moment at which it isn't live any more, in seconds.
    pub end: u64,
}
