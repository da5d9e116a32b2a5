//! The refusals of changes.

use thiserror::Error;

/// Why a change is refused. Nothing is changed then. It displays as its name.
/// See docs/DECISIONS.md, "Refusals of the tables".
#[derive(Clone, Copy, Debug, PartialEq, Eq, Error)]
pub enum TableError {
    /// The client has an allocation.
    #[error("Mismatch")]
    Mismatch,
    /// No slot is free, or the allocation would have more permissions or channels than there is room for.
    #[error("Capacity")]
    Capacity,
    /// The channel is bound to another peer, or the peer to another channel.
    #[error("Conflict")]
    Conflict,
    /// The slot has no allocation.
    #[error("NoAllocation")]
    NoAllocation,
    /// An address is not of the allocation's family.
    #[error("Family")]
    Family,
}
