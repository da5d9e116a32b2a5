//! What is known of a datagram beside its bytes.

use attributes::Addr;

/// Where a datagram came from.
#[derive(Clone, Copy, Debug, PartialEq, Eq)]
pub enum Source {
    /// A client, by its address.
    Client(Addr),
    /// A peer, by the slot whose relayed address it sent to and its own address.
    Peer { slot: usize, addr: Addr },
}

/// What is known of a datagram beside its bytes.
#[derive(Clone, Copy, Debug, PartialEq, Eq)]
pub struct Meta {
    /// The moment at which it came, in seconds.
    pub now: u64,
    /// The transaction id for an indication about it.
    pub tx: [u8; 12],
    /// Where it came from.
    pub from: Source,
}
