//! What is done with a datagram.

use control::Response;

/// Why nothing is sent for a datagram.
#[derive(Clone, Copy, Debug, PartialEq, Eq)]
pub enum Discard {
    /// It comes from a client that isn't served, or to a slot that isn't there.
    NotServed,
    /// The program of its side sends nothing for it.
    ByProgram,
    /// It is neither a STUN message nor ChannelData.
    Malformed,
    /// It is a STUN message, but no request that is answered.
    NoRequest,
    /// The client has no allocation, or the slot that a peer sent to has none.
    NoAllocation,
    /// The number of the ChannelData is bound to no peer.
    NoChannel,
    /// The Send indication has an attribute that has to be understood, and isn't.
    UnknownAttribute,
    /// The Send indication has no address, or no data.
    Incomplete,
    /// The peer has no permission.
    NoPermission,
    /// The peer's address isn't of the allocation's family.
    OtherFamily,
    /// What would carry the peer's data is longer than a datagram may be. No step reports this, since a peer's datagram
    /// is decided by its program; [`discard_by_rules`](crate::discard_by_rules) finds it.
    TooLong,
    /// The program of its side would send it, but is confined: the client hasn't permitted the peer that it would go
    /// to, or that it comes from.
    Confined,
}

/// What is done with a datagram. See docs/DECISIONS.md, "What a step reports".
#[derive(Clone, Copy, Debug, PartialEq, Eq)]
pub enum Disposition {
    /// Its data is sent on.
    Relayed,
    /// A response is sent, which says this.
    Answered(Response),
    /// Nothing is sent.
    Discarded(Discard),
}
