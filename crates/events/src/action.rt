//! What a step sends.

use attributes::Addr;

/// What is to be sent, if anything.
#[derive(Clone, Copy, Debug)]
pub enum Action<'a> {
    /// Nothing.
    Nothing,
    /// A datagram from the relayed address of a slot to a peer.
    ToPeer {
        slot: usize,
        peer: Addr,
        bytes: &'a [u8],
    },
    /// A datagram from the relay's own address to a client.
    ToClient {
        client: Addr,
        bytes: &'a [u8],
    },
}
