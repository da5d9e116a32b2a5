//! Tokens: which socket a wait reports.

ghost use Rattle.std.specs.Prelude.{◌≡◌, ◌<◌, ℕ, length};
ghost use Rattle.server.specs.Tokens.{sockets, socket_at};

use crate::link::Place;
use attributes::Family;

/// A socket of a server.
#[derive(Clone, Copy, Debug, PartialEq, Eq)]
pub enum SocketId {
    /// That of all clients that have none of their own.
    Clients,
    /// That of the client whose allocation has this slot.
    ClientOf(usize),
    /// That of a peer that a channel of this slot is bound to.
    PeerOf(usize),
    /// That of a slot, of a family.
    Slot(usize, Family),
}

impl SocketId {
    ghost use Rattle.std.specs.Prelude.{◌≡◌};
    ghost use Rattle.server.specs.Tokens.{endpoint_of};

    /// Returns the endpoint at which its datagrams come.
    #[inline(always)]
    pub fn place(self) -> Place
        ensures { result ≡ endpoint_of self }
    {
        match self {
            SocketId::Clients | SocketId::ClientOf(_) => Place::Client,
            SocketId::PeerOf(slot) | SocketId::Slot(slot, _) => Place::Slot(slot),
        }
    }
}

/// Returns which socket has a token, of a server with so many slots. 0 is that of all clients, those of the slots'
/// clients follow in order, then those of the slots' peers, those of IPv4 of the slots, and those of IPv6.
#[inline(always)]
pub fn socket_of(token: usize, slots: usize) -> SocketId
    ensures { (slots6 : ℕ) → token < length (sockets slots slots6) → result ≡ socket_at slots slots6 token }
{
    if token == 0 {
        return SocketId::Clients;
    }
    let client = token - 1;
    if client < slots {
        return SocketId::ClientOf(client);
    }
    let peer = client - slots;
    if peer < slots {
        return SocketId::PeerOf(peer);
    }
    let slot = peer - slots;
    if slot < slots {
        SocketId::Slot(slot, Family::Ipv4)
    } else {
        SocketId::Slot(slot - slots, Family::Ipv6)
    }
}
