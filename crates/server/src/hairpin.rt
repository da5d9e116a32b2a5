//! Data between two relayed addresses of one server.

use attributes::{Addr, law_is_address};
use rules::at_port;

/// The relayed IP address of a family, and the one that the sockets of the slots are bound to, where these differ: as
/// behind a NAT, which may not send back what a client sends to the relayed address of another one (RFC 4787, section
/// 6). The ports are the same.
/// See docs/DECISIONS.md, "Data between two clients of one server".
#[derive(Clone, Copy, Debug, PartialEq, Eq)]
pub struct Hairpin {
    /// The relayed IP address. Its port is ignored.
    pub relayed: Addr,
    /// The IP address of the sockets. Its port is ignored.
    pub bound: Addr,
    /// The port of slot 0.
    pub first: u16,
    /// The port of the last slot.
    pub last: u16,
}

impl Hairpin {
    ghost use Rattle.std.specs.Prelude.{◌≡◌};
    ghost use Rattle.server.specs.Hairpins.{is_of_slot, outward, inward, ComesBack};

    /// Returns whether an address has this IP address and a port of a slot.
    #[inline(always)]
    fn is_of_slot(&self, ip: &Addr, address: &Addr) -> bool
        ensures { result ≡ is_of_slot self.now ip.now address.now }
    {
        let port = address.port();
        ip.ip() == address.ip() && self.first <= port && port <= self.last
    }

    /// Returns where data to an address is sent: where it is a relayed address of a slot, to that of the slot's socket.
    #[inline(always)]
    pub fn outward(&self, to: Addr) -> Addr
        ensures { result ≡ outward self.now to }
    {
        if self.is_of_slot(&self.relayed, &to) {
            at_port(&self.bound, to.port())
        } else {
            to
        }
    }

    /// Returns where data that came from an address is from: where that is the address of a slot's socket, from the
    /// slot's relayed address.
    #[inline(always)]
    pub fn inward(&self, from: Addr) -> Addr
        ensures { result ≡ inward self.now from }
    {
        if self.is_of_slot(&self.bound, &from) {
            at_port(&self.relayed, from.port())
        } else {
            from
        }
    }

    /// States that data to the relayed address of a slot goes to a socket whose address stands for that one.
    pub fn law_comes_back(&self, address: &Addr)
        ensures { ComesBack self.now address.now }
    {
        law_is_address(&self.relayed);
        law_is_address(address);
    }
}
