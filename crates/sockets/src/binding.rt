//! Which addresses the sockets of a server are bound to, and why they can't be.

use crate::udp::{SocketOptions, addr_of};
use basics::SystemError;
use server::{Hairpin, Ports};
use std::net::{IpAddr, Ipv4Addr, Ipv6Addr, SocketAddr};

/// The addresses that the sockets of a server are bound to.
#[derive(Clone, Copy)]
pub struct Addresses {
    /// The IPv4 address of the clients' socket, and of a socket of each slot.
    pub listen: Ipv4Addr,
    /// The IPv6 address of a further socket of each slot; `None` for none.
    pub listen6: Option<Ipv6Addr>,
    /// The port of the clients' socket.
    pub port: u16,
    /// The port of slot 0; slot i has `first_port + i`.
    pub first_port: u16,
    /// The number of slots.
    pub slots: usize,
    /// The options of the clients' socket. The others' ports aren't shared.
    pub options: SocketOptions,
    /// The relayed IPv4 address.
    pub relayed: Ipv4Addr,
    /// The relayed IPv6 address, if there is one.
    pub relayed6: Option<Ipv6Addr>,
}

impl Addresses {
    /// Returns the address of the clients' socket.
    pub fn client(&self) -> SocketAddr {
        SocketAddr::new(IpAddr::V4(self.listen), self.port)
    }

    /// Returns the options of the slots' sockets, whose ports aren't shared.
    pub(crate) fn slot_options(&self) -> SocketOptions {
        SocketOptions {
            buffer: self.options.buffer,
            reuse_port: false,
        }
    }

    /// Returns the ports, of which the clients' is `client`.
    pub(crate) fn ports(&self, client: u16) -> Ports {
        let first = self.first_port;
        let last = usize::from(first).saturating_add(self.slots.saturating_sub(1));
        Ports {
            client,
            first,
            last: u16::try_from(last).unwrap_or(u16::MAX),
        }
    }

    /// Returns by which address data of one slot comes to another, where a relayed address isn't the one that the
    /// slots' sockets are bound to. Sockets that are bound to all addresses are reached by that of the machine itself.
    fn hairpin(&self, relayed: IpAddr, listen: IpAddr, itself: IpAddr) -> Option<Hairpin> {
        let bound = if listen.is_unspecified() {
            itself
        } else {
            listen
        };
        let Ports { first, last, .. } = self.ports(self.port);
        (relayed != listen).then_some(Hairpin {
            relayed: addr_of(SocketAddr::new(relayed, 0)),
            bound: addr_of(SocketAddr::new(bound, 0)),
            first,
            last,
        })
    }

    /// Returns by which address data of one slot comes to another, for each family.
    pub(crate) fn hairpins(&self) -> (Option<Hairpin>, Option<Hairpin>) {
        let ipv4 = self.hairpin(
            IpAddr::V4(self.relayed),
            IpAddr::V4(self.listen),
            IpAddr::V4(Ipv4Addr::LOCALHOST),
        );
        let ipv6 = match (self.relayed6, self.listen6) {
            (Some(relayed), Some(listen)) => self.hairpin(
                IpAddr::V6(relayed),
                IpAddr::V6(listen),
                IpAddr::V6(Ipv6Addr::LOCALHOST),
            ),
            _ => None,
        };
        (ipv4, ipv6)
    }
}

/// Why the sockets can't be bound.
#[derive(Clone, Copy)]
pub enum BindError {
    /// The first address that can't be bound, and why.
    Address(SocketAddr, SystemError),
    /// Memory ran out.
    Memory,
}
