//! The sockets that serve many: that of all clients, and one of each family for the peers of each slot.

use crate::binding::{Addresses, BindError};
use crate::udp::{SocketOptions, bind};
use attributes::{Addr, Family};
use basics::SystemError;
use mio::net::UdpSocket;
use mio::{Interest, Registry, Token};
use server::{LinkFault, Place};
use std::io;
use std::net::{IpAddr, Net, SocketAddr};

/// The sockets that serve many.
/// See docs/DECISIONS.md, "Two sockets for each slot".
#[derive(Drop)]
pub(crate) struct SharedSockets {
    /// That of all clients.
    pub(crate) client: UdpSocket,
    /// That of IPv4 of each slot.
    slots: Vec<UdpSocket>,
    /// That of IPv6 of each slot; empty without an IPv6 address.
    slots6: Vec<UdpSocket>,
}

/// Returns the family of an address.
#[inline(always)]
pub(crate) fn family_of(address: Addr) -> Family {
    match address {
        Addr::V4 { .. } => Family::Ipv4,
        Addr::V6 { .. } => Family::Ipv6,
    }
}

/// Binds a socket to an address.
fn bind_one<R: Net>(
    rt: &R,
    address: SocketAddr,
    options: SocketOptions,
) -> Result<UdpSocket, BindError> {
    match bind(rt, address, options) {
        Ok(socket) => Ok(socket),
        Err(error) => Err(BindError::Address(address, SystemError::from(error))),
    }
}

/// Binds a socket for each of a number of slots to an IP address, that of slot 0 at the first port.
fn bind_slots<R: Net + AllocGlobal>(
    rt: &R,
    ip: IpAddr,
    addresses: Addresses,
) -> Result<Vec<UdpSocket>, BindError> {
    let options = addresses.slot_options();
    let mut sockets = Vec::new(rt.alloc());
    for port in (addresses.first_port..=u16::MAX).take(addresses.slots) {
        let socket = bind_one(rt, SocketAddr::new(ip, port), options)?;
        if sockets.push(socket).is_err() {
            return Err(BindError::Memory);
        }
    }
    Ok(sockets)
}

/// Has a poll report sockets under tokens in ascending order, when datagrams have come.
fn register_all(registry: &Registry, sockets: &mut [UdpSocket], first: usize) -> io::Result<()> {
    for (token, socket) in (first..).zip(sockets.iter_mut()) {
        registry.register(socket, Token(token), Interest::READABLE)?;
    }
    Ok(())
}

impl SharedSockets {
    /// Binds the socket of clients, then those of IPv4 of the slots in order, and then those of IPv6.
    ///
    /// # Errors
    /// The first address that can't be bound, and where memory runs out.
    pub(crate) fn bind<R: Net + AllocGlobal>(
        rt: &R,
        addresses: Addresses,
    ) -> Result<SharedSockets, BindError> {
        Ok(SharedSockets {
            client: bind_one(rt, addresses.client(), addresses.options)?,
            slots: bind_slots(rt, IpAddr::V4(addresses.listen), addresses)?,
            slots6: match addresses.listen6 {
                Some(ip) => bind_slots(rt, IpAddr::V6(ip), addresses)?,
                None => Vec::new(rt.alloc()),
            },
        })
    }

    /// Returns the number of slots.
    pub(crate) fn slot_count(&self) -> usize {
        self.slots.len()
    }

    /// Returns the number of slots that have a socket of IPv6.
    pub(crate) fn slot_count6(&self) -> usize {
        self.slots6.len()
    }

    /// Returns the socket of a family at an endpoint. That of clients is of IPv4.
    pub(crate) fn at(&self, endpoint: Place, family: Family) -> Result<&UdpSocket, LinkFault> {
        let socket = match (endpoint, family) {
            (Place::Client, Family::Ipv4) => Some(&self.client),
            (Place::Client, Family::Ipv6) => None,
            (Place::Slot(slot), Family::Ipv4) => self.slots.get(slot),
            (Place::Slot(slot), Family::Ipv6) => self.slots6.get(slot),
        };
        socket.ok_or(LinkFault)
    }

    /// Has a poll report the socket of clients under token 0, and those of slots under tokens in ascending order, that
    /// of IPv4 of slot 0 under `first`.
    pub(crate) fn register(&mut self, registry: &Registry, first: usize) -> io::Result<()> {
        let first6 = self.slots.len().saturating_add(first);
        registry.register(&mut self.client, Token(0), Interest::READABLE)?;
        register_all(registry, self.slots.as_mut_slice(), first)?;
        register_all(registry, self.slots6.as_mut_slice(), first6)
    }
}
