//! The sockets of a server: those that serve many, and those of single clients and peers.

use crate::binding::{Addresses, BindError};
use crate::own::OwnSockets;
use crate::shared::{SharedSockets, family_of};
use crate::udp::{SocketOptions, buffer_of, receive, socket_address};
use attributes::{Addr, Family};
use basics::SystemError;
use mio::Poll;
use server::{Ahead, Hairpin, Link, LinkFault, Place, Ports, Receipt, SocketId, socket_of};
use std::alloc::{AllocError, Global};
use std::io;
use std::net::{Net, SocketAddr};
use tables::{Tables, Uncounted};

/// The token of the first socket that is a client's own.
const FIRST_OWN: usize = 1;

/// The part of a buffer that a client's own socket has, of those that the others have.
const PART: i32 = 8;

/// The sockets of each endpoint. No call on them waits.
#[derive(Drop)]
pub struct EndpointSockets {
    /// Those that serve many.
    shared: SharedSockets,
    /// Those of clients that have an allocation.
    clients: OwnSockets,
    /// One of a peer of each slot that a channel is bound to.
    peers: OwnSockets,
    ports: Ports,
    /// By which addresses data of one slot comes to another, of each family, where relayed addresses aren't those of
    /// the sockets.
    hairpin: Option<Hairpin>,
    hairpin6: Option<Hairpin>,
    /// The socket at which datagrams are received.
    chosen: SocketId,
}

/// The sockets of a server, and what was received ahead at one of them.
#[derive(Drop)]
pub struct Sockets {
    endpoints: EndpointSockets,
    ahead: Ahead,
}

/// Returns the sockets of their own of clients and of peers, of which none has one.
///
/// # Errors
/// Where memory runs out.
fn own_sockets(
    alloc: Global,
    addresses: Addresses,
) -> Result<(OwnSockets, OwnSockets), AllocError> {
    let slots = addresses.slots;
    let of_clients = SocketOptions {
        buffer: addresses.options.buffer / PART,
        reuse_port: addresses.options.reuse_port,
    };
    let first_peer = slots.saturating_add(FIRST_OWN);
    let clients = OwnSockets::new(alloc, FIRST_OWN, slots, of_clients)?;
    let peers = OwnSockets::new(alloc, first_peer, slots, addresses.slot_options())?;
    Ok((clients, peers))
}

impl EndpointSockets {
    /// Binds the socket of clients, then those of IPv4 of the slots in order, and then those of IPv6.
    ///
    /// # Errors
    /// The first address that can't be bound, and where memory runs out.
    pub fn bind<R: Net + AllocGlobal>(
        rt: &R,
        addresses: Addresses,
    ) -> Result<EndpointSockets, BindError> {
        let shared = SharedSockets::bind(rt, addresses)?;
        let port = match shared.client.local_addr() {
            Ok(address) => address.port(),
            Err(error) => {
                return Err(BindError::Address(addresses.client(), SystemError::from(error)));
            }
        };
        let (clients, peers) = own_sockets(rt.alloc(), addresses).map_err(|_| BindError::Memory)?;
        let (hairpin, hairpin6) = addresses.hairpins();
        Ok(EndpointSockets {
            shared,
            clients,
            peers,
            ports: addresses.ports(port),
            hairpin,
            hairpin6,
            chosen: SocketId::Clients,
        })
    }

    /// Returns the port of the clients' socket. Where port 0 was asked for, it is the one that the system chose.
    pub fn client_port(&self) -> u16 {
        self.ports.client
    }

    /// Returns the slot of the socket at which datagrams are received, or the one of its client or peer; none of the
    /// socket of all clients.
    #[inline(always)]
    fn chosen_slot(&self) -> Option<usize> {
        match self.chosen {
            SocketId::Clients => None,
            SocketId::ClientOf(slot) | SocketId::PeerOf(slot) | SocketId::Slot(slot, _) => {
                Some(slot)
            }
        }
    }

    /// Sends a datagram to a client, or to a peer, at its own socket, which the system needn't ask for the way to it.
    /// Returns whether it was sent: not where there is no such socket, or where a client isn't that of the slot that
    /// has its turn.
    #[inline(always)]
    fn send_at_own(&self, endpoint: Place, to: &Addr, bytes: &[u8]) -> bool {
        match (endpoint, self.chosen_slot()) {
            (Place::Client, Some(slot)) => self.clients.send(slot, to, bytes),
            (Place::Client, None) => false,
            (Place::Slot(slot), _) => self.peers.send(slot, to, bytes),
        }
    }

    /// Returns whether a channel of a slot is bound to the peer that has a socket of its own there.
    fn has_channel(&self, tables: &Tables, slot: usize, now: u64) -> bool {
        let Some(address) = self.peers.address_of(slot) else {
            return false;
        };
        let peer = self.inward(Place::Slot(slot), address);
        tables.channel_of(slot, peer, now, &mut Uncounted).is_some()
    }

    /// Returns whether the client that has a socket of its own by a slot has the allocation there.
    fn has_allocation(&self, tables: &Tables, slot: usize, now: u64) -> bool {
        let holder = tables.allocation_at(slot, now);
        holder.is_some_and(|allocation| self.clients.address_of(slot) == Some(allocation.client))
    }

    /// Closes a socket if it is the own one of a client that has no allocation at its slot any more, or of a peer that
    /// no channel of its slot is bound to any more, and nothing waits there. Returns whether it did.
    fn close_unused(&mut self, socket: SocketId, tables: &Tables, now: u64) -> bool {
        match socket {
            SocketId::ClientOf(slot) if !self.has_allocation(tables, slot, now) => {
                self.clients.close_idle(slot)
            }
            SocketId::PeerOf(slot) if !self.has_channel(tables, slot, now) => {
                self.peers.close_idle(slot)
            }
            _ => false,
        }
    }

    /// Returns by which addresses data of one slot comes to another, where an address is one of these.
    #[inline(always)]
    fn hairpin_at(&self, endpoint: Place, address: &Addr) -> &Option<Hairpin> {
        match (endpoint, address) {
            (Place::Client, _) => &None,
            (Place::Slot(_), Addr::V4 { .. }) => &self.hairpin,
            (Place::Slot(_), Addr::V6 { .. }) => &self.hairpin6,
        }
    }

    /// Returns where data from an endpoint to an address is sent.
    #[inline(always)]
    fn outward(&self, endpoint: Place, to: Addr) -> Addr {
        match self.hairpin_at(endpoint, &to) {
            Some(hairpin) => hairpin.outward(to),
            None => to,
        }
    }

    /// Returns where data that came from an address at an endpoint is from.
    #[inline(always)]
    fn inward(&self, endpoint: Place, from: Addr) -> Addr {
        match self.hairpin_at(endpoint, &from) {
            Some(hairpin) => hairpin.inward(from),
            None => from,
        }
    }
}

impl Sockets {
    /// Returns the sockets of a server, of which nothing is received ahead.
    ///
    /// # Errors
    /// Where memory runs out.
    pub fn new(alloc: Global, endpoints: EndpointSockets) -> Result<Sockets, AllocError> {
        let ahead = Ahead::new(alloc)?;
        Ok(Sockets { endpoints, ahead })
    }

    /// Returns the ports.
    pub fn ports(&self) -> Ports {
        self.endpoints.ports
    }

    /// Returns the bytes that the smaller buffer of the clients' socket has.
    pub fn buffer(&self) -> io::Result<i32> {
        buffer_of(&self.endpoints.shared.client)
    }

    /// Returns the address of the clients' socket. Where port 0 was asked for, its port is the one that the system
    /// chose.
    pub fn address(&self) -> io::Result<SocketAddr> {
        self.endpoints.shared.client.local_addr()
    }

    /// Returns the token of the first socket of a slot: before it are that of all clients, and for each slot those that
    /// its client and a peer may have.
    fn first_slot(&self) -> usize {
        let slots = self.endpoints.shared.slot_count();
        slots.saturating_add(slots).saturating_add(FIRST_OWN)
    }

    /// Returns the number of tokens: one for each socket, and for each that a client or a peer may have.
    pub fn count(&self) -> usize {
        self.first_slot()
            .saturating_add(self.endpoints.shared.slot_count())
            .saturating_add(self.endpoints.shared.slot_count6())
    }

    /// Has a poll report each socket under its token, as [`socket_of`] says, when datagrams have come there.
    pub fn register(&mut self, poll: &Poll) -> io::Result<()> {
        let first = self.first_slot();
        self.endpoints.shared.register(poll.registry(), first)
    }

    /// Chooses a socket by its token, and returns its endpoint. Datagrams are received at the socket that was chosen
    /// last.
    pub fn choose(&mut self, token: usize) -> Place {
        let socket = socket_of(token, self.endpoints.shared.slot_count());
        self.endpoints.chosen = socket;
        socket.place()
    }

    /// Notes that the client of a slot is to have a socket of its own, to which the system hands its datagrams alone.
    /// See docs/DECISIONS.md, "A socket for each client".
    pub fn want_client(&mut self, slot: usize, client: Addr) {
        self.endpoints.clients.want(slot, client);
    }

    /// Notes that a peer is to have a socket of its own if a channel of a slot is bound to it, unless another peer that
    /// a channel is bound to has one there.
    /// See docs/DECISIONS.md, "A socket for the peer of a channel".
    pub fn want_peer(&mut self, tables: &Tables, now: u64, slot: usize, peer: Addr) {
        let is_bound = tables.channel_of(slot, peer, now, &mut Uncounted).is_some();
        if is_bound && !self.endpoints.has_channel(tables, slot, now) {
            let address = self.endpoints.outward(Place::Slot(slot), peer);
            self.endpoints.peers.want(slot, address);
        }
    }

    /// Opens at most so many of the sockets that clients are to have, and as many of those that peers are to have,
    /// which a poll reports. Returns whether there was one to open.
    pub fn open_wanted<R: Net>(&mut self, rt: &R, poll: &Poll, most: usize) -> bool {
        let EndpointSockets {
            shared,
            clients,
            peers,
            ..
        } = &mut self.endpoints;
        let has_clients = clients.open_wanted(rt, shared, poll.registry(), most);
        let has_peers = peers.open_wanted(rt, shared, poll.registry(), most);
        has_clients || has_peers
    }

    /// Closes at most so many sockets, of the tokens from one on, of clients that have no allocation at their slot any
    /// more, and of peers that no channel of their slot is bound to any more, and at which nothing waits. Returns the
    /// token at which to continue, if as many are closed.
    pub fn close_unused(
        &mut self,
        tables: &Tables,
        now: u64,
        first: usize,
        most: usize,
    ) -> Option<usize> {
        let slots = self.endpoints.shared.slot_count();
        let mut closed = 0;
        for token in first..self.first_slot() {
            if closed >= most {
                return Some(token);
            }
            if self
                .endpoints
                .close_unused(socket_of(token, slots), tables, now)
            {
                closed += 1;
            }
        }
        None
    }

    /// Receives ahead at an endpoint.
    pub fn receive_ahead(&mut self, endpoint: Place) {
        self.ahead.fill(&mut self.endpoints, endpoint);
    }
}

impl Link for EndpointSockets {
    #[inline(always)]
    fn receive(&mut self, endpoint: Place, into: &mut [u8]) -> Result<Receipt, LinkFault> {
        let receipt = match (endpoint, self.chosen) {
            (Place::Client, SocketId::ClientOf(slot)) => self.clients.receive(slot, into)?,
            (Place::Slot(_), SocketId::PeerOf(slot)) => self.peers.receive(slot, into)?,
            (Place::Slot(_), SocketId::Slot(_, family)) => {
                receive(self.shared.at(endpoint, family)?, into)?
            }
            _ => receive(self.shared.at(endpoint, Family::Ipv4)?, into)?,
        };
        match receipt {
            Some((n, from)) => Ok(Some((n, self.inward(endpoint, from)))),
            None => Ok(None),
        }
    }

    /// Sends a datagram from an endpoint: to a client or a peer at its own socket, and where that sends nothing, at the
    /// endpoint's. One that would have to wait there, or isn't sent whole, is a fault.
    /// See docs/DECISIONS.md, "Data between two clients of one server" and "A socket for each client".
    fn send(&mut self, endpoint: Place, to: Addr, bytes: &[u8]) -> Result<(), LinkFault> {
        let to = self.outward(endpoint, to);
        if self.send_at_own(endpoint, &to, bytes) {
            return Ok(());
        }
        match self
            .shared
            .at(endpoint, family_of(to))?
            .send_to(bytes, socket_address(to))
        {
            Ok(n) if n == bytes.len() => Ok(()),
            _ => Err(LinkFault),
        }
    }
}

impl Link for Sockets {
    #[inline(always)]
    fn receive(&mut self, endpoint: Place, into: &mut [u8]) -> Result<Receipt, LinkFault> {
        self.ahead.receive(&mut self.endpoints, endpoint, into)
    }

    #[inline(always)]
    fn send(&mut self, endpoint: Place, to: Addr, bytes: &[u8]) -> Result<(), LinkFault> {
        self.endpoints.send(endpoint, to, bytes)
    }
}
