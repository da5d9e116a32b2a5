//! Sockets of their own, each for one client that has an allocation or for one peer that a channel is bound to, whose
//! datagrams come apart from what strangers send.

use crate::shared::{SharedSockets, family_of};
use crate::udp::{SocketOptions, addr_of, bind_spare, share, socket_address};
use attributes::Addr;
use mio::net::UdpSocket;
use mio::{Interest, Registry, Token};
use server::{LinkFault, Receipt, socket_of};
use std::alloc::{AllocError, Global};
use std::io::{self, ErrorKind};
use std::net::{IpAddr, Ipv4Addr, Net, SocketAddr};

/// How often a receive is tried again that reports an earlier send, which didn't come to the other side.
const TRIES: usize = 8;

/// The error of an address that isn't there.
const EADDRNOTAVAIL: i32 = 99;

/// The errors by which Linux reports at a connected socket that what was sent there didn't come to the other side, as
/// ICMP messages say: EACCES, ENONET, EPROTO, EMSGSIZE, ENOPROTOOPT, EOPNOTSUPP, ENETUNREACH, ECONNREFUSED, EHOSTDOWN
/// and EHOSTUNREACH.
const UNDELIVERED: [i32; 10] = [13, 64, 71, 90, 92, 95, 101, 111, 112, 113];

/// The socket of its own of the client, or of a peer, of a slot.
#[derive(Drop)]
enum OwnSocket {
    /// None: its datagrams come at a socket that serves many.
    Shared,
    /// One is to be opened for this address.
    Wanted(Addr),
    /// One to which the system hands the datagrams of this address alone.
    Own { address: Addr, socket: UdpSocket },
}

/// The sockets of their own of the clients whose allocations have the slots, or of a peer of each slot.
#[derive(Drop)]
pub(crate) struct OwnSockets {
    /// The token of that of slot 0.
    first: usize,
    by_slot: Vec<OwnSocket>,
    /// Whether one is to be opened.
    has_wanted: bool,
    /// Their buffers, and whether the sockets whose addresses they share let other processes share these.
    options: SocketOptions,
}

/// Returns the address to which a socket is bound that is connected afterwards, beside one at another address. Where
/// other processes share the port it has no IP address yet: the connection gives it one, and thereby takes it out of
/// the group of sockets over which the system spreads what comes from others. Linux before 6.13 doesn't do so with a
/// socket that has the address before.
fn unconnected(local: SocketAddr, options: SocketOptions) -> SocketAddr {
    if options.reuse_port && local.is_ipv4() {
        SocketAddr::new(IpAddr::V4(Ipv4Addr::UNSPECIFIED), local.port())
    } else {
        local
    }
}

/// Binds a socket to the address of another one, and connects it to an address. While it is being bound, the other one
/// lets its address be shared with sockets of the same user.
fn connected<R: Net>(
    rt: &R,
    shared: &UdpSocket,
    options: SocketOptions,
    address: Addr,
) -> io::Result<UdpSocket> {
    let local = shared.local_addr()?;
    let own = SocketOptions {
        buffer: options.buffer,
        reuse_port: true,
    };
    share(shared, true)?;
    let bound = bind_spare(rt, unconnected(local, options), own);
    share(shared, options.reuse_port)?;
    let socket = bound?;
    socket.connect(socket_address(address))?;
    // what is sent there would come from an address that the other side doesn't know
    if !local.ip().is_unspecified() && socket.local_addr()? != local {
        return Err(io::Error::from_raw_os_error(EADDRNOTAVAIL));
    }
    Ok(socket)
}

/// Returns a socket of its own for an address, which a poll reports from now on; none where the system has none for it.
fn open<R: Net>(
    rt: &R,
    shared: &UdpSocket,
    registry: &Registry,
    token: usize,
    options: SocketOptions,
    address: Addr,
) -> OwnSocket {
    let Ok(mut socket) = connected(rt, shared, options, address) else {
        return OwnSocket::Shared;
    };
    match registry.register(&mut socket, Token(token), Interest::READABLE) {
        Ok(()) => OwnSocket::Own { address, socket },
        Err(_) => OwnSocket::Shared,
    }
}

/// Returns whether an error of a receive reports that what was sent before didn't come to the other side.
fn is_of_earlier(error: &io::Error) -> bool {
    match error.raw_os_error() {
        Some(number) => UNDELIVERED.iter().any(|undelivered| *undelivered == number),
        None => false,
    }
}

/// Returns whether nothing waits at a socket.
fn is_idle(socket: &UdpSocket) -> bool {
    match socket.peek_from(&mut [0; 1]) {
        Err(error) => error.kind() == ErrorKind::WouldBlock,
        Ok(_) => false,
    }
}

impl OwnSockets {
    /// Returns those of the clients, or of peers, of so many slots, of which none has one.
    ///
    /// # Errors
    /// Where memory runs out.
    pub(crate) fn new(
        alloc: Global,
        first: usize,
        slots: usize,
        options: SocketOptions,
    ) -> Result<OwnSockets, AllocError> {
        let mut by_slot = Vec::new(alloc);
        for _ in 0..slots {
            by_slot.push(OwnSocket::Shared)?;
        }
        Ok(OwnSockets {
            first,
            by_slot,
            has_wanted: false,
            options,
        })
    }

    /// Returns the address that has a socket of its own by a slot.
    pub(crate) fn address_of(&self, slot: usize) -> Option<Addr> {
        match self.by_slot.get(slot) {
            Some(OwnSocket::Own { address, .. }) => Some(*address),
            _ => None,
        }
    }

    /// Notes that an address is to have a socket of its own by a slot, unless it has one.
    pub(crate) fn want(&mut self, slot: usize, address: Addr) {
        if self.address_of(slot) == Some(address) {
            return;
        }
        if let Some(of_slot) = self.by_slot.get_mut(slot) {
            *of_slot = OwnSocket::Wanted(address);
            self.has_wanted = true;
        }
    }

    /// Closes the socket by a slot, if there is one and nothing waits there. Returns whether it did.
    pub(crate) fn close_idle(&mut self, slot: usize) -> bool {
        if let Some(of_slot) = self.by_slot.get_mut(slot)
            && let OwnSocket::Own { socket, .. } = of_slot
            && is_idle(socket)
        {
            *of_slot = OwnSocket::Shared;
            return true;
        }
        false
    }

    /// Opens at most so many of the sockets that are wanted, which a poll reports under their tokens. Where the system
    /// has none more, the address is served at the socket that serves many. Returns whether one was wanted.
    pub(crate) fn open_wanted<R: Net>(
        &mut self,
        rt: &R,
        shared: &SharedSockets,
        registry: &Registry,
        most: usize,
    ) -> bool {
        if !self.has_wanted {
            return false;
        }
        let slots = self.by_slot.len();
        let mut count = 0;
        for (token, of_slot) in (self.first..).zip(self.by_slot.iter_mut()) {
            if let OwnSocket::Wanted(address) = of_slot {
                if count >= most {
                    return true;
                }
                count += 1;
                let address = *address;
                let endpoint = socket_of(token, slots).place();
                *of_slot = match shared.at(endpoint, family_of(address)) {
                    Ok(at) => open(rt, at, registry, token, self.options, address),
                    Err(LinkFault) => OwnSocket::Shared,
                };
            }
        }
        self.has_wanted = false;
        true
    }

    /// Sends a datagram at the socket by a slot, if there is one, which is for the address that it is sent to. Returns
    /// whether it was sent. It isn't where it would have to wait, or where an earlier one didn't come there, which the
    /// system reports once.
    #[inline(always)]
    pub(crate) fn send(&self, slot: usize, to: &Addr, bytes: &[u8]) -> bool {
        match self.by_slot.get(slot) {
            Some(OwnSocket::Own { address, socket }) => {
                *address == *to && socket.send(bytes).is_ok_and(|n| n == bytes.len())
            }
            _ => false,
        }
    }

    /// Receives a datagram at the socket by a slot, if there is one and a datagram has come.
    pub(crate) fn receive(&self, slot: usize, into: &mut [u8]) -> Result<Receipt, LinkFault> {
        let Some(OwnSocket::Own { socket, .. }) = self.by_slot.get(slot) else {
            return Ok(None);
        };
        for _ in 0..TRIES {
            match socket.recv_from(into) {
                Ok((n, from)) => return Ok(Some((n, addr_of(from)))),
                Err(error) if error.kind() == ErrorKind::WouldBlock => return Ok(None),
                Err(error) if is_of_earlier(&error) => {}
                Err(_) => return Err(LinkFault),
            }
        }
        Err(LinkFault)
    }
}
