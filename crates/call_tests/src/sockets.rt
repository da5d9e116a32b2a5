//! A server over UDP sockets of loopback, in one process with a client and a peer: a binding, and data there and back.

use attributes::{Addr, write_xor_addr};
use credentials::{Key, sign};
use relay::Relay;
use server::{Link, LinkFault, Place, serve_once};
use setup::sample;
use std::alloc::Global;
use std::io;
use std::net::{Ipv4Addr, Net, SocketAddr, UdpSocket};
use std::test::Fail;
use stun::registry::attribute::{
    CHANNEL_NUMBER, NONCE, REALM, REQUESTED_TRANSPORT, USERNAME, XOR_PEER_ADDRESS,
};
use stun::{Builder, NoRoom};

/// The transaction id of every request but [`BINDING`].
const TX: [u8; 12] = [1, 2, 3, 4, 5, 6, 7, 8, 9, 10, 11, 12];

/// A Binding request.
const BINDING: [u8; 20] = [
    0x00, 0x01, 0, 0, 0x21, 0x12, 0xa4, 0x42, 0, 0, 0, 0, 0, 0, 0, 0, 0, 0, 0, 0,
];

/// The sockets of a server: that of clients, and that of slot 0.
#[derive(Drop)]
struct ServerSockets {
    clients: UdpSocket,
    slot: UdpSocket,
}

/// The sockets of a client and a peer. The client's is connected to that of clients and the peer's to that of the slot,
/// so each receives from there alone.
#[derive(Drop)]
struct SessionSockets {
    client: UdpSocket,
    peer: UdpSocket,
}

/// A server, a client and a peer.
#[derive(Drop)]
struct Session {
    relay: Relay,
    sockets: ServerSockets,
    ends: SessionSockets,
}

/// A datagram that was received: the first bytes of the room for it.
#[derive(Clone, Copy)]
struct Datagram {
    room: [u8; 256],
    length: usize,
}

/// What is received over a channel: the types of the responses that opened it, and data at the peer and at the client.
#[derive(Clone, Copy)]
struct Heard {
    kinds: [Option<[u8; 2]>; 2],
    there: Datagram,
    back: Datagram,
}

/// Returns an address as messages have it.
fn address_of(address: SocketAddr) -> Result<Addr, LinkFault> {
    match address {
        SocketAddr::V4(address) => Ok(Addr::V4 {
            ip: address.ip().octets(),
            port: address.port(),
        }),
        SocketAddr::V6(_) => Err(LinkFault),
    }
}

impl ServerSockets {
    /// Returns the socket of an endpoint.
    fn at(&self, endpoint: Place) -> &UdpSocket {
        match endpoint {
            Place::Client => &self.clients,
            Place::Slot(_) => &self.slot,
        }
    }
}

impl Link for ServerSockets {
    fn receive(
        &mut self,
        endpoint: Place,
        into: &mut [u8],
    ) -> Result<Option<(usize, Addr)>, LinkFault> {
        match self.at(endpoint).recv_from(into) {
            Ok((n, from)) => Ok(Some((n, address_of(from)?))),
            Err(_) => Err(LinkFault),
        }
    }

    fn send(&mut self, endpoint: Place, to: Addr, bytes: &[u8]) -> Result<(), LinkFault> {
        let Addr::V4 { ip, port } = to else {
            return Err(LinkFault);
        };
        let to = SocketAddr::from((Ipv4Addr::from(ip), port));
        match self.at(endpoint).send_to(bytes, to) {
            Ok(n) if n == bytes.len() => Ok(()),
            _ => Err(LinkFault),
        }
    }
}

/// Binds a socket of loopback. Its receives wait, and a test that waits for what doesn't come is ended.
fn bind<R: Net>(rt: &R) -> io::Result<UdpSocket> {
    rt.bind_udp(SocketAddr::from((Ipv4Addr::LOCALHOST, 0)))
}

/// Binds two sockets of loopback.
fn bind_two<R: Net>(rt: &R) -> io::Result<(UdpSocket, UdpSocket)> {
    let first = bind(rt)?;
    let second = bind(rt)?;
    Ok((first, second))
}

impl SessionSockets {
    /// Connects both sockets to those of a server.
    fn connect(&self, sockets: &ServerSockets) -> io::Result<()> {
        self.client.connect(sockets.clients.local_addr()?)?;
        self.peer.connect(sockets.slot.local_addr()?)
    }
}

impl Datagram {
    /// Returns the bytes of the datagram.
    fn bytes(&self) -> &[u8] {
        self.room.get(..self.length).unwrap_or(&[])
    }

    /// Returns the bytes of a message's type.
    fn kind(&self) -> Option<[u8; 2]> {
        match self.bytes() {
            [high, low, ..] => Some([*high, *low]),
            _ => None,
        }
    }
}

/// Binds the sockets of a server, and those of a client and a peer of it.
fn bind_all<R: Net>(rt: &R) -> io::Result<(ServerSockets, SessionSockets)> {
    let (clients, slot) = bind_two(rt)?;
    let sockets = ServerSockets { clients, slot };
    let (client, peer) = bind_two(rt)?;
    let ends = SessionSockets { client, peer };
    ends.connect(&sockets)?;
    Ok((sockets, ends))
}

/// Makes a server with the shipped programs, a client and a peer.
fn start<R: Net>(rt: &R, alloc: Global) -> Result<Session, Fail> {
    let relay = sample::shipped(alloc, sample::config(alloc, [203, 0, 113, 1], 2)?)?;
    let (sockets, ends) = bind_all(rt)?;
    Ok(Session {
        relay,
        sockets,
        ends,
    })
}

impl Session {
    /// Serves the one datagram that has come at an endpoint.
    fn serve(&mut self, endpoint: Place) -> Result<(), Fail> {
        match serve_once(&mut self.relay, &mut self.sockets, endpoint, 1000, TX)? {
            Some(_) => Ok(()),
            None => Err(Fail::new("nothing came")),
        }
    }

    /// Has the client send a datagram, which is served.
    fn client_sends(&mut self, datagram: &[u8]) -> Result<(), Fail> {
        self.ends.client.send(datagram)?;
        self.serve(Place::Client)
    }

    /// Has the peer send a datagram, which is served.
    fn peer_sends(&mut self, datagram: &[u8]) -> Result<(), Fail> {
        self.ends.peer.send(datagram)?;
        self.serve(Place::Slot(0))
    }
}

/// Receives a datagram.
fn received(socket: &UdpSocket) -> io::Result<Datagram> {
    let mut room = [0u8; 256];
    let length = socket.recv(&mut room)?;
    Ok(Datagram { room, length })
}

/// Appends the credentials of the user.
fn write_credentials(builder: &mut Builder<'_>) -> Result<(), NoRoom> {
    builder.attr(USERNAME, b"u")?;
    builder.attr(REALM, b"relay")?;
    builder.attr(NONCE, b"n1")?;
    sign(builder, &Key::of(b"u", "relay", b"p"))
}

/// Writes an Allocate request, and returns its length.
fn write_allocate(room: &mut [u8]) -> Result<usize, NoRoom> {
    let mut builder = Builder::start(room, 0x0003, TX)?;
    builder.attr(REQUESTED_TRANSPORT, &[17, 0, 0, 0])?;
    write_credentials(&mut builder)?;
    Ok(builder.finish())
}

/// Writes a ChannelBind request for channel 0x4001, and returns its length.
fn write_channel_bind(room: &mut [u8], peer: &Addr) -> Result<usize, NoRoom> {
    let mut builder = Builder::start(room, 0x0009, TX)?;
    builder.attr(CHANNEL_NUMBER, &[0x40, 0x01, 0, 0])?;
    write_xor_addr(&mut builder, XOR_PEER_ADDRESS, peer)?;
    write_credentials(&mut builder)?;
    Ok(builder.finish())
}

impl Session {
    /// Has the client send a request, and returns the response to it.
    fn ask(&mut self, request: &[u8]) -> Result<Datagram, Fail> {
        self.client_sends(request)?;
        Ok(received(&self.ends.client)?)
    }

    /// Has the client send a Binding request, and returns the response and what it should be.
    fn binding(&mut self) -> Result<(Datagram, [u8; 32]), Fail> {
        let found = self.ask(&BINDING)?;
        let port = self.ends.client.local_addr()?.port();
        Ok((found, binding_response(port)))
    }

    /// Has the client allocate, and returns the type of the response.
    fn allocate(&mut self) -> Result<Option<[u8; 2]>, Fail> {
        let mut room = [0u8; 256];
        let n = write_allocate(&mut room)?;
        let found = self.ask(room.get(..n).unwrap_or(&[]))?;
        Ok(found.kind())
    }

    /// Has the client bind channel 0x4001 to the peer, and returns the type of the response.
    fn bind_channel(&mut self) -> Result<Option<[u8; 2]>, Fail> {
        let mut room = [0u8; 256];
        let peer = address_of(self.ends.peer.local_addr()?)?;
        let n = write_channel_bind(&mut room, &peer)?;
        let found = self.ask(room.get(..n).unwrap_or(&[]))?;
        Ok(found.kind())
    }

    /// Opens the channel, has the client send ChannelData over it, and then the peer send data.
    fn channel(&mut self) -> Result<Heard, Fail> {
        let kinds = [self.allocate()?, self.bind_channel()?];
        self.client_sends(b"\x40\x01\x00\x03abc\x00")?;
        let there = received(&self.ends.peer)?;
        self.peer_sends(b"defg")?;
        let back = received(&self.ends.client)?;
        Ok(Heard { kinds, there, back })
    }
}

/// Returns the response to [`BINDING`] that says 127.0.0.1 and a port, both under the cookie (RFC 8489, section 14.2).
fn binding_response(port: u16) -> [u8; 32] {
    let [high, low] = (port ^ 0x2112).to_be_bytes();
    [
        0x01, 0x01, 0, 12, 0x21, 0x12, 0xa4, 0x42, 0, 0, 0, 0, 0, 0, 0, 0, 0, 0, 0, 0, 0x00, 0x20,
        0, 8, 0, 1, high, low, 0x5e, 0x12, 0xa4, 0x43,
    ]
}

/// Has a Binding request served, and returns the response and what it should be.
fn binding<R: Net>(rt: &R, alloc: Global) -> Result<(Datagram, [u8; 32]), Fail> {
    let mut session = start(rt, alloc)?;
    session.binding()
}

/// Has data served over a channel, and returns what is received.
fn channel<R: Net>(rt: &R, alloc: Global) -> Result<Heard, Fail> {
    let mut session = start(rt, alloc)?;
    session.channel()
}

#[test]
fn a_binding_and_data_over_a_channel_pass_sockets(rt: HostRuntime) -> Result<(), Fail> {
    let (address, expected) = binding(&rt, rt.alloc())?;
    assert_eq!(rt; address.bytes(), expected.as_slice());
    let found = channel(&rt, rt.alloc())?;
    assert_eq!(rt; found.kinds, [Some([0x01, 0x03]), Some([0x01, 0x09])]);
    assert_eq!(rt; found.there.bytes(), b"abc".as_slice());
    assert_eq!(rt; found.back.bytes(), b"\x40\x01\x00\x04defg".as_slice());
    Ok(())
}
