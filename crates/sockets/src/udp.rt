//! UDP sockets with options that have to be set before they are bound, with the sizes of their buffers, and what comes
//! at them.

ghost use Rattle.std.specs.Prelude.{◌↔◌, pos, ◌≤ℤ◌, IsOk};
ghost use Rattle.libc.specs.Net.{Family};

use attributes::Addr;
use libc::net as c;
use libc::types::rlimit;
use mio::net::UdpSocket;
use os::FromRawFd;
use server::{LinkFault, Receipt};
use std::io::{self, ErrorKind};
use std::net::{Ipv4Addr, Ipv6Addr, Net, SocketAddr, SocketAddrV4, SocketAddrV6};
use std::os::fd::{AsRawFd, OwnedFd};

/// The lengths of C's `sockaddr_in` and `sockaddr_in6`.
const LENGTH: u32 = 16;

const LENGTH6: u32 = 28;

/// How many of the descriptors that the process may have are left for files.
const FOR_FILES: u64 = 16;

/// The options of a socket.
#[derive(Clone, Copy)]
pub struct SocketOptions {
    /// The bytes of the buffer of datagrams that came, and of the buffer of those to send: what the system is asked
    /// for.
    pub buffer: i32,
    /// Whether sockets of other processes may be bound to the same address.
    pub reuse_port: bool,
}

/// Returns the error of the call that has just answered `status`, if that is negative.
fn check(status: i32) -> io::Result<()>
    ensures { IsOk result ↔ (pos 0 ≤ℤ status) }
{
    if status < 0 {
        Err(io::Error::from_raw_os_error(os::errno()))
    } else {
        Ok(())
    }
}

/// Returns a new socket for datagrams of a family, none of whose calls waits.
fn new(family: i32) -> io::Result<OwnedFd>
    requires { Family family }
{
    let kind = c::SOCK_DGRAM | c::SOCK_NONBLOCK | c::SOCK_CLOEXEC;
    let fd = unsafe { c::socket(family, kind, 0) };
    check(fd)?;
    Ok(unsafe { OwnedFd::from_raw_fd(fd) })
}

/// Returns a new socket for datagrams of the family of an address.
fn new_for(address: SocketAddr) -> io::Result<OwnedFd> {
    match address {
        SocketAddr::V4(_) => new(c::AF_INET),
        SocketAddr::V6(_) => new(c::AF_INET6),
    }
}

/// Returns whether a descriptor is one of the last that the process may have, which are left for files. The system
/// gives the lowest that is free (POSIX.1-2017, section 2.14), so all before it are in use.
fn is_for_files(fd: i32) -> bool {
    let mut limit = rlimit {
        rlim_cur: 0,
        rlim_max: 0,
    };
    if check(libc::getrlimit(libc::RLIMIT_NOFILE, &mut limit)).is_err() {
        return false;
    }
    match u64::try_from(fd) {
        Ok(fd) => fd.saturating_add(FOR_FILES) >= limit.rlim_cur,
        Err(_) => false,
    }
}

/// Returns the value of an option of a socket.
fn value(number: i32) -> [u8; 16] {
    let mut value = [0u8; 16];
    value[..4].copy_from_slice(&number.to_ne_bytes());
    value
}

/// Sets options of a socket.
fn set(fd: i32, options: SocketOptions) -> io::Result<()> {
    let size = value(options.buffer);
    check(unsafe { c::setsockopt(fd, c::SOL_SOCKET, c::SO_RCVBUF, &size, 4) })?;
    check(unsafe { c::setsockopt(fd, c::SOL_SOCKET, c::SO_SNDBUF, &size, 4) })?;
    if options.reuse_port {
        check(unsafe { c::setsockopt(fd, c::SOL_SOCKET, c::SO_REUSEPORT, &value(1), 4) })?;
    }
    Ok(())
}

/// Lets further sockets of this user be bound to the address of a socket, or lets none.
pub(crate) fn share(socket: &UdpSocket, is_shared: bool) -> io::Result<()> {
    let shared = value(i32::from(is_shared));
    check(unsafe {
        c::setsockopt(
            socket.as_raw_fd(),
            c::SOL_SOCKET,
            c::SO_REUSEPORT,
            &shared,
            4,
        )
    })
}

/// Returns an address as the bytes of C's `sockaddr_in`.
fn encode(address: SocketAddrV4) -> [u8; c::_SS_SIZE] {
    let mut raw = [0u8; c::_SS_SIZE];
    raw[0..2].copy_from_slice(&(c::AF_INET as u16).to_ne_bytes());
    raw[2..4].copy_from_slice(&address.port().to_be_bytes());
    raw[4..8].copy_from_slice(&address.ip().octets());
    raw
}

/// Returns an address as the bytes of C's `sockaddr_in6`.
fn encode6(address: SocketAddrV6) -> [u8; c::_SS_SIZE] {
    let mut raw = [0u8; c::_SS_SIZE];
    raw[0..2].copy_from_slice(&(c::AF_INET6 as u16).to_ne_bytes());
    raw[2..4].copy_from_slice(&address.port().to_be_bytes());
    raw[8..24].copy_from_slice(&address.ip().octets());
    raw
}

/// Binds a socket of IPv4 to an address.
fn bind4(fd: i32, address: SocketAddrV4) -> io::Result<()> {
    check(unsafe { c::bind(fd, &encode(address), LENGTH) })
}

/// Binds a socket of IPv6 to an address. It receives and sends datagrams of IPv6 alone, so that a socket of IPv4 can
/// have the same port (RFC 3493, section 5.3).
fn bind6(fd: i32, address: SocketAddrV6) -> io::Result<()> {
    check(unsafe { c::setsockopt(fd, c::IPPROTO_IPV6, c::IPV6_V6ONLY, &value(1), 4) })?;
    check(unsafe { c::bind(fd, &encode6(address), LENGTH6) })
}

/// Sets the options of a new socket of the family of an address, and binds it to the address.
fn bind_new(socket: OwnedFd, address: SocketAddr, options: SocketOptions) -> io::Result<UdpSocket> {
    let fd = socket.as_raw_fd();
    set(fd, options)?;
    match address {
        SocketAddr::V4(address) => bind4(fd, address)?,
        SocketAddr::V6(address) => bind6(fd, address)?,
    }
    Ok(UdpSocket::from(socket))
}

/// Binds a socket to an address.
pub(crate) fn bind<R: Net>(
    _net: &R,
    address: SocketAddr,
    options: SocketOptions,
) -> io::Result<UdpSocket> {
    bind_new(new_for(address)?, address, options)
}

/// Binds a socket to an address, unless its descriptor is one of those that are left for files.
/// See docs/DECISIONS.md, "Descriptors for files".
pub(crate) fn bind_spare<R: Net>(
    _net: &R,
    address: SocketAddr,
    options: SocketOptions,
) -> io::Result<UdpSocket> {
    let socket = new_for(address)?;
    if is_for_files(socket.as_raw_fd()) {
        return Err(io::Error::from_raw_os_error(libc::EMFILE));
    }
    bind_new(socket, address, options)
}

/// Returns the bytes that the smaller buffer of a socket has for datagrams. The system reports twice as many, half of
/// which it takes for its own records.
pub(crate) fn buffer_of(socket: &UdpSocket) -> io::Result<i32> {
    let fd = socket.as_raw_fd();
    let (mut received, mut sent) = ([0u8; 16], [0u8; 16]);
    let mut len: u32 = 4;
    check(unsafe { c::getsockopt(fd, c::SOL_SOCKET, c::SO_RCVBUF, &mut received, &mut len) })?;
    let mut len: u32 = 4;
    check(unsafe { c::getsockopt(fd, c::SOL_SOCKET, c::SO_SNDBUF, &mut sent, &mut len) })?;
    let [a, b, c, d, ..] = received;
    let [e, f, g, h, ..] = sent;
    let received = i32::from_ne_bytes([a, b, c, d]);
    let sent = i32::from_ne_bytes([e, f, g, h]);
    Ok(received.min(sent) / 2)
}

/// Returns an address as that of a socket.
pub(crate) fn socket_address(address: Addr) -> SocketAddr {
    match address {
        Addr::V4 { ip, port } => SocketAddr::V4(SocketAddrV4::new(Ipv4Addr::from(ip), port)),
        Addr::V6 { ip, port } => {
            SocketAddr::V6(SocketAddrV6::new(Ipv6Addr::from(ip), port, 0, 0))
        }
    }
}

/// Returns the address of a socket.
#[inline(always)]
pub(crate) fn addr_of(address: SocketAddr) -> Addr {
    let port = address.port();
    match address {
        SocketAddr::V4(address) => Addr::V4 {
            ip: address.ip().octets(),
            port,
        },
        SocketAddr::V6(address) => Addr::V6 {
            ip: address.ip().octets(),
            port,
        },
    }
}

/// Receives a datagram at a socket, if one has come.
#[inline(always)]
pub(crate) fn receive(socket: &UdpSocket, into: &mut [u8]) -> Result<Receipt, LinkFault> {
    match socket.recv_from(into) {
        Ok((n, from)) => Ok(Some((n, addr_of(from)))),
        Err(error) if error.kind() == ErrorKind::WouldBlock => Ok(None),
        Err(_) => Err(LinkFault),
    }
}
