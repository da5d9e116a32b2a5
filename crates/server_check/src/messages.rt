//! The messages of a check (RFC 8489; RFC 8656).

use crate::error::{CheckError, CheckStep};
use attributes::{Addr, Family, read_xor_addr, write_xor_addr};
use credentials::{Key, sign};
use stun::registry::attribute::{
    DATA, ERROR_CODE, LIFETIME, NONCE, REALM, REQUESTED_ADDRESS_FAMILY, REQUESTED_TRANSPORT,
    USERNAME, XOR_PEER_ADDRESS,
};
use stun::registry::{Class, MessageType, Method};
use stun::{Builder, Message, NoRoom, read};

/// The most bytes of a message.
pub(crate) const MESSAGE_BYTES: usize = 1_500;

/// The value of REQUESTED-TRANSPORT for UDP (RFC 8656, section 18.8).
const UDP: [u8; 4] = [17, 0, 0, 0];

/// The value of REQUESTED-ADDRESS-FAMILY for IPv6 (RFC 8656, section 18.6).
const IPV6: [u8; 4] = [2, 0, 0, 0];

/// The response to a request without credentials (RFC 8489, section 9.2.4).
pub(crate) const UNAUTHENTICATED: u16 = 401;

/// The response to a request with a nonce that the server has replaced (RFC 8489, section 9.2.4).
const STALE_NONCE: u16 = 438;

/// What the requests of a user are signed with.
#[derive(Clone, Copy)]
pub(crate) struct Login<'a> {
    pub(crate) name: &'a str,
    pub(crate) realm: &'a [u8],
    pub(crate) nonce: &'a [u8],
    pub(crate) key: Key,
}

/// A request of a check.
#[derive(Clone, Copy)]
pub(crate) enum RequestKind {
    Binding,
    /// An allocation of a family.
    Allocate(Family),
    /// A permission for an address.
    Permission(Addr),
    /// The end of the allocation.
    Release,
}

impl RequestKind {
    /// Returns the method.
    pub(crate) fn method(self) -> Method {
        match self {
            RequestKind::Binding => Method::Binding,
            RequestKind::Allocate(_) => Method::Allocate,
            RequestKind::Permission(_) => Method::CreatePermission,
            RequestKind::Release => Method::Refresh,
        }
    }

    /// Appends the attributes of the request, without those of a user.
    fn push_values(self, builder: &mut Builder<'_>) -> Result<(), NoRoom> {
        match self {
            RequestKind::Binding => Ok(()),
            RequestKind::Allocate(family) => {
                builder.attr(REQUESTED_TRANSPORT, &UDP)?;
                match family {
                    // what a server gives where none is asked for (RFC 8656, section 7.2)
                    Family::Ipv4 => Ok(()),
                    Family::Ipv6 => builder.attr(REQUESTED_ADDRESS_FAMILY, &IPV6),
                }
            }
            RequestKind::Permission(peer) => write_xor_addr(builder, XOR_PEER_ADDRESS, &peer),
            RequestKind::Release => builder.attr(LIFETIME, &[0; 4]),
        }
    }
}

/// Appends the attributes of a user, and signs the message.
fn push_login(builder: &mut Builder<'_>, login: &Login<'_>) -> Result<(), NoRoom> {
    builder.attr(USERNAME, login.name.as_bytes())?;
    builder.attr(REALM, login.realm)?;
    builder.attr(NONCE, login.nonce)?;
    sign(builder, &login.key)
}

/// Writes a request over the first bytes of a buffer, and returns how many it has.
///
/// # Errors
/// Where it doesn't fit.
pub(crate) fn write_request(
    ask: RequestKind,
    login: Option<&Login<'_>>,
    tx: [u8; 12],
    buffer: &mut [u8],
) -> Result<usize, NoRoom> {
    let kind = MessageType {
        method: ask.method(),
        class: Class::Request,
    };
    let mut builder = Builder::start(buffer, kind.kind(), tx)?;
    ask.push_values(&mut builder)?;
    if let Some(login) = login {
        push_login(&mut builder, login)?;
    }
    Ok(builder.finish())
}

/// Writes a Send indication over the first bytes of a buffer, and returns how many it has.
///
/// # Errors
/// Where it doesn't fit.
pub(crate) fn write_send(
    peer: &Addr,
    bytes: &[u8],
    tx: [u8; 12],
    buffer: &mut [u8],
) -> Result<usize, NoRoom> {
    let kind = MessageType {
        method: Method::Send,
        class: Class::Indication,
    };
    let mut builder = Builder::start(buffer, kind.kind(), tx)?;
    write_xor_addr(&mut builder, XOR_PEER_ADDRESS, peer)?;
    builder.attr(DATA, bytes)?;
    Ok(builder.finish())
}

/// Returns whether a datagram is a message of a transaction.
pub(crate) fn is_of(datagram: &[u8], tx: [u8; 12]) -> bool {
    match read(datagram) {
        Ok(message) => message.tx() == tx,
        Err(_) => false,
    }
}

/// Returns the peer that a datagram names, if it is a Data indication of these bytes.
pub(crate) fn peer_of_data(datagram: &[u8], bytes: &[u8]) -> Option<Addr> {
    let kind = MessageType {
        method: Method::Data,
        class: Class::Indication,
    };
    match read(datagram) {
        Ok(message) if message.kind() == kind.kind() && message.value_of(DATA) == Some(bytes) => {
            address_in(&message, XOR_PEER_ADDRESS)
        }
        _ => None,
    }
}

/// Returns the code of an error response, 0 where it has none.
fn code_of(message: &Message<'_>) -> u16 {
    match message.value_of(ERROR_CODE) {
        Some([_, _, class, number, ..]) => u16::from(class % 8) * 100 + u16::from(*number % 100),
        _ => 0,
    }
}

/// Returns the response to a request of a step, and the code of its error, `None` where it is a success.
///
/// # Errors
/// `Unexpected` where a datagram isn't one.
pub(crate) fn response_in(
    step: CheckStep,
    ask: RequestKind,
    datagram: &[u8],
) -> Result<(Message<'_>, Option<u16>), CheckError> {
    let Ok(message) = read(datagram) else {
        return Err(CheckError::Unexpected(step));
    };
    match MessageType::from_kind(message.kind()) {
        Some(kind) if kind.method == ask.method() && kind.class == Class::Success => {
            Ok((message, None))
        }
        Some(kind) if kind.method == ask.method() && kind.class == Class::Error => {
            let code = code_of(&message);
            Ok((message, Some(code)))
        }
        _ => Err(CheckError::Unexpected(step)),
    }
}

/// Returns whether the response to a request of a step says that the nonce is stale.
///
/// # Errors
/// `Unexpected` where a datagram isn't a response.
pub(crate) fn is_stale(
    step: CheckStep,
    ask: RequestKind,
    datagram: &[u8],
) -> Result<bool, CheckError> {
    let (_, code) = response_in(step, ask, datagram)?;
    Ok(code == Some(STALE_NONCE))
}

/// Returns the address in an attribute of a message, if it has one.
pub(crate) fn address_in(message: &Message<'_>, kind: u16) -> Option<Addr> {
    read_xor_addr(message.value_of(kind)?, &message.tx()).ok()
}
