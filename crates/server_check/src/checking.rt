//! The steps of a check.

use crate::error::{CheckError, CheckStep};
use crate::exchange::{Exchange, ReceivedMessage, Wanted, What};
use crate::messages::{
    Login, MESSAGE_BYTES, RequestKind, UNAUTHENTICATED, address_in, is_stale, peer_of_data,
    response_in, write_send,
};
use attributes::{Addr, Family, lifetime};
use credentials::Key;
use rand::Rng;
use std::io::Write;
use std::net::{Ipv4Addr, Ipv6Addr, Net, SocketAddr, SocketAddrV4, SocketAddrV6};
use std::rt::Clock;
use std::str;
use std::time::Duration;
use stun::read;
use stun::registry::attribute::{LIFETIME, NONCE, REALM, XOR_MAPPED_ADDRESS, XOR_RELAYED_ADDRESS};

/// What is sent over the relay.
const DATA: &[u8] = b"relayd check";

/// A user that a server knows.
#[derive(Clone, Copy)]
pub struct Account<'a> {
    pub name: &'a str,
    pub password: &'a str,
}

/// Prints a step that works, and how long it took, in milliseconds.
fn print<W: Write>(out: &mut W, step: &str, took: Duration) -> Result<(), CheckError> {
    let micros = took.as_micros();
    let (whole, tenth) = (micros / 1_000, micros % 1_000 / 100);
    writeln!(out, "{step}, {whole}.{tenth} ms").map_err(|_| CheckError::Output)
}

/// Returns an address as that of a socket.
fn socket_address(address: &Addr) -> SocketAddr {
    match *address {
        Addr::V4 { ip, port } => SocketAddr::V4(SocketAddrV4::new(Ipv4Addr::from(ip), port)),
        Addr::V6 { ip, port } => {
            SocketAddr::V6(SocketAddrV6::new(Ipv6Addr::from(ip), port, 0, 0))
        }
    }
}

/// Returns the address in an attribute of a success response to a request of a step.
fn granted(
    step: CheckStep,
    ask: RequestKind,
    reply: &ReceivedMessage,
    kind: u16,
) -> Result<Addr, CheckError> {
    match response_in(step, ask, reply.as_bytes())? {
        (message, None) => address_in(&message, kind).ok_or(CheckError::Unexpected(step)),
        (_, Some(code)) => Err(CheckError::Refused(step, code)),
    }
}

/// Tests whether a request of a step is granted.
fn expect_success(
    step: CheckStep,
    ask: RequestKind,
    reply: &ReceivedMessage,
) -> Result<(), CheckError> {
    match response_in(step, ask, reply.as_bytes())? {
        (_, None) => Ok(()),
        (_, Some(code)) => Err(CheckError::Refused(step, code)),
    }
}

/// Returns what the requests of a user are signed with, by the realm and the nonce of a response of a server, if it has
/// both.
fn login_in<'a>(account: Account<'a>, response: &'a ReceivedMessage) -> Option<Login<'a>> {
    let message = read(response.as_bytes()).ok()?;
    let (realm, nonce) = (message.value_of(REALM)?, message.value_of(NONCE)?);
    let text = str::from_utf8(realm).ok()?;
    Some(Login {
        name: account.name,
        realm,
        nonce,
        key: Key::of(account.name.as_bytes(), text, account.password.as_bytes()),
    })
}

/// The requests of a user, each with the realm and the nonce that the server has given last.
#[derive(Drop)]
struct Session<'a> {
    account: Account<'a>,
    /// The family of its allocation.
    family: Family,
    /// The response that has realm and nonce.
    challenge: ReceivedMessage,
}

impl<'a> Session<'a> {
    /// Begins by an Allocate request without credentials.
    fn begin<R: Clock + Net, G: Rng>(
        exchange: &mut Exchange<'_, R, G>,
        account: Account<'a>,
        family: Family,
    ) -> Result<Session<'a>, CheckError> {
        let (step, ask) = (CheckStep::Challenge, RequestKind::Allocate(family));
        let challenge = exchange.ask(step, ask, None)?;
        match response_in(step, ask, challenge.as_bytes())? {
            (_, Some(UNAUTHENTICATED)) => {}
            (_, Some(code)) => return Err(CheckError::Refused(step, code)),
            (_, None) => return Err(CheckError::Unexpected(step)),
        }
        if login_in(account, &challenge).is_none() {
            return Err(CheckError::Unexpected(step));
        }
        Ok(Session {
            account,
            family,
            challenge,
        })
    }

    /// Sends a request of a step with credentials until its response comes.
    fn ask_once<R: Clock + Net, G: Rng>(
        &self,
        exchange: &mut Exchange<'_, R, G>,
        step: CheckStep,
        ask: RequestKind,
    ) -> Result<ReceivedMessage, CheckError> {
        match login_in(self.account, &self.challenge) {
            Some(login) => exchange.ask(step, ask, Some(&login)),
            None => Err(CheckError::Unexpected(step)),
        }
    }

    /// Sends a request of a step with credentials until its response comes, and once more, with the new nonce, where
    /// that says that the nonce is stale (RFC 8489, section 9.2.5).
    fn ask<R: Clock + Net, G: Rng>(
        &mut self,
        exchange: &mut Exchange<'_, R, G>,
        step: CheckStep,
        ask: RequestKind,
    ) -> Result<ReceivedMessage, CheckError> {
        let reply = self.ask_once(exchange, step, ask)?;
        if !is_stale(step, ask, reply.as_bytes())? {
            return Ok(reply);
        }
        self.challenge = reply;
        self.ask_once(exchange, step, ask)
    }
}

/// Returns the lifetime that the response to an Allocate request gives, in seconds.
fn lifetime_in(ask: RequestKind, reply: &ReceivedMessage) -> Result<u32, CheckError> {
    let step = CheckStep::Allocate;
    let (message, _) = response_in(step, ask, reply.as_bytes())?;
    let Some(value) = message.value_of(LIFETIME) else {
        return Err(CheckError::Unexpected(step));
    };
    lifetime(value).map_err(|_| CheckError::Unexpected(step))
}

/// Asks for the address of the client as the server sees it.
fn bind<R: Clock + Net, G: Rng, W: Write>(
    exchange: &mut Exchange<'_, R, G>,
    out: &mut W,
) -> Result<Addr, CheckError> {
    let reply = exchange.ask(CheckStep::Binding, RequestKind::Binding, None)?;
    let mapped = granted(
        CheckStep::Binding,
        RequestKind::Binding,
        &reply,
        XOR_MAPPED_ADDRESS,
    )?;
    let address = socket_address(&mapped);
    if write!(out, "this client is {address}: ").is_err() {
        return Err(CheckError::Output);
    }
    print(out, "Binding", reply.took)?;
    Ok(mapped)
}

/// Prints the allocation that a response gives, and returns the relayed address.
fn print_allocation<W: Write>(
    ask: RequestKind,
    reply: &ReceivedMessage,
    out: &mut W,
) -> Result<Addr, CheckError> {
    let relayed = granted(CheckStep::Allocate, ask, reply, XOR_RELAYED_ADDRESS)?;
    let seconds = lifetime_in(ask, reply)?;
    let address = socket_address(&relayed);
    if write!(out, "{address} for {seconds} s: ").is_err() {
        return Err(CheckError::Output);
    }
    print(out, "Allocate", reply.took)?;
    Ok(relayed)
}

/// Asks for a permission for the client itself.
fn permit<R: Clock + Net, G: Rng, W: Write>(
    exchange: &mut Exchange<'_, R, G>,
    session: &mut Session<'_>,
    mapped: Addr,
    out: &mut W,
) -> Result<(), CheckError> {
    let ask = RequestKind::Permission(mapped);
    let reply = session.ask(exchange, CheckStep::Permission, ask)?;
    expect_success(CheckStep::Permission, ask, &reply)?;
    print(out, "CreatePermission", reply.took)
}

/// Sends a datagram to the relayed address, which comes back from the server, and returns the address that it had
/// there. A NAT of the client may give it another port than the requests (RFC 4787, section 4.1).
fn send_to_relayed<R: Clock + Net, G: Rng, W: Write>(
    exchange: &Exchange<'_, R, G>,
    relayed: SocketAddr,
    out: &mut W,
) -> Result<Addr, CheckError> {
    let wanted = Wanted {
        step: CheckStep::ToRelayed,
        from: exchange.server,
        is: What::Data(DATA),
    };
    let reply = exchange.send_until(DATA, relayed, &wanted)?;
    print(out, "a datagram to the relayed address", reply.took)?;
    peer_of_data(reply.as_bytes(), DATA).ok_or(CheckError::Unexpected(CheckStep::ToRelayed))
}

/// Sends a datagram to the client itself over the relay.
fn send_from_relayed<R: Clock + Net, G: Rng, W: Write>(
    exchange: &mut Exchange<'_, R, G>,
    client: &Addr,
    relayed: SocketAddr,
    out: &mut W,
) -> Result<(), CheckError> {
    let tx = exchange.draw();
    let mut buffer = [0; MESSAGE_BYTES];
    let Ok(len) = write_send(client, DATA, tx, &mut buffer) else {
        return Err(CheckError::Long);
    };
    let wanted = Wanted {
        step: CheckStep::FromRelayed,
        from: relayed,
        is: What::Bytes(DATA),
    };
    let indication = buffer.get(..len).unwrap_or(&[]);
    let reply = exchange.send_until(indication, exchange.server, &wanted)?;
    print(out, "a datagram from the relayed address", reply.took)
}

/// Ends the allocation.
fn release<R: Clock + Net, G: Rng>(
    exchange: &mut Exchange<'_, R, G>,
    session: &mut Session<'_>,
) -> Result<(), CheckError> {
    let reply = session.ask(exchange, CheckStep::Release, RequestKind::Release)?;
    expect_success(CheckStep::Release, RequestKind::Release, &reply)
}

/// Sends data over the allocation that a response gives: to the relayed address, and from it.
fn relay<R: Clock + Net, G: Rng, W: Write>(
    exchange: &mut Exchange<'_, R, G>,
    session: &mut Session<'_>,
    allocated: &ReceivedMessage,
    mapped: Addr,
    out: &mut W,
) -> Result<(), CheckError> {
    let relayed = print_allocation(RequestKind::Allocate(session.family), allocated, out)?;
    permit(exchange, session, mapped, out)?;
    let relayed = socket_address(&relayed);
    // the first one opens the way back through a NAT of the client
    let client = send_to_relayed(exchange, relayed, out)?;
    send_from_relayed(exchange, &client, relayed, out)
}

/// Checks an allocation of a user, of the family of the client. Once it is granted, it is ended in any case.
fn check_user<R: Clock + Net, G: Rng, W: Write>(
    exchange: &mut Exchange<'_, R, G>,
    account: Account<'_>,
    mapped: Addr,
    out: &mut W,
) -> Result<(), CheckError> {
    let family = match mapped {
        Addr::V4 { .. } => Family::Ipv4,
        Addr::V6 { .. } => Family::Ipv6,
    };
    let mut session = Session::begin(exchange, account, family)?;
    let ask = RequestKind::Allocate(family);
    let reply = session.ask(exchange, CheckStep::Allocate, ask)?;
    expect_success(CheckStep::Allocate, ask, &reply)?;
    let relays = relay(exchange, &mut session, &reply, mapped, out);
    let released = release(exchange, &mut session);
    relays.and(released)
}

/// Checks a server, as a client does: asks it for a Binding and, with a user, for an allocation and a permission for
/// the client itself, and sends a datagram to itself over the relay and back. Prints a line for each step that works,
/// with how long it took.
/// See docs/DECISIONS.md, "A check asks as a client".
///
/// # Errors
/// The first step that doesn't work.
pub fn check<R: Clock + Net, G: Rng, W: Write>(
    rt: &R,
    rng: &mut G,
    server: SocketAddr,
    account: Option<Account<'_>>,
    out: &mut W,
) -> Result<(), CheckError> {
    let mut exchange = Exchange::new(rt, rng, server)?;
    let mapped = bind(&mut exchange, out)?;
    match account {
        Some(account) => check_user(&mut exchange, account, mapped, out),
        None => Ok(()),
    }
}
