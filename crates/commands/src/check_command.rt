//! Checking a server as a client does.

use command_line::OptionError;
use rand::make_rng;
use rand::rngs::StdRng;
use server_check::{Account, check as check_server};
use setup::{CommandError, end};
use std::io::{self, Write};
use std::net::{Net, SocketAddr, ToSocketAddrs};
use std::random::RandomSource;
use std::rt::Clock;

/// Returns the user of a text, whose name ends at the first colon.
fn account_of<'a>(text: Option<&'a str>) -> Result<Option<Account<'a>>, CommandError<'a>> {
    let option = "--user <NAME:PASSWORD>";
    let Some(text) = text else {
        return Ok(None);
    };
    match text.split_once(':') {
        Some((name, password)) => Ok(Some(Account { name, password })),
        None => Err(CommandError::Value(OptionError { option, text })),
    }
}

/// Returns an address of a server, of IPv4 where it has one.
fn address_of<R: Net>(rt: &R, server: &str) -> Option<SocketAddr> {
    let mut found = None;
    for address in server.to_socket_addrs(rt).ok()? {
        if address.is_ipv4() {
            return Some(address);
        }
        found = Some(address);
    }
    found
}

/// Checks the server at an address, or at a name, and a port, with an allocation where a user is given. Prints what
/// works, and returns the exit status.
pub fn check<R: Net + Clock + Print + RandomSource + AllocGlobal, E: Write>(
    rt: &R,
    err: &mut E,
    server: &str,
    user: Option<&str>,
) -> u8 {
    let account = match account_of(user) {
        Ok(account) => account,
        Err(error) => return end(err, error),
    };
    let Some(address) = address_of(rt, server) else {
        return end(err, CommandError::Server(server));
    };
    let drawn: io::Result<StdRng> = make_rng(rt);
    let Ok(mut rng) = drawn else {
        return end(err, CommandError::Random);
    };
    match check_server(rt, &mut rng, address, account, &mut io::writer(rt)) {
        Ok(()) => 0,
        Err(error) => end(err, CommandError::Check(error)),
    }
}
