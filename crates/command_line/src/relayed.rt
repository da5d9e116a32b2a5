//! The relayed addresses of a server, which are those that its sockets are bound to where no option says otherwise.

ghost use Rattle.std.specs.Prelude.{IfOk, IfErr};
ghost use Rattle.command_line.specs.Relayed.{IsRelayedIp, IsRelayedIp6, IsNoRelayedIp, IsNoRelayedIp6};

use crate::{Options, ServerOptions};
use std::net::Ipv4Addr;
use thiserror::Error;

/// Why a server has no relayed address. Displays as the line for standard error.
#[derive(Clone, Copy, Debug, PartialEq, Eq, Error)]
pub enum RelayedError {
    /// Sockets are bound to all addresses of the machine, and none is given as the relayed one.
    #[error("error: '--relay-ip <A>' is required with '--listen 0.0.0.0'")]
    NoRelayIp,
    /// A relayed IPv6 address is given, and none that sockets are bound to.
    #[error("error: '--relay-ip6 <HEX>' needs '--listen6 <A>'")]
    NoListen6,
}

/// Returns the relayed IPv4 address of a server: that of `--relay-ip`, or else that of `--listen`.
/// See docs/DECISIONS.md, "The default of a server's relayed address".
///
/// # Errors
/// `NoRelayIp` where `--relay-ip` is not given, and `--listen` is 0.0.0.0.
pub fn relayed_ip(
    server: &ServerOptions<'_>,
    options: &Options<'_>,
) -> Result<Ipv4Addr, RelayedError>
    ensures ok { IfOk result (IsRelayedIp server.now options.now) }
    ensures refused { IfErr result (IsNoRelayedIp server.now options.now) }
{
    match options.relay_ip {
        Some(ip) => Ok(ip),
        None if server.listen.is_unspecified() => Err(RelayedError::NoRelayIp),
        None => Ok(server.listen),
    }
}

/// Returns the relayed IPv6 address of a server, if there is one: that of `--relay-ip6`, or else that of `--listen6`.
///
/// # Errors
/// `NoListen6` where `--relay-ip6` is given, and `--listen6` is not.
pub fn relayed_ip6(
    server: &ServerOptions<'_>,
    options: &Options<'_>,
) -> Result<Option<[u8; 16]>, RelayedError>
    ensures ok { IfOk result (IsRelayedIp6 server.now options.now) }
    ensures refused { IfErr result (IsNoRelayedIp6 server.now options.now) }
{
    match (options.relay_ip6, server.listen6) {
        (Some(_), None) => Err(RelayedError::NoListen6),
        (Some(octets), Some(_)) => Ok(Some(octets)),
        (None, Some(listen)) => Ok(Some(listen.octets())),
        (None, None) => Ok(None),
    }
}
