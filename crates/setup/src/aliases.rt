//! Addresses that count as others, as texts of an option.

ghost use Rattle.std.specs.Prelude.{IfSome, IfNone};
ghost use Rattle.setup.specs.Aliases.{IsTextOfIp, IsNoIpText, IsAliasIn};

use attributes::Addr;
use rules::Alias;
use std::net::IpAddr;

/// Parses an address: four decimal numbers, or as RFC 4291, section 2.2, writes one of IPv6. Its port is 0.
fn address(text: &str) -> Option<Addr>
    ensures found { IfSome result (IsTextOfIp text.now) }
    ensures none { IfNone result (IsNoIpText text.now) }
{
    let parsed: Result<IpAddr, _> = text.parse();
    match parsed {
        Ok(IpAddr::V4(ip)) => Some(Addr::V4 {
            ip: ip.octets(),
            port: 0,
        }),
        Ok(IpAddr::V6(ip)) => Some(Addr::V6 {
            ip: ip.octets(),
            port: 0,
        }),
        Err(_) => None,
    }
}

/// Parses an alias, written as `A=B`: the address A counts as the address B. `None` is a text that spells none.
pub fn alias(text: &str) -> Option<Alias>
    ensures { IsAliasIn text.now result }
{
    let Some((name, other)) = text.split_once('=') else {
        return None;
    };
    match (address(name), address(other)) {
        (Some(address), Some(counts_as)) => Some(Alias { address, counts_as }),
        _ => None,
    }
}
