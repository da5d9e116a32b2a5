//! The parts of a network's text.

ghost use Rattle.peer_filter.specs.Networks.{AreBitsIn, IsIpv4In, IsIpv6In};

use std::net::{Ipv4Addr, Ipv6Addr};

/// The most digits of a number of bits.
const MAX_DIGITS: usize = 3;

/// Parses a number of one to three decimal digits, without a sign. `None` is any other text.
pub(crate) fn bits_in(text: &str) -> Option<u16>
    ensures { AreBitsIn text.now result }
{
    let bytes = text.as_bytes();
    if bytes.is_empty() || bytes.len() > MAX_DIGITS || bytes[0] == b'+' {
        return None;
    }
    text.parse().ok()
}

/// Parses an IPv4 address to its number. `None` is a text that writes none.
pub(crate) fn ipv4_in(text: &str) -> Option<u32>
    ensures { IsIpv4In text.now result }
{
    let ip: Ipv4Addr = text.parse().ok()?;
    Some(ip.to_bits())
}

/// Parses an IPv6 address to its number. `None` is a text that writes none.
pub(crate) fn ipv6_in(text: &str) -> Option<u128>
    ensures { IsIpv6In text.now result }
{
    let ip: Ipv6Addr = text.parse().ok()?;
    Some(ip.to_bits())
}
