//! Networks: the addresses that begin with the same bits.

ghost use Rattle.std.specs.Prelude.{◌≡◌, ◌<◌, ◌≤◌, ◌-◌, ◌%◌, ◌^◌, ◌==◌, not};
ghost use Rattle.peer_filter.specs.Networks.{address_width, network_in, prefix, ip_number, IsAccepted};

use crate::text::{bits_in, ipv4_in, ipv6_in};
use attributes::{Addr, Family};
use thiserror::Error;

/// A network: a family, and the addresses whose first `bits` bits are those of `address` (RFC 4632, section 3.1; RFC
/// 4291, section 2.3). Addresses are big-endian numbers.
#[derive(Clone, Copy, Debug, PartialEq, Eq)]
pub enum Network {
    V4 { address: u32, bits: u8 },
    V6 { address: u128, bits: u8 },
}

/// Why a text is no network.
#[derive(Clone, Copy, Debug, PartialEq, Eq, Error)]
pub enum NetworkError {
    /// It is not an address, a slash and a number of one to three decimal digits.
    #[error("not ADDRESS/BITS")]
    NotANetwork,
    /// The number is greater than that of the bits of an address: 32 of IPv4, 128 of IPv6.
    #[error("more bits than the address has")]
    Bits,
    /// A bit after the prefix is set.
    #[error("a bit after the prefix is set")]
    HostBits,
}

/// Returns the first `bits` bits of an address of `width` bits, as a number.
fn prefix(width: u16, address: u128, bits: u16) -> u128
    requires { width ≤ 128 }
    ensures { result ≡ prefix width bits address }
{
    let rest = width.saturating_sub(bits);
    address.checked_shr(u32::from(rest)).unwrap_or(0)
}

/// Returns whether a bit after the first `bits` bits of an address of `width` bits is set.
fn has_host_bits(width: u16, address: u128, bits: u16) -> bool
    requires { (bits ≤ width) × (width ≤ 128) }
    ensures { result ≡ not (address % 2 ^ (width - bits) == 0) }
{
    let before = 128 - (width - bits);
    address.checked_shl(u32::from(before)).unwrap_or(0) != 0
}

/// Returns the number of bits of an address of a family.
fn width_of(family: Family) -> u16
    ensures { result ≡ address_width family }
{
    match family {
        Family::Ipv4 => 32,
        Family::Ipv6 => 128,
    }
}

/// Makes a network of a family, of which no bit after the first `bits` may be set.
fn checked_network(family: Family, address: u128, bits: u16) -> Result<Network, NetworkError>
    requires { address < 2 ^ address_width family }
    ensures { IsAccepted (network_in family address bits) result }
{
    let width = width_of(family);
    if bits > width {
        return Err(NetworkError::Bits);
    }
    if has_host_bits(width, address, bits) {
        return Err(NetworkError::HostBits);
    }
    let bits = bits as u8;
    match family {
        Family::Ipv4 => Ok(Network::V4 {
            address: address as u32,
            bits,
        }),
        Family::Ipv6 => Ok(Network::V6 { address, bits }),
    }
}

/// Returns the number of an IP address.
#[tactic(auto, unfolding(crate::specs::Networks::ip_number))]
fn ip_number(peer: &Addr) -> u128
    ensures { result ≡ ip_number peer.now }
{
    match peer {
        Addr::V4 { ip, .. } => u128::from(u32::from_be_bytes(*ip)),
        Addr::V6 { ip, .. } => u128::from_be_bytes(*ip),
    }
}

impl Network {
    ghost use Rattle.std.specs.Prelude.{◌≡◌};
    ghost use Rattle.peer_filter.specs.Networks.{is_network_of, network_contains, prefix_bits, IsParsed};

    /// Parses a network, as `192.0.2.0/24` or `2001:db8::/32`: an address, a slash and the number of bits, in one to
    /// three decimal digits without a sign. Leading zeros count as digits: `/08` is `/8`, and `/0008` is refused.
    ///
    /// # Errors
    /// `NotANetwork` for any other text, then `Bits` for more bits than an address of the family has, then `HostBits`
    /// where a bit after the prefix is set.
    pub fn parse(text: &str) -> Result<Network, NetworkError>
        ensures { IsParsed text.now result }
    {
        let Some((address, digits)) = text.split_once('/') else {
            return Err(NetworkError::NotANetwork);
        };
        let Some(bits) = bits_in(digits) else {
            return Err(NetworkError::NotANetwork);
        };
        match ipv4_in(address) {
            Some(number) => checked_network(Family::Ipv4, u128::from(number), bits),
            None => match ipv6_in(address) {
                Some(number) => checked_network(Family::Ipv6, number, bits),
                None => Err(NetworkError::NotANetwork),
            },
        }
    }

    /// Returns the number of bits of the prefix.
    pub fn bits(&self) -> u8
        ensures { result ≡ prefix_bits self.now }
    {
        match self {
            Network::V4 { bits, .. } | Network::V6 { bits, .. } => *bits,
        }
    }

    /// Returns whether the addresses of the network are of a family.
    pub(crate) fn is_of_family(&self, family: Family) -> bool
        ensures { result ≡ is_network_of family self.now }
    {
        match (self, family) {
            (Network::V4 { .. }, Family::Ipv4) | (Network::V6 { .. }, Family::Ipv6) => true,
            _ => false,
        }
    }

    /// Returns whether an address is one of the network.
    pub fn contains(&self, peer: &Addr) -> bool
        ensures { result ≡ network_contains self.now peer.now }
    {
        let (width, address, bits) = match (self, peer) {
            (Network::V4 { address, bits }, Addr::V4 { .. }) => (32, u128::from(*address), *bits),
            (Network::V6 { address, bits }, Addr::V6 { .. }) => (128, *address, *bits),
            _ => return false,
        };
        let bits = u16::from(bits);
        prefix(width, address, bits) == prefix(width, ip_number(peer), bits)
    }
}
