//! The order of addresses.

ghost use Rattle.std.specs.Cmp.{partial_order_from_agreeing_total};
ghost use Rattle.std.specs.Prelude.{◌≡◌, refl};
ghost use Rattle.std.specs.Ordering.{as_partial_cmp, nat_cmp, ordering_then};
ghost use Rattle.byteorder.specs.Endian.{big_number};
ghost use Rattle.addresses.specs.Addresses.{ip_of};
ghost use Rattle.addresses.specs.AddressOrder.{address_order, family_of, ip_cmp, ip_order};
ghost use Rattle.addresses.specs.laws.AddressOrder.{address_order-ties, address_order-total};

use crate::address::Addr;
use std::cmp::Ordering;

/// The numbers of the families (RFC 8656, section 18.6), by which addresses are ordered first.
const IPV4: u8 = 1;

const IPV6: u8 = 2;

/// Returns the number of an IPv4 address, that of its bytes with the highest first.
fn ipv4_number(ip: &[u8; 4]) -> u32
    ensures { result ≡ big_number 4 ip.now }
{
    u32::from_be_bytes(*ip)
}

/// Compares two IPv4 addresses by their bytes, as numbers.
fn cmp_ipv4(a: &[u8; 4], b: &[u8; 4]) -> Ordering
    ensures { result ≡ ip_order a.now b.now }
{
    ipv4_number(a).cmp(&ipv4_number(b))
}

/// Compares two IPv4 addresses by their bytes, and then by the ports, as numbers with the port at the end.
fn cmp_ipv4_port(a: &[u8; 4], port: u16, b: &[u8; 4], other_port: u16) -> Ordering
    ensures { result ≡ ordering_then (ip_cmp a.now b.now) (nat_cmp port other_port) }
{
    let first = u64::from(ipv4_number(a)) * 0x10000 + u64::from(port);
    let second = u64::from(ipv4_number(b)) * 0x10000 + u64::from(other_port);
    first.cmp(&second)
}

impl Addr {
    /// Returns the number of the family.
    fn family(&self) -> u8
        ensures { result ≡ family_of self.now }
    {
        match self {
            Addr::V4 { .. } => IPV4,
            Addr::V6 { .. } => IPV6,
        }
    }

    /// Compares the IP addresses alone, not the ports. An address of IPv4 is less than one of IPv6, and two of one
    /// family compare by their bytes.
    pub fn cmp_ip(&self, other: &Addr) -> Ordering
        ensures { result ≡ ip_order (ip_of self.now) (ip_of other.now) }
    {
        match (self, other) {
            (Addr::V4 { ip: a, .. }, Addr::V4 { ip: b, .. }) => cmp_ipv4(a, b),
            _ => self.cmp_ip_bytes(other),
        }
    }

    /// As [`Addr::cmp_ip`], by the lengths and the bytes.
    fn cmp_ip_bytes(&self, other: &Addr) -> Ordering
        ensures { result ≡ ip_order (ip_of self.now) (ip_of other.now) }
    {
        let (a, b) = (self.ip(), other.ip());
        a.len().cmp(&b.len()).then(a.cmp(b))
    }

    /// As [`Ord::cmp`], by the families, the bytes and the ports.
    fn cmp_parts(&self, other: &Addr) -> Ordering
        ensures { result ≡ address_order self.now other.now }
    {
        let ports = self.port().cmp(&other.port());
        self.family()
            .cmp(&other.family())
            .then(self.ip().cmp(other.ip()))
            .then(ports)
    }
}

impl PartialOrd for Addr {
    ghost partial_cmp = { as_partial_cmp address_order };

    ghost laws = { partial_order_from_agreeing_total address_order address_order-total
        (λ a b. refl) address_order-ties };

    fn partial_cmp(&self, other: &Addr) -> Option<Ordering> {
        Some(self.cmp(other))
    }
}

impl Ord for Addr {
    ghost cmp = { address_order };

    ghost total = { address_order-total };

    ghost matches_partial_cmp = { λ a b. refl };

    ghost matches_eq = { address_order-ties };

    /// Compares two addresses: those of IPv4 are less than those of IPv6, and those of one family compare by the bytes
    /// of the IP address, and then by the port.
    fn cmp(&self, other: &Addr) -> Ordering {
        match (self, other) {
            (Addr::V4 { ip: a, port: p }, Addr::V4 { ip: b, port: q }) => {
                cmp_ipv4_port(a, *p, b, *q)
            }
            _ => self.cmp_parts(other),
        }
    }
}
