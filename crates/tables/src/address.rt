//! Addresses: which are of IPv4, and which are the same.

ghost use Rattle.std.specs.Prelude.{◌≡◌};
ghost use Rattle.std.specs.Ordering.{eq_by_cmp};
ghost use Rattle.std.specs.List.{list_all};
ghost use Rattle.addresses.specs.Addresses.{ip_of, is_of_family};
ghost use Rattle.addresses.specs.AddressOrder.{ip_cmp, is_same_address};
ghost use Rattle.tables.specs.Addresses.{is_ipv4};

use attributes::{Addr, Family};

/// Returns whether an address is one of IPv4.
pub fn is_ipv4(address: &Addr) -> bool
    ensures { result ≡ is_ipv4 address.now }
{
    match address {
        Addr::V4 { .. } => true,
        Addr::V6 { .. } => false,
    }
}

/// Returns whether all addresses are of a family.
pub(crate) fn are_of(family: Family, addresses: &[Addr]) -> bool
    ensures { result ≡ list_all (is_of_family family) addresses.now }
{
    addresses.iter().all(|address| address.is_of_family(family))
}

/// Returns whether two addresses have the same IP address.
fn is_same_ip(a: &Addr, b: &Addr) -> bool
    ensures { result ≡ eq_by_cmp ip_cmp (ip_of a.now) (ip_of b.now) }
{
    a.cmp_ip(b).is_eq()
}

/// Returns whether two addresses have the same IP address and the same port.
pub(crate) fn is_same(a: &Addr, b: &Addr) -> bool
    ensures { result ≡ is_same_address a.now b.now }
{
    is_same_ip(a, b) && a.port() == b.port()
}
