//! Addresses.

ghost use Rattle.std.specs.Prelude.{◌≡◌, ℕ, ◌<◌, slice_index};
ghost use Rattle.addresses.specs.Addresses.{HasWidth, IsAddress};

/// A family of IP addresses (RFC 8656, section 18.6).
#[derive(Clone, Copy, Debug, PartialEq, Eq)]
pub enum Family {
    Ipv4,
    Ipv6,
}

/// A transport address: an IP address and a port.
#[derive(Clone, Copy, Debug, PartialEq, Eq)]
pub enum Addr {
    V4 { ip: [u8; 4], port: u16 },
    V6 { ip: [u8; 16], port: u16 },
}

impl Addr {
    ghost use Rattle.std.specs.Prelude.{◌≡◌};
    ghost use Rattle.addresses.specs.Addresses.{ip_of, is_of_family, port_of};

    /// Returns the bytes of the IP address: 4 of IPv4, 16 of IPv6.
    pub fn ip(&self) -> &[u8]
        ensures { result.now ≡ ip_of self.now }
    {
        match self {
            Addr::V4 { ip, .. } => ip,
            Addr::V6 { ip, .. } => ip,
        }
    }

    /// Returns whether the address is one of a family.
    pub fn is_of_family(&self, family: Family) -> bool
        ensures { result ≡ is_of_family family self.now }
    {
        match (family, self) {
            (Family::Ipv4, Addr::V4 { .. }) | (Family::Ipv6, Addr::V6 { .. }) => true,
            _ => false,
        }
    }

    /// Returns the port.
    pub fn port(&self) -> u16
        ensures { result ≡ port_of self.now }
    {
        match self {
            Addr::V4 { port, .. } | Addr::V6 { port, .. } => *port,
        }
    }
}

impl Default for Addr {
    ghost use Rattle.std.specs.Prelude.{◌≡◌, ◌∷◌, []};
    ghost use Rattle.addresses.specs.declared.address.Addr.TheVariants.{V4};

    /// Returns the unspecified address of IPv4, 0.0.0.0, with the port 0.
    fn default() -> Self
        ensures { result ≡ V4 (0 ∷ 0 ∷ 0 ∷ 0 ∷ []) 0 }
    {
        Addr::V4 {
            ip: [0; 4],
            port: 0,
        }
    }
}

/// States that every item of a slice of bytes is below 256.
fn law_are_bytes(bytes: &[u8])
    ensures { (i : ℕ) → slice_index bytes.now i < 256 }
{}

/// States that an address of `N` bytes and its port have their widths.
fn law_has_width<const N: usize>(ip: &[u8; N], port: u16)
    ensures { HasWidth N ip.now port }
{
    law_are_bytes(ip);
}

/// States that an address has the bytes of its family, and a port of 16 bits.
pub fn law_is_address(address: &Addr)
    ensures { IsAddress address.now }
{
    match address {
        Addr::V4 { ip, port } => law_has_width(ip, *port),
        Addr::V6 { ip, port } => law_has_width(ip, *port),
    }
}
