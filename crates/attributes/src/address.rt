//! Transport addresses (RFC 8489, section 14.2).

ghost use Rattle.std.specs.Prelude.{◌≡◌, ℕ, List, ◌<◌, ◌+◌, slice_index, ◌≤◌, ◌∷◌, ◌++◌, length, take, drop, IfOk, IfErr, IsOkAnd, OnOk, OnErr, bit_xor};
ghost use Rattle.std.specs.Result.{result_ok};
ghost use Rattle.stun.specs.Endian.{big_bytes};
ghost use Rattle.stun.specs.Builders.{used_of, capacity_of, SameBuffer, Appends, HasNoRoom};
ghost use Rattle.stun.specs.Registry.{magic_cookie};
ghost use Rattle.stun.specs.declared.registry.family.TheConstants.{IPV4, IPV6};
ghost use Rattle.attributes.specs.Addresses.{IsAddressValue, address_value, address_in, port_in, address_value_in, cookie_half, ipv6_mask, xor_bytes};
ghost use Rattle.addresses.specs.declared.address.Addr as addr;
ghost use Rattle.attributes.specs.declared.refusal.ValueKind.TheVariants as kinds;

use crate::refusal::{ValueError, ValueKind};
use addresses::{Addr, law_is_address};
use byteorder::{BigEndian, ByteOrder};
use stun::registry::{MAGIC_COOKIE, family};
use stun::{Builder, NoRoom};

/// The length of the value of an IPv4 address, in bytes.
const IPV4_BYTES: usize = 8;

/// The length of the value of an IPv6 address, in bytes.
const IPV6_BYTES: usize = 20;

/// The length of what precedes the address in a value: a zero, the family and the port.
const FRONT: usize = 4;

/// The upper 16 bits of the cookie.
const COOKIE_HALF: u16 = (MAGIC_COOKIE >> 16) as u16;

/// Returns the number that an IPv6 address is xored with: the cookie, followed by the transaction id.
#[tactic(auto, unfolding(crate::specs::Addresses::ipv6_mask))]
fn ipv6_mask(tx: &[u8; 12]) -> u128
    ensures { result ≡ ipv6_mask tx.now }
{
    let mut bytes = [0; 16];
    BigEndian::write_u32(&mut bytes, MAGIC_COOKIE);
    let (_, id) = bytes.split_at_mut(4);
    id.copy_from_slice(tx);
    BigEndian::read_u128(&bytes)
}

/// Returns the port in the value of an address.
fn port_in(value: &[u8]) -> u16
    requires { 8 ≤ length value.now }
    ensures spelled { big_bytes 2 (bit_xor result cookie_half) ≡ take 2 (drop 2 value.now) }
    ensures port { result ≡ port_in value.now }
{
    let (_, rest) = value.split_at(2);
    BigEndian::read_u16(rest) ^ COOKIE_HALF
}

/// Returns the IPv4 address in a value.
fn ipv4_in(value: &[u8]) -> [u8; 4]
    requires { 8 ≤ length value.now }
    ensures spelled { xor_bytes 4 result magic_cookie ≡ take 4 (drop 4 value.now) }
    ensures ip { result ≡ xor_bytes 4 (drop 4 value.now) magic_cookie }
{
    let (_, rest) = value.split_at(4);
    (BigEndian::read_u32(rest) ^ MAGIC_COOKIE).to_be_bytes()
}

/// Returns the IPv6 address in a value.
fn ipv6_in(value: &[u8], tx: &[u8; 12]) -> [u8; 16]
    requires { 20 ≤ length value.now }
    ensures spelled { xor_bytes 16 result (ipv6_mask tx.now) ≡ take 16 (drop 4 value.now) }
    ensures ip { result ≡ xor_bytes 16 (drop 4 value.now) (ipv6_mask tx.now) }
{
    let (_, rest) = value.split_at(4);
    (BigEndian::read_u128(rest) ^ ipv6_mask(tx)).to_be_bytes()
}

/// Reads the value of an attribute with an XOR address, under the transaction id of its message
/// (RFC 8489, section 14.2).
///
/// # Errors
/// Returns A1 for a value that has neither 8 bytes and the family of IPv4 nor 20 bytes and that of IPv6.
pub fn read_xor_addr(value: &[u8], tx: &[u8; 12]) -> Result<Addr, ValueError>
    ensures reads { result_ok result ≡ address_in tx.now value.now }
    ensures found { IfOk result (λ a. IsAddressValue a tx.now value.now) }
    ensures kind { IfErr result (λ e. e.0 ≡ kinds.Address) }
    ensures refused { IfErr result (λ e. (a : addr.Addr) → IsAddressValue a tx.now value.now → ⊥) }
{
    if value.len() == IPV4_BYTES && value[1] == family::IPV4 {
        let address = Addr::V4 {
            ip: ipv4_in(value),
            port: port_in(value),
        };
        law_is_address(&address);
        return Ok(address);
    }
    if value.len() == IPV6_BYTES && value[1] == family::IPV6 {
        let address = Addr::V6 {
            ip: ipv6_in(value, tx),
            port: port_in(value),
        };
        law_is_address(&address);
        return Ok(address);
    }
    Err(ValueError(ValueKind::Address))
}

/// Writes what precedes an address: a zero, the family and the port.
fn write_front(front: &mut [u8], family: u8, port: u16)
    requires { length front.old ≡ 4 }
    ensures { front.new ≡ 0 ∷ family ∷ big_bytes 2 (bit_xor port cookie_half) }
{
    front[0] = 0;
    front[1] = family;
    let (_, rest) = front.split_at_mut(2);
    BigEndian::write_u16(rest, port ^ COOKIE_HALF);
}

/// Returns the value of an IPv4 address.
fn ipv4_value(ip: &[u8; 4], port: u16) -> [u8; IPV4_BYTES]
    ensures { result ≡ 0 ∷ IPV4 ∷ big_bytes 2 (bit_xor port cookie_half) ++ xor_bytes 4 ip.now magic_cookie }
{
    let mut value = [0; IPV4_BYTES];
    let (front, rest) = value.split_at_mut(FRONT);
    write_front(front, family::IPV4, port);
    BigEndian::write_u32(rest, BigEndian::read_u32(ip) ^ MAGIC_COOKIE);
    value
}

/// Returns the value of an IPv6 address.
fn ipv6_value(ip: &[u8; 16], port: u16, tx: &[u8; 12]) -> [u8; IPV6_BYTES]
    ensures { result
        ≡ 0 ∷ IPV6 ∷ big_bytes 2 (bit_xor port cookie_half) ++ xor_bytes 16 ip.now (ipv6_mask tx.now) }
{
    let mut value = [0; IPV6_BYTES];
    let (front, rest) = value.split_at_mut(FRONT);
    write_front(front, family::IPV6, port);
    BigEndian::write_u128(rest, BigEndian::read_u128(ip) ^ ipv6_mask(tx));
    value
}

/// Appends an attribute with an XOR address, under the transaction id of the message.
///
/// # Errors
/// Returns [`NoRoom`] as [`Builder::attr`] does, and changes nothing.
#[tactic(auto, unfolding(crate::specs::Addresses::address_value))]
pub fn write_xor_addr(builder: &mut Builder<'_>, kind: u16, address: &Addr) -> Result<(), NoRoom>
    ensures appends { OnOk result
        (Appends kind (address_value_in builder.old address.now) builder.old builder.new) }
    ensures no_room { OnErr result
        (HasNoRoom (address_value_in builder.old address.now) builder.old builder.new) }
    ensures same_buffer { SameBuffer builder.old builder.new }
{
    match address {
        Addr::V4 { ip, port } => builder.attr(kind, &ipv4_value(ip, *port)),
        Addr::V6 { ip, port } => {
            let value = ipv6_value(ip, *port, &builder.tx());
            builder.attr(kind, &value)
        }
    }
}

/// Appends an attribute with an XOR address where there is room for the longest, so that it can't fail.
#[tactic(auto, unfolding(crate::specs::Addresses::address_value))]
pub fn push_xor_addr(builder: &mut Builder<'_>, kind: u16, address: &Addr)
    requires room { used_of builder.old + 27 ≤ capacity_of builder.old }
    ensures appends { Appends kind (address_value_in builder.old address.now) builder.old builder.new }
    ensures most { used_of builder.new ≤ used_of builder.old + 24 }
    ensures same_buffer { SameBuffer builder.old builder.new }
{
    match address {
        Addr::V4 { ip, port } => builder.push(kind, &ipv4_value(ip, *port).as_slice()),
        Addr::V6 { ip, port } => {
            let value = ipv6_value(ip, *port, &builder.tx());
            builder.push(kind, &value.as_slice());
        }
    }
}

/// States that the value of an address has at most 20 bytes.
pub fn law_values_are_short()
    ensures { (a : addr.Addr) (tx : List ℕ) → length (address_value a tx) ≤ 20 }
{}

/// States that every item of a slice of bytes is below 256.
fn law_are_bytes(bytes: &[u8])
    ensures { (i : ℕ) → slice_index bytes.now i < 256 }
{}

/// Reads an address back from its value, which may have any first byte: this always succeeds.
pub fn read_back(address: &Addr, tx: &[u8; 12], value: &[u8]) -> Result<Addr, ValueError>
    requires { IsAddressValue address.now tx.now value.now }
    ensures { IsOkAnd result (λ a. a ≡ address.now) }
{
    let address = read_xor_addr(value, tx)?;
    Ok(address)
}

/// States that a value has at most one address under a transaction id.
pub fn law_addresses_are_unique(tx: &[u8; 12])
    ensures { (a b : addr.Addr) (value : List ℕ)
        → IsAddressValue a tx.now value → IsAddressValue b tx.now value → a ≡ b }
{
    law_are_bytes(tx);
}
