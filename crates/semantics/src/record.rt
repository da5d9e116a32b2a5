//! Address records.

ghost use Rattle.std.specs.Prelude.{◌≡◌, ◌∷◌, ◌++◌, take, drop};
ghost use Rattle.insn.specs.Endian.{big_bytes};
ghost use Rattle.semantics.specs.Records.{address_of, address_record, wide_record};

use crate::helper::{RECORD_BYTES, WIDE_RECORD_BYTES, widened};
use addresses::Addr;
use byteorder::{BigEndian, ByteOrder};

/// Returns the record of an IPv4 address: zero, the family 1, the port and the address, in network byte order.
fn ipv4_record(ip: &[u8; 4], port: u16) -> [u8; RECORD_BYTES]
    ensures { result ≡ 0 ∷ 1 ∷ big_bytes 2 port ++ ip.now }
{
    let mut bytes = [0; RECORD_BYTES];
    bytes[1] = 1;
    bytes[2..4].copy_from_slice(&port.to_be_bytes());
    bytes[4..].copy_from_slice(ip);
    bytes
}

/// Returns the record of an address: that of an IPv4 address, and eight zeros for an IPv6 address.
pub fn address_record(address: &Addr) -> [u8; RECORD_BYTES]
    ensures { result ≡ address_record address.now }
{
    match address {
        Addr::V4 { ip, port } => ipv4_record(ip, *port),
        Addr::V6 { .. } => [0; RECORD_BYTES],
    }
}

/// Returns the wide record of an IPv6 address: zero, the family 2, the port and the address, in network byte order.
fn ipv6_record(ip: &[u8; 16], port: u16) -> [u8; WIDE_RECORD_BYTES]
    ensures { result ≡ 0 ∷ 2 ∷ big_bytes 2 port ++ ip.now }
{
    let mut bytes = [0; WIDE_RECORD_BYTES];
    bytes[1] = 2;
    bytes[2..4].copy_from_slice(&port.to_be_bytes());
    bytes[4..].copy_from_slice(ip);
    bytes
}

/// Returns the wide record of an address: that of an IPv4 address has zeros at its end.
pub fn wide_record(address: &Addr) -> [u8; WIDE_RECORD_BYTES]
    ensures { result ≡ wide_record address.now }
{
    match address {
        Addr::V4 { ip, port } => widened(&ipv4_record(ip, *port)),
        Addr::V6 { ip, port } => ipv6_record(ip, *port),
    }
}

/// Returns the IPv4 address in a wide record.
fn ipv4_of(bytes: &[u8; WIDE_RECORD_BYTES]) -> [u8; 4]
    ensures { result ≡ take 4 (drop 4 bytes.now) }
{
    let mut ip = [0; 4];
    let (_, rest) = bytes.split_at(4);
    let (front, _) = rest.split_at(4);
    ip.copy_from_slice(front);
    ip
}

/// Returns the IPv6 address in a wide record. Its last byte is copied apart, so that the eight before it, which stand
/// where an IPv4 address has nothing, are moved as one word.
fn ipv6_of(bytes: &[u8; WIDE_RECORD_BYTES]) -> [u8; 16]
    ensures { result ≡ drop 4 bytes.now }
{
    let mut ip = [0; 16];
    let (_, rest) = bytes.split_at(4);
    ip.copy_from_slice(rest);
    ip[15] = bytes[19];
    ip
}

/// Returns the address of a valid wide record.
pub fn address_of(bytes: &[u8; WIDE_RECORD_BYTES]) -> Addr
    ensures { result ≡ address_of bytes.now }
{
    let port = BigEndian::read_u16(&bytes[2..]);
    if bytes[1] == 2 {
        Addr::V6 {
            ip: ipv6_of(bytes),
            port,
        }
    } else {
        Addr::V4 {
            ip: ipv4_of(bytes),
            port,
        }
    }
}
