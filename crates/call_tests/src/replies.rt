//! Replies that a caller builds, and what contracts say of them: each has exactly the bytes of its definition.

ghost use Rattle.std.specs.Prelude.{◌≡◌, ◌<◌, ◌≤◌, length, take};
ghost use Rattle.stun.specs.Messages.{parts_bytes, empty_message, with_attribute};
ghost use Rattle.stun.specs.declared.registry.attribute.TheConstants.{ERROR_CODE, REALM as REALM_TYPE, NONCE as NONCE_TYPE, XOR_RELAYED_ADDRESS as RELAYED_TYPE, LIFETIME as LIFETIME_TYPE};
ghost use Rattle.stun.specs.declared.registry.ErrorCode.TheVariants.{Unauthenticated};
ghost use Rattle.stun.specs.Endian.{big_bytes};
ghost use Rattle.attributes.specs.Errors.{error_value};
ghost use Rattle.attributes.specs.Addresses.{address_value};
ghost use Rattle.credentials.specs.Keys.{key_bytes};
ghost use Rattle.credentials.specs.Signs.{with_integrity};

use attributes::{Addr, push_error, push_xor_addr};
use credentials::{Key, push_integrity};
use std::process::Abort;
use stun::registry::ErrorCode;
use stun::registry::attribute::{LIFETIME, NONCE, REALM, XOR_RELAYED_ADDRESS};
use stun::{Builder, begin};

const ZERO_ID: [u8; 12] = [0; 12];

/// Builds a Binding success in the caller's buffer, whose bytes the contract describes.
fn success(out: &mut [u8], tx: [u8; 12], value: &[u8]) -> usize
    ensures { 0 < result → take result out.new
        ≡ parts_bytes (with_attribute (empty_message 0x0101 tx) 0x0020 value.now) }
{
    if begin(out, 0x0101, &tx).is_err() {
        return 0;
    }
    let mut builder = Builder::resume(out);
    if builder.attr(0x0020, value).is_err() {
        return 0;
    }
    builder.finish()
}

/// Checks a Binding success to 198.51.100.2 port 4000, and that the rest of the buffer is unchanged.
fn check_binding_success(rt: &impl Abort) {
    let mut out = [0xff; 40];
    let n = success(&mut out, [0; 12], b"\x00\x01\x2e\xb2\xe7\x21\xc0\x40");
    assert_eq!(rt; n, 32);
    let want = [
        0x01, 0x01, 0x00, 0x0c, 0x21, 0x12, 0xa4, 0x42, 0, 0, 0, 0, 0, 0, 0, 0, 0, 0, 0, 0, 0x00,
        0x20, 0x00, 0x08, 0x00, 0x01, 0x2e, 0xb2, 0xe7, 0x21, 0xc0, 0x40, 0xff, 0xff, 0xff, 0xff,
        0xff, 0xff, 0xff, 0xff,
    ];
    assert!(rt; out == want);
}

/// Demands credentials of an Allocate request: writes the reply, and returns its length. The pushes can't fail, and the
/// contract needs no proof of its own.
fn demand(out: &mut [u8], tx: &[u8; 12], realm: &[u8], nonce: &[u8]) -> usize
    requires room { 1500 ≤ length out.old }
    requires realm { length realm.now ≤ 128 }
    requires nonce { length nonce.now ≤ 64 }
    ensures inside { result ≤ length out.new }
    ensures bytes { take result out.new ≡ parts_bytes
        (with_attribute (with_attribute (with_attribute (empty_message 0x0113 tx.now)
        ERROR_CODE (error_value Unauthenticated))
        REALM_TYPE realm.now)
        NONCE_TYPE nonce.now) }
{
    if begin(out, 0x0113, tx).is_err() {
        return 0;
    }
    let mut builder = Builder::resume(out);
    push_error(&mut builder, ErrorCode::Unauthenticated);
    builder.push(REALM, &realm);
    builder.push(NONCE, &nonce);
    builder.finish()
}

/// Grants an allocation: writes the signed reply, and returns its length. This too needs no proof of its own.
fn grant(out: &mut [u8], tx: &[u8; 12], relayed: &Addr, seconds: u32, key: &Key) -> usize
    requires room { 1500 ≤ length out.old }
    ensures inside { result ≤ length out.new }
    ensures bytes { take result out.new ≡ parts_bytes (with_integrity (key_bytes key.now)
        (with_attribute (with_attribute (empty_message 0x0103 tx.now)
        RELAYED_TYPE (address_value relayed.now tx.now))
        LIFETIME_TYPE (big_bytes 4 seconds))) }
{
    if begin(out, 0x0103, tx).is_err() {
        return 0;
    }
    let mut builder = Builder::resume(out);
    push_xor_addr(&mut builder, XOR_RELAYED_ADDRESS, relayed);
    let lifetime = seconds.to_be_bytes();
    builder.push(LIFETIME, &lifetime.as_slice());
    push_integrity(&mut builder, key);
    builder.finish()
}

/// An Allocate error that asks for credentials: the realm `relay`, the nonce `n1`.
const ALLOCATE_ERROR: [u8; 64] = [
    0x01, 0x13, 0x00, 0x2c, 0x21, 0x12, 0xa4, 0x42, 0x00, 0x00, 0x00, 0x00, 0x00, 0x00, 0x00, 0x00,
    0x00, 0x00, 0x00, 0x00, 0x00, 0x09, 0x00, 0x13, 0x00, 0x00, 0x04, 0x01, 0x55, 0x6e, 0x61, 0x75,
    0x74, 0x68, 0x65, 0x6e, 0x74, 0x69, 0x63, 0x61, 0x74, 0x65, 0x64, 0x00, 0x00, 0x14, 0x00, 0x05,
    0x72, 0x65, 0x6c, 0x61, 0x79, 0x00, 0x00, 0x00, 0x00, 0x15, 0x00, 0x02, 0x6e, 0x31, 0x00, 0x00,
];

/// Checks a demand for credentials.
fn check_demand(rt: &impl Abort) {
    let mut buffer = [0xff; 1500];
    let n = demand(&mut buffer, &ZERO_ID, b"relay", b"n1");
    assert_eq!(rt; n, 64);
    assert!(rt; buffer.starts_with(&ALLOCATE_ERROR));
}

/// An Allocate success of 198.51.100.2 port 4000 for 600 seconds, signed under MD5 of `user:relay:pass`.
const ALLOCATE_SUCCESS: [u8; 64] = [
    0x01, 0x03, 0x00, 0x2c, 0x21, 0x12, 0xa4, 0x42, 0x00, 0x00, 0x00, 0x00, 0x00, 0x00, 0x00, 0x00,
    0x00, 0x00, 0x00, 0x00, 0x00, 0x16, 0x00, 0x08, 0x00, 0x01, 0x2e, 0xb2, 0xe7, 0x21, 0xc0, 0x40,
    0x00, 0x0d, 0x00, 0x04, 0x00, 0x00, 0x02, 0x58, 0x00, 0x08, 0x00, 0x14, 0x65, 0x4f, 0x9a, 0xdd,
    0xd7, 0x09, 0x1f, 0x97, 0x95, 0xa2, 0x2b, 0x3f, 0x96, 0x1c, 0xb4, 0x4b, 0x6f, 0x1b, 0x8a, 0xb7,
];

/// Checks a signed grant.
fn check_grant(rt: &impl Abort) {
    let mut buffer = [0xff; 1500];
    let relayed = Addr::V4 {
        ip: [198, 51, 100, 2],
        port: 4000,
    };
    let key = Key::of(b"user", "relay", b"pass");
    let n = grant(&mut buffer, &ZERO_ID, &relayed, 600, &key);
    assert_eq!(rt; n, 64);
    assert!(rt; buffer.starts_with(&ALLOCATE_SUCCESS));
}

#[test]
fn replies_have_the_bytes_of_their_contracts(rt: HostRuntime) {
    check_binding_success(&rt);
    check_demand(&rt);
    check_grant(&rt);
}
