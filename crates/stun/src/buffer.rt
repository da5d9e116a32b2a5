//! Attributes and headers written into a buffer (RFC 8489, sections 5 and 14).

ghost use Rattle.std.specs.Prelude.{◌≡◌, ◌+◌, ◌<◌, ◌≤◌, length, replicate, Decides, OnOk, OnErr};
ghost use Rattle.byteorder.specs.Endian.{big_bytes};
ghost use Rattle.stun.specs.Messages.{attribute_bytes, zero_padded, parts_bytes, empty_message, attribute_length};
ghost use Rattle.stun.specs.Registry.{magic_cookie};
ghost use Rattle.stun.specs.Refusals.{number_at};
ghost use Rattle.stun.specs.Building.{IsBuilding, used_in, room_in, with_piece, IsBegun, IsAppended};

use crate::attributes::{ATTRIBUTE_HEADER_BYTES, padding_bytes};
use crate::reading::HEADER_BYTES;
use crate::refusal::NoRoom;
use crate::registry::MAGIC_COOKIE;
use crate::value::AttributeValue;
use byteorder::{BigEndian, ByteOrder};

/// The length of the longest message, in bytes: a header, and attributes whose length has 16 bits and is a
/// multiple of four.
const MAX_MESSAGE: usize = 65_552;

/// Overwrites bytes of a buffer, from an index on.
fn overwrite(buffer: &mut [u8], at: usize, bytes: &[u8])
    requires { at + length bytes.now ≤ length buffer.old }
    ensures { buffer.new ≡ with_piece at bytes.now buffer.old }
{
    buffer[at..at + bytes.len()].copy_from_slice(bytes);
}

/// Writes a number over two bytes of a buffer, from an index on, high byte first.
fn write_number(buffer: &mut [u8], at: usize, n: u16)
    requires { at + 2 ≤ length buffer.old }
    ensures { buffer.new ≡ with_piece at (big_bytes 2 n) buffer.old }
{
    let mut bytes = [0; 2];
    BigEndian::write_u16(&mut bytes, n);
    overwrite(buffer, at, &bytes);
}

/// Writes the magic cookie over the bytes 4 to 7.
fn write_cookie(buffer: &mut [u8])
    requires { 8 ≤ length buffer.old }
    ensures { buffer.new ≡ with_piece 4 (big_bytes 4 magic_cookie) buffer.old }
{
    let mut bytes = [0; 4];
    BigEndian::write_u32(&mut bytes, MAGIC_COOKIE);
    overwrite(buffer, 4, &bytes);
}

/// Writes `n` zeros from an index on.
fn write_zeros(buffer: &mut [u8], at: usize, n: usize)
    requires { at + n ≤ length buffer.old }
    ensures { buffer.new ≡ with_piece at (replicate n 0) buffer.old }
{
    buffer[at..at + n].fill(0);
}

/// Writes the header of a message with no attributes.
pub(crate) fn write_header(buffer: &mut [u8], kind: u16, tx: &[u8; 12])
    requires { 20 ≤ length buffer.old }
    ensures { buffer.new ≡ with_piece 0 (parts_bytes (empty_message kind tx.now)) buffer.old }
{
    write_number(buffer, 0, kind);
    write_number(buffer, 2, 0);
    write_cookie(buffer);
    overwrite(buffer, 8, tx);
}

/// Writes a value from an index on.
fn write_value<V: AttributeValue>(buffer: &mut [u8], at: usize, value: &V)
    requires { at + length (V.bytes value.now) ≤ length buffer.old }
    ensures { buffer.new ≡ with_piece at (V.bytes value.now) buffer.old }
{
    value.write(&mut buffer[at..at + value.len()]);
}

/// Writes an attribute from an index on: type, length, value, and zeros up to a multiple of four.
fn write_attribute<V: AttributeValue>(buffer: &mut [u8], at: usize, kind: u16, value: &V)
    requires room { at + attribute_length (V.bytes value.now) ≤ length buffer.old }
    requires short { length (V.bytes value.now) < 0x10000 }
    ensures { buffer.new ≡ with_piece at (attribute_bytes (zero_padded kind (V.bytes value.now))) buffer.old }
{
    let length = value.len();
    write_number(buffer, at, kind);
    write_number(buffer, at + 2, length as u16);
    write_value(buffer, at + ATTRIBUTE_HEADER_BYTES, value);
    write_zeros(
        buffer,
        at + ATTRIBUTE_HEADER_BYTES + length,
        padding_bytes(length),
    );
}

/// Begins a message with no attributes over the first bytes of a buffer, for a builder to resume. A caller
/// whose own contract describes the buffer after the builder's end uses this and [`Builder::resume`] in place
/// of [`Builder::start`].
///
/// # Errors
/// Returns [`NoRoom`] for a buffer of less than 20 bytes, which it leaves unchanged.
pub fn begin(buffer: &mut [u8], kind: u16, tx: &[u8; 12]) -> Result<(), NoRoom>
    requires { kind < 0x4000 }
    ensures building { OnOk result (IsBuilding buffer.new) }
    ensures begins { OnOk result (IsBegun kind tx.now buffer.old buffer.new) }
    ensures no_room { OnErr result (length buffer.old < 20) }
    ensures unchanged { OnErr result (buffer.new ≡ buffer.old) }
{
    if buffer.len() < HEADER_BYTES {
        return Err(NoRoom);
    }
    write_header(buffer, kind, tx);
    Ok(())
}

/// Returns the length field of a header: the length of the attributes, in bytes.
pub(crate) fn length_in(buffer: &[u8]) -> usize
    requires { 4 ≤ length buffer.now }
    ensures { result ≡ number_at 2 2 buffer.now }
{
    let (_, rest) = buffer.split_at(2);
    BigEndian::read_u16(rest) as usize
}

/// Returns whether a buffer has room for one more attribute after the message that it begins with.
/// See docs/DECISIONS.md, "The room of a builder".
#[tactic(auto, using(crate::proofs::Writing::used_is, crate::proofs::Writing::room_of_length))]
fn has_room<V: AttributeValue>(buffer: &[u8], value: &V) -> bool
    requires { IsBuilding buffer.now }
    ensures { Decides result (used_in buffer.now + attribute_length (V.bytes value.now) ≤ room_in buffer.now) }
{
    let length = value.len();
    if length > MAX_MESSAGE {
        return false;
    }
    let used = HEADER_BYTES + length_in(buffer);
    let end = used + ATTRIBUTE_HEADER_BYTES + length + padding_bytes(length);
    end <= MAX_MESSAGE && end <= buffer.len()
}

/// Writes an attribute after the message that a buffer begins with.
#[tactic(auto, using(crate::proofs::Writing::used_is, crate::proofs::Writing::room_of_length))]
pub(crate) fn append<V: AttributeValue>(buffer: &mut [u8], kind: u16, value: &V)
    requires building { IsBuilding buffer.old }
    requires room { used_in buffer.old + attribute_length (V.bytes value.now) ≤ room_in buffer.old }
    ensures building { IsBuilding buffer.new }
    ensures appended { IsAppended kind (V.bytes value.now) buffer.old buffer.new }
{
    let length = value.len();
    let before = length_in(buffer);
    let total = before + ATTRIBUTE_HEADER_BYTES + length + padding_bytes(length);
    write_attribute(buffer, HEADER_BYTES + before, kind, value);
    write_number(buffer, 2, total as u16);
}

/// Writes an attribute after the message that a buffer begins with, if there is room.
pub(crate) fn append_if_room<V: AttributeValue>(
    buffer: &mut [u8],
    kind: u16,
    value: &V,
) -> Result<(), NoRoom>
    requires { IsBuilding buffer.old }
    ensures building { IsBuilding buffer.new }
    ensures appended { OnOk result (IsAppended kind (V.bytes value.now) buffer.old buffer.new) }
    ensures full { OnErr result (room_in buffer.old < used_in buffer.old + attribute_length (V.bytes value.now)) }
    ensures unchanged { OnErr result (buffer.new ≡ buffer.old) }
{
    if !has_room(buffer, value) {
        return Err(NoRoom);
    }
    append(buffer, kind, value);
    Ok(())
}
