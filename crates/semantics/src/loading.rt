//! Loads, and the fields of the context record (RFC 9669, sections 5.1 and 5.2).

ghost use Rattle.std.specs.Prelude.{◌≡◌, ◌≤◌, ◌<◌, ◌+◌, ◌^◌, ℕ, length, IfSome};
ghost use Rattle.insn.specs.Codes.{byte_count};
ghost use Rattle.insn.specs.Endian.{little_number};
ghost use Rattle.semantics.specs.Access.{cells_number, number_in, part, IsInside, touches_pointer, no_pointer, is_pointer, is_aligned, pointer_in};
ghost use Rattle.semantics.specs.Loading.{field_at, field_number, field_value, load_field, reached_number, reached_value, whole_group, pointer_of, kept_in, pointer_or, value_in, load, load_signed};
ghost use Rattle.semantics.specs.Machine.{Context, IsContext, context_bytes};
ghost use Rattle.semantics.specs.Views.{memory_of};
ghost use Rattle.semantics.specs.declared.limits.TheConstants.{STACK_BYTES, GROUPS};

use crate::access::{Location, locate};
use crate::limits::GROUP_BYTES;
use crate::memory::Memory;
use crate::reason::Reason;
use crate::stack::{is_pointer, no_pointer, pointer_in};
use crate::value::Value;
use insn::{SignedSize, Size, little_endian, sign_extended};

/// The number of bytes of the context record.
pub const CONTEXT_BYTES: usize = 68;

/// A field of the context record.
/// See docs/DESIGN.md, "The context record".
#[derive(Clone, Copy, Debug, PartialEq, Eq)]
pub enum ContextField {
    /// The datagram's first byte, a pointer.
    Datagram,
    /// The datagram's end, a pointer.
    End,
    /// The datagram's length.
    Length,
    /// The address record of the source, eight zeros for an IPv6 address.
    Source,
    /// The first eight bytes of the transaction id.
    IdHead,
    /// The last four bytes of the transaction id.
    IdTail,
    /// The side that the datagram came from: 0 a client, 1 a peer.
    Side,
    /// Bytes 0 to 7 of the wide address record of the source.
    WideHead,
    /// Bytes 8 to 15 of it.
    WideMiddle,
    /// Bytes 16 to 19 of it.
    WideTail,
}

/// Returns the field that a load of `size` bytes at `displacement` reads; `None` unless it is exactly one whole field.
pub fn field_at(displacement: i16, size: Size) -> Option<ContextField>
    ensures { result ≡ field_at displacement size }
{
    match (displacement, size) {
        (0, Size::Double) => Some(ContextField::Datagram),
        (8, Size::Double) => Some(ContextField::End),
        (16, Size::Double) => Some(ContextField::Length),
        (24, Size::Double) => Some(ContextField::Source),
        (32, Size::Double) => Some(ContextField::IdHead),
        (40, Size::Word) => Some(ContextField::IdTail),
        (44, Size::Word) => Some(ContextField::Side),
        (48, Size::Double) => Some(ContextField::WideHead),
        (56, Size::Double) => Some(ContextField::WideMiddle),
        (64, Size::Word) => Some(ContextField::WideTail),
        _ => None,
    }
}

/// Returns the `n` items from an index on.
pub(crate) fn part_of<T>(items: &[T], index: usize, n: usize) -> &[T]
    requires { index + n ≤ length items.now }
    ensures { result.now ≡ part n index items.now }
{
    let (_, rest) = items.split_at(index);
    let (front, _) = rest.split_at(n);
    front
}

/// Returns the little-endian number in the `n` bytes from an index on.
fn number_of_bytes(bytes: &[u8], index: usize, n: usize) -> u64
    requires some { 1 ≤ n }
    requires few { n ≤ 8 }
    requires inside { index + n ≤ length bytes.now }
    ensures { result ≡ little_number n (part n index bytes.now) }
{
    little_endian(part_of(bytes, index, n))
}

/// Reads the little-endian number in at most eight stack cells, or `None` where one is uninitialised.
fn number_of_cells(cells: &[Option<u8>]) -> Option<u64>
    requires { length cells.now ≤ 8 }
    ensures value { result ≡ cells_number cells.now }
    ensures bound { IfSome result (λ n. n < 256 ^ length cells.now) }
{
    match cells {
        [] => Some(0),
        [first, rest @ ..] => {
            let low = (*first)?;
            let high = number_of_cells(rest)?;
            Some(u64::from(low) + 256 * high)
        }
    }
}

/// Returns the number in some bytes of the context record.
fn field_number(context: &[u8; CONTEXT_BYTES], n: usize, offset: usize) -> Value
    requires some { 1 ≤ n }
    requires few { n ≤ 8 }
    requires inside { offset + n ≤ CONTEXT_BYTES }
    ensures { result ≡ field_number context.now n offset }
{
    Value::Scalar(number_of_bytes(context, offset, n))
}

/// Returns the side in the context record.
#[tactic(auto, using(crate::specs::laws::Context::side_field))]
pub(crate) fn side(context: &[u8; CONTEXT_BYTES]) -> u64
    ensures { (c : Context) (n : ℕ) → IsContext c → context.now ≡ context_bytes c n → result ≡ c.side }
{
    number_of_bytes(context, 44, 4)
}

/// Returns the value of a field of the context record.
fn field_value(context: &[u8; CONTEXT_BYTES], field: ContextField) -> Value
    ensures { result ≡ field_value context.now field }
{
    match field {
        ContextField::Datagram => Value::Data(0),
        ContextField::End => Value::End,
        ContextField::Length => field_number(context, 8, 16),
        ContextField::Source => field_number(context, 8, 24),
        ContextField::IdHead => field_number(context, 8, 32),
        ContextField::IdTail => field_number(context, 4, 40),
        ContextField::Side => field_number(context, 4, 44),
        ContextField::WideHead => field_number(context, 8, 48),
        ContextField::WideMiddle => field_number(context, 8, 56),
        ContextField::WideTail => field_number(context, 4, 64),
    }
}

/// Returns the value that an access to the context record reads.
fn load_field(context: &[u8; CONTEXT_BYTES], displacement: i16, size: Size) -> Result<Value, Reason>
    ensures { result ≡ load_field context.now displacement size }
{
    let field = field_at(displacement, size).ok_or(Reason::ContextAccess)?;
    Ok(field_value(context, field))
}

/// Returns the number in the `n` bytes at a location.
fn number_in(memory: &Memory<'_>, n: usize, at: Location) -> Result<u64, Reason>
    requires some { 1 ≤ n }
    requires few { n ≤ 8 }
    requires inside { IsInside (memory_of memory.now) n at }
    ensures { result ≡ number_in (memory_of memory.now) n at }
{
    match at {
        Location::InStack(index) => {
            no_pointer(memory.stack, index, n)?;
            number_of_cells(part_of(&memory.stack.cells, index, n)).ok_or(Reason::UninitStack)
        }
        Location::InBytes(index) => Ok(number_of_bytes(memory.bytes, index, n)),
    }
}

/// Returns the number in the `n` bytes that `base` with a displacement reaches.
#[tactic(auto, unfolding(crate::specs::Loading::reached_number))]
fn number_at(memory: &Memory<'_>, base: Value, displacement: i16, n: usize) -> Result<u64, Reason>
    requires some { 1 ≤ n }
    requires few { n ≤ 8 }
    ensures { result ≡ reached_number (memory_of memory.now) base displacement n }
{
    let at = locate(memory, base, displacement, n)?;
    number_in(memory, n, at)
}

/// Returns the group that an access reads as a whole.
fn whole_group(at: Location, size: Size) -> Option<usize>
    ensures { result ≡ whole_group at size }
{
    match (at, size) {
        (Location::InStack(index), Size::Double) => {
            if index % GROUP_BYTES == 0 {
                Some(index / GROUP_BYTES)
            } else {
                None
            }
        }
        _ => None,
    }
}

/// Returns the pointer that a group holds.
fn kept_in(memory: &Memory<'_>, group: Option<usize>) -> Option<Value>
    ensures { result ≡ kept_in (memory_of memory.now) group }
{
    let pointer = pointer_in(memory.stack, group?);
    if is_pointer(pointer) {
        Some(pointer)
    } else {
        None
    }
}

/// Returns the pointer of a group that is read as a whole, or the number in the bytes at a location.
fn value_in(memory: &Memory<'_>, size: Size, at: Location) -> Result<Value, Reason>
    requires inside { IsInside (memory_of memory.now) (byte_count size) at }
    ensures { result ≡ value_in (memory_of memory.now) size at }
{
    match kept_in(memory, whole_group(at, size)) {
        Some(pointer) => Ok(pointer),
        None => Ok(Value::Scalar(number_in(memory, size.bytes(), at)?)),
    }
}

/// Returns what the bytes hold that `base` with a displacement reaches.
#[tactic(auto, unfolding(crate::specs::Loading::reached_value))]
fn value_at(
    memory: &Memory<'_>,
    base: Value,
    displacement: i16,
    size: Size,
) -> Result<Value, Reason>
    ensures { result ≡ reached_value (memory_of memory.now) base displacement size }
{
    let at = locate(memory, base, displacement, size.bytes())?;
    value_in(memory, size, at)
}

/// Returns the value that a load through `base` with a displacement reads, zero-extended. `context` is the
/// context record.
///
/// # Errors
/// The reason for which the load is stuck.
pub fn load(
    context: &[u8; CONTEXT_BYTES],
    memory: &Memory<'_>,
    base: Value,
    displacement: i16,
    size: Size,
) -> Result<Value, Reason>
    ensures { (c : Context) → context.now ≡ context_bytes c (memory.now).length
        → result ≡ load c (memory_of memory.now) base displacement size }
{
    match base {
        Value::Ctx => load_field(context, displacement, size),
        _ => value_at(memory, base, displacement, size),
    }
}

/// Returns the value that a load through `base` with a displacement reads, sign-extended.
///
/// # Errors
/// The reason for which the load is stuck.
pub fn load_signed(
    memory: &Memory<'_>,
    base: Value,
    displacement: i16,
    size: SignedSize,
) -> Result<Value, Reason>
    ensures { result ≡ load_signed (memory_of memory.now) base displacement size }
{
    let number = number_at(memory, base, displacement, size.unsigned().bytes())?;
    Ok(Value::Scalar(sign_extended(size, number)))
}
