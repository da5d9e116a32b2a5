//! Where an access lies in memory.

ghost use Rattle.std.specs.Prelude.{◌≡◌, ◌≤◌, ◌+ℤ◌, ◌≤ℤ◌, pos, negsuc, IfOk};
ghost use Rattle.semantics.specs.Access.{is_within, index_within, stack_first, headroom_first, in_stack, in_bytes, location, IsInside};
ghost use Rattle.semantics.specs.Views.{memory_of};
ghost use Rattle.semantics.specs.declared.limits.TheConstants.{STACK_BYTES};

use crate::limits::{HEADROOM, STACK_BYTES, TAILROOM};
use crate::memory::Memory;
use crate::reason::Reason;
use crate::value::Value;

/// The first place of the stack.
pub const STACK_FIRST: i64 = -(STACK_BYTES as i64);
/// The first place of the headroom.
pub const HEADROOM_FIRST: i64 = -(HEADROOM as i64);

/// Where an access lies, by the index of its first byte.
/// See docs/DESIGN.md, "Located first, then read or written".
#[derive(Clone, Copy, Debug, PartialEq, Eq)]
pub enum Location {
    /// Among the cells of the stack.
    InStack(usize),
    /// Among the bytes of headroom, datagram and tailroom.
    InBytes(usize),
}

/// Returns whether the `n` bytes from the place `base + displacement` on lie at the places `low..high`. Places are
/// whole numbers: nothing wraps.
pub fn is_within(base: i64, displacement: i16, n: usize, low: i64, high: i64) -> bool
    requires { n ≤ STACK_BYTES }
    ensures { result ≡ is_within (base +ℤ displacement) n low high }
{
    let Some(place) = base.checked_add(i64::from(displacement)) else {
        return false;
    };
    let Some(end) = place.checked_add(n as i64) else {
        return false;
    };
    low <= place && end <= high
}

/// The places `low..high`.
#[derive(Clone, Copy, Debug, PartialEq, Eq)]
struct PlaceRange {
    /// The first of them.
    low: i64,
    /// The place after the last of them.
    high: i64,
}

/// Returns the index of the `n` items from the place `base + displacement` on, in a list that begins at the place
/// `first`, or `None` where they don't lie at the given places.
fn index_of(base: i64, displacement: i16, n: usize, first: i64, places: PlaceRange) -> Option<usize>
    requires small { n ≤ STACK_BYTES }
    requires first { first ≤ℤ places.low }
    requires low { negsuc 65535 ≤ℤ first }
    requires lower { negsuc 65535 ≤ℤ places.high }
    requires high { places.high ≤ℤ pos 131072 }
    ensures { result ≡ index_within (base +ℤ displacement) n first places.low places.high }
{
    let PlaceRange { low, high } = places;
    let place = base.checked_add(i64::from(displacement))?;
    if low <= place && place <= high - n as i64 {
        Some((place - first) as usize)
    } else {
        None
    }
}

/// Returns the index, among the stack cells, of the `n` bytes from the place `base + displacement` on, or `None`
/// where they don't lie in the stack.
pub fn index_in_stack(base: i64, displacement: i16, n: usize) -> Option<usize>
    requires { n ≤ STACK_BYTES }
    ensures { result ≡ index_within (base +ℤ displacement) n stack_first stack_first (pos 0) }
{
    let places = PlaceRange {
        low: STACK_FIRST,
        high: 0,
    };
    index_of(base, displacement, n, STACK_FIRST, places)
}

/// Returns where the `n` bytes from the place `base + displacement` on lie in the stack.
fn in_stack(base: i64, displacement: i16, n: usize) -> Result<Location, Reason>
    requires { n ≤ 8 }
    ensures { result ≡ in_stack (base +ℤ displacement) n }
{
    let index = index_in_stack(base, displacement, n).ok_or(Reason::StackBounds)?;
    Ok(Location::InStack(index))
}

/// Returns where the `n` bytes from the place `base + displacement` on lie among the bytes at the places `low..high`.
fn in_bytes(base: i64, displacement: i16, n: usize, low: i64, high: i64) -> Result<Location, Reason>
    requires small { n ≤ 8 }
    requires low { headroom_first ≤ℤ low }
    requires lower { negsuc 65535 ≤ℤ high }
    requires high { high ≤ℤ pos 131072 }
    ensures { result ≡ in_bytes (base +ℤ displacement) n low high }
{
    let places = PlaceRange { low, high };
    let index = index_of(base, displacement, n, HEADROOM_FIRST, places).ok_or(
        Reason::DatagramBounds,
    )?;
    Ok(Location::InBytes(index))
}

/// Returns where the `n` bytes lie that `base` with a displacement reaches.
///
/// # Errors
/// The reason for which an access to them is stuck.
#[tactic(auto, using(crate::specs::laws::Access::location_inside))]
pub(crate) fn locate(
    memory: &Memory<'_>,
    base: Value,
    displacement: i16,
    n: usize,
) -> Result<Location, Reason>
    requires { n ≤ 8 }
    ensures location { result ≡ location (memory.now).length base displacement n }
    ensures inside { IfOk result (IsInside (memory_of memory.now) n) }
{
    let end = memory.length as i64;
    match base {
        Value::Nothing => Err(Reason::UninitRegister),
        Value::Scalar(_) => Err(Reason::NotAPointer),
        Value::Ctx => Err(Reason::ContextAccess),
        Value::Stack(k) => in_stack(k, displacement, n),
        Value::Data(k) => in_bytes(k, displacement, n, HEADROOM_FIRST, end),
        Value::End => in_bytes(end, displacement, n, end, end + TAILROOM as i64),
    }
}
