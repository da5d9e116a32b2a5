//! Sums of a place of the datagram and a number.

ghost use Rattle.std.specs.Prelude.{◌≡◌, ◌<◌, suc, true, int_le, ◌+ℤ◌, ◌-ℤ◌, ◌≤ℤ◌, pos, negsuc};
ghost use Rattle.semantics.specs.Effects.{moved_place};
ghost use Rattle.absstate.specs.AbstractStates.{low_of, high_of, greatest_id};
ghost use Rattle.absstate.specs.AbstractSteps.{short_offset, moved_offset, lowest, highest, is_one_sided, proved_within, made_anchor, made_between, made_sum, single_sum, data_sum};

use crate::abstract_state::{AbsState, AbstractValue, Anchor};
use insn::{AluOp, Width};
use interval::Bounds;
use semantics::moved_place;

/// An operator at a width.
#[derive(Clone, Copy, Debug, PartialEq, Eq)]
pub(crate) struct Operator {
    /// The operator.
    pub(crate) op: AluOp,
    /// The width of its operands and of its result.
    pub(crate) width: Width,
}

/// Returns a place moved by a number. `None` for an operator that moves no pointer, or where the place would lie too
/// far.
fn near_sum(operator: Operator, place: i64, by: u64) -> Option<i32>
    ensures { result ≡ moved_place operator.op operator.width place by }
{
    let place = moved_place(operator.op, operator.width, place, by)?;
    Some(place as i32)
}

/// Returns the place at an offset from another one.
fn place_from(place: i32, offset: i32) -> i64
    ensures { result ≡ (place +ℤ offset) }
{
    i64::from(place) + i64::from(offset)
}

/// Returns the least place at an offset from an anchor.
fn least_place(anchor: Anchor, offset: i32) -> i64
    ensures { result ≡ (low_of anchor +ℤ offset) }
{
    place_from(anchor.low(), offset)
}

/// Returns the greatest place at an offset from an anchor.
fn greatest_place(anchor: Anchor, offset: i32) -> i64
    ensures { result ≡ (high_of anchor +ℤ offset) }
{
    place_from(anchor.high(), offset)
}

/// Returns how far a place lies from another one.
fn moved_from(place: i32, from: i32) -> i64
    ensures value { result ≡ (place -ℤ from) }
    ensures low { negsuc 4294967295 ≤ℤ result }
    ensures high { result ≤ℤ pos 4294967295 }
{
    i64::from(place) - i64::from(from)
}

/// Returns an offset of 32 bits, or `None` where it doesn't fit.
fn short_offset(offset: i64) -> Option<i32>
    ensures { result ≡ short_offset offset }
{
    if -2_147_483_648 <= offset && offset <= 2_147_483_647 {
        Some(offset as i32)
    } else {
        None
    }
}

/// Returns the offset from an anchor with places from `low` to `high`, moved by a single number. `None` where a place
/// would lie too far.
/// See docs/DESIGN.md, "Offsets in 32 bits".
fn moved_offset(operator: Operator, low: i32, high: i32, offset: i32, by: u64) -> Option<i32>
    ensures { result ≡ moved_offset operator.op operator.width low high offset by }
{
    let least = near_sum(operator, place_from(low, offset), by);
    let greatest = near_sum(operator, place_from(high, offset), by);
    match (least, greatest) {
        (Some(least), Some(_)) => short_offset(moved_from(least, low)),
        _ => None,
    }
}

/// Returns the least place after a sum with a number within bounds.
fn lowest(operator: Operator, low: i64, bounds: Bounds) -> Option<i32>
    ensures { result ≡ lowest operator.op operator.width low bounds }
{
    match operator.op {
        AluOp::Add => near_sum(operator, low, bounds.lo),
        AluOp::Sub => near_sum(operator, low, bounds.hi),
        _ => None,
    }
}

/// Returns the greatest place after a sum with a number within bounds.
fn highest(operator: Operator, high: i64, bounds: Bounds) -> Option<i32>
    ensures { result ≡ highest operator.op operator.width high bounds }
{
    match operator.op {
        AluOp::Add => near_sum(operator, high, bounds.hi),
        AluOp::Sub => near_sum(operator, high, bounds.lo),
        _ => None,
    }
}

/// Returns whether the numbers within bounds, read with their sign, lie between the ends.
fn is_one_sided(bounds: Bounds) -> bool
    ensures { result ≡ is_one_sided bounds }
{
    bounds.lo.cast_signed() <= bounds.hi.cast_signed()
}

/// Returns how many bytes are proved after an anchor that moves forward by at most `by`, within 32 bits.
fn proved_within(proved: i64, by: i64) -> i32
    requires low { negsuc 4294967295 ≤ℤ by }
    requires high { by ≤ℤ pos 4294967295 }
    ensures { result ≡ proved_within (proved -ℤ by) }
{
    match proved.checked_sub(by) {
        Some(left) if left < -2_097_152 => -2_097_152,
        Some(left) if left <= 2_147_483_647 => left as i32,
        Some(_) => 2_147_483_647,
        None if 0 < by => -2_097_152,
        None => 2_147_483_647,
    }
}

/// Returns whether a number is left for an anchor.
fn has_next_id<D: Copy>(state: &AbsState<D>) -> bool
    ensures value { result ≡ int_le (pos (suc (greatest_id state.now.values))) (pos 4294967295) }
    ensures room { result ≡ true → greatest_id state.now.values < 4294967295 }
{
    state.greatest_id() < u32::MAX
}

/// Returns the anchor of a place that lies from `low` to `high`, of a sum with a place at another anchor.
fn made_anchor<D: Copy>(state: &AbsState<D>, anchor: Anchor, low: i32, high: i32) -> Anchor
    requires { greatest_id state.now.values < 4294967295 }
    ensures { result ≡ made_anchor state.now anchor low high }
{
    let id = state.greatest_id() + 1;
    let proved = proved_within(state.proved_of(anchor), moved_from(high, anchor.high()));
    Anchor::Variable {
        id,
        low,
        high,
        proved,
    }
}

/// Returns a place at an anchor of its own, from `low` to `high`, where the bounds are on one side of 2^63 and a number
/// is left for an anchor.
fn made_between<D: Copy>(
    state: &AbsState<D>,
    anchor: Anchor,
    bounds: Bounds,
    low: i32,
    high: i32,
) -> Option<AbstractValue<D>>
    ensures { result ≡ made_between state.now anchor bounds low high }
{
    if is_one_sided(bounds) && has_next_id(state) {
        let anchor = made_anchor(state, anchor, low, high);
        Some(AbstractValue::Data { anchor, offset: 0 })
    } else {
        None
    }
}

/// Returns the sum of a place and a number that isn't single: a place at an anchor of its own.
fn made_sum<D: Copy>(
    state: &AbsState<D>,
    anchor: Anchor,
    operator: Operator,
    offset: i32,
    bounds: Bounds,
) -> Option<AbstractValue<D>>
    ensures { result ≡ made_sum state.now anchor operator.op operator.width offset bounds }
{
    let low = lowest(operator, least_place(anchor, offset), bounds);
    let high = highest(operator, greatest_place(anchor, offset), bounds);
    match (low, high) {
        (Some(low), Some(high)) => made_between(state, anchor, bounds, low, high),
        _ => None,
    }
}

/// Returns the offset from an anchor, moved by a single number.
fn single_sum(anchor: Anchor, operator: Operator, offset: i32, by: u64) -> Option<i32>
    ensures { result ≡ single_sum anchor operator.op operator.width offset by }
{
    match anchor {
        Anchor::First => near_sum(operator, i64::from(offset), by),
        Anchor::Variable { low, high, .. } => moved_offset(operator, low, high, offset, by),
    }
}

/// Returns the sum of a place of the datagram and a number: a single one moves the offset, any other one makes an
/// anchor.
pub(crate) fn data_sum<D: Copy>(
    state: &AbsState<D>,
    anchor: Anchor,
    operator: Operator,
    offset: i32,
    bounds: Bounds,
) -> Option<AbstractValue<D>>
    ensures { result ≡ data_sum state.now anchor operator.op operator.width offset bounds }
{
    if bounds.lo != bounds.hi {
        return made_sum(state, anchor, operator, offset, bounds);
    }
    match single_sum(anchor, operator, offset, bounds.lo) {
        Some(offset) => Some(AbstractValue::Data { anchor, offset }),
        None => None,
    }
}
