//! The abstract step of a load.

ghost use Rattle.std.specs.Prelude.{◌≡◌, ◌≤◌, ◌<◌, ◌+◌, IfSome};
ghost use Rattle.insn.specs.Codes.{byte_count};
ghost use Rattle.semantics.specs.declared.limits.TheConstants.{STACK_BYTES, GROUPS};
ghost use Rattle.absstate.specs.Changes.{answer_of};
ghost use Rattle.absstate.specs.AbstractSteps.{field_known, abstract_load_field, is_known_pointer, touches_known, cells_readable, region_readable, known_group, known_pointer, known_in, known_or, IsInStack, readable, abstract_load_value, abstract_load_number, number_of_size, abstract_load, abstract_load_signed, load_step, load_signed_step};

use crate::abstract_state::{AbsState, AbstractValue, Anchor};
use crate::abstract_step::{read, written};
use crate::change::Transition;
use crate::memory::{Region, locate};
use insn::{Reg, SignedSize, Size};
use interval::Domain;
use semantics::{ContextField, GROUP_BYTES, MAX_DATAGRAM, Reason, field_at};

/// Returns the abstract number of all numbers of a size.
fn number_of_size<D: Domain>(size: Size) -> D
    ensures { result ≡ number_of_size D.ops size }
{
    match size {
        Size::Byte => D::range(0, 0xff),
        Size::Half => D::range(0, 0xffff),
        Size::Word => D::range(0, 0xffff_ffff),
        Size::Double => D::range(0, u64::MAX),
    }
}

/// Returns what is known of a field of the context record.
/// See docs/DESIGN.md, "The length of a datagram".
fn field_known<D: Domain>(field: ContextField) -> AbstractValue<D>
    ensures { result ≡ field_known D.ops field }
{
    match field {
        ContextField::Datagram => AbstractValue::Data {
            anchor: Anchor::First,
            offset: 0,
        },
        ContextField::End => AbstractValue::End,
        ContextField::Length => AbstractValue::Scalar(D::range(0, MAX_DATAGRAM as u64)),
        ContextField::Source
        | ContextField::IdHead
        | ContextField::WideHead
        | ContextField::WideMiddle => AbstractValue::Scalar(number_of_size(Size::Double)),
        ContextField::IdTail | ContextField::WideTail => {
            AbstractValue::Scalar(number_of_size(Size::Word))
        }
        ContextField::Side => AbstractValue::Scalar(D::range(0, 1)),
    }
}

/// Returns what is known of what an access to the context record reads.
fn load_field<D: Domain>(displacement: i16, size: Size) -> Result<AbstractValue<D>, Reason>
    ensures { result ≡ abstract_load_field D.ops displacement size }
{
    let field = field_at(displacement, size).ok_or(Reason::ContextAccess)?;
    Ok(field_known(field))
}

/// Returns whether a value is a pointer.
fn is_pointer<D: Copy>(known: AbstractValue<D>) -> bool
    ensures { result ≡ is_known_pointer known }
{
    match known {
        AbstractValue::Nothing | AbstractValue::Scalar(_) => false,
        _ => true,
    }
}

/// Returns whether one of the `n` cells from an index on, at most 24, is known to be a part of a pointer.
fn touches_pointer<D: Copy>(state: &AbsState<D>, n: usize, index: usize) -> bool
    requires some { 1 ≤ n }
    requires few { n ≤ 24 }
    requires inside { index + n ≤ STACK_BYTES }
    ensures { result ≡ touches_known state.now n index }
{
    is_pointer(state.group(index / GROUP_BYTES))
        || is_pointer(state.group((index + n / 3) / GROUP_BYTES))
        || is_pointer(state.group((index + 2 * n / 3) / GROUP_BYTES))
        || is_pointer(state.group((index + n - 1) / GROUP_BYTES))
}

/// Tests whether the `n` cells from an index on, at most 24, may be read as bytes.
///
/// # Errors
/// `PointerBytes` where one is known to be a part of a pointer, `UninitStack` where one isn't known to be set.
pub(crate) fn cells_readable<D: Copy>(
    state: &AbsState<D>,
    n: usize,
    index: usize,
) -> Result<(), Reason>
    requires some { 1 ≤ n }
    requires few { n ≤ 24 }
    requires inside { index + n ≤ STACK_BYTES }
    ensures { result ≡ cells_readable state.now n index }
{
    if touches_pointer(state, n, index) {
        Err(Reason::PointerBytes)
    } else if state.marks.are_set(index, n) {
        Ok(())
    } else {
        Err(Reason::UninitStack)
    }
}

/// Tests whether the `n` bytes of a region, at most 24, may be read.
///
/// # Errors
/// As [`cells_readable`].
fn region_readable<D: Copy>(state: &AbsState<D>, n: usize, region: Region) -> Result<(), Reason>
    requires some { 1 ≤ n }
    requires few { n ≤ 24 }
    requires inside { IsInStack n region }
    ensures { result ≡ region_readable state.now n region }
{
    match region {
        Region::InStack(index) => cells_readable(state, n, index),
        Region::InBytes => Ok(()),
    }
}

/// Returns the group that an access reads as a whole.
fn known_group(region: Region, size: Size) -> Option<usize>
    requires { IsInStack (byte_count size) region }
    ensures group { result ≡ known_group region size }
    ensures inside { IfSome result (λ g. g < GROUPS) }
{
    match (region, size) {
        (Region::InStack(index), Size::Double) => {
            if index % GROUP_BYTES == 0 {
                Some(index / GROUP_BYTES)
            } else {
                None
            }
        }
        _ => None,
    }
}

/// Returns the pointer that a group is known to hold.
fn known_in<D: Copy>(state: &AbsState<D>, group: Option<usize>) -> Option<AbstractValue<D>>
    requires { IfSome group (λ g. g < GROUPS) }
    ensures { result ≡ known_in state.now group }
{
    let known = state.group(group?);
    if is_pointer(known) { Some(known) } else { None }
}

/// Returns what is known of what a load reads.
#[tactic(auto, unfolding(crate::specs::AbstractSteps::abstract_load_value))]
fn load_value<D: Domain>(
    state: &AbsState<D>,
    base: AbstractValue<D>,
    displacement: i16,
    size: Size,
) -> Result<AbstractValue<D>, Reason>
    ensures { result ≡ abstract_load_value D.ops state.now base displacement size }
{
    let n = size.bytes();
    let from = locate(state, base, displacement, n)?;
    match known_in(state, known_group(from, size)) {
        Some(known) => Ok(known),
        None => {
            region_readable(state, n, from)?;
            Ok(AbstractValue::Scalar(number_of_size(size)))
        }
    }
}

/// Tests whether the `n` bytes that `base` with a displacement reaches may be read.
///
/// # Errors
/// The reason for which a load could be stuck.
#[tactic(auto, unfolding(crate::specs::AbstractSteps::readable))]
fn readable<D: Copy>(
    state: &AbsState<D>,
    base: AbstractValue<D>,
    displacement: i16,
    n: usize,
) -> Result<(), Reason>
    requires some { 1 ≤ n }
    requires few { n ≤ 8 }
    ensures { result ≡ readable state.now base displacement n }
{
    let to = locate(state, base, displacement, n)?;
    region_readable(state, n, to)
}

/// Returns what is known of the number in `n` bytes, where they may be read.
fn load_number<D: Copy>(
    state: &AbsState<D>,
    base: AbstractValue<D>,
    displacement: i16,
    n: usize,
    number: D,
) -> Result<AbstractValue<D>, Reason>
    requires some { 1 ≤ n }
    requires few { n ≤ 8 }
    ensures { result ≡ abstract_load_number state.now base displacement n number }
{
    readable(state, base, displacement, n)?;
    Ok(AbstractValue::Scalar(number))
}

fn load<D: Domain>(
    state: &AbsState<D>,
    base: AbstractValue<D>,
    displacement: i16,
    size: Size,
) -> Result<AbstractValue<D>, Reason>
    ensures { result ≡ abstract_load D.ops state.now base displacement size }
{
    match base {
        AbstractValue::Ctx => load_field(displacement, size),
        _ => load_value(state, base, displacement, size),
    }
}

/// Makes the abstract step of a load that extends with zeros.
pub(crate) fn load_step<D: Domain>(
    state: &AbsState<D>,
    size: Size,
    dst: Reg,
    base: Reg,
    displacement: i16,
) -> Result<Transition<D>, Reason>
    ensures { answer_of state.now result ≡ load_step D.ops state.now size dst base displacement }
{
    let from = read(state, base)?;
    written(dst, load(state, from, displacement, size))
}

/// Makes the abstract step of a load that extends the sign.
pub(crate) fn load_signed_step<D: Domain>(
    state: &AbsState<D>,
    size: SignedSize,
    dst: Reg,
    base: Reg,
    displacement: i16,
) -> Result<Transition<D>, Reason>
    ensures { answer_of state.now result ≡ load_signed_step D.ops state.now size dst base displacement }
{
    let from = read(state, base)?;
    let n = size.unsigned().bytes();
    let number = D::top();
    written(dst, load_number(state, from, displacement, n, number))
}
