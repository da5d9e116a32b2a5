//! The abstract step of a store.

ghost use Rattle.std.specs.Prelude.{◌≡◌};
ghost use Rattle.insn.specs.Codes.{byte_count};
ghost use Rattle.absstate.specs.Changes.{state_after_change, answer_of};
ghost use Rattle.absstate.specs.AbstractSteps.{abstract_pointer, abstract_store_pointer, abstract_store_number, store_known, IsInStack, with_region, store_step};
ghost use Rattle.absstate.specs.declared.abstract_state.AbsState.{AbsState};

use crate::abstract_state::{AbsState, AbstractValue};
use crate::abstract_step::{operand_abstract, read};
use crate::change::{Change, Transition};
use crate::memory::{Region, locate};
use insn::{Operand, Reg, Size, Width};
use interval::Domain;
use semantics::{GROUP_BYTES, Reason, index_in_stack, is_group_place};

/// Tests whether a base is a pointer, and not a number.
fn pointer<D: Copy>(base: AbstractValue<D>) -> Result<(), Reason>
    ensures { result ≡ abstract_pointer base }
{
    match base {
        AbstractValue::Scalar(_) => Err(Reason::NotAPointer),
        _ => Ok(()),
    }
}

/// Returns the change by which the bytes of an access to a region are set.
fn set_bytes<D: Copy>(size: Size, to: Region) -> Change<D>
    requires { IsInStack (byte_count size) to }
    ensures { (state : AbsState D) → state_after_change state result ≡ with_region state (byte_count size) to }
{
    match to {
        Region::InStack(index) => Change::InitialisedBytes {
            index: index as u16,
            size,
        },
        Region::InBytes => Change::Nothing,
    }
}

/// Makes the abstract step of storing a pointer.
///
/// # Errors
/// `PointerStored` where it isn't stored as a whole in a group of the stack, `StackBounds` outside the stack.
fn store_pointer<D: Copy>(
    to: AbstractValue<D>,
    displacement: i16,
    size: Size,
    known: AbstractValue<D>,
) -> Result<Transition<D>, Reason>
    ensures { (state : AbsState D) → answer_of state result ≡ abstract_store_pointer state to displacement size known }
{
    match (to, size) {
        (AbstractValue::Stack(offset), Size::Double) => {
            if !is_group_place(i64::from(offset), displacement) {
                return Err(Reason::PointerStored);
            }
            let index = index_in_stack(i64::from(offset), displacement, GROUP_BYTES).ok_or(
                Reason::StackBounds,
            )?;
            Ok(Transition::On(Change::Pointer {
                group: (index / GROUP_BYTES) as u16,
                known,
            }))
        }
        _ => Err(Reason::PointerStored),
    }
}

/// Makes the abstract step of storing a number.
fn store_number<D: Copy>(
    state: &AbsState<D>,
    to: AbstractValue<D>,
    displacement: i16,
    size: Size,
) -> Result<Transition<D>, Reason>
    ensures { answer_of state.now result ≡ abstract_store_number state.now to displacement size }
{
    let to = locate(state, to, displacement, size.bytes())?;
    Ok(Transition::On(set_bytes(size, to)))
}

/// Makes the abstract step of storing a value.
fn store_known<D: Copy>(
    state: &AbsState<D>,
    to: AbstractValue<D>,
    displacement: i16,
    size: Size,
    known: AbstractValue<D>,
) -> Result<Transition<D>, Reason>
    ensures { answer_of state.now result ≡ store_known state.now to displacement size known }
{
    match known {
        AbstractValue::Scalar(_) => store_number(state, to, displacement, size),
        pointer => store_pointer(to, displacement, size, pointer),
    }
}

/// Makes the abstract step of a store.
pub(crate) fn store_step<D: Domain>(
    state: &AbsState<D>,
    size: Size,
    base: Reg,
    operand: Operand,
    displacement: i16,
) -> Result<Transition<D>, Reason>
    ensures { answer_of state.now result ≡ store_step D.ops state.now size base operand displacement }
{
    let to = read(state, base)?;
    let known = operand_abstract(state, Width::W64, operand)?;
    pointer(to)?;
    store_known(state, to, displacement, size, known)
}
