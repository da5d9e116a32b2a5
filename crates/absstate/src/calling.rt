//! The abstract step of a call.

ghost use Rattle.std.specs.Prelude.{◌≡◌, ◌+◌, ◌≤◌, IfOk, IfSome};
ghost use Rattle.absstate.specs.Changes.{answer_of};
ghost use Rattle.absstate.specs.AbstractSteps.{abstract_context_argument, abstract_number_argument, abstract_stack_index, abstract_stack_argument, abstract_record_argument, abstract_with_argument, out_of, call_step};
ghost use Rattle.semantics.specs.Calls.{record_bytes};
ghost use Rattle.semantics.specs.declared.limits.TheConstants.{STACK_BYTES};

use crate::abstract_state::{AbsState, AbstractValue};
use crate::abstract_step::read;
use crate::change::{Change, Transition};
use crate::loading::cells_readable;
use insn::Reg;
use interval::Domain;
use semantics::{Argument, Helper, Reason, RecordForm, Room, Signature, index_in_stack};

/// Tests whether an argument is the context.
fn context_argument<D: Copy>(state: &AbsState<D>, reg: Reg) -> Result<(), Reason>
    ensures { result ≡ abstract_context_argument state.now reg }
{
    match read(state, reg)? {
        AbstractValue::Ctx => Ok(()),
        _ => Err(Reason::HelperArgument(reg.number())),
    }
}

/// Tests whether an argument is a number.
fn number_argument<D: Copy>(state: &AbsState<D>, reg: Reg) -> Result<(), Reason>
    ensures { result ≡ abstract_number_argument state.now reg }
{
    match read(state, reg)? {
        AbstractValue::Scalar(_) => Ok(()),
        _ => Err(Reason::HelperArgument(reg.number())),
    }
}

/// Returns the index, among the stack cells, of the `n` bytes that a pointer points to, or `None` where they don't lie
/// in the stack.
#[tactic(auto, using(semantics::specs::laws::Access::index_short))]
fn stack_index<D: Copy>(pointer: AbstractValue<D>, n: usize) -> Option<usize>
    requires { n ≤ STACK_BYTES }
    ensures index { result ≡ abstract_stack_index n pointer }
    ensures inside { IfSome result (λ i. i + n ≤ STACK_BYTES) }
{
    match pointer {
        AbstractValue::Stack(offset) => index_in_stack(i64::from(offset), 0, n),
        _ => None,
    }
}

/// Returns the index, among the stack cells, of the `n` bytes that an argument points to.
fn stack_argument<D: Copy>(state: &AbsState<D>, n: usize, reg: Reg) -> Result<usize, Reason>
    requires { n ≤ STACK_BYTES }
    ensures index { result ≡ abstract_stack_argument state.now n reg }
    ensures inside { IfOk result (λ i. i + n ≤ STACK_BYTES) }
{
    let argument = read(state, reg)?;
    stack_index(argument, n).ok_or(Reason::HelperArgument(reg.number()))
}

/// Tests whether an argument points to an address record of a form that may be read.
fn record_argument<D: Copy>(state: &AbsState<D>, form: RecordForm, reg: Reg) -> Result<(), Reason>
    ensures { result ≡ abstract_record_argument state.now form reg }
{
    let index = stack_argument(state, form.bytes(), reg)?;
    cells_readable(state, form.bytes(), index)
}

/// Tests the argument in a register. Returns the room of the record that is written, by this argument or one before it.
fn with_argument<D: Copy>(
    state: &AbsState<D>,
    reg: Reg,
    argument: Argument,
    out: Option<Room>,
) -> Result<Option<Room>, Reason>
    requires { IfSome out (λ room. room.index + record_bytes room.form ≤ STACK_BYTES) }
    ensures out { result ≡ abstract_with_argument state.now reg argument out }
    ensures inside { IfOk result (λ written. IfSome written
        (λ room. room.index + record_bytes room.form ≤ STACK_BYTES)) }
{
    match argument {
        Argument::Unused => {}
        Argument::Context => context_argument(state, reg)?,
        Argument::Number => number_argument(state, reg)?,
        Argument::RecordIn(form) => record_argument(state, form, reg)?,
        Argument::RecordOut(form) => {
            let index = stack_argument(state, form.bytes(), reg)?;
            return Ok(Some(Room {
                index: index as u16,
                form,
            }));
        }
    }
    Ok(out)
}

/// Tests the arguments of a call, each after those before it. Returns the room of the record that is written.
fn out_of<D: Copy>(state: &AbsState<D>, arguments: &[Argument; 5]) -> Result<Option<Room>, Reason>
    ensures out { result ≡ out_of state.now arguments.now }
    ensures inside { IfOk result (λ out. IfSome out (λ room. room.index + record_bytes room.form ≤ STACK_BYTES)) }
{
    let first = with_argument(state, Reg::R1, arguments[0], None)?;
    let second = with_argument(state, Reg::R2, arguments[1], first)?;
    let third = with_argument(state, Reg::R3, arguments[2], second)?;
    let fourth = with_argument(state, Reg::R4, arguments[3], third)?;
    with_argument(state, Reg::R5, arguments[4], fourth)
}

/// Makes the abstract step of a call.
pub(crate) fn call_step<D: Domain>(
    state: &AbsState<D>,
    number: i32,
) -> Result<Transition<D>, Reason>
    ensures { answer_of state.now result ≡ call_step D.ops state.now number }
{
    let helper = Helper::from_number(number).ok_or(Reason::UnknownHelper)?;
    let Signature {
        arguments,
        greatest,
    } = helper.signature();
    let out = out_of(state, &arguments)?;
    let answer = D::range(0, greatest);
    Ok(Transition::On(Change::Answer { answer, out }))
}
