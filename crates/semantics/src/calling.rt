//! Calls of helpers (RFC 9669, section 4.3.1): argument k is in register k.

ghost use Rattle.std.specs.Prelude.{◌≡◌, ◌+◌, ◌≤◌, IfOk};
ghost use Rattle.semantics.specs.Calls.{bytes_at};
ghost use Rattle.semantics.specs.Effects.{context_argument, number_argument, stack_argument, record_argument, with_argument, inputs, effect_with, call_effect};
ghost use Rattle.semantics.specs.Machine.{Context, IsContext, context_bytes};
ghost use Rattle.semantics.specs.Views.{memory_of};
ghost use Rattle.semantics.specs.declared.limits.TheConstants.{STACK_BYTES};

use crate::effect::{Effect, Registers, read};
use crate::helper::{
    Argument, Helper, Inputs, Question, RECORD_BYTES, RecordForm, Room, WIDE_RECORD_BYTES,
    bytes_of_cells, destination_at, stack_index, widened, window_within,
};
use crate::loading::{CONTEXT_BYTES, part_of, side};
use crate::memory::Memory;
use crate::reason::Reason;
use crate::stack::no_pointer;
use crate::value::Value;
use insn::Reg;

/// Tests whether an argument is the context.
fn context_argument(registers: &Registers, reg: Reg) -> Result<(), Reason>
    ensures { result ≡ context_argument registers.now reg }
{
    match read(registers, reg)? {
        Value::Ctx => Ok(()),
        _ => Err(Reason::HelperArgument(reg.number())),
    }
}

/// Returns the number in an argument.
fn number_argument(registers: &Registers, reg: Reg) -> Result<u64, Reason>
    ensures { result ≡ number_argument registers.now reg }
{
    match read(registers, reg)? {
        Value::Scalar(n) => Ok(n),
        _ => Err(Reason::HelperArgument(reg.number())),
    }
}

/// Returns the index, among the stack cells, of the `n` bytes that an argument points to.
fn stack_argument(registers: &Registers, n: usize, reg: Reg) -> Result<usize, Reason>
    requires { n ≤ STACK_BYTES }
    ensures index { result ≡ stack_argument registers.now n reg }
    ensures inside { IfOk result (λ i. i + n ≤ STACK_BYTES) }
{
    let argument = read(registers, reg)?;
    stack_index(argument, n).ok_or(Reason::HelperArgument(reg.number()))
}

/// Returns the bytes of `N` stack cells, at most 24, from an index on.
fn bytes_at<const N: usize>(memory: &Memory<'_>, index: usize) -> Result<[u8; N], Reason>
    requires some { 1 ≤ N }
    requires few { N ≤ 24 }
    requires inside { index + N ≤ STACK_BYTES }
    ensures { result ≡ bytes_at (memory_of memory.now) N index }
{
    no_pointer(memory.stack, index, N)?;
    bytes_of_cells(part_of(&memory.stack.cells, index, N)).ok_or(Reason::UninitStack)
}

/// Returns the address record of a form that an argument points to, as a wide one.
fn record_argument(
    memory: &Memory<'_>,
    registers: &Registers,
    form: RecordForm,
    reg: Reg,
) -> Result<[u8; WIDE_RECORD_BYTES], Reason>
    ensures { result ≡ record_argument (memory_of memory.now) registers.now form reg }
{
    match form {
        RecordForm::Narrow => {
            let index = stack_argument(registers, RECORD_BYTES, reg)?;
            Ok(widened(&bytes_at(memory, index)?))
        }
        RecordForm::Wide => {
            let index = stack_argument(registers, WIDE_RECORD_BYTES, reg)?;
            bytes_at(memory, index)
        }
    }
}

/// Adds what the argument in a register gives to what those before it gave.
fn with_argument(
    memory: &Memory<'_>,
    registers: &Registers,
    reg: Reg,
    argument: Argument,
    given: Inputs,
) -> Result<Inputs, Reason>
    ensures { result ≡ with_argument (memory_of memory.now) registers.now reg argument given }
{
    match argument {
        Argument::Unused => Ok(given),
        Argument::Context => {
            context_argument(registers, reg)?;
            Ok(given)
        }
        Argument::Number => {
            let number = number_argument(registers, reg)?;
            Ok(Inputs {
                former: given.number,
                number,
                ..given
            })
        }
        Argument::RecordIn(form) => {
            let address = record_argument(memory, registers, form, reg)?;
            Ok(Inputs { address, ..given })
        }
        Argument::RecordOut(form) => {
            let index = stack_argument(registers, form.bytes(), reg)?;
            Ok(Inputs {
                out: Some(Room {
                    index: index as u16,
                    form,
                }),
                ..given
            })
        }
    }
}

/// Returns what the arguments of a call give to its helper. Each is tested after those before it.
fn inputs(
    memory: &Memory<'_>,
    registers: &Registers,
    arguments: &[Argument; 5],
) -> Result<Inputs, Reason>
    ensures { result ≡ inputs (memory_of memory.now) registers.now arguments.now }
{
    let none = Inputs {
        former: 0,
        number: 0,
        address: [0; WIDE_RECORD_BYTES],
        out: None,
    };
    let first = with_argument(memory, registers, Reg::R1, arguments[0], none)?;
    let second = with_argument(memory, registers, Reg::R2, arguments[1], first)?;
    let third = with_argument(memory, registers, Reg::R3, arguments[2], second)?;
    let fourth = with_argument(memory, registers, Reg::R4, arguments[3], third)?;
    with_argument(memory, registers, Reg::R5, arguments[4], fourth)
}

/// Returns the effect of a helper on what it is given.
fn effect_with(
    context: &[u8; CONTEXT_BYTES],
    memory: &Memory<'_>,
    helper: Helper,
    given: &Inputs,
) -> Effect
    ensures { (c : Context) → IsContext c → context.now ≡ context_bytes c (memory.now).length
        → result ≡ effect_with c (memory_of memory.now) helper given.now }
{
    match helper {
        Helper::ChannelPeer(_) | Helper::ChannelTo(_) | Helper::Permitted(_) => Effect::Ask {
            question: Question {
                helper: helper.number(),
                number: given.number,
                address: given.address,
            },
            out: given.out,
        },
        Helper::Window => {
            Effect::SetWindow(window_within(memory.length, given.former, given.number))
        }
        Helper::Destination(form) => {
            Effect::SetDestination(destination_at(side(context), form, given.address))
        }
    }
}

/// Returns the effect of a call.
pub(crate) fn call_effect(
    context: &[u8; CONTEXT_BYTES],
    memory: &Memory<'_>,
    registers: &Registers,
    number: i32,
) -> Result<Effect, Reason>
    ensures { (c : Context) → IsContext c → context.now ≡ context_bytes c (memory.now).length
        → result ≡ call_effect c (memory_of memory.now) registers.now number }
{
    let helper = Helper::from_number(number).ok_or(Reason::UnknownHelper)?;
    let given = inputs(memory, registers, &helper.signature().arguments)?;
    Ok(effect_with(context, memory, helper, &given))
}
