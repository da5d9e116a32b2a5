//! The effect of an instruction (RFC 9669, sections 4 and 5).

ghost use Rattle.std.specs.Prelude.{◌≡◌, ◌≤◌, ◌+ℤ◌};
ghost use Rattle.std.specs.Int.{w64, cast_signed};
ghost use Rattle.semantics.specs.Effects.{content_of, value_at, register_value, operand_value, is_writable, writable, near_place, moved_place, alu_result, unary_result, register_write, alu_effect, unary_effect, comparison_of_places, comparison_result, jump_if_effect, load_effect, load_signed_effect, pointer, is_group_place, store_pointer, store_number, store_value, store_effect, verdict_of, exit_effect, effect};
ghost use Rattle.semantics.specs.Loading.{load, load_signed};
ghost use Rattle.semantics.specs.Machine.{Context, IsContext, context_bytes};
ghost use Rattle.semantics.specs.Views.{memory_of};
ghost use Rattle.semantics.specs.declared.limits.TheConstants.{MAX_DATAGRAM};

use crate::access::{Location, index_in_stack, locate};
use crate::calling::call_effect;
use crate::helper::{Question, Room, WIDE_RECORD_BYTES};
use crate::limits::{GROUP_BYTES, MAX_OFFSET};
use crate::loading::{CONTEXT_BYTES, load, load_signed};
use crate::memory::Memory;
use crate::reason::Reason;
use crate::value::Value;
use insn::{
    AluOp, Condition, Insn, Operand, Reg, SignedSize, Size, UnaryOp, Width, alu, holds, imm_word,
    unary,
};

/// The registers `r0` to `r10`.
pub type Registers = [Value; 11];

/// The effect of an instruction that is not stuck.
/// See docs/DESIGN.md, "Stores and calls are data".
#[derive(Clone, Copy, Debug, PartialEq, Eq)]
pub enum Effect {
    /// Writes the value to `dst`, and continues with the next instruction.
    Write {
        dst: Reg,
        value: Value,
    },
    /// Stores the low bytes of a number at a location, and continues with the next instruction.
    Store {
        at: Location,
        size: Size,
        value: u64,
    },
    /// Stores a pointer in a group of the stack, by its number, and continues with the next instruction.
    StorePointer {
        group: usize,
        pointer: Value,
    },
    /// Asks a helper that looks up. Its answer is written to `r0`, and the record of it to the room `out` in the stack,
    /// if there is one; `r1` to `r5` are uninitialised afterwards. Continues with the next instruction.
    Ask {
        question: Question,
        out: Option<Room>,
    },
    /// Sets the window, by its front and its length, and writes 0 to `r0`. `None` where it would not lie in memory: the
    /// plan stays as it is, and `r0` is 1. `r1` to `r5` are uninitialised afterwards. Continues with the next
    /// instruction.
    SetWindow(Option<(usize, usize)>),
    /// Sets the destination, as `SetWindow` does the window.
    SetDestination(Option<[u8; WIDE_RECORD_BYTES]>),
    /// Jumps by a distance in slots, counted from the next slot.
    Jump {
        offset: i32,
    },
    /// Continues with the next instruction: a conditional jump that is not taken.
    Pass,
    /// Ends the run with a verdict.
    Exit {
        verdict: u64,
    },
}

pub(crate) fn read(registers: &Registers, reg: Reg) -> Result<Value, Reason>
    ensures { result ≡ register_value registers.now reg }
{
    match registers[reg.number() as usize] {
        Value::Nothing => Err(Reason::UninitRegister),
        value => Ok(value),
    }
}

/// Returns the value of an operand of an instruction of a width.
fn operand_value(registers: &Registers, width: Width, operand: Operand) -> Result<Value, Reason>
    ensures { result ≡ operand_value width registers.now operand }
{
    match operand {
        Operand::Reg(reg) => read(registers, reg),
        Operand::Imm(n) => Ok(Value::Scalar(imm_word(width, n))),
    }
}

/// Tests whether a register may be written.
///
/// # Errors
/// `WritesFramePointer` for `r10`.
pub fn writable(dst: Reg) -> Result<(), Reason>
    ensures { result ≡ writable dst }
{
    if dst == Reg::R10 {
        Err(Reason::WritesFramePointer)
    } else {
        Ok(())
    }
}

/// Returns a place, or `None` where it lies further than [`MAX_OFFSET`] from 0.
fn near_place(place: i64) -> Option<i64>
    ensures { result ≡ near_place place }
{
    if -MAX_OFFSET <= place && place <= MAX_OFFSET {
        Some(place)
    } else {
        None
    }
}

/// Returns a place moved by a signed number, which is added or subtracted on 64 bits. `None` for another operator,
/// or where the place would lie further than [`MAX_OFFSET`] from 0.
pub fn moved_place(op: AluOp, width: Width, place: i64, by: u64) -> Option<i64>
    ensures { result ≡ moved_place op width place by }
{
    match (op, width) {
        (AluOp::Add, Width::W64) => near_place(place.checked_add(by.cast_signed())?),
        (AluOp::Sub, Width::W64) => near_place(place.checked_sub(by.cast_signed())?),
        _ => None,
    }
}

fn alu_result(op: AluOp, width: Width, a: Value, b: Value) -> Result<Value, Reason>
    ensures { result ≡ alu_result op width a b }
{
    match (a, b) {
        (Value::Scalar(a), Value::Scalar(b)) => Ok(Value::Scalar(alu(op, width, a, b))),
        (Value::Data(k), Value::Scalar(b)) => {
            let k = moved_place(op, width, k, b).ok_or(Reason::PointerArithmetic)?;
            Ok(Value::Data(k))
        }
        (Value::Stack(k), Value::Scalar(b)) => {
            let k = moved_place(op, width, k, b).ok_or(Reason::PointerArithmetic)?;
            Ok(Value::Stack(k))
        }
        _ => Err(Reason::PointerArithmetic),
    }
}

fn unary_result(op: UnaryOp, a: Value) -> Result<Value, Reason>
    ensures { result ≡ unary_result op a }
{
    match (op, a) {
        (UnaryOp::Mov(Width::W64), value) => Ok(value),
        (op, Value::Scalar(a)) => Ok(Value::Scalar(unary(op, a))),
        _ => Err(Reason::PointerArithmetic),
    }
}

/// Returns the effect of writing a result, if the register may be written and there is a result.
fn written(dst: Reg, value: Result<Value, Reason>) -> Result<Effect, Reason>
    ensures { result ≡ register_write dst value }
{
    writable(dst)?;
    Ok(Effect::Write { dst, value: value? })
}

fn alu_effect(
    registers: &Registers,
    width: Width,
    op: AluOp,
    dst: Reg,
    operand: Operand,
) -> Result<Effect, Reason>
    ensures { result ≡ alu_effect registers.now width op dst operand }
{
    let a = read(registers, dst)?;
    let b = operand_value(registers, width, operand)?;
    written(dst, alu_result(op, width, a, b))
}

fn unary_effect(
    registers: &Registers,
    width: Width,
    op: UnaryOp,
    dst: Reg,
    operand: Operand,
) -> Result<Effect, Reason>
    ensures { result ≡ unary_effect registers.now width op dst operand }
{
    let a = operand_value(registers, width, operand)?;
    written(dst, unary_result(op, a))
}

/// Compares a place with the datagram's end, or the end with a place.
///
/// # Errors
/// `PointerCompare` for a condition that is not one of the four unsigned orders.
fn ordered(condition: Condition, a: i64, b: i64) -> Result<bool, Reason>
    ensures { result ≡ comparison_of_places condition a b }
{
    match condition {
        Condition::Gt => Ok(a > b),
        Condition::Ge => Ok(a >= b),
        Condition::Lt => Ok(a < b),
        Condition::Le => Ok(a <= b),
        _ => Err(Reason::PointerCompare),
    }
}

fn compared(
    length: usize,
    width: Width,
    condition: Condition,
    a: Value,
    b: Value,
) -> Result<bool, Reason>
    requires { length ≤ MAX_DATAGRAM }
    ensures { result ≡ comparison_result length width condition a b }
{
    let end = length as i64;
    match (width, a, b) {
        (_, Value::Scalar(a), Value::Scalar(b)) => Ok(holds(condition, width, a, b)),
        (Width::W64, Value::Data(k), Value::End) => ordered(condition, k, end),
        (Width::W64, Value::End, Value::Data(k)) => ordered(condition, end, k),
        _ => Err(Reason::PointerCompare),
    }
}

/// What a conditional jump compares.
#[derive(Clone, Copy, Debug, PartialEq, Eq)]
pub struct Comparison {
    /// The width of both numbers.
    pub width: Width,
    /// The condition for which the jump is taken.
    pub condition: Condition,
    /// The register on the left.
    pub dst: Reg,
    /// The register or the number on the right.
    pub operand: Operand,
}

fn jump_if_effect(
    registers: &Registers,
    length: usize,
    comparison: Comparison,
    offset: i16,
) -> Result<Effect, Reason>
    requires { length ≤ MAX_DATAGRAM }
    ensures { result ≡ jump_if_effect registers.now length comparison.width comparison.condition comparison.dst
        comparison.operand offset }
{
    let width = comparison.width;
    let a = read(registers, comparison.dst)?;
    let b = operand_value(registers, width, comparison.operand)?;
    if compared(length, width, comparison.condition, a, b)? {
        Ok(Effect::Jump {
            offset: i32::from(offset),
        })
    } else {
        Ok(Effect::Pass)
    }
}

/// What an instruction reads.
#[derive(Clone, Copy)]
struct MachineView<'a> {
    /// The context record.
    context: &'a [u8; CONTEXT_BYTES],
    /// Stack and datagram.
    memory: &'a Memory<'a>,
    /// The registers `r0` to `r10`.
    registers: &'a Registers,
}

fn load_effect(
    view: &MachineView<'_>,
    size: Size,
    dst: Reg,
    base: Reg,
    displacement: i16,
) -> Result<Effect, Reason>
    ensures { (c : Context) → view.now.context.now ≡ context_bytes c (view.now.memory.now).length
        → result ≡ load_effect c (memory_of view.now.memory.now) view.now.registers.now size dst base displacement }
{
    let from = read(view.registers, base)?;
    written(
        dst,
        load(view.context, view.memory, from, displacement, size),
    )
}

fn load_signed_effect(
    view: &MachineView<'_>,
    size: SignedSize,
    dst: Reg,
    base: Reg,
    displacement: i16,
) -> Result<Effect, Reason>
    ensures { result ≡ load_signed_effect (memory_of view.now.memory.now) view.now.registers.now size dst base
        displacement }
{
    let from = read(view.registers, base)?;
    written(dst, load_signed(view.memory, from, displacement, size))
}

/// Tests whether a base is a pointer, and not a number.
fn pointer(base: Value) -> Result<(), Reason>
    ensures { result ≡ pointer base }
{
    match base {
        Value::Scalar(_) => Err(Reason::NotAPointer),
        _ => Ok(()),
    }
}

/// Returns whether a group begins at the place `base + displacement` of the stack.
pub fn is_group_place(base: i64, displacement: i16) -> bool
    ensures { result ≡ is_group_place (base +ℤ displacement) }
{
    let place = i128::from(base) + i128::from(displacement);
    place.unsigned_abs() % 8 == 0
}

/// Returns the effect of storing a pointer.
/// See docs/DECISIONS.md, "Pointers on the stack".
///
/// # Errors
/// `PointerStored` where it isn't stored as a whole in a group of the stack, `StackBounds` outside the stack.
fn store_pointer(
    base: Value,
    displacement: i16,
    size: Size,
    pointer: Value,
) -> Result<Effect, Reason>
    ensures { result ≡ store_pointer base displacement size pointer }
{
    match (base, size) {
        (Value::Stack(k), Size::Double) => {
            if !is_group_place(k, displacement) {
                return Err(Reason::PointerStored);
            }
            let index = index_in_stack(k, displacement, GROUP_BYTES).ok_or(Reason::StackBounds)?;
            Ok(Effect::StorePointer {
                group: index / GROUP_BYTES,
                pointer,
            })
        }
        _ => Err(Reason::PointerStored),
    }
}

/// Returns the effect of storing a value.
fn store_value(
    memory: &Memory<'_>,
    base: Value,
    displacement: i16,
    size: Size,
    value: Value,
) -> Result<Effect, Reason>
    ensures { result ≡ store_value (memory.now).length base displacement size value }
{
    match value {
        Value::Scalar(value) => {
            let at = locate(memory, base, displacement, size.bytes())?;
            Ok(Effect::Store { at, size, value })
        }
        pointer => store_pointer(base, displacement, size, pointer),
    }
}

fn store_effect(
    view: &MachineView<'_>,
    size: Size,
    base: Reg,
    operand: Operand,
    displacement: i16,
) -> Result<Effect, Reason>
    ensures { result ≡ store_effect view.now.registers.now (view.now.memory.now).length size base operand displacement }
{
    let to = read(view.registers, base)?;
    let value = operand_value(view.registers, Width::W64, operand)?;
    pointer(to)?;
    store_value(view.memory, to, displacement, size, value)
}

fn exit_effect(registers: &Registers) -> Result<Effect, Reason>
    ensures { result ≡ exit_effect registers.now }
{
    match read(registers, Reg::R0)? {
        Value::Scalar(verdict) => Ok(Effect::Exit { verdict }),
        _ => Err(Reason::ExitNotScalar),
    }
}

/// Returns the effect of an instruction on registers and memory. `context` is the context record.
///
/// # Errors
/// The reason for which it is stuck: that of the first of its tests that fails.
pub fn effect_of(
    context: &[u8; CONTEXT_BYTES],
    memory: &Memory<'_>,
    registers: &Registers,
    insn: &Insn,
) -> Result<Effect, Reason>
    ensures { (c : Context) → IsContext c → context.now ≡ context_bytes c (memory.now).length
        → result ≡ effect c (memory_of memory.now) registers.now insn.now }
{
    let view = MachineView {
        context,
        memory,
        registers,
    };
    match *insn {
        Insn::Alu {
            width,
            op,
            dst,
            operand,
        } => alu_effect(registers, width, op, dst, operand),
        Insn::Mov {
            width,
            dst,
            operand,
        } => unary_effect(registers, width, UnaryOp::Mov(width), dst, operand),
        Insn::Neg { width, dst } => {
            unary_effect(
                registers,
                width,
                UnaryOp::Neg(width),
                dst,
                Operand::Reg(dst),
            )
        }
        Insn::SignExtend {
            extension,
            dst,
            src,
        } => unary_effect(
            registers,
            extension.target(),
            UnaryOp::SignExtend(extension),
            dst,
            Operand::Reg(src),
        ),
        Insn::Swap { op, size, dst } => {
            let operand = Operand::Reg(dst);
            unary_effect(registers, Width::W64, UnaryOp::Swap(op, size), dst, operand)
        }
        Insn::Jump { offset } => Ok(Effect::Jump {
            offset: i32::from(offset),
        }),
        Insn::LongJump { offset } => Ok(Effect::Jump { offset }),
        Insn::JumpIf {
            width,
            condition,
            dst,
            operand,
            offset,
        } => {
            let comparison = Comparison {
                width,
                condition,
                dst,
                operand,
            };
            jump_if_effect(registers, memory.length, comparison, offset)
        }
        Insn::Load {
            size,
            dst,
            base,
            offset,
        } => load_effect(&view, size, dst, base, offset),
        Insn::LoadSigned {
            size,
            dst,
            base,
            offset,
        } => load_signed_effect(&view, size, dst, base, offset),
        Insn::Store {
            size,
            base,
            operand,
            offset,
        } => store_effect(&view, size, base, operand, offset),
        Insn::LoadImm { dst, value } => written(dst, Ok(Value::Scalar(value))),
        Insn::Call { helper } => call_effect(context, memory, registers, helper),
        Insn::Exit => exit_effect(registers),
    }
}
