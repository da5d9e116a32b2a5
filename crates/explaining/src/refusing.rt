//! Why a step is refused, in words, with the numbers that decided.

use crate::access::{access_of, greatest_place, least_place};
use crate::text::{Known, State};
use absstate::{AbstractValue, Anchor};
use insn::{AluOp, Insn, Operand, Reg, Width, imm_word};
use interval::{Bounds, Domain, Interval};
use semantics::{Argument, Helper, MAX_OFFSET, Reason};
use std::alloc::AllocError;

/// Returns the registers that an instruction which is no call reads, in this order.
fn registers_read(insn: Insn) -> (Option<Reg>, Option<Reg>) {
    match insn {
        Insn::Alu { dst, operand, .. } | Insn::JumpIf { dst, operand, .. } => {
            (Some(dst), register_of(operand))
        }
        Insn::Mov { operand, .. } => (register_of(operand), None),
        Insn::Neg { dst, .. } | Insn::Swap { dst, .. } => (Some(dst), None),
        Insn::SignExtend { src, .. } => (Some(src), None),
        Insn::Load { base, .. } | Insn::LoadSigned { base, .. } => (Some(base), None),
        Insn::Store { base, operand, .. } => (Some(base), register_of(operand)),
        Insn::Exit => (Some(Reg::R0), None),
        Insn::Jump { .. } | Insn::LongJump { .. } | Insn::LoadImm { .. } | Insn::Call { .. } => {
            (None, None)
        }
    }
}

fn register_of(operand: Operand) -> Option<Reg> {
    match operand {
        Operand::Reg(reg) => Some(reg),
        Operand::Imm(_) => None,
    }
}

/// Returns what is known of a register.
fn value_in(state: &State, reg: Reg) -> AbstractValue<Interval> {
    state.values[reg.number() as usize]
}

/// Returns what is known of an operand.
fn value_of(state: &State, width: Width, operand: Operand) -> AbstractValue<Interval> {
    match operand {
        Operand::Reg(reg) => value_in(state, reg),
        Operand::Imm(n) => AbstractValue::Scalar(Interval::exact(imm_word(width, n))),
    }
}

/// Returns the first register of a call's arguments that is uninitialised; `r0` where each holds something.
fn empty_argument(state: &State) -> Reg {
    for reg in [Reg::R1, Reg::R2, Reg::R3, Reg::R4, Reg::R5] {
        if value_in(state, reg) == AbstractValue::Nothing {
            return reg;
        }
    }
    Reg::R0
}

/// Returns the register that is read and is uninitialised.
fn empty_register(state: &State, insn: Insn) -> Reg {
    match registers_read(insn) {
        (Some(first), _) if value_in(state, first) == AbstractValue::Nothing => first,
        (_, Some(second)) => second,
        _ => empty_argument(state),
    }
}

/// What ends the reason of a step that is no sum of a pointer and a number.
const NO_SUM: &str =
    ", only a 64-bit add or sub of a number moves a pointer, into the stack or the datagram";

/// What ends the reason of a number to which a pointer is added.
const EXCHANGED: &str = ", the pointer has to be the left operand";

/// What ends the reason of a sum of the end and a number.
const END_STAYS: &str = ", the end is not moved, move the place that is compared with it";

/// What ends the reason of a pointer into the stack to which a number of several is added.
const NOT_EXACT: &str =
    ", a number that is not known exactly, a pointer into the stack is moved by a constant";

/// Appends that a number may lead too far, and the greatest one that doesn't.
fn push_far(note: &mut String, op: AluOp, anchor: Anchor, offset: i32) -> Result<(), AllocError> {
    let most = match op {
        AluOp::Add => MAX_OFFSET.saturating_sub(greatest_place(anchor, offset)),
        _ => MAX_OFFSET.saturating_add(least_place(anchor, offset)),
    };
    write!(
        note,
        ", which may lead more than {MAX_OFFSET} bytes away, a number of at most {most} does not"
    )
}

/// Appends why a number doesn't move a pointer into the stack.
fn push_no_place(note: &mut String, by: Interval) -> Result<(), AllocError> {
    let Bounds { lo, hi } = by.bounds();
    if lo == hi {
        write!(note, ", which leads more than {MAX_OFFSET} bytes away")
    } else {
        note.push_str(NOT_EXACT)
    }
}

/// Appends why a sum or a difference on 64 bits isn't known to be a pointer.
fn push_no_sum(
    note: &mut String,
    state: &State,
    op: AluOp,
    dst: Reg,
    operand: Operand,
) -> Result<(), AllocError> {
    match (value_in(state, dst), value_of(state, Width::W64, operand)) {
        (AbstractValue::Scalar(_), AbstractValue::Stack(_)) if op == AluOp::Add => {
            note.push_str(EXCHANGED)
        }
        (AbstractValue::Scalar(_), AbstractValue::Data { .. }) if op == AluOp::Add => {
            note.push_str(EXCHANGED)
        }
        (AbstractValue::Stack(_), AbstractValue::Scalar(by)) => push_no_place(note, by),
        (AbstractValue::Data { anchor, offset }, AbstractValue::Scalar(_)) => {
            push_far(note, op, anchor, offset)
        }
        (AbstractValue::End, AbstractValue::Scalar(_)) => note.push_str(END_STAYS),
        _ => note.push_str(NO_SUM),
    }
}

/// Appends the operands of arithmetic on a pointer, and why it isn't allowed.
fn push_arithmetic(note: &mut String, state: &State, insn: Insn) -> Result<(), AllocError> {
    match insn {
        Insn::Alu {
            width,
            op,
            dst,
            operand,
        } => {
            let left = Known(value_in(state, dst));
            let right = Known(value_of(state, width, operand));
            push_operands(note, op, width, (left, right))?;
            match (op, width) {
                (AluOp::Add | AluOp::Sub, Width::W64) => push_no_sum(note, state, op, dst, operand),
                _ => note.push_str(NO_SUM),
            }
        }
        Insn::Mov { width, operand, .. } => {
            let known = Known(value_of(state, width, operand));
            write!(note, "mov{width} of {known}{NO_SUM}")
        }
        Insn::Neg { width, dst } => {
            let known = Known(value_in(state, dst));
            write!(note, "neg{width} of {known}{NO_SUM}")
        }
        Insn::SignExtend { extension, src, .. } => {
            let known = Known(value_in(state, src));
            write!(note, "{extension} of {known}{NO_SUM}")
        }
        Insn::Swap { op, size, dst } => {
            let known = Known(value_in(state, dst));
            write!(note, "{op}{size} of {known}{NO_SUM}")
        }
        _ => Ok(()),
    }
}

/// Appends an operator with its operands.
fn push_operands(
    note: &mut String,
    op: AluOp,
    width: Width,
    operands: (Known, Known),
) -> Result<(), AllocError> {
    let (left, right) = operands;
    write!(note, "{op}{width} of {left} and {right}")
}

/// Appends the operands of a comparison that isn't allowed.
fn push_comparison(note: &mut String, state: &State, insn: Insn) -> Result<(), AllocError> {
    let Insn::JumpIf {
        width,
        dst,
        operand,
        ..
    } = insn
    else {
        return Ok(());
    };
    let left = Known(value_in(state, dst));
    let right = Known(value_of(state, width, operand));
    write!(
        note,
        "compares {left} and {right}, a pointer into the datagram is compared with the end only, on 64 bits by jgt, jge, jlt or jle"
    )
}

/// Appends the pointer that is stored, and where.
fn push_store(note: &mut String, state: &State, insn: Insn) -> Result<(), AllocError> {
    let (Some(access), Insn::Store { operand, .. }) = (access_of(insn), insn) else {
        return Ok(());
    };
    let known = Known(value_of(state, Width::W64, operand));
    access.push_span(note, state)?;
    write!(
        note,
        ", a pointer ({known}) is kept by stxdw only, at a multiple of 8 below r10"
    )
}

/// Appends what is wrong with an access.
fn push_access(
    note: &mut String,
    state: &State,
    insn: Insn,
    reason: Reason,
) -> Result<(), AllocError> {
    let Some(access) = access_of(insn) else {
        return Ok(());
    };
    if let Reason::NotAPointer = reason {
        return access.push_number(note, state);
    }
    access.push_span(note, state)?;
    match reason {
        Reason::UninitStack => access.push_unset(note, state),
        Reason::StackBounds => note.push_str(", the stack is -512 to +0"),
        Reason::ContextAccess => note.push_str(match insn {
            Insn::Store { .. } => ", the context is only read",
            Insn::LoadSigned { .. } => ", no field is read with its sign",
            _ => ", which is no field",
        }),
        Reason::DatagramBounds => access.push_bounds(note, state),
        Reason::PointerBytes => access.push_kept(note, state),
        _ => Ok(()),
    }
}

/// Returns the register of an argument, and what a helper takes there.
fn argument_at(number: i32, n: u8) -> Option<(Reg, Argument)> {
    let arguments = Helper::from_number(number)?.signature().arguments;
    let reg = Reg::from_number(n)?;
    match usize::from(n).checked_sub(1) {
        Some(i) if i < 5 => Some((reg, arguments[i])),
        _ => None,
    }
}

/// Appends what an argument of a helper is, and what it should be.
fn push_argument(note: &mut String, state: &State, insn: Insn, n: u8) -> Result<(), AllocError> {
    let Insn::Call { helper } = insn else {
        return Ok(());
    };
    let Some((reg, argument)) = argument_at(helper, n) else {
        return Ok(());
    };
    let known = Known(value_in(state, reg));
    write!(note, "{reg} is {known}, helper {helper} takes ")?;
    match argument {
        Argument::Unused => note.push_str("nothing"),
        Argument::Context => note.push_str("the context"),
        Argument::Number => note.push_str("a number"),
        Argument::RecordIn(form) | Argument::RecordOut(form) => {
            let bytes = form.bytes();
            write!(note, "{bytes} bytes of the stack")
        }
    }
}

/// Appends why the step of an instruction from a state is refused.
pub(crate) fn push_refusal(
    note: &mut String,
    state: &State,
    insn: Insn,
    reason: Reason,
) -> Result<(), AllocError> {
    write!(note, "refused {reason}: ")?;
    match reason {
        Reason::UninitRegister => {
            let reg = empty_register(state, insn);
            write!(note, "reads {reg}, which holds nothing")
        }
        Reason::WritesFramePointer => note.push_str("writes r10"),
        Reason::PointerArithmetic => push_arithmetic(note, state, insn),
        Reason::PointerCompare => push_comparison(note, state, insn),
        Reason::PointerStored => push_store(note, state, insn),
        Reason::UnknownHelper => note.push_str("no such helper, there are 1 to 9"),
        Reason::HelperArgument(n) => push_argument(note, state, insn, n),
        Reason::ExitNotScalar => {
            let known = Known(value_in(state, Reg::R0));
            write!(note, "r0 is {known}, not a number")
        }
        _ => push_access(note, state, insn, reason),
    }
}
