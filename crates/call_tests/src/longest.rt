//! The longest programs: the trace of one, and those that can be put in order.

use crate::shared::assembled;
use basics::streams::Output;
use insn::{Condition, Insn, Operand, Reg, Width, decode, encode};
use ordering::{OrderError, order};
use report::{Ask, report};
use std::alloc::{AllocError, Global};
use std::process::Abort;
use std::test::Fail;

/// Makes the longest program whose slots each move their own number into r0.
fn numbered<R: AllocGlobal>(rt: &R) -> Result<Vec<u8>, Fail> {
    let mut file = Vec::new(rt.alloc());
    for slot in 0..4095_u32 {
        file.extend_from_slice(&[0xb7, 0, 0, 0])?;
        file.extend_from_slice(&slot.to_le_bytes())?;
    }
    file.extend_from_slice(&assembled(rt, "exit")?)?;
    Ok(file)
}

/// Makes the trace of that program.
fn numbered_lines<R: AllocGlobal>(rt: &R) -> Result<String, Fail> {
    let mut lines = String::new(rt.alloc());
    for slot in 0..4095_u32 {
        lines.push_str(format!(in rt.alloc(); "{slot} mov r0, {slot}\n")?.as_str())?;
    }
    lines.push_str("4095 exit\nexit 4094\nwindow none\ndestination none\n")?;
    Ok(lines)
}

#[test]
fn a_trace_prints_each_of_4096_steps(rt: HostRuntime) -> Result<(), Fail> {
    let mut out = Output::new(Vec::new(rt.alloc()));
    let mut err = Vec::new(rt.alloc());
    let ask = Ask::Trace { hex: None };
    let status = report(rt.alloc(), ask, &numbered(&rt)?, &mut out, &mut err);
    let lines = numbered_lines(&rt)?;
    assert_eq!(rt; out.into_inner().as_slice(), lines.as_bytes());
    assert_eq!(rt; err.len(), 0);
    assert_eq!(rt; status, 0);
    Ok(())
}

/// Returns a jump by a distance if `r1` is 0.
fn jump_if(offset: i16) -> Insn {
    Insn::JumpIf {
        width: Width::W64,
        condition: Condition::Eq,
        dst: Reg::R1,
        operand: Operand::Imm(0),
        offset,
    }
}

/// Puts a program in order, which is encoded and decoded before, so that it fits.
fn ordered(rt: &impl Abort, alloc: Global, code: &[Insn]) -> Result<Vec<Insn>, OrderError> {
    let bytes = encode(alloc, code)?;
    let code = decode(alloc, &bytes);
    assert!(rt; code.is_ok());
    match code {
        Ok(code) => order(alloc, code.as_slice()),
        Err(_) => Err(OrderError::Memory),
    }
}

/// Returns a program of `first` + 3n + 2 slots, which needs `first` + 4n + 1 in order: so many instructions that
/// continue to the next one, and n conditional jumps, each with an exit after it that is placed before it, so that each
/// fall-through except the last is lost.
fn chain(alloc: Global, first: usize, n: i16) -> Result<Vec<Insn>, AllocError> {
    let mut code = Vec::new(alloc);
    for _ in 0..first {
        code.push(Insn::Mov {
            width: Width::W64,
            dst: Reg::R0,
            operand: Operand::Imm(0),
        })?;
    }
    let length = n.saturating_mul(2);
    code.push(Insn::Jump { offset: length })?;
    for _ in 1..n {
        code.push(jump_if(1))?;
        code.push(Insn::Exit)?;
    }
    code.push(jump_if(0))?;
    code.push(Insn::Exit)?;
    for i in 0..n {
        code.push(jump_if(i.saturating_sub(length)))?;
    }
    code.push(Insn::Jump {
        offset: length.saturating_add(n).saturating_add(1).saturating_neg(),
    })?;
    Ok(code)
}

#[test]
fn an_order_has_at_most_4096_slots(rt: HostRuntime) -> Result<(), Fail> {
    // 3 + 4 * 1,023 + 1 slots are as many as a program may have.
    let longest = ordered(&rt, rt.alloc(), chain(rt.alloc(), 3, 1023)?.as_slice());
    assert_eq!(rt; longest.map(|code| code.len()), Ok(4096));
    let long = ordered(&rt, rt.alloc(), chain(rt.alloc(), 4, 1023)?.as_slice());
    assert_eq!(rt; long.err(), Some(OrderError::TooLong));
    Ok(())
}
