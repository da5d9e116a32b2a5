//! Rows of abstract numbers: `interval` and `known`.

use crate::line::ProgramRow;
use crate::numbers::{abstract_number, bounds_text, number_of};
use crate::program::insn_of;
use anyhow::{Context, Result, bail};
use insn::{AluOp, Condition, Insn, UnaryOp, Width};
use interval::{Domain, Test};
use std::alloc::{AllocError, Global};

/// What an instruction does with abstract numbers.
#[derive(Clone, Copy, Debug)]
enum RowOperator {
    Alu(AluOp, Width),
    Unary(UnaryOp),
    Compare(Condition, Width),
}

/// Returns the operator of an instruction, if it has one.
fn operator_in(insn: Insn) -> Option<RowOperator> {
    match insn {
        Insn::Alu { width, op, .. } => Some(RowOperator::Alu(op, width)),
        Insn::Mov { width, .. } => Some(RowOperator::Unary(UnaryOp::Mov(width))),
        Insn::Neg { width, .. } => Some(RowOperator::Unary(UnaryOp::Neg(width))),
        Insn::SignExtend { extension, .. } => {
            Some(RowOperator::Unary(UnaryOp::SignExtend(extension)))
        }
        Insn::Swap { op, size, .. } => Some(RowOperator::Unary(UnaryOp::Swap(op, size))),
        Insn::JumpIf {
            width,
            condition,
            ..
        } => Some(RowOperator::Compare(condition, width)),
        _ => None,
    }
}

/// Returns the operator of a mnemonic: that of an instruction with two registers, with one, or with two and a distance.
fn operator_of(alloc: Global, mnemonic: &str) -> Result<RowOperator> {
    for operands in ["r0, r1", "r0", "r0, r1, +0"] {
        let text = format!(in alloc; "{mnemonic} {operands}")?;
        if let Ok(insn) = insn_of(alloc, &text) {
            return operator_in(insn).context("no operator");
        }
    }
    bail!("no such mnemonic: {mnemonic}")
}

/// Returns the text of an abstract number.
fn text_of<D: Domain>(alloc: Global, number: D, expected: &str) -> Result<String, AllocError> {
    bounds_text(alloc, number.bounds(), expected)
}

/// Parses two abstract numbers.
fn pair_of<D: Domain>(text: &str) -> Result<(D, D)> {
    let (a, b) = text.split_once(' ').context("no two numbers")?;
    Ok((abstract_number(a)?, abstract_number(b)?))
}

/// Returns what is left of two operands in the branch that the text names after them.
fn left<D: Domain>(
    alloc: Global,
    condition: Condition,
    width: Width,
    text: &str,
    expected: &str,
) -> Result<String> {
    let (test, operands) = if let Some(operands) = text.strip_suffix(" not taken") {
        (Test::Fails(condition), operands)
    } else {
        let operands = text.strip_suffix(" taken").context("no branch")?;
        (Test::Holds(condition), operands)
    };
    let (a, b) = pair_of::<D>(operands)?;
    let Some(refined) = D::refine(test, width, a, b) else {
        return Ok("never".to_string(alloc)?);
    };
    let (first, second) = expected.split_once(' ').unwrap_or((expected, ""));
    let a = text_of(alloc, refined.a, first)?;
    let b = text_of(alloc, refined.b, second)?;
    Ok(format!(in alloc; "{a} {b}")?)
}

/// Returns the result of an operator on the operands of a text.
fn result_of<D: Domain>(
    alloc: Global,
    mnemonic: &str,
    operands: &str,
    expected: &str,
) -> Result<String> {
    match operator_of(alloc, mnemonic)? {
        RowOperator::Alu(op, width) => {
            let (a, b) = pair_of::<D>(operands)?;
            Ok(text_of(alloc, D::alu(op, width, a, b), expected)?)
        }
        RowOperator::Unary(op) => {
            let a = abstract_number::<D>(operands)?;
            Ok(text_of(alloc, D::unary(op, a), expected)?)
        }
        RowOperator::Compare(condition, width) => {
            left::<D>(alloc, condition, width, operands, expected)
        }
    }
}

/// Returns what is asked of the abstract numbers of a domain: the ends of a number, whether one covers another, or the
/// result of an operator.
///
/// # Errors
/// Where a number or a mnemonic is none, or memory runs out.
pub fn answered<D: Domain>(alloc: Global, row: &ProgramRow<'_>) -> Result<String> {
    let (word, rest) = row.given.split_once(' ').unwrap_or((row.given, ""));
    match word {
        "top" => Ok(text_of(alloc, D::top(), row.expected)?),
        "exact" => Ok(text_of(alloc, D::exact(number_of(rest)?), row.expected)?),
        "range" => {
            let number = abstract_number::<D>(rest)?;
            Ok(text_of(alloc, number, row.expected)?)
        }
        "covers" => {
            let (a, b) = pair_of::<D>(rest)?;
            let answer = if a.covers(b) { "yes" } else { "no" };
            Ok(answer.to_string(alloc)?)
        }
        _ => result_of::<D>(alloc, word, rest, row.expected),
    }
}
