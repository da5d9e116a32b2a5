//! Rows of how many abstract steps a verification makes: `steps`.

ghost use Rattle.std.specs.Prelude.{◌≤◌};
ghost use Rattle.insn.specs.Encoding.{slot_count};
ghost use Rattle.insn.specs.declared.decoding.TheConstants.{MAX_SLOTS};

use crate::known::KnownNumber;
use crate::line::ProgramRow;
use crate::program::file_of;
use crate::verdicts::{over_both, verdict_over};
use anyhow::Result;
use insn::{Insn, decode};
use interval::{Domain, Interval};
use std::alloc::{AllocError, Global};
use verifier::Refusal;

/// How often the interval of budgets is halved, so that it has one number.
const HALVES: usize = 12;

/// A budget that is enough for each program of a row.
const ENOUGH: usize = 1 << HALVES;

/// Returns the least budget that is enough for a program over a domain, if one is.
fn least_budget<D: Domain>(alloc: Global, code: &[Insn]) -> Option<usize>
    requires { slot_count code.now ≤ MAX_SLOTS }
{
    let (mut short, mut enough) = (0usize, ENOUGH);
    verdict_over::<D>(alloc, code, enough).ok()?;
    for _ in 0..HALVES {
        let middle = short.saturating_add(enough) / 2;
        if verdict_over::<D>(alloc, code, middle).is_ok() {
            enough = middle;
        } else {
            short = middle;
        }
    }
    Some(enough)
}

/// Returns how many abstract steps are made over a domain, and the slot of the last one, at which a budget of one less
/// is used up.
fn steps_over<D: Domain>(alloc: Global, code: &[Insn]) -> Result<String, AllocError>
    requires { slot_count code.now ≤ MAX_SLOTS }
{
    let Some(count) = least_budget::<D>(alloc, code) else {
        return "not accepted".to_string(alloc);
    };
    match verdict_over::<D>(alloc, code, count.saturating_sub(1)) {
        Err(Refusal::Budget { slot }) => {
            format!(in alloc; "{count} steps, the last at slot {slot}")
        }
        _ => format!(in alloc; "{count} steps, and no V17 with one less"),
    }
}

/// Returns the steps of a program over each domain.
///
/// # Errors
/// Where the program is refused by the assembler, or memory runs out.
pub fn counted_steps(alloc: Global, row: &ProgramRow<'_>) -> Result<String> {
    let file = file_of(alloc, row.given)?;
    let code = decode(alloc, &file)?;
    let known = steps_over::<KnownNumber>(alloc, &code)?;
    let intervals = steps_over::<Interval>(alloc, &code)?;
    Ok(over_both(alloc, &known, &intervals)?)
}
