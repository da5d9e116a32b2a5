//! Rows of verdicts: `verify`, `fault` and `domains`.

ghost use Rattle.std.specs.Prelude.{◌≡◌, ◌<◌, ◌≤◌};
ghost use Rattle.insn.specs.Encoding.{slot_count};
ghost use Rattle.insn.specs.declared.decoding.TheConstants.{MAX_SLOTS};

use crate::known::KnownNumber;
use crate::line::ProgramRow;
use crate::program::file_of;
use crate::reports::Printed;
use anyhow::Result;
use insn::{Insn, decode};
use interval::{Domain, Interval};
use loader::load;
use report::Ask;
use std::alloc::{AllocError, Global};
use std::marker::Brand;
use std::sync::ledger::{Blank, Ledger};
use verifier::{Refusal, Steps, verify_with};

/// The number of instructions of a program that is accepted, or its refusal.
pub type Verdict = Result<usize, Refusal>;

/// The budget of a verdict over two domains, in abstract steps.
const BUDGET: usize = 100;

/// Returns what comes of loading a file.
fn loaded_line(alloc: Global, file: &[u8]) -> Result<String, AllocError> {
    match load(alloc, file) {
        Ok(loaded) => {
            let count = loaded.program().code().len();
            format!(in alloc; "accepted {count} instructions")
        }
        Err(refusal) => format!(in alloc; "refused {refusal}"),
    }
}

/// Returns what comes of loading a program, which is also the line of `verify` on it, with the status 0 where it is
/// accepted and 1 where it is refused.
///
/// # Errors
/// Where memory runs out.
pub fn verified(alloc: Global, file: &[u8]) -> Result<String> {
    let printed = Printed::of(alloc, Ask::Verify, file)?.line(alloc)?;
    let loaded = loaded_line(alloc, file)?;
    let status = u8::from(!loaded.starts_with("accepted"));
    if printed != format!(in alloc; "status {status} / {loaded}")? {
        return Ok(format!(in alloc; "{printed}, but to be loaded: {loaded}")?);
    }
    Ok(loaded)
}

/// Returns the fault for which a program is refused, and for which its trace over the empty datagram is stuck.
///
/// # Errors
/// Where the program is refused by the assembler, or memory runs out.
pub fn fault(alloc: Global, row: &ProgramRow<'_>) -> Result<String> {
    let file = file_of(alloc, row.given)?;
    let refused = Printed::of(alloc, Ask::Verify, &file)?.line(alloc)?;
    let traced = Printed::of(alloc, Ask::Trace { hex: None }, &file)?.line(alloc)?;
    let fault = refused
        .strip_prefix("status 1 / refused ")
        .unwrap_or(&refused);
    let (steps, stuck) = traced.rsplit_once(" / stuck ").unwrap_or(("", &traced));
    if fault == stuck && steps.starts_with("status 1 / ") {
        Ok(fault.to_string(alloc)?)
    } else {
        Ok(format!(in alloc; "{refused}, but traced: {traced}")?)
    }
}

/// Verifies a program over a domain, and counts its steps.
fn counted<D: Domain, L: Ledger>(
    alloc: Global,
    code: &[Insn],
    budget: usize,
    blank: Blank,
) -> Verdict
    requires name { blank.name ≡ L.name }
    requires parts { blank.parts ≡ L.parts }
    requires some { 0 < L.parts }
    requires few { slot_count code.now ≤ MAX_SLOTS }
{
    let mut steps = Steps::<L>::new(blank);
    let verified = verify_with::<D, L>(alloc, code, budget, &mut steps)?;
    Ok(verified.code().len())
}

/// Verifies a program over a domain with a budget of abstract steps.
pub fn verdict_over<D: Domain>(alloc: Global, code: &[Insn], budget: usize) -> Verdict
    requires { slot_count code.now ≤ MAX_SLOTS }
{
    counted::<D, Brand>(alloc, code, budget, Blank::new(1))
}

/// Returns the line of a verdict.
fn line_of(alloc: Global, verdict: Verdict) -> Result<String, AllocError> {
    match verdict {
        Ok(_) => "accepted".to_string(alloc),
        Err(refusal) => format!(in alloc; "refused {refusal}"),
    }
}

/// Returns an answer over two domains, which is said once where it is the same.
///
/// # Errors
/// Where memory runs out.
pub fn over_both(alloc: Global, known: &str, intervals: &str) -> Result<String, AllocError> {
    if known == intervals {
        intervals.to_string(alloc)
    } else {
        format!(in alloc; "known: {known}; intervals: {intervals}")
    }
}

/// Returns the verdict on a program over each domain.
///
/// # Errors
/// Where the program is refused by the assembler, or memory runs out.
pub fn over_domains(alloc: Global, row: &ProgramRow<'_>) -> Result<String> {
    let file = file_of(alloc, row.given)?;
    let code = decode(alloc, &file)?;
    let known = line_of(alloc, verdict_over::<KnownNumber>(alloc, &code, BUDGET))?;
    let intervals = line_of(alloc, verdict_over::<Interval>(alloc, &code, BUDGET))?;
    Ok(over_both(alloc, &known, &intervals)?)
}

/// Returns the verdict on a program with a budget, over intervals.
///
/// # Errors
/// Where the budget is no number, the program is refused by the assembler, or memory runs out.
pub fn with_budget(alloc: Global, row: &ProgramRow<'_>) -> Result<String> {
    let (budget, program) = row.parts();
    let file = file_of(alloc, program)?;
    let code = decode(alloc, &file)?;
    let budget = budget.parse::<usize>()?;
    match verdict_over::<Interval>(alloc, &code, budget) {
        Ok(count) => Ok(format!(in alloc; "accepted {count} instructions")?),
        Err(refusal) => Ok(format!(in alloc; "refused {refusal}")?),
    }
}
