//! Explains program files.

ghost use Rattle.std.specs.Prelude.{◌≡◌, ◌≤◌, ◌<◌, IfOk, IfErr};
ghost use Rattle.insn.specs.Encoding.{slot_count};
ghost use Rattle.insn.specs.declared.decoding.TheConstants.{MAX_SLOTS};
ghost use Rattle.insn.specs.declared.refusal.DecodeError.TheVariants.{Memory};
ghost use Rattle.loader.specs.declared.loaded.TheConstants.{BUDGET};
ghost use Rattle.verifier.specs.Layout.{IsLaidOut};
ghost use Rattle.verifier.specs.Refusing.{IsVerdict};
ghost use Rattle.interval.specs.Intervals.{interval_ops};
ghost use Rattle.explaining.specs.Explained.{IsExplained, IsExplainedCode};
ghost use Rattle.explaining.specs.LongestPaths.{IsCostOf};
ghost use Rattle.explaining.specs.declared.file.Explained.TheVariants.{Refused};
ghost use Rattle.explaining.specs.Lines.{ExplainsCode, ExplainsFile, HasWalked};
ghost use Rattle.explaining.specs.Paths.{IsStatePath, ShowsRefusal};

use crate::changes::state_note;
use crate::cost::{Cost, cost_of};
use crate::effort::{Effort, effort_of};
use crate::error::ExplainError;
use crate::printing::{
    is_reached, print_busiest, print_fault, print_firsts, print_line, print_refusal, print_steps,
};
use crate::searching::{Explanation, search};
use insn::{DecodeError, Insn, decode};
use interval::Interval;
use loader::BUDGET;
use semantics::{Fetched, Program};
use std::alloc::{AllocError, Global};
use std::io::Write;
use std::marker::Brand;
use std::sync::ledger::{Blank, Ledger};
use verifier::{Pending, Progress, Refusal, Steps, Walk};

/// What an explanation has found of a file.
#[derive(Clone, Copy, Debug, PartialEq, Eq)]
pub enum Explained {
    /// The loader accepts it. A run of its program costs so much at most, and its verification took so much.
    Accepted(Cost, Effort),
    /// The loader refuses it.
    Refused,
}

/// Searches a program with the budget, and counts its steps.
fn searched_by<L: Ledger>(
    alloc: Global,
    code: &[Insn],
    blank: Blank,
) -> Result<Explanation, AllocError>
    requires name { blank.name ≡ L.name }
    requires parts { blank.parts ≡ L.parts }
    requires some { 0 < L.parts }
    requires few { slot_count code.now ≤ MAX_SLOTS }
    ensures verdict { IfOk result (λ x. IsVerdict code.now BUDGET x.verdict) }
    ensures path { IfOk result (λ x. IsStatePath interval_ops code.now x.path.items) }
    ensures refused { IfOk result (λ x. IfErr x.verdict (ShowsRefusal code.now x.path.items)) }
    ensures walked { IfOk result (λ x. HasWalked code.now x.verdict) }
{
    let mut steps = Steps::<L>::new(blank);
    search(alloc, code, BUDGET, &mut steps)
}

/// Searches a program with the budget; nothing counts its steps.
pub(crate) fn searched(alloc: Global, code: &[Insn]) -> Result<Explanation, AllocError>
    requires few { slot_count code.now ≤ MAX_SLOTS }
    ensures verdict { IfOk result (λ x. IsVerdict code.now BUDGET x.verdict) }
    ensures path { IfOk result (λ x. IsStatePath interval_ops code.now x.path.items) }
    ensures refused { IfOk result (λ x. IfErr x.verdict (ShowsRefusal code.now x.path.items)) }
    ensures walked { IfOk result (λ x. HasWalked code.now x.verdict) }
{
    searched_by::<Brand>(alloc, code, Blank::new(1))
}

/// Prints an instruction with a state at its slot, if a step was made from it.
fn print_state<W: Write>(
    alloc: Global,
    insn: Insn,
    here: Option<Pending<Interval>>,
    is_made: bool,
    out: &mut W,
) -> Result<(), ExplainError> {
    match here {
        Some(here) if is_made => {
            let note = state_note(alloc, &here.state)?;
            print_line(alloc, out, here.slot, insn, note.as_str())
        }
        _ => Ok(()),
    }
}

/// Returns the state to follow next, if it is at a slot.
fn next_at(walk: &Walk<Interval>, slot: usize) -> Option<Pending<Interval>> {
    match walk.next() {
        Some(next) if next.slot == slot => Some(*next),
        _ => None,
    }
}

/// Follows the paths of a program once more, and prints each state from which a step is made at a slot.
fn print_states_by<W: Write, L: Ledger>(
    alloc: Global,
    program: &Program,
    at: (usize, Insn),
    blank: Blank,
    out: &mut W,
) -> Result<(), ExplainError>
    requires name { blank.name ≡ L.name }
    requires parts { blank.parts ≡ L.parts }
    requires some { 0 < L.parts }
    requires few { slot_count program.now ≤ MAX_SLOTS }
{
    let (slot, insn) = at;
    let mut steps = Steps::<L>::new(blank);
    let Ok(mut walk) = Walk::<Interval>::new(alloc, program.code(), BUDGET) else {
        return Err(ExplainError::Memory);
    };
    'units: loop {
        let here = next_at(&walk, slot);
        let made = walk.made();
        match walk.step(&mut steps) {
            Progress::Going(next) => {
                print_state(alloc, insn, here, made < next.made(), out)?;
                walk = next;
            }
            Progress::Ended(Ok(_), _) => return Ok(()),
            Progress::Ended(Err(_), _) => return Err(ExplainError::Memory),
        }
    }
}

/// Prints each state from which a step is made at a slot.
fn print_states<W: Write>(
    alloc: Global,
    program: &Program,
    firsts: &[Pending<Interval>],
    slot: usize,
    out: &mut W,
) -> Result<(), ExplainError>
    requires few { slot_count program.now ≤ MAX_SLOTS }
{
    match program.fetch(slot) {
        Fetched::Begins(insn) if !is_reached(firsts, slot) => {
            print_line(alloc, out, slot, insn, "never reached")
        }
        Fetched::Begins(insn) => {
            print_states_by::<W, Brand>(alloc, program, (slot, insn), Blank::new(1), out)
        }
        _ => writeln!(out, "{slot} ; no instruction begins here").map_err(|_| ExplainError::Output),
    }
}

/// Prints what is known at the slots of an accepted program, or the states at one of them, and returns what a run of it
/// costs.
fn print_accepted<W: Write>(
    alloc: Global,
    program: &Program,
    firsts: &[Pending<Interval>],
    slot: Option<usize>,
    out: &mut W,
) -> Result<Cost, ExplainError>
    requires few { slot_count program.now ≤ MAX_SLOTS }
    requires laid_out { IsLaidOut program.now }
    ensures { IfOk result (IsCostOf program.now) }
{
    match slot {
        None => print_firsts(alloc, program, firsts, out)?,
        Some(slot) => print_states(alloc, program, firsts, slot, out)?,
    }
    Ok(cost_of(alloc, program)?)
}

/// Explains a program.
fn explain<W: Write>(
    alloc: Global,
    code: &[Insn],
    slot: Option<usize>,
    out: &mut W,
) -> Result<Explained, ExplainError>
    requires few { slot_count code.now ≤ MAX_SLOTS }
    ensures found { IfOk result (IsExplainedCode code.now) }
    ensures lines { IfOk result (ExplainsCode code.now (W.contents out.old) (W.contents out.new)) }
{
    let Explanation {
        verdict,
        path,
        firsts,
        mut made,
    } = searched(alloc, code)?;
    let program = Program::new(alloc, code)?;
    let refusal = match verdict {
        Ok(_) => {
            let effort = effort_of(alloc, &program, &made)?;
            let cost = print_accepted(alloc, &program, &firsts, slot, out)?;
            return Ok(Explained::Accepted(cost, effort));
        }
        Err(Refusal::Memory { .. }) => return Err(ExplainError::Memory),
        Err(refusal) => refusal,
    };
    print_steps(alloc, &program, &path, out)?;
    print_refusal(alloc, &program, &path, refusal, out)?;
    if let Refusal::Budget { .. } = refusal {
        print_busiest(&mut made, out)?;
    }
    Ok(Explained::Refused)
}

/// Explains why a file encodes no program.
fn explain_fault<W: Write>(
    file: &[u8],
    refusal: DecodeError,
    out: &mut W,
) -> Result<Explained, ExplainError>
    ensures { IfOk result (λ found. (found ≡ Refused) × (refusal ≡ Memory → ⊥)) }
{
    match refusal {
        DecodeError::Memory => Err(ExplainError::Memory),
        refusal => {
            print_fault(file, refusal, out)?;
            Ok(Explained::Refused)
        }
    }
}

/// Explains the file.
fn print_explanation<W: Write>(
    alloc: Global,
    file: &[u8],
    slot: Option<usize>,
    out: &mut W,
) -> Result<Explained, ExplainError>
    ensures found { IfOk result (IsExplained file.now) }
    ensures lines { IfOk result (ExplainsFile file.now (W.contents out.old) (W.contents out.new)) }
{
    match decode(alloc, file) {
        Ok(code) => explain(alloc, &code, slot, out),
        Err(refusal) => explain_fault(file, refusal, out),
    }
}

/// Prints what the verifier knew of the program in a file, and returns whether the loader accepts it.
///
/// - Of an accepted program, each instruction with the state of the first path that reached it; with a slot, each state
///   from which a step was made there.
/// - Of a refused one, each step of the path to the refusal with what it has changed, and then why the last one is
///   refused.
///
/// # Errors
/// Where the output can't be written, or memory runs out.
pub fn explain_file<W: Write>(
    alloc: Global,
    file: &[u8],
    slot: Option<usize>,
    out: &mut W,
) -> Result<Explained, ExplainError>
    ensures found { IfOk result (IsExplained file.now) }
    ensures lines { IfOk result (ExplainsFile file.now (W.contents out.old) (W.contents out.new)) }
{
    let found = print_explanation(alloc, file, slot, out)?;
    out.flush().map_err(|_| ExplainError::Output)?;
    Ok(found)
}
