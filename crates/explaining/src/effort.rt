//! What the verification of a program took.

ghost use Rattle.std.specs.Prelude.{◌≤◌};
ghost use Rattle.insn.specs.Encoding.{slot_count};
ghost use Rattle.insn.specs.declared.decoding.TheConstants.{MAX_SLOTS};

use insn::MAX_SLOTS;
use loader::BUDGET;
use semantics::{Fetched, Program};
use std::alloc::{AllocError, Global};
use std::fmt;
use verifier::distance;

/// What the verification of a program took. Displays as what stands after its cost.
#[derive(Clone, Copy, Debug, PartialEq, Eq)]
pub struct Effort {
    /// The number of steps that were made.
    pub steps: u64,
    /// The number of states that were kept: those from which a step was made at a slot that a jump leads to.
    pub kept: u64,
}

impl fmt::Display for Effort {
    fn fmt<W: fmt::Write>(&self, f: &mut fmt::Formatter<W>) -> fmt::Result {
        let steps = self.steps;
        let kept = self.kept;
        write!(
            f,
            "{steps} of {BUDGET} steps of verification, {kept} states kept"
        )
    }
}

/// Returns of each slot whether a jump leads to it.
fn are_targets(alloc: Global, program: &Program) -> Result<Vec<bool>, AllocError>
    requires few { slot_count program.now ≤ MAX_SLOTS }
{
    let mut targets = vec![in alloc; false; MAX_SLOTS]?;
    for slot in 0..MAX_SLOTS {
        if let Fetched::Begins(insn) = program.fetch(slot)
            && let Some(offset) = distance(insn)
            && let Ok(to) = program.target(slot, offset)
            && let Some(is_target) = targets.get_mut(to)
        {
            *is_target = true;
        }
    }
    Ok(targets)
}

/// Returns what the verification of a program took, of how many steps were made at each slot.
///
/// # Errors
/// Where memory runs out.
pub(crate) fn effort_of(
    alloc: Global,
    program: &Program,
    made: &[u32],
) -> Result<Effort, AllocError>
    requires few { slot_count program.now ≤ MAX_SLOTS }
{
    let targets = are_targets(alloc, program)?;
    let mut effort = Effort { steps: 0, kept: 0 };
    for (count, is_target) in made.iter().zip(&targets) {
        let count = u64::from(*count);
        effort.steps = effort.steps.saturating_add(count);
        if *is_target {
            effort.kept = effort.kept.saturating_add(count);
        }
    }
    Ok(effort)
}
