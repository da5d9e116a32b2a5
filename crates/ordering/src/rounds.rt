//! The way round a loop, for whoever looks for it in a source.

ghost use Rattle.std.specs.Prelude.{◌≤◌};
ghost use Rattle.insn.specs.Encoding.{slot_count};
ghost use Rattle.insn.specs.declared.decoding.TheConstants.{MAX_SLOTS};
ghost use Rattle.ordering.specs.BranchTargets.{IsVisit};

use crate::branches::branch_target;
use insn::{Insn, MAX_SLOTS};
use semantics::{Branch, Fetched, Program, Visit};
use std::alloc::{AllocError, Global};

/// The slots that were seen, in their order, and of each the one before it on a way from the first.
#[derive(Drop)]
struct Ways {
    seen: Vec<usize>,
    before: Vec<Option<usize>>,
}

impl Ways {
    /// Returns the ways from a slot, of which no branch was followed yet.
    fn new(alloc: Global, slot: usize) -> Result<Ways, AllocError> {
        let mut seen = Vec::new(alloc);
        seen.push(slot)?;
        let mut before = Vec::new(alloc);
        before.resize(MAX_SLOTS, None)?;
        Ok(Ways { seen, before })
    }

    /// Follows a branch of the instruction at a slot, unless what it leads to was seen.
    fn follow(&mut self, program: &Program, at: Visit, branch: Branch) -> Result<(), AllocError>
        requires here { IsVisit program.now at }
        requires few { slot_count program.now ≤ MAX_SLOTS }
    {
        if let Ok(Some(to)) = branch_target(program, at, branch)
            && let Some(before) = self.before.get_mut(to.slot)
            && before.is_none()
        {
            *before = Some(at.slot);
            self.seen.push(to.slot)?;
        }
        Ok(())
    }

    /// Follows the branches of the instruction at a slot.
    fn follow_all(&mut self, program: &Program, slot: usize) -> Result<(), AllocError>
        requires few { slot_count program.now ≤ MAX_SLOTS }
    {
        match program.fetch(slot) {
            Fetched::Begins(insn) => {
                let at = Visit { slot, insn };
                self.follow(program, at, Branch::Taken)?;
                self.follow(program, at, Branch::NotTaken)
            }
            _ => Ok(()),
        }
    }

    /// Returns the way to a slot that was seen, from it on; none where no way leads back to it.
    fn back_to(&self, alloc: Global, slot: usize) -> Result<Vec<usize>, AllocError> {
        let mut way = Vec::new(alloc);
        let mut at = slot;
        for _ in 0..MAX_SLOTS {
            let Some(Some(before)) = self.before.get(at) else {
                return Ok(Vec::new(alloc));
            };
            way.push(*before)?;
            if *before == slot {
                way.reverse();
                return Ok(way);
            }
            at = *before;
        }
        Ok(Vec::new(alloc))
    }
}

/// Returns the slots of the shortest way from a slot back to it, from this slot on; none where there is no such way.
///
/// # Errors
/// Where memory runs out.
pub fn way_round(alloc: Global, code: &[Insn], slot: usize) -> Result<Vec<usize>, AllocError>
    requires few { slot_count code.now ≤ MAX_SLOTS }
{
    let program = Program::new(alloc, code)?;
    let mut ways = Ways::new(alloc, slot)?;
    for i in 0..MAX_SLOTS {
        match ways.seen.get(i).copied() {
            Some(at) => ways.follow_all(&program, at)?,
            None => return ways.back_to(alloc, slot),
        }
    }
    ways.back_to(alloc, slot)
}
