//! Where the branches of an instruction lead, forward or backward.

ghost use Rattle.std.specs.Prelude.{◌≡◌, ◌≤◌, ◌<◌};
ghost use Rattle.insn.specs.Encoding.{slot_count};
ghost use Rattle.insn.specs.declared.decoding.TheConstants.{MAX_SLOTS};
ghost use Rattle.semantics.specs.Flow.{flow_of, flow_distance};
ghost use Rattle.semantics.specs.declared.fetching.Branch.TheVariants.{NotTaken, Taken};
ghost use Rattle.ordering.specs.Orders.{any_target, next_target};
ghost use Rattle.ordering.specs.BranchTargets.{falls_through, IsVisit, IsLanding, IsBranchTarget};

use insn::Insn;
use semantics::{Branch, Fetched, Program, Reason, Visit, slot_by};
use verifier::distance;

/// Returns whether the next instruction may follow an instruction.
fn falls_through(insn: Insn) -> bool
    ensures { result ≡ falls_through (flow_of insn) }
{
    match insn {
        Insn::Jump { .. } | Insn::LongJump { .. } | Insn::Exit => false,
        _ => true,
    }
}

/// Returns the instruction that a jump at a slot leads to: its distance counts from the next slot.
///
/// # Errors
/// `JumpOutside` or `JumpIntoWide`.
fn target(program: &Program, slot: usize, offset: i32) -> Result<Visit, Reason>
    requires { slot < MAX_SLOTS }
    ensures { IsLanding program.now (any_target program.now slot offset) result }
{
    let slot = slot_by(slot, offset).ok_or(Reason::JumpOutside)?;
    match program.fetch(slot) {
        Fetched::Begins(insn) => Ok(Visit { slot, insn }),
        Fetched::Inside => Err(Reason::JumpIntoWide),
        Fetched::Past => Err(Reason::JumpOutside),
    }
}

/// Returns the instruction at a slot that a fall-through leads to.
///
/// # Errors
/// `FallsOffEnd` where none begins there.
fn next(program: &Program, slot: usize) -> Result<Visit, Reason>
    ensures { IsLanding program.now (next_target program.now slot) result }
{
    match program.fetch(slot) {
        Fetched::Begins(insn) => Ok(Visit { slot, insn }),
        _ => Err(Reason::FallsOffEnd),
    }
}

/// Returns the instruction that a taken jump leads to, `None` for an instruction that is no jump.
///
/// # Errors
/// Where it leads to no instruction.
fn taken_target(program: &Program, from: Visit) -> Result<Option<Visit>, Reason>
    requires here { IsVisit program.now from }
    requires few { slot_count program.now ≤ MAX_SLOTS }
    ensures { IsBranchTarget program.now from Taken result }
{
    match distance(from.insn) {
        None => Ok(None),
        Some(offset) => match target(program, from.slot, offset) {
            Ok(to) => Ok(Some(to)),
            Err(reason) => Err(reason),
        },
    }
}

/// Returns the instruction that follows another one, `None` where none may.
///
/// # Errors
/// Where the program ends there.
fn fall_through_target(program: &Program, from: Visit) -> Result<Option<Visit>, Reason>
    requires here { IsVisit program.now from }
    requires few { slot_count program.now ≤ MAX_SLOTS }
    ensures { IsBranchTarget program.now from NotTaken result }
{
    if !falls_through(from.insn) {
        return Ok(None);
    }
    match next(program, from.slot + from.insn.slots()) {
        Ok(to) => Ok(Some(to)),
        Err(reason) => Err(reason),
    }
}

/// Returns the instruction that a branch of an instruction leads to, `None` where it has no such branch.
///
/// # Errors
/// Where it leads to no instruction.
pub(crate) fn branch_target(
    program: &Program,
    from: Visit,
    branch: Branch,
) -> Result<Option<Visit>, Reason>
    requires here { IsVisit program.now from }
    requires few { slot_count program.now ≤ MAX_SLOTS }
    ensures { IsBranchTarget program.now from branch result }
{
    match branch {
        Branch::Taken => taken_target(program, from),
        Branch::NotTaken => fall_through_target(program, from),
    }
}
