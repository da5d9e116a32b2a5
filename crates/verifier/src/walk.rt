//! The walk: every path is followed from the first slot, the branch that is not taken first.

ghost use Rattle.std.specs.Prelude.{◌≡◌, ◌≤◌, ◌<◌, None, Ok, IfOk, IfErr, OnOk, IsOk};
ghost use Rattle.std.specs.Option.{option_map};
ghost use Rattle.insn.specs.Encoding.{slot_count};
ghost use Rattle.insn.specs.declared.decoding.TheConstants.{MAX_SLOTS};
ghost use Rattle.semantics.specs.Runs.{IsSafe};
ghost use Rattle.semantics.specs.Flow.{branch_slot};
ghost use Rattle.absstate.specs.Changes.{state_after_change};
ghost use Rattle.verifier.specs.Layout.{IsLaidOut};
ghost use Rattle.verifier.specs.Refusing.{IsVerdict, IsVerdictOver, CountsSteps};
ghost use Rattle.verifier.specs.Keeping.{Keeps};
ghost use Rattle.verifier.specs.Walk.{IsStepRefusal, BeginsInside, IsNext, IsOutOfMemory, Leaves, Advances, state_to_follow};
ghost use Rattle.verifier.specs.Walks.{EndsWalk};
ghost use Rattle.interval.specs.Intervals.{LiesBetween, interval_ops};
ghost use Rattle.semantics.specs.declared.fetching.Branch.TheVariants.{NotTaken, Taken};

use crate::kept::KeptStates;
use crate::refusal::Refusal;
use crate::slices::verify_in_slices;
use absstate::{AbsState, Change, Transition};
use basics::steps::Steps;
use insn::Insn;
use interval::{Domain, Interval};
use operations::Translation;
use semantics::{Branch, Fetched, Program};
use std::alloc::{AllocError, Global};
use std::marker::Model;
use std::sync::ledger::Ledger;

/// An abstract state at a slot, from which paths are still to be followed.
#[derive(Debug, PartialEq, Eq)]
pub struct Pending<D> {
    pub slot: usize,
    pub state: AbsState<D>,
}

impl<D: Copy> Clone for Pending<D> {
    ghost is_clone = { λ s r. r ≡ s };

    ghost is_infallible = { λ _. Unit {0} };

    fn clone(&self) -> Result<Self, AllocError> {
        Ok(*self)
    }
}

impl<D: Copy> Copy for Pending<D> {}

/// Whether the current path continues from the current state, or has ended.
#[derive(Clone, Copy)]
pub enum Path {
    Continues,
    Ended,
}

/// A program that was accepted: every run of it exits. Only a walk that has ended makes one.
#[derive(Drop)]
pub struct Verified {
    pub(crate) translation: Translation,
}

impl Model for Verified {
    ghost use Rattle.std.specs.Prelude.{List};
    ghost use Rattle.insn.specs.declared.instruction.Insn.{Insn};
    ghost use Rattle.verifier.specs.PendingStates.{IsVerified};

    ghost Value = { List Insn };

    ghost view = { λ v. v.translation };

    ghost invariant = { λ v. IsVerified v.translation };
}

impl Verified {
    ghost use Rattle.std.specs.Prelude.{◌≡◌, ◌≤◌};
    ghost use Rattle.insn.specs.Encoding.{slot_count};
    ghost use Rattle.insn.specs.declared.decoding.TheConstants.{MAX_SLOTS};
    ghost use Rattle.semantics.specs.Runs.{IsSafe};

    /// Returns the program's instructions. From every start, a run of them exits within as many steps as there are
    /// instructions.
    pub fn code(&self) -> &[Insn]
        ensures code { result.now ≡ self.now }
        ensures safe { IsSafe self.now }
        ensures few { slot_count self.now ≤ MAX_SLOTS }
    {
        self.translation.program().code()
    }

    /// Returns the same instructions, with the operation of each of their slots.
    pub fn translation(&self) -> &Translation
        ensures code { result.now ≡ self.now }
        ensures safe { IsSafe self.now }
        ensures few { slot_count self.now ≤ MAX_SLOTS }
    {
        &self.translation
    }
}

/// Returns the slot that a branch of an instruction leads to, in a program without a faulty jump.
fn slot_after(program: &Program, slot: usize, insn: Insn, branch: Branch) -> usize
    requires few { slot_count program.now ≤ MAX_SLOTS }
    requires inside { slot < slot_count program.now }
    requires good { IsOk (branch_slot program.now slot insn branch) }
    ensures { branch_slot program.now slot insn branch ≡ Ok result }
{
    match (insn, branch) {
        (Insn::Jump { offset }, _) => program.target(slot, i32::from(offset)).unwrap(),
        (Insn::LongJump { offset }, _) => program.target(slot, offset).unwrap(),
        (Insn::JumpIf { offset, .. }, Branch::Taken) => {
            program.target(slot, i32::from(offset)).unwrap()
        }
        _ => slot + insn.slots(),
    }
}

/// Follows the branch not taken: changes the state to that of the branch, at the slot that it leads to. The path
/// ends where the branch isn't feasible.
fn follow<D: Copy>(
    program: &Program,
    insn: Insn,
    change: Option<Change<D>>,
    here: &mut Pending<D>,
) -> Path
    requires few { slot_count program.now ≤ MAX_SLOTS }
    requires inside { here.old.slot < slot_count program.now }
    requires good { IsOk (branch_slot program.now here.old.slot insn NotTaken) }
    ensures { IsNext program.now here.old.slot insn NotTaken (option_map (state_after_change here.old.state) change)
        (state_to_follow result here.new) }
{
    let Some(change) = change else {
        return Path::Ended;
    };
    here.state.change(change);
    here.slot = slot_after(program, here.slot, insn, Branch::NotTaken);
    Path::Continues
}

/// Pushes the state of a taken branch, if the branch is feasible.
fn push_branch<D: Copy>(
    program: &Program,
    insn: Insn,
    change: Option<Change<D>>,
    here: &Pending<D>,
    pending: &mut Vec<Pending<D>>,
) -> Result<(), Refusal>
    requires few { slot_count program.now ≤ MAX_SLOTS }
    requires inside { here.now.slot < slot_count program.now }
    requires good { IsOk (branch_slot program.now here.now.slot insn Taken) }
    ensures left { OnOk result (Leaves program.now here.now.slot insn
        (option_map (state_after_change here.now.state) change) pending.old.items pending.new.items) }
    ensures memory { IfErr result (IsOutOfMemory here.now.slot) }
{
    if let Some(change) = change {
        let mut taken = *here;
        taken.state.change(change);
        taken.slot = slot_after(program, here.slot, insn, Branch::Taken);
        if pending.push(taken).is_err() {
            return Err(Refusal::Memory { slot: here.slot });
        }
    }
    Ok(())
}

/// Makes one step of the current path, and continues at its next state: that of the branch not taken. The taken branch
/// of a conditional jump is left pending.
fn advance<D: Domain>(
    program: &Program,
    here: &mut Pending<D>,
    pending: &mut Vec<Pending<D>>,
) -> Result<Path, Refusal>
    requires few { slot_count program.now ≤ MAX_SLOTS }
    requires laid_out { IsLaidOut program.now }
    requires inside { BeginsInside program.now here.old }
    ensures advanced { IfOk result (λ path. Advances D.ops program.now here.old pending.old.items
        (state_to_follow path here.new) pending.new.items) }
    ensures refused { IfErr result (IsStepRefusal D.ops program.now here.old) }
{
    let slot = here.slot;
    let Fetched::Begins(insn) = program.fetch(slot) else {
        unreachable!()
    };
    let transition = here
        .state
        .transition(&insn)
        .map_err(|reason| Refusal::Stuck { reason, slot })?;
    match transition {
        Transition::Exit => Ok(Path::Ended),
        Transition::On(change) => Ok(follow(program, insn, Some(change), here)),
        Transition::Fork { not_taken, taken } => {
            push_branch(program, insn, taken, here, pending)?;
            Ok(follow(program, insn, not_taken, here))
        }
    }
}

/// Makes one step of the walk: keeps the current state, if some jump leads to its slot, and makes its step.
///
/// # Errors
/// The refusal of the step; V19 where memory runs out for a state that is kept or left pending.
pub(crate) fn step<D: Domain>(
    program: &Program,
    kept: &mut KeptStates<D>,
    here: &mut Pending<D>,
    pending: &mut Vec<Pending<D>>,
) -> Result<Path, Refusal>
    requires few { slot_count program.now ≤ MAX_SLOTS }
    requires laid_out { IsLaidOut program.now }
    requires inside { BeginsInside program.now here.old }
    ensures kept { OnOk result (Keeps here.old kept.old kept.new) }
    ensures made { IfOk result (λ path. Advances D.ops program.now here.old pending.old.items
        (state_to_follow path here.new) pending.new.items) }
    ensures refused { IfErr result (IsStepRefusal D.ops program.now here.old) }
{
    let Ok(()) = kept.keep(here) else {
        return Err(Refusal::Memory { slot: here.slot });
    };
    advance(program, here, pending)
}

/// Verifies a program, with what a numeric domain knows of its numbers: accepts it if no step of it, on any path, can
/// be stuck. `steps` counts one for each abstract step, of which at most `budget` are made. A state that one kept at
/// its slot covers takes no step: states are kept at the slots that jumps lead to.
/// See docs/DESIGN.md, "Refusals need a precise domain".
/// See docs/DESIGN.md, "Members are states that runs have".
///
/// # Errors
/// As [`verify`]; over a domain that isn't precise, a step may be refused at which no loose run is stuck.
pub fn verify_with<D: Domain, L: Ledger>(
    alloc: Global,
    code: &[Insn],
    budget: usize,
    steps: &mut Steps<L>,
) -> Result<Verified, Refusal>
    requires { slot_count code.now ≤ MAX_SLOTS }
    ensures code { IfOk result (λ v. v ≡ code.now) }
    ensures verdict { IsVerdictOver D.ops D.Member code.now budget result }
    ensures counts { CountsSteps budget steps.old steps.new result }
    ensures walked { EndsWalk D.ops D.Member code.now steps.old steps.new result }
{
    verify_in_slices::<D, L>(alloc, code, budget, usize::MAX, steps)
}

/// Verifies a program with intervals: accepts it if no step of it, on any path, can be stuck. `steps` counts one for
/// each abstract step, of which at most `budget` are made. A state that one kept at its slot covers takes no step:
/// states are kept at the slots that jumps lead to.
///
/// # Errors
/// A fault of the layout: the first faulty jump (V1 to V3), or a last instruction that is no exit (V4). Else the
/// first refusal on the paths (V5 to V16, V18, V20), each a step at which a loose run is stuck; V17 at the instruction
/// whose step would pass the budget; V19 where memory runs out, at the current instruction, or at slot 0 before the
/// first step. In code that adds or subtracts two registers, V10 and V11 at a sum with a constant may come where no run
/// is stuck: see docs/DECISIONS.md, "Refusals are stuck runs".
pub fn verify<L: Ledger>(
    alloc: Global,
    code: &[Insn],
    budget: usize,
    steps: &mut Steps<L>,
) -> Result<Verified, Refusal>
    requires { slot_count code.now ≤ MAX_SLOTS }
    ensures code { IfOk result (λ v. v ≡ code.now) }
    ensures verdict { IsVerdict code.now budget result }
    ensures counts { CountsSteps budget steps.old steps.new result }
    ensures walked { EndsWalk interval_ops LiesBetween code.now steps.old steps.new result }
{
    verify_with::<Interval, L>(alloc, code, budget, steps)
}
