//! The search: a walk that keeps the path to the current state.

ghost use Rattle.std.specs.Prelude.{◌≡◌, ℕ, ◌-◌, ◌≤◌, ◌++◌, List, [], ◌∷◌, length, take, replicate, All, IfOk, IfErr, OnOk};
ghost use Rattle.insn.specs.Encoding.{slot_count};
ghost use Rattle.insn.specs.declared.decoding.TheConstants.{MAX_SLOTS};
ghost use Rattle.insn.specs.declared.instruction.Insn.{Insn};
ghost use Rattle.interval.specs.Intervals.{LiesBetween, interval_ops};
ghost use Rattle.verifier.specs.Refusing.{IsVerdict, CountsSteps};
ghost use Rattle.verifier.specs.Walk.{first_pending};
ghost use Rattle.verifier.specs.Walks.{EndsWalk};
ghost use Rattle.explaining.specs.Paths.{IsStatePath, EndsStatePath, ShowsRefusal};
ghost use Rattle.explaining.specs.Trails.{IsTrail, IsHeaded};

use insn::{Insn, MAX_SLOTS};
use interval::Interval;
use std::alloc::{AllocError, Global};
use std::sync::ledger::Ledger;
use verifier::{Pending, Progress, Refusal, Steps, Verified, Walk};

/// What a search has found.
#[derive(Drop)]
pub struct Explanation {
    /// The verdict, which is that of `verify`.
    pub verdict: Result<Verified, Refusal>,
    /// The path to the state that was followed last: where a step is refused, it ends in the state of that step.
    pub path: Vec<Pending<Interval>>,
    /// The first state of each slot from which a step was made, in the order in which they were reached.
    pub firsts: Vec<Pending<Interval>>,
    /// The number of steps made at each slot.
    pub made: Vec<u32>,
}

/// What the search keeps between two units of work.
#[derive(Drop)]
pub struct Trail {
    /// The path to the state that was followed last.
    path: Vec<Pending<Interval>>,
    /// For each state that waits, how many states of the path lead to it.
    depths: Vec<usize>,
    firsts: Vec<Pending<Interval>>,
    made: Vec<u32>,
}

/// Counts a step at a slot, and returns whether it is the first one there.
fn is_first_step(made: &mut [u32], slot: usize) -> bool {
    match made.get_mut(slot) {
        Some(count) => {
            let is_first = *count == 0;
            *count = count.saturating_add(1);
            is_first
        }
        None => false,
    }
}

impl Trail {
    /// Begins a search: one state waits, to which no other one leads.
    fn new(alloc: Global) -> Result<Trail, AllocError>
        ensures trail { IfOk result (λ t. (code : List Insn) → IsTrail code (first_pending ∷ []) t) }
        ensures path { IfOk result (λ t. t.path.items ≡ []) }
    {
        Ok(Trail {
            path: Vec::new(alloc),
            depths: vec![in alloc; 0]?,
            firsts: Vec::new(alloc),
            made: vec![in alloc; 0; MAX_SLOTS]?,
        })
    }

    /// Cuts the path to the states that lead to the one to follow next, and adds that one.
    fn follow(&mut self, walk: &Walk<Interval>) -> Result<(), AllocError>
        requires { IsTrail walk.now.code walk.now.waits self.old }
        ensures { OnOk result (IsHeaded walk.now.code walk.now.waits self.new) }
    {
        let Some(here) = walk.next() else {
            return Ok(());
        };
        let Some(depth) = self.depths.pop() else {
            return Ok(());
        };
        self.path.truncate(depth);
        self.path.push(*here)?;
        Ok(())
    }

    /// Notes that `waiting` states wait: those that are new follow the last one of the path.
    fn wait(&mut self, waiting: usize) -> Result<(), AllocError>
        ensures depths { OnOk result (self.new.depths.items ≡ take waiting self.old.depths.items
            ++ replicate (waiting - length self.old.depths.items) (length self.old.path.items)) }
        ensures path { self.new.path ≡ self.old.path }
        ensures firsts { self.new.firsts ≡ self.old.firsts }
    {
        self.depths.resize(waiting, self.path.len())
    }

    /// Counts a step from the last state of the path, where one is made.
    fn count(&mut self, is_made: bool) -> Result<(), AllocError>
        ensures path { self.new.path ≡ self.old.path }
        ensures depths { self.new.depths ≡ self.old.depths }
        ensures firsts { (code : List Insn) → IsStatePath interval_ops code self.old.path.items
            → All (EndsStatePath interval_ops code) self.old.firsts.items
            → OnOk result (All (EndsStatePath interval_ops code) self.new.firsts.items) }
    {
        let Some(here) = self.path.last() else {
            return Ok(());
        };
        if !is_made {
            return Ok(());
        }
        if !is_first_step(&mut self.made, here.slot) {
            return Ok(());
        }
        self.firsts.push(*here)?;
        Ok(())
    }

    /// Returns what was found, with the verdict.
    fn ended(self, verdict: Result<Verified, Refusal>) -> Explanation
        ensures verdict { result.verdict ≡ verdict }
        ensures path { result.path ≡ self.path }
        ensures firsts { result.firsts ≡ self.firsts }
    {
        let Trail {
            path,
            firsts,
            made,
            ..
        } = self;
        Explanation {
            verdict,
            path,
            firsts,
            made,
        }
    }
}

/// Verifies a program with intervals, as [`verify`](verifier::verify) does, and keeps the path to the current state.
///
/// # Errors
/// Where memory runs out for the path. Where it runs out for the walk, the verdict is V19.
pub fn search<L: Ledger>(
    alloc: Global,
    code: &[Insn],
    budget: usize,
    steps: &mut Steps<L>,
) -> Result<Explanation, AllocError>
    requires { slot_count code.now ≤ MAX_SLOTS }
    ensures code { IfOk result (λ x. IfOk x.verdict (λ v. v ≡ code.now)) }
    ensures verdict { IfOk result (λ x. IsVerdict code.now budget x.verdict) }
    ensures counts { IfOk result (λ x. CountsSteps budget steps.old steps.new x.verdict) }
    ensures walked { IfOk result (λ x. EndsWalk interval_ops LiesBetween code.now steps.old steps.new x.verdict) }
    ensures path { IfOk result (λ x. IsStatePath interval_ops code.now x.path.items) }
    ensures refused { IfOk result (λ x. IfErr x.verdict (ShowsRefusal code.now x.path.items)) }
    ensures reached { IfOk result (λ x. All (EndsStatePath interval_ops code.now) x.firsts.items) }
{
    let mut trail = Trail::new(alloc)?;
    let mut walk = match Walk::<Interval>::new(alloc, code, budget) {
        Ok(walk) => walk,
        Err(refusal) => return Ok(trail.ended(Err(refusal))),
    };
    'units: loop {
        trail.follow(&walk)?;
        let made = walk.made();
        match walk.step(steps) {
            Progress::Going(next) => {
                trail.wait(next.waiting())?;
                trail.count(made < next.made())?;
                walk = next;
            }
            Progress::Ended(verdict, _) => return Ok(trail.ended(verdict)),
        }
    }
}
