//! The walk in slices: it continues by so much work at a time, and ends in the same verdict. A state that a kept one of
//! its slot covers is skipped.

ghost use Rattle.std.specs.Prelude.{◌≡◌, ◌≤◌, ◌+◌, [], true, Err, IfOk, IfErr, IfSome, OnOk};
ghost use Rattle.insn.specs.Encoding.{slot_count};
ghost use Rattle.insn.specs.declared.decoding.TheConstants.{MAX_SLOTS};
ghost use Rattle.verifier.specs.Keeping.{kept_at, is_covered, HasCover};
ghost use Rattle.verifier.specs.Layout.{IsLaidOut};
ghost use Rattle.verifier.specs.Refusing.{IsVerdictOver, CountsSteps};
ghost use Rattle.verifier.specs.Searches.{HasPassed};
ghost use Rattle.verifier.specs.Walks.{Pauses, EndsWalk};
ghost use Rattle.verifier.specs.Slices.{waits_of, passed_at, HasPassedHere, HasSettled, HasDoneUnit, HasDoneSlice, IfContinues, Stops, StopsIn, StopsUnit};
ghost use Rattle.verifier.specs.Units.{DoesUnit, RefusesUnit, IsUnitBetween};
ghost use Rattle.verifier.specs.declared.walk.Path.TheVariants.{Continues, Ended};
ghost use Rattle.verifier.specs.declared.weights.TheConstants.{HEAVIEST};

use crate::kept::{KeptStates, Remains, SearchProgress};
use crate::layout::check_layout;
use crate::refusal::Refusal;
use crate::walk::{Path, Pending, Verified, step};
use crate::weights::UNIT;
use absstate::AbsState;
use basics::steps::Steps;
use insn::Insn;
use interval::Domain;
use operations::Translation;
use semantics::Program;
use std::alloc::Global;
use std::marker::Model;
use std::sync::ledger::Ledger;

/// The states of a walk between two units of work: those that wait, and those that are kept.
#[derive(Drop)]
pub struct Frontier<D: Domain> {
    /// Whether the current state waits: where the current path has ended, the last pending one is next.
    path: Path,
    here: Box<Pending<D>>,
    pending: Vec<Pending<D>>,
    kept: KeptStates<D>,
    /// How many of the states that are kept at the slot of the current state are known not to cover it: the first ones.
    passed: usize,
    /// What was done beyond the slices so far, by weight.
    ahead: usize,
    /// The number of steps made.
    made: usize,
}

/// Takes the state to follow next: that of the current path or, where it has ended, the last pending one.
/// Returns `Ended` where no state waits.
fn take_next<D: Domain>(at: &mut Frontier<D>) -> Path
    ensures waits { waits_of at.new ≡ waits_of at.old }
    ensures kept { at.new.kept ≡ at.old.kept }
    ensures made { at.new.made ≡ at.old.made }
    ensures passed { passed_at at.new ≡ passed_at at.old }
    ensures ahead { at.new.ahead ≡ at.old.ahead }
    ensures known { HasPassedHere D.ops at.old → HasPassedHere D.ops at.new }
    ensures path { at.new.path ≡ result }
    ensures none { result ≡ Ended → waits_of at.new ≡ [] }
{
    if let Path::Continues = at.path {
        return Path::Continues;
    }
    at.passed = 0;
    match at.pending.pop() {
        None => Path::Ended,
        Some(last) => {
            *at.here = last;
            at.path = Path::Continues;
            Path::Continues
        }
    }
}

/// Skips the current state, where a kept one of its slot covers it, or else makes its step.
///
/// # Errors
/// V17 where the step would pass the budget; else the refusal of the step.
fn settle<D: Domain, L: Ledger>(
    program: &Program,
    at: &mut Frontier<D>,
    budget: usize,
    steps: &mut Steps<L>,
    covered: bool,
) -> Result<(), Refusal>
    requires few { slot_count program.now ≤ MAX_SLOTS }
    requires laid_out { IsLaidOut program.now }
    requires within { at.old.made ≤ budget }
    requires pauses { Pauses D.ops D.Member program.now at.old.made (waits_of at.old) at.old.kept }
    requires waits { at.old.path ≡ Continues }
    requires covered { covered ≡ is_covered D.ops (kept_at at.old.kept) at.old.here.value }
    requires members { covered ≡ true → HasCover D.Member
        (kept_at at.old.kept at.old.here.value.slot) at.old.here.value.state }
    ensures settled { OnOk result (HasSettled D.ops D.Member program.now budget at.old at.new steps.old steps.new) }
    ensures ended { IfErr result
        (λ e. Stops {T = Unit {0}} D.ops D.Member program.now budget at.old.made 1 steps.old steps.new (Err e)) }
    ensures unit { OnOk result (DoesUnit D.ops program.now (waits_of at.old)
        (waits_of at.new) at.old.made at.new.made) }
    ensures refused { IfErr result (RefusesUnit D.ops program.now (waits_of at.old)) }
    ensures ahead { OnOk result (at.new.ahead ≡ at.old.ahead) }
{
    at.passed = 0;
    if covered {
        at.path = Path::Ended;
        return Ok(());
    }
    if at.made == budget {
        return Err(Refusal::Budget { slot: at.here.slot });
    }
    steps.tick();
    at.made += 1;
    at.path = step(program, &mut at.kept, &mut at.here, &mut at.pending)?;
    Ok(())
}

/// Does one unit of work: searches the states that are kept at the slot of the state to follow next for one that covers
/// it, and skips that state, or makes its step, where the search comes to its end. Returns what the unit weighs, `None`
/// where no state waits.
///
/// # Errors
/// V17 where the step would pass the budget; else the refusal of the step.
fn run_unit<D: Domain, L: Ledger>(
    program: &Program,
    at: &mut Frontier<D>,
    budget: usize,
    steps: &mut Steps<L>,
) -> Result<Option<usize>, Refusal>
    requires few { slot_count program.now ≤ MAX_SLOTS }
    requires laid_out { IsLaidOut program.now }
    requires within { at.old.made ≤ budget }
    requires pauses { Pauses D.ops D.Member program.now at.old.made (waits_of at.old) at.old.kept }
    requires passed { HasPassedHere D.ops at.old }
    ensures on { IfOk result (λ done. IfSome done
        (HasDoneUnit D.ops D.Member program.now budget at.old at.new steps.old steps.new)) }
    ensures ended { StopsUnit D.ops D.Member program.now budget at.old.made steps.old steps.new result }
{
    if let Path::Ended = take_next(at) {
        return Ok(None);
    }
    let (found, weight) = at.kept.search(&at.here, at.passed);
    match found {
        SearchProgress::Covered => settle(program, at, budget, steps, true)?,
        SearchProgress::Uncovered => settle(program, at, budget, steps, false)?,
        SearchProgress::Open { passed } => at.passed = passed,
    }
    Ok(Some(UNIT + weight))
}

/// Does work of the weight `slice`, with what was done beyond the slices before, or less where the walk ends. What a
/// unit does beyond it is part of the next slice.
///
/// # Errors
/// The first refusal that is met.
fn run_slice<D: Domain, L: Ledger>(
    program: &Program,
    at: &mut Frontier<D>,
    budget: usize,
    slice: usize,
    steps: &mut Steps<L>,
) -> Result<Path, Refusal>
    requires few { slot_count program.now ≤ MAX_SLOTS }
    requires laid_out { IsLaidOut program.now }
    requires within { at.old.made ≤ budget }
    requires pauses { Pauses D.ops D.Member program.now at.old.made (waits_of at.old) at.old.kept }
    requires passed { HasPassedHere D.ops at.old }
    requires light { at.old.ahead ≤ HEAVIEST }
    ensures on { IfOk result
        (IfContinues (HasDoneSlice D.ops D.Member program.now budget at.old at.new slice steps.old steps.new)) }
    ensures ended { StopsIn D.ops D.Member program.now budget at.old.made slice steps.old steps.new result }
{
    let mut left = slice.saturating_sub(at.ahead);
    at.ahead = at.ahead.saturating_sub(slice);
    while left > 0 {
        let Some(weight) = run_unit(program, at, budget, steps)? else {
            return Ok(Path::Ended);
        };
        at.ahead = weight.saturating_sub(left);
        left = left.saturating_sub(weight);
    }
    Ok(Path::Continues)
}

/// Searches all states that are kept at the slot of the current state, and returns whether one covers it.
fn is_covered<D: Domain>(at: &mut Frontier<D>) -> bool
    requires passed { HasPassed D.ops (kept_at at.old.kept at.old.here.value.slot) at.old.passed
        at.old.here.value.state }
    ensures path { at.new.path ≡ at.old.path }
    ensures here { at.new.here ≡ at.old.here }
    ensures pending { at.new.pending ≡ at.old.pending }
    ensures kept { at.new.kept ≡ at.old.kept }
    ensures made { at.new.made ≡ at.old.made }
    ensures ahead { at.new.ahead ≡ at.old.ahead }
    ensures value { result ≡ is_covered D.ops (kept_at at.old.kept) at.old.here.value }
    ensures members { result ≡ true → HasCover D.Member
        (kept_at at.old.kept at.old.here.value.slot) at.old.here.value.state }
{
    loop {
        match at.kept.search(&at.here, at.passed).0 {
            SearchProgress::Covered => return true,
            SearchProgress::Uncovered => return false,
            SearchProgress::Open { passed } => at.passed = passed,
        }
    }
}

/// Skips the state to follow next, where a kept one of its slot covers it, or else makes its step, whatever that
/// weighs. Returns `Ended` where no state waits.
///
/// # Errors
/// V17 where the step would pass the budget; else the refusal of the step.
fn step_next<D: Domain, L: Ledger>(
    program: &Program,
    at: &mut Frontier<D>,
    budget: usize,
    steps: &mut Steps<L>,
) -> Result<Path, Refusal>
    requires few { slot_count program.now ≤ MAX_SLOTS }
    requires laid_out { IsLaidOut program.now }
    requires within { at.old.made ≤ budget }
    requires pauses { Pauses D.ops D.Member program.now at.old.made (waits_of at.old) at.old.kept }
    requires passed { HasPassedHere D.ops at.old }
    ensures on { IfOk result
        (IfContinues (HasSettled D.ops D.Member program.now budget at.old at.new steps.old steps.new)) }
    ensures ahead { OnOk result (at.new.ahead ≡ at.old.ahead) }
    ensures ended { StopsIn D.ops D.Member program.now budget at.old.made 1 steps.old steps.new result }
    ensures unit { IsUnitBetween D.ops program.now at.old at.new result }
{
    if let Path::Ended = take_next(at) {
        return Ok(Path::Ended);
    }
    let covered = is_covered(at);
    settle(program, at, budget, steps, covered)?;
    Ok(Path::Continues)
}

/// A walk over all paths of a program that has not ended. It continues in slices, by [`advance`](Walk::advance).
/// See docs/DECISIONS.md, "Verification in slices".
#[derive(Drop)]
pub struct Walk<D: Domain> {
    translation: Translation,
    budget: usize,
    at: Frontier<D>,
}

impl<D: Domain> Model for Walk<D> {
    ghost use Rattle.verifier.specs.Slices.{Walking, IsWalk, walking_at, HasPassedHere};

    ghost Value = { Walking D };

    ghost view = { λ w. walking_at w.translation w.budget w.at };

    ghost invariant = { λ w. IsWalk D.ops D.Member (walking_at w.translation w.budget w.at)
        × HasPassedHere D.ops w.at };
}

/// What a walk has come to after a slice.
#[derive(Drop)]
pub enum Progress<D: Domain> {
    /// It continues.
    Going(Walk<D>),
    /// It has ended: the program is accepted, or refused. The states that it has kept are still there.
    Ended(Result<Verified, Refusal>, Remains<D>),
}

impl<D: Domain> Walk<D> {
    ghost use Rattle.std.specs.Prelude.{◌≡◌, ◌≤◌, ◌-◌, [], ◌∷◌, Err, IfOk, IfErr, length, slice_get};
    ghost use Rattle.std.specs.Option.{option_copied};
    ghost use Rattle.insn.specs.Encoding.{slot_count};
    ghost use Rattle.insn.specs.declared.decoding.TheConstants.{MAX_SLOTS};
    ghost use Rattle.verifier.specs.Refusing.{IsVerdictOver};
    ghost use Rattle.verifier.specs.Walk.{first_pending};
    ghost use Rattle.verifier.specs.Walks.{EndsWalk};
    ghost use Rattle.verifier.specs.declared.walk.Verified.{Verified};
    ghost use Rattle.verifier.specs.Keeping.{units_to_free};
    ghost use Rattle.verifier.specs.SliceEnds.{IsNewWalk, MayRefuseStart, IsSlice};
    ghost use Rattle.verifier.specs.Units.{IsUnit};

    /// Begins the walk over all paths of a program, which makes at most `budget` steps. None is made yet.
    ///
    /// # Errors
    /// A fault of the layout; V19 at slot 0 where memory runs out.
    pub fn new(alloc: Global, code: &[Insn], budget: usize) -> Result<Walk<D>, Refusal>
        requires { slot_count code.now ≤ MAX_SLOTS }
        ensures started { IfOk result (IsNewWalk code.now budget) }
        ensures waits { IfOk result (λ w. w.waits ≡ first_pending ∷ []) }
        ensures refused { IfErr result (MayRefuseStart code.now) }
        ensures verdict { IfErr result (λ e. IsVerdictOver {T = Verified} D.ops D.Member code.now budget (Err e)) }
        ensures walked { IfErr result (λ e. EndsWalk {T = Verified} D.ops D.Member code.now 0 0 (Err e)) }
    {
        check_layout(code)?;
        let Ok(translation) = Translation::new(alloc, code) else {
            return Err(Refusal::Memory { slot: 0 });
        };
        let Ok(kept) = KeptStates::new(alloc, translation.program()) else {
            return Err(Refusal::Memory { slot: 0 });
        };
        // a path makes one step at each instruction at most, so the states that wait are never copied to a larger room
        let Ok(pending) = Vec::with_capacity(alloc, code.len()) else {
            return Err(Refusal::Memory { slot: 0 });
        };
        let first = Pending {
            slot: 0,
            state: AbsState::start(),
        };
        let Ok(here) = Box::new(alloc, first) else {
            return Err(Refusal::Memory { slot: 0 });
        };
        Ok(Walk {
            translation,
            budget,
            at: Frontier {
                path: Path::Continues,
                here,
                pending,
                kept,
                passed: 0,
                ahead: 0,
                made: 0,
            },
        })
    }

    /// Gives the walk up, and returns the states that it has kept.
    pub fn into_remains(self) -> Remains<D>
        ensures { result ≡ units_to_free self.kept }
    {
        let Walk { at, .. } = self;
        let Frontier { kept, .. } = at;
        Remains::new(kept)
    }

    /// Returns the state to follow next: the last one that waits.
    pub fn next(&self) -> Option<&Pending<D>>
        ensures { option_copied result ≡ slice_get self.now.waits (length self.now.waits - 1) }
    {
        match self.at.path {
            Path::Continues => Some(&self.at.here),
            Path::Ended => self.at.pending.last(),
        }
    }

    /// Returns how many states wait.
    pub fn waiting(&self) -> usize
        ensures { result ≡ length self.now.waits }
    {
        match self.at.path {
            Path::Continues => self.at.pending.len() + 1,
            Path::Ended => self.at.pending.len(),
        }
    }

    /// Returns how many steps are made.
    pub fn made(&self) -> usize
        ensures { result ≡ self.now.made }
    {
        self.at.made
    }

    /// Skips the state to follow next, where a kept one of its slot covers it, or else makes its step, whatever that
    /// weighs.
    pub fn step<L: Ledger>(self, steps: &mut Steps<L>) -> Progress<D>
        ensures slice { IsSlice D.ops D.Member self 1 steps.old steps.new result }
        ensures unit { IsUnit D.ops self result }
    {
        let Walk {
            translation,
            budget,
            mut at,
        } = self;
        match step_next(translation.program(), &mut at, budget, steps) {
            Err(refusal) => Progress::Ended(Err(refusal), Remains::new(at.kept)),
            Ok(Path::Ended) => Progress::Ended(Ok(Verified { translation }), Remains::new(at.kept)),
            Ok(Path::Continues) => Progress::Going(Walk {
                translation,
                budget,
                at,
            }),
        }
    }

    /// Continues by work of the weight `slice`, or less where the walk ends. Of what the last unit of work does beyond
    /// it, so much less is done by the next slices. No unit weighs more than 10,240, whatever the program is.
    pub fn advance<L: Ledger>(self, slice: usize, steps: &mut Steps<L>) -> Progress<D>
        ensures { IsSlice D.ops D.Member self slice steps.old steps.new result }
    {
        let Walk {
            translation,
            budget,
            mut at,
        } = self;
        match run_slice(translation.program(), &mut at, budget, slice, steps) {
            Err(e) => Progress::Ended(Err(e), Remains::new(at.kept)),
            Ok(Path::Ended) => Progress::Ended(Ok(Verified { translation }), Remains::new(at.kept)),
            Ok(Path::Continues) => Progress::Going(Walk {
                translation,
                budget,
                at,
            }),
        }
    }
}

/// As [`verify_with`](crate::verify_with), by slices of the weight `slice`.
///
/// # Errors
/// As [`verify_with`](crate::verify_with).
pub fn verify_in_slices<D: Domain, L: Ledger>(
    alloc: Global,
    code: &[Insn],
    budget: usize,
    slice: usize,
    steps: &mut Steps<L>,
) -> Result<Verified, Refusal>
    requires few { slot_count code.now ≤ MAX_SLOTS }
    requires some { 1 ≤ slice }
    ensures code { IfOk result (λ v. v ≡ code.now) }
    ensures verdict { IsVerdictOver D.ops D.Member code.now budget result }
    ensures counts { CountsSteps budget steps.old steps.new result }
    ensures walked { EndsWalk D.ops D.Member code.now steps.old steps.new result }
{
    let mut walk = Walk::<D>::new(alloc, code, budget)?;
    loop {
        match walk.advance(slice, steps) {
            Progress::Going(next) => walk = next,
            Progress::Ended(result, _) => return result,
        }
    }
}
