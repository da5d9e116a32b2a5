//! The states that the walk keeps, at the slots that jumps lead to.

ghost use Rattle.std.specs.Prelude.{◌≡◌, ◌≤◌, ◌<◌, ℕ, true, false, None, [], length, slice_index_or, OnOk, IfOk, IfSome, IfNone, is_some};
ghost use Rattle.insn.specs.Encoding.{slot_count};
ghost use Rattle.insn.specs.declared.decoding.TheConstants.{MAX_SLOTS};
ghost use Rattle.absstate.specs.InitialisedWords.{words_of};
ghost use Rattle.verifier.specs.Targets.{target_at};
ghost use Rattle.verifier.specs.Signed.{signatures_of};
ghost use Rattle.verifier.specs.Searches.{HasPassed, Finds, Weighs};
ghost use Rattle.verifier.specs.Keeping.{states_of, states_with, kept_at, keeps_at, KeepsNothing, KeepsAtTargets, MarksTarget, Keeps};

use crate::layout::distance;
use crate::signatures::Signatures;
use crate::walk::Pending;
use crate::weights::{PART, SEARCH, WHOLE};
use absstate::{AbsState, PackedState, Part};
use insn::MAX_SLOTS;
use interval::Domain;
use semantics::{Fetched, Program};
use std::alloc::{AllocError, Global};
use std::marker::Model;

/// A kept state, with the part of it in which it last differed from another one.
/// See docs/DESIGN.md, "What distinguishes a kept state".
#[derive(Drop)]
pub struct KeptState<D: Domain> {
    part: Part<D>,
    state: Box<PackedState<D>>,
}

impl<D: Domain> Model for KeptState<D> {
    ghost use Rattle.absstate.specs.Packing.{IsPartOf};
    ghost use Rattle.absstate.specs.declared.abstract_state.AbsState.{AbsState};

    ghost Value = { AbsState D };

    ghost view = { λ k. k.state.value };

    ghost invariant = { λ k. IsPartOf k.state.value k.part };
}

/// The states that are kept at a slot, and beside them the signature of each, which is compared first.
#[derive(Drop)]
pub struct States<D: Domain> {
    signatures: Signatures,
    states: Vec<KeptState<D>>,
}

impl<D: Domain> Model for States<D> {
    ghost use Rattle.std.specs.Prelude.{◌≡◌, List};
    ghost use Rattle.absstate.specs.declared.abstract_state.AbsState.{AbsState};
    ghost use Rattle.verifier.specs.Signed.{signatures_of};

    ghost Value = { List (AbsState D) };

    ghost view = { λ s. s.states.items };

    ghost invariant = { λ s. s.signatures ≡ signatures_of D.ops s.states.items };
}

/// The states that the walk has kept, by slot: `None` at each slot that no jump leads to. The list ends at the last
/// slot that one does.
/// See docs/DESIGN.md, "Covered states are skipped".
#[derive(Drop)]
pub struct KeptStates<D: Domain> {
    alloc: Global,
    by_slot: Vec<Option<States<D>>>,
    // the slot of the state that was kept last, which the next one is most like
    latest: usize,
}

impl<D: Domain> Model for KeptStates<D> {
    ghost use Rattle.std.specs.Prelude.{List, Option};
    ghost use Rattle.absstate.specs.declared.abstract_state.AbsState.{AbsState};

    ghost Value = { List (Option (List (AbsState D))) };

    ghost view = { λ k. k.by_slot.items };
}

impl<D: Domain> KeptState<D> {
    ghost use Rattle.std.specs.Prelude.{◌≡◌, ◌≤◌, ◌+◌, true, IfOk};
    ghost use Rattle.semantics.specs.Machine.{State};
    ghost use Rattle.absstate.specs.Covers.{covers};
    ghost use Rattle.absstate.specs.InitialisedWords.{words_of};
    ghost use Rattle.absstate.specs.Membership.{Loose, IsMember};
    ghost use Rattle.verifier.specs.declared.weights.TheConstants.{PART, SEARCH, WHOLE};

    /// Returns a state as it is kept. It shares what it can with a state that is kept already.
    ///
    /// # Errors
    /// Where memory runs out.
    fn new(
        alloc: Global,
        state: &AbsState<D>,
        like: Option<&KeptState<D>>,
    ) -> Result<KeptState<D>, AllocError>
        ensures { IfOk result (λ k. k ≡ state.now) }
    {
        let like = match like {
            Some(like) => Some(&*like.state),
            None => None,
        };
        match Box::new(alloc, state.packed(alloc, like)?) {
            Ok(state) => Ok(KeptState {
                part: Part::Unknown,
                state,
            }),
            Err(e) => Err(e.into()),
        }
    }

    /// Returns whether this state covers another one, whose marks are these words. Where it doesn't, the part that
    /// shows it is looked at first the next time. What it weighs is added to a weight.
    fn covers(&mut self, state: &AbsState<D>, words: &[u64; 8], weight: &mut usize) -> bool
        requires words { words.now ≡ words_of state.now.marks.cells }
        requires room { weight.old ≤ SEARCH }
        ensures same { self.new ≡ self.old }
        ensures value { result ≡ covers D.ops self.old state.now }
        ensures members { result ≡ true → (s : State) → IsMember D.Member Loose state.now s
            → IsMember D.Member Loose self.old s }
        ensures part { weight.old + PART ≤ weight.new }
        ensures whole { result ≡ true → weight.new ≡ weight.old + PART + WHOLE }
        ensures most { weight.new ≤ weight.old + PART + WHOLE }
    {
        *weight += PART;
        if self.part.rules_out(state, words) {
            return false;
        }
        *weight += WHOLE;
        match self.state.difference(state, words) {
            None => true,
            Some(part) => {
                self.part = part;
                false
            }
        }
    }
}

/// What a search for a kept state that covers another one has come to.
#[derive(Clone, Copy)]
pub(crate) enum SearchProgress {
    /// One of the kept states covers it.
    Covered,
    /// None of them does.
    Uncovered,
    /// None of the first ones does, of which there are so many. The others are still to be compared.
    Open { passed: usize },
}

/// Searches some states, each with its signature, for one that covers a state. None of the first `passed` does. Returns
/// what it weighs, too: it is left at [`SEARCH`].
fn search_among<D: Domain>(
    signatures: &Signatures,
    states: &mut Vec<KeptState<D>>,
    state: &AbsState<D>,
    passed: usize,
) -> (SearchProgress, usize)
    requires signatures { signatures.now ≡ signatures_of D.ops states.old.items }
    requires passed { HasPassed D.ops states.old.items passed state.now }
    ensures same { states.new.items ≡ states.old.items }
    ensures found { Finds D.ops D.Member states.old.items passed state.now result.0 }
    ensures weight { Weighs result.0 (length states.old.items) passed result.1 }
{
    let words = state.words();
    let signature = state.signature(&words);
    let mut at = passed;
    let mut weight = 0;
    while at < states.len() && weight < SEARCH {
        let end = at + (states.len() - at).min(SEARCH - weight);
        let next = signatures.next_within(signature, at, end);
        weight += next - at;
        at = next;
        if at < end {
            weight += 1;
            if states[at].covers(state, &words, &mut weight) {
                return (SearchProgress::Covered, weight);
            }
            at += 1;
        }
    }
    if at < states.len() {
        (SearchProgress::Open { passed: at }, weight)
    } else {
        (SearchProgress::Uncovered, weight)
    }
}

impl<D: Domain> States<D> {
    ghost use Rattle.std.specs.Prelude.{◌≡◌, ◌++◌, ◌∷◌, [], true, OnOk};
    ghost use Rattle.verifier.specs.Searches.{HasPassed, Finds, Weighs};

    /// Returns no states.
    fn new(alloc: Global) -> States<D>
        ensures { result ≡ [] }
    {
        States {
            signatures: Signatures::new(alloc),
            states: Vec::new(alloc),
        }
    }

    /// Searches the states for one that covers a state. None of the first `passed` does. Returns what it weighs, too.
    fn search(&mut self, state: &AbsState<D>, passed: usize) -> (SearchProgress, usize)
        requires { HasPassed D.ops self.old passed state.now }
        ensures same { self.new ≡ self.old }
        ensures found { Finds D.ops D.Member self.old passed state.now result.0 }
        ensures weight { Weighs result.0 (length self.old) passed result.1 }
    {
        if self.states.is_empty() {
            return (SearchProgress::Uncovered, 0);
        }
        search_among(&self.signatures, &mut self.states, state, passed)
    }

    /// Makes room for the first state alone, where none is kept: most slots have no other one.
    ///
    /// # Errors
    /// Where memory runs out.
    fn reserve_first(&mut self) -> Result<(), AllocError>
        ensures { OnOk result (self.new ≡ self.old) }
    {
        if self.states.is_empty() {
            self.states.reserve_exact(1)?;
            self.signatures.reserve_first()?;
        }
        Ok(())
    }

    /// Appends a state, as it is kept.
    ///
    /// # Errors
    /// Where memory runs out.
    fn push(&mut self, kept: KeptState<D>, state: &AbsState<D>) -> Result<(), AllocError>
        requires { kept ≡ state.now }
        ensures { OnOk result (self.new ≡ self.old ++ state.now ∷ []) }
    {
        self.reserve_first()?;
        let signature = state.signature(&state.words());
        self.signatures.push(signature)?;
        if let Err(e) = self.states.push(kept) {
            self.signatures.pop();
            return Err(e.into());
        }
        Ok(())
    }
}

/// Searches the states that are kept at a slot, where states are, for one that covers a state. None of the first
/// `passed` does. Returns what it weighs, too.
fn search_slot<D: Domain>(
    states: &mut Option<States<D>>,
    state: &AbsState<D>,
    passed: usize,
) -> (SearchProgress, usize)
    requires { HasPassed D.ops (states_of states.old) passed state.now }
    ensures same { states.new ≡ states.old }
    ensures found { Finds D.ops D.Member (states_of states.old) passed state.now result.0 }
    ensures weight { Weighs result.0 (length (states_of states.old)) passed result.1 }
{
    match states {
        Some(states) => states.search(state, passed),
        None => (SearchProgress::Uncovered, 0),
    }
}

/// Appends a state, as it is kept, to those that are kept at a slot, where states are.
///
/// # Errors
/// Where memory runs out.
fn push_state<D: Domain>(
    states: &mut Option<States<D>>,
    kept: KeptState<D>,
    state: &AbsState<D>,
) -> Result<(), AllocError>
    requires { kept ≡ state.now }
    ensures slots { OnOk result (is_some states.new ≡ is_some states.old) }
    ensures states { OnOk result (states_of states.new
        ≡ states_with (is_some states.old) state.now (states_of states.old)) }
{
    if let Some(states) = states {
        states.push(kept, state)?;
    }
    Ok(())
}

/// Returns the slot that the jump at a slot leads to, `None` where no jump is.
fn target_at(program: &Program, slot: usize) -> Option<usize>
    requires { slot < MAX_SLOTS }
    ensures { result ≡ target_at program.now slot }
{
    let Fetched::Begins(insn) = program.fetch(slot) else {
        return None;
    };
    match distance(insn) {
        None => None,
        Some(offset) => program.target(slot, offset).ok(),
    }
}

/// Lengthens a list by slot, until it has a slot.
///
/// # Errors
/// Where memory runs out.
#[tactic(auto, using(crate::proofs::Keeping::none_more))]
fn lengthen<D: Domain>(by_slot: &mut Vec<Option<States<D>>>, slot: usize) -> Result<(), AllocError>
    ensures reached { OnOk result (slot < length by_slot.new.items) }
    ensures same { OnOk result ((n : ℕ) → slice_index_or by_slot.new.items n None
        ≡ slice_index_or by_slot.old.items n None) }
{
    while by_slot.len() <= slot {
        by_slot.push(None)?;
    }
    Ok(())
}

impl<D: Domain> KeptStates<D> {
    /// Keeps no state, and marks the slots that jumps lead to.
    ///
    /// # Errors
    /// Where memory runs out.
    #[tactic(auto, using(crate::proofs::Keeping::none_below, crate::proofs::Keeping::next_below, crate::proofs::Keeping::targets_below))]
    pub fn new(alloc: Global, program: &Program) -> Result<KeptStates<D>, AllocError>
        requires { slot_count program.now ≤ MAX_SLOTS }
        ensures targets { IfOk result (KeepsAtTargets program.now) }
        ensures none { IfOk result KeepsNothing }
    {
        let mut kept = KeptStates {
            alloc,
            by_slot: Vec::new(alloc),
            latest: 0,
        };
        // no jump is at a slot after the last one
        for slot in 0..MAX_SLOTS {
            kept.mark(alloc, target_at(program, slot))?;
        }
        Ok(kept)
    }

    /// Marks the slot that a jump leads to, if there is one.
    ///
    /// # Errors
    /// Where memory runs out.
    fn mark(&mut self, alloc: Global, target: Option<usize>) -> Result<(), AllocError>
        ensures marks { OnOk result (MarksTarget target self.old self.new) }
        ensures none { KeepsNothing self.old → OnOk result (KeepsNothing self.new) }
    {
        let Some(slot) = target else {
            return Ok(());
        };
        lengthen(&mut self.by_slot, slot)?;
        self.by_slot[slot] = Some(States::new(alloc));
        Ok(())
    }

    /// Searches the states that are kept at its slot for one that covers a state. None of the first `passed` does.
    /// Returns what it weighs, too.
    pub fn search(&mut self, here: &Pending<D>, passed: usize) -> (SearchProgress, usize)
        requires { HasPassed D.ops (kept_at self.old here.now.slot) passed here.now.state }
        ensures same { self.new ≡ self.old }
        ensures found { Finds D.ops D.Member (kept_at self.old here.now.slot) passed here.now.state result.0 }
        ensures weight { Weighs result.0 (length (kept_at self.old here.now.slot)) passed result.1 }
    {
        if here.slot < self.by_slot.len() {
            search_slot(&mut self.by_slot[here.slot], &here.state, passed)
        } else {
            (SearchProgress::Uncovered, 0)
        }
    }

    /// Returns whether states are kept at a slot.
    fn keeps_at(&self, slot: usize) -> bool
        ensures { result ≡ keeps_at self.now slot }
    {
        match self.by_slot.get(slot) {
            Some(Some(_)) => true,
            _ => false,
        }
    }

    /// Returns the state that was kept last, if there is one.
    fn latest(&self) -> Option<&KeptState<D>> {
        match self.by_slot.get(self.latest) {
            Some(Some(states)) => states.states.last(),
            _ => None,
        }
    }

    /// Keeps a state, if some jump leads to its slot.
    ///
    /// # Errors
    /// Where memory runs out.
    pub fn keep(&mut self, here: &Pending<D>) -> Result<(), AllocError>
        ensures { OnOk result (Keeps here.now self.old self.new) }
    {
        if self.keeps_at(here.slot) {
            let kept = KeptState::new(self.alloc, &here.state, self.latest())?;
            push_state(&mut self.by_slot[here.slot], kept, &here.state)?;
            self.latest = here.slot;
        }
        Ok(())
    }
}

/// The size of the piece of memory that is asked for after some states are freed, in bytes.
const LARGE_PIECE: usize = 4_096;

/// The states that a walk has kept, once it has ended. Where there are many, freeing all of them at once takes long.
#[derive(Drop)]
pub struct Remains<D: Domain> {
    by_slot: Vec<Option<States<D>>>,
    states: Vec<KeptState<D>>,
}

impl<D: Domain> Model for Remains<D> {
    ghost use Rattle.std.specs.Prelude.{ℕ, ◌+◌, length};
    ghost use Rattle.verifier.specs.Keeping.{units_to_free};

    ghost Value = { ℕ };

    ghost view = { λ r. length r.states.items + units_to_free r.by_slot.items };
}

impl<D: Domain> Remains<D> {
    ghost use Rattle.std.specs.Prelude.{◌≡◌, ◌+◌, ◌<◌, true, false, IfSome, IfNone};
    ghost use Rattle.verifier.specs.Keeping.{units_to_free};

    /// Returns what is left of the states that a walk has kept.
    pub(crate) fn new(kept: KeptStates<D>) -> Remains<D>
        ensures { result ≡ units_to_free kept }
    {
        Remains {
            by_slot: kept.by_slot,
            states: Vec::new(kept.alloc),
        }
    }

    /// Frees a state, or continues at those of another slot, and returns whether there was anything to do.
    fn free_one(&mut self) -> bool
        ensures freed { result ≡ true → self.new + 1 ≡ self.old }
        ensures none { result ≡ false → self.old ≡ 0 }
    {
        if self.states.pop().is_some() {
            return true;
        }
        match self.by_slot.pop() {
            None => false,
            Some(None) => true,
            Some(Some(states)) => {
                self.states = states.states;
                true
            }
        }
    }

    /// Asks for a large piece of memory, and gives it back. An allocator that joins small pieces only at such a
    /// request, as that of glibc does, then joins the few that were freed since the last one, and never all of them at
    /// once.
    fn join_freed(&self) {
        let _ = Vec::<u8>::with_capacity(*self.states.allocator(), LARGE_PIECE);
    }

    /// Frees some of the states, in `count` units of work: a state, or a slot. Returns the others, `None` where none is
    /// left.
    pub fn free(mut self, count: usize) -> Option<Remains<D>>
        ensures left { IfSome result (λ left. left + count ≡ self) }
        ensures none { IfNone result (self < count) }
    {
        for _ in 0..count {
            if !self.free_one() {
                return None;
            }
        }
        self.join_freed();
        Some(self)
    }
}
