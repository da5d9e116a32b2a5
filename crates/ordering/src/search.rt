//! A depth-first search over the instructions that are reached from slot 0. Each is placed once those that its branches
//! lead to are.

ghost use Rattle.std.specs.Prelude.{◌≡◌, ◌≤◌, OnOk, IfOk, IfErr, Ok, map};
ghost use Rattle.insn.specs.Encoding.{slot_count, AllFit};
ghost use Rattle.insn.specs.declared.decoding.TheConstants.{MAX_SLOTS};
ghost use Rattle.semantics.specs.declared.fetching.Branch.TheVariants.{NotTaken, Taken};
ghost use Rattle.ordering.specs.Orders.{IsOrderFault};
ghost use Rattle.ordering.specs.declared.search.Mark.TheVariants.{Unseen};
ghost use Rattle.ordering.specs.declared.search.Look.TheVariants.{Known};
ghost use Rattle.ordering.specs.BranchTargets.{IsVisit, IsBranchTarget};
ghost use Rattle.ordering.specs.Searches.{mark_at, slot_of_mark, LeadsToVisit, LooksAt, Visits, Searches, IsOrderedSearch, ArePlaces, work_of};
ghost use Rattle.ordering.specs.Tails.{tail_list};

use crate::branches::branch_target;
use crate::error::OrderError;
use crate::places::{InOrder, Places};
use crate::tail::Tail;
use insn::MAX_SLOTS;
use semantics::{Branch, Program, Visit};
use std::alloc::{AllocError, Global};

/// What the search knows of a slot.
#[derive(Clone, Copy, Debug, PartialEq, Eq)]
pub(crate) enum Mark {
    /// It was not seen yet.
    Unseen,
    /// It is on the path to the current slot.
    Open,
    /// Its instruction has this place.
    Placed(usize),
}

impl Mark {
    /// Returns the slot of an instruction that has a place, in a program of so many slots.
    fn slot(self, slots: usize) -> Option<usize>
        ensures { result ≡ slot_of_mark slots self }
    {
        match self {
            Mark::Unseen | Mark::Open => None,
            Mark::Placed(place) => Some(slots.saturating_sub(place)),
        }
    }
}

/// Returns the slots of the instructions that have places, in a program of so many slots.
fn slots_of(alloc: Global, marks: &[Mark], slots: usize) -> Result<Vec<Option<usize>>, AllocError>
    ensures { IfOk result (λ found. found.items ≡ map (slot_of_mark slots) marks.now) }
{
    let mut found = Vec::new(alloc);
    for mark in marks {
        found.push(mark.slot(slots))?;
    }
    Ok(found)
}

/// What a branch leads to.
#[derive(Clone, Copy)]
enum Look {
    /// An instruction that was not seen yet.
    New(Visit),
    /// An instruction at this place, `None` where there is no such branch.
    Known(Option<usize>),
}

/// The marks of the slots, the path to the current slot, and the instructions that were placed.
#[derive(Drop)]
pub(crate) struct Search {
    marks: Vec<Mark>,
    stack: Vec<Visit>,
    tail: Tail,
}

impl Search {
    /// Returns the search that begins at an instruction.
    ///
    /// # Errors
    /// Where memory runs out.
    fn new(alloc: Global, program: &Program, first: Visit) -> Result<Search, OrderError>
        requires start { first.slot ≡ 0 }
        requires here { IsVisit program.now first }
        ensures ok { IfOk result (Searches program.now) }
        ensures err { IfErr result (IsOrderFault program.now) }
    {
        let mut marks = Vec::new(alloc);
        marks.resize(MAX_SLOTS, Mark::Unseen)?;
        marks[first.slot] = Mark::Open;
        let mut stack = Vec::new(alloc);
        stack.push(first)?;
        Ok(Search {
            marks,
            stack,
            tail: Tail::new(alloc),
        })
    }

    /// Returns what a branch of the current instruction leads to, of which the instruction is known.
    ///
    /// # Errors
    /// `Loop` where it is an instruction of the path.
    fn look_at(
        &self,
        program: &Program,
        at: Visit,
        branch: Branch,
        target: Option<Visit>,
    ) -> Result<Look, OrderError>
        requires few { slot_count program.now ≤ MAX_SLOTS }
        requires visits { Visits program.now at self.now }
        requires target { IsBranchTarget program.now at branch (Ok target) }
        ensures ok { IfOk result (LooksAt program.now self.now.marks.items at branch) }
        ensures err { IfErr result (IsOrderFault program.now) }
    {
        let Some(to) = target else {
            return Ok(Look::Known(None));
        };
        match self.marks[to.slot] {
            Mark::Unseen => Ok(Look::New(to)),
            Mark::Open => Err(OrderError::Loop { slot: to.slot }),
            Mark::Placed(place) => Ok(Look::Known(Some(place))),
        }
    }

    /// Returns what a branch of the current instruction leads to.
    ///
    /// # Errors
    /// `Stuck` where it leads to no instruction, `Loop` where it leads to an instruction of the path.
    fn look(&self, program: &Program, at: Visit, branch: Branch) -> Result<Look, OrderError>
        requires few { slot_count program.now ≤ MAX_SLOTS }
        requires visits { Visits program.now at self.now }
        ensures ok { IfOk result (LooksAt program.now self.now.marks.items at branch) }
        ensures err { IfErr result (IsOrderFault program.now) }
    {
        match branch_target(program, at, branch) {
            Err(reason) => {
                let slot = at.slot;
                Err(OrderError::Stuck { reason, slot })
            }
            Ok(target) => self.look_at(program, at, branch, target),
        }
    }

    /// Continues at an instruction that was not seen yet.
    ///
    /// # Errors
    /// Where memory runs out.
    fn enter(&mut self, program: &Program, at: Visit, to: Visit) -> Result<(), OrderError>
        requires few { slot_count program.now ≤ MAX_SLOTS }
        requires visits { Visits program.now at self.old }
        requires leads { LeadsToVisit program.now at to }
        requires unseen { mark_at self.old.marks.items to.slot ≡ Unseen }
        ensures ok { OnOk result (Searches program.now self.new) }
        ensures work { OnOk result (work_of self.new ≡ work_of self.old) }
        ensures err { IfErr result (IsOrderFault program.now) }
    {
        self.stack.push(at)?;
        self.stack.push(to)?;
        self.marks[to.slot] = Mark::Open;
        Ok(())
    }

    /// Places the current instruction, whose taken branch and whose fall-through lead to places, if it has them.
    ///
    /// # Errors
    /// `TooLong` where there is no room, `Memory`.
    fn place(
        &mut self,
        program: &Program,
        at: Visit,
        taken: Option<usize>,
        next: Option<usize>,
    ) -> Result<(), OrderError>
        requires few { slot_count program.now ≤ MAX_SLOTS }
        requires fit { AllFit program.now }
        requires visits { Visits program.now at self.old }
        requires taken { LooksAt program.now self.old.marks.items at Taken (Known taken) }
        requires next { LooksAt program.now self.old.marks.items at NotTaken (Known next) }
        ensures ok { OnOk result (Searches program.now self.new) }
        ensures work { OnOk result (work_of self.new ≡ work_of self.old) }
        ensures err { IfErr result (IsOrderFault program.now) }
    {
        let place = self.tail.put(at.insn, taken, next)?;
        self.marks[at.slot] = Mark::Placed(place);
        Ok(())
    }

    /// Continues from the current instruction to one that it leads to and that was not seen yet, the target of a jump
    /// first; or places it.
    ///
    /// # Errors
    /// `Loop`, `Stuck`, `TooLong` or `Memory`.
    fn visit(&mut self, program: &Program, at: Visit) -> Result<(), OrderError>
        requires few { slot_count program.now ≤ MAX_SLOTS }
        requires fit { AllFit program.now }
        requires visits { Visits program.now at self.old }
        ensures ok { OnOk result (Searches program.now self.new) }
        ensures work { OnOk result (work_of self.new ≡ work_of self.old) }
        ensures err { IfErr result (IsOrderFault program.now) }
    {
        let taken = match self.look(program, at, Branch::Taken)? {
            Look::New(to) => return self.enter(program, at, to),
            Look::Known(place) => place,
        };
        match self.look(program, at, Branch::NotTaken)? {
            Look::New(to) => self.enter(program, at, to),
            Look::Known(next) => self.place(program, at, taken, next),
        }
    }

    /// Returns the instructions that were placed, and where they are.
    ///
    /// # Errors
    /// Where memory runs out.
    pub(crate) fn into_order(self, alloc: Global) -> Result<InOrder, AllocError>
        ensures code { IfOk result (λ found. found.code.items ≡ tail_list self.tail) }
        ensures places { IfOk result (λ found. ArePlaces self.tail.slots self.marks.items found.places) }
    {
        let Search { marks, tail, .. } = self;
        let places = Places::Moved(slots_of(alloc, &marks, tail.slots())?);
        let code = tail.into_code();
        Ok(InOrder { code, places })
    }
}

/// Returns a search that has placed the instructions that are reached from slot 0, in an order in which each jump leads
/// forward.
///
/// # Errors
/// `Loop`, `Stuck`, `TooLong` or `Memory`.
pub(crate) fn ordered(alloc: Global, program: &Program, first: Visit) -> Result<Search, OrderError>
    requires few { slot_count program.now ≤ MAX_SLOTS }
    requires fit { AllFit program.now }
    requires start { first.slot ≡ 0 }
    requires here { IsVisit program.now first }
    ensures ok { IfOk result (IsOrderedSearch program.now) }
    ensures err { IfErr result (IsOrderFault program.now) }
{
    let mut search = Search::new(alloc, program, first)?;
    while let Some(at) = search.stack.pop() {
        search.visit(program, at)?;
    }
    Ok(search)
}
