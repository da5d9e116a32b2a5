//! How one abstract state differs from another one, as text.

ghost use Rattle.std.specs.Prelude.{List};
ghost use Rattle.insn.specs.declared.instruction.Insn.{Insn};
ghost use Rattle.interval.specs.Intervals.{interval_ops};
ghost use Rattle.semantics.specs.declared.fetching.Branch.{Branch};
ghost use Rattle.explaining.specs.Paths.{LeadsAway, IsBranchTo};

use crate::text::{Known, State};
use absstate::{AbsState, AbstractValue, Next};
use insn::Insn;
use interval::Interval;
use semantics::{Branch, GROUP_BYTES, GROUPS, STACK_BYTES};
use std::alloc::{AllocError, Global};
use verifier::Pending;

/// The number of registers: what is known of the groups of the stack comes after them.
pub(crate) const REGISTERS: usize = 11;

/// Appends what separates two parts of a note.
fn separate(note: &mut String) -> Result<(), AllocError> {
    if !note.is_empty() {
        note.push_str("; ")?;
    }
    Ok(())
}

/// Returns the place of a byte of the stack, by its index.
pub(crate) fn stack_place(index: usize) -> i64 {
    if index <= STACK_BYTES {
        index as i64 - STACK_BYTES as i64
    } else {
        0
    }
}

/// Appends the registers of which other things are known.
fn push_registers(note: &mut String, from: &State, to: &State) -> Result<(), AllocError> {
    for i in 0..REGISTERS {
        if from.values[i] != to.values[i] {
            let known = Known(to.values[i]);
            separate(note)?;
            write!(note, "r{i} {known}")?;
        }
    }
    Ok(())
}

/// Appends the groups of the stack that hold other pointers.
fn push_groups(note: &mut String, from: &State, to: &State) -> Result<(), AllocError> {
    for i in 0..GROUPS {
        if from.values[REGISTERS + i] != to.values[REGISTERS + i] {
            let known = Known(to.values[REGISTERS + i]);
            let place = stack_place(GROUP_BYTES * i);
            separate(note)?;
            write!(note, "stack{place} holds {known}")?;
        }
    }
    Ok(())
}

/// Appends a range of stack bytes that are set, by the index of its first one and of the one after its last.
fn push_range(note: &mut String, first: usize, end: usize) -> Result<(), AllocError> {
    let first = stack_place(first);
    let end = stack_place(end);
    separate(note)?;
    write!(note, "stack{first}..{end} set")
}

/// Appends the ranges of stack bytes that are set in the second state alone.
fn push_marks(note: &mut String, from: &State, to: &State) -> Result<(), AllocError> {
    let mut first = None;
    for i in 0..STACK_BYTES + 1 {
        let is_new = to.marks.is_set(i) && !from.marks.is_set(i);
        match first {
            None if is_new => first = Some(i),
            Some(begin) if !is_new => {
                push_range(note, begin, i)?;
                first = None;
            }
            _ => {}
        }
    }
    Ok(())
}

/// Appends how a state differs from one before it: registers, pointers in the stack, stack bytes that are set, and how
/// many bytes of the datagram are proved.
fn push_changes(note: &mut String, from: &State, to: &State) -> Result<(), AllocError> {
    push_registers(note, from, to)?;
    push_groups(note, from, to)?;
    push_marks(note, from, to)?;
    if from.proved != to.proved {
        separate(note)?;
        match to.proved {
            1 => note.push_str("1 byte proved")?,
            proved => write!(note, "{proved} bytes proved")?,
        }
    }
    Ok(())
}

/// Returns what is known in a state. That `r10` is the stack's end is known in every one.
pub(crate) fn state_note(alloc: Global, state: &State) -> Result<String, AllocError> {
    let mut bare = AbsState::start();
    bare.values[1] = AbstractValue::Nothing;
    let mut note = String::new(alloc);
    push_changes(&mut note, &bare, state)?;
    Ok(note)
}

/// Returns the branch of a conditional jump to the next slot by which a state leads to another one: the one that isn't
/// taken, where that leads to the same state.
fn branch_in_place(insn: Insn, here: &State, next: &State) -> Branch {
    match here.step(&insn) {
        Ok(Next::Fork { not_taken, .. }) if not_taken == Some(*next) => Branch::NotTaken,
        _ => Branch::Taken,
    }
}

/// Returns the branch of a conditional jump by which one state leads to another one.
fn branch_to(insn: Insn, here: &Pending<Interval>, next: &Pending<Interval>) -> Branch
    ensures { (code : List Insn) (by : Branch) → LeadsAway insn → IsBranchTo interval_ops code here.now next.now insn by
        → IsBranchTo interval_ops code here.now next.now insn result }
{
    if next.slot.checked_sub(here.slot) != Some(1) {
        return Branch::Taken;
    }
    match insn {
        Insn::JumpIf { offset: 0, .. } => branch_in_place(insn, &here.state, &next.state),
        _ => Branch::NotTaken,
    }
}

/// Returns what a step from one state to another one has changed, and at a conditional jump the branch that is
/// followed.
pub(crate) fn step_note(
    alloc: Global,
    insn: Insn,
    here: &Pending<Interval>,
    next: &Pending<Interval>,
) -> Result<String, AllocError> {
    let mut note = String::new(alloc);
    if let Insn::JumpIf { .. } = insn {
        note.push_str(match branch_to(insn, here, next) {
            Branch::NotTaken => "not taken",
            Branch::Taken => "taken",
        })?;
    }
    push_changes(&mut note, &here.state, &next.state)?;
    Ok(note)
}
