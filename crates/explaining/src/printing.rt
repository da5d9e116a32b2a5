//! Prints the lines of an explanation.

ghost use Rattle.std.specs.Prelude.{◌≡◌, ◌++◌, OnOk, IfOk, codes, decimal, string_bytes};
ghost use Rattle.std.specs.List.{before_first};
ghost use Rattle.std.specs.Io.KnownBytes.{Appends};
ghost use Rattle.explaining.specs.Lines.{AppendsLines, AppendsText, is_newline, line_text, step_text};
ghost use Rattle.explaining.specs.Lines.{made_of, refusal_slot, step_at, steps_of};

use crate::changes::{state_note, step_note};
use crate::error::ExplainError;
use crate::refusing::push_refusal;
use insn::{DecodeError, Insn, MAX_SLOTS};
use interval::Interval;
use loader::BUDGET;
use semantics::{Fetched, Program, Reason};
use std::alloc::{AllocError, Global};
use std::io::Write;
use verifier::{Pending, Refusal, distance};

/// Prints a line.
macro_rules! line {
    ($out:expr; $($text:tt)*) => {
        writeln!($out, $($text)*).map_err(|_| ExplainError::Output)
    };
}

/// Returns the first line of a note.
fn first_line(note: &str) -> &str
    ensures { result.now ≡ before_first is_newline note.now }
{
    match note.split_once('\n') {
        Some((first, _)) => first,
        None => note,
    }
}

/// Returns an instruction with its slot.
fn step_of(alloc: Global, slot: usize, insn: Insn) -> Result<String, AllocError>
    ensures { IfOk result (λ step. string_bytes step ≡ step_text slot insn) }
{
    let mut step = String::new(alloc);
    write!(step, "{slot} {insn}")?;
    Ok(step)
}

/// Prints a step, and a note at a column of its own.
fn print_noted<W: Write>(
    out: &mut W,
    step: &str,
    blank: &str,
    note: &str,
) -> Result<(), ExplainError>
    ensures { OnOk result (Appends (W.contents out.old) (W.contents out.new)
        (step.now ++ blank.now ++ codes " ; " ++ note.now ++ codes "\n")) }
{
    line!(out; "{step}{blank} ; {note}")
}

/// Prints a step without a note.
fn print_bare<W: Write>(out: &mut W, step: &str) -> Result<(), ExplainError>
    ensures { OnOk result (Appends (W.contents out.old) (W.contents out.new) (step.now ++ codes "\n")) }
{
    line!(out; "{step}")
}

/// Prints an instruction with its slot, and the first line of a note to it.
pub(crate) fn print_line<W: Write>(
    alloc: Global,
    out: &mut W,
    slot: usize,
    insn: Insn,
    note: &str,
) -> Result<(), ExplainError>
    ensures { OnOk result (Appends (W.contents out.old) (W.contents out.new) (line_text slot insn note.now)) }
{
    let step = step_of(alloc, slot, insn)?;
    let note = first_line(note);
    if note.is_empty() {
        print_bare(out, &step)
    } else {
        let blank = " ".repeat(alloc, 25usize.saturating_sub(step.len()))?;
        print_noted(out, &step, &blank, note)
    }
}

/// Prints each step of a path: what it has changed, and the branch that is followed. The last state of the path has
/// made none.
pub(crate) fn print_steps<W: Write>(
    alloc: Global,
    program: &Program,
    path: &[Pending<Interval>],
    out: &mut W,
) -> Result<(), ExplainError>
    ensures { OnOk result (AppendsLines (steps_of program.now (made_of path.now))
        (W.contents out.old) (W.contents out.new)) }
{
    for i in 1..path.len() {
        let here = &path[i - 1];
        if let Fetched::Begins(insn) = program.fetch(here.slot) {
            let note = step_note(alloc, insn, here, &path[i])?;
            print_line(alloc, out, here.slot, insn, note.as_str())?;
        }
    }
    Ok(())
}

/// Returns the number of slots of a program.
fn slots_of(program: &Program) -> usize {
    for slot in 0..MAX_SLOTS {
        if let Fetched::Past = program.fetch(slot) {
            return slot;
        }
    }
    MAX_SLOTS
}

/// Returns why the layout of a program is faulty at a slot.
fn fault_note(
    alloc: Global,
    program: &Program,
    slot: usize,
    insn: Insn,
    reason: Reason,
) -> Result<String, AllocError> {
    let distance = i64::from(distance(insn).unwrap_or(0));
    let to = i64::try_from(slot)
        .unwrap_or(0)
        .saturating_add(distance)
        .saturating_add(1);
    let slots = slots_of(program);
    match reason {
        Reason::JumpBackward => format!(in alloc; "refused {reason}: leads back to slot {to}"),
        Reason::JumpOutside if slots == 1 => {
            format!(in alloc; "refused {reason}: leads to slot {to}, of 1 slot")
        }
        Reason::JumpOutside => {
            format!(in alloc; "refused {reason}: leads to slot {to}, of {slots} slots")
        }
        Reason::JumpIntoWide => {
            format!(in alloc; "refused {reason}: leads to slot {to}, the second one of lddw")
        }
        _ => format!(in alloc; "refused {reason}: the last instruction is no exit"),
    }
}

/// Returns why a program is refused at a slot, which a path leads to unless the layout is faulty there.
fn refusal_note(
    alloc: Global,
    program: &Program,
    path: &[Pending<Interval>],
    insn: Insn,
    refusal: Refusal,
) -> Result<String, AllocError> {
    let (reason, slot) = match refusal {
        Refusal::Stuck { reason, slot } => (reason, slot),
        Refusal::Budget { .. } => {
            return format!(in alloc; "refused V17: {BUDGET} steps are made, as many as may be");
        }
        Refusal::Memory { .. } => return format!(in alloc; "refused V19"),
    };
    match path.last() {
        None => fault_note(alloc, program, slot, insn, reason),
        Some(last) => {
            let mut note = String::new(alloc);
            push_refusal(&mut note, &last.state, insn, reason)?;
            Ok(note)
        }
    }
}

/// Returns the slot that a refusal names.
pub(crate) fn slot_of(refusal: Refusal) -> usize
    ensures { result ≡ refusal_slot refusal }
{
    match refusal {
        Refusal::Stuck { slot, .. } | Refusal::Budget { slot } | Refusal::Memory { slot } => slot,
    }
}

/// Prints the instruction at which a program is refused, and why.
pub(crate) fn print_refusal<W: Write>(
    alloc: Global,
    program: &Program,
    path: &[Pending<Interval>],
    refusal: Refusal,
    out: &mut W,
) -> Result<(), ExplainError>
    ensures { OnOk result (AppendsLines (step_at program.now (refusal_slot refusal))
        (W.contents out.old) (W.contents out.new)) }
{
    let slot = slot_of(refusal);
    match program.fetch(slot) {
        Fetched::Begins(insn) => {
            let note = refusal_note(alloc, program, path, insn, refusal)?;
            print_line(alloc, out, slot, insn, note.as_str())
        }
        _ => Ok(()),
    }
}

/// Returns the slot at which most steps were made, and their number; the first one where there are several.
fn busiest(made: &[u32]) -> (usize, u32) {
    let mut slot = 0;
    let mut most = 0;
    for (i, count) in made.iter().enumerate() {
        if most < *count {
            slot = i;
            most = *count;
        }
    }
    (slot, most)
}

/// Prints how many steps were made at a slot.
fn print_count<W: Write>(out: &mut W, slot: usize, count: u32) -> Result<(), ExplainError>
    ensures { OnOk result (Appends (W.contents out.old) (W.contents out.new)
        (codes "slot " ++ decimal slot ++ codes ": " ++ decimal count ++ codes " steps\n")) }
{
    line!(out; "slot {slot}: {count} steps")
}

/// Prints the slots at which most steps were made, at most ten, and forgets their counts.
pub(crate) fn print_busiest<W: Write>(made: &mut [u32], out: &mut W) -> Result<(), ExplainError>
    ensures { OnOk result (AppendsText (W.contents out.old) (W.contents out.new)) }
{
    for _ in 0..10 {
        let (slot, count) = busiest(made);
        if count == 0 {
            return Ok(());
        }
        print_count(out, slot, count)?;
        if let Some(count) = made.get_mut(slot) {
            *count = 0;
        }
    }
    Ok(())
}

/// Returns the first state at a slot, of a list of states.
pub(crate) fn first_at(states: &[Pending<Interval>], slot: usize) -> Option<&Pending<Interval>> {
    states.iter().find(|state| state.slot == slot)
}

/// Returns whether a step was made at a slot.
pub(crate) fn is_reached(firsts: &[Pending<Interval>], slot: usize) -> bool {
    first_at(firsts, slot).is_some()
}

/// Prints the instruction at a slot with the first state there.
fn print_first<W: Write>(
    alloc: Global,
    firsts: &[Pending<Interval>],
    slot: usize,
    insn: Insn,
    out: &mut W,
) -> Result<(), ExplainError> {
    match first_at(firsts, slot) {
        Some(first) => {
            let note = state_note(alloc, &first.state)?;
            print_line(alloc, out, slot, insn, note.as_str())
        }
        None => print_line(alloc, out, slot, insn, "never reached"),
    }
}

/// Prints each instruction of a program with the first state there.
pub(crate) fn print_firsts<W: Write>(
    alloc: Global,
    program: &Program,
    firsts: &[Pending<Interval>],
    out: &mut W,
) -> Result<(), ExplainError> {
    for slot in 0..MAX_SLOTS {
        if let Fetched::Begins(insn) = program.fetch(slot) {
            print_first(alloc, firsts, slot, insn, out)?;
        }
    }
    Ok(())
}

/// Returns the first byte of a slot of a file.
fn opcode_at(file: &[u8], slot: usize) -> u8 {
    match file.get(slot.saturating_mul(8)) {
        Some(opcode) => *opcode,
        None => 0,
    }
}

/// Prints why a file encodes no program.
pub(crate) fn print_fault<W: Write>(
    file: &[u8],
    refusal: DecodeError,
    out: &mut W,
) -> Result<(), ExplainError> {
    let bytes = file.len();
    let slots = bytes / 8;
    match refusal {
        DecodeError::Empty => line!(out; "refused {refusal}: the file has no bytes"),
        DecodeError::NotEights if bytes == 1 =>
            line!(out; "refused {refusal}: 1 byte is no multiple of 8"),
        DecodeError::NotEights =>
            line!(out; "refused {refusal}: {bytes} bytes are no multiple of 8"),
        DecodeError::TooLong => line!(out; "refused {refusal}: {slots} slots are more than 4096"),
        DecodeError::Opcode(slot) => {
            let opcode = opcode_at(file, slot);
            line!(out; "refused {refusal}: 0x{opcode:02x} is no opcode")
        }
        DecodeError::Register(_) => line!(out; "refused {refusal}: a register number is above 10"),
        DecodeError::UnusedField(_) => {
            line!(out; "refused {refusal}: a field that is not used is not zero, or one selects nothing")
        }
        DecodeError::WideCut(_) =>
            line!(out; "refused {refusal}: the second slot of lddw is missing"),
        DecodeError::Memory => Ok(()),
    }
}
