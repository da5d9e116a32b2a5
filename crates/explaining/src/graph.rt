//! Draws the blocks of a program and its jumps, as a text in the language DOT of Graphviz.

ghost use Rattle.std.specs.Prelude.{◌≡◌, ◌≤◌, ◌<◌, IfOk};
ghost use Rattle.insn.specs.Encoding.{slot_count};
ghost use Rattle.insn.specs.declared.decoding.TheConstants.{MAX_SLOTS};
ghost use Rattle.explaining.specs.Explained.{IsDrawn, IsDrawnCode};

use crate::changes::state_note;
use crate::error::ExplainError;
use crate::file::searched;
use crate::printing::{first_at, slot_of};
use crate::searching::Explanation;
use crate::text::State;
use insn::{DecodeError, Insn, MAX_SLOTS, decode};
use interval::Interval;
use loader::LoadError;
use semantics::{Branch, Fetched, Program, slot_by};
use std::alloc::{AllocError, Global};
use std::io::Write;
use verifier::{Pending, Refusal, distance};

/// Prints a text.
macro_rules! text {
    ($out:expr; $($text:tt)*) => {
        write!($out, $($text)*).map_err(|_| ExplainError::Output)
    };
}

/// Sets the mark of a slot.
fn mark(marks: &mut [bool], slot: usize) {
    if let Some(mark) = marks.get_mut(slot) {
        *mark = true;
    }
}

/// Returns the mark of a slot.
fn is_marked(marks: &[bool], slot: usize) -> bool {
    match marks.get(slot) {
        Some(mark) => *mark,
        None => false,
    }
}

/// Returns whether an instruction begins at a slot.
fn begins(program: &Program, slot: usize) -> bool {
    match program.fetch(slot) {
        Fetched::Begins(_) => true,
        _ => false,
    }
}

/// Returns the slot of the instruction that a jump leads to, forward or backward, if it is a jump and leads to one.
fn target_of(program: &Program, slot: usize, insn: Insn) -> Option<usize>
    requires { slot < MAX_SLOTS }
{
    let to = slot_by(slot, distance(insn)?)?;
    if begins(program, to) { Some(to) } else { None }
}

/// Returns whether a block ends with an instruction, wherever jumps lead.
fn ends_block(insn: Insn) -> bool {
    match insn {
        Insn::Jump { .. } | Insn::LongJump { .. } | Insn::JumpIf { .. } | Insn::Exit => true,
        _ => false,
    }
}

/// Marks where blocks begin because of an instruction: after a jump or an exit, and at the target of a jump.
fn mark_blocks(program: &Program, starts: &mut [bool], slot: usize, insn: Insn)
    requires { slot < MAX_SLOTS }
{
    if ends_block(insn) {
        mark(starts, slot + insn.slots());
    }
    if let Some(to) = target_of(program, slot, insn) {
        mark(starts, to);
    }
}

/// Marks the slots at which the blocks of a program begin.
fn block_starts(alloc: Global, program: &Program) -> Result<Vec<bool>, AllocError> {
    let mut starts = vec![in alloc; false; MAX_SLOTS]?;
    mark(&mut starts, 0);
    for slot in 0..MAX_SLOTS {
        if let Fetched::Begins(insn) = program.fetch(slot) {
            mark_blocks(program, &mut starts, slot, insn);
        }
    }
    Ok(starts)
}

/// Returns the slot at which the block of an instruction begins.
fn block_of(starts: &[bool], slot: usize) -> usize {
    let mut at = slot;
    while at > 0 && !is_marked(starts, at) {
        at -= 1;
    }
    at
}

/// Marks the slots of a path, and the block of the instruction that is refused.
fn marked_path(
    alloc: Global,
    starts: &[bool],
    path: &[Pending<Interval>],
    refused: Option<usize>,
) -> Result<Vec<bool>, AllocError> {
    let mut marks = vec![in alloc; false; MAX_SLOTS]?;
    for state in path {
        mark(&mut marks, state.slot);
    }
    if let Some(slot) = refused {
        mark(&mut marks, block_of(starts, slot));
    }
    Ok(marks)
}

/// Returns the slot of the next block, where an instruction is the last one of its block and may continue there.
fn next_block(program: &Program, starts: &[bool], slot: usize, insn: Insn) -> Option<usize>
    requires { slot < MAX_SLOTS }
{
    let next = slot + insn.slots();
    match insn {
        Insn::Jump { .. } | Insn::LongJump { .. } | Insn::Exit => None,
        _ if begins(program, next) && is_marked(starts, next) => Some(next),
        _ => None,
    }
}

/// The states that the verifier has reached.
#[derive(Clone, Copy)]
struct Reached<'a> {
    /// Those of the path to the instruction that is refused; none of an accepted program.
    path: &'a [Pending<Interval>],
    /// The first state of each slot from which a step was made.
    firsts: &'a [Pending<Interval>],
}

/// What the graph of a program is drawn of.
#[derive(Clone, Copy)]
struct Drawing<'a> {
    program: &'a Program,
    /// The marks of the slots at which blocks begin.
    starts: &'a [bool],
    /// The marks of the slots of the path, and of the block of the instruction that is refused.
    marks: &'a [bool],
    reached: Reached<'a>,
}

/// Prints what is known in a state, a line for each part, in the label of a block.
fn print_state<W: Write>(alloc: Global, state: &State, out: &mut W) -> Result<(), ExplainError> {
    let note = state_note(alloc, state)?;
    if note.is_empty() {
        return Ok(());
    }
    for part in note.split("; ") {
        text!(out; "; {part}\\l\\\n")?;
    }
    Ok(())
}

/// Returns the state at a slot that is shown: that of the path to the refusal where it leads there, and else the first
/// one.
fn shown_state<'a>(reached: Reached<'a>, slot: usize) -> Option<&'a Pending<Interval>> {
    match first_at(reached.path, slot) {
        Some(state) => Some(state),
        None => first_at(reached.firsts, slot),
    }
}

/// Prints the beginning of the block at a slot, with what is known there. A block of a path is red.
fn print_beginning<W: Write>(
    alloc: Global,
    drawing: &Drawing<'_>,
    slot: usize,
    out: &mut W,
) -> Result<(), ExplainError> {
    let color = if is_marked(drawing.marks, slot) {
        "color=red, "
    } else {
        ""
    };
    text!(out; "  s{slot} [{color}label=\"\\\n")?;
    match shown_state(drawing.reached, slot) {
        Some(shown) => print_state(alloc, &shown.state, out),
        None => text!(out; "; never reached\\l\\\n"),
    }
}

/// Prints an instruction of a block: before the first one the beginning of the block, and after the last one its end.
fn print_insn<W: Write>(
    alloc: Global,
    drawing: &Drawing<'_>,
    slot: usize,
    insn: Insn,
    out: &mut W,
) -> Result<(), ExplainError>
    requires { slot < MAX_SLOTS }
{
    if is_marked(drawing.starts, slot) {
        print_beginning(alloc, drawing, slot, out)?;
    }
    text!(out; "{insn} ; {slot}\\l\\\n")?;
    let next = slot + insn.slots();
    if begins(drawing.program, next) && !is_marked(drawing.starts, next) {
        return Ok(());
    }
    text!(out; "\"];\n")
}

/// Prints the blocks of a program. Those of a path are red.
fn print_blocks<W: Write>(
    alloc: Global,
    drawing: &Drawing<'_>,
    out: &mut W,
) -> Result<(), ExplainError> {
    for slot in 0..MAX_SLOTS {
        if let Fetched::Begins(insn) = drawing.program.fetch(slot) {
            print_insn(alloc, drawing, slot, insn, out)?;
        }
    }
    Ok(())
}

/// Returns whether a path leads from one slot to another one.
fn is_followed(path: &[Pending<Interval>], from: usize, to: usize) -> bool {
    for i in 1..path.len() {
        if path[i - 1].slot == from && path[i].slot == to {
            return true;
        }
    }
    false
}

/// Returns the attributes of an arrow. Of a conditional jump it has the branch.
fn arrow_attributes(insn: Insn, branch: Branch, is_red: bool) -> &'static str {
    match (insn, branch) {
        (Insn::JumpIf { .. }, Branch::Taken) if is_red => " [color=red, label=taken]",
        (Insn::JumpIf { .. }, Branch::Taken) => " [label=taken]",
        (Insn::JumpIf { .. }, Branch::NotTaken) if is_red => " [color=red, label=\"not taken\"]",
        (Insn::JumpIf { .. }, Branch::NotTaken) => " [label=\"not taken\"]",
        _ if is_red => " [color=red]",
        _ => "",
    }
}

/// Prints the arrow of a branch of an instruction, from its block to that at a slot. It is red where a path leads
/// there.
fn print_arrow<W: Write>(
    drawing: &Drawing<'_>,
    from: (usize, Insn),
    branch: Branch,
    to: usize,
    out: &mut W,
) -> Result<(), ExplainError> {
    let (slot, insn) = from;
    let block = block_of(drawing.starts, slot);
    let is_red = is_followed(drawing.reached.path, slot, to);
    let attributes = arrow_attributes(insn, branch, is_red);
    text!(out; "  s{block} -> s{to}{attributes};\n")
}

/// Prints the arrows of an instruction.
fn print_arrows_of<W: Write>(
    drawing: &Drawing<'_>,
    from: (usize, Insn),
    out: &mut W,
) -> Result<(), ExplainError>
    requires { from.0 < MAX_SLOTS }
{
    let (slot, insn) = from;
    if let Some(to) = next_block(drawing.program, drawing.starts, slot, insn) {
        print_arrow(drawing, from, Branch::NotTaken, to, out)?;
    }
    if let Some(to) = target_of(drawing.program, slot, insn) {
        print_arrow(drawing, from, Branch::Taken, to, out)?;
    }
    Ok(())
}

/// Prints the arrows between the blocks of a program.
fn print_arrows<W: Write>(drawing: &Drawing<'_>, out: &mut W) -> Result<(), ExplainError> {
    for slot in 0..MAX_SLOTS {
        if let Fetched::Begins(insn) = drawing.program.fetch(slot) {
            print_arrows_of(drawing, (slot, insn), out)?;
        }
    }
    Ok(())
}

/// Prints the graph of a program, with the path to the instruction that is refused, if one is.
fn print_graph<W: Write>(
    alloc: Global,
    program: &Program,
    reached: Reached<'_>,
    refused: Option<usize>,
    out: &mut W,
) -> Result<(), ExplainError> {
    let starts = block_starts(alloc, program)?;
    let marks = marked_path(alloc, &starts, reached.path, refused)?;
    let drawing = Drawing {
        program,
        starts: &starts,
        marks: &marks,
        reached,
    };
    text!(out; "digraph program {{\n  node [shape=box, fontname=monospace];\n")?;
    print_blocks(alloc, &drawing, out)?;
    print_arrows(&drawing, out)?;
    text!(out; "}}\n")
}

/// Draws a program, and returns why it is refused.
fn draw<W: Write>(
    alloc: Global,
    code: &[Insn],
    out: &mut W,
) -> Result<Option<Refusal>, ExplainError>
    requires { slot_count code.now ≤ MAX_SLOTS }
    ensures { IfOk result (IsDrawnCode code.now) }
{
    let Explanation {
        verdict,
        path,
        firsts,
        ..
    } = searched(alloc, code)?;
    let program = Program::new(alloc, code)?;
    let firsts = &firsts;
    match verdict {
        Ok(_) => {
            let reached = Reached { path: &[], firsts };
            print_graph(alloc, &program, reached, None, out)?;
            Ok(None)
        }
        Err(Refusal::Memory { .. }) => Err(ExplainError::Memory),
        Err(refusal) => {
            let path = &path;
            let reached = Reached { path, firsts };
            print_graph(alloc, &program, reached, Some(slot_of(refusal)), out)?;
            Ok(Some(refusal))
        }
    }
}

/// Draws the program in a file, and returns why the loader refuses it.
fn draw_file<W: Write>(
    alloc: Global,
    file: &[u8],
    out: &mut W,
) -> Result<Option<LoadError>, ExplainError>
    ensures { IfOk result (IsDrawn file.now) }
{
    let code = match decode(alloc, file) {
        Ok(code) => code,
        Err(DecodeError::Memory) => return Err(ExplainError::Memory),
        Err(refusal) => return Ok(Some(LoadError::Decode(refusal))),
    };
    match draw(alloc, &code, out)? {
        None => Ok(None),
        Some(refusal) => Ok(Some(LoadError::Verify(refusal))),
    }
}

/// Prints the blocks of the program in a file and its jumps, as a text in the language DOT, and returns why the loader
/// refuses the file, `None` where it accepts it. Each block has its instructions with their slots, and before them what
/// is known in the first state that reached it. Of a program that is refused, the path to the refusal is red, and its
/// blocks have what is known on it. Of a file that encodes no program nothing is printed.
///
/// # Errors
/// Where the output can't be written, or memory runs out.
pub fn graph_file<W: Write>(
    alloc: Global,
    file: &[u8],
    out: &mut W,
) -> Result<Option<LoadError>, ExplainError>
    ensures { IfOk result (IsDrawn file.now) }
{
    let refusal = draw_file(alloc, file, out)?;
    out.flush().map_err(|_| ExplainError::Output)?;
    Ok(refusal)
}
