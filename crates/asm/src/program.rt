//! The assembler: the slots of the labels first, then the instructions.

ghost use Rattle.std.specs.Prelude.{◌≡◌, ◌∷◌, ◌≤◌, ◌⊎◌, List, ℕ, Option, option_map, length, IfOk, IfErr, MatchResult, IsErrAnd};
ghost use Rattle.asm.specs.Lines.{lines_of};
ghost use Rattle.asm.specs.Statements.{Statement};
ghost use Rattle.asm.specs.Programs.{slots_in, slot_of_label, linked_one, Names, AreInsnLines, IsAssembled, IsRefusedText};
ghost use Rattle.asm.specs.declared.refusal.AsmError.TheVariants.{Memory};
ghost use Rattle.insn.specs.Encoding.{slot_count, encodings, AllFit};
ghost use Rattle.insn.specs.Spelling.{listing};
ghost use Rattle.asm.specs.Parsing.{said_in};
ghost use Rattle.asm.specs.Scanning.{following_lines, lines_left, TextBegins, Fails, Holds, IsTableOf, IsHalted, IsCodeOf, AreLinesOf, IsBuilt};

use crate::refusal::AsmError;
use crate::statement::{Line, parse};
use crate::table::Table;
use insn::{Insn, MAX_SLOTS, encode};
use std::alloc::Global;

/// Which line of a text writes an instruction.
#[derive(Clone, Copy, Debug, PartialEq, Eq)]
pub struct InsnLine {
    /// The slot of the instruction.
    pub slot: usize,
    /// The number of the line, from 1 on.
    pub line: usize,
}

/// A program that was assembled, and the lines that write it.
#[derive(Drop)]
pub struct Assembled {
    /// The encoding of the program.
    pub bytes: Vec<u8>,
    /// The slot and the line of each instruction, in their order.
    pub lines: Vec<InsnLine>,
}

/// The instructions of a text, and the lines that write them.
#[derive(Drop)]
struct NumberedCode {
    code: Vec<Insn>,
    lines: Vec<InsnLine>,
}

/// Returns the first line of a text, and what follows its line feed, if it has one.
fn first_line(text: &str) -> (&str, Option<&str>)
    ensures split { lines_of text.now ≡ result.0.now ∷ following_lines result.1 }
    ensures fewer { lines_left result.1 ≤ length text.now }
{
    match text.split_once('\n') {
        Some((line, rest)) => (line, Some(rest)),
        None => (text, None),
    }
}

/// Reads the first line of a text, which has this number. Returns what it says, and what follows its line feed.
///
/// # Errors
/// The fault of the line, which is `Syntax` or `Range`.
fn next_line(text: &str, number: usize) -> Result<(Line<'_>, Option<&str>), AsmError>
    ensures read { IfOk result (λ r. TextBegins text.now (said_in r.0) (following_lines r.1)) }
    ensures fewer { IfOk result (λ r. lines_left r.1 ≤ length text.now) }
    ensures refused { IfErr result (Fails text.now number) }
{
    let (line, after) = first_line(text);
    let line = parse(line.as_bytes()).map_err(|fault| fault.at(number))?;
    Ok((line, after))
}

/// Reads all lines, and returns the table of the labels.
/// See docs/DESIGN.md, "A text is read twice".
///
/// # Errors
/// The first fault of a line, `TooLong` where there is none and the slots are too many, or `Memory`.
fn labels<'a>(alloc: Global, text: &'a str) -> Result<Table<'a>, AsmError>
    ensures read { IfOk result (IsTableOf text.now) }
    ensures refused { IfErr result (IsHalted (lines_of text.now)) }
{
    let mut table = Table::new(alloc);
    let mut number = 0;
    let mut rest = Some(text);
    while let Some(text) = rest {
        number += 1;
        let (line, after) = next_line(text, number)?;
        table.add(line, number)?;
        rest = after;
    }
    if table.slots > MAX_SLOTS {
        return Err(AsmError::TooLong);
    }
    Ok(table)
}

/// Returns the instruction at a slot with the distance to its label, if it names one; `None` where the table lacks
/// the label.
fn linked(table: &Table<'_>, insn: Insn, label: Option<&[u8]>, slot: usize) -> Option<Insn>
    requires slot { slot ≤ MAX_SLOTS }
    requires table { (said : List (Option Statement)) × Holds table.now said × (slots_in said ≤ MAX_SLOTS) }
    ensures { (said : List (Option Statement)) → Holds table.now said → slots_in said ≤ MAX_SLOTS
        → result ≡ linked_one (slot_of_label said) slot insn (option_map (λ name. name.now) label.entry) }
{
    let Some(name) = label else {
        return Some(insn);
    };
    let target = *table.label_slots.get(name)?;
    Some(insn.with_distance(target as i16 - (slot + 1) as i16))
}

/// Returns the instructions of a text whose lines have no fault, with the distances of the jumps to labels, and their
/// lines.
///
/// # Errors
/// `UnknownLabel` at the first line that names an unknown one, or `Memory`.
fn link(alloc: Global, text: &str, table: &Table<'_>) -> Result<NumberedCode, AsmError>
    requires { IsTableOf text.now table.now }
    ensures code { IfOk result (λ linked. IsCodeOf text.now linked.code.items) }
    ensures lines { IfOk result (λ linked. AreLinesOf text.now linked.lines.items) }
    ensures refused { IfErr result (IsHalted (lines_of text.now)) }
{
    let mut code = Vec::new(alloc);
    let mut lines = Vec::new(alloc);
    let mut slot = 0;
    let mut number = 0;
    let mut rest = Some(text);
    while let Some(text) = rest {
        number += 1;
        let (line, after) = next_line(text, number)?;
        if let Line::Insn(insn, label) = line {
            let jump = linked(table, insn, label, slot).ok_or(AsmError::UnknownLabel(number))?;
            code.push(jump)?;
            lines.push(InsnLine { slot, line: number })?;
            slot += insn.slots();
        }
        rest = after;
    }
    Ok(NumberedCode { code, lines })
}

/// Assembles a text.
/// See docs/DECISIONS.md, "A text is refused line by line".
///
/// # Errors
/// The first fault of a line; else `TooLong`; else the first unknown label; or `Memory`.
fn build(alloc: Global, text: &str) -> Result<Assembled, AsmError>
    ensures built { IfOk result (λ assembled. IsBuilt text.now assembled.bytes.items) }
    ensures lines { IfOk result (λ assembled. AreLinesOf text.now assembled.lines.items) }
    ensures refused { IfErr result (IsHalted (lines_of text.now)) }
{
    let table = labels(alloc, text)?;
    let NumberedCode { code, lines } = link(alloc, text, &table)?;
    let bytes = encode(alloc, &code)?;
    Ok(Assembled { bytes, lines })
}

/// Assembles a text, and finds the line of each instruction.
///
/// # Errors
/// The first fault of a line; else `TooLong`; else the first unknown label; or `Memory`.
pub fn assemble_with_lines(alloc: Global, text: &str) -> Result<Assembled, AsmError>
    ensures found { IfOk result (λ v. IsAssembled text.now v.bytes.items) }
    ensures lines { IfOk result (λ v. AreInsnLines text.now v.lines.items) }
    ensures only { (code : List Insn) → Names text.now code → slot_count code ≤ MAX_SLOTS
        → MatchResult result (λ v. v.bytes.items ≡ encodings code) (λ e. e ≡ Memory) }
    ensures refused { IfErr result (λ e. (e ≡ Memory) ⊎ IsRefusedText text.now e) }
    ensures exact { (e : AsmError) → IsRefusedText text.now e → IsErrAnd result (λ f. (f ≡ e) ⊎ (f ≡ Memory)) }
{
    build(alloc, text)
}

/// Assembles a text.
///
/// # Errors
/// The first fault of a line; else `TooLong`; else the first unknown label; or `Memory`.
pub fn assemble(alloc: Global, text: &str) -> Result<Vec<u8>, AsmError>
    ensures found { IfOk result (λ bytes. IsAssembled text.now bytes.items) }
    ensures only { (code : List Insn) → Names text.now code → slot_count code ≤ MAX_SLOTS
        → MatchResult result (λ v. v.items ≡ encodings code) (λ e. e ≡ Memory) }
    ensures refused { IfErr result (λ e. (e ≡ Memory) ⊎ IsRefusedText text.now e) }
    ensures exact { (e : AsmError) → IsRefusedText text.now e → IsErrAnd result (λ f. (f ≡ e) ⊎ (f ≡ Memory)) }
{
    Ok(assemble_with_lines(alloc, text)?.bytes)
}

/// States that a text names at most one program.
pub fn law_texts_name_one_program()
    ensures { (text : List ℕ) (code other : List Insn) → Names text code → Names text other → code ≡ other }
{}

/// States that a text has at most one refusal.
pub fn law_refusals_are_unique()
    ensures { (text : List ℕ) (d e : AsmError) → IsRefusedText text d → IsRefusedText text e → d ≡ e }
{}

/// States that the text of a program names it.
pub fn law_listings_name_their_program()
    ensures { (code : List Insn) → AllFit code → Names (listing code) code }
{}
