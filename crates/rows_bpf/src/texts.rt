//! Rows of texts and of encoded instructions: `assemble`, `reassemble` and `decode`.

ghost use Rattle.std.specs.Prelude.{◌≡◌, ◌≤◌, MatchResult};
ghost use Rattle.insn.specs.Encoding.{AllFit, encodings, slot_count};
ghost use Rattle.insn.specs.declared.decoding.TheConstants.{MAX_SLOTS};
ghost use Rattle.asm.specs.declared.refusal.AsmError.TheVariants.{Memory};

use crate::line::ProgramRow;
use crate::program::{bytes_of, joined};
use anyhow::{Context, Result, bail};
use asm::{AsmError, assemble};
use basics::streams::Output;
use disasm::disassemble;
use insn::{Insn, decode, encode};
use machine::Sink;
use std::alloc::{AllocError, Global};

/// The bytes of a slot.
const SLOT_BYTES: usize = 8;

/// Returns the character that a letter after a backslash stands for.
fn escaped(c: char) -> Result<char> {
    match c {
        'n' => Ok('\n'),
        't' => Ok('\t'),
        'r' => Ok('\r'),
        '\\' | '"' => Ok(c),
        _ => bail!("no such escape: {c}"),
    }
}

/// Returns the text in quotation marks, with `\n`, `\t`, `\r`, `\"` and `\\` as the characters that they stand for.
///
/// # Errors
/// Where it isn't in quotation marks, an escape is unknown, or memory runs out.
pub fn unquoted(alloc: Global, quoted: &str) -> Result<String> {
    let text = quoted
        .strip_prefix('"')
        .and_then(|rest| rest.strip_suffix('"'));
    let mut out = String::new(alloc);
    let mut is_escaped = false;
    for c in text.context("a text is in quotation marks")?.chars() {
        if is_escaped {
            out.push(escaped(c)?)?;
            is_escaped = false;
        } else if c == '\\' {
            is_escaped = true;
        } else {
            out.push(c)?;
        }
    }
    Ok(out)
}

/// Returns the slots of a program in hexadecimal digits, with blanks between them.
fn slots_text(alloc: Global, file: &[u8]) -> Result<String> {
    let mut out = String::new(alloc);
    for slot in file.chunks(SLOT_BYTES) {
        if !out.is_empty() {
            out.push(' ')?;
        }
        out.push_str(&hex::encode(alloc, slot)?)?;
    }
    if out.is_empty() {
        out.push_str("empty")?;
    }
    Ok(out)
}

/// Assembles a text, and returns its slots or its refusal.
///
/// # Errors
/// Where the text isn't in quotation marks, or memory runs out.
pub fn assembled(alloc: Global, row: &ProgramRow<'_>) -> Result<String> {
    let text = unquoted(alloc, row.given)?;
    match assemble(alloc, &text) {
        Ok(file) => slots_text(alloc, &file),
        Err(refusal) => Ok(format!(in alloc; "{refusal}")?),
    }
}

/// Writes a program as text and assembles that: the result is its encoding, unless memory runs out.
///
/// # Errors
/// Where memory runs out.
#[tactic(auto, using(asm::specs::laws::Listing::listing_names))]
fn read_back(alloc: Global, code: &[Insn]) -> Result<Vec<u8>, AsmError>
    requires fit { AllFit code.now }
    requires few { slot_count code.now ≤ MAX_SLOTS }
    ensures { MatchResult result (λ v. v.items ≡ encodings code.now) (λ e. e ≡ Memory) }
{
    let text = disassemble(alloc, code)?;
    assemble(alloc, text.as_str())
}

/// Assembles a text, and returns whether its program is the same by way of its own text, and by way of its
/// instructions.
///
/// # Errors
/// Where the text isn't in quotation marks or is refused, or memory runs out.
pub fn reassembled(alloc: Global, row: &ProgramRow<'_>) -> Result<String> {
    let text = unquoted(alloc, row.given)?;
    let file = assemble(alloc, &text)?;
    let code = decode(alloc, &file)?;
    let answer = if read_back(alloc, &code)?.as_slice() != file.as_slice() {
        "another text"
    } else if encode(alloc, &code)?.as_slice() != file.as_slice() {
        "another encoding"
    } else {
        "the same"
    };
    Ok(answer.to_string(alloc)?)
}

/// Returns the lines of a trace that visits each instruction, at slot 7.
fn traced(alloc: Global, code: &[Insn]) -> Vec<u8> {
    let mut output = Output::new(Vec::new(alloc));
    for insn in code {
        output.step(7, insn);
    }
    output.into_inner()
}

/// Returns the lines of a text, each after slot 7.
fn with_slot(alloc: Global, text: &str) -> Result<String, AllocError> {
    let mut lines = String::new(alloc);
    for line in text.lines() {
        writeln!(lines, "7 {line}")?;
    }
    Ok(lines)
}

/// Decodes slots, and returns the text of their instructions, which is also what a trace prints of them. Their encoding
/// is the slots, and it is decoded to the same instructions.
///
/// # Errors
/// Where the slots are refused, or memory runs out.
pub fn decoded(alloc: Global, row: &ProgramRow<'_>) -> Result<String> {
    let file = bytes_of(alloc, row.given)?;
    let code = decode(alloc, &file)?;
    let text = disassemble(alloc, &code)?;
    let answer = if traced(alloc, &code).as_slice() != with_slot(alloc, &text)?.as_bytes() {
        "another trace"
    } else if encode(alloc, &code)?.as_slice() != file.as_slice() {
        "another encoding"
    } else if insn::read_back(alloc, &code)?.as_slice() != code.as_slice() {
        "other instructions"
    } else {
        return joined(alloc, &text, "; ");
    };
    Ok(answer.to_string(alloc)?)
}
