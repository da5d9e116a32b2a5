//! Programs and bytes as rows have them.

use anyhow::{Result, bail};
use asm::assemble;
use insn::{Insn, decode};
use std::alloc::Global;

/// Returns the bytes of hexadecimal digits, between which blanks may be. `empty` stands for none.
///
/// # Errors
/// Where there is another character or an odd digit, or memory runs out.
pub fn bytes_of(alloc: Global, digits: &str) -> Result<Vec<u8>> {
    let mut packed = String::new(alloc);
    if digits != "empty" {
        for word in digits.split_whitespace() {
            packed.push_str(word)?;
        }
    }
    Ok(hex::decode(alloc, packed.as_str())?)
}

/// Returns the text of a program that has semicolons between its instructions: each on a line.
fn text_of(alloc: Global, program: &str) -> Result<String> {
    let mut text = String::new(alloc);
    for (i, insn) in program.split(';').enumerate() {
        if i > 0 {
            text.push('\n')?;
        }
        text.push_str(insn.trim())?;
    }
    Ok(text)
}

/// Returns the file of a program: of its instructions, or of its slots after the word `slots`.
///
/// # Errors
/// Where the text is refused, the slots aren't hexadecimal digits, or memory runs out.
pub fn file_of(alloc: Global, program: &str) -> Result<Vec<u8>> {
    if let Some(slots) = program.strip_prefix("slots ") {
        return bytes_of(alloc, slots);
    }
    let text = text_of(alloc, program)?;
    Ok(assemble(alloc, &text)?)
}

/// Returns the instructions of a program. `empty` stands for none.
///
/// # Errors
/// Where the program is refused, or memory runs out.
pub fn code_of(alloc: Global, program: &str) -> Result<Vec<Insn>> {
    if program == "empty" {
        return Ok(Vec::new(alloc));
    }
    let file = file_of(alloc, program)?;
    Ok(decode(alloc, &file)?)
}

/// Returns the one instruction of a text.
///
/// # Errors
/// Where it isn't one instruction, or memory runs out.
pub fn insn_of(alloc: Global, text: &str) -> Result<Insn> {
    match code_of(alloc, text)?.as_slice() {
        [insn] => Ok(*insn),
        _ => bail!("{text} is not one instruction"),
    }
}

/// Returns the lines of a text on one line, with a separator between them. Where the last one isn't ended by a line
/// feed, this is said.
///
/// # Errors
/// Where memory runs out.
pub fn joined(alloc: Global, text: &str, separator: &str) -> Result<String> {
    let mut out = String::new(alloc);
    for (i, line) in text.lines().enumerate() {
        if i > 0 {
            out.push_str(separator)?;
        }
        out.push_str(line)?;
    }
    if !text.is_empty() && !text.ends_with('\n') {
        out.push_str(" without a line feed")?;
    }
    Ok(out)
}
