//! Rows of explanations: `explain`.

use crate::line::ProgramRow;
use crate::program::{file_of, joined};
use anyhow::{Result, bail};
use explaining::{Explained, explain_file};
use std::alloc::Global;

/// Explains a file, at a slot if one is given, and returns the lines that are printed. One of them says `refused` where
/// the file is refused, and none where it is accepted.
///
/// # Errors
/// Where the slot is no number, the program is refused by the assembler, or memory runs out.
pub fn explained(alloc: Global, row: &ProgramRow<'_>) -> Result<String> {
    let (slot, program) = row.parts();
    let slot = if slot.is_empty() {
        None
    } else {
        Some(slot.parse::<usize>()?)
    };
    let file = file_of(alloc, program)?;
    let mut out = Vec::new(alloc);
    let found = explain_file(alloc, &file, slot, &mut out)?;
    let lines = joined(alloc, &String::from_utf8(out)?, " / ")?;
    let is_refused = found == Explained::Refused;
    if is_refused == lines.contains("refused ") {
        Ok(lines)
    } else {
        Ok(format!(in alloc; "{found:?} / {lines}")?)
    }
}

/// Returns what a run of a program costs at most, and what its verification took, as `explain` prints them.
///
/// # Errors
/// Where the program is refused by the assembler or the loader, or memory runs out.
pub fn cost(alloc: Global, row: &ProgramRow<'_>) -> Result<String> {
    let file = file_of(alloc, row.given)?;
    let mut out = Vec::new(alloc);
    match explain_file(alloc, &file, None, &mut out)? {
        Explained::Accepted(cost, effort) => Ok(format!(in alloc; "{cost}, {effort}")?),
        Explained::Refused => bail!("the program is refused"),
    }
}
