//! Writes the lines of a source beside the slots that a report names.

use crate::source_map::SourceMap;
use basics::decimal::number;
use std::alloc::{AllocError, Global};

/// The ending of a line of a label in a graph: DOT ends the line that is drawn at `\l`, and continues a quoted string
/// after a backslash at the end of a line.
const LABEL_ENDING: &str = "\\l\\";

/// The ending of the line of a graph that begins the label of a block.
const LABEL_BEGINNING: &str = "label=\"\\";

/// What a line of a report means for the lines of the source.
#[derive(Clone, Copy, Debug, PartialEq, Eq)]
enum Meaning {
    /// It names the slot of an instruction: it begins with the slot, or ends in it as a comment does.
    Instruction(usize),
    /// It names the slot of a refusal, or of where a run is stuck: it ends in ` at ` and the slot.
    Refusal(usize),
    /// It begins the label of a block, whose first instruction has its place even where that of the block before has
    /// the same.
    Block,
    /// It names no slot.
    Other,
}

/// Splits a line of a report into its text and the ending that it has in the label of a block; the ending of others is
/// empty.
fn split_ending(line: &str) -> (&str, &str) {
    match line.strip_suffix(LABEL_ENDING) {
        Some(text) => (text, LABEL_ENDING),
        None => (line, ""),
    }
}

/// Returns the slot that a word is.
fn slot_of(word: &str) -> Option<usize> {
    usize::try_from(number(word.as_bytes())?).ok()
}

/// Returns the slot that a text begins with.
fn first_slot(text: &str) -> Option<usize> {
    let (first, _) = text.split_once(' ')?;
    slot_of(first)
}

/// Returns the slot that a text ends in, and what is before it.
fn last_slot(text: &str) -> Option<(&str, usize)> {
    let (before, last) = text.rsplit_once(' ')?;
    Some((before, slot_of(last)?))
}

/// Returns what the text of a line means.
fn meaning_of(text: &str) -> Meaning {
    if text.ends_with(LABEL_BEGINNING) {
        return Meaning::Block;
    }
    if let Some(slot) = first_slot(text) {
        return Meaning::Instruction(slot);
    }
    match last_slot(text) {
        Some((before, slot)) if before.ends_with(" ;") => Meaning::Instruction(slot),
        Some((before, slot)) if before.ends_with(" at") => Meaning::Refusal(slot),
        _ => Meaning::Other,
    }
}

/// Returns the place of the line of the source that the instruction at a slot is from, if the map has one.
fn place_of<'a>(map: &SourceMap<'a>, slot: usize) -> Option<&'a str> {
    map.line(slot).map(|line| line.place)
}

/// Appends a place. In a label, which is a quoted string of DOT, a backslash is before each `"` and each `\` of the
/// place.
fn push_place(text: &mut String, place: &str, in_label: bool) -> Result<(), AllocError> {
    if !in_label {
        return text.push_str(place);
    }
    for c in place.chars() {
        if c == '"' || c == '\\' {
            text.push('\\')?;
        }
        text.push(c)?;
    }
    Ok(())
}

/// Returns a report with the line of the source, `FILE:LINE`, behind each line that names a slot: once for instructions
/// one after the other that are from one line, in a graph once in each block, and always where a program is refused, or
/// a run is stuck.
///
/// # Errors
/// Where memory runs out.
pub fn annotated(alloc: Global, map: &SourceMap<'_>, report: &str) -> Result<String, AllocError> {
    let mut text = String::new(alloc);
    let mut last = None;
    for line in report.lines() {
        let (line, ending) = split_ending(line);
        text.push_str(line)?;
        match meaning_of(line) {
            Meaning::Instruction(slot) => {
                let place = place_of(map, slot);
                if let Some(place) = place
                    && last != Some(place)
                {
                    text.push_str(" ; ")?;
                    push_place(&mut text, place, !ending.is_empty())?;
                }
                last = place;
            }
            Meaning::Refusal(slot) => {
                if let Some(place) = place_of(map, slot) {
                    text.push_str(", ")?;
                    text.push_str(place)?;
                }
            }
            Meaning::Block => last = None,
            Meaning::Other => {}
        }
        text.push_str(ending)?;
        text.push('\n')?;
    }
    Ok(text)
}
