//! Source maps: which line of a source each instruction of a program is from.
//!
//! A map is lines `SLOT FILE:LINE[ TEXT]`, in the order of their slots.
//! See docs/DECISIONS.md, "A source map is a text beside a program".

use asm::InsnLine;
use basics::decimal::number;
use insn::{DecodeError, Insn, MAX_SLOTS, decode};
use ordering::Places;
use std::alloc::{AllocError, Global};
use std::fmt::{self, Write};
use thiserror::Error;

/// A line of a source.
#[derive(Clone, Copy, Debug, PartialEq, Eq)]
pub struct SourceLine<'a> {
    /// Its file and its number, `FILE:LINE`. There is no blank in it.
    pub place: &'a str,
    /// Its text, if the map has it.
    pub text: Option<&'a str>,
}

/// Why a text is no source map, or not that of a program. Displays as what stands after `refused lines`.
#[derive(Clone, Copy, Debug, PartialEq, Eq, Error)]
pub enum MapError {
    /// The line of this number, from 1 on, isn't `SLOT FILE:LINE[ TEXT]`, or its slot isn't after those before it.
    #[error("at line {0}")]
    Line(usize),
    /// No instruction of the program begins at this slot.
    #[error("of another program: no instruction begins at slot {0}")]
    NoInstruction(usize),
    /// The map ends before the last instruction of the program, which begins at this slot.
    #[error("of another program: slot {0} isn't there")]
    TooShort(usize),
    /// Memory ran out.
    #[error("memory")]
    Memory,
}

impl From<AllocError> for MapError {
    fn from(_: AllocError) -> MapError {
        MapError::Memory
    }
}

/// Returns whether a word is the place of a line: `FILE:LINE`.
fn is_place(word: &str) -> bool {
    match word.rsplit_once(':') {
        Some((file, line)) => !file.is_empty() && number(line.as_bytes()).is_some(),
        None => false,
    }
}

/// Returns the slot and the line of the source that a line of a map writes.
fn entry_of(line: &str) -> Option<(usize, SourceLine<'_>)> {
    let (slot, source) = line.split_once(' ')?;
    let slot = usize::try_from(number(slot.as_bytes())?).ok()?;
    let (place, text) = match source.split_once(' ') {
        Some((place, text)) => (place, Some(text)),
        None => (source, None),
    };
    if MAX_SLOTS <= slot || !is_place(place) {
        return None;
    }
    Some((slot, SourceLine { place, text }))
}

/// Which line of a source each instruction of a program is from. Displays as the text that [`SourceMap::parse`] reads.
#[derive(Drop)]
pub struct SourceMap<'a> {
    /// By their slots.
    lines: Vec<Option<SourceLine<'a>>>,
}

impl<'a> SourceMap<'a> {
    /// Returns the map that a text writes.
    ///
    /// # Errors
    /// `Line` for the first line that is wrong; `Memory`.
    pub fn parse(alloc: Global, text: &'a str) -> Result<SourceMap<'a>, MapError> {
        let mut lines = Vec::new(alloc);
        for (number, line) in (1usize..).zip(text.lines()) {
            let Some((slot, source)) = entry_of(line) else {
                return Err(MapError::Line(number));
            };
            if slot < lines.len() {
                return Err(MapError::Line(number));
            }
            lines.resize(slot, None)?;
            if lines.push(Some(source)).is_err() {
                return Err(MapError::Memory);
            }
        }
        Ok(SourceMap { lines })
    }

    /// Returns the map that a text writes, which may be that of the program in a file, if there is one.
    ///
    /// # Errors
    /// As those of [`SourceMap::parse`] and [`SourceMap::check`].
    pub fn of_file(alloc: Global, text: &'a str, file: &[u8]) -> Result<SourceMap<'a>, MapError> {
        let map = SourceMap::parse(alloc, text)?;
        match decode(alloc, file) {
            Ok(code) => map.check(&code)?,
            Err(DecodeError::Memory) => return Err(MapError::Memory),
            Err(_) => {}
        }
        Ok(map)
    }

    /// Returns the line of the source that the instruction at a slot is from, if the map has one.
    pub fn line(&self, slot: usize) -> Option<SourceLine<'a>> {
        *self.lines.get(slot)?
    }

    /// Checks that the map may be that of a program: an instruction begins at each of its slots, the last one at the
    /// last.
    ///
    /// # Errors
    /// `NoInstruction` or `TooShort`.
    pub fn check(&self, code: &[Insn]) -> Result<(), MapError> {
        let mut slot = 0usize;
        let mut last = None;
        for insn in code {
            last = Some(slot);
            let next = slot.saturating_add(insn.slots());
            if insn.slots() == 2 && self.line(slot.saturating_add(1)).is_some() {
                return Err(MapError::NoInstruction(slot.saturating_add(1)));
            }
            slot = next;
        }
        if slot < self.lines.len() {
            return Err(MapError::NoInstruction(self.lines.len().saturating_sub(1)));
        }
        match last {
            Some(last) if self.lines.len() <= last => Err(MapError::TooShort(last)),
            _ => Ok(()),
        }
    }

    /// Returns the map of a program that was put in order: each line is that of the slot which its instruction has now.
    ///
    /// # Errors
    /// Where memory runs out.
    pub fn moved(&self, alloc: Global, places: &Places) -> Result<SourceMap<'a>, AllocError> {
        let mut lines = Vec::new(alloc);
        lines.resize(MAX_SLOTS, None)?;
        let mut end = 0usize;
        for (slot, line) in self.lines.iter().enumerate() {
            if let Some(place) = places.place(slot)
                && let Some(moved) = lines.get_mut(place)
                && line.is_some()
            {
                *moved = *line;
                end = end.max(place.saturating_add(1));
            }
        }
        lines.truncate(end);
        Ok(SourceMap { lines })
    }
}

impl fmt::Display for SourceMap<'_> {
    fn fmt<W: fmt::Write>(&self, f: &mut fmt::Formatter<W>) -> fmt::Result {
        for (slot, line) in self.lines.iter().enumerate() {
            if let Some(SourceLine { place, text }) = line {
                match text {
                    Some(text) => writeln!(f, "{slot} {place} {text}")?,
                    None => writeln!(f, "{slot} {place}")?,
                }
            }
        }
        Ok(())
    }
}

/// Appends the line of a map without a text.
fn push_place(map: &mut String, slot: usize, name: &str, line: usize) -> Result<(), AllocError> {
    write!(map, "{slot} {name}:{line}")?;
    Ok(())
}

/// Returns the text of the source map of a program that was assembled of a text in a file of this name.
///
/// # Errors
/// Where memory runs out.
pub fn map_of_text(
    alloc: Global,
    name: &str,
    text: &str,
    lines: &[InsnLine],
) -> Result<String, AllocError> {
    let name = name.replace(alloc, ' ', "_")?;
    let mut map = String::new(alloc);
    let mut rest = lines.iter();
    let mut next = rest.next();
    for (number, line) in (1usize..).zip(text.lines()) {
        if let Some(at) = next
            && at.line == number
        {
            push_place(&mut map, at.slot, &name, number)?;
            map.push(' ')?;
            map.push_str(line.trim())?;
            map.push('\n')?;
            next = rest.next();
        }
    }
    Ok(map)
}

/// Returns the text of the source map of a program in a file of this name, whose source are its own slots.
///
/// # Errors
/// Where memory runs out.
pub fn map_of_slots(alloc: Global, name: &str, code: &[Insn]) -> Result<String, AllocError> {
    let name = name.replace(alloc, ' ', "_")?;
    let mut map = String::new(alloc);
    let mut slot = 0usize;
    for insn in code {
        push_place(&mut map, slot, &name, slot)?;
        map.push('\n')?;
        slot = slot.saturating_add(insn.slots());
    }
    Ok(map)
}
