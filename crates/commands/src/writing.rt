//! The commands `assemble` and `order`: write a program to a file, and its source map to another.

use crate::reading::{note_object_file, read_text, read_whole};
use crate::reports::{map_of, read_lines};
use asm::{AsmError, assemble_with_lines};
use command_line::{NewFiles, OptionError};
use insn::{DecodeError, decode};
use ordering::{FileError, FileInOrder, OrderError, Places, order_file, way_round};
use report::{SourceLine, SourceMap, annotated, map_of_slots, map_of_text};
use semantics::{Fetched, Program};
use setup::{CommandError, REFUSED, status_of, unread};
use std::alloc::{AllocError, Global};
use std::fs;
use std::io::Write;
use std::rt::Files;

/// Writes a program to its file, its source map to another, if one is named, and prints the length of the program.
/// Returns the exit status. Nothing is written where both have one name.
/// See docs/DECISIONS.md, "The output file comes last".
fn write_files<'a, R: Files + Print + AllocGlobal>(
    rt: &R,
    files: NewFiles<'a>,
    program: &[u8],
    map: &str,
) -> Result<u8, CommandError<'a>> {
    let option = "--lines <MAP>";
    if files.lines == Some(files.output) {
        let text = files.output;
        return Err(CommandError::Value(OptionError { option, text }));
    }
    if fs::write(rt, files.output, program).is_err() {
        return Err(CommandError::Unwritable(files.output));
    }
    if let Some(path) = files.lines
        && fs::write(rt, path, map.as_bytes()).is_err()
    {
        return Err(CommandError::Unwritable(path));
    }
    let length = program.len();
    match println!(rt; "wrote {length} bytes") {
        Ok(()) => Ok(0),
        Err(_) => Err(CommandError::Output),
    }
}

/// Assembles the text in a file, and writes the program and its source map.
fn write_assembled<'a, R: Files + Input + Print + AllocGlobal>(
    rt: &R,
    files: NewFiles<'a>,
) -> Result<u8, CommandError<'a>> {
    let text = match read_text(rt, files.input) {
        Ok(text) => text,
        Err(error) => return Err(unread(&error, files.input)),
    };
    let assembled = match assemble_with_lines(rt.alloc(), text.as_str()) {
        Ok(assembled) => assembled,
        Err(AsmError::Memory) => return Err(CommandError::Memory),
        Err(refusal) => return Err(CommandError::Text(refusal)),
    };
    if files.lines.is_none() {
        return write_files(rt, files, &assembled.bytes, "");
    }
    match map_of_text(rt.alloc(), files.input, &text, &assembled.lines) {
        Ok(map) => write_files(rt, files, &assembled.bytes, &map),
        Err(_) => Err(CommandError::Memory),
    }
}

/// Assembles the text in a file, writes the program and its source map, and returns the exit status. A text that is
/// refused writes nothing.
pub fn assemble_file<R: Files + Input + Print + AllocGlobal, E: Write>(
    rt: &R,
    err: &mut E,
    files: NewFiles<'_>,
) -> u8 {
    let ended = write_assembled(rt, files);
    status_of(err, ended)
}

/// Returns the text of the source map of a program whose source are its own slots.
fn own_lines(alloc: Global, name: &str, file: &[u8]) -> Result<String, AllocError> {
    match decode(alloc, file) {
        Ok(code) => map_of_slots(alloc, name, &code),
        Err(DecodeError::Memory) => Err(AllocError),
        Err(_) => Ok(String::new(alloc)),
    }
}

/// Returns the text of the source map of the program in a file: of the one that is named, if one is, and else of its
/// slots, if a map is to be written.
fn map_text_of<'a, R: Files + AllocGlobal>(
    rt: &R,
    files: NewFiles<'a>,
    from: Option<&'a str>,
    file: &[u8],
) -> Result<Option<String>, CommandError<'a>> {
    if let Some(path) = from {
        return Ok(Some(read_lines(rt, path)?));
    }
    if files.lines.is_none() {
        return Ok(None);
    }
    match own_lines(rt.alloc(), files.input, file) {
        Ok(text) => Ok(Some(text)),
        Err(_) => Err(CommandError::Memory),
    }
}

/// Returns the slot that the refusal of an order names.
fn slot_of(error: FileError) -> Option<usize> {
    match error {
        FileError::Order(OrderError::Loop { slot } | OrderError::Stuck { slot, .. }) => Some(slot),
        _ => None,
    }
}

/// Prints why a program is not put in order, with the line of its source where a map has it, the way round a loop, and
/// what to do where its file is an object file, and returns the exit status.
fn refuse_order<'a, E: Write>(
    alloc: Global,
    err: &mut E,
    file: &[u8],
    map: Option<&SourceMap<'_>>,
    error: FileError,
) -> Result<u8, CommandError<'a>> {
    if error == FileError::Memory {
        return Err(CommandError::Memory);
    }
    let way = match (map, error) {
        (Some(map), FileError::Order(OrderError::Loop { slot })) => {
            loop_text(alloc, file, map, slot)
        }
        _ => Ok(String::new(alloc)),
    };
    let Ok(way) = way else {
        return Err(CommandError::Memory);
    };
    let line = match (map, slot_of(error)) {
        (Some(map), Some(slot)) => map.line(slot),
        _ => None,
    };
    let _ = match line {
        Some(SourceLine { place, .. }) => writeln!(err, "refused {error}, {place}"),
        None => writeln!(err, "refused {error}"),
    };
    let _ = err.write_all(way.as_bytes());
    note_object_file(err, file);
    Ok(REFUSED)
}

/// Returns the instructions of the loop at a slot, a line each, with the lines of their source.
fn loop_text(
    alloc: Global,
    file: &[u8],
    map: &SourceMap<'_>,
    slot: usize,
) -> Result<String, AllocError> {
    let mut text = String::new(alloc);
    let code = match decode(alloc, file) {
        Ok(code) => code,
        Err(DecodeError::Memory) => return Err(AllocError),
        Err(_) => return Ok(text),
    };
    let program = Program::new(alloc, &code)?;
    for slot in &way_round(alloc, &code, slot)? {
        if let Fetched::Begins(insn) = program.fetch(*slot) {
            writeln!(text, "{slot} {insn}")?;
        }
    }
    annotated(alloc, map, &text)
}

/// Writes a program that was put in order, and its source map, made of that of the former one.
fn write_ordered<'a, R: Files + Print + AllocGlobal>(
    rt: &R,
    files: NewFiles<'a>,
    map: Option<&SourceMap<'_>>,
    found: &FileInOrder,
) -> Result<u8, CommandError<'a>> {
    let Some(map) = map else {
        return write_files(rt, files, &found.bytes, "");
    };
    match moved_text(rt.alloc(), map, &found.places) {
        Ok(text) => write_files(rt, files, &found.bytes, &text),
        Err(_) => Err(CommandError::Memory),
    }
}

/// Returns the text of the source map of a program that was put in order.
fn moved_text(alloc: Global, map: &SourceMap<'_>, places: &Places) -> Result<String, AllocError> {
    let moved = map.moved(alloc, places)?;
    format!(in alloc; "{moved}")
}

/// Puts the program in a file in order, and writes it and its source map.
fn put_in_order<'a, R: Files + Input + Print + AllocGlobal, E: Write>(
    rt: &R,
    err: &mut E,
    files: NewFiles<'a>,
    from: Option<&'a str>,
) -> Result<u8, CommandError<'a>> {
    let file = match read_whole(rt, files.input) {
        Ok(file) => file,
        Err(error) => return Err(unread(&error, files.input)),
    };
    let text = map_text_of(rt, files, from, &file)?;
    let map = match &text {
        Some(text) => Some(map_of(rt.alloc(), text, &file)?),
        None => None,
    };
    match order_file(rt.alloc(), &file) {
        Ok(found) => write_ordered(rt, files, map.as_ref(), &found),
        Err(error) => refuse_order(rt.alloc(), err, &file, map.as_ref(), error),
    }
}

/// Puts the program in a file in an order in which every jump leads forward, writes it and its source map, which is
/// made of the one in the file `from`, and returns the exit status. A program that is refused writes nothing.
pub fn reorder_file<R: Files + Input + Print + AllocGlobal, E: Write>(
    rt: &R,
    err: &mut E,
    files: NewFiles<'_>,
    from: Option<&str>,
) -> u8 {
    let ended = put_in_order(rt, err, files, from);
    status_of(err, ended)
}
