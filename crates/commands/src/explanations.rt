//! The commands `explain` and `graph`: print what the verifier knew of a program, and draw its blocks.

use crate::reading::{note_object_file, read_whole};
use crate::reports::{map_of, print_annotated, read_lines};
use explaining::{ExplainError, Explained, explain_file, graph_file};
use loader::LoadError;
use report::{SourceMap, annotated};
use setup::{CommandError, REFUSED, status_of, unread};
use std::alloc::{AllocError, Global};
use std::io::{self, BufWriter, Write};
use std::rt::Files;

/// Prints what the verifier knew of a program to an output, or of the states at one slot. Returns what it found.
fn explain_to<'a, R: AllocGlobal, W: Write>(
    rt: &R,
    file: &[u8],
    slot: Option<usize>,
    out: &mut W,
) -> Result<Explained, CommandError<'a>> {
    match explain_file(rt.alloc(), file, slot, out) {
        Ok(found) => Ok(found),
        Err(error) => Err(unexplained(error)),
    }
}

/// Prints what the verifier knew of a program, or of the states at one slot, with the lines of the text of a source
/// map.
fn explain_mapped<'a, R: Print + AllocGlobal>(
    rt: &R,
    file: &[u8],
    slot: Option<usize>,
    lines: &str,
) -> Result<Explained, CommandError<'a>> {
    let map = map_of(rt.alloc(), lines, file)?;
    let mut out = Vec::new(rt.alloc());
    // a vector is full where memory runs out
    let Ok(found) = explain_file(rt.alloc(), file, slot, &mut out) else {
        return Err(CommandError::Memory);
    };
    print_annotated(rt, &map, &out)?;
    Ok(found)
}

/// Prints what the verifier knew of the program in a file, or of the states at one slot, with the lines of its source
/// map, if one is named, and returns the exit status. Without a slot, what a run of an accepted program costs, and what
/// its verification took, is printed to `err`.
fn print_explanation<'a, R: Files + Input + Print + AllocGlobal, E: Write>(
    rt: &R,
    err: &mut E,
    path: &'a str,
    slot: Option<usize>,
    lines: Option<&'a str>,
) -> Result<u8, CommandError<'a>> {
    let file = match read_whole(rt, path) {
        Ok(file) => file,
        Err(error) => return Err(unread(&error, path)),
    };
    let found = match lines {
        Some(lines) => explain_mapped(rt, &file, slot, &read_lines(rt, lines)?)?,
        None => {
            let Ok(mut out) = BufWriter::new(rt.alloc(), io::writer(rt)) else {
                return Err(CommandError::Memory);
            };
            explain_to(rt, &file, slot, &mut out)?
        }
    };
    match found {
        Explained::Accepted(cost, effort) => {
            if slot.is_none() {
                let _ = writeln!(err, "{cost}, {effort}");
            }
            Ok(0)
        }
        Explained::Refused => {
            note_object_file(err, &file);
            Ok(REFUSED)
        }
    }
}

/// Returns the error of a command that prints what the verifier knew.
fn unexplained<'a>(error: ExplainError) -> CommandError<'a> {
    match error {
        ExplainError::Output => CommandError::Output,
        ExplainError::Memory => CommandError::Memory,
    }
}

/// Returns the graph of a program, and why it is refused, if it is. The graph is whole before any of it is printed.
fn drawn<'a>(alloc: Global, file: &[u8]) -> Result<(Vec<u8>, Option<LoadError>), CommandError<'a>> {
    let mut graph = Vec::new(alloc);
    match graph_file(alloc, file, &mut graph) {
        Ok(refusal) => Ok((graph, refusal)),
        // a vector is full where memory runs out
        Err(_) => Err(CommandError::Memory),
    }
}

/// Prints the graph of a program and, to `err`, the line of its refusal, and returns the exit status.
fn print_bare<'a, R: Print + AllocGlobal, E: Write>(
    rt: &R,
    err: &mut E,
    file: &[u8],
) -> Result<u8, CommandError<'a>> {
    let (graph, refusal) = drawn(rt.alloc(), file)?;
    let mut out = io::writer(rt);
    if out.write_all(&graph).is_err() {
        return Err(CommandError::Output);
    }
    match refusal {
        Some(refusal) => {
            let _ = writeln!(err, "refused {refusal}");
            Ok(REFUSED)
        }
        None => Ok(0),
    }
}

/// Returns the line of a refusal, with the line of the source that a map has of its slot; nothing where there is none.
fn refusal_line(
    alloc: Global,
    map: &SourceMap<'_>,
    refusal: Option<LoadError>,
) -> Result<String, AllocError> {
    match refusal {
        Some(refusal) => {
            let line = format!(in alloc; "refused {refusal}")?;
            annotated(alloc, map, &line)
        }
        None => Ok(String::new(alloc)),
    }
}

/// Prints the graph of a program and, to `err`, the line of its refusal, both with the lines of the text of a source
/// map, and returns the exit status.
fn print_mapped<'a, R: Print + AllocGlobal, E: Write>(
    rt: &R,
    err: &mut E,
    file: &[u8],
    lines: &str,
) -> Result<u8, CommandError<'a>> {
    let map = map_of(rt.alloc(), lines, file)?;
    let (graph, refusal) = drawn(rt.alloc(), file)?;
    let Ok(line) = refusal_line(rt.alloc(), &map, refusal) else {
        return Err(CommandError::Memory);
    };
    print_annotated(rt, &map, &graph)?;
    let _ = err.write_all(line.as_bytes());
    Ok(if refusal.is_some() { REFUSED } else { 0 })
}

/// Draws the program in a file, with the lines of its source map, if one is named, prints the line of a refusal to
/// `err`, and returns the exit status.
fn print_graph<'a, R: Files + Input + Print + AllocGlobal, E: Write>(
    rt: &R,
    err: &mut E,
    path: &'a str,
    lines: Option<&'a str>,
) -> Result<u8, CommandError<'a>> {
    let file = match read_whole(rt, path) {
        Ok(file) => file,
        Err(error) => return Err(unread(&error, path)),
    };
    let status = match lines {
        Some(lines) => print_mapped(rt, err, &file, &read_lines(rt, lines)?)?,
        None => print_bare(rt, err, &file)?,
    };
    if status == REFUSED {
        note_object_file(err, &file);
    }
    Ok(status)
}

/// Explains the program in a file, prints the line of a fault to `err`, and returns the exit status.
pub fn explain<R: Files + Input + Print + AllocGlobal, E: Write>(
    rt: &R,
    err: &mut E,
    path: &str,
    slot: Option<usize>,
    lines: Option<&str>,
) -> u8 {
    let ended = print_explanation(rt, err, path, slot, lines);
    status_of(err, ended)
}

/// Draws the program in a file, with the lines of its source map, if one is named, prints the line of a fault to `err`,
/// and returns the exit status.
pub fn graph<R: Files + Input + Print + AllocGlobal, E: Write>(
    rt: &R,
    err: &mut E,
    path: &str,
    lines: Option<&str>,
) -> u8 {
    let ended = print_graph(rt, err, path, lines);
    status_of(err, ended)
}
