//! The commands `verify`, `trace` and `disassemble`: reports on the program in a file, with the lines of its source.

use crate::reading::read_whole;
use basics::streams::Output;
use report::{Ask, MapError, SourceMap, annotated, report};
use setup::{CommandError, REFUSED, status_of, unread};
use std::alloc::Global;
use std::fs;
use std::io::{self, BufWriter, Write};
use std::rt::Files;

/// The bytes of memory that are taken for the line of an error of a report. The longest one has fewer.
const LINE: usize = 64;

/// Returns the source map of a text, which has to be that of the program in a file, if there is one.
pub(crate) fn map_of<'a, 't>(
    alloc: Global,
    text: &'t str,
    file: &[u8],
) -> Result<SourceMap<'t>, CommandError<'a>> {
    match SourceMap::of_file(alloc, text, file) {
        Ok(map) => Ok(map),
        Err(MapError::Memory) => Err(CommandError::Memory),
        Err(refusal) => Err(CommandError::Lines(refusal)),
    }
}

/// Prints a report, with the lines of the source that a map has of its slots.
pub(crate) fn print_annotated<'a, R: Print + AllocGlobal>(
    rt: &R,
    map: &SourceMap<'_>,
    report: &[u8],
) -> Result<(), CommandError<'a>> {
    let Ok(report) = std::str::from_utf8(report) else {
        return Err(CommandError::Output);
    };
    let Ok(text) = annotated(rt.alloc(), map, report) else {
        return Err(CommandError::Memory);
    };
    let mut out = io::writer(rt);
    match out.write_all(text.as_bytes()) {
        Ok(()) => Ok(()),
        Err(_) => Err(CommandError::Output),
    }
}

/// Prints the report on a program, with the lines of the text of a source map, and returns the exit status.
fn print_mapped<'a, R: Print + AllocGlobal, E: Write>(
    rt: &R,
    err: &mut E,
    file: &[u8],
    ask: Ask<'_>,
    lines: &str,
) -> Result<u8, CommandError<'a>> {
    let map = map_of(rt.alloc(), lines, file)?;
    let mut out = Output::new(Vec::new(rt.alloc()));
    let Ok(mut said) = Vec::with_capacity(rt.alloc(), LINE) else {
        return Err(CommandError::Memory);
    };
    let status = report(rt.alloc(), ask, file, &mut out, &mut said);
    // a vector is full where memory runs out
    if out.has_failed() {
        return Err(CommandError::Memory);
    }
    print_annotated(rt, &map, &out.into_inner())?;
    let _ = err.write_all(&said);
    Ok(status)
}

/// Reads a program and its source map, where one is named; prints the report on it, and returns the exit status.
fn print_report<'a, R: Files + Input + Print + AllocGlobal, E: Write>(
    rt: &R,
    err: &mut E,
    path: &'a str,
    ask: Ask<'_>,
    lines: Option<&'a str>,
) -> Result<u8, CommandError<'a>> {
    let file = match read_whole(rt, path) {
        Ok(file) => file,
        Err(error) => return Err(unread(&error, path)),
    };
    if let Some(lines) = lines {
        let text = read_lines(rt, lines)?;
        return print_mapped(rt, err, &file, ask, &text);
    }
    match BufWriter::new(rt.alloc(), io::writer(rt)) {
        Ok(out) => Ok(report(rt.alloc(), ask, &file, &mut Output::new(out), err)),
        Err(_) => Err(CommandError::Memory),
    }
}

/// Reads the text of a source map.
pub(crate) fn read_lines<'a, R: Files + AllocGlobal>(
    rt: &R,
    path: &'a str,
) -> Result<String, CommandError<'a>> {
    fs::read_to_string(rt, path).map_err(|error| unread(&error, path))
}

/// Prints the report on the program in a file, with the lines of its source map, if one is named, and returns the exit
/// status.
pub fn report_file<R: Files + Input + Print + AllocGlobal, E: Write>(
    rt: &R,
    err: &mut E,
    path: &str,
    ask: Ask<'_>,
    lines: Option<&str>,
) -> u8 {
    let ended = print_report(rt, err, path, ask, lines);
    status_of(err, ended)
}

/// Prints the report on whether the program in a file may be loaded and, where it is refused, which command explains
/// why.
pub fn verify_file<R: Files + Input + Print + AllocGlobal, E: Write>(
    rt: &R,
    err: &mut E,
    path: &str,
    lines: Option<&str>,
) -> u8 {
    let ended = print_report(rt, err, path, Ask::Verify, lines);
    if let Ok(REFUSED) = ended {
        let _ = match lines {
            Some(lines) => writeln!(err, "relayd explain {path} --lines {lines} shows why"),
            None => writeln!(err, "relayd explain {path} shows why"),
        };
    }
    status_of(err, ended)
}
