//! Rows of traces: `trace` and `compute`.

use crate::line::ProgramRow;
use crate::program::file_of;
use crate::reports::Printed;
use anyhow::Result;
use report::Ask;
use std::alloc::Global;

/// Returns the last parts of a line that has slashes between its parts, as many as another line has.
fn last_parts<'a>(line: &'a str, other: &str) -> &'a str {
    let count = other.split(" / ").count();
    let dropped = line.split(" / ").count().saturating_sub(count);
    let mut rest = line;
    for _ in 0..dropped {
        rest = rest.split_once(" / ").map_or(rest, |(_, rest)| rest);
    }
    rest
}

/// Traces a program over a datagram, and returns the lines that are printed: the last ones, as many as are expected.
/// The status is 1 where the trace is stuck, and 0 where it exits.
///
/// # Errors
/// Where the program is refused by the assembler, or memory runs out.
pub fn traced(alloc: Global, row: &ProgramRow<'_>) -> Result<String> {
    let (datagram, program) = row.parts();
    let file = file_of(alloc, program)?;
    let hex = if datagram == "empty" { "" } else { datagram };
    let printed = Printed::of(alloc, Ask::Trace { hex: Some(hex) }, &file)?;
    let line = printed.line(alloc)?;
    let last = line.rsplit_once(" / ").map_or("", |(_, last)| last);
    let status = u8::from(last.starts_with("stuck "));
    let prefix = format!(in alloc; "status {status} / ")?;
    match line.strip_prefix(prefix.as_str()) {
        Some(lines) if printed.err.is_empty() => {
            Ok(last_parts(lines, row.expected).to_string(alloc)?)
        }
        _ => Ok(line),
    }
}

/// Traces a program over the empty datagram, and returns its verdict. The program sets no window and no destination.
///
/// # Errors
/// Where the program is refused by the assembler, or memory runs out.
pub fn computed(alloc: Global, row: &ProgramRow<'_>) -> Result<String> {
    let file = file_of(alloc, row.given)?;
    let line = Printed::of(alloc, Ask::Trace { hex: None }, &file)?.line(alloc)?;
    let found = line
        .strip_suffix(" / window none / destination none")
        .and_then(|steps| steps.rsplit_once(" / exit "));
    match found {
        Some((steps, verdict)) if steps.starts_with("status 0 / ") => {
            Ok(verdict.to_string(alloc)?)
        }
        _ => Ok(line),
    }
}
