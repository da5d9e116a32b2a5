//! Rows of command lines: `parsed` and `refused`.

use crate::line::ProgramRow;
use anyhow::{Context, Result, ensure};
use clap::error::Error;
use command_line::{line, subcommand_of};
use std::alloc::Global;

/// Returns the words of a command line, of which one with blanks, or an empty one, is in quotes. `empty` stands for no
/// word.
fn words_of(alloc: Global, text: &str) -> Result<Vec<&str>> {
    let mut words = Vec::new(alloc);
    let mut is_quoted = false;
    let text = if text == "empty" { "" } else { text };
    for part in text.split('"') {
        if is_quoted {
            words.push(part)?;
        } else {
            words.extend(part.split_whitespace())?;
        }
        is_quoted = !is_quoted;
    }
    ensure!(is_quoted, "a quote isn't closed");
    Ok(words)
}

/// Returns the subcommand of the words of a row.
///
/// # Errors
/// Where a quote isn't closed, or memory runs out.
pub fn parsed(alloc: Global, row: &ProgramRow<'_>) -> Result<String> {
    let words = words_of(alloc, row.given)?;
    let matches = match line(alloc, &words) {
        Ok(matches) => matches,
        Err(error) => return Ok(format!(in alloc; "refused: {error}")?),
    };
    Ok(match subcommand_of(&matches) {
        Ok(Some(found)) => format!(in alloc; "{found:?}")?,
        Ok(None) => String::from_str(alloc, "no subcommand")?,
        Err(error) => format!(in alloc; "{error}")?,
    })
}

/// Appends the parts that a text has, with slashes between them. In a part, `\n` is the end of a line.
fn push_found(alloc: Global, found: &mut String, text: &str, parts: &str) -> Result<()> {
    for part in parts.split(" / ") {
        let (start, ending) = match part.strip_suffix("\\n") {
            Some(start) => (start, "\n"),
            None => (part, ""),
        };
        if text.contains(format!(in alloc; "{start}{ending}")?.as_str()) {
            found.push_str(if found.is_empty() { "" } else { " / " })?;
            found.push_str(part)?;
        }
    }
    Ok(())
}

/// Returns the status of an error, and the parts of a text that it has. With status 2 it is for standard error, with 0
/// for standard output.
fn error_text(alloc: Global, error: &Error, parts: &str) -> Result<String> {
    let text = format!(in alloc; "{error}")?;
    let mut found = String::new(alloc);
    push_found(alloc, &mut found, &text, parts)?;
    let (status, is_error) = (error.exit_code(), error.use_stderr());
    let ending = if is_error == (status == 2) {
        ""
    } else {
        " elsewhere"
    };
    Ok(format!(in alloc; "{status}{ending}: {found}")?)
}

/// Returns what comes of the words of a row, which are refused, or request a text, of which the parts are expected.
///
/// # Errors
/// Where a quote isn't closed, no parts are expected, or memory runs out.
pub fn refused(alloc: Global, row: &ProgramRow<'_>) -> Result<String> {
    let (_, parts) = row
        .expected
        .split_once(": ")
        .context("no parts are expected")?;
    let words = words_of(alloc, row.given)?;
    match line(alloc, &words) {
        Ok(_) => Ok(String::from_str(alloc, "accepted")?),
        Err(error) => error_text(alloc, &error, parts),
    }
}
