//! Rows of runs: `run` and `run_with_peer`.

use crate::frames::{Frames, context_of};
use crate::line::ProgramRow;
use crate::numbers::number_text;
use crate::program::{bytes_of, file_of};
use anyhow::{Context, Result, bail};
use loader::load;
use machine::{Addr, Helpers, Outcome};
use std::alloc::{AllocError, Global};

/// Returns bytes in hexadecimal digits, or `empty`.
fn bytes_text(alloc: Global, bytes: &[u8]) -> Result<String> {
    if bytes.is_empty() {
        Ok("empty".to_string(alloc)?)
    } else {
        Ok(hex::encode(alloc, bytes)?)
    }
}

/// Returns the front and the length of a window, or `none`.
fn window_text(alloc: Global, window: Option<(usize, usize)>) -> Result<String, AllocError> {
    match window {
        Some((front, length)) => format!(in alloc; "{front} {length}"),
        None => "none".to_string(alloc),
    }
}

/// Returns the text of an address, or `none`.
fn address_text(alloc: Global, address: Option<Addr>) -> Result<String, AllocError> {
    match address {
        Some(address) => format!(in alloc; "{address}"),
        None => "none".to_string(alloc),
    }
}

/// Returns what a run left, by its name.
fn value_text(
    alloc: Global,
    outcome: &Outcome,
    frames: &Frames,
    name: &str,
    expected: &str,
) -> Result<String> {
    match name {
        "verdict" => Ok(number_text(alloc, outcome.verdict, expected)?),
        "steps" => {
            let steps = outcome.steps;
            Ok(format!(in alloc; "{steps}")?)
        }
        "window" => Ok(window_text(alloc, outcome.window)?),
        "destination" => Ok(address_text(alloc, outcome.destination)?),
        "datagram" => bytes_text(alloc, frames.ran.datagram()),
        "bytes" => match frames.ran.window() {
            Some(bytes) => bytes_text(alloc, bytes),
            None => Ok("none".to_string(alloc)?),
        },
        _ => bail!("a run has no {name}"),
    }
}

/// Returns what a run left, of all that is expected.
fn left_text(alloc: Global, outcome: &Outcome, frames: &Frames, expected: &str) -> Result<String> {
    let mut text = String::new(alloc);
    for part in expected.split(", ") {
        let (name, value) = part.split_once(' ').context("no value")?;
        if !text.is_empty() {
            text.push_str(", ")?;
        }
        let value = value_text(alloc, outcome, frames, name, value)?;
        write!(text, "{name} {value}")?;
    }
    Ok(text)
}

/// Runs a program over a datagram from a context, with helpers, and returns what the run left.
///
/// # Errors
/// Where the program is refused, the run and the trace differ, or memory runs out.
pub fn ran<H: Helpers>(
    alloc: Global,
    frames: &mut Frames,
    row: &ProgramRow<'_>,
    helpers: &H,
) -> Result<String> {
    let (given, program) = row.parts();
    let (context, datagram) = given.split_once(' ').context("no datagram")?;
    let context = context_of(context)?;
    let datagram = bytes_of(alloc, datagram)?;
    let file = file_of(alloc, program)?;
    let loaded = load(alloc, &file)?;
    let outcome = frames.run(loaded.program(), &context, &datagram, helpers)?;
    left_text(alloc, &outcome, frames, row.expected)
}
