//! Two replays of the same events, with other programs, and the answers that differ.

ghost use Rattle.std.specs.Prelude.{◌≡◌, false};

use crate::replay_command::replay_fault;
use basics::streams::{self, Output};
use relay::{Relay, next_line};
use setup::{CommandError, unread};
use std::alloc::Global;
use std::fs;
use std::io::{self, BufRead, BufReader, BufWriter, Write};
use std::rt::Files;

/// How many events were replayed, and how many answers differ.
#[derive(Clone, Copy)]
struct Differences {
    events: u64,
    differing: u64,
}

/// Returns an answer without its reason.
fn without_reason(answer: &str) -> &str {
    match answer.split_once(" ; ") {
        Some((answer, _)) => answer,
        None => answer,
    }
}

/// Returns the answer of a relay to the event of a line of this number, with its reason.
fn answer_of<'a>(
    alloc: Global,
    relay: &mut Relay,
    line: &[u8],
    number: u64,
) -> Result<String, CommandError<'a>> {
    let mut output = Output::new(Vec::new(alloc));
    match relay.play(line, &mut output, true) {
        Ok(true) => {}
        Ok(false) => return Err(CommandError::Line(number)),
        // a vector is full where memory runs out
        Err(_) => return Err(CommandError::Memory),
    }
    match String::from_utf8(output.into_inner()) {
        Ok(answer) => Ok(answer),
        Err(_) => Err(CommandError::Output),
    }
}

/// Writes the answers of two relays to the event of a line of this number where they differ. Returns whether they do.
fn write_differing<'a, W: Write>(
    number: u64,
    old: &str,
    new: &str,
    out: &mut W,
) -> Result<bool, CommandError<'a>> {
    if without_reason(old) == without_reason(new) {
        return Ok(false);
    }
    match write!(out, "{number} - {old}{number} + {new}") {
        Ok(()) => Ok(true),
        Err(_) => Err(CommandError::Output),
    }
}

/// Replays the events of an input through two relays, and writes the answers that differ.
fn compare_lines<'a, B: BufRead + Drop, W: Write>(
    alloc: Global,
    old: &mut Relay,
    new: &mut Relay,
    input: &mut streams::Input<B>,
    events: &'a str,
    out: &mut W,
) -> Result<Differences, CommandError<'a>>
    requires { input.old.failed ≡ false }
{
    let mut line = Vec::new(alloc);
    let mut differing = 0u64;
    for number in 1..u64::MAX {
        match next_line(input, &mut line) {
            Ok(true) => {}
            Ok(false) => {
                return Ok(Differences {
                    events: number - 1,
                    differing,
                });
            }
            Err(error) => return Err(replay_fault(error, events)),
        }
        let first = answer_of(alloc, old, &line, number)?;
        let second = answer_of(alloc, new, &line, number)?;
        if write_differing(number, first.as_str(), second.as_str(), out)? {
            differing = differing.saturating_add(1);
        }
    }
    Ok(Differences {
        events: u64::MAX,
        differing,
    })
}

/// Replays the events of a reader through two relays, each from the start, and prints the answers that differ, each
/// pair with its reasons, and then how many differ.
/// See docs/DECISIONS.md, "Answers of two replays" and "Answers before a fault".
fn compare_events<'a, R: Print + AllocGlobal, B: BufRead + Drop>(
    rt: &R,
    old: &mut Relay,
    new: &mut Relay,
    reader: B,
    events: &'a str,
) -> Result<(), CommandError<'a>> {
    let Ok(mut out) = BufWriter::new(rt.alloc(), io::writer(rt)) else {
        return Err(CommandError::Memory);
    };
    let mut input = streams::Input::new(reader);
    let compared = compare_lines(rt.alloc(), old, new, &mut input, events, &mut out);
    if let Ok(Differences { events, differing }) = &compared
        && writeln!(out, "{differing} of {events} answers differ").is_err()
    {
        return Err(CommandError::Output);
    }
    if out.flush().is_err() {
        return Err(CommandError::Output);
    }
    match compared {
        Ok(_) => Ok(()),
        Err(error) => Err(error),
    }
}

/// Replays the events of a file, or of standard input for the file `-`, through two relays, and prints the answers that
/// differ.
/// See docs/DECISIONS.md, "Events from standard input".
pub(crate) fn compare_file<'a, R: Files + Input + Print + AllocGlobal>(
    rt: &R,
    old: &mut Relay,
    new: &mut Relay,
    events: &'a str,
) -> Result<(), CommandError<'a>> {
    if events == "-" {
        return match BufReader::new(rt.alloc(), rt.reader()) {
            Ok(reader) => compare_events(rt, old, new, reader, events),
            Err(_) => Err(CommandError::Memory),
        };
    }
    let file = match fs::open(rt, events) {
        Ok(file) => file,
        Err(error) => return Err(unread(&error, events)),
    };
    match BufReader::new(rt.alloc(), file) {
        Ok(reader) => compare_events(rt, old, new, reader, events),
        Err(_) => Err(CommandError::Memory),
    }
}
