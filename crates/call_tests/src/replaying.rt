//! The command `replay`: a session with the shipped programs, a call for each line.

use anyhow::Result;
use basics::streams::{self, Output};
use relay::{Relay, ReplayError};
use setup::sample::{config, shipped};
use std::alloc::Global;
use std::io::{self, BufRead, BufReader, Write};

/// Room for the line of any answer, in bytes.
const LONGEST: usize = 131_200;

/// Replays the event of a line, and writes the line of its answer over what `answer` had.
///
/// # Errors
/// Where memory is refused twice, and where the line is no event's.
fn play(alloc: Global, relay: &mut Relay, line: &[u8], answer: &mut Vec<u8>) -> Result<()> {
    answer.clear();
    let mut output = Output::new(answer);
    match relay.replay(alloc, &mut streams::Input::new(line), &mut output, false) {
        Err(ReplayError::Memory) => relay.replay(
            alloc,
            &mut streams::Input::new(line),
            &mut output,
            false,
        )?,
        first => first?,
    }
    Ok(())
}

/// Replays each line of a reader, and writes the line of its answer.
fn replay_lines<R: BufRead, W: Write>(
    alloc: Global,
    relay: &mut Relay,
    reader: &mut R,
    writer: &mut W,
) -> Result<()> {
    let mut line = Vec::new(alloc);
    let mut answer = Vec::new(alloc);
    answer.reserve(LONGEST)?;
    for _ in 0..u64::MAX {
        line.clear();
        if reader.read_until(b'\n', &mut line)? == 0 {
            break;
        }
        play(alloc, relay, &line, &mut answer)?;
        writer.write_all(&answer)?;
    }
    Ok(())
}

/// Replays the events on standard input, and prints the line of each answer.
pub(crate) fn replay<R: Input + Print + AllocGlobal>(rt: &R) -> Result<()> {
    let alloc = rt.alloc();
    let mut relay = shipped(alloc, config(alloc, [127, 0, 0, 1], 16)?)?;
    let mut reader = BufReader::new(alloc, rt.reader())?;
    let mut writer = io::writer(rt);
    replay_lines(alloc, &mut relay, &mut reader, &mut writer)
}
