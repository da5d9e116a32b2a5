//! What a replay looks at beside its answers: the run of one event, and what of the programs the events met.

ghost use Rattle.std.specs.Prelude.{◌≡◌, false, OnOk};

use crate::replay_command::{Maps, replay_fault};
use crate::reports::print_annotated;
use basics::streams::{Input, Output};
use command_line::ReplayOptions;
use insn::decode;
use machine::{Kept, Side};
use relay::{Relay, next_line};
use report::{Coverage, SourceMap, annotated, report_end};
use setup::{CommandError, Prepared, ProgramBytes};
use std::alloc::{AllocError, Global};
use std::io::{self, BufRead, BufWriter, Write};

/// Plays the event of a line of this number, and writes its answer.
fn play_line<'a, W: Write>(
    relay: &mut Relay,
    line: &[u8],
    number: u64,
    output: &mut Output<W>,
    why: bool,
) -> Result<(), CommandError<'a>>
    requires { output.old.failed ≡ false }
    ensures { OnOk result (output.new.failed ≡ false) }
{
    match relay.play(line, output, why) {
        Ok(true) => Ok(()),
        Ok(false) => Err(CommandError::Line(number)),
        Err(_) => Err(CommandError::Output),
    }
}

/// Prints each step of the run of the event of a line, and how it ended.
fn print_run<'a, R: Print + AllocGlobal>(
    rt: &R,
    relay: &mut Relay,
    line: &[u8],
    number: u64,
) -> Result<(), CommandError<'a>> {
    let Ok(writer) = BufWriter::new(rt.alloc(), io::writer(rt)) else {
        return Err(CommandError::Memory);
    };
    let mut output = Output::new(writer);
    let Some((_, ended)) = relay.trace_line(line, &mut output) else {
        return Err(CommandError::NoRun(number));
    };
    if output.has_failed() || report_end(ended, &mut output).is_err() {
        return Err(CommandError::Output);
    }
    match output.flush() {
        Ok(()) => Ok(()),
        Err(_) => Err(CommandError::Output),
    }
}

/// Prints each step of the run of the event of a line, and how it ended, with the lines of the source of its program.
fn print_mapped_run<'a, R: Print + AllocGlobal>(
    rt: &R,
    relay: &mut Relay,
    maps: &Maps<'_>,
    line: &[u8],
    number: u64,
) -> Result<(), CommandError<'a>> {
    let mut output = Output::new(Vec::new(rt.alloc()));
    let Some((side, ended)) = relay.trace_line(line, &mut output) else {
        return Err(CommandError::NoRun(number));
    };
    // a vector is full where memory runs out
    if output.has_failed() || report_end(ended, &mut output).is_err() {
        return Err(CommandError::Memory);
    }
    let run = output.into_inner();
    match maps.of(side) {
        Some(map) => print_annotated(rt, map, &run),
        None => match io::writer(rt).write_all(&run) {
            Ok(()) => Ok(()),
            Err(_) => Err(CommandError::Output),
        },
    }
}

/// Replays the events before the line of this number, and prints the run of its event in place of answers.
pub(crate) fn trace_event<'a, R: Print + AllocGlobal, B: BufRead + Drop>(
    rt: &R,
    relay: &mut Relay,
    maps: &Maps<'_>,
    reader: B,
    replay: &ReplayOptions<'a>,
    number: u64,
) -> Result<(), CommandError<'a>> {
    let mut input = Input::new(reader);
    let mut output = Output::new(io::sink());
    let mut line = Vec::new(rt.alloc());
    for count in 1..=number {
        match next_line(&mut input, &mut line) {
            Ok(true) => {}
            Ok(false) => return Err(CommandError::NoRun(number)),
            Err(error) => return Err(replay_fault(error, replay.events)),
        }
        if count == number {
            return if maps.is_empty() {
                print_run(rt, relay, &line, number)
            } else {
                print_mapped_run(rt, relay, maps, &line, number)
            };
        }
        play_line(relay, &line, count, &mut output, false)?;
    }
    Err(CommandError::NoRun(number))
}

/// What of the two programs was met.
#[derive(Drop)]
struct Covered {
    client: Coverage,
    peer: Coverage,
}

impl Covered {
    /// Adds the run of the event of a line, if it has one, before its step.
    fn add<'a>(
        &mut self,
        alloc: Global,
        relay: &mut Relay,
        line: &[u8],
    ) -> Result<(), CommandError<'a>> {
        let Ok(mut kept) = Kept::new(alloc) else {
            return Err(CommandError::Memory);
        };
        match relay.trace_line(line, &mut kept) {
            Some((Side::Client, _)) => self.client.add(kept.visits()),
            Some((Side::Peer, _)) => self.peer.add(kept.visits()),
            None => {}
        }
        Ok(())
    }
}

/// Returns the text of what of the program of a side was met, with the lines of its source where there is a map.
fn side_text(
    alloc: Global,
    programs: &ProgramBytes,
    side: Side,
    coverage: &Coverage,
    map: Option<&SourceMap<'_>>,
) -> Result<String, AllocError> {
    let name = match side {
        Side::Client => "client's",
        Side::Peer => "peer's",
    };
    let runs = coverage.runs();
    let text = match decode(alloc, programs.of(side)) {
        Ok(code) => coverage.text(alloc, &code)?,
        // the program was loaded before
        Err(_) => return Err(AllocError),
    };
    let text = match map {
        Some(map) => annotated(alloc, map, text.as_str())?,
        None => text,
    };
    format!(in alloc; "runs of the {name} program: {runs}\n{text}")
}

/// Prints what of the two programs was met.
fn print_covered<'a, E: Write>(
    alloc: Global,
    err: &mut E,
    programs: &ProgramBytes,
    maps: &Maps<'_>,
    covered: &Covered,
) -> Result<(), CommandError<'a>> {
    let (client, peer) = (&covered.client, &covered.peer);
    let client = side_text(alloc, programs, Side::Client, client, maps.of(Side::Client));
    let peer = side_text(alloc, programs, Side::Peer, peer, maps.of(Side::Peer));
    let (Ok(client), Ok(peer)) = (client, peer) else {
        return Err(CommandError::Memory);
    };
    let _ = write!(err, "{client}{peer}");
    Ok(())
}

/// Replays the events of an input, and adds their runs to what was met.
fn cover_lines<'a, B: BufRead + Drop, W: Write>(
    alloc: Global,
    relay: &mut Relay,
    input: &mut Input<B>,
    output: &mut Output<W>,
    replay: &ReplayOptions<'a>,
) -> Result<Covered, CommandError<'a>>
    requires reads { input.old.failed ≡ false }
    requires writes { output.old.failed ≡ false }
{
    let (Ok(client), Ok(peer)) = (Coverage::new(alloc), Coverage::new(alloc)) else {
        return Err(CommandError::Memory);
    };
    let mut covered = Covered { client, peer };
    let mut line = Vec::new(alloc);
    for number in 1..u64::MAX {
        match next_line(input, &mut line) {
            Ok(true) => {}
            Ok(false) => return Ok(covered),
            Err(error) => return Err(replay_fault(error, replay.events)),
        }
        covered.add(alloc, relay, &line)?;
        play_line(relay, &line, number, output, replay.why)?;
    }
    Ok(covered)
}

/// Replays the events of a reader, prints the answers and flushes them, and then prints to `err` what of the programs
/// was met.
/// See docs/DECISIONS.md, "Answers before a fault".
pub(crate) fn cover_events<'a, R: Print + AllocGlobal, E: Write, B: BufRead + Drop>(
    rt: &R,
    err: &mut E,
    prepared: &mut Prepared,
    maps: &Maps<'_>,
    reader: B,
    replay: &ReplayOptions<'a>,
) -> Result<(), CommandError<'a>> {
    let Ok(writer) = BufWriter::new(rt.alloc(), io::writer(rt)) else {
        return Err(CommandError::Memory);
    };
    let mut output = Output::new(writer);
    let mut input = Input::new(reader);
    let relay = &mut prepared.relay;
    let covered = cover_lines(rt.alloc(), relay, &mut input, &mut output, replay);
    if output.has_failed() || output.flush().is_err() {
        return Err(CommandError::Output);
    }
    print_covered(rt.alloc(), err, &prepared.programs, maps, &covered?)
}
