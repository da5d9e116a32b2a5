//! The command `replay`: replays the events of a file through a relay.

use crate::comparing::compare_file;
use crate::covering::{cover_events, trace_event};
use crate::reports::{map_of, read_lines};
use basics::streams::{self, Output};
use command_line::{Options, ReplayOptions, defaults};
use machine::Side;
use relay::{Relay, ReplayError};
use report::SourceMap;
use setup::{CommandError, Prepared, ProgramBytes, Relayed, end, set_up, unread};
use std::alloc::Global;
use std::fs;
use std::io::{self, BufRead, BufReader, BufWriter, Write};
use std::rt::Files;

/// The texts of the source maps of the programs; `None` where none is given.
#[derive(Drop)]
pub(crate) struct MapTexts {
    client: Option<String>,
    peer: Option<String>,
}

/// The source maps of the programs; `None` where none is given.
#[derive(Drop)]
pub(crate) struct Maps<'t> {
    client: Option<SourceMap<'t>>,
    peer: Option<SourceMap<'t>>,
}

impl<'t> Maps<'t> {
    /// Returns whether there is none.
    pub(crate) fn is_empty(&self) -> bool {
        self.client.is_none() && self.peer.is_none()
    }

    /// Returns the source map of the program of a side, if it is given.
    pub(crate) fn of(&self, side: Side) -> Option<&SourceMap<'t>> {
        match side {
            Side::Client => self.client.as_ref(),
            Side::Peer => self.peer.as_ref(),
        }
    }
}

/// Reads the text of a source map, if one is named.
fn read_map<'a, R: Files + AllocGlobal>(
    rt: &R,
    path: Option<&'a str>,
) -> Result<Option<String>, CommandError<'a>> {
    match path {
        Some(path) => Ok(Some(read_lines(rt, path)?)),
        None => Ok(None),
    }
}

/// Returns the source map of a text, if there is one, which has to be that of a program.
fn map_for<'a, 't>(
    alloc: Global,
    text: &'t Option<String>,
    program: &[u8],
) -> Result<Option<SourceMap<'t>>, CommandError<'a>> {
    match text {
        Some(text) => Ok(Some(map_of(alloc, text.as_str(), program)?)),
        None => Ok(None),
    }
}

/// Returns the source maps of two programs.
fn maps_of<'a, 't>(
    alloc: Global,
    texts: &'t MapTexts,
    programs: &ProgramBytes,
) -> Result<Maps<'t>, CommandError<'a>> {
    Ok(Maps {
        client: map_for(alloc, &texts.client, programs.of(Side::Client))?,
        peer: map_for(alloc, &texts.peer, programs.of(Side::Peer))?,
    })
}

/// Replays the events of a reader, prints the answers and flushes them.
/// See docs/DECISIONS.md, "Answers before a fault".
fn play<'a, R: Print + AllocGlobal, B: BufRead + Drop>(
    rt: &R,
    relay: &mut Relay,
    reader: B,
    replay: &ReplayOptions<'a>,
) -> Result<(), CommandError<'a>> {
    let Ok(writer) = BufWriter::new(rt.alloc(), io::writer(rt)) else {
        return Err(CommandError::Memory);
    };
    let mut output = Output::new(writer);
    let mut input = streams::Input::new(reader);
    let played = relay.replay(rt.alloc(), &mut input, &mut output, replay.why);
    if output.has_failed() || output.flush().is_err() {
        return Err(CommandError::Output);
    }
    played.map_err(|error| replay_fault(error, replay.events))
}

/// Returns the fault of a replay of a file.
pub(crate) fn replay_fault<'a>(error: ReplayError, events: &'a str) -> CommandError<'a> {
    match error {
        ReplayError::Line(number) => CommandError::Line(number),
        ReplayError::Read => CommandError::File(events),
        ReplayError::Write => CommandError::Output,
        ReplayError::Memory => CommandError::Memory,
    }
}

/// Replays the events of a reader as it is asked for: the run of one event, or all answers, with what of the programs
/// the events met.
fn play_as<'a, R: Print + AllocGlobal, E: Write, B: BufRead + Drop>(
    rt: &R,
    err: &mut E,
    prepared: &mut Prepared,
    maps: &Maps<'_>,
    reader: B,
    replay: &ReplayOptions<'a>,
) -> Result<(), CommandError<'a>> {
    match replay.trace {
        Some(number) => trace_event(rt, &mut prepared.relay, maps, reader, replay, number),
        None if replay.cover => cover_events(rt, err, prepared, maps, reader, replay),
        None => play(rt, &mut prepared.relay, reader, replay),
    }
}

/// Replays the events of a file, or of standard input for the file `-`.
/// See docs/DECISIONS.md, "Events from standard input".
fn replay_file<'a, R: Files + Input + Print + AllocGlobal, E: Write>(
    rt: &R,
    err: &mut E,
    prepared: &mut Prepared,
    maps: &Maps<'_>,
    replay: &ReplayOptions<'a>,
) -> Result<(), CommandError<'a>> {
    if replay.events == "-" {
        return match BufReader::new(rt.alloc(), rt.reader()) {
            Ok(reader) => play_as(rt, err, prepared, maps, reader, replay),
            Err(_) => Err(CommandError::Memory),
        };
    }
    let file = match fs::open(rt, replay.events) {
        Ok(file) => file,
        Err(error) => return Err(unread(&error, replay.events)),
    };
    match BufReader::new(rt.alloc(), file) {
        Ok(reader) => play_as(rt, err, prepared, maps, reader, replay),
        Err(_) => Err(CommandError::Memory),
    }
}

/// Returns the relayed addresses of a replay.
fn relayed_of(options: &Options<'_>) -> Relayed {
    Relayed {
        ip: options.relay_ip.unwrap_or(defaults::RELAY_IP).octets(),
        ip6: options.relay_ip6,
    }
}

/// Replays events through two relays, the other one with the programs that are compared.
fn replay_against<'a, R: Files + Input + Print + AllocGlobal>(
    rt: &R,
    prepared: &mut Prepared,
    replay: &ReplayOptions<'a>,
    options: &Options<'a>,
) -> Result<(), CommandError<'a>> {
    let others = Options {
        client: replay.against.or(options.client),
        peer: replay.against_peer.or(options.peer),
        ..*options
    };
    let relayed = relayed_of(options);
    let mut other = set_up(rt, &others, replay.nonce, relayed, replay.confine)?;
    compare_file(rt, &mut prepared.relay, &mut other.relay, replay.events)
}

/// Replays events through a relay, whose programs have source maps of these texts.
fn replay_mapped<'a, R: Files + Input + Print + AllocGlobal, E: Write>(
    rt: &R,
    err: &mut E,
    prepared: &mut Prepared,
    texts: &MapTexts,
    replay: &ReplayOptions<'a>,
) -> Result<(), CommandError<'a>> {
    let maps = maps_of(rt.alloc(), texts, &prepared.programs)?;
    replay_file(rt, err, prepared, &maps, replay)
}

/// Returns the option that asks for another program's answers, if one does.
fn comparison_of(replay: &ReplayOptions<'_>) -> Option<&'static str> {
    if replay.against.is_some() {
        Some("--against <FILE>")
    } else if replay.against_peer.is_some() {
        Some("--against-peer <FILE>")
    } else {
        None
    }
}

/// Refuses options of which each asks for another report than the other one.
fn check_reports<'a>(replay: &ReplayOptions<'a>) -> Result<(), CommandError<'a>> {
    let Some(compared) = comparison_of(replay) else {
        return Ok(());
    };
    if replay.trace.is_some() {
        return Err(CommandError::Conflict(compared, "--trace <N>"));
    }
    if replay.cover {
        return Err(CommandError::Conflict(compared, "--cover"));
    }
    Ok(())
}

/// Replays events through the relay that the options describe. The source maps are read first.
fn replay_events<'a, R: Files + Input + Print + AllocGlobal, E: Write>(
    rt: &R,
    err: &mut E,
    replay: &ReplayOptions<'a>,
    options: &Options<'a>,
) -> Result<(), CommandError<'a>> {
    check_reports(replay)?;
    let texts = MapTexts {
        client: read_map(rt, replay.client_lines)?,
        peer: read_map(rt, replay.peer_lines)?,
    };
    let relayed = relayed_of(options);
    let mut prepared = set_up(rt, options, replay.nonce, relayed, replay.confine)?;
    if comparison_of(replay).is_some() {
        return replay_against(rt, &mut prepared, replay, options);
    }
    replay_mapped(rt, err, &mut prepared, &texts, replay)
}

/// Replays events, prints the answers, or the line of the first fault to `err`, and returns the exit status.
pub fn replay<R: Files + Input + Print + AllocGlobal, E: Write>(
    rt: &R,
    err: &mut E,
    replay: &ReplayOptions<'_>,
    options: &Options<'_>,
) -> u8 {
    match replay_events(rt, err, replay, options) {
        Ok(()) => 0,
        Err(error) => end(err, error),
    }
}
