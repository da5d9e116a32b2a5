//! Events, and what a relay answers to them, and why.

use crate::links::{check_failures, end_of_pair};
use anyhow::{Context, Result, bail};
use asm::assemble;
use basics::streams::{Input, Output};
use control::Config;
use events::{Parsed, parse};
use loader::{Loaded, load};
use programs::{CLIENT, PEER, client_text, peer_text};
use relay::{Alias, Confinement, Relay, ReplayError};
use rows::row::{Row, address, bytes, count};
use setup::sample;
use std::alloc::Global;
use std::net::Ipv6Addr;

/// The slots of a relay.
const SLOTS: usize = 2;

/// A relay that answers lines, one that also explains its answers, and one that takes steps; and the events that they
/// had, with the answers.
#[derive(Drop)]
pub struct Relays {
    answering: Relay,
    explaining: Relay,
    stepping: Relay,
    events: String,
    answers: String,
    count: u64,
}

/// Loads a program of a row, or the shipped one where it names none.
fn program(alloc: Global, row: &Row<'_>, side: &str, shipped: &[u8]) -> Result<Loaded> {
    Ok(match row.get(side) {
        Some(digits) => load(alloc, &bytes(alloc, digits)?)?,
        None => load(alloc, shipped)?,
    })
}

/// Loads a program of a row, if it names one.
fn new_program(alloc: Global, row: &Row<'_>, side: &str) -> Result<Option<Loaded>> {
    Ok(match row.get(side) {
        Some(digits) => Some(load(alloc, &bytes(alloc, digits)?)?),
        None => None,
    })
}

/// Returns what confines the programs of a row, if it says `confined=yes`: each `alias=A/B` is an address that counts
/// as another.
fn confinement(alloc: Global, row: &Row<'_>) -> Result<Option<Confinement>> {
    if row.get("confined").is_none() {
        return Ok(None);
    }
    let mut aliases = Vec::new(alloc);
    for &(key, value) in &row.pairs {
        if key == "alias" {
            let (alias, other) = value
                .split_once('/')
                .context("an alias has no other address")?;
            aliases.push(Alias {
                address: address(alias)?,
                counts_as: address(other)?,
            })?;
        }
    }
    Ok(Some(Confinement { aliases }))
}

/// Returns the configuration of a row.
fn config_of(alloc: Global, row: &Row<'_>) -> Result<Config> {
    let ip6 = match row.get("ip6") {
        Some(text) => Some(text.parse::<Ipv6Addr>()?.octets()),
        None => None,
    };
    let mut config = sample::config(alloc, [203, 0, 113, 1], SLOTS)?;
    config.ip6 = ip6;
    Ok(config)
}

/// Makes the relay of a row.
fn relay_of(alloc: Global, row: &Row<'_>) -> Result<Relay> {
    let confinement = confinement(alloc, row)?;
    let client = program(alloc, row, "client", CLIENT)?;
    let peer = program(alloc, row, "peer", PEER)?;
    let mut relay = Relay::new(alloc, config_of(alloc, row)?, client, peer)?;
    relay.confine(confinement);
    Ok(relay)
}

/// Replaces the programs of a relay that a row names.
fn set_programs(alloc: Global, relay: &mut Relay, row: &Row<'_>) -> Result<()> {
    let client = new_program(alloc, row, "client")?;
    let peer = new_program(alloc, row, "peer")?;
    relay.set_programs(client, peer);
    Ok(())
}

/// Makes a relay with the shipped programs.
pub fn shipped(alloc: Global) -> Result<Relay> {
    sample::shipped(alloc, sample::config(alloc, [203, 0, 113, 1], SLOTS)?)
}

/// Returns what a relay answers to events, a line each, or why it refuses one.
fn replayed(alloc: Global, relay: &mut Relay, events: &str, explains: bool) -> Result<String> {
    let mut input = Input::new(events.as_bytes());
    let mut output = Output::new(Vec::new(alloc));
    match relay.replay(alloc, &mut input, &mut output, explains) {
        Ok(()) => Ok(String::from_utf8(output.into_inner())?),
        Err(ReplayError::Line(line)) => Ok(format!(in alloc; "refused line {line}")?),
        Err(error) => bail!("{error}"),
    }
}

/// Returns what a new relay of a row answers to events, a line each, or why it refuses one.
fn replayed_anew(alloc: Global, row: &Row<'_>, events: &str) -> Result<String> {
    let mut relay = relay_of(alloc, row)?;
    replayed(alloc, &mut relay, events, false)
}

/// Returns what a relay says of the step of an event, a line.
fn stepped(alloc: Global, relay: &mut Relay, event: &str) -> Result<String> {
    match parse(event.as_bytes(), SLOTS, relay.area()) {
        Some(Parsed::Datagram { meta, n }) => {
            let disposition = relay.step(meta, n).disposition;
            Ok(format!(in alloc; "{disposition:?}")?)
        }
        Some(Parsed::Nonce(nonce)) => {
            relay.set_nonce(nonce)?;
            Ok(String::from_str(alloc, "nonce")?)
        }
        None => Ok(String::from_str(alloc, "no event")?),
    }
}

/// Returns a line without its end.
fn without_end(line: &str) -> &str {
    line.strip_suffix('\n').unwrap_or(line)
}

/// What relays say of an event.
#[derive(Drop)]
struct Said {
    answer: String,
    explained: String,
    step: String,
}

impl Said {
    /// Returns the reason that the explained answer has after the answer.
    fn reason(&self) -> &str {
        let reason = self.explained.strip_prefix(self.answer.as_str());
        let reason = reason.and_then(|reason| reason.strip_prefix(" ; "));
        reason.unwrap_or(&self.explained)
    }
}

impl Relays {
    /// Makes the relays of a row.
    pub fn of(alloc: Global, row: &Row<'_>) -> Result<Relays> {
        Ok(Relays {
            answering: relay_of(alloc, row)?,
            explaining: relay_of(alloc, row)?,
            stepping: relay_of(alloc, row)?,
            events: String::new(alloc),
            answers: String::new(alloc),
            count: 0,
        })
    }

    /// Replaces the programs that a row names.
    fn set_programs(&mut self, alloc: Global, row: &Row<'_>) -> Result<()> {
        set_programs(alloc, &mut self.answering, row)?;
        set_programs(alloc, &mut self.explaining, row)?;
        set_programs(alloc, &mut self.stepping, row)
    }

    /// Continues by an event.
    fn play(&mut self, alloc: Global, event: &str) -> Result<Said> {
        let line = format!(in alloc; "{event}\n")?;
        let answer = replayed(alloc, &mut self.answering, &line, false)?;
        let explained = replayed(alloc, &mut self.explaining, &line, true)?;
        let step = stepped(alloc, &mut self.stepping, event)?;
        self.events.push_str(&line)?;
        self.answers.push_str(&answer)?;
        self.count = self.count.saturating_add(1);
        Ok(Said {
            answer: String::from_str(alloc, without_end(&answer))?,
            explained: String::from_str(alloc, without_end(&explained))?,
            step,
        })
    }

    /// Hands in a line that is no event, and returns which line is refused.
    fn refused(&mut self, alloc: Global, line: &str) -> Result<String> {
        let line = format!(in alloc; "{line}\n")?;
        replayed(alloc, &mut self.answering, &line, false)
    }

    /// Replays all events in one call, and returns how many they are, and that their answers are others, if they are.
    fn together(&self, alloc: Global, row: &Row<'_>) -> Result<String> {
        let answers = replayed_anew(alloc, row, &self.events)?;
        let ending = if answers == self.answers {
            ""
        } else {
            " with other answers"
        };
        let count = self.count;
        Ok(format!(in alloc; "{count} events{ending}")?)
    }

    /// Serves the events over links that fail, and returns how many they are, and until when the allocation then lasts.
    fn over_links(&self, alloc: Global, again: usize) -> Result<String> {
        let exchanges = self.events.lines().zip(self.answers.lines());
        let session: Vec<(&str, &str)> = exchanges.collect(alloc)?;
        check_failures(alloc, &session)?;
        let repeated = session.get(..again).context("fewer events")?;
        let end = end_of_pair(alloc, &session, repeated)?;
        let count = session.len();
        Ok(format!(in alloc; "{count} events, until {end}")?)
    }

    /// Returns the answer to a row.
    fn answer(&mut self, alloc: Global, row: &Row<'_>) -> Result<String> {
        match row.kind {
            "event" => {
                let said = self.play(alloc, row.fields)?;
                let (answer, reason, step) = (&said.answer, said.reason(), &said.step);
                Ok(format!(in alloc; "{answer} ; {reason} ; {step}")?)
            }
            "reason" => {
                let said = self.play(alloc, row.fields)?;
                Ok(String::from_str(alloc, said.reason())?)
            }
            "step" => Ok(self.play(alloc, row.fields)?.step),
            "refused" => self.refused(alloc, row.fields),
            "together" => self.together(alloc, row),
            "over-links" => match self.over_links(alloc, count(row.word(0)?)?) {
                Ok(text) => Ok(text),
                Err(error) => Ok(format!(in alloc; "{error}")?),
            },
            "programs" => {
                self.set_programs(alloc, row)?;
                Ok(String::new(alloc))
            }
            kind => bail!("no row is called {kind}"),
        }
    }
}

/// Returns whether the text of a shipped program assembles to it.
fn shipped_text(alloc: Global, side: &str) -> Result<String> {
    let (text, program) = match side {
        "client" => (client_text(), CLIENT),
        "peer" => (peer_text(), PEER),
        _ => bail!("no program is called {side}"),
    };
    let assembled = assemble(alloc, text)?;
    let is_same = assembled.as_slice() == program;
    let found = if is_same {
        "assembles to it"
    } else {
        "assembles to another"
    };
    Ok(String::from_str(alloc, found)?)
}

/// Returns the answer to a row of this section. `relay` begins anew.
pub fn answer(alloc: Global, relays: &mut Option<Relays>, row: &Row<'_>) -> Result<String> {
    if row.kind == "relay" {
        *relays = Some(Relays::of(alloc, row)?);
        return Ok(String::new(alloc));
    }
    if row.kind == "shipped-text" {
        return shipped_text(alloc, row.word(0)?);
    }
    relays
        .as_mut()
        .context("no relay has begun")?
        .answer(alloc, row)
}
