//! Rounds of a server in memory.

use anyhow::{Context, Result, bail};
use rows::row::{Row, count};
use server::{Endpoints, Schedule, serve_round};
use std::alloc::{AllocError, Global};
use std::fmt::Write;

/// A server, of which some endpoints have more after their turns, and which keeps the turns in order.
#[derive(Drop)]
struct InMemory {
    have_more: Vec<usize>,
    turns: Vec<usize>,
    /// Whether a turn had no room.
    is_full: bool,
}

impl Endpoints for InMemory {
    fn serve(&mut self, token: usize) -> bool {
        self.is_full = self.is_full || self.turns.push(token).is_err();
        self.have_more.contains(&token)
    }
}

/// Returns the turns of a round, and whether an endpoint is ready afterwards.
fn round_text(alloc: Global, turns: &[usize], is_ready: bool) -> Result<String, AllocError> {
    let mut text = String::new(alloc);
    for turn in turns {
        write!(text, "{turn} ")?;
    }
    text.push_str(if is_ready { "/ more" } else { "/ no more" })?;
    Ok(text)
}

/// Serves a round: the words are what a wait reports, and `more` each endpoint that may have more after its turn.
fn round(alloc: Global, schedule: &mut Schedule, row: &Row<'_>) -> Result<String> {
    let mut reports = Vec::new(alloc);
    for word in &row.words {
        reports.push(count(word)?)?;
    }
    let mut have_more = Vec::new(alloc);
    for &(_, value) in &row.pairs {
        have_more.push(count(value)?)?;
    }
    let mut server = InMemory {
        have_more,
        turns: Vec::new(alloc),
        is_full: false,
    };
    serve_round(&mut server, &reports, schedule);
    if server.is_full {
        bail!("out of memory");
    }
    Ok(round_text(alloc, &server.turns, schedule.has_ready())?)
}

/// Returns the answer to a row of this section. `endpoints` begins anew, with so many.
pub fn answer(alloc: Global, schedule: &mut Option<Schedule>, row: &Row<'_>) -> Result<String> {
    match row.kind {
        "endpoints" => {
            *schedule = Some(Schedule::new(alloc, count(row.word(0)?)?)?);
            Ok(String::new(alloc))
        }
        "round" => round(alloc, schedule.as_mut().context("no endpoints")?, row),
        kind => bail!("no row is called {kind}"),
    }
}
