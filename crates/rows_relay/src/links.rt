//! A server over a link in memory, of which a receive or a send fails: the events of a session, and what is sent for
//! them.

use crate::relays::shipped;
use crate::wire::{Fate, StoringLink};
use anyhow::{Context, Result, ensure};
use events::{Parsed, Source, parse};
use relay::Relay;
use semantics::MAX_DATAGRAM;
use server::{Place, ServeError, serve_once};
use std::alloc::{AllocError, Global};
use tables::Tables;

/// The slots of the relay.
const SLOTS: usize = 2;

/// A moment of the session, at which rows are compared.
const FIRST: u64 = 1000;

/// A moment after that of all events.
const LATER: u64 = 1_000_000;

/// An event and its answer, a line each.
type EventLines<'a> = (&'a str, &'a str);

/// Serves the datagram of an event, at another moment if there is one, and returns what came of it.
fn serve(
    alloc: Global,
    relay: &mut Relay,
    event: &str,
    (fate, now): (Fate, Option<u64>),
    log: &mut Vec<u8>,
) -> Result<Result<bool, ServeError>> {
    let mut room = vec![in alloc; 0u8; MAX_DATAGRAM]?;
    let Some(Parsed::Datagram { meta, n }) = parse(event.as_bytes(), SLOTS, &mut room) else {
        return Ok(Ok(false));
    };
    let (endpoint, from) = match meta.from {
        Source::Client(client) => (Place::Client, client),
        Source::Peer { slot, addr } => (Place::Slot(slot), addr),
    };
    let mut wire = StoringLink::new(alloc, from, &room[..n], fate, log);
    let now = now.unwrap_or(meta.now);
    let served = serve_once(relay, &mut wire, endpoint, now, meta.tx);
    ensure!(wire.stores_all(), "no room for a call");
    Ok(served.map(|done| done.is_some()))
}

/// What was sent for the events of a session, and what came of one of them.
#[derive(Drop)]
struct ServedSession {
    sent: Vec<u8>,
    served: Result<bool, ServeError>,
}

/// Serves all events at a relay, that of one index with another fate.
fn serve_at(
    alloc: Global,
    relay: &mut Relay,
    session: &[EventLines<'_>],
    index: usize,
    fate: Fate,
) -> Result<ServedSession> {
    let mut sent = Vec::new(alloc);
    let mut served = Ok(false);
    for (i, &(event, _)) in session.iter().enumerate() {
        if i != index {
            serve(alloc, relay, event, (Fate::Served, None), &mut sent)?.ok();
        } else if fate != Fate::Lost {
            served = serve(alloc, relay, event, (fate, None), &mut sent)?;
        }
    }
    Ok(ServedSession { sent, served })
}

/// Serves all events at a new relay, that of one index with another fate.
fn serve_all(
    alloc: Global,
    session: &[EventLines<'_>],
    index: usize,
    fate: Fate,
) -> Result<ServedSession> {
    let mut relay = shipped(alloc)?;
    serve_at(alloc, &mut relay, session, index, fate)
}

/// Returns the answers that are sent, but that of one event.
fn answers_without(
    alloc: Global,
    session: &[EventLines<'_>],
    index: usize,
) -> Result<Vec<u8>, AllocError> {
    let mut lines = Vec::new(alloc);
    for (i, &(_, answer)) in session.iter().enumerate() {
        if i != index && answer != "-" {
            lines.extend_from_slice(answer.as_bytes())?;
            lines.extend_from_slice(b"\n")?;
        }
    }
    Ok(lines)
}

/// Checks that what is sent where a receive fails is as if its event had been lost, and where a send fails, as if its
/// answer had been sent and lost.
fn check_failure(alloc: Global, session: &[EventLines<'_>], index: usize) -> Result<()> {
    let lost = serve_all(alloc, session, index, Fate::Lost)?;
    let unreceived = serve_all(alloc, session, index, Fate::ReceiveFails)?;
    ensure!(unreceived.sent == lost.sent, "receive {index}");
    let is_event = index < session.len();
    let has_failed = unreceived.served == Err(ServeError::Receive);
    ensure!(has_failed || !is_event, "receive {index}: no failure");
    let unsent = serve_all(alloc, session, index, Fate::SendFails)?;
    let answers = answers_without(alloc, session, index)?;
    ensure!(unsent.sent == answers, "send {index}");
    let has_failed = unsent.served == Err(ServeError::Send);
    let is_answered = session.get(index).is_some_and(|event| event.1 != "-");
    ensure!(has_failed == is_answered, "send {index}: its failure");
    Ok(())
}

/// Checks each event of a session, and that without a failure all answers are sent.
pub fn check_failures(alloc: Global, session: &[EventLines<'_>]) -> Result<()> {
    for index in 0..=session.len() {
        check_failure(alloc, session, index)?;
    }
    Ok(())
}

/// Returns whether two tables have the same rows at a slot.
fn are_same(tables: &Tables, others: &Tables, slot: usize) -> bool {
    tables.allocation_at(slot, FIRST) == others.allocation_at(slot, FIRST)
        && tables.permissions(slot, FIRST).as_slice() == others.permissions(slot, FIRST).as_slice()
        && tables.channels(slot, FIRST).as_slice() == others.channels(slot, FIRST).as_slice()
}

/// Checks that the tables of two relays have the same rows.
fn check_rows(relay: &Relay, other: &Relay, event: &str) -> Result<()> {
    for slot in 0..SLOTS {
        let are_same = are_same(relay.tables(), other.tables(), slot);
        ensure!(are_same, "slot {slot} differs after {event}");
    }
    Ok(())
}

/// What happens to a datagram, at which moment if it isn't that of its event, and what comes of it.
type Turn = (Fate, Option<u64>, Result<bool, ServeError>);

/// The turns at which a datagram isn't received: in each way at a moment after all others, and then before them.
const UNRECEIVED: [Turn; 6] = [
    (Fate::Late, Some(LATER), Ok(false)),
    (Fate::Late, Some(0), Ok(false)),
    (Fate::ReceiveFails, Some(LATER), Err(ServeError::Receive)),
    (Fate::ReceiveFails, Some(0), Err(ServeError::Receive)),
    (Fate::TooLong, Some(LATER), Err(ServeError::Receive)),
    (Fate::TooLong, Some(0), Err(ServeError::Receive)),
];

/// The turn at which a datagram is served.
const SERVED: Turn = (Fate::Served, None, Ok(true));

/// Serves an event by a turn, checks what comes of it, and returns what is sent.
fn take_turn(
    alloc: Global,
    relay: &mut Relay,
    event: &str,
    (fate, now, wanted): Turn,
) -> Result<Vec<u8>> {
    let mut log = Vec::new(alloc);
    let served = serve(alloc, relay, event, (fate, now), &mut log)?;
    ensure!(served == wanted, "{fate:?} {now:?}: {event}");
    Ok(log)
}

/// Checks the answer of a relay to an event that is served.
fn check_answer(alloc: Global, relay: &mut Relay, (event, answer): EventLines<'_>) -> Result<()> {
    let sent = take_turn(alloc, relay, event, SERVED)?;
    let is_sent = sent.strip_suffix(b"\n") == Some(answer.as_bytes());
    ensure!(is_sent, "again: {event}");
    Ok(())
}

/// Two relays with the same rows: one whose link fails at each event, and one whose link doesn't.
#[derive(Drop)]
struct Pair {
    failing: Relay,
    served: Relay,
}

impl Pair {
    /// Makes two relays with the shipped programs.
    fn new(alloc: Global) -> Result<Pair> {
        Ok(Pair {
            failing: shipped(alloc)?,
            served: shipped(alloc)?,
        })
    }

    /// Checks that an event that isn't received leaves the tables as they were.
    fn check_unreceived(&mut self, alloc: Global, event: &str) -> Result<()> {
        for turn in UNRECEIVED {
            take_turn(alloc, &mut self.failing, event, turn)?;
            check_rows(&self.failing, &self.served, event)?;
        }
        Ok(())
    }

    /// Checks that an event whose answer isn't sent leaves the tables as they are after it.
    fn check_event(&mut self, alloc: Global, (event, answer): EventLines<'_>) -> Result<()> {
        self.check_unreceived(alloc, event)?;
        let unsent = if answer == "-" {
            Ok(true)
        } else {
            Err(ServeError::Send)
        };
        take_turn(
            alloc,
            &mut self.failing,
            event,
            (Fate::SendFails, None, unsent),
        )?;
        take_turn(alloc, &mut self.served, event, SERVED)?;
        check_rows(&self.failing, &self.served, event)
    }

    /// Checks each event of a session.
    fn check_all(&mut self, alloc: Global, session: &[EventLines<'_>]) -> Result<()> {
        for &event in session {
            self.check_event(alloc, event)?;
        }
        Ok(())
    }

    /// Checks that both relays answer an event once more, with the same nonce.
    fn check_again(&mut self, alloc: Global, exchange: EventLines<'_>) -> Result<()> {
        let (event, _) = exchange;
        self.check_unreceived(alloc, event)?;
        check_answer(alloc, &mut self.failing, exchange)?;
        check_answer(alloc, &mut self.served, exchange)?;
        check_rows(&self.failing, &self.served, event)
    }

    /// Checks each event of a session, and that some are answered once more. Returns the end of the allocation of slot
    /// 0, which is counted from the greatest moment of the events that came.
    fn end_after(
        &mut self,
        alloc: Global,
        session: &[EventLines<'_>],
        repeated: &[EventLines<'_>],
    ) -> Result<u64> {
        self.check_all(alloc, session)?;
        for &event in repeated {
            self.check_again(alloc, event)?;
        }
        let allocation = self.failing.tables().allocation_at(0, FIRST);
        Ok(allocation.context("no allocation")?.end)
    }
}

/// Checks each event of a session over links that fail and that don't, and that some of them are answered once more.
/// Returns the end of the allocation of slot 0.
pub fn end_of_pair(
    alloc: Global,
    session: &[EventLines<'_>],
    repeated: &[EventLines<'_>],
) -> Result<u64> {
    let mut pair = Pair::new(alloc)?;
    pair.end_after(alloc, session, repeated)
}
