//! One turn of a server: what comes at an endpoint is recorded, decided, answered where it may be, and counted.

ghost use Rattle.std.specs.Prelude.{◌≡◌, ◌≤◌, [], ◌∷◌, length, Result, IfOk, IfSome};
ghost use Rattle.events.specs.Actions.{sending_of};
ghost use Rattle.server.specs.Calls.{Sent, HasReported};
ghost use Rattle.server.specs.CounterValues.{counter_value, verdict_value};
ghost use Rattle.server.specs.Turns.{IsReceived, source_at, may_answer, may_reach, outcome_of_send, IsAnswered, IsTurn, HasCountedTurn, HasCountedTurnVerdict};
ghost use Rattle.server.specs.declared.link.LinkFault.{LinkFault};

use crate::counters::{Counters, Kind, TurnOutcome};
use crate::link::{Link, LinkFault, Place};
use crate::recorder::Recorder;
use attributes::Addr;
use events::{Action, Meta, Source};
use peer_filter::PeerFilter;
use relay::{Disposition, Relay, side_of};
use semantics::MAX_DATAGRAM;

/// Where a datagram may have come, when, and the transaction id for an indication about it.
#[derive(Clone, Copy)]
pub struct Arrival {
    pub endpoint: Place,
    /// Whole seconds since 1970.
    pub now: u64,
    /// The transaction id for an indication about it.
    pub tx: [u8; 12],
}

/// A datagram that came, and what became of it.
#[derive(Clone, Copy)]
pub struct Served {
    /// Where it came from.
    pub from: Source,
    /// What it is.
    pub kind: Kind,
    /// What became of it.
    pub outcome: TurnOutcome,
    /// The verdict of the program that ran over it, if one ran.
    pub verdict: Option<u64>,
}

/// A datagram that came, in the first bytes of the relay's room.
#[derive(Clone, Copy)]
pub(crate) struct Arrived {
    pub(crate) meta: Meta,
    /// How many bytes it has, at most 65,507.
    pub(crate) n: usize,
    pub(crate) kind: Kind,
}

/// Returns the source of what comes from an address at an endpoint.
pub fn source_at(endpoint: Place, address: Addr) -> Source
    ensures { result ≡ source_at endpoint address }
{
    match endpoint {
        Place::Client => Source::Client(address),
        Place::Slot(slot) => Source::Peer {
            slot,
            addr: address,
        },
    }
}

/// Receives a datagram, if one has come, into the first bytes of a relay's room, and records it.
#[inline(always)]
fn receive<L: Link, R: Recorder>(
    room: &mut [u8],
    link: &mut L,
    recorder: &mut R,
    arrival: Arrival,
) -> Result<Option<Arrived>, LinkFault>
    requires { length room.old ≡ MAX_DATAGRAM }
    ensures received { IsReceived arrival room.new (L.calls link.old) (L.calls link.new)
        (R.events recorder.old) (R.events recorder.new) result }
    ensures room { length room.new ≡ MAX_DATAGRAM }
    ensures short { IfOk result (λ o. IfSome o (λ a. a.n ≤ MAX_DATAGRAM)) }
{
    let Arrival { endpoint, now, tx } = arrival;
    let Some((n, address)) = link.receive(endpoint, room)? else {
        return Ok(None);
    };
    if n > MAX_DATAGRAM {
        return Err(LinkFault);
    }
    let meta = Meta {
        now,
        tx,
        from: source_at(endpoint, address),
    };
    let datagram = &room[..n];
    recorder.record(&meta, datagram);
    let kind = Kind::of(endpoint, datagram);
    Ok(Some(Arrived { meta, n, kind }))
}

/// Returns whether a server sends to a peer: it does where it has no filter, or where the filter allows the peer.
#[inline(always)]
fn may_reach(filter: &Option<PeerFilter>, peer: &Addr) -> bool
    ensures { result ≡ may_reach filter.now peer.now }
{
    match filter {
        Some(filter) => filter.allows(peer),
        None => true,
    }
}

/// Returns whether a server sends to a client: it does where it has no filter, or where the filter allows the client.
#[inline(always)]
fn may_answer(filter: &Option<PeerFilter>, client: &Addr) -> bool
    ensures { result ≡ may_answer filter.now client.now }
{
    match filter {
        Some(filter) => filter.allows_client(client),
        None => true,
    }
}

/// Sends a datagram from an endpoint, and returns what became of the one that came, with which this was done.
#[inline(always)]
fn send_from<L: Link>(
    link: &mut L,
    endpoint: Place,
    to: Addr,
    bytes: &[u8],
    done: Disposition,
) -> TurnOutcome
    ensures { (answer : Result (Unit {0}) LinkFault)
        × HasReported (L.calls link.old) (L.calls link.new) (Sent endpoint to bytes.now answer ∷ [])
        × (result ≡ outcome_of_send done answer) }
{
    match link.send(endpoint, to, bytes) {
        Ok(()) => TurnOutcome::Done(done),
        Err(LinkFault) => TurnOutcome::SendFailed,
    }
}

/// Sends an answer, if there is one and neither its peer nor its client is denied, and returns what became of the
/// datagram that came.
#[inline(always)]
fn answer<L: Link>(
    link: &mut L,
    filter: &Option<PeerFilter>,
    action: &Action<'_>,
    done: Disposition,
) -> TurnOutcome
    ensures { IsAnswered filter.now (sending_of action.now) done (L.calls link.old) (L.calls link.new) result }
{
    match *action {
        Action::Nothing => TurnOutcome::Done(done),
        Action::ToPeer { slot, peer, bytes } => {
            if !may_reach(filter, &peer) {
                return TurnOutcome::Denied;
            }
            send_from(link, Place::Slot(slot), peer, bytes, done)
        }
        Action::ToClient { client, bytes } => {
            if !may_answer(filter, &client) {
                return TurnOutcome::Denied;
            }
            send_from(link, Place::Client, client, bytes, done)
        }
    }
}

/// Takes one turn at an endpoint: receives once, records what came, steps, and sends the answer once, if there is one
/// and neither its peer nor its client is denied. Returns what became of the datagram that came; `None` is that none
/// came.
///
/// # Errors
/// Where the receive fails or counts more than 65,507 bytes; then the relay is as before, and nothing is recorded or
/// sent.
#[inline(always)]
pub(crate) fn take<L: Link, R: Recorder>(
    relay: &mut Relay,
    link: &mut L,
    recorder: &mut R,
    filter: &Option<PeerFilter>,
    arrival: Arrival,
) -> Result<Option<Served>, LinkFault>
    ensures { IsTurn filter.now arrival relay.old relay.new (L.calls link.old) (L.calls link.new)
        (R.events recorder.old) (R.events recorder.new) result }
{
    let Some(arrived) = receive(relay.area(), link, recorder, arrival)? else {
        return Ok(None);
    };
    recorder.before_step(relay, &arrived.meta, arrived.n);
    let step = relay.step(arrived.meta, arrived.n);
    let outcome = answer(link, filter, &step.action, step.disposition);
    recorder.after_step(&arrived.meta.from, &step);
    Ok(Some(Served {
        from: arrived.meta.from,
        kind: arrived.kind,
        outcome,
        verdict: step.verdict,
    }))
}

/// Takes one turn at an endpoint, and counts it: receives once, records what came, steps, and sends the answer once, if
/// there is one and neither its peer nor its client is denied. Returns what became of the datagram that came; `None` is
/// that none came.
/// See docs/DESIGN.md, "One function serves a datagram".
/// See docs/DESIGN.md, "A turn is counted when it ends".
///
/// # Errors
/// Where the receive fails or counts more than 65,507 bytes; then the relay is as before, and nothing is recorded or
/// sent.
#[inline(always)]
pub fn turn<L: Link, R: Recorder>(
    relay: &mut Relay,
    link: &mut L,
    recorder: &mut R,
    filter: &Option<PeerFilter>,
    counters: &mut Counters,
    arrival: Arrival,
) -> Result<Option<Served>, LinkFault>
    ensures taken { IsTurn filter.now arrival relay.old relay.new (L.calls link.old) (L.calls link.new)
        (R.events recorder.old) (R.events recorder.new) result }
    ensures counted { HasCountedTurn result (counter_value counters.old) (counter_value counters.new) }
    ensures verdicts { HasCountedTurnVerdict result (verdict_value counters.old) (verdict_value counters.new) }
{
    let taken = take(relay, link, recorder, filter, arrival);
    match taken {
        Ok(Some(served)) => {
            counters.count_verdict(side_of(&served.from), served.verdict);
            counters.count(served.kind, served.outcome);
        }
        Ok(None) => {}
        Err(LinkFault) => counters.fault(),
    }
    taken
}
