//! What a server counts: the datagrams that came, what became of them, and the receives that failed.

ghost use Rattle.std.specs.Prelude.{◌≡◌, ◌<◌, ◌≤◌};
ghost use Rattle.server.specs.Counters.{datagram_kind, arrival_counter, outcome_counter, response_counter, counted_verdict, HasRaised, HasCounted, HasCountedVerdict};
ghost use Rattle.server.specs.CounterValues.{kind_index, reason_index, counter_index, counter_value, verdict_value};

use crate::link::Place;
use control::Response;
use credentials::AuthError;
use machine::Side;
use rules::{Discard, Disposition};

/// What a datagram that came is (RFC 8656, section 12).
#[derive(Clone, Copy)]
pub enum Kind {
    /// A client's, with the first byte of a ChannelData message: 0x40 to 0x7f.
    ChannelData,
    /// A client's, with the first byte of a STUN message: 0x00 to 0x3f.
    Message,
    /// Any other one of a client.
    Other,
    /// A peer's.
    FromPeer,
}

/// What became of a datagram that came.
#[derive(Clone, Copy)]
pub enum TurnOutcome {
    /// This was done with it; what there was to send was sent.
    Done(Disposition),
    /// What there was to send wasn't sent, since its peer or its client is denied.
    Denied,
    /// What there was to send wasn't sent, since the send failed.
    SendFailed,
}

/// What is counted.
#[derive(Clone, Copy)]
pub enum Counter {
    /// Datagrams that came from clients.
    FromClients,
    /// Datagrams that came from peers.
    FromPeers,
    /// Datagrams of clients that were relayed to peers.
    ToPeers,
    /// Datagrams of peers that were relayed to clients.
    ToClients,
    /// Requests that were granted.
    Granted,
    /// Requests without credentials, or with an old nonce.
    Challenged,
    /// Requests with a name that no user has, or with a wrong password.
    Unauthenticated,
    /// Requests that were answered with any other error.
    Refused,
    /// Datagrams of a kind that nothing was sent for, by the reason.
    Discarded(Kind, Discard),
    /// Datagrams that weren't sent, since their peers or their clients are denied.
    Denied,
    /// Sends that failed.
    SendFaults,
    /// Receives that failed.
    ReceiveFaults,
}

/// The number of reasons to discard a datagram.
const REASON_COUNT: usize = 12;

/// The number of counters.
const COUNTER_COUNT: usize = 59;

/// The verdicts that are counted each on its own are those below this number; the others are counted together.
pub const VERDICTS: usize = 16;

/// All kinds of datagrams.
pub const KINDS: [Kind; 4] = [
    Kind::ChannelData,
    Kind::Message,
    Kind::Other,
    Kind::FromPeer,
];

/// All reasons to discard a datagram.
pub const REASONS: [Discard; REASON_COUNT] = [
    Discard::NotServed,
    Discard::ByProgram,
    Discard::Malformed,
    Discard::NoRequest,
    Discard::NoAllocation,
    Discard::NoChannel,
    Discard::UnknownAttribute,
    Discard::Incomplete,
    Discard::NoPermission,
    Discard::OtherFamily,
    Discard::TooLong,
    Discard::Confined,
];

/// How often the programs of the two sides ended with which verdict.
#[derive(Drop)]
pub(crate) struct VerdictCounts {
    pub(crate) client: [u64; VERDICTS + 1],
    pub(crate) peer: [u64; VERDICTS + 1],
}

/// The counters of a server, which stay at [`u64::MAX`] once they are there.
#[derive(Drop)]
pub struct Counters {
    values: [u64; COUNTER_COUNT],
    verdicts: VerdictCounts,
}

impl Kind {
    /// Returns what a datagram is that came at an endpoint.
    #[inline(always)]
    pub fn of(endpoint: Place, datagram: &[u8]) -> Kind
        ensures { result ≡ datagram_kind endpoint datagram.now }
    {
        if let Place::Slot(_) = endpoint {
            return Kind::FromPeer;
        }
        match datagram.first() {
            Some(0x00..=0x3f) => Kind::Message,
            Some(0x40..=0x7f) => Kind::ChannelData,
            _ => Kind::Other,
        }
    }

    /// Returns the counter of the datagrams of this kind that came.
    #[inline(always)]
    fn arrival_counter(self) -> Counter
        ensures { result ≡ arrival_counter self }
    {
        match self {
            Kind::FromPeer => Counter::FromPeers,
            _ => Counter::FromClients,
        }
    }

    /// Returns the index of the kind, below 4.
    fn index(self) -> usize
        ensures index { result ≡ kind_index self }
        ensures below { result < 4 }
    {
        match self {
            Kind::ChannelData => 0,
            Kind::Message => 1,
            Kind::Other => 2,
            Kind::FromPeer => 3,
        }
    }
}

/// Returns the counter of a response.
fn response_counter(response: Response) -> Counter
    ensures { result ≡ response_counter response }
{
    match response {
        Response::Granted(_) => Counter::Granted,
        Response::Unauthenticated(AuthError::Missing | AuthError::StaleNonce) => {
            Counter::Challenged
        }
        Response::Unauthenticated(
            AuthError::UnknownUser | AuthError::WrongIntegrity | AuthError::Expired,
        ) => { Counter::Unauthenticated }
        Response::Unauthenticated(AuthError::Incomplete) | Response::Refused(_) => Counter::Refused,
    }
}

impl TurnOutcome {
    /// Returns the counter of the datagrams of a kind with this outcome.
    #[inline(always)]
    fn counter(self, kind: Kind) -> Counter
        ensures { result ≡ outcome_counter kind self }
    {
        match self {
            TurnOutcome::Denied => Counter::Denied,
            TurnOutcome::SendFailed => Counter::SendFaults,
            TurnOutcome::Done(Disposition::Discarded(reason)) => Counter::Discarded(kind, reason),
            TurnOutcome::Done(Disposition::Answered(response)) => response_counter(response),
            TurnOutcome::Done(Disposition::Relayed) => match kind {
                Kind::FromPeer => Counter::ToClients,
                _ => Counter::ToPeers,
            },
        }
    }
}

/// Returns the index of a reason, below [`REASON_COUNT`].
fn reason_index(reason: Discard) -> usize
    ensures index { result ≡ reason_index reason }
    ensures below { result < REASON_COUNT }
{
    match reason {
        Discard::NotServed => 0,
        Discard::ByProgram => 1,
        Discard::Malformed => 2,
        Discard::NoRequest => 3,
        Discard::NoAllocation => 4,
        Discard::NoChannel => 5,
        Discard::UnknownAttribute => 6,
        Discard::Incomplete => 7,
        Discard::NoPermission => 8,
        Discard::OtherFamily => 9,
        Discard::TooLong => 10,
        Discard::Confined => 11,
    }
}

/// Returns the index of the count of a verdict, at most [`VERDICTS`].
#[inline(always)]
fn verdict_index(verdict: u64) -> usize
    ensures index { result ≡ counted_verdict verdict }
    ensures most { result ≤ VERDICTS }
{
    if verdict < VERDICTS as u64 {
        verdict as usize
    } else {
        VERDICTS
    }
}

impl Counter {
    /// Returns the index of the counter, below [`COUNTER_COUNT`].
    #[inline(always)]
    fn index(self) -> usize
        ensures index { result ≡ counter_index self }
        ensures below { result < COUNTER_COUNT }
    {
        match self {
            Counter::FromClients => 0,
            Counter::FromPeers => 1,
            Counter::ToPeers => 2,
            Counter::ToClients => 3,
            Counter::Granted => 4,
            Counter::Challenged => 5,
            Counter::Unauthenticated => 6,
            Counter::Refused => 7,
            Counter::Denied => 8,
            Counter::SendFaults => 9,
            Counter::ReceiveFaults => 10,
            Counter::Discarded(kind, reason) => {
                11 + REASON_COUNT * kind.index() + reason_index(reason)
            }
        }
    }
}

impl Counters {
    ghost use Rattle.std.specs.Prelude.{ℕ};
    ghost use Rattle.machine.specs.declared.context.Side.{Side};
    ghost use Rattle.server.specs.declared.counters.Counter.{Counter};

    /// Returns counters that are all 0.
    pub const fn new() -> Counters
        ensures counters { (c : Counter) → counter_value result c ≡ 0 }
        ensures verdicts { (v : Side × ℕ) → verdict_value result v ≡ 0 }
    {
        Counters {
            values: [0; COUNTER_COUNT],
            verdicts: VerdictCounts {
                client: [0; VERDICTS + 1],
                peer: [0; VERDICTS + 1],
            },
        }
    }

    /// Returns the value of a counter.
    pub fn get(&self, counter: Counter) -> u64
        ensures { result ≡ counter_value self.now counter }
    {
        self.values[counter.index()]
    }

    /// Returns how often the program of a side ended with a verdict; from 16 on, with any of those.
    pub fn verdict_count(&self, side: Side, verdict: u64) -> u64
        ensures { result ≡ verdict_value self.now (side, counted_verdict verdict) }
    {
        let index = verdict_index(verdict);
        match side {
            Side::Client => self.verdicts.client[index],
            Side::Peer => self.verdicts.peer[index],
        }
    }

    /// Adds one to a counter.
    #[inline(always)]
    fn raise(&mut self, counter: Counter)
        ensures raised { HasRaised counter (counter_value self.old) (counter_value self.new) }
        ensures verdicts { self.new.verdicts ≡ self.old.verdicts }
    {
        let index = counter.index();
        self.values[index] = self.values[index].saturating_add(1);
    }

    /// Counts a datagram of a kind that came, with what became of it.
    #[inline(always)]
    pub fn count(&mut self, kind: Kind, outcome: TurnOutcome)
        ensures counted { HasCounted kind outcome (counter_value self.old) (counter_value self.new) }
        ensures verdicts { self.new.verdicts ≡ self.old.verdicts }
    {
        self.raise(kind.arrival_counter());
        self.raise(outcome.counter(kind));
    }

    /// Counts the verdict of the program of a side, if it ran.
    /// See docs/DECISIONS.md, "Verdicts are counted up to 15".
    #[inline(always)]
    pub fn count_verdict(&mut self, side: Side, verdict: Option<u64>)
        ensures counted { HasCountedVerdict side verdict (verdict_value self.old) (verdict_value self.new) }
        ensures rest { self.new ≡ record self.old { verdicts = self.new.verdicts } }
    {
        let Some(verdict) = verdict else {
            return;
        };
        let index = verdict_index(verdict);
        match side {
            Side::Client => {
                let count = self.verdicts.client[index];
                self.verdicts.client[index] = count.saturating_add(1);
            }
            Side::Peer => {
                let count = self.verdicts.peer[index];
                self.verdicts.peer[index] = count.saturating_add(1);
            }
        }
    }

    /// Counts a receive that failed.
    pub fn fault(&mut self)
        ensures counted { HasRaised Counter.ReceiveFaults (counter_value self.old) (counter_value self.new) }
        ensures verdicts { self.new.verdicts ≡ self.old.verdicts }
    {
        self.raise(Counter::ReceiveFaults);
    }
}
