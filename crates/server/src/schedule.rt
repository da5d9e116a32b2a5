//! Which endpoints are served in a round of a server: those that a wait reports, and those that may have more.

ghost use Rattle.std.specs.Prelude.{◌≡◌, ◌<◌, ◌≤◌, IfOk, OnSome, map, replicate, if◌then◌else◌};
ghost use Rattle.std.specs.List.{position, position_or_len};
ghost use Rattle.server.specs.Schedules.{ready_at_first, begun, status_at, is_new, is_due, reported, handed_out, put, has_ready, due_count};
ghost use Rattle.server.specs.Entries.{unstamped};

use std::alloc::{AllocError, Global};
use std::marker::Model;

/// The round after which rounds are counted from 1 again.
const LAST_ROUND: u64 = u64::MAX;

/// What is known of an endpoint in a round.
#[derive(Clone, Copy)]
pub struct Status {
    /// Whether it may have more, as far as its last turn or a report says.
    pub is_ready: bool,
    /// Whether it was served in this round.
    pub is_served: bool,
}

/// What is stored of an endpoint.
#[derive(Clone, Copy)]
pub(crate) struct Entry {
    pub(crate) is_ready: bool,
    /// The last round in which it was served; 0 for none.
    pub(crate) round: u64,
}

/// The endpoints of a server, by their tokens 0, 1, .., and which of them are served in a round: first those that a
/// wait reports and that weren't known to be ready, as they are reported, and then those that were ready before, in
/// order. The model is the list of what is known of them.
#[derive(Drop)]
pub struct Schedule {
    entries: Vec<Entry>,
    /// The current round, counted from 1.
    round: u64,
    /// The number of endpoints that are ready.
    ready: usize,
    /// No endpoint before this one is ready and not served.
    next: usize,
}

impl Model for Schedule {
    ghost use Rattle.std.specs.Prelude.{List};
    ghost use Rattle.server.specs.declared.schedule.Status.{Status};

    ghost Value = { List Status };

    ghost use Rattle.server.specs.Entries.{statuses_in, IsSchedule};

    ghost view = { λ s. statuses_in s.round s.entries.items };

    ghost invariant = { λ s. IsSchedule s.round s.entries.items s.ready s.next };
}

/// Returns whether an endpoint is ready and isn't served in the current round.
#[inline(always)]
fn is_due(status: Status) -> bool
    ensures { result ≡ is_due status }
{
    status.is_ready && !status.is_served
}

/// Returns how many endpoints one is, in the count of those that are ready.
#[inline(always)]
fn count_of(is_ready: bool) -> usize
    ensures { result ≡ (if is_ready then 1 else 0) }
{
    if is_ready { 1 } else { 0 }
}

/// Takes the stamps of all entries away.
fn unstamp(entries: &mut [Entry])
    ensures { entries.new ≡ map unstamped entries.old }
{
    for entry in entries.iter_mut() {
        entry.round = 0;
    }
}

impl Schedule {
    /// Returns the schedule of a number of endpoints, each of which is ready at first, since datagrams may have come
    /// before the first wait.
    ///
    /// # Errors
    /// Where memory runs out.
    pub fn new(alloc: Global, count: usize) -> Result<Schedule, AllocError>
        ensures { IfOk result (λ s. s ≡ replicate count ready_at_first) }
    {
        let first = Entry {
            is_ready: true,
            round: 0,
        };
        let entries = vec![in alloc; first; count]?;
        Ok(Schedule {
            entries,
            round: 1,
            ready: count,
            next: 0,
        })
    }

    /// Begins a round: no endpoint is served in it yet.
    pub fn begin(&mut self)
        ensures { self.new ≡ begun self.old }
    {
        self.next = 0;
        if self.round < LAST_ROUND {
            self.round += 1;
            return;
        }
        unstamp(self.entries.as_mut_slice());
        self.round = 1;
    }

    /// Returns what is known of an endpoint; of a token that no endpoint has, that it is served and not ready.
    #[inline(always)]
    fn status(&self, token: usize) -> Status
        ensures { result ≡ status_at self.now token }
    {
        if token >= self.entries.len() {
            return Status {
                is_ready: false,
                is_served: true,
            };
        }
        let entry = self.entries[token];
        Status {
            is_ready: entry.is_ready,
            is_served: entry.round == self.round,
        }
    }

    /// Notes that an endpoint, if one has the token, is served in this round, and whether it is ready.
    #[inline(always)]
    fn put(&mut self, token: usize, is_ready: bool)
        ensures { self.new ≡ put self.old token is_ready }
    {
        if token >= self.entries.len() {
            return;
        }
        let was_ready = self.entries[token].is_ready;
        let round = self.round;
        self.entries[token] = Entry { is_ready, round };
        self.ready = self.ready - count_of(was_ready) + count_of(is_ready);
    }

    /// Notes that a wait has reported an endpoint. Returns whether it is to be served now: it was not ready, and is not
    /// served in this round yet. One that was ready is served later in the round; one that is reported again after its
    /// turn is ready for the next round.
    pub fn report(&mut self, token: usize) -> bool
        ensures now { result ≡ is_new (status_at self.old token) }
        ensures after { self.new ≡ reported self.old token }
    {
        let status = self.status(token);
        if status.is_ready {
            return false;
        }
        self.put(token, status.is_served);
        !status.is_served
    }

    /// Notes that an endpoint was served, and whether it may have more.
    pub fn served(&mut self, token: usize, more: bool)
        ensures after { self.new ≡ put self.old token more }
        ensures no_more { due_count self.new ≤ due_count self.old }
    {
        self.put(token, more);
    }

    /// Returns the first endpoint that is ready and isn't served in this round, or the number of endpoints where there
    /// is none.
    #[inline(always)]
    fn find(&self) -> usize
        ensures { result ≡ position_or_len is_due self.now }
    {
        let count = self.entries.len();
        if self.ready == 0 {
            return count;
        }
        for token in self.next..count {
            if is_due(self.status(token)) {
                return token;
            }
        }
        count
    }

    /// Returns the first endpoint that is ready and isn't served in this round, which is to be served now. From then on
    /// it counts as served. `None` ends the round.
    pub fn next_ready(&mut self) -> Option<usize>
        ensures endpoint { result ≡ position is_due self.old }
        ensures after { self.new ≡ handed_out self.old }
        ensures fewer { OnSome result (due_count self.new < due_count self.old) }
    {
        let token = self.find();
        self.next = token;
        if token >= self.entries.len() {
            return None;
        }
        self.put(token, true);
        Some(token)
    }

    /// Returns whether an endpoint is ready.
    pub fn has_ready(&self) -> bool
        ensures { result ≡ has_ready self.now }
    {
        self.ready > 0
    }
}
