//! The log of a server: allocations that are made and that end, and credentials that are refused.

use crate::requests::request_in;
use attributes::Addr;
use control::{Grant, MAX_TEXT, Response};
use credentials::AuthError;
use server::Timer;
use std::alloc::{AllocError, Global};
use std::io::Write;
use std::time::Duration;
use std::{ascii, fmt};
use stun::registry::ErrorCode;
use stun::registry::attribute::USERNAME;
use tables::{Allocation, Tables};
use thiserror::Error;

/// The most lines of a period, the line that counts the others aside.
const LINES: usize = ALLOCATION_LINES + USER_LINES + STRANGER_LINES;

/// The most lines of allocations, which nobody's refusals take.
const ALLOCATION_LINES: usize = 60;

/// The most lines of refusals of users that there are, which nobody else's refusals take.
const USER_LINES: usize = 20;

/// The most lines of other refusals.
const STRANGER_LINES: usize = 20;

/// The most lines that are printed between two turns.
const LINES_AT_ONCE: usize = 8;

/// The seconds of a period.
const PERIOD: u64 = 1;

/// The USERNAME of a request, as many of its bytes as the longest name of a user has. Displays in quotes, with escapes
/// for quotes and for bytes that aren't printable ASCII.
#[derive(Clone, Copy)]
struct Name {
    bytes: [u8; MAX_TEXT],
    count: usize,
}

/// Who sent a request. Displays as a part of a line.
#[derive(Clone, Copy)]
pub struct Sender {
    client: Addr,
    name: Name,
}

/// Why an allocation ended. Displays as the reason.
#[derive(Clone, Copy, Debug, Error)]
pub enum EndReason {
    /// It was deleted by a Refresh request.
    #[error("refreshed to 0")]
    Refreshed,
    /// Its lifetime passed.
    #[error("expired")]
    Expired,
    /// No user that replaced the former ones has its name and password.
    #[error("its user was replaced")]
    Users,
    /// Its user was revoked.
    #[error("its user was revoked")]
    Revoked,
}

/// Why the credentials of a request are refused. Displays as the reason.
#[derive(Clone, Copy, Debug, Error)]
enum RefusalReason {
    #[error("incomplete credentials")]
    Incomplete,
    #[error("unknown user")]
    UnknownUser,
    #[error("wrong password")]
    WrongPassword,
    /// The name is of time-limited credentials, and its time has passed.
    #[error("expired")]
    Expired,
    /// They are right, but the client's allocation is another user's.
    #[error("another user's allocation")]
    OtherUser,
}

/// What happened.
#[derive(Clone, Copy)]
enum LogEvent {
    /// An allocation was made at a slot, for a lifetime in seconds.
    Made { slot: usize, lifetime: u32 },
    /// The allocation at a slot ended.
    Ended { slot: usize, reason: EndReason },
    /// Credentials were refused.
    Refused(RefusalReason),
}

/// The lines of a period, by what they say.
#[derive(Clone, Copy)]
struct Counts {
    allocations: usize,
    users: usize,
    strangers: usize,
}

/// A line of the log. Displays as that.
#[derive(Clone, Copy)]
struct LogEntry {
    event: LogEvent,
    sender: Sender,
    /// The relayed port of slot 0.
    first_port: u16,
}

/// An allocation whose end is still to be logged.
#[derive(Clone, Copy)]
struct OpenAllocation {
    /// Who sent the request that made it.
    sender: Sender,
    /// That of this request.
    tx: [u8; 12],
}

/// The log of a server. Its memory is taken before the server listens.
/// See docs/DECISIONS.md, "What the log has".
#[derive(Drop)]
pub struct ServerLog {
    first_port: u16,
    /// For each slot the allocation that was logged and whose end wasn't.
    open: Vec<Option<OpenAllocation>>,
    /// What was added since all was printed.
    entries: Vec<LogEntry>,
    /// How many of these are printed.
    printed: usize,
    /// How many were added in this period, those that were printed included.
    counts: Counts,
    /// How many weren't, since there were too many.
    left_out: u64,
    period: Timer,
    /// Whether the period is over, but for the lines that are still to be printed.
    is_over: bool,
}

impl Name {
    /// Returns a name of bytes.
    fn new(bytes: &[u8]) -> Name {
        let mut name = Name {
            bytes: [0; MAX_TEXT],
            count: bytes.len().min(MAX_TEXT),
        };
        for (to, from) in name.bytes.iter_mut().zip(bytes) {
            *to = *from;
        }
        name
    }
}

impl fmt::Display for Name {
    fn fmt<W: fmt::Write>(&self, f: &mut fmt::Formatter<W>) -> fmt::Result {
        f.write_str("\"")?;
        for byte in self.bytes.iter().take(self.count) {
            write!(f, "{}", ascii::escape_default(*byte))?;
        }
        f.write_str("\"")
    }
}

impl Sender {
    /// Returns who sent the request that is at the start of the room for datagrams. Without a USERNAME the name is
    /// empty.
    pub fn of_request(client: Addr, room: &[u8]) -> Sender {
        let value = request_in(room).and_then(|request| request.value_of(USERNAME));
        Sender {
            client,
            name: Name::new(value.unwrap_or(&[])),
        }
    }
}

impl fmt::Display for Sender {
    fn fmt<W: fmt::Write>(&self, f: &mut fmt::Formatter<W>) -> fmt::Result {
        write!(f, "client {}, user {}", self.client, self.name)
    }
}

/// Counts one more, unless there are as many as there may be. Returns whether it is counted.
fn count_one(count: &mut usize, most: usize) -> bool {
    let has_room = *count < most;
    if has_room {
        *count += 1;
    }
    has_room
}

impl Counts {
    const NONE: Counts = Counts {
        allocations: 0,
        users: 0,
        strangers: 0,
    };

    /// Counts a line, unless the period has as many of its kind as it may have. Returns whether it is counted.
    fn add(&mut self, event: LogEvent) -> bool {
        match event {
            LogEvent::Made { .. } | LogEvent::Ended { .. } => {
                count_one(&mut self.allocations, ALLOCATION_LINES)
            }
            LogEvent::Refused(RefusalReason::WrongPassword | RefusalReason::OtherUser) => {
                count_one(&mut self.users, USER_LINES)
            }
            LogEvent::Refused(
                RefusalReason::Incomplete | RefusalReason::UnknownUser | RefusalReason::Expired,
            ) => count_one(&mut self.strangers, STRANGER_LINES),
        }
    }
}

impl LogEntry {
    /// Returns the relayed port of a slot.
    fn port(&self, slot: usize) -> usize {
        usize::from(self.first_port).saturating_add(slot)
    }
}

impl fmt::Display for LogEntry {
    fn fmt<W: fmt::Write>(&self, f: &mut fmt::Formatter<W>) -> fmt::Result {
        let what = match self.event {
            LogEvent::Made { .. } => "allocation made",
            LogEvent::Ended { .. } => "allocation ended",
            LogEvent::Refused(_) => "credentials refused",
        };
        write!(f, "{what}: {}, ", self.sender)?;
        match self.event {
            LogEvent::Made { slot, lifetime } => {
                let port = self.port(slot);
                write!(f, "slot {slot}, port {port}, lifetime {lifetime}")
            }
            LogEvent::Ended { slot, reason } => {
                write!(f, "slot {slot}, port {}, {reason}", self.port(slot))
            }
            LogEvent::Refused(reason) => write!(f, "{reason}"),
        }
    }
}

/// Returns why a response refuses the credentials of its request, if it does. A request without credentials, or with an
/// old nonce, is the first of a session, and is challenged.
fn refusal_of(response: Response) -> Option<RefusalReason> {
    match response {
        Response::Unauthenticated(AuthError::Incomplete) => Some(RefusalReason::Incomplete),
        Response::Unauthenticated(AuthError::UnknownUser) => Some(RefusalReason::UnknownUser),
        Response::Unauthenticated(AuthError::WrongIntegrity) => Some(RefusalReason::WrongPassword),
        Response::Unauthenticated(AuthError::Expired) => Some(RefusalReason::Expired),
        Response::Refused(ErrorCode::WrongCredentials) => Some(RefusalReason::OtherUser),
        _ => None,
    }
}

impl OpenAllocation {
    /// Returns whether it is an allocation of the tables.
    fn is(&self, allocation: &Allocation) -> bool {
        self.sender.client == allocation.client && self.tx == allocation.tx
    }
}

impl ServerLog {
    /// Returns the log of a server, and takes its memory. Slot 0 has the relayed port `first_port`.
    ///
    /// # Errors
    /// Where memory runs out.
    pub fn new(
        alloc: Global,
        slots: usize,
        first_port: u16,
        now: Duration,
    ) -> Result<ServerLog, AllocError> {
        let mut open = Vec::with_capacity(alloc, slots)?;
        for _ in 0..slots {
            open.push(None)?;
        }
        Ok(ServerLog {
            first_port,
            open,
            entries: Vec::with_capacity(alloc, LINES)?,
            printed: 0,
            counts: Counts::NONE,
            left_out: 0,
            period: Timer::new(now, Duration::from_secs(PERIOD)),
            is_over: false,
        })
    }

    /// Adds an entry, unless the period has as many of its kind as it may have.
    fn add(&mut self, event: LogEvent, sender: Sender) {
        if !self.counts.add(event) {
            self.left_out = self.left_out.saturating_add(1);
            return;
        }
        let _ = self.entries.push(LogEntry {
            event,
            sender,
            first_port: self.first_port,
        });
    }

    /// Ends the allocation that is open at a slot, if there is one.
    fn end(&mut self, slot: usize, reason: EndReason) {
        if let Some(place) = self.open.get_mut(slot)
            && let Some(OpenAllocation { sender, .. }) = *place
        {
            *place = None;
            self.add(LogEvent::Ended { slot, reason }, sender);
        }
    }

    /// Adds the allocation at a slot, unless it was added before: a repeated request is granted again.
    fn on_allocated(
        &mut self,
        slot: usize,
        lifetime: u32,
        sender: Sender,
        allocation: &Allocation,
    ) {
        if let Some(Some(open)) = self.open.get(slot)
            && open.is(allocation)
        {
            return;
        }
        self.end(slot, EndReason::Expired);
        if let Some(place) = self.open.get_mut(slot) {
            *place = Some(OpenAllocation {
                sender,
                tx: allocation.tx,
            });
            self.add(LogEvent::Made { slot, lifetime }, sender);
        }
    }

    /// Ends the allocation of a client, which deleted it.
    fn on_deleted(&mut self, client: Addr) {
        let is_of_client = |place: &Option<OpenAllocation>| match place {
            Some(open) => open.sender.client == client,
            None => false,
        };
        if let Some(slot) = self.open.iter().position(is_of_client) {
            self.end(slot, EndReason::Refreshed);
        }
    }

    /// Adds what the response to a request says, with the tables as they are after it.
    #[inline(never)]
    pub fn on_response(&mut self, response: Response, sender: Sender, tables: &Tables, now: u64) {
        if let Some(reason) = refusal_of(response) {
            return self.add(LogEvent::Refused(reason), sender);
        }
        match response {
            Response::Granted(Grant::Allocated { slot, lifetime, .. }) => {
                if let Some(allocation) = tables.allocation_at(slot, now) {
                    self.on_allocated(slot, lifetime, sender, &allocation);
                }
            }
            Response::Granted(Grant::Refreshed { lifetime: 0 }) => self.on_deleted(sender.client),
            _ => {}
        }
    }

    /// Ends each allocation that the tables don't have any more.
    pub fn end_others(&mut self, tables: &Tables, now: u64, reason: EndReason) {
        for slot in 0..self.open.len() {
            let is_live = match (self.open.get(slot), tables.allocation_at(slot, now)) {
                (Some(Some(open)), Some(allocation)) => open.is(&allocation),
                _ => false,
            };
            if !is_live {
                self.end(slot, reason);
            }
        }
    }

    /// Returns whether there may be something to print before the next datagram comes: an allocation ends, or lines
    /// were left out.
    pub fn is_waiting(&self) -> bool {
        self.left_out > 0 || self.open.iter().any(|place| place.is_some())
    }

    /// Returns whether lines are still to be printed.
    fn has_lines(&self) -> bool {
        !self.entries.is_empty()
    }

    /// Does one piece of what is due, and returns whether there was one: prints some lines; where a period is over,
    /// ends what the tables don't have any more, or begins the next period.
    pub fn do_piece<E: Write>(
        &mut self,
        err: &mut E,
        tables: &Tables,
        moment: u64,
        now: Duration,
    ) -> bool {
        if self.has_lines() {
            self.print(err);
        } else if self.is_over {
            self.begin(err);
        } else if self.period.fire(now) {
            self.end_others(tables, moment, EndReason::Expired);
            self.is_over = true;
        } else {
            return false;
        }
        true
    }

    /// Begins a new period, and prints how many lines of the last one were left out. A failure to print is ignored.
    fn begin<E: Write>(&mut self, err: &mut E) {
        if self.left_out > 0 {
            let _ = writeln!(err, "{} lines of the log left out", self.left_out);
        }
        self.counts = Counts::NONE;
        self.left_out = 0;
        self.is_over = false;
    }

    /// Prints the next lines, as many as are printed between two turns. A failure to print is ignored.
    fn print<E: Write>(&mut self, err: &mut E) {
        for entry in self.entries.iter().skip(self.printed).take(LINES_AT_ONCE) {
            let _ = writeln!(err, "{entry}");
        }
        self.printed = self.printed.saturating_add(LINES_AT_ONCE);
        if self.printed >= self.entries.len() {
            self.entries.clear();
            self.printed = 0;
        }
    }
}
