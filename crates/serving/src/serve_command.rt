//! The command `serve`: relays the datagrams of UDP sockets.

use crate::chores::Chore;
use crate::clock::{elapsed, moment};
use crate::filters::peer_options;
use crate::starting::{give_shadows, recording_of, shadows_of, start};
use arrayvec::ArrayVec;
use attributes::Addr;
use command_line::{Options, ServerOptions};
use control::{Grant, Response};
use mio::{Events, Poll, Token};
use monitoring::{EndReason, ErrorLines, Observed, RecordEnd, Reports, Sender, Watch, named_peer};
use peer_filter::PeerFilter;
use rand::rngs::StdRng;
use rand_core::Rng;
use relay::{Disposition, Relay, Source};
use replacing::{Contents, RereadFile, Sides};
use server::{
    Arrival, ClockOffset, Counters, Duty, LinkFault, Place, Ports, Schedule, ServerClock, TURNS,
    Timer, TurnOutcome, Work, do_next, draw_nonce, serve_round, turn,
};
use setup::{CommandError, Relayed, end};
use sockets::Sockets;
use std::fs::File;
use std::io::{self, Write};
use std::net::{Ipv4Addr, Ipv6Addr, Net};
use std::random::RandomSource;
use std::rt::{Clock, Files};
use std::time::Duration;
use tables::Uncounted;

/// How many events one wait reports. Further ones are reported by the next.
const EVENTS: usize = 256;

/// The seconds of the longest wait where something is read periodically.
const PERIOD: u64 = 1;

/// The microseconds for which programs are verified between two turns.
/// See docs/DECISIONS.md, "Verification in slices".
const VERIFYING: u64 = 150;

/// The most slices of a verification between two turns.
const SLICES: usize = 10_000;

/// The most sockets that are opened for clients, those for peers, and those that are closed, between two turns.
const SOCKETS: usize = 8;

/// The most pieces of what is due that follow one another where no turns are between them.
const PIECES: usize = 64;

/// What the turns of a server go through, beside its relay.
#[derive(Drop)]
pub(crate) struct Wire<'a> {
    pub(crate) sockets: Sockets,
    /// The peers that nothing is sent to.
    pub(crate) filter: Option<PeerFilter>,
    /// What records, and compares shadows.
    pub(crate) watch: Watch<'a>,
    pub(crate) counters: Counters,
    pub(crate) rng: StdRng,
    /// The transaction id for an indication about the next datagram.
    pub(crate) tx: [u8; 12],
}

/// A server that has bound its sockets.
#[derive(Drop)]
pub(crate) struct Server<'a> {
    pub(crate) relay: Relay,
    pub(crate) relayed: Relayed,
    pub(crate) wire: Wire<'a>,
    pub(crate) sides: Sides<'a>,
    /// The programs of the shadows.
    pub(crate) shadows: Sides<'a>,
    /// The files of users, of secrets and of revoked users that are read again.
    pub(crate) reread: Vec<RereadFile<'a>>,
    pub(crate) moments: ServerClock,
    pub(crate) nonces: Timer,
    /// How far the system's clock is ahead, where names expire by it.
    pub(crate) clock: Option<ClockOffset>,
    /// When the chores of a second begin, once those of the last one are done.
    pub(crate) files: Timer,
    /// The next one of them, if some are left.
    pub(crate) chore: Option<Chore>,
    /// The kind of work of which a piece was done last.
    pub(crate) duty: Duty,
    pub(crate) reports: Reports<'a>,
    /// Whether several datagrams had come at the endpoint that was served last.
    pub(crate) is_busy: bool,
    /// Whether something that was due has been done since the last turns, so that more may be due.
    pub(crate) has_due_work: bool,
}

/// What a server waits with. Its memory is taken before the server listens.
#[derive(Drop)]
struct Waiting {
    poll: Poll,
    events: Events,
    /// The tokens of the sockets that the last wait has reported.
    reports: ArrayVec<usize, EVENTS>,
    /// Which endpoints are served in a round.
    schedule: Schedule,
}

/// The work of a server beside datagrams, of which some may be due at a time.
#[derive(Drop)]
struct DueWork<'a, 'b, R: Clock, E: Write> {
    server: &'b mut Server<'a>,
    rt: &'b R,
    err: &'b mut E,
    /// What reports the sockets of new clients; without one they get none.
    poll: Option<&'b Poll>,
    now: Duration,
}

/// The endpoints of a server, which are served by the system's clock.
#[derive(Drop)]
struct ServedEndpoints<'a, 'b, R: Clock> {
    server: &'b mut Server<'a>,
    rt: &'b R,
}

/// Returns what is reported on at a moment.
fn observed<'b>(wire: &'b Wire<'_>, relay: &'b Relay, moment: u64) -> Observed<'b> {
    Observed {
        counters: &wire.counters,
        shadows: &wire.watch.shadows,
        tables: relay.tables(),
        moment,
    }
}

/// Returns why allocations, and the recording, end where what a file has is replaced.
fn ends_of(contents: Contents<'_>) -> (EndReason, RecordEnd) {
    match contents {
        Contents::Users(_) => (EndReason::Users, RecordEnd::Users),
        Contents::Secrets => (EndReason::Expired, RecordEnd::Secrets),
        Contents::Revoked => (EndReason::Revoked, RecordEnd::Revoked),
    }
}

/// Looks at the files of the programs of both sides.
fn load_both_if_changed<R: Files + AllocGlobal, E: Write>(
    rt: &R,
    err: &mut E,
    sides: &mut Sides<'_>,
) {
    sides.load_client_if_changed(rt, err);
    sides.load_peer_if_changed(rt, err);
}

impl<'a> Server<'a> {
    /// Replaces the nonce where that is due at a time.
    fn renew_due_nonce(&mut self, now: Duration) {
        if self.nonces.fire(now) {
            self.renew_nonce();
        }
    }

    /// Replaces the nonce by one that is drawn, which is never refused.
    fn renew_nonce(&mut self) {
        let nonce = draw_nonce(&mut self.wire.rng);
        self.wire.watch.recording.record_nonce(nonce.as_str());
        let _ = self.relay.set_nonce(nonce.as_str());
    }

    /// Prints the lines that say where clients are served, and which addresses are relayed.
    /// See docs/DECISIONS.md, "The port that the system chooses".
    fn announce<R: Print>(&self, rt: &R) -> io::Result<()> {
        let address = self.wire.sockets.address()?;
        let Ports { first, last, .. } = self.wire.sockets.ports();
        let relayed = Ipv4Addr::from(self.relayed.ip);
        let mut out = io::writer(rt);
        writeln!(out, "listening {address}")?;
        writeln!(out, "relaying {relayed}:{first} to {last}")?;
        if let Some(octets) = self.relayed.ip6 {
            writeln!(
                out,
                "relaying [{}]:{first} to {last}",
                Ipv6Addr::from(octets)
            )?;
        }
        out.flush()
    }

    /// Prints how large the buffers of sockets are, where the system gives less than was asked for. A failure to print
    /// is ignored.
    fn report_buffer<E: Write>(&self, err: &mut E, wanted: i32) {
        if let Ok(bytes) = self.wire.sockets.buffer()
            && bytes < wanted
        {
            let _ = writeln!(
                err,
                "buffers of {bytes} bytes, not {wanted}: see net.core.rmem_max and wmem_max"
            );
        }
    }

    /// Writes the first metrics, begins the recording, so that a start that fails leaves none, draws the first nonce,
    /// and says that the server listens, once all its memory is taken.
    fn begin<R: Files<File = File> + Print + Clock + AllocGlobal, E: Write>(
        &mut self,
        rt: &R,
        err: &mut E,
        options: &ServerOptions<'a>,
    ) -> Result<(), CommandError<'a>> {
        let of = observed(&self.wire, &self.relay, moment(rt, &self.moments));
        if self.reports.begin(rt, of).is_err() {
            return Err(CommandError::Unwritable(options.metrics.unwrap_or("")));
        }
        self.wire.watch.recording = recording_of(rt, options)?;
        self.renew_nonce();
        self.announce(rt).map_err(|_| CommandError::Output)?;
        self.report_buffer(err, options.buffer);
        Ok(())
    }

    /// Returns whether a program, or one of a shadow, is being replaced.
    fn is_replacing(&self) -> bool {
        self.sides.is_replacing() || self.shadows.is_replacing()
    }

    /// Continues to verify programs for some time, those of shadows last, and replaces those that run where all are
    /// verified. Returns whether there were some to verify.
    fn verify<R: Clock, E: Write>(&mut self, rt: &R, err: &mut E) -> bool {
        if !self.is_replacing() {
            return false;
        }
        let end = elapsed(rt).saturating_add(Duration::from_micros(VERIFYING));
        for _ in 0..SLICES {
            if !self.is_replacing() || elapsed(rt) >= end {
                break;
            }
            let watch = &mut self.wire.watch;
            if !self.sides.is_replacing() {
                self.shadows.advance(&mut watch.shadows, err);
            } else if self.sides.advance(&mut self.relay, err) {
                watch.recording.end(err, RecordEnd::Programs);
            }
        }
        true
    }

    /// Logs the allocations that have ended for a reason, if there is a log.
    fn log_ends<R: Clock>(&mut self, rt: &R, reason: EndReason) {
        let now = moment(rt, &self.moments);
        if let Some(log) = self.reports.log() {
            log.end_others(self.relay.tables(), now, reason);
        }
    }

    /// Closes some sockets of clients whose allocations have ended, and of peers whose channels have, from a token on.
    /// Where there may be more of later tokens, that is the next chore.
    fn close_own_sockets<R: Clock>(&mut self, rt: &R, first: usize) {
        let now = moment(rt, &self.moments);
        let tables = self.relay.tables();
        if let Some(token) = self.wire.sockets.close_unused(tables, now, first, SOCKETS) {
            self.chore = Some(Chore::Sockets(token));
        }
    }

    /// Lets names expire by the system's clock where that was set, and says by how much.
    fn read_clock<R: Clock, E: Write>(&mut self, rt: &R, err: &mut E) {
        let Some(clock) = &mut self.clock else {
            return;
        };
        let Ok(system) = rt.since_1970() else {
            return;
        };
        let (old, ahead) = (clock.ahead, self.moments.ahead(system, elapsed(rt)));
        if clock.update(ahead) {
            self.relay.set_clock(ahead);
            let direction = if ahead < old { "back" } else { "forward" };
            let _ = writeln!(
                err,
                "clock set {direction} by {} seconds",
                ahead.abs_diff(old)
            );
            self.wire.watch.recording.end(err, RecordEnd::Clock);
        }
    }

    /// Looks for other users, secrets or revoked users, in the file at a place.
    fn reread_file<R: Files + Clock + AllocGlobal, E: Write>(
        &mut self,
        rt: &R,
        err: &mut E,
        index: usize,
    ) {
        if let Some(file) = self.reread.get_mut(index)
            && file.apply_if_changed(rt, err, &mut self.relay)
        {
            let (reason, end) = ends_of(file.contents());
            self.log_ends(rt, reason);
            self.wire.watch.recording.end(err, end);
        }
    }

    /// Has a peer that a client's request names get a socket of its own, if a channel of the client is bound to it.
    fn want_peer(&mut self, client: Addr, now: u64) {
        let Some(peer) = named_peer(self.relay.area()) else {
            return;
        };
        let tables = self.relay.tables();
        if let Some(allocation) = tables.allocation_of(client, now, &mut Uncounted) {
            self.wire
                .sockets
                .want_peer(tables, now, allocation.slot, peer);
        }
    }

    /// Notes what the response to a client's request says: who has an allocation gets a socket of its own, and so does
    /// a peer that a channel is bound to; and it is logged.
    fn note_response(&mut self, from: &Source, response: Response, now: u64) {
        let Source::Client(client) = *from else {
            return;
        };
        match response {
            Response::Granted(Grant::Allocated { slot, .. }) => {
                self.wire.sockets.want_client(slot, client);
            }
            Response::Granted(Grant::Done) => self.want_peer(client, now),
            _ => {}
        }
        if let Some(log) = self.reports.log() {
            let sender = Sender::of_request(client, self.relay.area());
            log.on_response(response, sender, self.relay.tables(), now);
        }
    }

    /// Does the next chore, if some are left. Returns whether one was.
    fn do_chore<R: Files + Clock + AllocGlobal, E: Write>(&mut self, rt: &R, err: &mut E) -> bool {
        let Some(chore) = self.chore else {
            return false;
        };
        self.chore = chore.next(self.reread.len());
        match chore {
            Chore::Clock => self.read_clock(rt, err),
            Chore::Sockets(first) => self.close_own_sockets(rt, first),
            Chore::ProgramFiles => load_both_if_changed(rt, err, &mut self.sides),
            Chore::ShadowFiles => load_both_if_changed(rt, err, &mut self.shadows),
            Chore::Ends => self.log_ends(rt, EndReason::Expired),
            Chore::Reread(index) => self.reread_file(rt, err, index),
        }
        true
    }

    /// Does one piece of the log, if something of it is due at a time. Returns whether it was.
    fn print_log<E: Write>(&mut self, err: &mut E, now: Duration) -> bool {
        let of = observed(&self.wire, &self.relay, self.moments.at(now));
        self.reports.do_log_piece(err, of, now)
    }

    /// Does one piece of the reports that are due at a time, if some are. Returns whether one was.
    fn report<R: Files, E: Write>(&mut self, rt: &R, err: &mut E, now: Duration) -> bool {
        let of = observed(&self.wire, &self.relay, self.moments.at(now));
        self.reports.do_piece(rt, err, of, now)
    }

    /// Opens some sockets that clients and peers are to have, which a poll reports. Returns whether there were some;
    /// without a poll, none is opened.
    fn open_own_sockets<R: Net>(&mut self, rt: &R, poll: Option<&Poll>) -> bool {
        match poll {
            Some(poll) => self.wire.sockets.open_wanted(rt, poll, SOCKETS),
            None => false,
        }
    }

    /// Does one piece of what is due at a time, of the next kind of which something is, and notes whether there was
    /// one. Clients and peers get sockets of their own where a poll is there to report
    /// these.
    /// See docs/DECISIONS.md, "What is read once a second".
    fn do_due_work<'b, R: Files + Net + Clock + AllocGlobal, E: Write>(
        &'b mut self,
        rt: &'b R,
        err: &'b mut E,
        poll: Option<&'b Poll>,
        now: Duration,
    ) {
        if self.chore.is_none() && self.files.fire(now) {
            self.chore = Some(Chore::FIRST);
        }
        let last = self.duty;
        let mut work = DueWork {
            server: &mut *self,
            rt,
            err,
            poll,
            now,
        };
        let done = do_next(&mut work, last);
        self.has_due_work = done.is_some();
        self.duty = done.unwrap_or(last);
    }

    /// Does what is due, with no turns between its pieces.
    fn finish_due_work<R: Files + Net + Clock + AllocGlobal, E: Write>(
        &mut self,
        rt: &R,
        err: &mut E,
    ) {
        for _ in 0..PIECES {
            self.do_due_work(rt, err, None, elapsed(rt));
            if !self.has_due_work {
                return;
            }
        }
    }

    /// Returns the longest wait for a datagram. Without end where nothing but datagrams matters: a nonce that is due is
    /// drawn before the next of them is served.
    fn longest_wait(&self) -> Option<Duration> {
        let has_programs = self.sides.has_files() || self.shadows.has_files();
        if has_programs || !self.reread.is_empty() || self.reports.is_waiting(&self.wire.counters) {
            Some(Duration::from_secs(PERIOD))
        } else {
            None
        }
    }

    /// Takes one turn at an endpoint, at a moment. Returns whether a datagram has come, or a fault. A transaction id is
    /// drawn where the one before may have been used, by an indication about what a peer sent.
    #[inline(always)]
    fn turn(&mut self, endpoint: Place, now: u64) -> bool {
        let wire = &mut self.wire;
        let arrival = Arrival {
            endpoint,
            now,
            tx: wire.tx,
        };
        let served = turn(
            &mut self.relay,
            &mut wire.sockets,
            &mut wire.watch,
            &wire.filter,
            &mut wire.counters,
            arrival,
        );
        match served {
            Ok(None) => return false,
            Ok(Some(served)) => {
                if let TurnOutcome::Done(Disposition::Answered(response)) = served.outcome {
                    self.note_response(&served.from, response, now);
                }
            }
            Err(LinkFault) => {}
        }
        if let Place::Slot(_) = endpoint {
            let wire = &mut self.wire;
            wire.rng.fill_bytes(&mut wire.tx);
        }
        true
    }

    /// Tries one datagram at each socket: that of clients first, then those of the slots in order.
    fn round<R: Clock>(&mut self, rt: &R) {
        let now = moment(rt, &self.moments);
        for token in 0..self.wire.sockets.count() {
            let endpoint = self.wire.sockets.choose(token);
            self.turn(endpoint, now);
        }
    }

    /// Makes rounds that never wait, and prints the counters and writes the metrics if they are wanted.
    /// See docs/DECISIONS.md, "Rounds never wait".
    fn make_rounds<R: Files + Net + Clock + AllocGlobal, E: Write>(
        &mut self,
        rt: &R,
        err: &mut E,
        rounds: u64,
    ) {
        for _ in 0..rounds {
            self.renew_due_nonce(elapsed(rt));
            self.round(rt);
            self.finish_due_work(rt, err);
        }
        self.wire.watch.flush(err);
        let of = observed(&self.wire, &self.relay, moment(rt, &self.moments));
        self.reports.end(rt, err, of);
    }

    /// Serves an endpoint until nothing comes there, or for as many datagrams as it may have, all at one moment.
    /// Returns how many came.
    #[inline(always)]
    fn turns(&mut self, endpoint: Place, now: u64) -> usize {
        for count in 0..TURNS {
            if !self.turn(endpoint, now) {
                return count;
            }
        }
        TURNS
    }

    /// Serves a socket, and receives ahead there if the server is busy. Returns whether more may be there.
    /// See docs/DECISIONS.md, "A clock is read once for a turn of datagrams".
    /// See docs/DESIGN.md, "One function serves a datagram".
    /// See docs/DECISIONS.md, "A busy server receives ahead".
    #[inline(never)]
    fn drain<R: Clock>(&mut self, rt: &R, token: usize) -> bool {
        let now = moment(rt, &self.moments);
        let endpoint = self.wire.sockets.choose(token);
        if self.is_busy {
            self.wire.sockets.receive_ahead(endpoint);
        }
        let count = match endpoint {
            Place::Client => self.turns(Place::Client, now),
            Place::Slot(slot) => self.turns(Place::Slot(slot), now),
        };
        self.is_busy = count > 1;
        count == TURNS
    }

    /// Serves until the process is stopped, and waits while no socket is ready.
    /// See docs/DECISIONS.md, "A server waits by readiness".
    fn run<R: Files + Net + Clock + AllocGlobal, E: Write>(
        &mut self,
        rt: &R,
        err: &mut E,
        mut waiting: Waiting,
    ) -> Result<(), CommandError<'static>> {
        for _ in 0..u64::MAX {
            let is_idle = !waiting.schedule.has_ready() && !self.has_due_work;
            let wait = if is_idle {
                self.longest_wait()
            } else {
                Some(Duration::ZERO)
            };
            self.wire.watch.flush(err);
            waiting.wait(wait)?;
            let now = elapsed(rt);
            self.renew_due_nonce(now);
            let mut endpoints = ServedEndpoints {
                server: &mut *self,
                rt,
            };
            serve_round(&mut endpoints, &waiting.reports, &mut waiting.schedule);
            self.do_due_work(rt, err, Some(&waiting.poll), now);
        }
        Ok(())
    }

    /// Makes rounds, or serves until the process is stopped.
    fn serve<R: Files<File = File> + Print + Net + Clock + AllocGlobal, E: Write>(
        &mut self,
        rt: &R,
        err: &mut E,
        options: &ServerOptions<'a>,
    ) -> Result<(), CommandError<'a>> {
        match options.rounds {
            Some(rounds) => {
                self.begin(rt, err, options)?;
                self.make_rounds(rt, err, rounds);
                Ok(())
            }
            None => {
                let waiting = Waiting::new(rt, &mut self.wire.sockets)?;
                self.begin(rt, err, options)?;
                self.run(rt, err, waiting)
            }
        }
    }
}

impl Waiting {
    /// Returns what the server of these sockets waits with. Each endpoint is ready at first, since datagrams may have
    /// come.
    fn new<R: Net + AllocGlobal>(
        rt: &R,
        sockets: &mut Sockets,
    ) -> Result<Waiting, CommandError<'static>> {
        let poll = Poll::new(rt).map_err(|_| CommandError::Wait)?;
        sockets.register(&poll).map_err(|_| CommandError::Wait)?;
        let events = Events::with_capacity(rt.alloc(), EVENTS).map_err(|_| CommandError::Memory)?;
        let schedule = Schedule::new(rt.alloc(), sockets.count()).map_err(
            |_| CommandError::Memory,
        )?;
        Ok(Waiting {
            poll,
            events,
            reports: ArrayVec::new(),
            schedule,
        })
    }

    /// Waits until a socket is ready, or for a time; without a time, until a socket is ready. Keeps which sockets are
    /// reported.
    fn wait(&mut self, time: Option<Duration>) -> Result<(), CommandError<'static>> {
        if self.poll.poll(&mut self.events, time).is_err() {
            return Err(CommandError::Wait);
        }
        self.reports.clear();
        for event in self.events.iter() {
            let Token(token) = event.token();
            let _ = self.reports.try_push(token);
        }
        Ok(())
    }
}

impl<R: Clock> server::Endpoints for ServedEndpoints<'_, '_, R> {
    fn serve(&mut self, token: usize) -> bool {
        self.server.drain(self.rt, token)
    }
}

impl<R: Files + Net + Clock + AllocGlobal, E: Write> Work for DueWork<'_, '_, R, E> {
    fn do_piece(&mut self, duty: Duty) -> bool {
        match duty {
            Duty::Log => self.server.print_log(self.err, self.now),
            Duty::Clients => self.server.open_own_sockets(self.rt, self.poll),
            Duty::Chores => self.server.do_chore(self.rt, self.err),
            Duty::Reports => self.server.report(self.rt, self.err, self.now),
            Duty::Programs => self.server.verify(self.rt, self.err),
        }
    }
}

/// Serves, and prints faults to `err`.
fn serve_lines<
    'a,
    R: Files<File = File> + Print + Net + Clock + RandomSource + AllocGlobal,
    E: Write,
>(
    rt: &R,
    err: &mut E,
    server: &mut Server<'a>,
    server_options: &ServerOptions<'a>,
    options: &Options<'a>,
) -> Result<(), CommandError<'a>> {
    if server_options.unconfined && (options.client.is_some() || options.peer.is_some()) {
        let _ = writeln!(
            err,
            "unconfined: the programs may send to and from peers that no client has permitted"
        );
    }
    match ErrorLines::new(rt, err) {
        Ok(mut lines) => server.serve(rt, &mut lines, server_options),
        Err(_) => Err(CommandError::Memory),
    }
}

/// Serves as the options say.
fn serve_sockets<
    'a,
    R: Files<File = File> + Print + Net + Clock + RandomSource + AllocGlobal,
    E: Write,
>(
    rt: &R,
    err: &mut E,
    server_options: &ServerOptions<'a>,
    options: &Options<'a>,
) -> Result<(), CommandError<'a>> {
    let peers = peer_options(rt.alloc(), server_options, options)?;
    let shadows = shadows_of(rt, server_options)?;
    let mut server = start(rt, server_options, &peers, options)?;
    give_shadows(&mut server, shadows);
    serve_lines(rt, err, &mut server, server_options, options)
}

/// Serves clients and peers, prints the line of the first fault to `err`, and returns the exit status.
/// See docs/DECISIONS.md, "`serve` is a command".
pub fn serve<R: Files<File = File> + Print + Net + Clock + RandomSource + AllocGlobal, E: Write>(
    rt: &R,
    err: &mut E,
    server_options: &ServerOptions<'_>,
    options: &Options<'_>,
) -> u8 {
    match serve_sockets(rt, err, server_options, options) {
        Ok(()) => 0,
        Err(error) => end(err, error),
    }
}
