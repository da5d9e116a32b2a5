//! What is compared of a run and a trace.

ghost use Rattle.std.specs.Prelude.{◌≡◌, ◌≤◌, true};
ghost use Rattle.semantics.specs.declared.limits.TheConstants.{MAX_DATAGRAM};

use crate::datagram::{WORKED, Worked, context, worked_context, write_datagram, write_worked};
use crate::drawn::Drawn;
use crate::random::Random;
use crate::rows::{NOW, tables, worked_tables};
use anyhow::Result;
use helpers::Lookup;
use machine::{Context, Frame, Helpers, NoAllocation, Silent, run, trace};
use std::alloc::Global;
use tables::Tables;
use verifier::Verified;

/// The seed of all datagrams.
const SEED: u64 = 20;

/// Copies the first bytes of a frame's room into that of another.
fn copy_room(from: &Frame, to: &mut Frame, length: usize)
    requires { length ≤ MAX_DATAGRAM }
{
    let (bytes, _) = from.room().split_at(length);
    let (room, _) = to.area().split_at_mut(length);
    room.copy_from_slice(bytes);
}

/// Starts both frames over the datagram in the room of the first one, with the same context.
fn start_both(context: &Context, length: usize, ran: &mut Frame, traced: &mut Frame)
    requires { length ≤ MAX_DATAGRAM }
    ensures ran { ran.new.is_started ≡ true }
    ensures traced { traced.new.is_started ≡ true }
{
    copy_room(ran, traced, length);
    ran.start(context, length);
    traced.start(context, length);
}

/// Returns what two frames show that is not the same.
fn difference_of(ran: &Frame, traced: &Frame) -> Option<&'static str> {
    if ran.datagram() != traced.datagram() {
        Some("datagram")
    } else if ran.window() != traced.window() {
        Some("window")
    } else {
        None
    }
}

/// Runs and traces a program over two frames that are started alike, and returns what differs.
fn difference<H: Helpers>(
    program: &Verified,
    ran: &mut Frame,
    traced: &mut Frame,
    helpers: &H,
) -> Option<&'static str>
    requires ran { ran.old.is_started ≡ true }
    requires traced { traced.old.is_started ≡ true }
{
    let outcome = run(program, ran, helpers);
    let ended = trace(program.code(), traced, helpers, &mut Silent);
    if ended == Ok(outcome) {
        difference_of(ran, traced)
    } else {
        Some("outcome")
    }
}

/// A frame for runs and one for traces, which are used again for each datagram, and the tables that helpers look up in.
#[derive(Drop)]
pub struct RunComparison {
    random: Random,
    tables: Tables,
    worked_tables: Tables,
    ran: Frame,
    traced: Frame,
    runs: u64,
    windows: u64,
}

impl RunComparison {
    /// Allocates the frames and the tables.
    ///
    /// # Errors
    /// Where memory runs out.
    pub fn new(alloc: Global) -> Result<RunComparison> {
        Ok(RunComparison {
            random: Random::new(SEED),
            tables: tables(alloc)?,
            worked_tables: worked_tables(alloc)?,
            ran: Frame::new(alloc)?,
            traced: Frame::new(alloc)?,
            runs: 0,
            windows: 0,
        })
    }

    /// Returns how many runs were compared.
    pub fn runs(&self) -> u64 {
        self.runs
    }

    /// Returns how many of these runs set a window.
    pub fn windows(&self) -> u64 {
        self.windows
    }

    /// Runs and traces a program over the next datagram, with helpers that are drawn, and returns what differs.
    fn next_difference(&mut self, program: &Verified) -> Option<&'static str> {
        let (ran, traced) = (&mut self.ran, &mut self.traced);
        let length = write_datagram(&mut self.random, self.runs, ran.area());
        start_both(&context(&mut self.random), length, ran, traced);
        match self.random.below(8) {
            0 => difference(program, ran, traced, &NoAllocation),
            1 | 2 => difference(program, ran, traced, &Drawn::new(&mut self.random)),
            3 => difference(program, ran, traced, &Lookup::new(None)),
            _ => difference(
                program,
                ran,
                traced,
                &Lookup::new(self.tables.live_at(0, NOW)),
            ),
        }
    }

    /// Runs and traces a program over a datagram of the worked session, with look-ups, and returns what differs.
    fn worked_difference(&mut self, program: &Verified, worked: &Worked) -> Option<&'static str> {
        let (ran, traced) = (&mut self.ran, &mut self.traced);
        let length = write_worked(worked, ran.area());
        start_both(&worked_context(worked.0), length, ran, traced);
        let helpers = Lookup::new(self.worked_tables.live_at(0, NOW));
        difference(program, ran, traced, &helpers)
    }

    /// Counts a run, and its window if it has set one.
    fn count(&mut self) {
        self.runs = self.runs.saturating_add(1);
        let window = u64::from(self.ran.window().is_some());
        self.windows = self.windows.saturating_add(window);
    }

    /// Runs and traces a program over some datagrams, and returns the number of the first one where the two differ, and
    /// what differs.
    pub fn first_difference(
        &mut self,
        program: &Verified,
        count: u64,
    ) -> Option<(u64, &'static str)> {
        for number in 0..count {
            if let Some(part) = self.next_difference(program) {
                return Some((number, part));
            }
            self.count();
        }
        None
    }

    /// As [`first_difference`](RunComparison::first_difference), over the datagrams of the worked session.
    pub fn first_worked_difference(&mut self, program: &Verified) -> Option<(u64, &'static str)> {
        for (number, worked) in (0..).zip(&WORKED) {
            if let Some(part) = self.worked_difference(program, worked) {
                return Some((number, part));
            }
            self.count();
        }
        None
    }
}
