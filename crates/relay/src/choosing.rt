//! What a program would do with a datagram, in the state of a relay that stays as it is.

ghost use Rattle.std.specs.Prelude.{◌≡◌, ℕ, List, true};
ghost use Rattle.events.specs.declared.meta.Meta.{Meta};
ghost use Rattle.events.specs.declared.meta.Source.{Source};
ghost use Rattle.insn.specs.declared.instruction.Insn.{Insn};
ghost use Rattle.relay.specs.Choices.{Relaying, SameChoiceIsSameStep};
ghost use Rattle.relay.specs.Forwarding.{is_of_window, sending_of_forwarding};
ghost use Rattle.relay.specs.Lent.{chosen_by_route};
ghost use Rattle.relay.specs.Relays.{RelayContents};

use crate::forwarding::{Forwarding, window_forwarding, window_to_client, window_to_peer};
use crate::relay::{Relay, is_served};
use crate::running::{context_for, live_for, run_over};
use attributes::Addr;
use events::{Action, Meta, Source};
use helpers::Lookup;
use machine::{Frame, MAX_DATAGRAM, Outcome};
use programs::{PASSES, SENDS};
use tables::{Uncounted, moment_of};
use verifier::Verified;

/// What a program would do with a datagram.
#[derive(Clone, Copy, Debug)]
pub enum Choice<'a> {
    /// The rules get these bytes: a client's datagram that is passed on.
    Passes(&'a [u8]),
    /// This is sent, if anything is.
    Sends(Action<'a>),
}

/// Where what a program would do with a datagram leads. The bytes are in the frame over which it ran.
#[derive(Clone, Copy, Debug)]
pub enum Route {
    /// Nothing is sent.
    Nowhere,
    /// The rules get the datagram.
    ToRules,
    /// The window, from a slot to a peer.
    ToPeer { slot: usize, peer: Addr },
    /// The window, to a client.
    ToClient { client: Addr },
}

impl Route {
    ghost use Rattle.std.specs.Prelude.{◌≡◌};
    ghost use Rattle.relay.specs.Lent.{chosen_by_route, chosen_in};

    /// Returns what the program would do, with the bytes of the frame over which it ran.
    pub fn choice(self, frame: &Frame) -> Choice<'_>
        ensures { chosen_in result ≡ chosen_by_route frame.entry.now self }
    {
        match self {
            Route::Nowhere => Choice::Sends(Action::Nothing),
            Route::ToRules => Choice::Passes(frame.datagram()),
            Route::ToPeer { slot, peer } => {
                Choice::Sends(window_to_peer(slot, peer, frame.window()))
            }
            Route::ToClient { client } => Choice::Sends(window_to_client(client, frame.window())),
        }
    }
}

/// Returns where what was found leads, which isn't an answer of the rules.
fn route_of_forwarding(forwarding: Forwarding) -> Route
    requires { is_of_window forwarding ≡ true }
    ensures { (r : RelayContents) (from : Source)
        → chosen_by_route r.frame result ≡ Relaying (sending_of_forwarding r from forwarding) }
{
    match forwarding {
        Forwarding::WindowToPeer { slot, peer } => Route::ToPeer { slot, peer },
        Forwarding::WindowToClient { client } => Route::ToClient { client },
        Forwarding::Nothing(_) | Forwarding::Stopped | Forwarding::Answer(_) => Route::Nowhere,
    }
}

/// States that where another program does the same with a datagram, the relay would do the same with that program in
/// place.
pub fn law_same_choices_are_same_steps()
    ensures { (r : RelayContents) (given : Meta) (n : ℕ) (program : List Insn)
        → SameChoiceIsSameStep r given n program }
{}

impl Relay {
    ghost use Rattle.std.specs.Prelude.{◌≤◌, ◌&&◌, length, take};
    ghost use Rattle.machine.specs.Contents.{room_of};
    ghost use Rattle.rules.specs.Systems.{is_served};
    ghost use Rattle.semantics.specs.declared.limits.TheConstants.{MAX_DATAGRAM};
    ghost use Rattle.tables.specs.Moments.{moment_of};
    ghost use Rattle.tables.specs.Rows.{rows_at};
    ghost use Rattle.tables.specs.WellFormed.{AreWellFormed};
    ghost use Rattle.relay.specs.ByPrograms.{is_there};
    ghost use Rattle.relay.specs.Choices.{chosen_of, with_program};
    ghost use Rattle.relay.specs.Forwarding.{HasRun, held_for, run_at};
    ghost use Rattle.relay.specs.Lent.{chosen_by_route};

    /// Returns whether a source is served.
    fn serves(&self, from: &Source) -> bool
        ensures { result ≡ (is_served from.now && is_there from.now self.now.rows) }
    {
        is_served(from, self.tables())
    }

    /// States that the rows are well formed.
    fn law_rows_are_well_formed(&self)
        ensures { AreWellFormed self.now.rows }
    {
        self.tables().law_are_well_formed();
    }

    /// Returns the helpers that look up at the moment of a datagram's step.
    fn helpers_for(&self, meta: &Meta) -> Lookup<'_>
        ensures { result.live ≡ held_for meta.entry.now.from
            (rows_at (moment_of self.now.greatest meta.entry.now.now) self.now.rows) }
    {
        let moment = moment_of(self.greatest(), meta.now);
        Lookup::new(live_for(self.tables(), moment, &meta.from, &mut Uncounted))
    }

    /// Runs another program of the side of a datagram over the first `n` bytes of a frame's room, with the look-ups of
    /// its step.
    fn run_beside(
        &self,
        program: &Verified,
        helpers: &Lookup<'_>,
        frame: &mut Frame,
        meta: &Meta,
        n: usize,
    ) -> Outcome
        requires few { n ≤ MAX_DATAGRAM }
        requires live { helpers.now.live ≡ held_for meta.now.from
            (rows_at (moment_of self.now.greatest meta.now.now) self.now.rows) }
        ensures { HasRun (length (take n (room_of frame.old))) result frame.new
            (run_at (record (with_program self.now meta.entry.now.from program.now) {
              frame = frame.old;
              greatest = moment_of self.now.greatest meta.entry.now.now;
            }) meta.entry.now n) }
    {
        self.law_rows_are_well_formed();
        let context = context_for(&meta.tx, &meta.from);
        run_over(program, frame, helpers, &context, n)
    }

    /// Returns where what another program of the side of a datagram would do with it leads, in place of the one that
    /// runs, with the same look-ups and the same context. The datagram is the first `n` bytes of the frame's room. The
    /// relay stays as it is.
    /// See docs/DECISIONS.md, "A shadow runs before the step".
    pub fn route_of(&self, program: &Verified, frame: &mut Frame, meta: &Meta, n: usize) -> Route
        requires { n ≤ MAX_DATAGRAM }
        ensures { chosen_by_route frame.new result
            ≡ chosen_of (with_program self.now meta.entry.now.from program.now) meta.entry.now
            (take n (room_of frame.old)) }
    {
        if !self.serves(&meta.from) {
            return Route::Nowhere;
        }
        self.law_rows_are_well_formed();
        let helpers = self.helpers_for(meta);
        let outcome = self.run_beside(program, &helpers, frame, meta, n);
        match outcome.verdict {
            PASSES => match meta.from {
                Source::Client(_) => Route::ToRules,
                Source::Peer { .. } => Route::Nowhere,
            },
            SENDS => {
                let (live, to) = (&helpers.live, outcome.destination);
                let confinement = self.confinement();
                let forwarding = window_forwarding(
                    &meta.from,
                    live,
                    to,
                    confinement,
                    true,
                    &mut Uncounted,
                );
                route_of_forwarding(forwarding)
            }
            _ => Route::Nowhere,
        }
    }
}
