//! Recorders: what keeps the datagrams that come, and sees what the relay does with them.

ghost use Rattle.std.specs.Prelude.{◌≡◌, ◌≤◌, Option, None, List, [], ◌∷◌};
ghost use Rattle.events.specs.Events.{Event, Datagram};
ghost use Rattle.server.specs.Calls.{HasReported};
ghost use Rattle.semantics.specs.declared.limits.TheConstants.{MAX_DATAGRAM};

use events::{Meta, Source};
use relay::{Relay, Step};

/// What keeps the datagrams that come, as the record of a server, or compares what the relay does with them, as a
/// shadow.
pub trait Recorder {
    /// The events so far, of a recorder that reports them; `None` of one that doesn't, or that has stopped for good.
    ghost events: { Self → Option (List Event) } = { λ _. None };

    /// Adds a datagram that has come, before it is decided.
    fn record(&mut self, meta: &Meta, datagram: &[u8])
        ensures { HasReported (events self.old) (events self.new) (Datagram meta.entry.now datagram.now ∷ []) };

    /// Sees a datagram that has come, the first `n` bytes of the relay's room, before its step. The relay stays as it
    /// is.
    fn before_step(&mut self, relay: &Relay, meta: &Meta, n: usize)
        requires { n ≤ MAX_DATAGRAM }
        ensures { events self.new ≡ events self.old };

    /// Sees what the step of that datagram gave, once it was answered.
    fn after_step(&mut self, from: &Source, step: &Step<'_>)
        ensures { events self.new ≡ events self.old };
}

/// Keeps nothing.
#[derive(Clone, Copy)]
pub(crate) struct Unrecorded;

impl Recorder for Unrecorded {
    fn record(&mut self, _meta: &Meta, _datagram: &[u8]) {}

    fn before_step(&mut self, _relay: &Relay, _meta: &Meta, _n: usize) {}

    fn after_step(&mut self, _from: &Source, _step: &Step<'_>) {}
}
