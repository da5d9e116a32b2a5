//! A program that runs beside that of a side of a relay.

ghost use Rattle.std.specs.Prelude.{◌≡◌, ◌≤◌, ℕ, length, take, IfOk};
ghost use Rattle.events.specs.declared.meta.Meta.{Meta};
ghost use Rattle.machine.specs.Contents.{room_of};
ghost use Rattle.semantics.specs.declared.limits.TheConstants.{MAX_DATAGRAM};
ghost use Rattle.relay.specs.Choices.{chosen_of, with_program};
ghost use Rattle.relay.specs.Lent.{chosen_by_route, chosen_in};
ghost use Rattle.relay.specs.Relays.{RelayContents, datagram_at};
ghost use Rattle.shadow.specs.Comparisons.{compared, WouldStepSame};

use crate::comparing::{ChoiceComparison, compared};
use events::Meta;
use loader::Loaded;
use machine::Frame;
use relay::{Choice, Relay, Route, law_same_choices_are_same_steps};
use semantics::MAX_DATAGRAM;
use std::alloc::{AllocError, Global};

/// A program that runs beside that of a side of a relay, over a copy of each datagram, and decides nothing.
#[derive(Drop)]
pub struct Shadow {
    program: Loaded,
    frame: Frame,
    /// Where what it would do with the datagram in the frame leads.
    route: Route,
}

/// Copies the first `n` bytes of a relay's room to a frame's room.
fn copy_to(frame: &mut Frame, room: &[u8], n: usize)
    requires few { n ≤ MAX_DATAGRAM }
    requires room { n ≤ length room.now }
    ensures { take n (room_of frame.new) ≡ take n room.now }
{
    let (to, _) = frame.area().split_at_mut(n);
    to.copy_from_slice(&room[..n]);
}

impl Shadow {
    /// Returns a shadow of a loaded program, and takes its memory.
    ///
    /// # Errors
    /// Where memory runs out.
    pub fn new(alloc: Global, program: Loaded) -> Result<Shadow, AllocError>
        ensures { IfOk result (λ s. s.program ≡ program) }
    {
        Ok(Shadow {
            program,
            frame: Frame::new(alloc)?,
            route: Route::Nowhere,
        })
    }

    /// Takes another program in place of the one so far.
    pub fn replace(&mut self, program: Loaded)
        ensures { self.new.program ≡ program }
    {
        self.program = program;
    }

    /// Finds what the shadow would do with a datagram, the first `n` bytes of the relay's room, in the relay's state,
    /// in place of the program of its side. The relay stays as it is.
    pub fn choose(&mut self, relay: &Relay, meta: &Meta, n: usize)
        requires { n ≤ MAX_DATAGRAM }
        ensures chosen { chosen_by_route self.new.frame self.new.route
            ≡ chosen_of (with_program relay.now meta.entry.now.from self.old.program) meta.entry.now
            (datagram_at relay.now n) }
        ensures rest { self.new.program ≡ self.old.program }
    {
        copy_to(&mut self.frame, relay.room(), n);
        self.route = relay.route_of(self.program.program(), &mut self.frame, meta, n);
    }

    /// Compares what the shadow would do with the datagram that it saw last with what the program has done with it.
    /// Where that is what the relay's program did in the state in which the shadow was asked, and both do the same, the
    /// relay would have made the same step with the shadow in place of its program.
    pub fn compare_with(&self, done: Choice<'_>) -> ChoiceComparison
        ensures compared { result ≡ compared (chosen_in done.entry) (chosen_by_route self.now.frame self.now.route) }
        ensures same { (r : RelayContents) (given : Meta) (n : ℕ)
            → chosen_in done.entry ≡ chosen_of r given (datagram_at r n)
            → chosen_by_route self.now.frame self.now.route
            ≡ chosen_of (with_program r given.from self.now.program) given (datagram_at r n)
            → WouldStepSame r given n self.now.program result }
    {
        law_same_choices_are_same_steps();
        compared(done, self.route.choice(&self.frame))
    }
}
