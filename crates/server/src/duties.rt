//! What a server does beside datagrams: one piece at a time, of each kind in its turn.

ghost use Rattle.std.specs.Prelude.{◌≡◌, Option, None, List, [], ◌∷◌};
ghost use Rattle.server.specs.Calls.{HasReported};
ghost use Rattle.server.specs.Duties.{Asked, next_duty, HasDoneNext};

/// A kind of work beside datagrams.
#[derive(Clone, Copy)]
pub enum Duty {
    /// To print lines of the log.
    Log,
    /// To give new clients sockets of their own.
    Clients,
    /// To look at the clock and at files, and to close sockets.
    Chores,
    /// To print counters and to write metrics.
    Reports,
    /// To verify programs.
    Programs,
}

/// The number of kinds.
const DUTIES: usize = 5;

impl Duty {
    /// Returns the kind whose turn is next.
    fn next(self) -> Duty
        ensures { result ≡ next_duty self }
    {
        match self {
            Duty::Log => Duty::Clients,
            Duty::Clients => Duty::Chores,
            Duty::Chores => Duty::Reports,
            Duty::Reports => Duty::Programs,
            Duty::Programs => Duty::Log,
        }
    }
}

/// What has work of each kind, of which some may be due.
pub trait Work {
    /// What has been asked so far, of work that reports it; `None` of work that doesn't, or that has stopped for good.
    ghost asked: { Self → Option (List Asked) } = { λ _. None };

    /// Does one piece of a kind, if something of it is due. Returns whether it was.
    fn do_piece(&mut self, duty: Duty) -> bool
        ensures { HasReported (asked self.old) (asked self.new) (record { duty = duty; done = result } ∷ []) };
}

/// Does one piece of the first kind, in turn after the last one, of which something is due, and returns that kind. Each
/// kind is asked once at most, so what is due is done after four other pieces at most.
pub fn do_next<W: Work>(work: &mut W, last: Duty) -> Option<Duty>
    ensures { HasDoneNext last (W.asked work.old) (W.asked work.new) result }
{
    let mut duty = last;
    for _ in 0..DUTIES {
        duty = duty.next();
        if work.do_piece(duty) {
            return Some(duty);
        }
    }
    None
}
