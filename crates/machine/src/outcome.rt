//! The ends of a run.

ghost use Rattle.std.specs.Prelude.{Some};
ghost use Rattle.semantics.specs.Reasons.{reason_at};

use addresses::Addr;
use semantics::Reason;
use std::error::Error;
use std::fmt;

/// The outcome of a run that exits.
#[derive(Clone, Copy, Debug, PartialEq, Eq)]
pub struct Outcome {
    /// What `r0` held: 0 discards, 1 passes to the slow path, 2 sends, and every other number discards.
    pub verdict: u64,
    /// The number of steps, the exit among them.
    pub steps: usize,
    /// The front of the window, counted from the first byte of the headroom, and its length.
    pub window: Option<(usize, usize)>,
    /// The address that the window is to be sent to.
    pub destination: Option<Addr>,
}

/// A stuck step: its reason and its slot. It prints both, as `V10 at 5`.
#[derive(Clone, Copy, Debug, PartialEq, Eq)]
pub struct Stuck {
    pub reason: Reason,
    pub slot: usize,
}

impl fmt::Display for Stuck {
    ghost output = { λ s. Some (reason_at s.reason s.slot) };

    fn fmt<W: fmt::Write>(&self, f: &mut fmt::Formatter<W>) -> fmt::Result {
        let Stuck { reason, slot } = self;
        write!(f, "{reason} at {slot}")
    }
}

impl Error for Stuck {}
