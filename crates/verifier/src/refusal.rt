//! Why a program is refused.

ghost use Rattle.std.specs.Prelude.{Some};
ghost use Rattle.verifier.specs.Refusing.{refusal_text};

use semantics::Reason;
use std::error::Error;
use std::fmt;

/// Why a program is refused, and at which slot. It prints the code and the slot, as `V10 at 6`.
/// See docs/DESIGN.md, "One type of refusals".
#[derive(Clone, Copy, Debug, PartialEq, Eq)]
pub enum Refusal {
    /// V1 to V16 and V18: the step at this slot could be stuck for this reason.
    Stuck { reason: Reason, slot: usize },
    /// V17: the step at this slot would pass the budget of abstract steps.
    Budget { slot: usize },
    /// V19: memory ran out, at the instruction at this slot.
    Memory { slot: usize },
}

impl fmt::Display for Refusal {
    ghost output = { λ e. Some (refusal_text e) };

    fn fmt<W: fmt::Write>(&self, f: &mut fmt::Formatter<W>) -> fmt::Result {
        match self {
            Refusal::Stuck { reason, slot } => write!(f, "{reason} at {slot}"),
            Refusal::Budget { slot } => write!(f, "V17 at {slot}"),
            Refusal::Memory { slot } => write!(f, "V19 at {slot}"),
        }
    }
}

impl Error for Refusal {}
