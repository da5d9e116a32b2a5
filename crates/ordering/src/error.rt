//! Why a program is not put in order.

ghost use Rattle.std.specs.Prelude.{◌≡◌, Some};
ghost use Rattle.ordering.specs.Files.{order_error_text};
ghost use Rattle.ordering.specs.declared.error.OrderError.TheVariants.{Memory};

use semantics::Reason;
use std::alloc::{AllocError, AllocFailed};
use std::error::Error;
use std::fmt;

/// Why a program is not put in order. Displays as what stands after `refused`.
#[derive(Clone, Copy, Debug, PartialEq, Eq)]
pub enum OrderError {
    /// The program has a loop, of which the instruction at this slot is one.
    Loop { slot: usize },
    /// A branch of the instruction at this slot leads to no instruction, for this reason.
    Stuck { reason: Reason, slot: usize },
    /// More than `MAX_SLOTS` slots are needed.
    TooLong,
    /// Memory ran out.
    Memory,
}

impl fmt::Display for OrderError {
    ghost output = { λ e. Some (order_error_text e) };

    fn fmt<W: fmt::Write>(&self, f: &mut fmt::Formatter<W>) -> fmt::Result {
        match self {
            OrderError::Loop { slot } => write!(f, "loop at {slot}"),
            OrderError::Stuck { reason, slot } => write!(f, "{reason} at {slot}"),
            OrderError::TooLong => f.write_str("length"),
            OrderError::Memory => f.write_str("memory"),
        }
    }
}

impl Error for OrderError {}

impl From<AllocError> for OrderError {
    ghost from_gives = { λ _ e. e ≡ Memory };

    fn from(_: AllocError) -> OrderError {
        OrderError::Memory
    }
}

impl<T: Drop> From<AllocFailed<T>> for OrderError {
    ghost from_gives = { λ _ e. e ≡ Memory };

    fn from(_: AllocFailed<T>) -> OrderError {
        OrderError::Memory
    }
}
