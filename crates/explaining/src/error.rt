//! Why a file is not explained, with the line of each error.

ghost use Rattle.std.specs.Prelude.{◌≡◌, Some};
ghost use Rattle.explaining.specs.Explained.{explain_error_text};
ghost use Rattle.explaining.specs.declared.error.ExplainError.TheVariants.{Memory};

use std::alloc::AllocError;
use std::error::Error;
use std::fmt;

/// Why a file is not explained. Displays as the line for standard error.
#[derive(Clone, Copy, Debug, PartialEq, Eq)]
pub enum ExplainError {
    /// The output cannot be written.
    Output,
    /// Memory ran out.
    Memory,
}

impl fmt::Display for ExplainError {
    ghost output = { λ e. Some (explain_error_text e) };

    fn fmt<W: fmt::Write>(&self, f: &mut fmt::Formatter<W>) -> fmt::Result {
        f.write_str(match self {
            ExplainError::Output => "cannot write output",
            ExplainError::Memory => "out of memory",
        })
    }
}

impl Error for ExplainError {}

impl From<AllocError> for ExplainError {
    ghost from_gives = { λ _ e. e ≡ Memory };

    fn from(_: AllocError) -> ExplainError {
        ExplainError::Memory
    }
}
