//! Why a text is refused.

ghost use Rattle.std.specs.Prelude.{◌≡◌, Some};
ghost use Rattle.asm.specs.Faults.{fault_at};
ghost use Rattle.asm.specs.Programs.{asm_error_text};
ghost use Rattle.asm.specs.declared.refusal.AsmError.TheVariants.{Memory};

use std::alloc::{AllocError, AllocFailed};
use std::error::Error;
use std::fmt;

/// Why a text is refused. Lines count from 1. Displays as its code, with the line.
#[derive(Clone, Copy, Debug, PartialEq, Eq)]
pub enum AsmError {
    /// The line is neither empty nor a label nor an instruction.
    Syntax(usize),
    /// A number of the line does not fit its field.
    Range(usize),
    /// A jump of the line names a label that the text lacks.
    UnknownLabel(usize),
    /// The label of the line is on an earlier line already.
    DoubleLabel(usize),
    /// The program has more than 4,096 slots.
    TooLong,
    /// Memory ran out.
    Memory,
}

impl fmt::Display for AsmError {
    ghost output = { λ e. Some (asm_error_text e) };

    fn fmt<W: fmt::Write>(&self, f: &mut fmt::Formatter<W>) -> fmt::Result {
        match self {
            AsmError::Syntax(line) => write!(f, "L1 at line {line}"),
            AsmError::Range(line) => write!(f, "L2 at line {line}"),
            AsmError::UnknownLabel(line) => write!(f, "L3 at line {line}"),
            AsmError::DoubleLabel(line) => write!(f, "L4 at line {line}"),
            AsmError::TooLong => f.write_str("L5"),
            AsmError::Memory => f.write_str("L6"),
        }
    }
}

impl Error for AsmError {}

impl From<AllocError> for AsmError {
    ghost from_gives = { λ _ e. e ≡ Memory };

    fn from(_error: AllocError) -> AsmError {
        AsmError::Memory
    }
}

impl<T: Drop> From<AllocFailed<T>> for AsmError {
    ghost from_gives = { λ _ e. e ≡ Memory };

    fn from(_error: AllocFailed<T>) -> AsmError {
        AsmError::Memory
    }
}

/// The fault of a line by itself.
#[derive(Clone, Copy)]
pub(crate) enum LineError {
    /// The line is not in the grammar.
    Syntax,
    /// A number does not fit its field.
    Range,
}

impl LineError {
    /// Returns the refusal of a text whose line of this number has the fault.
    pub(crate) fn at(self, line: usize) -> AsmError
        ensures { result ≡ fault_at self line }
    {
        match self {
            LineError::Syntax => AsmError::Syntax(line),
            LineError::Range => AsmError::Range(line),
        }
    }
}
