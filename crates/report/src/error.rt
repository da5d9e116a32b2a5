//! Why a report fails, with the line and the exit status of each error.

ghost use Rattle.std.specs.Prelude.{◌≡◌, Some};
ghost use Rattle.report.specs.Statuses.{status_of};
ghost use Rattle.report.specs.Texts.{error_text};

use asm::AsmError;
use insn::DecodeError;
use std::error::Error;
use std::fmt;
use std::io::Write;

/// Why a report fails. Displays as the line for standard error.
#[derive(Clone, Copy, Debug, PartialEq, Eq)]
pub enum ReportError {
    /// The data is not pairs of hexadecimal digits, or has more than 65,507 bytes.
    Data,
    /// The file encodes no program.
    Program(DecodeError),
    /// The text is not assembled.
    Text(AsmError),
    /// The output cannot be written.
    Output,
    /// Memory ran out.
    Memory,
}

impl fmt::Display for ReportError {
    ghost output = { λ e. Some (error_text e) };

    fn fmt<W: fmt::Write>(&self, f: &mut fmt::Formatter<W>) -> fmt::Result {
        match self {
            ReportError::Data => f.write_str("refused data"),
            ReportError::Program(refusal) => write!(f, "refused {refusal}"),
            ReportError::Text(refusal) => write!(f, "refused {refusal}"),
            ReportError::Output => f.write_str("cannot write output"),
            ReportError::Memory => f.write_str("out of memory"),
        }
    }
}

impl Error for ReportError {}

impl ReportError {
    /// Returns the exit status: 1 for a refusal, 3 where the output fails, 4 where memory runs out.
    /// See docs/DECISIONS.md, "An allocation failure has the status 4".
    pub fn status(self) -> u8
        ensures { result ≡ status_of self }
    {
        match self {
            ReportError::Data | ReportError::Program(_) | ReportError::Text(_) => 1,
            ReportError::Output => 3,
            ReportError::Memory => 4,
        }
    }
}

/// Prints the line of an error and returns its exit status. A failure to print is ignored.
pub fn fail<E: Write>(err: &mut E, error: ReportError) -> u8
    ensures { result ≡ status_of error }
{
    let _ = writeln!(err, "{error}");
    error.status()
}
