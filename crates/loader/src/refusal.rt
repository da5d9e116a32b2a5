//! The refusals of `load`.

ghost use Rattle.std.specs.Prelude.{◌≡◌, Some};
ghost use Rattle.loader.specs.Loads.{load_error_text};
ghost use Rattle.loader.specs.declared.refusal.LoadError.TheVariants.{Decode, Verify};

use insn::DecodeError;
use std::error::Error;
use std::fmt;
use verifier::Refusal;

/// Why bytes are refused. It prints the code, and the slot where it has one, as `E4 at 0` or `V10 at 6`.
#[derive(Clone, Copy, Debug, PartialEq, Eq)]
pub enum LoadError {
    /// The bytes encode no program.
    Decode(DecodeError),
    /// The program that the bytes encode is refused.
    Verify(Refusal),
}

impl fmt::Display for LoadError {
    ghost output = { λ e. Some (load_error_text e) };

    fn fmt<W: fmt::Write>(&self, f: &mut fmt::Formatter<W>) -> fmt::Result {
        match self {
            LoadError::Decode(error) => write!(f, "{error}"),
            LoadError::Verify(refusal) => write!(f, "{refusal}"),
        }
    }
}

impl Error for LoadError {}

impl From<DecodeError> for LoadError {
    ghost from_gives = { λ error e. e ≡ Decode error };

    fn from(error: DecodeError) -> LoadError {
        LoadError::Decode(error)
    }
}

impl From<Refusal> for LoadError {
    ghost from_gives = { λ refusal e. e ≡ Verify refusal };

    fn from(refusal: Refusal) -> LoadError {
        LoadError::Verify(refusal)
    }
}
