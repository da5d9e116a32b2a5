//! Why a relay can't be set up.

ghost use Rattle.std.specs.Prelude.{◌≡◌};
ghost use Rattle.setup.specs.Setups.{program_error};

use control::Field;
use insn::DecodeError;
use loader::LoadError;
use thiserror::Error;
use verifier::Refusal;

/// Why the program of a side can't be used.
#[derive(Clone, Copy, Debug, PartialEq, Eq, Error)]
pub enum ProgramError {
    /// Its file can't be read.
    #[error("cannot read the program")]
    File,
    /// It is refused, by a code and a slot.
    #[error("refused {0}")]
    Refused(LoadError),
    /// Memory ran out.
    #[error("out of memory")]
    Memory,
}

impl From<LoadError> for ProgramError {
    ghost from_gives = { λ e p. p ≡ program_error e };

    fn from(e: LoadError) -> ProgramError {
        match e {
            LoadError::Decode(DecodeError::Memory) => ProgramError::Memory,
            LoadError::Verify(Refusal::Memory { .. }) => ProgramError::Memory,
            e => ProgramError::Refused(e),
        }
    }
}

/// The program in a file is refused. Displays as the lines for standard error.
#[derive(Clone, Copy, Debug, Error)]
#[error("{error} in {path}\nrelayd explain {path} shows why")]
pub struct RefusedProgram<'a> {
    pub path: &'a str,
    pub error: ProgramError,
}

/// Why a relay can't be set up: the first fault, in this order.
#[derive(Clone, Copy, Debug, PartialEq, Eq, Error)]
pub enum SetupError {
    /// The nonce has more than 64 bytes.
    #[error("refused nonce")]
    Nonce,
    /// The program for clients' datagrams.
    #[error("{0}")]
    Client(ProgramError),
    /// The program for peers' datagrams.
    #[error("{0}")]
    Peer(ProgramError),
    /// The first field of the configuration that lies outside its limits.
    #[error("refused {0}")]
    Field(Field),
    /// Memory ran out.
    #[error("out of memory")]
    Memory,
}
