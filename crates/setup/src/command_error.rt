//! Why a command of the program ends early: the line and the exit status of each error.

use crate::error::{RefusedProgram, SetupError};
use crate::revoked::RevokedError;
use crate::users::LineFault;
use asm::AsmError;
use basics::SystemError;
use command_line::{OptionError, OptionFault, RelayedError};
use peer_filter::{FilterError, NetworkError};
use report::{MapError, ReportError};
use server_check::CheckError;
use std::io::Write;
use std::net::SocketAddr;
use tables::TableError;
use thiserror::Error;

/// The exit status of a refusal.
pub const REFUSED: u8 = 1;

/// The exit status of a bad command line.
pub const BAD_LINE: u8 = 2;

/// The exit status where a file, a socket, an output or a device fails.
const FAILED: u8 = 3;

/// The exit status where memory runs out.
const MEMORY: u8 = 4;

/// Why a command ends early. Displays as the line for standard error.
#[derive(Clone, Copy, Debug, Error)]
pub enum CommandError<'a> {
    /// A word of the command line is no text.
    #[error("error: a word of the command line is not UTF-8")]
    Word,
    /// Two options ask for different reports of a replay.
    #[error("error: the argument '{0}' cannot be used with '{1}'")]
    Conflict(&'static str, &'static str),
    /// The text of an option is no value of it.
    #[error("{0}")]
    Value(OptionError<'a>),
    /// The text of an option is no network.
    #[error("error: invalid value '{text}' for '{option}': {error}")]
    Network {
        option: &'static str,
        text: &'a str,
        error: NetworkError,
    },
    /// There are too many networks.
    #[error("error: {0} of '--deny <NETWORK>' and '--allow <NETWORK>'")]
    Filter(FilterError),
    /// There are too many addresses that count as others.
    #[error("error: more than 16 of '--same-as <A=B>'")]
    Aliases,
    /// Addresses count as others, and the programs are not confined.
    #[error("error: '--same-as <A=B>' needs confined programs")]
    Unconfined,
    /// A server has no relayed address.
    #[error("{0}")]
    Relayed(RelayedError),
    /// Peers can't send to the relayed IPv4 address.
    #[error("refused ip")]
    RelayedAddress,
    /// Peers can't send to the relayed IPv6 address.
    #[error("refused ip6")]
    RelayedAddress6,
    /// Neither a user nor a secret is given.
    #[error("error: '--user <NAME:PASSWORD>', '--users <FILE>' or '--secret <FILE>' is required")]
    NoUsers,
    /// The line of this number in the file of users, from 1 on, is no user's.
    #[error("refused users at line {0}: {1}")]
    Users(u64, LineFault),
    /// The file of the secret has a third line.
    #[error("refused secret at line 3")]
    Secret,
    /// The file of revoked users has a line that names none.
    #[error("refused revoked users at {0}")]
    Revoked(RevokedError),
    /// The line of this number in the file of options, from 1 on, is no option's.
    #[error("refused options at line {0}: {1}")]
    OptionLine(u64, OptionFault),
    /// The text of a program is refused.
    #[error("refused {0}")]
    Text(AsmError),
    /// A report is refused.
    #[error("{0}")]
    Report(ReportError),
    /// A server doesn't serve, or can't be checked.
    #[error("{0}")]
    Check(CheckError),
    /// An allocation can't have the permission or the channel of a text.
    #[error("refused {0}: {1}")]
    Row(&'a str, TableError),
    /// A text is no source map of a program.
    #[error("refused lines {0}")]
    Lines(MapError),
    /// A file can't be read.
    #[error("cannot read {0}")]
    File(&'a str),
    /// The program in a file is refused.
    #[error("{0}")]
    Program(RefusedProgram<'a>),
    /// The relay can't be set up.
    #[error("{0}")]
    Setup(SetupError),
    /// A server isn't found: it has no address, or no port.
    #[error("cannot find {0}")]
    Server(&'a str),
    /// A socket can't be bound to this address.
    #[error("cannot bind {0}\n{1}")]
    Bind(SocketAddr, SystemError),
    /// The file of a record can't be made.
    #[error("cannot record to {0}\n{1}")]
    Record(&'a str, SystemError),
    /// The system doesn't say which sockets are ready.
    #[error("cannot wait for sockets")]
    Wait,
    /// The system gives no random numbers.
    #[error("cannot draw random numbers")]
    Random,
    /// The line of this number, from 1 on, isn't there, or its event is no datagram.
    #[error("no datagram at line {0}")]
    NoRun(u64),
    /// The line of this number, from 1 on, is no event's.
    #[error("refused line {0}")]
    Line(u64),
    /// The file of the metrics can't be written.
    #[error("cannot write {0}")]
    Unwritable(&'a str),
    /// The output can't be written.
    #[error("cannot write output")]
    Output,
    /// Memory ran out.
    #[error("out of memory")]
    Memory,
}

/// Returns the exit status of a check that ends with an error.
fn check_status(error: CheckError) -> u8 {
    match error {
        CheckError::NoAnswer(_) | CheckError::Refused(..) | CheckError::Unexpected(_) => REFUSED,
        CheckError::Long => REFUSED,
        CheckError::Socket | CheckError::Clock | CheckError::Output => FAILED,
    }
}

impl CommandError<'_> {
    /// Returns the exit status.
    fn status(&self) -> u8 {
        match self {
            CommandError::Users(..)
            | CommandError::OptionLine(..)
            | CommandError::Secret
            | CommandError::Revoked(_)
            | CommandError::Text(_)
            | CommandError::Lines(_)
            | CommandError::Row(..)
            | CommandError::NoRun(_)
            | CommandError::Program(_)
            | CommandError::Setup(_)
            | CommandError::Line(_) => REFUSED,
            CommandError::RelayedAddress | CommandError::RelayedAddress6 => REFUSED,
            CommandError::Report(error) => error.status(),
            CommandError::Check(error) => check_status(*error),
            CommandError::Value(_) | CommandError::Network { .. } | CommandError::Filter(_) => {
                BAD_LINE
            }
            CommandError::Aliases | CommandError::Unconfined | CommandError::Word => BAD_LINE,
            CommandError::Conflict(..) => BAD_LINE,
            CommandError::NoUsers | CommandError::Relayed(_) => BAD_LINE,
            CommandError::File(_) | CommandError::Unwritable(_) | CommandError::Output => FAILED,
            CommandError::Bind(..) | CommandError::Record(..) | CommandError::Server(_) => FAILED,
            CommandError::Wait | CommandError::Random => FAILED,
            CommandError::Memory => MEMORY,
        }
    }
}

/// Prints the line of an error to `err`, and returns the exit status.
pub fn end<E: Write>(err: &mut E, error: CommandError<'_>) -> u8 {
    let _ = writeln!(err, "{error}");
    error.status()
}

/// Prints the line of the error to `err` with which a command ended, if it ended with one, and returns the exit status.
pub fn status_of<E: Write>(err: &mut E, ended: Result<u8, CommandError<'_>>) -> u8 {
    match ended {
        Ok(status) => status,
        Err(error) => end(err, error),
    }
}
