//! Why the system refuses a socket or a file, as a text for who asked for it.

use std::io::{self, ErrorKind};
use thiserror::Error;

/// The numbers of the system's errors for too many open files, of the process and of the machine.
const EMFILE: i32 = 24;

const ENFILE: i32 = 23;

/// Why the system refuses a socket or a file. Displays as the reason.
#[derive(Clone, Copy, Debug, Error)]
pub enum SystemError {
    #[error("address in use")]
    AddressInUse,
    #[error("not an address of this machine")]
    NotHere,
    #[error("permission denied")]
    Denied,
    #[error("too many open files")]
    TooManyFiles,
    #[error("the file exists")]
    Exists,
    #[error("no such folder")]
    NoFolder,
    /// Another error of the system, by its number.
    #[error("error {0} of the system")]
    Other(i32),
}

impl From<io::Error> for SystemError {
    fn from(error: io::Error) -> SystemError {
        match (error.kind(), error.raw_os_error()) {
            (ErrorKind::AddrInUse, _) => SystemError::AddressInUse,
            (ErrorKind::AddrNotAvailable, _) => SystemError::NotHere,
            (ErrorKind::PermissionDenied, _) => SystemError::Denied,
            (ErrorKind::AlreadyExists, _) => SystemError::Exists,
            (ErrorKind::NotFound, _) => SystemError::NoFolder,
            (_, Some(EMFILE | ENFILE)) => SystemError::TooManyFiles,
            (_, number) => SystemError::Other(number.unwrap_or(0)),
        }
    }
}
