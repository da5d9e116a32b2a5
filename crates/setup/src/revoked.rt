//! The users that are revoked, as a file names them.

use crate::users::{TextFault, is_comment, text_fault};
use credentials::owner_of;
use std::alloc::Global;
use thiserror::Error;

/// The greatest number of users that are revoked.
pub const MAX_REVOKED: usize = 256;

/// Why the users of a file aren't revoked.
#[derive(Clone, Copy, Debug, PartialEq, Eq, Error)]
pub enum RevokedError {
    /// The line of this number, from 1 on, is no name of a user.
    #[error("line {0}: a name that {1}")]
    Name(u64, TextFault),
    /// The name on the line of this number has a colon: what precedes it is a time, and its user's name follows it.
    #[error("line {0}: a name with a colon")]
    Colon(u64),
    /// The line of this number has one user more than there may be.
    #[error("line {0}: more than 256 users")]
    TooMany(u64),
    /// Memory ran out.
    #[error("out of memory")]
    Memory,
}

/// Returns the digest of the user that a line names.
fn owner_in(number: u64, line: &str) -> Result<[u8; 20], RevokedError> {
    if let Some(fault) = text_fault(line.as_bytes(), 0x21) {
        return Err(RevokedError::Name(number, fault));
    }
    if line.contains(':') {
        return Err(RevokedError::Colon(number));
    }
    Ok(owner_of(line.as_bytes()))
}

/// Returns the digests of the users that the text of a file names, one a line; empty lines and comments name none.
///
/// # Errors
/// The first other line that names no user, and that memory runs out.
pub fn revoked_in(alloc: Global, text: &str) -> Result<Vec<[u8; 20]>, RevokedError> {
    let mut owners = Vec::new(alloc);
    for (number, line) in (1u64..).zip(text.lines()) {
        if is_comment(line) {
            continue;
        }
        let owner = owner_in(number, line)?;
        if owners.len() >= MAX_REVOKED {
            return Err(RevokedError::TooMany(number));
        }
        if owners.push(owner).is_err() {
            return Err(RevokedError::Memory);
        }
    }
    Ok(owners)
}
