//! Files of users, of secrets and of revoked users, which are read again while a server runs.

use crate::files::{UnusableFile, read_regular};
use crate::watched::Watched;
use relay::Relay;
use setup::{
    LineFault, RevokedError, SecretsError, UsersError, add_users, add_users_of_lines, revoked_in,
    secrets_in,
};
use std::alloc::Global;
use std::io::Write;
use std::rt::Files;
use std::{fmt, str};
use thiserror::Error;

/// The most bytes of a file that is read while a server runs.
const LONGEST: u64 = 1 << 18;

/// Why what a file has isn't taken.
#[derive(Clone, Copy, Debug, PartialEq, Eq, Error)]
enum ContentsError {
    /// It is no text.
    #[error("not UTF-8")]
    Text,
    /// The line of this number, from 1 on, is no user's.
    #[error("line {0}: {1}")]
    Line(u64, LineFault),
    /// There is no user, with those of `--user`.
    #[error("no users")]
    Users,
    #[error("{0}")]
    Secrets(SecretsError),
    /// A secret has too few or too many bytes.
    #[error("a secret that hasn't 16 to 128 bytes")]
    Secret,
    #[error("{0}")]
    Revoked(RevokedError),
    /// Memory ran out.
    #[error("out of memory")]
    Memory,
}

/// Why a file wasn't read the last time.
#[derive(Clone, Copy, Debug, PartialEq, Eq, Error)]
enum ReadError {
    /// It isn't there, or can't be read.
    #[error("not readable")]
    Missing,
    #[error("{0}")]
    UnusableFile(UnusableFile),
}

/// What a file has. Displays as its name.
#[derive(Clone, Copy)]
pub enum Contents<'a> {
    /// Users, which come after those of `--user`.
    Users(&'a [&'a str]),
    /// The secrets of time-limited credentials.
    Secrets,
    /// Users that are revoked.
    Revoked,
}

/// A file that is read again while a server runs.
#[derive(Drop)]
pub struct RereadFile<'a> {
    path: &'a str,
    contents: Contents<'a>,
    /// The bytes that are in use, and those that were last refused.
    watched: Watched,
    /// Why the file wasn't read the last time.
    read_error: Option<ReadError>,
}

impl fmt::Display for Contents<'_> {
    fn fmt<W: fmt::Write>(&self, f: &mut fmt::Formatter<W>) -> fmt::Result {
        f.write_str(match self {
            Contents::Users(_) => "users",
            Contents::Secrets => "secret",
            Contents::Revoked => "revoked users",
        })
    }
}

impl From<UsersError> for ContentsError {
    fn from(error: UsersError) -> ContentsError {
        match error {
            UsersError::Line(number, fault) => ContentsError::Line(number, fault),
            UsersError::Memory => ContentsError::Memory,
        }
    }
}

impl From<SecretsError> for ContentsError {
    fn from(error: SecretsError) -> ContentsError {
        match error {
            SecretsError::Memory => ContentsError::Memory,
            error => ContentsError::Secrets(error),
        }
    }
}

impl From<RevokedError> for ContentsError {
    fn from(error: RevokedError) -> ContentsError {
        match error {
            RevokedError::Memory => ContentsError::Memory,
            error => ContentsError::Revoked(error),
        }
    }
}

/// Reads a file.
fn read<R: Files + AllocGlobal>(rt: &R, path: &str) -> Result<Vec<u8>, ReadError> {
    match read_regular(rt, path, LONGEST) {
        Ok(Some(bytes)) => Ok(bytes),
        Ok(None) => Err(ReadError::Missing),
        Err(unusable) => Err(ReadError::UnusableFile(unusable)),
    }
}

/// Replaces the users of a relay by those of `--user` and those of a text, and returns how many there are.
fn replace_users(
    alloc: Global,
    options: &[&str],
    text: &str,
    relay: &mut Relay,
) -> Result<usize, ContentsError> {
    let mut users = Vec::new(alloc);
    add_users(alloc, &mut users, options)?;
    add_users_of_lines(alloc, &mut users, text)?;
    let count = users.len();
    match relay.set_users(users) {
        Ok(()) => Ok(count),
        Err(_) => Err(ContentsError::Users),
    }
}

/// Replaces the secrets of a relay by those of a text, and returns how many there are.
fn replace_secrets(alloc: Global, text: &str, relay: &mut Relay) -> Result<usize, ContentsError> {
    let secrets = secrets_in(alloc, text)?;
    let count = if secrets.former.is_some() { 2 } else { 1 };
    match relay.set_secrets(secrets.secret, secrets.former) {
        Ok(()) => Ok(count),
        Err(_) => Err(ContentsError::Secret),
    }
}

/// Revokes the users that a text names, and returns how many there are.
fn revoke(alloc: Global, text: &str, relay: &mut Relay) -> Result<usize, ContentsError> {
    let owners = revoked_in(alloc, text)?;
    let count = owners.len();
    relay.set_revoked(owners);
    Ok(count)
}

impl<'a> RereadFile<'a> {
    /// Returns a file of these contents, which had a text when they were set.
    pub fn new(path: &'a str, contents: Contents<'a>, text: String) -> RereadFile<'a> {
        RereadFile {
            path,
            contents,
            watched: Watched::new(Some(text.into_bytes())),
            read_error: None,
        }
    }

    /// Returns what the file has.
    pub fn contents(&self) -> Contents<'a> {
        self.contents
    }

    /// Sets what a relay has of the file to what bytes say, and returns how many there are.
    ///
    /// # Errors
    /// Why that isn't done. Then nothing is changed.
    fn set(&self, alloc: Global, bytes: &[u8], relay: &mut Relay) -> Result<usize, ContentsError> {
        let Ok(text) = str::from_utf8(bytes) else {
            return Err(ContentsError::Text);
        };
        match self.contents {
            Contents::Users(options) => replace_users(alloc, options, text, relay),
            Contents::Secrets => replace_secrets(alloc, text, relay),
            Contents::Revoked => revoke(alloc, text, relay),
        }
    }

    /// Reads the file again. Where its bytes are others than those in use and those that were last refused, what they
    /// say replaces what the relay has, or is refused as a whole. Either is reported, and so are those in use where
    /// they are put back after a refusal, and a file that isn't read, once until it is. Where memory ran out the file
    /// is tried again. Returns whether something is replaced.
    /// See docs/DECISIONS.md, "Users that are replaced".
    pub fn apply_if_changed<R: Files + AllocGlobal, E: Write>(
        &mut self,
        rt: &R,
        err: &mut E,
        relay: &mut Relay,
    ) -> bool {
        let path = self.path;
        match read(rt, path) {
            Ok(bytes) => {
                if self.watched.is_put_back(&bytes) {
                    let _ = writeln!(err, "{} as before in {path}", self.contents);
                }
                self.read_error = None;
                self.apply(rt.alloc(), err, relay, bytes)
            }
            Err(error) => {
                if self.read_error != Some(error) {
                    let _ = writeln!(err, "cannot use {path}: {error}");
                }
                self.read_error = Some(error);
                false
            }
        }
    }

    /// Reports what replaces what the relay had.
    fn report<E: Write>(&self, err: &mut E, count: usize) {
        let _ = match self.contents {
            Contents::Users(_) => writeln!(err, "users replaced, {count} users"),
            Contents::Secrets => writeln!(err, "secret replaced, {count} secrets"),
            Contents::Revoked => writeln!(err, "users revoked, {count} users"),
        };
    }

    /// Sets what the relay has of the file to what its bytes say, if these are others, and reports it. Returns whether
    /// that is done.
    fn apply<E: Write>(
        &mut self,
        alloc: Global,
        err: &mut E,
        relay: &mut Relay,
        bytes: Vec<u8>,
    ) -> bool {
        if !self.watched.has_changed(&bytes) {
            return false;
        }
        let path = self.path;
        match self.set(alloc, &bytes, relay) {
            Ok(count) => {
                self.report(err, count);
                self.watched.put_in_use(bytes);
                true
            }
            Err(ContentsError::Memory) => {
                let _ = writeln!(err, "out of memory in {path}");
                false
            }
            Err(error) => {
                let _ = writeln!(err, "cannot use {path}: {error}");
                self.watched.refuse(bytes);
                false
            }
        }
    }
}
