//! Users as texts: those of an option, and the lines of a file.

ghost use Rattle.std.specs.Prelude.{◌≡◌, IfOk, IfNone, IsTrue};
ghost use Rattle.credentials.specs.Texts.{is_text};
ghost use Rattle.setup.specs.Users.{is_comment, IsUserIn};

use control::{MAX_TEXT, MAX_USERS};
use credentials::{User, is_text};
use std::alloc::{AllocError, Global};
use thiserror::Error;

/// Why a line of a file is no further user of a relay. Displays as the reason.
#[derive(Clone, Copy, Debug, PartialEq, Eq, Error)]
pub enum LineFault {
    #[error("no colon")]
    NoColon,
    #[error("a name that {0}")]
    Name(TextFault),
    #[error("a password that {0}")]
    Password(TextFault),
    /// An earlier user has the name.
    #[error("a name that an earlier user has")]
    Twice,
    #[error("more than 64 users")]
    TooMany,
}

/// Why a text is no name, or no password. Displays as the reason.
#[derive(Clone, Copy, Debug, PartialEq, Eq, Error)]
pub enum TextFault {
    #[error("is empty")]
    Empty,
    #[error("has more than 128 bytes")]
    TooLong,
    /// It has a byte below the least or above 0x7E.
    #[error("has a byte that isn't allowed")]
    Byte,
}

/// Why texts aren't those of users.
#[derive(Clone, Copy, Debug, PartialEq, Eq, Error)]
pub enum UsersError {
    /// The line of this number, from 1 on, is no user's.
    #[error("line {0}: {1}")]
    Line(u64, LineFault),
    /// Memory ran out.
    #[error("out of memory")]
    Memory,
}

/// Returns whether a line of a file of users is empty or a comment, which begins with `#`.
pub fn is_comment(line: &str) -> bool
    ensures { result ≡ is_comment line.now }
{
    line.is_empty() || line.starts_with('#')
}

/// Parses a user, written as `NAME:PASSWORD`: the name ends at the first colon. `None` is a text without a colon.
///
/// # Errors
/// Where memory runs out.
pub fn user(alloc: Global, text: &str) -> Result<Option<User>, AllocError>
    ensures { IfOk result (IsUserIn text.now) }
{
    let Some((name, password)) = text.split_once(':') else {
        return Ok(None);
    };
    Ok(Some(User {
        name: String::from_str(alloc, name)?,
        password: String::from_str(alloc, password)?,
    }))
}

/// Returns why a text doesn't have 1 to 128 bytes from `least` to 0x7E.
pub(crate) fn text_fault(text: &[u8], least: u8) -> Option<TextFault>
    ensures { IfNone result (IsTrue (is_text least MAX_TEXT text.now)) }
{
    if is_text(text, least, MAX_TEXT) {
        None
    } else if text.is_empty() {
        Some(TextFault::Empty)
    } else if text.len() > MAX_TEXT {
        Some(TextFault::TooLong)
    } else {
        Some(TextFault::Byte)
    }
}

/// Returns why a user isn't one beside others.
fn user_fault(users: &[User], user: &User) -> Option<LineFault> {
    if let Some(fault) = text_fault(user.name.as_bytes(), 0x21) {
        return Some(LineFault::Name(fault));
    }
    if let Some(fault) = text_fault(user.password.as_bytes(), 0x20) {
        return Some(LineFault::Password(fault));
    }
    if users
        .iter()
        .any(|other| other.name.as_str() == user.name.as_str())
    {
        return Some(LineFault::Twice);
    }
    (users.len() >= MAX_USERS).then_some(LineFault::TooMany)
}

/// Adds the user that a text has, and returns whether it has one.
fn add_user(alloc: Global, users: &mut Vec<User>, text: &str) -> Result<bool, AllocError> {
    match user(alloc, text)? {
        Some(user) => {
            users.push(user)?;
            Ok(true)
        }
        None => Ok(false),
    }
}

/// Adds the user that a line of a file has.
///
/// # Errors
/// Why it has none, or that memory runs out.
fn add_line(
    alloc: Global,
    users: &mut Vec<User>,
    number: u64,
    line: &str,
) -> Result<(), UsersError> {
    let Ok(found) = user(alloc, line) else {
        return Err(UsersError::Memory);
    };
    let Some(user) = found else {
        return Err(UsersError::Line(number, LineFault::NoColon));
    };
    if let Some(fault) = user_fault(users, &user) {
        return Err(UsersError::Line(number, fault));
    }
    match users.push(user) {
        Ok(()) => Ok(()),
        Err(_) => Err(UsersError::Memory),
    }
}

/// Adds the users of texts, each written as `NAME:PASSWORD`.
///
/// # Errors
/// The number of the first text without a colon, and that memory runs out.
pub fn add_users(alloc: Global, users: &mut Vec<User>, texts: &[&str]) -> Result<(), UsersError> {
    for (number, text) in (1u64..).zip(texts) {
        match add_user(alloc, users, text) {
            Ok(true) => {}
            Ok(false) => return Err(UsersError::Line(number, LineFault::NoColon)),
            Err(_) => return Err(UsersError::Memory),
        }
    }
    Ok(())
}

/// Adds the users of a file's text, one a line; empty lines and comments have none.
/// See docs/DECISIONS.md, "Users from a file".
///
/// # Errors
/// The first other line that is no user's beside those before it, and why; and that memory runs out.
pub fn add_users_of_lines(
    alloc: Global,
    users: &mut Vec<User>,
    text: &str,
) -> Result<(), UsersError> {
    for (number, line) in (1u64..).zip(text.lines()) {
        if !is_comment(line) {
            add_line(alloc, users, number, line)?;
        }
    }
    Ok(())
}
