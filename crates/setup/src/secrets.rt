//! The secrets of time-limited credentials, as a file has them.

ghost use Rattle.std.specs.Prelude.{◌≡◌, option_map};
ghost use Rattle.setup.specs.Secrets.{line_in, after_first_line, secrets_in};

use std::alloc::Global;
use thiserror::Error;

/// The lines of secrets.
#[derive(Clone, Copy)]
struct SecretLines<'a> {
    secret: &'a str,
    former: Option<&'a str>,
}

/// The secrets of time-limited credentials.
#[derive(Drop)]
pub struct Secrets {
    /// The secret under which credentials are made.
    pub secret: Vec<u8>,
    /// The one before it, if credentials under it are still accepted.
    pub former: Option<Vec<u8>>,
}

/// Why a file has no secrets.
#[derive(Clone, Copy, Debug, PartialEq, Eq, Error)]
pub enum SecretsError {
    #[error("line 3: more than two secrets")]
    Lines,
    #[error("out of memory")]
    Memory,
}

/// Returns the first line of a text, without the line feed that ends it, and what follows that.
fn split_line(text: &str) -> (&str, &str)
    ensures line { result.0.now ≡ line_in text.now }
    ensures rest { result.1.now ≡ after_first_line text.now }
{
    match text.split_once('\n') {
        Some((line, rest)) => (line, rest),
        None => (text, ""),
    }
}

/// Returns the lines that a text has: one, or two, of which the second is the former secret, without the line feeds
/// that end them; `None` where a third line follows.
fn lines_of(text: &str) -> Option<SecretLines<'_>>
    ensures { option_map (λ s. (s.secret.now, option_map (λ line. line.now) s.former)) result ≡ secrets_in text.now }
{
    let (secret, rest) = split_line(text);
    if rest.is_empty() {
        return Some(SecretLines {
            secret,
            former: None,
        });
    }
    let (former, more) = split_line(rest);
    if more.is_empty() {
        Some(SecretLines {
            secret,
            former: Some(former),
        })
    } else {
        None
    }
}

/// Copies the secret of a line, without the carriage return that ends it, if one does.
fn copy(alloc: Global, line: &str) -> Result<Vec<u8>, SecretsError> {
    let secret = line.strip_suffix('\r').unwrap_or(line);
    let mut bytes = Vec::new(alloc);
    match bytes.extend_from_slice(secret.as_bytes()) {
        Ok(()) => Ok(bytes),
        Err(_) => Err(SecretsError::Memory),
    }
}

/// Returns the secrets that the text of a file has, one or two lines of which each may end in a carriage return and a
/// line feed: the secret, and below it the former one, if credentials under it are still accepted.
/// See docs/DECISIONS.md, "Secrets that are replaced".
///
/// # Errors
/// Where a third line follows, and where memory runs out.
pub fn secrets_in(alloc: Global, text: &str) -> Result<Secrets, SecretsError> {
    let lines = lines_of(text).ok_or(SecretsError::Lines)?;
    let secret = copy(alloc, lines.secret)?;
    let former = match lines.former {
        Some(line) => Some(copy(alloc, line)?),
        None => None,
    };
    Ok(Secrets { secret, former })
}
