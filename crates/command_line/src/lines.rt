//! The options of a server as lines of a file.

use crate::arguments::{ArgumentWords, RELAY, SERVE, Takes};
use thiserror::Error;

/// Why a line of a file of options has none.
#[derive(Clone, Copy, Debug, PartialEq, Eq, Error)]
pub enum OptionFault {
    /// A server has no option of this name.
    #[error("no option of a server")]
    Unknown,
    /// The option has no value.
    #[error("an option without its value")]
    NoValue,
    /// There is a value, and the option has none.
    #[error("an option that has no value")]
    Value,
}

/// An option, and its value, where it takes one.
#[derive(Clone, Copy, Debug, PartialEq, Eq)]
pub struct OptionWords<'a> {
    /// Its name, with the hyphens.
    pub name: &'a str,
    pub value: Option<&'a str>,
}

/// Returns whether an argument is the option of a name.
fn is_option(argument: &ArgumentWords, name: &str) -> bool {
    argument.name == name && !matches!(argument.takes, Takes::Word(_))
}

/// Returns what the option of a name takes.
fn taken(arguments: &[ArgumentWords], name: &str) -> Option<Takes> {
    let found = arguments.iter().find(|argument| is_option(argument, name))?;
    Some(found.takes)
}

/// Returns the option of a line of a file; `None` for a line that is empty, or a comment. Its name ends at the first
/// blank, and the value is what follows, without the blanks around it.
///
/// # Errors
/// Why it has none.
pub fn option_of_line(line: &str) -> Result<Option<OptionWords<'_>>, OptionFault> {
    let line = line.trim();
    if line.is_empty() || line.starts_with('#') {
        return Ok(None);
    }
    let (name, value) = match line.split_once(' ') {
        Some((name, value)) => (name, Some(value.trim())),
        None => (line, None),
    };
    let Some(bare) = name.strip_prefix("--") else {
        return Err(OptionFault::Unknown);
    };
    let Some(takes) = taken(SERVE, bare).or(taken(RELAY, bare)) else {
        return Err(OptionFault::Unknown);
    };
    match (takes, value) {
        (Takes::Nothing, Some(_)) => Err(OptionFault::Value),
        (Takes::Nothing, None) => Ok(Some(OptionWords { name, value })),
        (_, None) => Err(OptionFault::NoValue),
        (_, Some(_)) => Ok(Some(OptionWords { name, value })),
    }
}
