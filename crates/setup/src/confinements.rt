//! What confines the programs, by the options.

use crate::aliases::alias;
use crate::command_error::CommandError;
use command_line::{OptionError, Options};
use relay::{Alias, Confinement};
use std::alloc::Global;

/// The most addresses that count as others.
const MAX_ALIASES: usize = 16;

/// Returns the addresses of `--same-as` that count as others.
fn aliases_of<'a>(alloc: Global, texts: &[&'a str]) -> Result<Vec<Alias>, CommandError<'a>> {
    let option = "--same-as <A=B>";
    let mut aliases = Vec::new(alloc);
    for text in texts {
        let Some(alias) = alias(text) else {
            return Err(CommandError::Value(OptionError { option, text }));
        };
        if aliases.push(alias).is_err() {
            return Err(CommandError::Memory);
        }
    }
    if aliases.len() > MAX_ALIASES {
        return Err(CommandError::Aliases);
    }
    Ok(aliases)
}

/// Returns what confines the programs, with the addresses of `--same-as`; nothing where they are not confined.
/// See docs/DECISIONS.md, "Confined programs".
pub(crate) fn confinement_of<'a>(
    alloc: Global,
    options: &Options<'a>,
    confined: bool,
) -> Result<Option<Confinement>, CommandError<'a>> {
    let aliases = aliases_of(alloc, options.same_as.unwrap_or(&[]))?;
    if confined {
        return Ok(Some(Confinement { aliases }));
    }
    if options.same_as.is_some() {
        return Err(CommandError::Unconfined);
    }
    Ok(None)
}
