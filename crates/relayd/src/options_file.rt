//! The file of `--options`.

use command_line::option_of_line;
use setup::{CommandError, unread};
use std::alloc::{AllocError, Global};
use std::fs;
use std::rt::Files;

/// The option of the file.
const OPTION: &str = "--options";

/// Returns the path of the file of options that the words of a server name, if they name one.
fn path_in(words: &[String]) -> Option<&str> {
    let mut is_next = false;
    for word in words.iter().skip(1) {
        if is_next {
            return Some(word);
        }
        is_next = word.as_str() == OPTION;
        if let Some(path) = word.strip_prefix("--options=") {
            return Some(path);
        }
    }
    None
}

/// Appends the words of the options of a text.
fn push_words<'a>(
    alloc: Global,
    words: &mut Vec<String>,
    text: &str,
) -> Result<(), CommandError<'a>> {
    for (number, line) in (1..).zip(text.lines()) {
        let option = match option_of_line(line) {
            Ok(None) => continue,
            Ok(Some(option)) => option,
            Err(fault) => return Err(CommandError::OptionLine(number, fault)),
        };
        if push_word(alloc, words, option.name, option.value).is_err() {
            return Err(CommandError::Memory);
        }
    }
    Ok(())
}

/// Appends the word of an option, with its value, if it has one.
fn push_word(
    alloc: Global,
    words: &mut Vec<String>,
    name: &str,
    value: Option<&str>,
) -> Result<(), AllocError> {
    let mut word = String::from_str(alloc, name)?;
    if let Some(value) = value {
        word.push('=')?;
        word.push_str(value)?;
    }
    words.push(word)?;
    Ok(())
}

/// Returns the words of the options in the file that the words of a server name; none where they name none.
/// See docs/DECISIONS.md, "A file of options".
///
/// # Errors
/// Where the file can't be read, and the first line that is no option of a server.
pub(crate) fn further_words<'a, R: Files + AllocGlobal>(
    rt: &R,
    words: &'a [String],
) -> Result<Vec<String>, CommandError<'a>> {
    let mut further = Vec::new(rt.alloc());
    if words.get(1).is_none_or(|word| word.as_str() != "serve") {
        return Ok(further);
    }
    let Some(path) = path_in(words) else {
        return Ok(further);
    };
    match fs::read_to_string(rt, path) {
        Ok(text) => push_words(rt.alloc(), &mut further, &text)?,
        Err(error) => return Err(unread(&error, path)),
    }
    Ok(further)
}
