//! What is written short in a line: names, and texts that are repeated.

use anyhow::{Context, Result, bail};
use std::alloc::{AllocError, Global};

/// The most bytes of a text that is repeated.
const LONGEST: usize = 1 << 20;

/// How many repetitions a line may have, and one more.
const MOST_REPETITIONS: usize = 8;

/// A name, and the text that it stands for.
#[derive(Drop)]
pub struct Named {
    pub name: String,
    pub text: String,
}

/// Returns whether a name may contain a character.
fn is_of_name(c: char) -> bool {
    c.is_ascii_uppercase() || c.is_ascii_digit() || c == '_'
}

/// Returns what follows a name at the beginning of a text.
fn after_name<'a>(text: &'a str, name: &str) -> Option<&'a str> {
    let rest = text.strip_prefix(name)?;
    if rest.chars().next().is_some_and(is_of_name) {
        return None;
    }
    Some(rest)
}

/// Appends what follows a dollar sign, with the text of the name at its beginning in place of the name.
fn push_named(out: &mut String, names: &[Named], text: &str) -> Result<()> {
    for named in names {
        if let Some(rest) = after_name(text, &named.name) {
            out.push_str(&named.text)?;
            out.push_str(rest)?;
            return Ok(());
        }
    }
    if text.chars().next().is_some_and(|c| c.is_ascii_uppercase()) {
        bail!("no such name: {text}");
    }
    out.push('$')?;
    out.push_str(text)?;
    Ok(())
}

/// Returns a text in which the text of each name stands in place of the dollar sign and the name.
fn with_names(alloc: Global, names: &[Named], text: &str) -> Result<String> {
    let mut out = String::new(alloc);
    for (i, part) in text.split('$').enumerate() {
        if i == 0 {
            out.push_str(part)?;
        } else {
            push_named(&mut out, names, part)?;
        }
    }
    Ok(out)
}

/// Returns a text without the digits at its end, and these.
fn last_digits(text: &str) -> (&str, &str) {
    let head = text.trim_end_matches(|c: char| c.is_ascii_digit());
    (head, text.strip_prefix(head).unwrap_or(""))
}

/// Appends a text so many times.
fn push_times(out: &mut String, text: &str, times: usize) -> Result<(), AllocError> {
    for _ in 0..times {
        out.push_str(text)?;
    }
    Ok(())
}

/// Returns a text in which the first `3 * {ab}` is replaced by `ababab`, `None` where there is none.
fn with_repetition(alloc: Global, text: &str) -> Result<Option<String>> {
    let Some((before, after)) = text.split_once(" * {") else {
        return Ok(None);
    };
    let (body, rest) = after.split_once('}').context("no `}`")?;
    let (head, digits) = last_digits(before);
    let times = digits.parse::<usize>().context("no number before ` * {`")?;
    if times.saturating_mul(body.len()) > LONGEST {
        bail!("{times} times is too often");
    }
    let mut out = String::from_str(alloc, head)?;
    push_times(&mut out, body, times)?;
    out.push_str(rest)?;
    Ok(Some(out))
}

/// Returns a line with the texts of its names, and with each repetition written out.
///
/// # Errors
/// Where a name is unknown, a repetition has no number or no end or is too long, there are too many, or memory runs
/// out.
pub fn expanded(alloc: Global, names: &[Named], line: &str) -> Result<String> {
    let mut line = with_names(alloc, names, line)?;
    for _ in 0..MOST_REPETITIONS {
        match with_repetition(alloc, &line)? {
            Some(next) => line = next,
            None => return Ok(line),
        }
    }
    bail!("too many repetitions")
}
