//! Writes out what lines abbreviate: texts in quotes, names, repetitions, and ranges in braces.

use anyhow::{Context, Result, ensure};
use std::alloc::Global;
use std::collections::BTreeMap;

/// The names that lines have given to words.
pub type Names = BTreeMap<String, String>;

/// Appends the bytes of a text as hexadecimal digits, `-` where it is empty.
fn push_text(alloc: Global, line: &mut String, text: &str) -> Result<()> {
    let digits = hex::encode(alloc, text)?;
    line.push_str(if text.is_empty() { "-" } else { &digits })?;
    Ok(())
}

/// Returns a line in which the bytes of each text in quotes take its place.
fn without_quotes(alloc: Global, line: &str) -> Result<String> {
    let mut written = String::new(alloc);
    let mut is_quoted = false;
    for part in line.split('"') {
        if is_quoted {
            push_text(alloc, &mut written, part)?;
        } else {
            written.push_str(part)?;
        }
        is_quoted = !is_quoted;
    }
    ensure!(is_quoted, "a quote isn't closed");
    Ok(written)
}

/// Appends a word, in which what a name stands for takes its place.
fn push_named(line: &mut String, names: &Names, word: &str) -> Result<()> {
    let Some((before, name)) = word.split_once('$') else {
        line.push_str(word)?;
        return Ok(());
    };
    line.push_str(before)?;
    line.push_str(names.get(name).context("a name is unknown")?)?;
    Ok(())
}

/// Appends pieces such as `0001+00*12`, each as often as it says.
fn push_pieces(alloc: Global, line: &mut String, pieces: &str) -> Result<()> {
    for piece in pieces.split('+') {
        let (digits, count) = piece.split_once('*').unwrap_or((piece, "1"));
        let count = count.parse::<usize>().context("a count is no number")?;
        line.push_str(&digits.repeat(alloc, count)?)?;
    }
    Ok(())
}

/// Appends a word, whose value is written out if it repeats bytes.
fn push_repeated(alloc: Global, line: &mut String, word: &str) -> Result<()> {
    if !word.contains('*') {
        line.push_str(word)?;
        return Ok(());
    }
    let (key, pieces) = match word.rsplit_once('=') {
        Some((key, pieces)) => (Some(key), pieces),
        None => (None, word),
    };
    if let Some(key) = key {
        line.push_str(key)?;
        line.push_str("=")?;
    }
    push_pieces(alloc, line, pieces)
}

/// A range of numbers in a word: what is before it, its first and its last number, and what is after it.
#[derive(Clone, Copy)]
struct Range<'a> {
    before: &'a str,
    first: u64,
    last: u64,
    is_hex: bool,
    after: &'a str,
}

/// Returns an end of a range, and whether it is hexadecimal: then it begins with an `x`.
fn end_of(text: &str) -> Result<(u64, bool)> {
    let number = match text.strip_prefix('x') {
        Some(digits) => (u64::from_str_radix(digits, 16), true),
        None => (text.parse::<u64>(), false),
    };
    Ok((number.0.context("a range has no number")?, number.1))
}

/// Returns the range of a word, if it has one.
fn range_in(word: &str) -> Result<Option<Range<'_>>> {
    let Some((left, right)) = word.split_once("..") else {
        return Ok(None);
    };
    let (Some((before, first)), Some((last, after))) = (left.split_once('{'), right.split_once('}'))
    else {
        return Ok(None);
    };
    let (first, is_hex) = end_of(first)?;
    let (last, _) = end_of(last)?;
    Ok(Some(Range {
        before,
        first,
        last,
        is_hex,
        after,
    }))
}

impl Range<'_> {
    /// Returns how many numbers the range has.
    fn length(&self) -> u64 {
        self.last.saturating_sub(self.first).saturating_add(1)
    }

    /// Appends the word in which a number takes the place of the range.
    fn push(&self, alloc: Global, line: &mut String, number: u64) -> Result<()> {
        let number = if self.is_hex {
            format!(in alloc; "{number:x}")?
        } else {
            format!(in alloc; "{number}")?
        };
        line.push_str(self.before)?;
        line.push_str(&number)?;
        line.push_str(self.after)?;
        Ok(())
    }

    /// Appends the words of all numbers, with blanks between them.
    fn push_all(&self, alloc: Global, line: &mut String) -> Result<()> {
        for number in self.first..=self.last {
            if number != self.first {
                line.push_str(" ")?;
            }
            self.push(alloc, line, number)?;
        }
        Ok(())
    }
}

/// Appends a word, which its range makes several, or one where its number is chosen by an index.
fn push_ranged(alloc: Global, line: &mut String, word: &str, index: Option<u64>) -> Result<()> {
    let Some(range) = range_in(word)? else {
        line.push_str(word)?;
        return Ok(());
    };
    match index {
        Some(index) => range.push(alloc, line, range.first.saturating_add(index)),
        None => range.push_all(alloc, line),
    }
}

/// What of a line is written out.
#[derive(Clone, Copy)]
enum Abbreviation<'a> {
    Names(&'a Names),
    Repetitions,
    /// Ranges: each number, or the one with an index.
    Ranges(Option<u64>),
}

impl Abbreviation<'_> {
    /// Appends a word.
    fn push(self, alloc: Global, line: &mut String, word: &str) -> Result<()> {
        match self {
            Abbreviation::Names(names) => push_named(line, names, word),
            Abbreviation::Repetitions => push_repeated(alloc, line, word),
            Abbreviation::Ranges(index) => push_ranged(alloc, line, word, index),
        }
    }
}

/// Returns the words of a line with single blanks, of which a part is written out.
fn written(alloc: Global, line: &str, part: Abbreviation<'_>) -> Result<String> {
    let mut out = String::new(alloc);
    for word in line.split_whitespace() {
        out.push_str(if out.is_empty() { "" } else { " " })?;
        part.push(alloc, &mut out, word)?;
    }
    Ok(out)
}

/// Returns a line with its texts, names and repetitions written out.
pub fn expanded(alloc: Global, names: &Names, line: &str) -> Result<String> {
    let line = without_quotes(alloc, line)?;
    let line = written(alloc, &line, Abbreviation::Names(names))?;
    written(alloc, &line, Abbreviation::Repetitions)
}

/// Returns a line with its ranges written out, each as all of its numbers, or as the one with an index.
pub fn with_ranges(alloc: Global, line: &str, index: Option<u64>) -> Result<String> {
    written(alloc, line, Abbreviation::Ranges(index))
}

/// Returns how many numbers each range of a line has.
///
/// # Errors
/// Where it has no range, or some of several lengths.
pub fn range_length(line: &str) -> Result<u64> {
    let mut length = None;
    for word in line.split_whitespace() {
        if let Some(range) = range_in(word)? {
            let found = range.length();
            ensure!(
                length.is_none_or(|length| length == found),
                "ranges of several lengths"
            );
            length = Some(found);
        }
    }
    length.context("there is no range")
}
