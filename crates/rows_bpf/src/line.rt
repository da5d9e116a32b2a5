//! The lines of a file of rows.

use anyhow::{Context, Result};

/// A line of a file of rows.
#[derive(Clone, Copy, Debug, PartialEq, Eq)]
pub enum RowLine<'a> {
    /// An empty line, or a comment.
    Blank,
    /// The heading of a section, with its name.
    Section(&'a str),
    /// A name, and the text that it stands for in the lines that follow.
    Let { name: &'a str, text: &'a str },
    /// A row.
    Row,
}

impl<'a> RowLine<'a> {
    /// Parses a line.
    ///
    /// # Errors
    /// Where a line that begins with `let` gives no name or no text.
    pub fn parse(line: &'a str) -> Result<RowLine<'a>> {
        if line.is_empty() || line.starts_with('#') {
            return Ok(RowLine::Blank);
        }
        if let Some(named) = line.strip_prefix("let ") {
            let (name, text) = named.split_once(" = ").context("no ` = `")?;
            return Ok(RowLine::Let { name, text });
        }
        match line
            .strip_prefix('[')
            .and_then(|rest| rest.strip_suffix(']'))
        {
            Some(name) => Ok(RowLine::Section(name)),
            None => Ok(RowLine::Row),
        }
    }
}

/// A row: the word that says what is asked, what is given, and what is expected.
#[derive(Clone, Copy, Debug, PartialEq, Eq)]
pub struct ProgramRow<'a> {
    pub kind: &'a str,
    pub given: &'a str,
    pub expected: &'a str,
}

impl<'a> ProgramRow<'a> {
    /// Parses the line of a row.
    ///
    /// # Errors
    /// Where nothing is given, or nothing is expected.
    pub fn parse(line: &'a str) -> Result<ProgramRow<'a>> {
        let (asked, expected) = line.split_once(" -> ").context("no ` -> `")?;
        let (kind, given) = asked.split_once(' ').context("nothing is given")?;
        Ok(ProgramRow {
            kind,
            given: given.trim(),
            expected: expected.trim(),
        })
    }

    /// Returns what is before a colon and a blank, and the program after these. Without a colon nothing is before the
    /// program.
    pub fn parts(&self) -> (&'a str, &'a str) {
        self.given.split_once(": ").unwrap_or(("", self.given))
    }
}
