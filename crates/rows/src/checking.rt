//! Checks lines, and counts the rows of each section.

use crate::lines::{Names, expanded, range_length, with_ranges};
use crate::row::Row;
use anyhow::{Context, Result, ensure};
use std::alloc::Global;
use std::io;

/// What answers the rows of some sections. Rows may leave something to those that follow.
pub trait Sections: Drop {
    /// Returns the answer to a row of a section.
    ///
    /// # Errors
    /// Where the row isn't understood, or memory runs out.
    fn answer(&mut self, alloc: Global, section: &str, row: &Row<'_>) -> Result<String>;
}

/// A section: its name, and how many rows it has.
#[derive(Drop)]
struct Counted {
    name: String,
    rows: u64,
}

/// What lines have said so far, and what became of their rows.
#[derive(Drop)]
struct Checker<S: Sections> {
    alloc: Global,
    names: Names,
    counts: Vec<Counted>,
    sections: S,
    failures: u64,
}

impl<S: Sections> Checker<S> {
    /// Checks a line.
    ///
    /// # Errors
    /// Where the line isn't understood, where memory runs out, and where the output fails. A row that fails is printed.
    fn check_line<R: Print>(&mut self, rt: &R, number: u64, line: &str) -> Result<()> {
        if line.is_empty() || line.starts_with('#') {
            return Ok(());
        }
        if let Some(rest) = line.strip_prefix('[') {
            return self.begin_section(rest.trim_end_matches(']'));
        }
        if let Some(rest) = line.strip_prefix("let ") {
            return self.name_words(rest);
        }
        self.count_row(line);
        let line = expanded(self.alloc, &self.names, line)?;
        match line.strip_prefix("each ") {
            Some(row) => self.check_each(rt, number, row),
            None => self.check_row(rt, number, &with_ranges(self.alloc, &line, None)?),
        }
    }

    /// Begins a section.
    fn begin_section(&mut self, name: &str) -> Result<()> {
        let name = String::from_str(self.alloc, name)?;
        self.counts.push(Counted { name, rows: 0 })?;
        Ok(())
    }

    /// Gives words a name: `NAME = WORDS`.
    fn name_words(&mut self, line: &str) -> Result<()> {
        let (name, words) = line.split_once(" = ").context("a name has no words")?;
        let words = expanded(self.alloc, &self.names, words)?;
        let words = with_ranges(self.alloc, &words, None)?;
        self.names
            .insert(String::from_str(self.alloc, name)?, words)?;
        Ok(())
    }

    /// Counts a line that expects something as a row of its section.
    fn count_row(&mut self, line: &str) {
        if let (Some(section), true) = (self.counts.last_mut(), line.contains(" -> ")) {
            section.rows = section.rows.saturating_add(1);
        }
    }

    /// Checks a row once for each number of its ranges.
    fn check_each<R: Print>(&mut self, rt: &R, number: u64, line: &str) -> Result<()> {
        for index in 0..range_length(line)? {
            let row = with_ranges(self.alloc, line, Some(index))?;
            self.check_row(rt, number, &row)?;
        }
        Ok(())
    }

    /// Checks a row, and prints it if it fails.
    fn check_row<R: Print>(&mut self, rt: &R, number: u64, line: &str) -> Result<()> {
        let row = Row::of(self.alloc, line)?;
        let section = self.counts.last().context("there is no section yet")?;
        let name = section.name.as_str();
        let got = self.sections.answer(self.alloc, name, &row)?;
        let expected = row.expected.unwrap_or("");
        if got.as_str() != expected {
            let kind = row.kind;
            println!(rt; "{name}, line {number}: {kind}: got {got}, expected {expected}")?;
            self.failures = self.failures.saturating_add(1);
        }
        Ok(())
    }

    /// Checks each line of a text.
    fn check_lines<R: Print>(&mut self, rt: &R, text: &str) -> Result<()> {
        for (number, line) in (1u64..).zip(text.lines()) {
            let checked = self.check_line(rt, number, line.trim());
            checked.context(format_args!("line {number}"))?;
        }
        Ok(())
    }

    /// Prints how many rows each section has, and all of them.
    fn print_counts<R: Print>(&self, rt: &R) -> Result<()> {
        let mut total = 0u64;
        for section in &self.counts {
            let (name, rows) = (&section.name, section.rows);
            println!(rt; "{name}: {rows} rows")?;
            total = total.saturating_add(rows);
        }
        println!(rt; "{total} rows")?;
        Ok(())
    }
}

/// Checks each line of standard input, and prints each row that fails, and at the end how many rows each section has.
///
/// # Errors
/// Where a row fails or isn't understood, memory runs out, or the input or the output fails.
pub fn check_input<R: Input + Print + AllocGlobal, S: Sections>(rt: &R, sections: S) -> Result<()> {
    let text = io::read_to_string(rt.alloc(), rt.reader())?;
    let mut checker = Checker {
        alloc: rt.alloc(),
        names: Names::new(rt.alloc()),
        counts: Vec::new(rt.alloc()),
        sections,
        failures: 0,
    };
    checker.check_lines(rt, &text)?;
    checker.print_counts(rt)?;
    let failures = checker.failures;
    ensure!(failures == 0, "{failures} rows failed");
    Ok(())
}
