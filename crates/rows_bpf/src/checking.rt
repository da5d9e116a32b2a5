//! Checks the rows of a file, and counts them by section.

use crate::agreement::{Seeded, check_agreement, datagrams};
use crate::command_lines::{parsed, refused};
use crate::expansion::{Named, expanded};
use crate::explanations::{cost, explained};
use crate::frames::Frames;
use crate::kinds::RowKind;
use crate::known::KnownNumber;
use crate::line::{ProgramRow, RowLine};
use crate::one_peer::OnePeer;
use crate::operators;
use crate::orders::ordered;
use crate::program::file_of;
use crate::reports::reported;
use crate::runs::ran;
use crate::states::{known_after, stepped, walked};
use crate::steps::counted_steps;
use crate::texts::{assembled, decoded, reassembled};
use crate::traces::{computed, traced};
use crate::verdicts::{fault, over_domains, verified, with_budget};
use anyhow::{Context, Result};
use interval::Interval;
use machine::NoAllocation;
use std::alloc::Global;

/// A section of a file, and how many rows it has.
#[derive(Drop)]
struct Section {
    name: String,
    rows: u64,
}

/// What rows are checked with, and what came of them.
#[derive(Drop)]
pub struct Checks {
    alloc: Global,
    names: Vec<Named>,
    sections: Vec<Section>,
    frames: Frames,
    datagrams: Vec<Seeded>,
    failures: u64,
}

impl Checks {
    /// Makes the checks of no row.
    ///
    /// # Errors
    /// Where memory runs out.
    pub fn new(alloc: Global) -> Result<Checks> {
        Ok(Checks {
            alloc,
            names: Vec::new(alloc),
            sections: Vec::new(alloc),
            frames: Frames::new(alloc)?,
            datagrams: datagrams(alloc)?,
            failures: 0,
        })
    }

    /// Returns how many rows have failed.
    pub fn failures(&self) -> u64 {
        self.failures
    }

    /// Checks that the run of a program agrees with its trace, where the program is accepted.
    fn check_run(&mut self, program: &str) -> Result<()> {
        let file = file_of(self.alloc, program)?;
        check_agreement(self.alloc, &mut self.frames, &self.datagrams, &file)
    }

    /// Returns what comes of loading the program of a row. Where it is accepted, its run agrees with its trace.
    fn verify(&mut self, row: &ProgramRow<'_>) -> Result<String> {
        let line = verified(self.alloc, &file_of(self.alloc, row.given)?)?;
        if line.starts_with("accepted") {
            self.check_run(row.given)?;
        }
        Ok(line)
    }

    /// Returns the trace of the program of a row, whose run agrees with it where it is accepted.
    fn trace(&mut self, row: &ProgramRow<'_>) -> Result<String> {
        let (_, program) = row.parts();
        self.check_run(program)?;
        traced(self.alloc, row)
    }

    /// Returns what is answered to a row.
    fn answer(&mut self, kind: RowKind, row: &ProgramRow<'_>) -> Result<String> {
        let alloc = self.alloc;
        match kind {
            RowKind::Assemble => assembled(alloc, row),
            RowKind::Reassemble => reassembled(alloc, row),
            RowKind::Decode => decoded(alloc, row),
            RowKind::Verify => self.verify(row),
            RowKind::Fault => fault(alloc, row),
            RowKind::Domains => over_domains(alloc, row),
            RowKind::Steps => counted_steps(alloc, row),
            RowKind::Budget => with_budget(alloc, row),
            RowKind::Interval => operators::answered::<Interval>(alloc, row),
            RowKind::Known => operators::answered::<KnownNumber>(alloc, row),
            RowKind::State => known_after(alloc, row),
            RowKind::Step => stepped(alloc, row),
            RowKind::Walk => walked(alloc, row),
            RowKind::Trace => self.trace(row),
            RowKind::Compute => computed(alloc, row),
            RowKind::Run => ran(alloc, &mut self.frames, row, &NoAllocation),
            RowKind::RunWithPeer => ran(alloc, &mut self.frames, row, &OnePeer),
            RowKind::Report => reported(alloc, row),
            RowKind::Order => ordered(alloc, row),
            RowKind::Explain => explained(alloc, row),
            RowKind::Cost => cost(alloc, row),
            RowKind::Parsed => parsed(alloc, row),
            RowKind::Refused => refused(alloc, row),
        }
    }

    /// Counts a row in the last section, and returns the name of that.
    fn count_row(&mut self) -> Result<&str> {
        let section = self
            .sections
            .last_mut()
            .context("a row before any section")?;
        section.rows = section.rows.saturating_add(1);
        Ok(section.name.as_str())
    }

    /// Checks the row of a line, and prints it where the answer isn't what is expected.
    fn check_row<R: Print>(&mut self, rt: &R, number: u64, line: &str) -> Result<()> {
        let line = expanded(self.alloc, &self.names, line)?;
        let row = ProgramRow::parse(&line)?;
        let kind = RowKind::of(row.kind).context("no such kind of row")?;
        let got = self.answer(kind, &row)?;
        let section = self.count_row()?;
        let ProgramRow { kind, expected, .. } = row;
        if got.as_str() != expected {
            println!(rt; "{section}, line {number}: {kind}: got {got}, expected {expected}")?;
            self.failures = self.failures.saturating_add(1);
        }
        Ok(())
    }

    /// Checks a line.
    fn check_line<R: Print>(&mut self, rt: &R, number: u64, line: &str) -> Result<()> {
        let alloc = self.alloc;
        match RowLine::parse(line)? {
            RowLine::Blank => {}
            RowLine::Section(name) => {
                let name = name.to_string(alloc)?;
                self.sections.push(Section { name, rows: 0 })?;
            }
            RowLine::Let { name, text } => {
                let name = name.to_string(alloc)?;
                let text = expanded(alloc, &self.names, text)?;
                self.names.push(Named { name, text })?;
            }
            RowLine::Row => self.check_row(rt, number, line)?,
        }
        Ok(())
    }

    /// Checks each line of a text.
    ///
    /// # Errors
    /// Where a line isn't one of a file of rows, or memory runs out.
    pub fn check_lines<R: Print>(&mut self, rt: &R, text: &str) -> Result<()> {
        for (number, line) in (1u64..).zip(text.lines()) {
            let checked = self.check_line(rt, number, line);
            checked.context(format!(in self.alloc; "line {number}")?)?;
        }
        Ok(())
    }

    /// Prints how many rows each section has, and how many there are.
    ///
    /// # Errors
    /// Where nothing can be printed.
    pub fn print_counts<R: Print>(&self, rt: &R) -> Result<()> {
        let mut total = 0u64;
        for Section { name, rows } in &self.sections {
            println!(rt; "{name}: {rows} rows")?;
            total = total.saturating_add(*rows);
        }
        println!(rt; "{total} rows")?;
        Ok(())
    }
}
