//! Rows of reports: `report`.

use crate::line::ProgramRow;
use crate::program::{file_of, joined};
use crate::texts::unquoted;
use anyhow::{Result, bail};
use basics::streams::Output;
use report::{Ask, report};
use std::alloc::Global;
use std::io::{self, Write};

/// A writer that keeps its bytes until it is flushed.
#[derive(Drop)]
struct Holding {
    held: Vec<u8>,
    flushed: Vec<u8>,
}

impl Write for Holding {
    fn write(&mut self, buf: &[u8]) -> io::Result<usize> {
        self.held.extend_from_slice(buf)?;
        Ok(buf.len())
    }

    fn flush(&mut self) -> io::Result<()> {
        self.flushed.extend_from_slice(&self.held)?;
        self.held.clear();
        Ok(())
    }
}

/// What a report prints to each stream and flushes, and its status.
#[derive(Drop)]
pub struct Printed {
    pub status: u8,
    pub out: String,
    pub err: String,
}

impl Printed {
    /// Makes the report on a program file.
    ///
    /// # Errors
    /// Where what is printed isn't text, or memory runs out.
    pub fn of(alloc: Global, ask: Ask<'_>, file: &[u8]) -> Result<Printed> {
        let mut out = Output::new(Holding {
            held: Vec::new(alloc),
            flushed: Vec::new(alloc),
        });
        let mut err = Vec::new(alloc);
        let status = report(alloc, ask, file, &mut out, &mut err);
        let Holding { held, flushed } = out.into_inner();
        if !held.is_empty() {
            bail!("the report isn't flushed");
        }
        Ok(Printed {
            status,
            out: String::from_utf8(flushed)?,
            err: String::from_utf8(err)?,
        })
    }

    /// Returns the status, the lines that are printed, and the line of an error, with slashes between them.
    ///
    /// # Errors
    /// Where memory runs out.
    pub fn line(&self, alloc: Global) -> Result<String> {
        let status = self.status;
        let mut line = format!(in alloc; "status {status}")?;
        if !self.out.is_empty() {
            line.push_str(" / ")?;
            line.push_str(&joined(alloc, &self.out, " / ")?)?;
        }
        if !self.err.is_empty() {
            line.push_str(" / error: ")?;
            line.push_str(&joined(alloc, &self.err, " / ")?)?;
        }
        Ok(line)
    }
}

/// Makes the report of a row, and returns what it prints.
///
/// # Errors
/// Where the row asks for no report, its program is refused by the assembler, or memory runs out.
pub fn reported(alloc: Global, row: &ProgramRow<'_>) -> Result<String> {
    let (ask, program) = row.parts();
    let file = file_of(alloc, program)?;
    let printed = match ask {
        "verify" => Printed::of(alloc, Ask::Verify, &file)?,
        "disassemble" => Printed::of(alloc, Ask::Disassemble { slots: false }, &file)?,
        "disassemble with slots" => Printed::of(alloc, Ask::Disassemble { slots: true }, &file)?,
        "trace" => Printed::of(alloc, Ask::Trace { hex: None }, &file)?,
        _ => match ask.strip_prefix("trace ") {
            Some(quoted) => {
                let hex = unquoted(alloc, quoted)?;
                Printed::of(alloc, Ask::Trace { hex: Some(&hex) }, &file)?
            }
            None => bail!("no such report: {ask}"),
        },
    };
    printed.line(alloc)
}
