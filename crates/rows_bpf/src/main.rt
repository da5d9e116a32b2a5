//! Reads rows on standard input, one a line, each with what it expects, and compares that with what the crates that
//! work on programs and on command lines answer.
#![tactic(auto)]

mod agreement;
mod checking;
mod command_lines;
mod expansion;
mod explanations;
mod frames;
mod kinds;
mod known;
mod line;
mod numbers;
mod one_peer;
mod operators;
mod orders;
mod program;
mod reports;
mod runs;
mod states;
mod steps;
mod texts;
mod traces;
mod verdicts;

use anyhow::{Result, ensure};
use checking::Checks;
use std::io;

fn run<R: Input + Print + AllocGlobal>(rt: &R) -> Result<()> {
    let text = io::read_to_string(rt.alloc(), rt.reader())?;
    let mut checks = Checks::new(rt.alloc())?;
    checks.check_lines(rt, &text)?;
    checks.print_counts(rt)?;
    let failures = checks.failures();
    ensure!(failures == 0, "{failures} rows fail");
    Ok(())
}

fn main(rt: HostRuntime) -> Result<()> {
    run(&rt)
}
