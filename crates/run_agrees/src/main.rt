//! Loads the programs on standard input, and compares the run of each that is accepted with its trace.
#![tactic(auto)]

mod checking;
mod comparison;
mod datagram;
mod drawn;
mod random;
mod rows;

use anyhow::{Context, Result, bail};
use checking::{CheckedPrograms, Variants};
use std::rt::Env;
use std::{env, io};

/// Returns the number of datagrams and the variants that the command line names.
fn asked(words: &[String]) -> Result<(u64, Variants)> {
    let (datagrams, variants) = match words {
        [_, datagrams] => (datagrams, Variants::Whole),
        [_, datagrams, word] if word.as_str() == "flips" => (datagrams, Variants::Flips),
        [_, datagrams, word, count] if word.as_str() == "pairs" => {
            let count = count.parse::<u64>().context("COUNT is no number")?;
            (datagrams, Variants::Pairs(count))
        }
        _ => bail!("usage: run_agrees DATAGRAMS [flips | pairs COUNT]"),
    };
    let datagrams = datagrams.parse::<u64>().context("DATAGRAMS is no number")?;
    Ok((datagrams, variants))
}

/// Checks the program of each line.
fn check_lines<R: AllocGlobal>(
    rt: &R,
    checks: &mut CheckedPrograms,
    text: &str,
    variants: Variants,
) -> Result<()> {
    for (number, line) in (1u64..).zip(text.lines()) {
        let checked = checks.check_line(rt.alloc(), line, variants);
        checked.context(format!(in rt.alloc(); "line {number}")?)?;
    }
    Ok(())
}

/// Prints the counts.
fn print_counts<R: Print>(rt: &R, checks: &CheckedPrograms) -> Result<()> {
    for (code, count) in &checks.counts {
        println!(rt; "{code}: {count}")?;
    }
    let (runs, windows) = (checks.comparison.runs(), checks.comparison.windows());
    println!(rt; "{runs} runs agree, {windows} of them with a window")?;
    Ok(())
}

fn run<R: Env + Input + Print + AllocGlobal>(rt: &R) -> Result<()> {
    let words: Vec<String> = env::args(rt)?.collect(rt.alloc())?;
    let (datagrams, variants) = asked(words.as_slice())?;
    let text = io::read_to_string(rt.alloc(), rt.reader())?;
    let mut checks = CheckedPrograms::new(rt.alloc(), datagrams)?;
    check_lines(rt, &mut checks, &text, variants)?;
    print_counts(rt, &checks)
}

fn main(rt: HostRuntime) -> Result<()> {
    run(&rt)
}
