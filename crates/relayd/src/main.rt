//! The program: parses the command line, and reports on a program file, explains it, draws it, puts it in order,
//! assembles a text, replays events, serves sockets or checks a server.
#![tactic(auto)]

mod options_file;

use crate::options_file::further_words;
use clap::ArgMatches;
use clap::error::ErrorKind as LineErrorKind;
use command_line::{Subcommand, line, subcommand_of};
use commands::{
    assemble_file, check, explain, graph, reorder_file, replay, report_file, trace, verify_file,
};
use report::Ask;
pub use serving::serve;
use setup::{BAD_LINE, CommandError, end};
use std::alloc::{AllocError, Global};
use std::env;
use std::fs::File;
use std::io::{ErrorKind, Write};
use std::net::Net;
use std::process::ExitCode;
use std::random::RandomSource;
use std::rt::{Clock, Env, Files};

/// Prints an error of the command line, or the help text that it requests, and returns the exit status.
fn report_line<R: Print + Eprint, E: Write>(rt: &R, err: &mut E, error: &clap::Error) -> u8 {
    if error.kind() == LineErrorKind::OutOfMemory {
        return end(err, CommandError::Memory);
    }
    if error.print(rt).is_err() {
        return end(err, CommandError::Output);
    }
    if error.use_stderr() { BAD_LINE } else { 0 }
}

/// Runs the subcommand of a parsed command line and returns the exit status.
fn run_subcommand<
    R: Files<File = File> + Input + Print + Net + Clock + RandomSource + AllocGlobal,
    E: Write,
>(rt: &R, err: &mut E, matches: &ArgMatches<'_>) -> u8 {
    let subcommand = match subcommand_of(matches) {
        Ok(Some(subcommand)) => subcommand,
        Ok(None) => return BAD_LINE,
        Err(error) => return end(err, CommandError::Value(error)),
    };
    match subcommand {
        Subcommand::Verify { file, lines } => verify_file(rt, err, file, lines),
        Subcommand::Explain { file, slot, lines } => explain(rt, err, file, slot, lines),
        Subcommand::Graph { file, lines } => graph(rt, err, file, lines),
        Subcommand::Trace { traced, given } => trace(rt, err, traced, &given),
        Subcommand::Disassemble { file, slots, lines } => {
            let slots = slots || lines.is_some();
            report_file(rt, err, file, Ask::Disassemble { slots }, lines)
        }
        Subcommand::Assemble { files } => assemble_file(rt, err, files),
        Subcommand::Order { files, from } => reorder_file(rt, err, files, from),
        Subcommand::Replay {
            replay: asked,
            options,
        } => replay(rt, err, &asked, &options),
        Subcommand::Serve { server, options } => serve(rt, err, &server, &options),
        Subcommand::Check { server, user } => check(rt, err, server, user),
    }
}

/// Returns the words of the process, the program's name first.
///
/// # Errors
/// Where a word is no text, and where memory runs out.
fn words_of<'a, R: Env + AllocGlobal>(rt: &R) -> Result<Vec<String>, CommandError<'a>> {
    let words: Result<Vec<String>, AllocError> = match env::args(rt) {
        Ok(words) => words.collect(rt.alloc()),
        Err(error) if error.kind() == ErrorKind::InvalidData => return Err(CommandError::Word),
        Err(_) => Err(AllocError),
    };
    words.map_err(|_| CommandError::Memory)
}

/// Returns the words of two lists, one after the other.
fn joined<'a>(
    alloc: Global,
    words: &'a [String],
    further: &'a [String],
) -> Result<Vec<&'a str>, AllocError> {
    let mut all = Vec::new(alloc);
    for word in words {
        all.push(word.as_str())?;
    }
    for word in further {
        all.push(word.as_str())?;
    }
    Ok(all)
}

/// Runs the command line of the process, with the options of a server that are in a file, and returns the exit status.
fn run<
    R: Env + Files<File = File> + Input + Print + Eprint + Net + Clock + RandomSource + AllocGlobal,
    E: Write,
>(rt: &R, err: &mut E) -> u8 {
    let words = match words_of(rt) {
        Ok(words) => words,
        Err(error) => return end(err, error),
    };
    let further = match further_words(rt, &words) {
        Ok(further) => further,
        Err(error) => return end(err, error),
    };
    let Ok(all) = joined(rt.alloc(), &words, &further) else {
        return end(err, CommandError::Memory);
    };
    match line(rt.alloc(), all.as_slice()) {
        Err(error) => report_line(rt, err, &error),
        Ok(matches) => run_subcommand(rt, err, &matches),
    }
}

fn main(rt: HostRuntime) -> ExitCode {
    let mut err = rt.stderr();
    ExitCode::from(run(&rt, &mut err))
}
