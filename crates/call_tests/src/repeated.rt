//! The commands that make one call twice.

use anyhow::{Result, bail};
use asm::assemble;
use control::Config;
use disasm::disassemble;
use insn::{Insn, decode};
use loader::{Loaded, load};
use machine::Frame;
use relay::Relay;
use setup::sample::config;
use std::alloc::Global;
use std::fmt::Display;

/// A program of ten slots, with jumps at slots 3, 5 and 7 to slots 5, 7 and 9. Both branches of each are feasible.
static PROGRAM: [u8; 80] = [
    0xb7, 0x00, 0x00, 0x00, 0x00, 0x00, 0x00, 0x00, 0x79, 0x12, 0x20, 0x00, 0x00, 0x00, 0x00, 0x00,
    0x61, 0x13, 0x28, 0x00, 0x00, 0x00, 0x00, 0x00, 0x25, 0x02, 0x01, 0x00, 0x05, 0x00, 0x00, 0x00,
    0xb7, 0x00, 0x00, 0x00, 0x01, 0x00, 0x00, 0x00, 0x25, 0x03, 0x01, 0x00, 0x09, 0x00, 0x00, 0x00,
    0xb7, 0x00, 0x00, 0x00, 0x00, 0x00, 0x00, 0x00, 0x15, 0x02, 0x01, 0x00, 0x07, 0x00, 0x00, 0x00,
    0xb7, 0x00, 0x00, 0x00, 0x01, 0x00, 0x00, 0x00, 0x95, 0x00, 0x00, 0x00, 0x00, 0x00, 0x00, 0x00,
];

/// A text of the same program.
const TEXT: &str =
    "mov r0, 0\nldxdw r2, [r1+32]\nldxw r3, [r1+40]\njgt r2, 5, first\nmov r0, 1\nfirst:\n\
    jgt r3, 9, second\nmov r0, 0\nsecond:\njeq r2, 7, third\nmov r0, 1\nthird:\nexit\n";

/// Returns what a relay of two slots is made of: its configuration, and the programs of both sides.
fn parts(alloc: Global) -> Result<(Config, Loaded, Loaded)> {
    let config = config(alloc, [127, 0, 0, 1], 2)?;
    Ok((config, load(alloc, &PROGRAM)?, load(alloc, &PROGRAM)?))
}

/// Prints the line of an answer: its size, or a refusal.
fn print_answer<R: Print, E: Display + Drop>(
    rt: &R,
    command: &str,
    answer: Result<usize, E>,
    unit: &str,
) -> Result<()> {
    match answer {
        Ok(size) => println!(rt; "{command} {size} {unit}")?,
        Err(error) => println!(rt; "{command} {error}")?,
    }
    Ok(())
}

/// Makes the call of a command, and prints the line of its answer.
fn call<R: Print + AllocGlobal>(
    rt: &R,
    command: &str,
    code: &[Insn],
    (config, client, peer): (Config, Loaded, Loaded),
) -> Result<()> {
    let alloc = rt.alloc();
    match command {
        "decode" => {
            let answer = decode(alloc, &PROGRAM).map(|code| code.len());
            print_answer(rt, command, answer, "instructions")
        }
        "load" => {
            let answer = load(alloc, &PROGRAM).map(|loaded| loaded.program().code().len());
            print_answer(rt, command, answer, "instructions")
        }
        "assemble" => {
            let answer = assemble(alloc, TEXT).map(|bytes| bytes.len());
            print_answer(rt, command, answer, "bytes")
        }
        "disassemble" => {
            let answer = disassemble(alloc, code).map(|text| text.len());
            print_answer(rt, command, answer, "bytes")
        }
        "relay" => {
            let relay = Relay::new(alloc, config, client, peer);
            let answer = relay.map(|relay| relay.tables().slots());
            print_answer(rt, command, answer, "slots")
        }
        "frame" => {
            let answer = Frame::new(alloc).map(|frame| frame.room().len());
            print_answer(rt, command, answer, "bytes")
        }
        _ => bail!("no such COMMAND"),
    }
}

/// Makes the call of a command twice, and prints the line of each answer.
pub(crate) fn call_twice<R: Print + AllocGlobal>(rt: &R, command: &str) -> Result<()> {
    let code = decode(rt.alloc(), &PROGRAM)?;
    let (first, second) = (parts(rt.alloc())?, parts(rt.alloc())?);
    call(rt, command, &code, first)?;
    call(rt, command, &code, second)
}
