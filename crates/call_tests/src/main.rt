//! Calls that no row can say. The program makes a call once more where it was refused memory: a call for each event of
//! a session on standard input, or one call twice, with the size of each answer or its refusal; a script refuses the
//! allocations. The tests make single calls: what a frame keeps, outputs that fail, the longest programs, and the
//! limits; a server over UDP sockets, and replies whose contracts are proved with the tests.
#![tactic(auto)]

#[cfg(test)]
mod frames;
#[cfg(test)]
mod limits;
#[cfg(test)]
mod longest;
#[cfg(test)]
mod outputs;
mod repeated;
mod replaying;
#[cfg(test)]
mod replies;
#[cfg(test)]
mod reuse;
#[cfg(test)]
mod shared;
#[cfg(test)]
mod sockets;

use crate::repeated::call_twice;
use crate::replaying::replay;
use anyhow::{Result, bail};
use std::env;
use std::rt::Env;

fn run<R: Env + Input + Print + AllocGlobal>(rt: &R) -> Result<()> {
    let words: Vec<String> = env::args(rt)?.collect(rt.alloc())?;
    let [_, command] = words.as_slice() else {
        bail!("usage: call_tests COMMAND");
    };
    match command.as_str() {
        "replay" => replay(rt),
        command => call_twice(rt, command),
    }
}

fn main(rt: HostRuntime) -> Result<()> {
    run(&rt)
}
