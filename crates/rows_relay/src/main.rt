//! Checks the rows of the relay and of rounds on standard input.
#![tactic(auto)]

mod links;
mod relays;
mod rounds;
mod sections;
mod wire;

use anyhow::Result;
use rows::check_input;
use sections::RelaySections;

fn main(rt: HostRuntime) -> Result<()> {
    check_input(&rt, RelaySections::new())
}
