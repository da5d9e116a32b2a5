//! Checks the rows of messages, credentials, requests, tables and filters of peers on standard input.
#![tactic(auto)]

mod accounts;
mod building;
mod configurations;
mod filters;
mod messages;
mod order;
mod registry;
mod requests;
mod rows_of_tables;
mod sections;
mod values;

use anyhow::Result;
use rows::check_input;
use sections::TurnSections;

fn main(rt: HostRuntime) -> Result<()> {
    check_input(&rt, TurnSections::new())
}
