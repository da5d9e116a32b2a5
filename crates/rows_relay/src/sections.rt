//! The sections of rows.

use crate::relays::{self, Relays};
use crate::rounds;
use anyhow::{Result, bail};
use rows::Sections;
use rows::row::Row;
use server::Schedule;
use std::alloc::Global;

/// What rows leave to those that follow.
#[derive(Drop)]
pub struct RelaySections {
    relays: Option<Relays>,
    schedule: Option<Schedule>,
}

impl RelaySections {
    /// Returns the state before the first row.
    pub fn new() -> RelaySections {
        RelaySections {
            relays: None,
            schedule: None,
        }
    }
}

impl Sections for RelaySections {
    fn answer(&mut self, alloc: Global, section: &str, row: &Row<'_>) -> Result<String> {
        match section {
            "relay" => relays::answer(alloc, &mut self.relays, row),
            "rounds" => rounds::answer(alloc, &mut self.schedule, row),
            _ => bail!("no section is called {section}"),
        }
    }
}
