//! The sections of rows.

use crate::order::Order;
use crate::requests::Control;
use crate::{
    accounts, building, configurations, filters, messages, order, registry, requests,
    rows_of_tables, values,
};
use anyhow::{Result, bail};
use rows::Sections;
use rows::row::Row;
use std::alloc::Global;
use tables::Tables;

/// What rows leave to those that follow.
#[derive(Drop)]
pub struct TurnSections {
    control: Option<Control>,
    order: Option<Order>,
    tables: Option<Tables>,
}

impl TurnSections {
    /// Returns the state before the first row.
    pub fn new() -> TurnSections {
        TurnSections {
            control: None,
            order: None,
            tables: None,
        }
    }
}

impl Sections for TurnSections {
    fn answer(&mut self, alloc: Global, section: &str, row: &Row<'_>) -> Result<String> {
        match section {
            "registry" => registry::answer(alloc, row),
            "messages" => messages::answer(alloc, row),
            "values" => values::answer(alloc, row),
            "building" => building::answer(alloc, row),
            "credentials" => accounts::answer(alloc, row),
            "configurations" => configurations::answer(alloc, row),
            "requests" => requests::answer(alloc, &mut self.control, row),
            "order" => order::answer(alloc, &mut self.order, row),
            "tables" => rows_of_tables::answer(alloc, &mut self.tables, row),
            "peers" => filters::answer(alloc, row),
            _ => bail!("no section is called {section}"),
        }
    }
}
