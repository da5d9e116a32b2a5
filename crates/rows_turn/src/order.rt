//! Requests with two faults at once: the error is that of the earlier test.

use crate::configurations::config_of;
use crate::requests::{ask, tables_of};
use anyhow::{Context, Result, bail};
use control::Config;
use rows::row::Row;
use std::alloc::{AllocError, Global};
use std::fmt::Write;
use tables::Tables;

/// The parts of a request that are an attribute each, in the order in which it has them.
const PARTS: [&str; 7] = [
    "peer",
    "second-peer",
    "number",
    "lifetime",
    "family",
    "transport",
    "unknown",
];

/// REQUESTED-TRANSPORT of the allocation that a request meets.
const UDP: &str = "REQUESTED-TRANSPORT=11000000";

/// What stands for an attribute that a request lacks: SOFTWARE, which is ignored (RFC 8489, section 14.14).
const IGNORED: &str = "8022=-";

/// The parts of the credentials.
const CREDENTIALS: [&str; 4] = ["username", "realm", "nonce", "password"];

/// A fault: its name, the words that give it to a request, and the error of a request with that fault alone.
#[derive(Drop)]
struct Fault {
    name: String,
    words: String,
    error: String,
}

/// A request that is made before the one that is tested, where that has a fault.
#[derive(Drop)]
struct Earlier {
    fault: String,
    request: String,
}

/// The order of the faults of a method.
#[derive(Drop)]
pub struct Order {
    config: Config,
    method: String,
    words: String,
    faults: Vec<Fault>,
    earlier: Vec<Earlier>,
}

/// Returns the value of the first word with a key.
fn value_in<'a>(words: &'a str, key: &str) -> Option<&'a str> {
    words
        .split_whitespace()
        .filter_map(|word| word.split_once('='))
        .find(|pair| pair.0 == key)
        .map(|pair| pair.1)
}

/// Returns whether two faults give a word different values, so that no request can have both.
fn are_exclusive(first: &str, second: &str) -> bool {
    first
        .split_whitespace()
        .filter_map(|word| word.split_once('='))
        .any(|pair| value_in(second, pair.0).is_some_and(|value| value != pair.1))
}

/// The words of a request: those of its method, and those of its faults, which count first.
#[derive(Clone, Copy)]
struct Case<'a> {
    order: &'a Order,
    faults: &'a [&'a Fault],
}

impl Case<'_> {
    /// Returns the words that have a key.
    fn words_with(&self, key: &str) -> &str {
        let mut faults = self.faults.iter();
        match faults.find(|fault| value_in(&fault.words, key).is_some()) {
            Some(fault) => &fault.words,
            None => &self.order.words,
        }
    }

    /// Returns the value of a key, `none` where it has none.
    fn value(&self, key: &str) -> &str {
        value_in(self.words_with(key), key).unwrap_or("none")
    }

    /// Appends the attributes that are a part each.
    fn push_parts(&self, text: &mut String) -> Result<(), AllocError> {
        for part in PARTS {
            let value = self.value(part);
            text.push_str(" ")?;
            text.push_str(if value == "none" { IGNORED } else { value })?;
        }
        Ok(())
    }

    /// Appends the further peers.
    fn push_peers(&self, text: &mut String) -> Result<(), AllocError> {
        let words = self.words_with("peers").split_whitespace();
        for (key, value) in words.filter_map(|word| word.split_once('=')) {
            if key == "peers" && value != "none" {
                text.push_str(" XOR-PEER-ADDRESS=")?;
                text.push_str(value)?;
            }
        }
        Ok(())
    }

    /// Appends the credentials that differ from those of the user.
    fn push_credentials(&self, text: &mut String) -> Result<(), AllocError> {
        for key in CREDENTIALS {
            if let Some(value) = value_in(self.words_with(key), key) {
                text.push_str(" ")?;
                text.push_str(key)?;
                text.push_str("=")?;
                text.push_str(value)?;
            }
        }
        Ok(())
    }

    /// Returns the line of the request.
    fn request(&self) -> Result<String, AllocError> {
        let mut text = self.order.method.clone()?;
        self.push_parts(&mut text)?;
        self.push_peers(&mut text)?;
        self.push_credentials(&mut text)?;
        Ok(text)
    }

    /// Has an earlier request of the allocation's owner answered, which may find no room.
    fn prepare(&self, alloc: Global, tables: &mut Tables, request: &str) -> Result<()> {
        let (name, password) = (self.value("owner"), self.value("owner-password"));
        let line = format!(in alloc; "{request} username={name} password={password}")?;
        let answer = ask(alloc, &self.order.config, tables, &Row::of(alloc, &line)?)?;
        let is_granted = answer.starts_with("success") && !answer.contains(" of another ");
        if !is_granted && answer.as_str() != "508" {
            bail!("an earlier request is refused: {answer}");
        }
        Ok(())
    }

    /// Makes the allocation that the request meets, unless there is none.
    fn allocate(&self, alloc: Global, tables: &mut Tables) -> Result<()> {
        if self.value("allocation") == "none" {
            return Ok(());
        }
        let (tx, family) = (self.value("transaction"), self.value("requested"));
        let line = format!(in alloc; "Allocate at=600 tx={tx} {UDP} {family}")?;
        self.prepare(alloc, tables, &line)
    }

    /// Makes the requests that a fault has before the one that is tested.
    fn prepare_all(&self, alloc: Global, tables: &mut Tables, name: &str) -> Result<()> {
        for earlier in &self.order.earlier {
            if earlier.fault.as_str() == name {
                self.prepare(alloc, tables, &earlier.request)?;
            }
        }
        Ok(())
    }

    /// Returns `success`, or the error of the request.
    fn code(&self, alloc: Global) -> Result<String> {
        let mut tables = tables_of(alloc, &self.order.config)?;
        self.allocate(alloc, &mut tables)?;
        for fault in self.faults {
            self.prepare_all(alloc, &mut tables, &fault.name)?;
        }
        let line = self.request()?;
        let answer = ask(
            alloc,
            &self.order.config,
            &mut tables,
            &Row::of(alloc, &line)?,
        )?;
        let code = answer.split_whitespace().next().unwrap_or("");
        Ok(String::from_str(alloc, code)?)
    }
}

/// Returns the words `KEY=VALUE` of a row, each after a blank.
fn pairs_of(alloc: Global, row: &Row<'_>) -> Result<String, AllocError> {
    let mut text = String::new(alloc);
    for &(key, value) in &row.pairs {
        write!(text, " {key}={value}")?;
    }
    Ok(text)
}

impl Order {
    /// Begins with the method and the words of a row, and without a fault.
    fn of(alloc: Global, row: &Row<'_>) -> Result<Order> {
        Ok(Order {
            config: config_of(alloc, row)?,
            method: String::from_str(alloc, row.word(0)?)?,
            words: pairs_of(alloc, row)?,
            faults: Vec::new(alloc),
            earlier: Vec::new(alloc),
        })
    }

    /// Returns the code of a request with some faults.
    fn code(&self, alloc: Global, faults: &[&Fault]) -> Result<String> {
        let order = self;
        Case { order, faults }.code(alloc)
    }

    /// Adds a request that is made before the one that is tested, where that has a fault.
    fn add_earlier(&mut self, alloc: Global, row: &Row<'_>) -> Result<()> {
        let mut request = String::from_str(alloc, row.word(1)?)?;
        request.push_str(&pairs_of(alloc, row)?)?;
        let fault = String::from_str(alloc, row.word(0)?)?;
        self.earlier.push(Earlier { fault, request })?;
        Ok(())
    }

    /// Adds a fault, and returns the error of a request that has it alone; and what a request with it and one of those
    /// before is answered, where that isn't the error of the earlier one.
    fn add_fault(&mut self, alloc: Global, row: &Row<'_>) -> Result<String> {
        let fault = Fault {
            name: String::from_str(alloc, row.word(0)?)?,
            words: pairs_of(alloc, row)?,
            error: String::from_str(alloc, row.expected.unwrap_or(""))?,
        };
        let mut text = self.code(alloc, &[&fault])?;
        for first in &self.faults {
            if are_exclusive(&first.words, &fault.words) {
                continue;
            }
            let code = self.code(alloc, &[first, &fault])?;
            if code != first.error {
                let name = &first.name;
                write!(text, ", {code} with {name}")?;
            }
        }
        self.faults.push(fault)?;
        Ok(text)
    }
}

/// Returns the answer to a row of this section. `order` begins anew.
pub fn answer(alloc: Global, order: &mut Option<Order>, row: &Row<'_>) -> Result<String> {
    if row.kind == "order" {
        let begun = Order::of(alloc, row)?;
        let code = begun.code(alloc, &[])?;
        *order = Some(begun);
        return Ok(code);
    }
    let order = order.as_mut().context("no order has begun")?;
    match row.kind {
        "fault" => order.add_fault(alloc, row),
        "earlier" => {
            order.add_earlier(alloc, row)?;
            Ok(String::new(alloc))
        }
        kind => bail!("no row is called {kind}"),
    }
}
