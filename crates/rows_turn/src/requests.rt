//! Requests and their replies.

use crate::building::append_all;
use crate::configurations::config_of;
use crate::registry::method_of;
use anyhow::{Context, Result, bail, ensure};
use attributes::{Addr, lifetime};
use control::{Config, REPLY_BYTES, all_understood, respond};
use credentials::{Key, sign};
use rows::row::{Row, address, bytes, digits, number, text};
use std::alloc::Global;
use std::fmt::Write;
use stun::registry::attribute::{ERROR_CODE, LIFETIME, NONCE, REALM, UNKNOWN_ATTRIBUTES, USERNAME};
use stun::registry::{Class, MessageType, Method};
use stun::{Builder, Message, read};
use tables::Tables;

/// The room for a request, in bytes.
const REQUEST_BYTES: usize = 2000;

/// A configuration, and the tables that requests change.
#[derive(Drop)]
pub struct Control {
    pub config: Config,
    tables: Tables,
}

/// Makes empty tables of a configuration.
pub fn tables_of(alloc: Global, config: &Config) -> Result<Tables> {
    ensure!((1..=256).contains(&config.slots), "a wrong number of slots");
    Ok(Tables::new(alloc, config.slots)?)
}

impl Control {
    /// Makes the configuration of a row, and empty tables.
    pub fn of(alloc: Global, row: &Row<'_>) -> Result<Control> {
        let config = config_of(alloc, row)?;
        let tables = tables_of(alloc, &config)?;
        Ok(Control { config, tables })
    }
}

/// Appends the attribute of a part of the credentials: what the row says, another text where it says nothing, and
/// nothing where it says `none`. Returns the text.
fn append_part(
    alloc: Global,
    builder: &mut Builder<'_>,
    kind: u16,
    said: Option<&str>,
    other: &str,
) -> Result<Option<String>> {
    let value = match said {
        Some("none") => return Ok(None),
        Some(digits) => text(alloc, digits)?,
        None => String::from_str(alloc, other)?,
    };
    builder.attr(kind, value.as_bytes())?;
    Ok(Some(value))
}

/// Appends the credentials of a row: those of the user `user` with the password `pass`, where it doesn't say otherwise.
fn append_credentials(alloc: Global, builder: &mut Builder<'_>, row: &Row<'_>) -> Result<()> {
    let name = append_part(alloc, builder, USERNAME, row.get("username"), "user")?;
    append_part(alloc, builder, REALM, row.get("realm"), "relay")?;
    append_part(alloc, builder, NONCE, row.get("nonce"), "n1")?;
    let password = match row.get("password") {
        Some("none") => return Ok(()),
        Some(digits) => text(alloc, digits)?,
        None => String::from_str(alloc, "pass")?,
    };
    let name = match &name {
        Some(name) => name.as_bytes(),
        None => b"user",
    };
    sign(builder, &Key::of(name, "relay", password.as_bytes()))?;
    Ok(())
}

/// Returns a transaction id, of which each byte is the same: the number that a row says, or 1.
fn transaction(row: &Row<'_>) -> Result<[u8; 12]> {
    Ok([u8::try_from(row.number_or("tx", 1)?)?; 12])
}

/// Writes the request of a row, its attributes and then its credentials.
fn request_of(alloc: Global, method: Method, row: &Row<'_>) -> Result<Vec<u8>> {
    let kind = MessageType {
        method,
        class: Class::Request,
    };
    let mut buffer: Vec<u8> = vec![in alloc; 0; REQUEST_BYTES]?;
    let mut builder = Builder::start(&mut buffer, kind.kind(), transaction(row)?)?;
    append_all(alloc, &mut builder, row)?;
    append_credentials(alloc, &mut builder, row)?;
    let length = builder.finish();
    buffer.truncate(length);
    Ok(buffer)
}

/// Returns the client of a row, 198.51.100.2:4000 where it names none.
fn client_of(row: &Row<'_>) -> Result<Addr> {
    address(row.get("from").unwrap_or("198.51.100.2:4000"))
}

/// Has a message answered over tables that fit a configuration, and returns the length of the reply, 0 where there is
/// none.
fn answer_length(
    config: &Config,
    tables: &mut Tables,
    now: u64,
    client: Addr,
    message: &Message<'_>,
    out: &mut [u8; REPLY_BYTES],
) -> Result<usize> {
    ensure!(config.fault().is_none(), "a wrong configuration");
    ensure!(tables.slots() == config.slots, "another number of slots");
    let written = respond(tables, config, now, client, message, out);
    Ok(written.map_or(0, |written| written.count))
}

/// Has a request answered, and returns the reply, if there is one.
fn reply(
    alloc: Global,
    config: &Config,
    tables: &mut Tables,
    row: &Row<'_>,
    request: &[u8],
) -> Result<Option<Vec<u8>>> {
    let (now, client) = (row.number_or("at", 1000)?, client_of(row)?);
    let message = read(request)?;
    let mut out = [0; REPLY_BYTES];
    let length = answer_length(config, tables, now, client, &message, &mut out)?;
    if length == 0 {
        return Ok(None);
    }
    let mut reply = Vec::new(alloc);
    reply.extend_from_slice(out.get(..length).unwrap_or(&[]))?;
    Ok(Some(reply))
}

/// Returns the code in a value of ERROR-CODE.
fn code_in(value: &[u8]) -> Option<u16> {
    let hundreds = u16::from(*value.get(2)?);
    let rest = u16::from(*value.get(3)?);
    hundreds.checked_mul(100)?.checked_add(rest)
}

/// Appends the values that a reply has, of LIFETIME in seconds.
fn push_reply(alloc: Global, text: &mut String, reply: &Message<'_>) -> Result<()> {
    match reply.value_of(ERROR_CODE) {
        Some(value) => {
            let code = code_in(value).context("no code")?;
            write!(text, "{code}")?;
        }
        None => text.push_str("success")?,
    }
    if let Some(value) = reply.value_of(UNKNOWN_ATTRIBUTES) {
        let types = digits(alloc, value)?;
        write!(text, " unknown {types}")?;
    }
    if let Some(value) = reply.value_of(LIFETIME) {
        let seconds = lifetime(value)?;
        write!(text, " {seconds}")?;
    }
    Ok(())
}

/// Returns what a reply says to a request: `success` or the code of an error, and what its attributes say; and what is
/// wrong with its type or its transaction id, if anything is.
fn reply_text(alloc: Global, row: &Row<'_>, method: Method, bytes: &[u8]) -> Result<String> {
    let reply = read(bytes)?;
    let mut text = String::new(alloc);
    push_reply(alloc, &mut text, &reply)?;
    let class = match reply.value_of(ERROR_CODE) {
        Some(_) => Class::Error,
        None => Class::Success,
    };
    if reply.kind() != (MessageType { method, class }).kind() {
        text.push_str(" of another type")?;
    }
    if reply.tx() != transaction(row)? {
        text.push_str(" of another transaction")?;
    }
    Ok(text)
}

/// Has the request of a row answered over some tables, and returns what the reply says.
pub fn ask(alloc: Global, config: &Config, tables: &mut Tables, row: &Row<'_>) -> Result<String> {
    let method = method_of(row.kind)?;
    let request = request_of(alloc, method, row)?;
    match reply(alloc, config, tables, row, &request)? {
        Some(bytes) => reply_text(alloc, row, method, &bytes),
        None => Ok(String::from_str(alloc, "no reply")?),
    }
}

impl Control {
    /// Has a request answered, and returns the bytes of the reply: the request of a method, or a message.
    fn reply_bytes(&mut self, alloc: Global, row: &Row<'_>) -> Result<String> {
        let request = match row.get("message") {
            Some(digits) => bytes(alloc, digits)?,
            None => request_of(alloc, method_of(row.word(0)?)?, row)?,
        };
        match reply(alloc, &self.config, &mut self.tables, row, &request)? {
            Some(bytes) => Ok(digits(alloc, &bytes)?),
            None => Ok(String::from_str(alloc, "no reply")?),
        }
    }
}

/// Returns whether all attributes of a message are understood.
fn understood(alloc: Global, row: &Row<'_>) -> Result<String> {
    let message = bytes(alloc, row.word(0)?)?;
    let is_understood = all_understood(&read(&message)?);
    Ok(String::from_str(alloc, if is_understood { "yes" } else { "no" })?)
}

/// Returns the answer to a row of this section. `control` begins anew.
pub fn answer(alloc: Global, control: &mut Option<Control>, row: &Row<'_>) -> Result<String> {
    if row.kind == "control" {
        *control = Some(Control::of(alloc, row)?);
        return Ok(String::new(alloc));
    }
    let control = control.as_mut().context("no row has begun")?;
    match row.kind {
        "reply" => control.reply_bytes(alloc, row),
        "all-understood" => understood(alloc, row),
        _ => ask(alloc, &control.config, &mut control.tables, row),
    }
}
