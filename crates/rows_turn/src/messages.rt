//! Datagrams that are read as messages and as ChannelData, and why they are refused.

use anyhow::{Context, Result, bail};
use attributes::lifetime;
use credentials::{User, check};
use rows::row::{Row, bytes, count, digits, number16};
use std::alloc::Global;
use std::fmt::Write;
use stun::{Message, read, read_channel};

/// Returns a byte and an index, which a word `BYTE@INDEX` has.
fn byte_at(word: &str) -> Result<(u8, usize)> {
    let (byte, index) = word.split_once('@').context("a byte has no index")?;
    let byte = u8::from_str_radix(byte, 16).context("a byte is no number")?;
    Ok((byte, count(index)?))
}

/// Changes a datagram as a word of a row says: `first=COUNT`, `set=BYTE@INDEX` or `xor=BYTE@INDEX`.
fn change(datagram: &mut Vec<u8>, key: &str, value: &str) -> Result<()> {
    match key {
        "first" => datagram.truncate(count(value)?),
        "set" => {
            let (byte, index) = byte_at(value)?;
            *datagram.get_mut(index).context("no such byte")? = byte;
        }
        "xor" => {
            let (byte, index) = byte_at(value)?;
            *datagram.get_mut(index).context("no such byte")? ^= byte;
        }
        _ => {}
    }
    Ok(())
}

/// Changes a datagram as the words of a row say.
pub fn change_all(datagram: &mut Vec<u8>, row: &Row<'_>) -> Result<()> {
    for &(key, value) in &row.pairs {
        change(datagram, key, value)?;
    }
    Ok(())
}

/// Appends the attributes of a message up to MESSAGE-INTEGRITY.
fn push_attributes(alloc: Global, text: &mut String, message: &Message<'_>) -> Result<()> {
    for attribute in message.attrs() {
        let (kind, value) = (attribute.kind, digits(alloc, attribute.value)?);
        write!(text, " {kind:04x}={value}")?;
    }
    Ok(())
}

/// Returns what a message says: its type, its transaction id, its attributes, and at which byte MESSAGE-INTEGRITY
/// begins.
fn message_text(alloc: Global, datagram: &[u8]) -> Result<String> {
    let message = match read(datagram) {
        Ok(message) => message,
        Err(error) => return Ok(format!(in alloc; "{error:?}")?),
    };
    let (kind, tx) = (message.kind(), hex::encode(alloc, message.tx())?);
    let mut text = format!(in alloc; "{kind:04x} {tx}")?;
    push_attributes(alloc, &mut text, &message)?;
    if let Some(front) = message.before_integrity() {
        let length = front.len();
        let is_front = datagram.starts_with(front);
        write!(text, " integrity@{length}")?;
        text.push_str(if is_front { "" } else { " of other bytes" })?;
    }
    Ok(text)
}

/// Returns why a datagram is refused, `none` where it is a message.
fn refusal(alloc: Global, datagram: &[u8]) -> Result<String> {
    Ok(match read(datagram) {
        Ok(_) => String::from_str(alloc, "none")?,
        Err(error) => format!(in alloc; "{error:?}")?,
    })
}

/// Appends the values of a type, and returns the first one.
fn push_values(alloc: Global, text: &mut String, message: &Message<'_>, kind: u16) -> Result<()> {
    for value in message.values_of(kind) {
        text.push_str(if text.is_empty() { "" } else { " " })?;
        text.push_str(&digits(alloc, value)?)?;
    }
    Ok(())
}

/// Returns the values of a type, and that another one is the first, if it is.
fn values(alloc: Global, datagram: &[u8], kind: u16) -> Result<String> {
    let message = read(datagram)?;
    let mut text = String::new(alloc);
    push_values(alloc, &mut text, &message, kind)?;
    if message.value_of(kind) != message.values_of(kind).next() {
        text.push_str(" another first")?;
    }
    if text.is_empty() {
        text.push_str("none")?;
    }
    Ok(text)
}

/// Returns the number and the data of ChannelData.
fn channel(alloc: Global, datagram: &[u8]) -> Result<String> {
    Ok(match read_channel(datagram) {
        None => String::from_str(alloc, "none")?,
        Some(data) => {
            let (number, data) = (data.number, digits(alloc, data.bytes)?);
            format!(in alloc; "{number:04x} {data}")?
        }
    })
}

/// Returns the code of the refusal of a datagram, or of its credentials under one user.
fn code(alloc: Global, datagram: &[u8]) -> Result<String> {
    let message = match read(datagram) {
        Ok(message) => message,
        Err(error) => return Ok(format!(in alloc; "{error}")?),
    };
    let users = [User {
        name: String::from_str(alloc, "user")?,
        password: String::from_str(alloc, "password")?,
    }];
    match check(&message, "relay", &users, "n1") {
        Ok(_) => Ok(String::from_str(alloc, "accepted")?),
        Err(error) => Ok(format!(in alloc; "{error}")?),
    }
}

/// Returns the code of the refusal of a LIFETIME.
fn code_of_lifetime(alloc: Global, value: &[u8]) -> Result<String> {
    match lifetime(value) {
        Ok(_) => Ok(String::from_str(alloc, "accepted")?),
        Err(error) => Ok(format!(in alloc; "{error}")?),
    }
}

/// Returns the answer to a row of this section.
pub fn answer(alloc: Global, row: &Row<'_>) -> Result<String> {
    let mut datagram = bytes(alloc, row.word(0)?)?;
    change_all(&mut datagram, row)?;
    match row.kind {
        "read" => message_text(alloc, &datagram),
        "refusal" => refusal(alloc, &datagram),
        "values" => values(alloc, &datagram, number16(row.word(1)?)?),
        "channel" => channel(alloc, &datagram),
        "code" => code(alloc, &datagram),
        "code-of-lifetime" => code_of_lifetime(alloc, &datagram),
        kind => bail!("no row is called {kind}"),
    }
}
