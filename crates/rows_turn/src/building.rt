//! Messages that are built attribute by attribute.

use crate::accounts::{integrity_over, key_of};
use crate::registry::{attribute_of, error_of};
use anyhow::{Result, bail, ensure};
use attributes::{write_error, write_unknown, write_xor_addr};
use credentials::sign;
use rows::row::{Row, address, array, bytes, count, digits, number16};
use std::alloc::Global;
use std::fmt::Write;
use stun::registry::attribute::MESSAGE_INTEGRITY;
use stun::{Builder, NoRoom, read_back};

/// Returns whether a word of a row with a key is an attribute of its message: one with a capital letter or a digit
/// first.
pub fn is_attribute(key: &str) -> bool {
    let first = key.as_bytes().first();
    let is_type = first.is_some_and(|byte| byte.is_ascii_uppercase() || byte.is_ascii_digit());
    is_type || key.starts_with("signed") || key == "error" || key == "unknown"
}

/// Returns the types that are written one after the other, with four digits each.
fn types(alloc: Global, digits: &str) -> Result<Vec<u16>> {
    let bytes = bytes(alloc, digits)?;
    let mut types = Vec::new(alloc);
    for pair in bytes.chunks(2) {
        match pair {
            [high, low] => types.push(u16::from_be_bytes([*high, *low]))?,
            _ => bail!("half a type"),
        }
    }
    Ok(types)
}

/// Appends the right MESSAGE-INTEGRITY under a key, cut to a length or with zeros up to it.
fn append_cut(
    alloc: Global,
    builder: &mut Builder<'_>,
    length: usize,
    key: &str,
) -> Result<Result<(), NoRoom>> {
    let mut value = Vec::new(alloc);
    value.extend_from_slice(&integrity_over(builder.written(), key_of(alloc, key)?.bytes())?)?;
    value.resize(length, 0)?;
    Ok(builder.attr(MESSAGE_INTEGRITY, &value))
}

/// Appends the attribute of a word `KEY=VALUE`, and returns whether there is room.
///
/// # Errors
/// Where the word isn't understood, or memory runs out.
pub fn append(
    alloc: Global,
    builder: &mut Builder<'_>,
    key: &str,
    value: &str,
) -> Result<Result<(), NoRoom>> {
    if let Some(length) = key.strip_prefix("signed-") {
        return append_cut(alloc, builder, count(length)?, value);
    }
    Ok(match key {
        "error" => write_error(builder, error_of(value)?),
        "unknown" => write_unknown(builder, &types(alloc, value)?),
        "signed" => sign(builder, &key_of(alloc, value)?),
        _ if value.contains(':') => {
            write_xor_addr(builder, attribute_of(key)?, &address(value)?)
        }
        _ => builder.attr(attribute_of(key)?, &bytes(alloc, value)?),
    })
}

/// Appends the attributes that a row has.
///
/// # Errors
/// Where there is no room for one of them, too.
pub fn append_all(alloc: Global, builder: &mut Builder<'_>, row: &Row<'_>) -> Result<()> {
    for &(key, value) in &row.pairs {
        if is_attribute(key) {
            append(alloc, builder, key, value)??;
        }
    }
    Ok(())
}

/// Appends the attributes of a row, and writes for each that has no room that it hasn't.
fn append_each(
    alloc: Global,
    builder: &mut Builder<'_>,
    row: &Row<'_>,
    text: &mut String,
) -> Result<()> {
    for &(key, value) in &row.pairs {
        if append(alloc, builder, key, value)?.is_err() {
            text.push_str("no room / ")?;
        }
    }
    Ok(())
}

/// Builds the message of a row in a buffer, and returns its bytes, and for which attributes there was no room.
fn built(alloc: Global, buffer: &mut [u8], row: &Row<'_>) -> Result<String> {
    let kind = number16(row.word(1)?)?;
    ensure!(kind < 0x4000, "the type has more than 14 bits");
    let tx = array(row.word(2)?)?;
    let Ok(mut builder) = Builder::start(buffer, kind, tx) else {
        return Ok(String::from_str(alloc, "no room")?);
    };
    let mut text = String::new(alloc);
    append_each(alloc, &mut builder, row, &mut text)?;
    text.push_str(&digits(alloc, builder.written())?)?;
    if read_back(&builder).is_err() {
        text.push_str(" isn't read back")?;
    }
    Ok(text)
}

/// Returns how many of the last bytes of a buffer are as they were.
fn unchanged(buffer: &[u8]) -> usize {
    buffer
        .iter()
        .rev()
        .take_while(|byte| **byte == 0xff)
        .count()
}

/// Returns the answer to a row of this section.
pub fn answer(alloc: Global, row: &Row<'_>) -> Result<String> {
    if row.kind != "build" {
        let kind = row.kind;
        bail!("no row is called {kind}");
    }
    let mut buffer: Vec<u8> = vec![in alloc; 0xff; count(row.word(0)?)?]?;
    let mut text = built(alloc, &mut buffer, row)?;
    let rest = unchanged(&buffer);
    write!(text, " / {rest} left")?;
    Ok(text)
}
