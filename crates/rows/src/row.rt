//! Rows, and the values of their fields.

use addresses::Addr;
use anyhow::{Context, Result};
use std::alloc::{AllocError, Global};
use std::net::SocketAddr;

/// A row: what is asked, its fields, which are words and words `KEY=VALUE`, and what is expected, if anything is.
#[derive(Drop)]
pub struct Row<'a> {
    pub kind: &'a str,
    pub fields: &'a str,
    pub words: Vec<&'a str>,
    pub pairs: Vec<(&'a str, &'a str)>,
    pub expected: Option<&'a str>,
}

impl<'a> Row<'a> {
    /// Parses a line whose abbreviations are written out.
    pub fn of(alloc: Global, line: &'a str) -> Result<Row<'a>, AllocError> {
        let (asked, expected) = match line.split_once(" -> ") {
            Some((asked, expected)) => (asked, Some(expected)),
            None => (line, None),
        };
        let (kind, fields) = asked.split_once(' ').unwrap_or((asked, ""));
        let mut words = Vec::new(alloc);
        let mut pairs = Vec::new(alloc);
        for field in fields.split_whitespace() {
            match field.split_once('=') {
                Some(pair) => pairs.push(pair)?,
                None => words.push(field)?,
            }
        }
        Ok(Row {
            kind,
            fields,
            words,
            pairs,
            expected,
        })
    }

    /// Returns the word with an index, from 0 on.
    pub fn word(&self, index: usize) -> Result<&'a str> {
        self.words.get(index).copied().context("a word is missing")
    }

    /// Returns the value of the first word with a key.
    pub fn get(&self, key: &str) -> Option<&'a str> {
        self.pairs
            .iter()
            .find(|pair| pair.0 == key)
            .map(|pair| pair.1)
    }

    /// Returns the number that a key has, or another one if there is no such word.
    pub fn number_or(&self, key: &str, other: u64) -> Result<u64> {
        match self.get(key) {
            Some(text) => number(text),
            None => Ok(other),
        }
    }
}

/// Parses a decimal number.
pub fn number(text: &str) -> Result<u64> {
    text.parse::<u64>()
        .context(format_args!("{text} is no number"))
}

/// Parses a decimal number of an index or a count.
pub fn count(text: &str) -> Result<usize> {
    text.parse::<usize>()
        .context(format_args!("{text} is no count"))
}

/// Parses the hexadecimal digits of a number of 16 bits.
pub fn number16(text: &str) -> Result<u16> {
    u16::from_str_radix(text, 16).context(format_args!("{text} is no number of 16 bits"))
}

/// Parses hexadecimal digits, `-` for none.
pub fn bytes(alloc: Global, text: &str) -> Result<Vec<u8>> {
    let digits = if text == "-" { "" } else { text };
    Ok(hex::decode(alloc, digits)?)
}

/// Parses the hexadecimal digits of as many bytes.
pub fn array<const N: usize>(text: &str) -> Result<[u8; N]> {
    let mut array = [0; N];
    hex::decode_to_slice(text, &mut array)?;
    Ok(array)
}

/// Parses the hexadecimal digits of a text.
pub fn text(alloc: Global, digits: &str) -> Result<String> {
    Ok(String::from_utf8(bytes(alloc, digits)?)?)
}

/// Returns bytes as hexadecimal digits, `-` for none.
pub fn digits(alloc: Global, bytes: &[u8]) -> Result<String, AllocError> {
    if bytes.is_empty() {
        return String::from_str(alloc, "-");
    }
    hex::encode(alloc, bytes)
}

/// Parses an address such as `192.0.2.7:5000` or `[2001:db8::1]:5000`.
pub fn address(text: &str) -> Result<Addr> {
    let parsed = text.parse::<SocketAddr>();
    Ok(
        match parsed.context(format_args!("{text} is no address"))? {
            SocketAddr::V4(address) => Addr::V4 {
                ip: address.ip().octets(),
                port: address.port(),
            },
            SocketAddr::V6(address) => Addr::V6 {
                ip: address.ip().octets(),
                port: address.port(),
            },
        },
    )
}

/// Returns the address as a row writes it.
pub fn socket_address(address: &Addr) -> SocketAddr {
    match *address {
        Addr::V4 { ip, port } => SocketAddr::from((ip, port)),
        Addr::V6 { ip, port } => SocketAddr::from((ip, port)),
    }
}
