//! Configurations, and the first field that lies outside its limits.

use crate::accounts::{add_users, user_of};
use anyhow::{Context, Result, bail};
use arrayvec::ArrayString;
use control::{Config, is_nonce};
use credentials::{User, owner_of};
use rows::row::{Row, bytes, count, text};
use std::alloc::Global;
use std::net::Ipv6Addr;

/// Returns the users of a row: `user` with the password `pass` and `other` with `word` unless it says `users=none`, and
/// those that it adds.
fn users(alloc: Global, row: &Row<'_>) -> Result<Vec<User>> {
    let mut users = Vec::new(alloc);
    if row.get("users") != Some("none") {
        users.push(user_of(alloc, "75736572/70617373")?)?;
        users.push(user_of(alloc, "6f74686572/776f7264")?)?;
    }
    add_users(alloc, &mut users, row)?;
    Ok(users)
}

/// Returns the text of a key, or another one where it has none.
fn text_or(alloc: Global, row: &Row<'_>, key: &str, other: &str) -> Result<String> {
    match row.get(key) {
        Some(digits) => text(alloc, digits),
        None => Ok(String::from_str(alloc, other)?),
    }
}

/// Returns how many seconds the system's clock of a row is ahead, none where it says nothing.
fn clock_ahead(row: &Row<'_>) -> Result<i64> {
    match row.get("clock") {
        Some(text) => text
            .parse::<i64>()
            .context(format_args!("{text} is no number of seconds")),
        None => Ok(0),
    }
}

/// Returns the users of a row that are revoked.
fn revoked(alloc: Global, row: &Row<'_>) -> Result<Vec<[u8; 20]>> {
    let mut owners = Vec::new(alloc);
    for &(key, value) in &row.pairs {
        if key == "revoked" {
            owners.push(owner_of(value.as_bytes()))?;
        }
    }
    Ok(owners)
}

/// Returns the configuration of a row: two slots from 203.0.113.1:49152 on, no IPv6 address, the realm `relay`, the
/// nonce `n1`, and two users, where it doesn't say otherwise.
pub fn config_of(alloc: Global, row: &Row<'_>) -> Result<Config> {
    let ip6 = match row.get("ip6") {
        Some(text) => Some(text.parse::<Ipv6Addr>()?.octets()),
        None => None,
    };
    let nonce = text_or(alloc, row, "nonce", "n1")?;
    let secret = match row.get("secret") {
        Some(digits) => Some(bytes(alloc, digits)?),
        None => None,
    };
    let former_secret = match row.get("former_secret") {
        Some(digits) => Some(bytes(alloc, digits)?),
        None => None,
    };
    Ok(Config {
        ip: [203, 0, 113, 1],
        ip6,
        first_port: u16::try_from(row.number_or("first_port", 49152)?)?,
        slots: count(row.get("slots").unwrap_or("2"))?,
        user_slots: match row.get("user_slots") {
            Some(text) => Some(count(text)?),
            None => None,
        },
        realm: text_or(alloc, row, "realm", "relay")?,
        nonce: ArrayString::from(&nonce)
            .ok()
            .context("the nonce is too long")?,
        users: users(alloc, row)?,
        secret,
        former_secret,
        revoked: revoked(alloc, row)?,
        clock_ahead: clock_ahead(row)?,
    })
}

/// Returns the first field of a configuration that lies outside its limits.
fn fault(alloc: Global, config: &Config) -> Result<String> {
    Ok(match config.fault() {
        Some(field) => format!(in alloc; "{field}")?,
        None => String::from_str(alloc, "none")?,
    })
}

/// Returns the answer to a row of this section.
pub fn answer(alloc: Global, row: &Row<'_>) -> Result<String> {
    match row.kind {
        "configuration" => fault(alloc, &config_of(alloc, row)?),
        "nonce" => {
            let is_nonce = is_nonce(&text(alloc, row.word(0)?)?);
            Ok(String::from_str(alloc, if is_nonce { "yes" } else { "no" })?)
        }
        kind => bail!("no row is called {kind}"),
    }
}
