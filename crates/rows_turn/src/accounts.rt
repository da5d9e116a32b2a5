//! Keys and HMACs, and the credentials of requests.

use crate::building::append_all;
use crate::messages::change_all;
use anyhow::{Context, Result, bail};
use credentials::{
    AuthError, Authenticated, Directory, Key, TimeLimited, User, authenticate, check, hmac_sha1,
    owner_of,
};
use rows::row::{Row, array, bytes, number, text};
use std::alloc::Global;
use stun::{Builder, Message, read};

/// Returns the key of a text `USER:REALM:PASSWORD`, which is the MD5 of the whole text.
pub fn key_of(alloc: Global, digits: &str) -> Result<Key> {
    let text = text(alloc, digits)?;
    let (user, rest) = text.split_once(':').context("a key has no realm")?;
    let (realm, password) = rest.split_once(':').context("a key has no password")?;
    Ok(Key::of(user.as_bytes(), realm, password.as_bytes()))
}

/// Returns the MESSAGE-INTEGRITY after the first bytes of a message, by the formula of RFC 8489, section 14.5: the HMAC
/// of these bytes, in which the length is that of the message up to the end of MESSAGE-INTEGRITY.
pub fn integrity_over(front: &[u8], key: &[u8]) -> Result<[u8; 20]> {
    let (kind, rest) = front.split_at_checked(2).context("no type")?;
    let (_, rest) = rest.split_at_checked(2).context("no length")?;
    let length = front.len().saturating_add(4);
    let length = u16::try_from(length).context("too long")?.to_be_bytes();
    Ok(hmac_sha1(key, &[kind, &length, rest]))
}

/// Returns the MESSAGE-INTEGRITY that a message should have under a key, and that it has another one, if it has.
fn integrity(alloc: Global, message: &Message<'_>, key: &[u8]) -> Result<String> {
    let front = message.before_integrity().context("no MESSAGE-INTEGRITY")?;
    let made = integrity_over(front, key)?;
    let carried = message.attrs().last().context("no attribute")?;
    let mut text = hex::encode(alloc, made)?;
    if carried.value != made.as_slice() {
        text.push_str(" isn't in the message")?;
    }
    Ok(text)
}

/// Returns the HMAC of pieces of bytes under a key: the first word, and those that follow it.
fn hmac(alloc: Global, row: &Row<'_>) -> Result<String> {
    let key = bytes(alloc, row.word(0)?)?;
    let mut pieces = Vec::new(alloc);
    for word in row.words.iter().skip(1) {
        pieces.push(bytes(alloc, word)?)?;
    }
    let pieces: Vec<&[u8]> = pieces.iter().map(|piece| piece.as_slice()).collect(alloc)?;
    Ok(hex::encode(alloc, hmac_sha1(&key, &pieces))?)
}

/// Parses a user: `NAME/PASSWORD`, each as hexadecimal digits.
pub fn user_of(alloc: Global, word: &str) -> Result<User> {
    let (name, password) = word.split_once('/').context("a user has no password")?;
    Ok(User {
        name: text(alloc, name)?,
        password: text(alloc, password)?,
    })
}

/// Adds the users that a row has.
pub fn add_users(alloc: Global, users: &mut Vec<User>, row: &Row<'_>) -> Result<()> {
    for &(key, value) in &row.pairs {
        if key == "user" {
            users.push(user_of(alloc, value)?)?;
        }
    }
    Ok(())
}

/// Returns the message of a row: its `message`, or an Allocate request with its attributes; with the changes that it
/// says.
fn message_of(alloc: Global, row: &Row<'_>) -> Result<Vec<u8>> {
    let mut message = match row.get("message") {
        Some(digits) => bytes(alloc, digits)?,
        None => {
            let mut buffer: Vec<u8> = vec![in alloc; 0; 300]?;
            let mut builder = Builder::start(&mut buffer, 0x0003, [7; 12])?;
            append_all(alloc, &mut builder, row)?;
            let length = builder.finish();
            buffer.truncate(length);
            buffer
        }
    };
    change_all(&mut message, row)?;
    Ok(message)
}

/// Returns the text of a key, an empty one where it has none.
fn text_or_empty(alloc: Global, row: &Row<'_>, key: &str) -> Result<String> {
    text(alloc, row.get(key).unwrap_or("-"))
}

/// What the credentials of a row's message are checked against.
#[derive(Drop)]
struct RowAccounts {
    realm: String,
    nonce: String,
    users: Vec<User>,
    secret: Option<Vec<u8>>,
    moment: u64,
    held: Option<usize>,
}

impl RowAccounts {
    /// Returns what a row says: `realm`, `nonce`, each `user`, `secret`, the moment as `at`, and the user whose
    /// allocation the client has as `holds`.
    fn of(alloc: Global, row: &Row<'_>) -> Result<RowAccounts> {
        let mut users = Vec::new(alloc);
        add_users(alloc, &mut users, row)?;
        let secret = match row.get("secret") {
            Some(digits) => Some(bytes(alloc, digits)?),
            None => None,
        };
        let held = match row.get("holds") {
            Some(digits) => Some(usize::from_str_radix(digits, 16)?),
            None => None,
        };
        Ok(RowAccounts {
            realm: text_or_empty(alloc, row, "realm")?,
            nonce: text_or_empty(alloc, row, "nonce")?,
            users,
            secret,
            moment: row.number_or("at", 0)?,
            held,
        })
    }

    /// Authenticates a message.
    fn authenticate(&self, message: &Message<'_>) -> Result<Authenticated, AuthError> {
        let directory = Directory {
            users: &self.users,
            time_limited: match &self.secret {
                Some(secret) => Some(TimeLimited {
                    secret,
                    time: self.moment,
                    held: self.held,
                }),
                None => None,
            },
        };
        authenticate(message, &self.realm, &directory, &self.nonce)
    }
}

/// Returns the user whose credentials a message has, by its number in hexadecimal digits, or the first test that fails.
fn user_text(alloc: Global, checked: Result<usize, AuthError>) -> Result<String> {
    Ok(match checked {
        Ok(user) => format!(in alloc; "user {user:x}")?,
        Err(error) => format!(in alloc; "{error:?}")?,
    })
}

/// Returns the key of the account whose credentials a message has.
fn account_key(alloc: Global, checked: Result<Authenticated, AuthError>) -> Result<String> {
    Ok(match checked {
        Ok(account) => hex::encode(alloc, account.key.bytes())?,
        Err(error) => format!(in alloc; "{error:?}")?,
    })
}

/// Returns the answer to a row whose message has credentials.
fn checked(alloc: Global, row: &Row<'_>) -> Result<String> {
    let accounts = RowAccounts::of(alloc, row)?;
    let message = message_of(alloc, row)?;
    let message = read(&message)?;
    match row.kind {
        "check" => {
            let result = check(&message, &accounts.realm, &accounts.users, &accounts.nonce);
            user_text(alloc, result)
        }
        "authenticate" => {
            let result = accounts.authenticate(&message);
            user_text(alloc, result.map(|account| account.user))
        }
        "account-key" => account_key(alloc, accounts.authenticate(&message)),
        kind => bail!("no row is called {kind}"),
    }
}

/// Returns the answer to a row of this section.
pub fn answer(alloc: Global, row: &Row<'_>) -> Result<String> {
    match row.kind {
        "hmac" => hmac(alloc, row),
        "owner" => Ok(hex::encode(alloc, owner_of(&bytes(alloc, row.word(0)?)?))?),
        "key" => Ok(hex::encode(alloc, key_of(alloc, row.word(0)?)?.bytes())?),
        "integrity" => {
            let (message, key) = (bytes(alloc, row.word(0)?)?, bytes(alloc, row.word(1)?)?);
            integrity(alloc, &read(&message)?, &key)
        }
        _ => checked(alloc, row),
    }
}
