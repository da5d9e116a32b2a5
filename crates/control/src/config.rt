//! The configuration of a relay.

ghost use Rattle.std.specs.Prelude.{◌≡◌};
ghost use Rattle.std.specs.List.{list_all};
ghost use Rattle.control.specs.Configs.{is_user, has_name, are_distinct, are_users, is_secret};

use arrayvec::ArrayString;
use credentials::{User, is_nonce, is_text};
use std::fmt;

/// The greatest length of a realm, of a user's name, of a password and of a secret, in bytes.
pub const MAX_TEXT: usize = 128;

/// The greatest number of users.
pub const MAX_USERS: usize = 64;

/// The configuration of a relay.
#[derive(Drop)]
pub struct Config {
    /// The relayed IP address.
    pub ip: [u8; 4],
    /// The relayed IPv6 address, if there is one.
    pub ip6: Option<[u8; 16]>,
    /// The relayed port of slot 0, at least 1; slot i has `first_port + i`.
    pub first_port: u16,
    /// The number of slots, 1 to 256; the last port is at most 65,535.
    pub slots: usize,
    /// How many allocations a user may have at once, if that is limited. Names of time-limited credentials that differ
    /// in their expiry alone are of one user ([`owner_of`](credentials::owner_of)).
    pub user_slots: Option<usize>,
    /// The realm: 1 to 128 bytes of 0x20 to 0x7E.
    pub realm: String,
    /// The current nonce: 1 to 64 bytes of 0x21 to 0x7E.
    pub nonce: ArrayString<64>,
    /// The users, at most 64, and at least one where there is no secret, with distinct names of 1 to 128 bytes of 0x21
    /// to 0x7E without `:`, and passwords of 1 to 128 bytes of 0x20 to 0x7E ([`are_users`]).
    pub users: Vec<User>,
    /// The secret of time-limited credentials, 16 to 128 bytes, if such credentials are accepted.
    pub secret: Option<Vec<u8>>,
    /// The secret that was the secret before, 16 to 128 bytes, if credentials under it are accepted as well.
    pub former_secret: Option<Vec<u8>>,
    /// The users whose credentials aren't accepted, each by the digest of its name
    /// ([`owner_of`](credentials::owner_of)).
    pub revoked: Vec<[u8; 20]>,
    /// How many seconds the system's clock, since 1970, is ahead of the moments. Time-limited credentials expire by
    /// that clock, and nothing else is by it.
    pub clock_ahead: i64,
}

/// A field of a configuration that may lie outside its limits. It displays as its name.
#[derive(Clone, Copy, Debug, PartialEq, Eq)]
pub enum Field {
    FirstPort,
    Slots,
    Realm,
    Nonce,
    Users,
    Secret,
}

impl fmt::Display for Field {
    fn fmt<W: fmt::Write>(&self, f: &mut fmt::Formatter<W>) -> fmt::Result {
        match self {
            Field::FirstPort => f.write_str("first_port"),
            Field::Slots => f.write_str("slots"),
            Field::Realm => f.write_str("realm"),
            Field::Nonce => f.write_str("nonce"),
            Field::Users => f.write_str("users"),
            Field::Secret => f.write_str("secret"),
        }
    }
}

/// The fields that have limits, in their order.
const FIELDS: [Field; 6] = [
    Field::FirstPort,
    Field::Slots,
    Field::Realm,
    Field::Nonce,
    Field::Users,
    Field::Secret,
];

/// Returns whether a user's name and password lie within their limits.
fn is_user(user: &User) -> bool
    ensures { result ≡ is_user user.now }
{
    is_text(user.name.as_bytes(), 0x21, MAX_TEXT)
        && !user.name.as_bytes().contains(&b':')
        && is_text(user.password.as_bytes(), 0x20, MAX_TEXT)
}

/// Returns whether each of some users lies within its limits.
fn are_within_limits(users: &[User]) -> bool
    ensures { result ≡ list_all is_user users.now }
{
    users.iter().all(|user| is_user(user))
}

/// Returns whether one of some users has a name.
fn has_name(users: &[User], name: &str) -> bool
    ensures { result ≡ has_name users.now name.now }
{
    users.iter().any(|user| name == user.name.as_str())
}

/// Returns whether no two users have one name.
fn are_distinct(users: &[User]) -> bool
    ensures { result ≡ are_distinct users.now }
{
    let mut rest = users;
    while let Some((user, others)) = rest.split_first() {
        if has_name(others, &user.name) {
            return false;
        }
        rest = others;
    }
    true
}

/// Returns whether these can be the users of a relay: at most [`MAX_USERS`], and at least one where there is no secret
/// of time-limited credentials, with distinct names of 1 to 128 bytes of 0x21 to 0x7E without `:`, and passwords of 1
/// to 128 bytes of 0x20 to 0x7E.
pub fn are_users(has_secret: bool, users: &[User]) -> bool
    ensures { result ≡ are_users has_secret users.now }
{
    let least = if has_secret { 0 } else { 1 };
    (least..=MAX_USERS).contains(&users.len()) && are_within_limits(users) && are_distinct(users)
}

/// The greatest number of users that are revoked.
pub const MAX_REVOKED: usize = 256;

/// Returns whether the secret of time-limited credentials, if there is one, has 16 to 128 bytes.
pub fn is_secret(secret: &Option<Vec<u8>>) -> bool
    ensures { result ≡ is_secret secret.now }
{
    match secret {
        Some(secret) => (16..=MAX_TEXT).contains(&secret.len()),
        None => true,
    }
}

impl Config {
    ghost use Rattle.std.specs.Prelude.{◌≡◌};
    ghost use Rattle.control.specs.Configs.{is_valid_field, fault};
    ghost use Rattle.control.specs.laws.Config.{IsWithinLimits};

    /// Returns whether a field lies within its limits.
    fn is_valid(&self, field: Field) -> bool
        ensures { result ≡ is_valid_field self.now field }
    {
        match field {
            Field::FirstPort => self.first_port >= 1,
            Field::Slots => {
                (1..=256).contains(&self.slots)
                    && usize::from(self.first_port) + self.slots <= 65_536
            }
            Field::Realm => is_text(self.realm.as_bytes(), 0x20, MAX_TEXT),
            Field::Nonce => is_nonce(self.nonce.as_str()),
            Field::Users => are_users(self.secret.is_some(), &self.users),
            Field::Secret => is_secret(&self.secret) && is_secret(&self.former_secret),
        }
    }

    /// States the limits of a configuration without a fault.
    pub fn law_is_within_limits(&self)
        requires { fault self.now ≡ None }
        ensures { IsWithinLimits self.now }
    {}

    /// Returns the first field that lies outside its limits, in their order; `None` where all lie within them.
    pub fn fault(&self) -> Option<Field>
        ensures { result ≡ fault self.now }
    {
        FIELDS.iter().find(|field| !self.is_valid(**field)).copied()
    }
}
