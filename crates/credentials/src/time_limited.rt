//! Time-limited credentials (draft-uberti-behave-turn-rest-00, section 2.2), which a web application that shares a
//! secret with the server gives to its users.

ghost use Rattle.std.specs.Prelude.{◌≡◌, ◌∷◌, option_map, position, take};
ghost use Rattle.std.specs.List.{before_first};
ghost use Rattle.std.specs.Int.{w64, from_be_bytes};
ghost use Rattle.base64.specs.Engines.{standard};
ghost use Rattle.base64.specs.GeneralPurpose.{encode_of};
ghost use Rattle.credentials.specs.TimeLimited.{limits_of, is_colon, user_name, owner_of, expiry_of, is_held_by, limited_account};
ghost use Rattle.credentials.specs.Checks.{account_of};

use crate::checking::Authenticated;
use crate::hmac::hmac_sha1;
use crate::key::Key;
use base64::engine::general_purpose::STANDARD;
use basics::decimal::number;
use sha1::Sha1;

/// The greatest length of a name, in bytes.
const MAX_NAME: usize = 128;

/// The length of a password, in bytes: a digest of 20 bytes in base64.
const PASSWORD: usize = 28;

/// What time-limited credentials are checked with.
#[derive(Clone, Copy)]
pub struct TimeLimited<'a> {
    /// The secret that gives each name its password.
    pub secret: &'a [u8],
    /// The current time, in seconds since 1970.
    pub time: u64,
    /// The user of the allocation that the client has, if it has one.
    pub held: Option<usize>,
}

/// Returns the index of the first colon of a name.
fn colon_in(name: &[u8]) -> Option<usize>
    ensures { result ≡ position is_colon name.now }
{
    name.iter().position(|byte| *byte == b':')
}

/// Returns what precedes the first colon of a name, all of it where it has none.
fn before_colon(name: &[u8]) -> &[u8]
    ensures { result.now ≡ before_first is_colon name.now }
{
    match colon_in(name) {
        Some(index) => &name[..index],
        None => name,
    }
}

/// Returns the name of a name's user: what follows its first colon, all of it where it has none.
fn user_name(name: &[u8]) -> &[u8]
    ensures { result.now ≡ user_name name.now }
{
    match colon_in(name) {
        Some(index) => &name[index + 1..],
        None => name,
    }
}

/// Returns the owner of what is allocated under a name: the digest of the name of its user, which is what follows the
/// first colon of a name with an expiry, and all of a name without one.
/// See docs/DECISIONS.md, "How many slots a user takes".
pub fn owner_of(name: &[u8]) -> [u8; 20]
    ensures { result ≡ owner_of name.now }
{
    Sha1::digest(user_name(name))
}

/// Returns the moment at which a name expires, in seconds since 1970; `None` where it names none.
pub(crate) fn expiry_of(name: &[u8]) -> Option<u64>
    ensures { result ≡ expiry_of name.now }
{
    if name.len() <= MAX_NAME {
        number(before_colon(name))
    } else {
        None
    }
}

/// Returns the number of a name whose digest this is.
fn user_number(digest: &[u8; 20]) -> usize
    ensures { result ≡ from_be_bytes w64 (1 ∷ take 7 digest.now) }
{
    let [a, b, c, d, e, f, g, ..] = *digest;
    u64::from_be_bytes([1, a, b, c, d, e, f, g]) as usize
}

/// Returns the password of a name whose digest this is.
fn password_of(digest: &[u8; 20]) -> [u8; PASSWORD]
    ensures { result ≡ encode_of standard digest.now }
{
    let mut password = [0; PASSWORD];
    let _ = STANDARD.encode_slice(digest, &mut password);
    password
}

impl TimeLimited<'_> {
    /// Returns whether a user holds the allocation of the client.
    fn is_held_by(&self, user: usize) -> bool
        ensures { result ≡ is_held_by self.now.held user }
    {
        self.held == Some(user)
    }

    /// Returns the account of a name in a realm, if its credentials are time-limited and accepted: it hasn't expired,
    /// or the client's allocation is its own.
    /// See docs/DECISIONS.md, "Time-limited credentials".
    pub(crate) fn account(&self, realm: &str, name: &[u8]) -> Option<Authenticated>
        ensures { option_map account_of result ≡ limited_account realm.now (limits_of self.now) name.now }
    {
        let expiry = expiry_of(name)?;
        let digest = hmac_sha1(self.secret, &[name]);
        let user = user_number(&digest);
        if self.time < expiry || self.is_held_by(user) {
            let key = Key::of(name, realm, &password_of(&digest));
            Some(Authenticated { user, key })
        } else {
            None
        }
    }
}
