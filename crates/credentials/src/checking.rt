//! The ordered check of a request's credentials (RFC 8489, section 9.2.4).

ghost use Rattle.std.specs.Prelude.{◌≡◌, ℕ, List, Result, Some, Ok, Err, IfSome, IfNone, IfOk, IfErr, option_map, string_bytes, Decides};
ghost use Rattle.std.specs.Result.{result_map_both};
ghost use Rattle.stun.specs.Messages.{Parts};
ghost use Rattle.credentials.specs.Keys.{key_of, key_bytes};
ghost use Rattle.credentials.specs.Integrity.{integrity_under};
ghost use Rattle.credentials.specs.TimeLimited.{Account};
ghost use Rattle.credentials.specs.Checks.{users_of, Directory as Accounts, directory_of, listed_only, account_of, user_in, unlisted_account, lacking, IsUser, IsNoUser, HasAccount, HasNoAccount, HasCredentials, IsChecked};
ghost use Rattle.credentials.specs.Results.{check_result};
ghost use Rattle.credentials.specs.declared.checking.AuthError.{AuthError};

use crate::key::Key;
use crate::scanning::credentials_of;
use crate::signing::integrity_over;
use crate::time_limited::{TimeLimited, expiry_of};
use stun::Message;
use thiserror::Error;

/// Why credentials are refused: the first that applies, in the order of the codes.
#[derive(Clone, Copy, Debug, PartialEq, Eq, Error)]
pub enum AuthError {
    /// There is no MESSAGE-INTEGRITY.
    #[error("C1")]
    Missing,
    /// USERNAME, REALM or NONCE is missing.
    #[error("C2")]
    Incomplete,
    /// The nonce is not the current one.
    #[error("C3")]
    StaleNonce,
    /// No user has the name.
    #[error("C4")]
    UnknownUser,
    /// The MESSAGE-INTEGRITY is wrong, or hasn't 20 bytes.
    #[error("C5")]
    WrongIntegrity,
    /// The name is of time-limited credentials, and has expired.
    #[error("C6")]
    Expired,
}

/// A user: a name and a password.
#[derive(Drop)]
pub struct User {
    pub name: String,
    pub password: String,
}

/// Whose credentials are accepted: those of a list of users, and time-limited ones where there is a secret.
#[derive(Clone, Copy)]
pub struct Directory<'a> {
    /// The users of the list.
    pub users: &'a [User],
    /// What names that no user of the list has are checked with; `None` where they are unknown.
    pub time_limited: Option<TimeLimited<'a>>,
}

/// The account whose credentials were accepted.
#[derive(Clone, Copy, PartialEq, Eq)]
pub struct Authenticated {
    /// The number of the user: the index in the list, or one of at least 2^56 for a name with time-limited credentials.
    pub user: usize,
    /// The key, under which the reply is signed.
    pub key: Key,
}

/// Returns the right MESSAGE-INTEGRITY of a message under a key, if the message has one.
fn integrity_under(key: &Key, message: &Message<'_>) -> Option<[u8; 20]>
    ensures { result ≡ integrity_under (key_bytes key.now) message.now }
{
    let front = message.before_integrity()?;
    Some(integrity_over(front, key))
}

/// Returns whether two HMACs are the same. Each byte is compared, so that the time doesn't say where they differ.
fn are_same_bytes(made: &[u8; 20], integrity: &[u8; 20]) -> bool
    ensures { Decides result (made.now ≡ integrity.now) }
{
    let mut same = true;
    for i in 0..20 {
        same &= made[i] == integrity[i];
    }
    same
}

/// Returns whether a MESSAGE-INTEGRITY is the right one of a message under a key.
fn is_integrity(message: &Message<'_>, key: &Key, integrity: &[u8]) -> bool
    ensures { Decides result (integrity_under (key_bytes key.now) message.now ≡ Some integrity.now) }
{
    match integrity_under(key, message) {
        Some(made) => match integrity.try_into() {
            Ok(integrity) => are_same_bytes(&made, integrity),
            Err(_) => false,
        },
        None => false,
    }
}

/// Returns whether a user has a name.
fn has_name(user: &User, name: &[u8]) -> bool
    ensures { Decides result (string_bytes user.now.name ≡ name.now) }
{
    user.name.as_bytes() == name
}

/// Returns whether a value of NONCE is this nonce.
fn is_current_nonce(given: &[u8], nonce: &str) -> bool
    ensures { Decides result (given.now ≡ nonce.now) }
{
    given == nonce.as_bytes()
}

/// Returns the key of a user in a realm.
/// See docs/DECISIONS.md, "The realm is not compared".
fn key_of_user(user: &User, realm: &str) -> Key
    ensures { key_bytes result ≡ key_of (string_bytes user.now.name) realm.now (string_bytes user.now.password) }
{
    Key::of(user.name.as_bytes(), realm, user.password.as_bytes())
}

/// Returns the index of the first user of a name.
/// See docs/DECISIONS.md, "The first user of a name".
fn user_of(users: &[User], name: &[u8]) -> Option<usize>
    ensures some { IfSome result (IsUser (users_of users.now) name.now) }
    ensures none { IfNone result (IsNoUser (users_of users.now) name.now) }
{
    for index in 0..users.len() {
        if has_name(&users[index], name) {
            return Some(index);
        }
    }
    None
}

/// Returns the MESSAGE-INTEGRITY and the USERNAME of a message that also has a REALM and the current NONCE.
///
/// # Errors
/// Returns C1 to C3.
fn presented<'a>(message: &Message<'a>, nonce: &str) -> Result<(&'a [u8], &'a [u8]), AuthError>
    ensures found { IfOk result (λ r. HasCredentials message.now nonce.now r.0.now r.1.now) }
    ensures refused { IfErr result (λ e. (realm : List ℕ) (accounts : Accounts)
        → IsChecked message.now realm accounts nonce.now (Err e)) }
{
    let found = credentials_of(message);
    let integrity = found.integrity.ok_or(AuthError::Missing)?;
    let name = found.name.ok_or(AuthError::Incomplete)?;
    found.realm.ok_or(AuthError::Incomplete)?;
    let given = found.nonce.ok_or(AuthError::Incomplete)?;
    if !is_current_nonce(given, nonce) {
        return Err(AuthError::StaleNonce);
    }
    Ok((integrity, name))
}

impl Directory<'_> {
    /// Returns the account of a name that no user of the list has.
    fn unlisted(&self, realm: &str, name: &[u8]) -> Option<Authenticated>
        ensures { option_map account_of result ≡ unlisted_account realm.now (directory_of self.now) name.now }
    {
        let time_limited = self.time_limited?;
        time_limited.account(realm, name)
    }

    /// Returns why a name has no account: it has expired, or nobody has it.
    fn lacking(&self, name: &[u8]) -> AuthError
        ensures { result ≡ lacking (directory_of self.now) name.now }
    {
        if self.time_limited.is_some() && expiry_of(name).is_some() {
            AuthError::Expired
        } else {
            AuthError::UnknownUser
        }
    }

    /// Returns the account of a name in a realm.
    /// See docs/DESIGN.md, "The key of a check".
    fn account(&self, realm: &str, name: &[u8]) -> Option<Authenticated>
        ensures some { IfSome result (λ a. HasAccount realm.now (directory_of self.now) name.now (account_of a)) }
        ensures none { IfNone result (HasNoAccount realm.now (directory_of self.now) name.now) }
    {
        match user_of(self.users, name) {
            Some(user) => Some(Authenticated {
                user,
                key: key_of_user(&self.users[user], realm),
            }),
            None => self.unlisted(realm, name),
        }
    }
}

/// Checks the credentials of a request, in one scan of its attributes: it has a MESSAGE-INTEGRITY, a name, a realm
/// and the nonce, the name has an account in a directory, and the MESSAGE-INTEGRITY is the right one under the key of
/// that account, which is returned. The realm that the request names is not compared.
///
/// # Errors
/// Returns the first test that fails, in the order of [`AuthError`].
pub fn authenticate(
    message: &Message<'_>,
    realm: &str,
    directory: &Directory<'_>,
    nonce: &str,
) -> Result<Authenticated, AuthError>
    ensures is_checked { IsChecked message.now realm.now (directory_of directory.now) nonce.now
        (result_map_both account_of (λ e. e) result) }
    ensures checked { result_map_both account_of (λ e. e) result
        ≡ check_result message.now realm.now (directory_of directory.now) nonce.now }
{
    let (integrity, name) = presented(message, nonce)?;
    let Some(account) = directory.account(realm, name) else {
        return Err(directory.lacking(name));
    };
    if is_integrity(message, &account.key, integrity) {
        Ok(account)
    } else {
        Err(AuthError::WrongIntegrity)
    }
}

/// Checks the credentials of a request as [`authenticate`] does, where no credentials are time-limited, and returns the
/// index of the user alone.
///
/// # Errors
/// Returns those of [`authenticate`].
pub fn check(
    message: &Message<'_>,
    realm: &str,
    users: &[User],
    nonce: &str,
) -> Result<usize, AuthError>
    ensures { result ≡ user_in (check_result message.now realm.now (listed_only users.now) nonce.now) }
{
    let directory = Directory {
        users,
        time_limited: None,
    };
    let account = authenticate(message, realm, &directory, nonce)?;
    Ok(account.user)
}

/// States that a result of the ordered check is the one that the function of a message gives.
pub fn law_results_are_checked()
    ensures { (p : Parts) (realm : List ℕ) (accounts : Accounts) (nonce : List ℕ) (r : Result Account AuthError)
        → IsChecked p realm accounts nonce r → r ≡ check_result p realm accounts nonce }
{}

/// States that the ordered check has at most one result for a message.
pub fn law_results_are_unique()
    ensures { (p : Parts) (realm : List ℕ) (accounts : Accounts) (nonce : List ℕ) (a b : Result Account AuthError)
        → IsChecked p realm accounts nonce a → IsChecked p realm accounts nonce b → a ≡ b }
{}
