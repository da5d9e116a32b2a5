//! Options that set up a relay.

use crate::command_error::CommandError;
use crate::confinements::confinement_of;
use crate::error::{ProgramError, RefusedProgram, SetupError};
use crate::revoked::{RevokedError, revoked_in};
use crate::secrets::{Secrets, SecretsError, secrets_in};
use crate::setting_up::{Setup, relay_of};
use crate::users::{UsersError, add_users, add_users_of_lines};
use command_line::{OptionError, Options};
use credentials::User;
use machine::Side;
use programs::{CLIENT, PEER};
use relay::Relay;
use std::rt::Files;
use std::{fs, io};

/// Returns the fault of a failed read of a file.
/// See docs/DECISIONS.md, "File names as given".
pub fn unread<'a>(error: &io::Error, path: &'a str) -> CommandError<'a> {
    if error.kind() == io::ErrorKind::OutOfMemory {
        CommandError::Memory
    } else {
        CommandError::File(path)
    }
}

/// Returns the fault of the texts of `--user`: the first one without a colon, or that memory ran out.
fn users_fault<'a>(error: UsersError, texts: &[&'a str]) -> CommandError<'a> {
    let option = "--user <NAME:PASSWORD>";
    match (error, texts.iter().find(|text| !text.contains(':'))) {
        (UsersError::Line(..), Some(text)) => CommandError::Value(OptionError { option, text }),
        _ => CommandError::Memory,
    }
}

/// Returns the users that the options name, and the text of the file that has some of them.
/// See docs/DESIGN.md, "A user is required".
fn users_of<'a, R: Files + AllocGlobal>(
    rt: &R,
    options: &Options<'a>,
) -> Result<(Vec<User>, Option<String>), CommandError<'a>> {
    if options.users.is_none() && options.users_file.is_none() && options.secret_file.is_none() {
        return Err(CommandError::NoUsers);
    }
    let mut users = Vec::new(rt.alloc());
    let texts = options.users.unwrap_or(&[]);
    if let Err(error) = add_users(rt.alloc(), &mut users, texts) {
        return Err(users_fault(error, texts));
    }
    let Some(path) = options.users_file else {
        return Ok((users, None));
    };
    let text = read_text(rt, path)?;
    match add_users_of_lines(rt.alloc(), &mut users, &text) {
        Ok(()) => Ok((users, Some(text))),
        Err(UsersError::Line(number, fault)) => Err(CommandError::Users(number, fault)),
        Err(UsersError::Memory) => Err(CommandError::Memory),
    }
}

/// Reads the file of an option as a text.
fn read_text<'a, R: Files + AllocGlobal>(
    rt: &R,
    path: &'a str,
) -> Result<String, CommandError<'a>> {
    fs::read_to_string(rt, path).map_err(|error| unread(&error, path))
}

/// Returns the secrets of the file that the options name, if they name one, and its text.
fn secrets_of<'a, R: Files + AllocGlobal>(
    rt: &R,
    options: &Options<'a>,
) -> Result<Option<(Secrets, String)>, CommandError<'a>> {
    let Some(path) = options.secret_file else {
        return Ok(None);
    };
    let text = read_text(rt, path)?;
    match secrets_in(rt.alloc(), &text) {
        Ok(secrets) => Ok(Some((secrets, text))),
        Err(SecretsError::Lines) => Err(CommandError::Secret),
        Err(SecretsError::Memory) => Err(CommandError::Memory),
    }
}

/// Returns the users that are revoked, of the file that the options name, if they name one, and its text.
fn revoked_of<'a, R: Files + AllocGlobal>(
    rt: &R,
    options: &Options<'a>,
) -> Result<(Vec<[u8; 20]>, Option<String>), CommandError<'a>> {
    let Some(path) = options.revoked_file else {
        return Ok((Vec::new(rt.alloc()), None));
    };
    let text = read_text(rt, path)?;
    match revoked_in(rt.alloc(), &text) {
        Ok(owners) => Ok((owners, Some(text))),
        Err(RevokedError::Memory) => Err(CommandError::Memory),
        Err(error) => Err(CommandError::Revoked(error)),
    }
}

/// The bytes of the programs' files; `None` where no file is given, or it can't be read.
#[derive(Drop)]
pub struct ProgramBytes {
    pub client: Option<Vec<u8>>,
    pub peer: Option<Vec<u8>>,
}

impl ProgramBytes {
    /// Returns the bytes of the program of a side, of a relay that was set up: the shipped one where no file is given.
    pub fn of(&self, side: Side) -> &[u8] {
        let (read, shipped) = match side {
            Side::Client => (&self.client, CLIENT),
            Side::Peer => (&self.peer, PEER),
        };
        match read {
            Some(bytes) => bytes.as_slice(),
            None => shipped,
        }
    }
}

/// The relayed addresses of a relay.
#[derive(Clone, Copy)]
pub struct Relayed {
    /// That of IPv4.
    pub ip: [u8; 4],
    /// That of IPv6, if there is one.
    pub ip6: Option<[u8; 16]>,
}

/// The texts of files that are read again; `None` where no file is given.
#[derive(Drop)]
pub struct Texts {
    pub users: Option<String>,
    pub secrets: Option<String>,
    pub revoked: Option<String>,
}

/// Whose credentials are accepted, as the options and their files say.
#[derive(Drop)]
struct Accounts {
    users: Vec<User>,
    secret: Option<Vec<u8>>,
    former_secret: Option<Vec<u8>>,
    revoked: Vec<[u8; 20]>,
    texts: Texts,
}

/// Reads the files of users, of secrets and of revoked users, in this order.
fn credentials_of<'a, R: Files + AllocGlobal>(
    rt: &R,
    options: &Options<'a>,
) -> Result<Accounts, CommandError<'a>> {
    let (users, users_text) = users_of(rt, options)?;
    let (secret, former_secret, secrets_text) = match secrets_of(rt, options)? {
        Some((secrets, text)) => (Some(secrets.secret), secrets.former, Some(text)),
        None => (None, None, None),
    };
    let (revoked, revoked_text) = revoked_of(rt, options)?;
    Ok(Accounts {
        users,
        secret,
        former_secret,
        revoked,
        texts: Texts {
            users: users_text,
            secrets: secrets_text,
            revoked: revoked_text,
        },
    })
}

/// A relay that can begin, and what the files that it was set up from had.
#[derive(Drop)]
pub struct Prepared {
    pub relay: Relay,
    pub programs: ProgramBytes,
    pub texts: Texts,
}

/// Reads the file of a program. `None` is one that isn't given or can't be read.
fn read_program<R: Files + AllocGlobal>(
    rt: &R,
    path: Option<&str>,
) -> Result<Option<Vec<u8>>, CommandError<'static>> {
    let Some(path) = path else {
        return Ok(None);
    };
    match fs::read(rt, path) {
        Ok(bytes) => Ok(Some(bytes)),
        Err(error) if error.kind() == io::ErrorKind::OutOfMemory => Err(CommandError::Memory),
        Err(_) => Ok(None),
    }
}

/// Returns the bytes of a side's program: the shipped one where no file is given.
fn program<'a>(
    path: Option<&str>,
    read: &'a Option<Vec<u8>>,
    shipped: &'a [u8],
) -> Option<&'a [u8]> {
    match (path, read) {
        (None, _) => Some(shipped),
        (Some(_), Some(bytes)) => Some(bytes.as_slice()),
        (Some(_), None) => None,
    }
}

/// Returns the fault of a side's program, by the name of its file, or of the shipped one.
pub fn program_fault(error: ProgramError, path: &str) -> CommandError<'_> {
    match error {
        ProgramError::File => CommandError::File(path),
        ProgramError::Memory => CommandError::Memory,
        error => CommandError::Program(RefusedProgram { path, error }),
    }
}

/// Returns the fault of a relay that can't be set up.
fn setup_fault<'a>(error: SetupError, options: &Options<'a>) -> CommandError<'a> {
    match error {
        SetupError::Client(error) => program_fault(error, options.client.unwrap_or("CLIENT")),
        SetupError::Peer(error) => program_fault(error, options.peer.unwrap_or("PEER")),
        SetupError::Memory => CommandError::Memory,
        refusal => CommandError::Setup(refusal),
    }
}

/// Sets up the relay that the options describe, with a nonce and relayed addresses, and confines its programs where
/// `confined` says so. The programs' files are both read first.
/// See docs/DECISIONS.md, "The first fault of a replay".
pub fn set_up<'a, R: Files + AllocGlobal>(
    rt: &R,
    options: &Options<'a>,
    nonce: &'a str,
    relayed: Relayed,
    confined: bool,
) -> Result<Prepared, CommandError<'a>> {
    let confinement = confinement_of(rt.alloc(), options, confined)?;
    let Ok(realm) = String::from_str(rt.alloc(), options.realm) else {
        return Err(CommandError::Memory);
    };
    let credentials = credentials_of(rt, options)?;
    let programs = ProgramBytes {
        client: read_program(rt, options.client)?,
        peer: read_program(rt, options.peer)?,
    };
    let setup = Setup {
        ip: relayed.ip,
        ip6: relayed.ip6,
        first_port: options.first_port,
        slots: options.slots,
        user_slots: options.user_slots,
        realm,
        nonce,
        users: credentials.users,
        secret: credentials.secret,
        former_secret: credentials.former_secret,
        revoked: credentials.revoked,
        client: program(options.client, &programs.client, CLIENT),
        peer: program(options.peer, &programs.peer, PEER),
    };
    match relay_of(rt.alloc(), setup, confinement) {
        Ok(relay) => Ok(Prepared {
            relay,
            programs,
            texts: credentials.texts,
        }),
        Err(error) => Err(setup_fault(error, options)),
    }
}
