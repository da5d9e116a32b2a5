//! Setting up a relay, with the first fault of what it is set up from.

ghost use Rattle.std.specs.Prelude.{◌≡◌, ◌<◌, ◌≤◌, length, IfOk, IfErr};
ghost use Rattle.control.specs.Configs.{fault};
ghost use Rattle.relay.specs.Relays.{state_of};
ghost use Rattle.rules.specs.Systems.{first};
ghost use Rattle.setup.specs.Setups.{IsConfigOf, IsSetupFault, IsProgram, IsProgramFault, MOST_NONCE};
ghost use Rattle.setup.specs.declared.error.SetupError.TheVariants as errors;

use crate::error::{ProgramError, SetupError};
use arrayvec::ArrayString;
use control::Config;
use credentials::User;
use insn::DecodeError;
use loader::{LoadError, Loaded, load};
use relay::{Relay, RelayError};
use rules::Confinement;
use std::alloc::Global;
use verifier::Refusal;

/// What a relay is set up from. [`relay_of`] refuses what lies outside the limits.
#[derive(Drop)]
pub struct Setup<'a> {
    /// The relayed IPv4 address.
    pub ip: [u8; 4],
    /// The relayed IPv6 address; `None` where there are no IPv6 allocations.
    pub ip6: Option<[u8; 16]>,
    /// The relayed port of slot 0, at least 1; slot i has `first_port + i`.
    pub first_port: u16,
    /// The number of slots, 1 to 256; the last port is at most 65,535.
    pub slots: usize,
    /// How many allocations a user may have at once, if that is limited.
    pub user_slots: Option<usize>,
    /// The realm: 1 to 128 bytes of 0x20 to 0x7E.
    pub realm: String,
    /// The nonce: 1 to 64 bytes of 0x21 to 0x7E.
    pub nonce: &'a str,
    /// The users: at most 64, of distinct names, and at least one where there is no secret.
    pub users: Vec<User>,
    /// The secret of time-limited credentials: 16 to 128 bytes; `None` where none are accepted.
    pub secret: Option<Vec<u8>>,
    /// The former secret, under which they are accepted as well: 16 to 128 bytes, if there is one.
    pub former_secret: Option<Vec<u8>>,
    /// The users that are revoked, each by the digest of its name.
    pub revoked: Vec<[u8; 20]>,
    /// The bytes of the program for clients' datagrams; `None` where its file can't be read.
    pub client: Option<&'a [u8]>,
    /// The bytes of the program for peers' datagrams; `None` where its file can't be read.
    pub peer: Option<&'a [u8]>,
}

/// Copies a nonce of at most 64 bytes.
///
/// # Errors
/// Where it has more.
fn nonce(text: &str) -> Result<ArrayString<64>, SetupError>
    ensures ok { IfOk result (λ nonce. (nonce.bytes ≡ text.now) × (length text.now ≤ MOST_NONCE)) }
    ensures refused { IfErr result (λ e. (e ≡ errors.Nonce) × (MOST_NONCE < length text.now)) }
{
    match ArrayString::from(text) {
        Ok(nonce) => Ok(nonce),
        Err(_) => Err(SetupError::Nonce),
    }
}

/// Loads the program of a side, of which `None` is one whose file can't be read.
///
/// # Errors
/// Where its file couldn't be read, where it is refused, and where memory runs out.
pub fn program(alloc: Global, bytes: Option<&[u8]>) -> Result<Loaded, ProgramError>
    ensures ok { IfOk result (IsProgram bytes.entry) }
    ensures refused { IfErr result (IsProgramFault bytes.entry) }
{
    let Some(bytes) = bytes else {
        return Err(ProgramError::File);
    };
    match load(alloc, bytes) {
        Ok(loaded) => Ok(loaded),
        Err(LoadError::Decode(DecodeError::Memory)) => Err(ProgramError::Memory),
        Err(LoadError::Verify(Refusal::Memory { .. })) => Err(ProgramError::Memory),
        Err(refusal) => Err(ProgramError::Refused(refusal)),
    }
}

/// Sets up a relay with no allocation, whose programs are not confined.
///
/// # Errors
/// As [`relay_of`].
fn unconfined_relay_of(alloc: Global, setup: Setup<'_>) -> Result<Relay, SetupError>
    ensures state { IfOk result (λ r. state_of r ≡ first r.config) }
    ensures config { IfOk result (λ r. IsConfigOf setup.entry r.config) }
    ensures client { IfOk result (λ r. IsProgram setup.entry.client r.programs.client) }
    ensures peer { IfOk result (λ r. IsProgram setup.entry.peer r.programs.peer) }
    ensures refused { IfErr result (IsSetupFault setup.entry) }
{
    let nonce = nonce(setup.nonce)?;
    let client = program(alloc, setup.client).map_err(SetupError::Client)?;
    let peer = program(alloc, setup.peer).map_err(SetupError::Peer)?;
    let config = Config {
        ip: setup.ip,
        ip6: setup.ip6,
        first_port: setup.first_port,
        slots: setup.slots,
        user_slots: setup.user_slots,
        realm: setup.realm,
        nonce,
        users: setup.users,
        secret: setup.secret,
        former_secret: setup.former_secret,
        revoked: setup.revoked,
        clock_ahead: 0,
    };
    match Relay::new(alloc, config, client, peer) {
        Ok(relay) => Ok(relay),
        Err(RelayError::BadConfig(field)) => Err(SetupError::Field(field)),
        Err(RelayError::Memory) => Err(SetupError::Memory),
    }
}

/// Sets up a relay with no allocation. `confinement` is what confines its programs to the peers that clients have
/// permitted, if anything does.
///
/// # Errors
/// The first fault, in this order: a nonce above 64 bytes; the program for clients' datagrams; the program for peers'
/// datagrams; the first field of the configuration that lies outside its limits. `Memory` where there is none, and
/// memory runs out.
pub fn relay_of(
    alloc: Global,
    setup: Setup<'_>,
    confinement: Option<Confinement>,
) -> Result<Relay, SetupError>
    ensures state { IfOk result (λ r. state_of r ≡ first r.config) }
    ensures config { IfOk result (λ r. IsConfigOf setup.entry r.config) }
    ensures client { IfOk result (λ r. IsProgram setup.entry.client r.programs.client) }
    ensures peer { IfOk result (λ r. IsProgram setup.entry.peer r.programs.peer) }
    ensures confinement { IfOk result (λ r. r.programs.confinement ≡ confinement) }
    ensures refused { IfErr result (IsSetupFault setup.entry) }
{
    let mut relay = unconfined_relay_of(alloc, setup)?;
    relay.confine(confinement);
    Ok(relay)
}
