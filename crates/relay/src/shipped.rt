//! The shipped programs are the rules.

ghost use Rattle.std.specs.Prelude.{◌≡◌, ◌<◌, ℕ, List, None, All, ◌≤◌, true, IfOk};
ghost use Rattle.addresses.specs.Addresses.{IsAddress};
ghost use Rattle.control.specs.Configs.{fault};
ghost use Rattle.control.specs.declared.config.Config.{Config};
ghost use Rattle.semantics.specs.Machine.{AreBytes};
ghost use Rattle.semantics.specs.declared.limits.TheConstants.{MAX_DATAGRAM};
ghost use Rattle.events.specs.Events.{Event};
ghost use Rattle.events.specs.Lines.{IsEvent};
ghost use Rattle.events.specs.declared.meta.Source.{Source};
ghost use Rattle.programs.specs.Relaying.{IsRelayStart};
ghost use Rattle.relay.specs.ByPrograms.{Programs, by_programs, is_there};
ghost use Rattle.relay.specs.Reasons.{reason_of_datagram};
ghost use Rattle.relay.specs.declared.reason.StepReason.TheVariants.{Done};
ghost use Rattle.tables.specs.Rows.{Rows};
ghost use Rattle.rules.specs.ByRules.{by_rules};
ghost use Rattle.rules.specs.Discards.{ruled_disposition};
ghost use Rattle.loader.specs.Loads.{IsLoaded};
ghost use Rattle.relay.specs.Shipped.{AreShipped, AreShippedPair, AnswerAlike};
ghost use Rattle.rules.specs.Systems.{first, address_of_source, is_served};

use crate::relay::Relay;
use attributes::law_is_address;
use events::{Meta, Source};
use insn::encode;
use loader::Loaded;
use programs::{CLIENT, PEER, law_client_serves, law_peer_serves};
use std::alloc::{AllocError, Global};

/// Returns `true` only where a loaded program is the one that these bytes encode.
///
/// # Errors
/// Where memory runs out.
fn is_program(alloc: Global, program: &Loaded, bytes: &[u8]) -> Result<bool, AllocError>
    ensures { IfOk result (λ same. same ≡ true → IsLoaded program.now bytes.now) }
{
    let code = program.program().code();
    let encoded = encode(alloc, code)?;
    Ok(code.len() > 0 && encoded.as_slice() == bytes)
}

/// Returns `true` only where two loaded programs are the shipped ones.
///
/// # Errors
/// Where memory runs out.
pub(crate) fn are_shipped(alloc: Global, client: &Loaded, peer: &Loaded) -> Result<bool, AllocError>
    ensures { IfOk result (λ are. are ≡ true → AreShippedPair client.now peer.now) }
{
    Ok(is_program(alloc, client, CLIENT)? && is_program(alloc, peer, PEER)?)
}

/// States that with [`CLIENT`](programs::CLIENT) and [`PEER`](programs::PEER) a new relay sends, over every list of
/// events, exactly what the rules say (RFC 8656), and comes to the same state.
pub fn law_shipped_programs_are_the_rules()
    ensures { (programs : Programs) → AreShipped programs
        → (config : Config) → fault config ≡ None
        → (events : List Event) → All (IsEvent config.slots) events
        → AnswerAlike (by_programs programs) by_rules config (first config) events }
{
    law_client_serves();
    law_peer_serves();
}

/// States that with [`CLIENT`](programs::CLIENT) and [`PEER`](programs::PEER) the reason of each datagram that is
/// served is what the rules do with it: a replay never says that a program discarded it.
/// See docs/DECISIONS.md, "Why a replay answers so".
pub fn law_shipped_reasons_are_the_rules()
    ensures { (programs : Programs) → AreShipped programs
        → (config : Config) (now : ℕ) (tx : List ℕ) (from : Source) (rows : Rows) (bytes : List ℕ)
        → IsRelayStart (address_of_source from) tx rows bytes
        → is_served from ≡ true → is_there from rows ≡ true
        → reason_of_datagram programs config now tx from rows bytes
        ≡ Done (ruled_disposition config now tx from rows bytes) }
{
    law_client_serves();
    law_peer_serves();
}

/// States that each byte is below 256.
fn law_all_fit(bytes: &[u8])
    ensures { All (λ b. b < 256) bytes.now }
{}

/// States that an array of `N` bytes has `N` items, each below 256.
fn law_are_bytes<const N: usize>(bytes: &[u8; N])
    ensures { AreBytes N bytes.now }
{
    law_all_fit(bytes);
}

/// States that the address of a source is one.
fn law_is_source(from: Source)
    ensures { IsAddress (address_of_source from) }
{
    match from {
        Source::Client(client) => law_is_address(&client),
        Source::Peer { addr, .. } => law_is_address(&addr),
    }
}

impl Relay {
    ghost use Rattle.relay.specs.Relays.{state_of};
    ghost use Rattle.relay.specs.Replays.{system_of};
    ghost use Rattle.relay.specs.Steps.{outcome_of, ruled_outcome_of};
    ghost use Rattle.relay.specs.Unconfined.{IsSameUnconfined};

    /// States that with the shipped programs a datagram gives what the rules say.
    pub(crate) fn law_steps_by_rules(&self, meta: &Meta, n: usize)
        requires { n ≤ MAX_DATAGRAM }
        ensures { AreShipped self.now.programs → outcome_of self.now meta.entry.now n
            ≡ ruled_outcome_of self.now meta.entry.now n }
    {
        law_client_serves();
        law_peer_serves();
        law_is_source(meta.from);
        law_are_bytes(&meta.tx);
        law_all_fit(self.frame().room());
        self.tables().law_are_well_formed();
    }

    /// States that the shipped programs do the same where they are not confined.
    pub(crate) fn law_shipped_are_unconfined(&self, meta: &Meta, n: usize)
        requires { n ≤ MAX_DATAGRAM }
        ensures { AreShipped self.now.programs → IsSameUnconfined self.now meta.entry.now n }
    {
        law_client_serves();
        law_peer_serves();
        law_is_source(meta.from);
        law_are_bytes(&meta.tx);
        law_all_fit(self.frame().room());
        self.tables().law_are_well_formed();
    }

    /// States that with the shipped programs events are answered as the rules say.
    pub(crate) fn law_plays_by_rules(&self)
        ensures { AreShipped self.now.programs → (events : List Event) → All (IsEvent self.now.config.slots) events
            → AnswerAlike (system_of self.now) by_rules self.now.config (state_of self.now) events }
    {
        law_client_serves();
        law_peer_serves();
        self.tables().law_are_well_formed();
    }
}
