//! The relay.

ghost use Rattle.std.specs.Prelude.{◌≡◌, ◌&&◌};
ghost use Rattle.tables.specs.Addresses.{is_ipv4};
ghost use Rattle.rules.specs.Systems.{is_served};
ghost use Rattle.relay.specs.ByPrograms.{is_there};

use crate::error::RelayError;
use crate::explaining::{Evidence, LastSlot, unsent_at};
use crate::forwarding::{Decided, Forwarding, window_forwarding, window_to_client, window_to_peer};
use crate::running::{context_for, live_for, program_for, run_over, trace_over};
use crate::shipped::are_shipped;
use crate::step::{Step, discarded, relayed, stopped};
use arrayvec::ArrayString;
use attributes::Addr;
use control::{Config, Field, REPLY_BYTES, are_users, is_nonce, is_secret, new_indices};
use credentials::User;
use events::{Meta, Source};
use helpers::Lookup;
use loader::Loaded;
use machine::{Frame, Outcome, Sink, Stuck};
use programs::{PASSES, SENDS};
use rules::{Answer, Confinement, Discard, answer_client, discard_by_rules};
use std::alloc::Global;
use std::marker::Model;
use tables::{Count, Tables, Uncounted, is_ipv4, moment_of};

/// A relay: its configuration, the programs of both sides, what confines them, and its tables.
/// See docs/DECISIONS.md, "The greatest moment is the relay's".
#[derive(Drop)]
pub struct Relay {
    config: Config,
    client: Loaded,
    peer: Loaded,
    confinement: Option<Confinement>,
    /// Whether the programs are known to be the shipped ones, of which all that they send is permitted.
    are_shipped: bool,
    tables: Tables,
    greatest: u64,
    frame: Frame,
    reply: Vec<u8>,
}

impl Model for Relay {
    ghost use Rattle.std.specs.Coded.{coded_option};
    ghost use Rattle.relay.specs.Relays.{RelayContents, IsRelay, coded_contents};
    ghost use Rattle.control.specs.contracts.config.Config as configs;
    ghost use Rattle.loader.specs.contracts.loaded.Loaded as programs;
    ghost use Rattle.rules.specs.contracts.confinement.Confinement as confinements;
    ghost use Rattle.tables.specs.contracts.storage.Tables as rows;
    ghost use Rattle.machine.specs.contracts.frame.Frame as frames;

    ghost Value = { RelayContents };

    ghost coded = { coded_contents configs.the_row.coded programs.the_row.coded
        (coded_option confinements.the_row.coded) rows.the_row.coded frames.the_row.coded };

    ghost view = { λ r. record {
      config = r.config;
      programs = record { client = r.client; peer = r.peer; confinement = r.confinement };
      rows = r.tables;
      greatest = r.greatest;
      frame = r.frame;
      reply = r.reply.items;
    } };

    ghost invariant = { λ r. IsRelay r.config r.client r.peer r.are_shipped r.tables r.greatest r.reply.items };
}

/// Returns whether a source is served: a client over IPv4, or a peer whose slot is there.
pub(crate) fn is_served(from: &Source, tables: &Tables) -> bool
    ensures { result ≡ is_served from.now && is_there from.now tables.now }
{
    match *from {
        Source::Client(client) => is_ipv4(&client),
        Source::Peer { slot, .. } => slot < tables.slots(),
    }
}

impl Relay {
    ghost use Rattle.std.specs.Prelude.{◌≡◌, ◌≤◌, ◌↔◌, IsOk, IsTrue, is_some, IfOk, IfErr, OnOk, OnErr, length, option_copied, true, Some, None, unwrap_or, ◌+◌};
    ghost use Rattle.std.specs.Borrow.{sem};
    ghost use Rattle.control.specs.Configs.{fault, are_users, is_secret};
    ghost use Rattle.credentials.specs.Texts.{is_nonce};
    ghost use Rattle.control.specs.declared.config.Config.{Config};
    ghost use Rattle.control.specs.declared.config.Field.TheVariants.{Nonce, Users, Secret};
    ghost use Rattle.machine.specs.Contents.{room_of};
    ghost use Rattle.tables.specs.Addresses.{is_ipv4};
    ghost use Rattle.semantics.specs.declared.limits.TheConstants.{MAX_DATAGRAM};
    ghost use Rattle.events.specs.Actions.{sending_of};
    ghost use Rattle.relay.specs.Errors.{IsFault};
    ghost use Rattle.machine.specs.Contents.{datagram_of};
    ghost use Rattle.rules.specs.Answers.{sending_of_answer, LiesInRoom};
    ghost use Rattle.relay.specs.Choices.{chosen_of};
    ghost use Rattle.relay.specs.Forwarding.{chosen_of_forwarding, disposition_of_forwarding, disposition_of_passing, sending_of_forwarding, reply_of_passing, HasRoomFor};
    ghost use Rattle.relay.specs.EventRuns.{run_of_datagram, verdict_of_datagram};
    ghost use Rattle.relay.specs.Evidence.{evidence_of};
    ghost use Rattle.relay.specs.Lent.{chosen_by_step};
    ghost use Rattle.machine.specs.Tracing.{EndsWith, Reports};
    ghost use Rattle.relay.specs.Relays.{state_of, datagram_at};
    ghost use Rattle.relay.specs.Shipped.{AreShipped};
    ghost use Rattle.rules.specs.Dispositions.{disposition_of};
    ghost use Rattle.relay.specs.Unconfined.{asking};
    ghost use Rattle.relay.specs.Users.{after_users, after_secrets, after_revoked};
    ghost use Rattle.relay.specs.Harmless.{IsHarmless};
    ghost use Rattle.relay.specs.KeysCompared.{keys_of_step};
    ghost use Rattle.relay.specs.Steps.{disposition_of_step, outcome_of, ruled_outcome_of, after_step, lends_relay_room, HasStepped};
    ghost use Rattle.rules.specs.Systems.{first};
    ghost use Rattle.relay.specs.declared.error.RelayError.TheVariants.{BadConfig};

    /// Makes a relay of two loaded programs, with no allocation. They aren't confined.
    ///
    /// # Errors
    /// The first field of the configuration that lies outside its limits; or `Memory`.
    pub fn new(
        alloc: Global,
        config: Config,
        client: Loaded,
        peer: Loaded,
    ) -> Result<Relay, RelayError>
        ensures state { IfOk result (λ r. state_of r ≡ first config) }
        ensures config { IfOk result (λ r. r.config ≡ config) }
        ensures programs { IfOk result (λ r. r.programs ≡ record { client = client; peer = peer; confinement = None }) }
        ensures valid { OnOk result (fault config ≡ None) }
        ensures refused { IfErr result (IsFault (fault config)) }
    {
        if let Some(field) = config.fault() {
            return Err(RelayError::BadConfig(field));
        }
        let Ok(tables) = Tables::new(alloc, config.slots) else {
            return Err(RelayError::Memory);
        };
        let Ok(frame) = Frame::new(alloc) else {
            return Err(RelayError::Memory);
        };
        let Ok(reply) = vec![in alloc; 0u8; REPLY_BYTES] else {
            return Err(RelayError::Memory);
        };
        let Ok(are_shipped) = are_shipped(alloc, &client, &peer) else {
            return Err(RelayError::Memory);
        };
        Ok(Relay {
            config,
            client,
            peer,
            confinement: None,
            are_shipped,
            tables,
            greatest: 0,
            frame,
            reply,
        })
    }

    /// Returns the tables.
    pub fn tables(&self) -> &Tables
        ensures { result.now ≡ self.now.rows }
    {
        &self.tables
    }

    /// Returns the room for a datagram, 65,507 bytes.
    pub fn room(&self) -> &[u8]
        ensures value { result.now ≡ room_of self.now.frame }
        ensures len { length result.now ≡ MAX_DATAGRAM }
    {
        self.frame.room()
    }

    /// Returns the frame.
    pub(crate) fn frame(&self) -> &Frame
        ensures { result.now ≡ self.now.frame }
    {
        &self.frame
    }

    /// Returns the greatest moment that was seen.
    pub(crate) fn greatest(&self) -> u64
        ensures { result ≡ self.now.greatest }
    {
        self.greatest
    }

    /// Returns what confines the programs, if anything does.
    pub(crate) fn confinement(&self) -> &Option<Confinement>
        ensures { result.now ≡ self.now.programs.confinement }
    {
        &self.confinement
    }

    /// Returns the number of slots.
    pub(crate) fn slots(&self) -> usize
        ensures { result ≡ self.now.config.slots }
    {
        self.config.slots
    }

    /// Returns the room for a datagram, 65,507 bytes, to be written.
    pub fn area(&mut self) -> &mut [u8]
        ensures value { result.now ≡ room_of self.old.frame }
        ensures len { length result.now ≡ MAX_DATAGRAM }
        ensures* writes_back { sem 𝓛 (lends_relay_room self.entry result) }
    {
        self.frame.area()
    }

    /// Confines the programs to the peers that clients have permitted, or lifts that. Of what a confined program would
    /// send, nothing is sent that goes to a peer for whose IP address the client's allocation has no permission and to
    /// which no channel is bound, or that comes from a peer without a permission; an address that counts as another one
    /// may be permitted as that. Nothing else changes; with the shipped programs nothing does.
    /// See docs/DECISIONS.md, "Confined programs".
    pub fn confine(&mut self, confinement: Option<Confinement>)
        ensures { self.new ≡ record self.old { programs = record self.old.programs { confinement = confinement } } }
    {
        self.confinement = confinement;
    }

    /// Replaces the programs of the sides for which there is another one. Allocations, moments and the nonce stay as
    /// they are, and so does what confines programs.
    pub fn set_programs(&mut self, client: Option<Loaded>, peer: Option<Loaded>)
        ensures { self.new ≡ record self.old {
          programs = record self.old.programs {
            client = unwrap_or client self.old.programs.client;
            peer = unwrap_or peer self.old.programs.peer;
          };
        } }
    {
        if let Some(client) = client {
            self.are_shipped = false;
            self.client = client;
        }
        if let Some(peer) = peer {
            self.are_shipped = false;
            self.peer = peer;
        }
    }

    /// Sets the nonce.
    ///
    /// # Errors
    /// Where the text doesn't have 1 to 64 bytes of 0x21 to 0x7E. Then nothing is changed.
    pub fn set_nonce(&mut self, text: &str) -> Result<(), RelayError>
        ensures ok { OnOk result (state_of self.new ≡ record (state_of self.old) { nonce = text.now }) }
        ensures config { OnOk result (self.new.config ≡ record self.old.config { nonce = self.new.config.nonce }) }
        ensures rest { (self.new.programs ≡ self.old.programs) × (self.new.frame ≡ self.old.frame) }
        ensures valid { IsOk result ↔ IsTrue (is_nonce text.now) }
        ensures refused { IfErr result (λ e. e ≡ BadConfig Nonce) }
        ensures unchanged { OnErr result (self.new ≡ self.old) }
    {
        let Ok(nonce) = ArrayString::from(text) else {
            return Err(RelayError::BadConfig(Field::Nonce));
        };
        if !is_nonce(text) {
            return Err(RelayError::BadConfig(Field::Nonce));
        }
        self.config.nonce = nonce;
        Ok(())
    }

    /// Sets how many seconds the system's clock, since 1970, is ahead of the moments: 0 where it is never set.
    /// Time-limited credentials expire by that clock. Nothing else changes.
    /// See docs/DECISIONS.md, "Names expire by the system's clock".
    pub fn set_clock(&mut self, ahead: i64)
        ensures { self.new ≡ record self.old { config = record self.old.config { clock_ahead = ahead } } }
    {
        self.config.clock_ahead = ahead;
    }

    /// Replaces the users. The allocations of a user continue where one of the new users has the same name and the same
    /// password, at whatever index, and end otherwise, with their permissions and channels. Those of names with
    /// time-limited credentials, which no list has, continue. Nothing else changes.
    /// See docs/DECISIONS.md, "Users that are replaced".
    ///
    /// # Errors
    /// Where they can't be the users of a relay ([`are_users`]): too many or too few, two of one name, or a name or a
    /// password outside its limits. Then nothing is changed.
    pub fn set_users(&mut self, users: Vec<User>) -> Result<(), RelayError>
        ensures ok { OnOk result (self.new ≡ after_users self.old users) }
        ensures valid { IsOk result ↔ IsTrue (are_users (is_some self.old.config.secret) users.items) }
        ensures refused { IfErr result (λ e. e ≡ BadConfig Users) }
        ensures unchanged { OnErr result (self.new ≡ self.old) }
    {
        if !are_users(self.config.secret.is_some(), &users) {
            return Err(RelayError::BadConfig(Field::Users));
        }
        let indices = new_indices(&self.config.users, &users);
        self.tables.replace_users(&indices);
        self.config.users = users;
        Ok(())
    }

    /// Replaces the secret of time-limited credentials, and the former one under which they are accepted as well, if
    /// there is one. Nothing else changes: the allocations that were made under another secret continue.
    /// See docs/DECISIONS.md, "Secrets that are replaced".
    ///
    /// # Errors
    /// Where one of them hasn't 16 to 128 bytes. Then nothing is changed.
    pub fn set_secrets(
        &mut self,
        secret: Vec<u8>,
        former: Option<Vec<u8>>,
    ) -> Result<(), RelayError>
        ensures ok { OnOk result (self.new ≡ after_secrets self.old secret former) }
        ensures valid { IsOk result ↔ IsTrue (is_secret (Some secret) && is_secret former) }
        ensures refused { IfErr result (λ e. e ≡ BadConfig Secret) }
        ensures unchanged { OnErr result (self.new ≡ self.old) }
    {
        let secret = Some(secret);
        if !is_secret(&secret) || !is_secret(&former) {
            return Err(RelayError::BadConfig(Field::Secret));
        }
        self.config.secret = secret;
        self.config.former_secret = former;
        Ok(())
    }

    /// Replaces the users that are revoked, each by the digest of its name ([`owner_of`](credentials::owner_of)).
    /// Nobody has their names from now on, in the list or before a secret, and what was allocated under them ends, with
    /// its permissions and channels. Nothing else changes.
    /// See docs/DECISIONS.md, "Users that are revoked".
    pub fn set_revoked(&mut self, revoked: Vec<[u8; 20]>)
        ensures { self.new ≡ after_revoked self.old revoked }
    {
        self.tables.end_owned(&revoked);
        self.config.revoked = revoked;
    }

    /// Decides a datagram, the first `n` bytes of [`area`](Relay::area), and returns what is to be sent and what was
    /// done with it: the program of its side runs over it, and what the client's program passes on is answered by the
    /// rules. With the shipped programs this is what the rules say. Whatever the programs are, at most one datagram is
    /// sent, of a bounded length, the rows of others stay, and rows change only by requests whose credentials are
    /// accepted; and where programs are confined, nothing goes to a peer, or comes from one, that the client hasn't
    /// permitted.
    /// See docs/DESIGN.md, "A system is a function".
    #[inline(always)]
    pub fn step(&mut self, meta: Meta, n: usize) -> Step<'_>
        requires { n ≤ MAX_DATAGRAM }
        ensures answer { sending_of result.action ≡ (outcome_of self.old meta n).answer }
        ensures disposition { result.disposition ≡ disposition_of_step self.old meta n }
        ensures verdict { result.verdict ≡ verdict_of_datagram self.old meta (datagram_at self.old n) }
        ensures choice { chosen_by_step (option_copied result.passed) (sending_of result.action)
            ≡ chosen_of self.old meta (datagram_at self.old n) }
        ensures rules { AreShipped self.old.programs → outcome_of self.old meta n ≡ ruled_outcome_of self.old meta n }
        ensures harmless { IsHarmless self.old.programs self.old.config (state_of self.old) meta
            (datagram_at self.old n) (sending_of result.action) }
        ensures* after { sem 𝓛 (after_step self.entry meta n) }
    {
        self.law_steps_by_rules(&meta, n);
        self.law_steps_are_harmless(&meta, n);
        let decided = self.decide(&meta, n);
        let relay = &*self;
        relay.borrow_step(&meta.from, decided)
    }

    /// Returns the step that was decided for a datagram of a source, with the bytes that it sends, which are borrowed.
    #[inline(always)]
    fn borrow_step(&self, from: &Source, decided: Decided) -> Step<'_>
        requires { HasRoomFor decided.forwarding self.now.reply }
        ensures answer { sending_of result.action ≡ sending_of_forwarding self.now from.now decided.forwarding }
        ensures disposition { result.disposition ≡ disposition_of_forwarding self.now from.now decided.forwarding }
        ensures verdict { result.verdict ≡ decided.verdict }
        ensures choice { chosen_by_step (option_copied result.passed) (sending_of result.action)
            ≡ chosen_of_forwarding self.now from.now decided.forwarding }
    {
        let Decided {
            forwarding,
            verdict,
        } = decided;
        match forwarding {
            Forwarding::Nothing(reason) => discarded(reason, verdict),
            Forwarding::Stopped => stopped(self.frame.window(), verdict),
            Forwarding::WindowToPeer { slot, peer } => {
                relayed(window_to_peer(slot, peer, self.frame.window()), verdict)
            }
            Forwarding::WindowToClient { client } => {
                relayed(window_to_client(client, self.frame.window()), verdict)
            }
            Forwarding::Answer(answer) => match *from {
                Source::Client(client) => Step {
                    action: answer.action(client, self.frame.datagram(), &self.reply),
                    disposition: answer.disposition(),
                    verdict,
                    passed: Some(self.frame.datagram()),
                },
                Source::Peer { .. } => discarded(Discard::ByProgram, verdict),
            },
        }
    }

    /// Changes all that a datagram changes, and finds what is to be sent. The shipped programs send only what is
    /// permitted, so with them no permission is looked up for it.
    #[inline(always)]
    fn decide(&mut self, meta: &Meta, n: usize) -> Decided
        requires { n ≤ MAX_DATAGRAM }
        ensures stepped { HasStepped self.old self.new (outcome_of self.old meta.entry.now n) }
        ensures forwarding { sending_of_forwarding self.new meta.entry.now.from result.forwarding
            ≡ (outcome_of self.old meta.entry.now n).answer }
        ensures disposition { disposition_of_forwarding self.new meta.entry.now.from result.forwarding
            ≡ disposition_of_step self.old meta.entry.now n }
        ensures verdict { result.verdict ≡ verdict_of_datagram self.old meta.entry.now (datagram_at self.old n) }
        ensures choice { chosen_of_forwarding self.new meta.entry.now.from result.forwarding
            ≡ chosen_of self.old meta.entry.now (datagram_at self.old n) }
        ensures room { HasRoomFor result.forwarding self.new.reply }
    {
        self.law_shipped_are_unconfined(meta, n);
        self.advance(meta, n, !self.are_shipped, &mut Uncounted)
    }

    /// As [`decide`](Relay::decide), and `asks` says whether what confines the programs is asked. `keys` counts the
    /// keys that are compared to find the slot, to relay by the rules, and to ask what is permitted. The helpers that
    /// the program calls compare at most 7 each ([`Lookup::look_up`]), and a request's look-ups at most 9 each.
    #[inline(always)]
    fn advance<C: Count>(&mut self, meta: &Meta, n: usize, asks: bool, keys: &mut C) -> Decided
        requires { n ≤ MAX_DATAGRAM }
        ensures stepped { HasStepped self.old self.new (outcome_of (asking asks self.old) meta.entry.now n) }
        ensures forwarding { sending_of_forwarding self.new meta.entry.now.from result.forwarding
            ≡ (outcome_of (asking asks self.old) meta.entry.now n).answer }
        ensures disposition { disposition_of_forwarding self.new meta.entry.now.from result.forwarding
            ≡ disposition_of_step (asking asks self.old) meta.entry.now n }
        ensures verdict { result.verdict
            ≡ verdict_of_datagram (asking asks self.old) meta.entry.now (datagram_at self.old n) }
        ensures choice { chosen_of_forwarding self.new meta.entry.now.from result.forwarding
            ≡ chosen_of (asking asks self.old) meta.entry.now (datagram_at self.old n) }
        ensures room { HasRoomFor result.forwarding self.new.reply }
        ensures keys { C.count keys.new ≤ C.count keys.old + keys_of_step self.old.programs.confinement }
    {
        self.greatest = moment_of(self.greatest, meta.now);
        if !is_served(&meta.from, &self.tables) {
            return Decided {
                forwarding: Forwarding::Nothing(Discard::NotServed),
                verdict: None,
            };
        }
        self.tables.law_are_well_formed();
        let helpers = Lookup::new(live_for(&self.tables, self.greatest, &meta.from, keys));
        let program = program_for(&self.client, &self.peer, &meta.from);
        let context = context_for(&meta.tx, &meta.from);
        let outcome = run_over(program, &mut self.frame, &helpers, &context, n);
        let verdict = Some(outcome.verdict);
        match outcome.verdict {
            PASSES => match meta.from {
                Source::Client(client) => Decided {
                    forwarding: Forwarding::Answer(self.pass_on(client, keys)),
                    verdict,
                },
                Source::Peer { .. } => Decided {
                    forwarding: Forwarding::Nothing(Discard::ByProgram),
                    verdict,
                },
            },
            SENDS => {
                let (live, to) = (&helpers.live, outcome.destination);
                let forwarding = window_forwarding(
                    &meta.from,
                    live,
                    to,
                    &self.confinement,
                    asks,
                    keys,
                );
                Decided {
                    forwarding,
                    verdict,
                }
            }
            _ => Decided {
                forwarding: Forwarding::Nothing(Discard::ByProgram),
                verdict,
            },
        }
    }

    /// Traces the run that the step of a datagram makes, the first `n` bytes of the room, and returns its end. Its
    /// steps are reported to the sink, and it writes over the room.
    pub(crate) fn traced<S: Sink>(
        &mut self,
        meta: &Meta,
        n: usize,
        sink: &mut S,
    ) -> Result<Outcome, Stuck>
        requires { n ≤ MAX_DATAGRAM }
        ensures end { EndsWith result (run_of_datagram self.old meta.entry.now (datagram_at self.old n)) }
        ensures reported { Reports S.Logs (S.log sink.old)
            (run_of_datagram self.old meta.entry.now (datagram_at self.old n)).path (S.log sink.new) }
        ensures rest { self.new ≡ record self.old { frame = self.new.frame } }
    {
        let moment = moment_of(self.greatest, meta.now);
        self.tables.law_are_well_formed();
        let helpers = Lookup::new(live_for(&self.tables, moment, &meta.from, &mut Uncounted));
        let program = program_for(&self.client, &self.peer, &meta.from);
        let context = context_for(&meta.tx, &meta.from);
        trace_over(program, &mut self.frame, &helpers, &context, n, sink)
    }

    /// Finds what explains the step of a datagram, the first `n` bytes of the room, and runs its program over the room.
    pub(crate) fn evidence(&mut self, meta: &Meta, n: usize) -> Evidence
        requires { n ≤ MAX_DATAGRAM }
        ensures evidence { (config : Config) → result
            ≡ evidence_of config self.old meta.entry.now (datagram_at self.old n) }
        ensures rest { self.new ≡ record self.old { frame = self.new.frame } }
    {
        let moment = moment_of(self.greatest, meta.now);
        let ruled = discard_by_rules(&self.tables, moment, meta, &self.frame.room()[..n]);
        self.tables.law_are_well_formed();
        let helpers = Lookup::new(live_for(&self.tables, moment, &meta.from, &mut Uncounted));
        let program = program_for(&self.client, &self.peer, &meta.from);
        let context = context_for(&meta.tx, &meta.from);
        let mut last = LastSlot { slot: 0 };
        let end = trace_over(program, &mut self.frame, &helpers, &context, n, &mut last);
        let unsent = unsent_at(&meta.from, &helpers.live, &end);
        Evidence {
            ruled,
            slot: last.slot,
            unsent,
        }
    }

    /// Answers by the rules what a client's program passed on, as it is in the frame.
    // A request takes tens of kilobytes of stack, which a datagram that is relayed would else pay for at its entry.
    #[inline(never)]
    fn pass_on<C: Count>(&mut self, client: Addr, keys: &mut C) -> Answer
        requires { is_ipv4 client ≡ true }
        ensures answer { sending_of_answer client (datagram_of self.new.frame) self.new.reply result
            ≡ (reply_of_passing self.old client).answer }
        ensures disposition { disposition_of result ≡ disposition_of_passing self.old client }
        ensures room { LiesInRoom result self.new.reply }
        ensures rest { self.new
            ≡ record self.old { rows = (reply_of_passing self.old client).rows; reply = self.new.reply } }
        ensures keys { C.count keys.new ≤ C.count keys.old + 16 }
    {
        let datagram = self.frame.datagram();
        let (tables, out) = (&mut self.tables, &mut self.reply);
        answer_client(
            tables,
            &self.config,
            self.greatest,
            client,
            datagram,
            out,
            keys,
        )
    }
}
