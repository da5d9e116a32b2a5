//! The run of a side's program over the datagram of a step.

ghost use Rattle.std.specs.Prelude.{◌≡◌, ◌≤◌, ◌+◌, Option, length, take};
ghost use Rattle.semantics.specs.declared.limits.TheConstants.{MAX_DATAGRAM};
ghost use Rattle.rules.specs.declared.confinement.Confinement.{Confinement};
ghost use Rattle.machine.specs.Contents.{room_of};
ghost use Rattle.machine.specs.Contexts.{environment_around, context_of};
ghost use Rattle.machine.specs.Tracing.{run_over, EndsWith, Reports};
ghost use Rattle.tables.specs.Rows.{rows_at};
ghost use Rattle.programs.specs.Runs.{context_for};
ghost use Rattle.relay.specs.ByPrograms.{program_for};
ghost use Rattle.relay.specs.Forwarding.{HasRun, answers_of_look_up, held_for};

use events::{Meta, Source};
use helpers::Lookup;
use loader::Loaded;
use machine::{Context, Frame, Outcome, Side, Sink, Stuck, run, trace};
use tables::{Count, LiveSlot, Tables};
use verifier::Verified;

/// Returns the context of a datagram.
pub(crate) fn context_for(tx: &[u8; 12], from: &Source) -> Context
    ensures { result ≡ context_for tx.now from.now }
{
    match *from {
        Source::Client(source) => Context {
            side: Side::Client,
            source,
            tx: *tx,
        },
        Source::Peer { addr, .. } => Context {
            side: Side::Peer,
            source: addr,
            tx: *tx,
        },
    }
}

/// Returns what the slot holds in which helpers look up, if its allocation is live at a moment: the slot of a client's
/// allocation, or the one that a peer's datagram came to. `keys` counts the keys that are compared: at most 9, those of
/// clients.
#[inline(always)]
pub(crate) fn live_for<'a, C: Count>(
    tables: &'a Tables,
    moment: u64,
    from: &Source,
    keys: &mut C,
) -> Option<LiveSlot<'a>>
    ensures live { result ≡ held_for from.now (rows_at moment tables.now) }
    ensures keys { C.count keys.new ≤ C.count keys.old + 9 }
{
    match *from {
        Source::Client(client) => tables.live_of(client, moment, keys),
        Source::Peer { slot, .. } => tables.live_at(slot, moment),
    }
}

/// Returns the program of a side.
pub(crate) fn program_for<'a>(client: &'a Loaded, peer: &'a Loaded, from: &Source) -> &'a Verified
    ensures { (confinement : Option Confinement) → result.now
        ≡ program_for (record { client = client.now; peer = peer.now; confinement = confinement }) from.now }
{
    match *from {
        Source::Client(_) => client.program(),
        Source::Peer { .. } => peer.program(),
    }
}

/// Runs a program over the first `n` bytes of a frame's room.
pub(crate) fn run_over(
    program: &Verified,
    frame: &mut Frame,
    helpers: &Lookup<'_>,
    context: &Context,
    n: usize,
) -> Outcome
    requires { n ≤ MAX_DATAGRAM }
    ensures { HasRun (length (take n (room_of frame.old))) result frame.new
        (run_over (environment_around (context_of context.now) (answers_of_look_up helpers.now)) program.now
        (take n (room_of frame.old))) }
{
    frame.law_room();
    frame.start(context, n);
    run(program, frame, helpers)
}

/// Traces a program's run over the first `n` bytes of a frame's room, and returns its end. Its steps are reported to
/// the sink.
pub(crate) fn trace_over<S: Sink>(
    program: &Verified,
    frame: &mut Frame,
    helpers: &Lookup<'_>,
    context: &Context,
    n: usize,
    sink: &mut S,
) -> Result<Outcome, Stuck>
    requires { n ≤ MAX_DATAGRAM }
    ensures end { let environment = environment_around (context_of context.now) (answers_of_look_up helpers.now) in
        EndsWith result (run_over environment program.now (take n (room_of frame.old))) }
    ensures reported { let environment = environment_around (context_of context.now) (answers_of_look_up helpers.now) in
        Reports S.Logs (S.log sink.old) (run_over environment program.now (take n (room_of frame.old))).path
        (S.log sink.new) }
{
    frame.law_room();
    frame.start(context, n);
    trace(program.code(), frame, helpers, sink)
}
