//! The tagged runs of programs over a frame.

ghost use Rattle.std.specs.Prelude.{◌≡◌, ◌≤◌, ◌+◌, true, take, drop, option_map, IfOk, IfErr};
ghost use Rattle.std.specs.Prelude.{length as count};
ghost use Rattle.insn.specs.Encoding.{slot_count};
ghost use Rattle.insn.specs.declared.decoding.TheConstants.{MAX_SLOTS};
ghost use Rattle.semantics.specs.Machine.{IsContext, no_plan};
ghost use Rattle.semantics.specs.Runs as runs;
ghost use Rattle.semantics.specs.Runs.{IsDatagram};
ghost use Rattle.semantics.specs.Views.{memory_with};
ghost use Rattle.semantics.specs.declared.limits.TheConstants.{HEADROOM, TAILROOM};
ghost use Rattle.flat.specs.declared.layout.TheConstants.{HEADROOM_INDEX};
ghost use Rattle.machine.specs.Contents.{datagram_of};
ghost use Rattle.semantics.specs.Records.{address_of};
ghost use Rattle.machine.specs.Contexts.{context_of};
ghost use Rattle.machine.specs.Execution.{HasWindowInside, IsWholeRun, RunsOver, traced_environment};
ghost use Rattle.machine.specs.Tracing.{run_of, IsOutcome, left_by, IsFrameRun, Reports, Shows};

use crate::context::traced_record;
use crate::environment::TraceInputs;
use crate::execution::{Exit, execute};
use crate::frame::{Frame, clear_stack};
use crate::outcome::{Outcome, Stuck};
use crate::sink::Sink;
use addresses::Addr;
use flat::HEADROOM_INDEX;
use insn::Insn;
use semantics::{HEADROOM, Helpers, Plan, StackMemory, TAILROOM, WIDE_RECORD_BYTES, address_of};

/// The plan at the start of a run.
const NO_PLAN: Plan = Plan {
    window: None,
    destination: None,
};

/// Runs a program over a stack, and over headroom, datagram and tailroom of an area. What follows them doesn't change.
///
/// # Errors
/// The step that is stuck.
fn execute_in<H: Helpers, S: Sink>(
    given: &TraceInputs<H>,
    stack: &mut StackMemory,
    flat: &mut [u8],
    plan: &mut Plan,
    sink: &mut S,
) -> Result<Exit, Stuck>
    requires room { HEADROOM_INDEX + (HEADROOM + TAILROOM + given.now.length) ≤ count flat.old }
    requires planless { plan.old ≡ no_plan }
    ensures run { let size = HEADROOM + TAILROOM + given.now.length in
        IsWholeRun S.Logs (traced_environment H.answers given.now) given.now.code.now
        (memory_with stack.old (take size (drop HEADROOM_INDEX flat.old)) given.now.length)
        (memory_with stack.new (take size (drop HEADROOM_INDEX flat.new)) given.now.length)
        plan.new (S.log sink.old) (S.log sink.new) result }
    ensures inside { HasWindowInside given.now.length plan.new }
    ensures beyond { let size = HEADROOM + TAILROOM + given.now.length in
        drop size (drop HEADROOM_INDEX flat.new) ≡ drop size (drop HEADROOM_INDEX flat.old) }
{
    let end = HEADROOM_INDEX + HEADROOM + TAILROOM + given.length;
    let bytes = &mut flat[HEADROOM_INDEX..end];
    execute(given, stack, bytes, plan, sink)
}

/// Runs a program over a started frame, whose memory it writes in place. Afterwards the frame is not started, and
/// `plan` is what the run has planned.
///
/// # Errors
/// The step that is stuck.
fn run_frame<H: Helpers, S: Sink>(
    code: &[Insn],
    frame: &mut Frame,
    helpers: &H,
    plan: &mut Plan,
    sink: &mut S,
) -> Result<Exit, Stuck>
    requires few { slot_count code.now ≤ MAX_SLOTS }
    requires started { frame.old.is_started ≡ true }
    requires planless { plan.old ≡ no_plan }
    ensures datagram { IsDatagram (datagram_of frame.old) }
    ensures length { count (datagram_of frame.old) ≡ frame.old.length }
    ensures context { IsContext (context_of frame.old.context) }
    ensures run { RunsOver S.Logs (H.answers helpers.now) code.now frame.old frame.new plan.new
        (S.log sink.old) (S.log sink.new) result }
{
    let length = frame.datagram().len();
    let record = traced_record(&mut frame.flat, &frame.context, length);
    frame.is_started = false;
    clear_stack(&mut frame.stack);
    let given = TraceInputs {
        code,
        context: &frame.context,
        record: &record,
        helpers,
        length,
    };
    let end = execute_in(&given, &mut frame.stack, &mut frame.flat, plan, sink);
    frame.window = plan.window;
    end
}

/// Returns the address of a record, if there is one.
pub(crate) fn destination_of(bytes: Option<[u8; WIDE_RECORD_BYTES]>) -> Option<Addr>
    ensures { result ≡ option_map address_of bytes }
{
    Some(address_of(&bytes?))
}

/// Runs a program over a started frame, whose memory it writes in place. Afterwards the frame is not started.
///
/// # Errors
/// The step that is stuck.
#[tactic(auto, using(crate::proofs::Frames::exits_with, crate::proofs::Frames::sticks_with))]
pub(crate) fn execute_frame<H: Helpers, S: Sink>(
    code: &[Insn],
    frame: &mut Frame,
    helpers: &H,
    sink: &mut S,
) -> Result<Outcome, Stuck>
    requires few { slot_count code.now ≤ MAX_SLOTS }
    requires started { frame.old.is_started ≡ true }
    ensures datagram { IsDatagram (datagram_of frame.old) }
    ensures context { IsContext (context_of frame.old.context) }
    ensures run { IsFrameRun S.Logs (H.answers helpers.now) code.now frame.old frame.new
        (S.log sink.old) (S.log sink.new) result }
    ensures shows { Shows frame.new (count (datagram_of frame.old))
        (run_of code.now frame.old (H.answers helpers.now)) }
{
    let mut plan = NO_PLAN;
    match run_frame(code, frame, helpers, &mut plan, sink) {
        Ok(Exit { verdict, steps }) => Ok(Outcome {
            verdict,
            steps,
            window: plan.window,
            destination: destination_of(plan.destination),
        }),
        Err(stuck) => Err(stuck),
    }
}

/// Runs a program over a started frame, and reports each step to the sink, a stuck one too. Afterwards the frame is not
/// started.
///
/// # Errors
/// The step that is stuck, with its reason. A step past the last instruction is stuck, and is not reported.
#[tactic(auto, using(semantics::specs::laws::Slot::few_instructions))]
pub fn trace<H: Helpers, S: Sink>(
    code: &[Insn],
    frame: &mut Frame,
    helpers: &H,
    sink: &mut S,
) -> Result<Outcome, Stuck>
    requires few { slot_count code.now ≤ MAX_SLOTS }
    requires started { frame.old.is_started ≡ true }
    ensures ok { IfOk result (λ o. IsOutcome o (run_of code.now frame.old (H.answers helpers.now))) }
    ensures err { IfErr result
        (λ s. (run_of code.now frame.old (H.answers helpers.now)).ending ≡ runs.Stuck s.reason s.slot) }
    ensures left { frame.new ≡ left_by frame.old (run_of code.now frame.old (H.answers helpers.now)) }
    ensures shows { Shows frame.new (count (datagram_of frame.old))
        (run_of code.now frame.old (H.answers helpers.now)) }
    ensures reported { Reports S.Logs (S.log sink.old) (run_of code.now frame.old (H.answers helpers.now)).path
        (S.log sink.new) }
{
    execute_frame(code, frame, helpers, sink)
}
