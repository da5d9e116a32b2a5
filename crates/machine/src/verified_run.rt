//! The runs of verified programs.

ghost use Rattle.std.specs.Prelude.{◌≡◌, ◌≤◌, true, length};
ghost use Rattle.semantics.specs.Runs.{IsSafe};
ghost use Rattle.machine.specs.Contents.{datagram_of};
ghost use Rattle.machine.specs.Execution.{RunsFlat};
ghost use Rattle.machine.specs.Tracing.{run_of, safe_run_of, IsOutcome, left_by, Shows};

use crate::context::{lay_out_context, side_number};
use crate::frame::Frame;
use crate::outcome::Outcome;
use crate::tracing::destination_of;
use flat::{FlatExit, RunInputs, run_flat};
use semantics::Helpers;
use verifier::Verified;

/// States that a verified program is safe.
fn law_safe(program: &Verified)
    ensures { IsSafe program.now }
{
    program.code();
}

/// Runs a verified program over the area of a started frame, to its exit. Afterwards the frame is not started.
fn run_area<H: Helpers>(program: &Verified, frame: &mut Frame, helpers: &H) -> FlatExit
    requires { frame.old.is_started ≡ true }
    ensures { RunsFlat (H.answers helpers.now) program.now frame.old frame.new result }
{
    let size = frame.datagram().len();
    let given = RunInputs {
        helpers,
        length: size,
        side: u64::from(side_number(frame.context.side)),
    };
    lay_out_context(&mut frame.flat, &frame.context, size);
    frame.is_started = false;
    let exit = run_flat(program.translation(), &given, &mut frame.flat);
    frame.window = exit.plan.window;
    exit
}

/// Runs a verified program over a started frame to its exit, within as many steps as the program has instructions.
/// There is no refusal. Afterwards the frame is not started.
/// See docs/DESIGN.md, "A run is a function".
pub fn run<H: Helpers>(program: &Verified, frame: &mut Frame, helpers: &H) -> Outcome
    requires { frame.old.is_started ≡ true }
    ensures outcome { IsOutcome result (safe_run_of program.now frame.old (H.answers helpers.now)) }
    ensures steps { result.steps ≤ length program.now }
    ensures left { frame.new ≡ left_by frame.old (safe_run_of program.now frame.old (H.answers helpers.now)) }
    ensures whole { run_of program.now frame.old (H.answers helpers.now)
        ≡ safe_run_of program.now frame.old (H.answers helpers.now) }
    ensures shows { Shows frame.new (length (datagram_of frame.old))
        (safe_run_of program.now frame.old (H.answers helpers.now)) }
{
    let exit = run_area(program, frame, helpers);
    law_safe(program);
    Outcome {
        verdict: exit.verdict,
        steps: exit.steps,
        window: exit.plan.window,
        destination: destination_of(exit.plan.destination),
    }
}
