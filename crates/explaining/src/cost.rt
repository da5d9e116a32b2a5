//! What a run of a program costs at most.

ghost use Rattle.std.specs.Prelude.{◌≤◌, Some, IfOk};
ghost use Rattle.insn.specs.Encoding.{slot_count};
ghost use Rattle.insn.specs.declared.decoding.TheConstants.{MAX_SLOTS};
ghost use Rattle.verifier.specs.Layout.{IsLaidOut};
ghost use Rattle.explaining.specs.LongestPaths.{IsCostOf, cost_text};

use crate::longest::longest_path;
use semantics::Program;
use std::alloc::{AllocError, Global};
use std::fmt;

/// What a run of a program costs at most. Displays as a line for standard error.
#[derive(Clone, Copy, Debug, PartialEq, Eq)]
pub struct Cost {
    /// The number of steps: that of the instructions on the longest path.
    pub steps: usize,
}

impl fmt::Display for Cost {
    ghost output = { λ cost. Some (cost_text cost) };

    fn fmt<W: fmt::Write>(&self, f: &mut fmt::Formatter<W>) -> fmt::Result {
        let steps = self.steps;
        write!(f, "at most {steps} steps a run")
    }
}

/// Returns what a run of a program costs at most. Each jump has to lead to an instruction ahead, and the last one has
/// to be an exit.
///
/// # Errors
/// Where memory runs out.
pub(crate) fn cost_of(alloc: Global, program: &Program) -> Result<Cost, AllocError>
    requires few { slot_count program.now ≤ MAX_SLOTS }
    requires laid_out { IsLaidOut program.now }
    ensures { IfOk result (IsCostOf program.now) }
{
    let steps = longest_path(alloc, program)?;
    Ok(Cost { steps })
}
