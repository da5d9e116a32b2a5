//! The sinks that the steps of a trace are reported to.

ghost use Rattle.semantics.specs.declared.fetching.Visit.{Visit};

use basics::streams::Output;
use insn::Insn;
use semantics::Visit;
use std::alloc::{AllocError, Global};
use std::io::Write;
use std::marker::Model;

/// Receives the steps of a trace, in order.
pub trait Sink {
    /// The log of a sink: what it keeps of the steps that were reported.
    ghost Log: { Type 0 };

    ghost log: { Self → Log };

    /// The logs before and after one more step.
    ghost Logs: { Log → Visit → Log → Type 0 };

    /// Receives one step: its slot, and the instruction that begins there.
    fn step(&mut self, slot: usize, insn: &Insn)
        ensures { Logs (log self.old) (record { slot = slot; insn = insn.now }) (log self.new) };
}

/// A sink that ignores each step.
#[derive(Clone, Copy, Debug)]
pub struct Silent;

impl Sink for Silent {
    ghost Log = { Unit {0} };

    ghost log = { λ s. tt };

    ghost Logs = { λ old v new. Unit {0} };

    fn step(&mut self, _slot: usize, _insn: &Insn) {}
}

/// The number of steps that [`Kept`] stores.
pub const KEPT: usize = 4_096;

/// A sink that stores the first 4,096 steps.
#[derive(Drop)]
pub struct Kept {
    visits: Vec<Visit>,
}

impl Model for Kept {
    ghost use Rattle.std.specs.Prelude.{◌≤◌, List, length, vec_capacity};
    ghost use Rattle.semantics.specs.declared.fetching.Visit.{Visit};
    ghost use Rattle.machine.specs.declared.sink.TheConstants.{KEPT};

    ghost Value = { List Visit };

    ghost view = { λ k. k.visits.items };

    ghost invariant = { λ k. (length k.visits.items ≤ KEPT) × (KEPT ≤ vec_capacity k.visits) };
}

impl Kept {
    ghost use Rattle.std.specs.Prelude.{◌≡◌, [], IfOk};

    /// Allocates a sink that holds no step, with room for all that it will store.
    ///
    /// # Errors
    /// Where memory runs out.
    pub fn new(alloc: Global) -> Result<Kept, AllocError>
        ensures { IfOk result (λ k. k ≡ []) }
    {
        Ok(Kept {
            visits: Vec::with_capacity(alloc, KEPT)?,
        })
    }

    /// Returns the steps that are stored, in order.
    pub fn visits(&self) -> &[Visit]
        ensures { result.now ≡ self.now }
    {
        self.visits.as_slice()
    }
}

impl Sink for Kept {
    ghost use Rattle.std.specs.Prelude.{◌≡◌, List};
    ghost use Rattle.semantics.specs.declared.fetching.Visit.{Visit};
    ghost use Rattle.machine.specs.Keeping.{kept_more};

    ghost Log = { List Visit };

    ghost log = { λ k. k };

    ghost Logs = { λ old v new. new ≡ kept_more old v };

    fn step(&mut self, slot: usize, insn: &Insn) {
        if self.visits.len() < KEPT {
            self.visits.push(Visit { slot, insn: *insn }).unwrap();
        }
    }
}

/// An output is a sink that writes each step as a line: the slot and the instruction. It writes nothing once it has
/// failed.
impl<W: Write> Sink for Output<W> {
    ghost use Rattle.basics.specs.Outputs.{OutputState};
    ghost use Rattle.machine.specs.Lines.{WritesLine};

    ghost Log = { OutputState };

    ghost log = { λ o. o };

    ghost Logs = { WritesLine };

    fn step(&mut self, slot: usize, insn: &Insn) {
        if !self.has_failed() {
            let _ = writeln!(self, "{slot} {insn}");
        }
    }
}
