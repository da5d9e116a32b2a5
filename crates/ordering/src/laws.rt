//! Laws of programs in order.

ghost use Rattle.std.specs.Prelude.{List};
ghost use Rattle.insn.specs.declared.instruction.Insn.{Insn};
ghost use Rattle.ordering.specs.Orders.{KeepsMeaning};
ghost use Rattle.ordering.specs.laws.Run.{KeepsRuns};

/// States that a program that keeps the meaning of another one runs as that one does: it ends in the same way, at the
/// place of the slot, after as many steps and at most as many again.
pub fn law_runs_are_kept()
    ensures { (old new : List Insn) (kept : KeepsMeaning old new) → KeepsRuns kept.place old new }
{}
