//! Whether every jump of a program leads forward.

ghost use Rattle.std.specs.Prelude.{◌≡◌, ◌≤◌, ◌<◌, ◌↔◌, IsTrue, Ok};
ghost use Rattle.insn.specs.Encoding.{slot_count};
ghost use Rattle.insn.specs.declared.decoding.TheConstants.{MAX_SLOTS};
ghost use Rattle.semantics.specs.Slots.{fetch};

use insn::MAX_SLOTS;
use semantics::{Fetched, Program};
use verifier::distance;

/// Returns whether a jump at a slot, if there is one, leads to an instruction ahead.
fn is_forward_at(program: &Program, slot: usize) -> bool
    requires { slot < MAX_SLOTS }
    ensures { IsTrue result ↔ (fetched_checked program.now slot (fetch program.now slot) ≡ Ok tt) }
{
    match program.fetch(slot) {
        Fetched::Begins(insn) => match distance(insn) {
            None => true,
            Some(offset) => program.target(slot, offset).is_ok(),
        },
        _ => true,
    }
}

/// Returns whether every jump leads to an instruction ahead.
pub(crate) fn is_forward(program: &Program) -> bool
    requires { slot_count program.now ≤ MAX_SLOTS }
    ensures { IsTrue result ↔ HasGoodJumps program.now }
{
    // no jump is at a slot after the last one
    for slot in 0..MAX_SLOTS {
        if !is_forward_at(program, slot) {
            return false;
        }
    }
    true
}

ghost use Rattle.verifier.specs.Layout.{fetched_checked, HasGoodJumps};
