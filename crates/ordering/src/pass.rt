//! The pass.

ghost use Rattle.std.specs.Prelude.{◌≡◌, ◌≤◌, IfOk, IfErr, OnOk};
ghost use Rattle.insn.specs.Encoding.{slot_count, AllFit};
ghost use Rattle.insn.specs.declared.decoding.TheConstants.{MAX_SLOTS};
ghost use Rattle.verifier.specs.Layout.{HasGoodJumps};
ghost use Rattle.ordering.specs.Orders.{KeepsMeaning, KeepsMeaningBy, HasNoLoop, IsOrderFault};

use crate::error::OrderError;
use crate::forward::is_forward;
use crate::places::{InOrder, Places};
use crate::search::ordered;
use insn::Insn;
use semantics::{Program, Visit};
use std::alloc::Global;

/// Returns a program with the same meaning, all of whose jumps lead forward: the program itself where they do already,
/// and else the instructions that are reached from slot 0 in another order, with a jump wherever a fall-through would
/// lead to another instruction than before. Returns the places of the instructions, too.
/// See docs/DECISIONS.md, "A program is put in order by a depth-first search".
///
/// # Errors
/// `Loop` at a slot of a loop; `Stuck` at a reached instruction that leads outside, into a wide instruction or off the
/// end; `TooLong` where more than `MAX_SLOTS` slots are needed; `Memory`.
pub fn order_with_places(alloc: Global, code: &[Insn]) -> Result<InOrder, OrderError>
    requires few { slot_count code.now ≤ MAX_SLOTS }
    requires fit { AllFit code.now }
    ensures forward { IfOk result (λ new. HasGoodJumps new.code.items) }
    ensures unchanged { HasGoodJumps code.now → IfOk result (λ new. new.code.items ≡ code.now) }
    ensures accepted { HasGoodJumps code.now → IfErr result (λ e. e ≡ OrderError.Memory) }
    ensures meaning { IfOk result (λ new. KeepsMeaningBy new.places code.now new.code.items) }
    ensures fits { IfOk result (λ new. AllFit new.code.items) }
    ensures few { IfOk result (λ new. slot_count new.code.items ≤ MAX_SLOTS) }
    ensures loopless { OnOk result (HasNoLoop code.now) }
    ensures refused { IfErr result (IsOrderFault code.now) }
{
    let program = Program::new(alloc, code)?;
    if is_forward(&program) {
        return Ok(InOrder {
            code: Vec::from_slice(alloc, code)?,
            places: Places::Kept,
        });
    }
    // where there is no instruction, there is no jump that leads backward
    let Some(insn) = code.first() else {
        return Ok(InOrder {
            code: Vec::new(alloc),
            places: Places::Kept,
        });
    };
    let first = Visit {
        slot: 0,
        insn: *insn,
    };
    Ok(ordered(alloc, &program, first)?.into_order(alloc)?)
}

/// Returns a program in order, as [`order_with_places`] does.
///
/// # Errors
/// `Loop` at a slot of a loop; `Stuck` at a reached instruction that leads outside, into a wide instruction or off the
/// end; `TooLong` where more than `MAX_SLOTS` slots are needed; `Memory`.
pub fn order(alloc: Global, code: &[Insn]) -> Result<Vec<Insn>, OrderError>
    requires few { slot_count code.now ≤ MAX_SLOTS }
    requires fit { AllFit code.now }
    ensures forward { IfOk result (λ new. HasGoodJumps new.items) }
    ensures unchanged { HasGoodJumps code.now → IfOk result (λ new. new.items ≡ code.now) }
    ensures accepted { HasGoodJumps code.now → IfErr result (λ e. e ≡ OrderError.Memory) }
    ensures meaning { IfOk result (λ new. KeepsMeaning code.now new.items) }
    ensures fits { IfOk result (λ new. AllFit new.items) }
    ensures few { IfOk result (λ new. slot_count new.items ≤ MAX_SLOTS) }
    ensures loopless { OnOk result (HasNoLoop code.now) }
    ensures refused { IfErr result (IsOrderFault code.now) }
{
    Ok(order_with_places(alloc, code)?.code)
}
