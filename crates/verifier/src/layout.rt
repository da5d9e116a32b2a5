//! The layout of a program, which is tested before any path is followed.

ghost use Rattle.std.specs.Prelude.{◌≡◌, ◌≤◌, ◌<◌, ◌+◌, ◌++◌, ◌∷◌, [], List, length, OnOk, IfErr};
ghost use Rattle.insn.specs.Encoding.{slot_count, slots_of};
ghost use Rattle.insn.specs.declared.decoding.TheConstants.{MAX_SLOTS};
ghost use Rattle.insn.specs.declared.instruction.Insn.{Insn};
ghost use Rattle.verifier.specs.Layout.{distance_of, slot_checked, HasGoodJumps, ListsSlots, IsFirstFaultyJump, IsLaidOut, IsLayoutRefusal};

use crate::refusal::Refusal;
use insn::{Insn, MAX_SLOTS};
use semantics::{Fetched, Reason, fetch, last, target_in};

/// Returns the distance of a jump, `None` for an instruction that is no jump.
pub fn distance(insn: Insn) -> Option<i32>
    ensures { result ≡ distance_of insn }
{
    match insn {
        Insn::Jump { offset } => Some(i32::from(offset)),
        Insn::JumpIf { offset, .. } => Some(i32::from(offset)),
        Insn::LongJump { offset } => Some(offset),
        _ => None,
    }
}

/// Puts the slots of an instruction into a list, from a slot on, and returns the slot after them.
fn put_slots(slots: &mut [Fetched], at: usize, insn: Insn) -> usize
    requires { at + slots_of insn ≤ length slots.old }
    ensures next { result ≡ at + slots_of insn }
    ensures length { length slots.new ≡ length slots.old }
    ensures put { (code : List Insn) → slot_count code ≡ at → ListsSlots code slots.old
        → ListsSlots (code ++ insn ∷ []) slots.new }
{
    slots[at] = Fetched::Begins(insn);
    if insn.slots() == 1 {
        return at + 1;
    }
    slots[at + 1] = Fetched::Inside;
    at + 2
}

/// Lists the slots of a program.
fn list_slots(code: &[Insn]) -> [Fetched; MAX_SLOTS]
    requires { slot_count code.now ≤ MAX_SLOTS }
    ensures { ListsSlots code.now result }
{
    let mut slots = [Fetched::Past; MAX_SLOTS];
    let mut at = 0;
    for insn in code {
        at = put_slots(&mut slots, at, *insn);
    }
    slots
}

/// Tests whether the instruction that begins at a slot, if one does and it is a jump, leads to an instruction ahead.
/// See docs/DECISIONS.md, "A jump back comes first".
fn check_slot(slots: &[Fetched; MAX_SLOTS], slot: usize) -> Result<(), Reason>
    requires { slot < MAX_SLOTS }
    ensures { (code : List Insn) → ListsSlots code slots.now → result ≡ slot_checked code slot }
{
    let Fetched::Begins(insn) = slots[slot] else {
        return Ok(());
    };
    match distance(insn) {
        None => Ok(()),
        Some(offset) => {
            target_in(slots, slot, offset)?;
            Ok(())
        }
    }
}

/// Tests whether each jump leads to an instruction ahead. The slots are listed once, so that a program of jumps takes
/// no longer than others.
///
/// # Errors
/// The first faulty jump, in the order of slots.
#[tactic(auto, using(crate::proofs::Positions::first_faulty, crate::proofs::Positions::all_passed))]
fn check_jumps(code: &[Insn]) -> Result<(), Refusal>
    requires { slot_count code.now ≤ MAX_SLOTS }
    ensures ok { OnOk result (HasGoodJumps code.now) }
    ensures err { IfErr result (IsLayoutRefusal code.now) }
{
    let slots = list_slots(code);
    for slot in 0..MAX_SLOTS {
        if let Err(reason) = check_slot(&slots, slot) {
            return Err(Refusal::Stuck { reason, slot });
        }
    }
    Ok(())
}

/// Tests whether each jump leads to an instruction ahead, and whether the last instruction is the exit.
/// See docs/DECISIONS.md, "The layout comes before memory".
///
/// # Errors
/// The first faulty jump, in the order of slots; else the last instruction, where it is no exit.
#[tactic(auto, using(crate::proofs::Positions::falls_off))]
pub fn check_layout(code: &[Insn]) -> Result<(), Refusal>
    requires { slot_count code.now ≤ MAX_SLOTS }
    ensures ok { OnOk result (IsLaidOut code.now) }
    ensures err { IfErr result (IsLayoutRefusal code.now) }
{
    check_jumps(code)?;
    let at = last(code);
    match fetch(code, at) {
        Fetched::Begins(Insn::Exit) => Ok(()),
        _ => Err(Refusal::Stuck {
            reason: Reason::FallsOffEnd,
            slot: at.slot,
        }),
    }
}
