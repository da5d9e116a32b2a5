//! The longest path through the instructions of a program.

ghost use Rattle.std.specs.Prelude.{◌≡◌, ◌≤◌, ◌<◌, ◌+◌, ◌-◌, List, IfOk};
ghost use Rattle.insn.specs.Encoding.{slot_count};
ghost use Rattle.insn.specs.declared.decoding.TheConstants.{MAX_SLOTS};
ghost use Rattle.insn.specs.declared.instruction.Insn.{Insn};
ghost use Rattle.semantics.specs.declared.fetching.Branch.TheVariants.{NotTaken, Taken};
ghost use Rattle.explaining.specs.LongestPaths.{IsLongestFrom};
ghost use Rattle.explaining.specs.Tables.{count_at, count_by, IsTableFrom};

use insn::{Insn, MAX_SLOTS};
use semantics::{Fetched, Program};
use std::alloc::{AllocError, Global};
use verifier::distance;

/// Returns the count of a slot, 0 after the end of the table.
fn count_at(counts: &[usize], slot: usize) -> usize
    ensures { result ≡ count_at counts.now slot }
{
    match counts.get(slot) {
        Some(count) => *count,
        None => 0,
    }
}

/// Returns the count of the slot after an instruction, 0 where it never continues there.
fn count_of_next(counts: &[usize], slot: usize, insn: Insn) -> usize
    requires { slot < MAX_SLOTS }
    ensures { (code : List Insn) → result ≡ count_by code counts.now slot insn NotTaken }
{
    match insn {
        Insn::Jump { .. } | Insn::LongJump { .. } | Insn::Exit => 0,
        _ => count_at(counts, slot + insn.slots()),
    }
}

/// Returns the count of the slot that a jump leads to, 0 where it leads nowhere and for an instruction that is no jump.
fn count_of_target(program: &Program, counts: &[usize], slot: usize, insn: Insn) -> usize
    requires { slot < MAX_SLOTS }
    ensures { result ≡ count_by program.now counts.now slot insn Taken }
{
    let Some(offset) = distance(insn) else {
        return 0;
    };
    match program.target(slot, offset) {
        Ok(to) => count_at(counts, to),
        Err(_) => 0,
    }
}

/// Returns the number of instructions on the longest path from a slot, by the counts of the slots after it.
fn count_from(program: &Program, counts: &[usize], slot: usize) -> usize
    requires inside { slot < MAX_SLOTS }
    requires table { IsTableFrom program.now (slot + 1) counts.now }
    ensures longest { IsLongestFrom program.now slot result }
    ensures short { result ≤ MAX_SLOTS - slot }
{
    match program.fetch(slot) {
        Fetched::Begins(insn) => {
            let next = count_of_next(counts, slot, insn);
            let target = count_of_target(program, counts, slot, insn);
            next.max(target) + 1
        }
        _ => 0,
    }
}

/// Returns the number of instructions on the longest path of a program from its first one. Jumps lead forward, so each
/// slot needs the counts of later slots alone.
///
/// # Errors
/// Where memory runs out.
pub(crate) fn longest_path(alloc: Global, program: &Program) -> Result<usize, AllocError>
    requires few { slot_count program.now ≤ MAX_SLOTS }
    ensures { IfOk result (IsLongestFrom program.now 0) }
{
    let mut counts = vec![in alloc; 0; MAX_SLOTS]?;
    let mut slot = MAX_SLOTS;
    'slots: while slot > 0 {
        slot -= 1;
        let count = count_from(program, &counts, slot);
        counts[slot] = count;
    }
    Ok(count_at(&counts, 0))
}
