//! Writes a program as text, in the fixed spelling of its instructions.
#![tactic(auto)]

ghost use Rattle.std.specs.Prelude.{◌≡◌, ◌≤◌, IfOk, string_bytes};
ghost use Rattle.insn.specs.Encoding.{slot_count};
ghost use Rattle.insn.specs.Spelling.{listing};
ghost use Rattle.insn.specs.declared.decoding.TheConstants.{MAX_SLOTS};
ghost use Rattle.disasm.specs.Slots.{listing_with_slots};

use insn::Insn;
use std::alloc::{AllocError, Global};

/// Returns the text of a program: its instructions in their order, each on a line that a line feed ends. A jump
/// has its distance in slots, with a sign.
/// See docs/DECISIONS.md, "One spelling".
///
/// # Errors
/// Where memory runs out.
pub fn disassemble(alloc: Global, code: &[Insn]) -> Result<String, AllocError>
    ensures { IfOk result (λ text. string_bytes text ≡ listing code.now) }
{
    let mut text = String::new(alloc);
    for insn in code {
        writeln!(text, "{insn}")?;
    }
    Ok(text)
}

/// As [`disassemble`], with the slot of each instruction in a comment after it.
///
/// # Errors
/// Where memory runs out.
pub fn disassemble_with_slots(alloc: Global, code: &[Insn]) -> Result<String, AllocError>
    requires { slot_count code.now ≤ MAX_SLOTS }
    ensures { IfOk result (λ text. string_bytes text ≡ listing_with_slots code.now) }
{
    let mut text = String::new(alloc);
    let mut slot = 0;
    for insn in code {
        writeln!(text, "{insn} ; {slot}")?;
        slot += insn.slots();
    }
    Ok(text)
}
