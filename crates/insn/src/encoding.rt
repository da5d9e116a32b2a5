//! From instructions to bytes.

ghost use Rattle.std.specs.Prelude.{◌≡◌, ◌≤◌, ◌++◌, ℕ, List, IfOk, OnOk, MatchResult};
ghost use Rattle.insn.specs.Fields.{HaveRoom, slot_bytes};
ghost use Rattle.insn.specs.Encoding.{encoding, encodings, slot_count, Fits, AllFit, Encodes};
ghost use Rattle.insn.specs.declared.instruction.Insn.{Insn};
ghost use Rattle.insn.specs.declared.refusal.DecodeError.TheVariants.{Memory};

use crate::decoding::{MAX_SLOTS, decode};
use crate::fields::{Fields, SLOT_BYTES, write_slot};
use crate::instruction::Insn;
use crate::refusal::DecodeError;
use std::alloc::{AllocError, Global};

/// Appends the eight bytes of the fields.
fn push_slot(bytes: &mut Vec<u8>, fields: Fields) -> Result<(), AllocError>
    requires { HaveRoom fields }
    ensures { OnOk result (bytes.new.items ≡ bytes.old.items ++ slot_bytes fields) }
{
    let mut slot = [0; SLOT_BYTES];
    write_slot(fields, &mut slot);
    bytes.extend_from_slice(&slot)
}

/// Encodes the instructions, one after the other (RFC 9669, sections 3 to 5). [`decode`] reads a program of
/// 1 to 4,096 slots back.
///
/// # Errors
/// Where memory runs out.
pub fn encode(alloc: Global, code: &[Insn]) -> Result<Vec<u8>, AllocError>
    ensures bytes { IfOk result (λ bytes. bytes.items ≡ encodings code.now) }
    ensures fit { OnOk result (AllFit code.now) }
{
    let mut bytes = Vec::new(alloc);
    for insn in code {
        push_slot(&mut bytes, insn.fields())?;
        if let Some(second) = insn.second() {
            push_slot(&mut bytes, second)?;
        }
    }
    Ok(bytes)
}

/// States that of the encodings of different instructions neither begins the other, so that bytes are read as
/// instructions in at most one way.
pub fn law_no_encoding_begins_another()
    ensures { (i j : Insn) (rest other : List ℕ) → Fits i → Fits j
        → encoding i ++ rest ≡ encoding j ++ other → i ≡ j }
{}

/// States that different programs have different encodings.
pub fn law_encodings_are_unique()
    ensures { (code other : List Insn) → AllFit code → AllFit other
        → encodings code ≡ encodings other → code ≡ other }
{}

/// States that bytes encode at most one program.
pub fn law_bytes_encode_one_program()
    ensures { (code other : List Insn) (bytes : List ℕ) → Encodes code bytes → Encodes other bytes → code ≡ other }
{}

/// Encodes a program and decodes the bytes: the result is the same program, unless memory runs out.
pub fn read_back(alloc: Global, code: &[Insn]) -> Result<Vec<Insn>, DecodeError>
    requires some { 1 ≤ slot_count code.now }
    requires few { slot_count code.now ≤ MAX_SLOTS }
    ensures { MatchResult result (λ v. v.items ≡ code.now) (λ e. e ≡ Memory) }
{
    let bytes = encode(alloc, code)?;
    decode(alloc, &bytes)
}
