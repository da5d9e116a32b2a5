//! From bytes to instructions.

ghost use Rattle.std.specs.Prelude.{true, IfSome, ◌≡◌, ℕ, ℤ, ◌*◌, ◌≤◌, ◌<◌, ◌%◌, ◌⊎◌, List, length, take, IfOk, IfErr, IsErrAnd, MatchResult};
ghost use Rattle.insn.specs.Fields.{HaveRoom};
ghost use Rattle.insn.specs.Encoding.{encoding, encodings, fields_of, second_of, slots_of, Fits, AllFit, Encodes};
ghost use Rattle.insn.specs.Refusal.{HasFault, IsFaulty, IsRefused, IsWhole};
ghost use Rattle.insn.specs.Forms.{form, move_form, with_source, HasHead, LacksHead, HasSecond, imm_in, IsForm, LacksForm};
ghost use Rattle.insn.specs.declared.instruction.Insn.{Insn};
ghost use Rattle.insn.specs.declared.opcode.Opcode.TheVariants.{LoadImm};
ghost use Rattle.insn.specs.declared.refusal.SlotError.TheVariants.{WideCut};
ghost use Rattle.insn.specs.declared.refusal.DecodeError.{DecodeError};
ghost use Rattle.insn.specs.declared.refusal.DecodeError.TheVariants.{Memory};

use crate::fields::{Fields, SLOT_BYTES, read_slot};
use crate::instruction::{Insn, Operand, joined};
use crate::opcode::{Opcode, OperandSource};
use crate::operator::{AluOp, Extension};
use crate::refusal::{DecodeError, SlotError};
use crate::register::Reg;
use crate::size::SwapSize;
use crate::width::Width;
use std::alloc::Global;

/// The greatest number of slots that a program may have.
pub const MAX_SLOTS: usize = 4096;

/// States the greatest number of slots.
pub fn law_limits()
    ensures slots { MAX_SLOTS ≡ 4096 }
{}

fn operand_of(source: OperandSource, src: Reg, imm: i32) -> Operand
    ensures { result ≡ with_source source src imm }
{
    match source {
        OperandSource::Reg => Operand::Reg(src),
        OperandSource::Imm => Operand::Imm(imm),
    }
}

/// Returns the move or the sign extension that the offset of a slot chooses.
fn move_of(width: Width, source: OperandSource, head: Head, offset: i16, imm: i32) -> Insn
    ensures { result ≡ move_form width source head.dst head.src offset imm }
{
    match (source, Extension::chosen(width, offset)) {
        (OperandSource::Reg, Some(extension)) => Insn::SignExtend {
            extension,
            dst: head.dst,
            src: head.src,
        },
        _ => Insn::Mov {
            width,
            dst: head.dst,
            operand: operand_of(source, head.src, imm),
        },
    }
}

/// Returns the instruction of an opcode, with the fields that it uses and the imm of a second slot. Where the offset or
/// the imm selects no instruction, the result encodes another value there, so that comparing the fields refuses it.
fn insn_of(head: Head, offset: i16, imm: i32, high: i32) -> Insn
    ensures { result ≡ form head.opcode head.dst head.src offset imm high }
{
    let dst = head.dst;
    let src = head.src;
    match head.opcode {
        Opcode::Alu(width, code, source) => Insn::Alu {
            width,
            op: AluOp::chosen(code, offset),
            dst,
            operand: operand_of(source, src, imm),
        },
        Opcode::Mov(width, source) => move_of(width, source, head, offset, imm),
        Opcode::Neg(width) => Insn::Neg { width, dst },
        Opcode::Swap(op) => Insn::Swap {
            op,
            size: SwapSize::from_bits(imm).unwrap_or(SwapSize::Half),
            dst,
        },
        Opcode::Jump(Width::W64) => Insn::Jump { offset },
        Opcode::Jump(Width::W32) => Insn::LongJump { offset: imm },
        Opcode::JumpIf(width, condition, source) => Insn::JumpIf {
            width,
            condition,
            dst,
            operand: operand_of(source, src, imm),
            offset,
        },
        Opcode::Load(size) => Insn::Load {
            size,
            dst,
            base: src,
            offset,
        },
        Opcode::LoadSigned(size) => Insn::LoadSigned {
            size,
            dst,
            base: src,
            offset,
        },
        Opcode::Store(size, source) => Insn::Store {
            size,
            base: dst,
            operand: operand_of(source, src, imm),
            offset,
        },
        Opcode::LoadImm => Insn::LoadImm {
            dst,
            value: joined(imm, high),
        },
        Opcode::Call => Insn::Call { helper: imm },
        Opcode::Exit => Insn::Exit,
    }
}

/// The opcode and the registers of a slot.
#[derive(Clone, Copy, Debug, PartialEq, Eq)]
struct Head {
    opcode: Opcode,
    dst: Reg,
    src: Reg,
}

/// Returns the opcode and the registers of a slot, or the first fault among them.
/// See docs/DECISIONS.md, "E5 before E6".
fn head_of(fields: Fields) -> Result<Head, SlotError>
    ensures found { IfOk result (HasHead fields) }
    ensures refused { IfErr result (LacksHead fields) }
{
    let opcode = Opcode::from_byte(fields.opcode).ok_or(SlotError::Opcode)?;
    let dst = Reg::from_number(fields.dst).ok_or(SlotError::Register)?;
    let src = Reg::from_number(fields.src).ok_or(SlotError::Register)?;
    Ok(Head { opcode, dst, src })
}

/// Returns the second slot, which `LDDW` alone has, if it has room in the bytes after the first.
fn second_slot(opcode: Opcode, rest: &[u8]) -> Result<Option<Fields>, SlotError>
    ensures found { IfOk result (HasSecond opcode rest.now) }
    ensures refused { IfErr result (λ e. (e ≡ WideCut) × (opcode ≡ LoadImm) × (length rest.now < 8)) }
{
    if opcode != Opcode::LoadImm {
        return Ok(None);
    }
    if rest.len() < SLOT_BYTES {
        return Err(SlotError::WideCut);
    }
    Ok(Some(read_slot(rest)))
}

/// Returns the imm of a second slot, 0 where there is none.
fn imm_in(second: Option<Fields>) -> i32
    ensures { result ≡ imm_in second }
{
    match second {
        Some(fields) => fields.imm,
        None => 0,
    }
}

/// Returns whether two slots have the same fields.
fn are_same(a: Fields, b: Fields) -> bool
    requires a { HaveRoom a }
    requires b { HaveRoom b }
    ensures same { result ≡ true → a ≡ b }
    ensures found { a ≡ b → result ≡ true }
{
    a == b
}

/// Returns whether these are the one or two slots of the instruction.
fn has_slots(insn: Insn, fields: Fields, second: Option<Fields>) -> bool
    requires first { HaveRoom fields }
    requires second { IfSome second HaveRoom }
    ensures same { result ≡ true → (fields_of insn ≡ fields) × (second_of insn ≡ second) }
    ensures found { fields_of insn ≡ fields → second_of insn ≡ second → result ≡ true }
{
    let is_second = match (insn.second(), second) {
        (Some(a), Some(b)) => are_same(a, b),
        (None, None) => true,
        _ => false,
    };
    is_second && are_same(insn.fields(), fields)
}

/// Returns the instruction of a slot's fields and of the bytes after it, or its fault.
fn typed(fields: Fields, head: Head, rest: &[u8]) -> Result<Insn, SlotError>
    requires room { HaveRoom fields }
    requires head { HasHead fields head }
    ensures found { IfOk result (λ i. IsForm i fields rest.now) }
    ensures refused { IfErr result (LacksForm head.opcode fields rest.now) }
{
    let second = second_slot(head.opcode, rest)?;
    let insn = insn_of(head, fields.offset, fields.imm, imm_in(second));
    if has_slots(insn, fields, second) {
        Ok(insn)
    } else {
        Err(SlotError::UnusedField)
    }
}

/// Decodes the instruction at the beginning of the bytes, or returns its fault.
fn first(bytes: &[u8]) -> Result<Insn, SlotError>
    requires { 8 ≤ length bytes.now }
    ensures found { IfOk result (λ i. Fits i × (take (8 * slots_of i) bytes.now ≡ encoding i)
        × (8 * slots_of i ≤ length bytes.now)) }
    ensures refused { IfErr result (HasFault bytes.now) }
{
    let fields = read_slot(bytes);
    let head = head_of(fields)?;
    let (_, rest) = bytes.split_at(SLOT_BYTES);
    typed(fields, head, rest)
}

/// Decodes whole slots, or returns the first fault among them.
fn instructions(alloc: Global, bytes: &[u8]) -> Result<Vec<Insn>, DecodeError>
    requires { length bytes.now % 8 ≡ 0 }
    ensures found { IfOk result (λ code. AllFit code.items × (bytes.now ≡ encodings code.items)) }
    ensures refused { IfErr result (λ e. (e ≡ Memory) ⊎ IsFaulty bytes.now e) }
{
    let mut code = Vec::new(alloc);
    let mut rest = bytes;
    let mut slot = 0;
    while rest.len() > 0 {
        let insn = first(rest).map_err(|fault| fault.at(slot))?;
        code.push(insn)?;
        slot += insn.slots();
        let (_, after) = rest.split_at(SLOT_BYTES * insn.slots());
        rest = after;
    }
    Ok(code)
}

/// Decodes a program of 1 to 4,096 slots (RFC 9669, sections 3 to 5). The time is linear in the bytes, and
/// nothing but the list of instructions is allocated.
///
/// # Errors
/// The first fault of the bytes, with its slot, or `Memory`.
pub fn decode(alloc: Global, bytes: &[u8]) -> Result<Vec<Insn>, DecodeError>
    ensures found { IfOk result (λ code. Encodes code.items bytes.now) }
    ensures only { (code : List Insn) → Encodes code bytes.now
        → MatchResult result (λ v. v.items ≡ code) (λ e. e ≡ Memory) }
    ensures refused { IfErr result (λ e. (e ≡ Memory) ⊎ IsRefused bytes.now e) }
    ensures exact { (e : DecodeError) → IsRefused bytes.now e → IsErrAnd result (λ f. (f ≡ e) ⊎ (f ≡ Memory)) }
    // The length is tested before memory is taken.
    ensures whole { MatchResult result (λ v. IsWhole bytes.now) (λ e. e ≡ Memory → IsWhole bytes.now) }
{
    if bytes.is_empty() {
        return Err(DecodeError::Empty);
    }
    if bytes.len() % SLOT_BYTES != 0 {
        return Err(DecodeError::NotEights);
    }
    if bytes.len() > SLOT_BYTES * MAX_SLOTS {
        return Err(DecodeError::TooLong);
    }
    instructions(alloc, bytes)
}

/// States that bytes have at most one refusal.
pub fn law_refusals_are_unique()
    ensures { (bytes : List ℕ) (d e : DecodeError) → IsRefused bytes d → IsRefused bytes e → d ≡ e }
{}

/// States that bytes that are refused encode no program.
pub fn law_refused_bytes_encode_nothing()
    ensures { (bytes : List ℕ) (e : DecodeError) (code : List Insn) → IsRefused bytes e → Encodes code bytes → ⊥ }
{}
