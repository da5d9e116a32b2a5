//! Instructions as typed values: each value has exactly one encoding (RFC 9669, sections 3 to 5).

ghost use Rattle.std.specs.Prelude.{◌≡◌, ◌<◌, IfSome};
ghost use Rattle.insn.specs.Encoding.{source_of, src_of, imm_of, low_half, high_half, wide_number, fields_of, second_of, slots_of, Fits};
ghost use Rattle.insn.specs.Fields.{HaveRoom};
ghost use Rattle.insn.specs.Opcode.{byte_of};

use crate::condition::Condition;
use crate::fields::Fields;
use crate::opcode::{Opcode, OperandSource};
use crate::operator::{AluOp, Extension, SwapOp};
use crate::register::Reg;
use crate::size::{SignedSize, Size, SwapSize};
use crate::width::Width;

/// The second operand of an instruction: a register (source `X`) or an immediate number (source `K`).
#[derive(Clone, Copy, Debug, PartialEq, Eq)]
pub enum Operand {
    /// Source `X`: the value of a register.
    Reg(Reg),
    /// Source `K`: the imm field, a signed 32-bit number.
    Imm(i32),
}

/// An instruction (RFC 9669, sections 4 and 5).
#[derive(Clone, Copy, Debug, PartialEq, Eq)]
pub enum Insn {
    /// Arithmetic with two operands, class `ALU64` or `ALU`.
    Alu {
        width: Width,
        op: AluOp,
        dst: Reg,
        operand: Operand,
    },
    /// `MOV` of class `ALU64` or `ALU`: copies the operand to `dst`.
    Mov {
        width: Width,
        dst: Reg,
        operand: Operand,
    },
    /// `NEG` of class `ALU64` or `ALU`: negates `dst`.
    Neg {
        width: Width,
        dst: Reg,
    },
    /// `MOVSX` of class `ALU64` or `ALU`: copies the low bits of `src` to `dst`, sign-extended.
    SignExtend {
        extension: Extension,
        dst: Reg,
        src: Reg,
    },
    /// `END` of class `ALU` or `ALU64`: converts the byte order of `dst`.
    Swap {
        op: SwapOp,
        size: SwapSize,
        dst: Reg,
    },
    /// `JA` of class `JMP`: jumps to the slot `offset` slots after the next one.
    Jump {
        offset: i16,
    },
    /// `JA` of class `JMP32`: as `Jump`, with a distance of 32 bits.
    LongJump {
        offset: i32,
    },
    /// A conditional jump, class `JMP` or `JMP32`. It compares `dst` with the operand.
    JumpIf {
        width: Width,
        condition: Condition,
        dst: Reg,
        operand: Operand,
        offset: i16,
    },
    /// `MEM` of class `LDX`: loads the `size` bytes at `base + offset` into `dst`, zero-extended.
    Load {
        size: Size,
        dst: Reg,
        base: Reg,
        offset: i16,
    },
    /// `MEMSX` of class `LDX`: loads the `size` bytes at `base + offset` into `dst`, sign-extended.
    LoadSigned {
        size: SignedSize,
        dst: Reg,
        base: Reg,
        offset: i16,
    },
    /// `MEM` of class `ST` (an imm) or `STX` (a register): stores the low `size` bytes of the operand at
    /// `base + offset`.
    Store {
        size: Size,
        base: Reg,
        operand: Operand,
        offset: i16,
    },
    /// `IMM` of class `LD`, which takes two slots: loads a number of 64 bits.
    LoadImm {
        dst: Reg,
        value: u64,
    },
    /// `CALL` of class `JMP`: calls a helper by its number.
    Call {
        helper: i32,
    },
    /// `EXIT` of class `JMP`: ends the program with the verdict in `r0`.
    Exit,
}

/// Returns the low 32 bits of a number, as the imm field of a slot.
pub fn low_half(value: u64) -> i32
    ensures { result ≡ low_half value }
{
    ((value % 0x1_0000_0000) as u32).cast_signed()
}

/// Returns the high 32 bits of a number, as the imm field of a slot.
pub fn high_half(value: u64) -> i32
    ensures { result ≡ high_half value }
{
    ((value / 0x1_0000_0000) as u32).cast_signed()
}

/// Returns the number of two imm fields, the low one first.
pub fn joined(low: i32, high: i32) -> u64
    ensures { result ≡ wide_number low high }
{
    u64::from(low.cast_unsigned()) + 0x1_0000_0000 * u64::from(high.cast_unsigned())
}

/// The halves of a number make that number.
#[tactic(auto, using(crate::proofs::Unique::joined_is))]
pub fn halves_join(value: u64)
    ensures { wide_number (low_half value) (high_half value) ≡ value }
{}

impl Operand {
    fn source(self) -> OperandSource
        ensures { result ≡ source_of self }
    {
        match self {
            Operand::Reg(_) => OperandSource::Reg,
            Operand::Imm(_) => OperandSource::Imm,
        }
    }

    fn src(self) -> u8
        ensures { result ≡ src_of self }
    {
        match self {
            Operand::Reg(r) => r.number(),
            Operand::Imm(_) => 0,
        }
    }

    fn imm(self) -> i32
        ensures { result ≡ imm_of self }
    {
        match self {
            Operand::Reg(_) => 0,
            Operand::Imm(n) => n,
        }
    }
}

impl Insn {
    /// Returns the number of slots that the instruction takes.
    pub fn slots(self) -> usize
        ensures { result ≡ slots_of self }
    {
        match self {
            Insn::LoadImm { .. } => 2,
            _ => 1,
        }
    }

    /// Returns the fields of the instruction's second slot, if it has one.
    pub(crate) fn second(self) -> Option<Fields>
        ensures value { result ≡ second_of self }
        ensures room { IfSome result HaveRoom }
    {
        match self {
            Insn::LoadImm { value, .. } => Some(Fields::of_imm(high_half(value))),
            _ => None,
        }
    }

    /// Returns the opcode of the instruction's first slot.
    fn opcode(self) -> Opcode
        ensures { byte_of result ≡ (fields_of self).opcode }
    {
        match self {
            Insn::Alu {
                width,
                op,
                operand,
                ..
            } => Opcode::Alu(width, op.code(), operand.source()),
            Insn::Mov { width, operand, .. } => Opcode::Mov(width, operand.source()),
            Insn::Neg { width, .. } => Opcode::Neg(width),
            Insn::SignExtend { extension, .. } => Opcode::Mov(
                extension.target(),
                OperandSource::Reg,
            ),
            Insn::Swap { op, .. } => Opcode::Swap(op),
            Insn::Jump { .. } => Opcode::Jump(Width::W64),
            Insn::LongJump { .. } => Opcode::Jump(Width::W32),
            Insn::JumpIf {
                width,
                condition,
                operand,
                ..
            } => Opcode::JumpIf(width, condition, operand.source()),
            Insn::Load { size, .. } => Opcode::Load(size),
            Insn::LoadSigned { size, .. } => Opcode::LoadSigned(size),
            Insn::Store { size, operand, .. } => Opcode::Store(size, operand.source()),
            Insn::LoadImm { .. } => Opcode::LoadImm,
            Insn::Call { .. } => Opcode::Call,
            Insn::Exit => Opcode::Exit,
        }
    }

    /// Returns the `dst` field of the instruction's first slot, 0 where it is unused.
    fn dst(self) -> u8
        ensures value { result ≡ (fields_of self).dst }
        ensures room { result < 16 }
    {
        match self {
            Insn::Alu { dst, .. }
            | Insn::Mov { dst, .. }
            | Insn::Neg { dst, .. }
            | Insn::SignExtend { dst, .. }
            | Insn::Swap { dst, .. }
            | Insn::JumpIf { dst, .. }
            | Insn::Load { dst, .. }
            | Insn::LoadSigned { dst, .. }
            | Insn::LoadImm { dst, .. } => dst.number(),
            Insn::Store { base, .. } => base.number(),
            Insn::Jump { .. } | Insn::LongJump { .. } | Insn::Call { .. } | Insn::Exit => 0,
        }
    }

    /// Returns the `src` field of the instruction's first slot, 0 where it is unused.
    fn src(self) -> u8
        ensures value { result ≡ (fields_of self).src }
        ensures room { result < 16 }
    {
        match self {
            Insn::Alu { operand, .. }
            | Insn::Mov { operand, .. }
            | Insn::JumpIf { operand, .. }
            | Insn::Store { operand, .. } => operand.src(),
            Insn::SignExtend { src, .. } => src.number(),
            Insn::Load { base, .. } | Insn::LoadSigned { base, .. } => base.number(),
            _ => 0,
        }
    }

    /// Returns the offset field of the instruction's first slot, 0 where it is unused.
    fn offset(self) -> i16
        ensures { result ≡ (fields_of self).offset }
    {
        match self {
            Insn::Alu { op, .. } => op.offset(),
            Insn::SignExtend { extension, .. } => extension.offset(),
            Insn::Jump { offset }
            | Insn::JumpIf { offset, .. }
            | Insn::Load { offset, .. }
            | Insn::LoadSigned { offset, .. }
            | Insn::Store { offset, .. } => offset,
            _ => 0,
        }
    }

    /// Returns the imm field of the instruction's first slot, 0 where it is unused.
    fn imm(self) -> i32
        ensures { result ≡ (fields_of self).imm }
    {
        match self {
            Insn::Alu { operand, .. }
            | Insn::Mov { operand, .. }
            | Insn::JumpIf { operand, .. }
            | Insn::Store { operand, .. } => operand.imm(),
            Insn::Swap { size, .. } => size.bits(),
            Insn::LongJump { offset } => offset,
            Insn::LoadImm { value, .. } => low_half(value),
            Insn::Call { helper } => helper,
            _ => 0,
        }
    }

    /// Returns the fields of the instruction's first slot; those that it doesn't use are zero.
    pub(crate) fn fields(self) -> Fields
        ensures value { result ≡ fields_of self }
        ensures room { HaveRoom result }
        ensures fits { Fits self }
    {
        Fields {
            opcode: self.opcode().byte(),
            dst: self.dst(),
            src: self.src(),
            offset: self.offset(),
            imm: self.imm(),
        }
    }
}
