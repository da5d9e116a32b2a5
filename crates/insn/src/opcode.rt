//! The opcode, a slot's first byte (RFC 9669, section 3.1).

ghost use Rattle.std.specs.Prelude.{◌≡◌, ◌≢◌, ◌%◌, Some, IfSome};
ghost use Rattle.insn.specs.Codes.{alu_code, alu_class, jump_class, store_class};
ghost use Rattle.insn.specs.Opcode.{source_bit, byte_of};
ghost use Rattle.insn.specs.declared.operator.SwapOp.{SwapOp};
ghost use Rattle.insn.specs.declared.opcode.Opcode.TheVariants.{Swap};

use crate::condition::Condition;
use crate::operator::SwapOp;
use crate::size::{SignedSize, Size};
use crate::width::Width;

/// The source of the second operand: the bit above the class.
#[derive(Clone, Copy, Debug, PartialEq, Eq)]
pub enum OperandSource {
    /// `K`: the imm field.
    Imm,
    /// `X`: the src register.
    Reg,
}

/// An arithmetic code with two operands. Two operators share `DIV`, and two share `MOD`: the offset field chooses.
#[derive(Clone, Copy, Debug, PartialEq, Eq)]
pub enum AluCode {
    Add,
    Sub,
    Mul,
    Div,
    Or,
    And,
    Lsh,
    Rsh,
    Mod,
    Xor,
    Arsh,
}

/// The meaning of a slot's first byte.
#[derive(Clone, Copy, Debug, PartialEq, Eq)]
pub enum Opcode {
    /// Arithmetic with two operands, classes `ALU` and `ALU64`.
    Alu(Width, AluCode, OperandSource),
    /// `MOV` and `MOVSX`.
    Mov(Width, OperandSource),
    /// `NEG`.
    Neg(Width),
    /// `END`.
    Swap(SwapOp),
    /// `JA`, with the distance in the offset field (class `JMP`) or in the imm field (class `JMP32`).
    Jump(Width),
    /// A conditional jump, classes `JMP` and `JMP32`.
    JumpIf(Width, Condition, OperandSource),
    /// `CALL` of class `JMP`, by the number of a helper.
    Call,
    /// `EXIT` of class `JMP`.
    Exit,
    /// `MEM` of class `LDX`.
    Load(Size),
    /// `MEMSX` of class `LDX`.
    LoadSigned(SignedSize),
    /// `MEM` of class `ST` or `STX`.
    Store(Size, OperandSource),
    /// `IMM` of class `LD`, in two slots.
    LoadImm,
}

const CLASS_LDX: u8 = 0x1;

const CLASS_ST: u8 = 0x2;

const CLASS_STX: u8 = 0x3;

const CLASS_ALU: u8 = 0x4;

const CLASS_JMP: u8 = 0x5;

const CLASS_JMP32: u8 = 0x6;

const CLASS_ALU64: u8 = 0x7;
/// The code of `MOV`, the four high bits.
const CODE_MOV: u8 = 0xb;
/// The code of `NEG`, the four high bits.
const CODE_NEG: u8 = 0x8;

const OPCODE_LE: u8 = 0xd4;

const OPCODE_BE: u8 = 0xdc;

const OPCODE_SWAP: u8 = 0xd7;

const OPCODE_CALL: u8 = 0x85;

const OPCODE_EXIT: u8 = 0x95;

const OPCODE_LDDW: u8 = 0x18;
/// The mode `MEM`, the three high bits.
const MODE_MEM: u8 = 3;
/// The mode `MEMSX`, the three high bits.
const MODE_MEMSX: u8 = 4;

impl OperandSource {
    fn bit(self) -> u8
        ensures { result ≡ source_bit self }
    {
        match self {
            OperandSource::Imm => 0,
            OperandSource::Reg => 1,
        }
    }

    fn from_bit(bit: u8) -> Option<OperandSource>
        ensures found { IfSome result (λ s. source_bit s ≡ bit) }
        ensures only { (s : OperandSource) → source_bit s ≡ bit → result ≡ Some s }
    {
        match bit {
            0 => Some(OperandSource::Imm),
            1 => Some(OperandSource::Reg),
            _ => None,
        }
    }
}

impl AluCode {
    /// Returns the code, the high four bits of the opcode.
    fn code(self) -> u8
        ensures { result ≡ alu_code self }
    {
        match self {
            AluCode::Add => 0x0,
            AluCode::Sub => 0x1,
            AluCode::Mul => 0x2,
            AluCode::Div => 0x3,
            AluCode::Or => 0x4,
            AluCode::And => 0x5,
            AluCode::Lsh => 0x6,
            AluCode::Rsh => 0x7,
            AluCode::Mod => 0x9,
            AluCode::Xor => 0xa,
            AluCode::Arsh => 0xc,
        }
    }

    fn from_code(code: u8) -> Option<AluCode>
        ensures found { IfSome result (λ c. alu_code c ≡ code) }
        ensures only { (c : AluCode) → alu_code c ≡ code → result ≡ Some c }
    {
        match code {
            0x0 => Some(AluCode::Add),
            0x1 => Some(AluCode::Sub),
            0x2 => Some(AluCode::Mul),
            0x3 => Some(AluCode::Div),
            0x4 => Some(AluCode::Or),
            0x5 => Some(AluCode::And),
            0x6 => Some(AluCode::Lsh),
            0x7 => Some(AluCode::Rsh),
            0x9 => Some(AluCode::Mod),
            0xa => Some(AluCode::Xor),
            0xc => Some(AluCode::Arsh),
            _ => None,
        }
    }
}

fn alu_class(width: Width) -> u8
    ensures { result ≡ alu_class width }
{
    match width {
        Width::W32 => CLASS_ALU,
        Width::W64 => CLASS_ALU64,
    }
}

fn jump_class(width: Width) -> u8
    ensures { result ≡ jump_class width }
{
    match width {
        Width::W32 => CLASS_JMP32,
        Width::W64 => CLASS_JMP,
    }
}

fn store_class(source: OperandSource) -> u8
    ensures { result ≡ store_class source }
{
    match source {
        OperandSource::Imm => CLASS_ST,
        OperandSource::Reg => CLASS_STX,
    }
}

impl Opcode {
    /// Returns the byte of the opcode.
    pub fn byte(self) -> u8
        ensures { result ≡ byte_of self }
    {
        match self {
            Opcode::Alu(width, code, source) => {
                16 * code.code() + 8 * source.bit() + alu_class(width)
            }
            Opcode::Mov(width, source) => 16 * CODE_MOV + 8 * source.bit() + alu_class(width),
            Opcode::Neg(width) => 16 * CODE_NEG + alu_class(width),
            Opcode::Swap(SwapOp::ToLittle) => OPCODE_LE,
            Opcode::Swap(SwapOp::ToBig) => OPCODE_BE,
            Opcode::Swap(SwapOp::Reverse) => OPCODE_SWAP,
            Opcode::Jump(width) => jump_class(width),
            Opcode::JumpIf(width, condition, source) => {
                16 * condition.code() + 8 * source.bit() + jump_class(width)
            }
            Opcode::Call => OPCODE_CALL,
            Opcode::Exit => OPCODE_EXIT,
            Opcode::Load(size) => 32 * MODE_MEM + 8 * size.code() + CLASS_LDX,
            Opcode::LoadSigned(size) => 32 * MODE_MEMSX + 8 * size.unsigned().code() + CLASS_LDX,
            Opcode::Store(size, source) => 32 * MODE_MEM + 8 * size.code() + store_class(source),
            Opcode::LoadImm => OPCODE_LDDW,
        }
    }

    /// Returns the opcode of a byte, `None` for a byte that is no opcode.
    pub fn from_byte(byte: u8) -> Option<Opcode>
        ensures found { IfSome result (λ o. byte_of o ≡ byte) }
        ensures only { (o : Opcode) → byte_of o ≡ byte → result ≡ Some o }
    {
        match byte % 8 {
            CLASS_ALU => Opcode::alu_of(byte, Width::W32),
            CLASS_ALU64 => Opcode::alu_of(byte, Width::W64),
            CLASS_JMP => Opcode::jump_of(byte, Width::W64),
            CLASS_JMP32 => Opcode::jump_of(byte, Width::W32),
            CLASS_LDX => Opcode::load_of(byte),
            CLASS_ST => Opcode::store_of(byte, OperandSource::Imm),
            CLASS_STX => Opcode::store_of(byte, OperandSource::Reg),
            _ => {
                if byte == OPCODE_LDDW {
                    Some(Opcode::LoadImm)
                } else {
                    None
                }
            }
        }
    }

    fn alu_of(byte: u8, width: Width) -> Option<Opcode>
        requires { byte % 8 ≡ alu_class width }
        ensures found { IfSome result (λ o. byte_of o ≡ byte) }
        ensures only { (o : Opcode) → byte_of o ≡ byte → result ≡ Some o }
    {
        match byte {
            OPCODE_LE => Some(Opcode::Swap(SwapOp::ToLittle)),
            OPCODE_BE => Some(Opcode::Swap(SwapOp::ToBig)),
            OPCODE_SWAP => Some(Opcode::Swap(SwapOp::Reverse)),
            _ => Opcode::operator_of(byte, width),
        }
    }

    fn operator_of(byte: u8, width: Width) -> Option<Opcode>
        requires class { byte % 8 ≡ alu_class width }
        requires swaps_nothing { (op : SwapOp) → byte_of (Swap op) ≢ byte }
        ensures found { IfSome result (λ o. byte_of o ≡ byte) }
        ensures only { (o : Opcode) → byte_of o ≡ byte → result ≡ Some o }
    {
        let source = OperandSource::from_bit(byte / 8 % 2)?;
        match byte / 16 {
            CODE_MOV => Some(Opcode::Mov(width, source)),
            CODE_NEG => match source {
                OperandSource::Imm => Some(Opcode::Neg(width)),
                OperandSource::Reg => None,
            },
            code => {
                let code = AluCode::from_code(code)?;
                Some(Opcode::Alu(width, code, source))
            }
        }
    }

    fn jump_of(byte: u8, width: Width) -> Option<Opcode>
        requires { byte % 8 ≡ jump_class width }
        ensures found { IfSome result (λ o. byte_of o ≡ byte) }
        ensures only { (o : Opcode) → byte_of o ≡ byte → result ≡ Some o }
    {
        if byte / 8 == 0 {
            return Some(Opcode::Jump(width));
        }
        if byte == OPCODE_CALL {
            return Some(Opcode::Call);
        }
        if byte == OPCODE_EXIT {
            return Some(Opcode::Exit);
        }
        let source = OperandSource::from_bit(byte / 8 % 2)?;
        let condition = Condition::from_code(byte / 16)?;
        Some(Opcode::JumpIf(width, condition, source))
    }

    fn load_of(byte: u8) -> Option<Opcode>
        requires { byte % 8 ≡ 1 }
        ensures found { IfSome result (λ o. byte_of o ≡ byte) }
        ensures only { (o : Opcode) → byte_of o ≡ byte → result ≡ Some o }
    {
        let size = Size::from_code(byte / 8 % 4)?;
        match byte / 32 {
            MODE_MEM => Some(Opcode::Load(size)),
            MODE_MEMSX => Some(Opcode::LoadSigned(SignedSize::of(size)?)),
            _ => None,
        }
    }

    fn store_of(byte: u8, source: OperandSource) -> Option<Opcode>
        requires { byte % 8 ≡ store_class source }
        ensures found { IfSome result (λ o. byte_of o ≡ byte) }
        ensures only { (o : Opcode) → byte_of o ≡ byte → result ≡ Some o }
    {
        let size = Size::from_code(byte / 8 % 4)?;
        match byte / 32 {
            MODE_MEM => Some(Opcode::Store(size, source)),
            _ => None,
        }
    }
}
