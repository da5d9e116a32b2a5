//! The arithmetic operators (RFC 9669, sections 4.1 and 4.2).

ghost use Rattle.std.specs.Prelude.{◌≡◌};
ghost use Rattle.insn.specs.Words.{target_of, extended_of};
ghost use Rattle.insn.specs.Codes.{code_of, offset_of, extension_offset};
ghost use Rattle.insn.specs.Forms.{operator, extension};

use crate::opcode::AluCode;
use crate::size::{SignedSize, SwapSize};
use crate::width::Width;

/// An operator with two operands.
/// See docs/DESIGN.md, "Operators and their codes".
#[derive(Clone, Copy, Debug, PartialEq, Eq)]
pub enum AluOp {
    /// `dst += operand`
    Add,
    /// `dst -= operand`
    Sub,
    /// `dst *= operand`
    Mul,
    /// `dst /= operand`, unsigned; 0 where the operand is 0
    Div,
    /// `dst /= operand`, signed, towards zero; 0 where the operand is 0
    SignedDiv,
    /// `dst |= operand`
    Or,
    /// `dst &= operand`
    And,
    /// `dst <<= operand`; the count is taken modulo the width
    Lsh,
    /// `dst >>= operand`, unsigned; the count is taken modulo the width
    Rsh,
    /// `dst %= operand`, unsigned; `dst` where the operand is 0
    Mod,
    /// `dst %= operand`, signed, with the sign of `dst`; `dst` where the operand is 0
    SignedMod,
    /// `dst ^= operand`
    Xor,
    /// `dst >>= operand`, signed; the count is taken modulo the width
    Arsh,
}

/// An operator with one operand.
/// See docs/DESIGN.md, "One operand, one type".
#[derive(Clone, Copy, Debug, PartialEq, Eq)]
pub enum UnaryOp {
    /// `MOV`: the operand.
    Mov(Width),
    /// `NEG`: 0 minus the operand.
    Neg(Width),
    /// `MOVSX`: the low bits of the operand, sign-extended.
    SignExtend(Extension),
    /// `END`: the low bytes of the operand, in another order.
    Swap(SwapOp, SwapSize),
}

/// A sign extension: from how many bits, and to how many.
#[derive(Clone, Copy, Debug, PartialEq, Eq)]
pub enum Extension {
    /// `movsx8.32`
    ByteTo32,
    /// `movsx16.32`
    HalfTo32,
    /// `movsx8`
    ByteTo64,
    /// `movsx16`
    HalfTo64,
    /// `movsx32`
    WordTo64,
}

/// A conversion of the byte order. The machine is little-endian.
/// See docs/DECISIONS.md, "Byte swaps use their own size".
#[derive(Clone, Copy, Debug, PartialEq, Eq)]
pub enum SwapOp {
    /// `le`: to little-endian, which leaves the low bytes as they are.
    ToLittle,
    /// `be`: to big-endian, which reverses the low bytes.
    ToBig,
    /// `swap`: reverses the low bytes.
    Reverse,
}

impl AluOp {
    /// Returns the code of the operator.
    pub(crate) fn code(self) -> AluCode
        ensures { result ≡ code_of self }
    {
        match self {
            AluOp::Add => AluCode::Add,
            AluOp::Sub => AluCode::Sub,
            AluOp::Mul => AluCode::Mul,
            AluOp::Div | AluOp::SignedDiv => AluCode::Div,
            AluOp::Or => AluCode::Or,
            AluOp::And => AluCode::And,
            AluOp::Lsh => AluCode::Lsh,
            AluOp::Rsh => AluCode::Rsh,
            AluOp::Mod | AluOp::SignedMod => AluCode::Mod,
            AluOp::Xor => AluCode::Xor,
            AluOp::Arsh => AluCode::Arsh,
        }
    }

    /// Returns the offset field of the operator: 1 where it is signed.
    pub(crate) fn offset(self) -> i16
        ensures { result ≡ offset_of self }
    {
        match self {
            AluOp::SignedDiv | AluOp::SignedMod => 1,
            _ => 0,
        }
    }

    /// Returns the operator of a code and an offset field, of which 1 chooses the signed one.
    pub(crate) fn chosen(code: AluCode, offset: i16) -> AluOp
        ensures { result ≡ operator code offset }
    {
        match code {
            AluCode::Add => AluOp::Add,
            AluCode::Sub => AluOp::Sub,
            AluCode::Mul => AluOp::Mul,
            AluCode::Div => if offset == 1 {
                AluOp::SignedDiv
            } else {
                AluOp::Div
            },
            AluCode::Or => AluOp::Or,
            AluCode::And => AluOp::And,
            AluCode::Lsh => AluOp::Lsh,
            AluCode::Rsh => AluOp::Rsh,
            AluCode::Mod => if offset == 1 {
                AluOp::SignedMod
            } else {
                AluOp::Mod
            },
            AluCode::Xor => AluOp::Xor,
            AluCode::Arsh => AluOp::Arsh,
        }
    }
}

impl Extension {
    /// Returns the size of what is extended.
    pub fn source(self) -> SignedSize
        ensures { result ≡ extended_of self }
    {
        match self {
            Extension::ByteTo32 | Extension::ByteTo64 => SignedSize::Byte,
            Extension::HalfTo32 | Extension::HalfTo64 => SignedSize::Half,
            Extension::WordTo64 => SignedSize::Word,
        }
    }

    /// Returns the width of the result.
    pub fn target(self) -> Width
        ensures { result ≡ target_of self }
    {
        match self {
            Extension::ByteTo32 | Extension::HalfTo32 => Width::W32,
            Extension::ByteTo64 | Extension::HalfTo64 | Extension::WordTo64 => Width::W64,
        }
    }

    /// Returns the offset field of the extension: the number of bits that are extended.
    pub(crate) fn offset(self) -> i16
        ensures { result ≡ extension_offset self }
    {
        match self {
            Extension::ByteTo32 | Extension::ByteTo64 => 8,
            Extension::HalfTo32 | Extension::HalfTo64 => 16,
            Extension::WordTo64 => 32,
        }
    }

    /// Returns the extension to a width that an offset field chooses, if it chooses one.
    pub(crate) fn chosen(width: Width, offset: i16) -> Option<Extension>
        ensures { result ≡ extension width offset }
    {
        match (width, offset) {
            (Width::W32, 8) => Some(Extension::ByteTo32),
            (Width::W32, 16) => Some(Extension::HalfTo32),
            (Width::W64, 8) => Some(Extension::ByteTo64),
            (Width::W64, 16) => Some(Extension::HalfTo64),
            (Width::W64, 32) => Some(Extension::WordTo64),
            _ => None,
        }
    }
}
