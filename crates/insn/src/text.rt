//! The fixed spelling of an instruction: one space after the mnemonic, `, ` between operands, decimal numbers, and a
//! sign before each jump distance and each displacement. A disassembly and a trace both write it.

ghost use Rattle.std.specs.Prelude.{Some, codes};
ghost use Rattle.insn.specs.Spelling as spelled;
ghost use Rattle.insn.specs.Spelling.{width_suffix, operator_name, extension_name, order_name, bits_suffix, condition_name, size_suffix, store_name, register_name, with_sign, argument_text, argument_of, mnemonic, arguments, following_arguments, spelling};

use crate::condition::Condition;
use crate::instruction::{Insn, Operand};
use crate::operator::{AluOp, Extension, SwapOp};
use crate::register::Reg;
use crate::size::{Size, SwapSize};
use crate::width::Width;
use itoa::Buffer;
use std::fmt;

impl fmt::Display for Reg {
    ghost output = { λ r. Some (register_name r) };

    fn fmt<W: fmt::Write>(&self, f: &mut fmt::Formatter<W>) -> fmt::Result {
        let number = self.number();
        write!(f, "r{number}")
    }
}

impl fmt::Display for Operand {
    ghost output = { λ o. Some (argument_text (argument_of o)) };

    fn fmt<W: fmt::Write>(&self, f: &mut fmt::Formatter<W>) -> fmt::Result {
        match self {
            Operand::Reg(r) => write!(f, "{r}"),
            Operand::Imm(n) => f.write_str(Buffer::new().format(*n)),
        }
    }
}

/// A displacement or a jump distance: a decimal number with its sign.
#[derive(Clone, Copy)]
struct SignedDecimal(i32);

impl fmt::Display for SignedDecimal {
    ghost output = { λ s. Some (with_sign s.0) };

    fn fmt<W: fmt::Write>(&self, f: &mut fmt::Formatter<W>) -> fmt::Result {
        if self.0 >= 0 {
            f.write_str("+")?;
        }
        f.write_str(Buffer::new().format(self.0))
    }
}

/// The suffix of the mnemonic of an operation of this width.
impl fmt::Display for Width {
    ghost output = { λ w. Some (width_suffix w) };

    fn fmt<W: fmt::Write>(&self, f: &mut fmt::Formatter<W>) -> fmt::Result {
        f.write_str(match self {
            Width::W32 => ".32",
            Width::W64 => "",
        })
    }
}

impl fmt::Display for AluOp {
    ghost output = { λ op. Some (operator_name op) };

    fn fmt<W: fmt::Write>(&self, f: &mut fmt::Formatter<W>) -> fmt::Result {
        f.write_str(match self {
            AluOp::Add => "add",
            AluOp::Sub => "sub",
            AluOp::Mul => "mul",
            AluOp::Div => "div",
            AluOp::SignedDiv => "sdiv",
            AluOp::Or => "or",
            AluOp::And => "and",
            AluOp::Lsh => "lsh",
            AluOp::Rsh => "rsh",
            AluOp::Mod => "mod",
            AluOp::SignedMod => "smod",
            AluOp::Xor => "xor",
            AluOp::Arsh => "arsh",
        })
    }
}

impl fmt::Display for Extension {
    ghost output = { λ e. Some (extension_name e) };

    fn fmt<W: fmt::Write>(&self, f: &mut fmt::Formatter<W>) -> fmt::Result {
        f.write_str(match self {
            Extension::ByteTo32 => "movsx8.32",
            Extension::HalfTo32 => "movsx16.32",
            Extension::ByteTo64 => "movsx8",
            Extension::HalfTo64 => "movsx16",
            Extension::WordTo64 => "movsx32",
        })
    }
}

impl fmt::Display for SwapOp {
    ghost output = { λ op. Some (order_name op) };

    fn fmt<W: fmt::Write>(&self, f: &mut fmt::Formatter<W>) -> fmt::Result {
        f.write_str(match self {
            SwapOp::ToLittle => "le",
            SwapOp::ToBig => "be",
            SwapOp::Reverse => "swap",
        })
    }
}

/// The number of bits, after the mnemonic of a byte swap.
impl fmt::Display for SwapSize {
    ghost output = { λ size. Some (bits_suffix size) };

    fn fmt<W: fmt::Write>(&self, f: &mut fmt::Formatter<W>) -> fmt::Result {
        f.write_str(match self {
            SwapSize::Half => "16",
            SwapSize::Word => "32",
            SwapSize::Double => "64",
        })
    }
}

impl fmt::Display for Condition {
    ghost output = { λ c. Some (condition_name c) };

    fn fmt<W: fmt::Write>(&self, f: &mut fmt::Formatter<W>) -> fmt::Result {
        f.write_str(match self {
            Condition::Eq => "jeq",
            Condition::Gt => "jgt",
            Condition::Ge => "jge",
            Condition::Set => "jset",
            Condition::Ne => "jne",
            Condition::SignedGt => "jsgt",
            Condition::SignedGe => "jsge",
            Condition::Lt => "jlt",
            Condition::Le => "jle",
            Condition::SignedLt => "jslt",
            Condition::SignedLe => "jsle",
        })
    }
}

/// The suffix of the mnemonic of a load or a store of this size.
impl fmt::Display for Size {
    ghost output = { λ size. Some (size_suffix size) };

    fn fmt<W: fmt::Write>(&self, f: &mut fmt::Formatter<W>) -> fmt::Result {
        f.write_str(match self {
            Size::Word => "w",
            Size::Half => "h",
            Size::Byte => "b",
            Size::Double => "dw",
        })
    }
}

/// An address in memory: the one in a register, and a displacement from it.
#[derive(Clone, Copy)]
struct Address {
    base: Reg,
    displacement: i16,
}

impl fmt::Display for Address {
    ghost output = { λ a. Some (argument_text (spelled.Address a.base a.displacement)) };

    fn fmt<W: fmt::Write>(&self, f: &mut fmt::Formatter<W>) -> fmt::Result {
        let base = self.base;
        let displacement = SignedDecimal(i32::from(self.displacement));
        write!(f, "[{base}{displacement}]")
    }
}

/// The mnemonic of an instruction.
#[derive(Clone, Copy)]
struct MnemonicText<'a>(&'a Insn);

impl fmt::Display for MnemonicText<'_> {
    ghost output = { λ m. Some (mnemonic m.0.now) };

    fn fmt<W: fmt::Write>(&self, f: &mut fmt::Formatter<W>) -> fmt::Result {
        match self.0 {
            Insn::Alu { width, op, .. } => write!(f, "{op}{width}"),
            Insn::Mov { width, .. } => write!(f, "mov{width}"),
            Insn::Neg { width, .. } => write!(f, "neg{width}"),
            Insn::SignExtend { extension, .. } => write!(f, "{extension}"),
            Insn::Swap { op, size, .. } => write!(f, "{op}{size}"),
            Insn::Jump { .. } => f.write_str("ja"),
            Insn::LongJump { .. } => f.write_str("ja.32"),
            Insn::JumpIf {
                width,
                condition,
                ..
            } => write!(f, "{condition}{width}"),
            Insn::Load { size, .. } => write!(f, "ldx{size}"),
            Insn::LoadSigned { size, .. } => {
                let size = size.unsigned();
                write!(f, "ldxs{size}")
            }
            Insn::Store {
                size,
                operand: Operand::Imm(_),
                ..
            } => write!(f, "st{size}"),
            Insn::Store {
                size,
                operand: Operand::Reg(_),
                ..
            } => write!(f, "stx{size}"),
            Insn::LoadImm { .. } => f.write_str("lddw"),
            Insn::Call { .. } => f.write_str("call"),
            Insn::Exit => f.write_str("exit"),
        }
    }
}

/// The arguments of an instruction: a space before the first, and `, ` before each other one.
#[derive(Clone, Copy)]
struct Arguments<'a>(&'a Insn);

impl fmt::Display for Arguments<'_> {
    ghost output = { λ a. Some (following_arguments (codes " ") (arguments a.0.now)) };

    fn fmt<W: fmt::Write>(&self, f: &mut fmt::Formatter<W>) -> fmt::Result {
        match *self.0 {
            Insn::Alu { dst, operand, .. } | Insn::Mov { dst, operand, .. } => {
                write!(f, " {dst}, {operand}")
            }
            Insn::Neg { dst, .. } | Insn::Swap { dst, .. } => write!(f, " {dst}"),
            Insn::SignExtend { dst, src, .. } => write!(f, " {dst}, {src}"),
            Insn::Jump { offset } => {
                let distance = SignedDecimal(i32::from(offset));
                write!(f, " {distance}")
            }
            Insn::LongJump { offset } => {
                let distance = SignedDecimal(offset);
                write!(f, " {distance}")
            }
            Insn::JumpIf {
                dst,
                operand,
                offset,
                ..
            } => {
                let distance = SignedDecimal(i32::from(offset));
                write!(f, " {dst}, {operand}, {distance}")
            }
            Insn::Load {
                dst,
                base,
                offset,
                ..
            }
            | Insn::LoadSigned {
                dst,
                base,
                offset,
                ..
            } => {
                let address = Address {
                    base,
                    displacement: offset,
                };
                write!(f, " {dst}, {address}")
            }
            Insn::Store {
                base,
                operand,
                offset,
                ..
            } => {
                let address = Address {
                    base,
                    displacement: offset,
                };
                write!(f, " {address}, {operand}")
            }
            Insn::LoadImm { dst, value } => write!(f, " {dst}, {value}"),
            Insn::Call { helper } => write!(f, " {helper}"),
            Insn::Exit => Ok(()),
        }
    }
}

impl fmt::Display for Insn {
    ghost output = { λ i. Some (spelling i) };

    fn fmt<W: fmt::Write>(&self, f: &mut fmt::Formatter<W>) -> fmt::Result {
        let mnemonic = MnemonicText(self);
        let arguments = Arguments(self);
        write!(f, "{mnemonic}{arguments}")
    }
}
