//! What a line says: nothing, a label, or an instruction.

ghost use Rattle.std.specs.Prelude.{FitsSigned};
ghost use Rattle.std.specs.Int.{w16, w32};
ghost use Rattle.insn.specs.Encoding.{OperandFits};
ghost use Rattle.insn.specs.declared.instruction.Insn.TheVariants.{Alu, Mov, Load, LoadSigned};
ghost use Rattle.asm.specs.Reading as reading;
ghost use Rattle.asm.specs.Reading.{line_statement};
ghost use Rattle.asm.specs.Parsing.{tokens_ahead, parsed_operand, parsed_address, target_value, link_value, Converts, Reads, ReadsAll, Understands, UnderstandsLine};

use crate::mnemonic::Mnemonic;
use crate::parser::{Parser, WrittenAddress, WrittenOperand, WrittenTarget, is_name};
use crate::refusal::LineError;
use insn::{AluOp, Condition, Extension, Insn, Operand, Reg, SignedSize, Size, Width};

/// What a line says.
#[derive(Clone, Copy)]
pub(crate) enum Line<'a> {
    /// Nothing.
    Empty,
    /// A label, of the instruction that follows.
    Label(&'a [u8]),
    /// An instruction. A jump to a label has the distance 0, and the label.
    Insn(Insn, Option<&'a [u8]>),
}

impl<'a> WrittenOperand<'a> {
    /// Returns the operand.
    ///
    /// # Errors
    /// `Range` where a number takes more than 32 bits.
    fn operand(self) -> Result<Operand, LineError>
        ensures { Converts (λ o. o) OperandFits (parsed_operand self.entry) result }
    {
        match self {
            WrittenOperand::Reg(r) => Ok(Operand::Reg(r)),
            WrittenOperand::Integer(n) => Ok(Operand::Imm(n.imm()?)),
        }
    }
}

impl<'a> WrittenTarget<'a> {
    /// Returns the distance in 16 bits, or 0 and the label.
    ///
    /// # Errors
    /// `Range` where the distance takes more.
    fn short(self) -> Result<(i16, Option<&'a [u8]>), LineError>
        ensures { Converts link_value (λ t. FitsSigned w16 t.distance) (target_value self.entry) result }
    {
        match self {
            WrittenTarget::Label(name) => Ok((0, Some(name))),
            WrittenTarget::Distance(n) => Ok((n.offset()?, None)),
        }
    }

    /// Returns the distance in 32 bits, or 0 and the label.
    ///
    /// # Errors
    /// `Range` where the distance takes more.
    fn long(self) -> Result<(i32, Option<&'a [u8]>), LineError>
        ensures { Converts link_value (λ t. FitsSigned w32 t.distance) (target_value self.entry) result }
    {
        match self {
            WrittenTarget::Label(name) => Ok((0, Some(name))),
            WrittenTarget::Distance(n) => Ok((n.imm()?, None)),
        }
    }
}

/// The arguments of instructions. Each method reads to the end of the line before it looks at the size of a number.
impl<'a> Parser<'a> {
    /// Reads a register and the comma after it.
    fn dst(&mut self) -> Result<Reg, LineError>
        ensures { Reads reading.dst_comma (λ r. r) self.old result self.new }
    {
        let dst = self.register()?;
        self.sign(b",")?;
        Ok(dst)
    }

    fn alu(mut self, width: Width, op: AluOp) -> Result<Line<'a>, LineError>
        ensures { Understands (reading.two (Alu width op) (tokens_ahead self.entry)) result }
    {
        let dst = self.dst()?;
        let operand = self.operand()?;
        self.end()?;
        let operand = operand.operand()?;
        Ok(Line::Insn(
            Insn::Alu {
                width,
                op,
                dst,
                operand,
            },
            None,
        ))
    }

    fn mov(mut self, width: Width) -> Result<Line<'a>, LineError>
        ensures { Understands (reading.two (Mov width) (tokens_ahead self.entry)) result }
    {
        let dst = self.dst()?;
        let operand = self.operand()?;
        self.end()?;
        let operand = operand.operand()?;
        Ok(Line::Insn(
            Insn::Mov {
                width,
                dst,
                operand,
            },
            None,
        ))
    }

    /// Reads the one register of an instruction.
    fn only_register(mut self) -> Result<Reg, LineError>
        ensures { ReadsAll reading.only_register (λ r. r) (tokens_ahead self.entry) result }
    {
        let dst = self.register()?;
        self.end()?;
        Ok(dst)
    }

    fn sign_extension(mut self, extension: Extension) -> Result<Line<'a>, LineError>
        ensures { Understands (reading.sign_extension extension (tokens_ahead self.entry)) result }
    {
        let dst = self.dst()?;
        let src = self.register()?;
        self.end()?;
        Ok(Line::Insn(
            Insn::SignExtend {
                extension,
                dst,
                src,
            },
            None,
        ))
    }

    /// Reads the target of a jump, up to the end of the line.
    fn only_target(mut self) -> Result<WrittenTarget<'a>, LineError>
        ensures { ReadsAll reading.only_target target_value (tokens_ahead self.entry) result }
    {
        let target = self.target()?;
        self.end()?;
        Ok(target)
    }

    fn jump_if(mut self, width: Width, condition: Condition) -> Result<Line<'a>, LineError>
        ensures { Understands (reading.jump_if width condition (tokens_ahead self.entry)) result }
    {
        let dst = self.dst()?;
        let operand = self.operand()?;
        self.sign(b",")?;
        let target = self.only_target()?;
        let operand = operand.operand()?;
        let (offset, label) = target.short()?;
        Ok(Line::Insn(
            Insn::JumpIf {
                width,
                condition,
                dst,
                operand,
                offset,
            },
            label,
        ))
    }

    /// Reads the register and the address of a load, up to the end of the line.
    fn load_arguments(mut self) -> Result<(Reg, WrittenAddress<'a>), LineError>
        ensures { ReadsAll reading.load_arguments (λ a. (a.0, parsed_address a.1)) (tokens_ahead self.entry) result }
    {
        let dst = self.dst()?;
        let address = self.address()?;
        self.end()?;
        Ok((dst, address))
    }

    fn load(self, size: Size) -> Result<Line<'a>, LineError>
        ensures { Understands (reading.load_statement (Load size) (tokens_ahead self.entry)) result }
    {
        let (dst, address) = self.load_arguments()?;
        let base = address.base;
        let offset = address.displacement.offset()?;
        Ok(Line::Insn(
            Insn::Load {
                size,
                dst,
                base,
                offset,
            },
            None,
        ))
    }

    fn load_signed(self, size: SignedSize) -> Result<Line<'a>, LineError>
        ensures { Understands (reading.load_statement (LoadSigned size) (tokens_ahead self.entry)) result }
    {
        let (dst, address) = self.load_arguments()?;
        let base = address.base;
        let offset = address.displacement.offset()?;
        Ok(Line::Insn(
            Insn::LoadSigned {
                size,
                dst,
                base,
                offset,
            },
            None,
        ))
    }

    fn store_imm(mut self, size: Size) -> Result<Line<'a>, LineError>
        ensures { Understands (reading.store_imm size (tokens_ahead self.entry)) result }
    {
        let address = self.address()?;
        self.sign(b",")?;
        let number = self.integer()?;
        self.end()?;
        let base = address.base;
        let offset = address.displacement.offset()?;
        let operand = Operand::Imm(number.imm()?);
        Ok(Line::Insn(
            Insn::Store {
                size,
                base,
                operand,
                offset,
            },
            None,
        ))
    }

    fn store_register(mut self, size: Size) -> Result<Line<'a>, LineError>
        ensures { Understands (reading.store_register size (tokens_ahead self.entry)) result }
    {
        let address = self.address()?;
        self.sign(b",")?;
        let operand = Operand::Reg(self.register()?);
        self.end()?;
        let base = address.base;
        let offset = address.displacement.offset()?;
        Ok(Line::Insn(
            Insn::Store {
                size,
                base,
                operand,
                offset,
            },
            None,
        ))
    }

    fn load_number(mut self) -> Result<Line<'a>, LineError>
        ensures { Understands (reading.load_number (tokens_ahead self.entry)) result }
    {
        let dst = self.dst()?;
        let number = self.number()?;
        self.end()?;
        let value = number.value()?;
        Ok(Line::Insn(Insn::LoadImm { dst, value }, None))
    }

    fn call(mut self) -> Result<Line<'a>, LineError>
        ensures { Understands (reading.call (tokens_ahead self.entry)) result }
    {
        let number = self.integer()?;
        self.end()?;
        let helper = number.imm()?;
        Ok(Line::Insn(Insn::Call { helper }, None))
    }

    /// Reads the arguments of a mnemonic.
    fn instruction(mut self, mnemonic: Mnemonic) -> Result<Line<'a>, LineError>
        ensures { Understands (reading.instruction mnemonic (tokens_ahead self.entry)) result }
    {
        match mnemonic {
            Mnemonic::Alu(width, op) => self.alu(width, op),
            Mnemonic::Mov(width) => self.mov(width),
            Mnemonic::Neg(width) => {
                let dst = self.only_register()?;
                Ok(Line::Insn(Insn::Neg { width, dst }, None))
            }
            Mnemonic::SignExtend(extension) => self.sign_extension(extension),
            Mnemonic::Swap(op, size) => {
                let dst = self.only_register()?;
                Ok(Line::Insn(Insn::Swap { op, size, dst }, None))
            }
            Mnemonic::Jump => {
                let (offset, label) = self.only_target()?.short()?;
                Ok(Line::Insn(Insn::Jump { offset }, label))
            }
            Mnemonic::LongJump => {
                let (offset, label) = self.only_target()?.long()?;
                Ok(Line::Insn(Insn::LongJump { offset }, label))
            }
            Mnemonic::JumpIf(width, condition) => self.jump_if(width, condition),
            Mnemonic::Load(size) => self.load(size),
            Mnemonic::LoadSigned(size) => self.load_signed(size),
            Mnemonic::StoreImm(size) => self.store_imm(size),
            Mnemonic::StoreReg(size) => self.store_register(size),
            Mnemonic::LoadImm => self.load_number(),
            Mnemonic::Call => self.call(),
            Mnemonic::Exit => {
                self.end()?;
                Ok(Line::Insn(Insn::Exit, None))
            }
        }
    }

    /// Reads an instruction after its first word.
    fn statement(self, word: &[u8]) -> Result<Line<'a>, LineError>
        ensures { Understands (reading.statement word.now (tokens_ahead self.entry)) result }
    {
        let mnemonic = Mnemonic::named(word).ok_or(LineError::Syntax)?;
        self.instruction(mnemonic)
    }

    /// Reads a label after its name and the colon.
    fn label(mut self, name: &'a [u8]) -> Result<Line<'a>, LineError>
        ensures { Understands (reading.label name.now (tokens_ahead self.entry)) result }
    {
        if !is_name(name) {
            return Err(LineError::Syntax);
        }
        self.end()?;
        Ok(Line::Label(name))
    }
}

/// Parses a line.
///
/// # Errors
/// `Syntax` where the line is not in the grammar, `Range` where it is and a number of it does not fit its field.
pub(crate) fn parse(line: &[u8]) -> Result<Line<'_>, LineError>
    ensures { UnderstandsLine (line_statement line.now) result }
{
    let mut parser = Parser::new(line);
    let Some(word) = parser.next() else {
        return Ok(Line::Empty);
    };
    let mut after = parser;
    if after.sign(b":").is_ok() {
        after.label(word)
    } else {
        parser.statement(word)
    }
}
