//! The mnemonics of instructions.

ghost use Rattle.std.specs.Prelude.{◌≡◌};
ghost use Rattle.asm.specs.Reading.{operator_named, condition_named, mnemonic_among, conversion_mnemonics, control_mnemonics, memory_mnemonics, of_width, mnemonic_named};

use insn::{AluOp, Condition, Extension, SignedSize, Size, SwapOp, SwapSize, Width};

/// What a mnemonic says of its instruction: all but the arguments.
#[derive(Clone, Copy)]
pub(crate) enum Mnemonic {
    Alu(Width, AluOp),
    Mov(Width),
    Neg(Width),
    SignExtend(Extension),
    Swap(SwapOp, SwapSize),
    Jump,
    LongJump,
    JumpIf(Width, Condition),
    Load(Size),
    LoadSigned(SignedSize),
    StoreImm(Size),
    StoreReg(Size),
    LoadImm,
    Call,
    Exit,
}

/// Returns the operator of a name.
fn operator(name: &[u8]) -> Option<AluOp>
    ensures { result ≡ operator_named name.now }
{
    match name {
        b"add" => Some(AluOp::Add),
        b"sub" => Some(AluOp::Sub),
        b"mul" => Some(AluOp::Mul),
        b"div" => Some(AluOp::Div),
        b"sdiv" => Some(AluOp::SignedDiv),
        b"or" => Some(AluOp::Or),
        b"and" => Some(AluOp::And),
        b"lsh" => Some(AluOp::Lsh),
        b"rsh" => Some(AluOp::Rsh),
        b"mod" => Some(AluOp::Mod),
        b"smod" => Some(AluOp::SignedMod),
        b"xor" => Some(AluOp::Xor),
        b"arsh" => Some(AluOp::Arsh),
        _ => None,
    }
}

/// Returns the condition of a name.
fn condition(name: &[u8]) -> Option<Condition>
    ensures { result ≡ condition_named name.now }
{
    match name {
        b"jeq" => Some(Condition::Eq),
        b"jgt" => Some(Condition::Gt),
        b"jge" => Some(Condition::Ge),
        b"jset" => Some(Condition::Set),
        b"jne" => Some(Condition::Ne),
        b"jsgt" => Some(Condition::SignedGt),
        b"jsge" => Some(Condition::SignedGe),
        b"jlt" => Some(Condition::Lt),
        b"jle" => Some(Condition::Le),
        b"jslt" => Some(Condition::SignedLt),
        b"jsle" => Some(Condition::SignedLe),
        _ => None,
    }
}

/// Returns the mnemonic of an operation of this width, by its name without the suffix of the width.
fn of_width(name: &[u8], width: Width) -> Option<Mnemonic>
    ensures { result ≡ of_width width name.now }
{
    if name == b"mov".as_slice() {
        return Some(Mnemonic::Mov(width));
    }
    if name == b"neg".as_slice() {
        return Some(Mnemonic::Neg(width));
    }
    if let Some(op) = operator(name) {
        return Some(Mnemonic::Alu(width, op));
    }
    let condition = condition(name)?;
    Some(Mnemonic::JumpIf(width, condition))
}

/// Returns the mnemonic of a name, where it is that of a sign extension or a byte swap.
fn conversion(name: &[u8]) -> Option<Mnemonic>
    ensures { result ≡ mnemonic_among conversion_mnemonics name.now }
{
    match name {
        b"movsx8.32" => Some(Mnemonic::SignExtend(Extension::ByteTo32)),
        b"movsx16.32" => Some(Mnemonic::SignExtend(Extension::HalfTo32)),
        b"movsx8" => Some(Mnemonic::SignExtend(Extension::ByteTo64)),
        b"movsx16" => Some(Mnemonic::SignExtend(Extension::HalfTo64)),
        b"movsx32" => Some(Mnemonic::SignExtend(Extension::WordTo64)),
        b"le16" => Some(Mnemonic::Swap(SwapOp::ToLittle, SwapSize::Half)),
        b"le32" => Some(Mnemonic::Swap(SwapOp::ToLittle, SwapSize::Word)),
        b"le64" => Some(Mnemonic::Swap(SwapOp::ToLittle, SwapSize::Double)),
        b"be16" => Some(Mnemonic::Swap(SwapOp::ToBig, SwapSize::Half)),
        b"be32" => Some(Mnemonic::Swap(SwapOp::ToBig, SwapSize::Word)),
        b"be64" => Some(Mnemonic::Swap(SwapOp::ToBig, SwapSize::Double)),
        b"swap16" => Some(Mnemonic::Swap(SwapOp::Reverse, SwapSize::Half)),
        b"swap32" => Some(Mnemonic::Swap(SwapOp::Reverse, SwapSize::Word)),
        b"swap64" => Some(Mnemonic::Swap(SwapOp::Reverse, SwapSize::Double)),
        _ => None,
    }
}

/// Returns the mnemonic of a name, where it is that of an unconditional jump, a call or an exit.
fn control(name: &[u8]) -> Option<Mnemonic>
    ensures { result ≡ mnemonic_among control_mnemonics name.now }
{
    match name {
        b"ja" => Some(Mnemonic::Jump),
        b"ja.32" => Some(Mnemonic::LongJump),
        b"call" => Some(Mnemonic::Call),
        b"exit" => Some(Mnemonic::Exit),
        _ => None,
    }
}

/// Returns the mnemonic of a name, where it is a load or a store.
fn memory(name: &[u8]) -> Option<Mnemonic>
    ensures { result ≡ mnemonic_among memory_mnemonics name.now }
{
    match name {
        b"ldxb" => Some(Mnemonic::Load(Size::Byte)),
        b"ldxh" => Some(Mnemonic::Load(Size::Half)),
        b"ldxw" => Some(Mnemonic::Load(Size::Word)),
        b"ldxdw" => Some(Mnemonic::Load(Size::Double)),
        b"ldxsb" => Some(Mnemonic::LoadSigned(SignedSize::Byte)),
        b"ldxsh" => Some(Mnemonic::LoadSigned(SignedSize::Half)),
        b"ldxsw" => Some(Mnemonic::LoadSigned(SignedSize::Word)),
        b"stb" => Some(Mnemonic::StoreImm(Size::Byte)),
        b"sth" => Some(Mnemonic::StoreImm(Size::Half)),
        b"stw" => Some(Mnemonic::StoreImm(Size::Word)),
        b"stdw" => Some(Mnemonic::StoreImm(Size::Double)),
        b"stxb" => Some(Mnemonic::StoreReg(Size::Byte)),
        b"stxh" => Some(Mnemonic::StoreReg(Size::Half)),
        b"stxw" => Some(Mnemonic::StoreReg(Size::Word)),
        b"stxdw" => Some(Mnemonic::StoreReg(Size::Double)),
        b"lddw" => Some(Mnemonic::LoadImm),
        _ => None,
    }
}

impl Mnemonic {
    /// Returns the mnemonic of a name, `None` where no instruction has that name.
    pub(crate) fn named(name: &[u8]) -> Option<Mnemonic>
        ensures { result ≡ mnemonic_named name.now }
    {
        if let Some(found) = conversion(name) {
            return Some(found);
        }
        if let Some(found) = control(name) {
            return Some(found);
        }
        if let Some(found) = memory(name) {
            return Some(found);
        }
        match name.strip_suffix(b".32") {
            Some(base) => of_width(base, Width::W32),
            None => of_width(name, Width::W64),
        }
    }
}
