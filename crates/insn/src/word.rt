//! Arithmetic and comparisons of words (RFC 9669, sections 4.1 to 4.3).

ghost use Rattle.std.specs.Prelude.{◌≡◌, ◌≤◌, ◌<◌, ◌%◌, ◌^◌, ◌==◌, length, if◌then◌else◌};
ghost use Rattle.std.specs.Int.{w64, cast_unsigned, cast_signed, swap_bytes};
ghost use Rattle.std.specs.Int.RustNames.{int_div, int_rem};
ghost use Rattle.byteorder.specs.Endian.{little_number, little_bytes};
ghost use Rattle.insn.specs.Words.{modulus, cut, imm_word, whole, alu, unary, holds, sign_extended, swap_width};
ghost use mir.Val.{bits};

use crate::condition::Condition;
use crate::operator::{AluOp, SwapOp, UnaryOp};
use crate::size::{SignedSize, SwapSize};
use crate::width::Width;
use byteorder::{ByteOrder, LittleEndian};

/// Divides two signed numbers, towards zero; by 0 the quotient is 0. The least number divided by -1 wraps.
fn signed_div(a: i64, b: i64) -> u64
    ensures { result ≡ if cast_unsigned w64 b == 0 then 0 else cast_unsigned w64 (int_div a b) }
{
    if b == 0 {
        0
    } else {
        a.wrapping_div(b).cast_unsigned()
    }
}

/// Returns the remainder of two signed numbers, which has the sign of the first; by 0 it is the first.
fn signed_mod(a: i64, b: i64) -> u64
    ensures { result ≡ if cast_unsigned w64 b == 0 then cast_unsigned w64 a else cast_unsigned w64 (int_rem a b) }
{
    if b == 0 {
        a.cast_unsigned()
    } else {
        a.wrapping_rem(b).cast_unsigned()
    }
}

/// Applies an operator to two words of a width. The result may have further bits.
fn computed(op: AluOp, width: Width, a: u64, b: u64) -> u64
    requires a { a < modulus width }
    requires b { b < modulus width }
    ensures { cut width result ≡ cut width (whole op width a b) }
{
    let count = (b % u64::from(width.bits())) as u32;
    match op {
        AluOp::Add => a.wrapping_add(b),
        AluOp::Sub => a.wrapping_sub(b),
        AluOp::Mul => a.wrapping_mul(b),
        AluOp::Div => a.checked_div(b).unwrap_or(0),
        AluOp::SignedDiv => signed_div(width.signed(a), width.signed(b)),
        AluOp::Or => a | b,
        AluOp::And => a & b,
        AluOp::Lsh => a << count,
        AluOp::Rsh => a >> count,
        AluOp::Mod => a.checked_rem(b).unwrap_or(a),
        AluOp::SignedMod => signed_mod(width.signed(a), width.signed(b)),
        AluOp::Xor => a ^ b,
        AluOp::Arsh => (width.signed(a) >> count).cast_unsigned(),
    }
}

/// Applies an operator to two words; the operands and the result are taken modulo 2^32 or 2^64.
pub fn alu(op: AluOp, width: Width, a: u64, b: u64) -> u64
    ensures { result ≡ alu op width a b }
{
    width.cut(computed(op, width, width.cut(a), width.cut(b)))
}

/// Returns the low bits of a word, sign-extended to 64 bits.
pub fn sign_extended(size: SignedSize, n: u64) -> u64
    ensures { result ≡ sign_extended size n }
{
    let signed = match size {
        SignedSize::Byte => i64::from(((n % 0x100) as u8).cast_signed()),
        SignedSize::Half => i64::from(((n % 0x1_0000) as u16).cast_signed()),
        SignedSize::Word => i64::from(((n % 0x1_0000_0000) as u32).cast_signed()),
    };
    signed.cast_unsigned()
}

/// Returns the low bytes of a word, in reverse order.
fn reversed(size: SwapSize, n: u64) -> u64
    ensures { result ≡ swap_bytes (swap_width size) (n % 2 ^ bits (swap_width size)) }
{
    match size {
        SwapSize::Half => u64::from(((n % 0x1_0000) as u16).swap_bytes()),
        SwapSize::Word => u64::from(((n % 0x1_0000_0000) as u32).swap_bytes()),
        SwapSize::Double => n.swap_bytes(),
    }
}

/// Returns the low bytes of a word.
fn low_bytes(size: SwapSize, n: u64) -> u64
    ensures { result ≡ n % 2 ^ bits (swap_width size) }
{
    match size {
        SwapSize::Half => n % 0x1_0000,
        SwapSize::Word => n % 0x1_0000_0000,
        SwapSize::Double => n,
    }
}

/// Applies an operator to one word.
pub fn unary(op: UnaryOp, a: u64) -> u64
    ensures { result ≡ unary op a }
{
    match op {
        UnaryOp::Mov(width) => width.cut(a),
        UnaryOp::Neg(width) => width.cut(0_u64.wrapping_sub(width.cut(a))),
        UnaryOp::SignExtend(extension) => {
            extension.target().cut(sign_extended(extension.source(), a))
        }
        UnaryOp::Swap(SwapOp::ToLittle, size) => low_bytes(size, a),
        UnaryOp::Swap(SwapOp::ToBig | SwapOp::Reverse, size) => reversed(size, a),
    }
}

/// Returns whether a condition holds of two words of a width.
pub fn holds(condition: Condition, width: Width, a: u64, b: u64) -> bool
    ensures { result ≡ holds condition width a b }
{
    let signed_a = width.signed(a);
    let signed_b = width.signed(b);
    let a = width.cut(a);
    let b = width.cut(b);
    match condition {
        Condition::Eq => a == b,
        Condition::Gt => a > b,
        Condition::Ge => a >= b,
        Condition::Set => a & b != 0,
        Condition::Ne => a != b,
        Condition::SignedGt => signed_a > signed_b,
        Condition::SignedGe => signed_a >= signed_b,
        Condition::Lt => a < b,
        Condition::Le => a <= b,
        Condition::SignedLt => signed_a < signed_b,
        Condition::SignedLe => signed_a <= signed_b,
    }
}

/// Returns an imm operand as a word of a width: sign-extended to 64 bits, or the 32-bit number that it encodes.
pub fn imm_word(width: Width, imm: i32) -> u64
    ensures { result ≡ imm_word width imm }
{
    match width {
        Width::W32 => u64::from(imm.cast_unsigned()),
        Width::W64 => i64::from(imm).cast_unsigned(),
    }
}

/// Reads the little-endian number in 1 to 8 bytes.
pub fn little_endian(bytes: &[u8]) -> u64
    requires some { 1 ≤ length bytes.now }
    requires few { length bytes.now ≤ 8 }
    ensures { result ≡ little_number (length bytes.now) bytes.now }
{
    LittleEndian::read_uint(bytes, bytes.len())
}

/// Writes the low bytes of a number, least first: as many as there are, at most eight.
pub fn write_little_endian(bytes: &mut [u8], value: u64)
    requires { length bytes.old ≤ 8 }
    ensures { bytes.new ≡ little_bytes (length bytes.old) value }
{
    bytes.copy_from_slice(&value.to_le_bytes()[..bytes.len()])
}
