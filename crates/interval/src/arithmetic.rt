//! The operators on intervals.

ghost use Rattle.std.specs.Prelude.{◌≡◌, ◌+◌, ◌/◌, ◌%◌, ◌^◌, nat_lt, Some, None, if◌then◌else◌};
ghost use Rattle.insn.specs.Words.{modulus, bit_count, swap_width, signed_width};
ghost use Rattle.insn.specs.declared.operator.AluOp.TheVariants.{Add, Sub, Mul, Lsh};
ghost use Rattle.interval.specs.Intervals.{is_single, operand_bounds, are_positive, quotient_bounds, remainder, ones, shifted_right, result_bounds, interval_alu, ranged_unary, operand_width, interval_unary};
ghost use mir.Val.{bits};

use crate::interval::Interval;
use insn::{AluOp, SignedSize, SwapOp, SwapSize, UnaryOp, Width};

/// Returns whether a number is a word of a width.
pub(crate) fn is_word(width: Width, n: u64) -> bool
    ensures { result ≡ nat_lt n (modulus width) }
{
    match width {
        Width::W32 => n < 0x1_0000_0000,
        Width::W64 => true,
    }
}

/// Returns whether a number is a word of a width with the sign clear.
fn is_positive(width: Width, n: u64) -> bool
    ensures { result ≡ nat_lt n (modulus width / 2) }
{
    match width {
        Width::W32 => n < 0x8000_0000,
        Width::W64 => n < 0x8000_0000_0000_0000,
    }
}

/// Returns whether neither operand may be negative at a width.
pub(crate) fn are_positive(width: Width, a: Interval, b: Interval) -> bool
    ensures { result ≡ are_positive width a b }
{
    is_positive(width, a.ends().hi) && is_positive(width, b.ends().hi)
}

/// Returns an operand of a width: all words of the width where it may exceed them.
fn narrowed(width: Width, a: Interval) -> Interval
    ensures { result ≡ operand_bounds width a }
{
    if is_word(width, a.ends().hi) {
        a
    } else {
        Interval::all(width)
    }
}

/// Adds where no sum wraps.
fn added(width: Width, a: Interval, b: Interval) -> Interval
    ensures { result ≡ result_bounds Add width a b }
{
    let a = a.ends();
    let b = b.ends();
    match a.hi.checked_add(b.hi) {
        Some(hi) if is_word(width, hi) => Interval::from_to(a.lo + b.lo, hi),
        _ => Interval::all(width),
    }
}

/// Subtracts where no difference wraps.
fn subtracted(width: Width, a: Interval, b: Interval) -> Interval
    ensures { result ≡ result_bounds Sub width a b }
{
    let a = a.ends();
    let b = b.ends();
    if b.hi <= a.lo {
        Interval::from_to(a.lo - b.hi, a.hi - b.lo)
    } else {
        Interval::all(width)
    }
}

/// Multiplies where no product wraps.
fn multiplied(width: Width, a: Interval, b: Interval) -> Interval
    ensures { result ≡ result_bounds Mul width a b }
{
    let a = a.ends();
    let b = b.ends();
    match a.hi.checked_mul(b.hi) {
        Some(hi) if is_word(width, hi) => Interval::from_to(a.lo * b.lo, hi),
        _ => Interval::all(width),
    }
}

/// Divides; by 0 the quotient is 0.
fn divided(a: Interval, b: Interval) -> Interval
    ensures { result ≡ quotient_bounds a b }
{
    let a = a.ends();
    let b = b.ends();
    if b.lo > 0 {
        Interval::from_to(a.lo / b.hi, a.hi / b.lo)
    } else {
        Interval::from_to(0, a.hi)
    }
}

/// Takes the remainder; by 0 it is the dividend.
fn remainder(a: Interval, b: Interval) -> Interval
    ensures { result ≡ remainder a b }
{
    let a = a.ends();
    let b = b.ends();
    if 0 < b.lo {
        Interval::from_to(0, a.hi.min(b.hi - 1))
    } else {
        Interval::from_to(0, a.hi)
    }
}

/// Returns the least 2^k - 1 that is at least `n`.
fn ones(n: u64) -> u64
    ensures { result ≡ ones n }
{
    u64::MAX.checked_shr(n.leading_zeros()).unwrap_or(0)
}

/// Returns the count of a shift, modulo the width, if it is exact.
fn single_count(width: Width, b: Interval) -> Option<u32>
    ensures { result ≡ if is_single b then Some (b.lo % bit_count width) else None }
{
    if b.is_single() {
        Some((b.ends().lo % u64::from(width.bits())) as u32)
    } else {
        None
    }
}

/// Shifts to the left by an exact count, where no bit is lost.
fn shifted_left(width: Width, a: Interval, b: Interval) -> Interval
    ensures { result ≡ result_bounds Lsh width a b }
{
    match single_count(width, b) {
        Some(count) => multiplied(width, a, Interval::single(1 << count)),
        None => Interval::all(width),
    }
}

/// Shifts to the right by an exact count; by any other, returns 0 to the upper end of `a`.
fn shifted_right(width: Width, a: Interval, b: Interval) -> Interval
    ensures { result ≡ shifted_right width a b }
{
    let a = a.ends();
    match single_count(width, b) {
        Some(count) => Interval::from_to(a.lo >> count, a.hi >> count),
        None => Interval::from_to(0, a.hi),
    }
}

/// Applies an operator to operands of the width that aren't both single.
fn ranged(op: AluOp, width: Width, a: Interval, b: Interval) -> Interval
    ensures { result ≡ result_bounds op width a b }
{
    let positive = are_positive(width, a, b);
    match op {
        AluOp::Add => added(width, a, b),
        AluOp::Sub => subtracted(width, a, b),
        AluOp::Mul => multiplied(width, a, b),
        AluOp::Div => divided(a, b),
        AluOp::SignedDiv if positive => divided(a, b),
        AluOp::Or | AluOp::Xor => Interval::from_to(0, ones(a.ends().hi.max(b.ends().hi))),
        AluOp::And => Interval::from_to(0, a.ends().hi.min(b.ends().hi)),
        AluOp::Lsh => shifted_left(width, a, b),
        AluOp::Rsh => shifted_right(width, a, b),
        AluOp::Mod => remainder(a, b),
        AluOp::SignedMod if positive => remainder(a, b),
        AluOp::Arsh if is_positive(width, a.ends().hi) => shifted_right(width, a, b),
        AluOp::SignedDiv | AluOp::SignedMod | AluOp::Arsh => Interval::all(width),
    }
}

/// Applies an operator: to single operands as to words, and else to their ends.
/// See docs/DECISIONS.md, "Operands of 32 bits".
pub(crate) fn alu(op: AluOp, width: Width, a: Interval, b: Interval) -> Interval
    ensures { result ≡ interval_alu op width a b }
{
    if a.is_single() && b.is_single() {
        Interval::single(insn::alu(op, width, a.ends().lo, b.ends().lo))
    } else {
        ranged(op, width, narrowed(width, a), narrowed(width, b))
    }
}

/// Returns the greatest number of a size with the sign clear.
fn greatest_positive(size: SignedSize) -> u64
    ensures { result + 1 ≡ 2 ^ bits (signed_width size) / 2 }
{
    match size {
        SignedSize::Byte => 0x7f,
        SignedSize::Half => 0x7fff,
        SignedSize::Word => 0x7fff_ffff,
    }
}

/// Returns the greatest number of a size.
fn greatest(size: SwapSize) -> u64
    ensures { result + 1 ≡ 2 ^ bits (swap_width size) }
{
    match size {
        SwapSize::Half => 0xffff,
        SwapSize::Word => 0xffff_ffff,
        SwapSize::Double => u64::MAX,
    }
}

/// Applies an operator to an operand of its width that isn't single.
fn ranged_unary(op: UnaryOp, a: Interval) -> Interval
    ensures { result ≡ ranged_unary op a }
{
    match op {
        UnaryOp::Mov(_) => a,
        UnaryOp::Neg(width) => Interval::all(width),
        UnaryOp::SignExtend(extension) => {
            if a.ends().hi <= greatest_positive(extension.source()) {
                a
            } else {
                Interval::all(extension.target())
            }
        }
        UnaryOp::Swap(SwapOp::ToLittle, size) => {
            if a.ends().hi <= greatest(size) {
                a
            } else {
                Interval::from_to(0, greatest(size))
            }
        }
        UnaryOp::Swap(SwapOp::ToBig | SwapOp::Reverse, size) => {
            Interval::from_to(0, greatest(size))
        }
    }
}

/// Returns the width that cuts the operand; byte swaps use their own size.
fn operand_width(op: UnaryOp) -> Width
    ensures { result ≡ operand_width op }
{
    match op {
        UnaryOp::Mov(width) | UnaryOp::Neg(width) => width,
        UnaryOp::SignExtend(extension) => extension.target(),
        UnaryOp::Swap(_, _) => Width::W64,
    }
}

/// Applies an operator: to a single operand as to a word, and else to its ends.
pub(crate) fn unary(op: UnaryOp, a: Interval) -> Interval
    ensures { result ≡ interval_unary op a }
{
    if a.is_single() {
        Interval::single(insn::unary(op, a.ends().lo))
    } else {
        ranged_unary(op, narrowed(operand_width(op), a))
    }
}
