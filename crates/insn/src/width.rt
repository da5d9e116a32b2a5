//! The widths of arithmetic and of comparisons (RFC 9669, sections 4.1 and 4.3).

ghost use Rattle.std.specs.Prelude.{◌≡◌};
ghost use Rattle.std.specs.Int.{cast_signed};
ghost use Rattle.insn.specs.Words.{int_width, bit_count, cut};

/// The number of 32-bit words.
const WORDS_32: u64 = 1 << 32;

/// The width of an operation: it takes its operands and its result modulo 2^32 or 2^64.
#[derive(Clone, Copy, Debug, PartialEq, Eq)]
pub enum Width {
    /// 32 bits, classes `ALU` and `JMP32`.
    W32,
    /// 64 bits, classes `ALU64` and `JMP`.
    W64,
}

impl Width {
    /// Returns the number of bits.
    pub fn bits(self) -> u32
        ensures { result ≡ bit_count self }
    {
        match self {
            Width::W32 => 32,
            Width::W64 => 64,
        }
    }

    /// Returns the low bits of a word: the number modulo 2^32 or 2^64.
    pub fn cut(self, n: u64) -> u64
        ensures { result ≡ cut self n }
    {
        match self {
            Width::W32 => n % WORDS_32,
            Width::W64 => n,
        }
    }

    /// Returns the low bits of a word, read as a signed number.
    pub fn signed(self, n: u64) -> i64
        ensures { result ≡ cast_signed (int_width self) (cut self n) }
    {
        match self {
            Width::W32 => i64::from(((n % WORDS_32) as u32).cast_signed()),
            Width::W64 => n.cast_signed(),
        }
    }
}
