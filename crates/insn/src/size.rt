//! The sizes of loads, stores, sign extensions and byte swaps (RFC 9669, sections 4.1, 4.2 and 5).

ghost use Rattle.std.specs.Prelude.{◌≡◌, Some, IfSome};
ghost use Rattle.insn.specs.Codes.{size_code, byte_count, unsigned_size, swap_bits};
ghost use Rattle.insn.specs.Forms.{swap_size};

/// The size of a memory access.
#[derive(Clone, Copy, Debug, PartialEq, Eq)]
pub enum Size {
    /// Four bytes, `W`.
    Word,
    /// Two bytes, `H`.
    Half,
    /// One byte, `B`.
    Byte,
    /// Eight bytes, `DW`.
    Double,
}

/// The size of a number whose sign is extended to 64 bits, or to 32.
#[derive(Clone, Copy, Debug, PartialEq, Eq)]
pub enum SignedSize {
    /// Four bytes, `W`.
    Word,
    /// Two bytes, `H`.
    Half,
    /// One byte, `B`.
    Byte,
}

/// The size of a number whose bytes are swapped.
#[derive(Clone, Copy, Debug, PartialEq, Eq)]
pub enum SwapSize {
    /// 16 bits.
    Half,
    /// 32 bits.
    Word,
    /// 64 bits.
    Double,
}

impl Size {
    /// Returns the number of bytes: 1, 2, 4 or 8.
    pub fn bytes(self) -> usize
        ensures { result ≡ byte_count self }
    {
        match self {
            Size::Word => 4,
            Size::Half => 2,
            Size::Byte => 1,
            Size::Double => 8,
        }
    }

    /// Returns the code of the size, two bits of the opcode.
    pub fn code(self) -> u8
        ensures { result ≡ size_code self }
    {
        match self {
            Size::Word => 0,
            Size::Half => 1,
            Size::Byte => 2,
            Size::Double => 3,
        }
    }

    /// Returns the size of a code, `None` above 3.
    pub fn from_code(code: u8) -> Option<Size>
        ensures found { IfSome result (λ s. size_code s ≡ code) }
        ensures only { (s : Size) → size_code s ≡ code → result ≡ Some s }
    {
        match code {
            0 => Some(Size::Word),
            1 => Some(Size::Half),
            2 => Some(Size::Byte),
            3 => Some(Size::Double),
            _ => None,
        }
    }
}

impl SignedSize {
    /// Returns the signed size of a size, `None` for a double word.
    pub fn of(size: Size) -> Option<SignedSize>
        ensures found { IfSome result (λ s. unsigned_size s ≡ size) }
        ensures only { (s : SignedSize) → unsigned_size s ≡ size → result ≡ Some s }
    {
        match size {
            Size::Word => Some(SignedSize::Word),
            Size::Half => Some(SignedSize::Half),
            Size::Byte => Some(SignedSize::Byte),
            Size::Double => None,
        }
    }

    /// Returns the size as that of any access.
    pub fn unsigned(self) -> Size
        ensures { result ≡ unsigned_size self }
    {
        match self {
            SignedSize::Word => Size::Word,
            SignedSize::Half => Size::Half,
            SignedSize::Byte => Size::Byte,
        }
    }
}

impl SwapSize {
    /// Returns the number of bits: 16, 32 or 64.
    pub fn bits(self) -> i32
        ensures { result ≡ swap_bits self }
    {
        match self {
            SwapSize::Half => 16,
            SwapSize::Word => 32,
            SwapSize::Double => 64,
        }
    }

    /// Returns the size of a number of bits, `None` where it isn't 16, 32 or 64.
    pub fn from_bits(bits: i32) -> Option<SwapSize>
        ensures { result ≡ swap_size bits }
    {
        match bits {
            16 => Some(SwapSize::Half),
            32 => Some(SwapSize::Word),
            64 => Some(SwapSize::Double),
            _ => None,
        }
    }
}
