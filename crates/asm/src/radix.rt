//! The bases of numbers.

ghost use Rattle.std.specs.Prelude.{◌≡◌};
ghost use Rattle.asm.specs.Radices.{radix_of};

/// The base of a number.
#[derive(Clone, Copy)]
pub(crate) enum Radix {
    Decimal,
    /// After `0x`, with digits of either case.
    Hexadecimal,
}

impl Radix {
    /// Returns the base: 10 or 16.
    pub(crate) fn value(self) -> u32
        ensures { result ≡ radix_of self }
    {
        match self {
            Radix::Decimal => 10,
            Radix::Hexadecimal => 16,
        }
    }
}
