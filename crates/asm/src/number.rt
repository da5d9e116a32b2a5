//! Numbers as they are written, of any size.

ghost use Rattle.std.specs.Prelude.{◌≡◌, true};
ghost use Rattle.asm.specs.Radices.{radix_of, is_numeral};

use crate::radix::Radix;

/// The digits of a number without a sign, at least one.
#[derive(Clone, Copy)]
pub(crate) struct Number<'a> {
    pub(crate) radix: Radix,
    pub(crate) digits: &'a [u8],
    ghost numeral: { is_numeral (radix_of radix) digits.now ≡ true },
}

/// A number with its sign.
#[derive(Clone, Copy)]
pub(crate) struct Integer<'a> {
    pub(crate) is_negative: bool,
    pub(crate) magnitude: Number<'a>,
}
