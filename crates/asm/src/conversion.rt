//! From numbers as they are written to the fields of instructions.

ghost use Rattle.std.specs.Prelude.{◌<◌, ◌^◌, FitsSigned};
ghost use Rattle.std.specs.Int.{w16, w32};
ghost use Rattle.asm.specs.Parsing.{numeral_value, integer_value, Converts};

use crate::number::{Integer, Number};
use crate::refusal::LineError;

impl<'a> Number<'a> {
    /// Returns the number.
    ///
    /// # Errors
    /// `Range` from 2^64 up.
    pub(crate) fn value(self) -> Result<u64, LineError>
        ensures { Converts (λ n. n) (λ n. n < 2 ^ 64) (numeral_value self.entry) result }
    {
        let Ok(digits) = std::str::from_utf8(self.digits) else {
            return Err(LineError::Range);
        };
        match u64::from_str_radix(digits, self.radix.value()) {
            Ok(n) => Ok(n),
            Err(_) => Err(LineError::Range),
        }
    }
}

impl<'a> Integer<'a> {
    fn value(self) -> Result<i128, LineError>
        ensures { Converts (λ n. n) (λ n. numeral_value self.entry.magnitude < 2 ^ 64)
            (integer_value self.entry) result }
    {
        let magnitude = i128::from(self.magnitude.value()?);
        Ok(if self.is_negative {
            -magnitude
        } else {
            magnitude
        })
    }

    /// Returns the number as the imm field of a slot, or the distance of a long jump.
    ///
    /// # Errors
    /// `Range` where it takes more than 32 bits.
    pub(crate) fn imm(self) -> Result<i32, LineError>
        ensures { Converts (λ n. n) (FitsSigned w32) (integer_value self.entry) result }
    {
        i32::try_from(self.value()?).map_err(|_| LineError::Range)
    }

    /// Returns the number as the offset field of a slot.
    ///
    /// # Errors
    /// `Range` where it takes more than 16 bits.
    pub(crate) fn offset(self) -> Result<i16, LineError>
        ensures { Converts (λ n. n) (FitsSigned w16) (integer_value self.entry) result }
    {
        i16::try_from(self.value()?).map_err(|_| LineError::Range)
    }
}
