//! Decimal numbers without needless zeros.

ghost use Rattle.std.specs.Prelude.{◌≡◌, ◌^◌};
ghost use Rattle.basics.specs.Decimals.{decimal_in};

use itoa::Buffer;

/// Returns the number, below 2^64, of a decimal text without needless zeros; `None` where the text is no such number.
pub fn number(text: &[u8]) -> Option<u64>
    ensures { result ≡ decimal_in (2 ^ 64) text.now }
{
    let Ok(digits) = std::str::from_utf8(text) else {
        return None;
    };
    let Ok(number) = digits.parse::<u64>() else {
        return None;
    };
    let mut buffer = Buffer::new();
    if buffer.format(number).as_bytes() == text {
        Some(number)
    } else {
        None
    }
}
