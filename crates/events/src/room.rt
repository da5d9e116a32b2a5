//! Text in a room of fixed size.

ghost use Rattle.std.specs.Prelude.{◌≡◌, ◌+◌, ◌≤◌, ◌++◌, length};
ghost use Rattle.arrayvec.specs.ArrayVec.{array_vec_len};

use arrayvec::ArrayVec;
use itoa::{Buffer, Integer};

/// Appends bytes, for which there is room.
pub fn push_bytes<const N: usize>(text: &mut ArrayVec<u8, N>, bytes: &[u8])
    requires { array_vec_len text.old + length bytes.now ≤ N }
    ensures bytes { text.new.items ≡ text.old.items ++ bytes.now }
    ensures len { array_vec_len text.new ≡ array_vec_len text.old + length bytes.now }
{
    let Ok(()) = text.try_extend_from_slice(bytes) else {
        unreachable!();
    };
}

/// Appends a number in decimal digits, where there is room for the longest one of its type.
pub fn push_number<const N: usize, I: Integer>(text: &mut ArrayVec<u8, N>, number: I)
    requires { array_vec_len text.old + I.MAX_STR_LEN ≤ N }
    ensures bytes { text.new.items ≡ text.old.items ++ I.text number }
    ensures len { array_vec_len text.new ≤ array_vec_len text.old + I.MAX_STR_LEN }
{
    let mut buffer = Buffer::new();
    push_bytes(text, buffer.format(number).as_bytes());
}
