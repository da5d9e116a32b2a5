//! Nonces that are drawn.

ghost use Rattle.std.specs.Prelude.{◌≡◌, length, true};
ghost use Rattle.std.specs.List.{list_all};
ghost use Rattle.credentials.specs.Texts.{is_nonce};
ghost use Rattle.server.specs.Nonces.{is_digit};

use arrayvec::ArrayString;
use rand::RngExt;
use rand_core::Rng;

/// The number of digits of a nonce that is drawn.
pub const NONCE_DIGITS: usize = 16;

/// Draws a hexadecimal digit.
fn draw_digit<R: Rng>(rng: &mut R) -> char
    ensures { is_digit result ≡ true }
{
    char::from_digit(rng.random_range(0..16u32), 16).unwrap()
}

/// Draws a nonce of 16 hexadecimal digits, which [`Relay::set_nonce`](relay::Relay::set_nonce) never refuses.
pub fn draw_nonce<R: Rng>(rng: &mut R) -> ArrayString<64>
    ensures count { length result.bytes ≡ 16 }
    ensures digits { list_all is_digit result.bytes ≡ true }
    ensures nonce { is_nonce result.bytes ≡ true }
{
    let mut nonce = ArrayString::new();
    for _ in 0..NONCE_DIGITS {
        nonce.push(draw_digit(rng));
    }
    nonce
}
