//! Texts of printable bytes, and nonces.

ghost use Rattle.std.specs.Prelude.{◌≡◌};
ghost use Rattle.std.specs.List.{list_all};
ghost use Rattle.stun.specs.Ranges.{is_between};
ghost use Rattle.credentials.specs.Texts.{is_text, is_nonce};

/// The greatest length of a nonce, in bytes.
const MAX_NONCE: usize = 64;

/// Returns whether each byte lies between `lowest` and `~`.
fn are_printable(text: &[u8], lowest: u8) -> bool
    ensures { result ≡ list_all (is_between lowest 0x7e) text.now }
{
    text.iter().all(|byte| (lowest..=b'~').contains(byte))
}

/// Returns whether a text has at least one byte and at most `longest`, each between `lowest` and `~`.
pub fn is_text(text: &[u8], lowest: u8, longest: usize) -> bool
    ensures { result ≡ is_text lowest longest text.now }
{
    (1..=longest).contains(&text.len()) && are_printable(text, lowest)
}

/// Returns whether a text can be a nonce: 1 to 64 bytes of 0x21 to 0x7E.
pub fn is_nonce(text: &str) -> bool
    ensures { result ≡ is_nonce text.now }
{
    is_text(text.as_bytes(), 0x21, MAX_NONCE)
}
