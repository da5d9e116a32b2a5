//! Values with one number (RFC 8656, section 18).

ghost use Rattle.std.specs.Prelude.{◌≡◌, ℕ, List, ◌<◌, ◌^◌, IfOk, IfErr};
ghost use Rattle.stun.specs.Endian.{big_bytes};
ghost use Rattle.std.specs.Result.{result_ok};
ghost use Rattle.attributes.specs.Values.{IsNumberValue, number_of_value};
ghost use Rattle.attributes.specs.declared.refusal.ValueKind.TheVariants as kinds;

use crate::refusal::{ValueError, ValueKind};
use byteorder::{BigEndian, ByteOrder};

/// The length of each of these values, in bytes.
const LENGTH: usize = 4;

/// Reads LIFETIME (RFC 8656, section 18.2): seconds, in four bytes.
///
/// # Errors
/// Returns A1 for a value of another length.
#[tactic(auto, using(crate::proofs::Numbers::number_read))]
pub fn lifetime(value: &[u8]) -> Result<u32, ValueError>
    ensures reads { result_ok result ≡ number_of_value 4 value.now }
    ensures found { IfOk result (λ n. IsNumberValue 4 n value.now) }
    ensures refused { IfErr result (λ e. (n : ℕ) → IsNumberValue 4 n value.now → ⊥) }
    ensures kind { IfErr result (λ e. e.0 ≡ kinds.Lifetime) }
{
    if value.len() == LENGTH {
        Ok(BigEndian::read_u32(value))
    } else {
        Err(ValueError(ValueKind::Lifetime))
    }
}

/// Reads CHANNEL-NUMBER (RFC 8656, section 18.1): the first two of four bytes, of which the last two are
/// ignored.
///
/// # Errors
/// Returns A1 for a value of another length.
#[tactic(auto, using(crate::proofs::Numbers::number_read))]
pub fn channel_number(value: &[u8]) -> Result<u16, ValueError>
    ensures reads { result_ok result ≡ number_of_value 2 value.now }
    ensures found { IfOk result (λ n. IsNumberValue 2 n value.now) }
    ensures refused { IfErr result (λ e. (n : ℕ) → IsNumberValue 2 n value.now → ⊥) }
    ensures kind { IfErr result (λ e. e.0 ≡ kinds.ChannelNumber) }
{
    if value.len() == LENGTH {
        Ok(BigEndian::read_u16(value))
    } else {
        Err(ValueError(ValueKind::ChannelNumber))
    }
}

/// Reads the first of four bytes, of which the last three are ignored.
///
/// # Errors
/// Returns A1, with the kind of the value, for a value of another length.
#[tactic(auto, using(crate::proofs::Numbers::first_read))]
fn first_byte(value: &[u8], kind: ValueKind) -> Result<u8, ValueError>
    ensures reads { result_ok result ≡ number_of_value 1 value.now }
    ensures found { IfOk result (λ n. IsNumberValue 1 n value.now) }
    ensures refused { IfErr result (λ e. (n : ℕ) → IsNumberValue 1 n value.now → ⊥) }
    ensures kind { IfErr result (λ e. e.0 ≡ kind) }
{
    if value.len() == LENGTH {
        Ok(value[0])
    } else {
        Err(ValueError(kind))
    }
}

/// Reads REQUESTED-TRANSPORT (RFC 8656, section 18.8): a protocol number, the first of four bytes, of which
/// the last three are ignored.
///
/// # Errors
/// Returns A1 for a value of another length.
pub fn requested_transport(value: &[u8]) -> Result<u8, ValueError>
    ensures reads { result_ok result ≡ number_of_value 1 value.now }
    ensures found { IfOk result (λ n. IsNumberValue 1 n value.now) }
    ensures refused { IfErr result (λ e. (n : ℕ) → IsNumberValue 1 n value.now → ⊥) }
    ensures kind { IfErr result (λ e. e.0 ≡ kinds.RequestedTransport) }
{
    first_byte(value, ValueKind::RequestedTransport)
}

/// Reads REQUESTED-ADDRESS-FAMILY (RFC 8656, section 18.6): a family, the first of four bytes, of which the
/// last three are ignored. A family that is neither IPv4's nor IPv6's is well formed.
///
/// # Errors
/// Returns A1 for a value of another length.
pub fn requested_family(value: &[u8]) -> Result<u8, ValueError>
    ensures reads { result_ok result ≡ number_of_value 1 value.now }
    ensures found { IfOk result (λ n. IsNumberValue 1 n value.now) }
    ensures refused { IfErr result (λ e. (n : ℕ) → IsNumberValue 1 n value.now → ⊥) }
    ensures kind { IfErr result (λ e. e.0 ≡ kinds.RequestedFamily) }
{
    first_byte(value, ValueKind::RequestedFamily)
}

/// States that a value has at most one number of a width.
pub fn law_numbers_are_unique()
    ensures { (n a b : ℕ) (value : List ℕ) → IsNumberValue n a value → IsNumberValue n b value → a ≡ b }
{}

/// States that the four bytes of a number, high byte first, are the value of LIFETIME with that number.
pub fn law_lifetimes_are_read_back()
    ensures { (n : ℕ) → n < 2 ^ 32 → IsNumberValue 4 n (big_bytes 4 n) }
{}
