//! The attributes of an error response (RFC 8489, sections 14.8 and 14.13).

ghost use Rattle.std.specs.Prelude.{◌≡◌, ◌+◌, ◌*◌, ◌≤◌, length, OnOk, OnErr};
ghost use Rattle.stun.specs.Builders.{used_of, capacity_of, SameBuffer, Appends, HasNoRoom};
ghost use Rattle.stun.specs.declared.registry.attribute.TheConstants.{ERROR_CODE, UNKNOWN_ATTRIBUTES};
ghost use Rattle.attributes.specs.Errors.{error_value, unknown_value};

use byteorder::{BigEndian, ByteOrder};
use stun::registry::attribute::{ERROR_CODE, UNKNOWN_ATTRIBUTES};
use stun::registry::{ErrorCode, law_phrases_are_short};
use stun::{AttributeValue, Builder, NoRoom};

/// The length of what precedes the phrase: two zeros, and the code in two bytes.
const FRONT: usize = 4;

/// The value of ERROR-CODE.
#[derive(Drop)]
struct ErrorValue(ErrorCode);

impl AttributeValue for ErrorValue {
    ghost use Rattle.attributes.specs.Errors.{error_value};

    ghost bytes = { λ v. error_value v.0 };

    fn len(&self) -> usize {
        FRONT + self.0.phrase().len()
    }

    fn write(&self, room: &mut [u8]) {
        let (front, phrase) = room.split_at_mut(FRONT);
        let code = self.0.code();
        front.copy_from_slice(&[0, 0, (code / 100) as u8, (code % 100) as u8]);
        phrase.copy_from_slice(self.0.phrase().as_bytes());
    }
}

/// The value of UNKNOWN-ATTRIBUTES.
#[derive(Drop)]
struct UnknownValue<'a>(&'a [u16]);

impl<'a> AttributeValue for UnknownValue<'a> {
    ghost use Rattle.attributes.specs.Errors.{unknown_value};

    ghost bytes = { λ v. unknown_value v.0.now };

    #[tactic(auto, using(crate::proofs::Unknown::unknown_length))]
    fn len(&self) -> usize {
        2 * self.0.len()
    }

    #[tactic(auto, using(crate::proofs::Unknown::unknown_length))]
    fn write(&self, room: &mut [u8]) {
        BigEndian::write_u16_into(self.0, room);
    }
}

/// Appends ERROR-CODE (RFC 8489, section 14.8).
///
/// # Errors
/// Returns [`NoRoom`] as [`Builder::attr`] does, and changes nothing.
pub fn write_error(builder: &mut Builder<'_>, error: ErrorCode) -> Result<(), NoRoom>
    ensures appends { OnOk result (Appends ERROR_CODE (error_value error) builder.old builder.new) }
    ensures no_room { OnErr result (HasNoRoom (error_value error) builder.old builder.new) }
    ensures same_buffer { SameBuffer builder.old builder.new }
{
    builder.attr_of(ERROR_CODE, &ErrorValue(error))
}

/// Appends ERROR-CODE where there is room for the longest phrase, so that it can't fail.
pub fn push_error(builder: &mut Builder<'_>, error: ErrorCode)
    requires room { used_of builder.old + 41 ≤ capacity_of builder.old }
    ensures appends { Appends ERROR_CODE (error_value error) builder.old builder.new }
    ensures most { used_of builder.new ≤ used_of builder.old + 40 }
    ensures same_buffer { SameBuffer builder.old builder.new }
{
    law_phrases_are_short();
    builder.push(ERROR_CODE, &ErrorValue(error));
}

/// Appends UNKNOWN-ATTRIBUTES (RFC 8489, section 14.13) with some types, in their order.
///
/// # Errors
/// Returns [`NoRoom`] as [`Builder::attr`] does, and changes nothing.
pub fn write_unknown(builder: &mut Builder<'_>, kinds: &[u16]) -> Result<(), NoRoom>
    ensures appends { OnOk result
        (Appends UNKNOWN_ATTRIBUTES (unknown_value kinds.now) builder.old builder.new) }
    ensures no_room { OnErr result (HasNoRoom (unknown_value kinds.now) builder.old builder.new) }
    ensures same_buffer { SameBuffer builder.old builder.new }
{
    builder.attr_of(UNKNOWN_ATTRIBUTES, &UnknownValue(kinds))
}

/// Appends UNKNOWN-ATTRIBUTES where there is room, so that it can't fail.
#[tactic(auto, using(crate::proofs::Unknown::unknown_length))]
pub fn push_unknown(builder: &mut Builder<'_>, kinds: &[u16])
    requires room { used_of builder.old + 2 * length kinds.now + 7 ≤ capacity_of builder.old }
    ensures appends { Appends UNKNOWN_ATTRIBUTES (unknown_value kinds.now) builder.old builder.new }
    ensures most { used_of builder.new ≤ used_of builder.old + 2 * length kinds.now + 6 }
    ensures same_buffer { SameBuffer builder.old builder.new }
{
    builder.push(UNKNOWN_ATTRIBUTES, &UnknownValue(kinds));
}
