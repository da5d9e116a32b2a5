//! The types of attributes that are not understood (RFC 8489, section 6.3.1).

ghost use Rattle.std.specs.Prelude.{◌≡◌, ◌≤◌, length, take};
ghost use Rattle.control.specs.Control.{all_understood, attribute_test};
ghost use Rattle.control.specs.Unknown.{unknown_types, with_type};
ghost use Rattle.control.specs.declared.unknown.TheConstants.{MAX_UNKNOWN};

use arrayvec::ArrayVec;
use stun::Message;
use stun::registry::{ErrorCode, is_understood};

/// The greatest number of types that a reply lists.
pub const MAX_UNKNOWN: usize = 16;

/// Adds a type to a list, if it isn't in it and there is room.
fn add_type(kinds: &mut ArrayVec<u16, MAX_UNKNOWN>, kind: u16)
    requires few { length kinds.old.items ≤ MAX_UNKNOWN }
    ensures added { kinds.new.items ≡ take MAX_UNKNOWN (with_type kinds.old.items kind) }
    ensures few { length kinds.new.items ≤ MAX_UNKNOWN }
{
    if !kinds.contains(&kind) && !kinds.is_full() {
        kinds.push(kind);
    }
}

/// Returns the first [`MAX_UNKNOWN`] types of attributes that are not understood, each once, in the order in which they
/// appear first.
pub(crate) fn unknown_types(message: &Message<'_>) -> ArrayVec<u16, MAX_UNKNOWN>
    ensures { result.items ≡ unknown_types message.now }
{
    let mut kinds = ArrayVec::new();
    for attribute in message.attrs() {
        if !is_understood(attribute.kind) {
            add_type(&mut kinds, attribute.kind);
        }
    }
    kinds
}

/// Returns whether all attributes of a message are understood.
pub fn all_understood(message: &Message<'_>) -> bool
    ensures { result ≡ all_understood message.now }
{
    unknown_types(message).is_empty()
}

/// Requires all attributes of a request to be understood.
///
/// # Errors
/// 420 where one isn't.
pub(crate) fn check_understood(message: &Message<'_>) -> Result<(), ErrorCode>
    ensures { result ≡ attribute_test message.now }
{
    if all_understood(message) {
        Ok(())
    } else {
        Err(ErrorCode::UnknownAttribute)
    }
}
