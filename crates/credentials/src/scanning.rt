//! The attributes of a message that its credentials are checked with.

ghost use Rattle.std.specs.Prelude.{◌≡◌, Some, None, ◌==◌, if◌then◌else◌, option_copied};
ghost use Rattle.std.specs.Option.{option_or};
ghost use Rattle.stun.specs.Registry.{message_integrity};
ghost use Rattle.stun.specs.declared.registry.attribute.TheConstants.{USERNAME, REALM, NONCE};
ghost use Rattle.credentials.specs.Checks.{first_value};

use stun::registry::attribute::{MESSAGE_INTEGRITY, NONCE, REALM, USERNAME};
use stun::{Attr, Message};

/// The first values of the four attributes.
#[derive(Clone, Copy)]
pub(crate) struct Credentials<'a> {
    pub integrity: Option<&'a [u8]>,
    pub name: Option<&'a [u8]>,
    pub realm: Option<&'a [u8]>,
    pub nonce: Option<&'a [u8]>,
}

/// Returns `found` if there is one, else the value of an attribute if it has a type.
fn or_value<'a>(found: Option<&'a [u8]>, attr: Attr<'a>, kind: u16) -> Option<&'a [u8]>
    ensures { option_copied result ≡ option_or (option_copied found.entry)
        (if attr.entry.kind == kind then Some attr.entry.value.now else None) }
{
    if found.is_none() && attr.kind == kind {
        Some(attr.value)
    } else {
        found
    }
}

/// Returns the first MESSAGE-INTEGRITY, name, realm and nonce of a message, in one scan of its attributes.
pub(crate) fn credentials_of<'a>(message: &Message<'a>) -> Credentials<'a>
    ensures integrity { option_copied result.integrity ≡ first_value message.now message_integrity }
    ensures name { option_copied result.name ≡ first_value message.now USERNAME }
    ensures realm { option_copied result.realm ≡ first_value message.now REALM }
    ensures nonce { option_copied result.nonce ≡ first_value message.now NONCE }
{
    let mut found = Credentials {
        integrity: None,
        name: None,
        realm: None,
        nonce: None,
    };
    for attr in message.attrs() {
        found = Credentials {
            integrity: or_value(found.integrity, attr, MESSAGE_INTEGRITY),
            name: or_value(found.name, attr, USERNAME),
            realm: or_value(found.realm, attr, REALM),
            nonce: or_value(found.nonce, attr, NONCE),
        };
    }
    found
}
