//! Signs messages (RFC 8489, section 14.5).

ghost use Rattle.std.specs.Prelude.{◌≡◌, ◌≤◌, ◌+◌, ◌++◌, ℕ, List, length, None, Ok, OnOk, OnErr};
ghost use Rattle.stun.specs.Messages.{PaddedAttribute, Parts, header, attributes_bytes, before_first};
ghost use Rattle.stun.specs.Registry.{message_integrity};
ghost use Rattle.stun.specs.Builders.{used_of, capacity_of, SameBuffer, Appends, HasNoRoom};
ghost use Rattle.credentials.specs.Hmac.{hmac};
ghost use Rattle.credentials.specs.Integrity.{covered_bytes, integrity_under};
ghost use Rattle.credentials.specs.Keys.{key_bytes};
ghost use Rattle.credentials.specs.TimeLimited.{Account};
ghost use Rattle.credentials.specs.Checks.{Directory, HasAccount, IsChecked, first_value};
ghost use Rattle.credentials.specs.Signs.{IsUnsigned, with_integrity, integrity_in};

use crate::hmac::hmac_sha1;
use crate::key::Key;
use stun::registry::attribute::MESSAGE_INTEGRITY;
use stun::{Builder, NoRoom};

/// Returns the HMAC under a key over the bytes before a MESSAGE-INTEGRITY, with the length in the header counted to the
/// end of that attribute (RFC 8489, section 14.5), whatever length it had.
pub(crate) fn integrity_over(front: &[u8], key: &Key) -> [u8; 20]
    requires { 20 ≤ length front.now }
    ensures { (p : Parts) (n : ℕ) (attributes : List PaddedAttribute) → length p.tx ≡ 12
        → front.now ≡ header p.kind n p.tx ++ attributes_bytes attributes
        → result ≡ hmac (key_bytes key.now) (covered_bytes p attributes) }
{
    let (kind, rest) = front.split_at(2);
    let (_, rest) = rest.split_at(2);
    let length = ((front.len() + 4) % 65_536) as u16;
    hmac_sha1(key.bytes(), &[kind, &length.to_be_bytes(), rest])
}

/// Returns the HMAC under a key that signs the message so far.
fn integrity_for(builder: &Builder<'_>, key: &Key) -> [u8; 20]
    ensures { result ≡ integrity_in builder.now key.now }
{
    integrity_over(builder.written(), key)
}

/// Appends MESSAGE-INTEGRITY: the HMAC over the message so far, under a key.
///
/// # Errors
/// Returns [`NoRoom`] as [`Builder::attr`] does, and changes nothing.
pub fn sign(builder: &mut Builder<'_>, key: &Key) -> Result<(), NoRoom>
    ensures appends { OnOk result
        (Appends message_integrity (integrity_in builder.old key.now) builder.old builder.new) }
    ensures no_room { OnErr result (HasNoRoom (integrity_in builder.old key.now) builder.old builder.new) }
    ensures same_buffer { SameBuffer builder.old builder.new }
{
    let integrity = integrity_for(builder, key);
    builder.attr(MESSAGE_INTEGRITY, &integrity)
}

/// Appends MESSAGE-INTEGRITY, as [`sign`] does, where there is room, so that it can't fail.
pub fn push_integrity(builder: &mut Builder<'_>, key: &Key)
    requires room { used_of builder.old + 27 ≤ capacity_of builder.old }
    ensures appends { Appends message_integrity (integrity_in builder.old key.now) builder.old builder.new }
    ensures used { used_of builder.new ≡ used_of builder.old + 24 }
    ensures same_buffer { SameBuffer builder.old builder.new }
{
    let integrity = integrity_for(builder, key);
    builder.push(MESSAGE_INTEGRITY, &integrity.as_slice());
}

/// States that a message without MESSAGE-INTEGRITY, signed under a key, has the MESSAGE-INTEGRITY that
/// [`check`](crate::check) requires under that key.
pub fn law_what_is_signed_is_right()
    ensures { (key : List ℕ) (p : Parts) → before_first p.attributes ≡ None
        → integrity_under key (with_integrity key p) ≡ first_value (with_integrity key p) message_integrity }
{}

/// States that a message which lacks only its MESSAGE-INTEGRITY, signed under the key of its name's account, is
/// accepted: [`authenticate`](crate::authenticate) returns that account.
pub fn law_what_is_signed_is_accepted()
    ensures { (p : Parts) (name realm nonce : List ℕ) (accounts : Directory) (account : Account)
        → IsUnsigned p nonce name → HasAccount realm accounts name account
        → IsChecked (with_integrity account.key p) realm accounts nonce (Ok account) }
{}
