//! The attributes of a message (RFC 8489, section 14).

ghost use Rattle.std.specs.Prelude.{◌≡◌, ℕ, ◌++◌, List, IfOk, IfErr, MatchOption};
ghost use Rattle.stun.specs.Messages.{PaddedAttribute, IsPadded, padding_count, attribute_bytes};
ghost use Rattle.std.specs.Iterator.{YieldsFirstBy};
ghost use Rattle.stun.specs.Attributes.{attributes_left, values_of};
ghost use Rattle.stun.specs.Reading.{AreAttributes, BeginsWith, attributes_in, integrity_at};
ghost use Rattle.stun.specs.declared.refusal.StunError.TheVariants.{AttributeOverrun};

use crate::refusal::StunError;
use crate::registry::attribute::MESSAGE_INTEGRITY;
use byteorder::{BigEndian, ByteOrder};
use std::marker::Model;

/// The length of what precedes the value in an attribute, in bytes.
pub(crate) const ATTRIBUTE_HEADER_BYTES: usize = 4;

/// An attribute: its type and its value.
#[derive(Clone, Copy, Debug)]
pub struct Attr<'a> {
    pub kind: u16,
    pub value: &'a [u8],
}

/// Returns how many bytes pad a value of a length to a multiple of four.
pub(crate) fn padding_bytes(length: usize) -> usize
    ensures { result ≡ padding_count length }
{
    (4 - length % 4) % 4
}

/// Splits bytes after their first attribute and its padding, or returns `None` where it overruns them.
pub(crate) fn split_attribute(bytes: &[u8]) -> Option<(Attr<'_>, &[u8])>
    ensures { MatchOption result ((a : PaddedAttribute) (rest : List ℕ) → IsPadded a
        → bytes.now ≡ attribute_bytes a ++ rest → ⊥)
        (λ r. BeginsWith bytes.now r.0.kind r.0.value.now r.1.now) }
{
    if bytes.len() < ATTRIBUTE_HEADER_BYTES {
        return None;
    }
    let kind = BigEndian::read_u16(bytes);
    let (_, body) = bytes.split_at(2);
    let length = BigEndian::read_u16(body) as usize;
    let padded = length + padding_bytes(length);
    let (_, body) = bytes.split_at(ATTRIBUTE_HEADER_BYTES);
    if body.len() < padded {
        return None;
    }
    let (value, _) = body.split_at(length);
    let (_, rest) = body.split_at(padded);
    Some((Attr { kind, value }, rest))
}

/// Scans bytes that have to be attributes. Returns the byte at which the first MESSAGE-INTEGRITY begins, if there is
/// one.
///
/// # Errors
/// Returns S5 where an attribute overruns the bytes, before or after the first MESSAGE-INTEGRITY.
pub(crate) fn scan(bytes: &[u8]) -> Result<Option<usize>, StunError>
    ensures found { IfOk result (λ at. AreAttributes bytes.now × (at ≡ integrity_at bytes.now)) }
    ensures overrun { IfErr result (λ e. (e ≡ AttributeOverrun) × (AreAttributes bytes.now → ⊥)) }
{
    let mut integrity = None;
    let mut rest = bytes;
    while rest.len() > 0 {
        let Some((attr, after)) = split_attribute(rest) else {
            return Err(StunError::AttributeOverrun);
        };
        let at = bytes.len() - rest.len();
        integrity = integrity.or((attr.kind == MESSAGE_INTEGRITY).then_some(at));
        rest = after;
    }
    Ok(integrity)
}

/// An iterator over the attributes of a message up to and including its first MESSAGE-INTEGRITY. Contracts
/// see it as the attributes that are left in the datagram, with those after a MESSAGE-INTEGRITY.
#[derive(Drop)]
pub struct Attrs<'a> {
    rest: &'a [u8],
}

impl<'a> Model for Attrs<'a> {
    ghost use Rattle.std.specs.Prelude.{List};
    ghost use Rattle.std.specs.Coded.{coded_list};
    ghost use Rattle.stun.specs.Messages.{PaddedAttribute};
    ghost use Rattle.stun.specs.Reading.{padded_code};

    ghost Value = { List PaddedAttribute };

    ghost coded = { coded_list padded_code };

    ghost use Rattle.stun.specs.Reading.{attributes_in, AreAttributes};

    ghost view = { λ a. attributes_in a.rest.now };

    ghost invariant = { λ a. AreAttributes a.rest.now };
}

impl<'a> Attrs<'a> {
    /// Returns an iterator over the attributes in bytes.
    pub(crate) fn new(bytes: &'a [u8]) -> Attrs<'a>
        requires { AreAttributes bytes.now }
        ensures { result ≡ attributes_in bytes.now }
    {
        Attrs { rest: bytes }
    }
}

impl<'a> Iterator for Attrs<'a> {
    ghost use Rattle.std.specs.Iterator.{YieldsFirstBy, item_count};
    ghost use Rattle.stun.specs.Attributes.{attribute_of_attr, attributes_left};

    type Item = Attr<'a>;

    ghost next_gives = { YieldsFirstBy attribute_of_attr attributes_left };

    ghost remaining = { item_count attributes_left };

    fn next(&mut self) -> Option<Attr<'a>> {
        let (attr, rest) = split_attribute(self.rest)?;
        self.rest = if attr.kind == MESSAGE_INTEGRITY {
            &[]
        } else {
            rest
        };
        Some(attr)
    }
}

/// An iterator over the values of the attributes of one type, up to and including the first
/// MESSAGE-INTEGRITY. Contracts see it as the values that are left.
#[derive(Drop)]
pub struct Values<'a> {
    attrs: Attrs<'a>,
    kind: u16,
}

impl<'a> Model for Values<'a> {
    ghost use Rattle.std.specs.Prelude.{List, ℕ};
    ghost use Rattle.std.specs.Coded.{coded_list, coded_ℕ};
    ghost use Rattle.stun.specs.Attributes.{attributes_left, values_of};

    ghost Value = { List (List ℕ) };

    ghost coded = { coded_list (coded_list coded_ℕ) };

    ghost view = { λ v. values_of v.kind (attributes_left v.attrs) };
}

impl<'a> Values<'a> {
    ghost use Rattle.std.specs.Prelude.{◌≡◌};
    ghost use Rattle.stun.specs.Attributes.{attributes_left, values_of};

    /// Returns an iterator over the values of a type among attributes.
    pub(crate) fn new(attrs: Attrs<'a>, kind: u16) -> Values<'a>
        ensures { result ≡ values_of kind (attributes_left attrs.entry) }
    {
        Values { attrs, kind }
    }
}

/// Returns the value of the next attribute of a type, and advances past it.
fn next_value<'a>(attrs: &mut Attrs<'a>, kind: u16) -> Option<&'a [u8]>
    ensures { YieldsFirstBy (λ v. v.now) (λ left. values_of kind (attributes_left left)) attrs.old result attrs.new }
{
    while let Some(attr) = attrs.next() {
        if attr.kind == kind {
            return Some(attr.value);
        }
    }
    None
}

impl<'a> Iterator for Values<'a> {
    ghost use Rattle.std.specs.Iterator.{YieldsFirstBy, item_count};

    type Item = &'a [u8];

    ghost next_gives = { YieldsFirstBy (λ v. v.now) (λ left. left) };

    ghost remaining = { item_count (λ left. left) };

    fn next(&mut self) -> Option<&'a [u8]> {
        next_value(&mut self.attrs, self.kind)
    }
}
