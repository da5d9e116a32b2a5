//! Parses datagrams as messages (RFC 8489, sections 5, 6.3 and 14).

ghost use Rattle.std.specs.Prelude.{◌≡◌, ℕ, List, IfOk, IfErr, OnOk, IsOkAnd, option_copied};
ghost use Rattle.std.specs.Result.{result_ok};
ghost use Rattle.stun.specs.Messages.{Message as SpecMessage, Parts, AreParts, parts_bytes, message_of, before_integrity, IsMessage};
ghost use Rattle.stun.specs.Reading.{HasHeader};
ghost use Rattle.stun.specs.Refusals.{IsRefusedMessage};
ghost use Rattle.stun.specs.Datagrams.{message_in};
ghost use Rattle.stun.specs.declared.refusal.StunError.{StunError};

use crate::attributes::{Attrs, Values, scan};
use crate::refusal::StunError;
use crate::registry::MAGIC_COOKIE;
use byteorder::{BigEndian, ByteOrder};
use std::marker::Model;

/// The length of the header of a message, in bytes.
pub const HEADER_BYTES: usize = 20;

/// A message, borrowed from its datagram. Contracts see it as its parts: the type, the transaction id, and
/// all attributes with their padding.
#[derive(Drop)]
pub struct Message<'a> {
    bytes: &'a [u8],
    /// The byte of the attributes at which the first MESSAGE-INTEGRITY begins.
    integrity: Option<usize>,
}

impl<'a> Model for Message<'a> {
    ghost use Rattle.stun.specs.Messages.{Parts};
    ghost use Rattle.stun.specs.Reading.{parts_code};

    ghost Value = { Parts };

    ghost coded = { parts_code };

    ghost use Rattle.stun.specs.Reading.{parts_in, IsRead};

    ghost view = { λ m. parts_in m.bytes.now };

    ghost invariant = { λ m. IsRead m.bytes.now m.integrity };
}

impl<'a> Message<'a> {
    ghost use Rattle.stun.specs.Messages.{AreParts, attributes_bytes, message_of, before_integrity};
    ghost use Rattle.stun.specs.Attributes.{values_of, value_of};

    /// Returns the type: 14 bits of method and class (RFC 8489, section 5).
    pub fn kind(&self) -> u16
        ensures { result ≡ self.now.kind }
    {
        BigEndian::read_u16(self.bytes)
    }

    /// Returns the transaction id.
    pub fn tx(&self) -> [u8; 12]
        ensures { result ≡ self.now.tx }
    {
        let mut tx = [0; 12];
        let (_, id) = self.bytes.split_at(8);
        let (id, _) = id.split_at(12);
        tx.copy_from_slice(id);
        tx
    }

    /// Returns the bytes of all attributes with their padding: the datagram after its header.
    pub fn attribute_bytes(&self) -> &'a [u8]
        ensures { result.now ≡ attributes_bytes self.now.attributes }
    {
        let (_, body) = self.bytes.split_at(HEADER_BYTES);
        body
    }

    /// Returns an iterator over the attributes up to and including the first MESSAGE-INTEGRITY: what follows
    /// it is ignored (RFC 8489, section 14.5).
    pub fn attrs(&self) -> Attrs<'a>
        ensures { result ≡ self.now.attributes }
    {
        let (_, attributes) = self.bytes.split_at(HEADER_BYTES);
        Attrs::new(attributes)
    }

    /// Returns the values of all attributes of a type, in their order.
    pub fn values_of(&self, kind: u16) -> Values<'a>
        ensures { result ≡ values_of kind (message_of self.now).attributes }
    {
        Values::new(self.attrs(), kind)
    }

    /// Returns the value of the first attribute of a type.
    pub fn value_of(&self, kind: u16) -> Option<&'a [u8]>
        ensures { option_copied result ≡ value_of kind (message_of self.now).attributes }
    {
        self.values_of(kind).next()
    }

    /// Returns the bytes of the datagram before the first MESSAGE-INTEGRITY, if it has one.
    pub fn before_integrity(&self) -> Option<&'a [u8]>
        ensures front { option_copied result ≡ before_integrity self.now }
        ensures are_parts { AreParts self.now }
    {
        let at = self.integrity?;
        let (front, _) = self.bytes.split_at(HEADER_BYTES + at);
        Some(front)
    }
}

/// Checks the header of a datagram (RFC 8489, section 6.3).
///
/// # Errors
/// Returns the first of S1 to S4.
fn test_header(bytes: &[u8]) -> Result<(), StunError>
    ensures found { OnOk result (HasHeader bytes.now) }
    ensures refused { IfErr result (IsRefusedMessage bytes.now) }
{
    if bytes.len() < HEADER_BYTES {
        return Err(StunError::TooShort);
    }
    if BigEndian::read_u16(bytes) >= 0x4000 {
        return Err(StunError::NotStun);
    }
    let (_, body) = bytes.split_at(2);
    let length = BigEndian::read_u16(body) as usize;
    let (_, body) = bytes.split_at(4);
    if BigEndian::read_u32(body) != MAGIC_COOKIE {
        return Err(StunError::BadCookie);
    }
    if length % 4 != 0 || HEADER_BYTES + length != bytes.len() {
        return Err(StunError::BadLength);
    }
    Ok(())
}

/// Parses a datagram as a message, in time linear in its bytes. It copies and allocates nothing.
///
/// # Errors
/// Returns the first refusal of [`StunError`], in their order. An attribute may also overrun after the first
/// MESSAGE-INTEGRITY.
pub fn read(bytes: &[u8]) -> Result<Message<'_>, StunError>
    ensures reads { result_ok result ≡ message_in bytes.now }
    ensures message { IfOk result (λ m. IsMessage (message_of m) bytes.now) }
    ensures every { (m : SpecMessage) → IsMessage m bytes.now → IsOkAnd result (λ r. message_of r ≡ m) }
    ensures found { IfOk result (λ m. AreParts m × (bytes.now ≡ parts_bytes m)) }
    ensures only { (p : Parts) → AreParts p → bytes.now ≡ parts_bytes p → IsOkAnd result (λ m. m ≡ p) }
    ensures refused { IfErr result (IsRefusedMessage bytes.now) }
{
    test_header(bytes)?;
    let (_, attributes) = bytes.split_at(HEADER_BYTES);
    let integrity = scan(attributes)?;
    Ok(Message { bytes, integrity })
}

/// States that bytes have at most one refusal.
pub fn law_refusals_are_unique()
    ensures { (bytes : List ℕ) (d e : StunError) → IsRefusedMessage bytes d → IsRefusedMessage bytes e → d ≡ e }
{}

/// States that bytes which are refused encode no message.
pub fn law_refused_is_no_message()
    ensures { (bytes : List ℕ) (e : StunError) (p : Parts)
        → IsRefusedMessage bytes e → AreParts p → bytes ≡ parts_bytes p → ⊥ }
{}

/// States that a datagram has at most one list of parts.
pub fn law_parts_are_unique()
    ensures { (p q : Parts) → AreParts p → AreParts q → parts_bytes p ≡ parts_bytes q → p ≡ q }
{}

/// States that `message_in` has the parts that a datagram encodes, if it encodes some.
pub fn law_message_in_has_the_parts()
    ensures found { (p : Parts) (bytes : List ℕ) → message_in bytes ≡ Some p → AreParts p × (bytes ≡ parts_bytes p) }
    ensures every { (p : Parts) (bytes : List ℕ) → AreParts p → bytes ≡ parts_bytes p → message_in bytes ≡ Some p }
{}

/// States that a datagram encodes at most one message.
pub fn law_messages_are_unique()
    ensures { (m n : SpecMessage) (bytes : List ℕ) → IsMessage m bytes → IsMessage n bytes → m ≡ n }
{}
