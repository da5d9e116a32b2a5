//! Messages built in a caller's buffer (RFC 8489, sections 5 and 14).

ghost use Rattle.stun.specs.Building.{IsBuilding};
ghost use Rattle.stun.specs.laws.Building.{IsBuilding-prop};

use crate::buffer::{append, append_if_room, length_in, write_header};
use crate::reading::HEADER_BYTES;
use crate::refusal::NoRoom;
use crate::value::AttributeValue;

/// A message that is being written into a caller's buffer. The length in its header is that of the attributes
/// so far. It allocates nothing.
#[derive(Drop)]
pub struct Builder<'a> {
    buffer: &'a mut [u8],
    ghost building: { IsBuilding buffer.now } by { IsBuilding-prop buffer.now },
}

impl<'a> Builder<'a> {
    ghost use Rattle.std.specs.Prelude.{◌≡◌, ◌+◌, ◌<◌, ◌≤◌, length, take, OnOk, OnErr, IfOk};
    ghost use Rattle.stun.specs.Messages.{AreParts, parts_bytes, message_of, IsMessage};
    ghost use Rattle.stun.specs.Building.{IsBuilding, building_parts, used_in, room_in, IsBegun};
    ghost use Rattle.stun.specs.Builders.{bytes_of, buffer_name, parts_of, used_of, capacity_of, SameBuffer, Appends, HasNoRoom};
    ghost use Rattle.std.specs.Borrow.{sem, Array, u8, RestsIfErr};

    /// Begins a message with no attributes over the first bytes of a buffer.
    /// See docs/DESIGN.md, "A proof by hand".
    ///
    /// # Errors
    /// Returns [`NoRoom`] for a buffer of less than 20 bytes, which it leaves unchanged.
    pub fn start(buffer: &'a mut [u8], kind: u16, tx: [u8; 12]) -> Result<Builder<'a>, NoRoom>
        requires { kind < 0x4000 }
        ensures* unchanged { sem 𝓛 (RestsIfErr (Array u8 0) buffer.entry buffer_name result
            (λ last. last ≡ buffer.old)) }
        ensures begins { IfOk result (λ b. IsBegun kind tx buffer.old (bytes_of b)) }
        ensures same_buffer { IfOk result (λ b. buffer_name b ≡ buffer.entry.ghost_name) }
        ensures no_room { OnErr result (length buffer.old < 20) }
    {
        if buffer.len() >= HEADER_BYTES {
            Ok(Builder::with_header(buffer, kind, tx))
        } else {
            Err(NoRoom)
        }
    }

    /// Writes the header of a message with no attributes, and returns its builder.
    fn with_header(buffer: &'a mut [u8], kind: u16, tx: [u8; 12]) -> Builder<'a>
        requires kind { kind < 0x4000 }
        requires room { 20 ≤ length buffer.old }
        ensures begins { IsBegun kind tx buffer.old (bytes_of result) }
        ensures same_buffer { buffer_name result ≡ buffer.entry.ghost_name }
    {
        write_header(buffer, kind, &tx);
        Builder::resume(buffer)
    }

    /// Returns the builder of the message that a buffer begins with.
    /// See docs/DESIGN.md, "Two ways to begin a message".
    pub fn resume(buffer: &'a mut [u8]) -> Builder<'a>
        requires { IsBuilding buffer.old }
        ensures bytes { bytes_of result ≡ buffer.old }
        ensures parts { parts_of result ≡ building_parts buffer.old }
        ensures used { used_of result ≡ used_in buffer.old }
        ensures room { capacity_of result ≡ room_in buffer.old }
        ensures same_buffer { buffer_name result ≡ buffer.entry.ghost_name }
    {
        Builder { buffer }
    }

    /// Returns the transaction id of the message.
    pub fn tx(&self) -> [u8; 12]
        ensures { result ≡ (parts_of self.now).tx }
    {
        let mut tx = [0; 12];
        let (_, id) = self.written().split_at(8);
        let (id, _) = id.split_at(12);
        tx.copy_from_slice(id);
        tx
    }

    /// Appends an attribute, with zeros up to a multiple of four bytes.
    ///
    /// # Errors
    /// Returns [`NoRoom`] where the message would be longer than the buffer or than 65,552 bytes, and changes
    /// nothing.
    pub fn attr(&mut self, kind: u16, value: &[u8]) -> Result<(), NoRoom>
        ensures appends { OnOk result (Appends kind value.now self.old self.new) }
        ensures no_room { OnErr result (HasNoRoom value.now self.old self.new) }
        ensures same_buffer { SameBuffer self.old self.new }
    {
        self.attr_of(kind, &value)
    }

    /// Appends an attribute, as [`Builder::attr`] does, whose value writes itself.
    ///
    /// # Errors
    /// Returns those of [`Builder::attr`].
    pub fn attr_of<V: AttributeValue>(&mut self, kind: u16, value: &V) -> Result<(), NoRoom>
        ensures appends { OnOk result (Appends kind (V.bytes value.now) self.old self.new) }
        ensures no_room { OnErr result (HasNoRoom (V.bytes value.now) self.old self.new) }
        ensures same_buffer { SameBuffer self.old self.new }
    {
        append_if_room(self.buffer, kind, value)
    }

    /// Appends an attribute where the caller knows that there is room, so that it can't fail: the 7 bytes
    /// beside the value are the type, the length and the most padding.
    /// See docs/DESIGN.md, "A push that cannot fail".
    pub fn push<V: AttributeValue>(&mut self, kind: u16, value: &V)
        requires room { used_of self.old + length (V.bytes value.now) + 7 ≤ capacity_of self.old }
        ensures appends { Appends kind (V.bytes value.now) self.old self.new }
        ensures same_buffer { SameBuffer self.old self.new }
    {
        append(self.buffer, kind, value);
    }

    /// Returns the message so far: the length in its header is that of the attributes so far.
    #[tactic(auto, unfolding(crate::specs::Building::building_parts))]
    pub fn written(&self) -> &[u8]
        ensures bytes { result.now ≡ parts_bytes (parts_of self.now) }
        ensures parts { AreParts (parts_of self.now) }
    {
        let length = length_in(self.buffer);
        let (message, _) = self.buffer.split_at(HEADER_BYTES + length);
        message
    }

    /// Ends the message, which is in the first bytes of the buffer, and returns its length.
    pub fn finish(self) -> usize
        ensures size { result ≡ used_of self.entry }
        ensures bytes { take result (bytes_of self.entry) ≡ parts_bytes (parts_of self.entry) }
        ensures message { IsMessage (message_of (parts_of self.entry))
            (take result (bytes_of self.entry)) }
        ensures inside { result ≤ capacity_of self.entry }
        ensures buffer { self.exit.0.now ≡ bytes_of self.entry }
    {
        self.written().len()
    }
}
