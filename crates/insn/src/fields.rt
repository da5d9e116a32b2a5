//! The fields of a slot (RFC 9669, section 3).

ghost use Rattle.std.specs.Prelude.{◌≡◌, ◌≤◌, ◌++◌, length, take, drop};
ghost use Rattle.insn.specs.Fields.{HaveRoom, of_imm, slot_bytes};

use byteorder::{ByteOrder, LittleEndian};

/// The five fields of a slot (RFC 9669, section 3). `dst` is the low four bits of the register byte and `src` the high
/// four; `offset` and `imm` are signed and little-endian.
#[derive(Clone, Copy, Debug, PartialEq, Eq)]
pub struct Fields {
    pub opcode: u8,
    pub dst: u8,
    pub src: u8,
    pub offset: i16,
    pub imm: i32,
}

impl Fields {
    /// Returns the fields of a slot that has nothing but an imm.
    pub fn of_imm(imm: i32) -> Fields
        ensures value { result ≡ of_imm imm }
        ensures room { HaveRoom result }
    {
        Fields {
            opcode: 0,
            dst: 0,
            src: 0,
            offset: 0,
            imm,
        }
    }
}

/// The number of bytes of a slot.
pub const SLOT_BYTES: usize = 8;

/// Reads the fields of the slot at the beginning of the bytes.
pub fn read_slot(bytes: &[u8]) -> Fields
    requires { 8 ≤ length bytes.now }
    ensures room { HaveRoom result }
    ensures bytes { slot_bytes result ≡ take 8 bytes.now }
{
    let (_, numbers) = bytes.split_at(2);
    let (_, imm) = numbers.split_at(2);
    Fields {
        opcode: bytes[0],
        dst: bytes[1] % 16,
        src: bytes[1] / 16,
        offset: LittleEndian::read_i16(numbers),
        imm: LittleEndian::read_i32(imm),
    }
}

/// Writes the eight bytes of the fields over the first eight of `out`.
pub fn write_slot(fields: Fields, out: &mut [u8])
    requires fits { HaveRoom fields }
    requires room { 8 ≤ length out.old }
    ensures { out.new ≡ slot_bytes fields ++ drop 8 out.old }
{
    out[0] = fields.opcode;
    out[1] = fields.dst + 16 * fields.src;
    LittleEndian::write_i16(&mut out[2..], fields.offset);
    LittleEndian::write_i32(&mut out[4..], fields.imm);
}
