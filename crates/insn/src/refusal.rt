//! The refusals of `decode`.

ghost use Rattle.std.specs.Prelude.{◌≡◌, Some};
ghost use Rattle.insn.specs.Refusal.{refusal_at, decode_error_text};
ghost use Rattle.insn.specs.declared.refusal.DecodeError.TheVariants.{Memory};

use std::alloc::{AllocError, AllocFailed};
use std::error::Error;
use std::fmt;

/// Why `decode` refuses bytes: the first of these that holds, in the order of their codes, but `E7` before
/// `E6`. Slots count from 0. Each prints its code and slot, as `E4 at 0`.
#[derive(Clone, Copy, Debug, PartialEq, Eq)]
pub enum DecodeError {
    /// The program has no bytes.
    Empty,
    /// The length is not a multiple of 8.
    NotEights,
    /// The program has more than 4,096 slots.
    TooLong,
    /// The first byte of this slot is not an opcode of this profile.
    Opcode(usize),
    /// A register number of this slot is above 10, in a field that the instruction doesn't use too.
    Register(usize),
    /// A field of this slot that the instruction doesn't use is not zero.
    UnusedField(usize),
    /// The instruction at this slot takes two slots, and the second one is missing.
    WideCut(usize),
    /// Memory ran out.
    Memory,
}

impl fmt::Display for DecodeError {
    ghost output = { λ e. Some (decode_error_text e) };

    fn fmt<W: fmt::Write>(&self, f: &mut fmt::Formatter<W>) -> fmt::Result {
        match self {
            DecodeError::Empty => f.write_str("E1"),
            DecodeError::NotEights => f.write_str("E2"),
            DecodeError::TooLong => f.write_str("E3"),
            DecodeError::Opcode(slot) => write!(f, "E4 at {slot}"),
            DecodeError::Register(slot) => write!(f, "E5 at {slot}"),
            DecodeError::UnusedField(slot) => write!(f, "E6 at {slot}"),
            DecodeError::WideCut(slot) => write!(f, "E7 at {slot}"),
            DecodeError::Memory => f.write_str("E8"),
        }
    }
}

impl Error for DecodeError {}

/// The fault of one slot.
#[derive(Clone, Copy, Debug, PartialEq, Eq)]
pub enum SlotError {
    Opcode,
    Register,
    WideCut,
    UnusedField,
}

impl SlotError {
    /// Returns the refusal of bytes whose first fault is this one, at this slot.
    pub fn at(self, slot: usize) -> DecodeError
        ensures { result ≡ refusal_at self slot }
    {
        match self {
            SlotError::Opcode => DecodeError::Opcode(slot),
            SlotError::Register => DecodeError::Register(slot),
            SlotError::WideCut => DecodeError::WideCut(slot),
            SlotError::UnusedField => DecodeError::UnusedField(slot),
        }
    }
}

impl From<AllocError> for DecodeError {
    ghost from_gives = { λ _ e. e ≡ Memory };

    fn from(_e: AllocError) -> DecodeError {
        DecodeError::Memory
    }
}

impl<T: Drop> From<AllocFailed<T>> for DecodeError {
    ghost from_gives = { λ _ e. e ≡ Memory };

    fn from(_e: AllocFailed<T>) -> DecodeError {
        DecodeError::Memory
    }
}
