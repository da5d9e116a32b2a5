//! Program files that are put in order.

ghost use Rattle.std.specs.Prelude.{◌≡◌, List, IfOk, IfErr, Some};
ghost use Rattle.insn.specs.Encoding.{Encodes};
ghost use Rattle.insn.specs.declared.instruction.Insn.{Insn};
ghost use Rattle.verifier.specs.Layout.{HasGoodJumps};
ghost use Rattle.ordering.specs.declared.file.FileError.TheVariants.{Memory};
ghost use Rattle.ordering.specs.Files.{IsInOrder, IsFileFault, file_error_text};

use crate::error::OrderError;
use crate::pass::order_with_places;
use crate::places::{InOrder, Places};
use insn::{DecodeError, decode, encode};
use std::alloc::{AllocError, Global};
use std::error::Error;
use std::fmt;

/// Why the bytes of a file are not put in order. Displays as what stands after `refused`.
#[derive(Clone, Copy, Debug, PartialEq, Eq)]
pub enum FileError {
    /// They encode no program.
    Program(DecodeError),
    /// The program has no such order.
    Order(OrderError),
    /// Memory ran out.
    Memory,
}

impl fmt::Display for FileError {
    ghost output = { λ e. Some (file_error_text e) };

    fn fmt<W: fmt::Write>(&self, f: &mut fmt::Formatter<W>) -> fmt::Result {
        match self {
            FileError::Program(refusal) => write!(f, "{refusal}"),
            FileError::Order(refusal) => write!(f, "{refusal}"),
            FileError::Memory => f.write_str("memory"),
        }
    }
}

impl Error for FileError {}

impl From<AllocError> for FileError {
    ghost from_gives = { λ _ e. e ≡ Memory };

    fn from(_: AllocError) -> FileError {
        FileError::Memory
    }
}

/// A program all of whose jumps lead forward, as the bytes of a file.
#[derive(Drop)]
pub struct FileInOrder {
    pub bytes: Vec<u8>,
    /// Where the instructions of the program are that was put in order.
    pub places: Places,
}

/// Returns the encoding of a program with the same meaning as the one that bytes encode, all of whose jumps lead
/// forward, as [`order_with_places`] puts it in order, and the places of its instructions.
///
/// # Errors
/// The first fault of the bytes, the fault of the program, or `Memory`.
pub fn order_file(alloc: Global, bytes: &[u8]) -> Result<FileInOrder, FileError>
    ensures ok { IfOk result (λ new. IsInOrder bytes.now new.bytes.items new.places) }
    ensures unchanged { (code : List Insn) → Encodes code bytes.now → HasGoodJumps code
        → IfOk result (λ new. new.bytes.items ≡ bytes.now) }
    ensures refused { IfErr result (IsFileFault bytes.now) }
{
    let code = match decode(alloc, bytes) {
        Ok(code) => code,
        Err(DecodeError::Memory) => return Err(FileError::Memory),
        Err(refusal) => return Err(FileError::Program(refusal)),
    };
    match order_with_places(alloc, &code) {
        Ok(InOrder { code, places }) => {
            let bytes = encode(alloc, &code)?;
            Ok(FileInOrder { bytes, places })
        }
        Err(OrderError::Memory) => Err(FileError::Memory),
        Err(refusal) => Err(FileError::Order(refusal)),
    }
}
