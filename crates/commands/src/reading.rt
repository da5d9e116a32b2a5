//! The files that commands read.

use std::fs;
use std::io::{self, Read, Write};
use std::rt::Files;

/// Reads a file whole, or standard input for the file `-`.
/// See docs/DECISIONS.md, "A program file is read whole".
pub(crate) fn read_whole<R: Files + Input + AllocGlobal>(
    rt: &R,
    path: &str,
) -> io::Result<Vec<u8>> {
    if path != "-" {
        return fs::read(rt, path);
    }
    let mut bytes = Vec::new(rt.alloc());
    rt.reader().read_to_end(&mut bytes)?;
    Ok(bytes)
}

/// Reads the file of a text, or standard input for the file `-`.
pub(crate) fn read_text<R: Files + Input + AllocGlobal>(rt: &R, path: &str) -> io::Result<String> {
    if path == "-" {
        io::read_to_string(rt.alloc(), rt.reader())
    } else {
        fs::read_to_string(rt, path)
    }
}

/// Prints what to do with an object file, where a file is one.
pub(crate) fn note_object_file<E: Write>(err: &mut E, file: &[u8]) {
    if file.starts_with(b"\x7fELF") {
        let _ = writeln!(
            err,
            "an object file: take its .text by llvm-objcopy -O binary --only-section=.text"
        );
    }
}
