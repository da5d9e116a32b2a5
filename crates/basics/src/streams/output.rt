//! An output: a writer, and whether it has failed.

ghost use Rattle.std.specs.Prelude.{OnOk, OnErr};
ghost use Rattle.std.specs.Io.KnownBytes.{Appends, Keeps};
ghost use Rattle.basics.specs.Outputs.{AppendsBeginning};

use std::fmt::Display;
use std::io::{ErrorKind, Write};
use std::marker::Model;

/// An output has failed: a call of its writer failed, other than by an interruption, or took none of the bytes.
#[derive(Clone, Copy, Debug, PartialEq, Eq)]
pub struct Failed;

/// Writes all of some bytes. Interrupted calls are made again.
///
/// # Errors
/// The first failure of the writer; a beginning of the bytes was written.
fn write_whole<W: Write>(writer: &mut W, bytes: &[u8]) -> Result<(), Failed>
    ensures ok { OnOk result (Appends (W.contents writer.old) (W.contents writer.new) bytes.now) }
    ensures err { OnErr result (AppendsBeginning (W.contents writer.old) (W.contents writer.new) bytes.now) }
{
    let mut rest = bytes;
    for _ in 0..u64::MAX {
        if rest.is_empty() {
            return Ok(());
        }
        match writer.write(rest) {
            Ok(0) => return Err(Failed),
            Ok(n) => rest = &rest[n..],
            Err(e) => {
                if e.kind() != ErrorKind::Interrupted {
                    return Err(Failed);
                }
            }
        }
    }
    Err(Failed)
}

/// Flushes a writer. Interrupted calls are made again.
///
/// # Errors
/// The first failure of the writer.
fn flush_whole<W: Write>(writer: &mut W) -> Result<(), Failed>
    ensures { Keeps (W.contents writer.old) (W.contents writer.new) }
{
    for _ in 0..u64::MAX {
        match writer.flush() {
            Ok(()) => return Ok(()),
            Err(e) => {
                if e.kind() != ErrorKind::Interrupted {
                    return Err(Failed);
                }
            }
        }
    }
    Err(Failed)
}

/// A writer, and whether it has failed. Each function that writes requires that it has not, and nothing else reaches
/// the writer: so nothing is written after its first failure.
#[derive(Drop)]
pub struct Output<W: Write> {
    writer: W,
    has_failed: bool,
}

impl<W: Write> Model for Output<W> {
    ghost use Rattle.basics.specs.Outputs.{OutputState};

    ghost Value = { OutputState };

    ghost view = { λ o. record { contents = W.contents o.writer; failed = o.has_failed } };
}

impl<W: Write> Output<W> {
    ghost use Rattle.std.specs.Prelude.{◌≡◌, false, is_err, IfSome, OnOk, OnErr};

    /// Makes an output of a writer. It has not failed.
    pub fn new(writer: W) -> Output<W>
        ensures contents { result.contents ≡ W.contents writer }
        ensures failed { result.failed ≡ false }
    {
        Output {
            writer,
            has_failed: false,
        }
    }

    /// Returns whether the output has failed.
    pub fn has_failed(&self) -> bool
        ensures { result ≡ self.now.failed }
    {
        self.has_failed
    }

    /// Writes all of some bytes. Interrupted calls of the writer are made again, 2^64 - 2 times at most.
    ///
    /// # Errors
    /// The writer failed, or took none of the bytes; a beginning of them was written. Then the output has failed.
    pub fn write_all(&mut self, bytes: &[u8]) -> Result<(), Failed>
        requires { self.old.failed ≡ false }
        ensures ok { OnOk result (Appends self.old.contents self.new.contents bytes.now) }
        ensures err { OnErr result (AppendsBeginning self.old.contents self.new.contents bytes.now) }
        ensures failed { self.new.failed ≡ is_err result }
    {
        let written = write_whole(&mut self.writer, bytes);
        self.has_failed = written.is_err();
        written
    }

    /// Writes a text: what `write!` and `writeln!` call.
    ///
    /// # Errors
    /// The writer failed, or the text's own `fmt` did. Then the output has failed.
    pub fn write_fmt<D: Display + Drop>(&mut self, text: D) -> Result<(), Failed>
        requires { self.old.failed ≡ false }
        ensures ok { OnOk result (IfSome (D.output text) (Appends self.old.contents self.new.contents)) }
        ensures failed { self.new.failed ≡ is_err result }
    {
        let written = self.writer.write_fmt(text).map_err(|_| Failed);
        self.has_failed = written.is_err();
        written
    }

    /// Flushes the writer. Interrupted calls are made again, 2^64 - 2 times at most.
    ///
    /// # Errors
    /// The writer failed. Then the output has failed.
    pub fn flush(&mut self) -> Result<(), Failed>
        requires { self.old.failed ≡ false }
        ensures bytes { Keeps self.old.contents self.new.contents }
        ensures failed { self.new.failed ≡ is_err result }
    {
        let flushed = flush_whole(&mut self.writer);
        self.has_failed = flushed.is_err();
        flushed
    }

    /// Returns the writer.
    pub fn into_inner(self) -> W
        ensures { W.contents result ≡ self.contents }
    {
        self.writer
    }
}
