//! An input: a reader, and whether it has failed.

ghost use Rattle.std.specs.Prelude.{◌≡◌, ◌+◌, ◌^◌, ◌<◌, ◌≤◌, length, IfOk, OnOk};
ghost use Rattle.basics.specs.Shown.{HasShown};

use std::io::{BufRead, ErrorKind};
use std::marker::Model;

/// Why a line was not read on.
#[derive(Clone, Copy, Debug, PartialEq, Eq)]
pub enum InputError {
    /// The input has failed: a call of its reader failed, other than by an interruption.
    Failed,
    /// Memory ran out.
    Memory,
}

/// Appends what a reader shows of the rest of a line to `line`, with its line feed, and drops it from the reader.
/// Returns how many bytes, at most `most`, and 0 at the end. Calls of the reader are counted, and interrupted ones are
/// made again.
///
/// # Errors
/// `Failed` where the reader fails, or where 2^64 - 1 calls of it were made; and `Memory`.
fn append_shown<R: BufRead>(
    reader: &mut R,
    calls: &mut u64,
    line: &mut Vec<u8>,
    most: usize,
) -> Result<usize, InputError>
    requires { 0 < most }
    ensures shown { IfOk result
        (HasShown (R.remaining reader.old) (R.remaining reader.new) line.old.items line.new.items) }
    ensures short { length line.new.items ≤ length line.old.items + most }
    ensures more { OnOk result (calls.old < calls.new) }
    ensures few { OnOk result (calls.new < 2 ^ 64) }
{
    while *calls < u64::MAX {
        *calls += 1;
        match reader.fill_buf() {
            Ok(shown) => {
                let mut shown = &shown[..shown.len().min(most)];
                let Ok(count) = shown.read_until(b'\n', line) else {
                    return Err(InputError::Memory);
                };
                reader.consume(count);
                return Ok(count);
            }
            Err(e) if e.kind() == ErrorKind::Interrupted => {}
            Err(_) => return Err(InputError::Failed),
        }
    }
    Err(InputError::Failed)
}

/// A reader, and whether it has failed. It counts the calls of the reader, so that whoever reads an input to its end
/// ends too, although no reader says that it has an end.
#[derive(Drop)]
pub struct Input<R: BufRead> {
    reader: R,
    calls: u64,
    has_failed: bool,
}

impl<R: BufRead> Model for Input<R> {
    ghost use Rattle.basics.specs.Inputs.{InputState};

    ghost Value = { InputState };

    ghost view = { λ i. record {
      remaining = R.remaining i.reader;
      calls = i.calls;
      failed = i.has_failed;
    } };
}

impl<R: BufRead> Input<R> {
    ghost use Rattle.std.specs.Prelude.{◌≡◌, false, IfOk, OnOk};
    ghost use Rattle.basics.specs.Inputs.{is_failure};

    /// Makes an input of a reader. It has not failed.
    pub fn new(reader: R) -> Input<R>
        ensures remaining { result.remaining ≡ R.remaining reader }
        ensures calls { result.calls ≡ 0 }
        ensures failed { result.failed ≡ false }
    {
        Input {
            reader,
            calls: 0,
            has_failed: false,
        }
    }

    /// Returns whether the input has failed.
    pub fn has_failed(&self) -> bool
        ensures { result ≡ self.now.failed }
    {
        self.has_failed
    }

    /// Appends what the reader shows of the rest of a line to `line`, with its line feed, and drops it from the reader.
    /// Returns how many bytes, at most `most`, and 0 at the end of the input. Interrupted calls of the reader are made
    /// again.
    ///
    /// # Errors
    /// `Failed` where the reader fails, or where 2^64 - 1 calls of it were made: then the input has failed. `Memory`
    /// where the line can't grow.
    pub fn append_shown(&mut self, line: &mut Vec<u8>, most: usize) -> Result<usize, InputError>
        requires going { self.old.failed ≡ false }
        requires some { 0 < most }
        ensures shown { IfOk result
            (HasShown self.old.remaining self.new.remaining line.old.items line.new.items) }
        ensures short { length line.new.items ≤ length line.old.items + most }
        ensures more { OnOk result (self.old.calls < self.new.calls) }
        ensures few { OnOk result (self.new.calls < 2 ^ 64) }
        ensures failed { self.new.failed ≡ is_failure result }
    {
        let shown = append_shown(&mut self.reader, &mut self.calls, line, most);
        self.has_failed = shown == Err(InputError::Failed);
        shown
    }
}
