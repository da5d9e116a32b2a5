//! Reading of lines, of which no more is kept than the longest line of an event has.

ghost use Rattle.std.specs.Prelude.{◌≡◌, ◌≢◌, ◌+◌, ◌^◌, ◌<◌, ◌≤◌, ◌⊎◌, true, false, [], length, IfOk, IfErr, IfSome, OnOk};
ghost use Rattle.std.specs.Io.BufRead.{DropsThrough};
ghost use Rattle.std.specs.Io.KnownBytes.{IsAtEnd};
ghost use Rattle.relay.specs.ReadLines.{IsLine};
ghost use Rattle.relay.specs.Replays.{is_read_failure};
ghost use Rattle.relay.specs.declared.lines.TheConstants.{MAX_LINE};
ghost use Rattle.relay.specs.declared.replaying.ReplayError.TheVariants as errors;

use crate::replaying::ReplayError;
use basics::streams::{Input, InputError};
use std::io::BufRead;

/// A line that is longer, in bytes, is no event's.
pub const MAX_LINE: usize = 131_200;

/// Reads a line over what `line` had, without its line feed, or one byte more than the longest line has. Returns
/// whether there was one.
/// See docs/DECISIONS.md, "Lines are read whole".
///
/// # Errors
/// `Read` where the input fails, and `Memory`.
pub fn next_line<R: BufRead>(input: &mut Input<R>, line: &mut Vec<u8>) -> Result<bool, ReplayError>
    requires { input.old.failed ≡ false }
    ensures line { IfOk result (λ more. more ≡ true
        → IfSome input.old.remaining (λ xs. (xs ≢ []) × IsLine line.new.items xs)) }
    ensures left { OnOk result (length line.new.items ≤ MAX_LINE
        → DropsThrough input.old.remaining input.new.remaining 10) }
    ensures end { IfOk result (λ more. more ≡ false
        → IsAtEnd input.old.remaining × DropsThrough input.old.remaining input.new.remaining 10) }
    ensures short { length line.new.items ≤ MAX_LINE + 1 }
    ensures why { IfErr result (λ e. (e ≡ errors.Read) ⊎ (e ≡ errors.Memory)) }
    ensures failed { input.new.failed ≡ is_read_failure result }
    ensures more { OnOk result (input.old.calls < input.new.calls) }
    ensures few { OnOk result (input.new.calls < 2 ^ 64) }
{
    line.clear();
    'pieces: loop {
        let count = match input.append_shown(line, MAX_LINE + 1 - line.len()) {
            Ok(count) => count,
            Err(InputError::Failed) => return Err(ReplayError::Read),
            Err(InputError::Memory) => return Err(ReplayError::Memory),
        };
        if line.last() == Some(&b'\n') {
            let _ = line.pop();
            return Ok(true);
        }
        if count == 0 {
            return Ok(!line.is_empty());
        }
        if line.len() > MAX_LINE {
            return Ok(true);
        }
    }
}
