//! Writes the lines of events and of answers.

ghost use Rattle.std.specs.Prelude.{◌≡◌, ◌≤◌, ◌++◌, ◌∷◌, [], false, is_err, length, OnOk, OnErr};
ghost use Rattle.std.specs.Io.KnownBytes.{Appends};
ghost use Rattle.hex.specs.Hex.{encode_lower};
ghost use Rattle.basics.specs.Outputs.{AppendsBeginning};
ghost use Rattle.events.specs.Actions.{sending_of};
ghost use Rattle.events.specs.Fields.{field_text};
ghost use Rattle.events.specs.LentEvents.{as_event};
ghost use Rattle.events.specs.Lines.{bytes_text, line_of, answer_line};
ghost use Rattle.events.specs.declared.writing.TheConstants.{CHUNK};

use crate::action::Action;
use crate::event::Event;
use crate::fronts::{client_front, datagram_front, peer_front};
use basics::streams::{Failed, Output};
use std::io::Write;

/// How many bytes are written as digits at once.
const CHUNK: usize = 512;

/// Writes at most [`CHUNK`] bytes as hexadecimal digits.
fn write_digits<W: Write>(output: &mut Output<W>, bytes: &[u8]) -> Result<(), Failed>
    requires going { output.old.failed ≡ false }
    requires few { length bytes.now ≤ CHUNK }
    ensures ok { OnOk result (Appends output.old.contents output.new.contents (encode_lower bytes.now)) }
    ensures err { OnErr result (AppendsBeginning output.old.contents output.new.contents (encode_lower bytes.now)) }
    ensures failed { output.new.failed ≡ is_err result }
{
    let mut room = [0u8; 2 * CHUNK];
    let digits = &mut room[..2 * bytes.len()];
    let Ok(()) = hex::encode_to_slice(bytes, digits) else {
        unreachable!();
    };
    output.write_all(digits)
}

/// Writes bytes as hexadecimal digits; no bytes as a hyphen.
fn write_bytes<W: Write>(output: &mut Output<W>, bytes: &[u8]) -> Result<(), Failed>
    requires { output.old.failed ≡ false }
    ensures ok { OnOk result (Appends output.old.contents output.new.contents (bytes_text bytes.now)) }
    ensures err { OnErr result (AppendsBeginning output.old.contents output.new.contents (bytes_text bytes.now)) }
    ensures failed { output.new.failed ≡ is_err result }
{
    if bytes.is_empty() {
        return output.write_all(b"-");
    }
    for chunk in bytes.chunks(CHUNK) {
        write_digits(output, chunk)?;
    }
    Ok(())
}

/// The last field of a line.
#[derive(Clone, Copy)]
enum LineField<'a> {
    /// Bytes, which are written as hexadecimal digits; no bytes as a hyphen.
    Digits(&'a [u8]),
    /// A text, which is written as it is.
    Text(&'a str),
}

/// Writes the last field of a line.
fn write_field<W: Write>(output: &mut Output<W>, field: LineField<'_>) -> Result<(), Failed>
    requires { output.old.failed ≡ false }
    ensures ok { OnOk result (Appends output.old.contents output.new.contents (field_text field.entry)) }
    ensures err { OnErr result (AppendsBeginning output.old.contents output.new.contents (field_text field.entry)) }
    ensures failed { output.new.failed ≡ is_err result }
{
    match field {
        LineField::Digits(bytes) => write_bytes(output, bytes),
        LineField::Text(text) => output.write_all(text.as_bytes()),
    }
}

/// Writes a line: what precedes its last field, that field, and what ends the line.
fn write_line<W: Write>(
    output: &mut Output<W>,
    front: &[u8],
    field: LineField<'_>,
    ending: &[u8],
) -> Result<(), Failed>
    requires { output.old.failed ≡ false }
    ensures ok { OnOk result (Appends output.old.contents output.new.contents
        (front.now ++ field_text field.entry ++ ending.now)) }
    ensures err { OnErr result (AppendsBeginning output.old.contents output.new.contents
        (front.now ++ field_text field.entry ++ ending.now)) }
    ensures failed { output.new.failed ≡ is_err result }
{
    output.write_all(front)?;
    write_field(output, field)?;
    output.write_all(ending)
}

/// Writes the line of what a step sends, and then `ending`, which is or ends in a line feed.
///
/// # Errors
/// Where the output fails; a beginning of the line was written.
pub fn write_answer<W: Write>(
    output: &mut Output<W>,
    action: &Action<'_>,
    ending: &[u8],
) -> Result<(), Failed>
    requires { output.old.failed ≡ false }
    ensures ok { OnOk result (Appends output.old.contents output.new.contents
        (answer_line (sending_of action.now) ++ ending.now)) }
    ensures err { OnErr result (AppendsBeginning output.old.contents output.new.contents
        (answer_line (sending_of action.now) ++ ending.now)) }
    ensures failed { output.new.failed ≡ is_err result }
{
    match action {
        Action::Nothing => write_line(output, b"", LineField::Text("-"), ending),
        Action::ToPeer { slot, peer, bytes } => {
            write_line(
                output,
                peer_front(*slot, peer).as_slice(),
                LineField::Digits(bytes),
                ending,
            )
        }
        Action::ToClient { client, bytes } => {
            write_line(
                output,
                client_front(client).as_slice(),
                LineField::Digits(bytes),
                ending,
            )
        }
    }
}

/// Writes the line of what comes to a relay, with its line feed. [`parse`](crate::parse) reads it as that event, if a
/// relay can have it.
///
/// # Errors
/// Where the output fails; a beginning of the line was written.
pub fn write_event<W: Write>(output: &mut Output<W>, event: &Event<'_>) -> Result<(), Failed>
    requires { output.old.failed ≡ false }
    ensures ok { OnOk result (Appends output.old.contents output.new.contents
        (line_of (as_event event.now) ++ 10 ∷ [])) }
    ensures err { OnErr result (AppendsBeginning output.old.contents output.new.contents
        (line_of (as_event event.now) ++ 10 ∷ [])) }
    ensures failed { output.new.failed ≡ is_err result }
{
    match event {
        Event::Datagram { meta, bytes } => {
            write_line(
                output,
                datagram_front(meta).as_slice(),
                LineField::Digits(bytes),
                b"\n",
            )
        }
        Event::Nonce(text) => write_line(output, b"n ", LineField::Text(text), b"\n"),
    }
}
