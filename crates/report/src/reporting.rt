//! Prints the reports of `verify`, `trace` and `disassemble` on a program file, and returns their exit statuses.

ghost use Rattle.std.specs.Prelude.{◌≡◌, ◌==◌, ◌⊎◌, ◌≤◌, ◌<◌, IfOk, IfErr, OnOk, MatchResult, string_bytes, true, false};
ghost use Rattle.std.specs.Io.KnownBytes.{Appends};
ghost use Rattle.insn.specs.Encoding.{Encodes, slot_count};
ghost use Rattle.insn.specs.declared.decoding.TheConstants.{MAX_SLOTS};
ghost use Rattle.machine.specs.Contents.{datagram_of};
ghost use Rattle.machine.specs.Contexts.{context_of};
ghost use Rattle.machine.specs.Tracing.{run_of};
ghost use Rattle.report.specs.Traces.{digits_of, trace_context, EncodeDatagram, HasNoDatagram, IsEndStatus};
ghost use Rattle.report.specs.declared.error.ReportError.TheVariants as errors;
ghost use Rattle.report.specs.declared.reporting.Ask.TheVariants.{Disassemble, Trace, Verify};
ghost use Rattle.report.specs.Statuses.{IsNoProgram, IsPrinted, IsRefusal, IsUnwritten, IsReportWritten, MayFail, Succeeds};
ghost use Rattle.report.specs.Statuses.{is_output_failure, Writes, WritesIfRefused};
ghost use Rattle.report.specs.Texts.{end_text, program_text, trace_text};

use crate::error::{ReportError, fail};
use crate::text::{Destination, Window};
use basics::streams::Output;
use disasm::{disassemble, disassemble_with_slots};
use insn::{DecodeError, Insn, decode};
use loader::{LoadError, load};
use machine::{
    Addr, Context, Frame, Helpers, MAX_DATAGRAM, NoAllocation, Outcome, Side, Stuck, trace,
};
use std::alloc::{AllocError, Global};
use std::io::Write;
use verifier::Refusal;

/// The report to print on a program file.
#[derive(Clone, Copy, Debug)]
pub enum Ask<'a> {
    /// Whether the program may be loaded.
    Verify,
    /// Each step of the program over a datagram, in hexadecimal digits of either case. `None` stands
    /// for the empty datagram.
    Trace { hex: Option<&'a str> },
    /// The program as text, with the slot of each instruction where `slots` says so.
    Disassemble { slots: bool },
}

/// The context of a trace: the client's side, the source 127.0.0.1:9, and a transaction id of zeros.
const CONTEXT: Context = Context {
    side: Side::Client,
    source: Addr::V4 {
        ip: [127, 0, 0, 1],
        port: 9,
    },
    tx: [0; 12],
};

/// Prints a line.
macro_rules! line {
    ($out:expr; $($text:tt)*) => {
        writeln!($out, $($text)*).map_err(|_| ReportError::Output)
    };
}

/// Prints whether the program may be loaded, and returns the status.
/// See docs/DECISIONS.md, "One form of a count".
fn report_verify<W: Write>(
    alloc: Global,
    file: &[u8],
    out: &mut Output<W>,
) -> Result<u8, ReportError>
    requires { out.old.failed ≡ false }
    ensures printed { IfOk result (IsPrinted Verify file.now) }
    ensures written { IfOk result (IsReportWritten Verify file.now out.old.contents out.new.contents) }
    ensures why { IfErr result (MayFail Verify file.now) }
    ensures failed { out.new.failed ≡ is_output_failure result }
{
    match load(alloc, file) {
        Ok(loaded) => {
            let count = loaded.program().code().len();
            line!(out; "accepted {count} instructions")?;
            Ok(0)
        }
        Err(LoadError::Decode(DecodeError::Memory)) => Err(ReportError::Memory),
        Err(LoadError::Verify(Refusal::Memory { .. })) => Err(ReportError::Memory),
        Err(refusal) => {
            line!(out; "refused {refusal}")?;
            Ok(1)
        }
    }
}

/// Decodes hexadecimal digits of either case into a frame, and starts it on that datagram, in a context. `None` stands
/// for the empty datagram.
///
/// # Errors
/// `Data` where the digits encode no datagram.
pub fn start_frame(
    frame: &mut Frame,
    context: &Context,
    hex: Option<&str>,
) -> Result<(), ReportError>
    ensures started { OnOk result (frame.new.is_started ≡ true) }
    ensures context { OnOk result (frame.new.context ≡ context.now) }
    ensures datagram { OnOk result (EncodeDatagram (digits_of hex.entry) (datagram_of frame.new)) }
    ensures refused { IfErr result (λ e. (e ≡ errors.Data) × HasNoDatagram (digits_of hex.entry)) }
{
    let digits = hex.unwrap_or("").as_bytes();
    let n = digits.len() / 2;
    if n > MAX_DATAGRAM {
        return Err(ReportError::Data);
    }
    let (datagram, _) = frame.area().split_at_mut(n);
    match hex::decode_to_slice(digits, datagram) {
        Ok(()) => {
            frame.start(context, n);
            Ok(())
        }
        Err(_) => Err(ReportError::Data),
    }
}

/// Prints how a traced run ended, and returns the status: 0 for an exit, 1 where it is stuck.
///
/// # Errors
/// `Output`.
pub fn report_end<W: Write>(
    ended: Result<Outcome, Stuck>,
    out: &mut Output<W>,
) -> Result<u8, ReportError>
    requires { out.old.failed ≡ false }
    ensures printed { IfOk result (λ status. MatchResult ended (λ o. status ≡ 0) (λ e. status ≡ 1)) }
    ensures written { OnOk result (Appends out.old.contents out.new.contents (end_text ended)) }
    ensures why { IfErr result (λ e. e ≡ errors.Output) }
    ensures failed { out.new.failed ≡ is_output_failure result }
{
    let outcome = match ended {
        Ok(outcome) => outcome,
        Err(stuck) => {
            line!(out; "stuck {stuck}")?;
            return Ok(1);
        }
    };
    let verdict = outcome.verdict;
    let window = Window(outcome.window);
    let destination = Destination(outcome.destination);
    line!(out; "exit {verdict}\nwindow {window}\ndestination {destination}")?;
    Ok(0)
}

/// Decodes the program in a file.
fn program(alloc: Global, file: &[u8]) -> Result<Vec<Insn>, ReportError>
    ensures found { IfOk result (λ code. Encodes code.items file.now) }
    ensures refused { IfErr result (IsNoProgram file.now) }
    ensures going { is_output_failure result ≡ false }
{
    match decode(alloc, file) {
        Ok(code) => Ok(code),
        Err(DecodeError::Memory) => Err(ReportError::Memory),
        Err(refusal) => Err(ReportError::Program(refusal)),
    }
}

/// Returns the text of a program.
fn text_of(alloc: Global, code: &[Insn], slots: bool) -> Result<String, AllocError>
    requires { slot_count code.now ≤ MAX_SLOTS }
    ensures { IfOk result (λ text. string_bytes text ≡ program_text slots code.now) }
{
    if slots {
        disassemble_with_slots(alloc, code)
    } else {
        disassemble(alloc, code)
    }
}

/// Prints the program as text, and returns the status.
fn report_disassembly<W: Write>(
    alloc: Global,
    slots: bool,
    file: &[u8],
    out: &mut Output<W>,
) -> Result<u8, ReportError>
    requires { out.old.failed ≡ false }
    ensures printed { IfOk result (IsPrinted (Disassemble slots) file.now) }
    ensures written { IfOk result (IsReportWritten (Disassemble slots) file.now out.old.contents out.new.contents) }
    ensures unwritten { IfErr result (IsUnwritten out.old.contents out.new.contents) }
    ensures why { IfErr result (MayFail (Disassemble slots) file.now) }
    ensures failed { out.new.failed ≡ is_output_failure result }
{
    let code = program(alloc, file)?;
    let text = text_of(alloc, &code, slots).map_err(|_| ReportError::Memory)?;
    out.write_all(text.as_bytes())
        .map_err(|_| ReportError::Output)?;
    Ok(0)
}

/// Decodes what a trace runs: first the digits, into the frame, which starts on that datagram, and then the program.
fn prepare(
    alloc: Global,
    frame: &mut Frame,
    hex: Option<&str>,
    file: &[u8],
) -> Result<Vec<Insn>, ReportError>
    ensures started { OnOk result (frame.new.is_started ≡ true) }
    ensures context { OnOk result (context_of frame.new.context ≡ trace_context) }
    ensures datagram { OnOk result (EncodeDatagram (digits_of hex.entry) (datagram_of frame.new)) }
    ensures found { IfOk result (λ code. Encodes code.items file.now) }
    ensures why { IfErr result (MayFail (Trace hex.entry) file.now) }
    ensures going { is_output_failure result ≡ false }
{
    start_frame(frame, &CONTEXT, hex)?;
    program(alloc, file)
}

/// Prints each step of a program over a started frame, and how its run ended, and returns the status: 0 for an exit, 1
/// where it is stuck. Afterwards the frame is not started.
///
/// # Errors
/// `Output`.
pub fn report_run<W: Write, H: Helpers>(
    code: &[Insn],
    frame: &mut Frame,
    helpers: &H,
    out: &mut Output<W>,
) -> Result<u8, ReportError>
    requires few { slot_count code.now ≤ MAX_SLOTS }
    requires started { frame.old.is_started ≡ true }
    requires going { out.old.failed ≡ false }
    ensures ended { IfOk result (IsEndStatus (run_of code.now frame.old (H.answers helpers.now)).ending) }
    ensures written { OnOk result (Appends out.old.contents out.new.contents
        (trace_text (run_of code.now frame.old (H.answers helpers.now)))) }
    ensures why { IfErr result (λ e. e ≡ errors.Output) }
    ensures failed { out.new.failed ≡ is_output_failure result }
{
    let ended = trace(code, frame, helpers, out);
    if out.has_failed() {
        return Err(ReportError::Output);
    }
    report_end(ended, out)
}

/// Prints each step of the program over the datagram, and how its run ended, and returns the status.
fn report_trace<W: Write>(
    alloc: Global,
    hex: Option<&str>,
    file: &[u8],
    out: &mut Output<W>,
) -> Result<u8, ReportError>
    requires { out.old.failed ≡ false }
    ensures printed { IfOk result (IsPrinted (Trace hex.entry) file.now) }
    ensures written { IfOk result (IsReportWritten (Trace hex.entry) file.now out.old.contents out.new.contents) }
    ensures unwritten { IfErr result (IsUnwritten out.old.contents out.new.contents) }
    ensures why { IfErr result (MayFail (Trace hex.entry) file.now) }
    ensures failed { out.new.failed ≡ is_output_failure result }
{
    let mut frame = Frame::new(alloc).map_err(|_| ReportError::Memory)?;
    let code = prepare(alloc, &mut frame, hex, file)?;
    report_run(&code, &mut frame, &NoAllocation, out)
}

/// Prints the report, flushes the output and returns the status.
fn print<W: Write>(
    alloc: Global,
    ask: Ask<'_>,
    file: &[u8],
    out: &mut Output<W>,
) -> Result<u8, ReportError>
    requires { out.old.failed ≡ false }
    ensures printed { IfOk result (IsPrinted ask.entry file.now) }
    ensures written { IfOk result (IsReportWritten ask.entry file.now out.old.contents out.new.contents) }
    ensures unwritten { IfErr result (IsUnwritten out.old.contents out.new.contents) }
    ensures why { IfErr result (MayFail ask.entry file.now) }
    ensures failed { out.new.failed ≡ is_output_failure result }
{
    let status = match ask {
        Ask::Verify => report_verify(alloc, file, out)?,
        Ask::Trace { hex } => report_trace(alloc, hex, file, out)?,
        Ask::Disassemble { slots } => report_disassembly(alloc, slots, file, out)?,
    };
    out.flush().map_err(|_| ReportError::Output)?;
    Ok(status)
}

/// Prints a report on a program file to `out`, and the line of an error to `err`. Returns the exit
/// status:
///
/// - 0 if the program may be loaded, if its traced run exits, or if its text is printed.
/// - 1 if the program is refused, if its traced run gets stuck, or if the digits or the file of a trace
///   or a disassembly are refused; the digits are tested first.
/// - 3 if, and only if, the output fails. A trace or a text is only printed if neither the digits nor the
///   file are refused.
/// - 4 if memory runs out.
/// See docs/DECISIONS.md, "The output is flushed once".
pub fn report<W: Write, E: Write>(
    alloc: Global,
    ask: Ask<'_>,
    file: &[u8],
    out: &mut Output<W>,
    err: &mut E,
) -> u8
    requires { out.old.failed ≡ false }
    ensures range { (result ≡ 0) ⊎ ((result ≡ 1) ⊎ ((result ≡ 3) ⊎ (result ≡ 4))) }
    ensures success { result ≡ 0 → Succeeds ask.entry file.now }
    ensures written { result ≡ 0 → Writes ask.entry file.now out.old.contents out.new.contents }
    ensures refusal { result ≡ 1 → IsRefusal ask.entry file.now }
    ensures written_refusal { result ≡ 1
        → WritesIfRefused ask.entry file.now out.old.contents out.new.contents }
    ensures output { result ≡ 3 → MayFail ask.entry file.now errors.Output }
    ensures failed { out.new.failed ≡ (result == 3) }
{
    match print(alloc, ask, file, out) {
        Ok(status) => status,
        Err(error) => fail(err, error),
    }
}
