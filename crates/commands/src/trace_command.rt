//! The command `trace`: a run of the program in a file over one datagram, in a context and with an allocation that
//! options give.

ghost use Rattle.std.specs.Prelude.{IfOk, IfSome};
ghost use Rattle.tables.specs.Channels.{IsChannelNumber};

use crate::reading::read_whole;
use crate::reports::{map_of, print_annotated, read_lines, report_file};
use attributes::Family;
use basics::streams::Output;
use command_line::{OptionError, TraceOptions, Traced};
use helpers::Lookup;
use insn::{DecodeError, decode};
use machine::{Addr, Context, Frame, Side};
use report::{Ask, ReportError, report_run, start_frame};
use setup::{CommandError, status_of, unread};
use std::alloc::Global;
use std::io::{self, Write};
use std::net::{IpAddr, SocketAddr};
use std::rt::Files;
use tables::{FIRST_CHANNEL, LAST_CHANNEL, Tables};

/// The option of a channel.
const CHANNEL: &str = "--channel <N=A:P>";

/// The lifetime of the allocation, in seconds: the run is at the moment 0.
const LIFETIME: u32 = 600;

/// Returns an address with its port.
fn record_address(address: SocketAddr) -> Addr {
    let port = address.port();
    match address.ip() {
        IpAddr::V4(ip) => Addr::V4 {
            ip: ip.octets(),
            port,
        },
        IpAddr::V6(ip) => Addr::V6 {
            ip: ip.octets(),
            port,
        },
    }
}

/// Returns the side of a text.
fn side_of<'a>(text: Option<&'a str>) -> Result<Side, CommandError<'a>> {
    let option = "--side <SIDE>";
    match text {
        None | Some("client") => Ok(Side::Client),
        Some("peer") => Ok(Side::Peer),
        Some(text) => Err(CommandError::Value(OptionError { option, text })),
    }
}

/// Returns the source of a text, 127.0.0.1:9 where there is none.
fn source_of<'a>(text: Option<&'a str>) -> Result<Addr, CommandError<'a>> {
    let option = "--source <A:P>";
    let Some(text) = text else {
        return Ok(Addr::V4 {
            ip: [127, 0, 0, 1],
            port: 9,
        });
    };
    match text.parse() {
        Ok(address) => Ok(record_address(address)),
        Err(_) => Err(CommandError::Value(OptionError { option, text })),
    }
}

/// Returns the transaction id of a text, zeros where there is none.
fn tx_of<'a>(text: Option<&'a str>) -> Result<[u8; 12], CommandError<'a>> {
    let option = "--tx <HEX>";
    let mut tx = [0; 12];
    let Some(text) = text else {
        return Ok(tx);
    };
    match hex::decode_to_slice(text.as_bytes(), &mut tx) {
        Ok(()) => Ok(tx),
        Err(_) => Err(CommandError::Value(OptionError { option, text })),
    }
}

/// Returns the address of a permission, whose port is 0.
fn permission_of<'a>(text: &'a str) -> Result<Addr, CommandError<'a>> {
    let option = "--permit <A>";
    match text.parse() {
        Ok(ip) => Ok(record_address(SocketAddr::new(ip, 0))),
        Err(_) => Err(CommandError::Value(OptionError { option, text })),
    }
}

/// Returns the number of a channel, in decimal digits, or in hexadecimal ones after `0x`.
fn number_of(text: &str) -> Option<u16>
    ensures { IfSome result IsChannelNumber }
{
    let number = match text.strip_prefix("0x") {
        Some(digits) => u16::from_str_radix(digits, 16).ok()?,
        None => text.parse().ok()?,
    };
    (FIRST_CHANNEL..=LAST_CHANNEL)
        .contains(&number)
        .then_some(number)
}

/// Returns the number and the peer of a channel.
fn channel_of<'a>(text: &'a str) -> Result<(u16, Addr), CommandError<'a>>
    ensures { IfOk result (λ channel. IsChannelNumber channel.0) }
{
    let wrong = CommandError::Value(OptionError {
        option: CHANNEL,
        text,
    });
    let Some((number, peer)) = text.split_once('=') else {
        return Err(wrong);
    };
    match (number_of(number), peer.parse()) {
        (Some(number), Ok(peer)) => Ok((number, record_address(peer))),
        _ => Err(wrong),
    }
}

/// Returns the context of a trace.
fn context_of<'a>(options: &TraceOptions<'a>) -> Result<Context, CommandError<'a>> {
    Ok(Context {
        side: side_of(options.side)?,
        source: source_of(options.source)?,
        tx: tx_of(options.tx)?,
    })
}

/// Returns the family of the first peer that is permitted, or bound to a channel, IPv4 where there is none.
fn family_of<'a>(options: &TraceOptions<'a>) -> Result<Family, CommandError<'a>> {
    let first = match (options.permits, options.channels) {
        (Some([text, ..]), _) => permission_of(text)?,
        (_, Some([text, ..])) => channel_of(text)?.1,
        _ => return Ok(Family::Ipv4),
    };
    match first {
        Addr::V4 { .. } => Ok(Family::Ipv4),
        Addr::V6 { .. } => Ok(Family::Ipv6),
    }
}

/// Permits the addresses at slot 0, and binds the channels.
fn fill<'a>(tables: &mut Tables, options: &TraceOptions<'a>) -> Result<(), CommandError<'a>> {
    for text in options.permits.unwrap_or(&[]) {
        let ip = permission_of(text)?;
        if let Err(error) = tables.permit(0, 0, &[ip]) {
            return Err(CommandError::Row(text, error));
        }
    }
    for text in options.channels.unwrap_or(&[]) {
        let (number, peer) = channel_of(text)?;
        if let Err(error) = tables.bind(0, 0, number, peer) {
            return Err(CommandError::Row(text, error));
        }
    }
    Ok(())
}

/// Returns tables with one allocation, at slot 0, that has the permissions and the channels of the options.
fn tables_of<'a>(alloc: Global, options: &TraceOptions<'a>) -> Result<Tables, CommandError<'a>> {
    let family = family_of(options)?;
    let Ok(mut tables) = Tables::new(alloc, 1) else {
        return Err(CommandError::Memory);
    };
    let client = Addr::V4 {
        ip: [127, 0, 0, 1],
        port: 9,
    };
    // of no interest to a program: whose the allocation is
    let _ = tables.allocate(0, client, 0, [0; 20], [0; 12], family, LIFETIME);
    fill(&mut tables, options)?;
    Ok(tables)
}

/// What a program that is traced gets beside the datagram: the context, and the tables that look-ups are made in.
#[derive(Drop)]
struct Given {
    context: Context,
    tables: Tables,
}

/// Returns the text of a run of the program in a file, and the exit status.
fn run_text<'a>(
    alloc: Global,
    given: &Given,
    data: Option<&'a str>,
    file: &[u8],
) -> Result<(u8, Vec<u8>), ReportError> {
    let Ok(mut frame) = Frame::new(alloc) else {
        return Err(ReportError::Memory);
    };
    start_frame(&mut frame, &given.context, data)?;
    let code = match decode(alloc, file) {
        Ok(code) => code,
        Err(DecodeError::Memory) => return Err(ReportError::Memory),
        Err(refusal) => return Err(ReportError::Program(refusal)),
    };
    let helpers = Lookup::new(given.tables.live_at(0, 0));
    let mut out = Output::new(Vec::new(alloc));
    match report_run(&code, &mut frame, &helpers, &mut out) {
        Ok(status) => Ok((status, out.into_inner())),
        // a vector is full where memory runs out
        Err(_) => Err(ReportError::Memory),
    }
}

/// Prints a text.
fn print_text<'a, R: Print>(rt: &R, text: &[u8]) -> Result<(), CommandError<'a>> {
    let mut out = io::writer(rt);
    match out.write_all(text) {
        Ok(()) => Ok(()),
        Err(_) => Err(CommandError::Output),
    }
}

/// Runs a trace with what is given, and prints it with the lines of its source map, if one is named.
fn print_trace<'a, R: Files + Input + Print + AllocGlobal>(
    rt: &R,
    traced: Traced<'a>,
    given: &Given,
) -> Result<u8, CommandError<'a>> {
    let file = match read_whole(rt, traced.file) {
        Ok(file) => file,
        Err(error) => return Err(unread(&error, traced.file)),
    };
    let lines = match traced.lines {
        Some(path) => Some(read_lines(rt, path)?),
        None => None,
    };
    let map = match &lines {
        Some(lines) => Some(map_of(rt.alloc(), lines, &file)?),
        None => None,
    };
    let (status, text) = match run_text(rt.alloc(), given, traced.data, &file) {
        Ok(ended) => ended,
        Err(ReportError::Memory) => return Err(CommandError::Memory),
        Err(refusal) => return Err(CommandError::Report(refusal)),
    };
    match &map {
        Some(map) => print_annotated(rt, map, &text)?,
        None => print_text(rt, &text)?,
    }
    Ok(status)
}

/// Runs a trace with what the options give, and prints it.
fn trace_given<'a, R: Files + Input + Print + AllocGlobal>(
    rt: &R,
    traced: Traced<'a>,
    options: &TraceOptions<'a>,
) -> Result<u8, CommandError<'a>> {
    let context = context_of(options)?;
    let tables = tables_of(rt.alloc(), options)?;
    print_trace(rt, traced, &Given { context, tables })
}

/// Runs the program in a file over a datagram, prints each step, and returns the exit status.
pub fn trace<R: Files + Input + Print + AllocGlobal, E: Write>(
    rt: &R,
    err: &mut E,
    traced: Traced<'_>,
    options: &TraceOptions<'_>,
) -> u8 {
    if is_empty(options) {
        let ask = Ask::Trace { hex: traced.data };
        return report_file(rt, err, traced.file, ask, traced.lines);
    }
    let ended = trace_given(rt, traced, options);
    status_of(err, ended)
}

/// Returns whether no option is given.
fn is_empty(options: &TraceOptions<'_>) -> bool {
    let is_context = options.side.is_none() && options.source.is_none() && options.tx.is_none();
    is_context && options.permits.is_none() && options.channels.is_none()
}
