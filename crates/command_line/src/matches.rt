//! The subcommand of a parsed command line, with the values of its arguments.

use crate::defaults::{
    BUFFER, FIRST_PORT, LISTEN, NONCE, NONCE_LIFETIME, REALM, RECORD_LIMIT, SLOTS,
};
use crate::values::{OptionError, buffer, ip, ip6, number, octets6, port, seconds, slots};
use crate::{NewFiles, Options, ReplayOptions, ServerOptions, Subcommand, TraceOptions, Traced};
use clap::ArgMatches;
use std::net::{Ipv4Addr, Ipv6Addr};

/// Returns the text of an argument, if it is given.
fn text<'a>(matches: &'a ArgMatches<'_>, id: &str) -> Option<&'a str> {
    matches.get_str(id)
}

/// Returns the text of an argument, or `default` where it is not given.
fn text_or<'a>(matches: &'a ArgMatches<'_>, id: &str, default: &'static str) -> &'a str {
    match text(matches, id) {
        Some(text) => text,
        None => default,
    }
}

/// Returns the texts of an option that may be repeated, if it is given.
fn texts<'a>(matches: &'a ArgMatches<'_>, id: &str) -> Option<&'a [&'a str]> {
    matches.get_strs(id)
}

/// Returns whether a flag is given.
fn is_given(matches: &ArgMatches<'_>, id: &str) -> bool {
    matches.get_flag(id)
}

/// Returns the files of a program that is written, or `None` where one is missing.
fn new_files<'a>(matches: &'a ArgMatches<'_>) -> Option<NewFiles<'a>> {
    Some(NewFiles {
        input: text(matches, "in")?,
        output: text(matches, "out")?,
        lines: text(matches, "lines"),
    })
}

/// Returns the subcommand `assemble` of its matches, or `None` where a file is missing.
fn assemble_of<'a>(matches: &'a ArgMatches<'_>) -> Option<Subcommand<'a>> {
    let files = new_files(matches)?;
    Some(Subcommand::Assemble { files })
}

/// Returns the subcommand `order` of its matches, or `None` where a file is missing.
fn order_of<'a>(matches: &'a ArgMatches<'_>) -> Option<Subcommand<'a>> {
    let files = new_files(matches)?;
    let from = text(matches, "from");
    Some(Subcommand::Order { files, from })
}

/// Returns the subcommand `disassemble` of its matches, or `None` where the file is missing.
fn disassemble_of<'a>(matches: &'a ArgMatches<'_>) -> Option<Subcommand<'a>> {
    let file = text(matches, "file")?;
    let slots = is_given(matches, "slots");
    let lines = text(matches, "lines");
    Some(Subcommand::Disassemble { file, slots, lines })
}

/// Returns the subcommand `verify` of its matches, or `None` where the file is missing.
fn verify_of<'a>(matches: &'a ArgMatches<'_>) -> Option<Subcommand<'a>> {
    let file = text(matches, "file")?;
    let lines = text(matches, "lines");
    Some(Subcommand::Verify { file, lines })
}

/// Returns the subcommand `graph` of its matches, or `None` where the file is missing.
fn graph_of<'a>(matches: &'a ArgMatches<'_>) -> Option<Subcommand<'a>> {
    let file = text(matches, "file")?;
    let lines = text(matches, "lines");
    Some(Subcommand::Graph { file, lines })
}

/// Returns the subcommand `trace` of its matches, or `None` where the file is missing.
fn trace_of<'a>(matches: &'a ArgMatches<'_>) -> Option<Subcommand<'a>> {
    let traced = Traced {
        file: text(matches, "file")?,
        data: text(matches, "data"),
        lines: text(matches, "lines"),
    };
    Some(Subcommand::Trace {
        traced,
        given: TraceOptions {
            side: text(matches, "side"),
            source: text(matches, "source"),
            tx: text(matches, "tx"),
            permits: texts(matches, "permit"),
            channels: texts(matches, "channel"),
        },
    })
}

/// Returns the subcommand `explain` of its matches, or `None` where the file is missing.
///
/// # Errors
/// Where the slot is no number.
fn explain_of<'a>(matches: &'a ArgMatches<'_>) -> Result<Option<Subcommand<'a>>, OptionError<'a>> {
    let Some(file) = text(matches, "file") else {
        return Ok(None);
    };
    let slot = slots("--slot <N>", text(matches, "slot"))?;
    let lines = text(matches, "lines");
    Ok(Some(Subcommand::Explain { file, slot, lines }))
}

/// Returns the options that set up a relay, of the matches of a subcommand.
///
/// # Errors
/// The first text that spells no value of its option.
fn options_of<'a>(matches: &'a ArgMatches<'_>) -> Result<Options<'a>, OptionError<'a>> {
    let relay_ip6 = octets6("--relay-ip6 <HEX>", text(matches, "relay-ip6"))?;
    let count = slots("--slots <N>", text(matches, "slots"))?;
    let user_slots = slots("--user-slots <N>", text(matches, "user-slots"))?;
    let relay_ip = ip("--relay-ip <A>", text(matches, "relay-ip"))?;
    let first_port = port("--first-port <P>", text(matches, "first-port"))?;
    Ok(Options {
        realm: text_or(matches, "realm", REALM),
        users: texts(matches, "user"),
        users_file: text(matches, "users"),
        secret_file: text(matches, "secret"),
        revoked_file: text(matches, "revoked"),
        slots: count.unwrap_or(SLOTS),
        user_slots,
        relay_ip,
        relay_ip6,
        first_port: first_port.unwrap_or(FIRST_PORT),
        client: text(matches, "client"),
        peer: text(matches, "peer"),
        same_as: texts(matches, "same-as"),
    })
}

/// Returns the subcommand `replay` of its matches, or `None` where the file of events is missing.
///
/// # Errors
/// The first text that spells no value of its option.
fn replay_of<'a>(matches: &'a ArgMatches<'_>) -> Result<Option<Subcommand<'a>>, OptionError<'a>> {
    let Some(events) = text(matches, "events") else {
        return Ok(None);
    };
    let trace = number("--trace <N>", text(matches, "trace"))?;
    let options = options_of(matches)?;
    let replay = ReplayOptions {
        events,
        nonce: text_or(matches, "nonce", NONCE),
        why: is_given(matches, "why"),
        confine: is_given(matches, "confine"),
        trace,
        cover: is_given(matches, "cover"),
        client_lines: text(matches, "client-lines"),
        peer_lines: text(matches, "peer-lines"),
        against: text(matches, "against"),
        against_peer: text(matches, "against-peer"),
    };
    Ok(Some(Subcommand::Replay { replay, options }))
}

/// What a server's sockets are bound to, and what they hold.
#[derive(Clone, Copy)]
struct SocketValues {
    listen: Ipv4Addr,
    listen6: Option<Ipv6Addr>,
    buffer: i32,
}

/// Returns the options of a server's sockets.
///
/// # Errors
/// The first text that spells no value of its option.
fn sockets_of<'a>(matches: &'a ArgMatches<'_>) -> Result<SocketValues, OptionError<'a>> {
    let listen = ip("--listen <A>", text(matches, "listen"))?;
    let listen6 = ip6("--listen6 <A>", text(matches, "listen6"))?;
    let buffer = buffer("--buffer <BYTES>", text(matches, "buffer"))?;
    Ok(SocketValues {
        listen: listen.unwrap_or(LISTEN),
        listen6,
        buffer: buffer.unwrap_or(BUFFER),
    })
}

/// What a server does periodically, and how much it records.
#[derive(Clone, Copy)]
struct Limits {
    nonce_lifetime: u64,
    stats: Option<u64>,
    record_limit: u64,
}

/// Returns the options of a server's times, and of its record.
///
/// # Errors
/// The first text that spells no value of its option.
fn limits_of<'a>(matches: &'a ArgMatches<'_>) -> Result<Limits, OptionError<'a>> {
    let nonce_lifetime = seconds("--nonce-lifetime <S>", text(matches, "nonce-lifetime"))?;
    let stats = seconds("--stats <S>", text(matches, "stats"))?;
    let record_limit = number("--record-limit <BYTES>", text(matches, "record-limit"))?;
    Ok(Limits {
        nonce_lifetime: nonce_lifetime.unwrap_or(NONCE_LIFETIME),
        stats,
        record_limit: record_limit.unwrap_or(RECORD_LIMIT),
    })
}

/// Returns the subcommand `serve` of its matches, or `None` where the port is missing.
///
/// # Errors
/// The first text that spells no value of its option.
fn serve_of<'a>(matches: &'a ArgMatches<'_>) -> Result<Option<Subcommand<'a>>, OptionError<'a>> {
    let Some(port) = port("--port <P>", text(matches, "port"))? else {
        return Ok(None);
    };
    let rounds = number("--rounds <N>", text(matches, "rounds"))?;
    let sockets = sockets_of(matches)?;
    let limits = limits_of(matches)?;
    let options = options_of(matches)?;
    let server = ServerOptions {
        port,
        rounds,
        listen: sockets.listen,
        listen6: sockets.listen6,
        buffer: sockets.buffer,
        reuse_port: is_given(matches, "reuse-port"),
        deny: texts(matches, "deny"),
        allow: texts(matches, "allow"),
        relayed_ports: text(matches, "relayed-ports"),
        nonce_lifetime: limits.nonce_lifetime,
        stats: limits.stats,
        metrics: text(matches, "metrics"),
        record: text(matches, "record"),
        record_limit: limits.record_limit,
        log: is_given(matches, "log"),
        unconfined: is_given(matches, "unconfined"),
        shadow_client: text(matches, "shadow-client"),
        shadow_peer: text(matches, "shadow-peer"),
    };
    Ok(Some(Subcommand::Serve { server, options }))
}

/// Returns the subcommand `check` of its matches, or `None` where the server is missing.
fn check_of<'a>(matches: &'a ArgMatches<'_>) -> Option<Subcommand<'a>> {
    let server = text(matches, "server")?;
    let user = text(matches, "user");
    Some(Subcommand::Check { server, user })
}

/// Returns the subcommand of this name, of its matches, or `None` where relayd has none of the name, or an argument is
/// missing.
fn named<'a>(
    name: &str,
    matches: &'a ArgMatches<'_>,
) -> Result<Option<Subcommand<'a>>, OptionError<'a>> {
    match name {
        "assemble" => Ok(assemble_of(matches)),
        "order" => Ok(order_of(matches)),
        "disassemble" => Ok(disassemble_of(matches)),
        "verify" => Ok(verify_of(matches)),
        "explain" => explain_of(matches),
        "graph" => Ok(graph_of(matches)),
        "trace" => Ok(trace_of(matches)),
        "replay" => replay_of(matches),
        "serve" => serve_of(matches),
        "check" => Ok(check_of(matches)),
        _ => Ok(None),
    }
}

/// Returns the subcommand of a parsed command line, or `None` where the matches are not those of a
/// subcommand of relayd.
///
/// # Errors
/// The text of `--slot` of `explain` where it is no number. Of `replay` and `serve` the first text that spells no value
/// of its option, in this order: those of `--trace`, `--port`, `--rounds`, `--listen`, `--listen6`, `--buffer`,
/// `--nonce-lifetime`, `--stats` and `--record-limit`; then those of `--relay-ip6`, `--slots`, `--user-slots`,
/// `--relay-ip` and `--first-port`.
/// See docs/DECISIONS.md, "Numbers of options".
pub fn subcommand_of<'a>(
    matches: &'a ArgMatches<'_>,
) -> Result<Option<Subcommand<'a>>, OptionError<'a>> {
    match matches.subcommand() {
        Some((name, matches)) => named(name, matches),
        None => Ok(None),
    }
}
