//! How a server starts: its relay, its sockets, and what it reports.

use crate::clock::{elapsed, starting_now};
use crate::filters::{PeerOptions, filter_of};
use crate::serve_command::{Server, Wire};
use command_line::{Options, ServerOptions, defaults, relayed_ip, relayed_ip6};
use loader::{Loaded, load};
use monitoring::{MetricsFile, RecordError, Recording, Reports, ServerLog, Watch};
use peer_filter::PeerFilter;
use rand::make_rng;
use rand::rngs::StdRng;
use rand_core::Rng;
use replacing::{Contents, ProgramFile, RereadFile, Sides};
use server::{ClockOffset, Counters, Duty, Timer};
use setup::{CommandError, Prepared, ProgramError, Relayed, Texts, program_fault, set_up, unread};
use shadow::Shadows;
use sockets::{Addresses, BindError, EndpointSockets, SocketOptions, Sockets};
use std::alloc::{AllocError, Global};
use std::fs::{self, File};
use std::net::{Ipv4Addr, Ipv6Addr, Net};
use std::random::RandomSource;
use std::rt::{Clock, Files};
use std::time::Duration;

/// The seconds after which the system's clock is looked at, and the files of programs and of users are read again.
const FILES_PERIOD: u64 = 1;

/// Returns whether peers can send to a relayed IPv4 address: it is one, and not of a group or of all.
fn is_reachable(octets: [u8; 4]) -> bool {
    let ip = Ipv4Addr::from(octets);
    !ip.is_unspecified() && !ip.is_multicast() && !ip.is_broadcast()
}

/// Returns whether peers can send to a relayed IPv6 address: it is one, and not of a group.
fn is_reachable6(octets: [u8; 16]) -> bool {
    let ip = Ipv6Addr::from(octets);
    !ip.is_unspecified() && !ip.is_multicast()
}

/// Refuses relayed addresses that peers can't send to.
fn check_reachable(ip: [u8; 4], ip6: Option<[u8; 16]>) -> Result<(), CommandError<'static>> {
    if !is_reachable(ip) {
        return Err(CommandError::RelayedAddress);
    }
    match ip6 {
        Some(octets) if !is_reachable6(octets) => Err(CommandError::RelayedAddress6),
        _ => Ok(()),
    }
}

/// Returns the relayed addresses of a server.
fn relayed_of<'a>(
    server_options: &ServerOptions<'a>,
    options: &Options<'a>,
) -> Result<Relayed, CommandError<'a>> {
    let ip6 = match relayed_ip6(server_options, options) {
        Ok(ip6) => ip6,
        Err(error) => return Err(CommandError::Relayed(error)),
    };
    match relayed_ip(server_options, options) {
        Ok(ip) => Ok(Relayed {
            ip: ip.octets(),
            ip6,
        }),
        Err(error) => Err(CommandError::Relayed(error)),
    }
}

/// Returns the addresses of the sockets.
fn addresses_of(server: &ServerOptions<'_>, options: &Options<'_>, relayed: Relayed) -> Addresses {
    Addresses {
        listen: server.listen,
        listen6: server.listen6,
        port: server.port,
        first_port: options.first_port,
        slots: options.slots,
        options: SocketOptions {
            buffer: server.buffer,
            reuse_port: server.reuse_port,
        },
        relayed: Ipv4Addr::from(relayed.ip),
        relayed6: relayed.ip6.map(Ipv6Addr::from),
    }
}

/// Binds the sockets of a server, and returns them with the peers that nothing is sent to.
fn bind_sockets<R: Net + AllocGlobal>(
    rt: &R,
    addresses: Addresses,
    peers: &PeerOptions,
) -> Result<(Sockets, PeerFilter), CommandError<'static>> {
    let endpoints = match EndpointSockets::bind(rt, addresses) {
        Ok(endpoints) => endpoints,
        Err(BindError::Address(address, reason)) => return Err(CommandError::Bind(address, reason)),
        Err(BindError::Memory) => return Err(CommandError::Memory),
    };
    let filter = filter_of(&addresses, endpoints.client_port(), peers)?;
    match Sockets::new(rt.alloc(), endpoints) {
        Ok(sockets) => Ok((sockets, filter)),
        Err(_) => Err(CommandError::Memory),
    }
}

/// Begins the recording of a server, if one is wanted.
pub(crate) fn recording_of<'a, R: Files<File = File> + AllocGlobal>(
    rt: &R,
    server_options: &ServerOptions<'a>,
) -> Result<Recording<'a>, CommandError<'a>> {
    let path = server_options.record;
    match Recording::begin(rt, path, server_options.record_limit) {
        Ok(recording) => Ok(recording),
        Err(RecordError::Memory) => Err(CommandError::Memory),
        Err(RecordError::System(error)) => Err(CommandError::Record(path.unwrap_or(""), error)),
    }
}

/// Binds the sockets of a server, and seeds its generator, in this order. Nothing is recorded yet.
fn wire_of<'a, R: Files<File = File> + Net + RandomSource + AllocGlobal>(
    rt: &R,
    server_options: &ServerOptions<'a>,
    options: &Options<'_>,
    relayed: Relayed,
    peers: &PeerOptions,
) -> Result<Wire<'a>, CommandError<'a>> {
    let addresses = addresses_of(server_options, options, relayed);
    let (sockets, filter) = bind_sockets(rt, addresses, peers)?;
    let mut rng: StdRng = make_rng(rt).map_err(|_| CommandError::Random)?;
    let mut tx = [0; 12];
    rng.fill_bytes(&mut tx);
    let Ok(watch) = Watch::new(rt.alloc(), Recording::none()) else {
        return Err(CommandError::Memory);
    };
    Ok(Wire {
        sockets,
        filter: Some(filter),
        watch,
        counters: Counters::new(),
        rng,
        tx,
    })
}

/// Returns the file that the metrics are written to, if one is given. Where processes share a port, each has its first
/// port as a label: node_exporter takes no two samples with the same name and labels.
fn metrics_file<'a>(
    alloc: Global,
    server_options: &ServerOptions<'a>,
    options: &Options<'_>,
    now: Duration,
) -> Result<Option<MetricsFile<'a>>, CommandError<'static>> {
    let Some(path) = server_options.metrics else {
        return Ok(None);
    };
    let first_port = server_options.reuse_port.then_some(options.first_port);
    match MetricsFile::new(alloc, path, first_port, now) {
        Ok(file) => Ok(Some(file)),
        Err(_) => Err(CommandError::Memory),
    }
}

/// Returns the log, if one is wanted.
fn log_of(
    alloc: Global,
    server_options: &ServerOptions<'_>,
    options: &Options<'_>,
    now: Duration,
) -> Result<Option<ServerLog>, CommandError<'static>> {
    if !server_options.log {
        return Ok(None);
    }
    match ServerLog::new(alloc, options.slots, options.first_port, now) {
        Ok(log) => Ok(Some(log)),
        Err(_) => Err(CommandError::Memory),
    }
}

/// Returns what a server reports.
fn reports_of<'a, R: Files + AllocGlobal>(
    rt: &R,
    server_options: &ServerOptions<'a>,
    options: &Options<'_>,
    now: Duration,
) -> Result<Reports<'a>, CommandError<'static>> {
    let metrics = metrics_file(rt.alloc(), server_options, options, now)?;
    let log = log_of(rt.alloc(), server_options, options, now)?;
    match Reports::new(rt, server_options.stats, metrics, log, now) {
        Ok(reports) => Ok(reports),
        Err(_) => Err(CommandError::Memory),
    }
}

/// A shadow's file, if one is given, with the bytes that it has, and the program that is loaded from them.
#[derive(Drop)]
struct ShadowProgram<'a> {
    file: ProgramFile<'a>,
    program: Option<Loaded>,
}

/// Reads and loads the program of a shadow, if one is given.
fn shadow_program<'a, R: Files + AllocGlobal>(
    rt: &R,
    path: Option<&'a str>,
) -> Result<ShadowProgram<'a>, CommandError<'a>> {
    let Some(path) = path else {
        return Ok(ShadowProgram {
            file: no_file(),
            program: None,
        });
    };
    let bytes = fs::read(rt, path).map_err(|error| unread(&error, path))?;
    match load(rt.alloc(), &bytes) {
        Ok(program) => Ok(ShadowProgram {
            file: ProgramFile {
                path: Some(path),
                bytes: Some(bytes),
            },
            program: Some(program),
        }),
        Err(error) => Err(program_fault(ProgramError::from(error), path)),
    }
}

/// The shadows, and the files that their programs are replaced from.
#[derive(Drop)]
pub(crate) struct ShadowParts<'a> {
    shadows: Shadows,
    client: ProgramFile<'a>,
    peer: ProgramFile<'a>,
}

/// Reads and loads the programs of shadows, that for clients' datagrams first.
pub(crate) fn shadows_of<'a, R: Files + AllocGlobal>(
    rt: &R,
    server_options: &ServerOptions<'a>,
) -> Result<ShadowParts<'a>, CommandError<'a>> {
    let client = shadow_program(rt, server_options.shadow_client)?;
    let peer = shadow_program(rt, server_options.shadow_peer)?;
    match Shadows::new(rt.alloc(), client.program, peer.program) {
        Ok(shadows) => Ok(ShadowParts {
            shadows,
            client: client.file,
            peer: peer.file,
        }),
        Err(_) => Err(CommandError::Memory),
    }
}

/// What a server has beside its relay.
#[derive(Drop)]
struct Parts<'a> {
    relayed: Relayed,
    wire: Wire<'a>,
    reports: Reports<'a>,
    /// The time at which it starts.
    now: Duration,
}

/// Binds the sockets, and makes what is reported from now on.
fn parts_of<'a, R: Files<File = File> + Net + Clock + RandomSource + AllocGlobal>(
    rt: &R,
    server_options: &ServerOptions<'a>,
    peers: &PeerOptions,
    options: &Options<'a>,
    relayed: Relayed,
) -> Result<Parts<'a>, CommandError<'a>> {
    let now = elapsed(rt);
    check_reachable(relayed.ip, relayed.ip6)?;
    let wire = wire_of(rt, server_options, options, relayed, peers)?;
    let reports = reports_of(rt, server_options, options, now)?;
    Ok(Parts {
        relayed,
        wire,
        reports,
        now,
    })
}

/// Adds a file that is read again, if it is given, with the text that it had.
fn add_file<'a>(
    files: &mut Vec<RereadFile<'a>>,
    path: Option<&'a str>,
    contents: Contents<'a>,
    text: Option<String>,
) -> Result<(), AllocError> {
    if let (Some(path), Some(text)) = (path, text) {
        files.push(RereadFile::new(path, contents, text))?;
    }
    Ok(())
}

/// Returns the files of users, of secrets and of revoked users that are given, with the texts that they had.
fn reread_files<'a>(
    alloc: Global,
    options: &Options<'a>,
    texts: Texts,
) -> Result<Vec<RereadFile<'a>>, AllocError> {
    let users = Contents::Users(options.users.unwrap_or(&[]));
    let mut files = Vec::new(alloc);
    add_file(&mut files, options.users_file, users, texts.users)?;
    add_file(
        &mut files,
        options.secret_file,
        Contents::Secrets,
        texts.secrets,
    )?;
    add_file(
        &mut files,
        options.revoked_file,
        Contents::Revoked,
        texts.revoked,
    )?;
    Ok(files)
}

/// Returns the file of a shadow that there isn't.
fn no_file<'a>() -> ProgramFile<'a> {
    ProgramFile {
        path: None,
        bytes: None,
    }
}

/// Puts a server together, without shadows.
fn server_of<'a, R: Clock + AllocGlobal>(
    rt: &R,
    server_options: &ServerOptions<'a>,
    options: &Options<'a>,
    set: Prepared,
    parts: Parts<'a>,
) -> Result<Server<'a>, CommandError<'static>> {
    let Ok(reread) = reread_files(rt.alloc(), options, set.texts) else {
        return Err(CommandError::Memory);
    };
    let client = ProgramFile {
        path: options.client,
        bytes: set.programs.client,
    };
    let peer = ProgramFile {
        path: options.peer,
        bytes: set.programs.peer,
    };
    Ok(Server {
        relay: set.relay,
        relayed: parts.relayed,
        wire: parts.wire,
        sides: Sides::new(client, peer),
        shadows: Sides::new(no_file(), no_file()),
        reread,
        moments: starting_now(rt),
        nonces: Timer::new(
            parts.now,
            Duration::from_secs(server_options.nonce_lifetime),
        ),
        clock: options.secret_file.is_some().then(ClockOffset::new),
        files: Timer::new(parts.now, Duration::from_secs(FILES_PERIOD)),
        chore: None,
        duty: Duty::Programs,
        reports: parts.reports,
        is_busy: false,
        has_due_work: false,
    })
}

/// Gives a server its shadows.
pub(crate) fn give_shadows<'a>(server: &mut Server<'a>, parts: ShadowParts<'a>) {
    let ShadowParts {
        shadows,
        client,
        peer,
    } = parts;
    server.wire.watch.shadows = shadows;
    server.shadows = Sides::new(client, peer);
}

/// Sets up a server without shadows: its relay, and then its sockets, all of which are bound.
pub(crate) fn start<'a, R: Files<File = File> + Net + Clock + RandomSource + AllocGlobal>(
    rt: &R,
    server_options: &ServerOptions<'a>,
    peers: &PeerOptions,
    options: &Options<'a>,
) -> Result<Server<'a>, CommandError<'a>> {
    let relayed = relayed_of(server_options, options)?;
    let set = set_up(
        rt,
        options,
        defaults::NONCE,
        relayed,
        !server_options.unconfined,
    )?;
    let parts = parts_of(rt, server_options, peers, options, relayed)?;
    server_of(rt, server_options, options, set, parts)
}
