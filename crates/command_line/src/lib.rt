//! Parses the command line of relayd.
#![tactic(auto)]

mod arguments;
pub mod defaults;
mod lines;
mod matches;
mod relayed;
mod values;

ghost use Rattle.std.specs.Prelude.{◌≡◌, true, false, IfOk};
ghost use Rattle.clap.specs.Words.{has_subcommand};
ghost use Rattle.command_line.specs.Commands.{IsLocal, RequiresSubcommand};

use crate::arguments::{ArgumentWords, SUBCOMMANDS, SubcommandWords, Takes};
use clap::{Arg, ArgAction, ArgMatches, Command, Error};
pub use lines::{OptionFault, OptionWords, option_of_line};
pub use matches::subcommand_of;
pub use relayed::{RelayedError, relayed_ip, relayed_ip6};
use std::alloc::{AllocError, Global};
use std::convert::AsStr;
use std::net::{Ipv4Addr, Ipv6Addr};
pub use values::OptionError;

/// What `--version` prints: the version, and the kit whose prover and compiler made the program.
const VERSION: &str = "0.1.0, proved by rattle-kit-13f";

/// What `--help` says of the whole command.
const ABOUT: &str =
    "A TURN relay whose forwarding rules are loaded programs of the BPF instruction set

The exit status is 0 for success, 1 for a refusal or a run that is stuck, 2 for a wrong command line,
3 for a file, an output or a socket that can't be used, and 4 where memory runs out.";

/// The options that set up a relay. Those that have a default have it where they are not given, and the others are
/// `None`.
#[derive(Clone, Copy, Debug)]
pub struct Options<'a> {
    /// The realm; `relay` by default.
    pub realm: &'a str,
    /// The users, each as `NAME:PASSWORD`, in the order in which they are given.
    pub users: Option<&'a [&'a str]>,
    /// The file that has further users.
    pub users_file: Option<&'a str>,
    /// The file that has the secret of time-limited credentials.
    pub secret_file: Option<&'a str>,
    /// The file of users that are revoked.
    pub revoked_file: Option<&'a str>,
    /// The number of slots; 16 by default.
    pub slots: usize,
    /// How many allocations a user may have at once; `None` is not to limit them.
    pub user_slots: Option<usize>,
    /// The relayed IPv4 address.
    pub relay_ip: Option<Ipv4Addr>,
    /// The relayed IPv6 address.
    pub relay_ip6: Option<[u8; 16]>,
    /// The relayed port of the first slot; 49152 by default.
    pub first_port: u16,
    /// The file of the program for clients' datagrams.
    pub client: Option<&'a str>,
    /// The file of the program for peers' datagrams.
    pub peer: Option<&'a str>,
    /// The addresses that count as others where it is asked whether a peer is permitted, each as `A=B`, in the order in
    /// which they are given.
    pub same_as: Option<&'a [&'a str]>,
}

/// The options of a server alone. Those that have a default have it where they are not given, and the others are
/// `None`.
#[derive(Clone, Copy, Debug)]
pub struct ServerOptions<'a> {
    /// The UDP port for clients.
    pub port: u16,
    /// How many rounds are made before the end; `None` is to serve until the process is stopped.
    pub rounds: Option<u64>,
    /// The IPv4 address that the sockets are bound to; 127.0.0.1 by default.
    pub listen: Ipv4Addr,
    /// The IPv6 address that further sockets of the slots are bound to.
    pub listen6: Option<Ipv6Addr>,
    /// The bytes of each socket's buffers, 1 to 2^30 - 1; 4194304 by default.
    pub buffer: i32,
    /// Whether other processes may serve the same port.
    pub reuse_port: bool,
    /// The networks that nothing is sent to, in the order in which they are given.
    pub deny: Option<&'a [&'a str]>,
    /// The networks that are sent to, in the order in which they are given.
    pub allow: Option<&'a [&'a str]>,
    /// The ports at which the server's own addresses are peers, as `49152-53247`; those of its slots by default.
    pub relayed_ports: Option<&'a str>,
    /// The seconds after which a new nonce is drawn, at least 1; 3600 by default.
    pub nonce_lifetime: u64,
    /// The seconds between two lines of counters, at least 1; `None` is to print none.
    pub stats: Option<u64>,
    /// The file that the metrics are written to; `None` is to write none.
    pub metrics: Option<&'a str>,
    /// The file that is made of the server's events; `None` is to record none.
    pub record: Option<&'a str>,
    /// The most bytes of that file; 1073741824 by default.
    pub record_limit: u64,
    /// Whether allocations and refused credentials are printed.
    pub log: bool,
    /// Whether the programs may send to and from peers that clients haven't permitted.
    pub unconfined: bool,
    /// The file of a program that runs beside that for clients' datagrams, and decides nothing.
    pub shadow_client: Option<&'a str>,
    /// The file of a program that runs beside that for peers' datagrams, and decides nothing.
    pub shadow_peer: Option<&'a str>,
}

/// The options of a replay alone. Those that have a default have it where they are not given, and the others are
/// `None`.
#[derive(Clone, Copy, Debug)]
pub struct ReplayOptions<'a> {
    /// The file of the events; `-` is standard input.
    pub events: &'a str,
    /// The first nonce; `n1` by default.
    pub nonce: &'a str,
    /// Whether the reason of each answer is printed.
    pub why: bool,
    /// Whether the programs are confined to the peers that clients have permitted.
    pub confine: bool,
    /// The line whose run is printed in place of the answers.
    pub trace: Option<u64>,
    /// Whether it is printed what of the programs the events met.
    pub cover: bool,
    /// The source map of the program for clients' datagrams.
    pub client_lines: Option<&'a str>,
    /// The source map of the program for peers' datagrams.
    pub peer_lines: Option<&'a str>,
    /// The file of a program for clients' datagrams whose answers are compared.
    pub against: Option<&'a str>,
    /// The file of a program for peers' datagrams whose answers are compared.
    pub against_peer: Option<&'a str>,
}

/// What a program that is traced gets beside the datagram, as texts. Each is `None` where it is not given.
#[derive(Clone, Copy, Debug, PartialEq, Eq)]
pub struct TraceOptions<'a> {
    /// The side that the datagram comes from.
    pub side: Option<&'a str>,
    /// The address and the port that it comes from.
    pub source: Option<&'a str>,
    /// The transaction id.
    pub tx: Option<&'a str>,
    /// The addresses that the client's allocation permits, in the order in which they are given.
    pub permits: Option<&'a [&'a str]>,
    /// The channels of the client's allocation, each as `N=A:P`, in the order in which they are given.
    pub channels: Option<&'a [&'a str]>,
}

/// The files of a program that is traced and of its source map, and the datagram in hexadecimal digits; without one it
/// is empty.
#[derive(Clone, Copy, Debug)]
pub struct Traced<'a> {
    pub file: &'a str,
    pub data: Option<&'a str>,
    pub lines: Option<&'a str>,
}

/// The files of a program that is written.
#[derive(Clone, Copy, Debug)]
pub struct NewFiles<'a> {
    pub input: &'a str,
    pub output: &'a str,
    /// The file that the source map is written to, if it is.
    pub lines: Option<&'a str>,
}

/// A subcommand of relayd, with the values of its arguments. `lines` is the file of a source map: one that is read,
/// whose lines are printed beside the slots of the program, or one that is written.
#[derive(Clone, Copy, Debug)]
pub enum Subcommand<'a> {
    /// Verify the program in a file.
    Verify {
        file: &'a str,
        lines: Option<&'a str>,
    },
    /// Print what the verifier knows of the program in a file, or why it refuses it. `slot` is the slot whose states
    /// are printed, and `None` stands for all.
    Explain {
        file: &'a str,
        slot: Option<usize>,
        lines: Option<&'a str>,
    },
    /// Draw the blocks of the program in a file and its jumps.
    Graph {
        file: &'a str,
        lines: Option<&'a str>,
    },
    /// Run the program in a file over a datagram and print each step. `given` is what else the program gets.
    Trace {
        traced: Traced<'a>,
        given: TraceOptions<'a>,
    },
    /// Assemble the text in a file, and write the program to another.
    Assemble {
        files: NewFiles<'a>,
    },
    /// Put the program in a file in an order in which every jump leads forward, and write the program to another.
    /// `from` is the source map of the program in the first file, and `None` stands for its slots.
    Order {
        files: NewFiles<'a>,
        from: Option<&'a str>,
    },
    /// Print the program in a file as text, with the slot of each instruction where `slots` says so.
    Disassemble {
        file: &'a str,
        slots: bool,
        lines: Option<&'a str>,
    },
    /// Replay the events in a file through a relay, and print each answer.
    Replay {
        replay: ReplayOptions<'a>,
        options: Options<'a>,
    },
    /// Serve clients and peers over UDP sockets.
    Serve {
        server: ServerOptions<'a>,
        options: Options<'a>,
    },
    /// Check a server, an address or a name with a port, as a client does. `user` is a name and a password with a colon
    /// between them, and `None` is to make no allocation.
    Check {
        server: &'a str,
        user: Option<&'a str>,
    },
}

/// Returns an argument.
fn arg<'a>(alloc: Global, argument: &ArgumentWords) -> Arg<'a>
    ensures { result.global ≡ false }
{
    let arg = Arg::new(alloc, argument.name).help(argument.help);
    match argument.takes {
        Takes::Word(value) => arg.value_name(value).required(true).action(ArgAction::Set),
        Takes::NeededValue(value) => arg
            .long(argument.name)
            .value_name(value)
            .required(true)
            .action(ArgAction::Set),
        Takes::Value(value) => arg
            .long(argument.name)
            .value_name(value)
            .action(ArgAction::Set),
        Takes::Values(value) => arg
            .long(argument.name)
            .value_name(value)
            .action(ArgAction::Append),
        Takes::Nothing => arg.long(argument.name).action(ArgAction::SetTrue),
    }
}

/// Adds arguments to a subcommand.
fn with_arguments<'a>(
    alloc: Global,
    command: Command<'a>,
    arguments: &[ArgumentWords],
) -> Result<Command<'a>, AllocError>
    requires { IsLocal command }
    ensures { IfOk result IsLocal }
{
    let mut command = command;
    for argument in arguments {
        command = command.arg(arg(alloc, argument))?;
    }
    Ok(command)
}

/// Returns a subcommand.
fn command_of<'a>(alloc: Global, words: &SubcommandWords) -> Result<Command<'a>, AllocError>
    ensures { IfOk result IsLocal }
{
    let command = Command::new(alloc, words.name).about(words.about);
    let command = with_arguments(alloc, command, words.arguments)?;
    with_arguments(alloc, command, words.shared)
}

/// Returns the command without its subcommands. With no word after its name it answers with the help.
/// See docs/DECISIONS.md, "The help where no command is given".
fn bare<'a>(alloc: Global) -> Command<'a>
    ensures { RequiresSubcommand result }
{
    Command::new(alloc, "relayd")
        .about(ABOUT)
        .version(VERSION)
        .arg_required_else_help(true)
        .subcommand_required(true)
}

/// Returns the whole command.
fn relayd<'a>(alloc: Global) -> Result<Command<'a>, AllocError>
    ensures { IfOk result RequiresSubcommand }
{
    let mut command = bare(alloc);
    for words in &SUBCOMMANDS {
        command = command.subcommand(command_of(alloc, words)?)?;
    }
    Ok(command)
}

/// Parses the words of a command line, of which the first is the program's name. Where it accepts them, a subcommand is
/// there.
/// See docs/DESIGN.md, "Command lines are clap's".
///
/// # Errors
/// Returns an error where a word is wrong or missing, where the words request a help text, and where
/// memory runs out.
pub fn line<'a, S: AsStr>(alloc: Global, words: &'a [S]) -> Result<ArgMatches<'a>, Error>
    ensures present { IfOk result (λ m. has_subcommand m ≡ true) }
{
    relayd(alloc)?.try_get_matches_from(words)
}
