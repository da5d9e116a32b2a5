//! The words of the command line, in the order in which the help texts have them.
//! See docs/DECISIONS.md, "The words of a command line are a table".

/// What an argument takes.
#[derive(Clone, Copy)]
pub(crate) enum Takes {
    /// A word at its place, which has to be there. It has this name in the help.
    Word(&'static str),
    /// A value after its name, which has to be there.
    NeededValue(&'static str),
    /// A value after its name.
    Value(&'static str),
    /// A value after its name, each time that it is given.
    Values(&'static str),
    /// No value.
    Nothing,
}

/// An argument.
#[derive(Clone, Copy)]
pub(crate) struct ArgumentWords {
    pub(crate) name: &'static str,
    pub(crate) takes: Takes,
    pub(crate) help: &'static str,
}

/// A subcommand.
#[derive(Clone, Copy)]
pub(crate) struct SubcommandWords {
    pub(crate) name: &'static str,
    /// What the help says of it.
    pub(crate) about: &'static str,
    pub(crate) arguments: &'static [ArgumentWords],
    /// Those that another one has as well.
    pub(crate) shared: &'static [ArgumentWords],
}

/// The options that set up a relay.
pub(crate) const RELAY: &[ArgumentWords] = &[
    ArgumentWords {
        name: "realm",
        takes: Takes::Value("R"),
        help: "The realm; relay by default",
    },
    ArgumentWords {
        name: "user",
        takes: Takes::Values("NAME:PASSWORD"),
        help: "A user, whose name ends at the first colon; may be repeated. Other users of the machine can see it: see --users",
    },
    ArgumentWords {
        name: "users",
        takes: Takes::Value("FILE"),
        help: "A file of users: NAME:PASSWORD a line",
    },
    ArgumentWords {
        name: "secret",
        takes: Takes::Value("FILE"),
        help: "A file with the secret of time-limited credentials, a line of 16 to 128 bytes; a former one may follow",
    },
    ArgumentWords {
        name: "revoked",
        takes: Takes::Value("FILE"),
        help: "A file of users whose credentials aren't accepted, one a line; none by default",
    },
    ArgumentWords {
        name: "slots",
        takes: Takes::Value("N"),
        help: "How many allocations there may be at once; 16 by default",
    },
    ArgumentWords {
        name: "user-slots",
        takes: Takes::Value("N"),
        help: "How many allocations a user may have at once; as many as there may be by default",
    },
    ArgumentWords {
        name: "relay-ip",
        takes: Takes::Value("A"),
        help: "The relayed IPv4 address; 127.0.0.1 by default, and of a server that of --listen",
    },
    ArgumentWords {
        name: "relay-ip6",
        takes: Takes::Value("HEX"),
        help: "The relayed IPv6 address, in 32 hexadecimal digits; none by default",
    },
    ArgumentWords {
        name: "first-port",
        takes: Takes::Value("P"),
        help: "The relayed port of slot 0; 49152 by default",
    },
    ArgumentWords {
        name: "client",
        takes: Takes::Value("FILE"),
        help: "The program for clients' datagrams; CLIENT by default",
    },
    ArgumentWords {
        name: "peer",
        takes: Takes::Value("FILE"),
        help: "The program for peers' datagrams; PEER by default",
    },
    ArgumentWords {
        name: "same-as",
        takes: Takes::Values("A=B"),
        help: "An address that a program may send to where the client has permitted B in its place; may be repeated",
    },
];

/// No arguments.
const NONE: &[ArgumentWords] = &[];

/// The program in a file.
const FILE: ArgumentWords = ArgumentWords {
    name: "file",
    takes: Takes::Word("FILE"),
    help: "The program: its encoded instructions (RFC 9669), 1 to 4,096 slots of 8 bytes",
};

/// The source map of a program that is read.
const LINES: ArgumentWords = ArgumentWords {
    name: "lines",
    takes: Takes::Value("MAP"),
    help: "The program's source map, whose lines are printed beside its slots",
};

/// The source map of a program that is written.
const NEW_LINES: ArgumentWords = ArgumentWords {
    name: "lines",
    takes: Takes::Value("MAP"),
    help: "Write the source map of the new program to a file, too: SLOT FILE:LINE and its text for each slot",
};

/// Those of `assemble`.
const ASSEMBLE: &[ArgumentWords] = &[
    ArgumentWords {
        name: "in",
        takes: Takes::Word("IN"),
        help: "The text of a program: one instruction or label a line",
    },
    ArgumentWords {
        name: "out",
        takes: Takes::Word("OUT"),
        help: "The file to write: the program's encoded instructions",
    },
    NEW_LINES,
];

/// Those of `order`.
const ORDER: &[ArgumentWords] = &[
    ArgumentWords {
        name: "in",
        takes: Takes::Word("IN"),
        help: "The program: its encoded instructions (RFC 9669), 1 to 4,096 slots of 8 bytes",
    },
    ArgumentWords {
        name: "out",
        takes: Takes::Word("OUT"),
        help: "The file to write: the program's encoded instructions",
    },
    NEW_LINES,
    ArgumentWords {
        name: "from",
        takes: Takes::Value("MAP"),
        help: "The source map of IN, whose lines are those of the new one; the slots of IN by default",
    },
];

/// Those of `disassemble`.
const DISASSEMBLE: &[ArgumentWords] = &[
    FILE,
    ArgumentWords {
        name: "slots",
        takes: Takes::Nothing,
        help: "Write the slot of each instruction after it, as a comment",
    },
    LINES,
];

/// Those of `verify`.
const VERIFY: &[ArgumentWords] = &[FILE, LINES];

/// Those of `explain`.
const EXPLAIN: &[ArgumentWords] = &[
    FILE,
    ArgumentWords {
        name: "slot",
        takes: Takes::Value("N"),
        help: "Print each state from which the verifier made a step at this slot",
    },
    LINES,
];

/// Those of `graph`.
const GRAPH: &[ArgumentWords] = &[FILE, LINES];

/// Those of `trace`.
const TRACE: &[ArgumentWords] = &[
    FILE,
    ArgumentWords {
        name: "data",
        takes: Takes::Value("HEX"),
        help: "The datagram in hexadecimal digits, at most 65,507 bytes; empty by default",
    },
    ArgumentWords {
        name: "side",
        takes: Takes::Value("SIDE"),
        help: "The side that it comes from: client, which is the default, or peer",
    },
    ArgumentWords {
        name: "source",
        takes: Takes::Value("A:P"),
        help: "The address and the port that it comes from; 127.0.0.1:9 by default",
    },
    ArgumentWords {
        name: "tx",
        takes: Takes::Value("HEX"),
        help: "The transaction id, in 24 hexadecimal digits; zeros by default",
    },
    ArgumentWords {
        name: "permit",
        takes: Takes::Values("A"),
        help: "An address that the client's allocation permits; may be repeated",
    },
    ArgumentWords {
        name: "channel",
        takes: Takes::Values("N=A:P"),
        help: "A channel of the client's allocation, as 0x4000=192.0.2.7:5000; may be repeated",
    },
    LINES,
];

/// Those of `replay` alone.
const REPLAY: &[ArgumentWords] = &[
    ArgumentWords {
        name: "events",
        takes: Takes::Word("EVENTS"),
        help: "The events, one a line, as docs/EVENTS.md says; - reads standard input",
    },
    ArgumentWords {
        name: "nonce",
        takes: Takes::Value("TEXT"),
        help: "The nonce; n1 by default",
    },
    ArgumentWords {
        name: "why",
        takes: Takes::Nothing,
        help: "Print after each answer what was granted, or which test failed",
    },
    ArgumentWords {
        name: "confine",
        takes: Takes::Nothing,
        help: "Confine the programs to the peers that clients have permitted, as serve does",
    },
    ArgumentWords {
        name: "trace",
        takes: Takes::Value("N"),
        help: "Print each instruction of the run of the event on line N, in place of the answers",
    },
    ArgumentWords {
        name: "cover",
        takes: Takes::Nothing,
        help: "Print to standard error how often each instruction of the programs ran, and each jump was taken",
    },
    ArgumentWords {
        name: "client-lines",
        takes: Takes::Value("MAP"),
        help: "The source map of the program for clients' datagrams, whose lines --trace and --cover print",
    },
    ArgumentWords {
        name: "peer-lines",
        takes: Takes::Value("MAP"),
        help: "The source map of the program for peers' datagrams, whose lines --trace and --cover print",
    },
    ArgumentWords {
        name: "against",
        takes: Takes::Value("FILE"),
        help: "Print only the answers that differ with this program for clients' datagrams, and how many there are",
    },
    ArgumentWords {
        name: "against-peer",
        takes: Takes::Value("FILE"),
        help: "Print only the answers that differ with this program for peers' datagrams, and how many there are",
    },
];

/// Those of `serve` alone.
pub(crate) const SERVE: &[ArgumentWords] = &[
    ArgumentWords {
        name: "port",
        takes: Takes::NeededValue("P"),
        help: "The UDP port for clients; TURN's own is 3478",
    },
    ArgumentWords {
        name: "options",
        takes: Takes::Value("FILE"),
        help: "A file of further options, one a line as on the command line; # begins a comment",
    },
    ArgumentWords {
        name: "listen",
        takes: Takes::Value("A"),
        help: "The IPv4 address that the sockets are bound to; 127.0.0.1 by default",
    },
    ArgumentWords {
        name: "listen6",
        takes: Takes::Value("A"),
        help: "An IPv6 address that each slot has a further socket at; none by default",
    },
    ArgumentWords {
        name: "buffer",
        takes: Takes::Value("BYTES"),
        help: "What each socket holds of datagrams that came, and of those to send; 4194304 by default",
    },
    ArgumentWords {
        name: "reuse-port",
        takes: Takes::Nothing,
        help: "Let other processes serve the same port; the system keeps each client with one of them",
    },
    ArgumentWords {
        name: "deny",
        takes: Takes::Values("NETWORK"),
        help: "A network, as 10.0.0.0/8, that nothing is sent to; may be repeated, and the longest prefix decides",
    },
    ArgumentWords {
        name: "allow",
        takes: Takes::Values("NETWORK"),
        help: "A network of one that nothing is sent to, that is sent to all the same; may be repeated",
    },
    ArgumentWords {
        name: "relayed-ports",
        takes: Takes::Value("P-P"),
        help: "The ports of the server's own addresses that are sent to; those of the slots by default",
    },
    ArgumentWords {
        name: "unconfined",
        takes: Takes::Nothing,
        help: "Let the programs send to and from peers that clients haven't permitted",
    },
    ArgumentWords {
        name: "shadow-client",
        takes: Takes::Value("FILE"),
        help: "A program that runs beside that for clients' datagrams and decides nothing; where it differs is counted",
    },
    ArgumentWords {
        name: "shadow-peer",
        takes: Takes::Value("FILE"),
        help: "A program that runs beside that for peers' datagrams and decides nothing; where it differs is counted",
    },
    ArgumentWords {
        name: "rounds",
        takes: Takes::Value("N"),
        help: "End after N rounds, which never wait: each tries one receive at each socket",
    },
    ArgumentWords {
        name: "nonce-lifetime",
        takes: Takes::Value("S"),
        help: "The seconds after which a new nonce is drawn; 3600 by default",
    },
    ArgumentWords {
        name: "stats",
        takes: Takes::Value("S"),
        help: "Print counters to standard error each S seconds, and after the last round",
    },
    ArgumentWords {
        name: "metrics",
        takes: Takes::Value("FILE"),
        help: "Write the counters to a file each 15 seconds, in the text format of Prometheus",
    },
    ArgumentWords {
        name: "record",
        takes: Takes::Value("FILE"),
        help: "Write each event to a new file, as replay reads it: what users send is in it",
    },
    ArgumentWords {
        name: "record-limit",
        takes: Takes::Value("BYTES"),
        help: "What the file of --record has at most, in whole lines; 1073741824 by default",
    },
    ArgumentWords {
        name: "log",
        takes: Takes::Nothing,
        help: "Print allocations and refused credentials to standard error, at most 100 lines a second",
    },
];

/// Those of `check`.
const CHECK: &[ArgumentWords] = &[
    ArgumentWords {
        name: "server",
        takes: Takes::Word("HOST:PORT"),
        help: "The server: its address, or its name, and the port for clients",
    },
    ArgumentWords {
        name: "user",
        takes: Takes::Value("NAME:PASSWORD"),
        help: "A user to make an allocation with, whose name ends at the first colon; none by default",
    },
];

/// The subcommands.
pub(crate) const SUBCOMMANDS: [SubcommandWords; 10] = [
    SubcommandWords {
        name: "assemble",
        about: "Assemble the text of a program, or print which line is wrong",
        arguments: ASSEMBLE,
        shared: NONE,
    },
    SubcommandWords {
        name: "order",
        about: "Put a program in an order in which every jump leads forward, or print where it has a loop",
        arguments: ORDER,
        shared: NONE,
    },
    SubcommandWords {
        name: "disassemble",
        about: "Print a program as text, which assembles to the same program",
        arguments: DISASSEMBLE,
        shared: NONE,
    },
    SubcommandWords {
        name: "verify",
        about: "Verify a program, and print which instruction is refused and why",
        arguments: VERIFY,
        shared: NONE,
    },
    SubcommandWords {
        name: "explain",
        about: "Print what the verifier knows at each instruction, or the path to the one that it refuses, and why",
        arguments: EXPLAIN,
        shared: NONE,
    },
    SubcommandWords {
        name: "graph",
        about: "Print the blocks of a program and its jumps in the language DOT, with the path to a refusal in red",
        arguments: GRAPH,
        shared: NONE,
    },
    SubcommandWords {
        name: "trace",
        about: "Run a program over one datagram, and print each instruction as it is reached",
        arguments: TRACE,
        shared: NONE,
    },
    SubcommandWords {
        name: "replay",
        about: "Replay events through a relay, and print the answer to each",
        arguments: REPLAY,
        shared: RELAY,
    },
    SubcommandWords {
        name: "serve",
        about: "Serve clients and peers over UDP, until it is stopped; programs whose files change are replaced",
        arguments: SERVE,
        shared: RELAY,
    },
    SubcommandWords {
        name: "check",
        about: "Check a server as a client does, and print what works and how long it took",
        arguments: CHECK,
        shared: NONE,
    },
];
