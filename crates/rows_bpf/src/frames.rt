//! The frames that programs run in, and the contexts of datagrams.

ghost use Rattle.std.specs.Prelude.{◌≡◌, ◌≤◌, true, length};

use anyhow::{Result, bail};
use machine::{Addr, Context, Frame, Helpers, Outcome, Side, Silent, run, trace};
use std::alloc::{AllocError, Global};
use verifier::Verified;

/// A datagram from a client at 192.0.2.7:5000, in a transaction with the bytes 1 to 12.
pub const CLIENT: Context = Context {
    side: Side::Client,
    source: Addr::V4 {
        ip: [192, 0, 2, 7],
        port: 5000,
    },
    tx: [1, 2, 3, 4, 5, 6, 7, 8, 9, 10, 11, 12],
};

/// A datagram from a peer at 127.0.0.1:9, in a transaction of zeros.
pub const PEER: Context = Context {
    side: Side::Peer,
    source: Addr::V4 {
        ip: [127, 0, 0, 1],
        port: 9,
    },
    tx: [0; 12],
};

/// A datagram from a peer with an IPv6 address, in a transaction of which every bit is set.
const IPV6_PEER: Context = Context {
    side: Side::Peer,
    source: Addr::V6 {
        ip: [0x20, 1, 0x0d, 0xb8, 1, 2, 3, 4, 5, 6, 7, 8, 9, 10, 11, 12],
        port: 5000,
    },
    tx: [0xff; 12],
};

/// Returns the context of a name.
///
/// # Errors
/// Where no context has it.
pub fn context_of(name: &str) -> Result<Context> {
    match name {
        "client" => Ok(CLIENT),
        "peer" => Ok(PEER),
        "ipv6_peer" => Ok(IPV6_PEER),
        _ => bail!("no such context: {name}"),
    }
}

/// Starts a frame on a datagram.
fn start_on(frame: &mut Frame, context: &Context, datagram: &[u8])
    requires { length datagram.now ≤ 65507 }
    ensures { frame.new.is_started ≡ true }
{
    let n = datagram.len();
    let (room, _) = frame.area().split_at_mut(n);
    room.copy_from_slice(datagram);
    frame.start(context, n);
}

/// The frame of a run and that of a trace, which are used again for each program.
#[derive(Drop)]
pub struct Frames {
    /// The frame that a program runs in.
    pub ran: Frame,
    /// The frame that it is traced in.
    pub traced: Frame,
}

impl Frames {
    /// Allocates both frames.
    ///
    /// # Errors
    /// Where memory runs out.
    pub fn new(alloc: Global) -> Result<Frames, AllocError> {
        let ran = Frame::new(alloc)?;
        let traced = Frame::new(alloc)?;
        Ok(Frames { ran, traced })
    }

    /// Returns what the frames show that is not the same.
    fn difference(&self) -> Option<&'static str> {
        let Frames { ran, traced } = self;
        if ran.datagram() != traced.datagram() {
            Some("datagram")
        } else if ran.window() != traced.window() {
            Some("window")
        } else if ran.started() || traced.started() {
            Some("start")
        } else {
            None
        }
    }

    /// Runs and traces a program over a datagram, and returns how the run ends.
    ///
    /// # Errors
    /// Where the datagram is too long, or the run and the trace differ.
    pub fn run<H: Helpers>(
        &mut self,
        program: &Verified,
        context: &Context,
        datagram: &[u8],
        helpers: &H,
    ) -> Result<Outcome> {
        if datagram.len() > 65_507 {
            bail!("the datagram is too long");
        }
        start_on(&mut self.ran, context, datagram);
        start_on(&mut self.traced, context, datagram);
        let outcome = run(program, &mut self.ran, helpers);
        let ended = trace(program.code(), &mut self.traced, helpers, &mut Silent);
        if ended != Ok(outcome) {
            bail!("the run and the trace end otherwise");
        }
        if self.ran.datagram().len() != datagram.len() {
            bail!("the datagram has another length");
        }
        match self.difference() {
            Some(part) => bail!("the run and the trace leave another {part}"),
            None => Ok(outcome),
        }
    }
}
