//! What several tests have in common.

ghost use Rattle.std.specs.Prelude.{◌≡◌, ◌≤◌, true, length};

use asm::assemble;
use machine::{Addr, Context, Frame, Side};
use std::test::Fail;

/// Assembles the text of a program to the bytes of its file.
pub fn assembled<R: AllocGlobal>(rt: &R, text: &str) -> Result<Vec<u8>, Fail> {
    Ok(assemble(rt.alloc(), text)?)
}

/// A datagram from a client at 192.0.2.7:5000, in a transaction with the bytes 1 to 12.
pub const CLIENT: Context = Context {
    side: Side::Client,
    source: Addr::V4 {
        ip: [192, 0, 2, 7],
        port: 5000,
    },
    tx: [1, 2, 3, 4, 5, 6, 7, 8, 9, 10, 11, 12],
};

/// A datagram from a peer at 127.0.0.1:9, without a transaction.
pub const PEER: Context = Context {
    side: Side::Peer,
    source: Addr::V4 {
        ip: [127, 0, 0, 1],
        port: 9,
    },
    tx: [0; 12],
};

/// Starts a frame on a datagram.
pub fn start_on(frame: &mut Frame, context: &Context, datagram: &[u8])
    requires { length datagram.now ≤ 65507 }
    ensures { frame.new.is_started ≡ true }
{
    let n = datagram.len();
    let (room, _) = frame.area().split_at_mut(n);
    room.copy_from_slice(datagram);
    frame.start(context, n);
}
