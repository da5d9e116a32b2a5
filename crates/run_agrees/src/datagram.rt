//! Seeded datagrams and contexts, and those of a worked session.

ghost use Rattle.std.specs.Prelude.{◌≡◌, ◌≤◌, length};
ghost use Rattle.semantics.specs.declared.limits.TheConstants.{MAX_DATAGRAM};

use crate::random::Random;
use crate::rows::{client, other_peer, peer};
use attributes::Addr;
use machine::{Context, MAX_DATAGRAM, Side};

/// How many datagrams there are to each that is empty, and to each that is about as long as it may be.
const PERIOD: u64 = 250;

/// A datagram of a worked session: its side, its length, and its first bytes. All others are `a`.
pub type Worked = (Side, usize, &'static [u8]);

/// The datagrams of a worked session.
pub static WORKED: [Worked; 14] = [
    // ChannelData: with data and padding, too little data, no data, a number that is no channel's, no header
    (Side::Client, 8, b"\x40\x01\x00\x03abc\x00"),
    (Side::Client, 8, b"\x40\x01\x00\x05abc\x00"),
    (Side::Client, 4, b"\x40\x01\x00\x00"),
    (Side::Client, 4, b"\x50\x00\x00\x00"),
    (Side::Client, 3, b"\x40\x01\x00"),
    // Send indications: of two attributes, with three more that are ignored, and with one that isn't understood
    (
        Side::Client,
        40,
        b"\x00\x16\x00\x14\x21\x12\xa4\x42\x00\x00\x00\x00\x00\x00\x00\x00\x00\x00\x00\x00\
        \x00\x12\x00\x08\x00\x01\x32\x9a\xe1\x12\xa6\x45\x00\x13\x00\x03abc\x00",
    ),
    (
        Side::Client,
        52,
        b"\x00\x16\x00\x20\x21\x12\xa4\x42\x00\x00\x00\x00\x00\x00\x00\x00\x00\x00\x00\x00\
        \x00\x12\x00\x08\x00\x01\x32\x9a\xe1\x12\xa6\x45\x00\x13\x00\x03abc\x00\
        \x80\x01\x00\x00\x80\x01\x00\x00\x80\x01\x00\x00",
    ),
    (
        Side::Client,
        44,
        b"\x00\x16\x00\x18\x21\x12\xa4\x42\x00\x00\x00\x00\x00\x00\x00\x00\x00\x00\x00\x00\
        \x00\x1a\x00\x00\
        \x00\x12\x00\x08\x00\x01\x32\x9a\xe1\x12\xa6\x45\x00\x13\x00\x03abc\x00",
    ),
    // a Binding request
    (
        Side::Client,
        20,
        b"\x00\x01\x00\x00\x21\x12\xa4\x42\x00\x00\x00\x00\x00\x00\x00\x00\x00\x00\x00\x00",
    ),
    // a peer's data: three bytes, none, the longest that fits in ChannelData, one more, and the longest datagram
    (Side::Peer, 3, b"abc"),
    (Side::Peer, 0, b""),
    (Side::Peer, 65_503, b""),
    (Side::Peer, 65_504, b""),
    (Side::Peer, 65_507, b""),
];

/// Returns a length below 300, half of the time one that is divisible by 4.
fn short_length(random: &mut Random) -> usize
    ensures { result ≤ MAX_DATAGRAM }
{
    let length = random.below(300) as usize;
    if random.below(2) == 0 {
        length - length % 4
    } else {
        length
    }
}

/// Returns the length of the datagram of a number.
fn length_of(random: &mut Random, number: u64) -> usize
    ensures { result ≤ MAX_DATAGRAM }
{
    match number % PERIOD {
        0 => 0,
        1 => MAX_DATAGRAM,
        2 => MAX_DATAGRAM - random.below(100) as usize,
        _ => short_length(random),
    }
}

/// Returns the two bytes of the length that is left of another after its first bytes.
fn length_after(length: usize, first: usize) -> [u8; 2] {
    let left = u16::try_from(length.saturating_sub(first));
    left.unwrap_or(u16::MAX).to_be_bytes()
}

/// Writes bytes over the first of others, as many as there is room for.
fn begin_with(bytes: &mut [u8], first: &[u8]) {
    let count = bytes.len().min(first.len());
    bytes[..count].copy_from_slice(&first[..count]);
}

/// Makes a datagram ChannelData (RFC 8656, section 12.4), for the bound channel or the next one.
fn make_channel_data(bytes: &mut [u8], channel: u8) {
    let [high, low] = length_after(bytes.len(), 4);
    begin_with(bytes, &[0x40, channel, high, low]);
}

/// Makes a datagram a Send indication (RFC 8656, section 11.1) with XOR-PEER-ADDRESS, the peer, and DATA.
fn make_send(bytes: &mut [u8]) {
    let [high, low] = length_after(bytes.len(), 20);
    begin_with(bytes, &[0, 0x16, high, low, 0x21, 0x12, 0xa4, 0x42]);
    let [high, low] = length_after(bytes.len(), 36);
    let peer = [0, 0x12, 0, 8, 0, 1, 0x32, 0x9a, 0xe1, 0x12, 0xa6, 0x43];
    let (_, attributes) = bytes.split_at_mut(bytes.len().min(20));
    begin_with(attributes, &peer);
    let (_, attribute) = attributes.split_at_mut(attributes.len().min(12));
    begin_with(attribute, &[0, 0x13, high, low]);
}

/// Writes the datagram of a number over the first bytes of a room, and returns its length.
pub fn write_datagram(random: &mut Random, number: u64, room: &mut [u8]) -> usize
    requires { length room.old ≡ MAX_DATAGRAM }
    ensures { result ≤ MAX_DATAGRAM }
{
    let length = length_of(random, number);
    let (bytes, _) = room.split_at_mut(length);
    random.fill(bytes);
    match random.below(6) {
        0 => make_channel_data(bytes, 0),
        1 => make_channel_data(bytes, 1),
        2 | 3 => make_send(bytes),
        _ => {}
    }
    length
}

/// Writes a datagram of the worked session over the first bytes of a room, and returns its length.
pub fn write_worked(worked: &Worked, room: &mut [u8]) -> usize
    requires { length room.old ≡ MAX_DATAGRAM }
    ensures { result ≤ MAX_DATAGRAM }
{
    let &(_, length, first) = worked;
    let length = length.min(MAX_DATAGRAM);
    let (bytes, _) = room.split_at_mut(length);
    bytes.fill(b'a');
    begin_with(bytes, first);
    length
}

/// Returns the context of a side in the worked session.
pub fn worked_context(side: Side) -> Context {
    let source = match side {
        Side::Client => client(),
        Side::Peer => other_peer(),
    };
    Context {
        side,
        source,
        tx: [0; 12],
    }
}

/// Returns the side and the source of a context: the client, the peer, that peer at another port, or an address of
/// IPv6.
fn source(random: &mut Random) -> (Side, Addr) {
    let (ip, port) = ([192, 0, 2, 1], 5001);
    match random.below(6) {
        0 | 1 | 2 => (Side::Client, client()),
        3 => (Side::Peer, peer()),
        4 => (Side::Peer, Addr::V4 { ip, port }),
        _ => (
            Side::Peer,
            Addr::V6 {
                ip: [0x20; 16],
                port,
            },
        ),
    }
}

/// Returns a context of either side.
pub fn context(random: &mut Random) -> Context {
    let (side, source) = source(random);
    let mut tx = [0; 12];
    random.fill(&mut tx);
    Context { side, source, tx }
}
