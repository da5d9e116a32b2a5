//! Reads lines of event text.

ghost use Rattle.std.specs.Prelude.{◌≡◌, ℕ, ◌^◌, ◌≤◌, List, IfSome, IsSomeAnd, None, Some, option_map, length, take, if◌then◌else◌};
ghost use Rattle.semantics.specs.declared.limits.TheConstants.{MAX_DATAGRAM};
ghost use Rattle.basics.specs.Decimals.{decimal_in};
ghost use Rattle.events.specs.Events.{Event};
ghost use Rattle.events.specs.Lines.{line_of, IsEvent};
ghost use Rattle.events.specs.Parsing.{event_of, FitsRoom, pair_of, source_and_rest, source_of_side};
ghost use Rattle.events.specs.Reading.{parts_around, ipv4_in, is_bracketed, ipv6_in, host_in, address_in_text, has_upper, digits_in, content_in, client_in_text, peer_in, datagram_in_text, nonce_in, event_in};

use crate::meta::{Meta, Source};
use attributes::Addr;
use basics::decimal::number;
use credentials::is_nonce;
use semantics::MAX_DATAGRAM;

/// An event that a line has. The bytes of a datagram are in the room that was given.
#[derive(Clone, Copy, Debug)]
pub enum Parsed<'a> {
    /// A datagram of `n` bytes.
    Datagram { meta: Meta, n: usize },
    /// A nonce.
    Nonce(&'a str),
}

/// Returns what precedes and what follows the first of a separator.
fn split_at(bytes: &[u8], separator: u8) -> Option<(&[u8], &[u8])>
    ensures { option_map pair_of result ≡ parts_around separator bytes.now }
{
    for front in 0..bytes.len() {
        if bytes[front] == separator {
            let (before, rest) = bytes.split_at(front);
            let (_, after) = rest.split_at(1);
            return Some((before, after));
        }
    }
    None
}

/// Returns the number of a decimal text, if it is below a limit.
fn number_below(text: &[u8], limit: u64) -> Option<u64>
    ensures { result ≡ decimal_in limit text.now }
{
    match number(text) {
        Some(number) if number < limit => Some(number),
        _ => None,
    }
}

/// Returns the byte of a decimal text.
fn byte(text: &[u8]) -> Option<u8>
    ensures { result ≡ decimal_in 256 text.now }
{
    let number = number_below(text, 256)?;
    Some(number as u8)
}

/// Returns the IPv4 address of four decimal numbers with points between them.
fn ipv4(text: &[u8]) -> Option<[u8; 4]>
    ensures { result ≡ ipv4_in text.now }
{
    let (first, rest) = split_at(text, b'.')?;
    let (second, rest) = split_at(rest, b'.')?;
    let (third, fourth) = split_at(rest, b'.')?;
    Some([byte(first)?, byte(second)?, byte(third)?, byte(fourth)?])
}

/// Returns whether a text has a letter in upper case.
fn has_upper(text: &[u8]) -> bool
    ensures { result ≡ has_upper text.now }
{
    text.iter().any(|byte| (b'A'..=b'Z').contains(byte))
}

/// Reads as many bytes as there is room for from hexadecimal digits in lower case. Returns whether the text has just
/// those.
fn read_digits(text: &[u8], out: &mut [u8]) -> bool
    ensures { (if result then Some out.new else None) ≡ digits_in (length out.old) text.now }
{
    !has_upper(text) && hex::decode_to_slice(text, out).is_ok()
}

/// Returns whether an opening bracket is first.
fn is_bracketed(text: &[u8]) -> bool
    ensures { result ≡ is_bracketed text.now }
{
    match text {
        [] => false,
        [first, ..] => *first == b'[',
    }
}

/// Returns the IPv6 address of 32 digits in brackets.
fn ipv6(text: &[u8]) -> Option<[u8; 16]>
    ensures { result ≡ ipv6_in text.now }
{
    let (before, rest) = split_at(text, b'[')?;
    let (digits, after) = split_at(rest, b']')?;
    if before != b"".as_slice() || after != b"".as_slice() {
        return None;
    }
    let mut ip = [0; 16];
    if read_digits(digits, &mut ip) {
        Some(ip)
    } else {
        None
    }
}

/// Returns the address of a host that has a port.
fn host(text: &[u8], port: u16) -> Option<Addr>
    ensures { result ≡ host_in text.now port }
{
    if is_bracketed(text) {
        let ip = ipv6(text)?;
        Some(Addr::V6 { ip, port })
    } else {
        let ip = ipv4(text)?;
        Some(Addr::V4 { ip, port })
    }
}

/// Returns the address of a text `a.b.c.d:port`, or `[` 32 digits `]:port`.
fn address(text: &[u8]) -> Option<Addr>
    ensures { result ≡ address_in_text text.now }
{
    let (text, port) = split_at(text, b':')?;
    let port = number_below(port, 0x10000)? as u16;
    host(text, port)
}

/// Reads the bytes of a datagram over the first bytes of a room, and returns their number.
fn content(text: &[u8], room: &mut [u8]) -> Option<usize>
    requires { length room.old ≡ MAX_DATAGRAM }
    ensures content { option_map (λ n. take n room.new) result ≡ content_in text.now }
    ensures few { IfSome result (λ n. n ≤ MAX_DATAGRAM) }
{
    if text == b"-".as_slice() {
        return Some(0);
    }
    let n = text.len() / 2;
    if !(1..=MAX_DATAGRAM).contains(&n) {
        return None;
    }
    if read_digits(text, &mut room[..n]) {
        Some(n)
    } else {
        None
    }
}

/// Reads a client's address, and returns it as a source with the text after it.
fn client(text: &[u8]) -> Option<(Source, &[u8])>
    ensures { option_map source_and_rest result ≡ client_in_text text.now }
{
    let (client, rest) = split_at(text, b' ')?;
    Some((Source::Client(address(client)?), rest))
}

/// Reads a slot and a peer's address, and returns them as a source with the text after them.
fn peer(text: &[u8], slots: usize) -> Option<(Source, &[u8])>
    ensures { option_map source_and_rest result ≡ peer_in slots text.now }
{
    let (slot, rest) = split_at(text, b' ')?;
    let (peer, rest) = split_at(rest, b' ')?;
    let slot = number_below(slot, slots as u64)? as usize;
    let addr = address(peer)?;
    Some((Source::Peer { slot, addr }, rest))
}

/// Reads a transaction id.
fn tx(text: &[u8]) -> Option<[u8; 12]>
    ensures { result ≡ digits_in 12 text.now }
{
    let mut id = [0; 12];
    if read_digits(text, &mut id) {
        Some(id)
    } else {
        None
    }
}

/// The side of a datagram.
#[derive(Clone, Copy)]
enum Origin {
    Client,
    Peer,
}

/// Reads the source of a side's datagram, and returns it with the text after it.
fn source(side: Origin, text: &[u8], slots: usize) -> Option<(Source, &[u8])>
    ensures { option_map source_and_rest result ≡ source_of_side side slots text.now }
{
    match side {
        Origin::Client => client(text),
        Origin::Peer => peer(text, slots),
    }
}

/// Reads what follows the side of a datagram. Its bytes are read over the first bytes of a room.
fn datagram<'a>(side: Origin, text: &[u8], slots: usize, room: &mut [u8]) -> Option<Parsed<'a>>
    requires { length room.old ≡ MAX_DATAGRAM }
    ensures reads { option_map (event_of room.new) result ≡ datagram_in_text (source_of_side side slots) text.now }
    ensures few { IfSome result FitsRoom }
{
    let (now, rest) = split_at(text, b' ')?;
    let (id, rest) = split_at(rest, b' ')?;
    let now = number(now)?;
    let tx = tx(id)?;
    let (from, rest) = source(side, rest, slots)?;
    let n = content(rest, room)?;
    let meta = Meta { now, tx, from };
    Some(Parsed::Datagram { meta, n })
}

/// Reads a nonce.
fn nonce(text: &[u8]) -> Option<Parsed<'_>>
    ensures reads { (room : List ℕ) → option_map (event_of room) result ≡ nonce_in text.now }
    ensures few { IfSome result FitsRoom }
{
    let Ok(text) = std::str::from_utf8(text) else {
        return None;
    };
    if is_nonce(text) {
        Some(Parsed::Nonce(text))
    } else {
        None
    }
}

/// Reads what follows the side of a line, or its `n`.
fn read_line<'a>(line: &'a [u8], slots: usize, room: &mut [u8]) -> Option<Parsed<'a>>
    requires { length room.old ≡ MAX_DATAGRAM }
    ensures reads { option_map (event_of room.new) result ≡ event_in slots line.now }
    ensures few { IfSome result FitsRoom }
{
    let (kind, text) = split_at(line, b' ')?;
    if kind == b"c".as_slice() {
        return datagram(Origin::Client, text, slots, room);
    }
    if kind == b"p".as_slice() {
        return datagram(Origin::Peer, text, slots, room);
    }
    if kind == b"n".as_slice() {
        return nonce(text);
    }
    None
}

/// Reads the event of a line, which is without its line feed, for a relay with `slots` slots. The bytes of a datagram
/// are read over the first bytes of a room of 65,507.
///
/// `None` where the line is no event's.
pub fn parse<'a>(line: &'a [u8], slots: usize, room: &mut [u8]) -> Option<Parsed<'a>>
    requires { length room.old ≡ MAX_DATAGRAM }
    ensures reads { option_map (event_of room.new) result ≡ event_in slots line.now }
    ensures found { IfSome result (λ p. IsEvent slots (event_of room.new p)
        × (line.now ≡ line_of (event_of room.new p))) }
    ensures only { (e : Event) → IsEvent slots e → line.now ≡ line_of e
        → IsSomeAnd result (λ p. event_of room.new p ≡ e) }
    ensures few { IfSome result FitsRoom }
{
    read_line(line, slots, room)
}
