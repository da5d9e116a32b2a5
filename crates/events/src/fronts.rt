//! What precedes the bytes of a line: a side, a moment, a transaction id, a slot and an address.

ghost use Rattle.std.specs.Prelude.{◌≡◌, ◌+◌, ◌*◌, ◌≤◌, ◌++◌, ◌∷◌, [], length, codes, decimal};
ghost use Rattle.std.specs.List.{flat_map};
ghost use Rattle.arrayvec.specs.ArrayVec.{array_vec_len};
ghost use Rattle.hex.specs.Hex.{encode_lower};
ghost use Rattle.addresses.specs.AddressTexts.{address_text, dotted_decimal, hex_digits};
ghost use Rattle.events.specs.Lines.{side_text, source_text};
ghost use Rattle.events.specs.declared.fronts.TheConstants.{FRONT};

use crate::meta::{Meta, Source};
use crate::room::{push_bytes, push_number};
use arrayvec::ArrayVec;
use attributes::Addr;

/// Room for what precedes the bytes of a line.
const FRONT: usize = 112;

/// Appends four bytes in decimal digits, with points between them.
fn push_dotted(front: &mut ArrayVec<u8, FRONT>, ip: [u8; 4])
    requires { array_vec_len front.old + 15 ≤ FRONT }
    ensures bytes { front.new.items ≡ front.old.items ++ dotted_decimal ip }
    ensures len { array_vec_len front.new ≤ array_vec_len front.old + 15 }
{
    let [a, b, c, d] = ip;
    push_number(front, a);
    push_bytes(front, b".");
    push_number(front, b);
    push_bytes(front, b".");
    push_number(front, c);
    push_bytes(front, b".");
    push_number(front, d);
}

/// Appends at most sixteen bytes in hexadecimal digits.
fn push_digits<const N: usize>(front: &mut ArrayVec<u8, FRONT>, bytes: [u8; N])
    requires few { N ≤ 16 }
    requires room { array_vec_len front.old + 2 * N ≤ FRONT }
    ensures bytes { front.new.items ≡ front.old.items ++ encode_lower bytes.entry }
    ensures glyphs { front.new.items ≡ front.old.items ++ flat_map hex_digits bytes.entry }
    ensures len { array_vec_len front.new ≡ array_vec_len front.old + 2 * N }
{
    let mut room = [0u8; 32];
    let digits = &mut room[..2 * N];
    let Ok(()) = hex::encode_to_slice(bytes, digits) else {
        unreachable!();
    };
    push_bytes(front, digits);
}

/// Appends the text of an address.
fn push_address(front: &mut ArrayVec<u8, FRONT>, address: &Addr)
    requires { array_vec_len front.old + 40 ≤ FRONT }
    ensures bytes { front.new.items ≡ front.old.items ++ address_text address.now }
    ensures len { array_vec_len front.new ≤ array_vec_len front.old + 40 }
{
    match *address {
        Addr::V4 { ip, port } => {
            push_dotted(front, ip);
            push_bytes(front, b":");
            push_number(front, port);
        }
        Addr::V6 { ip, port } => {
            push_bytes(front, b"[");
            push_digits(front, ip);
            push_bytes(front, b"]:");
            push_number(front, port);
        }
    }
}

/// Appends a slot and the address of a peer.
fn push_peer(front: &mut ArrayVec<u8, FRONT>, slot: usize, peer: &Addr)
    requires { array_vec_len front.old + 61 ≤ FRONT }
    ensures bytes { front.new.items ≡ front.old.items ++ (decimal slot ++ 0x20 ∷ address_text peer.now) }
    ensures len { array_vec_len front.new ≤ array_vec_len front.old + 61 }
{
    push_number(front, slot);
    push_bytes(front, b" ");
    push_address(front, peer);
}

/// Appends the source of a datagram.
fn push_source(front: &mut ArrayVec<u8, FRONT>, source: &Source)
    requires { array_vec_len front.old + 61 ≤ FRONT }
    ensures bytes { front.new.items ≡ front.old.items ++ source_text source.now }
    ensures len { array_vec_len front.new ≤ array_vec_len front.old + 61 }
{
    match source {
        Source::Client(client) => push_address(front, client),
        Source::Peer { slot, addr } => push_peer(front, *slot, addr),
    }
}

/// Returns the side of a source.
fn side(source: &Source) -> &'static [u8]
    ensures { result.now ≡ side_text source.now }
{
    match source {
        Source::Client(_) => b"c",
        Source::Peer { .. } => b"p",
    }
}

/// Returns what precedes the bytes of a datagram that came.
pub(crate) fn datagram_front(meta: &Meta) -> ArrayVec<u8, FRONT>
    ensures { result.items ≡ side_text meta.entry.now.from ++ 0x20 ∷ (decimal meta.entry.now.now
        ++ 0x20 ∷ (encode_lower meta.entry.now.tx ++ 0x20 ∷ (source_text meta.entry.now.from ++ 0x20 ∷ []))) }
{
    let mut front = ArrayVec::new();
    push_bytes(&mut front, side(&meta.from));
    push_bytes(&mut front, b" ");
    push_number(&mut front, meta.now);
    push_bytes(&mut front, b" ");
    push_digits(&mut front, meta.tx);
    push_bytes(&mut front, b" ");
    push_source(&mut front, &meta.from);
    push_bytes(&mut front, b" ");
    front
}

/// Returns what precedes the bytes that go to a peer.
pub(crate) fn peer_front(slot: usize, peer: &Addr) -> ArrayVec<u8, FRONT>
    ensures { result.items ≡ codes "p" ++ 0x20 ∷ (decimal slot ++ 0x20 ∷ (address_text peer.now ++ 0x20 ∷ [])) }
{
    let mut front = ArrayVec::new();
    push_bytes(&mut front, b"p ");
    push_peer(&mut front, slot, peer);
    push_bytes(&mut front, b" ");
    front
}

/// Returns what precedes the bytes that go to a client.
pub(crate) fn client_front(client: &Addr) -> ArrayVec<u8, FRONT>
    ensures { result.items ≡ codes "c" ++ 0x20 ∷ (address_text client.now ++ 0x20 ∷ []) }
{
    let mut front = ArrayVec::new();
    push_bytes(&mut front, b"c ");
    push_address(&mut front, client);
    push_bytes(&mut front, b" ");
    front
}
