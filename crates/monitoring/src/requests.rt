//! What the request says that a server has just answered.

use attributes::{Addr, read_xor_addr};
use stun::registry::attribute::XOR_PEER_ADDRESS;
use stun::{Message, read};

/// The bytes of the header of a STUN message (RFC 8489, section 5).
const HEADER_BYTES: usize = 20;

/// Returns the STUN message at the start of the room for datagrams, by the length in its header.
pub(crate) fn request_in(room: &[u8]) -> Option<Message<'_>> {
    let [_, _, high, low, ..] = room else {
        return None;
    };
    let length = usize::from(u16::from_be_bytes([*high, *low]));
    read(room.get(..HEADER_BYTES + length)?).ok()
}

/// Returns the peer that the request at the start of the room for datagrams names first, as a ChannelBind request does
/// (RFC 8656, section 12).
pub fn named_peer(room: &[u8]) -> Option<Addr> {
    let request = request_in(room)?;
    let value = request.value_of(XOR_PEER_ADDRESS)?;
    read_xor_addr(value, &request.tx()).ok()
}
