//! ChannelData messages (RFC 8656, section 12.4).

ghost use Rattle.std.specs.Prelude.{◌≡◌, IfSome, IsSomeAnd, option_map};
ghost use Rattle.stun.specs.Channels.{ChannelMessage, IsChannelMessage};
ghost use Rattle.stun.specs.ChannelData.{channel_message};
ghost use Rattle.stun.specs.Datagrams.{channel_in};

use crate::registry::{FIRST_CHANNEL_DATA, LAST_CHANNEL_DATA};
use byteorder::{BigEndian, ByteOrder};

/// The length of what precedes the data, in bytes.
const CHANNEL_HEADER_BYTES: usize = 4;

/// A ChannelData message: the number of the channel, 0x4000 to 0x7FFF, and the data.
#[derive(Clone, Copy, Debug)]
pub struct ChannelData<'a> {
    pub number: u16,
    pub bytes: &'a [u8],
}

/// Parses a datagram as a ChannelData message (RFC 8656, section 12.4). What follows the data is ignored.
pub fn read_channel(bytes: &[u8]) -> Option<ChannelData<'_>>
    ensures reads { option_map channel_message result ≡ channel_in bytes.now }
    ensures found { IfSome result (λ m. IsChannelMessage (channel_message m) bytes.now) }
    ensures only { (m : ChannelMessage) → IsChannelMessage m bytes.now
        → IsSomeAnd result (λ r. channel_message r ≡ m) }
{
    if bytes.len() < CHANNEL_HEADER_BYTES {
        return None;
    }
    let number = BigEndian::read_u16(bytes);
    let (_, rest) = bytes.split_at(2);
    let length = BigEndian::read_u16(rest) as usize;
    let (_, rest) = bytes.split_at(CHANNEL_HEADER_BYTES);
    if number < FIRST_CHANNEL_DATA || number > LAST_CHANNEL_DATA || length > rest.len() {
        return None;
    }
    let (data, _) = rest.split_at(length);
    Some(ChannelData {
        number,
        bytes: data,
    })
}
