//! Relaying by the rules: where the data of a client's datagram goes.

ghost use Rattle.std.specs.Prelude.{◌≡◌, ◌≤◌, ◌+◌, List, ℕ, Some};
ghost use Rattle.stun.specs.Datagrams.{message_in};
ghost use Rattle.tables.specs.Rows.{rows_at};
ghost use Rattle.rules.specs.Answers.{sending_of_answer, LiesInRoom};
ghost use Rattle.rules.specs.Dispositions.{channel_data_test, disposition_of, relayed_if, send_test};
ghost use Rattle.rules.specs.FastPart.{begins_as_stun};
ghost use Rattle.rules.specs.Rules.{channel_data_from, send_from};

use crate::answer::Answer;
use crate::disposition::Discard;
use attributes::{Addr, read_xor_addr};
use control::all_understood;
use stun::registry::attribute::{DATA, XOR_PEER_ADDRESS};
use stun::{Message, read_channel};
use tables::{Count, Tables};

/// Returns whether a datagram begins with the bits 00, as STUN messages do.
pub(crate) fn begins_as_stun(datagram: &[u8]) -> bool
    ensures { result ≡ begins_as_stun datagram.now }
{
    match datagram {
        [] => false,
        [first, ..] => *first < 0x40,
    }
}

/// Relays ChannelData: its data goes to the peer that its number is bound to (RFC 8656, section 12.6). `keys` counts
/// the keys that are compared: at most 9 for the client, and 7 for the channel.
pub(crate) fn channel_data<C: Count>(
    tables: &Tables,
    moment: u64,
    client: Addr,
    datagram: &[u8],
    keys: &mut C,
) -> Answer
    ensures sends { (reply : List ℕ) → sending_of_answer client datagram.now reply result
        ≡ channel_data_from client (rows_at moment tables.now) datagram.now }
    ensures disposition { disposition_of result
        ≡ relayed_if (channel_data_test client (rows_at moment tables.now) datagram.now) }
    ensures room { (reply : List ℕ) → LiesInRoom result reply }
    ensures keys { C.count keys.new ≤ C.count keys.old + 16 }
{
    let Some(live) = tables.live_of(client, moment, keys) else {
        return Answer::Nothing(Discard::NoAllocation);
    };
    let Some(message) = read_channel(datagram) else {
        return Answer::Nothing(Discard::Malformed);
    };
    let Some(peer) = live.peer_of(message.number, keys) else {
        return Answer::Nothing(Discard::NoChannel);
    };
    let own = live.allocation();
    if !peer.is_of_family(own.family) {
        return Answer::Nothing(Discard::OtherFamily);
    }
    Answer::ChannelData {
        slot: own.slot,
        peer,
    }
}

/// Relays a Send indication: its data goes to its address, if that has a permission (RFC 8656, section 11.2). `keys`
/// counts the keys that are compared: at most 9 for the client, and 7 for the permission.
pub(crate) fn send<C: Count>(
    tables: &Tables,
    moment: u64,
    client: Addr,
    message: &Message<'_>,
    keys: &mut C,
) -> Answer
    ensures sends { (datagram reply : List ℕ) → message_in datagram ≡ Some message.now
        → sending_of_answer client datagram reply result ≡ send_from client (rows_at moment tables.now) message.now }
    ensures disposition { disposition_of result
        ≡ relayed_if (send_test client (rows_at moment tables.now) message.now) }
    ensures room { (reply : List ℕ) → LiesInRoom result reply }
    ensures keys { C.count keys.new ≤ C.count keys.old + 16 }
{
    let Some(live) = tables.live_of(client, moment, keys) else {
        return Answer::Nothing(Discard::NoAllocation);
    };
    if !all_understood(message) {
        return Answer::Nothing(Discard::UnknownAttribute);
    }
    let Some(value) = message.value_of(XOR_PEER_ADDRESS) else {
        return Answer::Nothing(Discard::Incomplete);
    };
    if message.value_of(DATA).is_none() {
        return Answer::Nothing(Discard::Incomplete);
    }
    let Ok(peer) = read_xor_addr(value, &message.tx()) else {
        return Answer::Nothing(Discard::Incomplete);
    };
    if !live.permitted(peer, keys) {
        return Answer::Nothing(Discard::NoPermission);
    }
    let own = live.allocation();
    if !peer.is_of_family(own.family) {
        return Answer::Nothing(Discard::OtherFamily);
    }
    Answer::Send {
        slot: own.slot,
        peer,
    }
}
