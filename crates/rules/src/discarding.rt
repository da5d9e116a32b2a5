//! Why the rules send nothing for a datagram.

ghost use Rattle.std.specs.Prelude.{◌≡◌, ◌+◌, ◌<◌, ◌^◌, List, ℕ, length};
ghost use Rattle.attributes.specs.Addresses.{address_value};
ghost use Rattle.control.specs.declared.config.Config.{Config};
ghost use Rattle.stun.specs.Messages.{padding_count};
ghost use Rattle.tables.specs.Rows.{rows_at};
ghost use Rattle.rules.specs.ByRules.{request_of};
ghost use Rattle.rules.specs.Discards.{discard_in, peer_test, ruled_disposition};
ghost use Rattle.rules.specs.Dispositions.{client_disposition, relayed_if};
ghost use Rattle.rules.specs.Rules.{message_to_client};

use crate::client::SEND;
use crate::disposition::{Discard, Disposition};
use crate::relaying::{begins_as_stun, channel_data, send};
use attributes::Addr;
use control::Request;
use events::{Meta, Source};
use semantics::MAX_DATAGRAM;
use stun::{Message, read};
use tables::{Tables, Uncounted};

/// Returns why nothing is sent, if nothing is.
fn discard_in(disposition: Disposition) -> Option<Discard>
    ensures { result ≡ discard_in disposition }
{
    match disposition {
        Disposition::Discarded(reason) => Some(reason),
        Disposition::Relayed | Disposition::Answered(_) => None,
    }
}

/// Returns the request that a message is, if it is one that is answered.
fn request_of(message: &Message<'_>) -> Option<Request>
    ensures { result ≡ request_of message.now.kind }
{
    Request::of(message)
}

/// Returns why nothing is sent for a datagram of a client.
fn discard_of_client(tables: &Tables, moment: u64, client: Addr, datagram: &[u8]) -> Option<Discard>
    ensures { (config : Config) → result
        ≡ discard_in (client_disposition config moment client tables.now datagram.now) }
{
    if !begins_as_stun(datagram) {
        return discard_in(channel_data(
            tables,
            moment,
            client,
            datagram,
            &mut Uncounted,
        ).disposition());
    }
    let Ok(message) = read(datagram) else {
        return Some(Discard::Malformed);
    };
    if message.kind() == SEND.kind() {
        return discard_in(send(tables, moment, client, &message, &mut Uncounted).disposition());
    }
    match request_of(&message) {
        Some(_) => None,
        None => Some(Discard::NoRequest),
    }
}

/// Returns how many bytes a value of `n` bytes takes that is filled up to a multiple of four.
fn padded(n: usize) -> usize
    requires { n < 2 ^ 63 }
    ensures { result ≡ n + padding_count n }
{
    n + (4 - n % 4) % 4
}

/// Returns the length of the value of an XOR address.
fn value_length(peer: &Addr) -> usize
    ensures length { (tx : List ℕ) → result ≡ length (address_value peer.now tx) }
    ensures few { result < 21 }
{
    match peer {
        Addr::V4 { .. } => 8,
        Addr::V6 { .. } => 20,
    }
}

/// Returns the length of what carries `n` bytes of a peer to a client: ChannelData, or a Data indication.
fn length_to_client(number: Option<u16>, peer: &Addr, n: usize) -> usize
    requires { n < 2 ^ 63 }
    ensures { (tx content : List ℕ) → length tx ≡ 12 → length content ≡ n
        → result ≡ length (message_to_client number peer.now tx content) }
{
    match number {
        Some(_) => 4 + n,
        None => 20 + (4 + padded(value_length(peer))) + (4 + padded(n)),
    }
}

/// Returns why nothing is sent for a datagram of a peer.
fn discard_of_peer(
    tables: &Tables,
    moment: u64,
    slot: usize,
    peer: Addr,
    datagram: &[u8],
) -> Option<Discard>
    ensures { (tx : List ℕ) → length tx ≡ 12
        → result ≡ discard_in (relayed_if (peer_test slot peer tx (rows_at moment tables.now) datagram.now)) }
{
    let Some(live) = tables.live_at(slot, moment) else {
        return Some(Discard::NoAllocation);
    };
    if !live.permitted(peer, &mut Uncounted) {
        return Some(Discard::NoPermission);
    }
    let number = live.channel_of(peer, &mut Uncounted);
    if length_to_client(number, &peer, datagram.len()) > MAX_DATAGRAM {
        return Some(Discard::TooLong);
    }
    None
}

/// Returns why the rules send nothing for a datagram at a moment, in seconds; `None` where they send something. It
/// changes nothing, and what is done with a request is ignored, since each is answered.
/// See docs/DECISIONS.md, "Why a replay answers so".
pub fn discard_by_rules(
    tables: &Tables,
    moment: u64,
    meta: &Meta,
    datagram: &[u8],
) -> Option<Discard>
    ensures { (config : Config) → result
        ≡ discard_in (ruled_disposition config moment meta.entry.now.tx meta.entry.now.from tables.now datagram.now) }
{
    match meta.from {
        Source::Client(client) => discard_of_client(tables, moment, client, datagram),
        Source::Peer { slot, addr } => discard_of_peer(tables, moment, slot, addr, datagram),
    }
}
