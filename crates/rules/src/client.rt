//! The datagrams of clients.

ghost use Rattle.std.specs.Prelude.{◌≡◌, ◌≤◌, ◌+◌, None, length, true};
ghost use Rattle.control.specs.Configs.{fault};
ghost use Rattle.tables.specs.Addresses.{is_ipv4};
ghost use Rattle.rules.specs.Answers.{sending_of_answer, LiesInRoom};
ghost use Rattle.rules.specs.ByRules.{from_client};
ghost use Rattle.rules.specs.Dispositions.{client_disposition, disposition_of};

use crate::answer::{Answer, reply_of};
use crate::disposition::Discard;
use crate::relaying::{begins_as_stun, channel_data, send};
use attributes::Addr;
use control::{Config, REPLY_BYTES, respond};
use stun::read;
use stun::registry::{Class, MessageType, Method};
use tables::{Count, Tables};

/// The type of a Send indication.
pub(crate) const SEND: MessageType = MessageType {
    method: Method::Send,
    class: Class::Indication,
};

/// Answers a datagram of a client over IPv4 at a moment, in seconds, by the rules: what begins as a STUN message does
/// is answered or relayed as one, and everything else is relayed if it is ChannelData. A request may change the tables,
/// and its reply is written over the first bytes of `out`, which has at least [`REPLY_BYTES`](control::REPLY_BYTES)
/// bytes. The configuration has no fault, and the tables have its slots.
///
/// `keys` counts the keys that are compared to relay: at most 9 for the client, and 7 for the channel or the
/// permission. Those of a request are the affair of [`respond`], each of whose look-ups compares at most 9.
pub fn answer_client<C: Count>(
    tables: &mut Tables,
    config: &Config,
    moment: u64,
    client: Addr,
    datagram: &[u8],
    out: &mut [u8],
    keys: &mut C,
) -> Answer
    requires room { REPLY_BYTES ≤ length out.old }
    requires config { fault config.now ≡ None }
    requires slots { length tables.old.slots ≡ config.now.slots }
    requires ipv4 { is_ipv4 client ≡ true }
    ensures answer { sending_of_answer client datagram.now out.new result
        ≡ (from_client config.now moment client tables.old datagram.now).answer }
    ensures disposition { disposition_of result ≡ client_disposition config.now moment client tables.old datagram.now }
    ensures rows { tables.new ≡ (from_client config.now moment client tables.old datagram.now).rows }
    ensures room { LiesInRoom result out.new }
    ensures slots { length tables.new.slots ≡ length tables.old.slots }
    ensures keys { C.count keys.new ≤ C.count keys.old + 16 }
{
    if !begins_as_stun(datagram) {
        return channel_data(tables, moment, client, datagram, keys);
    }
    let Ok(message) = read(datagram) else {
        return Answer::Nothing(Discard::Malformed);
    };
    if message.kind() == SEND.kind() {
        return send(tables, moment, client, &message, keys);
    }
    reply_of(respond(tables, config, moment, client, &message, out))
}
