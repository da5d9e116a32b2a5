//! What a datagram of a client is answered.

ghost use Rattle.std.specs.Prelude.{◌≡◌, ◌≤◌, ◌<◌, List, ℕ, IfSome, length, take, option_map, option_copied};
ghost use Rattle.addresses.specs.declared.address.Addr.{Addr};
ghost use Rattle.events.specs.Actions.{sending_of};
ghost use Rattle.events.specs.Events.{ToPeer};
ghost use Rattle.control.specs.Responding.{count_of, response_in};
ghost use Rattle.rules.specs.Dispositions.{disposition_of, disposition_of_response};
ghost use Rattle.rules.specs.Answers.{channel_data_in, sent_data_in, sending_of_answer, reply_sent, LiesInRoom};

use crate::disposition::{Discard, Disposition};
use attributes::Addr;
use control::{Response, Written};
use events::Action;
use stun::registry::attribute::DATA;
use stun::{read, read_channel};

/// What a datagram of a client is answered.
#[derive(Clone, Copy, Debug, PartialEq, Eq)]
pub enum Answer {
    /// Nothing is sent, for this reason.
    Nothing(Discard),
    /// The data of the ChannelData message is sent from the relayed address of a slot to a peer.
    ChannelData { slot: usize, peer: Addr },
    /// The data of the Send indication is sent from the relayed address of a slot to a peer.
    Send { slot: usize, peer: Addr },
    /// The first `count` bytes of the room for replies, where `count` is not 0, are sent to the client. They are this
    /// response.
    Reply { count: usize, response: Response },
}

/// Returns the answer of a response that was written, if there is one, to a message that is no Send indication.
pub(crate) fn reply_of(written: Option<Written>) -> Answer
    requires some { IfSome written (λ w. 0 < w.count) }
    ensures sends { (client : Addr) (datagram reply : List ℕ)
        → sending_of_answer client datagram reply result ≡ reply_sent client (take (count_of written) reply) }
    ensures room { (reply : List ℕ) → count_of written ≤ length reply → LiesInRoom result reply }
    ensures disposition { disposition_of result ≡ disposition_of_response (response_in written) }
{
    match written {
        None => Answer::Nothing(Discard::NoRequest),
        Some(Written { count, response }) => Answer::Reply { count, response },
    }
}

/// Sends from a slot to a peer, where there are bytes.
fn to_peer(slot: usize, peer: Addr, bytes: Option<&[u8]>) -> Action<'_>
    ensures { sending_of result ≡ option_map (ToPeer slot peer) (option_copied bytes.entry) }
{
    match bytes {
        Some(bytes) => Action::ToPeer { slot, peer, bytes },
        None => Action::Nothing,
    }
}

/// Returns the data of a ChannelData message.
fn channel_data_in(datagram: &[u8]) -> Option<&[u8]>
    ensures { option_copied result ≡ channel_data_in datagram.now }
{
    Some(read_channel(datagram)?.bytes)
}

/// Returns the data of a Send indication.
fn sent_data_in(datagram: &[u8]) -> Option<&[u8]>
    ensures { option_copied result ≡ sent_data_in datagram.now }
{
    match read(datagram) {
        Ok(message) => message.value_of(DATA),
        Err(_) => None,
    }
}

impl Answer {
    ghost use Rattle.std.specs.Prelude.{◌≡◌};
    ghost use Rattle.events.specs.Actions.{sending_of};
    ghost use Rattle.rules.specs.Answers.{sending_of_answer, LiesInRoom};
    ghost use Rattle.rules.specs.Dispositions.{disposition_of};

    /// Returns what the answer does with its datagram.
    pub fn disposition(self) -> Disposition
        ensures { result ≡ disposition_of self }
    {
        match self {
            Answer::Nothing(reason) => Disposition::Discarded(reason),
            Answer::ChannelData { .. } | Answer::Send { .. } => Disposition::Relayed,
            Answer::Reply { response, .. } => Disposition::Answered(response),
        }
    }

    /// Returns what is sent for the answer to a datagram of a client, of which `reply` is the room for replies.
    pub fn action<'a>(self, client: Addr, datagram: &'a [u8], reply: &'a [u8]) -> Action<'a>
        requires { LiesInRoom self reply.now }
        ensures { sending_of result ≡ sending_of_answer client datagram.now reply.now self }
    {
        match self {
            Answer::Nothing(_) => Action::Nothing,
            Answer::ChannelData { slot, peer } => to_peer(slot, peer, channel_data_in(datagram)),
            Answer::Send { slot, peer } => to_peer(slot, peer, sent_data_in(datagram)),
            Answer::Reply { count, .. } => Action::ToClient {
                client,
                bytes: &reply[..count],
            },
        }
    }
}
