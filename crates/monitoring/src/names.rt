//! The names of counters, in the line of counters and in the metrics.

use relay::Discard;
use server::{Counter, Kind};

/// A counter with its names.
#[derive(Clone, Copy)]
pub(crate) struct NamedCounter {
    pub(crate) counter: Counter,
    /// What the line of counters has before its value.
    pub(crate) words: &'static str,
    /// The value of its label in the metrics.
    pub(crate) label: &'static str,
}

/// A kind of datagrams with its names, for those that are discarded.
#[derive(Clone, Copy)]
pub(crate) struct NamedKind {
    pub(crate) kind: Kind,
    /// What the line of counters has before how many were discarded.
    pub(crate) words: &'static str,
    /// The value of its label in the metrics.
    pub(crate) label: &'static str,
}

/// The datagrams that came.
pub(crate) const RECEIVED: [NamedCounter; 2] = [
    NamedCounter {
        counter: Counter::FromClients,
        words: "received from clients",
        label: "clients",
    },
    NamedCounter {
        counter: Counter::FromPeers,
        words: "peers",
        label: "peers",
    },
];

/// Those that were relayed.
pub(crate) const RELAYED: [NamedCounter; 2] = [
    NamedCounter {
        counter: Counter::ToPeers,
        words: "relayed to peers",
        label: "peers",
    },
    NamedCounter {
        counter: Counter::ToClients,
        words: "clients",
        label: "clients",
    },
];

/// The responses to requests.
pub(crate) const RESPONSES: [NamedCounter; 4] = [
    NamedCounter {
        counter: Counter::Granted,
        words: "granted",
        label: "granted",
    },
    NamedCounter {
        counter: Counter::Challenged,
        words: "challenged",
        label: "challenged",
    },
    NamedCounter {
        counter: Counter::Unauthenticated,
        words: "unauthenticated",
        label: "unauthenticated",
    },
    NamedCounter {
        counter: Counter::Refused,
        words: "refused",
        label: "refused",
    },
];

/// The receives that failed.
pub(crate) const RECEIVE_FAULTS: NamedCounter = NamedCounter {
    counter: Counter::ReceiveFaults,
    words: "receive faults",
    label: "receive",
};

/// The sends that failed.
pub(crate) const SEND_FAULTS: NamedCounter = NamedCounter {
    counter: Counter::SendFaults,
    words: "send faults",
    label: "send",
};

/// The kinds of datagrams that are discarded.
pub(crate) const DISCARDED: [NamedKind; 4] = [
    NamedKind {
        kind: Kind::ChannelData,
        words: "discarded channel data",
        label: "channel_data",
    },
    NamedKind {
        kind: Kind::Message,
        words: "messages",
        label: "message",
    },
    NamedKind {
        kind: Kind::Other,
        words: "others",
        label: "other",
    },
    NamedKind {
        kind: Kind::FromPeer,
        words: "from peers",
        label: "from_peer",
    },
];

/// Returns the name of a reason to discard a datagram, which the line of counters and the metrics have.
pub(crate) fn reason_name(reason: Discard) -> &'static str {
    match reason {
        Discard::NotServed => "not_served",
        Discard::ByProgram => "by_program",
        Discard::Malformed => "malformed",
        Discard::NoRequest => "no_request",
        Discard::NoAllocation => "no_allocation",
        Discard::NoChannel => "no_channel",
        Discard::UnknownAttribute => "unknown_attribute",
        Discard::Incomplete => "incomplete",
        Discard::NoPermission => "no_permission",
        Discard::OtherFamily => "other_family",
        Discard::TooLong => "too_long",
        Discard::Confined => "confined",
    }
}
