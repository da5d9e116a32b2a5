//! The error of a malformed value.

use thiserror::Error;

/// The kind of a value.
/// See docs/DECISIONS.md, "The kind of a bad value".
#[derive(Clone, Copy, Debug, PartialEq, Eq)]
pub enum ValueKind {
    Address,
    Lifetime,
    ChannelNumber,
    RequestedTransport,
    RequestedFamily,
}

/// A1: a value has the wrong length for its kind, or is an address whose family is neither IPv4 nor IPv6.
#[derive(Clone, Copy, Debug, PartialEq, Eq, Error)]
#[error("A1")]
pub struct ValueError(pub ValueKind);
