//! What ends a check.

use thiserror::Error;

/// A step of a check.
#[derive(Clone, Copy, Debug, PartialEq, Eq, Error)]
pub enum CheckStep {
    /// A Binding request: the address of the client as the server sees it.
    #[error("Binding")]
    Binding,
    /// An Allocate request without credentials, which is answered with a realm and a nonce.
    #[error("Allocate without credentials")]
    Challenge,
    /// An Allocate request with credentials.
    #[error("Allocate")]
    Allocate,
    /// A CreatePermission request for the client's own address.
    #[error("CreatePermission")]
    Permission,
    /// A datagram to the relayed address, which comes back as a Data indication.
    #[error("a datagram to the relayed address")]
    ToRelayed,
    /// A Send indication to the client's own address, whose data comes from the relayed address.
    #[error("a datagram from the relayed address")]
    FromRelayed,
    /// A Refresh request with the lifetime 0.
    #[error("Refresh")]
    Release,
}

/// Why a check ends. Displays as the line for standard error.
#[derive(Clone, Copy, Debug, PartialEq, Eq, Error)]
pub enum CheckError {
    /// Nothing came for a step, however often it was sent.
    #[error("no answer to {0}")]
    NoAnswer(CheckStep),
    /// The server answers a step with this error code.
    #[error("{0}: error {1}")]
    Refused(CheckStep, u16),
    /// The response to a step isn't one that a server gives.
    #[error("{0}: not a response to it")]
    Unexpected(CheckStep),
    /// A name, a realm and a nonce don't fit a request.
    #[error("a request is too long: see the name of the user")]
    Long,
    /// The system has no socket for the check, or refuses to send.
    #[error("cannot send to the server")]
    Socket,
    /// The clock can't be read.
    #[error("cannot read the clock")]
    Clock,
    /// The output can't be written.
    #[error("cannot write output")]
    Output,
}
