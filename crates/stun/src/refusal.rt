//! The errors of parsing and of writing.

use thiserror::Error;

/// Why [`read`](crate::read) refuses a datagram: the first that applies, in the order of the codes
/// (RFC 8489, section 6.3).
#[derive(Clone, Copy, Debug, PartialEq, Eq, Error)]
pub enum StunError {
    /// The datagram is shorter than a header, 20 bytes.
    #[error("S1")]
    TooShort,
    /// The first two bits are not zero.
    #[error("S2")]
    NotStun,
    /// The magic cookie is missing.
    #[error("S3")]
    BadCookie,
    /// The length is not a multiple of 4, or is not the length of what follows the header.
    #[error("S4")]
    BadLength,
    /// An attribute overruns the end of the datagram.
    #[error("S5")]
    AttributeOverrun,
}

/// S6: a message would be longer than its buffer, or its length longer than 16 bits. Nothing was changed.
/// See docs/DESIGN.md, "No room is a type of its own".
#[derive(Clone, Copy, Debug, PartialEq, Eq, Error)]
#[error("S6")]
pub struct NoRoom;
