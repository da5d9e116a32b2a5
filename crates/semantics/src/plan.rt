//! The plan of a run.

use crate::helper::WIDE_RECORD_BYTES;

/// What is to be sent, and where, as a run has planned it so far.
#[derive(Clone, Copy, Debug, PartialEq, Eq)]
pub struct Plan {
    /// The window: the index of its first byte in headroom, datagram and tailroom, and its length.
    pub window: Option<(usize, usize)>,
    /// The wide address record of the destination.
    pub destination: Option<[u8; WIDE_RECORD_BYTES]>,
}
