//! The values of registers.

/// A tagged value. A pointer is a kind and an offset, never a number.
#[derive(Clone, Copy, Debug, PartialEq, Eq)]
pub enum Value {
    /// Nothing has been written.
    Nothing,
    /// A number.
    Scalar(u64),
    /// The context record.
    Ctx,
    /// A place of the stack, from the stack's end: -512 is its first byte.
    Stack(i64),
    /// A place of the datagram, from its first byte. The headroom has the places -64 to -1.
    Data(i64),
    /// The datagram's end, which reaches the tailroom.
    End,
}
