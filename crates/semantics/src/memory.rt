//! The memory of the tagged machine.

ghost use Rattle.std.specs.Prelude.{◌≡◌, ◌≤◌, ◌+◌};
ghost use Rattle.std.specs.Prelude.{length as count};
ghost use Rattle.semantics.specs.declared.limits.TheConstants.{HEADROOM, TAILROOM, MAX_DATAGRAM};

use crate::stack::StackMemory;

/// The memory that a program reaches by pointers.
#[derive(Drop)]
pub struct Memory<'a> {
    /// The stack.
    pub stack: &'a StackMemory,
    /// Headroom, datagram and tailroom. The first byte is at place -64.
    pub bytes: &'a [u8],
    /// The datagram's length, at most 65,507.
    pub length: usize,
    ghost surrounded: { count bytes.now ≡ HEADROOM + length + TAILROOM },
    ghost short: { length ≤ MAX_DATAGRAM },
}
