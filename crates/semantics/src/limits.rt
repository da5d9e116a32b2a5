//! The sizes of the machine's memory, how far a pointer may lead, and the greatest channel.

ghost use Rattle.std.specs.Prelude.{◌≡◌, ◌^◌, pos};
ghost use Rattle.semantics.specs.declared.limits.TheConstants.{STACK_BYTES, HEADROOM, MAX_DATAGRAM, TAILROOM, MAX_OFFSET, MAX_CHANNEL};

/// The number of bytes of the stack, at the places -512 to -1.
pub const STACK_BYTES: usize = 512;

/// The number of bytes of a group: eight cells, or a pointer.
pub const GROUP_BYTES: usize = 8;

/// The number of groups of the stack.
pub const GROUPS: usize = 64;

/// The number of bytes that may be written before a datagram, at the places -64 to -1.
pub const HEADROOM: usize = 64;

/// The greatest length of a datagram: what UDP over IPv4 can carry.
pub const MAX_DATAGRAM: usize = 65_507;

/// The number of bytes that may be written after a datagram.
pub const TAILROOM: usize = 3;

/// The greatest offset of a pointer, to either side.
pub const MAX_OFFSET: i64 = 1_048_576;

/// The greatest channel number, which helpers 2 and 7 answer (RFC 8656, section 12).
pub const MAX_CHANNEL: u64 = 0x4fff;

/// States the sizes in bytes, the greatest offset, and the greatest channel.
pub fn law_sizes()
    ensures stack { STACK_BYTES ≡ 512 }
    ensures channel { MAX_CHANNEL ≡ 0x4fff }
    ensures headroom { HEADROOM ≡ 64 }
    ensures datagram { MAX_DATAGRAM ≡ 65507 }
    ensures tailroom { TAILROOM ≡ 3 }
    ensures offset { MAX_OFFSET ≡ pos (2 ^ 20) }
{}
