//! The limits that code and contracts share, against the numbers of this profile.
//! See docs/DESIGN.md, "Limits have names".

use insn::MAX_SLOTS;
use loader::BUDGET;
use machine::KEPT;
use semantics::{
    GROUP_BYTES, GROUPS, HEADROOM, MAX_CHANNEL, MAX_DATAGRAM, MAX_OFFSET, RECORD_BYTES,
    STACK_BYTES, TAILROOM, WIDE_RECORD_BYTES,
};

#[test]
fn limits_have_their_values(rt: HostRuntime) {
    assert_eq!(rt; MAX_SLOTS, 4_096);
    assert_eq!(rt; BUDGET, 100_000);
    assert_eq!(rt; STACK_BYTES, 512);
    assert_eq!(rt; GROUP_BYTES, 8);
    assert_eq!(rt; GROUPS, 64);
    assert_eq!(rt; HEADROOM, 64);
    assert_eq!(rt; MAX_DATAGRAM, 65_507);
    assert_eq!(rt; TAILROOM, 3);
    assert_eq!(rt; MAX_OFFSET, 1_048_576);
    assert_eq!(rt; KEPT, 4_096);
    assert_eq!(rt; MAX_CHANNEL, 0x4fff);
    assert_eq!(rt; RECORD_BYTES, 8);
    assert_eq!(rt; WIDE_RECORD_BYTES, 20);
}
