//! What a verdict decides.

ghost use Rattle.std.specs.Prelude.{◌≡◌};

/// The verdict that discards a datagram. Every other number that is not named here discards it too.
pub const DISCARDS: u64 = 0;

/// The verdict that passes a client's datagram on to the rules for requests. A peer's datagram is discarded.
pub const PASSES: u64 = 1;

/// The verdict that sends the window to the destination, where the program has chosen both.
pub const SENDS: u64 = 2;

/// States the verdicts.
pub fn law_verdicts()
    ensures discards { DISCARDS ≡ 0 }
    ensures passes { PASSES ≡ 1 }
    ensures sends { SENDS ≡ 2 }
{}
