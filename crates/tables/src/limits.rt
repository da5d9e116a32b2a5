//! The limits and lifetimes of the tables.

ghost use Rattle.std.specs.Prelude.{◌≡◌, ◌^◌};

use crate::channels::{CHANNEL_LIFETIME, FIRST_CHANNEL, LAST_CHANNEL, MAX_CHANNELS};
use crate::moment::LATEST;
use crate::permissions::{MAX_PERMISSIONS, PERMISSION_LIFETIME};
use crate::storage::MAX_ALLOCATIONS;

/// States how much the tables hold, and which moment is the latest.
pub fn law_capacities()
    ensures allocations { MAX_ALLOCATIONS ≡ 256 }
    ensures permissions { MAX_PERMISSIONS ≡ 64 }
    ensures channels { MAX_CHANNELS ≡ 64 }
    ensures latest { LATEST ≡ 2 ^ 62 }
{}

/// States the lifetimes of permissions and channels, in seconds, and the range of channel numbers (RFC 8656, sections 9
/// and 12).
pub fn law_lifetimes()
    ensures permissions { PERMISSION_LIFETIME ≡ 300 }
    ensures channels { CHANNEL_LIFETIME ≡ 600 }
    ensures first_channel { FIRST_CHANNEL ≡ 0x4000 }
    ensures last_channel { LAST_CHANNEL ≡ 0x4fff }
{}
