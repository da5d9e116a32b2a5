//! The numbers of this crate.

ghost use Rattle.std.specs.Prelude.{◌≡◌};

use crate::allocate::UDP;
use crate::config::MAX_TEXT;
use crate::lifetime::{MAX_LIFETIME, MIN_LIFETIME};
use crate::reply::REPLY_BYTES;
use crate::unknown::MAX_UNKNOWN;

/// States the lifetimes that are given, in seconds, the protocol number of UDP, how many types a reply lists, the room
/// for a reply, and the greatest length of a realm, a name or a password, both in bytes.
pub fn law_all_numbers()
    ensures shortest { MIN_LIFETIME ≡ 600 }
    ensures longest { MAX_LIFETIME ≡ 3600 }
    ensures udp { UDP ≡ 17 }
    ensures unknown { MAX_UNKNOWN ≡ 16 }
    ensures reply { REPLY_BYTES ≡ 1500 }
    ensures text { MAX_TEXT ≡ 128 }
{}
