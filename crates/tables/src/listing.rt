//! Every permission and every channel of an allocation, each with its end, in the order of IP addresses and of numbers.

use crate::channels::{Channel, MAX_CHANNELS};
use crate::permissions::{MAX_PERMISSIONS, Permission};
use crate::storage::Tables;
use arrayvec::ArrayVec;

impl Tables {
    ghost use Rattle.std.specs.Prelude.{◌≡◌};
    ghost use Rattle.tables.specs.Rows.{rows_at};
    ghost use Rattle.tables.specs.LookUps.{permissions_at_slot, channels_at_slot};
    ghost use Rattle.tables.specs.RowLists.{permissions_of, channels_of, ArePermissions, AreChannels};

    /// Returns the permissions at a slot that are live at a moment, in the order of their IP addresses. A slot without
    /// an allocation has none.
    pub fn permissions(&self, slot: usize, now: u64) -> ArrayVec<Permission, MAX_PERMISSIONS>
        ensures permissions { permissions_of result.items ≡ permissions_at_slot slot (rows_at now self.now) }
        ensures distinct { ArePermissions result.items }
    {
        match self.live_at(slot, now) {
            Some(live) => live.permissions(),
            None => ArrayVec::new(),
        }
    }

    /// Returns the channels at a slot that are live at a moment, in the order of their numbers. A slot without an
    /// allocation has none.
    pub fn channels(&self, slot: usize, now: u64) -> ArrayVec<Channel, MAX_CHANNELS>
        ensures channels { channels_of result.items ≡ channels_at_slot slot (rows_at now self.now) }
        ensures distinct { AreChannels result.items }
    {
        match self.live_at(slot, now) {
            Some(live) => live.channels(),
            None => ArrayVec::new(),
        }
    }
}
