//! Look-ups, by binary search. None of them changes the tables, and each counts the keys that it compares.

use crate::allocation::Allocation;
use crate::live_slot::LiveSlot;
use crate::storage::Tables;
use attributes::Addr;
use basics::steps::Count;

impl Tables {
    ghost use Rattle.std.specs.Prelude.{◌≡◌, ◌<◌, ◌≤◌, ◌+◌, IfSome, Some, length};
    ghost use Rattle.tables.specs.Channels.{IsChannelNumber};
    ghost use Rattle.tables.specs.Rows.{rows_at};
    ghost use Rattle.tables.specs.LookUps.{held_in, held_by, allocation_of, allocation_at, peer_of, channel_of, has_permission};

    /// Returns what the slot of a client holds, which its allocation names, if that is live at a moment. Of the
    /// clients' addresses at most 9 are compared.
    pub fn live_of<C: Count>(&self, client: Addr, now: u64, keys: &mut C) -> Option<LiveSlot<'_>>
        ensures live { result ≡ held_by client (rows_at now self.now) }
        ensures at_slot { IfSome result (λ l. held_in (rows_at now self.now) l.allocation.slot ≡ Some l) }
        ensures inside { IfSome result (λ l. l.allocation.slot < length self.now.slots) }
        ensures keys { C.count keys.new ≤ C.count keys.old + 9 }
    {
        self.live_by(&client, self.moment_at(now), keys)
    }

    /// Returns what a slot holds, if its allocation is live at a moment. A slot that isn't there holds nothing. No key
    /// is compared.
    pub fn live_at(&self, slot: usize, now: u64) -> Option<LiveSlot<'_>>
        ensures { result ≡ held_in (rows_at now self.now) slot }
    {
        self.live(slot, self.moment_at(now))
    }

    /// Returns the allocation of a client at a moment. Of the clients' addresses at most 9 are compared.
    pub fn allocation_of<C: Count>(
        &self,
        client: Addr,
        now: u64,
        keys: &mut C,
    ) -> Option<Allocation>
        ensures allocation { result ≡ allocation_of client (rows_at now self.now) }
        ensures inside { IfSome result (λ a. a.slot < length self.now.slots) }
        ensures keys { C.count keys.new ≤ C.count keys.old + 9 }
    {
        let live = self.live_of(client, now, keys)?;
        Some(*live.allocation())
    }

    /// Returns the allocation at a slot at a moment. A slot that isn't there has none. No key is compared.
    pub fn allocation_at(&self, slot: usize, now: u64) -> Option<Allocation>
        ensures { result ≡ allocation_at slot (rows_at now self.now) }
    {
        let live = self.live_at(slot, now)?;
        Some(*live.allocation())
    }

    /// Returns the peer that a channel of a slot is bound to at a moment. Of the slot's channels at most 7 are
    /// compared.
    pub fn peer_of<C: Count>(
        &self,
        slot: usize,
        number: u16,
        now: u64,
        keys: &mut C,
    ) -> Option<Addr>
        ensures peer { result ≡ peer_of slot number (rows_at now self.now) }
        ensures keys { C.count keys.new ≤ C.count keys.old + 7 }
    {
        let live = self.live_at(slot, now)?;
        live.peer_of(number, keys)
    }

    /// Returns the channel of a slot that is bound to a peer at a moment: a number from [`FIRST_CHANNEL`] to
    /// [`LAST_CHANNEL`]. Of the slot's peers at most 7 are compared.
    ///
    /// [`FIRST_CHANNEL`]: crate::FIRST_CHANNEL
    /// [`LAST_CHANNEL`]: crate::LAST_CHANNEL
    pub fn channel_of<C: Count>(
        &self,
        slot: usize,
        peer: Addr,
        now: u64,
        keys: &mut C,
    ) -> Option<u16>
        ensures number { result ≡ channel_of slot peer (rows_at now self.now) }
        ensures range { IfSome result IsChannelNumber }
        ensures keys { C.count keys.new ≤ C.count keys.old + 7 }
    {
        let live = self.live_at(slot, now)?;
        live.channel_of(peer, keys)
    }

    /// Returns whether an IP address has a permission at a slot at a moment. The port is ignored. Of the slot's
    /// addresses at most 7 are compared.
    pub fn permitted<C: Count>(&self, slot: usize, ip: Addr, now: u64, keys: &mut C) -> bool
        ensures permitted { result ≡ has_permission slot ip (rows_at now self.now) }
        ensures keys { C.count keys.new ≤ C.count keys.old + 7 }
    {
        match self.live_at(slot, now) {
            Some(live) => live.permitted(ip, keys),
            None => false,
        }
    }
}
