//! Changes. A refused one changes nothing. Clients have addresses of IPv4 alone.

use crate::allocation::Allocation;
use crate::channels::Channels;
use crate::held::{Held, HeldChange};
use crate::permissions::Permissions;
use crate::refusal::TableError;
use crate::storage::Tables;
use attributes::{Addr, Family, law_is_address};
use basics::steps::Uncounted;

impl Tables {
    ghost use Rattle.std.specs.Prelude.{◌≡◌, ◌≤◌, ◌<◌, IfOk, IsTrue, length};
    ghost use Rattle.tables.specs.Addresses.{is_ipv4};
    ghost use Rattle.tables.specs.Channels.{IsChannelNumber};
    ghost use Rattle.tables.specs.Stored.{HasChannelNumber, slot_change};
    ghost use Rattle.tables.specs.Moments.{moment_of};
    ghost use Rattle.tables.specs.Rows.{rows_at};
    ghost use Rattle.tables.specs.Changes.{Follows, allocation_change, refresh_change, permit_change, bind_change};

    /// Makes an allocation at the lowest free slot, with no permissions and no channels, and returns the slot. Its end
    /// is the lifetime, in seconds, after the moment (RFC 8656, section 7).
    ///
    /// # Errors
    /// `Mismatch` where the client has an allocation; `Capacity` where no slot is free.
    pub fn allocate(
        &mut self,
        now: u64,
        client: Addr,
        user: usize,
        owner: [u8; 20],
        tx: [u8; 12],
        family: Family,
        lifetime: u32,
    ) -> Result<usize, TableError>
        requires ipv4 { IsTrue (is_ipv4 client) }
        ensures follows { Follows (allocation_change client user owner tx family lifetime
            (rows_at now self.old)) self.old result self.new }
        ensures inside { IfOk result (λ slot. slot < length self.old.slots) }
        ensures moment { (self.old.moment ≤ self.new.moment) × (self.new.moment ≤ moment_of self.old.moment now) }
        ensures slots { length self.new.slots ≡ length self.old.slots }
    {
        let moment = self.moment_at(now);
        if self.allocation_of(client, now, &mut Uncounted).is_some() {
            return Err(TableError::Mismatch);
        }
        let slot = self.first_free(moment).ok_or(TableError::Capacity)?;
        law_is_address(&client);
        let allocation = Allocation {
            slot,
            client,
            family,
            user,
            owner,
            tx,
            lifetime,
            end: moment + u64::from(lifetime),
        };
        self.insert_held(
            slot,
            moment,
            Held {
                allocation,
                permissions: Permissions::new(),
                channels: Channels::new(),
            },
        );
        Ok(slot)
    }

    /// Makes a change of what a slot holds.
    ///
    /// # Errors
    /// `NoAllocation` where the slot has no allocation, and those of [`Held::change`].
    fn change(&mut self, now: u64, slot: usize, change: HeldChange<'_>) -> Result<(), TableError>
        requires range { HasChannelNumber change }
        ensures follows { Follows (slot_change slot change.entry (rows_at now self.old)) self.old result self.new }
        ensures moment { (self.old.moment ≤ self.new.moment) × (self.new.moment ≤ moment_of self.old.moment now) }
        ensures slots { length self.new.slots ≡ length self.old.slots }
    {
        let moment = self.moment_at(now);
        if slot >= self.slots.len() {
            return Err(TableError::NoAllocation);
        }
        let Some(held) = &mut self.slots[slot] else {
            return Err(TableError::NoAllocation);
        };
        if held.allocation.end <= moment {
            return Err(TableError::NoAllocation);
        }
        held.change(change, moment)?;
        self.moment = moment;
        Ok(())
    }

    /// Gives the allocation at a slot a new end, the lifetime, in seconds, after the moment (RFC 8656, section 8). With
    /// a lifetime of 0 it has ended.
    ///
    /// # Errors
    /// `NoAllocation` where the slot has none.
    pub fn refresh(&mut self, now: u64, slot: usize, lifetime: u32) -> Result<(), TableError>
        ensures follows { Follows (refresh_change slot lifetime (rows_at now self.old)) self.old result self.new }
        ensures moment { (self.old.moment ≤ self.new.moment) × (self.new.moment ≤ moment_of self.old.moment now) }
        ensures slots { length self.new.slots ≡ length self.old.slots }
    {
        self.change(now, slot, HeldChange::Refresh { lifetime })
    }

    /// Permits IP addresses at a slot for [`PERMISSION_LIFETIME`], or renews their permissions (RFC 8656, section 9):
    /// all of them or none. Ports are ignored. An empty list is a change too.
    ///
    /// # Errors
    /// `NoAllocation` where the slot has none; `Family` where an address is not of its family; `Capacity` where it
    /// would have more than [`MAX_PERMISSIONS`] permissions.
    ///
    /// [`MAX_PERMISSIONS`]: crate::MAX_PERMISSIONS
    pub fn permit(&mut self, now: u64, slot: usize, ips: &[Addr]) -> Result<(), TableError>
        ensures follows { Follows (permit_change slot ips.now (rows_at now self.old)) self.old result self.new }
        ensures moment { (self.old.moment ≤ self.new.moment) × (self.new.moment ≤ moment_of self.old.moment now) }
        ensures slots { length self.new.slots ≡ length self.old.slots }
    {
        self.change(now, slot, HeldChange::Permit { ips })
    }

    /// Binds a channel number to a peer at a slot for [`CHANNEL_LIFETIME`], or renews that, and permits the peer's IP
    /// address as [`Tables::permit`] does (RFC 8656, section 12).
    ///
    /// # Errors
    /// `NoAllocation` where the slot has none; `Family` where the peer is not of its family; `Conflict` where the
    /// number is bound to another peer, or the peer to another number; `Capacity` where there would be more than
    /// [`MAX_CHANNELS`] channels or [`MAX_PERMISSIONS`] permissions.
    ///
    /// [`MAX_CHANNELS`]: crate::MAX_CHANNELS
    /// [`MAX_PERMISSIONS`]: crate::MAX_PERMISSIONS
    pub fn bind(&mut self, now: u64, slot: usize, number: u16, peer: Addr) -> Result<(), TableError>
        requires range { IsChannelNumber number }
        ensures follows { Follows (bind_change slot number peer (rows_at now self.old)) self.old result self.new }
        ensures moment { (self.old.moment ≤ self.new.moment) × (self.new.moment ≤ moment_of self.old.moment now) }
        ensures slots { length self.new.slots ≡ length self.old.slots }
    {
        self.change(now, slot, HeldChange::Bind { number, peer })
    }
}
