//! What a slot holds, and its changes.

ghost use Rattle.std.specs.Prelude.{◌≡◌};

use crate::address::are_of;
use crate::allocation::Allocation;
use crate::channels::{Binding, CHANNEL_LIFETIME, Channels};
use crate::permissions::{PERMISSION_LIFETIME, Permissions};
use crate::refusal::TableError;
use attributes::{Addr, law_is_address};

/// An allocation with its permissions and channels, which end with it.
#[derive(Drop)]
pub(crate) struct Held {
    pub(crate) allocation: Allocation,
    pub(crate) permissions: Permissions,
    pub(crate) channels: Channels,
}

/// A change of what a slot holds, whose allocation is live.
#[derive(Clone, Copy)]
pub(crate) enum HeldChange<'a> {
    /// The allocation ends a lifetime, in seconds, after the moment.
    Refresh { lifetime: u32 },
    /// IP addresses are permitted.
    Permit { ips: &'a [Addr] },
    /// A channel number is bound to a peer.
    Bind { number: u16, peer: Addr },
}

impl Held {
    ghost use Rattle.std.specs.Prelude.{◌≡◌, ◌≤◌, ℕ, IsTrue, IfErr, OnErr, OnOk, Err};
    ghost use Rattle.std.specs.FinMap.{len};
    ghost use Rattle.addresses.specs.Addresses.{IsAddress, is_of_family};
    ghost use Rattle.tables.specs.Channels.{IsChannelNumber, channels_at, may_bind};
    ghost use Rattle.tables.specs.laws.Row.{live_held};
    ghost use Rattle.tables.specs.Stored.{LeavesHeld, HasChannelNumber, change_held, permit_held, bind_held, with_end, with_binding};
    ghost use Rattle.tables.specs.WellFormed.{IsHeldAt};
    ghost use Rattle.tables.specs.declared.channels.TheConstants.{MAX_CHANNELS};
    ghost use Rattle.tables.specs.declared.moment.TheConstants.{LATEST};
    ghost use Rattle.tables.specs.declared.permissions.TheConstants.{MAX_PERMISSIONS};

    /// Makes a change at a moment.
    ///
    /// # Errors
    /// Those of [`Held::permit`] and [`Held::bind`]. Nothing is changed then.
    pub(crate) fn change(&mut self, change: HeldChange<'_>, moment: u64) -> Result<(), TableError>
        requires range { HasChannelNumber change }
        requires latest { moment ≤ LATEST }
        ensures follows { LeavesHeld (change_held change.entry moment (live_held moment self.old)) moment self.old
            result self.new }
        ensures held_at { (slot : ℕ) → IsHeldAt slot self.old → IsHeldAt slot self.new }
        ensures client { self.new.allocation.client ≡ self.old.allocation.client }
    {
        match change {
            HeldChange::Refresh { lifetime } => {
                self.refresh(moment + u64::from(lifetime));
                Ok(())
            }
            HeldChange::Permit { ips } => self.permit(ips, moment),
            HeldChange::Bind { number, peer } => self.bind(number, peer, moment),
        }
    }

    /// Gives the allocation a new end.
    fn refresh(&mut self, end: u64)
        ensures { self.new ≡ with_end end self.old }
    {
        self.allocation.end = end;
    }

    /// Returns a copy from which the permissions and channels that have ended at a moment are dropped.
    fn at(&self, moment: u64) -> Held
        ensures { result ≡ live_held moment self.now }
    {
        Held {
            allocation: self.allocation,
            permissions: self.permissions.at(moment),
            channels: self.channels.at(moment),
        }
    }

    /// Permits IP addresses from a moment on, all of them or none. Permissions that have ended are dropped if they are
    /// in the way.
    ///
    /// # Errors
    /// `Family` where an address is not of the allocation's family; `Capacity` where there would be more than
    /// [`MAX_PERMISSIONS`](crate::MAX_PERMISSIONS) permissions.
    /// Nothing is changed then.
    fn permit(&mut self, ips: &[Addr], moment: u64) -> Result<(), TableError>
        requires latest { moment ≤ LATEST }
        ensures follows { LeavesHeld (permit_held moment ips.now
            (live_held moment self.old)) moment self.old result self.new }
        ensures held_at { (slot : ℕ) → IsHeldAt slot self.old → IsHeldAt slot self.new }
        ensures same { self.new.allocation ≡ self.old.allocation }
    {
        if !are_of(self.allocation.family, ips) {
            return Err(TableError::Family);
        }
        let end = moment + PERMISSION_LIFETIME;
        if self.permissions.have_room(ips) {
            self.permissions.insert_each(ips, end);
            return Ok(());
        }
        let mut permissions = self.permissions.at(moment);
        permissions.insert_all(ips, end)?;
        self.permissions = permissions;
        Ok(())
    }

    /// Binds a channel number to a peer from a moment on, and permits the peer's IP address. Permissions and channels
    /// that have ended are dropped if they are in the way.
    ///
    /// # Errors
    /// `Family` where the peer is not of the allocation's family; `Conflict` where the number is bound to another peer,
    /// or the peer to another number; `Capacity` where there would be too many channels or permissions. Nothing is
    /// changed then.
    fn bind(&mut self, number: u16, peer: Addr, moment: u64) -> Result<(), TableError>
        requires range { IsChannelNumber number }
        requires latest { moment ≤ LATEST }
        ensures follows { LeavesHeld (bind_held moment number peer
            (live_held moment self.old)) moment self.old result self.new }
        ensures held_at { (slot : ℕ) → IsHeldAt slot self.old → IsHeldAt slot self.new }
        ensures same { self.new.allocation ≡ self.old.allocation }
    {
        if self.insert(number, peer, moment).is_ok() {
            return Ok(());
        }
        self.insert_after_sweep(number, peer, moment)
    }

    /// As [`Held::bind`], with a copy from which what has ended is dropped. It is a function of its own, so that a
    /// change in place makes no room for the copy.
    fn insert_after_sweep(&mut self, number: u16, peer: Addr, moment: u64) -> Result<(), TableError>
        requires range { IsChannelNumber number }
        requires latest { moment ≤ LATEST }
        ensures follows { LeavesHeld (bind_held moment number peer
            (live_held moment self.old)) moment self.old result self.new }
        ensures held_at { (slot : ℕ) → IsHeldAt slot self.old → IsHeldAt slot self.new }
        ensures same { self.new.allocation ≡ self.old.allocation }
    {
        let mut left = self.at(moment);
        left.insert(number, peer, moment)?;
        *self = left;
        Ok(())
    }

    /// Binds a channel number to a peer, and permits the peer's IP address, beside all that there is, also what has
    /// ended.
    ///
    /// # Errors
    /// Those of [`Held::bind`]. Nothing is changed then.
    fn insert(&mut self, number: u16, peer: Addr, moment: u64) -> Result<(), TableError>
        requires range { IsChannelNumber number }
        requires latest { moment ≤ LATEST }
        ensures made { OnOk result (self.new ≡ with_binding moment number peer self.old) }
        ensures of { OnOk result (IsTrue (is_of_family self.old.allocation.family peer)) }
        ensures free { OnOk result ((t : ℕ) → IsTrue (may_bind (channels_at t self.old.channels) number peer)) }
        ensures few { OnOk result ((len self.new.permissions ≤ MAX_PERMISSIONS)
            × (len self.new.channels ≤ MAX_CHANNELS)) }
        ensures address { IsAddress peer }
        ensures refused { IfErr result (λ e. bind_held moment number peer self.old ≡ Err e) }
        ensures unchanged { OnErr result (self.new ≡ self.old) }
    {
        law_is_address(&peer);
        if !peer.is_of_family(self.allocation.family) {
            return Err(TableError::Family);
        }
        if !self.channels.may_bind(number, &peer) {
            return Err(TableError::Conflict);
        }
        if !self.permissions.has_room_for(&peer) {
            return Err(TableError::Capacity);
        }
        self.channels.law_stay_free(number, &peer);
        let end = moment + CHANNEL_LIFETIME;
        self.channels.insert(number, Binding { peer, end })?;
        self.permissions
            .insert_each(&[peer], moment + PERMISSION_LIFETIME);
        Ok(())
    }
}
