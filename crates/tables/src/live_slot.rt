//! What a slot holds, once it is found.

ghost use Rattle.std.specs.Prelude.{◌≡◌};

use crate::allocation::Allocation;
use crate::channels::{Channel, MAX_CHANNELS};
use crate::held::Held;
use crate::permissions::{MAX_PERMISSIONS, Permission};
use arrayvec::ArrayVec;
use attributes::Addr;
use basics::steps::Count;
use std::marker::Model;

/// A slot whose allocation is live at a moment, found once for several look-ups.
///
/// The model is what the slot holds that is live at the moment.
#[derive(Drop)]
pub struct LiveSlot<'a> {
    held: &'a Held,
    moment: u64,
}

impl<'a> Model for LiveSlot<'a> {
    ghost use Rattle.tables.specs.Stored.{IsLiveSlot};
    ghost use Rattle.tables.specs.declared.held.Held.{Held};
    ghost use Rattle.tables.specs.laws.Row.{live_held};
    ghost use Rattle.tables.specs.contracts.held.Held as contents;

    ghost Value = { Held };

    ghost coded = { contents.the_row.coded };

    ghost view = { λ l. live_held l.moment l.held.now };

    ghost invariant = { λ l. IsLiveSlot l.moment l.held.now };
}

impl<'a> LiveSlot<'a> {
    ghost use Rattle.std.specs.Prelude.{◌≡◌, ◌+◌, ◌≤◌, ◌<◌, IfSome, is_some};
    ghost use Rattle.tables.specs.Channels.{IsChannelNumber};
    ghost use Rattle.tables.specs.LookUps.{bound_peer, bound_channel, permission_of};
    ghost use Rattle.tables.specs.RowLists.{permissions_of, channels_of, ArePermissions, AreChannels};
    ghost use Rattle.tables.specs.WellFormed.{IsHeldAt};
    ghost use Rattle.tables.specs.laws.Row.{live_held};

    /// Makes the live slot of what a slot holds.
    pub(crate) fn new(held: &'a Held, moment: u64) -> LiveSlot<'a>
        requires held_at { IsHeldAt held.now.allocation.slot held.now }
        requires live { moment < held.now.allocation.end }
        ensures { result ≡ live_held moment held.now }
    {
        LiveSlot { held, moment }
    }

    /// States that what the slot holds is well formed.
    pub fn law_is_well_formed(&self)
        ensures { IsHeldAt self.now.allocation.slot self.now }
    {
        let _ = &self.held;
    }

    /// Returns the allocation.
    pub fn allocation(&self) -> &'a Allocation
        ensures { result.now ≡ self.now.allocation }
    {
        &self.held.allocation
    }

    /// Returns the peer that a channel is bound to. Of the slot's channels at most 7 are compared.
    pub fn peer_of<C: Count>(&self, number: u16, keys: &mut C) -> Option<Addr>
        ensures peer { result ≡ bound_peer number self.now }
        ensures keys { C.count keys.new ≤ C.count keys.old + 7 }
    {
        let moment = self.moment;
        self.held
            .channels
            .binding_of(number, keys)
            .filter(|binding| moment < binding.end)
            .map(|binding| binding.peer)
    }

    /// Returns the channel that is bound to a peer: a number from [`FIRST_CHANNEL`] to [`LAST_CHANNEL`]. Of the slot's
    /// peers at most 7 are compared.
    ///
    /// [`FIRST_CHANNEL`]: crate::FIRST_CHANNEL
    /// [`LAST_CHANNEL`]: crate::LAST_CHANNEL
    pub fn channel_of<C: Count>(&self, peer: Addr, keys: &mut C) -> Option<u16>
        ensures number { result ≡ bound_channel peer self.now }
        ensures range { IfSome result IsChannelNumber }
        ensures keys { C.count keys.new ≤ C.count keys.old + 7 }
    {
        self.held.channels.number_at(&peer, self.moment, keys)
    }

    /// Returns whether an IP address has a permission. The port is ignored. Of the slot's addresses at most 7 are
    /// compared.
    pub fn permitted<C: Count>(&self, ip: Addr, keys: &mut C) -> bool
        ensures permitted { result ≡ is_some (permission_of ip self.now) }
        ensures keys { C.count keys.new ≤ C.count keys.old + 7 }
    {
        let moment = self.moment;
        self.held
            .permissions
            .end_of(&ip, keys)
            .is_some_and(|end| moment < end)
    }

    /// Returns the permissions, in the order of their IP addresses.
    pub(crate) fn permissions(&self) -> ArrayVec<Permission, MAX_PERMISSIONS>
        ensures permissions { permissions_of result.items ≡ self.now.permissions }
        ensures distinct { ArePermissions result.items }
    {
        self.held.permissions.at(self.moment).into_rows()
    }

    /// Returns the channels, in the order of their numbers.
    pub(crate) fn channels(&self) -> ArrayVec<Channel, MAX_CHANNELS>
        ensures channels { channels_of result.items ≡ self.now.channels }
        ensures distinct { AreChannels result.items }
    {
        self.held.channels.at(self.moment).into_rows()
    }
}
