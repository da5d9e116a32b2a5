//! The channels of an allocation (RFC 8656, section 12).

ghost use Rattle.std.specs.Prelude.{◌≡◌};

use crate::address::is_same;
use crate::refusal::TableError;
use crate::search::{Keyed, filtered, insert, row_of};
use arrayvec::ArrayVec;
use attributes::{Addr, law_is_address};
use basics::steps::{Count, Uncounted};
use std::cmp::Ordering;
use std::marker::Model;

/// The lifetime of a channel, in seconds (RFC 8656, section 12).
pub const CHANNEL_LIFETIME: u64 = 600;

/// The greatest number of channels of an allocation.
pub const MAX_CHANNELS: usize = 64;

/// The least number of a channel (RFC 8656, section 12).
pub const FIRST_CHANNEL: u16 = 0x4000;

/// The greatest number of a channel (RFC 8656, section 12).
pub const LAST_CHANNEL: u16 = 0x4fff;

/// What a channel is bound to.
#[derive(Clone, Copy, Debug, PartialEq, Eq)]
pub struct Binding {
    /// The peer's address and port.
    pub peer: Addr,
    /// The first moment at which it isn't live any more, in seconds.
    pub end: u64,
}

/// A channel that is bound.
#[derive(Clone, Copy, Debug, PartialEq, Eq)]
pub struct Channel {
    /// The channel's number.
    pub number: u16,
    /// The peer that it is bound to, and its end.
    pub binding: Binding,
}

impl Default for Channel {
    fn default() -> Self {
        let peer = Addr::V4 {
            ip: [0; 4],
            port: 0,
        };
        Self {
            number: 0,
            binding: Binding { peer, end: 0 },
        }
    }
}

impl Keyed<u16> for Channel {
    ghost use Rattle.std.specs.Ordering.{nat_cmp};

    ghost order = { λ row number. nat_cmp row.number number };

    fn compare(&self, number: &u16) -> Ordering {
        self.number.cmp(number)
    }
}

impl Keyed<Addr> for Channel {
    ghost use Rattle.addresses.specs.AddressOrder.{order_by_parts};

    ghost order = { λ row peer. order_by_parts row.binding.peer peer };

    fn compare(&self, peer: &Addr) -> Ordering {
        law_is_address(&self.binding.peer);
        law_is_address(peer);
        self.binding.peer.cmp(peer)
    }
}

/// The channels of an allocation: numbers with what they are bound to, in the order of their numbers and once more in
/// that of their peers. Ended ones may still be among them. No two have one number or one peer.
#[derive(Drop)]
pub(crate) struct Channels {
    rows: ArrayVec<Channel, MAX_CHANNELS>,
    by_peer: ArrayVec<Channel, MAX_CHANNELS>,
}

impl Model for Channels {
    ghost use Rattle.tables.specs.Channels.{ChannelMap};
    ghost use Rattle.tables.specs.RowLists.{channels_of};
    ghost use Rattle.tables.specs.SortedRows.{AreChannelLists};
    ghost use Rattle.std.specs.Coded.{coded_ℕ};
    ghost use Rattle.std.specs.FinMap.{code};
    ghost use Rattle.tables.specs.contracts.channels.Binding as binding;

    ghost Value = { ChannelMap };

    ghost coded = { code coded_ℕ binding.the_row.coded };

    ghost view = { λ c. channels_of c.rows.items };

    ghost invariant = { λ c. AreChannelLists c.rows.items c.by_peer.items };
}

impl Channels {
    ghost use Rattle.std.specs.Prelude.{◌≡◌, ℕ, ◌+◌, ◌<◌, ◌≤◌, OnOk, OnErr, IfErr, IfSome, IsTrue, option_map};
    ghost use Rattle.std.specs.FinMap.{empty, get, insert, len};
    ghost use Rattle.tables.specs.Channels.{IsChannelNumber, channels_at, number_to, may_bind};
    ghost use Rattle.tables.specs.RowLists.{AreChannels, channels_of};
    ghost use Rattle.tables.specs.declared.channels.TheConstants.{MAX_CHANNELS};
    ghost use Rattle.tables.specs.declared.refusal.TableError.TheVariants.{Capacity};

    /// Makes a collection of no channels.
    pub(crate) fn new() -> Channels
        ensures { result ≡ empty }
    {
        Channels {
            rows: ArrayVec::new(),
            by_peer: ArrayVec::new(),
        }
    }

    /// Returns what a number is bound to, if it is bound.
    pub(crate) fn binding_of<C: Count>(&self, number: u16, keys: &mut C) -> Option<Binding>
        ensures binding { result ≡ get self.now number }
        ensures keys { C.count keys.new ≤ C.count keys.old + 7 }
    {
        row_of(&self.rows, &number, keys).map(|row| row.binding)
    }

    /// Returns the number that is bound to a peer, if there is one.
    fn number_to(&self, peer: &Addr) -> Option<u16>
        ensures { result ≡ number_to peer.now self.now }
    {
        row_of(&self.by_peer, peer, &mut Uncounted).map(|row| row.number)
    }

    /// Returns the number that is bound to a peer by a channel that is live at a moment, if there is one.
    pub(crate) fn number_at<C: Count>(&self, peer: &Addr, moment: u64, keys: &mut C) -> Option<u16>
        ensures number { result ≡ number_to peer.now (channels_at moment self.now) }
        ensures range { IfSome result IsChannelNumber }
        ensures keys { C.count keys.new ≤ C.count keys.old + 7 }
    {
        row_of(&self.by_peer, peer, keys)
            .filter(|row| moment < row.binding.end)
            .map(|row| row.number)
    }

    /// Returns the channels, in the order of their numbers.
    pub(crate) fn into_rows(self) -> ArrayVec<Channel, MAX_CHANNELS>
        ensures channels { channels_of result.items ≡ self }
        ensures distinct { AreChannels result.items }
    {
        self.rows
    }

    /// Returns the channels that are live at a moment.
    pub(crate) fn at(&self, moment: u64) -> Channels
        ensures { result ≡ channels_at moment self.now }
    {
        Channels {
            rows: filtered(&self.rows, |row| moment < row.binding.end),
            by_peer: filtered(&self.by_peer, |row| moment < row.binding.end),
        }
    }

    /// Returns whether a number is bound to no other peer, and a peer to no other number.
    pub(crate) fn may_bind(&self, number: u16, peer: &Addr) -> bool
        ensures { result ≡ may_bind self.now number peer.now }
    {
        let is_own = match self.binding_of(number, &mut Uncounted) {
            Some(binding) => is_same(peer, &binding.peer),
            None => true,
        };
        is_own && self.number_to(peer).is_none_or(|bound| number == bound)
    }

    /// States that a number and a peer that may be bound may also be bound among the channels that are live at a
    /// moment.
    pub(crate) fn law_stay_free(&self, number: u16, peer: &Addr)
        requires { IsTrue (may_bind self.now number peer.now) }
        ensures { (t : ℕ) → IsTrue (may_bind (channels_at t self.now) number peer.now) }
    {
        let _ = &self.rows;
    }

    /// Binds a number, or renews its binding.
    ///
    /// # Errors
    /// `Capacity` where there would be more than [`MAX_CHANNELS`]. Nothing is changed then.
    pub(crate) fn insert(&mut self, number: u16, binding: Binding) -> Result<(), TableError>
        requires range { IsChannelNumber number }
        requires free { IsTrue (may_bind self.old number binding.peer) }
        ensures inserted { OnOk result (self.new ≡ insert self.old number binding) }
        ensures few { OnOk result (len self.new ≤ MAX_CHANNELS) }
        ensures why { IfErr result (λ e. e ≡ Capacity) }
        ensures full { OnErr result (MAX_CHANNELS < len (insert self.old number binding)) }
        ensures unchanged { OnErr result (self.new ≡ self.old) }
    {
        let channel = Channel { number, binding };
        insert(&mut self.rows, &number, channel)?;
        let _ = insert(&mut self.by_peer, &binding.peer, channel);
        Ok(())
    }
}
