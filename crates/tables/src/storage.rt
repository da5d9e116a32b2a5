//! The tables.

ghost use Rattle.std.specs.Prelude.{◌≡◌};

use crate::clients::{Client, sweep, with_slots};
use crate::held::Held;
use crate::live_slot::LiveSlot;
use crate::moment::moment_of;
use crate::search::{insert, row_of};
use crate::users::{NewUsers, replace_each_user};
use arrayvec::ArrayVec;
use attributes::Addr;
use basics::steps::Count;
use std::alloc::{AllocError, Global};
use std::marker::{Brand, Model};

/// The greatest number of slots, each of which has one allocation or none.
pub const MAX_ALLOCATIONS: usize = 256;

/// The tables: for each slot an allocation with its permissions and channels, or nothing. A row is live at a moment as
/// long as the moment is smaller than its end, and its allocation is live. All memory is allocated by [`Tables::new`].
///
/// The model is the live rows at the greatest moment of the changes made. What is stored may have ended.
/// See docs/DESIGN.md, "The model of the tables".
#[derive(Drop)]
pub struct Tables {
    pub(crate) moment: u64,
    pub(crate) slots: Vec<Option<Held>>,
    /// The client of each slot that holds something, in the order of their addresses.
    pub(crate) clients: ArrayVec<Client, MAX_ALLOCATIONS>,
}

impl Model for Tables {
    ghost use Rattle.tables.specs.Rows.{Rows, slots_at};
    ghost use Rattle.tables.specs.Storage.{coded_rows};
    ghost use Rattle.tables.specs.Stored.{AreStored};
    ghost use Rattle.tables.specs.contracts.held.Held as held;

    ghost Value = { Rows };

    ghost coded = { coded_rows held.the_row.coded };

    ghost view = { λ t. record { moment = t.moment; slots = slots_at t.moment t.slots.items } };

    ghost invariant = { λ t. AreStored t.moment t.slots.items t.clients.items };
}

impl Tables {
    ghost use Rattle.std.specs.Prelude.{◌≡◌, ◌+◌, ◌≤◌, ◌<◌, IfOk, IfSome, None, Some, is_some, length};
    ghost use Rattle.tables.specs.Moments.{moment_of};
    ghost use Rattle.tables.specs.Rows.{no_rows, live_rows, rows_at};
    ghost use Rattle.tables.specs.Counts.{allocation_count, is_owned_by, allocations_of};
    ghost use Rattle.tables.specs.LookUps.{held_in, held_by};
    ghost use Rattle.tables.specs.Changes.{first_free, with_held};
    ghost use Rattle.tables.specs.Users.{rows_for, rows_of_users, rows_without, index_in};
    ghost use Rattle.tables.specs.NewUsers.{user_after};
    ghost use Rattle.tables.specs.WellFormed.{IsHeldAt, AreWellFormed};
    ghost use Rattle.tables.specs.Stored.{client_in};
    ghost use Rattle.tables.specs.declared.moment.TheConstants.{LATEST};
    ghost use Rattle.tables.specs.declared.storage.TheConstants.{MAX_ALLOCATIONS};

    /// Makes tables of 1 to [`MAX_ALLOCATIONS`] slots, none of which has an allocation.
    ///
    /// # Errors
    /// Where memory runs out.
    pub fn new(alloc: Global, slots: usize) -> Result<Tables, AllocError>
        requires some { 1 ≤ slots }
        requires few { slots ≤ MAX_ALLOCATIONS }
        ensures { IfOk result (λ t. t ≡ no_rows slots) }
    {
        let mut rows = Vec::with_capacity(alloc, slots)?;
        for _ in 0..slots {
            rows.push(None)?;
        }
        Ok(Tables {
            moment: 0,
            slots: rows,
            clients: ArrayVec::new(),
        })
    }

    /// Returns the number of slots.
    pub fn slots(&self) -> usize
        ensures { result ≡ length self.now.slots }
    {
        self.slots.len()
    }

    /// States that the rows are well formed.
    pub fn law_are_well_formed(&self)
        ensures { AreWellFormed self.now }
    {
        let _ = &self.moment;
    }

    /// Returns the moment that counts where one is handed in.
    pub(crate) fn moment_at(&self, now: u64) -> u64
        ensures moment { result ≡ moment_of self.now.moment now }
        ensures later { self.now.moment ≤ result }
        ensures latest { result ≤ LATEST }
    {
        moment_of(self.moment, now)
    }

    /// Returns what a slot holds, if its allocation is live at a moment.
    pub(crate) fn live(&self, slot: usize, moment: u64) -> Option<LiveSlot<'_>>
        requires later { self.now.moment ≤ moment }
        ensures live { result ≡ held_in (live_rows moment self.now) slot }
        ensures at_slot { IfSome result (λ l. l.allocation.slot ≡ slot) }
        ensures inside { IfSome result (λ _. slot < length self.now.slots) }
    {
        let Some(slot) = self.slots.get(slot) else {
            return None;
        };
        let Some(held) = slot else {
            return None;
        };
        if moment < held.allocation.end {
            Some(LiveSlot::new(held, moment))
        } else {
            None
        }
    }

    /// Returns what a client's slot holds, if its allocation is live at a moment. At most 9 keys are compared.
    pub(crate) fn live_by<C: Count>(
        &self,
        client: &Addr,
        moment: u64,
        keys: &mut C,
    ) -> Option<LiveSlot<'_>>
        requires later { self.now.moment ≤ moment }
        ensures live { result ≡ held_by client.now (live_rows moment self.now) }
        ensures at_slot { IfSome result (λ l. held_in (live_rows moment self.now) l.allocation.slot ≡ Some l) }
        ensures inside { IfSome result (λ l. l.allocation.slot < length self.now.slots) }
        ensures keys { C.count keys.new ≤ C.count keys.old + 9 }
    {
        let client = row_of(&self.clients, client, keys)?;
        self.live(client.slot, moment)
    }

    /// Returns the lowest slot that holds nothing at a moment.
    pub(crate) fn first_free(&self, moment: u64) -> Option<usize>
        requires later { self.now.moment ≤ moment }
        ensures { result ≡ first_free (live_rows moment self.now) }
    {
        (0..self.slots.len()).position(|slot| self.live(slot, moment).is_none())
    }

    /// Returns the number of allocations that are live at a moment.
    pub fn allocation_count(&self, now: u64) -> usize
        ensures { result ≡ allocation_count (rows_at now self.now) }
    {
        let moment = self.moment_at(now);
        (0..self.slots.len())
            .filter(|slot| self.live(*slot, moment).is_some())
            .count()
    }

    /// Returns whether a slot holds an allocation of an owner that is live at a moment.
    fn is_owned(&self, slot: usize, moment: u64, owner: &[u8; 20]) -> bool
        requires later { self.now.moment ≤ moment }
        ensures { result ≡ is_owned_by owner.now (held_in (live_rows moment self.now) slot) }
    {
        match self.live(slot, moment) {
            Some(live) => live.allocation().owner == *owner,
            None => false,
        }
    }

    /// Returns the number of allocations of an owner that are live at a moment.
    pub fn allocations_of(&self, owner: &[u8; 20], now: u64) -> usize
        ensures { result ≡ allocations_of owner.now (rows_at now self.now) }
    {
        let moment = self.moment_at(now);
        (0..self.slots.len())
            .filter(|slot| self.is_owned(*slot, moment, owner))
            .count()
    }

    /// Puts into a free slot what it holds for a new client from a moment on, the greatest so far.
    pub(crate) fn insert_held(&mut self, slot: usize, moment: u64, held: Held)
        requires inside { slot < length self.old.slots }
        requires held_at { IsHeldAt slot held }
        requires later { self.old.moment ≤ moment }
        requires latest { moment ≤ LATEST }
        requires free { held_in (live_rows moment self.old) slot ≡ None }
        requires new_client { held_by held.allocation.client (live_rows moment self.old) ≡ None }
        ensures held { self.new ≡ with_held (live_rows moment self.old) slot held }
        ensures moment { self.new.moment ≡ moment }
        ensures slots { length self.new.slots ≡ length self.old.slots }
    {
        let address = held.allocation.client;
        sweep(&mut self.slots, moment);
        let mut clients = with_slots(&self.clients, &self.slots);
        let _ = insert(&mut clients, &address, Client { address, slot });
        self.moment = moment;
        self.slots[slot] = Some(held);
        self.clients = clients;
    }

    /// Gives the user of each allocation another index, which `indices` has at the former one. The allocations of a
    /// user that has none there end, with their permissions and channels; those of a user beyond its end continue.
    /// Nothing else changes.
    /// See docs/DECISIONS.md, "Users that are replaced".
    pub fn replace_users(&mut self, indices: &[Option<usize>])
        ensures { self.new ≡ rows_of_users (index_in indices.now) self.old }
    {
        self.replace_each(NewUsers::Indices(indices));
    }

    /// Ends the allocations of some owners, with their permissions and channels. Nothing else changes.
    pub fn end_owned(&mut self, owners: &[[u8; 20]])
        ensures { self.new ≡ rows_without owners.now self.old }
    {
        self.replace_each(NewUsers::Without(owners));
    }

    /// Gives each allocation its other user, and ends those that have none.
    fn replace_each(&mut self, users: NewUsers<'_>)
        ensures { self.new ≡ rows_for (user_after users.entry) self.old }
    {
        replace_each_user(&mut self.slots, users);
        self.clients = with_slots(&self.clients, &self.slots);
    }
}
