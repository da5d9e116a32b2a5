//! The clients that have a slot.

ghost use Rattle.std.specs.Prelude.{◌≡◌, ◌<◌, None, filter, if◌then◌else◌, is_some, length, map, slice_index_or, slice_set};
ghost use Rattle.tables.specs.Stored.{left_at, stored_at};

use crate::held::Held;
use crate::search::{Keyed, filtered};
use crate::storage::MAX_ALLOCATIONS;
use arrayvec::ArrayVec;
use attributes::{Addr, law_is_address};
use std::cmp::Ordering;

/// A client, and the slot that it has.
#[derive(Clone, Copy, Debug, PartialEq, Eq)]
pub(crate) struct Client {
    pub(crate) address: Addr,
    pub(crate) slot: usize,
}

impl Default for Client {
    fn default() -> Self {
        let address = Addr::V4 {
            ip: [0; 4],
            port: 0,
        };
        Self { address, slot: 0 }
    }
}

impl Keyed<Addr> for Client {
    ghost use Rattle.addresses.specs.AddressOrder.{order_by_parts};

    ghost order = { λ row client. order_by_parts row.address client };

    fn compare(&self, client: &Addr) -> Ordering {
        law_is_address(&self.address);
        law_is_address(client);
        self.address.cmp(client)
    }
}

/// Returns whether a slot holds something whose allocation has ended at a moment.
fn has_ended(slot: &Option<Held>, moment: u64) -> bool
    ensures { left_at moment slot.now ≡ (if result then None else slot.now) }
{
    match slot {
        Some(held) => held.allocation.end <= moment,
        None => false,
    }
}

/// Empties a slot if its allocation has ended at a moment.
fn sweep_slot(slots: &mut Vec<Option<Held>>, slot: usize, moment: u64)
    requires { slot < length slots.old.items }
    ensures { slots.new.items
        ≡ slice_set slots.old.items slot (left_at moment (slice_index_or slots.old.items slot None)) }
{
    if !has_ended(&slots[slot], moment) {
        return;
    }
    slots[slot] = None;
}

/// Empties each slot whose allocation has ended at a moment.
pub(crate) fn sweep(slots: &mut Vec<Option<Held>>, moment: u64)
    ensures { slots.new.items ≡ map (left_at moment) slots.old.items }
{
    for slot in 0..slots.len() {
        sweep_slot(slots, slot, moment);
    }
}

/// Returns whether a slot holds something. A slot that isn't there holds nothing.
fn is_taken(slots: &[Option<Held>], slot: usize) -> bool
    ensures { result ≡ is_some (stored_at slots.now slot) }
{
    slots.get(slot).is_some_and(|slot| slot.is_some())
}

/// Returns the clients whose slots hold something.
pub(crate) fn with_slots(
    clients: &ArrayVec<Client, MAX_ALLOCATIONS>,
    slots: &[Option<Held>],
) -> ArrayVec<Client, MAX_ALLOCATIONS>
    ensures { result.items ≡ filter (λ row. is_some (stored_at slots.now row.slot)) clients.now.items }
{
    filtered(clients, |row| is_taken(slots, row.slot))
}
