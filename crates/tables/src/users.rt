//! The users of what slots hold, where others replace them.

ghost use Rattle.std.specs.Prelude.{◌≡◌, ◌<◌, None, length, map, slice_index_or, slice_set, option_and_then};
ghost use Rattle.std.specs.Prelude.{bytes_eq};
ghost use Rattle.std.specs.List.{list_any};
ghost use Rattle.tables.specs.Users.{held_of_user, index_in, user_unless};
ghost use Rattle.tables.specs.NewUsers.{user_after};

use crate::allocation::Allocation;
use crate::held::Held;

/// Returns the other index of a user; `None` where it has none. A user beyond the end of the list keeps its number.
fn index_in(indices: &[Option<usize>], user: usize) -> Option<usize>
    ensures { result ≡ index_in indices.now user }
{
    indices.get(user).copied().unwrap_or(Some(user))
}

/// Returns whether an owner is one of some.
fn is_among(owners: &[[u8; 20]], owner: &[u8; 20]) -> bool
    ensures { result ≡ list_any (λ o. bytes_eq o owner.now) owners.now }
{
    owners.iter().any(|other| other == owner)
}

/// Returns the user that an allocation continues with, where some owners have nothing any more; `None` where it is one
/// of theirs.
fn user_unless(owners: &[[u8; 20]], allocation: &Allocation) -> Option<usize>
    ensures { result ≡ user_unless owners.now allocation.now }
{
    if is_among(owners, &allocation.owner) {
        None
    } else {
        Some(allocation.user)
    }
}

/// How the users of allocations change.
#[derive(Clone, Copy)]
pub(crate) enum NewUsers<'a> {
    /// Each index is another one, `None` where it is nobody's any more; a user beyond the end keeps its number.
    Indices(&'a [Option<usize>]),
    /// These owners have nothing any more.
    Without(&'a [[u8; 20]]),
}

impl NewUsers<'_> {
    ghost use Rattle.std.specs.Prelude.{◌≡◌};
    ghost use Rattle.tables.specs.NewUsers.{user_after};

    /// Returns the user that an allocation continues with, if it continues.
    fn user(&self, allocation: &Allocation) -> Option<usize>
        ensures { result ≡ user_after self.now allocation.now }
    {
        match *self {
            NewUsers::Indices(indices) => index_in(indices, allocation.user),
            NewUsers::Without(owners) => user_unless(owners, allocation),
        }
    }
}

/// Gives what a slot holds its other user, or empties the slot where it has none.
fn replace_user(slots: &mut Vec<Option<Held>>, slot: usize, users: NewUsers<'_>)
    requires { slot < length slots.old.items }
    ensures { slots.new.items ≡ slice_set slots.old.items slot
        (option_and_then (held_of_user (user_after users.entry)) (slice_index_or slots.old.items slot None)) }
{
    let Some(held) = &mut slots[slot] else {
        return;
    };
    let allocation = held.allocation;
    match users.user(&allocation) {
        Some(user) => held.allocation.user = user,
        None => slots[slot] = None,
    }
}

/// Gives what each slot holds its other user, and empties the slots of allocations that have none.
pub(crate) fn replace_each_user(slots: &mut Vec<Option<Held>>, users: NewUsers<'_>)
    ensures { slots.new.items ≡ map (option_and_then (held_of_user (user_after users.entry))) slots.old.items }
{
    for slot in 0..slots.len() {
        replace_user(slots, slot, users);
    }
}
