//! Places of a state that are at the anchor of an earlier one.

ghost use Rattle.std.specs.Prelude.{◌≡◌, ◌<◌, ◌≤◌, length, position};
ghost use Rattle.absstate.specs.Covers.{have_one_anchor};
ghost use Rattle.absstate.specs.Signatures.{first_linked, linked_with, links_among, lie_within};
ghost use Rattle.absstate.specs.declared.abstract_state.TheConstants.{VALUES};

use crate::abstract_state::{AbstractValue, VALUES};
use crate::covering::{is_place, shared};

/// How many places of a state are at the anchor of an earlier one, and which is the first there of each, hashed.
#[derive(Clone, Copy, Debug, PartialEq, Eq)]
pub(crate) struct Links {
    pub(crate) count: u64,
    pub(crate) firsts: u64,
}

/// Returns the index of the first of some values that is at the anchor of a value, if there is one.
fn first_shared<D: Copy>(values: &[AbstractValue<D>], value: AbstractValue<D>) -> Option<usize>
    ensures { result ≡ position (λ v. have_one_anchor v value) values.now }
{
    values.iter().position(|other| shared(*other, value))
}

/// Returns the index of the first of the values before one that is at its anchor, if there is one.
fn first_linked<D: Copy>(values: &[AbstractValue<D>], index: usize) -> Option<usize>
    requires { index < length values.now }
    ensures { result ≡ first_linked values.now index }
{
    let value = values[index];
    if !is_place(value) {
        return None;
    }
    first_shared(&values[..index], value)
}

/// Returns links with that of a place at an index, the first place at whose anchor is at `first`.
fn linked_with(index: usize, first: usize, links: Links) -> Links
    requires index { index < VALUES }
    requires first { first < VALUES }
    requires few { links.count ≤ VALUES }
    ensures { result ≡ linked_with index first links }
{
    let place = (VALUES * index + first) as u64;
    Links {
        count: links.count + 1,
        firsts: links
            .firsts
            .wrapping_add(place + 1)
            .wrapping_mul(11_400_714_819_323_198_485),
    }
}

/// Returns the links among values.
pub(crate) fn links_of<D: Copy>(values: &[AbstractValue<D>]) -> Links
    requires { length values.now ≤ VALUES }
    ensures { result ≡ links_among values.now (length values.now) }
{
    let mut links = Links {
        count: 0,
        firsts: 0,
    };
    for index in 0..values.len() {
        if let Some(first) = first_linked(values, index) {
            links = linked_with(index, first, links);
        }
    }
    links
}

impl Links {
    ghost use Rattle.std.specs.Prelude.{◌≡◌};
    ghost use Rattle.absstate.specs.Signatures.{lie_within};

    /// Returns whether these links are fewer than other ones, or the same by their hash.
    pub(crate) fn lie_within(self, other: Links) -> bool
        ensures { result ≡ lie_within self other }
    {
        self.count < other.count || self.firsts == other.firsts
    }
}
