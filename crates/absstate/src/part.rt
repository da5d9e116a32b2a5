//! Parts of kept states, which distinguish them from other states.

ghost use Rattle.std.specs.Prelude.{◌≡◌, true, false};
ghost use Rattle.absstate.specs.InitialisedWords.{words_of};
ghost use Rattle.absstate.specs.Covers.{covers};
ghost use Rattle.absstate.specs.Packing.{IsPartOf};
ghost use Rattle.absstate.specs.declared.abstract_state.AbsState.{AbsState};

use crate::abstract_state::{AbsState, AbstractValue, Anchor};
use crate::covering::{covers_value, proves_no_more, shared};
use crate::initialised_words::InitialisedWords;
use interval::Domain;
use std::alloc::AllocError;

/// A part of a state that may show that it doesn't cover another one.
#[derive(Debug, PartialEq, Eq)]
pub enum Part<D> {
    /// No part is known to.
    Unknown,
    /// The length that the datagram is proved to have.
    Proved {
        proved: i64,
    },
    /// The value of a register or a group, by its index, and the length that the datagram is proved
    /// to have.
    Value {
        index: usize,
        value: AbstractValue<D>,
        proved: i64,
    },
    /// Two places of one anchor, by their indexes.
    Linked {
        first: usize,
        second: usize,
    },
    /// A word of the marks, by its index.
    Word {
        index: usize,
        word: u64,
    },
}

impl<D: Copy> Clone for Part<D> {
    ghost is_clone = { λ s r. r ≡ s };

    ghost is_infallible = { λ _. Unit {0} };

    fn clone(&self) -> Result<Self, AllocError> {
        Ok(*self)
    }
}

impl<D: Copy> Copy for Part<D> {}

/// Returns whether no state with this proved length covers a state.
fn proved_rules_out<D: Domain>(proved: i64, other: &AbsState<D>) -> bool
    ensures { (a : AbsState D) → IsPartOf a (Part.Proved proved) → result ≡ true
        → covers D.ops a other.now ≡ false }
{
    !proves_no_more(proved, other.proved_of(Anchor::First))
}

/// Returns whether no state with a value at an index and this proved length covers a state.
fn value_rules_out<D: Domain>(
    index: usize,
    value: AbstractValue<D>,
    proved: i64,
    other: &AbsState<D>,
) -> bool
    ensures { (a : AbsState D) → IsPartOf a (Part.Value index value proved) → result ≡ true
        → covers D.ops a other.now ≡ false }
{
    match other.values.get(index) {
        Some(known) => !covers_value(value, *known, proved, other.proved_of(Anchor::First)),
        None => false,
    }
}

/// Returns whether no state with two places of one anchor, at these indexes, covers a state.
fn link_rules_out<D: Domain>(first: usize, second: usize, other: &AbsState<D>) -> bool
    ensures { (a : AbsState D) → IsPartOf a (Part.Linked first second) → result ≡ true
        → covers D.ops a other.now ≡ false }
{
    match (other.values.get(first), other.values.get(second)) {
        (Some(known), Some(linked)) => !shared(*known, *linked),
        _ => false,
    }
}

/// Returns whether no state with a word of marks at an index covers a state with these words.
fn word_rules_out<D: Domain>(
    index: usize,
    word: u64,
    other: &AbsState<D>,
    words: &InitialisedWords,
) -> bool
    requires { words.now ≡ words_of other.now.marks.cells }
    ensures { (a : AbsState D) → IsPartOf a (Part.Word index word) → result ≡ true → covers D.ops a other.now ≡ false }
{
    match words.get(index) {
        Some(known) => word & *known != word,
        None => false,
    }
}

impl<D: Domain> Part<D> {
    ghost use Rattle.std.specs.Prelude.{◌≡◌, true, false};
    ghost use Rattle.absstate.specs.Covers.{covers};
    ghost use Rattle.absstate.specs.InitialisedWords.{words_of};
    ghost use Rattle.absstate.specs.Packing.{IsPartOf};
    ghost use Rattle.absstate.specs.declared.abstract_state.AbsState.{AbsState};

    /// Returns whether no state with this part covers a state, whose marks are these words.
    #[inline(always)]
    pub fn rules_out(&self, other: &AbsState<D>, words: &InitialisedWords) -> bool
        requires { words.now ≡ words_of other.now.marks.cells }
        ensures { (a : AbsState D) → IsPartOf a self.now → result ≡ true → covers D.ops a other.now ≡ false }
    {
        match *self {
            Part::Unknown => false,
            Part::Proved { proved } => proved_rules_out(proved, other),
            Part::Value {
                index,
                value,
                proved,
            } => value_rules_out(index, value, proved, other),
            Part::Linked { first, second } => link_rules_out(first, second, other),
            Part::Word { index, word } => word_rules_out(index, word, other, words),
        }
    }
}
