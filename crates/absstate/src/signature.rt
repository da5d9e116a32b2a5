//! Signatures of states. A state covers only states whose signatures its own lies within, which a few words decide.

ghost use Rattle.std.specs.Prelude.{◌≡◌, ◌≤◌, ◌+◌, length};
ghost use Rattle.absstate.specs.AbstractStates.{proved_of};
ghost use Rattle.absstate.specs.InitialisedWords.{words_of};
ghost use Rattle.absstate.specs.Signatures.{hashed_bit, number_bit, proved_bit, value_bit, value_bits, mark_bits, hashed_pair, value_hash, values_hash};

use crate::abstract_state::{AbsState, AbstractValue, Anchor, REGISTERS};
use crate::covering::values_of;
use crate::initialised_words::InitialisedWords;
use crate::links::{Links, links_of};
use crate::margins::{Margins, margins_of};
use interval::{Bounds, Domain};

/// Bits for marks, by their places: where a mark is, and where two or more are.
#[derive(Clone, Copy, Debug, PartialEq, Eq)]
pub(crate) struct MarkBits {
    pub(crate) any: u64,
    pub(crate) two: u64,
}

/// What is compared of states first: words that have a bit for each register that is known exactly, for each such
/// group, and for marks, and one for each place past whose anchor something is proved; how many words all values leave
/// out; all values, hashed, by their bounds, kinds and offsets; and which places are at the anchor of an earlier one.
/// See docs/DESIGN.md, "What distinguishes a kept state".
#[derive(Clone, Copy, Debug, PartialEq, Eq)]
pub struct StateSignature {
    pub(crate) registers: u64,
    pub(crate) groups: u64,
    pub(crate) marks: MarkBits,
    pub(crate) margins: Margins,
    pub(crate) values: u64,
    pub(crate) links: Links,
}

/// Returns one bit of 64, by a hash of an index, a kind and a number.
fn hashed_bit(index: usize, kind: u64, number: u64) -> u64
    requires index { index ≤ 75 }
    requires kind { kind ≤ 7 }
    ensures { result ≡ hashed_bit index kind number }
{
    let place = (8 * index as u64 + kind).wrapping_mul(13_787_848_793_156_543_929);
    let hash = number
        .wrapping_add(place)
        .wrapping_mul(11_400_714_819_323_198_485);
    1 << (hash >> 58)
}

/// Returns the bit of a number with these bounds, if it is known exactly.
fn number_bit(index: usize, bounds: Bounds) -> u64
    requires { index ≤ 75 }
    ensures { result ≡ number_bit index bounds }
{
    if bounds.lo == bounds.hi {
        hashed_bit(index, 0, bounds.lo)
    } else {
        0
    }
}

/// Returns a bit where the datagram is proved to reach past an anchor of a state.
fn proved_bit<D: Domain>(index: usize, state: &AbsState<D>, anchor: Anchor) -> u64
    requires { index ≤ 75 }
    ensures { result ≡ proved_bit index (proved_of state.now anchor) }
{
    if state.proved_of(anchor) <= 0 {
        0
    } else {
        hashed_bit(index, 5, 0)
    }
}

/// Returns the bits of a value of a state; none where the value isn't known exactly.
fn value_bit<D: Domain>(index: usize, state: &AbsState<D>, value: AbstractValue<D>) -> u64
    requires { index ≤ 75 }
    ensures { result ≡ value_bit D.ops index state.now.proved value }
{
    match value {
        AbstractValue::Nothing => 0,
        AbstractValue::Scalar(number) => number_bit(index, number.bounds()),
        AbstractValue::Ctx => hashed_bit(index, 1, 0),
        AbstractValue::Stack(offset) => hashed_bit(index, 2, u64::from(offset.cast_unsigned())),
        AbstractValue::Data { anchor, offset } => {
            let place = hashed_bit(index, 3, u64::from(offset.cast_unsigned()));
            place | proved_bit(index, state, anchor)
        }
        AbstractValue::End => hashed_bit(index, 4, 0),
    }
}

/// Returns the bits of values of a state, from an index on.
fn value_bits<D: Domain>(index: usize, state: &AbsState<D>, values: &[AbstractValue<D>]) -> u64
    requires { index + length values.now ≤ 75 }
    ensures { result ≡ value_bits D.ops index state.now.proved values.now }
{
    match values {
        [] => 0,
        [AbstractValue::Nothing, values @ ..] => value_bits(index + 1, state, values),
        [first, values @ ..] => {
            value_bit(index, state, *first) | value_bits(index + 1, state, values)
        }
    }
}

/// Returns the bits of words of marks, of which each is rotated by 9 bits more than the one before it.
fn mark_bits(index: usize, words: &[u64]) -> MarkBits
    requires { index + length words.now ≤ 8 }
    ensures { result ≡ mark_bits index words.now }
{
    match words {
        [] => MarkBits { any: 0, two: 0 },
        [first, words @ ..] => {
            let word = first.rotate_left(9 * index as u32);
            let rest = mark_bits(index + 1, words);
            MarkBits {
                any: word | rest.any,
                two: (word & rest.any) | rest.two,
            }
        }
    }
}

/// Returns two numbers, hashed.
fn hashed_pair(first: u64, second: u64) -> u64
    ensures { result ≡ hashed_pair first second }
{
    first.wrapping_add(second.wrapping_mul(13_787_848_793_156_543_929))
}

/// Returns a value, hashed: what a number leaves out on either side, or what a pointer is and its offset.
fn value_hash<D: Domain>(value: AbstractValue<D>) -> u64
    ensures { result ≡ value_hash D.ops value }
{
    match value {
        AbstractValue::Nothing => 0,
        AbstractValue::Scalar(number) => {
            let bounds = number.bounds();
            hashed_pair(bounds.lo, u64::MAX - bounds.hi)
        }
        AbstractValue::Ctx => hashed_pair(1, 0),
        AbstractValue::Stack(offset) => hashed_pair(2, u64::from(offset.cast_unsigned())),
        AbstractValue::Data { offset, .. } => hashed_pair(3, u64::from(offset.cast_unsigned())),
        AbstractValue::End => hashed_pair(4, 0),
    }
}

/// Returns all of some values, hashed.
fn values_hash<D: Domain>(values: &[AbstractValue<D>]) -> u64
    ensures { result ≡ values_hash D.ops values.now }
{
    match values {
        [] => 0,
        [first, values @ ..] => {
            let rest = values_hash(values);
            value_hash(*first).wrapping_add(rest.wrapping_mul(11_400_714_819_323_198_485))
        }
    }
}

impl MarkBits {
    ghost use Rattle.std.specs.Prelude.{◌≡◌};
    ghost use Rattle.absstate.specs.Signatures.{marks_within};
    ghost use Rattle.absstate.specs.CommonSignatures.{common_marks};

    /// Returns whether all of these bits are bits of other ones.
    pub(crate) fn lie_within(self, other: MarkBits) -> bool
        ensures { result ≡ marks_within self other }
    {
        self.any & other.any == self.any && self.two & other.two == self.two
    }

    /// Returns the bits that other ones have, too.
    pub(crate) fn in_common(self, other: MarkBits) -> MarkBits
        ensures { result ≡ common_marks self other }
    {
        MarkBits {
            any: self.any & other.any,
            two: self.two & other.two,
        }
    }
}

impl StateSignature {
    ghost use Rattle.std.specs.Prelude.{◌≡◌};
    ghost use Rattle.absstate.specs.Signatures.{lies_within};

    /// Returns whether all bits of this signature are bits of another one, of a state whose values leave out as many
    /// words or more and have the same hash where it is as many, and that has more links or the same.
    pub fn lies_within(self, other: StateSignature) -> bool
        ensures { result ≡ lies_within self other }
    {
        self.registers & other.registers == self.registers
            && self.groups & other.groups == self.groups
            && self.margins.lie_within(other.margins)
            && (self.values == other.values || self.margins.total < other.margins.total)
            && self.marks.lie_within(other.marks)
            && self.links.lie_within(other.links)
    }
}

impl<D: Domain> AbsState<D> {
    ghost use Rattle.std.specs.Prelude.{◌≡◌};
    ghost use Rattle.absstate.specs.InitialisedWords.{words_of};
    ghost use Rattle.absstate.specs.Signatures.{state_signature};

    /// Returns the signature of this state, whose marks are these words.
    pub fn signature(&self, words: &InitialisedWords) -> StateSignature
        requires { words.now ≡ words_of self.now.marks.cells }
        ensures { result ≡ state_signature D.ops self.now }
    {
        let values = values_of(self);
        let (registers, groups) = values.split_at(REGISTERS);
        StateSignature {
            registers: value_bits(0, self, registers),
            groups: value_bits(REGISTERS, self, groups),
            marks: mark_bits(0, words),
            margins: margins_of(values),
            values: values_hash(values),
            links: links_of(values),
        }
    }
}
