//! States as they are kept: in few bytes, and compared from the part on in which they most likely differ.

ghost use Rattle.std.specs.Prelude.{◌≡◌, ◌≤◌, ◌<◌, ◌+◌, ◌++◌, true, false, take, drop, length, slice_index_or, IfOk, IfNone, IfSome};
ghost use Rattle.absstate.specs.Covers.{covers_value, covers_values};
ghost use Rattle.semantics.specs.declared.limits.TheConstants.{GROUPS};
ghost use Rattle.absstate.specs.Packing.{are_unknown, joined, written_over, HoldGroups};
ghost use Rattle.absstate.specs.declared.abstract_state.TheConstants.{REGISTERS};
ghost use Rattle.absstate.specs.declared.abstract_state.AbsState.{AbsState};
ghost use Rattle.absstate.specs.declared.abstract_state.AbstractValue.TheVariants.{Nothing};

use crate::abstract_state::{AbsState, AbstractValue, Anchor, REGISTERS, VALUES};
use crate::chunk::{Chunk, push_chunks};
use crate::covering::{covers_value, first_unlinked, proves_no_more, values_of};
use crate::initialised_words::{InitialisedWords, first_outside};
use crate::part::Part;
use interval::Domain;
use std::alloc::{AllocError, Global};
use std::marker::Model;

/// A state that is kept: its marks are words, and its groups are there only where one holds a pointer, in chunks that
/// kept states share.
#[derive(Drop)]
pub struct PackedState<D> {
    registers: [AbstractValue<D>; REGISTERS],
    chunks: Vec<Chunk<D>>,
    words: InitialisedWords,
    proved: i64,
}

impl<D> Model for PackedState<D> {
    ghost use Rattle.std.specs.Prelude.{◌≡◌, ◌≤◌, length};
    ghost use Rattle.semantics.specs.declared.limits.TheConstants.{STACK_BYTES, GROUPS};
    ghost use Rattle.absstate.specs.InitialisedWords.{words_of, marks_of};
    ghost use Rattle.absstate.specs.Packing.{joined, unpacked};
    ghost use Rattle.absstate.specs.declared.abstract_state.AbsState.{AbsState};

    ghost Value = { AbsState D };

    ghost view = { λ p. unpacked p.registers (joined p.chunks.items) p.words p.proved };

    ghost invariant = { λ p. (length (joined p.chunks.items) ≤ GROUPS) × (words_of (marks_of p.words) ≡ p.words)
        × (length (marks_of p.words) ≡ STACK_BYTES) };
}

/// Writes values from an index on.
fn put<D: Copy>(values: &mut [AbstractValue<D>], at: usize, part: &[AbstractValue<D>])
    requires { at + length part.now ≤ length values.old }
    ensures { values.new ≡ written_over at part.now values.old }
{
    values[at..at + part.len()].copy_from_slice(part);
}

/// Returns whether no value is known.
fn are_unknown<D: Copy>(values: &[AbstractValue<D>]) -> bool
    ensures { result ≡ are_unknown values.now }
{
    match values {
        [] => true,
        [AbstractValue::Nothing, values @ ..] => are_unknown(values),
        _ => false,
    }
}

/// Writes the values of chunks, one after the other, from an index on.
fn put_chunks<D: Copy>(values: &mut [AbstractValue<D>], at: usize, chunks: &[Chunk<D>])
    requires { at + length (joined chunks.now) ≤ length values.old }
    ensures { values.new ≡ written_over at (joined chunks.now) values.old }
{
    match chunks {
        [] => {}
        [first, chunks @ ..] => {
            let part = first.values();
            put(values, at, part);
            put_chunks(values, at + part.len(), chunks);
        }
    }
}

/// Returns the values of groups as they are kept: none, where no group is known to hold a pointer. Chunks of another
/// state are shared where it knows the same.
///
/// # Errors
/// Where memory runs out.
fn chunks_of<D: Copy>(
    alloc: Global,
    values: &[AbstractValue<D>],
    like: &[Chunk<D>],
) -> Result<Vec<Chunk<D>>, AllocError>
    requires { length values.now ≡ GROUPS }
    ensures { IfOk result (λ chunks. HoldGroups values.now chunks.items) }
{
    let mut chunks = Vec::new(alloc);
    if are_unknown(values) {
        return Ok(chunks);
    }
    push_chunks(alloc, &mut chunks, values, like)?;
    Ok(chunks)
}

/// Returns the values of the registers, of which there are eleven.
fn eleven<D: Copy>(values: &[AbstractValue<D>]) -> [AbstractValue<D>; REGISTERS]
    requires { length values.now ≡ REGISTERS }
    ensures { result ≡ values.now }
{
    let mut registers = [AbstractValue::Nothing; REGISTERS];
    registers.copy_from_slice(values);
    registers
}

/// Returns the first value of a state, with its index, that doesn't cover the one of another state at its place.
/// `proved` and `other_proved` are the proved lengths of both.
fn first_uncovered<D: Domain>(
    values: &[AbstractValue<D>],
    others: &[AbstractValue<D>],
    proved: i64,
    other_proved: i64,
) -> Option<(usize, AbstractValue<D>)>
    requires { length values.now ≤ length others.now }
    ensures none { (a b : AbsState D) → a.proved ≡ proved → b.proved ≡ other_proved
        → IfNone result (covers_values D.ops a b values.now others.now ≡ true) }
    ensures found { IfSome result (λ f. (f.0 < length values.now) × (slice_index_or values.now f.0 Nothing ≡ f.1)) }
    ensures some { (a b : AbsState D) → a.proved ≡ proved → b.proved ≡ other_proved
        → IfSome result (λ f. covers_value D.ops a b f.1 (slice_index_or others.now f.0 Nothing) ≡ false) }
{
    match (values, others) {
        ([a, values @ ..], [b, others @ ..]) => {
            if !covers_value(*a, *b, proved, other_proved) {
                return Some((0, *a));
            }
            let (index, value) = first_uncovered(values, others, proved, other_proved)?;
            Some((index + 1, value))
        }
        _ => None,
    }
}

impl<D: Domain> PackedState<D> {
    ghost use Rattle.std.specs.Prelude.{◌≡◌, None, Some, true, IfNone, IfSome};
    ghost use Rattle.semantics.specs.Machine.{State};
    ghost use Rattle.absstate.specs.Covers.{covers};
    ghost use Rattle.absstate.specs.InitialisedWords.{words_of};
    ghost use Rattle.absstate.specs.Membership.{Loose, IsMember};
    ghost use Rattle.absstate.specs.Packing.{Differs};

    /// Returns the values of the registers and, after them, those of the groups.
    fn values(&self) -> [AbstractValue<D>; VALUES]
        ensures { result ≡ self.now.values }
    {
        let mut values = [AbstractValue::Nothing; VALUES];
        put(&mut values, 0, &self.registers);
        put_chunks(&mut values, REGISTERS, &self.chunks);
        values
    }

    /// Returns a length that the datagram is proved to have.
    fn proved(&self) -> i64
        ensures { result ≡ self.now.proved }
    {
        self.proved
    }

    /// Returns the first register, with its index, that doesn't cover the one of another state.
    /// `other_proved` is the other's proved length.
    fn uncovered_register(
        &self,
        others: &[AbstractValue<D>],
        other_proved: i64,
    ) -> Option<(usize, AbstractValue<D>)>
        requires { REGISTERS ≤ length others.now }
        ensures found { IfSome result (λ f. slice_index_or self.now.values f.0 Nothing ≡ f.1) }
        ensures some { (b : AbsState D) → b.proved ≡ other_proved → IfSome result
            (λ f. covers_value D.ops self.now b f.1 (slice_index_or others.now f.0 Nothing) ≡ false) }
    {
        first_uncovered(&self.registers, others, self.proved(), other_proved)
    }

    /// Returns the part in which a state, whose marks are these words, is found to differ from this one, which doesn't
    /// cover it. `None` is a state that it covers: each member of that one is a member of this one.
    pub fn difference(&self, other: &AbsState<D>, words: &InitialisedWords) -> Option<Part<D>>
        requires { words.now ≡ words_of other.now.marks.cells }
        ensures none { IfNone result (covers D.ops self.now other.now ≡ true) }
        ensures members { result ≡ None → (s : State) → IsMember D.Member Loose other.now s
            → IsMember D.Member Loose self.now s }
        ensures some { IfSome result (Differs D.ops self.now other.now) }
    {
        if let Some(index) = first_outside(&self.words, words) {
            let word = self.words[index];
            return Some(Part::Word { index, word });
        }
        let (proved, other_proved) = (self.proved(), other.proved_of(Anchor::First));
        if !proves_no_more(proved, other_proved) {
            return Some(Part::Proved { proved });
        }
        let _marks = other.marks.cells();
        let others = values_of(other);
        if let Some((index, value)) = self.uncovered_register(others, other_proved) {
            return Some(Part::Value {
                index,
                value,
                proved,
            });
        }
        let values = self.values();
        if let Some((index, value)) = first_uncovered(&values, others, proved, other_proved) {
            return Some(Part::Value {
                index,
                value,
                proved,
            });
        }
        if let Some((first, second)) = first_unlinked(&values, others) {
            return Some(Part::Linked { first, second });
        }
        None
    }
}

impl<D: Copy> AbsState<D> {
    ghost use Rattle.std.specs.Prelude.{◌≡◌, IfOk};
    ghost use Rattle.absstate.specs.InitialisedWords.{words_of};

    /// Returns the marks of the stack as words: 64 marks a word, the first one at its lowest bit.
    pub fn words(&self) -> InitialisedWords
        ensures { result ≡ words_of self.now.marks.cells }
    {
        self.marks.words()
    }

    /// Returns this state as it is kept. It shares what it knows of groups with a kept state that knows the same of
    /// them.
    ///
    /// # Errors
    /// Where memory runs out.
    pub fn packed(
        &self,
        alloc: Global,
        like: Option<&PackedState<D>>,
    ) -> Result<PackedState<D>, AllocError>
        ensures { IfOk result (λ p. p ≡ self.now) }
    {
        let (registers, groups) = values_of(self).split_at(REGISTERS);
        let _marks = self.marks.cells();
        let like = match like {
            Some(like) => like.chunks.as_slice(),
            None => &[],
        };
        let chunks = chunks_of(alloc, groups, like)?;
        Ok(PackedState {
            registers: eleven(registers),
            chunks,
            words: self.words(),
            proved: self.proved_of(Anchor::First),
        })
    }
}
