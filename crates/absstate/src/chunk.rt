//! Chunks of the groups of kept states, which states that know the same of eight groups share.

ghost use Rattle.std.specs.Prelude.{◌≡◌, ◌++◌, length, true, OnOk, IfOk};
ghost use Rattle.std.specs.List.{flat_map};
ghost use Rattle.absstate.specs.Packing.{joined};

use crate::abstract_state::{AbstractValue, Anchor};
use std::alloc::{AllocError, Global};
use std::marker::Model;
use std::rc::Rc;

/// How many groups a chunk has; the last one of a state may have fewer.
const CHUNK: usize = 8;

/// What is known of some groups, shared by the states that know the same of them.
#[derive(Drop)]
pub struct Chunk<D> {
    values: Rc<Vec<AbstractValue<D>>>,
}

impl<D> Model for Chunk<D> {
    ghost use Rattle.std.specs.Prelude.{List};
    ghost use Rattle.absstate.specs.declared.abstract_state.AbstractValue.{AbstractValue};

    ghost Value = { List (AbstractValue D) };

    ghost view = { λ c. c.values.value.items };
}

/// Returns whether two anchors are the same, with as much proved of them.
fn are_same_anchors(a: Anchor, b: Anchor) -> bool
    ensures { result ≡ true → a ≡ b }
{
    a == b
}

/// Returns whether two values that hold no number are the same.
fn are_same_pointers<D: Copy>(a: AbstractValue<D>, b: AbstractValue<D>) -> bool
    ensures { result ≡ true → a ≡ b }
{
    match (a, b) {
        (AbstractValue::Nothing, AbstractValue::Nothing)
        | (AbstractValue::Ctx, AbstractValue::Ctx)
        | (AbstractValue::End, AbstractValue::End) => true,
        (AbstractValue::Stack(a), AbstractValue::Stack(b)) => a == b,
        (
            AbstractValue::Data { anchor, offset },
            AbstractValue::Data {
                anchor: b,
                offset: k,
            },
        ) => offset == k && are_same_anchors(anchor, b),
        _ => false,
    }
}

/// Returns whether values, of which none is a number, are the same.
fn are_same<D: Copy>(values: &[AbstractValue<D>], others: &[AbstractValue<D>]) -> bool
    ensures { result ≡ true → values.now ≡ others.now }
{
    match (values, others) {
        ([], []) => true,
        ([a, values @ ..], [b, others @ ..]) => are_same_pointers(*a, *b)
            && are_same(values, others),
        _ => false,
    }
}

impl<D: Copy> Chunk<D> {
    ghost use Rattle.std.specs.Prelude.{◌≡◌, IfOk};

    /// Returns what is known of the groups.
    pub fn values(&self) -> &[AbstractValue<D>]
        ensures { result.now ≡ self.now }
    {
        &self.values
    }

    /// Returns a chunk of its own.
    ///
    /// # Errors
    /// Where memory runs out.
    fn new(alloc: Global, values: &[AbstractValue<D>]) -> Result<Chunk<D>, AllocError>
        ensures { IfOk result (λ c. c ≡ values.now) }
    {
        match Rc::new(alloc, values.to_vec(alloc)?) {
            Ok(values) => Ok(Chunk { values }),
            Err(e) => Err(e.into()),
        }
    }

    /// Returns the same chunk, shared.
    ///
    /// # Errors
    /// Where it is shared too often.
    fn share(&self) -> Result<Chunk<D>, AllocError>
        ensures { IfOk result (λ c. c ≡ self.now) }
    {
        let values = self.values.clone()?;
        Ok(Chunk { values })
    }
}

/// Returns values as a chunk: the one that is like them, where it has the same ones.
///
/// # Errors
/// Where memory runs out.
fn chunk_of<D: Copy>(
    alloc: Global,
    values: &[AbstractValue<D>],
    like: Option<&Chunk<D>>,
) -> Result<Chunk<D>, AllocError>
    ensures { IfOk result (λ c. c ≡ values.now) }
{
    match like {
        Some(like) if are_same(like.values(), values) => like.share(),
        _ => Chunk::new(alloc, values),
    }
}

/// Appends values as chunks, of which some may be shared with those of another state.
///
/// # Errors
/// Where memory runs out.
pub fn push_chunks<D: Copy>(
    alloc: Global,
    chunks: &mut Vec<Chunk<D>>,
    values: &[AbstractValue<D>],
    like: &[Chunk<D>],
) -> Result<(), AllocError>
    ensures { OnOk result (joined chunks.new.items ≡ joined chunks.old.items ++ values.now) }
{
    let mut rest = values;
    while !rest.is_empty() {
        let (first, others) = rest.split_at(rest.len().min(CHUNK));
        chunks.push(chunk_of(alloc, first, like.get(chunks.len()))?)?;
        rest = others;
    }
    Ok(())
}
