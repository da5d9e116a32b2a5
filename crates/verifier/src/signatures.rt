//! The signatures of kept states, in blocks.

ghost use Rattle.std.specs.Prelude.{◌≡◌, OnOk, OnErr};
ghost use Rattle.verifier.specs.Blocks.{blocks_with};

use absstate::{CommonSignature, StateSignature};
use std::alloc::{AllocError, Global};
use std::marker::Model;

/// How many signatures a block has.
pub(crate) const BLOCK: usize = 16;

/// Signatures in the order in which they were added, and what those of each block have in common, by which a whole
/// block is passed over.
#[derive(Drop)]
pub(crate) struct Signatures {
    each: Vec<StateSignature>,
    blocks: Vec<CommonSignature>,
}

impl Model for Signatures {
    ghost use Rattle.std.specs.Prelude.{List};
    ghost use Rattle.absstate.specs.declared.signature.StateSignature.{StateSignature};
    ghost use Rattle.verifier.specs.Blocks.{AreInBlocks};

    ghost Value = { List StateSignature };

    ghost view = { λ s. s.each.items };

    ghost invariant = { λ s. AreInBlocks s.blocks.items s.each.items };
}

/// Adds a signature to a block: the one that is there, or a new one after the last.
///
/// # Errors
/// Where memory runs out.
fn add_to_block(
    blocks: &mut Vec<CommonSignature>,
    block: usize,
    signature: StateSignature,
) -> Result<(), AllocError>
    ensures ok { OnOk result (blocks.new.items ≡ blocks_with blocks.old.items block signature) }
    ensures err { OnErr result (blocks.new.items ≡ blocks.old.items) }
{
    if block < blocks.len() {
        blocks[block] = blocks[block].with(signature);
        Ok(())
    } else {
        blocks.push(CommonSignature::of(signature))?;
        Ok(())
    }
}

impl Signatures {
    ghost use Rattle.std.specs.Prelude.{◌≡◌, ◌≤◌, ◌<◌, ◌+◌, ◌-◌, ◌++◌, ◌∷◌, [], ℕ, false, length, take, slice_index_or, OnOk, OnErr};
    ghost use Rattle.absstate.specs.Signatures.{lies_within};
    ghost use Rattle.absstate.specs.declared.signature.StateSignature.{StateSignature};

    /// Returns no signatures.
    pub(crate) fn new(alloc: Global) -> Signatures
        ensures { result ≡ [] }
    {
        Signatures {
            each: Vec::new(alloc),
            blocks: Vec::new(alloc),
        }
    }

    /// Makes room for one signature alone, where there is none.
    ///
    /// # Errors
    /// Where memory runs out.
    pub(crate) fn reserve_first(&mut self) -> Result<(), AllocError>
        ensures { self.new ≡ self.old }
    {
        self.each.reserve_exact(1)?;
        self.blocks.reserve_exact(1)
    }

    /// Appends a signature.
    ///
    /// # Errors
    /// Where memory runs out.
    pub(crate) fn push(&mut self, signature: StateSignature) -> Result<(), AllocError>
        ensures ok { OnOk result (self.new ≡ self.old ++ signature ∷ []) }
        ensures err { OnErr result (self.new ≡ self.old) }
    {
        add_to_block(&mut self.blocks, self.each.len() / BLOCK, signature)?;
        self.each.push(signature)?;
        Ok(())
    }

    /// Takes the last signature away.
    pub(crate) fn pop(&mut self)
        ensures { self.new ≡ take (length self.old - 1) self.old }
    {
        self.each.pop();
    }

    /// Returns how many signatures from an index on, before an end, are known not to lie within another one: those of a
    /// block that begins there, or that one.
    fn ruled_out(&self, other: StateSignature, at: usize, end: usize) -> usize
        requires before { at < end }
        requires inside { end ≤ length self.now }
        ensures inside { at + result ≤ end }
        ensures none { (i : ℕ) → (s : StateSignature) → at ≤ i → i < at + result
            → slice_index_or self.now i s ≡ s → lies_within s other ≡ false }
    {
        if at % BLOCK == 0 && !self.blocks[at / BLOCK].admits(other) {
            return BLOCK.min(end - at);
        }
        if self.each[at].lies_within(other) {
            0
        } else {
            1
        }
    }

    /// Returns the index of the first signature, from an index on and before an end, that lies within another one; the
    /// end where none does.
    pub(crate) fn next_within(&self, other: StateSignature, from: usize, end: usize) -> usize
        requires after { from ≤ end }
        requires inside { end ≤ length self.now }
        ensures after { from ≤ result }
        ensures inside { result ≤ end }
        ensures none { (i : ℕ) → (s : StateSignature) → from ≤ i → i < result
            → slice_index_or self.now i s ≡ s → lies_within s other ≡ false }
    {
        let mut next = from;
        while next < end {
            match self.ruled_out(other, next, end) {
                0 => return next,
                count => next += count,
            }
        }
        next
    }
}
