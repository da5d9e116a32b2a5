//! Loading in slices: a program is decoded at once, and its verification continues by so much work at a time.

ghost use Rattle.std.specs.Prelude.{◌≡◌, ◌+◌, ◌<◌, ℕ, List, IfOk, IfErr, IfSome, IfNone};
ghost use Rattle.insn.specs.Encoding.{Encodes};
ghost use Rattle.insn.specs.Refusal.{IsRefused};
ghost use Rattle.insn.specs.declared.instruction.Insn.{Insn};
ghost use Rattle.insn.specs.declared.refusal.DecodeError.{DecodeError};
ghost use Rattle.semantics.specs.declared.reason.Reason.{Reason};
ghost use Rattle.verifier.specs.Layout.{IsLayoutFault};
ghost use Rattle.loader.specs.Loads.{IsLoadRefusal, IsUnlessMemory};
ghost use Rattle.loader.specs.Slices.{IsSliceOf};
ghost use Rattle.loader.specs.declared.loaded.TheConstants.{WEIGHT};
ghost use Rattle.loader.specs.declared.refusal.LoadError.TheVariants.{Decode, Verify};

use crate::loaded::{BUDGET, Loaded, WEIGHT};
use crate::refusal::LoadError;
use insn::decode;
use interval::Interval;
use std::alloc::Global;
use std::marker::{Brand, Model};
use std::sync::ledger::{Blank, Ledger};
use verifier::{Progress, Refusal, Steps, Walk};

/// A program that is being loaded: its bytes are decoded, and its verification continues in slices.
#[derive(Drop)]
pub struct Loading {
    walk: Walk<Interval>,
    /// What its verification may still weigh.
    left: usize,
}

impl Model for Loading {
    ghost use Rattle.std.specs.Prelude.{◌≡◌};
    ghost use Rattle.loader.specs.declared.loaded.TheConstants.{BUDGET};
    ghost use Rattle.loader.specs.LoadingWalk.{LoadingWalk};

    ghost Value = { LoadingWalk };

    ghost view = { λ l. record { walk = l.walk; left = l.left } };

    ghost invariant = { λ l. l.walk.budget ≡ BUDGET };
}

/// What loading has come to after a slice.
#[derive(Drop)]
pub enum LoadProgress {
    /// It continues.
    Going(Loading),
    /// It is given up: its verification takes too long. What this has kept is still there.
    GivenUp(LoadRemains),
    /// It has ended: the program is loaded, or refused. What the verification has kept is still there.
    Ended(Result<Loaded, Refusal>, LoadRemains),
}

/// What a verification has kept, once it has ended. Where it is much, freeing it at once takes long.
#[derive(Drop)]
pub struct LoadRemains {
    states: verifier::Remains<Interval>,
}

impl Model for LoadRemains {
    ghost use Rattle.std.specs.Prelude.{ℕ};

    ghost Value = { ℕ };

    ghost view = { λ r. r.states };
}

impl LoadRemains {
    /// Frees some of it, in `count` units of work. Returns the rest, `None` where nothing is left.
    pub fn free(self, count: usize) -> Option<LoadRemains>
        ensures left { IfSome result (λ left. left + count ≡ self) }
        ensures none { IfNone result (self < count) }
    {
        let states = self.states.free(count)?;
        Some(LoadRemains { states })
    }
}

/// Continues by a slice, and counts its steps.
fn advanced_by<L: Ledger>(walk: Walk<Interval>, slice: usize, blank: Blank) -> Progress<Interval>
    requires name { blank.name ≡ L.name }
    requires parts { blank.parts ≡ L.parts }
    requires some { 0 < L.parts }
    ensures { IsSliceOf walk slice result }
{
    let mut steps = Steps::<L>::new(blank);
    walk.advance(slice, &mut steps)
}

/// Continues by a slice; nothing counts its steps.
fn advanced(walk: Walk<Interval>, slice: usize) -> Progress<Interval>
    ensures { IsSliceOf walk slice result }
{
    advanced_by::<Brand>(walk, slice, Blank::new(1))
}

impl Loading {
    ghost use Rattle.std.specs.Prelude.{◌≡◌, ℕ, List, IfOk, IfErr};
    ghost use Rattle.verifier.specs.Keeping.{units_to_free};
    ghost use Rattle.loader.specs.Slices.{IsLoadSlice};

    /// Begins to load a program: decodes its bytes (RFC 9669, sections 3 to 5), and tests its layout.
    ///
    /// # Errors
    /// E1 to E7 where the bytes encode no program; V1 to V4 where its layout is faulty. E8, and V19 at slot 0, where
    /// memory runs out.
    pub fn new(alloc: Global, bytes: &[u8]) -> Result<Loading, LoadError>
        ensures begun { IfOk result (λ l. Encodes l.walk.code bytes.now) }
        ensures left { IfOk result (λ l. l.left ≡ WEIGHT) }
        ensures refused { IfErr result (IsLoadRefusal bytes.now) }
        ensures decode { (e : DecodeError) → IsRefused bytes.now e → IsUnlessMemory (Decode e) result }
        ensures layout { (code : List Insn) (reason : Reason) (slot : ℕ)
            → Encodes code bytes.now → IsLayoutFault code reason slot
            → IsUnlessMemory (Verify (Refusal.Stuck reason slot)) result }
    {
        let code = decode(alloc, bytes)?;
        let walk = Walk::new(alloc, &code, BUDGET)?;
        Ok(Loading { walk, left: WEIGHT })
    }

    /// Gives the loading up, and returns what its verification has kept.
    pub fn into_remains(self) -> LoadRemains
        ensures { result ≡ units_to_free self.walk.kept }
    {
        let states = self.walk.into_remains();
        LoadRemains { states }
    }

    /// Continues by work of the weight `slice`, or less where the verification ends. Whatever the slices are, it ends
    /// as [`load`](crate::load) does; or it is given up, where it hasn't ended after slices of the weight [`WEIGHT`] in
    /// all.
    pub fn advance(self, slice: usize) -> LoadProgress
        ensures { IsLoadSlice self slice result }
    {
        match advanced(self.walk, slice) {
            Progress::Going(walk) if slice < self.left => LoadProgress::Going(Loading {
                walk,
                left: self.left - slice,
            }),
            Progress::Going(walk) => LoadProgress::GivenUp(LoadRemains {
                states: walk.into_remains(),
            }),
            Progress::Ended(result, states) => {
                let remains = LoadRemains { states };
                match result {
                    Ok(program) => LoadProgress::Ended(Ok(Loaded { program }), remains),
                    Err(refusal) => LoadProgress::Ended(Err(refusal), remains),
                }
            }
        }
    }
}
