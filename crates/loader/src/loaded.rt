//! Loading: from bytes to a program that can run.

ghost use Rattle.std.specs.Prelude.{◌≡◌, ◌<◌, ◌≤◌, ◌^◌, ℕ, List, IfOk, IfErr};
ghost use Rattle.insn.specs.Encoding.{Encodes, slot_count};
ghost use Rattle.insn.specs.Refusal.{IsRefused, IsWhole};
ghost use Rattle.insn.specs.declared.instruction.Insn.{Insn};
ghost use Rattle.insn.specs.declared.refusal.DecodeError.{DecodeError};
ghost use Rattle.semantics.specs.declared.reason.Reason.{Reason};
ghost use Rattle.verifier.specs.Layout.{IsLayoutFault};
ghost use Rattle.verifier.specs.Refusing.{IsVerdict};
ghost use Rattle.insn.specs.declared.decoding.TheConstants.{MAX_SLOTS};
ghost use Rattle.loader.specs.declared.loaded.TheConstants.{BUDGET};
ghost use Rattle.loader.specs.Loads.{IsLoaded, IsLoadRefusal, IsMemoryRefusal, IsUnlessMemory};
ghost use Rattle.loader.specs.Verdicts.{ComesFromWalk, IsWalked};
ghost use Rattle.loader.specs.declared.refusal.LoadError.TheVariants.{Decode, Verify};

use crate::refusal::LoadError;
use insn::{Insn, decode};
use std::alloc::Global;
use std::marker::{Brand, Model};
use std::sync::ledger::{Blank, Ledger};
use verifier::{Refusal, Steps, Verified, verify};

/// The number of abstract steps that the verification of a program may take.
pub const BUDGET: usize = 100_000;

/// What the verification of a program that is loaded in slices may weigh: some four seconds of a processor.
/// See docs/DECISIONS.md, "What work weighs".
pub const WEIGHT: usize = 1 << 32;

/// States the budget, and the weight.
pub fn law_limits()
    ensures budget { BUDGET ≡ 100000 }
    ensures weight { WEIGHT ≡ 2 ^ 32 }
{}

/// A loaded program: its bytes encode it, and every run of it exits. Only [`load`] and [`Loading`](crate::Loading) make
/// one.
#[derive(Drop)]
pub struct Loaded {
    pub(crate) program: Verified,
}

impl Model for Loaded {
    ghost use Rattle.std.specs.Prelude.{List};
    ghost use Rattle.insn.specs.declared.instruction.Insn.{Insn};

    ghost Value = { List Insn };

    ghost view = { λ l. l.program };
}

impl Loaded {
    ghost use Rattle.std.specs.Prelude.{◌≡◌};

    /// Returns the program, which can run.
    pub fn program(&self) -> &Verified
        ensures { result.now ≡ self.now }
    {
        &self.program
    }
}

/// Verifies a program with the budget, and counts its steps.
fn verified_by<L: Ledger>(alloc: Global, code: &[Insn], blank: Blank) -> Result<Verified, Refusal>
    requires name { blank.name ≡ L.name }
    requires parts { blank.parts ≡ L.parts }
    requires some { 0 < L.parts }
    requires few { slot_count code.now ≤ MAX_SLOTS }
    ensures code { IfOk result (λ v. v ≡ code.now) }
    ensures verdict { IsVerdict code.now BUDGET result }
    ensures walked { IsWalked code.now result }
{
    let mut steps = Steps::<L>::new(blank);
    verify(alloc, code, BUDGET, &mut steps)
}

/// Verifies a program with the budget; nothing counts its steps.
fn verified(alloc: Global, code: &[Insn]) -> Result<Verified, Refusal>
    requires few { slot_count code.now ≤ MAX_SLOTS }
    ensures code { IfOk result (λ v. v ≡ code.now) }
    ensures verdict { IsVerdict code.now BUDGET result }
    ensures walked { IsWalked code.now result }
{
    verified_by::<Brand>(alloc, code, Blank::new(1))
}

/// Loads a program: decodes its bytes (RFC 9669, sections 3 to 5) and verifies it.
///
/// # Errors
/// E1 to E7 where the bytes encode no program, as [`decode`] names them. Otherwise V1 to V4 where the layout of the
/// program is faulty, V5 to V16, V18 and V20 where a step could be stuck, and V17 where following its paths needs more
/// than 100,000 steps. E8 and V19 where memory runs out.
pub fn load(alloc: Global, bytes: &[u8]) -> Result<Loaded, LoadError>
    // What is loaded is the program that the bytes encode, and every run of it exits.
    ensures loaded { IfOk result (λ code. IsLoaded code bytes.now) }
    ensures refused { IfErr result (IsLoadRefusal bytes.now) }

    // At most 100,000 steps are made, and V17 and V19 name the slot at which they come.
    ensures verified { ComesFromWalk bytes.now result }

    // Allocation failures aside, the faults of the bytes are named exactly, and so are those of the layout. Memory runs
    // out only where the bytes are whole slots, at most as many as a program may have.
    ensures decode { (e : DecodeError) → IsRefused bytes.now e → IsUnlessMemory (Decode e) result }
    ensures whole { IfErr result (λ e. IsMemoryRefusal e → IsWhole bytes.now) }
    ensures layout { (code : List Insn) (reason : Reason) (slot : ℕ)
        → Encodes code bytes.now → IsLayoutFault code reason slot
        → IsUnlessMemory (Verify (Refusal.Stuck reason slot)) result }
{
    let code = decode(alloc, bytes)?;
    let program = verified(alloc, &code)?;
    Ok(Loaded { program })
}
