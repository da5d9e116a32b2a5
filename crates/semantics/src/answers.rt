//! The helpers that look up channels and permissions.

ghost use Rattle.std.specs.Prelude.{◌≡◌, ℕ, List};
ghost use Rattle.semantics.specs.Runs.{IsLawful};
ghost use Rattle.semantics.specs.Nothing.{empty_answer};
ghost use Rattle.semantics.specs.laws.Nothing.{nothing_is_lawful};

/// The helpers 1 to 3 and 6 to 8, which look up channels and permissions in the slot of a run.
/// See docs/DESIGN.md, "Lawful helpers".
/// See docs/DESIGN.md, "Possible contexts and helpers".
pub trait Helpers {
    /// The answer of a helper to a number and an address record.
    ghost answers: { Self → ℕ → ℕ → List ℕ → ℕ × List ℕ };

    /// Asked with a word and a wide address record, the helpers 1, 3, 6 and 8 answer at most 1, helpers 2 and 7 at most
    /// 0x4FFF, and helpers 1 and 6 give a wide address record.
    ghost lawful: { (h : Self) → IsLawful (answers h) };

    /// Returns the answer of the helper `id` to a number and a wide address record: a number and a wide address record,
    /// of which helper 1 uses the first eight bytes. The records that helpers 2, 3, 7 and 8 give are not used.
    fn answer(&self, id: u8, number: u64, address: [u8; 20]) -> (u64, [u8; 20])
        ensures { result ≡ answers self.now id number address };
}

/// The helpers of a relay without an allocation: each answers 0 and zero bytes.
#[derive(Clone, Copy, Debug)]
pub struct NoAllocation;

impl Helpers for NoAllocation {
    ghost answers = { λ h. empty_answer };

    ghost lawful = { λ h. nothing_is_lawful };

    fn answer(&self, _id: u8, _number: u64, _address: [u8; 20]) -> (u64, [u8; 20]) {
        (0, [0; 20])
    }
}
