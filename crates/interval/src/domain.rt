//! The numeric domain: what an abstract state holds for each number.

ghost use Rattle.std.specs.Prelude.{◌≡◌, ℕ, ◌≤◌, Bool};
ghost use Rattle.std.specs.Option.{option_map};
ghost use Rattle.std.specs.Mem.{type_size};
ghost use Rattle.interval.specs.Domains.{Operations, AreSound};

use insn::{AluOp, Condition, UnaryOp, Width};

/// The least and the greatest number that an abstract number may stand for.
#[derive(Clone, Copy, Debug, PartialEq, Eq)]
pub struct Bounds {
    pub lo: u64,
    pub hi: u64,
}

/// A test on two numbers: that a condition holds, for the branch that is taken, or that it fails, for the one that is
/// not.
/// See docs/DESIGN.md, "A refinement is of a test".
#[derive(Clone, Copy, Debug, PartialEq, Eq)]
pub enum Test {
    /// The condition holds.
    Holds(Condition),
    /// The condition doesn't hold.
    Fails(Condition),
}

/// The operands of a test that was passed.
#[derive(Clone, Copy, Debug, PartialEq, Eq)]
pub struct Refined<D> {
    pub a: D,
    pub b: D,
}

/// Abstract numbers. Each stands for a set of 64-bit words, its members.
///
/// An implementation gives its operations as functions, says what a member is, and proves that the operations are
/// sound: what they answer has each result of members as a member. So a domain may know as much or as little as it
/// likes. Its numbers take at most 65,536 bytes each, so that states made of them fit in memory.
/// See docs/DESIGN.md, "Abstract numbers are small".
pub trait Domain: Copy {
    ghost ops: { Operations Self };

    ghost Member: { Self → ℕ → Type 0 };

    /// Returns the abstract number of which every word is a member.
    fn top() -> Self
        ensures { result ≡ ops.top };

    /// Returns an abstract number that has this word as a member, if possible no other.
    fn exact(n: u64) -> Self
        ensures { result ≡ ops.exact n };

    /// Returns an abstract number that has the words from `lo` to `hi` as members, both included.
    fn range(lo: u64, hi: u64) -> Self
        requires { lo ≤ hi }
        ensures { result ≡ ops.range lo hi };

    /// Returns bounds of the members.
    fn bounds(self) -> Bounds
        ensures { result ≡ ops.bounds self };

    /// Returns an abstract number that has the results of an operator on members as members.
    fn alu(op: AluOp, width: Width, a: Self, b: Self) -> Self
        ensures { result ≡ ops.alu op width a b };

    /// Returns an abstract number that has the results of an operator on members as members.
    fn unary(op: UnaryOp, a: Self) -> Self
        ensures { result ≡ ops.unary op a };

    /// Returns what is left of two operands where a test is passed: each pair of members that passes it is kept. `None`
    /// where no pair passes it.
    fn refine(test: Test, width: Width, a: Self, b: Self) -> Option<Refined<Self>>
        ensures { option_map (λ r. (r.a, r.b)) result ≡ ops.refine test width a b };

    /// Returns whether each member of `other` is known to be one of `self`.
    fn covers(self, other: Self) -> bool
        ensures { result ≡ ops.covers self other };

    ghost laws: { AreSound ops Member };

    ghost small: { type_size Self.row ≤ 65536 };
}
