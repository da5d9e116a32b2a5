//! Intervals of 64-bit words.

ghost use Rattle.std.specs.Prelude.{◌≡◌, ◌≤◌};
ghost use Rattle.interval.specs.Intervals.{interval_ops, LiesBetween, all, from_to, single, is_single};
ghost use Rattle.interval.specs.laws.Interval.{interval_laws};
ghost use Rattle.std.proofs.Common.{arith};

use crate::arithmetic::{alu, unary};
use crate::domain::{Bounds, Domain, Refined, Test};
use crate::refinement::refine;
use insn::{AluOp, UnaryOp, Width};
use std::marker::Model;

/// The words from a least one to a greatest one, both included: never empty.
#[derive(Clone, Copy, Debug, PartialEq, Eq)]
pub struct Interval {
    ends: Bounds,
}

impl Model for Interval {
    ghost use Rattle.std.specs.Prelude.{◌≤◌};
    ghost use Rattle.interval.specs.declared.domain.Bounds.{Bounds};

    ghost Value = { Bounds };

    ghost view = { λ i. i.ends };

    ghost invariant = { λ i. i.ends.lo ≤ i.ends.hi };

    ghost inverse = { λ b. record { ends = b } };
}

impl Interval {
    /// Returns the words from `lo` to `hi`.
    pub(crate) fn from_to(lo: u64, hi: u64) -> Interval
        requires { lo ≤ hi }
        ensures { result ≡ from_to lo hi }
    {
        Interval {
            ends: Bounds { lo, hi },
        }
    }

    /// Returns all words of a width.
    pub(crate) fn all(width: Width) -> Interval
        ensures { result ≡ all width }
    {
        match width {
            Width::W32 => Interval::from_to(0, 0xffff_ffff),
            Width::W64 => Interval::from_to(0, u64::MAX),
        }
    }

    /// Returns one word alone.
    pub(crate) fn single(n: u64) -> Interval
        ensures { result ≡ single n }
    {
        Interval::from_to(n, n)
    }

    /// Returns the ends.
    pub(crate) fn ends(self) -> Bounds
        ensures value { result ≡ self }
        ensures order { result.lo ≤ result.hi }
    {
        self.ends
    }

    /// Returns whether there is one word alone.
    pub(crate) fn is_single(self) -> bool
        ensures { result ≡ is_single self }
    {
        self.ends.lo == self.ends.hi
    }
}

impl Domain for Interval {
    ghost ops = { interval_ops };

    ghost Member = { LiesBetween };

    fn top() -> Interval {
        Interval::all(Width::W64)
    }

    fn exact(n: u64) -> Interval {
        Interval::single(n)
    }

    fn range(lo: u64, hi: u64) -> Interval {
        Interval::from_to(lo, hi)
    }

    fn bounds(self) -> Bounds {
        self.ends
    }

    fn alu(op: AluOp, width: Width, a: Interval, b: Interval) -> Interval {
        alu(op, width, a, b)
    }

    fn unary(op: UnaryOp, a: Interval) -> Interval {
        unary(op, a)
    }

    fn refine(test: Test, width: Width, a: Interval, b: Interval) -> Option<Refined<Interval>> {
        let (a, b) = refine(test, width, a, b)?;
        Some(Refined { a, b })
    }

    fn covers(self, other: Interval) -> bool {
        self.ends.lo <= other.ends.lo && other.ends.hi <= self.ends.hi
    }

    ghost laws = { interval_laws };

    ghost small = { Prim.omega arith };
}
