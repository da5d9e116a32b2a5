//! A second domain, to see that the trait can be met without intervals: one number, or none known.

ghost use Rattle.std.specs.Prelude.{◌≡◌, ℕ, ◌-◌, ◌^◌, ◌<◌, ◌==◌, nat_lt, true, false, Some, None, if◌then◌else◌};
ghost use Rattle.std.proofs.Common.{refl, sym, ap, ◌∙◌, arith};
ghost use Rattle.std.proofs.lemmas.Bool.{cond_both, eqb-true, ltb-true, true≢false};
ghost use Rattle.insn.specs.Words.{alu, unary};
ghost use Rattle.interval.specs.Domains.{passes, KeepsPair};
ghost use Rattle.interval.specs.laws.Interval.Operators.{alu_fits};
ghost use Rattle.interval.specs.laws.Interval.OneOperand.{unary_fits};

use insn::{AluOp, UnaryOp, Width, holds};
use interval::{Bounds, Domain, Refined, Test};

/// What is known of a number.
#[derive(Clone, Copy, Debug, PartialEq, Eq)]
pub enum KnownNumber {
    Exact(u64),
    Unknown,
}

/// Returns whether two words pass a test.
fn passes(test: Test, width: Width, a: u64, b: u64) -> bool
    ensures { result ≡ passes test width a b }
{
    match test {
        Test::Holds(condition) => holds(condition, width, a, b),
        Test::Fails(condition) => !holds(condition, width, a, b),
    }
}

impl Domain for KnownNumber {
    ghost use Rattle.rows_bpf.specs.declared.known.KnownNumber.TheVariants.{Exact, Unknown};

    ghost ops = { record {
      top = Unknown;
      exact = Exact;
      range = λ lo hi. if lo == hi then Exact lo else Unknown;
      bounds = elim [ Exact n ↦ record { lo = n; hi = n } | Unknown ↦ record { lo = 0; hi = 2 ^ 64 - 1 } ];
      alu = λ op w. elim [
        | Exact m ↦ elim [ Exact n ↦ Exact (alu op w m n) | Unknown ↦ Unknown ]
        | Unknown ↦ λ y. Unknown
      ];
      unary = λ op. elim [ Exact n ↦ Exact (unary op n) | Unknown ↦ Unknown ];
      refine = λ test w. elim [
        | Exact m ↦ elim [
          | Exact n ↦ if passes test w m n then Some (Exact m, Exact n) else None
          | Unknown ↦ Some (Exact m, Unknown)
        ]
        | Unknown ↦ λ y. Some (Unknown, y)
      ];
      covers = elim [
        | Exact m ↦ elim [ Exact n ↦ m == n | Unknown ↦ false ]
        | Unknown ↦ elim [ Exact n ↦ nat_lt n (2 ^ 64) | Unknown ↦ true ]
      ];
    } };

    ghost Member = { elim [ Exact m ↦ λ n. (n < 2 ^ 64) × (m ≡ n) | Unknown ↦ λ n. n < 2 ^ 64 ] };

    fn top() -> KnownNumber {
        KnownNumber::Unknown
    }

    fn exact(n: u64) -> KnownNumber {
        KnownNumber::Exact(n)
    }

    fn range(lo: u64, hi: u64) -> KnownNumber {
        if lo == hi {
            KnownNumber::Exact(lo)
        } else {
            KnownNumber::Unknown
        }
    }

    fn bounds(self) -> Bounds {
        match self {
            KnownNumber::Exact(n) => Bounds { lo: n, hi: n },
            KnownNumber::Unknown => Bounds {
                lo: 0,
                hi: u64::MAX,
            },
        }
    }

    fn alu(op: AluOp, width: Width, a: KnownNumber, b: KnownNumber) -> KnownNumber {
        match (a, b) {
            (KnownNumber::Exact(m), KnownNumber::Exact(n)) => KnownNumber::Exact(insn::alu(
                op, width, m, n,
            )),
            _ => KnownNumber::Unknown,
        }
    }

    fn unary(op: UnaryOp, a: KnownNumber) -> KnownNumber {
        match a {
            KnownNumber::Exact(n) => KnownNumber::Exact(insn::unary(op, n)),
            KnownNumber::Unknown => KnownNumber::Unknown,
        }
    }

    fn refine(
        test: Test,
        width: Width,
        a: KnownNumber,
        b: KnownNumber,
    ) -> Option<Refined<KnownNumber>> {
        match (a, b) {
            (KnownNumber::Exact(m), KnownNumber::Exact(n)) if !passes(test, width, m, n) => None,
            _ => Some(Refined { a, b }),
        }
    }

    fn covers(self, other: KnownNumber) -> bool {
        match (self, other) {
            (KnownNumber::Unknown, _) => true,
            (KnownNumber::Exact(m), KnownNumber::Exact(n)) => m == n,
            (KnownNumber::Exact(_), KnownNumber::Unknown) => false,
        }
    }

    ghost laws = { record {
      words = elim [ Exact m ↦ λ n h. h.0 | Unknown ↦ λ n h. h ];
      top = λ n h. h;
      exact = λ n h. (h, refl);
      range = λ lo hi n lt above below.
          cond_both (lo == hi) (Exact lo) Unknown
          (λ x. (elim x as (λ _. ℕ → Type 0) [ Exact m ↦ λ n. (n < 2 ^ 64) × (m ≡ n) | Unknown ↦ λ n. n < 2 ^ 64 ]) n)
          (λ e. (Prim.omega (arith, below), Prim.omega (arith, eqb-true lo hi e)))
          (λ e. Prim.omega (arith, below));
      bounds = elim [
        | Exact m ↦ λ n h. (Prim.omega (arith, h.1), Prim.omega (arith, h.1))
        | Unknown ↦ λ n h. (Prim.omega arith, Prim.omega (arith, h))
      ];
      alu = λ op w. elim [
        | Exact a ↦ elim [
          | Exact b ↦ λ m n h k. (alu_fits op w m n, λ i. alu op w (h.1 i) (k.1 i))
          | Unknown ↦ λ m n h k. alu_fits op w m n
        ]
        | Unknown ↦ λ y m n h k. alu_fits op w m n
      ];
      unary = λ op. elim [
        | Exact a ↦ λ n h. (unary_fits op n, ap (unary op) h.1)
        | Unknown ↦ λ n h. unary_fits op n
      ];
      refine = λ test w. elim [
        | Exact a ↦ elim [
          | Exact b ↦ λ m n h k e.
              cond_both (passes test w a b) (Some (Exact a, Exact b)) None
              (λ r. KeepsPair (elim [ Exact m ↦ λ n. (n < 2 ^ 64) × (m ≡ n) | Unknown ↦ λ n. n < 2 ^ 64 ]) r m n)
              (λ t. (h, k))
              (λ t. absurd (true≢false (sym e ∙ sym (λ i. passes test w (h.1 i) (k.1 i)) ∙ t)))
          | Unknown ↦ λ m n h k e. (h, k)
        ]
        | Unknown ↦ λ y m n h k e. (h, k)
      ];
      covers = elim [
        | Exact a ↦ elim [
          | Exact b ↦ λ n e h. (h.0, eqb-true a b e ∙ h.1)
          | Unknown ↦ λ n e h. absurd (true≢false (sym e))
        ]
        | Unknown ↦ elim [ Exact b ↦ λ n e h. h.0 | Unknown ↦ λ n e h. h ]
      ];
      covered_between = elim [
        | Exact a ↦ elim [
          | Exact b ↦ λ e.
              let same = eqb-true a b e in
              (Prim.omega (arith, same), Prim.omega arith, Prim.omega (arith, same))
          | Unknown ↦ λ e. absurd (true≢false (sym e))
        ]
        | Unknown ↦ elim [
          | Exact b ↦ λ e.
              let word = ltb-true b (2 ^ 64) e in
              (Prim.omega arith, Prim.omega arith, Prim.omega (arith, word))
          | Unknown ↦ λ e. (Prim.omega arith, Prim.omega arith, Prim.omega arith)
        ]
      ];
    } };

    ghost small = { Prim.omega arith };
}
