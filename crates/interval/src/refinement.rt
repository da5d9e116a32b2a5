//! What a test leaves of intervals.

ghost use Rattle.std.specs.Prelude.{◌≡◌};
ghost use Rattle.interval.specs.Domains.{passes};
ghost use Rattle.interval.specs.Intervals.{if_any, from_to, greater, at_least, equal, exchanged_pair, is_signed, condition_of, where_it_holds, where_it_fails, pair_where, can_refine, interval_refine};

use crate::arithmetic::{are_positive, is_word};
use crate::domain::Test;
use crate::interval::Interval;
use insn::{Condition, Width};

/// Returns the words from `lo` to `hi`, if there is any.
fn if_any(lo: u64, hi: u64) -> Option<Interval>
    ensures { result ≡ if_any (from_to lo hi) }
{
    if lo <= hi {
        Some(Interval::from_to(lo, hi))
    } else {
        None
    }
}

/// Returns the pairs in which the first number is greater.
fn greater(a: Interval, b: Interval) -> Option<(Interval, Interval)>
    ensures { result ≡ greater a b }
{
    let x = a.ends();
    let y = b.ends();
    if y.lo < x.hi {
        let a = if_any(x.lo.max(y.lo + 1), x.hi)?;
        let b = if_any(y.lo, y.hi.min(x.hi - 1))?;
        Some((a, b))
    } else {
        None
    }
}

/// Returns the pairs in which the first number is at least the second.
fn at_least(a: Interval, b: Interval) -> Option<(Interval, Interval)>
    ensures { result ≡ at_least a b }
{
    let x = a.ends();
    let y = b.ends();
    let a = if_any(x.lo.max(y.lo), x.hi)?;
    let b = if_any(y.lo, y.hi.min(x.hi))?;
    Some((a, b))
}

/// Returns the pairs of equal numbers.
fn equal(a: Interval, b: Interval) -> Option<(Interval, Interval)>
    ensures { result ≡ equal a b }
{
    let x = a.ends();
    let y = b.ends();
    let common = if_any(x.lo.max(y.lo), x.hi.min(y.hi))?;
    Some((common, common))
}

/// Exchanges the numbers of the pairs.
fn exchanged(pairs: Option<(Interval, Interval)>) -> Option<(Interval, Interval)>
    ensures { result ≡ exchanged_pair pairs }
{
    let (a, b) = pairs?;
    Some((b, a))
}

/// Returns whether a condition reads a sign.
fn is_signed(condition: Condition) -> bool
    ensures { result ≡ is_signed condition }
{
    match condition {
        Condition::SignedGt | Condition::SignedGe | Condition::SignedLt | Condition::SignedLe =>
            true,
        Condition::Eq
        | Condition::Gt
        | Condition::Ge
        | Condition::Set
        | Condition::Ne
        | Condition::Lt
        | Condition::Le => false,
    }
}

/// Returns the pairs of which a condition may hold, on numbers of one sign.
fn where_it_holds(condition: Condition, a: Interval, b: Interval) -> Option<(Interval, Interval)>
    ensures { result ≡ where_it_holds condition a b }
{
    match condition {
        Condition::Eq => equal(a, b),
        Condition::Gt | Condition::SignedGt => greater(a, b),
        Condition::Ge | Condition::SignedGe => at_least(a, b),
        Condition::Lt | Condition::SignedLt => exchanged(greater(b, a)),
        Condition::Le | Condition::SignedLe => exchanged(at_least(b, a)),
        Condition::Set | Condition::Ne => Some((a, b)),
    }
}

/// Returns the pairs of which a condition may fail, on numbers of one sign.
fn where_it_fails(condition: Condition, a: Interval, b: Interval) -> Option<(Interval, Interval)>
    ensures { result ≡ where_it_fails condition a b }
{
    match condition {
        Condition::Ne => equal(a, b),
        Condition::Gt | Condition::SignedGt => exchanged(at_least(b, a)),
        Condition::Ge | Condition::SignedGe => exchanged(greater(b, a)),
        Condition::Lt | Condition::SignedLt => at_least(a, b),
        Condition::Le | Condition::SignedLe => greater(a, b),
        Condition::Eq | Condition::Set => Some((a, b)),
    }
}

/// Returns the condition of a test.
fn condition_of(test: Test) -> Condition
    ensures { result ≡ condition_of test }
{
    match test {
        Test::Holds(condition) | Test::Fails(condition) => condition,
    }
}

/// Returns the pairs that may pass a test, on numbers of one sign.
fn left(test: Test, a: Interval, b: Interval) -> Option<(Interval, Interval)>
    ensures { result ≡ pair_where test a b }
{
    match test {
        Test::Holds(condition) => where_it_holds(condition, a, b),
        Test::Fails(condition) => where_it_fails(condition, a, b),
    }
}

/// Returns whether both operands are words of the width, and not negative where the test reads a sign.
fn can_refine(test: Test, width: Width, a: Interval, b: Interval) -> bool
    ensures { result ≡ can_refine test width a b }
{
    if is_signed(condition_of(test)) {
        are_positive(width, a, b)
    } else {
        is_word(width, a.ends().hi) && is_word(width, b.ends().hi)
    }
}

/// Returns whether two words pass a test.
pub(crate) fn passes(test: Test, width: Width, a: u64, b: u64) -> bool
    ensures { result ≡ passes test width a b }
{
    match test {
        Test::Holds(condition) => insn::holds(condition, width, a, b),
        Test::Fails(condition) => !insn::holds(condition, width, a, b),
    }
}

/// Returns the pairs that may pass a test.
pub(crate) fn refine(
    test: Test,
    width: Width,
    a: Interval,
    b: Interval,
) -> Option<(Interval, Interval)>
    ensures { result ≡ interval_refine test width a b }
{
    if a.is_single() && b.is_single() {
        if passes(test, width, a.ends().lo, b.ends().lo) {
            Some((a, b))
        } else {
            None
        }
    } else if can_refine(test, width, a, b) {
        left(test, a, b)
    } else {
        Some((a, b))
    }
}
