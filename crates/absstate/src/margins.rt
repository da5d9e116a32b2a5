//! How many words the values of a state leave out.

ghost use Rattle.std.specs.Prelude.{◌≡◌, ◌≤◌, ◌*◌, ◌^◌, length};
ghost use Rattle.absstate.specs.Signatures.{value_margins, margins_of};

use crate::abstract_state::AbstractValue;
use interval::{Bounds, Domain};

/// How many words values leave out, together: those below them, and all of them. A value that is known exactly and is
/// no number leaves out every word on both sides.
#[derive(Clone, Copy, Debug, PartialEq, Eq)]
pub(crate) struct Margins {
    pub(crate) below: u128,
    pub(crate) total: u128,
}

/// How many words there are.
const WORDS: u128 = 1 << 64;

/// Returns how many words a value leaves out.
fn value_margins<D: Domain>(value: AbstractValue<D>) -> Margins
    ensures value { result ≡ value_margins D.ops value }
    ensures below { result.below ≤ 2 ^ 64 }
    ensures total { result.total ≤ 2 ^ 65 }
{
    match value {
        AbstractValue::Nothing => Margins { below: 0, total: 0 },
        AbstractValue::Scalar(number) => {
            let Bounds { lo, hi } = number.bounds();
            Margins {
                below: u128::from(lo),
                total: u128::from(lo) + u128::from(u64::MAX - hi),
            }
        }
        _ => Margins {
            below: WORDS,
            total: 2 * WORDS,
        },
    }
}

/// Returns how many words values leave out.
pub(crate) fn margins_of<D: Domain>(values: &[AbstractValue<D>]) -> Margins
    requires { length values.now ≤ 75 }
    ensures value { result ≡ margins_of D.ops values.now }
    ensures below { result.below ≤ length values.now * 2 ^ 64 }
    ensures total { result.total ≤ length values.now * 2 ^ 65 }
{
    match values {
        [] => Margins { below: 0, total: 0 },
        [first, values @ ..] => {
            let margins = value_margins(*first);
            let rest = margins_of(values);
            Margins {
                below: margins.below + rest.below,
                total: margins.total + rest.total,
            }
        }
    }
}

impl Margins {
    ghost use Rattle.std.specs.Prelude.{◌≡◌};
    ghost use Rattle.absstate.specs.Signatures.{above_of, margins_within};

    /// Returns how many words are left out above.
    pub(crate) fn above(self) -> u128
        ensures { result ≡ above_of self }
    {
        self.total.saturating_sub(self.below)
    }

    /// Returns whether as many words or more are left out by other ones, on either side.
    pub(crate) fn lie_within(self, other: Margins) -> bool
        ensures { result ≡ margins_within self other }
    {
        self.below <= other.below && self.above() <= other.above()
    }
}
