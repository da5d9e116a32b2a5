//! What work weighs. A weight of 1 is about a nanosecond of a processor, whatever the program is.
//! See docs/DECISIONS.md, "What work weighs".

ghost use Rattle.std.specs.Prelude.{◌≡◌};

/// What a unit of work weighs beside its search: the signature of its state, and a step.
pub(crate) const UNIT: usize = 1_024;

/// What it weighs to look at the part of a kept state in which it last differed from another one. To look at its
/// signature weighs 1.
pub(crate) const PART: usize = 7;

/// What it weighs to compare a kept state with another one as a whole.
pub(crate) const WHOLE: usize = 1_016;

/// What a kept state weighs in a search, at most.
pub(crate) const KEPT_STATE: usize = 1 + PART + WHOLE;

/// The weight at which the search of a unit of work is left, and continues in the next one.
pub(crate) const SEARCH: usize = 8_192;

/// The most that a unit of work weighs.
pub(crate) const HEAVIEST: usize = UNIT + SEARCH + KEPT_STATE;

/// States the weights.
pub fn law_weights()
    ensures unit { UNIT ≡ 1024 }
    ensures kept_state { KEPT_STATE ≡ 1024 }
    ensures heaviest { HEAVIEST ≡ 10240 }
{}
