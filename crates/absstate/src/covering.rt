//! Whether one abstract state covers another: then each machine state that the other one describes it describes too.

ghost use Rattle.std.specs.Prelude.{◌≡◌, ◌<◌, ◌≤◌, true, false, length, int_le, slice_index, slice_index_or, EachIndex, IfNone, IfSome};
ghost use Rattle.absstate.specs.declared.abstract_state.TheConstants.{VALUES};
ghost use Rattle.absstate.specs.declared.abstract_state.AbsState.{AbsState};
ghost use Rattle.absstate.specs.declared.abstract_state.AbstractValue.TheVariants.{Nothing};
ghost use Rattle.absstate.specs.Covers.{same_int, same_anchor, covers_places, covers_anchor, covers_value, covers_values, have_one_anchor, is_place, share_alike, covers_marks, covers_memory, covers};

use crate::abstract_state::{AbsState, AbstractValue, Anchor, VALUES};
use interval::Domain;

fn same_offset(a: i32, b: i32) -> bool
    ensures { result ≡ same_int a b }
{
    a <= b && b <= a
}

/// Returns whether two anchors of a state are one.
fn same_anchor(a: Anchor, b: Anchor) -> bool
    ensures { result ≡ same_anchor a b }
{
    match (a, b) {
        (Anchor::First, Anchor::First) => true,
        (Anchor::Variable { id, .. }, Anchor::Variable { id: other, .. }) => id == other,
        _ => false,
    }
}

/// Returns whether an anchor has each place of another one.
fn covers_places(a: Anchor, b: Anchor) -> bool
    ensures { result ≡ covers_places a b }
{
    let (a_low, b_low) = (a.low(), b.low());
    let (a_high, b_high) = (a.high(), b.high());
    a_low <= b_low && b_high <= a_high
}

/// Returns whether an anchor has each place of another one, and no more is proved of it. `proved` and `other_proved`
/// are the proved lengths of their states.
fn covers_anchor<D: Copy>(a: Anchor, b: Anchor, proved: i64, other_proved: i64) -> bool
    ensures { (s t : AbsState D) → s.proved ≡ proved → t.proved ≡ other_proved → result ≡ covers_anchor s t a b }
{
    covers_places(a, b) && a.proved_from(proved) <= b.proved_from(other_proved)
}

/// Returns whether no more is known of a value of a state than of one of another state, whose proved lengths are these.
pub(crate) fn covers_value<D: Domain>(
    a: AbstractValue<D>,
    b: AbstractValue<D>,
    proved: i64,
    other_proved: i64,
) -> bool
    ensures { (s t : AbsState D) → s.proved ≡ proved → t.proved ≡ other_proved → result ≡ covers_value D.ops s t a b }
{
    match (a, b) {
        (AbstractValue::Nothing, _) => true,
        (AbstractValue::Scalar(a), AbstractValue::Scalar(b)) => a.covers(b),
        (AbstractValue::Ctx, AbstractValue::Ctx) => true,
        (AbstractValue::Stack(a), AbstractValue::Stack(b)) => same_offset(a, b),
        (
            AbstractValue::Data { anchor, offset },
            AbstractValue::Data {
                anchor: b,
                offset: k,
            },
        ) => same_offset(offset, k) && covers_anchor::<D>(anchor, b, proved, other_proved),
        (AbstractValue::End, AbstractValue::End) => true,
        _ => false,
    }
}

/// Returns whether no more is known of the values of a state than of those of another state, whose proved lengths are
/// these.
fn covers_values<D: Domain>(
    values: &[AbstractValue<D>],
    others: &[AbstractValue<D>],
    proved: i64,
    other_proved: i64,
) -> bool
    ensures { (s t : AbsState D) → s.proved ≡ proved → t.proved ≡ other_proved
        → result ≡ covers_values D.ops s t values.now others.now }
{
    match values {
        [] => true,
        [a, values @ ..] => match others {
            [] => false,
            [b, others @ ..] => {
                covers_value(*a, *b, proved, other_proved)
                    && covers_values(values, others, proved, other_proved)
            }
        },
    }
}

/// Returns whether two values of a state are places at one anchor.
pub(crate) fn shared<D: Copy>(a: AbstractValue<D>, b: AbstractValue<D>) -> bool
    ensures { result ≡ have_one_anchor a b }
{
    match (a, b) {
        (AbstractValue::Data { anchor, .. }, AbstractValue::Data { anchor: other, .. }) => {
            same_anchor(anchor, other)
        }
        _ => false,
    }
}

/// Returns whether a value is a place of the datagram.
pub(crate) fn is_place<D: Copy>(value: AbstractValue<D>) -> bool
    ensures { result ≡ is_place value }
{
    match value {
        AbstractValue::Data { .. } => true,
        _ => false,
    }
}

/// Returns where `firsts` lists the first value that shares its anchor with `value`.
fn met_at<D: Copy>(
    values: &[AbstractValue<D>],
    firsts: &[usize],
    value: AbstractValue<D>,
) -> Option<usize>
    requires { EachIndex firsts.now (λ k. slice_index firsts.now k < length values.now) }
    ensures none { IfNone result (EachIndex firsts.now (λ k. have_one_anchor
        (slice_index_or values.now (slice_index firsts.now k) Nothing) value ≡ false)) }
    ensures found { IfSome result (λ k. (k < length firsts.now) × (have_one_anchor
        (slice_index_or values.now (slice_index firsts.now k) Nothing) value ≡ true)) }
{
    for (k, first) in firsts.iter().enumerate() {
        if shared(values[*first], value) {
            return Some(k);
        }
    }
    None
}

/// Returns the indexes of two of `values` at one anchor, while those of `others` at their places
/// aren't, the lower one first.
pub(crate) fn first_unlinked<D: Copy>(
    values: &[AbstractValue<D>],
    others: &[AbstractValue<D>],
) -> Option<(usize, usize)>
    requires few { length values.now ≤ VALUES }
    requires paired { length others.now ≡ length values.now }
    ensures none { IfNone result (share_alike values.now others.now ≡ true) }
    ensures found { IfSome result (λ p. (p.0 < p.1) × (p.1 < length values.now)
        × (have_one_anchor (slice_index_or values.now p.0 Nothing)
        (slice_index_or values.now p.1 Nothing) ≡ true)) }
    ensures some { IfSome result (λ p. share_alike values.now others.now ≡ false) }
{
    let mut firsts = [0; VALUES];
    let mut met = 0;
    for i in 0..values.len() {
        let value = values[i];
        if !is_place(value) {
            continue;
        }
        match met_at(values, &firsts[..met], value) {
            None => {
                firsts[met] = i;
                met += 1;
            }
            Some(k) => {
                let first = firsts[k];
                if !shared(others[first], others[i]) {
                    return Some((first, i));
                }
            }
        }
    }
    None
}

/// Returns whether values at one anchor stand for values at one anchor.
fn share_alike<D: Copy>(values: &[AbstractValue<D>], others: &[AbstractValue<D>]) -> bool
    requires few { length values.now ≤ VALUES }
    requires paired { length others.now ≡ length values.now }
    ensures { result ≡ share_alike values.now others.now }
{
    first_unlinked(values, others).is_none()
}

/// Returns whether a proved length is no greater than another one.
pub(crate) fn proves_no_more(proved: i64, other_proved: i64) -> bool
    ensures { result ≡ int_le proved other_proved }
{
    proved <= other_proved
}

/// Returns whether each mark of the first list is one of the second.
pub(crate) fn covers_marks(marks: &[bool], others: &[bool]) -> bool
    ensures { result ≡ covers_marks marks.now others.now }
{
    match marks {
        [] => true,
        [a, marks @ ..] => match others {
            [] => !*a && covers_marks(marks, others),
            [b, others @ ..] => (!*a || *b) && covers_marks(marks, others),
        },
    }
}

/// Returns whether no more is proved of the datagram in a state than in the other state, and no more bytes of the stack
/// are set.
fn covers_memory<D: Copy>(state: &AbsState<D>, other: &AbsState<D>) -> bool
    ensures { result ≡ covers_memory state.now other.now }
{
    state.proved <= other.proved && state.marks.covers(&other.marks)
}

/// Returns whether no more is known in a state than in the other state.
fn covers_state<D: Domain>(state: &AbsState<D>, other: &AbsState<D>) -> bool
    ensures { result ≡ covers D.ops state.now other.now }
{
    let values = covers_values(&state.values, &other.values, state.proved, other.proved)
        && share_alike(&state.values, &other.values);
    values && covers_memory(state, other)
}

/// Returns the values of the registers and the groups.
pub(crate) fn values_of<D: Copy>(state: &AbsState<D>) -> &[AbstractValue<D>]
    ensures values { result.now ≡ state.now.values }
    ensures count { length state.now.values ≡ 75 }
{
    &state.values
}

impl<D: Domain> AbsState<D> {
    ghost use Rattle.std.specs.Prelude.{◌≡◌, true};
    ghost use Rattle.semantics.specs.Machine.{State};
    ghost use Rattle.absstate.specs.Covers.{covers};
    ghost use Rattle.absstate.specs.Generality.{CoversWider};
    ghost use Rattle.absstate.specs.Membership.{Loose, IsMember};

    /// Returns whether this state covers another: each member of the other one is a member of it.
    pub fn covers(&self, other: &AbsState<D>) -> bool
        ensures value { result ≡ covers D.ops self.now other.now }
        ensures members { result ≡ true → (s : State) → IsMember D.Member Loose other.now s
            → IsMember D.Member Loose self.now s }
        ensures wider { CoversWider D.ops self.now other.now }
    {
        let _values = values_of(self);
        let _marks = self.marks.cells();
        covers_state(self, other)
    }
}
