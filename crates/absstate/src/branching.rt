//! The abstract step of a conditional jump.

ghost use Rattle.std.specs.Prelude.{◌≡◌};
ghost use Rattle.semantics.specs.LooseRuns.{data_bound, converse};
ghost use Rattle.std.specs.Option.{option_map};
ghost use Rattle.absstate.specs.Changes.{state_after_change, answer_of};
ghost use Rattle.absstate.specs.declared.abstract_state.AbsState.{AbsState};
ghost use Rattle.absstate.specs.AbstractSteps.{with_operands, state_with_operands, order_implication, places_compared, fork_of_places, fork, branch_step};

use crate::abstract_state::{AbsState, AbstractValue, Anchor};
use crate::abstract_step::{operand_abstract, read};
use crate::change::{Change, Transition};
use insn::{Condition, Operand, Reg, Width};
use interval::{Domain, Refined, Test};
use semantics::{Comparison, Reason};

/// Returns the change that narrows the operands of a passed test. An imm isn't changed, and neither is a register that
/// is compared with itself.
fn with_operands<D: Copy>(dst: Reg, operand: Operand, left: Refined<D>) -> Change<D>
    ensures { (state : AbsState D) → state_after_change state result
        ≡ with_operands state dst operand (left.a, left.b) }
{
    match operand {
        Operand::Imm(_) => Change::Register {
            reg: dst,
            known: AbstractValue::Scalar(left.a),
        },
        Operand::Reg(src) if src.number() == dst.number() => Change::Nothing,
        Operand::Reg(src) => Change::Numbers { dst, src, left },
    }
}

/// Returns the change after a test on two numbers that was passed, `None` where no two of them pass it. `left` is what
/// the test leaves of them.
/// See docs/DECISIONS.md, "Branches that cannot be taken".
fn passed<D: Copy>(dst: Reg, operand: Operand, left: Option<Refined<D>>) -> Option<Change<D>>
    ensures { (state : AbsState D) → option_map (state_after_change state) result
        ≡ state_with_operands state dst operand (option_map (λ l. (l.a, l.b)) left) }
{
    Some(with_operands(dst, operand, left?))
}

/// The least length of the datagram that each branch of a jump implies, if it implies one.
#[derive(Clone, Copy, Debug, PartialEq, Eq)]
pub(crate) struct Implied {
    pub(crate) not_taken: Option<i64>,
    pub(crate) taken: Option<i64>,
}

/// Returns what the branches of `offset CONDITION End` imply.
/// See docs/DESIGN.md, "A bound or none".
fn data_implies(condition: Condition, offset: i32) -> Result<Implied, Reason>
    ensures { result ≡ order_implication condition (data_bound condition offset) }
{
    let at_most = Some(i64::from(offset));
    let below = Some(i64::from(offset) + 1);
    match condition {
        Condition::Gt => Ok(Implied {
            not_taken: at_most,
            taken: None,
        }),
        Condition::Ge => Ok(Implied {
            not_taken: below,
            taken: None,
        }),
        Condition::Lt => Ok(Implied {
            not_taken: None,
            taken: below,
        }),
        Condition::Le => Ok(Implied {
            not_taken: None,
            taken: at_most,
        }),
        _ => Err(Reason::PointerCompare),
    }
}

/// Returns what the branches of `End CONDITION offset` imply.
fn end_implies(condition: Condition, offset: i32) -> Result<Implied, Reason>
    ensures { result ≡ order_implication condition (data_bound (converse condition) offset) }
{
    match condition {
        Condition::Gt => data_implies(Condition::Lt, offset),
        Condition::Ge => data_implies(Condition::Le, offset),
        Condition::Lt => data_implies(Condition::Gt, offset),
        Condition::Le => data_implies(Condition::Ge, offset),
        _ => Err(Reason::PointerCompare),
    }
}

/// Returns what the branches of a comparison of pointers imply of an anchor.
///
/// # Errors
/// `PointerCompare` unless a place of the datagram is compared with its end, on 64 bits and by an unsigned order.
fn places_compared<D: Copy>(
    width: Width,
    condition: Condition,
    a: AbstractValue<D>,
    b: AbstractValue<D>,
) -> Result<(Anchor, Implied), Reason>
    ensures { result ≡ places_compared width condition a b }
{
    match (width, a, b) {
        (Width::W64, AbstractValue::Data { anchor, offset }, AbstractValue::End) => {
            Ok((anchor, data_implies(condition, offset)?))
        }
        (Width::W64, AbstractValue::End, AbstractValue::Data { anchor, offset }) => {
            Ok((anchor, end_implies(condition, offset)?))
        }
        _ => Err(Reason::PointerCompare),
    }
}

/// See docs/DECISIONS.md, "Both branches of a bounds check".
fn places_fork<D: Copy>(
    width: Width,
    condition: Condition,
    a: AbstractValue<D>,
    b: AbstractValue<D>,
) -> Result<Transition<D>, Reason>
    ensures { (state : AbsState D) → answer_of state result ≡ fork_of_places state width condition a b }
{
    let (anchor, implied) = places_compared(width, condition, a, b)?;
    Ok(Transition::Fork {
        not_taken: Some(Change::Least {
            anchor,
            least: implied.not_taken,
        }),
        taken: Some(Change::Least {
            anchor,
            least: implied.taken,
        }),
    })
}

fn fork<D: Domain>(
    comparison: Comparison,
    a: AbstractValue<D>,
    b: AbstractValue<D>,
) -> Result<Transition<D>, Reason>
    ensures { (state : AbsState D) → answer_of state result
        ≡ fork D.ops state comparison.width comparison.condition comparison.dst comparison.operand a b }
{
    let Comparison {
        width,
        condition,
        dst,
        operand,
    } = comparison;
    match (a, b) {
        (AbstractValue::Scalar(a), AbstractValue::Scalar(b)) => Ok(Transition::Fork {
            not_taken: passed(dst, operand, D::refine(Test::Fails(condition), width, a, b)),
            taken: passed(dst, operand, D::refine(Test::Holds(condition), width, a, b)),
        }),
        _ => places_fork(width, condition, a, b),
    }
}

/// Returns the transition of a conditional jump.
pub(crate) fn branch_step<D: Domain>(
    state: &AbsState<D>,
    comparison: Comparison,
) -> Result<Transition<D>, Reason>
    ensures { answer_of state.now result
        ≡ branch_step D.ops state.now comparison.width comparison.condition comparison.dst comparison.operand }
{
    let a = read(state, comparison.dst)?;
    let b = operand_abstract(state, comparison.width, comparison.operand)?;
    fork(comparison, a, b)
}
