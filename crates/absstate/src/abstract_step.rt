//! The abstract step. Its tests come in the order of the tagged machine.

ghost use Rattle.std.specs.Prelude.{◌≡◌, ◌≤◌};
ghost use Rattle.std.specs.Option.{ok_or};
ghost use Rattle.insn.specs.Encoding.{Fits};
ghost use Rattle.absstate.specs.AbstractSteps.{abstract_register_value, operand_abstract, single_of, moved_by, abstract_alu_result, abstract_unary_result, abstract_register_write, alu_step, unary_step, exit_step, abstract_step};
ghost use Rattle.absstate.specs.Changes.{answer_of};
ghost use Rattle.absstate.specs.declared.abstract_state.AbsState.{AbsState};
ghost use Rattle.semantics.specs.declared.reason.Reason.TheVariants.{PointerArithmetic};

use crate::abstract_state::{AbsState, AbstractValue, Anchor};
use crate::branching::branch_step;
use crate::calling::call_step;
use crate::change::{Change, Transition};
use crate::loading::{load_signed_step, load_step};
use crate::storing::store_step;
use crate::sums::{Operator, data_sum};
use insn::{AluOp, Insn, Operand, Reg, UnaryOp, Width, imm_word};
use interval::{Bounds, Domain};
use semantics::{Comparison, Reason, moved_place, writable};
use std::alloc::AllocError;

/// The states after an accepted step.
#[derive(Debug, PartialEq, Eq)]
pub enum Next<D> {
    /// The one state that follows.
    On(AbsState<D>),
    /// The states of the two branches of a conditional jump, `None` for an infeasible branch.
    Fork {
        not_taken: Option<AbsState<D>>,
        taken: Option<AbsState<D>>,
    },
    /// The end of the program.
    Exit,
}

impl<D: Copy> Clone for Next<D> {
    ghost is_clone = { λ s r. r ≡ s };

    ghost is_infallible = { λ _. Unit {0} };

    fn clone(&self) -> Result<Self, AllocError> {
        Ok(*self)
    }
}

impl<D: Copy> Copy for Next<D> {}

/// Returns the value of a register that is read.
pub(crate) fn read<D: Copy>(state: &AbsState<D>, reg: Reg) -> Result<AbstractValue<D>, Reason>
    ensures { result ≡ abstract_register_value state.now reg }
{
    match state.values[reg.number() as usize] {
        AbstractValue::Nothing => Err(Reason::UninitRegister),
        known => Ok(known),
    }
}

/// Returns the value of an operand of an instruction of a width.
pub(crate) fn operand_abstract<D: Domain>(
    state: &AbsState<D>,
    width: Width,
    operand: Operand,
) -> Result<AbstractValue<D>, Reason>
    ensures { result ≡ operand_abstract D.ops width state.now operand }
{
    match operand {
        Operand::Reg(reg) => read(state, reg),
        Operand::Imm(n) => Ok(AbstractValue::Scalar(D::exact(imm_word(width, n)))),
    }
}

/// Returns the one number within the bounds of an abstract number, if there is one alone.
fn single_of<D: Domain>(number: D) -> Option<u64>
    ensures { result ≡ single_of D.ops number }
{
    let Bounds { lo, hi } = number.bounds();
    if lo == hi { Some(lo) } else { None }
}

/// Moves an offset by a single number.
/// See docs/DESIGN.md, "Offsets in 32 bits".
///
/// # Errors
/// `PointerArithmetic` where the number isn't a single one, where the operator moves no pointer, or where it would lead
/// too far.
fn moved(op: AluOp, width: Width, offset: i32, by: Option<u64>) -> Result<i32, Reason>
    ensures { result ≡ ok_or (moved_by op width offset by) PointerArithmetic }
{
    let by = by.ok_or(Reason::PointerArithmetic)?;
    let place = moved_place(op, width, i64::from(offset), by).ok_or(Reason::PointerArithmetic)?;
    Ok(place as i32)
}

/// See docs/DECISIONS.md, "Refusals are stuck runs".
fn alu_result<D: Domain>(
    state: &AbsState<D>,
    op: AluOp,
    width: Width,
    a: AbstractValue<D>,
    b: AbstractValue<D>,
) -> Result<AbstractValue<D>, Reason>
    ensures { result ≡ abstract_alu_result D.ops state.now op width a b }
{
    match (a, b) {
        (AbstractValue::Scalar(a), AbstractValue::Scalar(b)) => Ok(AbstractValue::Scalar(D::alu(
            op, width, a, b,
        ))),
        (AbstractValue::Data { anchor, offset }, AbstractValue::Scalar(b)) => {
            let operator = Operator { op, width };
            data_sum(state, anchor, operator, offset, b.bounds()).ok_or(Reason::PointerArithmetic)
        }
        (AbstractValue::Stack(offset), AbstractValue::Scalar(b)) => {
            let offset = moved(op, width, offset, single_of(b))?;
            Ok(AbstractValue::Stack(offset))
        }
        _ => Err(Reason::PointerArithmetic),
    }
}

fn unary_result<D: Domain>(op: UnaryOp, a: AbstractValue<D>) -> Result<AbstractValue<D>, Reason>
    ensures { result ≡ abstract_unary_result D.ops op a }
{
    match (op, a) {
        (UnaryOp::Mov(Width::W64), known) => Ok(known),
        (op, AbstractValue::Scalar(a)) => Ok(AbstractValue::Scalar(D::unary(op, a))),
        _ => Err(Reason::PointerArithmetic),
    }
}

/// Returns the change that writes a register, if it may be written and there is a result.
pub(crate) fn written<D: Copy>(
    dst: Reg,
    known: Result<AbstractValue<D>, Reason>,
) -> Result<Transition<D>, Reason>
    ensures { (a : AbsState D) → answer_of a result ≡ abstract_register_write a dst known }
{
    writable(dst)?;
    Ok(Transition::On(Change::Register {
        reg: dst,
        known: known?,
    }))
}

fn alu_step<D: Domain>(
    state: &AbsState<D>,
    width: Width,
    op: AluOp,
    dst: Reg,
    operand: Operand,
) -> Result<Transition<D>, Reason>
    ensures { answer_of state.now result ≡ alu_step D.ops state.now width op dst operand }
{
    let a = read(state, dst)?;
    let b = operand_abstract(state, width, operand)?;
    written(dst, alu_result(state, op, width, a, b))
}

fn unary_step<D: Domain>(
    state: &AbsState<D>,
    width: Width,
    op: UnaryOp,
    dst: Reg,
    operand: Operand,
) -> Result<Transition<D>, Reason>
    ensures { answer_of state.now result ≡ unary_step D.ops state.now width op dst operand }
{
    let a = operand_abstract(state, width, operand)?;
    written(dst, unary_result(op, a))
}

fn exit_step<D: Copy>(state: &AbsState<D>) -> Result<Transition<D>, Reason>
    ensures { answer_of state.now result ≡ exit_step state.now }
{
    match read(state, Reg::R0)? {
        AbstractValue::Scalar(_) => Ok(Transition::Exit),
        _ => Err(Reason::ExitNotScalar),
    }
}

/// Returns the transition of an instruction, by its form.
fn transition_of<D: Domain>(state: &AbsState<D>, insn: Insn) -> Result<Transition<D>, Reason>
    ensures step { answer_of state.now result ≡ abstract_step D.ops state.now insn }
    ensures fits { Fits insn }
{
    match insn {
        Insn::Alu {
            width,
            op,
            dst,
            operand,
        } => alu_step(state, width, op, dst, operand),
        Insn::Mov {
            width,
            dst,
            operand,
        } => unary_step(state, width, UnaryOp::Mov(width), dst, operand),
        Insn::Neg { width, dst } => {
            unary_step(state, width, UnaryOp::Neg(width), dst, Operand::Reg(dst))
        }
        Insn::SignExtend {
            extension,
            dst,
            src,
        } => unary_step(
            state,
            extension.target(),
            UnaryOp::SignExtend(extension),
            dst,
            Operand::Reg(src),
        ),
        Insn::Swap { op, size, dst } => {
            let operand = Operand::Reg(dst);
            unary_step(state, Width::W64, UnaryOp::Swap(op, size), dst, operand)
        }
        Insn::Jump { .. } | Insn::LongJump { .. } => Ok(Transition::On(Change::Nothing)),
        Insn::JumpIf {
            width,
            condition,
            dst,
            operand,
            ..
        } => {
            let comparison = Comparison {
                width,
                condition,
                dst,
                operand,
            };
            branch_step(state, comparison)
        }
        Insn::Load {
            size,
            dst,
            base,
            offset,
        } => load_step(state, size, dst, base, offset),
        Insn::LoadSigned {
            size,
            dst,
            base,
            offset,
        } => load_signed_step(state, size, dst, base, offset),
        Insn::Store {
            size,
            base,
            operand,
            offset,
        } => store_step(state, size, base, operand, offset),
        Insn::LoadImm { dst, value } => { written(dst, Ok(AbstractValue::Scalar(D::exact(value)))) }
        Insn::Call { helper } => call_step(state, helper),
        Insn::Exit => exit_step(state),
    }
}

impl<D: Domain> AbsState<D> {
    ghost use Rattle.std.specs.Prelude.{◌≡◌, IfOk};
    ghost use Rattle.insn.specs.Encoding.{Fits};
    ghost use Rattle.absstate.specs.AbstractSteps.{abstract_step};
    ghost use Rattle.absstate.specs.Changes.{answer_of};
    ghost use Rattle.absstate.specs.Generality.{NarrowsBoth};
    ghost use Rattle.absstate.specs.MemberSteps.{StepsFollow};

    /// Returns the transition of an instruction's abstract step: the changes that it makes.
    ///
    /// # Errors
    /// As [`AbsState::step`].
    pub fn transition(&self, insn: &Insn) -> Result<Transition<D>, Reason>
        ensures step { answer_of self.now result ≡ abstract_step D.ops self.now insn.now }
        ensures fits { Fits insn.now }
    {
        transition_of(self, *insn)
    }

    /// Makes the abstract step of an instruction.
    ///
    /// Where it is accepted, the machine's step from each member of the state with a datagram of at most 65,507 bytes
    /// isn't stuck: it exits where the answer is `Exit`, and else leads to a member of the state after it, of the
    /// branch that it takes.
    ///
    /// # Errors
    /// The reason for which a step from a member of the state could be stuck.
    pub fn step(&self, insn: &Insn) -> Result<Next<D>, Reason>
        ensures step { result ≡ abstract_step D.ops self.now insn.now }
        ensures members { IfOk result (λ next. StepsFollow D.Member self.now insn.now next) }
        ensures narrows { NarrowsBoth self.now }
    {
        let transition = transition_of(self, *insn)?;
        Ok(self.after(transition))
    }
}
