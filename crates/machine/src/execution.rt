//! The tagged run, step by step. Memory is written in place.

ghost use Rattle.std.specs.Prelude.{◌≡◌, ℕ, ◌+◌, ◌≤◌, ◌<◌, List, IfOk, IfSome};
ghost use Rattle.std.specs.Prelude.{length as count};
ghost use Rattle.insn.specs.Encoding.{slot_count, slots_of};
ghost use Rattle.insn.specs.declared.decoding.TheConstants.{MAX_SLOTS};
ghost use Rattle.semantics.specs.Effects.{effect, StaysInside};
ghost use Rattle.semantics.specs.Machine.{first_registers, no_plan};
ghost use Rattle.semantics.specs.Runs.{Goes, step_by_effect, registers_after_call, answered_at, plan_answer};
ghost use Rattle.semantics.specs.Runs.{with_window, with_destination};
ghost use Rattle.semantics.specs.Slots.{fetch, IsAt};
ghost use Rattle.semantics.specs.declared.fetching.Fetched.TheVariants.{Begins};
ghost use Rattle.semantics.specs.declared.limits.TheConstants.{STACK_BYTES, HEADROOM, MAX_DATAGRAM, TAILROOM};
ghost use Rattle.semantics.specs.Calls.{record_bytes};
ghost use Rattle.semantics.specs.Views.{memory_with};
ghost use Rattle.machine.specs.Contexts.{context_of};
ghost use Rattle.machine.specs.Execution.{state_at, MakesStep, GoesAhead, GoesStraight, IfGoesTo, IfEnds};
ghost use Rattle.machine.specs.Execution.{HasWindowInside, IsWholeRun, traced_environment};

use crate::context::law_context;
use crate::environment::TraceInputs;
use crate::outcome::Stuck;
use crate::sink::Sink;
use insn::Insn;
use semantics::{
    Effect, Fetched, Helpers, Memory, Plan, Position, Question, RECORD_BYTES, Reason, RecordForm,
    Registers, Room, StackMemory, Value, WIDE_RECORD_BYTES, effect_of, fetch, last, put_bytes,
    put_pointer, store, target,
};

/// The result of one step.
#[derive(Clone, Copy, Debug, PartialEq, Eq)]
pub enum StepResult {
    /// The run continues at a position.
    Goes(Position),
    /// The run exits with a verdict.
    Exits(u64),
    /// The step is stuck.
    Sticks(Reason),
}

/// The end of a run that exits: its verdict, and the number of its steps.
#[derive(Clone, Copy, Debug, PartialEq, Eq)]
pub struct Exit {
    pub verdict: u64,
    pub steps: usize,
}

/// Returns the registers at the start: the context in `r1`, the end of the stack in `r10`.
fn first_registers() -> Registers
    ensures { result ≡ first_registers }
{
    let mut registers = [Value::Nothing; 11];
    registers[1] = Value::Ctx;
    registers[10] = Value::Stack(0);
    registers
}

/// States that a stack has 512 cells.
fn law_cells(stack: &StackMemory)
    ensures { count stack.now.cells ≡ STACK_BYTES }
{
    let _cells: &[Option<u8>] = &stack.cells;
}

/// Returns the effect of an instruction on registers and memory. What it stores, and a window, lie inside memory.
///
/// # Errors
/// The reason for which it is stuck.
#[tactic(auto, using(semantics::specs::laws::Effect::effect_inside))]
fn next_effect<H>(
    given: &TraceInputs<H>,
    stack: &StackMemory,
    bytes: &[u8],
    registers: &Registers,
    insn: &Insn,
) -> Result<Effect, Reason>
    requires surrounded { count bytes.now ≡ HEADROOM + given.now.length + TAILROOM }
    ensures effect { result ≡ effect (context_of given.now.context.now)
        (memory_with stack.now bytes.now given.now.length) registers.now insn.now }
    ensures inside { IfOk result (StaysInside (memory_with stack.now bytes.now given.now.length)) }
{
    law_context(given.context);
    law_cells(stack);
    let memory = Memory {
        stack,
        bytes,
        length: given.length,
    };
    effect_of(given.record, &memory, registers, insn)
}

/// Writes the answer of a call to `r0`. `r1` to `r5` are uninitialised afterwards.
fn answer(registers: &mut Registers, n: u64)
    ensures { registers.new ≡ registers_after_call registers.old n }
{
    registers[0] = Value::Scalar(n);
    registers[1] = Value::Nothing;
    registers[2] = Value::Nothing;
    registers[3] = Value::Nothing;
    registers[4] = Value::Nothing;
    registers[5] = Value::Nothing;
}

/// Writes the address record of an answer to the stack, if it is asked for.
/// See docs/DECISIONS.md, "The bytes of a helper that finds nothing".
fn put_record(stack: &mut StackMemory, out: Option<Room>, address: [u8; WIDE_RECORD_BYTES])
    requires { IfSome out (λ room. room.index + record_bytes room.form ≤ STACK_BYTES) }
    ensures { (bytes : List ℕ) (length : ℕ)
        → memory_with stack.new bytes length ≡ answered_at (memory_with stack.old bytes length) out address }
{
    if let Some(Room { index, form }) = out {
        let index = usize::from(index);
        match form {
            RecordForm::Narrow => {
                let (narrow, _) = address.split_at(RECORD_BYTES);
                put_bytes(stack, index, narrow);
            }
            RecordForm::Wide => put_bytes(stack, index, &address),
        }
    }
}

/// Asks a helper that looks up, and takes its answer.
fn ask<H: Helpers>(
    helpers: &H,
    stack: &mut StackMemory,
    registers: &mut Registers,
    question: Question,
    out: Option<Room>,
)
    requires { IfSome out (λ room. room.index + record_bytes room.form ≤ STACK_BYTES) }
    ensures registers { let answer = H.answers helpers.now question.helper question.number question.address in
        registers.new ≡ registers_after_call registers.old answer.0 }
    ensures stack { let answer = H.answers helpers.now question.helper question.number question.address in
        (bytes : List ℕ) (length : ℕ)
        → memory_with stack.new bytes length ≡ answered_at (memory_with stack.old bytes length) out answer.1 }
{
    let (n, address) = helpers.answer(question.helper, question.number, question.address);
    answer(registers, n);
    put_record(stack, out, address);
}

/// Writes the answer of a call that changes the plan: 0 if `value` is `Some`, else 1.
fn answer_change<T>(registers: &mut Registers, value: &Option<T>)
    ensures { registers.new ≡ registers_after_call registers.old (plan_answer value.now) }
{
    match value {
        Some(_) => answer(registers, 0),
        None => answer(registers, 1),
    }
}

/// Sets the window of the plan if `window` is `Some`, and writes the answer.
/// See docs/DECISIONS.md, "A refused window leaves the plan".
fn set_window(plan: &mut Plan, registers: &mut Registers, window: Option<(usize, usize)>)
    ensures plan { plan.new ≡ with_window plan.old window }
    ensures registers { registers.new ≡ registers_after_call registers.old (plan_answer window) }
{
    if let Some(window) = window {
        plan.window = Some(window);
    }
    answer_change(registers, &window);
}

/// Sets the destination of the plan if `destination` is `Some`, and writes the answer.
fn set_destination(
    plan: &mut Plan,
    registers: &mut Registers,
    destination: Option<[u8; WIDE_RECORD_BYTES]>,
)
    ensures plan { plan.new ≡ with_destination plan.old destination }
    ensures registers { registers.new ≡ registers_after_call registers.old (plan_answer destination) }
{
    if let Some(destination) = destination {
        plan.destination = Some(destination);
    }
    answer_change(registers, &destination);
}

/// What a run changes besides memory.
#[derive(Clone, Copy, Debug, PartialEq, Eq)]
struct TaggedState {
    /// The registers `r0` to `r10`.
    registers: Registers,
    /// What the run has planned so far.
    plan: Plan,
    /// Where the next instruction begins.
    at: Position,
}

/// Applies an effect to memory, registers and plan, after which the run continues with the next instruction.
fn apply<H: Helpers>(
    given: &TraceInputs<H>,
    stack: &mut StackMemory,
    bytes: &mut [u8],
    state: &mut TaggedState,
    effect: Effect,
)
    requires straight { GoesStraight effect }
    requires inside { StaysInside (memory_with stack.old bytes.old given.now.length) effect }
    requires planned { HasWindowInside given.now.length state.old.plan }
    ensures applied { (program : List Insn) (slot : ℕ) (i : Insn)
        → Goes (state_at (slot + slots_of i) state.new.registers (memory_with stack.new bytes.new given.now.length)
        state.new.plan)
        ≡ step_by_effect (traced_environment H.answers given.now) program
        (state_at slot state.old.registers (memory_with stack.old bytes.old given.now.length) state.old.plan) i
        (Ok effect) }
    ensures inside { HasWindowInside given.now.length state.new.plan }
{
    match effect {
        Effect::Write { dst, value } => state.registers[dst.number() as usize] = value,
        Effect::Store {
            at: location,
            size,
            value,
        } => store(stack, bytes, location, size, value),
        Effect::StorePointer { group, pointer } => put_pointer(stack, group, pointer),
        Effect::Ask { question, out } => {
            ask(given.helpers, stack, &mut state.registers, question, out)
        }
        Effect::SetWindow(window) => set_window(&mut state.plan, &mut state.registers, window),
        Effect::SetDestination(destination) => {
            set_destination(&mut state.plan, &mut state.registers, destination)
        }
        Effect::Jump { .. } | Effect::Pass | Effect::Exit { .. } => {}
    }
}

/// Makes the step of the instruction at the position of a state, which the caller moves on. A step that ends the run
/// changes neither memory nor plan.
fn execute_step<H: Helpers>(
    given: &TraceInputs<H>,
    stack: &mut StackMemory,
    bytes: &mut [u8],
    state: &mut TaggedState,
    insn: &Insn,
) -> StepResult
    requires here { state.old.at.index < count given.now.code.now }
    requires at { IsAt given.now.code.now state.old.at }
    requires insn { fetch given.now.code.now state.old.at.slot ≡ Begins insn.now }
    requires surrounded { count bytes.old ≡ HEADROOM + given.now.length + TAILROOM }
    requires inside { HasWindowInside given.now.length state.old.plan }
    ensures result { MakesStep (traced_environment H.answers given.now) given.now.code.now insn.now
        (state_at state.old.at.slot state.old.registers (memory_with stack.old bytes.old given.now.length)
        state.old.plan)
        (state_at state.old.at.slot state.new.registers (memory_with stack.new bytes.new given.now.length)
        state.new.plan)
        result }
    ensures ahead { IfGoesTo result (GoesAhead given.now.code.now state.old.at) }
    ensures inside { HasWindowInside given.now.length state.new.plan }
    ensures kept { IfEnds result
        (memory_with stack.new bytes.new given.now.length ≡ memory_with stack.old bytes.old given.now.length) }
    ensures planned { IfEnds result (state.new.plan ≡ state.old.plan) }
{
    let at = state.at;
    match next_effect(given, stack, bytes, &state.registers, insn) {
        Ok(Effect::Jump { offset }) => match target(given.code, at, offset) {
            Ok(to) => StepResult::Goes(to),
            Err(reason) => StepResult::Sticks(reason),
        },
        Ok(Effect::Exit { verdict }) => StepResult::Exits(verdict),
        Ok(effect) => {
            apply(given, stack, bytes, state, effect);
            StepResult::Goes(at.next(given.code))
        }
        Err(reason) => StepResult::Sticks(reason),
    }
}

/// Runs the code from the state at the start to its end, and reports each step to the sink.
///
/// # Errors
/// The step that is stuck.
fn execute_from<H: Helpers, S: Sink>(
    given: &TraceInputs<H>,
    stack: &mut StackMemory,
    bytes: &mut [u8],
    state: &mut TaggedState,
    sink: &mut S,
) -> Result<Exit, Stuck>
    requires surrounded { count bytes.old ≡ HEADROOM + given.now.length + TAILROOM }
    requires registers { state.old.registers ≡ first_registers }
    requires planless { state.old.plan ≡ no_plan }
    requires start { state.old.at ≡ record { slot = 0; index = 0 } }
    ensures run { IsWholeRun S.Logs (traced_environment H.answers given.now) given.now.code.now
        (memory_with stack.old bytes.old given.now.length) (memory_with stack.new bytes.new given.now.length)
        state.new.plan (S.log sink.old) (S.log sink.new) result }
    ensures inside { HasWindowInside given.now.length state.new.plan }
{
    let mut steps = 0;
    loop {
        let slot = state.at.slot;
        let insn = match fetch(given.code, state.at) {
            Fetched::Begins(insn) => insn,
            Fetched::Inside => {
                let reason = Reason::JumpIntoWide;
                return Err(Stuck { reason, slot });
            }
            Fetched::Past => {
                let (reason, slot) = (Reason::FallsOffEnd, last(given.code).slot);
                return Err(Stuck { reason, slot });
            }
        };
        sink.step(slot, &insn);
        steps += 1;
        match execute_step(given, stack, bytes, state, &insn) {
            StepResult::Goes(to) => state.at = to,
            StepResult::Exits(verdict) => return Ok(Exit { verdict, steps }),
            StepResult::Sticks(reason) => return Err(Stuck { reason, slot }),
        }
    }
}

/// Runs the code from the first registers to its end, and reports each step to the sink. Its memory is the stack and
/// `bytes`, a datagram between headroom and tailroom, which it writes in place; it begins without a plan.
///
/// # Errors
/// The step that is stuck.
pub fn execute<H: Helpers, S: Sink>(
    given: &TraceInputs<H>,
    stack: &mut StackMemory,
    bytes: &mut [u8],
    plan: &mut Plan,
    sink: &mut S,
) -> Result<Exit, Stuck>
    requires surrounded { count bytes.old ≡ HEADROOM + given.now.length + TAILROOM }
    requires planless { plan.old ≡ no_plan }
    ensures run { IsWholeRun S.Logs (traced_environment H.answers given.now) given.now.code.now
        (memory_with stack.old bytes.old given.now.length) (memory_with stack.new bytes.new given.now.length) plan.new
        (S.log sink.old) (S.log sink.new) result }
    ensures inside { HasWindowInside given.now.length plan.new }
{
    let mut state = TaggedState {
        registers: first_registers(),
        plan: *plan,
        at: Position { slot: 0, index: 0 },
    };
    let end = execute_from(given, stack, bytes, &mut state, sink);
    *plan = state.plan;
    end
}
