//! Rows of abstract states over intervals: `state`, `step` and `walk`.

use crate::line::ProgramRow;
use crate::program::code_of;
use absstate::{AbsState, AbstractValue, Anchor, Next};
use anyhow::{Context, Result, bail};
use explaining::Known;
use insn::Insn;
use interval::Interval;
use std::alloc::{AllocError, Global};

/// What is known at a slot of a path.
type State = AbsState<Interval>;

/// The bytes of the stack, and of a group of it.
const STACK: usize = 512;

const GROUP: usize = 8;

/// The index of the first group's value among those of a state, which begin with the registers.
const FIRST_GROUP: usize = 11;

/// The parts of a state that a row may name: the registers, the pointers that the stack holds, its bytes that are set,
/// and the length of the datagram that is proved.
static PARTS: [&str; 14] = [
    "r0", "r1", "r2", "r3", "r4", "r5", "r6", "r7", "r8", "r9", "r10", "pointers", "set", "proved",
];

/// Returns the text of a place of the stack by its index from the first byte.
fn place_text(alloc: Global, index: usize) -> Result<String, AllocError> {
    let below = STACK.saturating_sub(index);
    if below == 0 {
        "0".to_string(alloc)
    } else {
        format!(in alloc; "-{below}")
    }
}

/// Returns the text of what is known of a value. That of a place of the datagram at a variable offset has the number of
/// its anchor, and how many bytes are proved from there on.
fn value_text(alloc: Global, value: AbstractValue<Interval>) -> Result<String, AllocError> {
    let AbstractValue::Data {
        anchor: Anchor::Variable { id, proved, .. },
        ..
    } = value
    else {
        let known = Known(value);
        return format!(in alloc; "{known}");
    };
    let known = Known(value).to_string(alloc)?;
    let place = known
        .split_once(',')
        .map_or(known.as_str(), |(place, _)| place);
    format!(in alloc; "{place} id {id} proved {proved}")
}

/// Returns the text of the pointers that the groups of the stack hold.
fn pointers_text(alloc: Global, state: &State) -> Result<String, AllocError> {
    let mut text = String::new(alloc);
    for (i, value) in state.values.iter().enumerate() {
        if i < FIRST_GROUP || *value == AbstractValue::Nothing {
            continue;
        }
        if !text.is_empty() {
            text.push_str(", ")?;
        }
        let index = i.saturating_sub(FIRST_GROUP).saturating_mul(GROUP);
        let place = place_text(alloc, index)?;
        let value = value_text(alloc, *value)?;
        write!(text, "{place} {value}")?;
    }
    or_none(text)
}

/// Returns a text, or `none` in place of an empty one.
fn or_none(mut text: String) -> Result<String, AllocError> {
    if text.is_empty() {
        text.push_str("none")?;
    }
    Ok(text)
}

/// Appends the ends of bytes that are set.
fn push_range(
    alloc: Global,
    text: &mut String,
    first: usize,
    end: usize,
) -> Result<(), AllocError> {
    if !text.is_empty() {
        text.push_str(", ")?;
    }
    let first = place_text(alloc, first)?;
    let end = place_text(alloc, end)?;
    write!(text, "{first}..{end}")
}

/// Returns the text of the bytes of the stack that are set: the first place of each part, and its end.
fn set_text(alloc: Global, state: &State) -> Result<String, AllocError> {
    let mut text = String::new(alloc);
    let mut first = None;
    for index in 0..STACK + 1 {
        match (first, state.marks.is_set(index)) {
            (None, true) => first = Some(index),
            (Some(begin), false) => {
                push_range(alloc, &mut text, begin, index)?;
                first = None;
            }
            _ => {}
        }
    }
    or_none(text)
}

/// Returns what is known of a register by its name, if there is one.
fn register_of(state: &State, name: &str) -> Option<AbstractValue<Interval>> {
    let number = name.strip_prefix('r')?.parse::<usize>().ok()?;
    if number < FIRST_GROUP {
        state.values.get(number).copied()
    } else {
        None
    }
}

/// Returns the text of a part of a state by its name, `None` where it has no such part.
fn part_text(alloc: Global, state: &State, name: &str) -> Result<Option<String>, AllocError> {
    match name {
        "pointers" => Ok(Some(pointers_text(alloc, state)?)),
        "set" => Ok(Some(set_text(alloc, state)?)),
        "proved" => {
            let proved = state.proved;
            Ok(Some(format!(in alloc; "{proved}")?))
        }
        _ => match register_of(state, name) {
            Some(value) => Ok(Some(value_text(alloc, value)?)),
            None => Ok(None),
        },
    }
}

/// Returns the name at the beginning of a part.
fn name_of(part: &str) -> &str {
    part.split_once(' ').map_or(part, |(name, _)| name)
}

/// Appends a part of a state by its name, if the state has it.
fn push_part(
    alloc: Global,
    text: &mut String,
    state: &State,
    name: &str,
) -> Result<(), AllocError> {
    let Some(part) = part_text(alloc, state, name)? else {
        return Ok(());
    };
    if !text.is_empty() {
        text.push_str("; ")?;
    }
    write!(text, "{name} {part}")
}

/// Returns the parts of a state that are named in what is expected.
fn named_parts(alloc: Global, state: &State, expected: &str) -> Result<String, AllocError> {
    let mut text = String::new(alloc);
    for part in expected.split("; ") {
        push_part(alloc, &mut text, state, name_of(part))?;
    }
    Ok(text)
}

/// Returns the parts of a state that are named in what is expected, and then those others in which it differs from the
/// state before it.
fn changed_parts(
    alloc: Global,
    before: &State,
    after: &State,
    expected: &str,
) -> Result<String, AllocError> {
    let mut text = named_parts(alloc, after, expected)?;
    for name in PARTS {
        let is_named = expected.split("; ").any(|part| name_of(part) == name);
        if !is_named && part_text(alloc, before, name)? != part_text(alloc, after, name)? {
            push_part(alloc, &mut text, after, name)?;
        }
    }
    if text.is_empty() {
        text.push_str("no change")?;
    }
    Ok(text)
}

/// Returns the state after an instruction, of the branch that is not taken where there are two.
fn state_after(state: &State, insn: &Insn) -> Option<State> {
    match state.step(insn) {
        Ok(Next::On(next)) => Some(next),
        Ok(Next::Fork { not_taken, .. }) => not_taken,
        _ => None,
    }
}

/// Returns what is expected of the branch that is not taken, and of the one that is.
fn branches_expected(expected: &str) -> (&str, &str) {
    let (not_taken, taken) = expected.split_once(" / ").unwrap_or((expected, ""));
    let not_taken = not_taken.strip_prefix("not taken: ").unwrap_or("");
    (not_taken, taken.strip_prefix("taken: ").unwrap_or(""))
}

/// Returns what a branch changes, or `never` where it isn't taken.
fn branch_text(
    alloc: Global,
    before: &State,
    after: &Option<State>,
    expected: &str,
) -> Result<String, AllocError> {
    match after {
        Some(after) => changed_parts(alloc, before, after, expected),
        None => "never".to_string(alloc),
    }
}

/// Returns what the last instruction of a list changes in a state, and in each branch; what it is refused for; or
/// `exit`.
fn last_step(
    alloc: Global,
    before: &State,
    here: &State,
    last: &Insn,
    expected: &str,
) -> Result<String> {
    match here.step(last) {
        Ok(Next::On(after)) => Ok(changed_parts(alloc, before, &after, expected)?),
        Ok(Next::Fork { not_taken, taken }) => {
            let (if_not_taken, if_taken) = branches_expected(expected);
            let not_taken = branch_text(alloc, before, &not_taken, if_not_taken)?;
            let taken = branch_text(alloc, before, &taken, if_taken)?;
            Ok(format!(in alloc; "not taken: {not_taken} / taken: {taken}")?)
        }
        Ok(Next::Exit) => Ok("exit".to_string(alloc)?),
        Err(reason) => Ok(format!(in alloc; "refused {reason}")?),
    }
}

/// Returns the parts of the state after a program that are named in what is expected.
///
/// # Errors
/// Where the program is refused, it doesn't lead on, or memory runs out.
pub fn known_after(alloc: Global, row: &ProgramRow<'_>) -> Result<String> {
    let code = code_of(alloc, row.given)?;
    let mut state = State::start();
    for insn in &code {
        match state.step(insn) {
            Ok(Next::On(next)) => state = next,
            Ok(
                Next::Fork {
                    not_taken: Some(next),
                    ..
                },
            ) => state = next,
            _ => bail!("an instruction doesn't lead on"),
        }
    }
    Ok(named_parts(alloc, &state, row.expected)?)
}

/// Returns what instructions change in the state after a program.
///
/// # Errors
/// Where there is no instruction, a program is refused or doesn't lead on, or memory runs out.
pub fn stepped(alloc: Global, row: &ProgramRow<'_>) -> Result<String> {
    let (program, insns) = row.given.split_once(" | ").context("no ` | `")?;
    let code = code_of(alloc, program)?;
    let insns = code_of(alloc, insns)?;
    let (last, others) = insns.split_last().context("no instruction")?;
    let mut before = State::start();
    for insn in &code {
        match before.step(insn) {
            Ok(Next::On(next)) => before = next,
            Ok(
                Next::Fork {
                    not_taken: Some(next),
                    ..
                },
            ) => before = next,
            _ => bail!("an instruction doesn't lead on"),
        }
    }
    let mut here = before;
    for insn in others {
        match here.step(insn) {
            Ok(Next::On(next)) => here = next,
            Ok(
                Next::Fork {
                    not_taken: Some(next),
                    ..
                },
            ) => here = next,
            _ => bail!("an instruction doesn't lead on"),
        }
    }
    last_step(alloc, &before, &here, last, row.expected)
}

/// Returns the parts of the state after each instruction of a program that are named in what is expected, and `exit`
/// for the last one.
///
/// # Errors
/// Where the program is refused or doesn't lead on, or memory runs out.
pub fn walked(alloc: Global, row: &ProgramRow<'_>) -> Result<String> {
    let code = code_of(alloc, row.given)?;
    let mut text = String::new(alloc);
    let mut state = State::start();
    for (insn, expected) in code.iter().zip(row.expected.split(" / ")) {
        if !text.is_empty() {
            text.push_str(" / ")?;
        }
        if state.step(insn) == Ok(Next::Exit) {
            text.push_str("exit")?;
        } else {
            state = state_after(&state, insn).context("an instruction doesn't lead on")?;
            text.push_str(&named_parts(alloc, &state, expected)?)?;
        }
    }
    Ok(text)
}
