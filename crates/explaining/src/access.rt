//! The bytes that an instruction reads or writes, and why it may not, as text.

ghost use Rattle.std.specs.Prelude.{◌≡◌, ◌<◌, ◌+ℤ◌, ◌-ℤ◌, pos, IfSome};
ghost use Rattle.semantics.specs.Access.{headroom_first};
ghost use Rattle.semantics.specs.declared.limits.TheConstants.{GROUPS};
ghost use Rattle.absstate.specs.AbstractStates.{abstract_at, low_of, high_of};
ghost use Rattle.explaining.specs.Remedies.{IsRemedy};

use crate::changes::{REGISTERS, stack_place};
use crate::text::{DatagramPlace, Known, Signed, State};
use absstate::{AbstractValue, Anchor, InitialisedBytes};
use insn::{Insn, Reg};
use interval::Interval;
use semantics::{
    Argument, GROUP_BYTES, GROUPS, HEADROOM_FIRST, Helper, MAX_DATAGRAM, MAX_OFFSET, RecordForm,
    STACK_BYTES, Signature, TAILROOM,
};
use std::alloc::AllocError;

/// An access to bytes: `reads` or `writes`, the register whose value points to them, their displacement and their
/// number.
#[derive(Clone, Copy)]
pub(crate) struct Access {
    verb: &'static str,
    base: Reg,
    displacement: i16,
    bytes: usize,
}

/// Returns the form of the record that a helper reads, if it reads one.
fn record_read(arguments: &[Argument; 5]) -> Option<RecordForm> {
    for argument in arguments {
        if let Argument::RecordIn(form) = argument {
            return Some(*form);
        }
    }
    None
}

/// Returns the access by which a helper reads a record, to which its second argument points.
fn helper_access(number: i32) -> Option<Access> {
    let Signature { arguments, .. } = Helper::from_number(number)?.signature();
    Some(Access {
        verb: "reads",
        base: Reg::R2,
        displacement: 0,
        bytes: record_read(&arguments)?.bytes(),
    })
}

/// Returns the access of an instruction, if it makes one.
pub(crate) fn access_of(insn: Insn) -> Option<Access> {
    let (verb, base, displacement, bytes) = match insn {
        Insn::Load {
            size,
            base,
            offset,
            ..
        } => ("reads", base, offset, size.bytes()),
        Insn::LoadSigned {
            size,
            base,
            offset,
            ..
        } => ("reads", base, offset, size.unsigned().bytes()),
        Insn::Store {
            size,
            base,
            offset,
            ..
        } => ("writes", base, offset, size.bytes()),
        Insn::Call { helper } => return helper_access(helper),
        _ => return None,
    };
    Some(Access {
        verb,
        base,
        displacement,
        bytes,
    })
}

/// Appends how many bytes are proved. Where the number is negative, nothing is.
fn push_proved(note: &mut String, proved: i64) -> Result<(), AllocError> {
    match proved {
        1 => note.push_str(", 1 byte is proved"),
        n if n < 0 => note.push_str(", nothing is proved"),
        n => write!(note, ", {n} bytes are proved"),
    }
}

/// Returns the least place of an anchor.
fn low_of(anchor: Anchor) -> i32
    ensures { result ≡ low_of anchor }
{
    match anchor {
        Anchor::First => 0,
        Anchor::Variable { low, .. } => low,
    }
}

/// Returns the greatest place of an anchor.
fn high_of(anchor: Anchor) -> i32
    ensures { result ≡ high_of anchor }
{
    match anchor {
        Anchor::First => 0,
        Anchor::Variable { high, .. } => high,
    }
}

/// Returns the place at an offset from another one.
fn place_from(place: i32, offset: i32) -> i64
    ensures { result ≡ (place +ℤ offset) }
{
    i64::from(place) + i64::from(offset)
}

/// Returns the least place at an offset from an anchor.
pub(crate) fn least_place(anchor: Anchor, offset: i32) -> i64
    ensures { result ≡ (low_of anchor +ℤ offset) }
{
    place_from(low_of(anchor), offset)
}

/// Returns the greatest place at an offset from an anchor.
pub(crate) fn greatest_place(anchor: Anchor, offset: i32) -> i64
    ensures { result ≡ (high_of anchor +ℤ offset) }
{
    place_from(high_of(anchor), offset)
}

/// Returns the offset from an anchor at which the headroom begins.
fn headroom_from(anchor: Anchor) -> i64
    ensures { result ≡ (headroom_first -ℤ low_of anchor) }
{
    HEADROOM_FIRST - i64::from(low_of(anchor))
}

/// Returns the offset of the first byte of an access.
fn first_of(offset: i32, displacement: i16) -> i64
    ensures { result ≡ (offset +ℤ displacement) }
{
    i64::from(offset) + i64::from(displacement)
}

/// Returns the offset after the last byte of an access.
fn end_of(offset: i32, displacement: i16, bytes: u32) -> i64
    ensures { result ≡ (offset +ℤ displacement +ℤ pos bytes) }
{
    i64::from(offset) + i64::from(displacement) + i64::from(bytes)
}

impl Access {
    /// Returns what is known of the register whose value points to the bytes.
    fn pointer(self, state: &State) -> AbstractValue<Interval>
        ensures { result ≡ abstract_at state.now.values self.base }
    {
        state.values[self.base.number() as usize]
    }

    /// Returns the place of the first byte, from where the pointer counts its offset.
    fn first(self, state: &State) -> i64 {
        let offset = match self.pointer(state) {
            AbstractValue::Stack(offset) | AbstractValue::Data { offset, .. } => offset,
            _ => 0,
        };
        i64::from(offset) + i64::from(self.displacement)
    }

    /// Returns the place after the last byte.
    fn end(self, state: &State) -> i64 {
        let bytes = i64::try_from(self.bytes).unwrap_or(0);
        self.first(state).saturating_add(bytes)
    }

    /// Returns the index of the first byte among those of the stack.
    fn index(self, state: &State) -> usize {
        let index = self.first(state).saturating_add(STACK_BYTES as i64);
        usize::try_from(index).unwrap_or(STACK_BYTES)
    }

    /// Appends where the bytes lie: `reads stack-8 to -4`.
    pub(crate) fn push_span(self, note: &mut String, state: &State) -> Result<(), AllocError> {
        let verb = self.verb;
        let first = Signed(self.first(state));
        let end = Signed(self.end(state));
        match self.pointer(state) {
            AbstractValue::Nothing | AbstractValue::Scalar(_) => write!(note, "{verb} bytes"),
            AbstractValue::Ctx => write!(note, "{verb} context{first} to {end}"),
            AbstractValue::Stack(_) => write!(note, "{verb} stack{first} to {end}"),
            AbstractValue::Data {
                anchor: Anchor::First,
                ..
            } => write!(note, "{verb} datagram{first} to {end}"),
            AbstractValue::Data {
                anchor: Anchor::Variable { low, high, .. },
                ..
            } => write!(note, "{verb} datagram+({low}..{high}){first} to {end}"),
            AbstractValue::End => write!(note, "{verb} end{first} to {end}"),
        }
    }

    /// Appends that the register holds a number.
    pub(crate) fn push_number(self, note: &mut String, state: &State) -> Result<(), AllocError> {
        let base = self.base;
        let known = Known(self.pointer(state));
        write!(note, "{base} is {known}, which is no pointer")
    }

    /// Returns the place whose comparison with the end would have helped an access to the datagram: the one at which it
    /// ends. `None` where the access begins before the headroom, where no pointer may lie as far away, or where no
    /// datagram is as long.
    fn remedy(self, state: &State) -> Option<DatagramPlace>
        ensures { IfSome result (IsRemedy state.now self.base self.displacement self.bytes) }
    {
        let AbstractValue::Data { anchor, offset } = self.pointer(state) else {
            return None;
        };
        let bytes = u32::try_from(self.bytes).ok()?;
        let end = i32::try_from(end_of(offset, self.displacement, bytes)).ok()?;
        let is_after_headroom = headroom_from(anchor) <= first_of(offset, self.displacement);
        let is_near = greatest_place(anchor, end) <= MAX_OFFSET;
        let is_short = least_place(anchor, end) <= MAX_DATAGRAM as i64;
        if is_after_headroom && is_near && is_short {
            Some(DatagramPlace {
                anchor,
                offset: end,
            })
        } else {
            None
        }
    }

    /// Appends the comparison that would have helped an access to the datagram, if one would have.
    fn push_remedy(self, note: &mut String, state: &State) -> Result<(), AllocError> {
        match self.remedy(state) {
            Some(place) => write!(note, ", compare {place} with the end"),
            None => Ok(()),
        }
    }

    /// Appends the bounds that an access to the datagram or the tailroom exceeds, and the comparison that would have
    /// helped.
    pub(crate) fn push_bounds(self, note: &mut String, state: &State) -> Result<(), AllocError> {
        match self.pointer(state) {
            AbstractValue::Data { anchor, .. } => {
                let (low, proved) = match anchor {
                    Anchor::First => (0, state.proved),
                    Anchor::Variable { low, proved, .. } => (low, i64::from(proved)),
                };
                let headroom = HEADROOM_FIRST - i64::from(low);
                if self.first(state) < headroom {
                    return write!(note, ", the headroom begins at {headroom}");
                }
                push_proved(note, proved)?;
                self.push_remedy(note, state)
            }
            _ => write!(note, ", the tailroom is +0 to +{TAILROOM}"),
        }
    }

    /// Appends the first byte of the stack that is read and isn't set.
    pub(crate) fn push_unset(self, note: &mut String, state: &State) -> Result<(), AllocError> {
        let first = self.index(state);
        let at = first_unset(&state.marks, first, first.saturating_add(self.bytes));
        let place = stack_place(at);
        write!(note, ", stack{place} is not set")
    }

    /// Appends the pointer of which the bytes that are read are a part.
    pub(crate) fn push_kept(self, note: &mut String, state: &State) -> Result<(), AllocError> {
        let first = self.index(state);
        let group = first_pointer(state, first, first.saturating_add(self.bytes));
        let place = stack_place(GROUP_BYTES * group);
        let known = Known(state.values[REGISTERS + group]);
        write!(note, ", stack{place} holds {known}")
    }
}

/// Returns the first byte in a range of the stack that isn't set, by its index; the range's end where all are.
fn first_unset(marks: &InitialisedBytes, first: usize, end: usize) -> usize {
    for i in first..end {
        if !marks.is_set(i) {
            return i;
        }
    }
    end
}

/// Returns the first group with bytes in a range of the stack that holds a pointer; 0 where none does.
fn first_pointer(state: &State, first: usize, end: usize) -> usize
    ensures { result < GROUPS }
{
    for group in 0..GROUPS {
        let from = GROUP_BYTES * group;
        let is_touched = from < end && first < from + GROUP_BYTES;
        if is_touched && state.values[REGISTERS + group] != AbstractValue::Nothing {
            return group;
        }
    }
    0
}
