//! The abstract state at a slot of a path: what the verifier knows of the machine there.

ghost use Rattle.std.specs.Prelude.{◌≡◌, ◌+◌, ◌*◌, ◌≤◌, ◌<◌, map, length, slice_set};
ghost use Rattle.insn.specs.Codes.{byte_count};
ghost use Rattle.absstate.specs.Covers.{covers_marks};
ghost use Rattle.semantics.specs.declared.limits.TheConstants.{STACK_BYTES, GROUP_BYTES, GROUPS};
ghost use Rattle.absstate.specs.AbstractStates.{no_marks, is_marked, are_marked, mark, marks_from, unmark, unmarked_from, group_at, group_index, without_groups, with_marks, abstract_with_pointer, first_abstract_state, low_of, high_of, id_of, greatest_id, proved_up_to, raised_anchor, raised_value, proved_from, proved_of, with_value, with_length, with_least, with_answer, with_out};

use crate::covering::covers_marks;
use insn::Reg;
use semantics::{GROUP_BYTES, GROUPS, Room, STACK_BYTES};
use std::alloc::AllocError;

/// A place of the datagram from which pointers count their offsets.
/// See docs/DESIGN.md, "Anchors inside pointers".
#[derive(Clone, Copy, Debug, PartialEq, Eq)]
pub enum Anchor {
    /// The datagram's first byte.
    First,
    /// A place that varies between two places, by a number of its own. The datagram is proved to reach `proved` bytes
    /// from there on.
    Variable {
        id: u32,
        low: i32,
        high: i32,
        proved: i32,
    },
}

/// The abstract value of a register. A number is one of a numeric domain `D`.
#[derive(Debug, PartialEq, Eq)]
pub enum AbstractValue<D> {
    /// Nothing is known; the register may be uninitialised.
    Nothing,
    /// A number.
    Scalar(D),
    /// The context record.
    Ctx,
    /// A place of the stack, by its offset from the stack's end.
    Stack(i32),
    /// A place of the datagram, by its offset from an anchor.
    Data { anchor: Anchor, offset: i32 },
    /// The datagram's end.
    End,
}

impl<D: Copy> Clone for AbstractValue<D> {
    ghost is_clone = { λ s r. r ≡ s };

    ghost is_infallible = { λ _. Unit {0} };

    fn clone(&self) -> Result<Self, AllocError> {
        Ok(*self)
    }
}

impl<D: Copy> Copy for AbstractValue<D> {}

impl Anchor {
    /// Returns the least place.
    pub(crate) fn low(self) -> i32
        ensures { result ≡ low_of self }
    {
        match self {
            Anchor::First => 0,
            Anchor::Variable { low, .. } => low,
        }
    }

    /// Returns the greatest place.
    pub(crate) fn high(self) -> i32
        ensures { result ≡ high_of self }
    {
        match self {
            Anchor::First => 0,
            Anchor::Variable { high, .. } => high,
        }
    }

    /// Returns how far from this anchor on a datagram is proved to reach that has `proved` bytes at least.
    pub(crate) fn proved_from(self, proved: i64) -> i64
        ensures { result ≡ proved_from self proved }
    {
        match self {
            Anchor::First => proved,
            Anchor::Variable { proved, .. } => i64::from(proved),
        }
    }

    /// Returns the anchor with what is proved of it raised, if it is the variable one with a number.
    fn raised(self, raised: u32, least: i64) -> Anchor
        ensures { result ≡ raised_anchor raised least self }
    {
        match self {
            Anchor::First => Anchor::First,
            Anchor::Variable {
                id,
                low,
                high,
                proved,
            } => {
                let proved = if id == raised {
                    raise_proved(proved, least)
                } else {
                    proved
                };
                Anchor::Variable {
                    id,
                    low,
                    high,
                    proved,
                }
            }
        }
    }
}

/// Returns what is proved of an anchor, raised to another number, where that fits in 32 bits.
fn raise_proved(proved: i32, least: i64) -> i32
    ensures { result ≡ proved_up_to proved least }
{
    if i64::from(proved) < least && least <= 2_147_483_647 {
        least as i32
    } else {
        proved
    }
}

impl<D: Copy> AbstractValue<D> {
    /// Returns the number of the anchor that it names; 0 where it names no variable anchor.
    fn id(self) -> u32
        ensures { result ≡ id_of self }
    {
        match self {
            AbstractValue::Data {
                anchor: Anchor::Variable { id, .. },
                ..
            } => id,
            _ => 0,
        }
    }

    /// Returns the value with what is proved of an anchor raised.
    fn raised(self, raised: u32, least: i64) -> AbstractValue<D>
        ensures { result ≡ raised_value raised least self }
    {
        match self {
            AbstractValue::Data { anchor, offset } => AbstractValue::Data {
                anchor: anchor.raised(raised, least),
                offset,
            },
            known => known,
        }
    }
}

/// Returns the greatest number of an anchor that values name; 0 where they name no variable anchor.
fn greatest_id<D: Copy>(values: &[AbstractValue<D>]) -> u32
    ensures { result ≡ greatest_id values.now }
{
    match values {
        [] => 0,
        [first, rest @ ..] => first.id().max(greatest_id(rest)),
    }
}

/// Raises what is proved of an anchor in each value that names it.
fn raise<D: Copy>(values: &mut [AbstractValue<D>], id: u32, least: i64)
    ensures { values.new ≡ map (raised_value id least) values.old }
{
    for i in 0..values.len() {
        values[i] = values[i].raised(id, least);
    }
}

/// The stack bytes that are initialised: a mark for each, from the first byte on.
#[derive(Clone, Copy, Debug, PartialEq, Eq)]
pub struct InitialisedBytes {
    cells: [bool; STACK_BYTES],
}

impl InitialisedBytes {
    /// Returns the marks of no byte.
    pub fn none() -> InitialisedBytes
        ensures { result ≡ no_marks }
    {
        InitialisedBytes {
            cells: [false; STACK_BYTES],
        }
    }

    /// Returns whether a byte is set, by its index from the first one of the stack.
    pub fn is_set(&self, index: usize) -> bool
        ensures { result ≡ is_marked self.now index }
    {
        match self.cells.get(index) {
            Some(mark) => *mark,
            None => false,
        }
    }

    /// Marks a byte as set; an index of 512 or more is ignored.
    fn set(&mut self, index: usize)
        ensures { self.new ≡ mark self.old index }
    {
        if index < STACK_BYTES {
            self.cells[index] = true;
        }
    }

    /// Sets `n` bytes, from an index on.
    pub(crate) fn set_all(&mut self, index: u16, n: usize)
        requires { n ≤ STACK_BYTES }
        ensures { self.new ≡ marks_from self.old index n }
    {
        let index = usize::from(index);
        for i in index..index + n {
            self.set(i);
        }
    }

    /// Marks a byte as not set; an index of 512 or more is ignored.
    fn unset(&mut self, index: usize)
        ensures { self.new ≡ unmark self.old index }
    {
        if index < STACK_BYTES {
            self.cells[index] = false;
        }
    }

    /// Marks the bytes of a group as not set.
    fn unset_group(&mut self, group: u16)
        ensures { self.new ≡ unmarked_from self.old (GROUP_BYTES * group) GROUP_BYTES }
    {
        let first = GROUP_BYTES * usize::from(group);
        for i in first..first + GROUP_BYTES {
            self.unset(i);
        }
    }

    /// Returns the marks, from the first byte on.
    pub(crate) fn cells(&self) -> &[bool]
        ensures cells { result.now ≡ self.now.cells }
        ensures count { length self.now.cells ≡ STACK_BYTES }
    {
        &self.cells
    }

    /// Returns whether each byte that is set is also set in other marks.
    pub(crate) fn covers(&self, other: &InitialisedBytes) -> bool
        ensures { result ≡ covers_marks self.now.cells other.now.cells }
    {
        covers_marks(&self.cells, &other.cells)
    }

    /// Returns whether the `n` bytes from an index on are set.
    pub fn are_set(&self, index: usize, n: usize) -> bool
        requires { index + n ≤ STACK_BYTES }
        ensures { result ≡ are_marked self.now index n }
    {
        for i in index..index + n {
            if !self.is_set(i) {
                return false;
            }
        }
        true
    }
}

/// The number of registers.
pub(crate) const REGISTERS: usize = 11;

/// The number of values that a state knows: of the registers, and of the groups of the stack.
pub const VALUES: usize = REGISTERS + GROUPS;

/// The abstract state at a slot: the registers and, after them, the pointers that the groups of the stack hold; the set
/// bytes of the stack, and a least length of the datagram, `proved`.
#[derive(Debug, PartialEq, Eq)]
pub struct AbsState<D> {
    pub values: [AbstractValue<D>; VALUES],
    pub marks: InitialisedBytes,
    pub proved: i64,
}

impl<D: Copy> Clone for AbsState<D> {
    ghost is_clone = { λ s r. r ≡ s };

    ghost is_infallible = { λ _. Unit {0} };

    fn clone(&self) -> Result<Self, AllocError> {
        Ok(*self)
    }
}

impl<D: Copy> Copy for AbsState<D> {}

impl<D: Copy> AbsState<D> {
    /// Returns the abstract state before the first instruction, of which each start is a member.
    pub fn start() -> AbsState<D>
        ensures { result ≡ first_abstract_state }
    {
        let mut values = [AbstractValue::Nothing; VALUES];
        values[1] = AbstractValue::Ctx;
        values[10] = AbstractValue::Stack(0);
        AbsState {
            values,
            marks: InitialisedBytes::none(),
            proved: 0,
        }
    }

    /// Returns how far from an anchor on the datagram is proved to reach.
    pub(crate) fn proved_of(&self, anchor: Anchor) -> i64
        ensures { result ≡ proved_of self.now anchor }
    {
        anchor.proved_from(self.proved)
    }

    /// Writes a register.
    pub(crate) fn set(&mut self, reg: Reg, known: AbstractValue<D>)
        ensures { self.new ≡ with_value self.old reg known }
    {
        self.values[reg.number() as usize] = known;
    }

    /// Returns the pointer that a group is known to hold.
    pub(crate) fn group(&self, group: usize) -> AbstractValue<D>
        requires { group < GROUPS }
        ensures { result ≡ group_at self.now.values group }
    {
        self.values[REGISTERS + group]
    }

    /// Writes what is known of a group; a group of 64 or more is ignored.
    fn set_group(&mut self, group: usize, known: AbstractValue<D>)
        ensures { self.new ≡ record self.old { values = slice_set self.old.values (group_index group) known } }
    {
        if group < GROUPS {
            self.values[REGISTERS + group] = known;
        }
    }

    /// Sets `n` bytes, from an index on. A pointer of which one of them was a part is gone.
    pub(crate) fn set_bytes(&mut self, index: u16, n: usize)
        requires some { 1 ≤ n }
        requires small { n ≤ STACK_BYTES }
        ensures { self.new ≡ with_marks self.old index n }
    {
        let first = usize::from(index);
        self.set_group(first / GROUP_BYTES, AbstractValue::Nothing);
        self.set_group((first + n / 3) / GROUP_BYTES, AbstractValue::Nothing);
        self.set_group((first + 2 * n / 3) / GROUP_BYTES, AbstractValue::Nothing);
        self.set_group((first + n - 1) / GROUP_BYTES, AbstractValue::Nothing);
        self.marks.set_all(index, n);
    }

    /// Stores a pointer in a group.
    pub(crate) fn set_pointer(&mut self, group: u16, known: AbstractValue<D>)
        ensures { self.new ≡ abstract_with_pointer self.old group known }
    {
        self.set_group(usize::from(group), known);
        self.marks.unset_group(group);
    }

    /// Writes the answer of a call to `r0`; `r1` to `r5` are uninitialised afterwards.
    pub(crate) fn set_answer(&mut self, answer: D)
        ensures { self.new ≡ with_answer self.old answer }
    {
        self.set(Reg::R0, AbstractValue::Scalar(answer));
        self.set(Reg::R1, AbstractValue::Nothing);
        self.set(Reg::R2, AbstractValue::Nothing);
        self.set(Reg::R3, AbstractValue::Nothing);
        self.set(Reg::R4, AbstractValue::Nothing);
        self.set(Reg::R5, AbstractValue::Nothing);
    }

    /// Sets the bytes of an address record in the stack, if one is written.
    pub(crate) fn set_out(&mut self, out: Option<Room>)
        ensures { self.new ≡ with_out self.old out }
    {
        if let Some(room) = out {
            self.set_bytes(room.index, room.form.bytes());
        }
    }

    /// Raises the proved length of the datagram.
    fn set_length(&mut self, least: i64)
        ensures { self.new ≡ with_length self.old least }
    {
        if self.proved < least {
            self.proved = least;
        }
    }

    /// Raises what is proved of an anchor; `None` leaves it.
    pub(crate) fn set_least(&mut self, anchor: Anchor, least: Option<i64>)
        ensures { self.new ≡ with_least self.old anchor least }
    {
        let Some(least) = least else {
            return;
        };
        match anchor {
            Anchor::First => self.set_length(least),
            Anchor::Variable { id, .. } => raise(&mut self.values, id, least),
        }
    }

    /// Returns the greatest number of an anchor that a register names.
    pub(crate) fn greatest_id(&self) -> u32
        ensures { result ≡ greatest_id self.now.values }
    {
        greatest_id(&self.values)
    }
}
