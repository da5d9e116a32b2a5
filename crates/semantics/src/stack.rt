//! The stack of the tagged machine.

ghost use Rattle.std.specs.Prelude.{◌≡◌, ◌≤◌, ◌<◌, ◌+◌, length, slice_set};
ghost use Rattle.semantics.specs.Access.{is_pointer, group_of, second_group, third_group, last_group, pointer_in, touches_pointer, no_pointer, without_pointers, with_bytes, with_pointer, no_cells, overlay};
ghost use Rattle.semantics.specs.declared.limits.TheConstants.{STACK_BYTES, GROUP_BYTES, GROUPS};

use crate::limits::{GROUP_BYTES, GROUPS, STACK_BYTES};
use crate::reason::Reason;
use crate::storing::put_cells;
use crate::value::Value;

/// The stack: 512 cells, and for each aligned group of eight of them the pointer that it holds in their place. The
/// first cell is at place -512. The cells of a group that holds a pointer are uninitialised.
/// See docs/DESIGN.md, "Pointers beside the cells".
#[derive(Clone, Copy, Debug, PartialEq, Eq)]
pub struct StackMemory {
    /// The cells, each a byte or nothing.
    pub cells: [Option<u8>; STACK_BYTES],
    /// The pointers of the groups: `Nothing` where a group holds none.
    pub groups: [Value; GROUPS],
}

/// Returns whether a value is a pointer.
pub(crate) fn is_pointer(value: Value) -> bool
    ensures { result ≡ is_pointer value }
{
    match value {
        Value::Nothing | Value::Scalar(_) => false,
        _ => true,
    }
}

/// Returns the pointer that a group holds, `Nothing` where it holds none.
pub(crate) fn pointer_in(stack: &StackMemory, group: usize) -> Value
    ensures { result ≡ pointer_in stack.now.groups group }
{
    match stack.groups.get(group) {
        Some(pointer) => *pointer,
        None => Value::Nothing,
    }
}

/// Returns the group of the cell that lies a third on among `n` cells from an index on.
fn second_group(index: usize, n: usize) -> usize
    requires { index + n ≤ STACK_BYTES }
    ensures { result ≡ second_group n index }
{
    (index + n / 3) / GROUP_BYTES
}

/// Returns the group of the cell that lies two thirds on among `n` cells from an index on.
fn third_group(index: usize, n: usize) -> usize
    requires { index + n ≤ STACK_BYTES }
    ensures { result ≡ third_group n index }
{
    (index + 2 * n / 3) / GROUP_BYTES
}

/// Returns the group of the last one of `n` cells from an index on.
fn last_group(index: usize, n: usize) -> usize
    requires some { 1 ≤ n }
    requires inside { index + n ≤ STACK_BYTES }
    ensures { result ≡ last_group n index }
{
    (index + n - 1) / GROUP_BYTES
}

/// Returns whether one of the `n` cells from an index on, at most 24, is a part of a pointer.
fn touches_pointer(stack: &StackMemory, index: usize, n: usize) -> bool
    requires some { 1 ≤ n }
    requires few { n ≤ 24 }
    requires inside { index + n ≤ STACK_BYTES }
    ensures { result ≡ touches_pointer stack.now.groups n index }
{
    is_pointer(pointer_in(stack, index / GROUP_BYTES))
        || is_pointer(pointer_in(stack, second_group(index, n)))
        || is_pointer(pointer_in(stack, third_group(index, n)))
        || is_pointer(pointer_in(stack, last_group(index, n)))
}

/// Tests that none of the `n` cells from an index on, at most 24, is a part of a pointer.
///
/// # Errors
/// `PointerBytes`.
pub(crate) fn no_pointer(stack: &StackMemory, index: usize, n: usize) -> Result<(), Reason>
    requires some { 1 ≤ n }
    requires few { n ≤ 24 }
    requires inside { index + n ≤ STACK_BYTES }
    ensures { result ≡ no_pointer stack.now.groups n index }
{
    if touches_pointer(stack, index, n) {
        Err(Reason::PointerBytes)
    } else {
        Ok(())
    }
}

/// Writes the pointer of a group; a group past the last is ignored.
fn set_group(groups: &mut [Value], group: usize, pointer: Value)
    ensures { groups.new ≡ slice_set groups.old group pointer }
{
    if group < groups.len() {
        groups[group] = pointer;
    }
}

/// Writes bytes into the cells from an index on. A pointer of which a cell was a part is gone.
pub fn put_bytes(stack: &mut StackMemory, index: usize, bytes: &[u8])
    requires some { 1 ≤ length bytes.now }
    requires inside { index + length bytes.now ≤ STACK_BYTES }
    ensures { stack.new ≡ with_bytes stack.old index bytes.now }
{
    put_cells(&mut stack.cells, index, bytes);
    set_group(&mut stack.groups, index / GROUP_BYTES, Value::Nothing);
    set_group(
        &mut stack.groups,
        second_group(index, bytes.len()),
        Value::Nothing,
    );
    set_group(
        &mut stack.groups,
        third_group(index, bytes.len()),
        Value::Nothing,
    );
    set_group(
        &mut stack.groups,
        last_group(index, bytes.len()),
        Value::Nothing,
    );
}

/// Clears the cells from an index on.
fn clear_cells(cells: &mut [Option<u8>], index: usize)
    requires { index + GROUP_BYTES ≤ length cells.old }
    ensures { cells.new ≡ overlay index no_cells cells.old }
{
    for i in 0..GROUP_BYTES {
        cells[index + i] = None;
    }
}

/// Stores a pointer in a group, of which the cells are then uninitialised.
pub fn put_pointer(stack: &mut StackMemory, group: usize, pointer: Value)
    requires { group < GROUPS }
    ensures { stack.new ≡ with_pointer stack.old group pointer }
{
    clear_cells(&mut stack.cells, GROUP_BYTES * group);
    set_group(&mut stack.groups, group, pointer);
}
