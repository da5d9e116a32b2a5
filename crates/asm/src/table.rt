//! The labels of a text, with the slots at which they are.

use indexmap::IndexMap;

/// The labels of the lines so far, and the slot of the next instruction.
#[derive(Drop)]
pub(crate) struct Table<'a> {
    pub(crate) label_slots: IndexMap<&'a [u8], usize>,
    /// The slots so far, or 4,097 where there are more than 4,096.
    pub(crate) slots: usize,
}
