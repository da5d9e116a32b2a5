//! A program in order, and where its instructions were.

ghost use Rattle.std.specs.Prelude.{◌≡◌};
ghost use Rattle.ordering.specs.Orders.{moved_slot};

use insn::Insn;

/// Where the instructions of a program are in the one in order.
#[derive(Drop)]
pub enum Places {
    /// At the slots that they had.
    Kept,
    /// For each slot, the one that its instruction has now; `None` where no instruction that is reached begins.
    Moved(Vec<Option<usize>>),
}

impl Places {
    /// Returns the slot that the instruction of a slot has now; `None` where it isn't in the program any more.
    pub fn place(&self, slot: usize) -> Option<usize>
        ensures { result ≡ moved_slot self.now slot }
    {
        match self {
            Places::Kept => Some(slot),
            Places::Moved(slots) => *slots.get(slot)?,
        }
    }
}

/// A program all of whose jumps lead forward.
#[derive(Drop)]
pub struct InOrder {
    pub code: Vec<Insn>,
    /// Where the instructions of the program are that was put in order.
    pub places: Places,
}
