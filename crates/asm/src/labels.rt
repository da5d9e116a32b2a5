//! The table of labels, line by line.

ghost use Rattle.std.specs.Prelude.{◌≤◌, ◌+◌, List, [], Option, Some};
ghost use Rattle.insn.specs.declared.decoding.TheConstants.{MAX_SLOTS};
ghost use Rattle.asm.specs.Statements.{Statement, Labelled};
ghost use Rattle.asm.specs.Parsing.{said_in};
ghost use Rattle.asm.specs.Scanning.{Holds, Adds};

use crate::refusal::AsmError;
use crate::statement::Line;
use crate::table::Table;
use indexmap::IndexMap;
use insn::MAX_SLOTS;
use std::alloc::Global;

impl<'a> Table<'a> {
    /// Returns the table of no lines.
    pub(crate) fn new(alloc: Global) -> Table<'a>
        ensures { Holds result [] }
    {
        Table {
            label_slots: IndexMap::new(alloc),
            slots: 0,
        }
    }

    /// Adds a label, which is on the line of this number, at the slot of the next instruction.
    fn add_label(&mut self, name: &'a [u8], number: usize) -> Result<(), AsmError>
        requires { self.old.slots ≤ MAX_SLOTS + 1 }
        ensures { (said : List (Option Statement)) → Holds self.old said
            → Adds said (Some (Labelled name.now)) number self.new result }
    {
        if self.label_slots.contains_key(name) {
            return Err(AsmError::DoubleLabel(number));
        }
        self.label_slots.insert(name, self.slots)?;
        Ok(())
    }

    /// Adds what the line of this number says.
    pub(crate) fn add(&mut self, line: Line<'a>, number: usize) -> Result<(), AsmError>
        requires { self.old.slots ≤ MAX_SLOTS + 1 }
        ensures { (said : List (Option Statement)) → Holds self.old said
            → Adds said (said_in line.entry) number self.new result }
    {
        match line {
            Line::Empty => {}
            Line::Label(name) => self.add_label(name, number)?,
            Line::Insn(insn, _) => self.slots = (self.slots + insn.slots()).min(MAX_SLOTS + 1),
        }
        Ok(())
    }
}
