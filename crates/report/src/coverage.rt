//! What of a program was met by runs: how often each instruction was reached, and each jump was taken.

use insn::{Insn, MAX_SLOTS};
use semantics::Visit;
use std::alloc::{AllocError, Global};
use std::fmt::Write;
use verifier::distance;

/// How often one instruction was reached, and how often its jump was taken, if it is one; 2^64 - 1 stands for that and
/// more.
#[derive(Clone, Copy, Debug, PartialEq, Eq)]
struct Met {
    reached: u64,
    taken: u64,
}

/// What of a program was met by the runs that were added to it.
#[derive(Drop)]
pub struct Coverage {
    /// By the slots at which instructions begin.
    met: Vec<Met>,
    runs: u64,
}

impl Coverage {
    /// Returns what no run has met.
    ///
    /// # Errors
    /// Where memory runs out.
    pub fn new(alloc: Global) -> Result<Coverage, AllocError> {
        let none = Met {
            reached: 0,
            taken: 0,
        };
        Ok(Coverage {
            met: vec![in alloc; none; MAX_SLOTS]?,
            runs: 0,
        })
    }

    /// Returns the number of runs.
    pub fn runs(&self) -> u64 {
        self.runs
    }

    /// Adds a run, by the instructions that it reached, in their order.
    pub fn add(&mut self, path: &[Visit]) {
        self.runs = self.runs.saturating_add(1);
        for i in 0..path.len() {
            self.count(path[i], path.get(i.saturating_add(1)));
        }
    }

    /// Counts an instruction, which another one followed, unless it was the last.
    fn count(&mut self, at: Visit, followed_by: Option<&Visit>) {
        let Some(met) = self.met.get_mut(at.slot) else {
            return;
        };
        met.reached = met.reached.saturating_add(1);
        if let Some(to) = followed_by
            && distance(at.insn).is_some()
            && to.slot != at.slot.saturating_add(at.insn.slots())
        {
            met.taken = met.taken.saturating_add(1);
        }
    }

    /// Returns what was met of an instruction: how often it was reached, and of a jump how often it was taken.
    fn note(&self, alloc: Global, slot: usize, insn: Insn) -> Result<String, AllocError> {
        match self.met.get(slot) {
            Some(Met { reached, taken }) if *reached > 0 && distance(insn).is_some() => {
                format!(in alloc; "{reached}, taken {taken}")
            }
            Some(Met { reached, .. }) if *reached > 0 => format!(in alloc; "{reached}"),
            _ => format!(in alloc; "never"),
        }
    }

    /// Appends the line of an instruction.
    fn push_line(
        &self,
        alloc: Global,
        text: &mut String,
        slot: usize,
        insn: Insn,
    ) -> Result<(), AllocError> {
        let step = format!(in alloc; "{slot} {insn}")?;
        let blank = " ".repeat(alloc, 25usize.saturating_sub(step.len()))?;
        let note = self.note(alloc, slot, insn)?;
        writeln!(text, "{step}{blank} ; {note}")?;
        Ok(())
    }

    /// Returns the text of a program, a line for each instruction, with how often it was reached, and of a jump how
    /// often it was taken. A jump to the next instruction counts as not taken.
    ///
    /// # Errors
    /// Where memory runs out.
    pub fn text(&self, alloc: Global, code: &[Insn]) -> Result<String, AllocError> {
        let mut text = String::new(alloc);
        let mut slot = 0usize;
        for insn in code {
            self.push_line(alloc, &mut text, slot, *insn)?;
            slot = slot.saturating_add(insn.slots());
        }
        Ok(text)
    }
}
