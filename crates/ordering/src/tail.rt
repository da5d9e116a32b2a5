//! The last instructions of a program that is written from its end.

ghost use Rattle.std.specs.Prelude.{◌≡◌, ◌+◌, ◌∷◌, [], OnOk, IfOk, IfErr};
ghost use Rattle.insn.specs.Encoding.{Fits, slots_of, slot_count};
ghost use Rattle.ordering.specs.Tails.{tail_list, IsTail, IsNoRoom, LandsBefore, BeginsBack, BeginsAt, HasPlace, bridge_to, bridged, jump_to, put_before};

use crate::error::OrderError;
use insn::{Insn, MAX_SLOTS};
use std::alloc::Global;

/// The last instructions of a program, in reverse, and the number of their slots. A place is the number of slots from
/// the beginning of an instruction to the end of the program.
#[derive(Drop)]
pub(crate) struct Tail {
    back: Vec<Insn>,
    slots: usize,
}

impl Tail {
    /// Returns no instructions.
    pub(crate) fn new(alloc: Global) -> Tail
        ensures tail { IsTail result }
        ensures list { tail_list result ≡ [] }
    {
        Tail {
            back: Vec::new(alloc),
            slots: 0,
        }
    }

    /// Returns the number of the slots.
    pub(crate) fn slots(&self) -> usize
        ensures { result ≡ self.now.slots }
    {
        self.slots
    }

    /// Puts an instruction before the others.
    ///
    /// # Errors
    /// `TooLong` where there is no room, `Memory`.
    fn prepend(&mut self, insn: Insn) -> Result<(), OrderError>
        requires tail { IsTail self.old }
        requires fits { Fits insn }
        requires lands { LandsBefore (tail_list self.old) insn }
        ensures tail { OnOk result (IsTail self.new) }
        ensures list { OnOk result (tail_list self.new ≡ insn ∷ tail_list self.old) }
        ensures err { IfErr result (IsNoRoom (slot_count (tail_list self.old) + slots_of insn)) }
    {
        if MAX_SLOTS < self.slots + insn.slots() {
            return Err(OrderError::TooLong);
        }
        self.back.push(insn)?;
        self.slots += insn.slots();
        Ok(())
    }

    /// Puts a jump to a place before the others, unless the place is that of the first one.
    ///
    /// # Errors
    /// `TooLong` where there is no room, `Memory`.
    fn bridge(&mut self, place: usize) -> Result<(), OrderError>
        requires tail { IsTail self.old }
        requires begins { BeginsBack (tail_list self.old) place }
        ensures tail { OnOk result (IsTail self.new) }
        ensures list { OnOk result (tail_list self.new ≡ bridge_to (tail_list self.old) place) }
        ensures err { IfErr result (IsNoRoom (slot_count (bridge_to (tail_list self.old) place))) }
    {
        if place == self.slots {
            return Ok(());
        }
        let offset = (self.slots - place) as i16;
        self.prepend(Insn::Jump { offset })
    }

    /// Puts a jump to a place before the others, if there is one, unless the place is that of the first one.
    ///
    /// # Errors
    /// `TooLong` where there is no room, `Memory`.
    fn bridge_if(&mut self, next: Option<usize>) -> Result<(), OrderError>
        requires tail { IsTail self.old }
        requires begins { BeginsAt (tail_list self.old) next }
        ensures tail { OnOk result (IsTail self.new) }
        ensures list { OnOk result (tail_list self.new ≡ bridged (tail_list self.old) next) }
        ensures err { IfErr result (IsNoRoom (slot_count (bridged (tail_list self.old) next))) }
    {
        match next {
            Some(place) => self.bridge(place),
            None => Ok(()),
        }
    }

    /// Puts an instruction before the others, with the distance to a place if it is a jump.
    ///
    /// # Errors
    /// `TooLong` where there is no room, `Memory`.
    fn put_jump(&mut self, insn: Insn, taken: Option<usize>) -> Result<(), OrderError>
        requires tail { IsTail self.old }
        requires fits { Fits insn }
        requires taken { HasPlace (tail_list self.old) insn taken }
        ensures tail { OnOk result (IsTail self.new) }
        ensures list { OnOk result (tail_list self.new
            ≡ jump_to (tail_list self.old) insn taken ∷ tail_list self.old) }
        ensures err { IfErr result (IsNoRoom (slot_count (tail_list self.old) + slots_of insn)) }
    {
        match taken {
            Some(place) => self.prepend(insn.with_distance((self.slots - place) as i16)),
            None => self.prepend(insn),
        }
    }

    /// Puts an instruction before the others, whose taken branch and whose fall-through lead to places, if it has them.
    /// Returns its own place.
    ///
    /// # Errors
    /// `TooLong` where there is no room, `Memory`.
    pub(crate) fn put(
        &mut self,
        insn: Insn,
        taken: Option<usize>,
        next: Option<usize>,
    ) -> Result<usize, OrderError>
        requires tail { IsTail self.old }
        requires fits { Fits insn }
        requires taken { HasPlace (tail_list self.old) insn taken }
        requires next { BeginsAt (tail_list self.old) next }
        ensures tail { OnOk result (IsTail self.new) }
        ensures list { OnOk result (tail_list self.new ≡ put_before (tail_list self.old) insn taken next) }
        ensures place { IfOk result (λ place. place ≡ slot_count (tail_list self.new)) }
        ensures err { IfErr result (IsNoRoom (slot_count (put_before (tail_list self.old) insn taken next))) }
    {
        self.bridge_if(next)?;
        self.put_jump(insn, taken)?;
        Ok(self.slots)
    }

    /// Returns the instructions in their order.
    pub(crate) fn into_code(self) -> Vec<Insn>
        ensures { result.items ≡ tail_list self }
    {
        let mut back = self.back;
        back.reverse();
        back
    }
}
