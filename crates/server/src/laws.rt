//! Laws of rounds, of work beside datagrams, and of counters.

ghost use Rattle.std.specs.Prelude.{List};
ghost use Rattle.server.specs.Counters.{CountsEachOnce};
ghost use Rattle.server.specs.Duties.{IsDoneInTurn};
ghost use Rattle.server.specs.Rounds.{IsFair};
ghost use Rattle.server.specs.declared.schedule.Status.{Status};

/// States that rounds are fair: in one round no endpoint has more than one turn, and each endpoint that is ready or
/// reported has one; so no endpoint has more than two from any moment of a round to any moment of the next.
pub fn law_rounds_are_fair()
    ensures { (endpoints : List Status) → IsFair endpoints }
{}

/// States that what is due of a kind of work is done at the latest when its turn comes, after four pieces of other
/// kinds at most.
pub fn law_each_duty_has_its_turn()
    ensures { IsDoneInTurn }
{}

/// States that each datagram is counted exactly once as one that came, and exactly once by what became of it.
pub fn law_each_datagram_is_counted_once()
    ensures { CountsEachOnce }
{}
