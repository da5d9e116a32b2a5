//! Explanations: why a step sends what it does, found before the step.

ghost use Rattle.std.specs.Prelude.{◌≡◌, ℕ, List, [], ◌∷◌, ◌++◌, if◌then◌else◌, true, false, Some, None, option_map};
ghost use Rattle.control.specs.declared.config.Config.{Config};
ghost use Rattle.events.specs.Events.{Event};
ghost use Rattle.events.specs.declared.meta.Source.{Source};
ghost use Rattle.machine.specs.Tracing.{EndsWith};
ghost use Rattle.programs.specs.Runs.{run_for};
ghost use Rattle.relay.specs.ByPrograms.{Programs, program_for};
ghost use Rattle.relay.specs.Forwarding.{held_for};
ghost use Rattle.relay.specs.EventRuns.{side_of};
ghost use Rattle.relay.specs.Evidence.{reason_by};
ghost use Rattle.relay.specs.Reasons.{exit_slot, missing_to_peer, reason_of_datagram, reason_of_event, unsent_by_run, HoldsAtExit};
ghost use Rattle.relay.specs.ReasonTexts.{line_ending};
ghost use Rattle.relay.specs.Replays.{answer_text};
ghost use Rattle.relay.specs.declared.reason.StepReason.TheVariants.{Program};
ghost use Rattle.relay.specs.declared.reason.Unsent.{Unsent};
ghost use Rattle.rules.specs.Systems.{SystemState};
ghost use Rattle.semantics.specs.Runs.{Exited, Run};
ghost use Rattle.tables.specs.Rows.{Rows, rows_at};

use crate::reason::{StepReason, Unsent, reason_of};
use crate::relay::Relay;
use attributes::Addr;
use events::{Parsed, Source, parse};
use insn::Insn;
use machine::{Outcome, Side, Sink, Stuck};
use programs::SENDS;
use rules::{Discard, Disposition};
use tables::LiveSlot;

/// A sink that keeps the slot of the last step.
#[derive(Clone, Copy)]
pub(crate) struct LastSlot {
    pub(crate) slot: usize,
}

impl Sink for LastSlot {
    ghost use Rattle.std.specs.Prelude.{◌≡◌, ℕ};
    ghost use Rattle.semantics.specs.declared.fetching.Visit.{Visit};

    ghost Log = { ℕ };

    ghost log = { λ s. s.slot };

    ghost Logs = { λ old v new. new ≡ v.slot };

    fn step(&mut self, slot: usize, _insn: &Insn) {
        self.slot = slot;
    }
}

/// What explains the step of a datagram, as it is found before the step.
#[derive(Clone, Copy)]
pub(crate) struct Evidence {
    /// Why the rules send nothing, if they do.
    pub(crate) ruled: Option<Discard>,
    /// The slot at which the run of the program exits.
    pub(crate) slot: usize,
    /// Why the program sends nothing there, where it does.
    pub(crate) unsent: Unsent,
}

/// Returns what is missing first, beside a window, of what a client's program would send, where something is.
fn missing_to_peer(live: &Option<LiveSlot<'_>>, destination: Option<Addr>) -> Unsent
    ensures { result ≡ missing_to_peer (option_map (λ held. held.allocation) live.now) destination }
{
    match (live, destination) {
        (None, _) => Unsent::NoAllocation,
        (Some(_), None) => Unsent::NoDestination,
        (Some(_), Some(_)) => Unsent::OtherFamily,
    }
}

/// Returns why the program of a source sends nothing, where it does, by what is live in the slot in which helpers look
/// up and by the end of its run.
pub(crate) fn unsent_at(
    from: &Source,
    live: &Option<LiveSlot<'_>>,
    end: &Result<Outcome, Stuck>,
) -> Unsent
    ensures { (rows : Rows) (r : Run) → live.now ≡ held_for from.now rows → EndsWith end.now r
        → result ≡ unsent_by_run from.now rows r }
{
    // a verified program always exits
    let Ok(outcome) = end else {
        return Unsent::Verdict(0);
    };
    if outcome.verdict != SENDS {
        return Unsent::Verdict(outcome.verdict);
    }
    if outcome.window.is_none() {
        return Unsent::NoWindow;
    }
    match *from {
        Source::Client(_) => missing_to_peer(live, outcome.destination),
        Source::Peer { .. } => Unsent::NoAllocation,
    }
}

/// Returns the reason of a step that did this, where there is evidence.
pub(crate) fn reason_by(done: Disposition, evidence: Option<Evidence>) -> Option<StepReason>
    ensures { result ≡ reason_by done evidence }
{
    let Evidence {
        ruled,
        slot,
        unsent,
    } = evidence?;
    Some(reason_of(done, ruled, slot, unsent))
}

/// States what reasons are of: the slot that one names is that of the last state of the program's run, which exits
/// there; what it says of why nothing is sent holds there; and a line with a reason is the line without it, up to its
/// line feed, and the reason.
pub fn law_reasons_are_of_the_answers()
    ensures exit { (programs : Programs) (tx : List ℕ) (from : Source) (live : Rows) (bytes : List ℕ) (verdict : ℕ)
        → (run_for (program_for programs from) tx from live bytes).ending ≡ Exited verdict
        → exit_slot programs tx from live bytes ≡ (run_for (program_for programs from) tx from live bytes).state.slot }
    ensures unsent { (programs : Programs) (config : Config) (now : ℕ) (tx : List ℕ) (from : Source) (rows : Rows)
        (bytes : List ℕ) (slot : ℕ) (unsent : Unsent) (verdict : ℕ)
        → reason_of_datagram programs config now tx from rows bytes ≡ Program slot unsent
        → (run_for (program_for programs from) tx from (rows_at now rows) bytes).ending ≡ Exited verdict
        → HoldsAtExit from (rows_at now rows) verdict
        (run_for (program_for programs from) tx from (rows_at now rows) bytes).state unsent }
    ensures line { (programs : Programs) (config : Config) (s : SystemState) (e : Event) → (answer : List ℕ)
        × (answer_text false programs config s e ≡ answer ++ 10 ∷ [])
        × (answer_text true programs config s e ≡ answer ++ line_ending (Some (reason_of_event programs config s e))) }
{}

/// Returns the side that a datagram comes from.
pub fn side_of(from: &Source) -> Side
    ensures { result ≡ side_of from.now }
{
    match from {
        Source::Client(_) => Side::Client,
        Source::Peer { .. } => Side::Peer,
    }
}

/// Returns a reason where reasons are wanted.
pub(crate) fn reason_if(explains: bool, reason: StepReason) -> Option<StepReason>
    ensures { result ≡ (if explains then Some reason else None) }
{
    if explains { Some(reason) } else { None }
}

impl Relay {
    ghost use Rattle.std.specs.Prelude.{◌≡◌};
    ghost use Rattle.control.specs.declared.config.Config.{Config};
    ghost use Rattle.events.specs.Reading.{event_in};
    ghost use Rattle.relay.specs.EventRuns.{run_of_event, IsTraced};
    ghost use Rattle.relay.specs.Evidence.{evidence_of_line};

    /// Traces the run that the step of the event of a line makes, if it is a datagram's, and returns its side and its
    /// end. The steps are reported to the sink, and it writes over the room.
    pub fn trace_line<S: Sink>(
        &mut self,
        line: &[u8],
        sink: &mut S,
    ) -> Option<(Side, Result<Outcome, Stuck>)>
        ensures traced { IsTraced S.Logs (S.log sink.old) (S.log sink.new)
            (run_of_event self.old (event_in self.old.config.slots line.now)) result }
        ensures rest { self.new ≡ record self.old { frame = self.new.frame } }
    {
        let slots = self.slots();
        match parse(line, slots, self.area()) {
            Some(Parsed::Datagram { meta, n }) => {
                let end = self.traced(&meta, n, sink);
                Some((side_of(&meta.from), end))
            }
            _ => None,
        }
    }

    /// Finds what explains the step of the datagram of a line, if it has one, where reasons are wanted. It writes over
    /// the room.
    /// See docs/DECISIONS.md, "Why a replay answers so".
    pub(crate) fn evidence_of_line(&mut self, line: &[u8], explains: bool) -> Option<Evidence>
        ensures evidence { (config : Config) → result
            ≡ evidence_of_line explains config self.old (event_in self.old.config.slots line.now) }
        ensures rest { self.new ≡ record self.old { frame = self.new.frame } }
    {
        if !explains {
            return None;
        }
        let slots = self.slots();
        match parse(line, slots, self.area()) {
            Some(Parsed::Datagram { meta, n }) => Some(self.evidence(&meta, n)),
            _ => None,
        }
    }
}
