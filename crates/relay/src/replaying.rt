//! Replays of event text: events come from a reader, and their answers go to a writer.

ghost use Rattle.std.specs.Prelude.{◌≡◌, ◌<◌, ◌^◌, ◌⊎◌, ◌++◌, ℕ, List, All, false, IfSome, is_some, is_err, IfOk, IfErr, OnOk, OnErr};
ghost use Rattle.std.specs.Io.KnownBytes.{Appends};
ghost use Rattle.basics.specs.Outputs.{AppendsBeginning};
ghost use Rattle.events.specs.Actions.{sending_of};
ghost use Rattle.events.specs.Lines.{answer_line};
ghost use Rattle.relay.specs.ReasonTexts.{line_ending};
ghost use Rattle.relay.specs.declared.replaying.ReplayError.TheVariants as errors;

use crate::explaining::{reason_by, reason_if};
use crate::lines::next_line;
use crate::reason::{StepReason, ending};
use crate::relay::Relay;
use basics::streams::{Failed, Input, Output};
use events::{Action, Parsed, parse, write_answer};
use std::alloc::Global;
use std::io::{BufRead, Write};
use thiserror::Error;

/// Why a replay stopped.
#[derive(Clone, Copy, Debug, PartialEq, Eq, Error)]
pub enum ReplayError {
    /// The line of this number, from 1 on, is no event's.
    #[error("refused line {0}")]
    Line(u64),
    /// The input failed.
    #[error("cannot read the events")]
    Read,
    /// The output failed.
    #[error("cannot write output")]
    Write,
    /// Memory ran out.
    #[error("out of memory")]
    Memory,
}

/// Writes the line of what a step sends, with this reason, if there is one.
///
/// # Errors
/// Where the output fails; a beginning of the line was written.
fn write_with<W: Write>(
    output: &mut Output<W>,
    action: &Action<'_>,
    reason: Option<StepReason>,
) -> Result<(), Failed>
    requires { output.old.failed ≡ false }
    ensures ok { OnOk result (Appends output.old.contents output.new.contents
        (answer_line (sending_of action.now) ++ line_ending reason)) }
    ensures err { OnErr result (AppendsBeginning output.old.contents output.new.contents
        (answer_line (sending_of action.now) ++ line_ending reason)) }
    ensures failed { output.new.failed ≡ is_err result }
{
    match reason {
        None => write_answer(output, action, b"\n"),
        Some(reason) => write_answer(output, action, ending(reason).as_slice()),
    }
}

impl Relay {
    ghost use Rattle.events.specs.Reading.{event_in};
    ghost use Rattle.relay.specs.Replays.{system_of, after_line, answer_to, is_read_failure, is_write_failure};
    ghost use Rattle.relay.specs.Replays.{IsCut, IsSameRelay, HasPlayedAll, StopsAtLine, StopsBefore, StopsWriting};
    ghost use Rattle.rules.specs.ByRules.{by_rules};
    ghost use Rattle.relay.specs.Relays.{state_of};
    ghost use Rattle.relay.specs.Confinement.{SendsWhatIsPermitted};
    ghost use Rattle.relay.specs.Shipped.{AreShipped, AnswerAlike};
    ghost use Rattle.events.specs.Events.{Event};
    ghost use Rattle.events.specs.Lines.{IsEvent};

    /// Continues by the event of a line, and writes the line of its answer, with the reason where `explains` says so.
    /// Returns whether the line is an event's.
    ///
    /// # Errors
    /// Where the output fails; a beginning of the line was written.
    pub fn play<W: Write>(
        &mut self,
        line: &[u8],
        output: &mut Output<W>,
        explains: bool,
    ) -> Result<bool, Failed>
        requires { output.old.failed ≡ false }
        ensures known { IfOk result (λ more. more ≡ is_some (event_in self.old.config.slots line.now)) }
        ensures state { state_of self.new ≡ after_line (system_of self.old) self.old.config (state_of self.old)
            (event_in self.old.config.slots line.now) }
        ensures same { IsSameRelay self.old self.new }
        ensures few { self.old.config.slots < 2 ^ 64 }
        ensures written { OnOk result (Appends output.old.contents output.new.contents
            (answer_to explains self.old.programs self.old.config (state_of self.old)
            (event_in self.old.config.slots line.now))) }
        ensures cut { OnErr result (IsCut explains output.old.contents output.new.contents self.old.programs
            self.old.config (state_of self.old) (event_in self.old.config.slots line.now)) }
        ensures failed { output.new.failed ≡ is_err result }
    {
        let evidence = self.evidence_of_line(line, explains);
        let slots = self.slots();
        match parse(line, slots, self.area()) {
            None => Ok(false),
            Some(Parsed::Nonce(text)) => {
                let _ = self.set_nonce(text);
                write_with(
                    output,
                    &Action::Nothing,
                    reason_if(explains, StepReason::NonceSet),
                )?;
                Ok(true)
            }
            Some(Parsed::Datagram { meta, n }) => {
                let step = self.step(meta, n);
                write_with(output, &step.action, reason_by(step.disposition, evidence))?;
                Ok(true)
            }
        }
    }

    /// Reads events, a line each, and writes the line of each answer, and where `explains` says so, on each line why
    /// the answer is so. With the shipped programs these are the answers of the rules. Where programs are confined,
    /// each of them sends only what is permitted. Nothing is written after the first failure of the output.
    /// See docs/DECISIONS.md, "A replay does not flush" and "Why a replay answers so".
    ///
    /// # Errors
    /// `Line` at the first line that is no event's, `Read` exactly where the input fails, and `Memory` where a line
    /// doesn't fit: the relay is as after the events before that line, and their answers were written. `Write` exactly
    /// where the output fails: the relay is as after the event whose answer couldn't be written, of whose line a
    /// beginning was written.
    pub fn replay<R: BufRead, W: Write>(
        &mut self,
        alloc: Global,
        input: &mut Input<R>,
        output: &mut Output<W>,
        explains: bool,
    ) -> Result<(), ReplayError>
        requires reads { input.old.failed ≡ false }
        requires writes { output.old.failed ≡ false }
        ensures ok { OnOk result (HasPlayedAll explains input.old.remaining input.new.remaining self.old self.new
            output.old.contents output.new.contents) }
        ensures line { IfErr result (λ e. (n : ℕ) → e ≡ errors.Line n
            → StopsAtLine explains n input.old.remaining self.old self.new output.old.contents output.new.contents) }
        ensures before { IfErr result (λ e. (e ≡ errors.Read) ⊎ (e ≡ errors.Memory)
            → StopsBefore explains input.old.remaining self.old self.new output.old.contents output.new.contents) }
        ensures writing { IfErr result (λ e. e ≡ errors.Write
            → StopsWriting explains input.old.remaining self.old self.new output.old.contents output.new.contents) }
        ensures read { input.new.failed ≡ is_read_failure result }
        ensures write { output.new.failed ≡ is_write_failure result }
        ensures rules { AreShipped self.old.programs → (events : List Event)
            → All (IsEvent self.old.config.slots) events
            → AnswerAlike (system_of self.old) by_rules self.old.config (state_of self.old) events }
        ensures permitted { IfSome self.old.programs.confinement (λ confinement.
            SendsWhatIsPermitted confinement.aliases.items (system_of self.old) self.old.config (state_of self.old)) }
    {
        self.law_plays_by_rules();
        self.law_plays_are_permitted();
        let mut line = Vec::new(alloc);
        let mut count = 0u64;
        'lines: loop {
            if !next_line(input, &mut line)? {
                return Ok(());
            }
            count += 1;
            let Ok(known) = self.play(&line, output, explains) else {
                return Err(ReplayError::Write);
            };
            if !known {
                return Err(ReplayError::Line(count));
            }
        }
    }
}
