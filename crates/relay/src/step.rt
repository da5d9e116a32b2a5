//! What a step gives.

ghost use Rattle.std.specs.Prelude.{◌≡◌, None, option_copied};
ghost use Rattle.events.specs.Actions.{sending_of};
ghost use Rattle.relay.specs.ByPrograms.{relayed_where_sent};
ghost use Rattle.relay.specs.Forwarding.{stopped_where_shown};
ghost use Rattle.rules.specs.declared.disposition.Disposition.TheVariants.{Discarded};

use crate::choosing::Choice;
use events::Action;
use rules::{Discard, Disposition};

/// What a step sends, and what it did with its datagram.
#[derive(Clone, Copy, Debug)]
pub struct Step<'a> {
    /// What is to be sent.
    pub action: Action<'a>,
    /// What was done with the datagram.
    pub disposition: Disposition,
    /// The verdict of the program that ran over the datagram; `None` where its source isn't served, so that none ran.
    pub verdict: Option<u64>,
    /// The bytes that the rules got, where the program passed a client's datagram on.
    pub passed: Option<&'a [u8]>,
}

impl<'a> Step<'a> {
    ghost use Rattle.std.specs.Prelude.{◌≡◌, option_copied};
    ghost use Rattle.events.specs.Actions.{sending_of};
    ghost use Rattle.relay.specs.Lent.{chosen_by_step, chosen_in};

    /// Returns what the program did with the datagram.
    pub fn choice(&self) -> Choice<'a>
        ensures { chosen_in result ≡ chosen_by_step (option_copied self.now.passed) (sending_of self.now.action) }
    {
        match self.passed {
            Some(bytes) => Choice::Passes(bytes),
            None => Choice::Sends(self.action),
        }
    }
}

/// Returns the step of a program that sends this.
#[inline(always)]
pub(crate) fn relayed(action: Action<'_>, verdict: Option<u64>) -> Step<'_>
    ensures action { sending_of result.action ≡ sending_of action.entry }
    ensures disposition { result.disposition ≡ relayed_where_sent (sending_of action.entry) }
    ensures verdict { result.verdict ≡ verdict }
    ensures passed { option_copied result.passed ≡ None }
{
    let disposition = match action {
        Action::Nothing => Disposition::Discarded(Discard::ByProgram),
        _ => Disposition::Relayed,
    };
    Step {
        action,
        disposition,
        verdict,
        passed: None,
    }
}

/// Returns the step that sends nothing, for a reason.
pub(crate) fn discarded<'a>(reason: Discard, verdict: Option<u64>) -> Step<'a>
    ensures action { sending_of result.action ≡ None }
    ensures disposition { result.disposition ≡ Discarded reason }
    ensures verdict { result.verdict ≡ verdict }
    ensures passed { option_copied result.passed ≡ None }
{
    Step {
        action: Action::Nothing,
        disposition: Disposition::Discarded(reason),
        verdict,
        passed: None,
    }
}

/// Returns the step that sends nothing of a window that the client hasn't permitted.
pub(crate) fn stopped<'a>(window: Option<&[u8]>, verdict: Option<u64>) -> Step<'a>
    ensures action { sending_of result.action ≡ None }
    ensures disposition { result.disposition ≡ stopped_where_shown (option_copied window.entry) }
    ensures verdict { result.verdict ≡ verdict }
    ensures passed { option_copied result.passed ≡ None }
{
    match window {
        Some(_) => discarded(Discard::Confined, verdict),
        None => discarded(Discard::ByProgram, verdict),
    }
}
