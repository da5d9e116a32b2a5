//! Why a step sent what it did, and its text.

ghost use Rattle.std.specs.Prelude.{◌≡◌, ◌+◌, ◌≤◌, ◌++◌, Some, length};
ghost use Rattle.arrayvec.specs.ArrayVec.{array_vec_len};
ghost use Rattle.control.specs.declared.response.Response.TheVariants as response;
ghost use Rattle.relay.specs.Reasons.{reason_of, reason_of_exit};
ghost use Rattle.relay.specs.ReasonTexts.{credentials_text, discard_text, disposition_text, explanation_text, grant_text, line_ending, response_text, unsent_text};
ghost use Rattle.relay.specs.declared.reason.TheConstants.{ENDING, LONGEST, LONGEST_UNSENT};

use arrayvec::ArrayVec;
use control::{Grant, Response};
use credentials::AuthError;
use events::{push_bytes, push_number};
use rules::{Discard, Disposition};
use stun::registry::{ErrorCode, law_phrases_are_short};

/// Why a step sent what it did, as a replay explains it.
#[derive(Clone, Copy, Debug, PartialEq, Eq)]
pub enum StepReason {
    /// The event was a nonce, which was set.
    NonceSet,
    /// This was done with the datagram. Where a program sends nothing and the rules would neither, it is why they
    /// wouldn't.
    Done(Disposition),
    /// The program of the datagram's side sends nothing where the rules would: its run exits at this slot, and this is
    /// why it sends nothing there.
    Program { slot: usize, unsent: Unsent },
}

/// Why a program sends nothing, where its run exits: the first of these that applies.
#[derive(Clone, Copy, Debug, PartialEq, Eq)]
pub enum Unsent {
    /// Its verdict is this one, and not the one that sends.
    Verdict(u64),
    /// It sends, and has set no window.
    NoWindow,
    /// It sends a window, and the slot in which it looks up has no live allocation: the client has none, or the slot
    /// that a peer's datagram came to.
    NoAllocation,
    /// It sends the window of a client's datagram, and has set no destination.
    NoDestination,
    /// It sends the window of a client's datagram to a destination of another family than the allocation's.
    OtherFamily,
}

/// A bound on the length of the text of why a program sends nothing, in bytes.
const LONGEST_UNSENT: usize = 30;

/// A bound on the length of the text of a reason, in bytes.
const LONGEST: usize = LONGEST_UNSENT + 53;

/// Room for what ends a line: three bytes, the text of a reason, and a line feed.
const ENDING: usize = LONGEST + 4;

/// Returns the reason of a step that did this, where the rules send nothing for that reason, if they do, and the run of
/// the program exits at a slot, and sends nothing there for this one.
pub(crate) fn reason_of(
    done: Disposition,
    ruled: Option<Discard>,
    slot: usize,
    unsent: Unsent,
) -> StepReason
    ensures { result ≡ reason_of done ruled slot unsent }
{
    match (done, ruled) {
        (Disposition::Discarded(Discard::ByProgram), Some(reason)) => {
            StepReason::Done(Disposition::Discarded(reason))
        }
        (Disposition::Discarded(Discard::ByProgram), None) => StepReason::Program { slot, unsent },
        _ => StepReason::Done(done),
    }
}

/// Appends what a grant says.
fn push_grant(text: &mut ArrayVec<u8, ENDING>, grant: Grant)
    requires { array_vec_len text.old + LONGEST ≤ ENDING }
    ensures bytes { text.new.items ≡ text.old.items ++ grant_text grant }
    ensures len { array_vec_len text.new ≤ array_vec_len text.old + LONGEST }
{
    match grant {
        Grant::Mapped => push_bytes(text, b"granted an address"),
        Grant::Allocated { slot, lifetime, .. } => {
            push_bytes(text, b"allocated slot ");
            push_number(text, slot);
            push_bytes(text, b" for ");
            push_number(text, lifetime);
            push_bytes(text, b" seconds");
        }
        Grant::Refreshed { lifetime: 0 } => push_bytes(text, b"ended"),
        Grant::Refreshed { lifetime } => {
            push_bytes(text, b"refreshed for ");
            push_number(text, lifetime);
            push_bytes(text, b" seconds");
        }
        Grant::Done => push_bytes(text, b"granted"),
    }
}

/// Returns which test the credentials failed, in at most 22 bytes.
fn credentials_text(error: AuthError) -> &'static [u8]
    ensures text { result.now ≡ credentials_text error }
    ensures short { length result.now ≤ 22 }
{
    match error {
        AuthError::Missing => b"no credentials",
        AuthError::Incomplete => b"incomplete credentials",
        AuthError::StaleNonce => b"stale nonce",
        AuthError::UnknownUser => b"unknown user",
        AuthError::WrongIntegrity => b"wrong password",
        AuthError::Expired => b"expired",
    }
}

/// Appends a refusal, with the code and the phrase of its error.
fn push_refusal(text: &mut ArrayVec<u8, ENDING>, error: ErrorCode)
    requires { array_vec_len text.old + LONGEST ≤ ENDING }
    ensures bytes { text.new.items ≡ text.old.items ++ response_text (response.Refused error) }
    ensures len { array_vec_len text.new ≤ array_vec_len text.old + LONGEST }
{
    law_phrases_are_short();
    push_bytes(text, b"refused ");
    push_number(text, error.code());
    push_bytes(text, b" ");
    push_bytes(text, error.phrase().as_bytes());
}

/// Appends what a response says.
fn push_response(text: &mut ArrayVec<u8, ENDING>, response: Response)
    requires { array_vec_len text.old + LONGEST ≤ ENDING }
    ensures bytes { text.new.items ≡ text.old.items ++ response_text response }
    ensures len { array_vec_len text.new ≤ array_vec_len text.old + LONGEST }
{
    match response {
        Response::Granted(grant) => push_grant(text, grant),
        Response::Unauthenticated(error) => push_bytes(text, credentials_text(error)),
        Response::Refused(error) => push_refusal(text, error),
    }
}

/// Returns why a datagram is discarded, in at most 17 bytes.
fn discard_text(reason: Discard) -> &'static [u8]
    ensures text { result.now ≡ discard_text reason }
    ensures short { length result.now ≤ 17 }
{
    match reason {
        Discard::NotServed => b"not served",
        Discard::ByProgram => b"by the program",
        Discard::Malformed => b"malformed",
        Discard::NoRequest => b"no request",
        Discard::NoAllocation => b"no allocation",
        Discard::NoChannel => b"no channel",
        Discard::UnknownAttribute => b"unknown attribute",
        Discard::Incomplete => b"incomplete",
        Discard::NoPermission => b"no permission",
        Discard::OtherFamily => b"other family",
        Discard::TooLong => b"too long",
        Discard::Confined => b"confined",
    }
}

/// Appends why a program sends nothing.
fn push_unsent(text: &mut ArrayVec<u8, ENDING>, unsent: Unsent)
    requires { array_vec_len text.old + LONGEST_UNSENT ≤ ENDING }
    ensures bytes { text.new.items ≡ text.old.items ++ unsent_text unsent }
    ensures len { array_vec_len text.new ≤ array_vec_len text.old + LONGEST_UNSENT }
{
    match unsent {
        Unsent::Verdict(verdict) => {
            push_bytes(text, b", verdict ");
            push_number(text, verdict);
        }
        Unsent::NoWindow => push_bytes(text, b", without a window"),
        Unsent::NoAllocation => push_bytes(text, b", without an allocation"),
        Unsent::NoDestination => push_bytes(text, b", without a destination"),
        Unsent::OtherFamily => push_bytes(text, b", to another family"),
    }
}

/// Appends the text of a reason.
fn push_reason(text: &mut ArrayVec<u8, ENDING>, reason: StepReason)
    requires { array_vec_len text.old + LONGEST ≤ ENDING }
    ensures bytes { text.new.items ≡ text.old.items ++ explanation_text reason }
    ensures len { array_vec_len text.new ≤ array_vec_len text.old + LONGEST }
{
    match reason {
        StepReason::NonceSet => push_bytes(text, b"nonce set"),
        StepReason::Done(Disposition::Relayed) => push_bytes(text, b"relayed"),
        StepReason::Done(Disposition::Answered(response)) => push_response(text, response),
        StepReason::Done(Disposition::Discarded(reason)) => push_bytes(text, discard_text(reason)),
        StepReason::Program { slot, unsent } => {
            push_bytes(text, b"discarded by the program at slot ");
            push_number(text, slot);
            push_unsent(text, unsent);
        }
    }
}

/// Returns what ends the line of an answer with this reason, line feed included.
pub(crate) fn ending(reason: StepReason) -> ArrayVec<u8, ENDING>
    ensures { result.items ≡ line_ending (Some reason) }
{
    let mut text = ArrayVec::new();
    push_bytes(&mut text, b" ; ");
    push_reason(&mut text, reason);
    push_bytes(&mut text, b"\n");
    text
}
