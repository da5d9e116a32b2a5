//! What two programs do with a datagram, compared.

ghost use Rattle.std.specs.Prelude.{◌≡◌, Some};
ghost use Rattle.events.specs.Actions.{sending_of};
ghost use Rattle.relay.specs.Lent.{chosen_in};
ghost use Rattle.shadow.specs.Comparisons.{compared, deed_of, goes_same_way, is_same_answer, is_same_choice, is_same_deed, is_same_endpoint};

use attributes::Addr;
use events::Action;
use relay::Choice;

/// What a program does with a datagram.
#[derive(Clone, Copy, Debug, PartialEq, Eq)]
pub enum Deed {
    /// It sends nothing.
    Discards,
    /// It passes the datagram on to the rules.
    PassesOn,
    /// It sends something.
    Sends,
}

/// How what a shadow does with a datagram compares with what the program does.
#[derive(Clone, Copy, Debug, PartialEq, Eq)]
pub enum ChoiceComparison {
    /// The rules get the same bytes, the same bytes are sent to the same address, or nothing is sent.
    Same,
    /// Both pass the datagram on, or both send to the same address, but other bytes.
    OtherBytes,
    /// Both send, but to other addresses.
    Elsewhere,
    /// The program does the first, and the shadow the second.
    Differs(Deed, Deed),
}

/// Returns whether two addresses are the same, with their ports.
fn is_same_endpoint(a: &Addr, b: &Addr) -> bool
    ensures { result ≡ is_same_endpoint a.now b.now }
{
    match (a, b) {
        (Addr::V4 { ip: a, port }, Addr::V4 { ip: b, port: other }) => a == b && port == other,
        (Addr::V6 { ip: a, port }, Addr::V6 { ip: b, port: other }) => a == b && port == other,
        _ => false,
    }
}

/// Returns whether the same is sent, byte for byte and the same way, or nothing either time.
fn is_same_answer(a: &Action<'_>, b: &Action<'_>) -> bool
    ensures { result ≡ is_same_answer (sending_of a.now) (sending_of b.now) }
{
    match (a, b) {
        (Action::Nothing, Action::Nothing) => true,
        (
            Action::ToPeer { slot, peer, bytes },
            Action::ToPeer {
                slot: other_slot,
                peer: other,
                bytes: other_bytes,
            },
        ) => slot == other_slot && is_same_endpoint(peer, other) && bytes == other_bytes,
        (
            Action::ToClient { client, bytes },
            Action::ToClient {
                client: other,
                bytes: other_bytes,
            },
        ) => is_same_endpoint(client, other) && bytes == other_bytes,
        _ => false,
    }
}

/// Returns whether both do the same.
fn is_same_choice(a: &Choice<'_>, b: &Choice<'_>) -> bool
    ensures { result ≡ is_same_choice (chosen_in a.now) (chosen_in b.now) }
{
    match (a, b) {
        (Choice::Passes(a), Choice::Passes(b)) => a == b,
        (Choice::Sends(a), Choice::Sends(b)) => is_same_answer(a, b),
        _ => false,
    }
}

/// Returns whether, of two that do the same deed, neither sends, or both send the same way.
fn goes_same_way(a: &Choice<'_>, b: &Choice<'_>) -> bool
    ensures { result ≡ goes_same_way (chosen_in a.now) (chosen_in b.now) }
{
    let (Choice::Sends(a), Choice::Sends(b)) = (a, b) else {
        return true;
    };
    match (a, b) {
        (Action::Nothing, _) | (_, Action::Nothing) => true,
        (
            Action::ToPeer { slot, peer, .. },
            Action::ToPeer {
                slot: other_slot,
                peer: other,
                ..
            },
        ) => slot == other_slot && is_same_endpoint(peer, other),
        (Action::ToClient { client, .. }, Action::ToClient { client: other, .. }) => {
            is_same_endpoint(client, other)
        }
        _ => false,
    }
}

/// Returns what a program does.
fn deed_of(choice: &Choice<'_>) -> Deed
    ensures { result ≡ deed_of (chosen_in choice.now) }
{
    match choice {
        Choice::Passes(_) => Deed::PassesOn,
        Choice::Sends(Action::Nothing) => Deed::Discards,
        Choice::Sends(_) => Deed::Sends,
    }
}

/// Returns whether two deeds are the same.
fn is_same_deed(a: Deed, b: Deed) -> bool
    ensures { result ≡ is_same_deed a b }
{
    match (a, b) {
        (Deed::Discards, Deed::Discards) => true,
        (Deed::PassesOn, Deed::PassesOn) => true,
        (Deed::Sends, Deed::Sends) => true,
        _ => false,
    }
}

/// Compares what a shadow does with a datagram with what the program does.
pub fn compared(program: Choice<'_>, shadow: Choice<'_>) -> ChoiceComparison
    ensures { result ≡ compared (chosen_in program.entry) (chosen_in shadow.entry) }
{
    if is_same_choice(&program, &shadow) {
        return ChoiceComparison::Same;
    }
    let (first, second) = (deed_of(&program), deed_of(&shadow));
    if !is_same_deed(first, second) {
        ChoiceComparison::Differs(first, second)
    } else if goes_same_way(&program, &shadow) {
        ChoiceComparison::OtherBytes
    } else {
        ChoiceComparison::Elsewhere
    }
}
