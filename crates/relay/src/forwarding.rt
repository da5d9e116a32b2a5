//! What a step finds, before it is lent.

ghost use Rattle.std.specs.Prelude.{◌≡◌, ◌≤◌, ◌+◌, ℕ, List, true, option_map, option_copied};
ghost use Rattle.tables.specs.Rows.{rows_at};
ghost use Rattle.tables.specs.WellFormed.{AreWellFormed};
ghost use Rattle.events.specs.Actions.{sending_of};
ghost use Rattle.events.specs.Events.{ToClient, ToPeer};
ghost use Rattle.programs.specs.Runs.{planned_sending};
ghost use Rattle.relay.specs.ByPrograms.{disposition_of_sent, let_through};
ghost use Rattle.relay.specs.KeysCompared.{keys_of_permitting};
ghost use Rattle.relay.specs.Forwarding.{asked, disposition_of_forwarding, is_of_window, may_come, may_go, sending_of_forwarding, held_for, window_shown, HasRoomFor};
ghost use Rattle.relay.specs.Relays.{RelayContents};

use attributes::Addr;
use events::{Action, Source};
use rules::{Answer, Confinement, Discard};
use tables::{Count, LiveSlot};

/// What is to be sent, as a step finds it.
#[derive(Clone, Copy)]
pub(crate) enum Forwarding {
    /// Nothing is sent, for this reason.
    Nothing(Discard),
    /// The window would be sent, if there is one, but the client hasn't permitted it.
    Stopped,
    /// The window, from a slot to a peer.
    WindowToPeer { slot: usize, peer: Addr },
    /// The window, to a client.
    WindowToClient { client: Addr },
    /// What the rules answer to a client's datagram.
    Answer(Answer),
}

/// What a step finds, and the verdict of the program that ran.
#[derive(Clone, Copy)]
pub(crate) struct Decided {
    pub(crate) forwarding: Forwarding,
    /// `None` where no program ran.
    pub(crate) verdict: Option<u64>,
}

/// Returns whether data may go to a peer: anywhere, where programs are not confined, or where that isn't asked.
#[inline(always)]
fn may_go<C: Count>(
    confinement: &Option<Confinement>,
    asks: bool,
    live: &LiveSlot<'_>,
    peer: Addr,
    keys: &mut C,
) -> bool
    ensures may { result ≡ may_go (asked asks confinement.now) live.now peer }
    ensures keys { C.count keys.new ≤ C.count keys.old + keys_of_permitting confinement.now }
{
    if !asks {
        return true;
    }
    match confinement {
        None => true,
        Some(confinement) => confinement.lets_reach(live, peer, keys),
    }
}

/// Returns whether data may come from a peer: from anywhere, where programs are not confined, or where that isn't
/// asked.
#[inline(always)]
fn may_come<C: Count>(
    confinement: &Option<Confinement>,
    asks: bool,
    live: &LiveSlot<'_>,
    peer: Addr,
    keys: &mut C,
) -> bool
    ensures may { result ≡ may_come (asked asks confinement.now) live.now peer }
    ensures keys { C.count keys.new ≤ C.count keys.old + keys_of_permitting confinement.now }
{
    if !asks {
        return true;
    }
    match confinement {
        None => true,
        Some(confinement) => confinement.lets_in(live, peer, keys),
    }
}

/// Returns the finding of what verdict 2 sends, by what is live in the slot in which helpers look up. Nothing goes to
/// an address that isn't of the allocation's family, and where programs are confined and that is asked, nothing goes to
/// a peer, or comes from one, that the client hasn't permitted. `keys` counts the keys that are compared.
/// See docs/DECISIONS.md, "One family" and "Confined programs".
#[inline(always)]
pub(crate) fn window_forwarding<C: Count>(
    from: &Source,
    live: &Option<LiveSlot<'_>>,
    destination: Option<Addr>,
    confinement: &Option<Confinement>,
    asks: bool,
    keys: &mut C,
) -> Forwarding
    ensures sends { (r : RelayContents) → AreWellFormed (rows_at r.greatest r.rows)
        → live.now ≡ held_for from.now (rows_at r.greatest r.rows)
        → sending_of_forwarding r from.now result
        ≡ let_through (asked asks confinement.now) from.now (rows_at r.greatest r.rows)
        (planned_sending from.now (rows_at r.greatest r.rows) destination (window_shown r.frame)) }
    ensures disposition { (r : RelayContents) → AreWellFormed (rows_at r.greatest r.rows)
        → live.now ≡ held_for from.now (rows_at r.greatest r.rows)
        → disposition_of_forwarding r from.now result
        ≡ disposition_of_sent (asked asks confinement.now) from.now (rows_at r.greatest r.rows)
        (planned_sending from.now (rows_at r.greatest r.rows) destination (window_shown r.frame)) }
    ensures window { is_of_window result ≡ true }
    ensures room { (reply : List ℕ) → HasRoomFor result reply }
    ensures keys { C.count keys.new ≤ C.count keys.old + keys_of_permitting confinement.now }
{
    let Some(live) = live else {
        return Forwarding::Nothing(Discard::ByProgram);
    };
    let allocation = live.allocation();
    match *from {
        Source::Client(_) => {
            let Some(peer) = destination else {
                return Forwarding::Nothing(Discard::ByProgram);
            };
            if !peer.is_of_family(allocation.family) {
                return Forwarding::Nothing(Discard::ByProgram);
            }
            if !may_go(confinement, asks, live, peer, keys) {
                return Forwarding::Stopped;
            }
            Forwarding::WindowToPeer {
                slot: allocation.slot,
                peer,
            }
        }
        Source::Peer { addr, .. } => {
            if !may_come(confinement, asks, live, addr, keys) {
                return Forwarding::Stopped;
            }
            Forwarding::WindowToClient {
                client: allocation.client,
            }
        }
    }
}

/// Sends a window from a slot to a peer.
pub(crate) fn window_to_peer(slot: usize, peer: Addr, window: Option<&[u8]>) -> Action<'_>
    ensures { sending_of result ≡ option_map (ToPeer slot peer) (option_copied window.entry) }
{
    match window {
        Some(bytes) => Action::ToPeer { slot, peer, bytes },
        None => Action::Nothing,
    }
}

/// Sends a window to a client.
pub(crate) fn window_to_client(client: Addr, window: Option<&[u8]>) -> Action<'_>
    ensures { sending_of result ≡ option_map (ToClient client) (option_copied window.entry) }
{
    match window {
        Some(bytes) => Action::ToClient { client, bytes },
        None => Action::Nothing,
    }
}
