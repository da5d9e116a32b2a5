//! One turn that is neither recorded nor filtered.

ghost use Rattle.server.specs.Serving.{IsServed};

use crate::counters::TurnOutcome;
use crate::link::{Link, LinkFault, Place};
use crate::recorder::Unrecorded;
use crate::turning::{Arrival, Served, take};
use relay::{Disposition, Relay};
use thiserror::Error;

/// Why a turn failed.
#[derive(Clone, Copy, Debug, PartialEq, Eq, Error)]
pub enum ServeError {
    /// The receive failed, or counted more bytes than a datagram may have. The relay is as before.
    #[error("receive fault")]
    Receive,
    /// The send failed. The relay is as after the datagram.
    #[error("send fault")]
    Send,
}

/// Serves one datagram at an endpoint, if one has come there: receives once, steps, and sends the answer, if there is
/// one. Returns what was done with the datagram that came; `None` is that none came. It is a [`turn`](crate::turn()) of
/// which nothing is recorded, counted or denied.
///
/// # Errors
/// `Receive` where the receive fails or counts more than 65,507 bytes; then the relay is as before. `Send` where the
/// send fails; then it is as after the datagram.
pub fn serve_once<L: Link>(
    relay: &mut Relay,
    link: &mut L,
    endpoint: Place,
    now: u64,
    tx: [u8; 12],
) -> Result<Option<Disposition>, ServeError>
    ensures { IsServed endpoint now tx relay.old relay.new (L.calls link.old) (L.calls link.new) result }
{
    let arrival = Arrival { endpoint, now, tx };
    match take(relay, link, &mut Unrecorded, &None, arrival) {
        Err(LinkFault) => Err(ServeError::Receive),
        Ok(None) => Ok(None),
        Ok(Some(Served { outcome, .. })) => match outcome {
            TurnOutcome::Done(disposition) => Ok(Some(disposition)),
            TurnOutcome::SendFailed | TurnOutcome::Denied => Err(ServeError::Send),
        },
    }
}
