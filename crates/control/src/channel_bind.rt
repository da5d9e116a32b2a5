//! ChannelBind (RFC 8656, section 12).

ghost use Rattle.std.specs.Prelude.{◌≡◌, ◌≤◌, length};
ghost use Rattle.tables.specs.Moments.{moment_of};
ghost use Rattle.tables.specs.Rows.{rows_at};
ghost use Rattle.tables.specs.declared.channels.TheConstants.{FIRST_CHANNEL, LAST_CHANNEL};
ghost use Rattle.stun.specs.Ranges.{is_between};
ghost use Rattle.control.specs.Serving.{Gives};
ghost use Rattle.control.specs.Control.{channel_bind};

use crate::owning::{error_of, own_allocation};
use crate::reply::Grant;
use crate::values::{channel_of, peer_of};
use attributes::Addr;
use stun::Message;
use stun::registry::ErrorCode;
use tables::{FIRST_CHANNEL, LAST_CHANNEL, Tables};

/// Returns whether a channel may be bound under this number (RFC 8656, section 12).
fn is_bindable(number: u16) -> bool
    ensures { result ≡ is_between FIRST_CHANNEL LAST_CHANNEL number }
{
    (FIRST_CHANNEL..=LAST_CHANNEL).contains(&number)
}

/// Answers a ChannelBind request of a user.
///
/// # Errors
/// The error of the first test that fails.
pub(crate) fn channel_bind(
    tables: &mut Tables,
    client: Addr,
    user: usize,
    message: &Message<'_>,
    now: u64,
) -> Result<Grant, ErrorCode>
    ensures gives { Gives (channel_bind client user message.now (rows_at now tables.old)) tables.old result tables.new }
    ensures moment { (tables.old.moment ≤ tables.new.moment)
        × (tables.new.moment ≤ moment_of tables.old.moment now) }
    ensures slots { length tables.new.slots ≡ length tables.old.slots }
{
    let allocation = own_allocation(tables, client, user, now)?;
    let number = channel_of(message)?;
    let peer = peer_of(message)?;
    if !is_bindable(number) {
        return Err(ErrorCode::BadRequest);
    }
    match tables.bind(now, allocation.slot, number, peer) {
        Ok(()) => Ok(Grant::Done),
        Err(refused) => Err(error_of(refused)),
    }
}
