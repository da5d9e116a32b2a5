//! Refresh (RFC 8656, section 8).

ghost use Rattle.std.specs.Prelude.{◌≡◌, ◌≤◌, length};
ghost use Rattle.tables.specs.Moments.{moment_of};
ghost use Rattle.tables.specs.Rows.{rows_at};
ghost use Rattle.control.specs.Serving.{Gives};
ghost use Rattle.control.specs.Control.{refresh_decision, family_number};

use crate::lifetime::refresh_for;
use crate::owning::{error_of, own_allocation};
use crate::reply::Grant;
use crate::values::{family_of, lifetime_of};
use attributes::{Addr, Family};
use stun::Message;
use stun::registry::{ErrorCode, family};
use tables::Tables;

/// Returns the number of a family (RFC 8656, section 18.6).
fn family_number(family: Family) -> u8
    ensures { result ≡ family_number family }
{
    match family {
        Family::Ipv4 => family::IPV4,
        Family::Ipv6 => family::IPV6,
    }
}

/// Answers a Refresh request of a user.
///
/// # Errors
/// The error of the first test that fails.
pub(crate) fn refresh(
    tables: &mut Tables,
    client: Addr,
    user: usize,
    message: &Message<'_>,
    now: u64,
) -> Result<Grant, ErrorCode>
    ensures gives { Gives (refresh_decision client user message.now
        (rows_at now tables.old)) tables.old result tables.new }
    ensures moment { (tables.old.moment ≤ tables.new.moment)
        × (tables.new.moment ≤ moment_of tables.old.moment now) }
    ensures slots { length tables.new.slots ≡ length tables.old.slots }
{
    let allocation = own_allocation(tables, client, user, now)?;
    let own = family_number(allocation.family);
    if family_of(message)?.is_some_and(|requested| requested != own) {
        return Err(ErrorCode::PeerAddressFamilyMismatch);
    }
    let lifetime = refresh_for(lifetime_of(message)?);
    match tables.refresh(now, allocation.slot, lifetime) {
        Ok(()) => Ok(Grant::Refreshed { lifetime }),
        Err(refused) => Err(error_of(refused)),
    }
}
