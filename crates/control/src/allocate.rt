//! Allocate (RFC 8656, section 7).

ghost use Rattle.std.specs.Prelude.{◌≡◌, ◌≤◌, IfOk, IsTrue, length};
ghost use Rattle.tables.specs.Moments.{moment_of};
ghost use Rattle.tables.specs.Counts.{allocations_of};
ghost use Rattle.tables.specs.Rows.{rows_at};
ghost use Rattle.tables.specs.Addresses.{is_ipv4};
ghost use Rattle.control.specs.Serving.{Gives, HasSlotBelow};
ghost use Rattle.control.specs.Control.{allocate_decision, allocate_anew, allocate_given, acceptable, owner_in, has_quota, family_for, family_numbered, offered, gives_family, is_repeated};

use crate::config::Config;
use crate::lifetime::lifetime_for;
use crate::owning::error_of;
use crate::reply::Grant;
use crate::values::{family_of, lifetime_of, transport_of};
use attributes::{Addr, Family};
use credentials::owner_of;
use stun::Message;
use stun::registry::attribute::USERNAME;
use stun::registry::{ErrorCode, family};
use tables::{Allocation, Tables, Uncounted};

/// The protocol number of UDP.
pub const UDP: u8 = 17;

/// Returns whether an Allocate request is the one that made an allocation.
fn is_repeated(allocation: &Allocation, user: usize, message: &Message<'_>) -> bool
    ensures { result ≡ is_repeated allocation.now user message.now }
{
    allocation.tx == message.tx() && allocation.user == user
}

/// Returns the family of a number (RFC 8656, section 18.6), if it is that of one.
fn family_numbered(number: u8) -> Option<Family>
    ensures { result ≡ family_numbered number }
{
    if number == family::IPV4 {
        Some(Family::Ipv4)
    } else if number == family::IPV6 {
        Some(Family::Ipv6)
    } else {
        None
    }
}

/// Returns whether the relay gives relayed addresses of a family.
fn gives_family(config: &Config, family: Family) -> bool
    ensures { result ≡ gives_family config.now family }
{
    match family {
        Family::Ipv4 => true,
        Family::Ipv6 => config.ip6.is_some(),
    }
}

/// Returns the family to give where one, or none, is requested; `None` where it isn't given.
fn family_for(config: &Config, requested: Option<u8>) -> Option<Family>
    ensures { result ≡ family_for config.now requested }
{
    let Some(number) = requested else {
        return Some(Family::Ipv4);
    };
    let family = family_numbered(number)?;
    if gives_family(config, family) {
        Some(family)
    } else {
        None
    }
}

/// Returns the owner of what is allocated by a request, by its USERNAME.
pub(crate) fn owner_in(message: &Message<'_>) -> [u8; 20]
    ensures { result ≡ owner_in message.now }
{
    owner_of(message.value_of(USERNAME).unwrap_or_default())
}

/// Returns the family and the lifetime to give to an Allocate request of a client without an allocation.
///
/// # Errors
/// The error of the first value that is missing, malformed or not supported.
fn acceptable(config: &Config, message: &Message<'_>) -> Result<(Family, u32), ErrorCode>
    ensures { result ≡ acceptable config.now message.now }
{
    if transport_of(message)? != UDP {
        return Err(ErrorCode::UnsupportedTransport);
    }
    let Some(family) = family_for(config, family_of(message)?) else {
        return Err(ErrorCode::AddressFamilyNotSupported);
    };
    Ok((family, lifetime_for(lifetime_of(message)?)))
}

/// Returns whether the owner of what a request would allocate may have a further allocation.
fn has_quota(tables: &Tables, config: &Config, message: &Message<'_>, now: u64) -> bool
    ensures { result ≡ has_quota config.now.user_slots
        (allocations_of (owner_in message.now) (rows_at now tables.now)) }
{
    match config.user_slots {
        Some(quota) => tables.allocations_of(&owner_in(message), now) < quota,
        None => true,
    }
}

/// Makes the allocation of a client that has none, with the family and the lifetime that are given.
///
/// # Errors
/// The error of the change, where no slot is free.
fn allocate_given(
    tables: &mut Tables,
    client: Addr,
    user: usize,
    message: &Message<'_>,
    given: (Family, u32),
    now: u64,
) -> Result<Grant, ErrorCode>
    requires ipv4 { IsTrue (is_ipv4 client) }
    ensures gives { Gives (allocate_given client user message.now given (rows_at now tables.old))
        tables.old result tables.new }
    ensures inside { IfOk result (HasSlotBelow (length tables.old.slots)) }
    ensures moment { (tables.old.moment ≤ tables.new.moment)
        × (tables.new.moment ≤ moment_of tables.old.moment now) }
    ensures slots { length tables.new.slots ≡ length tables.old.slots }
{
    let (family, lifetime) = given;
    let owner = owner_in(message);
    match tables.allocate(now, client, user, owner, message.tx(), family, lifetime) {
        Ok(slot) => Ok(Grant::Allocated {
            family,
            slot,
            lifetime,
        }),
        Err(refused) => Err(error_of(refused)),
    }
}

/// Answers an Allocate request of a client without an allocation.
///
/// # Errors
/// The error of the first test that fails.
fn allocate_anew(
    tables: &mut Tables,
    config: &Config,
    client: Addr,
    user: usize,
    message: &Message<'_>,
    now: u64,
) -> Result<Grant, ErrorCode>
    requires ipv4 { IsTrue (is_ipv4 client) }
    ensures gives { Gives (allocate_anew config.now client user message.now (rows_at now tables.old))
        tables.old result tables.new }
    ensures inside { IfOk result (HasSlotBelow (length tables.old.slots)) }
    ensures moment { (tables.old.moment ≤ tables.new.moment)
        × (tables.new.moment ≤ moment_of tables.old.moment now) }
    ensures slots { length tables.new.slots ≡ length tables.old.slots }
{
    let given = acceptable(config, message)?;
    if !has_quota(tables, config, message, now) {
        return Err(ErrorCode::InsufficientCapacity);
    }
    allocate_given(tables, client, user, message, given, now)
}

/// Answers an Allocate request of a user. A client that has an allocation gets the first success again where the
/// request is the one that made it.
///
/// # Errors
/// The error of the first test that fails.
pub(crate) fn allocate(
    tables: &mut Tables,
    config: &Config,
    client: Addr,
    user: usize,
    message: &Message<'_>,
    now: u64,
) -> Result<Grant, ErrorCode>
    requires ipv4 { IsTrue (is_ipv4 client) }
    ensures gives { Gives (allocate_decision config.now client user message.now
        (rows_at now tables.old)) tables.old result tables.new }
    ensures inside { IfOk result (HasSlotBelow (length tables.old.slots)) }
    ensures moment { (tables.old.moment ≤ tables.new.moment)
        × (tables.new.moment ≤ moment_of tables.old.moment now) }
    ensures slots { length tables.new.slots ≡ length tables.old.slots }
{
    let Some(allocation) = tables.allocation_of(client, now, &mut Uncounted) else {
        return allocate_anew(tables, config, client, user, message, now);
    };
    if !is_repeated(&allocation, user, message) {
        return Err(ErrorCode::AllocationMismatch);
    }
    Ok(Grant::Allocated {
        family: allocation.family,
        slot: allocation.slot,
        lifetime: allocation.lifetime,
    })
}
