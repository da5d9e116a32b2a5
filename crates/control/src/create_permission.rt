//! CreatePermission (RFC 8656, section 10).

ghost use Rattle.std.specs.Prelude.{◌≡◌, ◌≤◌, bytes_eq, true, Ok, length};
ghost use Rattle.std.specs.List.{list_all, list_any};
ghost use Rattle.addresses.specs.declared.address.Family.{Family};
ghost use Rattle.addresses.specs.Addresses.{ip_of, is_of_family};
ghost use Rattle.tables.specs.Moments.{moment_of};
ghost use Rattle.tables.specs.Rows.{rows_at};
ghost use Rattle.control.specs.Serving.{Gives, are_of};
ghost use Rattle.control.specs.Control.{create_permission};
ghost use Rattle.tables.specs.laws.Permit.{StandsFor};
ghost use Rattle.control.specs.Peers.{peers_of, peers_with};

use crate::owning::{error_of, own_allocation};
use crate::reply::Grant;
use crate::values::address_in;
use arrayvec::ArrayVec;
use attributes::{Addr, Family};
use stun::Message;
use stun::registry::ErrorCode;
use stun::registry::attribute::XOR_PEER_ADDRESS;
use tables::{MAX_PERMISSIONS, Tables};

/// One address more than an allocation may permit.
pub const MAX_PEERS: usize = MAX_PERMISSIONS + 1;

/// Returns whether all addresses of a request are of a family.
///
/// # Errors
/// 400 where there is no address, or one is malformed.
fn are_of(family: Family, message: &Message<'_>) -> Result<bool, ErrorCode>
    ensures { result ≡ are_of family message.now }
{
    let tx = message.tx();
    let mut found = None;
    for value in message.values_of(XOR_PEER_ADDRESS) {
        let Some(peer) = address_in(value, &tx) else {
            return Err(ErrorCode::BadRequest);
        };
        found = Some(found.unwrap_or(true) && peer.is_of_family(family));
    }
    found.ok_or(ErrorCode::BadRequest)
}

/// Returns whether an IP address is among some.
fn has_ip(peers: &[Addr], peer: &Addr) -> bool
    ensures { result ≡ list_any (λ known. bytes_eq (ip_of known) (ip_of peer.now)) peers.now }
{
    peers.iter().any(|known| known.ip() == peer.ip())
}

/// Adds an address, unless its IP address is in the list or the list is full.
fn add_peer(peers: &mut ArrayVec<Addr, MAX_PEERS>, peer: Addr)
    ensures { peers.new.items ≡ peers_with peers.old.items peer }
{
    if !has_ip(peers, &peer) && !peers.is_full() {
        peers.push(peer);
    }
}

/// Returns the first [`MAX_PEERS`] addresses of a request whose IP addresses differ. Permitting these is granted or
/// refused exactly as permitting all is.
fn distinct_peers(message: &Message<'_>) -> ArrayVec<Addr, MAX_PEERS>
    ensures same { StandsFor result.items (peers_of message.now) }
    ensures families { (f : Family) → are_of f message.now ≡ Ok true → list_all (is_of_family f) result.items ≡ true }
{
    let tx = message.tx();
    let mut peers = ArrayVec::new();
    for value in message.values_of(XOR_PEER_ADDRESS) {
        if let Some(peer) = address_in(value, &tx) {
            add_peer(&mut peers, peer);
        }
    }
    peers
}

/// Answers a CreatePermission request of a user.
/// See docs/DESIGN.md, "A request is read twice".
///
/// # Errors
/// The error of the first test that fails.
pub(crate) fn create_permission(
    tables: &mut Tables,
    client: Addr,
    user: usize,
    message: &Message<'_>,
    now: u64,
) -> Result<Grant, ErrorCode>
    ensures gives { Gives (create_permission client user message.now (rows_at now tables.old))
        tables.old result tables.new }
    ensures moment { (tables.old.moment ≤ tables.new.moment)
        × (tables.new.moment ≤ moment_of tables.old.moment now) }
    ensures slots { length tables.new.slots ≡ length tables.old.slots }
{
    tables.law_are_well_formed();
    let allocation = own_allocation(tables, client, user, now)?;
    if !are_of(allocation.family, message)? {
        return Err(ErrorCode::PeerAddressFamilyMismatch);
    }
    let peers = distinct_peers(message);
    match tables.permit(now, allocation.slot, &peers) {
        Ok(()) => Ok(Grant::Done),
        Err(refused) => Err(error_of(refused)),
    }
}
