//! What confines programs to the peers that clients have permitted.

ghost use Rattle.std.specs.Prelude.{◌≡◌, ◌≤◌, ◌+◌, ◌*◌, ◌||◌, ◌&&◌, is_some, length};
ghost use Rattle.std.specs.List.{list_any};
ghost use Rattle.tables.specs.LookUps.{bound_channel, permission_of};
ghost use Rattle.rules.specs.Permitted.{at_port, counted_as, holds_as, is_alias_of};

use attributes::Addr;
use tables::{Count, LiveSlot};

/// An IP address that counts as another one where it is asked whether a client has permitted a peer. The ports are not
/// looked at.
#[derive(Clone, Copy, Debug, PartialEq, Eq)]
pub struct Alias {
    /// The address that a program sends to, or that a peer's datagram comes from.
    pub address: Addr,
    /// The address that a client may have permitted in its place.
    pub counts_as: Addr,
}

/// Returns the IP address of an address with another port.
pub fn at_port(address: &Addr, port: u16) -> Addr
    ensures { result ≡ at_port address.now port }
{
    match *address {
        Addr::V4 { ip, .. } => Addr::V4 { ip, port },
        Addr::V6 { ip, .. } => Addr::V6 { ip, port },
    }
}

impl Alias {
    /// Returns whether it is an alias of a peer's IP address.
    fn is_of(&self, peer: &Addr) -> bool
        ensures { result ≡ is_alias_of peer.now self.now }
    {
        self.address.ip() == peer.ip()
    }

    /// Returns the address that a peer counts as: that of the alias, with the port of the peer.
    fn counted_as(&self, peer: &Addr) -> Addr
        ensures { result ≡ counted_as peer.now self.now }
    {
        at_port(&self.counts_as, peer.port())
    }
}

/// Confines programs: what they send goes only to peers that a client has permitted, and only from such peers to a
/// client.
#[derive(Debug, Drop)]
pub struct Confinement {
    /// The addresses that count as others.
    pub aliases: Vec<Alias>,
}

/// Returns whether the client of a slot has permitted data to a peer (RFC 8656, sections 11 and 12): the peer's IP
/// address has a permission, or a channel is bound to exactly this peer.
fn is_permitted_peer<C: Count>(live: &LiveSlot<'_>, peer: Addr, keys: &mut C) -> bool
    ensures permitted { result ≡ (is_some (permission_of peer live.now) || is_some (bound_channel peer live.now)) }
    ensures keys { C.count keys.new ≤ C.count keys.old + 14 }
{
    live.permitted(peer, keys) || live.channel_of(peer, keys).is_some()
}

/// Returns whether the client of a slot has permitted data to an address that a peer counts as by an alias.
fn is_permitted_by<C: Count>(alias: &Alias, live: &LiveSlot<'_>, peer: &Addr, keys: &mut C) -> bool
    ensures permitted { result ≡ (is_alias_of peer.now alias.now
        && (is_some (permission_of (counted_as peer.now alias.now) live.now)
        || is_some (bound_channel (counted_as peer.now alias.now) live.now))) }
    ensures keys { C.count keys.new ≤ C.count keys.old + 14 }
{
    alias.is_of(peer) && is_permitted_peer(live, alias.counted_as(peer), keys)
}

/// Returns whether an address that a peer counts as by an alias has a permission.
fn has_permission_by<C: Count>(
    alias: &Alias,
    live: &LiveSlot<'_>,
    peer: &Addr,
    keys: &mut C,
) -> bool
    ensures permitted { result ≡ (is_alias_of peer.now alias.now
        && is_some (permission_of (counted_as peer.now alias.now) live.now)) }
    ensures keys { C.count keys.new ≤ C.count keys.old + 7 }
{
    alias.is_of(peer) && live.permitted(alias.counted_as(peer), keys)
}

/// Returns whether the client of a slot has permitted data to an address that a peer counts as.
fn is_permitted_by_any<C: Count>(
    aliases: &[Alias],
    live: &LiveSlot<'_>,
    peer: &Addr,
    keys: &mut C,
) -> bool
    ensures permitted { result ≡ list_any (λ alias. is_alias_of peer.now alias
        && (is_some (permission_of (counted_as peer.now alias) live.now)
        || is_some (bound_channel (counted_as peer.now alias) live.now))) aliases.now }
    ensures keys { C.count keys.new ≤ C.count keys.old + 14 * length aliases.now }
{
    let mut permitted = false;
    for alias in aliases {
        permitted = permitted || is_permitted_by(alias, live, peer, keys);
    }
    permitted
}

/// Returns whether an address that a peer counts as has a permission.
fn has_permission_by_any<C: Count>(
    aliases: &[Alias],
    live: &LiveSlot<'_>,
    peer: &Addr,
    keys: &mut C,
) -> bool
    ensures permitted { result ≡ list_any (λ alias. is_alias_of peer.now alias
        && is_some (permission_of (counted_as peer.now alias) live.now)) aliases.now }
    ensures keys { C.count keys.new ≤ C.count keys.old + 7 * length aliases.now }
{
    let mut permitted = false;
    for alias in aliases {
        permitted = permitted || has_permission_by(alias, live, peer, keys);
    }
    permitted
}

impl Confinement {
    /// Returns whether data of the client of a slot may go to a peer: the client has permitted it, or an address that
    /// it counts as. `keys` counts the keys that are compared: at most 14 for the peer, and for each alias.
    pub fn lets_reach<C: Count>(&self, live: &LiveSlot<'_>, peer: Addr, keys: &mut C) -> bool
        ensures permitted { result ≡ holds_as self.now.aliases.items
            (λ name. is_some (permission_of name live.now) || is_some (bound_channel name live.now)) peer }
        ensures keys { C.count keys.new ≤ C.count keys.old + 14 * (1 + length self.now.aliases.items) }
    {
        is_permitted_peer(live, peer, keys) || is_permitted_by_any(&self.aliases, live, &peer, keys)
    }

    /// Returns whether data of a peer may go to the client of a slot: the peer's IP address has a permission, or one
    /// that it counts as has. `keys` counts the keys that are compared: at most 7 for the peer, and for each alias.
    pub fn lets_in<C: Count>(&self, live: &LiveSlot<'_>, peer: Addr, keys: &mut C) -> bool
        ensures permitted { result ≡ holds_as self.now.aliases.items
            (λ name. is_some (permission_of name live.now)) peer }
        ensures keys { C.count keys.new ≤ C.count keys.old + 7 * (1 + length self.now.aliases.items) }
    {
        live.permitted(peer, keys) || has_permission_by_any(&self.aliases, live, &peer, keys)
    }
}
