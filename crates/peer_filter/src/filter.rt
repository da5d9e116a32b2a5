//! The filter of a server.

ghost use Rattle.std.specs.Prelude.{◌≡◌, ◌≤◌, List, [], ◌∷◌, ◌++◌, length, filter, nat_le, if◌then◌else◌};
ghost use Rattle.std.specs.List.{list_any};
ghost use Rattle.peer_filter.specs.Networks.{prefix_bits};
ghost use Rattle.peer_filter.specs.Filters.{is_at, is_for, deciding_rule, is_allowed_by, default_rules};
ghost use Rattle.peer_filter.specs.declared.rule.Rule.{Rule};

use crate::defaults::{ALLOWED_LOOPBACK_V6, ALWAYS_DENIED, LOOPBACK_V4, LOOPBACK_V6};
use crate::rule::{Loopback, Rule, ServerEndpoint};
use arrayvec::ArrayVec;
use attributes::{Addr, Family};
use std::marker::Model;
use thiserror::Error;

/// The most rules that a filter takes, beside those that hold without options.
pub const MAX_RULES: usize = 64;

/// The most endpoints of the server that a filter takes.
pub const MAX_ENDPOINTS: usize = 8;

/// The most rules that hold without options.
const MAX_DEFAULTS: usize = 14;

/// The most rules of a filter.
pub(crate) const MAX_ALL_RULES: usize = MAX_DEFAULTS + MAX_RULES;

/// Why a filter can't be made.
#[derive(Clone, Copy, Debug, PartialEq, Eq, Error)]
pub enum FilterError {
    /// There are more than [`MAX_RULES`] rules.
    #[error("more than {MAX_RULES} rules")]
    Rules,
    /// There are more than [`MAX_ENDPOINTS`] endpoints.
    #[error("more than {MAX_ENDPOINTS} endpoints")]
    Endpoints,
}

/// Decides to which peers a server sends. It allocates nothing. The rules of each family are apart, so that a decision
/// looks at those of one.
#[derive(Drop)]
pub struct PeerFilter {
    ipv4: ArrayVec<Rule, MAX_ALL_RULES>,
    ipv6: ArrayVec<Rule, MAX_ALL_RULES>,
    endpoints: ArrayVec<ServerEndpoint, MAX_ENDPOINTS>,
    /// The rules for the addresses of clients.
    pub(crate) clients: ArrayVec<Rule, MAX_ALL_RULES>,
}

impl Model for PeerFilter {
    ghost use Rattle.peer_filter.specs.Filters.{Filter};

    ghost Value = { Filter };

    ghost view = { λ f. record {
      ipv4 = f.ipv4.items;
      ipv6 = f.ipv6.items;
      endpoints = f.endpoints.items;
      clients = f.clients.items;
    } };
}

/// Returns the one of two rules with the longer prefix, the later one where they have as many bits.
fn longer_of(earlier: Rule, later: Rule) -> Rule
    ensures { result ≡ if nat_le (prefix_bits earlier.network) (prefix_bits later.network) then later else earlier }
{
    if earlier.network.bits() <= later.network.bits() {
        later
    } else {
        earlier
    }
}

/// Returns the rule that decides on an address once one more rule comes last: that one, where it contains the address
/// and its prefix is at least as long as that of the earlier one.
fn or_later(earlier: Option<Rule>, rule: &Rule, peer: &Addr) -> Option<Rule>
    ensures { (rules : List Rule) → earlier ≡ deciding_rule rules peer.now
        → result ≡ deciding_rule (rules ++ rule.now ∷ []) peer.now }
{
    if !rule.network.contains(peer) {
        return earlier;
    }
    match earlier {
        None => Some(*rule),
        Some(other) => Some(longer_of(other, *rule)),
    }
}

/// Returns the rule that decides on an address: of those that contain it, the last of those with the longest prefix.
fn deciding_rule(rules: &[Rule], peer: &Addr) -> Option<Rule>
    ensures { result ≡ deciding_rule rules.now peer.now }
{
    let mut deciding = None;
    for rule in rules {
        deciding = or_later(deciding, rule, peer);
    }
    deciding
}

/// Returns whether the rules allow an address.
fn is_allowed(rules: &[Rule], peer: &Addr) -> bool
    ensures { result ≡ is_allowed_by (deciding_rule rules.now peer.now) }
{
    match deciding_rule(rules, peer) {
        Some(rule) => rule.action.is_allow(),
        None => true,
    }
}

/// Returns whether a peer is one of the endpoints.
fn is_own(endpoints: &[ServerEndpoint], peer: &Addr) -> bool
    ensures { result ≡ list_any (is_at peer.now) endpoints.now }
{
    endpoints.iter().any(|own| own.is_at(peer))
}

/// Returns the rules that hold without options.
pub(crate) fn default_rules(loopback: Loopback) -> ArrayVec<Rule, MAX_ALL_RULES>
    ensures rules { result.items ≡ default_rules loopback }
    ensures few { length result.items ≤ MAX_DEFAULTS }
{
    let mut rules = ArrayVec::new();
    let _ = rules.try_extend_from_slice(&ALWAYS_DENIED);
    if !loopback.ipv4 {
        rules.push(LOOPBACK_V4);
    }
    rules.push(if loopback.ipv6 {
        ALLOWED_LOOPBACK_V6
    } else {
        LOOPBACK_V6
    });
    rules
}

/// Returns those of some rules whose networks are of a family.
fn of_family(rules: &[Rule], family: Family) -> ArrayVec<Rule, MAX_ALL_RULES>
    requires { length rules.now ≤ MAX_ALL_RULES }
    ensures { result.items ≡ filter (is_for family) rules.now }
{
    let mut own = ArrayVec::new();
    for rule in rules {
        if rule.network.is_of_family(family) {
            own.push(*rule);
        }
    }
    own
}

impl PeerFilter {
    ghost use Rattle.std.specs.Prelude.{◌≡◌};
    ghost use Rattle.peer_filter.specs.Filters.{allows, allows_client, IsMade};

    /// Makes a filter of the rules that hold without options, then `rules` in their order, and of the endpoints of the
    /// server.
    ///
    /// # Errors
    /// `Rules` for more than [`MAX_RULES`] rules, then `Endpoints` for more than [`MAX_ENDPOINTS`] endpoints.
    pub fn new(
        loopback: Loopback,
        endpoints: &[ServerEndpoint],
        rules: &[Rule],
    ) -> Result<PeerFilter, FilterError>
        ensures { IsMade loopback endpoints.now rules.now result }
    {
        if rules.len() > MAX_RULES {
            return Err(FilterError::Rules);
        }
        let mut all = default_rules(loopback);
        let _ = all.try_extend_from_slice(rules);
        let mut own = ArrayVec::new();
        if own.try_extend_from_slice(endpoints).is_err() {
            return Err(FilterError::Endpoints);
        }
        Ok(PeerFilter {
            ipv4: of_family(&all, Family::Ipv4),
            ipv6: of_family(&all, Family::Ipv6),
            endpoints: own,
            clients: ArrayVec::new(),
        })
    }

    /// Returns whether the server sends to a client: not to an address that the rules for clients deny.
    pub fn allows_client(&self, client: &Addr) -> bool
        ensures { result ≡ allows_client self.now client.now }
    {
        is_allowed(self.clients.as_slice(), client)
    }

    /// Returns whether the server sends to a peer: not to port 0, to an endpoint of its own, or to an address that is
    /// denied. The longest prefix that contains the address decides, and the later one of two for the same network; an
    /// address that no rule contains is allowed.
    pub fn allows(&self, peer: &Addr) -> bool
        ensures { result ≡ allows self.now peer.now }
    {
        let rules = match peer {
            Addr::V4 { .. } => self.ipv4.as_slice(),
            Addr::V6 { .. } => self.ipv6.as_slice(),
        };
        peer.port() != 0 && !is_own(self.endpoints.as_slice(), peer) && is_allowed(rules, peer)
    }
}
