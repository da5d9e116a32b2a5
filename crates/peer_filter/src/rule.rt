//! Rules over networks, and endpoints.

ghost use Rattle.std.specs.Prelude.{◌≡◌};
ghost use Rattle.peer_filter.specs.Filters.{is_same_ip};

use crate::network::Network;
use attributes::Addr;

/// What a rule does with the addresses of its network.
#[derive(Clone, Copy, Debug, PartialEq, Eq)]
pub enum RuleAction {
    Deny,
    Allow,
}

impl RuleAction {
    ghost use Rattle.std.specs.Prelude.{◌≡◌};
    ghost use Rattle.peer_filter.specs.Filters.{is_allow};

    /// Returns whether the action is to allow.
    pub(crate) fn is_allow(self) -> bool
        ensures { result ≡ is_allow self }
    {
        match self {
            RuleAction::Deny => false,
            RuleAction::Allow => true,
        }
    }
}

/// A network that is denied or allowed.
#[derive(Clone, Copy, Debug, PartialEq, Eq)]
pub struct Rule {
    pub network: Network,
    pub action: RuleAction,
}

impl Default for Rule {
    /// Denies 0.0.0.0/0.
    fn default() -> Self {
        Rule {
            network: Network::V4 {
                address: 0,
                bits: 0,
            },
            action: RuleAction::Deny,
        }
    }
}

/// Endpoints of the server, to which nothing is sent.
#[derive(Clone, Copy, Debug, PartialEq, Eq)]
pub enum ServerEndpoint {
    /// One transport address.
    At(Addr),
    /// A port of every address.
    Port(u16),
    /// Each port of an IP address but those from a first to a last one. The port of the address is ignored.
    Outside { ip: Addr, first: u16, last: u16 },
}

impl Default for ServerEndpoint {
    /// The port 0 of every address.
    fn default() -> Self {
        ServerEndpoint::Port(0)
    }
}

/// Returns whether two addresses have the same IP address.
fn is_same_ip(a: &Addr, b: &Addr) -> bool
    ensures { result ≡ is_same_ip a.now b.now }
{
    a.cmp_ip(b).is_eq()
}

impl ServerEndpoint {
    ghost use Rattle.std.specs.Prelude.{◌≡◌};
    ghost use Rattle.peer_filter.specs.Filters.{is_at};

    /// Returns whether a peer is at the endpoint, or at one of the endpoints.
    pub fn is_at(&self, peer: &Addr) -> bool
        ensures { result ≡ is_at peer.now self.now }
    {
        match self {
            ServerEndpoint::At(address) => {
                address.port() == peer.port() && is_same_ip(address, peer)
            }
            ServerEndpoint::Port(port) => *port == peer.port(),
            ServerEndpoint::Outside { ip, first, last } => {
                is_same_ip(ip, peer) && (peer.port() < *first || *last < peer.port())
            }
        }
    }
}

/// In which families the server listens on its loopback interface. The rule that denies it is then left out.
#[derive(Clone, Copy, Debug, PartialEq, Eq)]
pub struct Loopback {
    pub ipv4: bool,
    pub ipv6: bool,
}
