//! Which peers a server sends to: rules over networks, and the server's own endpoints.
#![tactic(auto)]

mod defaults;
mod filter;
mod laws;
mod network;
mod rule;
mod server;
mod text;

pub use filter::{FilterError, MAX_ENDPOINTS, MAX_RULES, PeerFilter};
pub use laws::{
    law_defaults_deny_v4, law_defaults_deny_v6, law_longest_prefix_decides,
    law_rules_of_the_family_decide,
};
pub use network::{Network, NetworkError};
pub use rule::{Loopback, Rule, RuleAction, ServerEndpoint};
pub use server::ServerAddresses;
