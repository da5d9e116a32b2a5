//! The rules: what a datagram of a client is answered (RFC 8489, RFC 8656). Requests are answered, and ChannelData and
//! Send indications relayed. And why nothing is sent for a datagram of either side.
#![tactic(auto)]

mod amplification;
mod answer;
mod client;
mod confinement;
mod discarding;
mod disposition;
mod isolation;
mod permitting;
mod relaying;
mod requests;

pub use amplification::law_answers_are_bounded;
pub use answer::Answer;
pub use client::answer_client;
pub use confinement::{Alias, Confinement, at_port};
pub use discarding::discard_by_rules;
pub use disposition::{Discard, Disposition};
pub use isolation::law_users_are_apart;
pub use permitting::law_rules_send_what_is_permitted;
pub use requests::law_requests_change_rows;
