//! The shipped programs of the two sides, and what they promise.
#![tactic(auto)]

mod client;
mod laws;
mod peer;
mod verdict;

pub use client::{CLIENT, client_text};
pub use laws::{law_client_serves, law_client_tests_plain_sends, law_peer_serves};
pub use peer::{PEER, peer_text};
pub use verdict::{DISCARDS, PASSES, SENDS, law_verdicts};
