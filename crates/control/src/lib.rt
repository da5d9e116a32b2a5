//! How the relay answers requests (RFC 8489, RFC 8656): one ordered list of tests for each method, over the tables.
#![tactic(auto)]

mod allocate;
mod binding;
mod channel_bind;
mod config;
mod create_permission;
mod lifetime;
mod numbers;
mod owning;
mod refresh;
mod reply;
mod request;
mod responding;
mod response;
mod unknown;
mod users;
mod values;

pub use config::{Config, Field, MAX_TEXT, MAX_USERS, are_users, is_secret};
pub use credentials::is_nonce;
pub use lifetime::{MAX_LIFETIME, MIN_LIFETIME};
pub use numbers::law_all_numbers;
pub use reply::{Grant, REPLY_BYTES};
pub use request::{Request, TurnRequest};
pub use responding::respond;
pub use response::{Response, Written};
pub use unknown::all_understood;
pub use users::new_indices;
