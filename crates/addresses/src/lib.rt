//! Transport addresses of IPv4 and IPv6: their parts, their order and their text.
#![tactic(auto)]

mod address;
mod order;
mod text;

pub use address::{Addr, Family, law_is_address};
