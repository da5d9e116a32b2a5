//! The values of attributes: XOR addresses, lifetimes, channel numbers, transports, families and errors.
#![tactic(auto)]

mod address;
mod error;
mod number;
mod refusal;

pub use address::{
    law_addresses_are_unique, law_values_are_short, push_xor_addr, read_back, read_xor_addr,
    write_xor_addr,
};
pub use addresses::{Addr, Family, law_is_address};
pub use error::{push_error, push_unknown, write_error, write_unknown};
pub use number::{
    channel_number, law_lifetimes_are_read_back, law_numbers_are_unique, lifetime,
    requested_family, requested_transport,
};
pub use refusal::{ValueError, ValueKind};
