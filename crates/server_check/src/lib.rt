//! A check of a server, as a client makes it: a Binding, an allocation with a permission for the client itself, and a
//! datagram to itself over the relay and back.
#![tactic(auto)]

mod checking;
mod error;
mod exchange;
mod messages;

pub use checking::{Account, check};
pub use error::{CheckError, CheckStep};
