//! The UDP sockets of a server.
#![tactic(auto)]

mod binding;
mod own;
mod shared;
mod sockets;
mod udp;

pub use binding::{Addresses, BindError};
pub use sockets::{EndpointSockets, Sockets};
pub use udp::SocketOptions;
