//! Serves a relay over UDP sockets: how a server starts, waits and takes its turns, and what it does beside datagrams.
#![tactic(auto)]

mod chores;
mod clock;
mod filters;
mod serve_command;
mod starting;

pub use serve_command::serve;
