//! What the commands of the program do that serve nothing: they report on a program, explain it, draw it, trace it, put
//! it in order, assemble a text, replay events, or check a server.
#![tactic(auto)]

mod check_command;
mod comparing;
mod covering;
mod explanations;
mod reading;
mod replay_command;
mod reports;
mod trace_command;
mod writing;

pub use check_command::check;
pub use explanations::{explain, graph};
pub use replay_command::replay;
pub use reports::{report_file, verify_file};
pub use trace_command::trace;
pub use writing::{assemble_file, reorder_file};
