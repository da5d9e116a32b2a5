//! A pass over a program that makes every jump lead forward.
#![tactic(auto)]

mod branches;
mod error;
mod file;
mod forward;
mod laws;
mod pass;
mod places;
mod rounds;
mod search;
mod tail;

pub use error::OrderError;
pub use file::{FileError, FileInOrder, order_file};
pub use laws::law_runs_are_kept;
pub use pass::{order, order_with_places};
pub use places::{InOrder, Places};
pub use rounds::way_round;
