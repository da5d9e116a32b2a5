//! Rows of tests as lines of a file: what they abbreviate, their fields, and which of them hold.
#![tactic(auto)]

mod checking;
mod lines;
pub mod row;

pub use checking::{Sections, check_input};
