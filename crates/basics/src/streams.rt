//! Inputs and outputs that remember that they failed.

mod input;
mod output;

pub use input::{Input, InputError};
pub use output::{Failed, Output};
