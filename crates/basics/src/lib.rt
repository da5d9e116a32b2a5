//! Decimal numbers in texts, inputs and outputs that remember that they failed, errors of the system, and a ghost
//! counter. How definitions write steps that may fail is in `specs/`, and has no code.
#![tactic(auto)]

pub mod decimal;
pub mod steps;
pub mod streams;
mod system_error;

pub use system_error::SystemError;
