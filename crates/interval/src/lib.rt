//! The numeric domain of a verifier: the trait `Domain` of abstract numbers, and `Interval`, its first implementation.
#![tactic(auto)]

mod arithmetic;
mod domain;
mod interval;
mod narrowness;
mod refinement;

pub use domain::{Bounds, Domain, Refined, Test};
pub use interval::Interval;
pub use narrowness::law_intervals_are_narrow;
