//! Loads programs: decodes their bytes and verifies them, so that what is loaded can run.
#![tactic(auto)]

mod loaded;
mod loading;
mod refusal;

pub use loaded::{BUDGET, Loaded, WEIGHT, law_limits, load};
pub use loading::{LoadProgress, LoadRemains, Loading};
pub use refusal::LoadError;
