//! The walk over all paths of a program, which accepts it or names the refusal.
#![tactic(auto)]

mod kept;
mod layout;
mod refusal;
mod signatures;
mod slices;
mod walk;
mod weights;

pub use basics::steps::Steps;
pub use kept::Remains;
pub use layout::distance;
pub use refusal::Refusal;
pub use slices::{Progress, Walk, verify_in_slices};
pub use walk::{Pending, Verified, verify, verify_with};
pub use weights::law_weights;
