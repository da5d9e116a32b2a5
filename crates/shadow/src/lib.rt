//! Shadows: programs that run beside those of a relay, over a copy of each datagram, and decide nothing.
#![tactic(auto)]

mod comparing;
mod counts;
mod shadow;
mod shadows;

pub use comparing::{ChoiceComparison, Deed, compared};
pub use counts::{DIFFERENCES, ShadowCounts};
pub use shadow::Shadow;
pub use shadows::Shadows;
