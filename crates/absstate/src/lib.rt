//! What the verifier knows of the machine at a slot of a path, over any numeric domain, and how a step changes it.
#![tactic(auto)]

mod abstract_state;
mod abstract_step;
mod branching;
mod calling;
mod change;
mod chunk;
mod common_signature;
mod covering;
mod initialised_words;
mod links;
mod loading;
mod margins;
mod memory;
mod packed;
mod part;
mod signature;
mod storing;
mod sums;

pub use abstract_state::{AbsState, AbstractValue, Anchor, InitialisedBytes};
pub use abstract_step::Next;
pub use change::{Change, Transition};
pub use common_signature::CommonSignature;
pub use packed::PackedState;
pub use part::Part;
pub use signature::StateSignature;
