//! What the verifier knew of a program: the path to a refusal, or the states that an accepted program has, as text, and
//! the blocks of a program as a graph.
#![tactic(auto)]

mod access;
mod changes;
mod cost;
mod effort;
mod error;
mod file;
mod graph;
mod longest;
mod printing;
mod refusing;
mod searching;
mod text;

pub use cost::Cost;
pub use effort::Effort;
pub use error::ExplainError;
pub use file::{Explained, explain_file};
pub use graph::graph_file;
pub use searching::{Explanation, search};
pub use text::Known;
