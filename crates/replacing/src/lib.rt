//! Programs, users and secrets that are replaced while a server runs.
#![tactic(auto)]

mod files;
mod replacing;
mod reread;
mod watched;

pub use replacing::{ProgramFile, ProgramPair, Sides};
pub use reread::{Contents, RereadFile};
