//! What comes to a relay and what it sends, and both as lines of text.
//! See docs/DESIGN.md, "Events are below programs".
#![tactic(auto)]

mod action;
mod event;
mod fronts;
mod meta;
mod parsing;
mod room;
mod writing;

pub use action::Action;
pub use event::Event;
pub use meta::{Meta, Source};
pub use parsing::{Parsed, parse};
pub use room::{push_bytes, push_number};
pub use writing::{write_answer, write_event};
