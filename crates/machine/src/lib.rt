//! The frame of a datagram, and the runs over it: `trace` runs any program and may get stuck, `run` runs a verified
//! program to its exit.
#![tactic(auto)]

mod context;
mod environment;
mod execution;
mod frame;
mod outcome;
mod sink;
mod tracing;
mod verified_run;

pub use addresses::Addr;
pub use basics::streams::Output as Lines;
pub use context::{Context, Side};
pub use frame::Frame;
pub use outcome::{Outcome, Stuck};
pub use semantics::{HEADROOM, Helpers, MAX_DATAGRAM, NoAllocation, TAILROOM};
pub use sink::{KEPT, Kept, Silent, Sink};
pub use tracing::trace;
pub use verified_run::run;
