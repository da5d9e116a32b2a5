//! What a running server writes: its counters, metrics, log and record, how shadows compare, and lines on standard
//! error.
#![tactic(auto)]

mod counters;
mod drops;
mod error_lines;
mod metrics;
mod names;
mod recording;
mod reports;
mod requests;
mod server_log;
mod watching;

pub use error_lines::ErrorLines;
pub use metrics::MetricsFile;
pub use recording::{RecordEnd, RecordError, Recording};
pub use reports::{Observed, Reports};
pub use requests::named_peer;
pub use server_log::{EndReason, Sender, ServerLog};
pub use watching::Watch;
