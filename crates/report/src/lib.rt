//! Reports on a program file: whether it may be loaded, its trace over a datagram, or its text; and source maps, by
//! which reports name the lines of a source.
#![tactic(auto)]

mod annotating;
mod coverage;
mod error;
mod reporting;
mod source_map;
mod text;

pub use annotating::annotated;
pub use coverage::Coverage;
pub use error::{ReportError, fail};
pub use reporting::{Ask, report, report_end, report_run, start_frame};
pub use source_map::{MapError, SourceLine, SourceMap, map_of_slots, map_of_text};
