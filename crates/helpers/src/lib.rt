//! The look-ups of the helpers that programs call, in the tables of a relay.
#![tactic(auto)]

mod tables_lookup;

pub use semantics::{Helpers, NoAllocation, address_of, address_record, wide_record};
pub use tables_lookup::Lookup;
