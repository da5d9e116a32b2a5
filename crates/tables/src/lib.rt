//! The tables of the relay: allocations, their permissions and their channels, each with its end (RFC 8656, sections 6,
//! 9 and 12).
#![tactic(auto)]

mod address;
mod allocation;
mod changes;
mod channels;
mod clients;
mod held;
mod limits;
mod listing;
mod live_slot;
mod look_ups;
mod moment;
mod permissions;
mod refusal;
mod search;
mod storage;
mod users;

pub use address::is_ipv4;
pub use allocation::Allocation;
pub use basics::steps::{Count, Steps, Uncounted};
pub use channels::{Binding, CHANNEL_LIFETIME, Channel, FIRST_CHANNEL, LAST_CHANNEL, MAX_CHANNELS};
pub use limits::{law_capacities, law_lifetimes};
pub use live_slot::LiveSlot;
pub use moment::{LATEST, moment_of};
pub use permissions::{MAX_PERMISSIONS, PERMISSION_LIFETIME, Permission};
pub use refusal::TableError;
pub use storage::{MAX_ALLOCATIONS, Tables};
