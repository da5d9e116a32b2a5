//! The meaning of a program: the tagged machine, in which each value carries its kind, and a step that is
//! not allowed is stuck for a named reason.
#![tactic(auto)]

mod access;
mod answers;
mod calling;
mod effect;
mod fetching;
mod helper;
mod limits;
mod loading;
mod memory;
mod plan;
mod program;
mod reason;
mod record;
mod stack;
mod storing;
mod value;

pub use access::{HEADROOM_FIRST, Location, index_in_stack, is_within};
pub use answers::{Helpers, NoAllocation};
pub use effect::{Comparison, Effect, Registers, effect_of, is_group_place, moved_place, writable};
pub use fetching::{Branch, Fetched, Position, Visit, fetch, last, slot_by, target, target_in};
pub use helper::{
    Argument, Helper, Inputs, Question, RECORD_BYTES, RecordForm, Room, Signature,
    WIDE_RECORD_BYTES, destination_at, is_valid, widened, window_within,
};
pub use limits::{
    GROUP_BYTES, GROUPS, HEADROOM, MAX_CHANNEL, MAX_DATAGRAM, MAX_OFFSET, STACK_BYTES, TAILROOM,
    law_sizes,
};
pub use loading::{CONTEXT_BYTES, ContextField, field_at};
pub use memory::Memory;
pub use plan::Plan;
pub use program::Program;
pub use reason::Reason;
pub use record::{address_of, address_record, wide_record};
pub use stack::{StackMemory, put_bytes, put_pointer};
pub use storing::store;
pub use value::Value;
