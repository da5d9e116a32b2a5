//! STUN messages and ChannelData: parsed from a datagram, and written into a buffer. No byte of a datagram
//! is copied, and nothing is allocated.
#![tactic(auto)]

mod attributes;
mod buffer;
mod building;
mod channel;
mod reading;
mod reading_back;
mod refusal;
pub mod registry;
mod value;

pub use attributes::{Attr, Attrs, Values};
pub use buffer::begin;
pub use building::Builder;
pub use channel::{ChannelData, read_channel};
pub use reading::{
    Message, law_message_in_has_the_parts, law_messages_are_unique, law_parts_are_unique,
    law_refusals_are_unique, law_refused_is_no_message, read,
};
pub use reading_back::read_back;
pub use refusal::{NoRoom, StunError};
pub use value::AttributeValue;
