//! A server without sockets: one turn, which receives, steps the relay and sends; whose turn it is, what is received
//! ahead, what is due when, and what is counted.
#![tactic(auto)]

mod ahead;
mod clock;
mod counters;
mod duties;
mod hairpin;
mod laws;
mod link;
mod nonce;
mod ports;
mod recorder;
mod round;
mod schedule;
mod serving;
mod timer;
mod tokens;
mod turning;

pub use ahead::{Ahead, ROOM, Receipt, TURNS};
pub use clock::{ClockOffset, ServerClock};
pub use counters::{Counter, Counters, KINDS, Kind, REASONS, TurnOutcome, VERDICTS};
pub use duties::{Duty, Work, do_next};
pub use hairpin::Hairpin;
pub use laws::{
    law_each_datagram_is_counted_once, law_each_duty_has_its_turn, law_rounds_are_fair,
};
pub use link::{Link, LinkFault, Place};
pub use nonce::draw_nonce;
pub use ports::Ports;
pub use recorder::Recorder;
pub use round::{Endpoints, serve_round};
pub use schedule::{Schedule, Status};
pub use serving::{ServeError, serve_once};
pub use timer::Timer;
pub use tokens::{SocketId, socket_of};
pub use turning::{Arrival, Served, source_at, turn};
