//! The relay: two loaded programs and the rules, joined.
#![tactic(auto)]

mod amplification;
mod choosing;
mod confining;
mod error;
mod explaining;
mod forwarding;
mod harmless;
mod isolation;
mod lines;
mod reason;
mod relay;
mod replaying;
mod requests;
mod running;
mod shipped;
mod step;

pub use amplification::law_no_program_amplifies;
pub use choosing::{Choice, Route, law_same_choices_are_same_steps};
pub use confining::law_confined_programs_send_what_is_permitted;
pub use error::RelayError;
pub use events::{Action, Meta, Source};
pub use explaining::{law_reasons_are_of_the_answers, side_of};
pub use isolation::law_programs_keep_users_apart;
pub use lines::next_line;
pub use reason::{StepReason, Unsent};
pub use relay::Relay;
pub use replaying::ReplayError;
pub use requests::law_requests_change_rows;
pub use rules::{Alias, Confinement, Discard, Disposition};
pub use shipped::{law_shipped_programs_are_the_rules, law_shipped_reasons_are_the_rules};
pub use step::Step;
