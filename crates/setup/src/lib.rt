//! Sets up a relay: from the values of options, users and the bytes of programs to a relay that can begin. The crate
//! also has each error that ends a command of the program.
#![tactic(auto)]

mod aliases;
mod command_error;
mod confinements;
mod error;
mod options;
mod revoked;
pub mod sample;
mod secrets;
mod setting_up;
mod users;

pub use aliases::alias;
pub use command_error::{BAD_LINE, CommandError, REFUSED, end, status_of};
pub use error::{ProgramError, RefusedProgram, SetupError};
pub use options::{Prepared, ProgramBytes, Relayed, Texts, program_fault, set_up, unread};
pub use revoked::{MAX_REVOKED, RevokedError, revoked_in};
pub use secrets::{Secrets, SecretsError, secrets_in};
pub use setting_up::{Setup, program, relay_of};
pub use users::{
    LineFault, TextFault, UsersError, add_users, add_users_of_lines, is_comment, user,
};
