//! The long-term credential mechanism of STUN (RFC 8489, section 9.2): keys, MESSAGE-INTEGRITY, and its check. Nothing
//! is allocated.
#![tactic(auto)]

mod checking;
mod hmac;
mod key;
mod scanning;
mod signing;
mod text;
mod time_limited;

pub use checking::{
    AuthError, Authenticated, Directory, User, authenticate, check, law_results_are_checked,
    law_results_are_unique,
};
pub use hmac::hmac_sha1;
pub use key::Key;
pub use signing::{
    law_what_is_signed_is_accepted, law_what_is_signed_is_right, push_integrity, sign,
};
pub use text::{is_nonce, is_text};
pub use time_limited::{TimeLimited, owner_of};
