//! What responses say.

ghost use Rattle.std.specs.Prelude.{◌≡◌};
ghost use Rattle.control.specs.Responding.{response_of_result};

use crate::reply::Grant;
use credentials::AuthError;
use stun::registry::ErrorCode;

/// What a response says to a request.
#[derive(Clone, Copy, Debug, PartialEq, Eq)]
pub enum Response {
    /// The request is granted.
    Granted(Grant),
    /// The credentials are refused, by the first test that fails (RFC 8489, section 9.2.4).
    Unauthenticated(AuthError),
    /// The request is refused, by the first test that fails.
    Refused(ErrorCode),
}

/// A response that was written.
#[derive(Clone, Copy, Debug, PartialEq, Eq)]
pub struct Written {
    /// Its length in bytes, which is not 0.
    pub count: usize,
    /// What it says.
    pub response: Response,
}

/// Returns what the response to a decision says.
pub(crate) fn response_of(decision: Result<Grant, ErrorCode>) -> Response
    ensures { result ≡ response_of_result decision }
{
    match decision {
        Ok(grant) => Response::Granted(grant),
        Err(error) => Response::Refused(error),
    }
}
