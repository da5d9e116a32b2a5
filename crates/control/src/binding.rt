//! Binding (RFC 8489, section 12).

ghost use Rattle.std.specs.Prelude.{◌≡◌};
ghost use Rattle.control.specs.Control.{binding, grant_of};

use crate::reply::Grant;
use crate::unknown::check_understood;
use stun::Message;
use stun::registry::ErrorCode;

/// Answers a Binding request.
///
/// # Errors
/// 420 where an attribute isn't understood.
pub(crate) fn binding(message: &Message<'_>) -> Result<Grant, ErrorCode>
    ensures { result ≡ grant_of (binding message.now) }
{
    check_understood(message)?;
    Ok(Grant::Mapped)
}
