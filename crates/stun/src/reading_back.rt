//! Messages that are read back while they are built.

ghost use Rattle.std.specs.Prelude.{◌≡◌, IsOkAnd};
ghost use Rattle.stun.specs.Builders.{parts_of};

use crate::building::Builder;
use crate::reading::{Message, read};
use crate::refusal::StunError;

/// Reads the message that is being built, which always succeeds.
pub fn read_back<'b>(builder: &'b Builder<'_>) -> Result<Message<'b>, StunError>
    ensures { IsOkAnd result (λ m. m ≡ parts_of builder.now) }
{
    read(builder.written())
}
