//! The lifetimes of allocations (RFC 8656, section 7.2).

ghost use Rattle.std.specs.Prelude.{◌≡◌};
ghost use Rattle.control.specs.Control.{lifetime_for, refresh_for};

/// The shortest lifetime that is given, in seconds, and that which is given where none is requested.
pub const MIN_LIFETIME: u32 = 600;

/// The longest lifetime that is given, in seconds.
pub const MAX_LIFETIME: u32 = 3600;

/// Returns the lifetime that an Allocate request is given.
pub(crate) fn lifetime_for(requested: Option<u32>) -> u32
    ensures { result ≡ lifetime_for requested }
{
    match requested {
        Some(requested) => requested.clamp(MIN_LIFETIME, MAX_LIFETIME),
        None => MIN_LIFETIME,
    }
}

/// Returns the lifetime that a Refresh request is given: 0 where that is requested.
pub(crate) fn refresh_for(requested: Option<u32>) -> u32
    ensures { result ≡ refresh_for requested }
{
    match requested {
        Some(0) => 0,
        _ => lifetime_for(requested),
    }
}
