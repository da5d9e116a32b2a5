//! Moments, in whole seconds.

ghost use Rattle.std.specs.Prelude.{◌≡◌};
ghost use Rattle.tables.specs.Moments.{moment_of};

/// The latest moment, in seconds. A later one counts as this.
pub const LATEST: u64 = 1 << 62;

/// Clamps a moment to at most [`LATEST`], and then to at least the greatest of the changes made.
pub fn moment_of(greatest: u64, now: u64) -> u64
    ensures { result ≡ moment_of greatest now }
{
    greatest.max(now.min(LATEST))
}
