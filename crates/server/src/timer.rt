//! What is done periodically.

ghost use Rattle.std.specs.Prelude.{◌≡◌, ◌≤◌, ◌↔◌, IsTrue};
ghost use Rattle.server.specs.Timers.{IsTimerAfter, first_moment};
ghost use Rattle.std.specs.Duration.{as_nanos};

use std::time::Duration;

/// What is done periodically. Its moments are times since an arbitrary start.
#[derive(Clone, Copy)]
pub struct Timer {
    /// The time between two moments.
    every: Duration,
    next: Duration,
}

impl Timer {
    /// Returns a timer that is due one period after `now`.
    pub fn new(now: Duration, every: Duration) -> Timer
        ensures every { result.every ≡ every }
        ensures next { as_nanos result.next ≡ first_moment now every }
    {
        let next = now.saturating_add(every);
        Timer { every, next }
    }

    /// Fires where the timer is due, `now` being at or after its moment, and is then set for one period after `now`.
    /// Returns whether it fires.
    pub fn fire(&mut self, now: Duration) -> bool
        ensures due { IsTrue result ↔ (as_nanos self.old.next ≤ as_nanos now) }
        ensures after { IsTimerAfter self.old now result self.new }
    {
        if now.as_nanos() < self.next.as_nanos() {
            return false;
        }
        self.next = now.saturating_add(self.every);
        true
    }
}
