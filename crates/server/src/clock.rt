//! The clock of a server, by which each datagram has its moment.

ghost use Rattle.std.specs.Prelude.{◌≡◌};
ghost use Rattle.server.specs.Timers.{second_at, seconds_of, IsSecondsAhead};

use std::time::Duration;

/// The clock of a server: that of the system at the start, and since then one that isn't set.
/// See docs/DECISIONS.md, "A server's clock isn't set".
#[derive(Clone, Copy)]
pub struct ServerClock {
    /// When the server started, since 1970.
    start: Duration,
    /// What the clock that isn't set showed then.
    elapsed: Duration,
}

/// How many seconds the system's clock is ahead of the moments, since it was last set.
/// See docs/DECISIONS.md, "Names expire by the system's clock".
#[derive(Clone, Copy)]
pub struct ClockOffset {
    pub ahead: i64,
}

impl ServerClock {
    /// Returns the clock of a server that started at a time since 1970, when the clock that isn't set showed `elapsed`.
    pub fn new(start: Duration, elapsed: Duration) -> ServerClock
        ensures start { result.start ≡ start }
        ensures elapsed { result.elapsed ≡ elapsed }
    {
        ServerClock { start, elapsed }
    }

    /// Returns the moment at which the clock that isn't set shows `elapsed`: whole seconds since 1970, never before the
    /// start.
    pub fn at(&self, elapsed: Duration) -> u64
        ensures { result ≡ second_at self.now elapsed }
    {
        let since = elapsed.saturating_sub(self.elapsed);
        self.start.saturating_add(since).as_secs()
    }

    /// Returns how many seconds the system's clock is ahead, which shows `system` since 1970 when the one that isn't
    /// set shows `elapsed`; below zero where it is behind.
    pub fn ahead(&self, system: Duration, elapsed: Duration) -> i64
        ensures { IsSecondsAhead (seconds_of system) (second_at self.now elapsed) result }
    {
        let Ok(time) = i64::try_from(system.as_secs()) else {
            return 0;
        };
        let Ok(moment) = i64::try_from(self.at(elapsed)) else {
            return 0;
        };
        time - moment
    }
}

impl ClockOffset {
    ghost use Rattle.std.specs.Prelude.{◌≡◌, pos};
    ghost use Rattle.server.specs.Timers.{offset_after, is_set};

    /// Returns that of a server that starts: none.
    pub fn new() -> ClockOffset
        ensures { result.ahead ≡ pos 0 }
    {
        ClockOffset { ahead: 0 }
    }

    /// Takes how many seconds the system's clock is ahead now. Returns whether it was set: that differs by more than a
    /// second from what it was before, which is kept otherwise.
    pub fn update(&mut self, ahead: i64) -> bool
        ensures set { result ≡ is_set self.old.ahead ahead }
        ensures after { self.new.ahead ≡ offset_after self.old.ahead ahead }
    {
        let is_set = ahead.abs_diff(self.ahead) > 1;
        if is_set {
            self.ahead = ahead;
        }
        is_set
    }
}
