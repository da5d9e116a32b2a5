//! The moments of datagrams.

use libc::types::timespec;
use server::ServerClock;
use std::rt::Clock;
use std::time::Duration;

/// Linux's clock that isn't set, and that continues while the machine is suspended.
const CLOCK_BOOTTIME: i32 = 7;

/// Returns the time since an arbitrary start, by a clock that isn't set and continues while the machine is suspended;
/// where the system has none, by the monotonic one. Where the clock fails it is that start, and nothing is due.
pub(crate) fn elapsed<R: Clock>(rt: &R) -> Duration {
    let mut time = timespec {
        tv_sec: 0,
        tv_nsec: 0,
    };
    if libc::clock_gettime(CLOCK_BOOTTIME, &mut time) == 0
        && let Ok(seconds) = u64::try_from(time.tv_sec)
        && let Ok(nanos) = u64::try_from(time.tv_nsec)
    {
        return Duration::from_secs(seconds).saturating_add(Duration::from_nanos(nanos));
    }
    match rt.monotonic() {
        Ok(time) => time,
        Err(_) => Duration::ZERO,
    }
}

/// Returns the clock of a server that starts now. Where the system's clock fails the start is 1970's.
pub(crate) fn starting_now<R: Clock>(rt: &R) -> ServerClock {
    let start = rt.since_1970().unwrap_or(Duration::ZERO);
    ServerClock::new(start, elapsed(rt))
}

/// Returns the moment of a datagram that comes now: whole seconds since 1970.
pub(crate) fn moment<R: Clock>(rt: &R, moments: &ServerClock) -> u64 {
    moments.at(elapsed(rt))
}
