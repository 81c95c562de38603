//! The clock.

ghost use Rattle.std.specs.Prelude.{◌≡◌, ◌≤◌, ◌/◌, min};
ghost use Rattle.kb_wire.specs.declared.clock.TheConstants.{MAX_CLOCK};
ghost use Rattle.std.specs.Duration.{as_nanos};
ghost use Rattle.std.specs.Time.{system_time_nanos};

use jiff::Timestamp;
use kb_wire::MAX_CLOCK;
use std::alloc::{AllocError, Global};
use std::time::{Clock, Duration, SystemTime};

/// The moment so long after the beginning of 1970: in whole milliseconds, and at most 2^62.
fn moment_of(since: Duration) -> u64
    ensures { result ≡ min (as_nanos since / 1000000) MAX_CLOCK }
{
    u64::try_from(since.as_millis())
        .unwrap_or(MAX_CLOCK)
        .min(MAX_CLOCK)
}

/// A time as a moment: milliseconds since the beginning of 1970, at most 2^62.
pub fn moment_at(time: SystemTime) -> u64
    ensures { result ≡ min (system_time_nanos time / 1000000) MAX_CLOCK }
{
    match time.duration_since(SystemTime::UNIX_EPOCH) {
        Ok(since) => moment_of(since),
        // no time is before
        Err(_) => 0,
    }
}

/// The moment that the wall clock shows: milliseconds since the beginning of 1970, at most 2^62. It is 0 where the clock cannot be
/// read, or is set to a time before.
pub fn now(clock: &impl Clock) -> u64
    ensures { result ≤ MAX_CLOCK }
{
    SystemTime::now(clock).map_or(0, moment_at)
}

/// A moment as text, in UTC, as `2026-11-24T21:10:42.5Z` (ISO 8601). One after the year 9999 has no text but `-`.
pub fn time_text(alloc: Global, moment: u64) -> Result<String, AllocError> {
    match i64::try_from(moment) {
        Ok(millis) => millis_text(alloc, millis),
        Err(_) => String::from_str(alloc, "-"),
    }
}

fn millis_text(alloc: Global, millis: i64) -> Result<String, AllocError> {
    match Timestamp::from_millisecond(millis) {
        Ok(time) => format!(in alloc; "{time}"),
        Err(_) => String::from_str(alloc, "-"),
    }
}
