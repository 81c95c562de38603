//! A clock that follows the wall clock, but not each of its jumps.

ghost use Rattle.std.specs.Prelude.{◌≡◌, ◌≤◌, ◌<◌, ◌+◌, ◌-◌, ◌/◌, max, option_map};
ghost use Rattle.kb_wire.specs.declared.clock.TheConstants.{MAX_CLOCK};
ghost use Rattle.std.specs.Duration.{as_nanos};
ghost use Rattle.kb_server_log.specs.Guard.{reading_of, micros_of};
ghost use Rattle.kb_server_log.specs.Guard.{started_clock, clock_after, told, notice, aim, at_half_pace, at_twice_the_pace, expected};
ghost use Rattle.kb_server_log.specs.Guard.{elapsed, since, steady_after, a_second, half_a_minute, a_minute, ten_minutes};

use std::time::{Clock, Duration};

/// How much of the time between two readings counts where the wall clock is caught up with: a second, in microseconds.
const SECOND: u64 = 1_000_000;

/// How far the time stays behind at most: half a minute, in halves of a microsecond.
const HALF_A_MINUTE: u64 = 60_000_000;

/// How far ahead the wall clock is followed: a minute, in halves of a microsecond.
const MINUTE: u64 = 120_000_000;

/// How long the wall clock is ahead before it is followed: ten minutes, in microseconds.
const TEN_MINUTES: u64 = 600_000_000;

/// What the two clocks of a machine show, in microseconds.
#[derive(Clone, Copy, Debug, PartialEq, Eq)]
pub struct Reading {
    /// The wall clock, since the beginning of 1970. Somebody may set it.
    pub wall: u64,
    /// The steady clock, since any start. Nobody sets it.
    pub steady: u64,
}

/// What is to be told of the wall clock.
#[derive(Clone, Copy, Debug, PartialEq, Eq)]
pub enum Notice {
    /// It is more than a minute ahead, and is not followed.
    Ahead,
    /// It was ahead for ten minutes, and is followed again.
    Taken,
    /// It is ahead no longer.
    Back,
}

/// The time after a reading.
#[derive(Clone, Copy, Debug, PartialEq, Eq)]
pub struct Tick {
    /// In milliseconds since the beginning of 1970, at most 2^62.
    pub moment: u64,
    /// What is to be told.
    pub told: Option<Notice>,
}

/// A clock that goes on with the wall clock and never goes back.
///
/// Where the wall clock is behind, it goes on at half its pace until they meet. Where the wall clock is ahead, it goes on at twice its pace
/// at most, and by two seconds at a reading: so what waits to be read behind a standstill is read before its time is over. But it stays no
/// more than half a minute behind. Where the wall clock is more than a minute ahead, it goes on at its own pace, and follows only after ten
/// minutes.
#[derive(Clone, Copy, Debug, PartialEq, Eq)]
pub struct GuardedClock {
    /// The time, in halves of a microsecond since the beginning of 1970.
    time: u64,
    /// What the steady clock has shown at most, in microseconds.
    steady: u64,
    /// What the steady clock showed when the wall clock was found ahead: it is so since then.
    ahead_since: Option<u64>,
}

impl Reading {
    /// What the clocks show now. A clock that cannot be read shows 0, and so does a wall clock that is set to a time before 1970.
    pub fn of(clock: &impl Clock) -> Reading {
        Reading::shown(clock.since_1970().ok(), clock.monotonic().ok())
    }

    /// The reading of a wall clock and of a steady clock that show so much, where they can be read.
    fn shown(wall: Option<Duration>, steady: Option<Duration>) -> Reading
        ensures { result ≡ reading_of (option_map as_nanos wall) (option_map as_nanos steady) }
    {
        Reading {
            wall: wall.map_or(0, micros_of),
            steady: steady.map_or(0, micros_of),
        }
    }
}

impl GuardedClock {
    /// A clock that starts where the wall clock is.
    pub fn starting(reading: Reading) -> GuardedClock
        ensures { result ≡ started_clock reading }
    {
        GuardedClock {
            time: reading.wall.saturating_mul(2),
            steady: reading.steady,
            ahead_since: None,
        }
    }

    /// Goes on to a reading, and says what time it is then.
    pub fn next(&mut self, reading: Reading) -> Tick
        ensures clock { self.new ≡ clock_after self.old reading }
        ensures moment { result.moment ≡ self.new.time / 2000 }
        ensures told { result.told ≡ told self.old reading }
        ensures bounded { result.moment ≤ MAX_CLOCK }
        ensures never_back { self.old.time ≤ self.new.time }
        ensures at_half_pace { elapsed self.old reading ≤ a_second → at_half_pace self.old reading ≤ self.new.time }
        ensures at_twice_the_pace { self.new.time ≤ max (at_twice_the_pace self.old reading) (aim self.old reading - half_a_minute) }
        ensures near { aim self.old reading ≤ self.new.time + half_a_minute }
        ensures no_jump { steady_after self.old reading - since self.old reading < ten_minutes
            → self.new.time ≤ expected self.old reading + a_minute }
    {
        let elapsed = reading.steady.saturating_sub(self.steady);
        let steady = self.steady.max(reading.steady);
        let wall = reading.wall.saturating_mul(2);
        let expected = self.time.saturating_add(elapsed.saturating_mul(2));
        let is_ahead = wall.saturating_sub(expected) > MINUTE;
        let since = self.ahead_since.unwrap_or(steady);
        let is_held = is_ahead && steady.saturating_sub(since) < TEN_MINUTES;
        let told = notice_of(self.ahead_since, is_ahead, is_held);
        let aim = if is_held {
            expected
        } else {
            wall.max(self.time.saturating_add(elapsed))
        };
        let at_twice_the_pace = self.time.saturating_add(elapsed.min(SECOND) * 4);
        self.time = aim.min(at_twice_the_pace.max(aim.saturating_sub(HALF_A_MINUTE)));
        self.steady = steady;
        self.ahead_since = is_held.then_some(since);
        Tick {
            moment: self.time / 2000,
            told,
        }
    }
}

/// What is told where the wall clock was ahead or was not, is ahead, and is not followed.
fn notice_of(since: Option<u64>, is_ahead: bool, is_held: bool) -> Option<Notice>
    ensures { result ≡ notice since is_ahead is_held }
{
    match since {
        None if is_held => Some(Notice::Ahead),
        Some(_) if !is_held && is_ahead => Some(Notice::Taken),
        Some(_) if !is_held => Some(Notice::Back),
        _ => None,
    }
}

/// Whole microseconds, and at most as many as a number of 64 bits holds.
fn micros_of(since: Duration) -> u64
    ensures { result ≡ micros_of (as_nanos since) }
{
    u64::try_from(since.as_micros()).unwrap_or(u64::MAX)
}
