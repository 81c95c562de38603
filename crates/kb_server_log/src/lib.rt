//! The time of a server, and lines that tell of it while it runs: when one is due, and what is new in a count.
//!
//! A [`GuardedClock`] is the server's time: it follows the wall clock, but not each of its jumps. A [`Tally`] tells by how much a
//! count has grown, a [`Pace`] keeps lines a second apart, and [`Missed`] counts the lines that were not taken. [`now`] reads the wall
//! clock in milliseconds, [`moment_at`] is any other time, [`time_text`] is the time at the head of a line, and a [`Change`] says how long ago a file was changed.
#![tactic(auto)]

mod change;
mod clock;
mod guard;
mod lines;
mod pace;
mod tally;

pub use change::Change;
pub use clock::{moment_at, now, time_text};
pub use guard::{GuardedClock, Notice, Reading, Tick};
pub use lines::{Missed, Sink};
pub use pace::Pace;
pub use tally::Tally;
