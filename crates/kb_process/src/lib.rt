//! What a process finds when it is started: its standard streams, and how many files it may have open.
//!
//! [`hold_streams`] keeps the descriptors 0 to 2 taken, [`soft_limit`] and [`hard_limit`] read what the system says of a process's
//! limits, [`judge`] says whether they are enough for a broker, and [`to_ask_for`] which limit would be.
#![tactic(auto)]

mod limit;
mod streams;

pub use limit::{OpenFiles, hard_limit, judge, soft_limit, to_ask_for};
pub use streams::{Streams, hold_streams};
