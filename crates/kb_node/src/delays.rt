//! Failed logins, which are answered late: so guessing passwords is slow.

ghost use Rattle.std.specs.Prelude.{◌≡◌, [], length, OnErr, OnOk};
ghost use Rattle.std.specs.BTreeSet.{insert_key};
ghost use Rattle.kb_node.specs.Deadlines.{by_moment, first_end, silent, without_silent, without_since};

use crate::deadlines::Moments;
use std::alloc::{AllocError, Global};

/// How long a failed login waits for its answer, in milliseconds (Kafka's `connection.failed.authentication.delay.ms`).
const DELAY: u64 = 100;

/// The connections whose failed logins wait for their answers, and since when each does.
#[derive(Drop)]
pub struct Delays {
    moments: Moments,
}

impl Delays {
    /// None.
    pub fn new(alloc: Global) -> Self
        ensures { result.moments.moments.keys ≡ [] }
    {
        Delays {
            moments: Moments::new(alloc),
        }
    }

    /// How many wait.
    pub fn len(&self) -> usize
        ensures { result ≡ length self.now.moments.moments.keys }
    {
        self.moments.len()
    }

    /// The login of one failed now.
    pub fn begin(&mut self, connection: u64, now: u64) -> Result<(), AllocError>
        ensures begun { OnOk result (self.new.moments.moments.keys
            ≡ insert_key by_moment self.old.moments.moments.keys (now, connection)) }
        ensures refused { OnErr result (self.new.moments.moments.keys ≡ self.old.moments.moments.keys) }
    {
        self.moments.begin(connection, now)
    }

    /// One is closed, which waits since then, where it does. Takes no memory.
    pub fn forget(&mut self, connection: u64, since: Option<u64>)
        ensures { self.new.moments.moments.keys ≡ without_since connection since self.old.moments.moments.keys }
    {
        if let Some(moment) = since {
            self.moments.end(connection, moment);
        }
    }

    /// The one that waits for longest, where it may be answered now. It waits no more.
    pub fn take_due(&mut self, now: u64) -> Option<u64>
        ensures due { result ≡ silent now 100 self.old.moments.moments.keys }
        ensures others { self.new.moments.moments.keys ≡ without_silent now 100 self.old.moments.moments.keys }
    {
        self.moments.take_silent(now, DELAY)
    }

    /// The first moment at which one may be answered: the greatest number where none waits.
    pub fn first_due(&self) -> u64
        ensures { result ≡ first_end 100 self.now.moments.moments.keys }
    {
        self.moments.first_end(DELAY)
    }
}
