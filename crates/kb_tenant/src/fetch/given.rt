//! What is left of a fetch's limits.
ghost use Rattle.std.specs.Prelude.{◌≡◌, ◌<◌, ◌^◌};
ghost use Rattle.kb_batch.specs.Batch.{natural};
ghost use Rattle.kb_tenant.specs.Counted.{begun, has_enough, less, limit_of, wrong};

use crate::fetch::asked::AskedFetch;
use kb_api_data::FetchPartition;

/// The most bytes of records that the limits of one reply allow.
const MOST_BYTES: u64 = 8_388_608;

/// What is left of a fetch's limits, and what its reply has so far.
#[derive(Clone, Copy, Debug, PartialEq, Eq)]
pub(crate) struct Given {
    /// How many more bytes of records the reply may have.
    pub left: u64,
    /// No partition gave records yet, so a batch over the limit is given whole.
    pub first: bool,
    /// How many bytes of records are wanting to those that the fetch waits for.
    pub missing: u64,
    /// A partition was asked for.
    pub is_asked: bool,
    /// A partition was refused.
    pub is_wrong: bool,
}

/// A limit or a time of a request; below 0 it counts as 0.
pub(crate) fn not_negative(n: i32) -> u64
    ensures value { result ≡ natural n }
    ensures small { result < 2 ^ 31 }
{
    n.max(0) as u64
}

impl Given {
    /// Nothing was given yet.
    pub(crate) fn begun(request: &AskedFetch) -> Given
        ensures { result ≡ begun request.now }
    {
        Given {
            left: not_negative(request.max_bytes()).min(MOST_BYTES),
            first: true,
            missing: not_negative(request.min_bytes()),
            is_asked: false,
            is_wrong: false,
        }
    }

    /// How many bytes of records a partition may give.
    pub(crate) fn limit(&self, entry: &FetchPartition) -> u64
        ensures { result ≡ limit_of self.now entry.now }
    {
        not_negative(entry.partition_max_bytes).min(self.left)
    }

    /// A partition gave so many bytes of records.
    pub(crate) fn take(&mut self, bytes: usize)
        ensures { self.new ≡ less self.old bytes }
    {
        self.left = self.left.saturating_sub(bytes as u64);
        self.first = self.first && bytes == 0;
        self.missing = self.missing.saturating_sub(bytes as u64);
        self.is_asked = true;
    }

    /// A partition was refused.
    pub(crate) fn refuse(&mut self)
        ensures { self.new ≡ wrong self.old }
    {
        self.is_asked = true;
        self.is_wrong = true;
    }

    /// Whether the fetch is answered with what it was given, rather than waits.
    pub(crate) fn is_ready(&self, clock: u64, deadline: u64) -> bool
        ensures { result ≡ has_enough self.now clock deadline }
    {
        !self.is_asked || self.is_wrong || self.missing == 0 || deadline <= clock
    }
}
