//! What a tenant may have, and what one request of it may name.
ghost use Rattle.std.specs.Prelude.{◌≡◌, ◌-◌, ◌^◌, ℕ, min};
ghost use Rattle.kb_tenant.specs.Limits.{is_past, left_of, no_limits};

/// What a tenant may have, and what one request of it may name. None is no limit.
#[derive(Clone, Copy, Debug, PartialEq, Eq)]
pub struct DataLimits {
    /// How many topics.
    pub topics: Option<u64>,
    /// How many partitions, of all its topics.
    pub partitions: Option<u64>,
    /// How many committed offsets: one a group and a partition.
    pub offsets: Option<u64>,
    /// How many bytes of texts its committed offsets have: of the ids of their groups, and of what those wrote beside them.
    pub group_bytes: Option<u64>,
    /// How many bytes of batches, in all of its logs.
    pub bytes: Option<u64>,
    /// How many entries one request may name: topics and partitions together, or groups. A search by time
    /// counts as 16, and a group that is deleted as 512.
    pub request_entries: Option<u64>,
    /// How many bytes of records a reply of Fetch has, but for a first batch, which is given whole.
    pub fetch_bytes: Option<u64>,
    /// How large a reply of Metadata, OffsetFetch, DescribeConfigs, DescribeGroups or ListGroups may be, as its size counts it.
    pub reply_bytes: Option<u64>,
}

impl DataLimits {
    /// No limit.
    pub fn none() -> DataLimits
        ensures { result ≡ no_limits }
    {
        DataLimits {
            topics: None,
            partitions: None,
            offsets: None,
            group_bytes: None,
            bytes: None,
            request_entries: None,
            fetch_bytes: None,
            reply_bytes: None,
        }
    }
}

/// What is left of a limit where there are so many. None is no limit.
pub(crate) fn left_of(limit: Option<u64>, count: u64) -> Option<u64>
    ensures exact { result ≡ left_of limit count }
    // A count that is the greatest number leaves what any above it leaves.
    ensures most { (n : ℕ) → count ≡ min n (2 ^ 64 - 1) → result ≡ left_of limit n }
{
    Some(limit?.saturating_sub(count))
}

/// Whether so many are past what is left. None is no limit.
pub(crate) fn is_past(left: Option<u64>, count: u64) -> bool
    ensures { result ≡ is_past left count }
{
    match left {
        Some(left) => left < count,
        None => false,
    }
}
