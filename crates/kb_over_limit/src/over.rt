//! What is past a limit.

ghost use Rattle.std.specs.Prelude.{◌≡◌};
ghost use Rattle.kb_over_limit.specs.Over.{both, none};

/// How many entries were told that they are past a limit of their tenant, by what is limited. No number goes past its end.
#[derive(Clone, Copy)]
pub struct OverLimit {
    /// Batches: the tenant's bytes.
    pub bytes: u64,
    /// Topics to make: how many it may have.
    pub topics: u64,
    /// Topics to make: how many partitions it may have.
    pub partitions: u64,
    /// Commits: how many offsets it may have, and the bytes of their texts.
    pub offsets: u64,
    /// Joins: how many groups it may have.
    pub groups: u64,
    /// Joins and syncs: the bytes of its groups, or the members of one.
    pub group_bytes: u64,
}

impl OverLimit {
    /// Nothing was.
    pub fn none() -> OverLimit
        ensures { result ≡ none }
    {
        OverLimit {
            bytes: 0,
            topics: 0,
            partitions: 0,
            offsets: 0,
            groups: 0,
            group_bytes: 0,
        }
    }

    /// Both together.
    pub fn with(self, more: OverLimit) -> OverLimit
        ensures { result ≡ both self more }
    {
        OverLimit {
            bytes: self.bytes.saturating_add(more.bytes),
            topics: self.topics.saturating_add(more.topics),
            partitions: self.partitions.saturating_add(more.partitions),
            offsets: self.offsets.saturating_add(more.offsets),
            groups: self.groups.saturating_add(more.groups),
            group_bytes: self.group_bytes.saturating_add(more.group_bytes),
        }
    }
}
