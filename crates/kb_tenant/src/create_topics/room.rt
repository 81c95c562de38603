//! What a tenant's limits leave for more topics.
ghost use Rattle.std.specs.Prelude.{◌≡◌, ◌<◌};
ghost use Rattle.kb_store.specs.Disk.{Files};
ghost use Rattle.kb_tenant.specs.CreateTopics.{is_too_much, room_behind, room_in};
ghost use Rattle.kb_tenant.specs.Limits.{left_of};
ghost use Rattle.kb_tenant_state.specs.Stored.{partitions_in};
ghost use Rattle.kb_tenant_state.specs.Parts.{world_of};

use crate::fetch::not_negative;
use crate::limits::{DataLimits, is_past, left_of};
use kb_log::PartitionLog;
use kb_tenant_state::Parts;

/// How many topics there are, and how many partitions there may be beside theirs. None is no limit.
#[derive(Clone, Copy, Debug, PartialEq, Eq)]
pub(crate) struct Room {
    pub topics: usize,
    pub partitions: Option<u64>,
}

/// How many partitions there may be beside those that are there. They are only counted where there is a limit.
fn partitions_left<L: PartitionLog + Drop>(parts: &Parts<L>, limit: Option<u64>) -> Option<u64>
    ensures { (files : Files) → result ≡ left_of limit (partitions_in (world_of L.log parts.now files).known) }
{
    if limit.is_none() {
        return None;
    }
    left_of(limit, parts.partition_count())
}

impl Room {
    /// The room that a tenant's topics leave.
    pub(super) fn of<L: PartitionLog + Drop>(parts: &Parts<L>, limits: DataLimits) -> Room
        ensures { (files : Files) → result ≡ room_in limits (world_of L.log parts.now files).known }
    {
        Room {
            topics: parts.topic_count(),
            partitions: partitions_left(parts, limits.partitions),
        }
    }

    /// Whether the tenant may not have one more topic, of so many partitions.
    pub(super) fn is_too_small(&self, limits: DataLimits, partitions: i32) -> bool
        ensures { result ≡ is_too_much limits self.now partitions }
    {
        let is_topic_past = match limits.topics {
            Some(limit) => limit <= self.topics as u64,
            None => false,
        };
        is_topic_past || is_past(self.partitions, not_negative(partitions))
    }

    /// The room behind one more topic, of so many partitions.
    pub(super) fn behind(&self, partitions: i32) -> Room
        requires { self.now.topics < 1000 }
        ensures { result ≡ room_behind self.now partitions }
    {
        Room {
            topics: self.topics + 1,
            partitions: left_of(self.partitions, not_negative(partitions)),
        }
    }
}
