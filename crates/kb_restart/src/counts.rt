//! How much a broker has that opens with files.
ghost use Rattle.std.specs.Prelude.{◌≡◌, map};
ghost use Rattle.kb_topics.specs.Catalog.{known};
ghost use Rattle.kb_restart.specs.Counts.{counts_of, partitions_of, told};

use kb_segment_log::SegmentLog;
use kb_tenant_state::Parts;

/// How much a broker has that opened with files. A count that is greater than each `u64` stays at the greatest.
#[derive(Clone, Copy, Debug, PartialEq, Eq)]
pub struct Counts {
    pub tenants: u64,
    /// The topics of all tenants.
    pub topics: u64,
    /// The partitions of all topics.
    pub partitions: u64,
    /// The files that are of no log.
    pub strays: u64,
}

impl Counts {
    /// What those tenants have, beside those files of no log.
    pub(crate) fn of(tenants: &[Parts<SegmentLog>], strays: &[u64]) -> Counts
        ensures { result ≡ counts_of (map (λ p. known p.catalog) tenants.now) strays.now }
    {
        let mut topics: u64 = 0;
        let mut partitions: u64 = 0;
        for tenant in tenants {
            topics = topics.saturating_add(tenant.topic_count() as u64);
            partitions = partitions.saturating_add(partitions_of(tenant));
        }
        Counts {
            tenants: tenants.len() as u64,
            topics,
            partitions,
            strays: strays.len() as u64,
        }
    }
}

/// How many partitions the topics of a tenant have.
fn partitions_of(tenant: &Parts<SegmentLog>) -> u64
    ensures { result ≡ told (partitions_of (known tenant.now.catalog)) }
{
    let mut partitions: u64 = 0;
    for (_, topic) in tenant.topics() {
        partitions = partitions.saturating_add(topic.partitions().len() as u64);
    }
    partitions
}
