//! One tenant, to look at.

use kb_coordinator::Coordinator;
use kb_log::PartitionLog;
use kb_over_limit::OverLimit;
use kb_tenant_state::Parts;

/// A tenant among the others, to look at: its name, its topics with their partitions, and its consumer groups. Nothing of another
/// tenant is in it.
pub struct TenantView<'a, L: PartitionLog> {
    pub name: &'a str,
    pub parts: &'a Parts<L>,
    pub groups: &'a Coordinator,
    /// How many of the refusals that its parts count were the store's. The others were of memory.
    pub store_refusals: u64,
    /// How often it was told that it is past one of its limits.
    pub over: OverLimit,
}
