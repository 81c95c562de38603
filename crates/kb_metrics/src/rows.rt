//! What pages show of a tenant, row by row.

use crate::limits::Limits;
use kb_over_limit::OverLimit;

/// How far a group is behind in a topic.
#[derive(Clone, Copy)]
pub(crate) struct LagRow<'a> {
    pub(crate) group: &'a str,
    pub(crate) topic: &'a str,
    pub(crate) value: u64,
}

/// A group, with its number of members and its generation.
#[derive(Clone, Copy)]
pub(crate) struct GroupRow<'a> {
    pub(crate) id: &'a [u8],
    pub(crate) members: u64,
    pub(crate) generation: i32,
}

/// A partition of a topic, with the offset of its first record and the one behind its last record.
#[derive(Clone, Copy)]
pub(crate) struct PartitionRow<'a> {
    pub(crate) topic: &'a str,
    pub(crate) number: u64,
    pub(crate) start: i64,
    pub(crate) end: i64,
}

/// What a group committed to a partition of a topic.
#[derive(Clone, Copy)]
pub(crate) struct CommitRow<'a> {
    pub(crate) group: &'a str,
    pub(crate) topic: &'a str,
    pub(crate) number: u64,
    pub(crate) offset: i64,
}

/// A tenant, with the numbers of its connections, of what it keeps, and of its traffic, and with its limits.
#[derive(Drop)]
pub(crate) struct TenantRow<'a> {
    pub(crate) name: &'a str,
    pub(crate) connections: u64,
    pub(crate) waiting: u64,
    pub(crate) topics: u64,
    pub(crate) partitions: u64,
    /// The bytes of its batches; none where they are not known.
    pub(crate) stored: Option<u64>,
    pub(crate) committed_offsets: u64,
    pub(crate) limits: Limits,
    pub(crate) groups: Vec<GroupRow<'a>>,
    pub(crate) lags: Vec<LagRow<'a>>,
    /// Each number stands at the place of its API key.
    pub(crate) requests: &'a [u64],
    pub(crate) request_bytes: u64,
    pub(crate) response_bytes: u64,
    pub(crate) refusals: u64,
    /// How many of its refusals are the store's.
    pub(crate) store_refusals: u64,
    /// How often it was told that it is past one of its limits.
    pub(crate) over: OverLimit,
}
