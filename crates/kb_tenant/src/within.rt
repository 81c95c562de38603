//! How many entries a request names, which is limited before anything is done.
ghost use Rattle.std.specs.List.{sum_by};
ghost use Rattle.std.specs.Prelude.{◌≡◌, ℕ, IfOk, Ok, length, nat_lt};
ghost use Rattle.kb_wire.specs.Codec.{whole};
ghost use Rattle.kb_wire.specs.Reads.{ReadsWhole};
ghost use Rattle.kb_tenant.specs.Entries.{left_behind, listing_weight, with_entries, within};

use crate::fetch::{AskedFetch, AskedTopic};
use kb_api_data::{
    ConfigResource, CreateTopicsRequestV1, DeleteRecordsRequest, DeleteRecordsTopic,
    DeleteTopicsRequest, DescribeConfigsRequest, ListOffsetsPartition, ListOffsetsRequest,
    MetadataRequest, ProduceRequest, ProduceTopic,
};
use kb_api_group::{
    CommitTopic, DeleteGroupsRequest, DescribeGroupsRequest, OffsetCommitRequest,
    OffsetFetchRequestV2, OffsetFetchTopic,
};
use kb_wire::{Layout, ReadFault, WireFault};
use std::alloc::Global;

/// How many entries a search by time counts as. It reads what lies between two entries of a log's index.
const BY_TIME: u64 = 16;

/// A topic of a request, which has entries of its own.
trait Entries {
    /// How many.
    ghost own: { Self → ℕ };

    /// How many entries of its own it has.
    fn own(&self) -> usize
        ensures { result ≡ own self.now };
}

/// A request that names entries.
pub trait Named: Sized + Drop {
    /// How many.
    ghost entries: { Self → ℕ };

    /// Whether it names more than a limit allows.
    fn is_past(&self, limit: u64) -> bool
        ensures { result ≡ nat_lt limit (entries self.now) };
}

/// Whether topics, with their own entries, are more than a limit allows.
fn are_past<T: Entries>(topics: &[T], limit: u64) -> bool
    ensures { result ≡ nat_lt limit (with_entries T.own topics.now) }
{
    let mut left = limit;
    for topic in topics {
        let own = topic.own() as u64;
        if left <= own {
            return true;
        }
        left -= own + 1;
    }
    false
}

/// How many entries a partition of ListOffsets counts as: a search by time is many.
fn listing_weight(partition: &ListOffsetsPartition) -> u64
    ensures { result ≡ listing_weight partition.now }
{
    if partition.timestamp < 0 { 1 } else { BY_TIME }
}

/// What is left of so many entries behind the partitions of a topic of ListOffsets, where they are no more.
fn left_behind(partitions: &[ListOffsetsPartition], left: u64) -> Option<u64>
    ensures { result ≡ left_behind left (sum_by listing_weight partitions.now) }
{
    let mut left = left;
    for partition in partitions {
        let weight = listing_weight(partition);
        if left < weight {
            return None;
        }
        left -= weight;
    }
    Some(left)
}

/// A request, unless it names more entries than a limit allows: that is a fault of its body. None is no limit.
pub(crate) fn within<A: Named>(limit: Option<u64>, asked: A) -> Result<A, ReadFault>
    ensures exact { ReadsWhole (within limit A.entries (Ok asked)) result }
    ensures same { IfOk result (λ r. r ≡ asked) }
{
    let is_past = match limit {
        Some(limit) => asked.is_past(limit),
        None => false,
    };
    if is_past {
        return Err(ReadFault::Wire(WireFault::Bad));
    }
    Ok(asked)
}

/// The request that a whole body spells, unless it names more entries than a limit allows.
pub fn read_within<'a, A: Layout<'a> + Named>(
    alloc: Global,
    limit: Option<u64>,
    body: &'a [u8],
) -> Result<A, ReadFault>
    ensures exact { ReadsWhole (within limit A.entries (whole A.codec body.now)) result }
    ensures spelled { IfOk result (λ r. whole A.codec body.now ≡ Ok r) }
    ensures fits { IfOk result (λ r. A.codec.Fits r) }
{
    let asked = A::read(alloc, body)?;
    within(limit, asked)
}

impl Entries for ProduceTopic<'_> {
    ghost use Rattle.std.specs.Prelude.{length};

    ghost own = { λ t. length t.partitions };

    fn own(&self) -> usize {
        self.partitions.len()
    }
}

impl Entries for AskedTopic {
    ghost use Rattle.std.specs.Prelude.{length};

    ghost own = { λ t. length t.partitions };

    fn own(&self) -> usize {
        self.partitions().len()
    }
}

impl Entries for DeleteRecordsTopic<'_> {
    ghost use Rattle.std.specs.Prelude.{length};

    ghost own = { λ t. length t.partitions };

    fn own(&self) -> usize {
        self.partitions.len()
    }
}

impl Entries for CommitTopic<'_> {
    ghost use Rattle.std.specs.Prelude.{length};

    ghost own = { λ t. length t.partitions };

    fn own(&self) -> usize {
        self.partitions.len()
    }
}

impl Entries for OffsetFetchTopic<'_> {
    ghost use Rattle.std.specs.Prelude.{length};

    ghost own = { λ t. length t.partitions };

    fn own(&self) -> usize {
        self.partitions.len()
    }
}

impl Entries for ConfigResource<'_> {
    ghost use Rattle.kb_tenant.specs.Entries.{names_in};

    ghost own = { λ r. names_in r.configuration_keys };

    fn own(&self) -> usize {
        match &self.configuration_keys {
            Some(names) => names.len(),
            None => 0,
        }
    }
}

impl Named for ProduceRequest<'_> {
    ghost use Rattle.kb_tenant.specs.Entries.{produce_entries};

    ghost entries = { produce_entries };

    fn is_past(&self, limit: u64) -> bool {
        are_past(self.topics.as_slice(), limit)
    }
}

impl Named for AskedFetch {
    ghost use Rattle.kb_tenant.specs.Entries.{fetch_entries};

    ghost entries = { fetch_entries };

    fn is_past(&self, limit: u64) -> bool {
        are_past(self.topics(), limit)
    }
}

impl Named for ListOffsetsRequest<'_> {
    ghost use Rattle.kb_tenant.specs.Entries.{list_offsets_entries};

    ghost entries = { list_offsets_entries };

    fn is_past(&self, limit: u64) -> bool {
        let mut left = limit;
        for topic in self.topics.as_slice() {
            match left_behind(topic.partitions.as_slice(), left) {
                None | Some(0) => return true,
                Some(rest) => left = rest - 1,
            }
        }
        false
    }
}

impl Named for DeleteRecordsRequest<'_> {
    ghost use Rattle.kb_tenant.specs.Entries.{delete_records_entries};

    ghost entries = { delete_records_entries };

    fn is_past(&self, limit: u64) -> bool {
        are_past(self.topics.as_slice(), limit)
    }
}

impl Named for OffsetCommitRequest<'_> {
    ghost use Rattle.kb_tenant.specs.Entries.{commit_entries};

    ghost entries = { commit_entries };

    fn is_past(&self, limit: u64) -> bool {
        are_past(self.topics.as_slice(), limit)
    }
}

impl Named for CreateTopicsRequestV1<'_> {
    ghost use Rattle.kb_tenant.specs.Entries.{create_topics_entries};

    ghost entries = { create_topics_entries };

    fn is_past(&self, limit: u64) -> bool {
        limit < self.topics.len() as u64
    }
}

impl Named for DeleteTopicsRequest<'_> {
    ghost use Rattle.kb_tenant.specs.Entries.{delete_topics_entries};

    ghost entries = { delete_topics_entries };

    fn is_past(&self, limit: u64) -> bool {
        limit < self.names.len() as u64
    }
}

impl Named for OffsetFetchRequestV2<'_> {
    ghost use Rattle.kb_tenant.specs.Entries.{offset_fetch_entries};

    ghost entries = { offset_fetch_entries };

    fn is_past(&self, limit: u64) -> bool {
        match &self.topics {
            Some(topics) => are_past(topics.as_slice(), limit),
            None => false,
        }
    }
}

impl Named for MetadataRequest<'_> {
    ghost use Rattle.kb_tenant.specs.Entries.{metadata_entries};

    ghost entries = { metadata_entries };

    fn is_past(&self, limit: u64) -> bool {
        match &self.topics {
            Some(names) => limit < names.len() as u64,
            None => false,
        }
    }
}

impl Named for DescribeConfigsRequest<'_> {
    ghost use Rattle.kb_tenant.specs.Entries.{describe_configs_entries};

    ghost entries = { describe_configs_entries };

    fn is_past(&self, limit: u64) -> bool {
        are_past(self.resources.as_slice(), limit)
    }
}

impl Named for DescribeGroupsRequest<'_> {
    ghost use Rattle.kb_tenant.specs.Entries.{describe_groups_entries};

    ghost entries = { describe_groups_entries };

    fn is_past(&self, limit: u64) -> bool {
        limit < self.group_ids.len() as u64
    }
}

impl Named for DeleteGroupsRequest<'_> {
    ghost use Rattle.kb_tenant.specs.Entries.{delete_groups_entries};

    ghost entries = { delete_groups_entries };

    fn is_past(&self, limit: u64) -> bool {
        limit / 512 < self.group_ids.len() as u64
    }
}
