//! Requests and replies about topics and records, and what stands in them.

use crate::bodies::{Describe, read_back};
use crate::plain::read_greeting;
use crate::said::Field::{Count, Number, Numbers, Text};
use crate::said::Said;
use kb_api_data::{
    Both, CreateAssignment, CreateConfig, CreateTopic, CreateTopicsReply, CreateTopicsRequest,
    DeleteRecordsPartition, DeleteRecordsPartitionReply, DeleteRecordsReply, DeleteRecordsRequest,
    DeleteTopicsReply, DeleteTopicsRequest, FetchPartition, FetchPartitionFront,
    FetchPartitionReply, FetchPartitionReplyV5, FetchPartitionV5, FetchReply, FetchReplyV5,
    FetchRequest, FetchRequestV5, InitProducerIdReply, InitProducerIdRequest,
    ListOffsetsPartitionReply, ListOffsetsReply, ListOffsetsRequest, ListOffsetsTopic,
    MetadataPartition, MetadataReply, MetadataRequest, ProducePartitionReply, ProduceReply,
    ProduceRequest,
};
use kb_api_group::{CommitTopic, FindCoordinatorRequest};
use kb_wire::{Array, Text as TextOf};
use std::alloc::{AllocError, Global};

/// Requests, and other kinds.
pub fn read_request(
    alloc: Global,
    kind: &str,
    longer: &[u8],
    said: &mut Said,
) -> Result<(), AllocError> {
    match kind {
        "ProduceRequest" => read_back::<ProduceRequest>(alloc, longer, said),
        "FetchRequest" => read_back::<FetchRequest>(alloc, longer, said),
        "FetchRequestV5" => read_back::<FetchRequestV5>(alloc, longer, said),
        "ListOffsetsRequest" => read_back::<ListOffsetsRequest>(alloc, longer, said),
        "MetadataRequest" => read_back::<MetadataRequest>(alloc, longer, said),
        "CreateTopicsRequest" => read_back::<CreateTopicsRequest>(alloc, longer, said),
        "DeleteTopicsRequest" => read_back::<DeleteTopicsRequest>(alloc, longer, said),
        "DeleteRecordsRequest" => read_back::<DeleteRecordsRequest>(alloc, longer, said),
        "InitProducerIdRequest" => read_back::<InitProducerIdRequest>(alloc, longer, said),
        _ => read_reply(alloc, kind, longer, said),
    }
}

/// Replies, and other kinds.
fn read_reply(alloc: Global, kind: &str, longer: &[u8], said: &mut Said) -> Result<(), AllocError> {
    match kind {
        "ProduceReply" => read_back::<ProduceReply>(alloc, longer, said),
        "FetchReply" => read_back::<FetchReply>(alloc, longer, said),
        "FetchReplyV5" => read_back::<FetchReplyV5>(alloc, longer, said),
        "ListOffsetsReply" => read_back::<ListOffsetsReply>(alloc, longer, said),
        "MetadataReply" => read_back::<MetadataReply>(alloc, longer, said),
        "CreateTopicsReply" => read_back::<CreateTopicsReply>(alloc, longer, said),
        "DeleteTopicsReply" => read_back::<DeleteTopicsReply>(alloc, longer, said),
        "DeleteRecordsReply" => read_back::<DeleteRecordsReply>(alloc, longer, said),
        "InitProducerIdReply" => read_back::<InitProducerIdReply>(alloc, longer, said),
        _ => read_within(alloc, kind, longer, said),
    }
}

/// What stands in them, and other kinds.
fn read_within(
    alloc: Global,
    kind: &str,
    longer: &[u8],
    said: &mut Said,
) -> Result<(), AllocError> {
    match kind {
        "ProducePartitionReply" => read_back::<ProducePartitionReply>(alloc, longer, said),
        "FetchPartition" => read_back::<FetchPartition>(alloc, longer, said),
        "FetchPartitionReply" => read_back::<FetchPartitionReply>(alloc, longer, said),
        "FetchPartitionV5" => read_back::<FetchPartitionV5>(alloc, longer, said),
        "FetchPartitionReplyV5" => read_back::<FetchPartitionReplyV5>(alloc, longer, said),
        "ListOffsetsPartitionReply" => read_back::<ListOffsetsPartitionReply>(alloc, longer, said),
        "MetadataPartition" => read_back::<MetadataPartition>(alloc, longer, said),
        "CreateTopic" => read_back::<CreateTopic>(alloc, longer, said),
        "DeleteRecordsPartition" => read_back::<DeleteRecordsPartition>(alloc, longer, said),
        "DeleteRecordsPartitionReply" => {
            read_back::<DeleteRecordsPartitionReply>(alloc, longer, said)
        }
        _ => read_behind(alloc, kind, longer, said),
    }
}

/// A request of OffsetCommit 5: the group, the generation, the member and the topics.
type OffsetCommitRequestV5<'a> = Both<
    TextOf<'a>,
    Both<i32, Both<TextOf<'a>, Array<CommitTopic<'a>>>>,
>;

/// Fields one behind the other, which no struct names, and other kinds.
fn read_behind(
    alloc: Global,
    kind: &str,
    longer: &[u8],
    said: &mut Said,
) -> Result<(), AllocError> {
    match kind {
        "FindCoordinatorRequestV1" => {
            read_back::<Both<FindCoordinatorRequest, i8>>(alloc, longer, said)
        }
        "ListOffsetsRequestV2" => {
            read_back::<Both<i32, Both<i8, Array<ListOffsetsTopic>>>>(alloc, longer, said)
        }
        "MetadataPartitionV5" => {
            read_back::<Both<MetadataPartition, Array<i32>>>(alloc, longer, said)
        }
        "OffsetCommitRequestV5" => read_back::<OffsetCommitRequestV5>(alloc, longer, said),
        _ => read_greeting(alloc, kind, longer, said),
    }
}

impl<A, B> Describe for Both<A, B> {}

impl Describe for ProduceRequest<'_> {
    fn describe(&self, said: &mut Said) -> Result<(), AllocError> {
        said.fields(&[
            ("acks", Number(self.acks as i64)),
            ("timeout_ms", Number(self.timeout_ms as i64)),
            ("topics", Count(self.topics.len())),
        ])
    }
}

impl Describe for ProduceReply<'_> {
    fn describe(&self, said: &mut Said) -> Result<(), AllocError> {
        said.fields(&[
            ("topics", Count(self.topics.len())),
            ("throttle_time_ms", Number(self.throttle_time_ms as i64)),
        ])
    }
}

impl Describe for ProducePartitionReply {
    fn describe(&self, said: &mut Said) -> Result<(), AllocError> {
        said.fields(&[
            ("index", Number(self.index as i64)),
            ("error_code", Number(self.error_code as i64)),
            ("base_offset", Number(self.base_offset as i64)),
            ("log_append_time_ms", Number(self.log_append_time_ms as i64)),
        ])
    }
}

impl Describe for FetchRequest<'_> {
    fn describe(&self, said: &mut Said) -> Result<(), AllocError> {
        said.fields(&[
            ("replica_id", Number(self.replica_id as i64)),
            ("max_wait_ms", Number(self.max_wait_ms as i64)),
            ("min_bytes", Number(self.min_bytes as i64)),
            ("max_bytes", Number(self.max_bytes as i64)),
            ("isolation_level", Number(self.isolation_level as i64)),
            ("topics", Count(self.topics.len())),
        ])
    }
}

impl Describe for FetchPartition {
    fn describe(&self, said: &mut Said) -> Result<(), AllocError> {
        said.fields(&[
            ("partition", Number(self.partition as i64)),
            ("fetch_offset", Number(self.fetch_offset as i64)),
            (
                "partition_max_bytes",
                Number(self.partition_max_bytes as i64),
            ),
        ])
    }
}

impl Describe for FetchReply<'_> {
    fn describe(&self, said: &mut Said) -> Result<(), AllocError> {
        said.fields(&[
            ("throttle_time_ms", Number(self.throttle_time_ms as i64)),
            ("topics", Count(self.topics.len())),
        ])
    }
}

impl Describe for FetchPartitionReply<'_> {
    fn describe(&self, said: &mut Said) -> Result<(), AllocError> {
        said.fields(&[
            ("partition", Number(self.partition as i64)),
            ("error_code", Number(self.error_code as i64)),
            ("high_watermark", Number(self.high_watermark as i64)),
            ("last_stable_offset", Number(self.last_stable_offset as i64)),
        ])
    }
}

impl Describe for FetchRequestV5<'_> {
    fn describe(&self, said: &mut Said) -> Result<(), AllocError> {
        said.fields(&[
            ("replica_id", Number(self.replica_id as i64)),
            ("max_wait_ms", Number(self.max_wait_ms as i64)),
            ("min_bytes", Number(self.min_bytes as i64)),
            ("max_bytes", Number(self.max_bytes as i64)),
            ("isolation_level", Number(self.isolation_level as i64)),
            ("topics", Count(self.topics.len())),
        ])
    }
}

impl Describe for FetchPartitionV5 {
    fn describe(&self, said: &mut Said) -> Result<(), AllocError> {
        said.fields(&[
            ("partition", Number(self.partition as i64)),
            ("fetch_offset", Number(self.fetch_offset as i64)),
            ("log_start_offset", Number(self.log_start_offset as i64)),
            (
                "partition_max_bytes",
                Number(self.partition_max_bytes as i64),
            ),
        ])
    }
}

impl Describe for FetchReplyV5<'_> {
    fn describe(&self, said: &mut Said) -> Result<(), AllocError> {
        said.fields(&[
            ("throttle_time_ms", Number(self.throttle_time_ms as i64)),
            ("topics", Count(self.topics.len())),
        ])
    }
}

impl Describe for FetchPartitionReplyV5<'_> {
    fn describe(&self, said: &mut Said) -> Result<(), AllocError> {
        said.fields(&[
            ("partition", Number(self.partition as i64)),
            ("error_code", Number(self.error_code as i64)),
            ("high_watermark", Number(self.high_watermark as i64)),
            ("last_stable_offset", Number(self.last_stable_offset as i64)),
            ("log_start_offset", Number(self.log_start_offset as i64)),
        ])
    }
}

impl Describe for ListOffsetsRequest<'_> {
    fn describe(&self, said: &mut Said) -> Result<(), AllocError> {
        said.fields(&[
            ("replica_id", Number(self.replica_id as i64)),
            ("topics", Count(self.topics.len())),
        ])
    }
}

impl Describe for ListOffsetsReply<'_> {
    fn describe(&self, said: &mut Said) -> Result<(), AllocError> {
        said.fields(&[("topics", Count(self.topics.len()))])
    }
}

impl Describe for ListOffsetsPartitionReply {
    fn describe(&self, said: &mut Said) -> Result<(), AllocError> {
        said.fields(&[
            ("partition", Number(self.partition as i64)),
            ("error_code", Number(self.error_code as i64)),
            ("timestamp", Number(self.timestamp as i64)),
            ("offset", Number(self.offset as i64)),
        ])
    }
}

impl Describe for MetadataRequest<'_> {}

impl Describe for MetadataReply<'_> {
    fn describe(&self, said: &mut Said) -> Result<(), AllocError> {
        said.fields(&[
            ("brokers", Count(self.brokers.len())),
            ("controller_id", Number(self.controller_id as i64)),
            ("topics", Count(self.topics.len())),
        ])
    }
}

impl Describe for MetadataPartition {
    fn describe(&self, said: &mut Said) -> Result<(), AllocError> {
        said.fields(&[
            ("error_code", Number(self.error_code as i64)),
            ("partition", Number(self.partition as i64)),
            ("leader", Number(self.leader as i64)),
            ("replicas", Numbers(self.replicas.as_slice())),
            ("isr", Numbers(self.isr.as_slice())),
        ])
    }
}

impl Describe for CreateTopicsReply<'_> {
    fn describe(&self, said: &mut Said) -> Result<(), AllocError> {
        said.fields(&[("topics", Count(self.topics.len()))])
    }
}

impl Describe for DeleteTopicsRequest<'_> {
    fn describe(&self, said: &mut Said) -> Result<(), AllocError> {
        said.fields(&[
            ("names", Count(self.names.len())),
            ("timeout_ms", Number(self.timeout_ms as i64)),
        ])
    }
}

impl Describe for DeleteTopicsReply<'_> {
    fn describe(&self, said: &mut Said) -> Result<(), AllocError> {
        said.fields(&[("topics", Count(self.topics.len()))])
    }
}

impl Describe for DeleteRecordsRequest<'_> {
    fn describe(&self, said: &mut Said) -> Result<(), AllocError> {
        said.fields(&[
            ("topics", Count(self.topics.len())),
            ("timeout_ms", Number(self.timeout_ms as i64)),
        ])
    }
}

impl Describe for DeleteRecordsPartition {
    fn describe(&self, said: &mut Said) -> Result<(), AllocError> {
        said.fields(&[
            ("partition", Number(self.partition as i64)),
            ("offset", Number(self.offset as i64)),
        ])
    }
}

impl Describe for DeleteRecordsReply<'_> {
    fn describe(&self, said: &mut Said) -> Result<(), AllocError> {
        said.fields(&[
            ("throttle_time_ms", Number(self.throttle_time_ms as i64)),
            ("topics", Count(self.topics.len())),
        ])
    }
}

impl Describe for DeleteRecordsPartitionReply {
    fn describe(&self, said: &mut Said) -> Result<(), AllocError> {
        said.fields(&[
            ("partition", Number(self.partition as i64)),
            ("low_watermark", Number(self.low_watermark as i64)),
            ("error_code", Number(self.error_code as i64)),
        ])
    }
}

impl Describe for InitProducerIdRequest<'_> {
    fn describe(&self, said: &mut Said) -> Result<(), AllocError> {
        said.fields(&[(
            "transaction_timeout_ms",
            Number(self.transaction_timeout_ms as i64),
        )])
    }
}

impl Describe for InitProducerIdReply {
    fn describe(&self, said: &mut Said) -> Result<(), AllocError> {
        said.fields(&[
            ("throttle_time_ms", Number(self.throttle_time_ms as i64)),
            ("error_code", Number(self.error_code as i64)),
            ("producer_id", Number(self.producer_id as i64)),
            ("producer_epoch", Number(self.producer_epoch as i64)),
        ])
    }
}

impl Describe for CreateTopicsRequest<'_> {
    /// Each topic, too.
    fn describe(&self, said: &mut Said) -> Result<(), AllocError> {
        said.fields(&[("timeout_ms", Number(self.timeout_ms as i64))])?;
        for topic in self.topics.as_slice() {
            topic.describe(said)?;
        }
        Ok(())
    }
}

impl Describe for CreateTopic<'_> {
    /// Each assignment and each setting, too.
    fn describe(&self, said: &mut Said) -> Result<(), AllocError> {
        said.fields(&[
            ("num_partitions", Number(self.num_partitions as i64)),
            ("replication_factor", Number(self.replication_factor as i64)),
        ])?;
        describe_assignments(self.assignments.as_slice(), said)?;
        describe_configs(self.configs.as_slice(), said)
    }
}

fn describe_assignments(
    assignments: &[CreateAssignment],
    said: &mut Said,
) -> Result<(), AllocError> {
    for assignment in assignments {
        said.fields(&[
            ("partition", Number(assignment.partition as i64)),
            ("brokers", Numbers(assignment.brokers.as_slice())),
        ])?;
    }
    Ok(())
}

fn describe_configs(configs: &[CreateConfig<'_>], said: &mut Said) -> Result<(), AllocError> {
    for config in configs {
        said.fields(&[("name", Text(config.name.as_str()))])?;
        config.value.describe(said)?;
    }
    Ok(())
}
