//! The messages of Kafka's protocol that carry data: Produce, Fetch, ListOffsets, Metadata, CreateTopics, DeleteTopics,
//! DeleteRecords, InitProducerId and DescribeConfigs, each in the versions that its modules name (Kafka protocol guide, "The
//! Messages").
//!
//! Each body is a struct with the protocol's field names, in wire order; texts and record bytes are borrowed from the frame
//! that they are read from. Its `Layout` reads the whole body and writes it, by one definition in `specs/Layouts.antt` whose
//! core is the protocol's table row: what is read is exactly what is spelled so, and what is written is read again.
#![tactic(auto)]

mod both;
pub mod config_key;
mod create_topics;
mod create_topics_v1;
mod delete_records;
mod delete_topics;
mod delete_topics_v1;
mod describe_configs;
mod describe_configs_v1;
mod fetch;
mod fetch_records;
mod fetch_records_v5;
mod fetch_v5;
mod fetch_v7;
mod init_producer_id;
mod list_offsets;
mod metadata;
mod metadata_versions;
mod produce;
mod produce_v5;

pub use both::Both;
pub use create_topics::{
    CreateAssignment, CreateConfig, CreateTopic, CreateTopicReply, CreateTopicsReply,
    CreateTopicsRequest,
};
pub use create_topics_v1::{CreateTopicReplyV1, CreateTopicsReplyV1, CreateTopicsRequestV1};
pub use delete_records::{
    DeleteRecordsPartition, DeleteRecordsPartitionReply, DeleteRecordsReply, DeleteRecordsRequest,
    DeleteRecordsTopic, DeleteRecordsTopicReply,
};
pub use delete_topics::{DeleteTopicReply, DeleteTopicsReply, DeleteTopicsRequest};
pub use delete_topics_v1::DeleteTopicsReplyV1;
pub use describe_configs::{
    ConfigResource, DescribeConfigsReply, DescribeConfigsRequest, DescribedConfig,
    DescribedResource,
};
pub use describe_configs_v1::{
    ConfigSynonym, DescribeConfigsReplyV1, DescribeConfigsRequestV1, DescribedConfigV1,
    DescribedResourceV1,
};
pub use fetch::{
    AbortedTransaction, FetchPartition, FetchPartitionReply, FetchReply, FetchRequest, FetchTopic,
    FetchTopicReply,
};
pub use fetch_records::{FetchPartitionFront, count_records};
pub use fetch_records_v5::FetchPartitionFrontV5;
pub use fetch_v5::{
    FetchPartitionReplyV5, FetchPartitionV5, FetchReplyV5, FetchRequestV5, FetchTopicReplyV5,
    FetchTopicV5,
};
pub use fetch_v7::{FetchPartitionV9, FetchRequestV7, FetchTopicV9, ForgottenTopic};
pub use init_producer_id::{InitProducerIdReply, InitProducerIdRequest};
pub use list_offsets::{
    ListOffsetsPartition, ListOffsetsPartitionReply, ListOffsetsReply, ListOffsetsRequest,
    ListOffsetsTopic, ListOffsetsTopicReply,
};
pub use metadata::{
    MetadataBroker, MetadataPartition, MetadataReply, MetadataRequest, MetadataTopic,
};
pub use metadata_versions::{
    MetadataBrokerV0, MetadataReplyV0, MetadataReplyV2, MetadataReplyV3, MetadataRequestV0,
    MetadataRequestV4, MetadataTopicV0,
};
pub use produce::{
    ProducePartition, ProducePartitionReply, ProduceReply, ProduceRequest, ProduceTopic,
    ProduceTopicReply,
};
pub use produce_v5::{ProducePartitionReplyV5, ProduceReplyV5, ProduceTopicReplyV5};
