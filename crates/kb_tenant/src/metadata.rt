//! Metadata: the broker, and topics with their partitions. Versions 0 to 5 and 7 differ only in their layouts (Kafka protocol guide,
//! "The Messages: Metadata"); any other version is answered as 1.
ghost use Rattle.std.specs.Prelude.{◌≡◌, ◌++◌, ◌<◌, ◌^◌, [], ◌∷◌, List, IfOk, OnOk, map, pos, Some, None};
ghost use Rattle.std.specs.List.{flat_map, range_with_len};
ghost use Rattle.kb_api_data.specs.Layouts.{metadata_broker, metadata_broker_v0, metadata_partition, metadata_request};
ghost use Rattle.kb_api_data.specs.declared.metadata.MetadataTopic.{MetadataTopic};
ghost use Rattle.kb_store.specs.Disk.{Files};
ghost use Rattle.kb_wire.specs.Codec.{array, int32, nullable_string, string};
ghost use Rattle.kb_wire.specs.Reads.{ReadsWhole};
ghost use Rattle.kb_tenant.specs.Entries.{metadata_entries, within};
ghost use Rattle.kb_tenant.specs.Metadata.{asked_metadata, asked_v4, broker, broker_v0, has_epochs, has_offline, internal_in};
ghost use Rattle.kb_tenant.specs.Metadata.{metadata_in, metadata_of, metadata_partition_v7, partition_as, partition_described};
ghost use Rattle.kb_tenant.specs.Metadata.{partition_v5};
ghost use Rattle.kb_tenant.specs.Metadata.{topic_asked, topic_described, topic_in, topic_known, topics_asked, topics_in, topics_until};
ghost use Rattle.kb_tenant.specs.Metadata.{IsMetadataUntil};
ghost use Rattle.kb_tenant.specs.Replies.{AreUntil};
ghost use Rattle.kb_tenant_state.specs.Parts.{world_of};

use crate::node::Node;
use crate::within::within;
use kb_api_data::{
    MetadataBroker, MetadataBrokerV0, MetadataRequest, MetadataRequestV0, MetadataRequestV4,
};
use kb_log::PartitionLog;
use kb_tenant_state::Parts;
use kb_topics::{Topic, is_legal_name};
use kb_wire::{ErrorCode, Layout, ReadFault, Sink, Text};
use std::alloc::{AllocError, Global};

/// The request that a body of version 0 spells. No topics mean all topics.
#[tactic(auto, using(crate::proofs::Described::no_topics_fit, crate::proofs::Described::topics_fit_v0))]
fn read_v0<'a>(alloc: Global, body: &'a [u8]) -> Result<MetadataRequest<'a>, ReadFault>
    ensures exact { ReadsWhole (asked_metadata (pos 0) body.now) result }
    ensures fits { IfOk result (λ r. metadata_request.Fits r) }
{
    let MetadataRequestV0 { topics } = MetadataRequestV0::read(alloc, body)?;
    if topics.is_empty() {
        return Ok(MetadataRequest { topics: None });
    }
    Ok(MetadataRequest {
        topics: Some(topics),
    })
}

/// The request that a body of version 4, 5 or 7 spells. No topic is made, whatever it allows.
#[tactic(auto, using(crate::proofs::Described::topics_fit_v4))]
fn read_v4<'a>(alloc: Global, body: &'a [u8]) -> Result<MetadataRequest<'a>, ReadFault>
    ensures exact { ReadsWhole (asked_v4 body.now) result }
    ensures fits { IfOk result (λ r. metadata_request.Fits r) }
{
    let MetadataRequestV4 { topics, .. } = MetadataRequestV4::read(alloc, body)?;
    Ok(MetadataRequest { topics })
}

/// The request that a body spells in a version.
pub fn read_metadata<'a>(
    alloc: Global,
    version: i16,
    body: &'a [u8],
) -> Result<MetadataRequest<'a>, ReadFault>
    ensures exact { ReadsWhole (asked_metadata version body.now) result }
    ensures fits { IfOk result (λ r. metadata_request.Fits r) }
{
    match version {
        0 => read_v0(alloc, body),
        4 | 5 | 7 => read_v4(alloc, body),
        _ => MetadataRequest::read(alloc, body),
    }
}

/// The same, unless it names more topics than a limit allows.
pub(crate) fn read_metadata_within<'a>(
    alloc: Global,
    limit: Option<u64>,
    version: i16,
    body: &'a [u8],
) -> Result<MetadataRequest<'a>, ReadFault>
    ensures exact { ReadsWhole (within limit metadata_entries (asked_metadata version body.now)) result }
    ensures fits { IfOk result (λ r. metadata_request.Fits r) }
{
    let asked = read_metadata(alloc, version, body)?;
    within(limit, asked)
}

/// Writes the one broker by the layout of version 0.
fn put_broker_v0(node: &Node<'_>, sink: &mut Sink) -> Result<(), AllocError>
    requires { string.Fits node.now.host }
    ensures { OnOk result (sink.new.bytes ≡ sink.old.bytes ++ (array metadata_broker_v0).written (broker_v0 (broker node.now) ∷ [])) }
{
    sink.put_count(1)?;
    let broker = MetadataBrokerV0 {
        node_id: 0,
        host: Text::new(node.host.as_str()),
        port: i32::from(node.port),
    };
    broker.write(sink)
}

/// Writes the one broker.
fn put_broker(node: &Node<'_>, sink: &mut Sink) -> Result<(), AllocError>
    requires { string.Fits node.now.host }
    ensures { OnOk result (sink.new.bytes ≡ sink.old.bytes ++ (array metadata_broker).written (broker node.now ∷ [])) }
{
    sink.put_count(1)?;
    let broker = MetadataBroker {
        node_id: 0,
        host: Text::new(node.host.as_str()),
        port: i32::from(node.port),
        rack: None,
    };
    broker.write(sink)
}

/// Writes the one broker, the cluster's id, which is the broker's host, and the controller, which is that broker.
fn put_cluster(node: &Node<'_>, sink: &mut Sink) -> Result<(), AllocError>
    requires { string.Fits node.now.host }
    ensures { OnOk result (sink.new.bytes ≡ sink.old.bytes
        ++ ((array metadata_broker).written (broker node.now ∷ [])
        ++ (nullable_string.written (Some node.now.host) ++ int32.written (pos 0)))) }
{
    put_broker(node, sink)?;
    sink.put_nullable_string(&Some(Text::new(node.host.as_str())))?;
    sink.put_i32(0)
}

/// Writes what stands before the topics.
fn put_node(version: i16, node: &Node<'_>, sink: &mut Sink) -> Result<(), AllocError>
    requires { string.Fits node.now.host }
    // Topics behind it make the reply.
    ensures { (topics : List MetadataTopic) → OnOk result (sink.new.bytes ++ topics_in version topics
        ≡ sink.old.bytes ++ metadata_in version (record { brokers = broker node.now ∷ []; controller_id = pos 0; topics = topics })) }
{
    match version {
        0 => put_broker_v0(node, sink),
        2 => put_cluster(node, sink),
        3 | 4 | 5 | 7 => {
            sink.put_i32(0)?;
            put_cluster(node, sink)
        }
        _ => {
            put_broker(node, sink)?;
            sink.put_i32(0)
        }
    }
}

/// Writes a partition, in one piece: no error, its number, and the broker 0 as its leader, its one replica and its one in-sync replica.
fn put_partition(partition: usize, sink: &mut Sink) -> Result<(), AllocError>
    requires { partition < 2 ^ 31 }
    ensures { OnOk result (sink.new.bytes ≡ sink.old.bytes ++ metadata_partition.written (partition_described partition)) }
{
    let [a, b, c, d] = (partition as i32).to_be_bytes();
    sink.put_bytes(&[
        0, 0, a, b, c, d, 0, 0, 0, 0, 0, 0, 0, 1, 0, 0, 0, 0, 0, 0, 0, 1, 0, 0, 0, 0,
    ])
}

/// Writes a partition by the layout of version 7: the same, with no epoch of the leader known, and no replica offline.
fn put_partition_v7(partition: usize, sink: &mut Sink) -> Result<(), AllocError>
    requires { partition < 2 ^ 31 }
    ensures { OnOk result (sink.new.bytes ≡ sink.old.bytes
        ++ metadata_partition_v7.written (partition_v5 (partition_described partition))) }
{
    let number = partition as i32;
    let [a, b, c, d] = number.to_be_bytes();
    sink.put_bytes(&[
        0, 0, a, b, c, d, 0, 0, 0, 0, 255, 255, 255, 255, 0, 0, 0, 1, 0, 0, 0, 0, 0, 0, 0, 1, 0, 0,
        0, 0, 0, 0, 0, 0,
    ])
}

/// Whether a version tells leaders' epochs, and which replicas of a partition are offline.
fn has_epochs(version: i16) -> bool
    ensures { result ≡ has_epochs version }
{
    version == 7
}

/// Whether a version tells which replicas of a partition are offline, and no leader's epoch.
fn has_offline(version: i16) -> bool
    ensures { result ≡ has_offline version }
{
    version == 5
}

/// Writes a partition by the layout that tells epochs, or offline replicas, or neither. None of its replicas is offline.
fn put_partition_as(
    has_epochs: bool,
    has_offline: bool,
    partition: usize,
    sink: &mut Sink,
) -> Result<(), AllocError>
    requires { partition < 2 ^ 31 }
    ensures { OnOk result (sink.new.bytes ≡ sink.old.bytes ++ partition_as has_epochs has_offline (partition_described partition)) }
{
    if has_epochs {
        return put_partition_v7(partition, sink);
    }
    put_partition(partition, sink)?;
    if !has_offline {
        return Ok(());
    }
    sink.put_count(0)
}

/// Writes partitions, from 0 on.
fn put_partitions(
    has_epochs: bool,
    has_offline: bool,
    partitions: usize,
    sink: &mut Sink,
) -> Result<(), AllocError>
    requires { partitions < 2 ^ 31 }
    ensures { OnOk result (sink.new.bytes ≡ sink.old.bytes
        ++ flat_map (partition_as has_epochs has_offline) (map partition_described (range_with_len 0 partitions))) }
{
    for partition in 0..partitions {
        put_partition_as(has_epochs, has_offline, partition, sink)?;
    }
    Ok(())
}

/// Writes that a topic is not internal, which version 0 does not tell.
fn put_internal(version: i16, sink: &mut Sink) -> Result<(), AllocError>
    ensures { OnOk result (sink.new.bytes ≡ sink.old.bytes ++ internal_in version) }
{
    if version == 0 {
        return Ok(());
    }
    sink.put_boolean(false)
}

/// Writes a topic of that many partitions. More than an INT32 can count are refused as want of memory.
fn put_topic(
    version: i16,
    error_code: i16,
    name: &str,
    partitions: usize,
    sink: &mut Sink,
) -> Result<(), AllocError>
    requires { string.Fits name.now }
    ensures { OnOk result (sink.new.bytes ≡ sink.old.bytes ++ topic_in version (topic_described error_code name.now partitions)) }
{
    if partitions > i32::MAX as usize {
        return Err(AllocError);
    }
    sink.put_i16(error_code)?;
    sink.put_string(name)?;
    put_internal(version, sink)?;
    sink.put_count(partitions)?;
    let has_offline = has_offline(version);
    put_partitions(has_epochs(version), has_offline, partitions, sink)
}

/// Writes a topic that is there. A name that is longer than an INT16 can count is refused as want of memory.
fn put_known(version: i16, topic: &Topic, sink: &mut Sink) -> Result<(), AllocError>
    ensures { OnOk result (sink.new.bytes ≡ sink.old.bytes ++ topic_in version (topic_known topic.now)) }
{
    if topic.name().len() > i16::MAX as usize {
        return Err(AllocError);
    }
    put_topic(
        version,
        ErrorCode::None.code(),
        topic.name(),
        topic.partitions().len(),
        sink,
    )
}

/// Writes a topic that is asked by name.
fn put_asked<L: PartitionLog + Drop>(
    parts: &Parts<L>,
    version: i16,
    name: &str,
    sink: &mut Sink,
) -> Result<(), AllocError>
    requires { string.Fits name.now }
    ensures { (files : Files) → OnOk result (sink.new.bytes ≡ sink.old.bytes
        ++ topic_in version (topic_asked (world_of L.log parts.now files).known.topics name.now)) }
{
    if !is_legal_name(name) {
        return put_topic(version, ErrorCode::InvalidTopic.code(), name, 0, sink);
    }
    let Some(instance) = parts.topic_named(name) else {
        return put_topic(
            version,
            ErrorCode::UnknownTopicOrPartition.code(),
            name,
            0,
            sink,
        );
    };
    let Some(topic) = parts.topic(instance) else {
        return put_topic(
            version,
            ErrorCode::UnknownTopicOrPartition.code(),
            name,
            0,
            sink,
        );
    };
    put_topic(
        version,
        ErrorCode::None.code(),
        name,
        topic.partitions().len(),
        sink,
    )
}

/// Writes the topics that are asked, in their order, until the sink has more than so many bytes.
fn put_all_asked<L: PartitionLog + Drop>(
    parts: &Parts<L>,
    version: i16,
    names: &[Text<'_>],
    most: usize,
    sink: &mut Sink,
) -> Result<(), AllocError>
    requires { (array string).Fits names.now }
    ensures { (files : Files) → OnOk result (sink.new.bytes ≡ topics_until most version sink.old.bytes
        (topics_asked (world_of L.log parts.now files).known.topics (Some names.now))) }
{
    sink.put_count(names.len())?;
    for name in names {
        if sink.len() > most {
            return Ok(());
        }
        put_asked(parts, version, name.as_str(), sink)?;
    }
    Ok(())
}

/// Writes all topics, in byte order of their names, until the sink has more than so many bytes. More topics than an INT32 can count are
/// refused as want of memory.
fn put_all<L: PartitionLog + Drop>(
    parts: &Parts<L>,
    version: i16,
    most: usize,
    sink: &mut Sink,
) -> Result<(), AllocError>
    ensures { (files : Files) → OnOk result (sink.new.bytes ≡ topics_until most version sink.old.bytes
        (topics_asked (world_of L.log parts.now files).known.topics None)) }
{
    let count = parts.topics().count();
    if count > i32::MAX as usize {
        return Err(AllocError);
    }
    sink.put_count(count)?;
    for (_, topic) in parts.topics() {
        if sink.len() > most {
            return Ok(());
        }
        put_known(version, topic, sink)?;
    }
    Ok(())
}

/// Serves Metadata: writes the reply of a version behind what the sink has.
///
/// The writing stops with the topic that takes the sink past so many bytes. An `Err`, which is want of memory for the reply, leaves a
/// part of it written.
pub fn metadata<L: PartitionLog + Drop>(
    parts: &Parts<L>,
    node: &Node<'_>,
    version: i16,
    request: &MetadataRequest<'_>,
    most: usize,
    sink: &mut Sink,
) -> Result<(), AllocError>
    requires host { string.Fits node.now.host }
    requires fits { metadata_request.Fits request.now }
    ensures exact { (files : Files) → OnOk result (IsMetadataUntil most version
        (metadata_of (world_of L.log parts.now files) node.now request.now) sink.old.bytes sink.new.bytes) }
    ensures whole { (files : Files) → OnOk result (AreUntil most (sink.old.bytes
        ++ metadata_in version (metadata_of (world_of L.log parts.now files) node.now request.now)) sink.new.bytes) }
{
    put_node(version, node, sink)?;
    match &request.topics {
        None => put_all(parts, version, most, sink),
        Some(names) => put_all_asked(parts, version, names.as_slice(), most, sink),
    }
}
