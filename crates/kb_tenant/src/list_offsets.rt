//! ListOffsets: offsets that are asked by time. From version 4 on a partition has an epoch of its leader, which is passed over in a
//! request, and is -1 in a reply (Kafka protocol guide, "The Messages: ListOffsets").
ghost use Rattle.std.specs.Prelude.{◌≡◌, ◌++◌, ◌⊎◌, List, Ok, IfOk, OnOk, map};
ghost use Rattle.std.specs.List.{AllZip, flat_map};
ghost use Rattle.kb_api_data.specs.Layouts.{list_offsets_topic, list_offsets_request};
ghost use Rattle.kb_api_data.specs.declared.list_offsets.ListOffsetsPartitionReply.{ListOffsetsPartitionReply};
ghost use Rattle.kb_api_data.specs.declared.list_offsets.ListOffsetsReply.{ListOffsetsReply};
ghost use Rattle.kb_api_data.specs.declared.list_offsets.ListOffsetsTopicReply.{ListOffsetsTopicReply};
ghost use Rattle.kb_wire.specs.Reads.{ReadsWhole};
ghost use Rattle.kb_tenant_state.specs.Scene.{WhereHonest};
ghost use Rattle.kb_tenant.specs.Entries.{list_offsets_entries, within};
ghost use Rattle.kb_tenant.specs.ListOffsets.{offset_refused, offset_answered, edge_answered, offset_found, listed, listed_at};
ghost use Rattle.kb_tenant.specs.ListOffsets.{asked_listing, epoch_listing, has_epochs, has_isolation_level, listed_topic, listing_as};
ghost use Rattle.kb_tenant.specs.ListOffsets.{list_offsets, listing_reply, partition_reply, plain_partition, plain_topic, topic_reply};
ghost use Rattle.kb_tenant.specs.Told.{HasFailed, IsListingTold, IsListingTopicTold, IsUnlisted};
ghost use Rattle.kb_tenant_state.specs.Parts.{scene};
ghost use Rattle.kb_tenant_state.specs.Steps.{IsStep, Meets};

use crate::epochs::put_epoch;
use crate::within::within;
use kb_api_data::{
    Both, ListOffsetsPartition, ListOffsetsPartitionReply, ListOffsetsRequest, ListOffsetsTopic,
};
use kb_log::{OffsetAndTimestamp, PartitionLog, Shelf};
use kb_store::Store;
use kb_tenant_state::{PartitionFault, Parts, TopicPartition};
use kb_wire::{Array, ErrorCode, Layout, ReadFault, Sink, Text};
use std::alloc::{AllocError, Global};

/// A request of version 2: an isolation level stands between the replica's id and the topics.
type Levelled<'a> = Both<i32, Both<i8, Array<ListOffsetsTopic<'a>>>>;

/// A partition of version 4: an epoch stands between its number and the timestamp.
type EpochPartition = Both<i32, Both<i32, i64>>;

/// A topic of version 4.
type EpochTopic<'a> = Both<Text<'a>, Array<EpochPartition>>;

/// A request of version 4.
type Epochs<'a> = Both<i32, Both<i8, Array<EpochTopic<'a>>>>;

/// Whether a request of a version says which records of transactions count.
fn has_isolation_level(version: i16) -> bool
    ensures { result ≡ has_isolation_level version }
{
    version >= 2
}

/// The request that a whole body spells, with an isolation level, which is passed over, or without one.
#[tactic(auto, using(crate::proofs::Offsets::topics_fit))]
fn read_list_offsets<'a>(
    alloc: Global,
    has_isolation_level: bool,
    body: &'a [u8],
) -> Result<ListOffsetsRequest<'a>, ReadFault>
    ensures exact { ReadsWhole (listing_as has_isolation_level body.now) result }
    ensures fits { IfOk result (λ q. list_offsets_request.Fits q) }
{
    if !has_isolation_level {
        return ListOffsetsRequest::read(alloc, body);
    }
    let Both { first, second } = Levelled::read(alloc, body)?;
    Ok(ListOffsetsRequest {
        replica_id: first,
        topics: second.second,
    })
}

/// Whether partitions have epochs of leaders in a version.
pub(crate) fn has_epochs(version: i16) -> bool
    ensures { result ≡ has_epochs version }
{
    version >= 4
}

/// A topic's partitions without epochs.
fn plain_partitions(
    alloc: Global,
    entries: &[EpochPartition],
) -> Result<Array<ListOffsetsPartition>, AllocError>
    ensures { IfOk result (λ plain. plain ≡ map plain_partition entries.now) }
{
    let mut plain = Array::new(alloc);
    for entry in entries {
        plain.push(ListOffsetsPartition {
            partition: entry.first,
            timestamp: entry.second.second,
        })?;
    }
    Ok(plain)
}

/// Topics without epochs.
fn plain_topics<'a>(
    alloc: Global,
    topics: &[EpochTopic<'a>],
) -> Result<Array<ListOffsetsTopic<'a>>, AllocError>
    ensures { IfOk result (λ plain. plain ≡ map plain_topic topics.now) }
{
    let mut plain = Array::new(alloc);
    for topic in topics {
        plain.push(ListOffsetsTopic {
            name: Text::new(topic.first.as_str()),
            partitions: plain_partitions(alloc, topic.second.as_slice())?,
        })?;
    }
    Ok(plain)
}

/// The request that a whole body of version 4 spells. Its epochs are passed over, as its isolation level is.
#[tactic(auto, using(crate::proofs::Offsets::plain_fits))]
fn read_epochs<'a>(alloc: Global, body: &'a [u8]) -> Result<ListOffsetsRequest<'a>, ReadFault>
    ensures exact { ReadsWhole (epoch_listing body.now) result }
    ensures fits { IfOk result (λ q. list_offsets_request.Fits q) }
{
    let Both { first, second } = Epochs::read(alloc, body)?;
    Ok(ListOffsetsRequest {
        replica_id: first,
        topics: plain_topics(alloc, second.second.as_slice())?,
    })
}

/// The request that a whole body of a version spells.
fn read_version<'a>(
    alloc: Global,
    version: i16,
    body: &'a [u8],
) -> Result<ListOffsetsRequest<'a>, ReadFault>
    ensures exact { ReadsWhole (asked_listing version body.now) result }
    ensures fits { IfOk result (λ q. list_offsets_request.Fits q) }
{
    if has_epochs(version) {
        return read_epochs(alloc, body);
    }
    read_list_offsets(alloc, has_isolation_level(version), body)
}

/// The request that a body of a version spells, unless it names more topics and partitions than a limit allows.
pub(crate) fn read_list_offsets_within<'a>(
    alloc: Global,
    limit: Option<u64>,
    version: i16,
    body: &'a [u8],
) -> Result<ListOffsetsRequest<'a>, ReadFault>
    ensures exact { ReadsWhole (within limit list_offsets_entries (asked_listing version body.now)) result }
    ensures spelled { IfOk result (λ q. asked_listing version body.now ≡ Ok q) }
    ensures fits { IfOk result (λ q. list_offsets_request.Fits q) }
{
    let asked = read_version(alloc, version, body)?;
    within(limit, asked)
}

fn refused(partition: i32, error_code: i16) -> ListOffsetsPartitionReply
    ensures { result ≡ offset_refused partition error_code }
{
    ListOffsetsPartitionReply {
        partition,
        error_code,
        timestamp: -1,
        offset: -1,
    }
}

fn answered(partition: i32, timestamp: i64, offset: i64) -> ListOffsetsPartitionReply
    ensures { result ≡ offset_answered partition timestamp offset }
{
    ListOffsetsPartitionReply {
        partition,
        error_code: ErrorCode::None.code(),
        timestamp,
        offset,
    }
}

/// The answer with an end or a start, where there is one.
fn answered_edge(partition: i32, offset: Option<i64>) -> ListOffsetsPartitionReply
    ensures { result ≡ edge_answered partition offset }
{
    match offset {
        Some(offset) => answered(partition, -1, offset),
        None => refused(partition, ErrorCode::UnknownTopicOrPartition.code()),
    }
}

/// The answer by what a search found.
fn answered_by(
    partition: i32,
    found: Result<Option<OffsetAndTimestamp>, PartitionFault>,
) -> ListOffsetsPartitionReply
    ensures { result ≡ offset_found partition found }
{
    match found {
        Ok(None) => answered(partition, -1, -1),
        Ok(Some(record)) => answered(partition, record.timestamp, record.offset),
        Err(fault) => refused(partition, fault.code()),
    }
}

/// Answers a partition of the topic of an instance.
fn list_partition<L: PartitionLog + Drop, S: Store>(
    parts: &mut Parts<L>,
    shelf: &mut Shelf<S>,
    topic: Option<u64>,
    partition: i32,
    timestamp: i64,
) -> ListOffsetsPartitionReply
    requires sound { (scene L.log S.disk parts.old shelf.old).sound }
    ensures step { IsStep (scene L.log S.disk parts.old shelf.old) (scene L.log S.disk parts.new shelf.new) }
    ensures same { let a = scene L.log S.disk parts.old shelf.old in let b = scene L.log S.disk parts.new shelf.new in
        b.disk.honest → a.agrees → b.state.world ≡ a.state.world }
    ensures meets { let a = scene L.log S.disk parts.old shelf.old in
        Meets a (scene L.log S.disk parts.new shelf.new) (result ≡ listed_at a.state.world topic partition timestamp) }
    ensures told { let a = scene L.log S.disk parts.old shelf.old in let b = scene L.log S.disk parts.new shelf.new in
        WhereHonest a b ((result ≡ listed_at a.state.world topic partition timestamp) ⊎ IsUnlisted (HasFailed a b) partition result) }
{
    let Some(place) = TopicPartition::new(topic, partition) else {
        return refused(partition, ErrorCode::UnknownTopicOrPartition.code());
    };
    if parts.start(place).is_none() {
        return refused(partition, ErrorCode::UnknownTopicOrPartition.code());
    }
    if timestamp < -2 {
        return refused(partition, ErrorCode::InvalidRequest.code());
    }
    if timestamp == -1 {
        return answered_edge(partition, parts.end(place));
    }
    if timestamp == -2 {
        return answered_edge(partition, parts.start(place));
    }
    answered_by(partition, parts.find(shelf, place, timestamp))
}

/// Answers an entry for the topic of an instance.
fn list_entry<L: PartitionLog + Drop, S: Store>(
    parts: &mut Parts<L>,
    shelf: &mut Shelf<S>,
    topic: Option<u64>,
    entry: &ListOffsetsPartition,
) -> ListOffsetsPartitionReply
    requires sound { (scene L.log S.disk parts.old shelf.old).sound }
    ensures step { IsStep (scene L.log S.disk parts.old shelf.old) (scene L.log S.disk parts.new shelf.new) }
    ensures same { let a = scene L.log S.disk parts.old shelf.old in let b = scene L.log S.disk parts.new shelf.new in
        b.disk.honest → a.agrees → b.state.world ≡ a.state.world }
    ensures meets { let a = scene L.log S.disk parts.old shelf.old in
        Meets a (scene L.log S.disk parts.new shelf.new) (result ≡ listed a.state.world topic entry.now) }
    ensures told { let a = scene L.log S.disk parts.old shelf.old in let b = scene L.log S.disk parts.new shelf.new in
        WhereHonest a b (IsListingTold (HasFailed a b) a.state.world topic entry.now result) }
{
    list_partition(parts, shelf, topic, entry.partition, entry.timestamp)
}

/// Writes the answer of a partition, and behind it an epoch in a version that tells one.
fn put_reply(
    has_epochs: bool,
    reply: &ListOffsetsPartitionReply,
    sink: &mut Sink,
) -> Result<(), AllocError>
    ensures { OnOk result (sink.new.bytes ≡ sink.old.bytes ++ (partition_reply has_epochs).written reply.now) }
{
    reply.write(sink)?;
    put_epoch(has_epochs, sink)
}

/// Answers entries of a topic in order. An `Err` leaves some of the answers written.
fn list_partitions<L: PartitionLog + Drop, S: Store>(
    parts: &mut Parts<L>,
    shelf: &mut Shelf<S>,
    has_epochs: bool,
    topic: Option<u64>,
    entries: &[ListOffsetsPartition],
    sink: &mut Sink,
) -> Result<(), AllocError>
    requires sound { (scene L.log S.disk parts.old shelf.old).sound }
    ensures step { IsStep (scene L.log S.disk parts.old shelf.old) (scene L.log S.disk parts.new shelf.new) }
    ensures same { let a = scene L.log S.disk parts.old shelf.old in let b = scene L.log S.disk parts.new shelf.new in
        b.disk.honest → a.agrees → b.state.world ≡ a.state.world }
    ensures meets { let a = scene L.log S.disk parts.old shelf.old in
        OnOk result (Meets a (scene L.log S.disk parts.new shelf.new)
        (sink.new.bytes ≡ sink.old.bytes ++ flat_map (partition_reply has_epochs).written (map (listed a.state.world topic) entries.now))) }
    ensures told { let a = scene L.log S.disk parts.old shelf.old in let b = scene L.log S.disk parts.new shelf.new in
        OnOk result (WhereHonest a b ((replies : List ListOffsetsPartitionReply)
        × ((sink.new.bytes ≡ sink.old.bytes ++ flat_map (partition_reply has_epochs).written replies)
        × AllZip (IsListingTold (HasFailed a b) a.state.world topic) entries.now replies))) }
{
    for entry in entries {
        let reply = list_entry(parts, shelf, topic, entry);
        put_reply(has_epochs, &reply, sink)?;
    }
    Ok(())
}

/// Answers a topic. An `Err` leaves a part of the answer written.
fn list_topic<L: PartitionLog + Drop, S: Store>(
    parts: &mut Parts<L>,
    shelf: &mut Shelf<S>,
    has_epochs: bool,
    topic: &ListOffsetsTopic<'_>,
    sink: &mut Sink,
) -> Result<(), AllocError>
    requires sound { (scene L.log S.disk parts.old shelf.old).sound }
    requires fits { list_offsets_topic.Fits topic.now }
    ensures step { IsStep (scene L.log S.disk parts.old shelf.old) (scene L.log S.disk parts.new shelf.new) }
    ensures same { let a = scene L.log S.disk parts.old shelf.old in let b = scene L.log S.disk parts.new shelf.new in
        b.disk.honest → a.agrees → b.state.world ≡ a.state.world }
    ensures meets { let a = scene L.log S.disk parts.old shelf.old in
        OnOk result (Meets a (scene L.log S.disk parts.new shelf.new)
        (sink.new.bytes ≡ sink.old.bytes ++ (topic_reply has_epochs).written (listed_topic a.state.world topic.now))) }
    ensures told { let a = scene L.log S.disk parts.old shelf.old in let b = scene L.log S.disk parts.new shelf.new in
        OnOk result (WhereHonest a b ((reply : ListOffsetsTopicReply)
        × ((sink.new.bytes ≡ sink.old.bytes ++ (topic_reply has_epochs).written reply)
        × IsListingTopicTold (HasFailed a b) a.state.world topic.now reply))) }
{
    sink.put_string(topic.name.as_str())?;
    sink.put_count(topic.partitions.len())?;
    let instance = parts.topic_named(topic.name.as_str());
    let entries = topic.partitions.as_slice();
    list_partitions(parts, shelf, has_epochs, instance, entries, sink)
}

/// Serves ListOffsets: writes the reply, with epochs or without, behind what the sink has. The world stays as it is.
///
/// An `Err`, which is want of memory for the reply, leaves a part of it written.
pub fn list_offsets<L: PartitionLog + Drop, S: Store>(
    parts: &mut Parts<L>,
    shelf: &mut Shelf<S>,
    has_epochs: bool,
    request: &ListOffsetsRequest<'_>,
    sink: &mut Sink,
) -> Result<(), AllocError>
    requires sound { (scene L.log S.disk parts.old shelf.old).sound }
    requires fits { list_offsets_request.Fits request.now }
    ensures step { IsStep (scene L.log S.disk parts.old shelf.old) (scene L.log S.disk parts.new shelf.new) }
    ensures same { let a = scene L.log S.disk parts.old shelf.old in let b = scene L.log S.disk parts.new shelf.new in
        b.disk.honest → a.agrees → b.state.world ≡ a.state.world }
    ensures meets { let a = scene L.log S.disk parts.old shelf.old in
        OnOk result (Meets a (scene L.log S.disk parts.new shelf.new)
        (sink.new.bytes ≡ sink.old.bytes ++ (listing_reply has_epochs).written (list_offsets a.state.world request.now))) }
    ensures told { let a = scene L.log S.disk parts.old shelf.old in let b = scene L.log S.disk parts.new shelf.new in
        OnOk result (WhereHonest a b ((reply : ListOffsetsReply)
        × ((sink.new.bytes ≡ sink.old.bytes ++ (listing_reply has_epochs).written reply)
        × AllZip (IsListingTopicTold (HasFailed a b) a.state.world) request.now.topics reply.topics))) }
{
    sink.put_count(request.topics.len())?;
    for topic in request.topics.as_slice() {
        list_topic(parts, shelf, has_epochs, topic, sink)?;
    }
    Ok(())
}
