//! DeleteRecords, version 0 (Kafka protocol guide): the starts of partitions move, one after another.
ghost use Rattle.std.specs.Prelude.{◌≡◌, ◌++◌, ℕ, List, length, pos, take, OnErr, OnOk};
ghost use Rattle.std.specs.List.{flat_map};
ghost use Rattle.kb_api_data.specs.Layouts.{delete_records_partition_reply, delete_records_reply, delete_records_request};
ghost use Rattle.kb_api_data.specs.Layouts.{delete_records_topic, delete_records_topic_reply};
ghost use Rattle.kb_api_data.specs.declared.delete_records.DeleteRecordsPartitionReply.{DeleteRecordsPartitionReply};
ghost use Rattle.kb_api_data.specs.declared.delete_records.DeleteRecordsReply.{DeleteRecordsReply};
ghost use Rattle.kb_api_data.specs.declared.delete_records.DeleteRecordsTopicReply.{DeleteRecordsTopicReply};
ghost use Rattle.kb_tenant_state.specs.Scene.{WhereHonest};
ghost use Rattle.kb_tenant.specs.DeleteRecords.{deletion_answered as answered_with, deleted, deleted_all, deleted_at, deleted_topic, told};
ghost use Rattle.kb_tenant.specs.Told.{AreTrimsCut, AreTrimsTold, CatalogFailed, IsDeleted, IsDeletionTold, IsRefusalFor};
ghost use Rattle.kb_tenant.specs.Told.{IsTrimTold, IsTrimTopicCut, IsTrimTopicTold};
ghost use Rattle.kb_tenant.specs.Turns.{in_turn, written_behind, AreFirstServed, AreServed};
ghost use Rattle.kb_tenant_state.specs.Parts.{scene};
ghost use Rattle.kb_tenant_state.specs.Steps.{IsStep, Meets};
ghost use Rattle.kb_tenant_state.specs.Told.{Deletes, IsDeletionWant};
ghost use Rattle.kb_tenant_state.specs.World.{World};
ghost use Rattle.kb_tenant_state.specs.declared.topic_partition.TopicPartition.{TopicPartition};

use kb_api_data::{
    DeleteRecordsPartition, DeleteRecordsPartitionReply, DeleteRecordsRequest, DeleteRecordsTopic,
};
use kb_log::{PartitionLog, Shelf};
use kb_store::Store;
use kb_tenant_state::{PartitionFault, Parts, TopicPartition};
use kb_wire::{Layout, Sink};
use std::alloc::AllocError;

/// The answer of a partition: its start, or -1 where it is refused.
fn answered(partition: i32, deleted: Result<i64, PartitionFault>) -> DeleteRecordsPartitionReply
    ensures { result ≡ answered_with partition deleted }
{
    match deleted {
        Ok(start) => DeleteRecordsPartitionReply {
            partition,
            low_watermark: start,
            error_code: 0,
        },
        Err(fault) => DeleteRecordsPartitionReply {
            partition,
            low_watermark: -1,
            error_code: fault.code(),
        },
    }
}

/// Deletes a partition's records below an offset, where -1 is the end, and answers its start. Its place is told, unless it is
/// refused.
///
/// The room for what is told is had before the deletion.
fn delete_at<L: PartitionLog + Drop, S: Store>(
    parts: &mut Parts<L>,
    shelf: &mut Shelf<S>,
    place: TopicPartition,
    offset: i64,
    touched: &mut Vec<TopicPartition>,
) -> Result<i64, PartitionFault>
    requires { (scene L.log S.disk parts.old shelf.old).sound }
    ensures step { IsStep (scene L.log S.disk parts.old shelf.old) (scene L.log S.disk parts.new shelf.new) }
    ensures touched { touched.new.items ≡ told touched.old.items place result }
    ensures meets { let a = scene L.log S.disk parts.old shelf.old in let b = scene L.log S.disk parts.new shelf.new in
        Meets a b (((b.state.world, touched.new.items), result) ≡ deleted_at (a.state.world, touched.old.items) place offset) }
    ensures told { let a = scene L.log S.disk parts.old shelf.old in let b = scene L.log S.disk parts.new shelf.new in
        Deletes a b (((b.state.world, touched.new.items), result) ≡ deleted_at (a.state.world, touched.old.items) place offset)
        (IsDeletionWant a b) result }
{
    if touched.reserve(1).is_err() {
        parts.refuse();
        return Err(PartitionFault::Memory);
    }
    let start = parts.delete_records(shelf, place, offset)?;
    touched.push_reserved(place);
    Ok(start)
}

/// Serves an entry of the topic of an instance.
fn delete_entry<L: PartitionLog + Drop, S: Store>(
    parts: &mut Parts<L>,
    shelf: &mut Shelf<S>,
    topic: Option<u64>,
    entry: &DeleteRecordsPartition,
    touched: &mut Vec<TopicPartition>,
) -> DeleteRecordsPartitionReply
    requires { (scene L.log S.disk parts.old shelf.old).sound }
    ensures step { IsStep (scene L.log S.disk parts.old shelf.old) (scene L.log S.disk parts.new shelf.new) }
    ensures unchanged { take (length touched.old.items) touched.new.items ≡ touched.old.items }
    ensures meets { let a = scene L.log S.disk parts.old shelf.old in let b = scene L.log S.disk parts.new shelf.new in
        Meets a b (((b.state.world, touched.new.items), result) ≡ deleted topic (a.state.world, touched.old.items) entry.now) }
    ensures told { let a = scene L.log S.disk parts.old shelf.old in let b = scene L.log S.disk parts.new shelf.new in
        IsDeletionTold a b result.error_code
        (((b.state.world, touched.new.items), result) ≡ deleted topic (a.state.world, touched.old.items) entry.now)
        (IsRefusalFor (IsDeletionWant a b) entry.now.partition result × (touched.new.items ≡ touched.old.items)) }
    // Records that are answered as deleted are, whatever else was refused: the removal of a file, which is counted.
    ensures acknowledged { let a = scene L.log S.disk parts.old shelf.old in let b = scene L.log S.disk parts.new shelf.new in
        result.error_code ≡ pos 0 → IsDeleted a b
        (((b.state.world, touched.new.items), result) ≡ deleted topic (a.state.world, touched.old.items) entry.now) }
{
    let deleted = match TopicPartition::new(topic, entry.partition) {
        Some(place) => delete_at(parts, shelf, place, entry.offset, touched),
        None => Err(PartitionFault::Unknown),
    };
    answered(entry.partition, deleted)
}

/// Serves the entries of the topic of an instance in order.
fn delete_entries<L: PartitionLog + Drop, S: Store>(
    parts: &mut Parts<L>,
    shelf: &mut Shelf<S>,
    topic: Option<u64>,
    entries: &[DeleteRecordsPartition],
    touched: &mut Vec<TopicPartition>,
    sink: &mut Sink,
) -> Result<(), AllocError>
    requires { (scene L.log S.disk parts.old shelf.old).sound }
    ensures step { IsStep (scene L.log S.disk parts.old shelf.old) (scene L.log S.disk parts.new shelf.new) }
    ensures unchanged { take (length touched.old.items) touched.new.items ≡ touched.old.items }
    ensures meets { OnOk result (let a = scene L.log S.disk parts.old shelf.old in let b = scene L.log S.disk parts.new shelf.new in
        Meets a b (((b.state.world, touched.new.items), sink.new.bytes)
        ≡ written_behind delete_records_partition_reply.written sink.old.bytes
        (in_turn (deleted topic) (a.state.world, touched.old.items) entries.now))) }
    ensures told { OnOk result (let a = scene L.log S.disk parts.old shelf.old in let b = scene L.log S.disk parts.new shelf.new in
        WhereHonest a b ((replies : List DeleteRecordsPartitionReply)
        × ((sink.new.bytes ≡ sink.old.bytes ++ flat_map delete_records_partition_reply.written replies)
        × AreServed (IsTrimTold (CatalogFailed a b) topic)
        (a.state.world, touched.old.items) entries.now (b.state.world, touched.new.items) replies))) }
    ensures cut { OnErr result (let a = scene L.log S.disk parts.old shelf.old in let b = scene L.log S.disk parts.new shelf.new in
        WhereHonest a b (AreFirstServed (IsTrimTold (CatalogFailed a b) topic)
        (a.state.world, touched.old.items) entries.now (b.state.world, touched.new.items))) }
{
    for entry in entries {
        let reply = delete_entry(parts, shelf, topic, entry, touched);
        reply.write(sink)?;
    }
    Ok(())
}

/// Serves a topic's entries, behind its name and their count.
fn delete_in_topic<L: PartitionLog + Drop, S: Store>(
    parts: &mut Parts<L>,
    shelf: &mut Shelf<S>,
    topic: &DeleteRecordsTopic<'_>,
    touched: &mut Vec<TopicPartition>,
    sink: &mut Sink,
) -> Result<(), AllocError>
    requires sound { (scene L.log S.disk parts.old shelf.old).sound }
    requires fits { delete_records_topic.Fits topic.now }
    ensures step { IsStep (scene L.log S.disk parts.old shelf.old) (scene L.log S.disk parts.new shelf.new) }
    ensures unchanged { take (length touched.old.items) touched.new.items ≡ touched.old.items }
    ensures meets { OnOk result (let a = scene L.log S.disk parts.old shelf.old in let b = scene L.log S.disk parts.new shelf.new in
        let r = deleted_topic (a.state.world, touched.old.items) topic.now in
        Meets a b (◌≡◌ {A = (World × List TopicPartition)
        × List ℕ} ((b.state.world, touched.new.items), sink.new.bytes) (r.0, sink.old.bytes ++ delete_records_topic_reply.written r.1))) }
    ensures told { OnOk result (let a = scene L.log S.disk parts.old shelf.old in let b = scene L.log S.disk parts.new shelf.new in
        WhereHonest a b ((reply : DeleteRecordsTopicReply) × ((sink.new.bytes ≡ sink.old.bytes ++ delete_records_topic_reply.written reply)
        × IsTrimTopicTold (CatalogFailed a b) (a.state.world, touched.old.items) topic.now (b.state.world, touched.new.items) reply))) }
    ensures cut { OnErr result (let a = scene L.log S.disk parts.old shelf.old in let b = scene L.log S.disk parts.new shelf.new in
        WhereHonest a b (IsTrimTopicCut (CatalogFailed a b) (a.state.world, touched.old.items) topic.now
        (b.state.world, touched.new.items))) }
{
    let name = topic.name.as_str();
    sink.put_string(name)?;
    sink.put_count(topic.partitions.len())?;
    let instance = parts.topic_named(name);
    delete_entries(
        parts,
        shelf,
        instance,
        topic.partitions.as_slice(),
        touched,
        sink,
    )
}

/// Deletes the records that a request asks for, entry by entry, and writes the reply behind what is in the sink. The partitions
/// of the entries that are taken are told in `touched`.
///
/// `timeout_ms` has no effect. An `Err` leaves the records deleted that were, and told.
pub(crate) fn delete_records<L: PartitionLog + Drop, S: Store>(
    parts: &mut Parts<L>,
    shelf: &mut Shelf<S>,
    request: &DeleteRecordsRequest<'_>,
    touched: &mut Vec<TopicPartition>,
    sink: &mut Sink,
) -> Result<(), AllocError>
    requires sound { (scene L.log S.disk parts.old shelf.old).sound }
    requires fits { delete_records_request.Fits request.now }
    ensures step { IsStep (scene L.log S.disk parts.old shelf.old) (scene L.log S.disk parts.new shelf.new) }
    // Also on an `Err`, and whatever was refused.
    ensures unchanged { take (length touched.old.items) touched.new.items ≡ touched.old.items }
    ensures meets { OnOk result (let a = scene L.log S.disk parts.old shelf.old in let b = scene L.log S.disk parts.new shelf.new in
        let r = deleted_all (a.state.world, touched.old.items) request.now in
        Meets a b ((b.state.world ≡ r.0.0) × (touched.new.items ≡ r.0.1)
        × (sink.new.bytes ≡ sink.old.bytes ++ delete_records_reply.written r.1))) }
    // Records that are answered as deleted are, whatever else was refused.
    ensures told { OnOk result (let a = scene L.log S.disk parts.old shelf.old in let b = scene L.log S.disk parts.new shelf.new in
        WhereHonest a b ((reply : DeleteRecordsReply) × ((sink.new.bytes ≡ sink.old.bytes ++ delete_records_reply.written reply)
        × AreTrimsTold (CatalogFailed a b) (a.state.world, touched.old.items) request.now (b.state.world, touched.new.items) reply))) }
    // On an `Err` the first entries are so told, and no other records are deleted.
    ensures cut { OnErr result (let a = scene L.log S.disk parts.old shelf.old in let b = scene L.log S.disk parts.new shelf.new in
        WhereHonest a b (AreTrimsCut (CatalogFailed a b) (a.state.world, touched.old.items) request.now
        (b.state.world, touched.new.items))) }
{
    sink.put_i32(0)?;
    sink.put_count(request.topics.len())?;
    for topic in request.topics.as_slice() {
        delete_in_topic(parts, shelf, topic, touched, sink)?;
    }
    Ok(())
}
