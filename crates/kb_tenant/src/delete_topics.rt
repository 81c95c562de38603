//! DeleteTopics (Kafka protocol guide): topics are deleted, one after another. Version 1 also tells how long the client is held
//! back, which is never; any other version is answered as 0.
ghost use Rattle.std.specs.Prelude.{◌≡◌, ◌++◌, ◌<◌, ◌^◌, length, pos, take, List, Some, OnOk, OnErr};
ghost use Rattle.kb_api_data.specs.declared.delete_topics.DeleteTopicReply.{DeleteTopicReply};
ghost use Rattle.kb_tenant_state.specs.Scene.{WhereHonest};
ghost use Rattle.kb_store.specs.Disk.{Files};
ghost use Rattle.kb_api_data.specs.Layouts.{delete_topics_request};
ghost use Rattle.kb_tenant.specs.DeleteTopics.{places_at, places_named, told_if, deleted, deleted_all, deletions_in, throttle_in};
ghost use Rattle.kb_tenant.specs.Told.{AreRemovalsCut, CatalogFailed, IsDeleted, IsDeletionTold, IsFaultOf, IsRemovalTold};
ghost use Rattle.kb_tenant.specs.Turns.{AreServed};
ghost use Rattle.kb_tenant_state.specs.Parts.{scene, world_of};
ghost use Rattle.kb_tenant_state.specs.Steps.{IsStep, Meets};
ghost use Rattle.kb_tenant_state.specs.Told.{IsCatalogWant};

use kb_api_data::{DeleteTopicReply, DeleteTopicsRequest};
use kb_log::{PartitionLog, Shelf};
use kb_store::Store;
use kb_tenant_state::{Parts, TopicPartition};
use kb_wire::{ErrorCode, Layout, Sink, Text};
use std::alloc::AllocError;

/// Tells where the partitions of a topic are. An `Err` leaves what was told.
fn tell_places<L: PartitionLog>(
    parts: &Parts<L>,
    instance: u64,
    touched: &mut Vec<TopicPartition>,
) -> Result<(), AllocError>
    ensures told { (files : Files) →
        OnOk result (touched.new.items ≡ touched.old.items ++ places_at (world_of L.log parts.now files) (Some instance)) }
    ensures err { OnErr result (touched.new.items ≡ touched.old.items) }
{
    let Some(topic) = parts.topic(instance) else {
        return Ok(());
    };
    let count = topic.partitions().len();
    touched.try_reserve(count)?;
    for number in 0..count {
        touched.push(TopicPartition { instance, number })?;
    }
    Ok(())
}

/// Deletes a topic, and answers its error code. Where it is deleted, and nowhere else, its partitions are told.
///
/// The room for what is told is had before the deletion.
fn delete_topic<L: PartitionLog + Drop, S: Store>(
    parts: &mut Parts<L>,
    shelf: &mut Shelf<S>,
    name: &str,
    touched: &mut Vec<TopicPartition>,
) -> i16
    requires sound { (scene L.log S.disk parts.old shelf.old).sound }
    requires text { length name.now < 2 ^ 15 }
    ensures step { IsStep (scene L.log S.disk parts.old shelf.old) (scene L.log S.disk parts.new shelf.new) }
    ensures told { (files : Files) →
        touched.new.items ≡ touched.old.items ++ told_if result (places_named (world_of L.log parts.old files) name.now) }
    ensures meets { let a = scene L.log S.disk parts.old shelf.old in let b = scene L.log S.disk parts.new shelf.new in
        Meets a b (((b.state.world, touched.new.items), result) ≡ deleted (a.state.world, touched.old.items) name.now) }
    ensures answered { let a = scene L.log S.disk parts.old shelf.old in let b = scene L.log S.disk parts.new shelf.new in
        IsDeletionTold a b result (((b.state.world, touched.new.items), result) ≡ deleted (a.state.world, touched.old.items) name.now)
        (IsFaultOf (IsCatalogWant a b) result × (touched.new.items ≡ touched.old.items)) }
    // A topic that is answered with no error is gone, whatever else was refused: the removal of a file, which is counted.
    ensures acknowledged { let a = scene L.log S.disk parts.old shelf.old in let b = scene L.log S.disk parts.new shelf.new in
        result ≡ pos 0 → IsDeleted a b (((b.state.world, touched.new.items), result)
        ≡ deleted (a.state.world, touched.old.items) name.now) }
{
    let Some(instance) = parts.topic_named(name) else {
        return ErrorCode::UnknownTopicOrPartition.code();
    };
    let told = touched.len();
    if tell_places(parts, instance, touched).is_err() {
        parts.refuse();
        return ErrorCode::UnknownServerError.code();
    }
    match parts.delete(shelf, name) {
        Ok(()) => ErrorCode::None.code(),
        Err(fault) => {
            touched.truncate(told);
            fault.code()
        }
    }
}

/// Writes what stands before the topics.
fn put_throttle(version: i16, sink: &mut Sink) -> Result<(), AllocError>
    ensures { OnOk result (sink.new.bytes ≡ sink.old.bytes ++ throttle_in version) }
{
    if version == 1 {
        return sink.put_i32(0);
    }
    Ok(())
}

/// Deletes the topics of a request in order, and writes the reply of a version behind what is in the sink. What was deleted is told in
/// `touched`: each partition of each such topic.
///
/// `timeout_ms` has no effect. An `Err` leaves the topics deleted that were, and told.
pub fn delete_topics<L: PartitionLog + Drop, S: Store>(
    parts: &mut Parts<L>,
    shelf: &mut Shelf<S>,
    version: i16,
    request: &DeleteTopicsRequest<'_>,
    touched: &mut Vec<TopicPartition>,
    sink: &mut Sink,
) -> Result<(), AllocError>
    requires sound { (scene L.log S.disk parts.old shelf.old).sound }
    requires fits { delete_topics_request.Fits request.now }
    ensures step { IsStep (scene L.log S.disk parts.old shelf.old) (scene L.log S.disk parts.new shelf.new) }
    // Also on an `Err`, and whatever was refused.
    ensures unchanged { take (length touched.old.items) touched.new.items ≡ touched.old.items }
    ensures meets { let a = scene L.log S.disk parts.old shelf.old in let b = scene L.log S.disk parts.new shelf.new in
        OnOk result (Meets a b (let r = deleted_all (a.state.world, touched.old.items) request.now in
        (b.state.world ≡ r.0.0) × (touched.new.items ≡ r.0.1)
        × (sink.new.bytes ≡ sink.old.bytes ++ deletions_in version r.1))) }
    // A topic that is answered with no error is gone, whatever else was refused.
    ensures told { OnOk result (let a = scene L.log S.disk parts.old shelf.old in let b = scene L.log S.disk parts.new shelf.new in
        WhereHonest a b ((replies : List DeleteTopicReply)
        × ((sink.new.bytes ≡ sink.old.bytes ++ deletions_in version (record { topics = replies }))
        × AreServed (IsRemovalTold (CatalogFailed a b)) (a.state.world, touched.old.items) request.now.names
        (b.state.world, touched.new.items) replies))) }
    // On an `Err` the first topics are so told, and no other is deleted.
    ensures cut { OnErr result (let a = scene L.log S.disk parts.old shelf.old in let b = scene L.log S.disk parts.new shelf.new in
        WhereHonest a b (AreRemovalsCut (CatalogFailed a b) (a.state.world, touched.old.items) request.now
        (b.state.world, touched.new.items))) }
{
    let names = request.names.as_slice();
    put_throttle(version, sink)?;
    sink.put_count(names.len())?;
    for name in names {
        let name = name.as_str();
        let reply = DeleteTopicReply {
            name: Text::new(name),
            error_code: delete_topic(parts, shelf, name, touched),
        };
        reply.write(sink)?;
    }
    Ok(())
}
