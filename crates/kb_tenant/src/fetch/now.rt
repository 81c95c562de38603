//! A whole fetch, answered with what there is.
ghost use Rattle.std.specs.Prelude.{◌≡◌, ◌++◌, List, IfOk, OnOk, All};
ghost use Rattle.std.specs.List.{flat_map};
ghost use Rattle.kb_api_data.specs.Layouts.{fetch_request, fetch_topic};
ghost use Rattle.kb_api_data.specs.declared.fetch_v5.FetchPartitionReplyV5.{FetchPartitionReplyV5};
ghost use Rattle.kb_api_data.specs.declared.fetch_v5.FetchReplyV5.{FetchReplyV5};
ghost use Rattle.kb_api_data.specs.declared.fetch_v5.FetchTopicReplyV5.{FetchTopicReplyV5};
ghost use Rattle.kb_tenant_state.specs.Scene.{WhereHonest};
ghost use Rattle.kb_tenant.specs.Counted.{fetch_answered, answered_topic, fetched, AreFetchesTold, IsFetchTold, IsFetchTopicTold};
ghost use Rattle.kb_tenant.specs.Fetch.{partition_written, reply_written, topic_written};
ghost use Rattle.kb_tenant_state.specs.Parts.{scene};
ghost use Rattle.kb_tenant_state.specs.Steps.{IsStep, Meets};
ghost use Rattle.kb_tenant.specs.Told.{HasFailed};
ghost use Rattle.kb_tenant.specs.Turns.{in_turn, written_behind, AreServed};

use crate::fetch::asked::{AskedFetch, AskedTopic};
use crate::fetch::given::Given;
use crate::fetch::partition::put_partition;
use kb_api_data::FetchPartition;
use kb_log::{PartitionLog, Shelf};
use kb_store::Store;
use kb_tenant_state::Parts;
use kb_wire::Sink;
use std::alloc::{AllocError, Global};

/// Answers a topic's entries in order. Here and below the reply is written with the starts of the logs, or without them.
fn put_partitions<L: PartitionLog + Drop, S: Store>(
    alloc: Global,
    parts: &mut Parts<L>,
    shelf: &mut Shelf<S>,
    has_starts: bool,
    topic: Option<u64>,
    entries: &[FetchPartition],
    given: &mut Given,
    sink: &mut Sink,
) -> Result<(), AllocError>
    requires sound { (scene L.log S.disk parts.old shelf.old).sound }
    ensures step { IsStep (scene L.log S.disk parts.old shelf.old) (scene L.log S.disk parts.new shelf.new) }
    ensures same { let a = scene L.log S.disk parts.old shelf.old in let b = scene L.log S.disk parts.new shelf.new in
        b.disk.honest → a.agrees → b.state.world ≡ a.state.world }
    ensures meets { let a = scene L.log S.disk parts.old shelf.old in
        OnOk result (Meets a (scene L.log S.disk parts.new shelf.new)
        ((given.new, sink.new.bytes) ≡ written_behind (partition_written has_starts) sink.old.bytes
        (in_turn (fetch_answered a.state.world topic) given.old entries.now))) }
    ensures told { let a = scene L.log S.disk parts.old shelf.old in let b = scene L.log S.disk parts.new shelf.new in
        OnOk result (WhereHonest a b ((replies : List FetchPartitionReplyV5)
        × ((sink.new.bytes ≡ sink.old.bytes ++ flat_map (partition_written has_starts) replies)
        × AreServed (IsFetchTold (HasFailed a b) a.state.world topic) given.old entries.now given.new replies))) }
{
    for entry in entries {
        put_partition(alloc, parts, shelf, has_starts, topic, entry, given, sink)?;
    }
    Ok(())
}

/// Answers a topic's entries, behind its name and their count.
fn put_topic<L: PartitionLog + Drop, S: Store>(
    alloc: Global,
    parts: &mut Parts<L>,
    shelf: &mut Shelf<S>,
    has_starts: bool,
    topic: &AskedTopic,
    given: &mut Given,
    sink: &mut Sink,
) -> Result<(), AllocError>
    requires sound { (scene L.log S.disk parts.old shelf.old).sound }
    requires fits { fetch_topic.Fits topic.now }
    ensures step { IsStep (scene L.log S.disk parts.old shelf.old) (scene L.log S.disk parts.new shelf.new) }
    ensures same { let a = scene L.log S.disk parts.old shelf.old in let b = scene L.log S.disk parts.new shelf.new in
        b.disk.honest → a.agrees → b.state.world ≡ a.state.world }
    ensures meets { let a = scene L.log S.disk parts.old shelf.old in
        let r = answered_topic a.state.world given.old topic.now in
        OnOk result (Meets a (scene L.log S.disk parts.new shelf.new)
        ((given.new ≡ r.0) × (sink.new.bytes ≡ sink.old.bytes ++ topic_written has_starts r.1))) }
    ensures told { let a = scene L.log S.disk parts.old shelf.old in let b = scene L.log S.disk parts.new shelf.new in
        OnOk result (WhereHonest a b ((reply : FetchTopicReplyV5) × ((sink.new.bytes ≡ sink.old.bytes ++ topic_written has_starts reply)
        × IsFetchTopicTold (HasFailed a b) a.state.world given.old topic.now given.new reply))) }
{
    let name = topic.name();
    let entries = topic.partitions();
    sink.put_string(name)?;
    sink.put_count(entries.len())?;
    let instance = parts.topic_named(name);
    put_partitions(
        alloc, parts, shelf, has_starts, instance, entries, given, sink,
    )
}

/// Answers the topics in order.
fn put_topics<L: PartitionLog + Drop, S: Store>(
    alloc: Global,
    parts: &mut Parts<L>,
    shelf: &mut Shelf<S>,
    has_starts: bool,
    topics: &[AskedTopic],
    given: &mut Given,
    sink: &mut Sink,
) -> Result<(), AllocError>
    requires sound { (scene L.log S.disk parts.old shelf.old).sound }
    requires fits { All fetch_topic.Fits topics.now }
    ensures step { IsStep (scene L.log S.disk parts.old shelf.old) (scene L.log S.disk parts.new shelf.new) }
    ensures same { let a = scene L.log S.disk parts.old shelf.old in let b = scene L.log S.disk parts.new shelf.new in
        b.disk.honest → a.agrees → b.state.world ≡ a.state.world }
    ensures meets { let a = scene L.log S.disk parts.old shelf.old in
        OnOk result (Meets a (scene L.log S.disk parts.new shelf.new)
        ((given.new, sink.new.bytes) ≡ written_behind (topic_written has_starts) sink.old.bytes
        (in_turn (answered_topic a.state.world) given.old topics.now))) }
    ensures told { let a = scene L.log S.disk parts.old shelf.old in let b = scene L.log S.disk parts.new shelf.new in
        OnOk result (WhereHonest a b ((replies : List FetchTopicReplyV5)
        × ((sink.new.bytes ≡ sink.old.bytes ++ flat_map (topic_written has_starts) replies)
        × AreServed (IsFetchTopicTold (HasFailed a b) a.state.world) given.old topics.now given.new replies))) }
{
    for topic in topics {
        put_topic(alloc, parts, shelf, has_starts, topic, given, sink)?;
    }
    Ok(())
}

/// Writes a fetch's whole reply as it is at this moment, whether the fetch is to wait or not, and answers what it gives.
///
/// A fetch changes nothing of what the tenant sees, also where it is refused.
pub(crate) fn fetch_now<L: PartitionLog + Drop, S: Store>(
    alloc: Global,
    parts: &mut Parts<L>,
    shelf: &mut Shelf<S>,
    has_starts: bool,
    request: &AskedFetch,
    sink: &mut Sink,
) -> Result<Given, AllocError>
    requires sound { (scene L.log S.disk parts.old shelf.old).sound }
    requires fits { fetch_request.Fits request.now }
    ensures step { IsStep (scene L.log S.disk parts.old shelf.old) (scene L.log S.disk parts.new shelf.new) }
    ensures same { let a = scene L.log S.disk parts.old shelf.old in let b = scene L.log S.disk parts.new shelf.new in
        b.disk.honest → a.agrees → b.state.world ≡ a.state.world }
    ensures meets { let a = scene L.log S.disk parts.old shelf.old in
        let r = fetched a.state.world request.now in
        IfOk result (λ given. Meets a (scene L.log S.disk parts.new shelf.new)
        ((given ≡ r.0) × (sink.new.bytes ≡ sink.old.bytes ++ reply_written has_starts r.1))) }
    ensures told { let a = scene L.log S.disk parts.old shelf.old in let b = scene L.log S.disk parts.new shelf.new in
        IfOk result (λ given. WhereHonest a b ((reply : FetchReplyV5) × ((sink.new.bytes ≡ sink.old.bytes ++ reply_written has_starts reply)
        × AreFetchesTold (HasFailed a b) a.state.world request.now given reply))) }
{
    let mut given = Given::begun(request);
    sink.put_i32(0)?;
    let topics = request.topics();
    sink.put_count(topics.len())?;
    put_topics(alloc, parts, shelf, has_starts, topics, &mut given, sink)?;
    Ok(given)
}
