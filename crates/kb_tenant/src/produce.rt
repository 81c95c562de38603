//! Produce (Kafka protocol guide, "The Messages: Produce").
ghost use Rattle.std.specs.Prelude.{◌≡◌, ◌≤◌, ◌++◌, ℕ, List, OnErr, OnOk};
ghost use Rattle.std.specs.List.{flat_map};
ghost use Rattle.kb_api_data.specs.declared.produce_v5.ProducePartitionReplyV5.{ProducePartitionReplyV5};
ghost use Rattle.kb_api_data.specs.declared.produce_v5.ProduceReplyV5.{ProduceReplyV5};
ghost use Rattle.kb_api_data.specs.declared.produce_v5.ProduceTopicReplyV5.{ProduceTopicReplyV5};
ghost use Rattle.kb_tenant_state.specs.Scene.{WhereHonest};
ghost use Rattle.kb_api_data.specs.Layouts.{produce_request, produce_topic};
ghost use Rattle.kb_tenant_state.specs.Parts.{scene};
ghost use Rattle.kb_tenant.specs.Produce.{progress, refusal_of as refusal_for, is_due, entry_served, served_topic, produced, where_due};
ghost use Rattle.kb_tenant.specs.Produce.{entry_written, tells_starts, topic_written, written_next, reply_bytes};
ghost use Rattle.kb_tenant_state.specs.Steps.{IsStep, Meets};
ghost use Rattle.kb_tenant.specs.Room.{entries_length, length_due, reply_length, topic_length, IsLonger, IsPut};
ghost use Rattle.kb_tenant.specs.Told.{FailedBy, HasFailed, IsEntryTold, IsProduceTold, IsTopicTold};
ghost use Rattle.kb_tenant.specs.Turns.{in_turn, written_behind, AreServed};

mod batch;
mod entry;
mod full;
mod reply;
mod room;

use crate::produce::entry::serve_entry;
use crate::produce::reply::{put, put_count, put_entry, put_string};
use crate::produce::room::make_room;
use kb_api_data::{ProducePartition, ProduceRequest, ProduceTopic};
use kb_log::{PartitionLog, Shelf};
use kb_store::Store;
use kb_tenant_state::{Parts, TopicPartition};
use kb_wire::{ErrorCode, Sink};
use std::alloc::AllocError;

/// What holds of all entries of a request: why they are refused, if they are, whether a reply is due, and the tenant's limit.
#[derive(Clone, Copy)]
struct Terms {
    refusal: Option<i16>,
    due: bool,
    /// Whether the reply tells where logs start.
    has_starts: bool,
    /// How many bytes of batches the tenant may have.
    bytes: Option<u64>,
}

/// Whether the reply of a version tells where logs start.
pub(crate) fn tells_starts(version: i16) -> bool
    ensures { result ≡ tells_starts version }
{
    version >= 5
}

/// What every entry is refused for: a transaction, or acks that are neither 0, 1 nor -1.
fn refusal_of(request: &ProduceRequest<'_>) -> Option<i16>
    ensures { result ≡ refusal_for request.now.transactional_id request.now.acks }
{
    if request.transactional_id.is_some() {
        return Some(ErrorCode::InvalidRequest.code());
    }
    if !matches!(request.acks, -1..=1) {
        return Some(ErrorCode::InvalidRequiredAcks.code());
    }
    None
}

/// What holds of all entries of a request. With acks 0 no reply is due.
fn terms_of(request: &ProduceRequest<'_>, has_starts: bool, bytes: Option<u64>) -> Terms
    ensures refusal { result.refusal ≡ refusal_for request.now.transactional_id request.now.acks }
    ensures due { result.due ≡ is_due request.now.acks }
    ensures has_starts { result.has_starts ≡ has_starts }
    ensures bytes { result.bytes ≡ bytes }
{
    Terms {
        refusal: refusal_of(request),
        due: request.acks != 0,
        has_starts,
        bytes,
    }
}

/// Serves a topic's entries in order.
fn serve_entries<L: PartitionLog + Drop, S: Store>(
    parts: &mut Parts<L>,
    shelf: &mut Shelf<S>,
    terms: Terms,
    topic: Option<u64>,
    entries: &[ProducePartition<'_>],
    touched: &mut Vec<TopicPartition>,
    sink: &mut Sink,
) -> Result<(), AllocError>
    requires sound { (scene L.log S.disk parts.old shelf.old).sound }
    ensures step { IsStep (scene L.log S.disk parts.old shelf.old) (scene L.log S.disk parts.new shelf.new) }
    ensures meets { OnOk result (let a = scene L.log S.disk parts.old shelf.old in let b = scene L.log S.disk parts.new shelf.new in
        Meets a b ((progress b.state.world touched.new.items, sink.new.bytes)
        ≡ written_behind (λ x. where_due terms.due (entry_written terms.has_starts x)) sink.old.bytes
        (in_turn (entry_served terms.bytes terms.refusal topic) (progress a.state.world touched.old.items) entries.now))) }
    ensures told { OnOk result (let a = scene L.log S.disk parts.old shelf.old in let b = scene L.log S.disk parts.new shelf.new in
        (before now next : ℕ) → before ≤ a.disk.failures → b.disk.failures ≤ now → b.next ≤ next
        → WhereHonest a b ((replies : List ProducePartitionReplyV5)
        × ((sink.new.bytes ≡ sink.old.bytes ++ flat_map (λ x. where_due terms.due (entry_written terms.has_starts x)) replies)
        × AreServed (IsEntryTold (FailedBy before now next) terms.bytes terms.refusal topic)
        (progress a.state.world touched.old.items) entries.now
        (progress b.state.world touched.new.items) replies))) }
    ensures put { IsPut (length_due terms.due (entries_length terms.has_starts entries.now)) sink.old result sink.new }
{
    for entry in entries {
        let reply = serve_entry(
            parts,
            shelf,
            terms.bytes,
            terms.refusal,
            topic,
            entry,
            touched,
        );
        put_entry(terms.due, terms.has_starts, &reply, sink)?;
    }
    Ok(())
}

/// Serves a topic's entries, behind the topic's name and their count.
fn serve_topic<L: PartitionLog + Drop, S: Store>(
    parts: &mut Parts<L>,
    shelf: &mut Shelf<S>,
    terms: Terms,
    topic: &ProduceTopic<'_>,
    touched: &mut Vec<TopicPartition>,
    sink: &mut Sink,
) -> Result<(), AllocError>
    requires sound { (scene L.log S.disk parts.old shelf.old).sound }
    requires fits { produce_topic.Fits topic.now }
    ensures step { IsStep (scene L.log S.disk parts.old shelf.old) (scene L.log S.disk parts.new shelf.new) }
    ensures meets { OnOk result (let a = scene L.log S.disk parts.old shelf.old in let b = scene L.log S.disk parts.new shelf.new in
        Meets a b ((progress b.state.world touched.new.items, sink.new.bytes)
        ≡ written_next (λ x. where_due terms.due (topic_written terms.has_starts x)) sink.old.bytes
        (served_topic terms.bytes terms.refusal (progress a.state.world touched.old.items) topic.now))) }
    ensures told { OnOk result (let a = scene L.log S.disk parts.old shelf.old in let b = scene L.log S.disk parts.new shelf.new in
        (before now next : ℕ) → before ≤ a.disk.failures → b.disk.failures ≤ now → b.next ≤ next
        → WhereHonest a b ((reply : ProduceTopicReplyV5)
        × ((sink.new.bytes ≡ sink.old.bytes ++ where_due terms.due (topic_written terms.has_starts reply))
        × IsTopicTold (FailedBy before now next) terms.bytes terms.refusal (progress a.state.world touched.old.items) topic.now
        (progress b.state.world touched.new.items) reply))) }
    ensures put { IsPut (length_due terms.due (topic_length terms.has_starts topic.now)) sink.old result sink.new }
{
    put_string(terms.due, topic.name.as_str(), sink)?;
    put_count(terms.due, topic.partitions.len(), sink)?;
    let instance = parts.topic_named(topic.name.as_str());
    serve_entries(
        parts,
        shelf,
        terms,
        instance,
        topic.partitions.as_slice(),
        touched,
        sink,
    )
}

/// Serves a produce: each entry's batch is appended to its partition, or is refused, in the order of the request.
///
/// The reply is written behind what is in the sink, with the starts of the logs or without them; with acks 0 there is none. The places
/// where batches were appended are added to `touched`. A batch that is past the limit of bytes is refused; a repeat is not. Room for
/// the whole reply is made before the first append, so that no batch is kept whose answer is lost for want of memory: after an `Err`
/// nothing was appended.
pub(crate) fn produce<L: PartitionLog + Drop, S: Store>(
    parts: &mut Parts<L>,
    shelf: &mut Shelf<S>,
    limit: Option<u64>,
    has_starts: bool,
    request: &ProduceRequest<'_>,
    touched: &mut Vec<TopicPartition>,
    sink: &mut Sink,
) -> Result<(), AllocError>
    requires sound { (scene L.log S.disk parts.old shelf.old).sound }
    requires fits { produce_request.Fits request.now }
    ensures step { IsStep (scene L.log S.disk parts.old shelf.old) (scene L.log S.disk parts.new shelf.new) }
    ensures meets { OnOk result (let a = scene L.log S.disk parts.old shelf.old in let b = scene L.log S.disk parts.new shelf.new in
        let r = produced limit a.state.world touched.old.items request.now in
        Meets a b ((b.state.world ≡ r.0.world) × (touched.new.items ≡ r.0.touched)
        × (sink.new.bytes ≡ sink.old.bytes ++ reply_bytes has_starts request.now.acks r.1))) }
    ensures told { OnOk result (let a = scene L.log S.disk parts.old shelf.old in let b = scene L.log S.disk parts.new shelf.new in
        WhereHonest a b ((reply : ProduceReplyV5) × ((sink.new.bytes ≡ sink.old.bytes ++ reply_bytes has_starts request.now.acks reply)
        × IsProduceTold (HasFailed a b) limit (progress a.state.world touched.old.items) request.now
        (progress b.state.world touched.new.items) reply))) }
    ensures longer { OnOk result (IsLonger (length_due (is_due request.now.acks) (reply_length has_starts request.now)) sink.old.bytes
        sink.new.bytes) }
    // A produce that is refused has appended nothing.
    ensures spared { let a = scene L.log S.disk parts.old shelf.old in let b = scene L.log S.disk parts.new shelf.new in
        OnErr result (b.state.world ≡ a.state.world) }
{
    let terms = terms_of(request, has_starts, limit);
    make_room(terms.due, has_starts, request, sink)?;
    put_count(terms.due, request.topics.len(), sink)?;
    for topic in request.topics.as_slice() {
        serve_topic(parts, shelf, terms, topic, touched, sink)?;
    }
    let throttle_time_ms: i32 = 0;
    put(terms.due, &throttle_time_ms, sink)
}
