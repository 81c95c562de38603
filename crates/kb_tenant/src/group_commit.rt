//! OffsetCommit (Kafka protocol guide): a group records how far it has processed partitions. From version 5 on a request has no
//! retention time, and from version 6 on its entries have a leader's epoch. In version 1 they have a timestamp.
ghost use Rattle.std.specs.Prelude.{◌≡◌, ◌++◌, ◌+◌, ◌-◌, ◌<◌, ◌^◌, ℕ, length, min, map, nat_lt, pos, List, OnErr, OnOk};
ghost use Rattle.std.specs.List.{flat_map};
ghost use Rattle.kb_api_group.specs.Layouts.{commit_partition_reply, commit_topic, commit_topic_reply, offset_commit_request};
ghost use Rattle.kb_api_group.specs.Layouts.{offset_commit_reply};
ghost use Rattle.kb_api_group.specs.declared.offset_commit.CommitPartitionReply.{CommitPartitionReply};
ghost use Rattle.kb_api_group.specs.declared.offset_commit.CommitTopicReply.{CommitTopicReply};
ghost use Rattle.kb_api_group.specs.declared.offset_commit.OffsetCommitReply.{OffsetCommitReply};
ghost use Rattle.kb_tenant_state.specs.Scene.{WhereHonest};
ghost use Rattle.kb_tenant.specs.OffsetCommit.{refusal_of as refusal_for, metadata_in as metadata_for, committed_at, committed};
ghost use Rattle.kb_tenant.specs.Entries.{commit_entries, within};
ghost use Rattle.kb_tenant.specs.OffsetCommit.{asked_commit, brings_too_much, commit_as, commit_with, has_retention_time, is_one_too_many};
ghost use Rattle.kb_tenant.specs.OffsetCommit.{is_over_limits, is_takeable, plain, plain_entry, plain_topic, text_brought};
ghost use Rattle.kb_tenant.specs.OffsetCommit.{committed_entry, committed_topic, committed_all};
ghost use Rattle.kb_tenant.specs.Produce.{written_next};
ghost use Rattle.kb_tenant.specs.Told.{AreCommitsCut, CatalogFailed, IsCommitTold, IsCommitTopicCut, IsCommitTopicTold, IsFaultOf, IsTold};
ghost use Rattle.kb_tenant.specs.Turns.{in_turn, written_behind, AreFirstServed, AreServed};
ghost use Rattle.kb_wire.specs.Codec.{int32, int64};
ghost use Rattle.kb_wire.specs.Reads.{ReadsWhole};
ghost use Rattle.kb_store.specs.Disk.{Files, Table};
ghost use Rattle.kb_tenant_state.specs.Parts.{scene, world_of, IsSound};
ghost use Rattle.kb_tenant_state.specs.Steps.{IsStep, Meets};
ghost use Rattle.kb_tenant_state.specs.Told.{IsCatalogWant, IsDone};
ghost use Rattle.std.specs.Prelude.{Some, Ok, IfOk};

use crate::create_topics::code_in;
use crate::limits::{DataLimits, is_past, left_of};
use crate::within::within;
use kb_api_data::Both;
use kb_api_group::{CommitPartition, CommitPartitionReply, CommitTopic, OffsetCommitRequest};
use kb_log::{PartitionLog, Shelf};
use kb_store::Store;
use kb_tenant_state::{Parts, TopicPartition};
use kb_wire::{Array, ErrorCode, Layout, ReadFault, Sink, Text};
use std::alloc::{AllocError, Global};

/// A request of version 5, which has no retention time.
type Timeless<'a> = Both<Text<'a>, Both<i32, Both<Text<'a>, Array<CommitTopic<'a>>>>>;

/// An entry with a field more behind its offset.
type Entry<'a, X> = Both<i32, Both<i64, Both<X, Option<Text<'a>>>>>;

/// A request whose entries are such, without a retention time.
type With<'a, X> = Both<
    Text<'a>,
    Both<i32, Both<Text<'a>, Array<Both<Text<'a>, Array<Entry<'a, X>>>>>>,
>;

/// A request of version 1, whose entries have a timestamp.
type Timestamps<'a> = With<'a, i64>;

/// A request of version 6, whose entries have a leader's epoch.
type Epochs<'a> = With<'a, i32>;

/// Whether a request of a version has a retention time.
fn has_retention_time(version: i16) -> bool
    ensures { result ≡ has_retention_time version }
{
    version < 5
}

/// The request that a whole body spells, with a retention time or without one.
#[tactic(auto, using(crate::proofs::Committing::commit_fits))]
fn read_commit<'a>(
    alloc: Global,
    has_retention_time: bool,
    body: &'a [u8],
) -> Result<OffsetCommitRequest<'a>, ReadFault>
    ensures exact { ReadsWhole (commit_as has_retention_time body.now) result }
    ensures fits { IfOk result (λ q. offset_commit_request.Fits q) }
{
    if has_retention_time {
        return OffsetCommitRequest::read(alloc, body);
    }
    let Both { first, second } = Timeless::read(alloc, body)?;
    Ok(OffsetCommitRequest {
        group_id: first,
        generation_id: second.first,
        member_id: second.second.first,
        retention_time_ms: -1,
        topics: second.second.second,
    })
}

/// The same metadata.
fn same_text<'a>(metadata: &Option<Text<'a>>) -> Option<Text<'a>>
    ensures { result ≡ metadata.now }
{
    match metadata {
        Some(text) => Some(Text::new(text.as_str())),
        None => None,
    }
}

/// A topic's entries without the field behind the offset.
fn plain_entries<'a, X: Drop>(
    alloc: Global,
    entries: &[Entry<'a, X>],
) -> Result<Array<CommitPartition<'a>>, AllocError>
    ensures { IfOk result (λ plain. plain ≡ map plain_entry entries.now) }
{
    let mut plain = Array::new(alloc);
    for entry in entries {
        plain.push(CommitPartition {
            partition: entry.first,
            offset: entry.second.first,
            metadata: same_text(&entry.second.second.second),
        })?;
    }
    Ok(plain)
}

/// Topics whose entries are without it.
fn plain_topics<'a, X: Drop>(
    alloc: Global,
    topics: &[Both<Text<'a>, Array<Entry<'a, X>>>],
) -> Result<Array<CommitTopic<'a>>, AllocError>
    ensures { IfOk result (λ plain. plain ≡ map plain_topic topics.now) }
{
    let mut plain = Array::new(alloc);
    for topic in topics {
        plain.push(CommitTopic {
            name: Text::new(topic.first.as_str()),
            partitions: plain_entries(alloc, topic.second.as_slice())?,
        })?;
    }
    Ok(plain)
}

/// A request without the field behind each offset. It has no retention time.
fn plain<'a, X: Drop>(
    alloc: Global,
    asked: &With<'a, X>,
) -> Result<OffsetCommitRequest<'a>, AllocError>
    ensures { IfOk result (λ q. q ≡ plain asked.now) }
{
    Ok(OffsetCommitRequest {
        group_id: Text::new(asked.first.as_str()),
        generation_id: asked.second.first,
        member_id: Text::new(asked.second.second.first.as_str()),
        retention_time_ms: -1,
        topics: plain_topics(alloc, asked.second.second.second.as_slice())?,
    })
}

/// The request that a whole body of version 1 spells. Its timestamps are passed over.
#[tactic(auto, using(crate::proofs::Committing::timestamps_fit))]
fn read_timestamps<'a>(alloc: Global, body: &'a [u8]) -> Result<OffsetCommitRequest<'a>, ReadFault>
    ensures exact { ReadsWhole (commit_with int64 body.now) result }
    ensures fits { IfOk result (λ q. offset_commit_request.Fits q) }
{
    let asked = Timestamps::read(alloc, body)?;
    Ok(plain(alloc, &asked)?)
}

/// The request that a whole body of version 6 spells. Its epochs are passed over.
#[tactic(auto, using(crate::proofs::Committing::epochs_fit))]
fn read_epochs<'a>(alloc: Global, body: &'a [u8]) -> Result<OffsetCommitRequest<'a>, ReadFault>
    ensures exact { ReadsWhole (commit_with int32 body.now) result }
    ensures fits { IfOk result (λ q. offset_commit_request.Fits q) }
{
    let asked = Epochs::read(alloc, body)?;
    Ok(plain(alloc, &asked)?)
}

/// The request that a whole body of a version spells.
fn read_version<'a>(
    alloc: Global,
    version: i16,
    body: &'a [u8],
) -> Result<OffsetCommitRequest<'a>, ReadFault>
    ensures exact { ReadsWhole (asked_commit version body.now) result }
    ensures fits { IfOk result (λ q. offset_commit_request.Fits q) }
{
    if version < 2 {
        return read_timestamps(alloc, body);
    }
    if version >= 6 {
        return read_epochs(alloc, body);
    }
    read_commit(alloc, has_retention_time(version), body)
}

/// The request that a body of a version spells, unless it names more topics and partitions than a limit allows.
pub fn read_commit_within<'a>(
    alloc: Global,
    limit: Option<u64>,
    version: i16,
    body: &'a [u8],
) -> Result<OffsetCommitRequest<'a>, ReadFault>
    ensures exact { ReadsWhole (within limit commit_entries (asked_commit version body.now)) result }
    ensures spelled { IfOk result (λ q. asked_commit version body.now ≡ Ok q) }
    ensures fits { IfOk result (λ q. offset_commit_request.Fits q) }
{
    let asked = read_version(alloc, version, body)?;
    within(limit, asked)
}

/// What every entry is refused for where groups have no members: the group has no name, or a member of it commits, and it has
/// none.
pub(crate) fn refusal_of(group: &str, generation_id: i32) -> Option<i16>
    ensures { result ≡ refusal_for group.now generation_id }
{
    if group.is_empty() {
        return Some(ErrorCode::InvalidGroupId.code());
    }
    if generation_id < 0 {
        return None;
    }
    Some(ErrorCode::UnknownMemberId.code())
}

/// What an entry writes beside its offset. Null is kept as an empty text.
fn metadata_in<'a>(entry: &'a CommitPartition<'_>) -> &'a str
    ensures { result.now ≡ metadata_for entry.now.metadata }
{
    match &entry.metadata {
        Some(metadata) => metadata.as_str(),
        None => "",
    }
}

/// Whether a partition is there, and takes what is to be kept beside an offset: at most 4,096 bytes.
fn is_takeable<L: PartitionLog + Drop>(
    parts: &Parts<L>,
    place: TopicPartition,
    metadata: &str,
) -> bool
    ensures { (files : Files) → result ≡ is_takeable (world_of L.log parts.now files) place metadata.now }
{
    let Some(_) = parts.catalog().partition(place.instance, place.number) else {
        return false;
    };
    metadata.len() <= 4096
}

/// Whether one more than there are is past a limit.
fn is_reached(limit: u64, count: u64) -> bool
    // A count that is the greatest number stands for any above it.
    ensures { (n : ℕ) → count ≡ min n (2 ^ 64 - 1) → result ≡ nat_lt limit (n + 1) }
{
    limit <= count
}

/// Whether an offset is one more than a tenant may have. One of a group that has committed to the partition takes the other's place.
/// How many there are is only asked where there is a limit.
fn is_one_too_many<L: PartitionLog + Drop>(
    parts: &Parts<L>,
    limits: DataLimits,
    group: &str,
    place: TopicPartition,
    metadata: &str,
) -> bool
    ensures { (table : Table) (next : ℕ) (files : Files) → IsSound L.log parts.now table next
        → result ≡ is_one_too_many limits (world_of L.log parts.now files) place group.now metadata.now }
{
    let Some(limit) = limits.offsets else {
        return false;
    };
    if parts.committed(place, group).is_some() {
        return false;
    }
    if is_takeable(parts, place, metadata) {
        return is_reached(limit, parts.offsets());
    }
    false
}

/// How many bytes of texts more a commit brings than its group has at the partition.
fn text_brought<L: PartitionLog + Drop>(
    parts: &Parts<L>,
    group: &str,
    place: TopicPartition,
    metadata: &str,
) -> u64
    ensures { (files : Files) → result ≡ text_brought (world_of L.log parts.now files) place group.now metadata.now }
{
    let text = group.len() as u64 + metadata.len() as u64;
    text.saturating_sub(parts.text_size(place, group))
}

/// Whether an offset brings more text than is left of what a tenant may have. One that brings none never does.
fn brings_too_much<L: PartitionLog + Drop>(
    parts: &Parts<L>,
    limits: DataLimits,
    group: &str,
    place: TopicPartition,
    metadata: &str,
) -> bool
    ensures { (table : Table) (next : ℕ) (files : Files) → IsSound L.log parts.now table next
        → result ≡ brings_too_much limits (world_of L.log parts.now files) place group.now metadata.now }
{
    let brought = text_brought(parts, group, place, metadata);
    is_takeable(parts, place, metadata)
        && is_past(left_of(limits.group_bytes, parts.texts()), brought)
}

/// Whether a tenant's limits refuse an offset.
fn is_over_limits<L: PartitionLog + Drop>(
    parts: &Parts<L>,
    limits: DataLimits,
    group: &str,
    place: TopicPartition,
    metadata: &str,
) -> bool
    ensures { (table : Table) (next : ℕ) (files : Files) → IsSound L.log parts.now table next
        → result ≡ is_over_limits limits (world_of L.log parts.now files) place group.now metadata.now }
{
    is_one_too_many(parts, limits, group, place, metadata)
        || brings_too_much(parts, limits, group, place, metadata)
}

/// Commits an entry's offset to the partition at a place, and answers its error code.
fn commit_at<L: PartitionLog + Drop, S: Store>(
    parts: &mut Parts<L>,
    shelf: &mut Shelf<S>,
    limits: DataLimits,
    group: &str,
    place: TopicPartition,
    entry: &CommitPartition<'_>,
) -> i16
    requires sound { (scene L.log S.disk parts.old shelf.old).sound }
    requires text { length group.now < 2 ^ 15 }
    ensures step { IsStep (scene L.log S.disk parts.old shelf.old) (scene L.log S.disk parts.new shelf.new) }
    ensures meets { let a = scene L.log S.disk parts.old shelf.old in let b = scene L.log S.disk parts.new shelf.new in
        Meets a b ((b.state.world, result) ≡ committed_at limits a.state.world (Some place) group.now entry.now) }
    ensures told { let a = scene L.log S.disk parts.old shelf.old in let b = scene L.log S.disk parts.new shelf.new in
        IsTold a b ((b.state.world, result) ≡ committed_at limits a.state.world (Some place) group.now entry.now)
        (IsFaultOf (IsCatalogWant a b) result) }
{
    let metadata = metadata_in(entry);
    if is_over_limits(parts, limits, group, place, metadata) {
        return ErrorCode::PolicyViolation.code();
    }
    code_in(parts.commit(shelf, place, group, entry.offset, metadata))
}

/// Serves an entry of a topic, which a refusal of the whole request refuses too, and answers its error code.
fn commit_entry<L: PartitionLog + Drop, S: Store>(
    parts: &mut Parts<L>,
    shelf: &mut Shelf<S>,
    limits: DataLimits,
    refusal: Option<i16>,
    group: &str,
    topic: Option<u64>,
    entry: &CommitPartition<'_>,
) -> i16
    requires sound { (scene L.log S.disk parts.old shelf.old).sound }
    requires text { length group.now < 2 ^ 15 }
    ensures step { IsStep (scene L.log S.disk parts.old shelf.old) (scene L.log S.disk parts.new shelf.new) }
    ensures meets { let a = scene L.log S.disk parts.old shelf.old in let b = scene L.log S.disk parts.new shelf.new in
        Meets a b ((b.state.world, result) ≡ committed limits refusal group.now topic a.state.world entry.now) }
    ensures told { let a = scene L.log S.disk parts.old shelf.old in let b = scene L.log S.disk parts.new shelf.new in
        IsTold a b ((b.state.world, result) ≡ committed limits refusal group.now topic a.state.world entry.now)
        (IsFaultOf (IsCatalogWant a b) result) }
    // An offset that is answered with no error is a command of the catalog, whatever else was refused.
    ensures acknowledged { let a = scene L.log S.disk parts.old shelf.old in let b = scene L.log S.disk parts.new shelf.new in
        result ≡ pos 0 → IsDone a b ((b.state.world, result) ≡ committed limits refusal group.now topic a.state.world entry.now) }
{
    if let Some(code) = refusal {
        return code;
    }
    let Some(place) = TopicPartition::new(topic, entry.partition) else {
        return ErrorCode::UnknownTopicOrPartition.code();
    };
    commit_at(parts, shelf, limits, group, place, entry)
}

/// Serves a topic's entries in order. An `Err` leaves what was committed, and some of the answers written.
fn commit_entries<L: PartitionLog + Drop, S: Store>(
    parts: &mut Parts<L>,
    shelf: &mut Shelf<S>,
    limits: DataLimits,
    refusal: Option<i16>,
    group: &str,
    topic: Option<u64>,
    entries: &[CommitPartition<'_>],
    sink: &mut Sink,
) -> Result<(), AllocError>
    requires sound { (scene L.log S.disk parts.old shelf.old).sound }
    requires text { length group.now < 2 ^ 15 }
    ensures step { IsStep (scene L.log S.disk parts.old shelf.old) (scene L.log S.disk parts.new shelf.new) }
    ensures meets { OnOk result (let a = scene L.log S.disk parts.old shelf.old in let b = scene L.log S.disk parts.new shelf.new in
        Meets a b ((b.state.world, sink.new.bytes)
        ≡ written_behind commit_partition_reply.written sink.old.bytes
        (in_turn (committed_entry limits refusal group.now topic) a.state.world entries.now))) }
    ensures told { OnOk result (let a = scene L.log S.disk parts.old shelf.old in let b = scene L.log S.disk parts.new shelf.new in
        WhereHonest a b ((replies : List CommitPartitionReply)
        × ((sink.new.bytes ≡ sink.old.bytes ++ flat_map commit_partition_reply.written replies)
        × AreServed (IsCommitTold (CatalogFailed a b) limits refusal group.now topic) a.state.world entries.now b.state.world replies))) }
    ensures cut { OnErr result (let a = scene L.log S.disk parts.old shelf.old in let b = scene L.log S.disk parts.new shelf.new in
        WhereHonest a b (AreFirstServed (IsCommitTold (CatalogFailed a b) limits refusal group.now topic)
        a.state.world entries.now b.state.world)) }
{
    for entry in entries {
        let reply = CommitPartitionReply {
            partition: entry.partition,
            error_code: commit_entry(parts, shelf, limits, refusal, group, topic, entry),
        };
        reply.write(sink)?;
    }
    Ok(())
}

/// Serves a topic's entries, behind the topic's name and their count.
fn commit_topic<L: PartitionLog + Drop, S: Store>(
    parts: &mut Parts<L>,
    shelf: &mut Shelf<S>,
    limits: DataLimits,
    refusal: Option<i16>,
    group: &str,
    topic: &CommitTopic<'_>,
    sink: &mut Sink,
) -> Result<(), AllocError>
    requires sound { (scene L.log S.disk parts.old shelf.old).sound }
    requires text { length group.now < 2 ^ 15 }
    requires fits { commit_topic.Fits topic.now }
    ensures step { IsStep (scene L.log S.disk parts.old shelf.old) (scene L.log S.disk parts.new shelf.new) }
    ensures meets { OnOk result (let a = scene L.log S.disk parts.old shelf.old in let b = scene L.log S.disk parts.new shelf.new in
        Meets a b ((b.state.world, sink.new.bytes)
        ≡ written_next commit_topic_reply.written sink.old.bytes (committed_topic limits refusal group.now a.state.world topic.now))) }
    ensures told { OnOk result (let a = scene L.log S.disk parts.old shelf.old in let b = scene L.log S.disk parts.new shelf.new in
        WhereHonest a b ((reply : CommitTopicReply) × ((sink.new.bytes ≡ sink.old.bytes ++ commit_topic_reply.written reply)
        × IsCommitTopicTold (CatalogFailed a b) limits refusal group.now a.state.world topic.now b.state.world reply))) }
    ensures cut { OnErr result (let a = scene L.log S.disk parts.old shelf.old in let b = scene L.log S.disk parts.new shelf.new in
        WhereHonest a b (IsCommitTopicCut (CatalogFailed a b) limits refusal group.now a.state.world topic.now b.state.world)) }
{
    sink.put_string(topic.name.as_str())?;
    sink.put_count(topic.partitions.len())?;
    let instance = parts.topic_named(topic.name.as_str());
    let entries = topic.partitions.as_slice();
    commit_entries(
        parts, shelf, limits, refusal, group, instance, entries, sink,
    )
}

/// Serves OffsetCommit, version 2 (Kafka protocol guide): commits the group's offsets in the order of the request, and writes the
/// reply behind what is in the sink.
///
/// One offset more than the tenant's limit is answered POLICY_VIOLATION, and is not kept; one that is there is moved at any time. So is one
/// that brings more text than is left of the tenant's limit; one that brings no more than it replaces is moved at any time.
/// A refusal is an error code that all entries are answered; then nothing is committed. It says whether the group, its generation
/// and its member may commit: `group_id` only names whose offsets they are, and `generation_id`, `member_id` and `retention_time_ms`
/// have no effect. An `Err` is want of memory for the reply, which is not counted: it leaves what was committed, and some front of
/// the reply.
pub fn offset_commit<L: PartitionLog + Drop, S: Store>(
    parts: &mut Parts<L>,
    shelf: &mut Shelf<S>,
    limits: DataLimits,
    request: &OffsetCommitRequest<'_>,
    refusal: Option<i16>,
    sink: &mut Sink,
) -> Result<(), AllocError>
    requires sound { (scene L.log S.disk parts.old shelf.old).sound }
    requires fits { offset_commit_request.Fits request.now }
    ensures step { IsStep (scene L.log S.disk parts.old shelf.old) (scene L.log S.disk parts.new shelf.new) }
    ensures meets { OnOk result (let a = scene L.log S.disk parts.old shelf.old in let b = scene L.log S.disk parts.new shelf.new in
        Meets a b (let r = committed_all limits a.state.world refusal request.now in
        (b.state.world ≡ r.0) × (sink.new.bytes ≡ sink.old.bytes ++ offset_commit_reply.written r.1))) }
    // An offset that is answered with no error is what the catalog has, whatever else was refused.
    ensures told { OnOk result (let a = scene L.log S.disk parts.old shelf.old in let b = scene L.log S.disk parts.new shelf.new in
        WhereHonest a b ((reply : OffsetCommitReply) × ((sink.new.bytes ≡ sink.old.bytes ++ offset_commit_reply.written reply)
        × AreServed (IsCommitTopicTold (CatalogFailed a b) limits refusal request.now.group_id) a.state.world request.now.topics
        b.state.world reply.topics))) }
    // On an `Err` the first entries are so told, and nothing else is committed.
    ensures cut { OnErr result (let a = scene L.log S.disk parts.old shelf.old in let b = scene L.log S.disk parts.new shelf.new in
        WhereHonest a b (AreCommitsCut (CatalogFailed a b) limits refusal a.state.world request.now b.state.world)) }
{
    let group = request.group_id.as_str();
    sink.put_count(request.topics.len())?;
    for topic in request.topics.as_slice() {
        commit_topic(parts, shelf, limits, refusal, group, topic, sink)?;
    }
    Ok(())
}
