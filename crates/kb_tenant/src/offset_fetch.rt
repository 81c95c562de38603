//! OffsetFetch: the offsets that a group committed. From version 2 on a request may ask for all of them, and the reply ends with a code.
//! From version 5 on it tells epochs of leaders, of which none is known (Kafka protocol guide, "The Messages: OffsetFetch").
ghost use Rattle.std.specs.Prelude.{◌≡◌, ◌++◌, OnOk, IfOk, map};
ghost use Rattle.std.specs.List.{flat_map};
ghost use Rattle.std.specs.Option.{option_copied};
ghost use Rattle.kb_store.specs.Disk.{Files};
ghost use Rattle.kb_wire.specs.Codec.{array, nullable_array};
ghost use Rattle.kb_wire.specs.Reads.{ReadsWhole};
ghost use Rattle.kb_api_group.specs.Layouts.{offset_fetch_topic, offset_fetch_request_v2};
ghost use Rattle.kb_tenant.specs.Entries.{offset_fetch_entries, within};
ghost use Rattle.kb_tenant.specs.OffsetFetch.{committed_answered, told, kept, fetched, fetched_topic, fetched_all};
ghost use Rattle.kb_tenant.specs.OffsetFetch.{asked_as, code_in, has_code, has_epochs, offsets_as, offsets_until};
ghost use Rattle.kb_tenant.specs.OffsetFetch.{partition_reply, topic_reply, topics_fetched};
ghost use Rattle.kb_tenant.specs.Replies.{array_until, AreUntil};
ghost use Rattle.kb_tenant_state.specs.Parts.{world_of};

use crate::all_offsets::put_all;
use crate::epochs::put_epoch;
use crate::within::within;
use kb_api_group::{OffsetFetchRequest, OffsetFetchRequestV2, OffsetFetchTopic};
use kb_log::PartitionLog;
use kb_tenant_state::{Parts, TopicPartition};
use kb_topics::Committed;
use kb_wire::{Array, ErrorCode, Layout, ReadFault, Sink, Text};
use std::alloc::{AllocError, Global};

/// Whether no topics mean all in a version, and its reply ends with a code.
pub(crate) fn has_code(version: i16) -> bool
    ensures { result ≡ has_code version }
{
    version >= 2
}

/// Whether the reply of a version tells epochs of leaders.
pub(crate) fn has_epochs(version: i16) -> bool
    ensures { result ≡ has_epochs version }
{
    version >= 5
}

/// The request that a whole body spells.
#[tactic(auto, using(crate::proofs::OffsetsKept::topics_fit))]
pub(crate) fn read_offset_fetch<'a>(
    alloc: Global,
    has_code: bool,
    body: &'a [u8],
) -> Result<OffsetFetchRequestV2<'a>, ReadFault>
    ensures exact { ReadsWhole (asked_as has_code body.now) result }
    ensures fits { IfOk result (λ q. offset_fetch_request_v2.Fits q) }
{
    if has_code {
        return OffsetFetchRequestV2::read(alloc, body);
    }
    let OffsetFetchRequest { group_id, topics } = OffsetFetchRequest::read(alloc, body)?;
    Ok(OffsetFetchRequestV2 {
        group_id,
        topics: Some(topics),
    })
}

/// The same, unless it names more topics and partitions than a limit allows.
pub(crate) fn read_offset_fetch_within<'a>(
    alloc: Global,
    limit: Option<u64>,
    has_code: bool,
    body: &'a [u8],
) -> Result<OffsetFetchRequestV2<'a>, ReadFault>
    ensures exact { ReadsWhole (within limit offset_fetch_entries (asked_as has_code body.now)) result }
    ensures fits { IfOk result (λ q. offset_fetch_request_v2.Fits q) }
{
    let asked = read_offset_fetch(alloc, has_code, body)?;
    within(limit, asked)
}

/// What a group committed to a partition of the topic of an instance.
fn kept<'a, L: PartitionLog + Drop>(
    parts: &'a Parts<L>,
    group: &str,
    topic: Option<u64>,
    partition: i32,
) -> Option<&'a Committed>
    ensures { (files : Files) → option_copied result ≡ kept (world_of L.log parts.now files) group.now topic partition }
{
    let place = TopicPartition::new(topic, partition)?;
    parts.committed(place, group)
}

/// Writes an answer. Metadata that is longer than an INT16 can count is refused as want of memory.
fn put_answer(
    has_epochs: bool,
    partition: i32,
    offset: i64,
    metadata: &str,
    sink: &mut Sink,
) -> Result<(), AllocError>
    ensures { OnOk result (sink.new.bytes ≡ sink.old.bytes
        ++ (partition_reply has_epochs).written (committed_answered partition offset metadata.now)) }
{
    if metadata.len() > i16::MAX as usize {
        return Err(AllocError);
    }
    sink.put_i32(partition)?;
    sink.put_i64(offset)?;
    put_epoch(has_epochs, sink)?;
    sink.put_nullable_string(&Some(Text::new(metadata)))?;
    sink.put_i16(ErrorCode::None.code())
}

/// Writes the answer for a partition, by what was committed to it.
pub(crate) fn put_told(
    has_epochs: bool,
    partition: i32,
    committed: Option<&Committed>,
    sink: &mut Sink,
) -> Result<(), AllocError>
    ensures { OnOk result (sink.new.bytes ≡ sink.old.bytes
        ++ (partition_reply has_epochs).written (told partition (option_copied committed.entry))) }
{
    match committed {
        Some(committed) => {
            let metadata = committed.metadata();
            put_answer(has_epochs, partition, committed.offset(), metadata, sink)
        }
        None => put_answer(has_epochs, partition, -1, "", sink),
    }
}

/// Answers partitions of a topic in order. An `Err` leaves some of the answers written.
fn fetch_partitions<L: PartitionLog + Drop>(
    has_epochs: bool,
    parts: &Parts<L>,
    group: &str,
    topic: Option<u64>,
    partitions: &[i32],
    sink: &mut Sink,
) -> Result<(), AllocError>
    ensures { (files : Files) → OnOk result (sink.new.bytes ≡ sink.old.bytes
        ++ flat_map (partition_reply has_epochs).written (map (fetched (world_of L.log parts.now files) group.now topic) partitions.now)) }
{
    for partition in partitions {
        let kept = kept(parts, group, topic, *partition);
        put_told(has_epochs, *partition, kept, sink)?;
    }
    Ok(())
}

/// Answers a topic. An `Err` leaves a part of the answer written.
fn fetch_topic<L: PartitionLog + Drop>(
    has_epochs: bool,
    parts: &Parts<L>,
    group: &str,
    topic: &OffsetFetchTopic<'_>,
    sink: &mut Sink,
) -> Result<(), AllocError>
    requires { offset_fetch_topic.Fits topic.now }
    ensures { (files : Files) → OnOk result (sink.new.bytes ≡ sink.old.bytes
        ++ (topic_reply has_epochs).written (fetched_topic (world_of L.log parts.now files) group.now topic.now)) }
{
    sink.put_string(topic.name.as_str())?;
    sink.put_count(topic.partitions.len())?;
    let instance = parts.topic_named(topic.name.as_str());
    let partitions = topic.partitions.as_slice();
    fetch_partitions(has_epochs, parts, group, instance, partitions, sink)
}

/// Answers topics in order, until the sink has more than so many bytes. An `Err` leaves a part of the answer written.
fn put_asked<L: PartitionLog + Drop>(
    has_epochs: bool,
    parts: &Parts<L>,
    group: &str,
    topics: &[OffsetFetchTopic<'_>],
    most: usize,
    sink: &mut Sink,
) -> Result<(), AllocError>
    requires { (array offset_fetch_topic).Fits topics.now }
    ensures { (files : Files) → OnOk result (sink.new.bytes ≡ array_until most (topic_reply has_epochs) sink.old.bytes
        (map (fetched_topic (world_of L.log parts.now files) group.now) topics.now)) }
{
    sink.put_count(topics.len())?;
    for topic in topics {
        if sink.len() > most {
            return Ok(());
        }
        fetch_topic(has_epochs, parts, group, topic, sink)?;
    }
    Ok(())
}

/// Answers the topics that are asked, or all that the group committed to, until the sink has more than so many bytes.
fn put_topics<L: PartitionLog + Drop>(
    has_epochs: bool,
    parts: &Parts<L>,
    group: &str,
    topics: &Option<Array<OffsetFetchTopic<'_>>>,
    most: usize,
    sink: &mut Sink,
) -> Result<(), AllocError>
    requires { (nullable_array offset_fetch_topic).Fits topics.now }
    ensures { (files : Files) → OnOk result (sink.new.bytes ≡ array_until most (topic_reply has_epochs) sink.old.bytes
        (topics_fetched (world_of L.log parts.now files) group.now topics.now)) }
{
    match topics {
        None => put_all(has_epochs, parts, group, most, sink),
        Some(topics) => put_asked(has_epochs, parts, group, topics.as_slice(), most, sink),
    }
}

/// Writes the code of the whole request, in a version that has one.
fn put_code(has_code: bool, sink: &mut Sink) -> Result<(), AllocError>
    ensures { OnOk result (sink.new.bytes ≡ sink.old.bytes ++ code_in has_code) }
{
    if has_code {
        return sink.put_i16(ErrorCode::None.code());
    }
    Ok(())
}

/// Serves OffsetFetch: writes the reply, with a code and epochs or without them, behind what the sink has.
///
/// The writing of topics stops with the one that takes the sink past so many bytes. An `Err`, which is want of memory for the reply,
/// leaves a part of it written.
pub(crate) fn offset_fetch<L: PartitionLog + Drop>(
    parts: &Parts<L>,
    has_code: bool,
    has_epochs: bool,
    request: &OffsetFetchRequestV2<'_>,
    most: usize,
    sink: &mut Sink,
) -> Result<(), AllocError>
    requires { offset_fetch_request_v2.Fits request.now }
    ensures exact { (files : Files) → OnOk result (sink.new.bytes
        ≡ offsets_until most has_code has_epochs (fetched_all (world_of L.log parts.now files) request.now) sink.old.bytes) }
    ensures whole { (files : Files) → OnOk result (AreUntil most (sink.old.bytes
        ++ offsets_as has_code has_epochs (fetched_all (world_of L.log parts.now files) request.now)) sink.new.bytes) }
{
    let group = request.group_id.as_str();
    put_topics(has_epochs, parts, group, &request.topics, most, sink)?;
    put_code(has_code, sink)
}
