//! All that a group committed, for an OffsetFetch that names no topics.
ghost use Rattle.std.specs.Prelude.{◌≡◌, ◌≤◌, ◌<◌, ◌^◌, ◌++◌, ℤ, OnOk, IfOk, length};
ghost use Rattle.std.specs.List.{flat_map};
ghost use Rattle.std.specs.Option.{option_copied};
ghost use Rattle.kb_store.specs.Disk.{Files};
ghost use Rattle.kb_tenant.specs.OffsetFetch.{all_told, partition_reply, told_if, told_in, topic_reply, topic_told};
ghost use Rattle.kb_tenant.specs.Replies.{array_until};
ghost use Rattle.kb_tenant_state.specs.Parts.{world_of};

use crate::offset_fetch::put_told;
use kb_log::PartitionLog;
use kb_tenant_state::{Parts, TopicPartition};
use kb_topics::{Committed, Topic};
use kb_wire::Sink;
use std::alloc::AllocError;

/// 1 where something was committed, and else 0.
fn count_of(committed: Option<&Committed>) -> usize
    ensures exact { (partition : ℤ) → result ≡ length (told_if partition (option_copied committed.entry)) }
    ensures few { result ≤ 1 }
{
    if committed.is_none() {
        return 0;
    }
    1
}

/// To how many of the first partitions of an instance, so many, a group committed.
fn count_in<L: PartitionLog + Drop>(
    parts: &Parts<L>,
    group: &str,
    instance: u64,
    partitions: usize,
) -> usize
    ensures exact { (files : Files) → result ≡ length (told_in (world_of L.log parts.now files) group.now instance partitions) }
    ensures few { result ≤ partitions }
{
    let mut count = 0;
    for number in 0..partitions {
        let place = TopicPartition { instance, number };
        count += count_of(parts.committed(place, group));
    }
    count
}

/// Writes the answer for a partition, where something was committed to it.
fn put_if(
    has_epochs: bool,
    partition: i32,
    committed: Option<&Committed>,
    sink: &mut Sink,
) -> Result<(), AllocError>
    ensures { OnOk result (sink.new.bytes ≡ sink.old.bytes
        ++ flat_map (partition_reply has_epochs).written (told_if partition (option_copied committed.entry))) }
{
    if committed.is_none() {
        return Ok(());
    }
    put_told(has_epochs, partition, committed, sink)
}

/// Answers what a group committed to the first partitions of an instance, so many. An `Err` leaves some of the answers written.
fn put_in<L: PartitionLog + Drop>(
    has_epochs: bool,
    parts: &Parts<L>,
    group: &str,
    instance: u64,
    partitions: usize,
    sink: &mut Sink,
) -> Result<(), AllocError>
    requires { partitions < 2 ^ 31 }
    ensures { (files : Files) → OnOk result (sink.new.bytes ≡ sink.old.bytes
        ++ flat_map (partition_reply has_epochs).written (told_in (world_of L.log parts.now files) group.now instance partitions)) }
{
    for number in 0..partitions {
        let place = TopicPartition { instance, number };
        let committed = parts.committed(place, group);
        put_if(has_epochs, number as i32, committed, sink)?;
    }
    Ok(())
}

/// Answers a topic, unless the group committed to none of its partitions. A name or a number of partitions that does not fit the reply
/// is refused as want of memory.
fn put_topic<L: PartitionLog + Drop>(
    has_epochs: bool,
    parts: &Parts<L>,
    group: &str,
    instance: u64,
    topic: &Topic,
    sink: &mut Sink,
) -> Result<(), AllocError>
    ensures { (files : Files) → OnOk result (sink.new.bytes ≡ sink.old.bytes
        ++ flat_map (topic_reply has_epochs).written (topic_told (world_of L.log parts.now files) group.now (instance, topic.now))) }
{
    let partitions = topic.partitions().len();
    if partitions > i32::MAX as usize {
        return Err(AllocError);
    }
    if topic.name().len() > i16::MAX as usize {
        return Err(AllocError);
    }
    let count = count_in(parts, group, instance, partitions);
    if count == 0 {
        return Ok(());
    }
    sink.put_string(topic.name())?;
    sink.put_count(count)?;
    put_in(has_epochs, parts, group, instance, partitions, sink)
}

/// 1 where a group committed to the topic of an instance, and else 0.
fn count_topic<L: PartitionLog + Drop>(
    parts: &Parts<L>,
    group: &str,
    instance: u64,
    topic: &Topic,
) -> usize
    ensures exact { (files : Files) → result ≡ length (topic_told (world_of L.log parts.now files) group.now (instance, topic.now)) }
    ensures few { result ≤ 1 }
{
    let partitions = topic.partitions().len();
    let count = count_in(parts, group, instance, partitions);
    if count == 0 {
        return 0;
    }
    1
}

/// To how many topics a group committed. More than an INT32 can count are refused as want of memory.
fn count_topics<L: PartitionLog + Drop>(parts: &Parts<L>, group: &str) -> Result<usize, AllocError>
    ensures exact { (files : Files) → IfOk result (λ n. n ≡ length (all_told (world_of L.log parts.now files) group.now)) }
    ensures few { IfOk result (λ n. n < 2 ^ 31) }
{
    let mut count = 0;
    for (instance, topic) in parts.topics() {
        count += count_topic(parts, group, instance, topic);
        if count > i32::MAX as usize {
            return Err(AllocError);
        }
    }
    Ok(count)
}

/// Answers all that a group committed, until the sink has more than so many bytes. An `Err` leaves a part of the answer written.
pub(crate) fn put_all<L: PartitionLog + Drop>(
    has_epochs: bool,
    parts: &Parts<L>,
    group: &str,
    most: usize,
    sink: &mut Sink,
) -> Result<(), AllocError>
    ensures { (files : Files) → OnOk result (sink.new.bytes ≡ array_until most (topic_reply has_epochs) sink.old.bytes
        (all_told (world_of L.log parts.now files) group.now)) }
{
    let count = count_topics(parts, group)?;
    sink.put_count(count)?;
    for (instance, topic) in parts.topics() {
        if sink.len() > most {
            return Ok(());
        }
        put_topic(has_epochs, parts, group, instance, topic, sink)?;
    }
    Ok(())
}
