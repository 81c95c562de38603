//! How far groups are behind.

ghost use Rattle.std.specs.Bool.{Decides};
ghost use Rattle.std.specs.Prelude.{◌≡◌, ◌++◌, ◌∷◌, [], ◌-ℤ◌, IfOk, OnOk, Some, map, option_copied, slice_get};
ghost use Rattle.std.specs.Option.{option_and_then};
ghost use Rattle.std.specs.List.{All, range_with_len};
ghost use Rattle.std.specs.List.Sorted.{IsStrictlySortedBy};
ghost use Rattle.std.specs.Str.{bytes_eq};
ghost use Rattle.kb_batch.specs.Batch.{natural};
ghost use Rattle.kb_settings.specs.Names.{byte_order, in_order};
ghost use Rattle.kb_store.specs.Disk.{Files};
ghost use Rattle.kb_tenant_state.specs.Parts.{world_of};
ghost use Rattle.kb_metrics.specs.Gauges.{groups_at, groups_in};
ghost use Rattle.kb_metrics.specs.Slots.{AreCommitted, AreOffsets, HaveSame, IsKept, is_at, lag_among, lag_in};
ghost use Rattle.kb_metrics.specs.Slots.{offset_of, slot_at, slot_of};

use kb_log::PartitionLog;
use kb_tenant_state::{Parts, TopicPartition};
use kb_topics::{Partition, Topic};
use std::alloc::{AllocError, Global};

/// Where a partition ends, and what is known of it; none where it is not there.
#[derive(Drop)]
pub struct Slot<'a> {
    pub end: Option<i64>,
    pub partition: Option<&'a Partition>,
    /// What the first groups of its topic committed to it, in the order of groups. Mostly all of them committed to it, and then no group
    /// has to be looked up by its name.
    pub offsets: Vec<i64>,
}

/// The first partitions of a topic, so many, each looked up once. The groups are those of the topic.
pub fn slots<'a, L: PartitionLog>(
    alloc: Global,
    parts: &'a Parts<L>,
    instance: u64,
    count: usize,
    groups: &[&str],
) -> Result<Vec<Slot<'a>>, AllocError>
    requires { IsStrictlySortedBy byte_order (map (λ group. group.now) groups.now) }
    ensures seen { IfOk result (λ slots. (files : Files)
        → map slot_of slots.items ≡ map (slot_at (world_of L.log parts.now files) instance) (range_with_len 0 count)) }
    ensures kept { IfOk result (λ slots. All (AreCommitted (map (λ group. group.now) groups.now)) slots.items) }
{
    let topic = parts.topic(instance);
    let mut slots = Vec::with_capacity(alloc, count)?;
    for number in 0..count {
        let partition = partition_in(topic, number);
        slots.push(Slot {
            end: parts.end(TopicPartition { instance, number }),
            partition,
            offsets: offsets_in(alloc, partition, groups)?,
        })?;
    }
    Ok(slots)
}

/// The partition of that number of a topic.
fn partition_in<'a>(topic: Option<&'a Topic>, number: usize) -> Option<&'a Partition>
    ensures { option_copied result ≡ option_and_then (λ t. slice_get t.partitions number) (option_copied topic.entry) }
{
    topic?.partitions().get(number)
}

/// What the first groups committed to a partition, as far as the groups that committed to it are these.
fn offsets_in(
    alloc: Global,
    partition: Option<&Partition>,
    groups: &[&str],
) -> Result<Vec<i64>, AllocError>
    requires { IsStrictlySortedBy byte_order (map (λ group. group.now) groups.now) }
    ensures { IfOk result (λ offsets. AreOffsets (map (λ group. group.now) groups.now) (option_copied partition.entry) offsets.items) }
{
    match partition {
        Some(partition) => offsets_of(alloc, partition, groups),
        None => Ok(Vec::new(alloc)),
    }
}

#[tactic(auto, using(crate::proofs::Commits::are_offsets))]
fn offsets_of(alloc: Global, partition: &Partition, groups: &[&str]) -> Result<Vec<i64>, AllocError>
    requires { IsStrictlySortedBy byte_order (map (λ group. group.now) groups.now) }
    ensures { IfOk result (λ offsets. AreOffsets (map (λ group. group.now) groups.now) (Some partition.now) offsets.items) }
{
    let commits = partition.commits();
    let mut offsets = Vec::with_capacity(alloc, commits.len())?;
    for (group, committed) in commits {
        if !is_at(groups, offsets.len(), group.as_str()) {
            break;
        }
        offsets.push(committed.offset())?;
    }
    Ok(offsets)
}

/// How far the group at a place is behind in partitions together. It stays at the greatest number.
pub fn lag(slots: &[Slot<'_>], place: usize, group: &str) -> u64
    requires { All (IsKept place group.now) slots.now }
    ensures { result ≡ lag_among group.now (map slot_of slots.now) }
{
    let mut sum: u64 = 0;
    for slot in slots {
        sum = sum.saturating_add(lag_in(slot, place, group));
    }
    sum
}

/// How far the group at a place is behind in a partition: 0 where it committed nothing to it, or there is no such partition.
fn lag_in(slot: &Slot<'_>, place: usize, group: &str) -> u64
    requires { IsKept place group.now slot.now }
    ensures { result ≡ lag_in group.now (slot_of slot.now) }
{
    let Some(end) = slot.end else {
        return 0;
    };
    match offset_in(slot, place, group) {
        Some(offset) => behind(end, offset),
        None => 0,
    }
}

/// What the group at a place committed to a partition.
fn offset_in(slot: &Slot<'_>, place: usize, group: &str) -> Option<i64>
    requires { IsKept place group.now slot.now }
    ensures { result ≡ offset_of group.now (slot_of slot.now).1 }
{
    match slot.offsets.get(place) {
        Some(offset) => Some(*offset),
        None => offset_by_name(slot.partition, group),
    }
}

/// What a group committed to a partition.
fn offset_by_name(partition: Option<&Partition>, group: &str) -> Option<i64>
    ensures { result ≡ offset_of group.now (option_copied partition.entry) }
{
    let committed = partition?.committed(group)?;
    Some(committed.offset())
}

/// The end less a committed offset, at least 0.
fn behind(end: i64, offset: i64) -> u64
    ensures { result ≡ natural (end -ℤ offset) }
{
    if offset < end {
        end.abs_diff(offset)
    } else {
        0
    }
}

/// The groups that committed to a partition of a topic, in byte order, each once.
pub fn groups_in<'a>(alloc: Global, topic: &'a Topic) -> Result<Vec<&'a str>, AllocError>
    ensures { IfOk result (λ groups. map (λ group. group.now) groups.items ≡ groups_in topic.now) }
{
    let mut groups = Vec::new(alloc);
    if let Some(first) = topic.partitions().first() {
        groups.reserve(first.commits().len())?;
    }
    for partition in topic.partitions() {
        push_groups(&mut groups, partition)?;
    }
    Ok(in_order(groups))
}

/// Names in byte order, each once. Mostly they are that already.
fn in_order<'a>(names: Vec<&'a str>) -> Vec<&'a str>
    ensures { map (λ name. name.now) result.items ≡ in_order (map (λ name. name.now) names.entry.items) }
{
    if is_rising(&names) {
        return names;
    }
    sorted(names)
}

/// Whether each name is below those behind it.
fn is_rising(names: &[&str]) -> bool
    ensures { Decides result (IsStrictlySortedBy byte_order (map (λ name. name.now) names.now)) }
{
    names.is_sorted_by(|name, next| *name < *next)
}

/// Names in byte order, each once, whatever their order was.
fn sorted<'a>(mut names: Vec<&'a str>) -> Vec<&'a str>
    ensures { map (λ name. name.now) result.items ≡ in_order (map (λ name. name.now) names.entry.items) }
{
    names.sort_unstable();
    names.dedup();
    names
}

/// Puts the groups that committed to a partition behind those. One that stands at the same place already is not put again: mostly the
/// same groups committed to all partitions of a topic, and then there is nothing to sort.
fn push_groups<'a>(groups: &mut Vec<&'a str>, partition: &'a Partition) -> Result<(), AllocError>
    ensures { OnOk result (HaveSame (map (λ group. group.now) groups.new.items)
        (map (λ group. group.now) groups.old.items ++ groups_at partition.now)) }
{
    let mut place: usize = 0;
    for (group, _) in partition.commits() {
        push_group(groups, place, group.as_str())?;
        place = place.saturating_add(1);
    }
    Ok(())
}

/// Puts a group behind those, unless it stands at that place.
#[tactic(auto, using(crate::proofs::Groups::there))]
fn push_group<'a>(groups: &mut Vec<&'a str>, place: usize, group: &'a str) -> Result<(), AllocError>
    ensures { OnOk result (HaveSame (map (λ group. group.now) groups.new.items)
        (map (λ group. group.now) groups.old.items ++ group.now ∷ [])) }
{
    if is_at(groups, place, group) {
        return Ok(());
    }
    groups.push(group)?;
    Ok(())
}

/// Whether a name stands at a place of names.
fn is_at(names: &[&str], place: usize, name: &str) -> bool
    ensures { result ≡ is_at (map (λ n. n.now) names.now) place name.now }
{
    match names.get(place) {
        Some(there) => is_same(*there, name),
        None => false,
    }
}

/// Whether two names are the same, byte by byte: most have few bytes.
fn is_same(name: &str, other: &str) -> bool
    ensures { result ≡ bytes_eq name.now other.now }
{
    let (name, other) = (name.as_bytes(), other.as_bytes());
    name.len() == other.len() && name.iter().zip(other).all(|(x, y)| x == y)
}
