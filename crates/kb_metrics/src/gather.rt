//! What pages show of tenants is gathered, row by row.

ghost use Rattle.std.specs.Prelude.{◌≡◌, ◌++◌, ◌∷◌, [], map, OnOk, IfOk, option_copied, slice_get};
ghost use Rattle.std.specs.List.{All};
ghost use Rattle.kb_store.specs.Disk.{Files};
ghost use Rattle.kb_topics.specs.Catalog.{known};
ghost use Rattle.kb_tenant_state.specs.Parts.{world_of};
ghost use Rattle.kb_tenant_state.specs.Stored.{offsets_in, offsets_to, up_to_end};
ghost use Rattle.kb_metrics.specs.Gauges.{between, commit_of, commits, commits_in};
ghost use Rattle.kb_metrics.specs.Gauges.{group_of, lags, partition_count, partition_of, partitions};
ghost use Rattle.kb_metrics.specs.Gauges.{shown_tenant, topic_commits, topic_lags, topic_partitions};
ghost use Rattle.kb_metrics.specs.Rows.{commit_row, group_row, lag_row, partition_row, tenant_row};
ghost use Rattle.kb_metrics.specs.Slots.{AreCommitted, IsKept, lag_row_among, slot_of};
ghost use Rattle.kb_metrics.specs.View.{observed};

use crate::gauges::TenantGauges;
use crate::lag::{Slot, groups_in, lag, slots};
use crate::rows::{CommitRow, GroupRow, LagRow, PartitionRow, TenantRow};
use kb_coordinator::Entry;
use kb_log::PartitionLog;
use kb_tenant_state::{Parts, TopicPartition};
use kb_topics::{Catalog, Partition, Topic};
use std::alloc::{AllocError, Global};

/// A row for each tenant.
pub(crate) fn tenant_rows<'a, L: PartitionLog>(
    alloc: Global,
    tenants: &[TenantGauges<'a, L>],
) -> Result<Vec<TenantRow<'a>>, AllocError>
    ensures { IfOk result (λ rows. (files : Files) → map tenant_row rows.items
        ≡ map shown_tenant (map (observed L.log files) tenants.now)) }
{
    let mut rows = Vec::with_capacity(alloc, tenants.len())?;
    for tenant in tenants {
        rows.push(tenant_row(alloc, tenant)?)?;
    }
    Ok(rows)
}

/// The row of a tenant.
pub(crate) fn tenant_row<'a, L: PartitionLog>(
    alloc: Global,
    tenant: &TenantGauges<'a, L>,
) -> Result<TenantRow<'a>, AllocError>
    ensures { IfOk result (λ row. (files : Files) → tenant_row row ≡ shown_tenant (observed L.log files tenant.now)) }
{
    let parts = tenant.parts;
    Ok(TenantRow {
        name: tenant.name,
        connections: tenant.connections,
        waiting: tenant.waiting,
        topics: parts.topic_count() as u64,
        partitions: partition_count(parts.catalog()),
        stored: parts.stored_bytes(),
        committed_offsets: offset_count(parts.catalog()),
        limits: tenant.limits,
        groups: group_rows(alloc, tenant.groups.groups())?,
        lags: lag_rows(alloc, parts)?,
        requests: tenant.traffic.requests,
        request_bytes: tenant.traffic.request_bytes,
        response_bytes: tenant.traffic.response_bytes,
        refusals: parts.refusals(),
        store_refusals: tenant.store_refusals,
        over: tenant.over,
    })
}

/// How many partitions the topics of a catalog have together. It stays at the greatest number.
fn partition_count<L: PartitionLog>(catalog: &Catalog<L>) -> u64
    ensures { result ≡ partition_count (known catalog.now).topics }
{
    let mut count: u64 = 0;
    for (_, topic) in catalog.by_instance() {
        count = count.saturating_add(topic.partitions().len() as u64);
    }
    count
}

/// How many offsets groups committed to the topics of a catalog together. It stays at the greatest number.
fn offset_count<L: PartitionLog>(catalog: &Catalog<L>) -> u64
    ensures { result ≡ up_to_end (offsets_in (known catalog.now)) }
{
    let mut count: u64 = 0;
    for (_, topic) in catalog.by_instance() {
        count = count.saturating_add(topic_offset_count(topic));
    }
    count
}

/// How many offsets groups committed to a topic. It stays at the greatest number.
fn topic_offset_count(topic: &Topic) -> u64
    ensures { result ≡ up_to_end (offsets_to topic.now.partitions) }
{
    let mut count: u64 = 0;
    for partition in topic.partitions() {
        count = count.saturating_add(partition.commits().len() as u64);
    }
    count
}

/// A row for each group.
fn group_rows<'a>(alloc: Global, groups: &'a [Entry]) -> Result<Vec<GroupRow<'a>>, AllocError>
    ensures { IfOk result (λ rows. map group_row rows.items ≡ map group_of groups.now) }
{
    let mut rows = Vec::with_capacity(alloc, groups.len())?;
    for entry in groups {
        rows.push(group_row(entry))?;
    }
    Ok(rows)
}

fn group_row(entry: &Entry) -> GroupRow<'_>
    ensures { group_row result ≡ group_of entry.now }
{
    let state = entry.group.state();
    GroupRow {
        id: entry.id.as_slice(),
        members: state.members.len() as u64,
        generation: state.generation,
    }
}

/// A row for each group and topic to which it committed.
fn lag_rows<'a, L: PartitionLog>(
    alloc: Global,
    parts: &'a Parts<L>,
) -> Result<Vec<LagRow<'a>>, AllocError>
    ensures { IfOk result (λ rows. (files : Files) → map lag_row rows.items ≡ lags (world_of L.log parts.now files)) }
{
    let mut rows = Vec::new(alloc);
    for (instance, topic) in parts.topics() {
        push_topic_lags(alloc, &mut rows, parts, instance, topic)?;
    }
    Ok(rows)
}

/// Puts a row for each group that committed to a topic. Where there is none its partitions are not looked at.
fn push_topic_lags<'a, L: PartitionLog>(
    alloc: Global,
    rows: &mut Vec<LagRow<'a>>,
    parts: &'a Parts<L>,
    instance: u64,
    topic: &'a Topic,
) -> Result<(), AllocError>
    ensures { OnOk result ((files : Files) → map lag_row rows.new.items
        ≡ map lag_row rows.old.items ++ topic_lags (world_of L.log parts.now files) (instance, topic.now)) }
{
    let groups = groups_in(alloc, topic)?;
    if groups.is_empty() {
        return Ok(());
    }
    let slots = slots(alloc, parts, instance, topic.partitions().len(), &groups)?;
    push_lags(rows, &slots, &groups, topic.name())
}

/// Puts a row for each group and a topic, whose partitions are those.
#[tactic(auto, using(crate::proofs::Commits::kept_at))]
fn push_lags<'a>(
    rows: &mut Vec<LagRow<'a>>,
    slots: &[Slot<'_>],
    groups: &[&'a str],
    topic: &'a str,
) -> Result<(), AllocError>
    requires { All (AreCommitted (map (λ group. group.now) groups.now)) slots.now }
    ensures { OnOk result (map lag_row rows.new.items ≡ map lag_row rows.old.items
        ++ map (lag_row_among (map slot_of slots.now) topic.now) (map (λ group. group.now) groups.now)) }
{
    for place in 0..groups.len() {
        push_lag(rows, slots, place, groups[place], topic)?;
    }
    Ok(())
}

/// Puts a row for the group at a place and a topic, whose partitions are those.
fn push_lag<'a>(
    rows: &mut Vec<LagRow<'a>>,
    slots: &[Slot<'_>],
    place: usize,
    group: &'a str,
    topic: &'a str,
) -> Result<(), AllocError>
    requires { All (IsKept place group.now) slots.now }
    ensures { OnOk result (map lag_row rows.new.items
        ≡ map lag_row rows.old.items ++ lag_row_among (map slot_of slots.now) topic.now group.now ∷ []) }
{
    rows.push(LagRow {
        group,
        topic,
        value: lag(slots, place, group),
    })?;
    Ok(())
}

/// A row for each partition.
pub(crate) fn partition_rows<'a, L: PartitionLog>(
    alloc: Global,
    parts: &'a Parts<L>,
) -> Result<Vec<PartitionRow<'a>>, AllocError>
    ensures { IfOk result (λ rows. (files : Files) → map partition_row rows.items ≡ partitions (world_of L.log parts.now files)) }
{
    let mut rows = Vec::new(alloc);
    for (instance, topic) in parts.topics() {
        push_topic_partitions(&mut rows, parts, instance, topic)?;
    }
    Ok(rows)
}

/// Puts a row for each partition of a topic.
fn push_topic_partitions<'a, L: PartitionLog>(
    rows: &mut Vec<PartitionRow<'a>>,
    parts: &'a Parts<L>,
    instance: u64,
    topic: &'a Topic,
) -> Result<(), AllocError>
    ensures { OnOk result ((files : Files) → map partition_row rows.new.items
        ≡ map partition_row rows.old.items ++ topic_partitions (world_of L.log parts.now files) (instance, topic.now)) }
{
    for number in 0..topic.partitions().len() {
        push_partition(rows, parts, instance, topic, number)?;
    }
    Ok(())
}

/// Puts a row for a partition, where it is there.
fn push_partition<'a, L: PartitionLog>(
    rows: &mut Vec<PartitionRow<'a>>,
    parts: &'a Parts<L>,
    instance: u64,
    topic: &'a Topic,
    number: usize,
) -> Result<(), AllocError>
    ensures { OnOk result ((files : Files) → map partition_row rows.new.items
        ≡ map partition_row rows.old.items ++ partition_of (world_of L.log parts.now files) (instance, topic.now) number) }
{
    let place = TopicPartition { instance, number };
    push_between(
        rows,
        topic.name(),
        number,
        parts.start(place),
        parts.end(place),
    )
}

/// Puts a row for a partition that starts and ends so.
fn push_between<'a>(
    rows: &mut Vec<PartitionRow<'a>>,
    topic: &'a str,
    number: usize,
    start: Option<i64>,
    end: Option<i64>,
) -> Result<(), AllocError>
    ensures { OnOk result (map partition_row rows.new.items ≡ map partition_row rows.old.items ++ between topic.now number start end) }
{
    let Some(start) = start else {
        return Ok(());
    };
    let Some(end) = end else {
        return Ok(());
    };
    rows.push(PartitionRow {
        topic,
        number: number as u64,
        start,
        end,
    })?;
    Ok(())
}

/// A row for each group and partition to which it committed.
pub(crate) fn commit_rows<'a, L: PartitionLog>(
    alloc: Global,
    parts: &'a Parts<L>,
) -> Result<Vec<CommitRow<'a>>, AllocError>
    ensures { IfOk result (λ rows. (files : Files) → map commit_row rows.items ≡ commits (world_of L.log parts.now files)) }
{
    let mut rows = Vec::new(alloc);
    for (_, topic) in parts.topics() {
        push_topic_commits(&mut rows, topic)?;
    }
    Ok(rows)
}

/// Puts a row for what each group committed to each partition of a topic.
fn push_topic_commits<'a>(rows: &mut Vec<CommitRow<'a>>, topic: &'a Topic) -> Result<(), AllocError>
    ensures { OnOk result (map commit_row rows.new.items ≡ map commit_row rows.old.items ++ topic_commits topic.now) }
{
    for number in 0..topic.partitions().len() {
        push_commits_in(rows, topic, number)?;
    }
    Ok(())
}

/// The partition of that number of a topic.
fn partition_at(topic: &Topic, number: usize) -> Option<&Partition>
    ensures { option_copied result ≡ slice_get topic.now.partitions number }
{
    topic.partitions().get(number)
}

/// Puts a row for what each group committed to a partition of a topic.
fn push_commits_in<'a>(
    rows: &mut Vec<CommitRow<'a>>,
    topic: &'a Topic,
    number: usize,
) -> Result<(), AllocError>
    ensures { OnOk result (map commit_row rows.new.items ≡ map commit_row rows.old.items ++ commits_in topic.now number) }
{
    match partition_at(topic, number) {
        Some(partition) => push_commits(rows, topic.name(), number, partition),
        None => Ok(()),
    }
}

/// Puts a row for what each group committed to a partition.
fn push_commits<'a>(
    rows: &mut Vec<CommitRow<'a>>,
    topic: &'a str,
    number: usize,
    partition: &'a Partition,
) -> Result<(), AllocError>
    ensures { OnOk result (map commit_row rows.new.items
        ≡ map commit_row rows.old.items ++ map (commit_of topic.now number) partition.now.commits) }
{
    for (group, committed) in partition.commits() {
        rows.push(CommitRow {
            group: group.as_str(),
            topic,
            number: number as u64,
            offset: committed.offset(),
        })?;
    }
    Ok(())
}
