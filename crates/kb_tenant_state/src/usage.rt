//! How much a tenant has: the bytes of its batches, its partitions, and the offsets that its groups have committed, with their texts.
ghost use Rattle.std.specs.Prelude.{◌≡◌, ◌≢◌, ◌<◌, ◌-◌, ◌+◌, ◌^◌, ℕ, Ok, Some, length, min, option_map, sum_by, IfOk};
ghost use Rattle.std.specs.Option.{option_and_then};
ghost use Rattle.kb_store.specs.Disk.{Files, Table};
ghost use Rattle.kb_topics.specs.Catalog.{known};
ghost use Rattle.kb_topics.specs.Known.{committed_at, topic_at};
ghost use Rattle.kb_tenant_state.specs.Calls.{known_at};
ghost use Rattle.kb_tenant_state.specs.Gone.{stored_without};
ghost use Rattle.kb_tenant_state.specs.Parts.{Agrees, IsSound, scene, world_of};
ghost use Rattle.kb_tenant_state.specs.Steps.{IsStep, Meets};
ghost use Rattle.kb_tenant_state.specs.Stored.{commits_to, offsets_in, offsets_to, partitions_in, stored_in, up_to_end, IsTold};
ghost use Rattle.kb_tenant_state.specs.Stored.{text_of, text_size, texts_at, texts_by, texts_in, texts_of, texts_to};
ghost use Rattle.kb_tenant_state.specs.Told.{IsWant, Tells};

use crate::fault::PartitionFault;
use crate::parts::Parts;
use crate::topic_partition::TopicPartition;
use kb_log::{PartitionLog, Shelf};
use kb_store::Store;
use kb_topics::{Catalog, Partition, Topic};

/// How many offsets groups have committed to a topic, or else the greatest number.
fn topic_offset_count(topic: &Topic) -> u64
    ensures { result ≡ up_to_end (offsets_to topic.now.partitions) }
{
    let mut count: u64 = 0;
    for partition in topic.partitions() {
        count = count.saturating_add(partition.commits().len() as u64);
    }
    count
}

/// How many offsets groups have committed in all, or else the greatest number. The time that it takes grows with the topics and their
/// partitions alone.
pub(crate) fn offset_count<L: PartitionLog>(catalog: &Catalog<L>) -> u64
    ensures { result ≡ up_to_end (offsets_in (known catalog.now)) }
{
    let mut count: u64 = 0;
    for (_, topic) in catalog.by_instance() {
        count = count.saturating_add(topic_offset_count(topic));
    }
    count
}

/// The bytes of the texts of all offsets that groups have committed to a topic, or else the greatest number.
pub(crate) fn topic_text_sum(topic: &Topic) -> u64
    ensures { result ≡ up_to_end (texts_to topic.now.partitions) }
{
    let mut sum: u64 = 0;
    for partition in topic.partitions() {
        sum = sum.saturating_add(partition_text_sum(partition));
    }
    sum
}

/// The same of a partition.
fn partition_text_sum(partition: &Partition) -> u64
    ensures { result ≡ up_to_end (sum_by text_size partition.now.commits) }
{
    let mut sum: u64 = 0;
    for (group, commit) in partition.commits() {
        sum = sum.saturating_add(text_bytes(group, commit.metadata()));
    }
    sum
}

/// The bytes of a committed offset's texts.
pub(crate) fn text_bytes(group: &str, metadata: &str) -> u64
    ensures { result ≡ length group.now + length metadata.now }
{
    group.len() as u64 + metadata.len() as u64
}

/// The bytes of the texts that a commit replaces: what its group had, unless it made the partition's commits more.
pub(crate) fn replaced_texts(had: u64, more: u64) -> u64
    ensures replaced { more ≡ 0 → result ≡ had }
    ensures added { 0 < more → result ≡ 0 }
{
    if more == 0 { had } else { 0 }
}

/// The bytes of the texts of all offsets that a group has committed to a topic, or else the greatest number.
fn topic_texts_by(topic: &Topic, group: &str) -> u64
    ensures { result ≡ up_to_end (texts_of group.now topic.now.partitions) }
{
    let mut sum: u64 = 0;
    for partition in topic.partitions() {
        if let Some(committed) = partition.committed(group) {
            sum = sum.saturating_add(text_bytes(group, committed.metadata()));
        }
    }
    sum
}

/// The bytes of the texts of all committed offsets, or else the greatest number. It goes over all of them.
pub(crate) fn text_sum<L: PartitionLog>(catalog: &Catalog<L>) -> u64
    ensures { result ≡ up_to_end (texts_in (known catalog.now)) }
{
    let mut sum: u64 = 0;
    for (_, topic) in catalog.by_instance() {
        sum = sum.saturating_add(topic_text_sum(topic));
    }
    sum
}

/// What is known of the bytes of all batches, once a batch of so many bytes was added.
pub(crate) fn more_stored(stored: Option<u64>, bytes: u64) -> Option<u64>
    ensures { result ≡ option_map (λ (n : ℕ). up_to_end (n + bytes)) stored }
{
    Some(stored?.saturating_add(bytes))
}

/// What is known of the bytes of all batches, once some went: nothing where it is not known how many, or behind the greatest number.
pub(crate) fn less_stored(stored: Option<u64>, lost: Option<u64>) -> Option<u64>
    ensures { result ≡ stored_without lost stored }
{
    let stored = stored?;
    let lost = lost?;
    if stored < u64::MAX {
        Some(stored.saturating_sub(lost))
    } else {
        None
    }
}

impl<L: PartitionLog> Parts<L> {
    /// How many groups have committed an offset to a partition.
    pub(crate) fn commit_count(&self, place: TopicPartition) -> u64
        ensures { result ≡ commits_to (known_at (known self.now.catalog) place) }
    {
        match self.catalog.partition(place.instance, place.number) {
            Some(partition) => partition.commits().len() as u64,
            None => 0,
        }
    }

    /// The bytes of the texts of what a group has committed to a partition; 0 where it has committed nothing.
    pub fn text_size(&self, place: TopicPartition, group: &str) -> u64
        ensures { result ≡ text_of group.now (option_and_then (committed_at group.now) (known_at (known self.now.catalog) place)) }
    {
        match self.catalog.committed(group, place.instance, place.number) {
            Some(commit) => text_bytes(group, commit.metadata()),
            None => 0,
        }
    }

    /// The bytes of the texts of all offsets that groups have committed to the topic of an instance, or else the greatest number; 0 where
    /// there is none.
    pub(crate) fn topic_texts(&self, instance: u64) -> u64
        ensures { result ≡ up_to_end (texts_at (topic_at instance (known self.now.catalog).topics)) }
    {
        match self.catalog.topic(instance) {
            Some(topic) => topic_text_sum(topic),
            None => 0,
        }
    }

    /// The bytes of the texts of all offsets that a group has committed, or else the greatest number. It is a look into each partition.
    pub(crate) fn group_texts(&self, group: &str) -> u64
        ensures { result ≡ up_to_end (texts_by group.now (known self.now.catalog)) }
    {
        let mut sum: u64 = 0;
        for (_, topic) in self.catalog.by_instance() {
            sum = sum.saturating_add(topic_texts_by(topic, group));
        }
        sum
    }

    /// The bytes of the texts of all committed offsets, as the catalog is now: so many went, and so many came. It goes over all of them
    /// only where the sum was at its end.
    pub(crate) fn moved_texts(&self, gone: u64, come: u64) -> u64
        ensures moved { self.now.texts ≢ 2 ^ 64 - 1 → result ≡ up_to_end (self.now.texts - gone + come) }
        ensures again { self.now.texts ≡ 2 ^ 64 - 1 → result ≡ up_to_end (texts_in (known self.now.catalog)) }
    {
        if self.texts == u64::MAX {
            text_sum(&self.catalog)
        } else {
            self.texts.saturating_sub(gone).saturating_add(come)
        }
    }

    /// How many bytes the batches in all logs have, or else the greatest number.
    ///
    /// As a rule it is known. Where the tenant was just opened, or a read of a size was refused when batches went, each log is asked, and
    /// the answer is kept. A log makes a store call only where a read of its first batch was refused. A refusal is counted once.
    pub fn stored<S: Store>(&mut self, shelf: &mut Shelf<S>) -> Result<u64, PartitionFault>
        requires { (scene L.log S.disk self.old shelf.old).sound }
        ensures step { IsStep (scene L.log S.disk self.old shelf.old) (scene L.log S.disk self.new shelf.new) }
        ensures fixed { self.new ≡ record self.old { stored = self.new.stored; refusals = self.new.refusals } }
        ensures same { let a = scene L.log S.disk self.old shelf.old in let b = scene L.log S.disk self.new shelf.new in
            b.disk.honest → a.agrees → b.state.world ≡ a.state.world }
        ensures meets { let a = scene L.log S.disk self.old shelf.old in
            Meets a (scene L.log S.disk self.new shelf.new) (result ≡ Ok (min (stored_in a.state.world) (2 ^ 64 - 1))) }
        ensures told { let a = scene L.log S.disk self.old shelf.old in let b = scene L.log S.disk self.new shelf.new in
            Tells a b (result ≡ Ok (min (stored_in a.state.world) (2 ^ 64 - 1))) (IsWant a b) result }
        // It is not asked for twice.
        ensures known { IfOk result (λ stored. self.new.stored ≡ Some stored) }
    {
        if let Some(stored) = self.stored {
            return Ok(stored);
        }
        match self.partitions.size(shelf) {
            Ok(stored) => {
                self.stored = Some(stored);
                Ok(stored)
            }
            Err(fault) => {
                self.count_fault(fault);
                Err(fault)
            }
        }
    }

    /// The same, where it is known.
    pub fn stored_bytes(&self) -> Option<u64>
        ensures is { result ≡ self.now.stored }
        ensures told { (files : Files) → Agrees L.log self.now files
            → IsTold result (up_to_end (stored_in (world_of L.log self.now files))) }
    {
        self.stored
    }

    /// How many offsets groups have committed in all, or else the greatest number.
    pub fn offsets(&self) -> u64
        ensures { (table : Table) (next : ℕ) → IsSound L.log self.now table next
            → result ≡ min (offsets_in (known self.now.catalog)) (2 ^ 64 - 1) }
    {
        self.offsets
    }

    /// The bytes of the texts of all offsets that groups have committed, or else the greatest number: of the groups' ids, and of what they
    /// wrote beside the offsets.
    pub fn texts(&self) -> u64
        ensures { (table : Table) (next : ℕ) → IsSound L.log self.now table next
            → result ≡ min (texts_in (known self.now.catalog)) (2 ^ 64 - 1) }
    {
        self.texts
    }

    /// How many partitions all topics have, or else the greatest number.
    pub fn partition_count(&self) -> u64
        ensures { result ≡ min (partitions_in (known self.now.catalog)) (2 ^ 64 - 1) }
    {
        let mut count: u64 = 0;
        for (_, topic) in self.catalog.by_instance() {
            count = count.saturating_add(topic.partitions().len() as u64);
        }
        count
    }
}
