//! The parts of a tenant.
ghost use Rattle.std.specs.Prelude.{◌≡◌, ◌≤◌, ◌≤ℤ◌, ℕ, None, pos, negsuc, false, length, string_bytes, IfOk};
ghost use Rattle.std.specs.Option.{option_copied};
ghost use Rattle.kb_store.specs.Disk.{Table, Files};
ghost use Rattle.kb_topics.specs.ByName.{by_name};
ghost use Rattle.kb_topics.specs.Catalog.{known, meta_log};
ghost use Rattle.kb_topics.specs.Known.{named, topic_at};
ghost use Rattle.kb_tenant_state.specs.Calls.{start_of, end_of, judged, committed, retain_all};
ghost use Rattle.kb_tenant_state.specs.Partitions.{AreExact};
ghost use Rattle.kb_tenant_state.specs.Parts.{Agrees, IsSound, Owns, entries, meta, raised, refused, world_of};
ghost use Rattle.kb_tenant_state.specs.Stored.{offsets_in, texts_in, up_to_end};
ghost use Rattle.kb_tenant_state.specs.Restored.{AreFitting, DoAgree, IsOfEither, restored_world};
ghost use Rattle.kb_tenant_state.specs.World.{new_world};

use crate::partitions::Partitions;
use crate::topic_partition::TopicPartition;
use crate::usage::{offset_count, text_sum};
use kb_batch::BatchView;
use kb_log::PartitionLog;
use kb_producers::Verdict;
use kb_topics::{Catalog, Committed, Topic, TopicsByName};
use std::alloc::{AllocError, Global};

/// A tenant's catalog and its partitions, a clock up to which no partition has anything to drop, what is known of the bytes of its
/// batches, how many offsets its groups have committed and the bytes of their texts, and how many refusals of memory and of the store were
/// counted for it.
#[derive(Drop)]
pub struct Parts<L: PartitionLog> {
    pub(crate) alloc: Global,
    pub(crate) tenant: String,
    pub(crate) segment_bytes: u64,
    pub(crate) catalog: Catalog<L>,
    pub(crate) partitions: Partitions<L>,
    pub(crate) next_retention_time: i64,
    /// How many bytes the batches in all logs have, or else the greatest number, where it is known.
    pub(crate) stored: Option<u64>,
    /// How many offsets all groups have committed, or else the greatest number.
    pub(crate) offsets: u64,
    /// The bytes of the texts of all committed offsets, or else the greatest number.
    pub(crate) texts: u64,
    pub(crate) refusals: u64,
}

impl<L: PartitionLog> Parts<L> {
    /// A tenant of that name without topics. It makes no store call. Files are to hold about `segment_bytes`.
    pub fn new(alloc: Global, tenant: &str, segment_bytes: u64) -> Result<Self, AllocError>
        ensures world { IfOk result (λ parts. (files : Files) → world_of L.log parts files ≡ new_world) }
        ensures sound { IfOk result (λ parts. (table : Table) (next : ℕ) → IsSound L.log parts table next) }
        ensures agrees { IfOk result (λ parts. (files : Files) → Agrees L.log parts files) }
        ensures owns { IfOk result (λ parts. (file : ℕ) → Owns L.log parts file → ⊥) }
        ensures named { IfOk result (λ parts. string_bytes parts.tenant ≡ tenant.now) }
        ensures size { IfOk result (λ parts. parts.segment_bytes ≡ segment_bytes) }
        ensures refusals { IfOk result (λ parts. parts.refusals ≡ 0) }
        // Nothing but its batches is in the files of a log that has none.
        ensures exact { IfOk result (λ parts. (table : Table) → (meta L.log parts).exact table × AreExact L.log (entries parts) table) }
    {
        let meta_tenant = String::from_str(alloc, tenant)?;
        let tenant = String::from_str(alloc, tenant)?;
        let catalog = Catalog::new(alloc, meta_tenant, segment_bytes);
        let partitions = Partitions::new(alloc);
        let mut parts = Parts::restored(alloc, tenant, segment_bytes, catalog, partitions);
        // there is nothing to drop, and no batch
        parts.next_retention_time = i64::MAX;
        parts.stored = Some(0);
        Ok(parts)
    }

    /// A tenant of a catalog and of partitions that are there, to which nothing was refused. Files are to hold about
    /// `segment_bytes`.
    pub fn restored(
        alloc: Global,
        tenant: String,
        segment_bytes: u64,
        catalog: Catalog<L>,
        partitions: Partitions<L>,
    ) -> Self
        ensures world { (files : Files) → world_of L.log result files ≡ restored_world L.log catalog partitions files }
        ensures sound { (table : Table) (next : ℕ) → AreFitting L.log (string_bytes tenant) segment_bytes catalog partitions table next
            → IsSound L.log result table next }
        ensures agrees { (files : Files) → DoAgree L.log catalog partitions files → Agrees L.log result files }
        ensures owns { (file : ℕ) → Owns L.log result file → IsOfEither L.log catalog partitions file }
        ensures owned { (file : ℕ) → IsOfEither L.log catalog partitions file → Owns L.log result file }
        ensures refusals { result.refusals ≡ 0 }
        ensures parts { result ≡ record {
          alloc = alloc;
          tenant = tenant;
          segment_bytes = segment_bytes;
          catalog = catalog;
          partitions = partitions;
          next_retention_time = negsuc 0;
          stored = None;
          offsets = up_to_end (offsets_in (known catalog));
          texts = up_to_end (texts_in (known catalog));
          refusals = 0;
        } }
    {
        let offsets = offset_count(&catalog);
        let texts = text_sum(&catalog);
        Parts {
            alloc,
            tenant,
            segment_bytes,
            catalog,
            partitions,
            // when retention is due is not known yet, so it may be at each clock
            next_retention_time: -1,
            stored: None,
            offsets,
            texts,
            refusals: 0,
        }
    }

    /// A clock, in milliseconds, up to which no partition has anything to drop. After a walk of `retain_all` it is the last one, where
    /// nothing was refused.
    pub fn next_retention_time(&self) -> i64
        ensures is { result ≡ self.now.next_retention_time }
        ensures until { (files : Files) → Agrees L.log self.now files → (clock : ℕ) → pos clock ≤ℤ result
            → retain_all clock (world_of L.log self.now files) ≡ (world_of L.log self.now files, false) }
    {
        self.next_retention_time
    }

    /// How many refusals of memory and of the store were counted. The count stays at its end.
    pub fn refusals(&self) -> u64
        ensures { result ≡ self.now.refusals }
    {
        self.refusals
    }

    /// Counts a refusal.
    pub fn refuse(&mut self)
        ensures { self.new ≡ refused self.old }
    {
        self.refusals = self.refusals.saturating_add(1);
    }

    /// Raises the count of refusals to at least `count`.
    pub fn raise_refusals(&mut self, count: u64)
        ensures { self.new ≡ raised self.old count }
    {
        self.refusals = self.refusals.max(count);
    }

    /// The tenant's name.
    pub fn name(&self) -> &str
        ensures { result.now ≡ string_bytes self.now.tenant }
    {
        &self.tenant
    }

    /// How many bytes the files of its logs are to hold, about.
    pub fn segment_bytes(&self) -> u64
        ensures { result ≡ self.now.segment_bytes }
    {
        self.segment_bytes
    }

    /// The catalog.
    pub fn catalog(&self) -> &Catalog<L>
        ensures { result.now ≡ self.now.catalog }
    {
        &self.catalog
    }

    /// Puts another meta log in place of the catalog's, which is the answer. What is known stays, and so does all else.
    pub fn replace_meta_log(&mut self, log: L) -> L
        ensures known { known self.new.catalog ≡ known self.old.catalog }
        ensures log { meta_log self.new.catalog ≡ log }
        ensures former { result ≡ meta_log self.old.catalog }
        ensures rest { self.new ≡ record self.old { catalog = self.new.catalog } }
    {
        self.catalog.replace_log(log)
    }

    /// The instance of the topic of that name.
    pub fn topic_named(&self, name: &str) -> Option<u64>
        ensures { (files : Files) → result ≡ named name.now (world_of L.log self.now files).known.topics }
    {
        self.catalog.instance_of(name)
    }

    /// The topic of an instance.
    pub fn topic(&self, instance: u64) -> Option<&Topic>
        ensures { (files : Files) → option_copied result ≡ topic_at instance (world_of L.log self.now files).known.topics }
    {
        self.catalog.topic(instance)
    }

    /// The topics, each with its instance, in byte order of their names. It takes no memory.
    pub fn topics(&self) -> TopicsByName<'_>
        ensures { (files : Files) → result ≡ by_name (world_of L.log self.now files).known.topics }
    {
        self.catalog.topics()
    }

    /// How many topics there are.
    pub fn topic_count(&self) -> usize
        ensures { (files : Files) → result ≡ length (world_of L.log self.now files).known.topics }
    {
        self.catalog.len()
    }

    /// The instance that the next topic gets.
    pub fn next_instance(&self) -> u64
        ensures { result ≡ (known self.now.catalog).creates }
    {
        self.catalog.next_instance()
    }

    /// How many producer ids were given out.
    pub fn issued(&self) -> u64
        ensures { (files : Files) → result ≡ (world_of L.log self.now files).known.issues }
    {
        self.catalog.next_producer_id()
    }

    /// What a group committed to a partition; none where it committed nothing to it, or there is no such partition.
    pub fn committed(&self, place: TopicPartition, group: &str) -> Option<&Committed>
        ensures { (files : Files) → option_copied result ≡ committed (world_of L.log self.now files) place group.now }
    {
        self.catalog.committed(group, place.instance, place.number)
    }

    /// The offset of a partition's first record, or else its end; none where there is no such partition.
    pub fn start(&self, place: TopicPartition) -> Option<i64>
        ensures { (files : Files) → result ≡ start_of (world_of L.log self.now files) place }
    {
        self.partitions.start(place.instance, place.number)
    }

    /// The offset behind a partition's last record; none where there is no such partition.
    pub fn end(&self, place: TopicPartition) -> Option<i64>
        ensures { (files : Files) → result ≡ end_of (world_of L.log self.now files) place }
    {
        self.partitions.end(place.instance, place.number)
    }

    /// What becomes of a batch, by its producer's batches in the partition's log; none where there is no such partition.
    ///
    /// It takes no memory. Whether the producer's id was ever given out is not asked here.
    pub fn judge(&self, place: TopicPartition, batch: &BatchView<'_>) -> Option<Verdict>
        ensures { (files : Files) → Agrees L.log self.now files → result ≡ judged (world_of L.log self.now files) place batch.now }
    {
        self.partitions.judge(place.instance, place.number, batch)
    }
}
