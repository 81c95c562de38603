//! A topic of the catalog, its partitions, and what groups committed to them.
ghost use Rattle.std.specs.Prelude.{◌≡◌, ◌<◌, pos, length, map, slice_index_or, replicate, OnOk, OnErr, IfOk};
ghost use Rattle.std.specs.Option.{option_copied};
ghost use Rattle.std.specs.String.{string_bytes};
ghost use Rattle.std.proofs.lemmas.Map.Lookups.{map_keys};
ghost use Rattle.kb_topics.specs.Known.{CommittedOffset, PartitionState, TopicState, new_partition, new_topic, committed_at, with_part};
ghost use Rattle.kb_topics.specs.Known.{has_committed_to, with_start, with_commit, with_former, without_commit, without_commits};

use crate::config::TopicConfig;
use std::alloc::{AllocError, Global};
use std::collections::{BTreeMap, btree_map};
use std::marker::Model;

/// How far a group has processed a partition.
#[derive(Drop)]
pub struct Committed {
    offset: i64,
    metadata: String,
}

impl Model for Committed {
    ghost use Rattle.std.specs.String.{string_bytes};
    ghost use Rattle.kb_topics.specs.Known.{CommittedOffset};

    ghost Value = { CommittedOffset };

    ghost view = { λ c. record { offset = c.offset; metadata = string_bytes c.metadata } };
}

impl Committed {
    /// A copy of the metadata beside the offset.
    pub(crate) fn new(alloc: Global, offset: i64, metadata: &str) -> Result<Committed, AllocError>
        ensures { IfOk result (λ c. c ≡ record { offset = offset; metadata = metadata.now }) }
    {
        Ok(Committed {
            offset,
            metadata: String::from_str(alloc, metadata)?,
        })
    }

    /// The offset.
    pub fn offset(&self) -> i64
        ensures { result ≡ self.now.offset }
    {
        self.offset
    }

    /// What the group wrote beside it.
    pub fn metadata(&self) -> &str
        ensures { result.now ≡ self.now.metadata }
    {
        self.metadata.as_str()
    }
}

/// The recorded start of a partition, and what groups committed to it.
#[derive(Drop)]
pub struct Partition {
    start: i64,
    commits: BTreeMap<String, Committed>,
}

impl Model for Partition {
    ghost use Rattle.std.specs.String.{string_bytes};
    ghost use Rattle.std.proofs.lemmas.Map.Lookups.{map_keys};
    ghost use Rattle.kb_topics.specs.Known.{PartitionState};

    ghost Value = { PartitionState };

    ghost view = { λ p. record { start = p.start; commits = map_keys string_bytes p.commits.entries } };
}

impl Partition {
    /// A partition when its topic is made. No memory is taken.
    fn new(alloc: Global) -> Partition
        ensures { result ≡ new_partition }
    {
        Partition {
            start: 0,
            commits: BTreeMap::new(alloc),
        }
    }

    /// The recorded start.
    pub fn start(&self) -> i64
        ensures { result ≡ self.now.start }
    {
        self.start
    }

    /// What a group committed.
    pub fn committed(&self, group: &str) -> Option<&Committed>
        ensures { option_copied result ≡ committed_at group.now self.now }
    {
        self.commits.get(group)
    }

    /// What groups committed, in byte order of groups.
    pub fn commits(&self) -> btree_map::Iter<'_, String, Committed>
        ensures { map_keys string_bytes result ≡ self.now.commits }
    {
        self.commits.iter()
    }

    /// Records what a group commits, and answers what it had committed. A refusal leaves all as it was.
    fn commit(
        &mut self,
        group: String,
        committed: Committed,
    ) -> Result<Option<Committed>, AllocError>
        ensures committed { OnOk result (self.new ≡ with_commit self.old (string_bytes group) committed) }
        ensures former { IfOk result (λ former. with_former (with_commit self.old (string_bytes group) committed)
            (string_bytes group) former ≡ self.old) }
        ensures refused { OnErr result (self.new ≡ self.old) }
    {
        Ok(self.commits.insert(group, committed)?)
    }

    /// Puts back what a group had committed. It takes no memory.
    fn take_commit_back(&mut self, group: &str, former: Option<Committed>)
        ensures { self.new ≡ with_former self.old group.now former }
    {
        let Some(former) = former else {
            self.commits.remove(group);
            return;
        };
        let Some(committed) = self.commits.get_mut(group) else {
            return;
        };
        *committed = former;
    }

    /// Takes out what a group committed. It takes no memory.
    fn delete_group(&mut self, group: &str)
        ensures { self.new ≡ without_commit group.now self.old }
    {
        self.commits.remove(group);
    }

    fn set_start(&mut self, offset: i64)
        ensures { self.new ≡ with_start self.old offset }
    {
        self.start = offset;
    }
}

/// A topic: its name, its settings and its partitions.
#[derive(Drop)]
pub struct Topic {
    name: String,
    config: TopicConfig,
    partitions: Vec<Partition>,
}

impl Model for Topic {
    ghost use Rattle.std.specs.String.{string_bytes};
    ghost use Rattle.kb_topics.specs.Known.{TopicState};

    ghost Value = { TopicState };

    ghost view = { λ t. record { name = string_bytes t.name; config = t.config; partitions = t.partitions.items } };
}

impl Topic {
    /// A topic when it is made.
    pub(crate) fn new(
        alloc: Global,
        name: &str,
        partitions: usize,
        config: TopicConfig,
    ) -> Result<Topic, AllocError>
        ensures { IfOk result (λ t. t ≡ new_topic name.now partitions config) }
    {
        Ok(Topic {
            name: String::from_str(alloc, name)?,
            config,
            partitions: new_partitions(alloc, partitions)?,
        })
    }

    /// The name.
    pub fn name(&self) -> &str
        ensures { result.now ≡ self.now.name }
    {
        self.name.as_str()
    }

    /// The settings.
    pub fn config(&self) -> TopicConfig
        ensures { result ≡ self.now.config }
    {
        self.config
    }

    /// The partitions, numbered from 0 on.
    pub fn partitions(&self) -> &[Partition]
        ensures { result.now ≡ self.now.partitions }
    {
        self.partitions.as_slice()
    }

    pub(crate) fn commit(
        &mut self,
        place: usize,
        group: String,
        committed: Committed,
    ) -> Result<Option<Committed>, AllocError>
        requires { place < length self.old.partitions }
        ensures committed { OnOk result (self.new
            ≡ with_part place (with_commit (slice_index_or self.old.partitions place new_partition) (string_bytes group) committed)
            self.old) }
        ensures former { IfOk result (λ former.
            with_former (with_commit (slice_index_or self.old.partitions place new_partition) (string_bytes group) committed)
            (string_bytes group) former ≡ slice_index_or self.old.partitions place new_partition) }
        ensures refused { OnErr result (self.new ≡ self.old) }
    {
        self.partitions[place].commit(group, committed)
    }

    pub(crate) fn take_commit_back(&mut self, place: usize, group: &str, former: Option<Committed>)
        requires { place < length self.old.partitions }
        ensures { self.new ≡ with_part place (with_former (slice_index_or self.old.partitions place new_partition) group.now former)
            self.old }
    {
        self.partitions[place].take_commit_back(group, former);
    }

    /// Whether a group committed an offset to one of its partitions.
    pub(crate) fn has_committed(&self, group: &str) -> bool
        ensures { result ≡ has_committed_to group.now self.now.partitions }
    {
        for partition in self.partitions() {
            if partition.committed(group).is_some() {
                return true;
            }
        }
        false
    }

    /// Takes out what a group committed to its partitions. It takes no memory.
    pub(crate) fn delete_group(&mut self, group: &str)
        ensures { self.new ≡ without_commits group.now self.old }
    {
        delete_group_from(&mut self.partitions, group);
    }

    pub(crate) fn set_start(&mut self, place: usize, offset: i64)
        requires { place < length self.old.partitions }
        ensures { self.new ≡ with_part place (with_start (slice_index_or self.old.partitions place new_partition) offset) self.old }
    {
        self.partitions[place].set_start(offset);
    }
}

/// Takes out what a group committed to these partitions.
fn delete_group_from(partitions: &mut Vec<Partition>, group: &str)
    ensures { partitions.new.items ≡ map (without_commit group.now) partitions.old.items }
{
    for i in 0..partitions.len() {
        partitions[i].delete_group(group);
    }
}

#[tactic(auto, using(crate::proofs::Topics::replicate_more))]
fn new_partitions(alloc: Global, count: usize) -> Result<Vec<Partition>, AllocError>
    ensures { IfOk result (λ ps. ps.items ≡ replicate count new_partition) }
{
    let mut partitions = Vec::with_capacity(alloc, count)?;
    for _ in 0..count {
        partitions.push(Partition::new(alloc))?;
    }
    Ok(partitions)
}
