//! Calls of a catalog over a log in memory.
ghost use Rattle.std.specs.Prelude.{IfOk};
ghost use Rattle.kb_log.specs.ListLog.{IsListed};
ghost use Rattle.kb_topics.specs.Catalog.{meta_log};

use kb_log::{ListLog, PartitionLog, Shelf};
use kb_store::MemoryStore;
use kb_topics::{Catalog, TopicConfig};
use std::alloc::Global;
use std::process::Abort;
use std::test::Fail;

/// A call that is accepted. A partition is named by the instance of its topic and its number.
#[derive(Clone, Copy)]
pub(super) enum Step<'a> {
    /// A topic of that name and number of partitions is made, with those settings, and has that instance.
    Create(&'a str, i32, TopicConfig, i64),
    /// The topic of that name is deleted.
    Delete(&'a str),
    /// That producer id is given out.
    Issue(i64),
    /// The start of a partition is moved to an offset.
    Start(i64, i32, i64),
    /// A group commits an offset in a partition, with metadata.
    Commit(&'a str, i64, i32, i64, &'a str),
    /// All that a group committed is deleted, and none is left to delete.
    DeleteGroup(&'a str),
}

fn empty_catalog(alloc: Global) -> Catalog<ListLog>
    ensures { IsListed (meta_log result) }
{
    Catalog::new(alloc, String::new(alloc), 1_048_576)
}

/// The bytes of a log from an offset on, up to a limit.
fn fetched(
    alloc: Global,
    shelf: &mut Shelf<MemoryStore>,
    log: &ListLog,
    offset: i64,
    limit: u64,
) -> Result<Vec<u8>, Fail>
    requires { IsListed log.now }
{
    let mut bytes = Vec::new(alloc);
    log.fetch(shelf, offset, limit, true, &mut bytes)?;
    Ok(bytes)
}

/// A catalog and its files.
#[derive(Drop)]
pub(super) struct Kept {
    catalog: Catalog<ListLog>,
    shelf: Shelf<MemoryStore>,
}

impl Kept {
    /// A catalog without topics.
    pub(super) fn new(alloc: Global) -> Result<Kept, Fail>
        ensures { IfOk result (λ kept. IsListed (meta_log kept.catalog)) }
    {
        let shelf = Shelf::new(alloc, MemoryStore::new(alloc), 0)
            .ok()
            .ok_or("a shelf")?;
        Ok(Kept {
            catalog: empty_catalog(alloc),
            shelf,
        })
    }

    /// The bytes of the meta log.
    pub(super) fn recorded(&mut self, alloc: Global) -> Result<Vec<u8>, Fail>
        requires { IsListed (meta_log self.old.catalog) }
    {
        fetched(alloc, &mut self.shelf, self.catalog.log(), 0, 10_000)
    }

    /// Makes a call, and says whether it is accepted, with the answer that is wanted.
    fn take(&mut self, step: &Step<'_>) -> bool
        requires { IsListed (meta_log self.old.catalog) }
        ensures { IsListed (meta_log self.new.catalog) }
    {
        let (catalog, shelf) = (&mut self.catalog, &mut self.shelf);
        match step {
            Step::Create(name, count, config, want) => catalog.create(shelf, name, *count, *config)
                == Ok(*want),
            Step::Delete(name) => name.len() < 300 && catalog.delete(shelf, name) == Ok(()),
            Step::Issue(want) => catalog.issue(shelf) == Ok(*want),
            Step::Start(instance, number, offset) => catalog.moved_start(
                shelf, *instance, *number, *offset,
            ) == Ok(()),
            Step::Commit(group, instance, number, offset, metadata) => group.len() < 300
                && catalog.commit(shelf, group, *instance, *number, *offset, metadata) == Ok(()),
            Step::DeleteGroup(group) => group.len() < 300
                && catalog.delete_group(shelf, group) == Ok(())
                && catalog.delete_group(shelf, group).is_err(),
        }
    }

    /// Makes some calls.
    pub(super) fn take_all(&mut self, rt: &impl Abort, steps: &[Step<'_>])
        requires { IsListed (meta_log self.old.catalog) }
        ensures { IsListed (meta_log self.new.catalog) }
    {
        for (number, step) in steps.iter().enumerate() {
            assert!(rt; self.take(step), "step {number}");
        }
    }
}
