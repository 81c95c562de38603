//! The steps of an exchange with a tenant, over logs and files in memory.
ghost use Rattle.std.specs.Prelude.{IfOk};
ghost use Rattle.kb_store.specs.Memory.{memory_disk};
ghost use Rattle.kb_log.specs.ListLog.{list_log};
ghost use Rattle.kb_tenant_state.specs.Parts.{scene};

use crate::words::bytes;
use kb_batch::BatchView;
use kb_log::{ListLog, Shelf};
use kb_store::MemoryStore;
use kb_tenant_state::{Parts, TopicPartition};
use kb_topics::TopicConfig;
use std::alloc::Global;
use std::process::Abort;
use std::test::Fail;

/// A step of an exchange, with the answer that is wanted.
#[derive(Clone, Copy)]
pub(super) enum Step<'a> {
    /// A topic of that name and number of partitions is made, with those settings.
    Create(&'a str, i32, TopicConfig),
    /// The batch is appended to a partition, at that offset.
    Append(TopicPartition, i64),
    /// Retention of all partitions at a time of the clock, and whether it dropped a batch.
    RetainAll(u32, bool),
    /// The clock up to which no partition has anything to drop.
    NextRetentionTime(i64),
}

/// A tenant and its files.
#[derive(Drop)]
struct Tenant {
    parts: Parts<ListLog>,
    shelf: Shelf<MemoryStore>,
}

impl Tenant {
    /// A tenant without topics.
    fn new(alloc: Global) -> Result<Tenant, Fail>
        ensures { IfOk result (λ t. (scene list_log (λ s. memory_disk s.files.entries) t.parts t.shelf).sound) }
    {
        let shelf = Shelf::new(alloc, MemoryStore::new(alloc), 0)
            .ok()
            .ok_or("a shelf")?;
        let parts = Parts::new(alloc, "a tenant", 1_048_576)?;
        Ok(Tenant { parts, shelf })
    }

    /// Takes a step, and answers whether it has the answer that is wanted.
    fn take(&mut self, batch: &BatchView<'_>, step: &Step<'_>) -> bool
        requires { (scene list_log (λ s. memory_disk s.files.entries) self.old.parts self.old.shelf).sound }
        ensures { (scene list_log (λ s. memory_disk s.files.entries) self.new.parts self.new.shelf).sound }
    {
        let (parts, shelf) = (&mut self.parts, &mut self.shelf);
        match step {
            Step::Create(name, count, config) => parts.create(shelf, name, *count, *config)
                == Ok(()),
            Step::Append(place, want) => parts.append(shelf, *place, batch) == Ok(*want),
            Step::RetainAll(clock, want) => parts.retain_all(shelf, u64::from(*clock)) == *want,
            Step::NextRetentionTime(clock) => parts.next_retention_time() == *clock,
        }
    }

    /// Takes some steps, and sees that no refusal is counted.
    fn take_all(&mut self, rt: &impl Abort, batch: &BatchView<'_>, steps: &[Step<'_>])
        requires { (scene list_log (λ s. memory_disk s.files.entries) self.old.parts self.old.shelf).sound }
    {
        for (number, step) in steps.iter().enumerate() {
            assert!(rt; self.take(batch, step), "step {number}");
        }
        assert_eq!(rt; self.parts.refusals(), 0);
    }
}

/// Takes some steps from a tenant without topics on.
pub(super) fn plays(rt: &impl Abort, alloc: Global, steps: &[Step<'_>]) -> Result<(), Fail> {
    let hi = bytes(rt, alloc, "hi")?;
    let batch = BatchView::read(&hi).ok().ok_or("a batch")?;
    Tenant::new(alloc)?.take_all(rt, &batch, steps);
    Ok(())
}
