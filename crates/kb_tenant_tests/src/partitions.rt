//! Up to which clock partitions tell that they are left as they are, over logs and files in memory.
ghost use Rattle.std.specs.Prelude.{IfOk, ℕ};
ghost use Rattle.kb_store.specs.Disk.{Table};
ghost use Rattle.kb_log.specs.ListLog.{list_log};
ghost use Rattle.kb_tenant_state.specs.Partitions.{AreSound};

use crate::words::bytes;
use kb_batch::BatchView;
use kb_log::{ListLog, Shelf};
use kb_store::MemoryStore;
use kb_tenant_state::Partitions;
use std::alloc::Global;
use std::process::Abort;
use std::test::Fail;

/// A topic of instance 7 with two partitions.
fn made(alloc: Global) -> Result<Partitions<ListLog>, Fail>
    ensures { IfOk result (λ partitions. (table : Table) (next : ℕ) → AreSound list_log partitions.topics.entries table next) }
{
    let mut partitions = Partitions::new(alloc);
    partitions.add(alloc, "tenant", 7, 2, 1_048_576)?;
    Ok(partitions)
}

/// Appends two batches with timestamp 5, of 70 bytes each, to a partition of that topic.
fn append_two(
    rt: &impl Abort,
    alloc: Global,
    partitions: &mut Partitions<ListLog>,
    number: usize,
) -> Result<(), Fail>
    requires { (table : Table) (next : ℕ) → AreSound list_log partitions.old.topics.entries table next }
{
    let mut shelf = Shelf::new(alloc, MemoryStore::new(alloc), 0)
        .ok()
        .ok_or("a shelf")?;
    let hi = bytes(rt, alloc, "hi")?;
    let batch = BatchView::read(&hi).ok().ok_or("a batch")?;
    partitions.append(&mut shelf, 7, number, &batch)?;
    partitions.append(&mut shelf, 7, number, &batch)?;
    Ok(())
}

#[test]
fn last_clocks_without_a_drop(rt: HostRuntime) -> Result<(), Fail> {
    let mut partitions = made(rt.alloc())?;
    append_two(&rt, rt.alloc(), &mut partitions, 1)?;
    let rows = [
        (1usize, -1i64, 1005i64),
        (1, 100, i64::MIN),
        (0, 0, i64::MAX),
        (2, 0, i64::MAX),
    ];
    for (number, bytes, until) in &rows {
        assert!(rt; partitions.next_retention_time(7, *number, 1000, *bytes) == *until);
    }
    Ok(())
}
