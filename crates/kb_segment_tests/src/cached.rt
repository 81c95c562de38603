//! Logs and files over a store with a cache: the answers are those of the store inside, and what is kept is answered without it.
ghost use Rattle.std.specs.Prelude.{◌≡◌, [], false, IfOk};
ghost use Rattle.kb_log.specs.OnShelf.{on, IsSound};

use crate::alone::{is_alone, is_empty};
use crate::folders::{cut, has, remove};
use crate::opened::{batch_of, id};
use kb_batch::BatchView;
use kb_cache::{CachedStore, LARGEST_READ};
use kb_log::{PartitionLog, Shelf};
use kb_segment_log::SegmentLog;
use kb_store::{Fuse, FusedStore, MemoryStore, Store};
use std::alloc::Global;
use std::hash::RandomState;
use std::test::Fail;

/// How many entries are kept, and how many bytes.
const LIMITS: [(u32, u64); 4] = [(0, 1 << 20), (1, 1 << 20), (3, 2000), (64, 1 << 20)];

/// A store with a cache over another, with a hasher of its own.
fn cached<S: Store + Drop>(
    rt: &HostRuntime,
    inside: S,
    most_entries: u32,
    most_bytes: u64,
) -> Result<CachedStore<S>, Fail>
    ensures { IfOk result (λ store. store ≡ record {
      store = inside;
      entries = [];
      most_entries = most_entries;
      most_bytes = most_bytes;
      asked = [];
      writes = false;
    }) }
{
    let hasher = RandomState::new(rt)?;
    Ok(CachedStore::new(rt.alloc(), hasher, inside, most_entries, most_bytes))
}

/// Makes the file 0, where there is none.
fn make<S: Store>(alloc: Global, store: &mut S) -> Result<(), Fail> {
    if !is_empty(alloc, store)? {
        return Err("another file".into());
    }
    Ok(store.create(0)?)
}

/// Adds bytes to the file 0, which is the only one.
fn add<S: Store>(alloc: Global, store: &mut S, bytes: &[u8]) -> Result<(), Fail> {
    if !is_alone(alloc, store)? {
        return Err("another file".into());
    }
    Ok(store.append(0, bytes)?)
}

/// Writes a file, cuts it twice, and adds other bytes each time. Whether it has what it is to have.
fn is_cut<S: Store>(alloc: Global, store: &mut S) -> Result<bool, Fail> {
    make(alloc, store)?;
    add(alloc, store, b"first ")?;
    add(alloc, store, b"second")?;
    let whole = has(alloc, store, b"first second")?;
    cut(alloc, store, 6)?;
    add(alloc, store, b"fourth")?;
    let behind = has(alloc, store, b"first fourth")?;
    cut(alloc, store, 2)?;
    add(alloc, store, b"fty")?;
    Ok(whole && behind && has(alloc, store, b"fifty")?)
}

/// Takes the file away and makes another of its number. Whether it has its own bytes alone.
fn is_made_anew<S: Store>(alloc: Global, store: &mut S) -> Result<bool, Fail> {
    remove(alloc, store)?;
    make(alloc, store)?;
    add(alloc, store, b"other")?;
    Ok(has(alloc, store, b"other")?)
}

#[test]
fn nothing_old_is_answered_after_a_cut_and_a_removal(rt: HostRuntime) -> Result<(), Fail> {
    for (most_entries, most_bytes) in LIMITS {
        let inside = MemoryStore::new(rt.alloc());
        let mut store = cached(&rt, inside, most_entries, most_bytes)?;
        assert!(rt; is_cut(rt.alloc(), &mut store)?, "{most_entries} entries");
        assert!(rt;
            is_made_anew(rt.alloc(), &mut store)?,
            "{most_entries} entries"
        );
    }
    Ok(())
}

/// How many calls of the store inside it takes to find that the file 0 has some bytes.
fn calls_to_find(
    alloc: Global,
    store: &mut CachedStore<FusedStore<MemoryStore>>,
    bytes: &[u8],
) -> Result<u64, Fail> {
    let before = store.store().calls;
    if !has(alloc, store, bytes)? {
        return Err("other bytes".into());
    }
    Ok(store.store().calls.saturating_sub(before))
}

/// What is appended is kept once the file is read, and not before. What was read before the first append does not count.
#[test]
fn a_reader_that_follows_is_answered_from_memory(rt: HostRuntime) -> Result<(), Fail> {
    let alloc = rt.alloc();
    let inside = FusedStore::new(MemoryStore::new(alloc), Fuse::From(u64::MAX), 0);
    let mut store = cached(&rt, inside, 64, 1 << 20)?;
    make(alloc, &mut store)?;
    let _ = calls_to_find(alloc, &mut store, b"")?;
    add(alloc, &mut store, b"first ")?;
    let read = calls_to_find(alloc, &mut store, b"first ")?;
    let kept = calls_to_find(alloc, &mut store, b"first ")?;
    assert_eq!(rt; read.saturating_sub(kept), 1);
    add(alloc, &mut store, b"second")?;
    let followed = calls_to_find(alloc, &mut store, b"first second")?;
    assert_eq!(rt; followed, kept);
    Ok(())
}

/// Adds a batch to a log.
fn append_one<S: Store, L: PartitionLog>(
    alloc: Global,
    shelf: &mut Shelf<S>,
    log: &mut L,
) -> Result<(), Fail>
    requires { IsSound (on S.disk (L.log log.old) shelf.old) }
    ensures { IsSound (on S.disk (L.log log.new) shelf.new) }
{
    let bytes = batch_of(alloc, &[7; 700])?;
    log.append(shelf, &BatchView::read(&bytes)?)?;
    Ok(())
}

/// Adds what a log gives at an offset to some bytes.
#[tactic(auto, using(crate::proofs::StillSound::still_sound))]
fn add_fetched<S: Store, L: PartitionLog>(
    shelf: &mut Shelf<S>,
    log: &L,
    offset: u8,
    limit: u64,
    out: &mut Vec<u8>,
) -> Result<(), Fail>
    requires { IsSound (on S.disk (L.log log.now) shelf.old) }
    ensures { IsSound (on S.disk (L.log log.now) shelf.new) }
{
    Ok(log.fetch(shelf, i64::from(offset), limit, true, out)?)
}

/// What a new log of twenty batches gives from its start on, some times: so many bytes at most as are kept of a read.
fn fetched_times<S: Store, L: PartitionLog + Drop>(
    alloc: Global,
    shelf: &mut Shelf<S>,
    times: u8,
) -> Result<Vec<u8>, Fail> {
    let mut log = L::create(alloc, id(alloc)?, 1 << 20);
    for turn in 0..20u8 {
        let _ = turn;
        append_one(alloc, shelf, &mut log)?;
    }
    let mut last = Vec::new(alloc);
    for again in 0..times {
        let _ = again;
        last.clear();
        add_fetched(shelf, &log, 0, LARGEST_READ as u64, &mut last)?;
    }
    Ok(last)
}

/// The same over a store that refuses all calls from one on: how many calls it had, how many it refused, and the bytes.
fn fetched_until(
    rt: &HostRuntime,
    most_entries: u32,
    from: u64,
    times: u8,
) -> Result<(u64, u64, Vec<u8>), Fail> {
    let alloc = rt.alloc();
    let inside = FusedStore::new(MemoryStore::new(alloc), Fuse::From(from), 0);
    let store = cached(rt, inside, most_entries, 1 << 20)?;
    let Ok(mut shelf) = Shelf::new(alloc, store, 0) else {
        return Err("no shelf".into());
    };
    let bytes = fetched_times::<_, SegmentLog>(alloc, &mut shelf, times)?;
    let store = shelf.into_store();
    Ok((store.store().calls, store.store().refused, bytes))
}

#[test]
fn a_fetch_is_answered_again_while_every_call_is_refused(rt: HostRuntime) -> Result<(), Fail> {
    for most_entries in [1u32, 64] {
        let (calls, _, bytes) = fetched_until(&rt, most_entries, u64::MAX, 1)?;
        assert!(rt; !bytes.is_empty() && calls < 1 << 32);
        let (again, refused, same) = fetched_until(&rt, most_entries, calls + 1, 3)?;
        assert_eq!(rt; again, calls);
        assert_eq!(rt; refused, 0);
        assert!(rt; same.as_slice() == bytes.as_slice());
    }
    Ok(())
}

/// Without a cache the second fetch calls the store again.
#[test]
fn a_fetch_is_refused_where_nothing_is_kept(rt: HostRuntime) -> Result<(), Fail> {
    let (once, _, bytes) = fetched_until(&rt, 0, u64::MAX, 1)?;
    let (twice, _, same) = fetched_until(&rt, 0, u64::MAX, 2)?;
    assert!(rt; once < twice);
    assert!(rt; same.as_slice() == bytes.as_slice());
    Ok(())
}
