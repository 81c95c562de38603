//! A store whose files come back, and one that refuses as a failing disk would.
ghost use Rattle.std.specs.Prelude.{◌≡◌, None};
ghost use Rattle.std.specs.FinMap as map;

use kb_store::{Fuse, FusedStore, MemoryStore, Store, StoreFault, read_file};
use std::alloc::Global;
use std::test::Fail;

/// Makes a file, adds two pieces, cuts it to seven bytes, and answers what it then has.
#[tactic(auto, using(kb_store::proofs::Disks::is_there_put, kb_store::proofs::Disks::len_of_put))]
fn make_and_cut<S: Store>(alloc: Global, store: &mut S, file: u64) -> Result<Vec<u8>, StoreFault>
    requires { map.get (S.disk store.old).table file ≡ None }
{
    store.create(file)?;
    store.append(file, b"first ")?;
    store.append(file, b"second")?;
    store.cut(file, 7)?;
    read_file(alloc, store, file)
}

#[test]
#[tactic(auto, using(kb_store::proofs::Disks::none_in_empty))]
fn files_come_back(rt: HostRuntime) -> Result<(), Fail> {
    let mut store = MemoryStore::new(rt.alloc());
    let bytes = make_and_cut(rt.alloc(), &mut store, 7)?;
    assert_eq!(rt; bytes.as_slice(), b"first s".as_slice());
    assert_eq!(rt; store.list(rt.alloc())?.as_slice(), [7u64].as_slice());
    assert_eq!(rt; store.failures(), 0);
    Ok(())
}

/// Makes a file and adds a piece; whether that was refused, and the length of the file then.
#[tactic(auto, using(kb_store::proofs::Disks::is_there_put, kb_store::proofs::Disks::is_there_grown))]
fn make_and_append<S: Store>(store: &mut S, file: u64) -> Result<(bool, u64), StoreFault>
    requires { map.get (S.disk store.old).table file ≡ None }
{
    store.create(file)?;
    let is_refused = store.append(file, b"first ").is_err();
    let len = store.len(file)?;
    Ok((is_refused, len))
}

#[test]
#[tactic(auto, using(kb_store::proofs::Disks::none_in_empty))]
fn a_fuse_refuses(rt: HostRuntime) -> Result<(), Fail> {
    for (keep, len) in [(0u64, 0u64), (4, 4), (6, 5), (99, 5)] {
        let mut store = FusedStore::new(MemoryStore::new(rt.alloc()), Fuse::Once(2), keep);
        assert_eq!(rt; make_and_append(&mut store, 7)?, (true, len));
        assert_eq!(rt; store.failures(), 1);
    }
    for (keep, files) in [(0u64, 0usize), (1, 1)] {
        let mut store = FusedStore::new(MemoryStore::new(rt.alloc()), Fuse::Once(1), keep);
        assert!(rt; matches!(make_and_append(&mut store, 7), Err(StoreFault::Device)));
        assert_eq!(rt; store.list(rt.alloc())?.len(), files);
    }
    let mut store = FusedStore::new(MemoryStore::new(rt.alloc()), Fuse::From(2), 0);
    assert!(rt; matches!(make_and_append(&mut store, 7), Err(StoreFault::Device)));
    assert_eq!(rt; store.failures(), 2);
    Ok(())
}
