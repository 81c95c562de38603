//! What is printed of the files of a store.

use crate::headers::{CATALOG, FIRST};
use kb_batch::{BatchBuilder, stamp};
use kb_dump::dump;
use kb_log::Shelf;
use kb_segment::SegmentHeader;
use kb_store::{MemoryStore, Store};
use std::alloc::Global;
use std::test::Fail;

/// What is to be printed of the store that [`filled`] makes.
const TEXT: &str = "\
file 0 tenant a instance 258 partition 3 base 7
batch base 7 count 2 size 79
batch base 40 count 1 size 70
file 1 tenant a meta base 0
file 2 tenant a meta generation 3 base 5
damaged at 43
file 3 stray
file 4 tenant a instance 0 partition 0 base 0
batch base -9 count 1 size 70
damaged at 105
file 5 stray
";

/// A batch of so many records, from an offset on. One record has 9 bytes, behind 61 of the header.
fn batch(alloc: Global, base: i64, count: u16) -> Result<Vec<u8>, Fail> {
    let mut builder = BatchBuilder::new(alloc, -1, -1, -1);
    for _ in 0..count {
        builder.push(5, None, Some(b"hi"))?;
    }
    let mut bytes = builder.finish()?;
    if bytes.len() < 16 {
        return Err("no batch".into());
    }
    stamp(&mut bytes, base);
    Ok(bytes)
}

/// A partition's file with two batches, of which the second does not go on from the first.
fn partition_file(alloc: Global) -> Result<Vec<u8>, Fail> {
    let header = SegmentHeader::for_partition(alloc, "a", 258, 3, 7)?.ok_or("no header")?;
    let mut bytes = header.to_bytes(alloc)?;
    bytes.extend_from_slice(&batch(alloc, 7, 2)?)?;
    bytes.extend_from_slice(&batch(alloc, 40, 1)?)?;
    Ok(bytes)
}

/// A partition's file in version 1 with a batch and the front of another one.
fn cut_file(alloc: Global) -> Result<Vec<u8>, Fail> {
    let mut bytes = hex::decode(alloc, FIRST.as_bytes())?;
    bytes.extend_from_slice(&batch(alloc, -9, 1)?)?;
    bytes.extend_from_slice(&batch(alloc, 1, 1)?)?;
    bytes.truncate(35 + 70 + 69);
    Ok(bytes)
}

/// The header of a catalog's first generation.
fn first_catalog(alloc: Global) -> Result<Vec<u8>, Fail> {
    let header = SegmentHeader::for_catalog(alloc, "a", 0, 0)?.ok_or("no header")?;
    Ok(header.to_bytes(alloc)?)
}

/// The header of a later one, and a byte behind it.
fn later_catalog(alloc: Global) -> Result<Vec<u8>, Fail> {
    let mut bytes = hex::decode(alloc, CATALOG.as_bytes())?;
    bytes.push(0)?;
    Ok(bytes)
}

/// Makes the next file, with these bytes.
fn put<S: Store>(shelf: &mut Shelf<S>, bytes: &[u8]) -> Result<(), Fail> {
    let file = shelf.create()?;
    shelf.append(file, bytes)?;
    Ok(())
}

/// A store of six files.
fn filled(alloc: Global) -> Result<MemoryStore, Fail> {
    let Ok(mut shelf) = Shelf::new(alloc, MemoryStore::new(alloc), 0) else {
        return Err("no shelf".into());
    };
    put(&mut shelf, &partition_file(alloc)?)?;
    put(&mut shelf, &first_catalog(alloc)?)?;
    put(&mut shelf, &later_catalog(alloc)?)?;
    put(&mut shelf, b"KBSG")?;
    put(&mut shelf, &cut_file(alloc)?)?;
    put(&mut shelf, b"")?;
    Ok(shelf.into_store())
}

#[test]
fn each_file_is_printed(rt: HostRuntime) -> Result<(), Fail> {
    let mut store = filled(rt.alloc())?;
    let mut text = Vec::new(rt.alloc());
    dump(rt.alloc(), &mut store, &mut text)?;
    assert!(rt; text.as_slice() == TEXT.as_bytes());
    Ok(())
}
