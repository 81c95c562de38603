//! Headers of segment files as bytes.
ghost use Rattle.std.specs.Prelude.{◌≡◌, ◌<◌, None, length};
ghost use Rattle.std.specs.FinMap as map;

use kb_segment::{SegmentHeader, read_header};
use kb_store::{MemoryStore, Store, StoreFault};
use std::alloc::Global;
use std::test::Fail;

/// Version 1, tenant `a`, partition 0 of instance 0, base 0.
pub(crate) const FIRST: &str =
    "4b425347000100000000000000000000000000000000000000000000000161ebf66c4c";
/// Version 2, a catalog of tenant `a`, base 5, generation 3.
pub(crate) const CATALOG: &str =
    "4b42534700020001000000000000000500000000000000000000000000016100000000000000035dee35a8";
/// Version 2, a partition of tenant `a`.
const PARTITION: &str =
    "4b42534700020000000000000000000000000000000000000000000000016100000000000000002bb033c3";
/// The same with a generation, which no partition has.
const GENERATION: &str =
    "4b4253470002000000000000000000000000000000000000000000000001610000000000000001d9dbb0c0";

/// The header of a file of those bytes.
#[tactic(auto, using(kb_store::proofs::Disks::is_there_put, kb_store::proofs::Disks::is_there_grown))]
fn header_in<S: Store>(
    alloc: Global,
    store: &mut S,
    file: u64,
    bytes: &[u8],
) -> Result<Option<SegmentHeader>, StoreFault>
    requires { map.get (S.disk store.old).table file ≡ None }
{
    store.create(file)?;
    store.append(file, bytes)?;
    read_header(alloc, store, file)
}

/// The header that some bytes begin with.
#[tactic(auto, using(kb_store::proofs::Disks::none_in_empty))]
fn header_of(alloc: Global, bytes: &[u8]) -> Result<Option<SegmentHeader>, StoreFault> {
    let mut store = MemoryStore::new(alloc);
    header_in(alloc, &mut store, 7, bytes)
}

/// Whether a header says this, behind the tenant `a`.
fn says(header: &SegmentHeader, kind: i16, base: i64, generation: i64, size: u64) -> bool {
    header.tenant() == "a"
        && header.kind() == kind
        && header.instance() == 0
        && header.partition() == 0
        && header.base() == base
        && header.generation() == generation
        && header.size() == size
}

#[test]
fn headers_of_both_versions(rt: HostRuntime) -> Result<(), Fail> {
    for (text, kind, base, generation, size) in [
        (FIRST, 0i16, 0i64, 0i64, 35u64),
        (CATALOG, 1, 5, 3, 43),
        (PARTITION, 0, 0, 0, 43),
    ] {
        let bytes = hex::decode(rt.alloc(), text.as_bytes())?;
        let header = header_of(rt.alloc(), &bytes)?.ok_or("no header")?;
        assert!(rt; says(&header, kind, base, generation, size));
    }
    let bytes = hex::decode(rt.alloc(), GENERATION.as_bytes())?;
    assert!(rt; header_of(rt.alloc(), &bytes)?.is_none());
    Ok(())
}

/// The header of a file of those bytes, one of them changed.
fn header_changed(
    alloc: Global,
    bytes: &[u8],
    place: usize,
) -> Result<Option<SegmentHeader>, StoreFault>
    requires { place < length bytes.now }
{
    let mut changed = Vec::from_slice(alloc, bytes)?;
    changed[place] ^= 1;
    header_of(alloc, &changed)
}

#[test]
fn each_byte_of_a_header_counts(rt: HostRuntime) -> Result<(), Fail> {
    for text in [FIRST, CATALOG] {
        let bytes = hex::decode(rt.alloc(), text.as_bytes())?;
        for place in 0..bytes.len() {
            assert!(rt; header_of(rt.alloc(), &bytes[..place])?.is_none());
            assert!(rt; header_changed(rt.alloc(), &bytes, place)?.is_none());
        }
    }
    Ok(())
}
