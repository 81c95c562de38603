//! Which generations of catalogs are in use, and what stands beside them.

ghost use Rattle.std.specs.Prelude.{◌≡◌, ◌++◌, option_copied, IfOk};
ghost use Rattle.std.specs.FinMap.{keys};
ghost use Rattle.kb_store.specs.Disk.{HasCause, Keeps};
ghost use Rattle.kb_batch.specs.Batch.{natural};
ghost use Rattle.kb_start.specs.Starts.{header_at};
ghost use Rattle.kb_start.specs.Survey.{begins, begins_catalog, catalog_at, catalogs_in_use, copied_to, end_behind, has_lower};
ghost use Rattle.kb_start.specs.Survey.{is_below, is_of_same, is_superseded, supersede, supersedes};

use crate::left::Left;
use kb_segment::SegmentHeader;
use kb_store::{Store, StoreFault};
use kb_survey::{header_among, snapshot_end_among};
use std::alloc::Global;

/// What the headers say of the catalogs' files that an opening leaves, and that are no strays.
pub(crate) fn catalogs_in_use<S: Store>(
    alloc: Global,
    store: &mut S,
    listed: &[u64],
    strays: &[u64],
    files: &[Left],
) -> Result<Vec<SegmentHeader>, StoreFault>
    requires { listed.now ≡ keys (S.disk store.old).table }
    ensures catalogs { IfOk result (λ found. (S.disk store.new).honest
        → found.items ≡ catalogs_in_use (S.disk store.old) strays.now files.now) }
    ensures unchanged { Keeps (S.disk store.old) (S.disk store.new) }
    ensures cause { HasCause (S.disk store.old) result (S.disk store.new) }
{
    let mut found = Vec::new(alloc);
    for file in files {
        add_catalog(alloc, store, listed, strays, file, &mut found)?;
    }
    Ok(found)
}

/// Adds what the header of a file says, where that is one of these.
fn add_catalog<S: Store>(
    alloc: Global,
    store: &mut S,
    listed: &[u64],
    strays: &[u64],
    file: &Left,
    found: &mut Vec<SegmentHeader>,
) -> Result<(), StoreFault>
    requires { listed.now ≡ keys (S.disk store.old).table }
    ensures catalogs { IfOk result (λ _. (S.disk store.new).honest
        → found.new.items ≡ found.old.items ++ catalog_at (S.disk store.old) strays.now file.now) }
    ensures unchanged { Keeps (S.disk store.old) (S.disk store.new) }
    ensures cause { HasCause (S.disk store.old) result (S.disk store.new) }
{
    if file.after.is_none() {
        return Ok(());
    }
    if let Some(header) = header_among(alloc, store, listed, file.file)?
        && header.kind() == 1
        && !strays.contains(&file.file)
    {
        found.push(header)?;
    }
    Ok(())
}

/// Whether a header is that of a catalog's file of which one of these has a greater generation.
pub(crate) fn is_superseded(used: &[SegmentHeader], header: Option<&SegmentHeader>) -> bool
    ensures { result ≡ is_superseded used.now (option_copied header.entry) }
{
    match header {
        Some(header) => header.kind() == 1 && supersede(used, header),
        None => false,
    }
}

/// Whether one of these is of a greater generation of the same tenant's catalog.
fn supersede(used: &[SegmentHeader], header: &SegmentHeader) -> bool
    ensures { result ≡ supersede used.now header.now }
{
    for other in used {
        if supersedes(other, header) {
            return true;
        }
    }
    false
}

/// Whether a generation of a catalog is greater than one of the same tenant's.
fn supersedes(other: &SegmentHeader, header: &SegmentHeader) -> bool
    ensures { result ≡ supersedes other.now header.now }
{
    other.tenant() == header.tenant()
        && (header.generation().max(0) as u64) < other.generation().max(0) as u64
}

/// Up to which offset a file of a generation that is not in use says again what the catalog in use says: so far its snapshot reaches,
/// where a lower generation is in use.
pub(crate) fn copied_to<S: Store>(
    alloc: Global,
    store: &mut S,
    listed: &[u64],
    used: &[SegmentHeader],
    file: u64,
) -> Result<u64, StoreFault>
    requires { listed.now ≡ keys (S.disk store.old).table }
    ensures end { IfOk result (λ end. (S.disk store.new).honest
        → end ≡ copied_to used.now (S.disk store.old) (header_at (S.disk store.old) file)) }
    ensures unchanged { Keeps (S.disk store.old) (S.disk store.new) }
    ensures cause { HasCause (S.disk store.old) result (S.disk store.new) }
{
    match header_among(alloc, store, listed, file)? {
        Some(header) if has_lower(used, &header) => snapshot_end(alloc, store, listed, &header),
        _ => Ok(0),
    }
}

/// How far the snapshot of a generation reaches. It begins with the file of the generation's number.
fn snapshot_end<S: Store>(
    alloc: Global,
    store: &mut S,
    listed: &[u64],
    header: &SegmentHeader,
) -> Result<u64, StoreFault>
    requires { listed.now ≡ keys (S.disk store.old).table }
    ensures end { IfOk result (λ end. (S.disk store.new).honest
        → end ≡ end_behind (S.disk store.old) header.now (header_at (S.disk store.old) (natural header.now.generation))) }
    ensures unchanged { Keeps (S.disk store.old) (S.disk store.new) }
    ensures cause { HasCause (S.disk store.old) result (S.disk store.new) }
{
    let file = first_file(header);
    match header_among(alloc, store, listed, file)? {
        Some(first) if begins(header, &first) => {
            snapshot_end_among(alloc, store, listed, file, first.size())
        }
        _ => Ok(0),
    }
}

/// The number of the file that a generation begins with.
fn first_file(header: &SegmentHeader) -> u64
    ensures { result ≡ natural header.now.generation }
{
    header.generation().max(0) as u64
}

/// Whether a header is that of the first file of the generation that another is of.
fn begins(header: &SegmentHeader, first: &SegmentHeader) -> bool
    ensures { result ≡ begins header.now first.now }
{
    begins_catalog(first) && is_of_same(header, first)
}

/// Whether a header is that of the first file of a catalog's generation.
fn begins_catalog(header: &SegmentHeader) -> bool
    ensures { result ≡ begins_catalog header.now }
{
    header.kind() == 1 && header.base() == 0
}

/// Whether two headers are of one generation of a tenant's catalog, if they are of catalogs.
fn is_of_same(header: &SegmentHeader, other: &SegmentHeader) -> bool
    ensures { result ≡ is_of_same header.now other.now }
{
    other.tenant() == header.tenant() && first_file(other) == first_file(header)
}

/// Whether one of these is of the first file of a lower generation of the same tenant's catalog.
fn has_lower(used: &[SegmentHeader], header: &SegmentHeader) -> bool
    ensures { result ≡ has_lower used.now header.now }
{
    for other in used {
        if is_below(header, other) {
            return true;
        }
    }
    false
}

/// Whether a header is that of the first file of a lower generation of the same tenant's catalog.
fn is_below(header: &SegmentHeader, other: &SegmentHeader) -> bool
    ensures { result ≡ is_below header.now other.now }
{
    begins_catalog(other) && supersedes(header, other)
}
