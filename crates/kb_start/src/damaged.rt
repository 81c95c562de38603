//! Files of which an opening drops an end that may be of a damaged batch.

ghost use Rattle.std.specs.Prelude.{◌≡◌, ◌++◌, ◌∷◌, [], Some, IfOk, if◌then◌else◌};
ghost use Rattle.std.specs.FinMap.{keys};
ghost use Rattle.kb_store.specs.Disk.{HasCause, Keeps};
ghost use Rattle.kb_batch.specs.Batch.{natural};
ghost use Rattle.kb_start.specs.Damaged.{damaged_among, damaged_files, has_damaged_end, is_end_damaged, lost_end};
ghost use Rattle.kb_survey.specs.Ending.{is_damaged};

use crate::generations::{catalogs_in_use, is_superseded};
use crate::left::{Left, any_dropped};
use crate::losses::Opened;
use kb_segment::SegmentHeader;
use kb_store::{Store, StoreFault};
use kb_survey::{behind_run, header_among, is_damaged, tail_among};
use std::alloc::Global;

/// Those of an opening's files that lose an end which may be of a damaged batch: it is not what a write leaves that stopped, and no
/// snapshot took its place. The store is only read.
///
/// The batch may have been acknowledged. Where whole batches are behind it the file is a loss, too.
pub fn damaged_files<S: Store>(
    alloc: Global,
    store: &mut S,
    opened: &Opened<'_>,
) -> Result<Vec<u64>, StoreFault>
    ensures files { IfOk result (λ files. (S.disk store.new).honest → files.items ≡ damaged_files opened.now (S.disk store.old)) }
    ensures unchanged { Keeps (S.disk store.old) (S.disk store.new) }
    ensures cause { HasCause (S.disk store.old) result (S.disk store.new) }
{
    if any_dropped(opened.files) {
        return look_for_damaged(alloc, store, opened);
    }
    Ok(Vec::new(alloc))
}

/// The same where a file loses something.
fn look_for_damaged<S: Store>(
    alloc: Global,
    store: &mut S,
    opened: &Opened<'_>,
) -> Result<Vec<u64>, StoreFault>
    ensures files { IfOk result (λ files. (S.disk store.new).honest → files.items ≡ damaged_files opened.now (S.disk store.old)) }
    ensures unchanged { Keeps (S.disk store.old) (S.disk store.new) }
    ensures cause { HasCause (S.disk store.old) result (S.disk store.new) }
{
    let listed = store.list(alloc)?;
    let used = catalogs_in_use(alloc, store, &listed, opened.strays, opened.files)?;
    let files = damaged_among(alloc, store, &listed, &used, opened.files)?;
    Ok(files)
}

/// The same of some files, by the headers of the catalogs that are in use.
fn damaged_among<S: Store>(
    alloc: Global,
    store: &mut S,
    listed: &[u64],
    used: &[SegmentHeader],
    files: &[Left],
) -> Result<Vec<u64>, StoreFault>
    requires { listed.now ≡ keys (S.disk store.old).table }
    ensures files { IfOk result (λ found. (S.disk store.new).honest
        → found.items ≡ damaged_among used.now (S.disk store.old) files.now) }
    ensures unchanged { Keeps (S.disk store.old) (S.disk store.new) }
    ensures cause { HasCause (S.disk store.old) result (S.disk store.new) }
{
    let mut found = Vec::new(alloc);
    for file in files {
        add_damaged(alloc, store, listed, used, file, &mut found)?;
    }
    Ok(found)
}

/// Adds a file, where it is one of these.
fn add_damaged<S: Store>(
    alloc: Global,
    store: &mut S,
    listed: &[u64],
    used: &[SegmentHeader],
    file: &Left,
    found: &mut Vec<u64>,
) -> Result<(), StoreFault>
    requires { listed.now ≡ keys (S.disk store.old).table }
    ensures found { IfOk result (λ _. (S.disk store.new).honest → found.new.items
        ≡ (if has_damaged_end used.now (S.disk store.old) file.now then found.old.items ++ file.now.file ∷ [] else found.old.items)) }
    ensures unchanged { Keeps (S.disk store.old) (S.disk store.new) }
    ensures cause { HasCause (S.disk store.old) result (S.disk store.new) }
{
    if has_damaged_end(alloc, store, listed, used, file)? {
        found.push(file.file)?;
    }
    Ok(())
}

/// Whether a file loses an end that may be of a damaged batch.
fn has_damaged_end<S: Store>(
    alloc: Global,
    store: &mut S,
    listed: &[u64],
    used: &[SegmentHeader],
    file: &Left,
) -> Result<bool, StoreFault>
    requires { listed.now ≡ keys (S.disk store.old).table }
    ensures damaged { IfOk result (λ is. (S.disk store.new).honest → is ≡ has_damaged_end used.now (S.disk store.old) file.now) }
    ensures unchanged { Keeps (S.disk store.old) (S.disk store.new) }
    ensures cause { HasCause (S.disk store.old) result (S.disk store.new) }
{
    if !file.is_dropped() {
        return Ok(false);
    }
    let Some(header) = header_among(alloc, store, listed, file.file)? else {
        return Ok(false);
    };
    if is_superseded(used, Some(&header)) {
        return Ok(false);
    }
    is_end_damaged(alloc, store, listed, file, &header)
}

/// Whether what a file with a header loses may be of a damaged batch.
fn is_end_damaged<S: Store>(
    alloc: Global,
    store: &mut S,
    listed: &[u64],
    file: &Left,
    header: &SegmentHeader,
) -> Result<bool, StoreFault>
    requires { listed.now ≡ keys (S.disk store.old).table }
    ensures damaged { IfOk result (λ is. (S.disk store.new).honest
        → is ≡ is_damaged (lost_end (S.disk store.old) file.now.file file.now.after header.now)) }
    ensures unchanged { Keeps (S.disk store.old) (S.disk store.new) }
    ensures cause { HasCause (S.disk store.old) result (S.disk store.new) }
{
    match file.after {
        Some(place) => {
            let end = tail_among(alloc, store, listed, file.file, place)?;
            Ok(is_damaged(&end))
        }
        None => {
            let bytes = tail_among(alloc, store, listed, file.file, header.size())?;
            Ok(is_damaged(behind_run(&bytes, base_of(header))))
        }
    }
}

/// The offset of a file's first record.
fn base_of(header: &SegmentHeader) -> u64
    ensures { result ≡ natural header.now.base }
{
    header.base().max(0) as u64
}
