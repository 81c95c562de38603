//! Files of topics that are deleted, by their tenants' catalogs.

ghost use Rattle.std.specs.Prelude.{◌≡◌, ◌==◌, ◌++◌, ◌∷◌, [], not, length, if◌then◌else◌, option_copied, IfOk, OnOk, OnErr};
ghost use Rattle.std.specs.FinMap.{keys};
ghost use Rattle.std.specs.List.{filter};
ghost use Rattle.kb_store.specs.Disk.{HasCause, Keeps, Removes};
ghost use Rattle.kb_start.specs.Deleted.{any_deleted, deleted_among, is_deleted, was_deleted, DeletesFirst, LeavesBehind};
ghost use Rattle.kb_start.specs.Starts.{header_at};

use crate::losses::count;
use kb_log::PartitionLog;
use kb_segment::SegmentHeader;
use kb_store::{Store, StoreFault};
use kb_survey::header_among;
use kb_topics::Catalog;
use std::alloc::Global;
use std::collections::BTreeMap;

/// A tenant and its catalog.
#[derive(Drop)]
pub struct CatalogOf<'a, L: PartitionLog> {
    pub tenant: &'a str,
    pub catalog: &'a Catalog<L>,
}

/// Files of deleted topics.
#[derive(Drop)]
pub struct Deleted {
    pub files: Vec<u64>,
    /// How many are of each tenant.
    pub by_tenant: BTreeMap<String, u64>,
}

/// Those of some files that are of deleted topics. The store is only read.
///
/// A topic is deleted whose number its tenant's catalog gave out, and that is not there. A number that was not given out yet may be that of
/// a topic which an older catalog does not know: its files are none of these.
pub fn deleted_files<S: Store, L: PartitionLog>(
    alloc: Global,
    store: &mut S,
    catalogs: &[CatalogOf<'_, L>],
    files: &[u64],
) -> Result<Deleted, StoreFault>
    ensures files { IfOk result (λ deleted. (S.disk store.new).honest
        → deleted.files.items ≡ deleted_among catalogs.now (S.disk store.old) files.now) }
    ensures unchanged { Keeps (S.disk store.old) (S.disk store.new) }
    ensures cause { HasCause (S.disk store.old) result (S.disk store.new) }
{
    let listed = store.list(alloc)?;
    let mut deleted = Deleted {
        files: Vec::new(alloc),
        by_tenant: BTreeMap::new(alloc),
    };
    add_deleted(alloc, store, &listed, catalogs, files, &mut deleted)?;
    Ok(deleted)
}

/// Adds those of some files that are of deleted topics.
fn add_deleted<S: Store, L: PartitionLog>(
    alloc: Global,
    store: &mut S,
    listed: &[u64],
    catalogs: &[CatalogOf<'_, L>],
    files: &[u64],
    deleted: &mut Deleted,
) -> Result<(), StoreFault>
    requires { listed.now ≡ keys (S.disk store.old).table }
    ensures files { IfOk result (λ _. (S.disk store.new).honest
        → deleted.new.files.items ≡ deleted.old.files.items ++ deleted_among catalogs.now (S.disk store.old) files.now) }
    ensures unchanged { Keeps (S.disk store.old) (S.disk store.new) }
    ensures cause { HasCause (S.disk store.old) result (S.disk store.new) }
{
    for file in files {
        add_file(alloc, store, listed, catalogs, *file, deleted)?;
    }
    Ok(())
}

/// Adds a file, where it is of a deleted topic.
fn add_file<S: Store, L: PartitionLog>(
    alloc: Global,
    store: &mut S,
    listed: &[u64],
    catalogs: &[CatalogOf<'_, L>],
    file: u64,
    deleted: &mut Deleted,
) -> Result<(), StoreFault>
    requires { listed.now ≡ keys (S.disk store.old).table }
    ensures files { IfOk result (λ _. (S.disk store.new).honest → deleted.new.files.items
        ≡ (if is_deleted catalogs.now (header_at (S.disk store.old) file) then deleted.old.files.items ++ file ∷ []
        else deleted.old.files.items)) }
    ensures unchanged { Keeps (S.disk store.old) (S.disk store.new) }
    ensures cause { HasCause (S.disk store.old) result (S.disk store.new) }
{
    let header = header_among(alloc, store, listed, file)?;
    if !is_deleted(catalogs, header.as_ref()) {
        return Ok(());
    }
    if let Some(header) = &header {
        count(alloc, &mut deleted.by_tenant, header.tenant())?;
    }
    deleted.files.push(file)?;
    Ok(())
}

/// Whether a header is that of a file of a deleted topic.
fn is_deleted<L: PartitionLog>(
    catalogs: &[CatalogOf<'_, L>],
    header: Option<&SegmentHeader>,
) -> bool
    ensures { result ≡ is_deleted catalogs.now (option_copied header.entry) }
{
    match header {
        Some(header) => header.kind() == 0 && any_deleted(catalogs, header),
        None => false,
    }
}

/// Whether a partition's header is that of a topic which one of some tenants deleted.
fn any_deleted<L: PartitionLog>(catalogs: &[CatalogOf<'_, L>], header: &SegmentHeader) -> bool
    ensures { result ≡ any_deleted catalogs.now header.now }
{
    for of in catalogs {
        if was_deleted(of, header) {
            return true;
        }
    }
    false
}

/// Whether a partition's header is that of a topic which a tenant deleted.
fn was_deleted<L: PartitionLog>(of: &CatalogOf<'_, L>, header: &SegmentHeader) -> bool
    ensures { result ≡ was_deleted of.now header.now }
{
    let number = header.instance().max(0) as u64;
    of.tenant == header.tenant()
        && number < of.catalog.next_instance()
        && of.catalog.topic(number).is_none()
}

/// Removes files, as far as they are there, the first one first. After a refusal some first ones may be gone.
pub fn remove_files<S: Store>(alloc: Global, store: &mut S, files: &[u64]) -> Result<(), StoreFault>
    ensures removed { OnOk result (DeletesFirst (length files.now) files.now (S.disk store.old) (S.disk store.new)) }
    ensures refused { OnErr result (LeavesBehind files.now (S.disk store.old) (S.disk store.new)) }
    ensures cause { HasCause (S.disk store.old) result (S.disk store.new) }
{
    let mut listed = store.list(alloc)?;
    for file in files {
        remove_file(store, &mut listed, *file)?;
    }
    Ok(())
}

/// Removes a file, where it is there, by the numbers of all that are.
fn remove_file<S: Store>(store: &mut S, listed: &mut Vec<u64>, file: u64) -> Result<(), StoreFault>
    requires { listed.old.items ≡ keys (S.disk store.old).table }
    ensures listed { OnOk result (listed.new.items ≡ keys (S.disk store.new).table) }
    ensures removed { OnOk result (Removes (S.disk store.old) file (S.disk store.new)) }
    ensures refused { OnErr result (Keeps (S.disk store.old) (S.disk store.new)) }
    ensures cause { HasCause (S.disk store.old) result (S.disk store.new) }
{
    if !listed.contains(&file) {
        return Ok(());
    }
    store.remove(file)?;
    leave_out(listed, file);
    Ok(())
}

/// Takes a number out of some.
fn leave_out(numbers: &mut Vec<u64>, file: u64)
    ensures { numbers.new.items ≡ filter (λ n. not (file == n)) numbers.old.items }
{
    numbers.retain(|number| file != *number);
}
