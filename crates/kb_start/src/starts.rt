//! The starts of partitions that catalogs record.

ghost use Rattle.std.specs.Prelude.{◌≡◌, ◌≤◌, ◌<◌, ◌++◌, [], ◌∷◌, List, length, drop, map, option_copied, if◌then◌else◌, IfOk};
ghost use Rattle.std.specs.FinMap.{keys};
ghost use Rattle.kb_store.specs.Disk.{HasCause, Keeps};
ghost use Rattle.kb_survey.specs.Whole.{batches_among};
ghost use Rattle.kb_topics.specs.declared.command.MoveStart.{MoveStart};
ghost use Rattle.kb_start.specs.Starts.{batches_at, batches_of_files, catalogs_of, greatest_start, header_at, is_any_catalogs, is_catalogs};
ghost use Rattle.kb_start.specs.Starts.{start_among, start_of, starts_named};
ghost use Rattle.kb_start.specs.Starts.{with_start, AreRecorded, RecordsEach};

use kb_batch::BatchView;
use kb_replay::command_in;
use kb_segment::SegmentHeader;
use kb_store::{Store, StoreFault};
use kb_survey::{bytes_among, header_among};
use kb_topics::{Command, MoveStart};
use std::alloc::{AllocError, Global};

/// The starts that the whole batches of each tenant's catalogs record, of whichever of its partitions, in order.
pub fn recorded_starts<S: Store>(
    alloc: Global,
    store: &mut S,
    tenants: &[&str],
) -> Result<Vec<Vec<MoveStart>>, StoreFault>
    ensures starts { IfOk result (λ starts. (S.disk store.new).honest
        → AreRecorded (S.disk store.old) (map (λ name. name.now) tenants.now) (map (λ of. of.items) starts.items)) }
    ensures unchanged { Keeps (S.disk store.old) (S.disk store.new) }
    ensures cause { HasCause (S.disk store.old) result (S.disk store.new) }
{
    let listed = store.list(alloc)?;
    let catalogs = catalogs_among(alloc, store, &listed)?;
    let starts = starts_among(alloc, store, &listed, &catalogs, tenants)?;
    Ok(starts)
}

/// Those of catalogs, of the numbers of all files that are there.
fn catalogs_among<S: Store>(
    alloc: Global,
    store: &mut S,
    listed: &[u64],
) -> Result<Vec<u64>, StoreFault>
    requires { listed.now ≡ keys (S.disk store.old).table }
    ensures catalogs { IfOk result (λ found. (S.disk store.new).honest → found.items ≡ catalogs_of (S.disk store.old) listed.now) }
    ensures unchanged { Keeps (S.disk store.old) (S.disk store.new) }
    ensures cause { HasCause (S.disk store.old) result (S.disk store.new) }
{
    let mut catalogs = Vec::new(alloc);
    for file in listed {
        add_catalog(alloc, store, listed, *file, &mut catalogs)?;
    }
    Ok(catalogs)
}

/// Adds a file, where it is of a catalog.
fn add_catalog<S: Store>(
    alloc: Global,
    store: &mut S,
    listed: &[u64],
    file: u64,
    catalogs: &mut Vec<u64>,
) -> Result<(), StoreFault>
    requires { listed.now ≡ keys (S.disk store.old).table }
    ensures catalogs { IfOk result (λ _. (S.disk store.new).honest → catalogs.new.items
        ≡ (if is_any_catalogs (header_at (S.disk store.old) file) then catalogs.old.items ++ file ∷ [] else catalogs.old.items)) }
    ensures unchanged { Keeps (S.disk store.old) (S.disk store.new) }
    ensures cause { HasCause (S.disk store.old) result (S.disk store.new) }
{
    if let Some(header) = header_among(alloc, store, listed, file)?
        && header.kind() == 1
    {
        catalogs.push(file)?;
    }
    Ok(())
}

/// The starts that the whole batches of each tenant's catalogs record, by the files of all catalogs.
fn starts_among<S: Store>(
    alloc: Global,
    store: &mut S,
    listed: &[u64],
    catalogs: &[u64],
    tenants: &[&str],
) -> Result<Vec<Vec<MoveStart>>, StoreFault>
    requires { listed.now ≡ keys (S.disk store.old).table }
    ensures starts { IfOk result (λ starts. (S.disk store.new).honest → catalogs.now ≡ catalogs_of (S.disk store.old) listed.now
        → AreRecorded (S.disk store.old) (map (λ name. name.now) tenants.now) (map (λ of. of.items) starts.items)) }
    ensures unchanged { Keeps (S.disk store.old) (S.disk store.new) }
    ensures cause { HasCause (S.disk store.old) result (S.disk store.new) }
{
    let mut starts = Vec::new(alloc);
    for tenant in tenants {
        starts.push(starts_of(alloc, store, listed, catalogs, *tenant)?)?;
    }
    Ok(starts)
}

/// The starts that the whole batches of some files record, as far as they are of a tenant's catalog.
fn starts_of<S: Store>(
    alloc: Global,
    store: &mut S,
    listed: &[u64],
    files: &[u64],
    tenant: &str,
) -> Result<Vec<MoveStart>, StoreFault>
    requires { listed.now ≡ keys (S.disk store.old).table }
    ensures starts { IfOk result (λ starts. (S.disk store.new).honest
        → RecordsEach (batches_of_files (S.disk store.old) tenant.now files.now) [] starts.items) }
    ensures unchanged { Keeps (S.disk store.old) (S.disk store.new) }
    ensures cause { HasCause (S.disk store.old) result (S.disk store.new) }
{
    let mut starts = Vec::new(alloc);
    for file in files {
        add_starts_at(alloc, store, listed, tenant, *file, &mut starts)?;
    }
    Ok(starts)
}

/// Adds the starts that a file's whole batches record, if it is of a tenant's catalog.
fn add_starts_at<S: Store>(
    alloc: Global,
    store: &mut S,
    listed: &[u64],
    tenant: &str,
    file: u64,
    starts: &mut Vec<MoveStart>,
) -> Result<(), StoreFault>
    requires { listed.now ≡ keys (S.disk store.old).table }
    ensures starts { IfOk result (λ _. (S.disk store.new).honest
        → RecordsEach (batches_at (S.disk store.old) tenant.now file) starts.old.items starts.new.items) }
    ensures unchanged { Keeps (S.disk store.old) (S.disk store.new) }
    ensures cause { HasCause (S.disk store.old) result (S.disk store.new) }
{
    let header = header_among(alloc, store, listed, file)?;
    if !is_catalogs(tenant, header.as_ref()) {
        return Ok(());
    }
    let bytes = bytes_among(alloc, store, listed, file)?;
    Ok(add_starts(alloc, &bytes, starts)?)
}

/// Whether a header is that of a tenant's catalog.
fn is_catalogs(tenant: &str, header: Option<&SegmentHeader>) -> bool
    ensures { result ≡ is_catalogs tenant.now (option_copied header.entry) }
{
    match header {
        Some(header) => header.tenant() == tenant && header.kind() == 1,
        None => false,
    }
}

/// Adds the starts that the whole batches of some bytes record.
fn add_starts(alloc: Global, bytes: &[u8], starts: &mut Vec<MoveStart>) -> Result<(), AllocError>
    ensures { IfOk result (λ _. RecordsEach (batches_among bytes.now) starts.old.items starts.new.items) }
{
    let mut rest = bytes;
    while !rest.is_empty() {
        let size = add_first(alloc, rest, starts)?;
        rest = &rest[size..];
    }
    Ok(())
}

/// Adds the start that the batch in front records, and answers how many bytes that batch has; 1 where none stands.
#[tactic(auto, using(crate::proofs::Recorded::recorded_none, crate::proofs::Recorded::recorded_some))]
fn add_first(alloc: Global, bytes: &[u8], starts: &mut Vec<MoveStart>) -> Result<usize, AllocError>
    requires { 0 < length bytes.now }
    ensures some { IfOk result (λ size. 1 ≤ size) }
    ensures within { IfOk result (λ size. size ≤ length bytes.now) }
    ensures starts { IfOk result (λ size. (after : List MoveStart)
        → RecordsEach (batches_among (drop size bytes.now)) starts.new.items after
        → RecordsEach (batches_among bytes.now) starts.old.items after) }
{
    let Some(batch) = BatchView::in_front(bytes) else {
        return Ok(1);
    };
    let command = command_in(alloc, &batch)?;
    add_start(command, starts)?;
    Ok(batch.size())
}

/// Adds the start that a command moves a partition to, where it moves one.
fn add_start(command: Option<Command<'_>>, starts: &mut Vec<MoveStart>) -> Result<(), AllocError>
    ensures { IfOk result (λ _. starts.new.items ≡ with_start starts.old.items command.entry) }
{
    if let Some(Command::Start(start)) = command {
        starts.push(start)?;
    }
    Ok(())
}

/// The start that is recorded of a file's partition, by the starts of tenants of those names; 0 where none is, or it is of none.
pub(crate) fn start_of(
    names: &[&str],
    starts: &[Vec<MoveStart>],
    header: Option<&SegmentHeader>,
) -> u64
    ensures { result ≡ start_of (map (λ name. name.now) names.now) (map (λ of. of.items) starts.now)
        (option_copied header.entry) }
{
    match header {
        Some(header) if header.kind() == 0 => {
            let known = starts_named(header.tenant(), names, starts);
            greatest_start(known, header.instance(), header.partition())
        }
        _ => 0,
    }
}

/// The starts of the tenant of a name; none where it is none of those.
fn starts_named<'a>(name: &str, names: &[&str], starts: &'a [Vec<MoveStart>]) -> &'a [MoveStart]
    ensures { result.now ≡ starts_named name.now (map (λ name. name.now) names.now) (map (λ of. of.items) starts.now) }
{
    let (Some((other, names_behind)), Some((of, behind))) = (
        names.split_first(),
        starts.split_first(),
    ) else {
        return &[];
    };
    if *other == name {
        return of;
    }
    starts_named(name, names_behind, behind)
}

/// The greatest of some starts that is of a partition; 0 where none is.
fn greatest_start(starts: &[MoveStart], instance: i64, partition: i32) -> u64
    ensures { result ≡ greatest_start instance partition starts.now }
{
    let mut greatest = 0;
    for start in starts {
        greatest = start_among(greatest, start, instance, partition);
    }
    greatest
}

/// The greater of a start and a recorded one, where that is of a partition.
fn start_among(greatest: u64, start: &MoveStart, instance: i64, partition: i32) -> u64
    ensures { result ≡ start_among instance partition greatest start.now }
{
    if start.instance == instance && start.partition == partition {
        greatest.max(start.offset.max(0) as u64)
    } else {
        greatest
    }
}
