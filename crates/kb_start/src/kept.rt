//! What is kept of files before a start drops it.

ghost use Rattle.std.specs.Prelude.{◌≡◌, ◌++◌, [], ◌∷◌, true, List, Bool, option_copied, IfOk, OnOk};
ghost use Rattle.std.specs.FinMap.{keys};
ghost use Rattle.kb_store.specs.Disk.{Keeps};
ghost use Rattle.kb_start.specs.Kept.{are_of_one, is_lost, is_one_kind, is_one_log, is_one_partition, part, dropped_part, parts_of, Part};

use crate::left::Left;
use crate::losses::{Loss, Opened};
use kb_segment::SegmentHeader;
use kb_store::{Store, StoreFault};
use kb_survey::{header_among, tail_among};
use std::alloc::Global;

/// Why parts of files are not kept.
#[derive(Clone, Copy, Debug, PartialEq, Eq)]
pub enum KeepFault {
    /// The store that they are read from.
    Store(StoreFault),
    /// The keeper refused one.
    Keeper,
}

impl From<StoreFault> for KeepFault {
    fn from(e: StoreFault) -> KeepFault {
        KeepFault::Store(e)
    }
}

/// A keeper refused what it was to keep.
#[derive(Clone, Copy, Debug, PartialEq, Eq)]
pub struct KeeperRefused;

impl From<KeeperRefused> for KeepFault {
    fn from(_e: KeeperRefused) -> KeepFault {
        KeepFault::Keeper
    }
}

/// What keeps parts of files, beside the store that they are dropped from.
pub trait Keeper {
    /// Whether it gives back what it was given.
    ghost is_honest: { Self → Bool };
    /// The parts that it keeps.
    ghost kept: { Self → List Part };

    /// Keeps the bytes of a file from a place on.
    fn keep(&mut self, file: u64, place: u64, bytes: &[u8]) -> Result<(), KeeperRefused>
        ensures kept { OnOk result (is_honest self.new ≡ true → kept self.new ≡ kept self.old ++ part file place bytes.now ∷ []) }
        ensures honest { is_honest self.new ≡ true → is_honest self.old ≡ true };
}

/// Keeps what an opening drops of the logs that it would lose whole batches of, and of those files that lose a damaged one: of each file
/// the bytes from the first one that is dropped to the end. The store is only read.
pub fn keep_dropped<S: Store, K: Keeper>(
    alloc: Global,
    store: &mut S,
    opened: &Opened<'_>,
    losses: &[Loss],
    damaged: &[u64],
    keeper: &mut K,
) -> Result<(), KeepFault>
    ensures kept { IfOk result (λ _. (S.disk store.new).honest → K.is_honest keeper.new ≡ true
        → K.kept keeper.new ≡ K.kept keeper.old ++ parts_of losses.now damaged.now (S.disk store.old) opened.now.files.now) }
    ensures unchanged { Keeps (S.disk store.old) (S.disk store.new) }
{
    let listed = store.list(alloc)?;
    keep_files(alloc, store, &listed, opened.files, losses, damaged, keeper)?;
    Ok(())
}

/// The same of some files.
fn keep_files<S: Store, K: Keeper>(
    alloc: Global,
    store: &mut S,
    listed: &[u64],
    files: &[Left],
    losses: &[Loss],
    damaged: &[u64],
    keeper: &mut K,
) -> Result<(), KeepFault>
    requires { listed.now ≡ keys (S.disk store.old).table }
    ensures kept { IfOk result (λ _. (S.disk store.new).honest → K.is_honest keeper.new ≡ true
        → K.kept keeper.new ≡ K.kept keeper.old ++ parts_of losses.now damaged.now (S.disk store.old) files.now) }
    ensures unchanged { Keeps (S.disk store.old) (S.disk store.new) }
{
    for file in files {
        keep_file(alloc, store, listed, file, losses, damaged, keeper)?;
    }
    Ok(())
}

/// The same of a file.
fn keep_file<S: Store, K: Keeper>(
    alloc: Global,
    store: &mut S,
    listed: &[u64],
    file: &Left,
    losses: &[Loss],
    damaged: &[u64],
    keeper: &mut K,
) -> Result<(), KeepFault>
    requires { listed.now ≡ keys (S.disk store.old).table }
    ensures kept { IfOk result (λ _. (S.disk store.new).honest → K.is_honest keeper.new ≡ true
        → K.kept keeper.new ≡ K.kept keeper.old ++ dropped_part losses.now damaged.now (S.disk store.old) file.now) }
    ensures honest { K.is_honest keeper.new ≡ true → K.is_honest keeper.old ≡ true }
    ensures unchanged { Keeps (S.disk store.old) (S.disk store.new) }
{
    if !file.is_dropped() {
        return Ok(());
    }
    let header = header_among(alloc, store, listed, file.file)?;
    if !is_lost(losses, header.as_ref()) && !damaged.contains(&file.file) {
        return Ok(());
    }
    let place = file.after.unwrap_or(0);
    let bytes = tail_among(alloc, store, listed, file.file, place)?;
    keeper.keep(file.file, place, &bytes)?;
    Ok(())
}

/// Whether a header is of a log of which some losses are.
fn is_lost(losses: &[Loss], header: Option<&SegmentHeader>) -> bool
    ensures { result ≡ is_lost losses.now (option_copied header.entry) }
{
    for loss in losses {
        if are_of_one(loss.header.as_ref(), header) {
            return true;
        }
    }
    false
}

/// Whether two headers are there, and of one log.
fn are_of_one(one: Option<&SegmentHeader>, other: Option<&SegmentHeader>) -> bool
    ensures { result ≡ are_of_one (option_copied one.entry) (option_copied other.entry) }
{
    match (one, other) {
        (Some(one), Some(other)) => is_one_log(one, other),
        _ => false,
    }
}

/// Whether two headers are of one log.
fn is_one_log(one: &SegmentHeader, other: &SegmentHeader) -> bool
    ensures { result ≡ is_one_log one.now other.now }
{
    one.tenant() == other.tenant() && is_one_kind(one, other) && is_one_partition(one, other)
}

/// Whether two headers are of one kind and generation.
fn is_one_kind(one: &SegmentHeader, other: &SegmentHeader) -> bool
    ensures { result ≡ is_one_kind one.now other.now }
{
    one.kind() == other.kind() && one.generation() == other.generation()
}

/// Whether two headers are of one instance and partition.
fn is_one_partition(one: &SegmentHeader, other: &SegmentHeader) -> bool
    ensures { result ≡ is_one_partition one.now other.now }
{
    one.instance() == other.instance() && one.partition() == other.partition()
}
