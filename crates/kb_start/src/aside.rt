//! Files that a start sets aside: those that are in the way of what is written from now on, and those that would refuse each start.

ghost use Rattle.std.specs.Prelude.{◌≡◌, ◌++◌, ◌∷◌, [], true, if◌then◌else◌, IfOk};
ghost use Rattle.std.specs.FinMap.{keys};
ghost use Rattle.kb_store.specs.Disk.{HasCause, Keeps};
ghost use Rattle.kb_start.specs.Aside.{in_way_among, is_in_way, unreadable_among, whole_part, whole_parts};
ghost use Rattle.kb_start.specs.Survey.{known_of, stray_at};

use crate::kept::{KeepFault, Keeper};
use crate::losses::{Loss, Opened};
use kb_store::{Store, StoreFault};
use kb_survey::{Stray, bytes_among, stray_among};
use std::alloc::{AllocError, Global};

/// Those of an opening's files of no log that are in the way of what is written from now on: a topic that is made may get the number of
/// one, and a later version may read one. The store is only read.
pub fn files_in_way<S: Store>(
    alloc: Global,
    store: &mut S,
    opened: &Opened<'_>,
) -> Result<Vec<u64>, StoreFault>
    ensures files { IfOk result (λ files. (S.disk store.new).honest → files.items
        ≡ in_way_among (S.disk store.old) (known_of opened.now).names opened.now.next_instances.now opened.now.strays.now) }
    ensures unchanged { Keeps (S.disk store.old) (S.disk store.new) }
    ensures cause { HasCause (S.disk store.old) result (S.disk store.new) }
{
    let listed = store.list(alloc)?;
    let mut files = Vec::new(alloc);
    add_in_way(alloc, store, &listed, opened, &mut files)?;
    Ok(files)
}

/// Adds those of an opening's files of no log that are in the way.
fn add_in_way<S: Store>(
    alloc: Global,
    store: &mut S,
    listed: &[u64],
    opened: &Opened<'_>,
    files: &mut Vec<u64>,
) -> Result<(), StoreFault>
    requires { listed.now ≡ keys (S.disk store.old).table }
    ensures files { IfOk result (λ _. (S.disk store.new).honest → files.new.items ≡ files.old.items
        ++ in_way_among (S.disk store.old) (known_of opened.now).names opened.now.next_instances.now opened.now.strays.now) }
    ensures unchanged { Keeps (S.disk store.old) (S.disk store.new) }
    ensures cause { HasCause (S.disk store.old) result (S.disk store.new) }
{
    for file in opened.strays {
        add_file(alloc, store, listed, opened, *file, files)?;
    }
    Ok(())
}

/// Adds a file of no log, where it is in the way.
fn add_file<S: Store>(
    alloc: Global,
    store: &mut S,
    listed: &[u64],
    opened: &Opened<'_>,
    file: u64,
    files: &mut Vec<u64>,
) -> Result<(), StoreFault>
    requires { listed.now ≡ keys (S.disk store.old).table }
    ensures files { IfOk result (λ _. (S.disk store.new).honest → files.new.items
        ≡ (if is_in_way (stray_at (S.disk store.old) (known_of opened.now).names opened.now.next_instances.now file)
        then files.old.items ++ file ∷ [] else files.old.items)) }
    ensures unchanged { Keeps (S.disk store.old) (S.disk store.new) }
    ensures cause { HasCause (S.disk store.old) result (S.disk store.new) }
{
    let (names, nexts) = (opened.names, opened.next_instances);
    let stray = stray_among(alloc, store, listed, file, names, nexts)?;
    if is_in_way(stray) {
        files.push(file)?;
    }
    Ok(())
}

/// Whether a file is in the way, by why it is of no log, where it is there.
fn is_in_way(stray: Option<Stray>) -> bool
    ensures { result ≡ is_in_way stray }
{
    match stray {
        Some(stray) => stray.is_unfit(),
        None => false,
    }
}

/// Of files that would lose whole batches those whose header cannot be read. No opening drops one, so each start would be refused for it
/// again.
pub fn unreadable_files(alloc: Global, losses: &[Loss]) -> Result<Vec<u64>, AllocError>
    ensures { IfOk result (λ files. files.items ≡ unreadable_among losses.now) }
{
    let mut files = Vec::new(alloc);
    for loss in losses {
        if loss.header.is_none() {
            files.push(loss.file)?;
        }
    }
    Ok(files)
}

/// Keeps whole files, in their order. The store is only read.
pub fn keep_whole<S: Store, K: Keeper>(
    alloc: Global,
    store: &mut S,
    files: &[u64],
    keeper: &mut K,
) -> Result<(), KeepFault>
    ensures kept { IfOk result (λ _. (S.disk store.new).honest → K.is_honest keeper.new ≡ true
        → K.kept keeper.new ≡ K.kept keeper.old ++ whole_parts (S.disk store.old) files.now) }
    ensures unchanged { Keeps (S.disk store.old) (S.disk store.new) }
{
    let listed = store.list(alloc)?;
    keep_all(alloc, store, &listed, files, keeper)?;
    Ok(())
}

/// The same, by the numbers of all files that are there.
fn keep_all<S: Store, K: Keeper>(
    alloc: Global,
    store: &mut S,
    listed: &[u64],
    files: &[u64],
    keeper: &mut K,
) -> Result<(), KeepFault>
    requires { listed.now ≡ keys (S.disk store.old).table }
    ensures kept { IfOk result (λ _. (S.disk store.new).honest → K.is_honest keeper.new ≡ true
        → K.kept keeper.new ≡ K.kept keeper.old ++ whole_parts (S.disk store.old) files.now) }
    ensures unchanged { Keeps (S.disk store.old) (S.disk store.new) }
{
    for file in files {
        keep_one(alloc, store, listed, *file, keeper)?;
    }
    Ok(())
}

/// The same of one file.
fn keep_one<S: Store, K: Keeper>(
    alloc: Global,
    store: &mut S,
    listed: &[u64],
    file: u64,
    keeper: &mut K,
) -> Result<(), KeepFault>
    requires { listed.now ≡ keys (S.disk store.old).table }
    ensures kept { IfOk result (λ _. (S.disk store.new).honest → K.is_honest keeper.new ≡ true
        → K.kept keeper.new ≡ K.kept keeper.old ++ whole_part (S.disk store.old) file ∷ []) }
    ensures honest { K.is_honest keeper.new ≡ true → K.is_honest keeper.old ≡ true }
    ensures unchanged { Keeps (S.disk store.old) (S.disk store.new) }
{
    let bytes = bytes_among(alloc, store, listed, file)?;
    keeper.keep(file, 0, &bytes)?;
    Ok(())
}
