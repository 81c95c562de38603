//! A change of a store that is put off.
ghost use Rattle.std.specs.Prelude.{◌≡◌, [], not, IfOk, OnOk, OnErr};
ghost use Rattle.std.specs.List.{filter};
ghost use Rattle.kb_store.specs.Disk.{Becomes, HasCause, Keeps};
ghost use Rattle.kb_survey.specs.Changes.{ArePossible, IsPossible, disk_after, files_with, is_removal, length_after, length_with};
ghost use Rattle.kb_survey.specs.Changes.{removes, table_with};

use kb_store::{Store, StoreFault};
use std::alloc::{AllocError, Global};
use std::collections::VecDeque;

/// A cut or a removal that was asked for and not made.
#[derive(Clone, Copy, Debug, PartialEq, Eq)]
pub(crate) enum Change {
    Cut { file: u64, len: u64 },
    Remove { file: u64 },
}

/// Makes a change. After a refusal nothing has changed.
fn make<S: Store>(store: &mut S, change: Change) -> Result<(), StoreFault>
    requires { IsPossible change (S.disk store.old).table }
    ensures made { OnOk result (Becomes (S.disk store.old) (table_with change (S.disk store.old).table)
        (files_with change (S.disk store.old).files) (S.disk store.new)) }
    ensures refused { OnErr result (Keeps (S.disk store.old) (S.disk store.new)) }
    ensures cause { HasCause (S.disk store.old) result (S.disk store.new) }
{
    match change {
        Change::Cut { file, len } => store.cut(file, len),
        Change::Remove { file } => store.remove(file),
    }
}

/// Makes some changes, the first one first. After a refusal those are left that were not made.
pub(crate) fn make_all<S: Store>(
    store: &mut S,
    changes: &mut VecDeque<Change>,
) -> Result<(), StoreFault>
    requires { ArePossible changes.old.items (S.disk store.old).table }
    ensures none { OnOk result (changes.new.items ≡ []) }
    ensures still { changes.old.items ≡ [] → (store.new ≡ store.old) × (changes.new.items ≡ []) }
    ensures made { OnOk result (Keeps (disk_after changes.old.items (S.disk store.old)) (S.disk store.new)) }
    ensures possible { ArePossible changes.new.items (S.disk store.new).table }
    ensures unchanged { Keeps (disk_after changes.old.items (S.disk store.old)) (disk_after changes.new.items (S.disk store.new)) }
    ensures cause { HasCause (S.disk store.old) result (S.disk store.new) }
{
    while let Some(change) = changes.front().copied() {
        make(store, change)?;
        changes.pop_front();
    }
    Ok(())
}

/// Those of some numbers whose files no change removes.
pub(crate) fn numbers_left(
    alloc: Global,
    changes: &VecDeque<Change>,
    numbers: &[u64],
) -> Result<Vec<u64>, AllocError>
    ensures { IfOk result (λ left. left.items ≡ filter (λ file. not (removes changes.now.items file)) numbers.now) }
{
    let mut left = Vec::new(alloc);
    for number in numbers {
        if !removes(changes, *number) {
            left.push(*number)?;
        }
    }
    Ok(left)
}

/// Whether one of some changes removes a file.
#[tactic(auto, using(crate::proofs::Changes::removes_both))]
pub(crate) fn removes(changes: &VecDeque<Change>, file: u64) -> bool
    ensures { result ≡ removes changes.now.items file }
{
    let (front, back) = changes.as_slices();
    any_removes(front, file) || any_removes(back, file)
}

/// The same of changes in a row.
fn any_removes(changes: &[Change], file: u64) -> bool
    ensures { result ≡ removes changes.now file }
{
    for change in changes {
        if is_removal(change, file) {
            return true;
        }
    }
    false
}

/// Whether a change removes a file.
fn is_removal(change: &Change, file: u64) -> bool
    ensures { result ≡ is_removal change.now file }
{
    match change {
        Change::Cut { .. } => false,
        Change::Remove { file: gone } => *gone == file,
    }
}

/// How long a file is with some changes made, which is so long without them.
#[tactic(auto, using(crate::proofs::Changes::length_both))]
pub(crate) fn length_after(changes: &VecDeque<Change>, file: u64, len: u64) -> u64
    ensures { result ≡ length_after changes.now.items file len }
{
    let (front, back) = changes.as_slices();
    shortened(back, file, shortened(front, file, len))
}

/// The same of changes in a row.
fn shortened(changes: &[Change], file: u64, len: u64) -> u64
    ensures { result ≡ length_after changes.now file len }
{
    let mut left = len;
    for change in changes {
        left = length_with(change, file, left);
    }
    left
}

/// How long a file is with a change made, which is so long without it.
fn length_with(change: &Change, file: u64, len: u64) -> u64
    ensures { result ≡ length_with change.now file len }
{
    match change {
        Change::Cut {
            file: cut,
            len: most,
        } if *cut == file => len.min(*most),
        _ => len,
    }
}
