//! The files whose removal waits.
ghost use Rattle.std.specs.Prelude.{◌≡◌, ◌≤◌, not, drop, true, false, [], Ok, IfOk, OnOk, OnErr};
ghost use Rattle.std.specs.List.{filter};
ghost use Rattle.kb_store.specs.Disk.{HasCause};
ghost use Rattle.kb_store.specs.Loss.{Goes, Only, Clears};
ghost use Rattle.kb_durable.specs.Waiting.{has, without_keys, AreThere, Trims};

use kb_store::{Direct, StoreFault};
use std::alloc::{AllocError, Global};
use std::collections::VecDeque;

/// How many of the removals that wait one sync does at most, so that no call takes long.
pub const MOST_REMOVALS: u64 = 16;

/// Whether the removal of a file waits.
#[tactic(auto, using(crate::proofs::Left::has_both))]
pub(crate) fn waits(waiting: &VecDeque<u64>, file: u64) -> bool
    ensures { result ≡ has waiting.now.items file }
{
    let (front, back) = waiting.as_slices();
    is_among(front, file) || is_among(back, file)
}

/// The same of numbers in a row.
fn is_among(numbers: &[u64], file: u64) -> bool
    ensures { result ≡ has numbers.now file }
{
    for number in numbers {
        if *number == file {
            return true;
        }
    }
    false
}

/// Those of some numbers that do not wait.
pub(crate) fn numbers_left(
    alloc: Global,
    waiting: &VecDeque<u64>,
    numbers: &[u64],
) -> Result<Vec<u64>, AllocError>
    ensures { IfOk result (λ left. left.items ≡ filter (λ file. not (has waiting.now.items file)) numbers.now) }
{
    let mut left = Vec::new(alloc);
    for number in numbers {
        if !waits(waiting, *number) {
            left.push(*number)?;
        }
    }
    Ok(left)
}

/// Removes the first file that waits, and syncs that. Answers whether there was one. Where the removal is refused it waits still.
#[tactic(auto, using(crate::proofs::Lost::trims_none))]
fn remove_first<S: Direct>(store: &mut S, waiting: &mut VecDeque<u64>) -> Result<bool, StoreFault>
    requires there { AreThere waiting.old.items (S.disk store.old).table }
    requires synced { (S.disk store.old).honest → Only (S.disk store.old).files (S.loss store.old) }
    ensures one { result ≡ Ok true → waiting.new.items ≡ drop 1 waiting.old.items }
    ensures none { result ≡ Ok false → (waiting.new.items ≡ []) × (waiting.old.items ≡ []) }
    ensures there { AreThere waiting.new.items (S.disk store.new).table }
    ensures synced { OnOk result ((S.disk store.new).honest → Only (S.disk store.new).files (S.loss store.new)) }
    ensures trims { Trims 1 waiting.old.items waiting.new.items (S.disk store.old) (S.loss store.old)
        (S.disk store.new) (S.loss store.new) }
    ensures cause { HasCause (S.disk store.old) result (S.disk store.new) }
    ensures loss { Goes (Clears (without_keys waiting.old.items (S.disk store.old).table)) (S.loss store.old) (S.loss store.new) }
{
    let Some(file) = waiting.front().copied() else {
        return Ok(false);
    };
    store.remove(file)?;
    waiting.pop_front();
    store.sync()?;
    Ok(true)
}

/// Removes the first files that wait, a few at most, and syncs behind each.
pub(crate) fn remove_some<S: Direct>(
    store: &mut S,
    waiting: &mut VecDeque<u64>,
) -> Result<(), StoreFault>
    requires there { AreThere waiting.old.items (S.disk store.old).table }
    requires synced { (S.disk store.old).honest → Only (S.disk store.old).files (S.loss store.old) }
    ensures first { OnOk result (waiting.new.items ≡ drop 16 waiting.old.items) }
    ensures there { AreThere waiting.new.items (S.disk store.new).table }
    ensures synced { OnOk result ((S.disk store.new).honest → Only (S.disk store.new).files (S.loss store.new)) }
    ensures trims { Trims 16 waiting.old.items waiting.new.items (S.disk store.old) (S.loss store.old)
        (S.disk store.new) (S.loss store.new) }
    ensures cause { HasCause (S.disk store.old) result (S.disk store.new) }
    ensures loss { Goes (Clears (without_keys waiting.old.items (S.disk store.old).table)) (S.loss store.old) (S.loss store.new) }
{
    for _ in 0..MOST_REMOVALS {
        if !remove_first(store, waiting)? {
            return Ok(());
        }
    }
    Ok(())
}
