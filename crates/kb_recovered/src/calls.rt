//! What each call of a store leaves of the files of a commit, by the store's clauses alone.
//!
//! So it is at each moment since the commit, within the call too.
ghost use Rattle.std.specs.Prelude.{◌≡◌, ◌≤◌, ℕ, None, true, OnOk};
ghost use Rattle.std.specs.FinMap as map;
ghost use Rattle.kb_store.specs.Disk.{Files, IsThere, len_of};
ghost use Rattle.kb_loss.specs.Since.{AreStill, HoldsSince, MayChange, StayOrGo, Touched};

use kb_durable::DurableStore;
use kb_store::{Direct, Store, StoreFault};

/// Syncs, as [`Store::sync`] does. Where the store has put nothing off, all its files are there from then on, whatever is changed later.
pub fn sync_lasts<S: Store>(store: &mut S) -> Result<(), StoreFault>
    ensures { OnOk result (S.settled store.new → (S.disk store.new).honest → (t : Touched)
        → HoldsSince (AreStill (S.disk store.new).files t) (S.loss store.new).moment (S.loss store.new)) }
{
    store.sync()
}

/// Makes a file, as [`Store::create`] does: the files of a commit are still there, and after a loss, too.
pub fn create_keeps<S: Store>(store: &mut S, file: u64) -> Result<(), StoreFault>
    requires { map.get (S.disk store.old).table file ≡ None }
    ensures lost { (files : Files) (t : Touched) (at : ℕ) → t.made file ≡ true → at ≤ (S.loss store.old).moment
        → HoldsSince (AreStill files t) at (S.loss store.old) → HoldsSince (AreStill files t) at (S.loss store.new) }
    ensures now { (files : Files) (t : Touched) → t.made file ≡ true → (S.disk store.new).honest
        → AreStill files t (S.disk store.old).files → AreStill files t (S.disk store.new).files }
{
    store.create(file)
}

/// Adds bytes at the end of a file, as [`Store::append`] does: the files of a commit are still there, and after a loss, too.
pub fn append_keeps<S: Store>(store: &mut S, file: u64, bytes: &[u8]) -> Result<(), StoreFault>
    requires { IsThere (S.disk store.old) file }
    ensures lost { (files : Files) (t : Touched) (at : ℕ) → MayChange files t file (len_of (S.disk store.old) file)
        → at ≤ (S.loss store.old).moment
        → HoldsSince (AreStill files t) at (S.loss store.old) → HoldsSince (AreStill files t) at (S.loss store.new) }
    ensures now { (files : Files) (t : Touched) → MayChange files t file (len_of (S.disk store.old) file) → (S.disk store.new).honest
        → AreStill files t (S.disk store.old).files → AreStill files t (S.disk store.new).files }
{
    store.append(file, bytes)
}

/// Cuts a file, as [`Store::cut`] does: the files of a commit are still there, and after a loss, too.
pub fn cut_keeps<S: Store>(store: &mut S, file: u64, len: u64) -> Result<(), StoreFault>
    requires there { IsThere (S.disk store.old) file }
    requires within { len ≤ len_of (S.disk store.old) file }
    ensures lost { (files : Files) (t : Touched) (at : ℕ) → MayChange files t file len → at ≤ (S.loss store.old).moment
        → HoldsSince (AreStill files t) at (S.loss store.old) → HoldsSince (AreStill files t) at (S.loss store.new) }
    ensures now { (files : Files) (t : Touched) → MayChange files t file len → (S.disk store.new).honest
        → AreStill files t (S.disk store.old).files → AreStill files t (S.disk store.new).files }
{
    store.cut(file, len)
}

/// Syncs a store that puts off its removals: the files of a commit are still there; or those that are there now are left, but for first
/// ones of those whose removal waited. All of these last by then, and so do the records that justify the removals.
pub fn sync_leaves<S: Direct>(store: &mut DurableStore<S>) -> Result<(), StoreFault>
    ensures { (files : Files) (t : Touched) (at : ℕ) → (S.disk store.new.store).honest → at ≤ (S.loss store.old.store).moment
        → HoldsSince (AreStill files t) at (S.loss store.old.store)
        → HoldsSince (StayOrGo files t (S.disk store.old.store).files store.old.waiting) at (S.loss store.new.store) }
{
    store.sync()
}
