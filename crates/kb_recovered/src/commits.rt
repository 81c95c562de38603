//! What the calls of a store that puts off its removals leave of the files of commits, at each moment since a first one.
ghost use Rattle.std.specs.Prelude.{◌≡◌, ◌≤◌, ◌+◌, ◌∷◌, ℕ, List, [], None, length, true, OnOk};
ghost use Rattle.std.specs.FinMap as map;
ghost use Rattle.kb_store.specs.Disk.{Files, IsThere, len_of};
ghost use Rattle.kb_durable.specs.Durable.{disk_of};
ghost use Rattle.kb_loss.specs.Since.{AreLeft, HoldsSince, MayChange, Touched};
ghost use Rattle.kb_recovered.specs.Windows.{AreLeftOfOne, HoldsThrough, Window, window};

use kb_durable::DurableStore;
use kb_store::{Direct, Store, StoreFault};

/// Syncs, as [`Store::sync`] does: where that goes well a commit begins, also where removals wait still.
pub fn sync_begins<S: Direct>(store: &mut DurableStore<S>) -> Result<(), StoreFault>
    ensures { OnOk result (store.old.syncs ≡ true → (S.disk store.new.store).honest → (t : Touched)
        → HoldsThrough [] (S.disk store.new.store).files t (S.loss store.new.store).moment (S.loss store.new.store).moment
        (S.disk store.new.store) (S.loss store.new.store)) }
{
    store.sync()
}

/// Syncs, as [`Store::sync`] does, behind some commits. Whether it goes well or not, at each moment since the first of them a loss leaves
/// what may be left of one of them. Where it goes well the next commit begins, and its files are left of those of the one before it.
pub fn sync_goes_on<S: Direct>(store: &mut DurableStore<S>) -> Result<(), StoreFault>
    ensures ever { (past : List Window) (files : Files) (t : Touched) (first last : ℕ) → (S.disk store.new.store).honest
        → HoldsThrough past files t first last (S.disk store.old.store) (S.loss store.old.store)
        → HoldsSince (AreLeftOfOne (window files t store.old.waiting ∷ past)) first (S.loss store.new.store) }
    ensures left { (past : List Window) (files : Files) (t : Touched) (first last : ℕ) → (S.disk store.new.store).honest
        → HoldsThrough past files t first last (S.disk store.old.store) (S.loss store.old.store)
        → AreLeft files t store.old.waiting (S.disk store.new.store).files }
    ensures next { OnOk result (store.old.syncs ≡ true → (past : List Window) (files : Files) (t u : Touched) (first last : ℕ)
        → (S.disk store.new.store).honest
        → HoldsThrough past files t first last (S.disk store.old.store) (S.loss store.old.store)
        → HoldsThrough (window files t store.old.waiting ∷ past) (S.disk store.new.store).files u first
        (S.loss store.new.store).moment (S.disk store.new.store) (S.loss store.new.store)) }
{
    store.sync()
}

/// Makes a file, as [`Store::create`] does: what held since the commits holds still.
pub fn create_goes_on<S: Direct>(store: &mut DurableStore<S>, file: u64) -> Result<(), StoreFault>
    requires { map.get (disk_of S.disk store.old).table file ≡ None }
    ensures { (past : List Window) (files : Files) (t : Touched) (first last : ℕ) → t.made file ≡ true
        → HoldsThrough past files t first last (S.disk store.old.store) (S.loss store.old.store)
        → HoldsThrough past files t first last (S.disk store.new.store) (S.loss store.new.store) }
{
    store.create(file)
}

/// Adds bytes at the end of a file, as [`Store::append`] does: what held since the commits holds still.
pub fn append_goes_on<S: Direct>(
    store: &mut DurableStore<S>,
    file: u64,
    bytes: &[u8],
) -> Result<(), StoreFault>
    requires { IsThere (disk_of S.disk store.old) file }
    ensures { (past : List Window) (files : Files) (t : Touched) (first last : ℕ)
        → MayChange files t file (len_of (disk_of S.disk store.old) file)
        → HoldsThrough past files t first last (S.disk store.old.store) (S.loss store.old.store)
        → HoldsThrough past files t first last (S.disk store.new.store) (S.loss store.new.store) }
{
    store.append(file, bytes)
}

/// Cuts a file, as [`Store::cut`] does: what held since the commits holds still.
pub fn cut_goes_on<S: Direct>(
    store: &mut DurableStore<S>,
    file: u64,
    len: u64,
) -> Result<(), StoreFault>
    requires there { IsThere (disk_of S.disk store.old) file }
    requires within { len ≤ len_of (disk_of S.disk store.old) file }
    ensures { (past : List Window) (files : Files) (t : Touched) (first last : ℕ) → MayChange files t file len
        → HoldsThrough past files t first last (S.disk store.old.store) (S.loss store.old.store)
        → HoldsThrough past files t first last (S.disk store.new.store) (S.loss store.new.store) }
{
    store.cut(file, len)
}

/// Puts off the removal of a file, as [`Store::remove`] does: the store inside is as it was.
pub fn remove_goes_on<S: Direct>(store: &mut DurableStore<S>, file: u64) -> Result<(), StoreFault>
    requires { IsThere (disk_of S.disk store.old) file }
    ensures { store.old.syncs ≡ true → (past : List Window) (files : Files) (t : Touched) (first last : ℕ)
        → HoldsThrough past files t first last (S.disk store.old.store) (S.loss store.old.store)
        → HoldsThrough past files t first last (S.disk store.new.store) (S.loss store.new.store) }
{
    store.remove(file)
}

/// Reads of a file, as [`Store::read_at`] does: what held since the commits holds still.
pub fn read_goes_on<S: Direct>(
    store: &mut DurableStore<S>,
    file: u64,
    at: u64,
    buffer: &mut [u8],
) -> Result<(), StoreFault>
    requires there { IsThere (disk_of S.disk store.old) file }
    requires within { at + length buffer.old ≤ len_of (disk_of S.disk store.old) file }
    ensures { (past : List Window) (files : Files) (t : Touched) (first last : ℕ)
        → HoldsThrough past files t first last (S.disk store.old.store) (S.loss store.old.store)
        → HoldsThrough past files t first last (S.disk store.new.store) (S.loss store.new.store) }
{
    store.read_at(file, at, buffer)
}

/// What that means: at each moment since the first of these commits, what a loss might have left then is left of the files of one of them.
pub fn losses_are_of_commits<S: Direct>(store: &DurableStore<S>)
    ensures { (past : List Window) (files : Files) (t : Touched) (first last : ℕ)
        → HoldsThrough past files t first last (S.disk store.now.store) (S.loss store.now.store)
        → (waiting : List ℕ) → HoldsSince (AreLeftOfOne (window files t waiting ∷ past)) first (S.loss store.now.store) }
{
    let _ = store;
}
