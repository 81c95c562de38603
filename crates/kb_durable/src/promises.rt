//! What any store promises by its clauses alone: what no loss of power could touch before a call, none can touch since.
//!
//! So it is at each moment within the call, too.
ghost use Rattle.std.specs.Prelude.{◌≡◌, ◌≤◌, None};
ghost use Rattle.std.specs.FinMap as map;
ghost use Rattle.kb_store.specs.Disk.{IsThere, len_of};
ghost use Rattle.kb_durable.specs.Standing.{Stands};

use kb_store::{Store, StoreFault};

/// Makes a file, as [`Store::create`] does: all files that were there stand.
pub fn create_stands<S: Store>(store: &mut S, file: u64) -> Result<(), StoreFault>
    requires { map.get (S.disk store.old).table file ≡ None }
    ensures { Stands (S.disk store.old).table (S.loss store.old) (S.loss store.new) }
{
    store.create(file)
}

/// Adds bytes at the end of a file, as [`Store::append`] does: all files stand, that one too.
pub fn append_stands<S: Store>(store: &mut S, file: u64, bytes: &[u8]) -> Result<(), StoreFault>
    requires { IsThere (S.disk store.old) file }
    ensures { Stands (S.disk store.old).table (S.loss store.old) (S.loss store.new) }
{
    store.append(file, bytes)
}

/// Cuts a file, as [`Store::cut`] does: all files stand, of that one what is no longer than it is then.
pub fn cut_stands<S: Store>(store: &mut S, file: u64, len: u64) -> Result<(), StoreFault>
    requires there { IsThere (S.disk store.old) file }
    requires within { len ≤ len_of (S.disk store.old) file }
    ensures { Stands (map.insert (S.disk store.old).table file len) (S.loss store.old) (S.loss store.new) }
{
    store.cut(file, len)
}

/// Removes a file, as [`Store::remove`] does: all others stand.
pub fn remove_stands<S: Store>(store: &mut S, file: u64) -> Result<(), StoreFault>
    requires { IsThere (S.disk store.old) file }
    ensures { Stands (map.remove (S.disk store.old).table file) (S.loss store.old) (S.loss store.new) }
{
    store.remove(file)
}

/// Syncs, as [`Store::sync`] does: all files stand that its callers see.
pub fn sync_stands<S: Store>(store: &mut S) -> Result<(), StoreFault>
    ensures { Stands (S.disk store.old).table (S.loss store.old) (S.loss store.new) }
{
    store.sync()
}
