//! A store over another, of which a loss of power leaves simple things alone.
ghost use Rattle.std.specs.Prelude.{◌≡◌, ◌≢◌, ◌+◌, ◌≤◌, ◌++◌, ◌∷◌, ◌⊎◌, ℕ, ◌&&◌, not, true};
ghost use Rattle.std.specs.Prelude.{false, [], IfOk, OnOk, OnErr, IsErr, length, take, drop, None, Ok, Err};
ghost use Rattle.std.specs.FinMap as map;
ghost use Rattle.std.specs.List.{filter};
ghost use Rattle.kb_store.specs.Disk.{Files};

use crate::torn::{Torn, mend, note};
use crate::waiting::{numbers_left, remove_some, waits};
use kb_store::{Direct, Store, StoreFault};
use std::alloc::Global;
use std::collections::VecDeque;
use std::marker::Model;

/// A store by which what a loss of power may leave stays simple.
///
/// To its callers it is the store inside, less the files whose removal waits. POSIX promises nothing of a write or of a name before an
/// fsync, so three things are done in order:
///
/// - A removal waits until [`Store::sync`]. So the record that justifies it lasts before it is done.
/// - `sync` syncs what was changed. Then it does the removals that wait, the first one first, and syncs behind each. So at most one
///   removal may be undone by a loss.
/// - A file is made only once all that was changed before is synced. So at each moment at most one file's name may be lost.
///
/// A refused append may leave bytes behind a file's end that nobody is to read. While such bytes stand `sync` is refused, so that they
/// are never made to last: a cut takes them off, or a removal. A file whose removal waits is not made again.
///
/// Where it is made not to sync, each call is one of the store inside, and `sync` does nothing.
#[derive(Drop)]
pub struct DurableStore<S: Direct> {
    store: S,
    /// Whether it puts off and syncs.
    syncs: bool,
    /// Whether something was changed since the last sync.
    changed: bool,
    /// The files whose removal waits, first one first.
    waiting: VecDeque<u64>,
    /// The files with bytes of a refused append.
    torn: Vec<Torn>,
    /// How many calls it refused itself, short of `u64`'s end.
    refused: u64,
}

impl<S: Direct> Model for DurableStore<S> {
    ghost use Rattle.kb_durable.specs.Durable.{Durable, IsKept, durable};

    ghost Value = { Durable S };

    ghost view = { λ s. durable s.store s.syncs s.changed s.waiting.items s.torn.items s.refused };

    ghost invariant = { λ s. IsKept (S.disk s.store) (S.loss s.store) s.syncs s.changed s.waiting.items s.torn.items };
}

impl<S: Direct> DurableStore<S> {
    ghost use Rattle.kb_store.specs.Loss.{Only};
    ghost use Rattle.kb_durable.specs.Durable.{has_changed, one_more};
    ghost use Rattle.kb_store.specs.declared.fault.StoreFault.TheVariants.{Device};

    /// The store over another. Nothing is taken for synced, and nothing waits.
    pub fn new(alloc: Global, store: S, syncs: bool) -> Self
        ensures { result ≡ record { store = store; syncs = syncs; changed = true; waiting = []; torn = []; refused = 0 } }
    {
        DurableStore {
            store,
            syncs,
            changed: true,
            waiting: VecDeque::new(alloc),
            torn: Vec::new(alloc),
            refused: 0,
        }
    }

    /// The store inside, to look at.
    pub fn store(&self) -> &S
        ensures { result.now ≡ self.now.store }
    {
        &self.store
    }

    /// The store inside, with the files whose removal waits.
    pub fn into_store(self) -> S
        ensures { result ≡ self.store }
    {
        let DurableStore { store, .. } = self;
        store
    }

    /// The files whose removal waits, the first one first.
    pub fn waiting(&self) -> &VecDeque<u64>
        ensures { result.now.items ≡ self.now.waiting }
    {
        &self.waiting
    }

    /// Whether a sync has something to do. Where it has not, and the store syncs, a loss leaves the files as they are.
    pub fn is_changed(&self) -> bool
        ensures changed { result ≡ has_changed self.now }
        ensures none { result ≡ false → self.now.waiting ≡ [] }
        ensures whole { result ≡ false → self.now.syncs ≡ true → self.now.torn ≡ [] }
        ensures synced { result ≡ false → self.now.syncs ≡ true → (S.disk self.now.store).honest
            → Only (S.disk self.now.store).files (S.loss self.now.store) }
    {
        self.syncs && (self.changed || !self.waiting.is_empty())
    }

    /// Counts a call that is refused.
    fn refuse(&mut self) -> StoreFault
        ensures fault { result ≡ Device }
        ensures counted { self.new ≡ record self.old { refused = one_more self.old.refused } }
    {
        self.refused = self.refused.saturating_add(1);
        StoreFault::Device
    }
}

impl<S: Direct> DurableStore<S> {
    ghost use Rattle.kb_store.specs.Disk.{HasCause, Keeps};
    ghost use Rattle.kb_store.specs.Loss.{Goes, Only, Same};
    ghost use Rattle.kb_durable.specs.Durable.{disk_of, IsRefused};

    /// Syncs the store inside, where something was changed and no bytes of a refused append stand.
    fn flush(&mut self) -> Result<(), StoreFault>
        requires { self.old.syncs ≡ true }
        ensures changed { OnOk result (self.new.changed ≡ false) }
        ensures synced { OnOk result ((S.disk self.new.store).honest → Only (S.disk self.new.store).files (S.loss self.new.store)) }
        ensures torn { self.old.torn ≢ [] → IsRefused self.old result self.new }
        ensures unchanged { Keeps (S.disk self.old.store) (S.disk self.new.store) }
        ensures cause { HasCause (disk_of S.disk self.old) result (disk_of S.disk self.new) }
        ensures loss { Goes Same (S.loss self.old.store) (S.loss self.new.store) }
        ensures notes { self.new ≡ record self.old { store = self.new.store; changed = self.new.changed; refused = self.new.refused } }
    {
        if !self.changed {
            return Ok(());
        }
        if !self.torn.is_empty() {
            return Err(self.refuse());
        }
        self.store.sync()?;
        self.changed = false;
        Ok(())
    }
}

impl<S: Direct> Store for DurableStore<S> {
    ghost use Rattle.kb_store.specs.Disk.{IsThere, len_of, bytes_of, Keeps, Creates, Appends, Cuts, Removes, MayCreate, AppendsSome};
    ghost use Rattle.kb_store.specs.Disk.{HasCause};
    ghost use Rattle.kb_store.specs.Loss.{Goes, Only, Same, Makes, Tears, Drops, Clears, AreOthers};
    ghost use Rattle.kb_durable.specs.Durable.{disk_of, has_changed, is_torn, stays_torn, IsRefused, NotesNothing, MakesAlone};
    ghost use Rattle.kb_durable.specs.Lawful.{disk_lawful};
    ghost use Rattle.kb_durable.specs.Standing.{Stands};
    ghost use Rattle.kb_durable.specs.Waiting.{has, Trims};

    ghost disk = { disk_of S.disk };

    ghost loss = { λ s. S.loss s.store };

    ghost settled = { λ s. (s.waiting ≡ []) × (s.syncs ≡ true) };

    ghost timely = { λ s. S.Store.timely s.store };

    ghost lawful = { λ s. disk_lawful s.waiting s.refused (S.disk s.store) (S.Store.lawful s.store) };

    fn failures(&self) -> u64 {
        self.store.failures().saturating_add(self.refused)
    }

    fn list(&mut self, alloc: Global) -> Result<Vec<u64>, StoreFault>
        ensures numbers { IfOk result (λ numbers. numbers.items ≡ map.keys (disk_of S.disk self.old).table) }
        ensures unchanged { Keeps (disk_of S.disk self.old) (disk_of S.disk self.new) }
        ensures cause { HasCause (disk_of S.disk self.old) result (disk_of S.disk self.new) }
        ensures loss { Goes Same (S.loss self.old.store) (S.loss self.new.store) }
        ensures inside { Keeps (S.disk self.old.store) (S.disk self.new.store) }
        ensures notes { NotesNothing self.old self.new }
    {
        let numbers = self.store.list(alloc)?;
        Ok(numbers_left(alloc, &self.waiting, &numbers)?)
    }

    fn len(&mut self, file: u64) -> Result<u64, StoreFault>
        requires { IsThere (disk_of S.disk self.old) file }
        ensures len { IfOk result (λ n. n ≡ len_of (disk_of S.disk self.old) file) }
        ensures unchanged { Keeps (disk_of S.disk self.old) (disk_of S.disk self.new) }
        ensures cause { HasCause (disk_of S.disk self.old) result (disk_of S.disk self.new) }
        ensures loss { Goes Same (S.loss self.old.store) (S.loss self.new.store) }
        ensures inside { Keeps (S.disk self.old.store) (S.disk self.new.store) }
        ensures notes { NotesNothing self.old self.new }
    {
        self.store.len(file)
    }

    fn create(&mut self, file: u64) -> Result<(), StoreFault>
        requires { map.get (disk_of S.disk self.old).table file ≡ None }
        ensures created { OnOk result (Creates (disk_of S.disk self.old) file (disk_of S.disk self.new)) }
        ensures refused { OnErr result (MayCreate (disk_of S.disk self.old) file (disk_of S.disk self.new)) }
        ensures cause { HasCause (disk_of S.disk self.old) result (disk_of S.disk self.new) }
        ensures loss { Goes (Makes file) (S.loss self.old.store) (S.loss self.new.store) }
        // All that was changed before lasts, but for the new name.
        ensures lasts { OnOk result (self.old.syncs ≡ true → (S.disk self.new.store).honest
            → (found : Files) → (S.loss self.new.store).leaves found → AreOthers file (S.disk self.old.store).files found) }
        ensures alone { self.old.syncs ≡ true → (S.disk self.new.store).honest
            → MakesAlone file (S.disk self.old.store) (S.loss self.old.store) (S.loss self.new.store) }
        ensures waits { self.old.syncs ≡ true → has self.old.waiting file ≡ true → IsRefused self.old result self.new }
        ensures torn { self.old.syncs ≡ true → self.old.torn ≢ [] → IsRefused self.old result self.new }
        // The store inside does the same.
        ensures inside { OnOk result (Creates (S.disk self.old.store) file (S.disk self.new.store)) }
        ensures inside_err { OnErr result (MayCreate (S.disk self.old.store) file (S.disk self.new.store)) }
        ensures notes { self.new ≡ record self.old { store = self.new.store; changed = self.new.changed; refused = self.new.refused } }
    {
        if !self.syncs {
            return self.store.create(file);
        }
        if waits(&self.waiting, file) {
            return Err(self.refuse());
        }
        self.flush()?; // so that no other name may be lost
        self.changed = true;
        self.store.create(file)
    }

    fn append(&mut self, file: u64, bytes: &[u8]) -> Result<(), StoreFault>
        requires { IsThere (disk_of S.disk self.old) file }
        ensures appended { OnOk result (Appends (disk_of S.disk self.old) file bytes.now (disk_of S.disk self.new)) }
        ensures refused { OnErr result (AppendsSome (disk_of S.disk self.old) file bytes.now (disk_of S.disk self.new)) }
        ensures cause { HasCause (disk_of S.disk self.old) result (disk_of S.disk self.new) }
        ensures loss { Goes (Tears file (len_of (disk_of S.disk self.old) file)) (S.loss self.old.store) (S.loss self.new.store) }
        ensures whole { OnOk result (self.new.torn ≡ self.old.torn) }
        ensures torn { OnErr result (self.old.syncs ≡ true → len_of (disk_of S.disk self.new) file ≢ len_of (disk_of S.disk self.old) file
            → is_torn self.new.torn file ≡ true) }
        ensures inside { OnOk result (Appends (S.disk self.old.store) file bytes.now (S.disk self.new.store)) }
        ensures inside_err { OnErr result (AppendsSome (S.disk self.old.store) file bytes.now (S.disk self.new.store)) }
        ensures notes { self.new ≡ record self.old { store = self.new.store; changed = self.new.changed; torn = self.new.torn } }
    {
        if !self.syncs {
            return self.store.append(file, bytes);
        }
        self.torn.reserve(1)?;
        let len = self.store.len(file)?;
        self.changed = true;
        let Err(fault) = self.store.append(file, bytes) else {
            return Ok(());
        };
        note(&mut self.store, &mut self.torn, file, len);
        Err(fault)
    }

    fn read_at(&mut self, file: u64, at: u64, buffer: &mut [u8]) -> Result<(), StoreFault>
        requires there { IsThere (disk_of S.disk self.old) file }
        requires within { at + length buffer.old ≤ len_of (disk_of S.disk self.old) file }
        ensures bytes { OnOk result ((disk_of S.disk self.new).honest
            → buffer.new ≡ take (length buffer.old) (drop at (bytes_of (disk_of S.disk self.old) file))) }
        ensures unchanged { Keeps (disk_of S.disk self.old) (disk_of S.disk self.new) }
        ensures cause { HasCause (disk_of S.disk self.old) result (disk_of S.disk self.new) }
        ensures loss { Goes Same (S.loss self.old.store) (S.loss self.new.store) }
        ensures inside { Keeps (S.disk self.old.store) (S.disk self.new.store) }
        ensures notes { NotesNothing self.old self.new }
    {
        self.store.read_at(file, at, buffer)
    }

    fn cut(&mut self, file: u64, len: u64) -> Result<(), StoreFault>
        requires there { IsThere (disk_of S.disk self.old) file }
        requires within { len ≤ len_of (disk_of S.disk self.old) file }
        ensures cut { OnOk result (Cuts (disk_of S.disk self.old) file len (disk_of S.disk self.new)) }
        ensures refused { OnErr result (Keeps (disk_of S.disk self.old) (disk_of S.disk self.new)) }
        ensures cause { HasCause (disk_of S.disk self.old) result (disk_of S.disk self.new) }
        ensures loss { Goes (Tears file len) (S.loss self.old.store) (S.loss self.new.store) }
        ensures mended { OnOk result (self.new.torn ≡ filter (stays_torn file len) self.old.torn) }
        ensures torn { OnErr result (self.new.torn ≡ self.old.torn) }
        ensures inside { OnOk result (Cuts (S.disk self.old.store) file len (S.disk self.new.store)) }
        ensures inside_err { OnErr result (Keeps (S.disk self.old.store) (S.disk self.new.store)) }
        ensures notes { self.new ≡ record self.old { store = self.new.store; changed = true; torn = self.new.torn } }
    {
        self.changed = true;
        self.store.cut(file, len)?;
        mend(&mut self.torn, file, len);
        Ok(())
    }

    fn remove(&mut self, file: u64) -> Result<(), StoreFault>
        requires { IsThere (disk_of S.disk self.old) file }
        ensures removed { OnOk result (Removes (disk_of S.disk self.old) file (disk_of S.disk self.new)) }
        ensures refused { OnErr result (Keeps (disk_of S.disk self.old) (disk_of S.disk self.new)) }
        ensures cause { HasCause (disk_of S.disk self.old) result (disk_of S.disk self.new) }
        ensures loss { Goes (Drops file) (S.loss self.old.store) (S.loss self.new.store) }
        ensures waits { OnOk result (self.old.syncs ≡ true
            → self.new ≡ record self.old { waiting = self.old.waiting ++ file ∷ []; torn = filter (stays_torn file 0) self.old.torn }) }
        ensures nothing { OnErr result (self.old.syncs ≡ true → self.new ≡ self.old) }
        ensures at_once { self.old.syncs ≡ false → NotesNothing self.old self.new }
    {
        if !self.syncs {
            return self.store.remove(file);
        }
        self.waiting.push_back(file)?;
        mend(&mut self.torn, file, 0);
        Ok(())
    }

    fn sync(&mut self) -> Result<(), StoreFault>
        ensures synced { OnOk result ((self.new.waiting ≡ []) × (self.new.syncs ≡ true) → (disk_of S.disk self.new).honest
            → Only (disk_of S.disk self.new).files (S.loss self.new.store)) }
        ensures unchanged { Keeps (disk_of S.disk self.old) (disk_of S.disk self.new) }
        ensures cause { HasCause (disk_of S.disk self.old) result (disk_of S.disk self.new) }
        ensures loss { Goes (Clears (disk_of S.disk self.old).table) (S.loss self.old.store) (S.loss self.new.store) }
        ensures prompt { (self.old.waiting ≡ []) × (self.old.syncs ≡ true) → Goes Same (S.loss self.old.store) (S.loss self.new.store) }
        ensures idle { has_changed self.old ≡ false → (result ≡ Ok tt) × (self.new ≡ self.old) }
        ensures torn { self.old.syncs ≡ true → self.old.torn ≢ [] → IsRefused self.old result self.new }
        ensures changed { OnOk result (self.old.syncs ≡ true → self.new.changed ≡ false) }
        // All that the store inside has lasts, also where removals wait still.
        ensures lasts { OnOk result (self.old.syncs ≡ true → (S.disk self.new.store).honest
            → Only (S.disk self.new.store).files (S.loss self.new.store)) }
        ensures first { OnOk result (self.new.waiting ≡ drop 16 self.old.waiting) }
        // Some first ones of those that waited are removed, and at each moment at most one more may be or not. All else is as it is.
        ensures trims { Trims 16 self.old.waiting self.new.waiting (S.disk self.old.store) (S.loss self.old.store)
            (S.disk self.new.store) (S.loss self.new.store) }
        ensures notes { self.new ≡ record self.old {
          store = self.new.store;
          changed = self.new.changed;
          waiting = self.new.waiting;
          refused = self.new.refused;
        } }
    {
        if !self.is_changed() {
            return Ok(());
        }
        self.flush()?;
        if self.waiting.is_empty() {
            return Ok(());
        }
        self.changed = true;
        remove_some(&mut self.store, &mut self.waiting)?;
        self.changed = false;
        Ok(())
    }

    fn is_synced(&self) -> bool
        ensures settled { result ≡ true → (self.now.waiting ≡ []) × (self.now.syncs ≡ true) }
        ensures synced { result ≡ true → (disk_of S.disk self.now).honest → Only (disk_of S.disk self.now).files (S.loss self.now.store) }
        ensures idle { result ≡ (self.now.syncs && not (has_changed self.now)) }
    {
        self.syncs && !self.is_changed()
    }
}
