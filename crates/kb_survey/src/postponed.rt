//! A store that puts off what is cut and removed.
ghost use Rattle.std.specs.Prelude.{◌≡◌, ◌+◌, ◌≤◌, ◌<◌, ◌^◌, true, false, [], IfOk, OnOk, OnErr, length, take, drop, None, Some};
ghost use Rattle.std.specs.FinMap as map;
ghost use Rattle.kb_store.specs.Disk.{Disk};
ghost use Rattle.kb_survey.specs.Postponed.{Postponing, disk_with, IsUntouched};

use crate::change::{Change, length_after, make_all, numbers_left, removes};
use kb_store::{Store, StoreFault};
use std::alloc::Global;
use std::collections::VecDeque;
use std::marker::Model;

/// A store that may have put changes of its files off.
pub trait PutsOff: Store {
    /// The files and their lengths without these changes.
    ghost inside: { Self → Disk };

    /// How many bytes a file has to callers that has so many without these changes; none where it was removed.
    fn bytes_left(&self, file: u64, len: u64) -> Option<u64>
        ensures { map.get (inside self.now).table file ≡ Some len → result ≡ map.get (Self.Store.disk self.now).table file };
}

/// A store that cuts and removes nothing before the first write.
///
/// To its callers it is as any other store is: a file that was cut is shorter, and one that was removed is gone. The store inside has
/// all of it still. The first `create`, `append` or `sync` makes what was put off, in the order in which it was asked for, and from then on
/// each call is made at once. Where one of those changes is refused, so is the call, and the next one tries again.
///
/// So a process that ends before its first write has changed nothing. Each change that is put off takes 24 bytes, and makes a call for
/// a file's length, or for the list, longer by one comparison.
///
/// A sync makes what was put off, as a write does, and syncs the store inside. From then on a loss of power leaves what it leaves of the
/// store inside. Before that anything may be left to callers, since a change that is put off is lost with the process. Of the store inside
/// a loss leaves what it left before.
#[derive(Drop)]
pub struct Postponed<S: Store> {
    store: S,
    put_off: VecDeque<Change>,
    /// Whether there was no write yet.
    waits: bool,
}

impl<S: Store> Model for Postponed<S> {
    ghost use Rattle.kb_survey.specs.Postponed.{Postponing, postponing};
    ghost use Rattle.kb_survey.specs.Changes.{ArePossible};

    ghost Value = { Postponing S };

    ghost view = { λ s. postponing s.store s.put_off.items s.waits };

    ghost invariant = { λ s. ArePossible s.put_off.items (S.disk s.store).table };
}

impl<S: Store> Postponed<S> {
    /// The store over another, with nothing put off.
    pub fn new(alloc: Global, store: S) -> Self
        ensures { result ≡ record { store = store; put_off = []; waits = true } }
    {
        Postponed {
            store,
            put_off: VecDeque::new(alloc),
            waits: true,
        }
    }

    /// The store inside, without what is put off.
    pub fn into_store(self) -> S
        ensures { result ≡ self.store }
    {
        let Postponed { store, .. } = self;
        store
    }

    /// How many bytes a file has to callers that has so many in the store inside; none where it was removed.
    pub fn left(&self, file: u64, len: u64) -> Option<u64>
        ensures { map.get (S.disk self.now.store).table file ≡ Some len → result ≡ map.get (disk_with S.disk self.now).table file }
    {
        if removes(&self.put_off, file) {
            return None;
        }
        Some(length_after(&self.put_off, file, len))
    }
}

impl<S: Store> Store for Postponed<S> {
    ghost use Rattle.kb_store.specs.Disk.{IsThere, len_of, bytes_of, Keeps, Creates, Appends, Cuts, Removes, MayCreate, AppendsSome};
    ghost use Rattle.kb_store.specs.Disk.{HasCause};
    ghost use Rattle.kb_store.specs.Loss.{Clears, Drops, Goes, Makes, Only, Same, Tears};
    ghost use Rattle.kb_survey.specs.Lost.{loss_with, timely_of};
    ghost use Rattle.kb_survey.specs.Postponed.{disk_with, postponed_lawful, IsUntouched, HasMade};

    ghost disk = { disk_with S.disk };

    ghost loss = { loss_with S.loss };

    ghost settled = { λ s. (s.put_off ≡ []) × S.settled s.store };

    ghost lawful = { λ s. postponed_lawful s.put_off (S.disk s.store) (S.lawful s.store) };

    ghost timely = { λ s. timely_of s.waits s.put_off (S.loss s.store) (S.timely s.store) };

    fn failures(&self) -> u64 {
        self.store.failures()
    }

    fn list(&mut self, alloc: Global) -> Result<Vec<u64>, StoreFault>
        ensures numbers { IfOk result (λ numbers. numbers.items ≡ map.keys (disk_with S.disk self.old).table) }
        ensures unchanged { Keeps (disk_with S.disk self.old) (disk_with S.disk self.new) }
        ensures cause { HasCause (disk_with S.disk self.old) result (disk_with S.disk self.new) }
        ensures loss { Goes Same (loss_with S.loss self.old) (loss_with S.loss self.new) }
        ensures untouched { IsUntouched S.disk S.loss self.old self.new }
    {
        let numbers = self.store.list(alloc)?;
        Ok(numbers_left(alloc, &self.put_off, &numbers)?)
    }

    fn len(&mut self, file: u64) -> Result<u64, StoreFault>
        requires { IsThere (disk_with S.disk self.old) file }
        ensures len { IfOk result (λ n. n ≡ len_of (disk_with S.disk self.old) file) }
        ensures unchanged { Keeps (disk_with S.disk self.old) (disk_with S.disk self.new) }
        ensures cause { HasCause (disk_with S.disk self.old) result (disk_with S.disk self.new) }
        ensures loss { Goes Same (loss_with S.loss self.old) (loss_with S.loss self.new) }
        ensures untouched { IsUntouched S.disk S.loss self.old self.new }
    {
        let len = self.store.len(file)?;
        Ok(length_after(&self.put_off, file, len))
    }

    fn create(&mut self, file: u64) -> Result<(), StoreFault>
        requires { map.get (disk_with S.disk self.old).table file ≡ None }
        ensures created { OnOk result (Creates (disk_with S.disk self.old) file (disk_with S.disk self.new)) }
        ensures refused { OnErr result (MayCreate (disk_with S.disk self.old) file (disk_with S.disk self.new)) }
        ensures cause { HasCause (disk_with S.disk self.old) result (disk_with S.disk self.new) }
        ensures loss { Goes (Makes file) (loss_with S.loss self.old) (loss_with S.loss self.new) }
        ensures made { OnOk result (HasMade self.new) }
    {
        self.waits = false;
        make_all(&mut self.store, &mut self.put_off)?;
        self.store.create(file)
    }

    fn append(&mut self, file: u64, bytes: &[u8]) -> Result<(), StoreFault>
        requires { IsThere (disk_with S.disk self.old) file }
        ensures appended { OnOk result (Appends (disk_with S.disk self.old) file bytes.now (disk_with S.disk self.new)) }
        ensures refused { OnErr result (AppendsSome (disk_with S.disk self.old) file bytes.now (disk_with S.disk self.new)) }
        ensures cause { HasCause (disk_with S.disk self.old) result (disk_with S.disk self.new) }
        ensures loss { Goes (Tears file (len_of (disk_with S.disk self.old) file)) (loss_with S.loss self.old) (loss_with S.loss self.new) }
        ensures made { OnOk result (HasMade self.new) }
    {
        self.waits = false;
        make_all(&mut self.store, &mut self.put_off)?;
        self.store.append(file, bytes)
    }

    fn read_at(&mut self, file: u64, at: u64, buffer: &mut [u8]) -> Result<(), StoreFault>
        requires there { IsThere (disk_with S.disk self.old) file }
        requires within { at + length buffer.old ≤ len_of (disk_with S.disk self.old) file }
        ensures bytes { OnOk result ((disk_with S.disk self.new).honest
            → buffer.new ≡ take (length buffer.old) (drop at (bytes_of (disk_with S.disk self.old) file))) }
        ensures unchanged { Keeps (disk_with S.disk self.old) (disk_with S.disk self.new) }
        ensures cause { HasCause (disk_with S.disk self.old) result (disk_with S.disk self.new) }
        ensures loss { Goes Same (loss_with S.loss self.old) (loss_with S.loss self.new) }
        ensures untouched { IsUntouched S.disk S.loss self.old self.new }
    {
        self.store.read_at(file, at, buffer)
    }

    fn cut(&mut self, file: u64, len: u64) -> Result<(), StoreFault>
        requires there { IsThere (disk_with S.disk self.old) file }
        requires within { len ≤ len_of (disk_with S.disk self.old) file }
        ensures cut { OnOk result (Cuts (disk_with S.disk self.old) file len (disk_with S.disk self.new)) }
        ensures refused { OnErr result (Keeps (disk_with S.disk self.old) (disk_with S.disk self.new)) }
        ensures cause { HasCause (disk_with S.disk self.old) result (disk_with S.disk self.new) }
        ensures loss { Goes (Tears file len) (loss_with S.loss self.old) (loss_with S.loss self.new) }
        ensures untouched { IsUntouched S.disk S.loss self.old self.new }
    {
        if self.waits {
            self.put_off.push_back(Change::Cut { file, len })?;
            return Ok(());
        }
        make_all(&mut self.store, &mut self.put_off)?;
        self.store.cut(file, len)
    }

    fn remove(&mut self, file: u64) -> Result<(), StoreFault>
        requires { IsThere (disk_with S.disk self.old) file }
        ensures removed { OnOk result (Removes (disk_with S.disk self.old) file (disk_with S.disk self.new)) }
        ensures refused { OnErr result (Keeps (disk_with S.disk self.old) (disk_with S.disk self.new)) }
        ensures cause { HasCause (disk_with S.disk self.old) result (disk_with S.disk self.new) }
        ensures loss { Goes (Drops file) (loss_with S.loss self.old) (loss_with S.loss self.new) }
        ensures untouched { IsUntouched S.disk S.loss self.old self.new }
    {
        if self.waits {
            self.put_off.push_back(Change::Remove { file })?;
            return Ok(());
        }
        make_all(&mut self.store, &mut self.put_off)?;
        self.store.remove(file)
    }

    fn sync(&mut self) -> Result<(), StoreFault>
        ensures synced { OnOk result ((self.new.put_off ≡ []) × S.settled self.new.store → (disk_with S.disk self.new).honest
            → Only (disk_with S.disk self.new).files (loss_with S.loss self.new)) }
        ensures unchanged { Keeps (disk_with S.disk self.old) (disk_with S.disk self.new) }
        ensures cause { HasCause (disk_with S.disk self.old) result (disk_with S.disk self.new) }
        ensures loss { Goes (Clears (disk_with S.disk self.old).table) (loss_with S.loss self.old) (loss_with S.loss self.new) }
        ensures prompt { (self.old.put_off ≡ []) × S.settled self.old.store
            → Goes Same (loss_with S.loss self.old) (loss_with S.loss self.new) }
        ensures made { OnOk result (HasMade self.new) }
        // The store inside was synced, and a loss leaves of it what its own sync says.
        ensures inside { OnOk result (S.settled self.new.store → (S.disk self.new.store).honest
            → Only (S.disk self.new.store).files (S.loss self.new.store)) }
    {
        self.waits = false;
        make_all(&mut self.store, &mut self.put_off)?;
        self.store.sync()
    }

    fn is_synced(&self) -> bool
        ensures settled { result ≡ true → (self.now.put_off ≡ []) × S.settled self.now.store }
        ensures synced { result ≡ true → (disk_with S.disk self.now).honest
            → Only (disk_with S.disk self.now).files (loss_with S.loss self.now) }
        ensures made { result ≡ true → HasMade self.now }
        ensures inside { result ≡ true → (S.disk self.now.store).honest → Only (S.disk self.now.store).files (S.loss self.now.store) }
    {
        !self.waits && self.put_off.is_empty() && self.store.is_synced()
    }
}

impl<S: Store> PutsOff for Postponed<S> {
    ghost inside = { λ s. S.disk s.store };

    fn bytes_left(&self, file: u64, len: u64) -> Option<u64> {
        self.left(file, len)
    }
}
