//! A store that refuses chosen calls of another.
ghost use Rattle.std.specs.Prelude.{◌≡◌, ◌+◌, ◌≤◌, ◌<◌, IfOk, OnOk, OnErr, Ok, length, take, drop, None, true, if◌then◌else◌, min};
ghost use Rattle.std.specs.FinMap as map;

use crate::{Store, StoreFault};
use std::alloc::Global;

/// Which calls are refused, counted from 1. `failures` is not counted.
#[derive(Clone, Copy, Debug, PartialEq, Eq)]
pub enum Fuse {
    /// The call of that number alone.
    Once(u64),
    /// That call and all after it.
    From(u64),
}

/// A store whose device refuses the calls that a fuse names, and does the others as the store inside does them.
///
/// Each refused call raises `failures`. A refused create leaves the file absent if `keep` is 0, else empty. A refused append
/// leaves the first `keep` of the new bytes, at most all but the last. The store inside is asked for that, and may refuse it, as
/// `partial` tells. Any other refused call changes nothing.
#[derive(Drop)]
pub struct FusedStore<S: Store> {
    /// The store inside.
    pub store: S,
    /// Which calls are refused.
    pub fuse: Fuse,
    /// How many bytes of a refused append are kept, where it had more.
    pub keep: u64,
    /// How many calls there were, short of `u64`'s end.
    pub calls: u64,
    /// How many of them the fuse refused, short of `u64`'s end.
    pub refused: u64,
    /// What the store inside answered to its part of the last refused create or append; `Ok` before one.
    pub partial: Result<(), StoreFault>,
}

impl<S: Store> FusedStore<S> {
    ghost use Rattle.kb_store.specs.Fused.{refuses_call, one_more};

    /// The store with a fuse, before its first call.
    pub fn new(store: S, fuse: Fuse, keep: u64) -> Self
        ensures { result ≡ record { store = store; fuse = fuse; keep = keep; calls = 0; refused = 0; partial = Ok tt } }
    {
        FusedStore {
            store,
            fuse,
            keep,
            calls: 0,
            refused: 0,
            partial: Ok(()),
        }
    }

    /// The store inside, with what the calls left in it.
    pub fn into_store(self) -> S
        ensures { result ≡ self.store }
    {
        let FusedStore { store, .. } = self;
        store
    }

    // Counts a call, and answers whether it is refused.
    fn refuses(&mut self) -> bool
        ensures answer { result ≡ refuses_call self.old.fuse (one_more self.old.calls) }
        ensures counted { self.new ≡ record self.old {
          calls = one_more self.old.calls;
          refused = if result then one_more self.old.refused
              else self.old.refused;
        } }
    {
        self.calls = self.calls.saturating_add(1);
        let refuses = match self.fuse {
            Fuse::Once(k) => self.calls == k,
            Fuse::From(k) => self.calls >= k,
        };
        if refuses {
            self.refused = self.refused.saturating_add(1);
        }
        refuses
    }
}

impl<S: Store> Store for FusedStore<S> {
    ghost use Rattle.kb_store.specs.Disk.{IsThere, len_of, bytes_of, Keeps, Creates, Appends, Cuts, Removes, MayCreate, AppendsSome};
    ghost use Rattle.kb_store.specs.Disk.{HasCause};
    ghost use Rattle.kb_store.specs.Loss.{Goes, Only, Same, Makes, Tears, Drops, Clears};
    ghost use Rattle.kb_store.specs.Fused.{disk_through, fused_lawful, Counts, CountsWhole, refuses_call, kept_front, one_more};

    ghost disk = { disk_through S.disk };

    ghost loss = { λ s. S.loss s.store };

    ghost settled = { λ s. S.settled s.store };

    ghost timely = { λ s. S.timely s.store };

    ghost lawful = { λ s. fused_lawful (S.disk s.store) s.refused (S.lawful s.store) };

    fn failures(&self) -> u64 {
        self.store.failures().saturating_add(self.refused)
    }

    fn list(&mut self, alloc: Global) -> Result<Vec<u64>, StoreFault>
        ensures numbers { IfOk result (λ numbers. numbers.items ≡ map.keys (S.disk self.old.store).table) }
        ensures unchanged { Keeps (disk_through S.disk self.old) (disk_through S.disk self.new) }
        ensures cause { HasCause (disk_through S.disk self.old) result (disk_through S.disk self.new) }
        ensures loss { Goes Same (S.loss self.old.store) (S.loss self.new.store) }
        ensures counts { CountsWhole self.old result self.new }
    {
        if self.refuses() {
            return Err(StoreFault::Device);
        }
        self.store.list(alloc)
    }

    fn len(&mut self, file: u64) -> Result<u64, StoreFault>
        requires { IsThere (disk_through S.disk self.old) file }
        ensures len { IfOk result (λ n. n ≡ len_of (disk_through S.disk self.old) file) }
        ensures unchanged { Keeps (disk_through S.disk self.old) (disk_through S.disk self.new) }
        ensures cause { HasCause (disk_through S.disk self.old) result (disk_through S.disk self.new) }
        ensures loss { Goes Same (S.loss self.old.store) (S.loss self.new.store) }
        ensures counts { CountsWhole self.old result self.new }
    {
        if self.refuses() {
            return Err(StoreFault::Device);
        }
        self.store.len(file)
    }

    fn create(&mut self, file: u64) -> Result<(), StoreFault>
        requires { map.get (disk_through S.disk self.old).table file ≡ None }
        ensures created { OnOk result (Creates (disk_through S.disk self.old) file (disk_through S.disk self.new)) }
        ensures refused { OnErr result (MayCreate (disk_through S.disk self.old) file (disk_through S.disk self.new)) }
        ensures cause { HasCause (disk_through S.disk self.old) result (disk_through S.disk self.new) }
        ensures loss { Goes (Makes file) (S.loss self.old.store) (S.loss self.new.store) }
        ensures counts { Counts self.old result self.new }
        // With nothing to keep a call that the fuse refuses makes no file. Else it makes one, where the store inside does.
        ensures absent { refuses_call self.old.fuse (one_more self.old.calls) ≡ true → self.old.keep ≡ 0 → self.new.store ≡ self.old.store }
        ensures empty { refuses_call self.old.fuse (one_more self.old.calls) ≡ true → 0 < self.old.keep
            → OnOk self.new.partial (Creates (disk_through S.disk self.old) file (disk_through S.disk self.new)) }
        ensures partial { refuses_call self.old.fuse (one_more self.old.calls) ≡ true → 0 < self.old.keep
            → HasCause (S.disk self.old.store) self.new.partial (S.disk self.new.store) }
    {
        if self.refuses() {
            if self.keep > 0 {
                self.partial = self.store.create(file);
            }
            return Err(StoreFault::Device);
        }
        self.store.create(file)
    }

    fn append(&mut self, file: u64, bytes: &[u8]) -> Result<(), StoreFault>
        requires { IsThere (disk_through S.disk self.old) file }
        ensures appended { OnOk result (Appends (disk_through S.disk self.old) file bytes.now (disk_through S.disk self.new)) }
        ensures refused { OnErr result (AppendsSome (disk_through S.disk self.old) file bytes.now (disk_through S.disk self.new)) }
        ensures cause { HasCause (disk_through S.disk self.old) result (disk_through S.disk self.new) }
        ensures loss { Goes (Tears file (len_of (disk_through S.disk self.old) file)) (S.loss self.old.store) (S.loss self.new.store) }
        ensures counts { Counts self.old result self.new }
        // A call that the fuse refuses leaves the bytes that are to be kept, and no more. Where the store inside refuses these, too, it
        // leaves some front of them.
        ensures prefix { refuses_call self.old.fuse (one_more self.old.calls) ≡ true
            → OnOk self.new.partial
            (Appends (disk_through S.disk self.old) file (kept_front self.old.keep bytes.now) (disk_through S.disk self.new)) }
        ensures cut_short { refuses_call self.old.fuse (one_more self.old.calls) ≡ true
            → OnErr self.new.partial
            (AppendsSome (disk_through S.disk self.old) file (kept_front self.old.keep bytes.now) (disk_through S.disk self.new)) }
        ensures partial { refuses_call self.old.fuse (one_more self.old.calls) ≡ true
            → HasCause (S.disk self.old.store) self.new.partial (S.disk self.new.store) }
    {
        if self.refuses() {
            let most = bytes.len().saturating_sub(1) as u64;
            let kept = self.keep.min(most) as usize;
            self.partial = self.store.append(file, &bytes[..kept]);
            return Err(StoreFault::Device);
        }
        self.store.append(file, bytes)
    }

    fn read_at(&mut self, file: u64, at: u64, buffer: &mut [u8]) -> Result<(), StoreFault>
        requires there { IsThere (disk_through S.disk self.old) file }
        requires within { at + length buffer.old ≤ len_of (disk_through S.disk self.old) file }
        ensures bytes { OnOk result ((disk_through S.disk self.new).honest
            → buffer.new ≡ take (length buffer.old) (drop at (bytes_of (disk_through S.disk self.old) file))) }
        ensures unchanged { Keeps (disk_through S.disk self.old) (disk_through S.disk self.new) }
        ensures cause { HasCause (disk_through S.disk self.old) result (disk_through S.disk self.new) }
        ensures loss { Goes Same (S.loss self.old.store) (S.loss self.new.store) }
        ensures counts { CountsWhole self.old result self.new }
    {
        if self.refuses() {
            return Err(StoreFault::Device);
        }
        self.store.read_at(file, at, buffer)
    }

    fn cut(&mut self, file: u64, len: u64) -> Result<(), StoreFault>
        requires there { IsThere (disk_through S.disk self.old) file }
        requires within { len ≤ len_of (disk_through S.disk self.old) file }
        ensures cut { OnOk result (Cuts (disk_through S.disk self.old) file len (disk_through S.disk self.new)) }
        ensures refused { OnErr result (Keeps (disk_through S.disk self.old) (disk_through S.disk self.new)) }
        ensures cause { HasCause (disk_through S.disk self.old) result (disk_through S.disk self.new) }
        ensures loss { Goes (Tears file len) (S.loss self.old.store) (S.loss self.new.store) }
        ensures counts { CountsWhole self.old result self.new }
    {
        if self.refuses() {
            return Err(StoreFault::Device);
        }
        self.store.cut(file, len)
    }

    fn remove(&mut self, file: u64) -> Result<(), StoreFault>
        requires { IsThere (disk_through S.disk self.old) file }
        ensures removed { OnOk result (Removes (disk_through S.disk self.old) file (disk_through S.disk self.new)) }
        ensures refused { OnErr result (Keeps (disk_through S.disk self.old) (disk_through S.disk self.new)) }
        ensures cause { HasCause (disk_through S.disk self.old) result (disk_through S.disk self.new) }
        ensures loss { Goes (Drops file) (S.loss self.old.store) (S.loss self.new.store) }
        ensures counts { CountsWhole self.old result self.new }
    {
        if self.refuses() {
            return Err(StoreFault::Device);
        }
        self.store.remove(file)
    }

    fn sync(&mut self) -> Result<(), StoreFault>
        ensures synced { OnOk result (S.settled self.new.store → (disk_through S.disk self.new).honest
            → Only (disk_through S.disk self.new).files (S.loss self.new.store)) }
        ensures unchanged { Keeps (disk_through S.disk self.old) (disk_through S.disk self.new) }
        ensures cause { HasCause (disk_through S.disk self.old) result (disk_through S.disk self.new) }
        ensures loss { Goes (Clears (disk_through S.disk self.old).table) (S.loss self.old.store) (S.loss self.new.store) }
        ensures prompt { S.settled self.old.store → Goes Same (S.loss self.old.store) (S.loss self.new.store) }
        ensures counts { CountsWhole self.old result self.new }
    {
        if self.refuses() {
            return Err(StoreFault::Device);
        }
        self.store.sync()
    }

    fn is_synced(&self) -> bool
        ensures settled { result ≡ true → S.settled self.now.store }
        ensures synced { result ≡ true → (S.disk self.now.store).honest → Only (S.disk self.now.store).files (S.loss self.now.store) }
    {
        self.store.is_synced()
    }
}
