//! A store of numbered files, as its callers see it.
ghost use Rattle.std.specs.Prelude.{◌≡◌, ◌≤◌, ◌<◌, ◌+◌, ◌⊎◌, true, length, take, drop, None, IfOk, OnOk, OnErr};
ghost use Rattle.std.specs.FinMap as map;
ghost use Rattle.kb_store.specs.Disk.{Disk, IsThere, IsLawfulDisk, len_of, bytes_of, Keeps, Creates, Appends, Cuts, Removes, MayCreate};
ghost use Rattle.kb_store.specs.Disk.{AppendsSome, HasCause};
ghost use Rattle.kb_store.specs.Loss.{Loss, IsLawfulLoss, Goes, Only, Same, Makes, Tears, Drops, Clears};

use crate::StoreFault;
use std::alloc::Global;

/// Numbered files of bytes.
///
/// What is said of bytes holds where the store is honest at the end of the call: it says so only while every answer so far
/// was that of its files. The table of numbers and lengths is the store's own, honest or not, so that callers are safe on
/// any store. A number is a `u64`, a length is in bytes.
///
/// What a call changes may be lost with the power until [`Store::sync`] was answered. A loss takes of each file at most what calls
/// since then wrote behind its front, left of it, or made of its name.
pub trait Store {
    /// What the store is to its callers.
    ghost disk: { Self → Disk };

    /// What a loss of power may leave of it.
    ghost loss: { Self → Loss };

    /// It has nothing left to do of what it was asked for.
    ghost settled: { Self → Type 0 };

    /// How often the device has failed, short of u64's end.
    fn failures(&self) -> u64
        ensures { result ≡ (disk self.now).failures };

    /// The numbers of all files, ascending.
    fn list(&mut self, alloc: Global) -> Result<Vec<u64>, StoreFault>
        ensures numbers { IfOk result (λ numbers. numbers.items ≡ map.keys (disk self.old).table) }
        ensures unchanged { Keeps (disk self.old) (disk self.new) }
        ensures cause { HasCause (disk self.old) result (disk self.new) }
        ensures loss { Goes Same (loss self.old) (loss self.new) };

    /// The length of a file.
    fn len(&mut self, file: u64) -> Result<u64, StoreFault>
        requires { IsThere (disk self.old) file }
        ensures len { IfOk result (λ n. n ≡ len_of (disk self.old) file) }
        ensures unchanged { Keeps (disk self.old) (disk self.new) }
        ensures cause { HasCause (disk self.old) result (disk self.new) }
        ensures loss { Goes Same (loss self.old) (loss self.new) };

    /// Makes an empty file. After a refusal it is absent or empty.
    fn create(&mut self, file: u64) -> Result<(), StoreFault>
        requires { map.get (disk self.old).table file ≡ None }
        ensures created { OnOk result (Creates (disk self.old) file (disk self.new)) }
        ensures refused { OnErr result (MayCreate (disk self.old) file (disk self.new)) }
        ensures cause { HasCause (disk self.old) result (disk self.new) }
        ensures loss { Goes (Makes file) (loss self.old) (loss self.new) };

    /// Adds bytes at the end of a file. After a refusal the file has its old bytes and some front of the new ones, never all of them.
    /// So what was refused is not there whole.
    fn append(&mut self, file: u64, bytes: &[u8]) -> Result<(), StoreFault>
        requires { IsThere (disk self.old) file }
        ensures appended { OnOk result (Appends (disk self.old) file bytes.now (disk self.new)) }
        ensures refused { OnErr result (AppendsSome (disk self.old) file bytes.now (disk self.new)) }
        ensures cause { HasCause (disk self.old) result (disk self.new) }
        ensures loss { Goes (Tears file (len_of (disk self.old) file)) (loss self.old) (loss self.new) };

    /// Fills a buffer with the bytes of a file from `at` on. A refusal may leave anything in the buffer.
    fn read_at(&mut self, file: u64, at: u64, buffer: &mut [u8]) -> Result<(), StoreFault>
        requires there { IsThere (disk self.old) file }
        requires within { at + length buffer.old ≤ len_of (disk self.old) file }
        ensures bytes { OnOk result ((disk self.new).honest
            → buffer.new ≡ take (length buffer.old) (drop at (bytes_of (disk self.old) file))) }
        ensures unchanged { Keeps (disk self.old) (disk self.new) }
        ensures cause { HasCause (disk self.old) result (disk self.new) }
        ensures loss { Goes Same (loss self.old) (loss self.new) };

    /// Cuts a file to its first `len` bytes. A refusal changes nothing.
    fn cut(&mut self, file: u64, len: u64) -> Result<(), StoreFault>
        requires there { IsThere (disk self.old) file }
        requires within { len ≤ len_of (disk self.old) file }
        ensures cut { OnOk result (Cuts (disk self.old) file len (disk self.new)) }
        ensures refused { OnErr result (Keeps (disk self.old) (disk self.new)) }
        ensures cause { HasCause (disk self.old) result (disk self.new) }
        ensures loss { Goes (Tears file len) (loss self.old) (loss self.new) };

    /// Removes a file. A refusal changes nothing.
    fn remove(&mut self, file: u64) -> Result<(), StoreFault>
        requires { IsThere (disk self.old) file }
        ensures removed { OnOk result (Removes (disk self.old) file (disk self.new)) }
        ensures refused { OnErr result (Keeps (disk self.old) (disk self.new)) }
        ensures cause { HasCause (disk self.old) result (disk self.new) }
        ensures loss { Goes (Drops file) (loss self.old) (loss self.new) };

    /// Makes all that was done before last through a loss of power, and does what the store has put off. Where it is refused, nothing is
    /// known of what was changed since the last sync, and no later one may be believed: the system may take for written what it could
    /// not write.
    fn sync(&mut self) -> Result<(), StoreFault>
        ensures synced { OnOk result (settled self.new → (disk self.new).honest → Only (disk self.new).files (loss self.new)) }
        ensures unchanged { Keeps (disk self.old) (disk self.new) }
        ensures cause { HasCause (disk self.old) result (disk self.new) }
        ensures loss { Goes (Clears (disk self.old).table) (loss self.old) (loss self.new) }
        // A store that had put nothing off changes nothing.
        ensures prompt { settled self.old → Goes Same (loss self.old) (loss self.new) };

    /// Whether all that was done lasts through a loss of power, and nothing is put off. It may answer no where a sync has nothing to do.
    fn is_synced(&self) -> bool
        ensures settled { result ≡ true → settled self.now }
        ensures synced { result ≡ true → (disk self.now).honest → Only (disk self.now).files (loss self.now) };

    /// Where the store is honest the table has the lengths of its files, and each length fits a `u64`.
    ghost lawful: { (store : Self) → IsLawfulDisk (disk store) };

    /// A moment is one of those since an earlier one.
    ghost timely: { (store : Self) → IsLawfulLoss (loss store) };
}
