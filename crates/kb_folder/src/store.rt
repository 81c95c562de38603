//! A store over a folder.

ghost use Rattle.std.specs.Prelude.{◌≡◌, ◌+◌, ◌≤◌, ◌<◌, ◌^◌, ℕ, false, length, take, drop, cond, min, None, Some};
ghost use Rattle.std.specs.Prelude.{Err, IfOk, OnOk, OnErr, IsSome};
ghost use Rattle.std.specs.FinMap as map;
ghost use Rattle.std.specs.Ordering.{nat_cmp};
ghost use Rattle.std.specs.BTreeMap.{is_at};
ghost use Rattle.std.specs.Map.{lookup};
ghost use Rattle.kb_store.specs.declared.fault.StoreFault.TheVariants.{Device, Memory};
ghost use Rattle.kb_store.specs.Loss.{Goes, Same, Tears};
ghost use Rattle.kb_folder.specs.declared.folder.FolderFault.TheVariants as faults;
ghost use Rattle.kb_folder.specs.Folder.{AreNumbersOf, Stays, HasLength, AddsBytes};
ghost use Rattle.kb_folder.specs.Store.{Foldered, counted, disk_over, table_of, AreLengths};

use crate::name::numbers_of;
use crate::{Folder, FolderFault};
use kb_store::{Direct, Store, StoreFault};
use std::alloc::{AllocError, Global};
use std::collections::BTreeMap;
use std::marker::Model;

/// A store over a folder: the folder, the length of each of its files, and how often it refused.
#[derive(Drop)]
pub struct FolderStore<F: Folder> {
    folder: F,
    lens: BTreeMap<u64, u64>,
    failures: u64,
}

impl<F: Folder> Model for FolderStore<F> {
    ghost use Rattle.kb_folder.specs.Store.{Foldered, foldered, foldered_code, table_of, AreLengths};

    ghost Value = { Foldered F };

    ghost coded = { foldered_code F.code };

    ghost view = { λ s. foldered s.folder s.lens.entries s.failures };

    ghost invariant = { λ s. (F.contents s.folder).honest → AreLengths (table_of s.lens.entries) (F.contents s.folder).files };
}

/// The fault that a folder's fault is to a store's callers. What the folder refused is counted.
fn fault_of(failures: &mut u64, fault: FolderFault) -> StoreFault
    ensures failures { failures.new ≡ counted {T = ℕ} failures.old (Err result) }
    ensures memory { fault ≡ faults.Memory → result ≡ Memory }
    ensures device { fault ≡ faults.Refused → result ≡ Device }
{
    match fault {
        FolderFault::Refused => refused(failures),
        FolderFault::Memory => StoreFault::Memory,
    }
}

/// Counts one refusal of the device.
fn refused(failures: &mut u64) -> StoreFault
    ensures fault { result ≡ Device }
    ensures failures { failures.new ≡ min (failures.old + 1) 18446744073709551615 }
{
    *failures = failures.saturating_add(1);
    StoreFault::Device
}

/// Gives a file that is there another length.
fn set_len(lens: &mut BTreeMap<u64, u64>, file: u64, len: u64)
    requires { IsSome (lookup (is_at (nat_cmp file)) lens.old.entries) }
    ensures { (q : ℕ) → lookup (is_at (nat_cmp q)) lens.new.entries
        ≡ cond (is_at (nat_cmp file) q) (Some len) (lookup (is_at (nat_cmp q)) lens.old.entries) }
{
    match lens.get_mut(&file) {
        Some(kept) => *kept = len,
        None => unreachable!(),
    }
}

/// The length of a file that is there.
fn kept_len(lens: &BTreeMap<u64, u64>, file: u64) -> u64
    requires { IsSome (lookup (is_at (nat_cmp file)) lens.now.entries) }
    ensures { lookup (is_at (nat_cmp file)) lens.now.entries ≡ Some result }
{
    match lens.get(&file) {
        Some(len) => *len,
        None => unreachable!(),
    }
}

/// The numbers of the files, ascending.
fn numbers_in(alloc: Global, lens: &BTreeMap<u64, u64>) -> Result<Vec<u64>, AllocError>
    ensures { IfOk result (λ numbers. numbers.items ≡ map.keys (table_of lens.now.entries)) }
{
    let mut numbers = Vec::new(alloc);
    for number in lens.keys() {
        numbers.push(*number)?;
    }
    Ok(numbers)
}

/// The lengths of a folder's files.
fn lens_in<F: Folder>(
    alloc: Global,
    folder: &mut F,
    numbers: &[u64],
) -> Result<BTreeMap<u64, u64>, FolderFault>
    requires { (F.contents folder.old).honest → AreNumbersOf numbers.now (F.contents folder.old).files }
    ensures lens { IfOk result (λ lens. (F.contents folder.new).honest → AreLengths (table_of lens.entries) (F.contents folder.old).files) }
    ensures unchanged { Stays (F.contents folder.old) (F.contents folder.new) }
    ensures loss { Goes Same (F.loss folder.old) (F.loss folder.new) }
{
    let mut lens = BTreeMap::new(alloc);
    for number in numbers {
        let len = folder.len(*number)?;
        lens.insert(*number, len)?;
    }
    Ok(lens)
}

impl<F: Folder> FolderStore<F> {
    /// The store of a folder's files, whose names and lengths are asked for now. Other names are left alone.
    pub fn new(alloc: Global, mut folder: F) -> Result<Self, FolderFault>
    where
        F: Drop,
        ensures folder { IfOk result (λ store. Stays (F.contents folder) (F.contents store.folder)) }
        ensures loss { IfOk result (λ store. Goes Same (F.loss folder) (F.loss store.folder)) }
        ensures lens { IfOk result (λ store. (F.contents store.folder).honest
            → AreLengths (table_of store.lens) (F.contents folder).files) }
        ensures failures { IfOk result (λ store. store.failures ≡ 0) }
    {
        let names = folder.names(alloc)?;
        let numbers = numbers_of(alloc, &names)?;
        let lens = lens_in(alloc, &mut folder, &numbers)?;
        Ok(FolderStore {
            folder,
            lens,
            failures: 0,
        })
    }

    /// The folder.
    pub fn into_folder(self) -> F
        ensures { result ≡ self.folder }
    {
        self.folder
    }
}

/// Adds bytes behind the end of a file, call by call, up to the last one or to a refusal. A call that takes none is one.
/// It answers how many were added, and what refused the rest: where a call was refused some were still to be added, since none is made
/// for none.
fn add_on<F: Folder>(
    folder: &mut F,
    file: u64,
    end: u64,
    bytes: &[u8],
) -> (usize, Option<FolderFault>)
    requires there { HasLength (F.contents folder.old) file end }
    requires fits { end + length bytes.now < 2 ^ 64 }
    ensures count { result.0 ≤ length bytes.now }
    ensures whole { result.1 ≡ None → result.0 ≡ length bytes.now }
    ensures short { IsSome result.1 → result.0 < length bytes.now }
    ensures added { AddsBytes (F.contents folder.old) file (take result.0 bytes.now) (F.contents folder.new) }
    ensures loss { Goes (Tears file end) (F.loss folder.old) (F.loss folder.new) }
{
    let mut added = 0;
    while added < bytes.len() {
        match folder.write_end(file, end + added as u64, &bytes[added..]) {
            Ok(0) => return (added, Some(FolderFault::Refused)),
            Ok(taken) => added += taken,
            Err(fault) => return (added, Some(fault)),
        }
    }
    (added, None)
}

/// Adds bytes behind the end of a file, all of them. Where the folder refuses some of them, the ones that it took are cut off
/// again, where it lets them. It answers how many were added, fewer than all then, and what was refused.
fn add_whole<F: Folder>(
    folder: &mut F,
    file: u64,
    end: u64,
    bytes: &[u8],
) -> (usize, Option<FolderFault>)
    requires there { HasLength (F.contents folder.old) file end }
    requires fits { end + length bytes.now < 2 ^ 64 }
    ensures count { result.0 ≤ length bytes.now }
    ensures whole { result.1 ≡ None → result.0 ≡ length bytes.now }
    ensures short { IsSome result.1 → result.0 < length bytes.now }
    ensures added { AddsBytes (F.contents folder.old) file (take result.0 bytes.now) (F.contents folder.new) }
    ensures loss { Goes (Tears file end) (F.loss folder.old) (F.loss folder.new) }
{
    let (added, fault) = add_on(folder, file, end, bytes);
    if fault.is_none() {
        return (added, fault);
    }
    // A write that the system refused may have put bytes down all the same.
    match folder.cut(file, end) {
        Ok(()) => (0, fault),
        Err(_) => (added, fault),
    }
}

impl<F: Folder> Store for FolderStore<F> {
    ghost use Rattle.kb_store.specs.Disk.{IsThere, len_of, bytes_of, Keeps, Creates, Appends, Cuts, Removes, MayCreate, AppendsSome};
    ghost use Rattle.kb_store.specs.Disk.{HasCause};
    ghost use Rattle.kb_store.specs.Loss.{Clears, Drops, Makes, Only};
    ghost use Rattle.kb_folder.specs.Store.{disk_over, folder_lawful, counted};

    ghost disk = { disk_over F.contents };

    ghost loss = { λ s. F.loss s.folder };

    ghost settled = { λ _. Unit {0} };

    ghost lawful = { λ s. folder_lawful (F.contents s.folder) s.lens s.failures };

    ghost timely = { λ s. F.timely s.folder };

    fn failures(&self) -> u64 {
        self.failures
    }

    fn list(&mut self, alloc: Global) -> Result<Vec<u64>, StoreFault>
        ensures numbers { IfOk result (λ numbers. numbers.items ≡ map.keys (disk_over F.contents self.old).table) }
        ensures unchanged { Keeps (disk_over F.contents self.old) (disk_over F.contents self.new) }
        ensures cause { HasCause (disk_over F.contents self.old) result (disk_over F.contents self.new) }
        ensures loss { Goes Same (F.loss self.old.folder) (F.loss self.new.folder) }
        ensures counts { self.new.failures ≡ counted self.old.failures result }
    {
        Ok(numbers_in(alloc, &self.lens)?)
    }

    fn len(&mut self, file: u64) -> Result<u64, StoreFault>
        requires { IsThere (disk_over F.contents self.old) file }
        ensures len { IfOk result (λ n. n ≡ len_of (disk_over F.contents self.old) file) }
        ensures unchanged { Keeps (disk_over F.contents self.old) (disk_over F.contents self.new) }
        ensures cause { HasCause (disk_over F.contents self.old) result (disk_over F.contents self.new) }
        ensures loss { Goes Same (F.loss self.old.folder) (F.loss self.new.folder) }
        ensures counts { self.new.failures ≡ counted self.old.failures result }
    {
        Ok(kept_len(&self.lens, file))
    }

    fn create(&mut self, file: u64) -> Result<(), StoreFault>
        requires { map.get (disk_over F.contents self.old).table file ≡ None }
        ensures created { OnOk result (Creates (disk_over F.contents self.old) file (disk_over F.contents self.new)) }
        ensures refused { OnErr result (MayCreate (disk_over F.contents self.old) file (disk_over F.contents self.new)) }
        ensures cause { HasCause (disk_over F.contents self.old) result (disk_over F.contents self.new) }
        ensures loss { Goes (Makes file) (F.loss self.old.folder) (F.loss self.new.folder) }
        ensures counts { self.new.failures ≡ counted self.old.failures result }
        ensures absent { OnErr result (Keeps (disk_over F.contents self.old) (disk_over F.contents self.new)) }
    {
        self.lens.insert(file, 0)?;
        match self.folder.create(file) {
            Ok(()) => Ok(()),
            Err(fault) => {
                self.lens.remove(&file);
                Err(fault_of(&mut self.failures, fault))
            }
        }
    }

    fn append(&mut self, file: u64, bytes: &[u8]) -> Result<(), StoreFault>
        requires { IsThere (disk_over F.contents self.old) file }
        ensures appended { OnOk result (Appends (disk_over F.contents self.old) file bytes.now (disk_over F.contents self.new)) }
        ensures refused { OnErr result (AppendsSome (disk_over F.contents self.old) file bytes.now (disk_over F.contents self.new)) }
        ensures cause { HasCause (disk_over F.contents self.old) result (disk_over F.contents self.new) }
        ensures loss { Goes (Tears file (len_of (disk_over F.contents self.old) file)) (F.loss self.old.folder) (F.loss self.new.folder) }
        ensures counts { self.new.failures ≡ counted self.old.failures result }
    {
        let end = kept_len(&self.lens, file);
        if bytes.len() as u64 > u64::MAX - end {
            return Err(refused(&mut self.failures));
        }
        let (added, fault) = add_whole(&mut self.folder, file, end, bytes);
        set_len(&mut self.lens, file, end + added as u64);
        match fault {
            None => Ok(()),
            Some(fault) => Err(fault_of(&mut self.failures, fault)),
        }
    }

    fn read_at(&mut self, file: u64, at: u64, buffer: &mut [u8]) -> Result<(), StoreFault>
        requires there { IsThere (disk_over F.contents self.old) file }
        requires within { at + length buffer.old ≤ len_of (disk_over F.contents self.old) file }
        ensures bytes { OnOk result ((disk_over F.contents self.new).honest
            → buffer.new ≡ take (length buffer.old) (drop at (bytes_of (disk_over F.contents self.old) file))) }
        ensures unchanged { Keeps (disk_over F.contents self.old) (disk_over F.contents self.new) }
        ensures cause { HasCause (disk_over F.contents self.old) result (disk_over F.contents self.new) }
        ensures loss { Goes Same (F.loss self.old.folder) (F.loss self.new.folder) }
        ensures counts { self.new.failures ≡ counted self.old.failures result }
    {
        match self.folder.read_at(file, at, buffer) {
            Ok(n) if n == buffer.len() => Ok(()),
            Ok(_) => Err(refused(&mut self.failures)),
            Err(fault) => Err(fault_of(&mut self.failures, fault)),
        }
    }

    fn cut(&mut self, file: u64, len: u64) -> Result<(), StoreFault>
        requires there { IsThere (disk_over F.contents self.old) file }
        requires within { len ≤ len_of (disk_over F.contents self.old) file }
        ensures cut { OnOk result (Cuts (disk_over F.contents self.old) file len (disk_over F.contents self.new)) }
        ensures refused { OnErr result (Keeps (disk_over F.contents self.old) (disk_over F.contents self.new)) }
        ensures cause { HasCause (disk_over F.contents self.old) result (disk_over F.contents self.new) }
        ensures loss { Goes (Tears file len) (F.loss self.old.folder) (F.loss self.new.folder) }
        ensures counts { self.new.failures ≡ counted self.old.failures result }
    {
        match self.folder.cut(file, len) {
            Ok(()) => {
                set_len(&mut self.lens, file, len);
                Ok(())
            }
            Err(fault) => Err(fault_of(&mut self.failures, fault)),
        }
    }

    fn remove(&mut self, file: u64) -> Result<(), StoreFault>
        requires { IsThere (disk_over F.contents self.old) file }
        ensures removed { OnOk result (Removes (disk_over F.contents self.old) file (disk_over F.contents self.new)) }
        ensures refused { OnErr result (Keeps (disk_over F.contents self.old) (disk_over F.contents self.new)) }
        ensures cause { HasCause (disk_over F.contents self.old) result (disk_over F.contents self.new) }
        ensures loss { Goes (Drops file) (F.loss self.old.folder) (F.loss self.new.folder) }
        ensures counts { self.new.failures ≡ counted self.old.failures result }
    {
        match self.folder.remove(file) {
            Ok(()) => {
                self.lens.remove(&file);
                Ok(())
            }
            Err(fault) => Err(fault_of(&mut self.failures, fault)),
        }
    }

    fn sync(&mut self) -> Result<(), StoreFault>
        ensures synced { OnOk result (Unit {0} → (disk_over F.contents self.new).honest
            → Only (disk_over F.contents self.new).files (F.loss self.new.folder)) }
        ensures unchanged { Keeps (disk_over F.contents self.old) (disk_over F.contents self.new) }
        ensures cause { HasCause (disk_over F.contents self.old) result (disk_over F.contents self.new) }
        ensures loss { Goes (Clears (disk_over F.contents self.old).table) (F.loss self.old.folder) (F.loss self.new.folder) }
        ensures prompt { Goes Same (F.loss self.old.folder) (F.loss self.new.folder) }
        ensures counts { self.new.failures ≡ counted self.old.failures result }
    {
        match self.folder.sync() {
            Ok(()) => Ok(()),
            Err(fault) => Err(fault_of(&mut self.failures, fault)),
        }
    }

    /// It does not keep in mind whether something was changed.
    fn is_synced(&self) -> bool
        ensures { result ≡ false }
    {
        false
    }
}

impl<F: Folder> Direct for FolderStore<F> {
    ghost prompt = { λ _. tt };
}
