//! The files of a store, by whose they are.
ghost use Rattle.std.specs.Prelude.{◌≡◌, ◌≤◌, ◌⊎◌, ◌↔◌, ℕ, List, [], nat_eq, map, Some, None, IfOk, IfSome, OnOk, IsPermutation, IsSorted};
ghost use Rattle.std.specs.List.{All, Contains, IsDistinct};
ghost use Rattle.std.specs.List.Sorted.{IsStrictlySortedBy};
ghost use Rattle.std.specs.Ordering.{nat_cmp};
ghost use Rattle.std.specs.Cmp.Lexicographic.{slice_cmp};
ghost use Rattle.kb_store.specs.Disk.{IsThere, Keeps};
ghost use Rattle.kb_opening.specs.Owners.{HasFault, owner_by};
ghost use Rattle.kb_opening.specs.Directory.{all_files, files_at, HasFiles, IsDirectory, IsEmpty, Assigns, NoneBetween, TakesOut};
ghost use Rattle.kb_opening.specs.declared.owner.Owner.{Owner};
ghost use Rattle.kb_opening.specs.declared.owner.Owner.TheVariants as owners;
ghost use Rattle.kb_opening.specs.declared.directory.Directory.{Directory};

use crate::owner::{Owner, owner_by};
use kb_log::{LogFault, Shelf};
use kb_segment::SegmentHeader;
use kb_store::Store;
use std::alloc::{AllocError, Global};
use std::collections::BTreeMap;

/// Whose the files of a store are: of a generation of a tenant's catalog, of a partition, or nobody's. Each file stands once.
///
/// Tenants go by their places among the names. The files of a log are had in logarithmic time.
#[derive(Drop)]
pub struct Directory {
    pub(crate) alloc: Global,
    /// The files of each log that has any, in the order in which they were read.
    pub(crate) owned: BTreeMap<Owner, Vec<u64>>,
    /// The files that are nobody's: a header is unreadable, or names a tenant that is not named.
    pub(crate) strays: Vec<u64>,
}

impl Directory {
    /// No files. No memory is taken.
    fn new(alloc: Global) -> Self
        ensures { IsEmpty result }
    {
        Directory {
            alloc,
            owned: BTreeMap::new(alloc),
            strays: Vec::new(alloc),
        }
    }

    /// Reads the header of each of some files, once. The names of the tenants rise in byte order.
    ///
    /// It changes no file. `Store` is answered only where the store refused.
    pub fn read<S: Store>(
        alloc: Global,
        shelf: &mut Shelf<S>,
        names: &[&str],
        files: &[u64],
    ) -> Result<Directory, LogFault>
        requires there { All (λ n. IsThere (S.disk shelf.old.store) n) files.now }
        requires rise { IsStrictlySortedBy (slice_cmp nat_cmp) (map (λ name. name.now) names.now) }
        ensures unchanged { Keeps (S.disk shelf.old.store) (S.disk shelf.new.store) }
        ensures next { shelf.new.next ≡ shelf.old.next }
        ensures all { IfOk result (λ d. IsPermutation files.now (all_files d)) }
        ensures what { IfOk result (λ d. (S.disk shelf.new.store).honest
            → IsDirectory (S.disk shelf.old.store).files (map (λ name. name.now) names.now) files.now d) }
        ensures cause { HasFault (S.disk shelf.old.store) result (S.disk shelf.new.store) }
    {
        let mut directory = Directory::new(alloc);
        for file in files {
            let header = shelf.header(alloc, *file)?;
            directory.add(names, *file, header)?;
        }
        Ok(directory)
    }

    /// The greatest generation of a tenant's catalog that has files, of those up to one.
    pub(crate) fn latest_catalog(&self, tenant: usize, most: u64) -> Option<u64>
        ensures none { result ≡ None → (g : ℕ) → g ≤ most → files_at (owners.Catalog tenant g) self.now ≡ [] }
        ensures up_to { IfSome result (λ generation. generation ≤ most) }
        ensures greatest { IfSome result (λ generation. NoneBetween self.now tenant generation most) }
        ensures there { IfSome result (λ generation. HasFiles self.now (owners.Catalog tenant generation)) }
    {
        let first = Owner::Catalog {
            tenant,
            generation: 0,
        };
        let last = Owner::Catalog {
            tenant,
            generation: most,
        };
        let mut catalogs = self.owned.range(first..=last);
        match catalogs.next_back() {
            Some((Owner::Catalog { generation, .. }, _)) => Some(*generation),
            _ => None,
        }
    }

    /// The files of a generation of a tenant's catalog.
    pub(crate) fn catalog(&self, tenant: usize, generation: u64) -> &[u64]
        ensures { result.now ≡ files_at (owners.Catalog tenant generation) self.now }
    {
        match self.owned.get(&Owner::Catalog { tenant, generation }) {
            Some(numbers) => numbers,
            None => &[],
        }
    }

    /// Takes the files of a generation of a tenant's catalog out. No memory is taken.
    pub fn take_catalog(&mut self, tenant: usize, generation: u64) -> Vec<u64>
        ensures { TakesOut (owners.Catalog tenant generation) self.old result.items self.new }
    {
        self.take(Owner::Catalog { tenant, generation })
    }

    /// Takes the files of a partition out: none where it has none. No memory is taken.
    pub fn take_partition(&mut self, tenant: usize, instance: u64, number: u64) -> Vec<u64>
        ensures { TakesOut (owners.Partition tenant instance number) self.old result.items self.new }
    {
        self.take(Owner::Partition {
            tenant,
            instance,
            number,
        })
    }

    /// The files that nobody took out, ascending.
    pub fn into_strays(self) -> Result<Vec<u64>, AllocError>
        ensures these { IfOk result (λ left. IsPermutation (all_files self) left.items) }
        ensures rise { IfOk result (λ left. IsSorted nat_cmp left.items) }
    {
        let Directory { owned, strays, .. } = self;
        let mut left = strays;
        for (_, files) in owned {
            left.extend_from_slice(&files)?;
        }
        left.sort_unstable();
        Ok(left)
    }

    /// Takes the files of an owner out.
    fn take(&mut self, owner: Owner) -> Vec<u64>
        ensures { TakesOut owner self.old result.items self.new }
    {
        match self.owned.remove(&owner) {
            Some(files) => files,
            None => Vec::new(self.alloc),
        }
    }

    /// Adds a file, by the header that was read.
    fn add(
        &mut self,
        names: &[&str],
        file: u64,
        header: Option<SegmentHeader>,
    ) -> Result<(), AllocError>
        requires { IsStrictlySortedBy (slice_cmp nat_cmp) (map (λ name. name.now) names.now) }
        ensures { OnOk result (Assigns (owner_by (map (λ name. name.now) names.now) header) file self.old self.new) }
    {
        match owner_by(names, header) {
            Some(owner) => self.place(owner, file),
            None => {
                self.strays.push(file)?;
                Ok(())
            }
        }
    }

    /// Adds a file to its owner's.
    fn place(&mut self, owner: Owner, file: u64) -> Result<(), AllocError>
        ensures { OnOk result (Assigns (Some owner) file self.old self.new) }
    {
        if let Some(files) = self.owned.get_mut(&owner) {
            files.push(file)?;
            return Ok(());
        }
        let mut files = Vec::new(self.alloc);
        files.push(file)?;
        self.owned.insert(owner, files)?;
        Ok(())
    }
}

/// A file that stood in a directory was taken out with an owner's or stands there still. Where no file stood twice, none does in
/// either list, nor in both.
pub fn files_taken()
    ensures either { (owner : Owner) (old new : Directory) (taken : List ℕ) → TakesOut owner old taken new
        → (file : ℕ) → Contains (all_files old) file ↔ (Contains taken file ⊎ Contains (all_files new) file) }
    ensures apart { (owner : Owner) (old new : Directory) (taken : List ℕ) → TakesOut owner old taken new
        → IsDistinct nat_eq (all_files old)
        → IsDistinct nat_eq taken × IsDistinct nat_eq (all_files new)
        × ((file : ℕ) → Contains taken file → Contains (all_files new) file → ⊥) }
{}
