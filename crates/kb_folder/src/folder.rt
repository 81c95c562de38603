//! A folder of files, as a store sees it.

ghost use Rattle.std.specs.Prelude.{◌≡◌, ◌≤◌, ◌+◌, ◌++◌, None, [], length, take, IfOk, OnOk, OnErr};
ghost use Rattle.std.specs.FinMap as map;
ghost use Rattle.kb_store.specs.Loss.{Loss, IsLawfulLoss, Goes, Only, Same, Makes, Tears, Drops};
ghost use Rattle.kb_folder.specs.Folder.{Contents, Has, HasLength, bytes_in, Turns, Stays, IsAsBefore, AreNumbersOf, ReadsWhole};
ghost use Rattle.kb_folder.specs.Names.{numbers_named};
ghost use Rattle.kb_folder.specs.declared.folder.FolderFault.TheVariants.{Memory};

use std::alloc::{AllocError, AllocFailed, Global};
use thiserror::Error;

/// Why a folder refused a call.
#[derive(Clone, Copy, Debug, PartialEq, Eq, Error)]
pub enum FolderFault {
    /// The folder refused.
    #[error("the folder refused")]
    Refused,
    /// Memory ran out.
    #[error("out of memory")]
    Memory,
}

impl From<AllocError> for FolderFault {
    ghost from_gives = { λ _ e. e ≡ Memory };

    fn from(_: AllocError) -> Self {
        FolderFault::Memory
    }
}

impl<T: Drop> From<AllocFailed<T>> for FolderFault {
    ghost from_gives = { λ _ e. e ≡ Memory };

    fn from(_: AllocFailed<T>) -> Self {
        FolderFault::Memory
    }
}

/// A folder with numbered files.
///
/// What is said of its bytes holds where it is honest at the end of the call: it says so only while every answer so far was
/// that of its files. A refused call leaves the files as they were.
///
/// What a call changes may be lost with the power until [`Folder::sync`] was answered.
pub trait Folder {
    /// What the folder is to its callers.
    ghost contents: { Self → Contents };

    /// What a loss of power may leave of it.
    ghost loss: { Self → Loss };

    /// The names of all that the folder has, in any order.
    fn names(&mut self, alloc: Global) -> Result<Vec<String>, FolderFault>
        ensures names { IfOk result (λ names. (contents self.new).honest
            → AreNumbersOf (numbers_named names.items) (contents self.old).files) }
        ensures unchanged { Stays (contents self.old) (contents self.new) }
        ensures loss { Goes Same (loss self.old) (loss self.new) };

    /// The length of a file in bytes.
    fn len(&mut self, file: u64) -> Result<u64, FolderFault>
        requires { Has (contents self.old) file }
        ensures len { IfOk result (λ n. (contents self.new).honest → n ≡ length (bytes_in (contents self.old) file)) }
        ensures unchanged { Stays (contents self.old) (contents self.new) }
        ensures loss { Goes Same (loss self.old) (loss self.new) };

    /// Makes an empty file.
    fn create(&mut self, file: u64) -> Result<(), FolderFault>
        requires { (contents self.old).honest → map.get (contents self.old).files file ≡ None }
        ensures created { OnOk result (Turns (contents self.old) (map.insert (contents self.old).files file []) (contents self.new)) }
        ensures unchanged { OnErr result (Stays (contents self.old) (contents self.new)) }
        ensures loss { Goes (Makes file) (loss self.old) (loss self.new) };

    /// Writes bytes behind the end of a file, which is told, and answers how many of them the folder took: all, or the first
    /// ones.
    fn write_end(&mut self, file: u64, end: u64, bytes: &[u8]) -> Result<usize, FolderFault>
        requires { HasLength (contents self.old) file end }
        ensures count { IfOk result (λ n. n ≤ length bytes.now) }
        ensures written { IfOk result (λ n. Turns (contents self.old)
            (map.insert (contents self.old).files file (bytes_in (contents self.old) file ++ take n bytes.now)) (contents self.new)) }
        ensures unchanged { OnErr result (Stays (contents self.old) (contents self.new)) }
        ensures loss { Goes (Tears file end) (loss self.old) (loss self.new) };

    /// Reads bytes of a file from `at` on into a buffer, and answers how many. What is within the file is read whole.
    fn read_at(&mut self, file: u64, at: u64, buffer: &mut [u8]) -> Result<usize, FolderFault>
        requires { Has (contents self.old) file }
        ensures bytes { IfOk result (λ n. (contents self.new).honest
            → ReadsWhole (bytes_in (contents self.old) file) at buffer.old n buffer.new) }
        ensures unchanged { Stays (contents self.old) (contents self.new) }
        ensures loss { Goes Same (loss self.old) (loss self.new) };

    /// Cuts a file to its first bytes.
    fn cut(&mut self, file: u64, len: u64) -> Result<(), FolderFault>
        requires there { Has (contents self.old) file }
        requires within { (contents self.old).honest → len ≤ length (bytes_in (contents self.old) file) }
        ensures cut { OnOk result (Turns (contents self.old)
            (map.insert (contents self.old).files file (take len (bytes_in (contents self.old) file))) (contents self.new)) }
        ensures unchanged { OnErr result (Stays (contents self.old) (contents self.new)) }
        ensures loss { Goes (Tears file len) (loss self.old) (loss self.new) };

    /// Removes a file.
    fn remove(&mut self, file: u64) -> Result<(), FolderFault>
        requires { Has (contents self.old) file }
        ensures removed { OnOk result (Turns (contents self.old) (map.remove (contents self.old).files file) (contents self.new)) }
        ensures unchanged { OnErr result (Stays (contents self.old) (contents self.new)) }
        ensures loss { Goes (Drops file) (loss self.old) (loss self.new) };

    /// Makes all that was written, cut, made and removed so far last through a loss of power. Where it is refused, nothing is known of
    /// what was changed since the last sync, and no later one may be believed: the system may take for written what it could not write.
    fn sync(&mut self) -> Result<(), FolderFault>
        ensures synced { OnOk result ((contents self.new).honest → Only (contents self.new).files (loss self.new)) }
        ensures unchanged { IsAsBefore (contents self.old) (contents self.new) }
        ensures loss { Goes Same (loss self.old) (loss self.new) };

    /// A moment is one of those since an earlier one.
    ghost timely: { (folder : Self) → IsLawfulLoss (loss folder) };
}
