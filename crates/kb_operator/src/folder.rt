//! The data folder.

ghost use Rattle.std.specs.Prelude.{◌≡◌, string_bytes, IfErr, IfOk};
ghost use Rattle.kb_operator.specs.Stopped.{IsFolderFault};

use crate::fault::OperatorFault;
use crate::refused::FolderJournal;
use kb_folder::{FolderFault, FolderStore, HostFolder, Refusals, is_full, make_folder};
use std::alloc::AllocError;
use std::fs::{File, OpenOptions, TryLockError};
use std::io::Write;
use std::os::unix::fs::OpenOptionsExt;
use std::{fs, io};

/// The name of a file that is made, written and removed at a start. It is no log's.
const TRIAL: &str = "trial";

/// The name of the file that keeps some room of the disk.
const RESERVE: &str = "reserve";

/// The store of the files of a folder of the system.
pub type DataStore = FolderStore<HostFolder<HostRuntime>>;

/// A data folder that this process alone has, until it ends.
#[derive(Drop)]
pub struct HeldFolder {
    path: String,
    /// It was not there before.
    is_new: bool,
    /// The handle that locks it.
    lock: File,
}

impl HeldFolder {
    /// Removes the folder again, where it was not there before and has nothing but a reserve.
    pub fn leave(self, rt: &HostRuntime) {
        if self.is_new && has_no_log(rt, self.path.as_str()) {
            let _ = remove_reserve(rt, self.path.as_str());
            // The system refuses one with files in it, which stays.
            let _ = fs::remove_dir(rt, self.path.as_str());
        }
    }
}

/// Whether there is nothing but a reserve in a folder, as far as it can be listed.
fn has_no_log(rt: &HostRuntime, path: &str) -> bool {
    let Ok(entries) = fs::read_dir(rt, path) else {
        return false;
    };
    for entry in entries {
        match entry {
            Ok(entry) if entry.file_name() == RESERVE => {}
            _ => return false,
        }
    }
    true
}

/// Removes the reserve of a folder.
fn remove_reserve(rt: &HostRuntime, path: &str) -> Result<(), AllocError> {
    let reserve = format!(in rt.alloc(); "{path}/{RESERVE}")?;
    let _ = fs::remove_file(rt, reserve.as_str());
    Ok(())
}

/// Takes the folder at a path for this process alone, and makes it where it is missing. Another process that holds it is a fault, and
/// so is a folder in which no file can be made, written and removed. One on a full disk is taken.
///
/// It is held by a lock of the system until the handle is closed, and so no longer than the process lives, however it ends.
pub fn hold(rt: &HostRuntime, path: &str) -> Result<HeldFolder, OperatorFault> {
    let is_new = !is_folder(rt, path);
    if let Err(error) = make_folder(rt, path) {
        return Err(refused(rt, "make", path, error));
    }
    let held = HeldFolder {
        path: String::from_str(rt.alloc(), path)?,
        is_new,
        lock: locked(rt, path)?,
    };
    try_write(rt, path)?;
    Ok(held)
}

/// The handle of a folder, by which it is locked for this process alone.
fn locked(rt: &HostRuntime, path: &str) -> Result<File, OperatorFault> {
    let folder = match File::open(rt, path) {
        Ok(folder) => folder,
        Err(error) => return Err(refused(rt, "open", path, error)),
    };
    match folder.try_lock() {
        Ok(()) => Ok(folder),
        Err(TryLockError::WouldBlock) => {
            Err(OperatorFault::Held(String::from_str(rt.alloc(), path)?))
        }
        Err(TryLockError::Error(error)) => Err(refused(rt, "lock", path, error)),
    }
}

/// Looks into the folder at a path, which is there, beside others that look into it, and changes nothing. A process that serves it is a
/// fault. While the handle is open none can begin to.
pub fn look_into(rt: &HostRuntime, path: &str) -> Result<File, OperatorFault> {
    let folder = match File::open(rt, path) {
        Ok(folder) => folder,
        Err(error) => return Err(refused(rt, "open", path, error)),
    };
    match folder.try_lock_shared() {
        Ok(()) => Ok(folder),
        Err(TryLockError::WouldBlock) => {
            Err(OperatorFault::Held(String::from_str(rt.alloc(), path)?))
        }
        Err(TryLockError::Error(error)) => Err(refused(rt, "lock", path, error)),
    }
}

/// Makes, writes and removes a file in a folder.
fn try_write(rt: &HostRuntime, folder: &str) -> Result<(), OperatorFault> {
    let path = format!(in rt.alloc(); "{folder}/{TRIAL}")?;
    let written = write_file(rt, path.as_str());
    let removed = fs::remove_file(rt, path.as_str());
    match written.and(removed) {
        Err(error) if !is_full(&error) => Err(refused(rt, "write", path.as_str(), error)),
        _ => Ok(()),
    }
}

/// Makes a file with one byte, or writes one into a file that is there.
fn write_file(rt: &HostRuntime, path: &str) -> io::Result<()> {
    let mut file = OpenOptions::new()
        .write(true)
        .create(true)
        .mode(0o600)
        .open(rt, path)?;
    file.write_all(b"\n")
}

/// The fault of a folder or a file that the system refuses.
fn refused(rt: &HostRuntime, call: &str, path: &str, error: io::Error) -> OperatorFault {
    match format!(in rt.alloc(); "cannot {call} {path}: {error}") {
        Ok(text) => OperatorFault::System(text),
        Err(_) => OperatorFault::Memory,
    }
}

/// Whether there is a folder at a path.
pub fn is_folder(rt: &HostRuntime, path: &str) -> bool {
    match fs::metadata(rt, path) {
        Ok(found) => found.is_dir(),
        Err(_) => false,
    }
}

/// The store of the files in a journal's folder that is there, to be read alone.
pub fn store_to_read(rt: &HostRuntime, journal: &FolderJournal) -> Result<DataStore, OperatorFault>
    ensures { IfErr result (IsFolderFault (string_bytes journal.now.folder)) }
{
    store_of(rt, journal, HostFolder::to_read(*rt, journal.folder()))
}

/// The store of the files in a journal's folder.
pub fn store_in(rt: &HostRuntime, journal: &FolderJournal) -> Result<DataStore, OperatorFault>
    ensures { IfErr result (IsFolderFault (string_bytes journal.now.folder)) }
{
    store_of(rt, journal, HostFolder::new(*rt, journal.folder()))
}

/// The store of the files in a journal's folder, which keeps a reserve for a full disk. Where it is to sync, all that it finds is made to
/// last first: what a killed process wrote last need not be on the disk, and what is answered from it must be.
pub fn store_to_serve(
    rt: &HostRuntime,
    journal: &FolderJournal,
    syncs: bool,
) -> Result<DataStore, OperatorFault>
    ensures { IfErr result (IsFolderFault (string_bytes journal.now.folder)) }
{
    let refusals = journal.refusals().share()?;
    store_of(
        rt,
        journal,
        folder_to_serve(rt, journal.folder(), refusals, syncs),
    )
}

/// A folder of the system that keeps a reserve, and makes what it changes last where it is to.
fn folder_to_serve(
    rt: &HostRuntime,
    path: &str,
    refusals: Refusals,
    syncs: bool,
) -> Result<HostFolder<HostRuntime>, FolderFault>
    ensures { IfOk result (λ folder. folder.syncs ≡ syncs) }
{
    let folder = HostFolder::new(*rt, path)?.with_reserve().noting(refusals);
    if syncs { folder.syncing() } else { Ok(folder) }
}

/// The store of the files in a folder. What the system refuses to it is noted in the journal.
fn store_of(
    rt: &HostRuntime,
    journal: &FolderJournal,
    folder: Result<HostFolder<HostRuntime>, FolderFault>,
) -> Result<DataStore, OperatorFault>
    ensures { IfErr result (IsFolderFault (string_bytes journal.now.folder)) }
{
    let alloc = rt.alloc();
    let folder = match folder {
        Ok(folder) => folder.noting(journal.refusals().share()?),
        Err(fault) => return Err(journal.of_folder(alloc, fault)),
    };
    match FolderStore::new(alloc, folder) {
        Ok(store) => Ok(store),
        Err(fault) => Err(journal.of_folder(alloc, fault)),
    }
}
