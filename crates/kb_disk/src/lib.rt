//! The store that a data folder is served from.
//!
//! [`disk_to_serve`], [`disk_in`] and [`disk_to_read`] lay the stores of a data folder over one another. [`Disk`] is what they make. What
//! is over it takes any store ([`PutsOff`]), so that no proof of it looks into all of these.
#![tactic(auto)]

use kb_cache::CachedStore;
use kb_durable::DurableStore;
use kb_operator::{
    DataStore, FolderJournal, OperatorFault, store_in, store_to_read, store_to_serve,
};
use kb_settings::{Settings, Sync};
use kb_survey::Postponed;
use std::alloc::{AllocError, Global};
use std::hash::RandomState;
use std::io;

/// The store of a data folder's files, of which a loss of power leaves simple things alone, with what was read last, and what was written
/// to files that are read, in memory.
/// Nothing of it is cut or removed before the first write.
pub type Disk = Postponed<CachedStore<DurableStore<DataStore>>>;

/// The disk of a journal's folder, which keeps a reserve, and syncs where the settings say so.
pub fn disk_to_serve(
    rt: &HostRuntime,
    settings: &Settings,
    journal: &FolderJournal,
) -> Result<Disk, OperatorFault> {
    let syncs = settings.sync != Sync::Never;
    disk_over(rt, settings, store_to_serve(rt, journal, syncs)?, syncs)
}

/// The disk of a journal's folder, which keeps no reserve and never syncs.
pub fn disk_in(
    rt: &HostRuntime,
    settings: &Settings,
    journal: &FolderJournal,
) -> Result<Disk, OperatorFault> {
    disk_over(rt, settings, store_in(rt, journal)?, false)
}

/// The disk of a journal's folder that is there, to be read alone: it keeps no reserve and never syncs, and calls that write are refused.
pub fn disk_to_read(
    rt: &HostRuntime,
    settings: &Settings,
    journal: &FolderJournal,
) -> Result<Disk, OperatorFault> {
    disk_over(rt, settings, store_to_read(rt, journal)?, false)
}

/// A disk over a store, which keeps in memory what the settings say, and syncs or does not. How it hashes places is this process's own:
/// clients choose them.
fn disk_over(
    rt: &HostRuntime,
    settings: &Settings,
    store: DataStore,
    syncs: bool,
) -> Result<Disk, OperatorFault> {
    let alloc = rt.alloc();
    let hasher = match RandomState::new(rt) {
        Ok(hasher) => hasher,
        Err(error) => return Err(no_random(alloc, error)),
    };
    let store = DurableStore::new(alloc, store, syncs);
    let (batches, bytes) = (settings.cache_batches, settings.cache_bytes);
    Ok(Postponed::new(
        alloc,
        CachedStore::new(alloc, hasher, store, batches, bytes),
    ))
}

/// The fault of a start to which the system gives no random bytes.
fn no_random(alloc: Global, error: io::Error) -> OperatorFault {
    match random_text(alloc, error) {
        Ok(text) => OperatorFault::System(text),
        Err(_) => OperatorFault::Memory,
    }
}

/// What is told of it.
fn random_text(alloc: Global, error: io::Error) -> Result<String, AllocError> {
    format!(in alloc; "cannot get random bytes: {error}")
}
