//! A store over a folder of files.
//!
//! [`Folder`] is what is asked of a folder: its names, and of one file a length, a write at its end, a read at a place, a cut
//! and its removal. [`HostFolder`] is one of the system's, [`MemoryFolder`] one in memory. [`FolderStore`] is a store over any
//! folder: it knows each file's length, so that a call costs one call of the folder, and counts what the folder refuses.
//!
//! The contract: over a folder that is honest, that is, one that gives back what was written and that nobody else writes, the
//! store is what `Store` says. The system's own folder is honest while the system's answers are true of what was there at first and
//! what its calls made of that. Files with other names are left alone.
#![tactic(auto)]

mod changed;
mod folder;
mod history;
mod host;
mod host_folder;
mod lasting;
mod memory;
mod name;
mod refusal;
mod reserve;
mod store;

pub use folder::{Folder, FolderFault};
pub use host::make_folder;
pub use host_folder::HostFolder;
pub use memory::MemoryFolder;
pub use name::{file_name, file_number};
pub use refusal::{FolderCall, Refusal, Refusals};
pub use reserve::is_full;
pub use store::FolderStore;
