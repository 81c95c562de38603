//! The opening of a tenant from the files of a store.
//!
//! [`Directory`] says whose the files are: each file's header is read once, and the files of a tenant's catalog or of a partition
//! are then had in logarithmic time. [`open_tenant`] makes of a tenant's files what it has: the topics are what the commands of its
//! catalog come to, and each partition is the log of its own files, with what idempotent producers have in it. Of the catalog's
//! generations the greatest that is whole is in use. The definition is `specs/Opened.antt`.
#![tactic(auto)]

mod catalog;
mod directory;
mod generation;
mod owner;
mod partition;
mod tenant;

pub use directory::{Directory, files_taken};
pub use tenant::{Opening, open_tenant};
