//! A tenant's files from one store to another.
//!
//! [`copy_tenant`] copies all files whose headers name a tenant behind the files of another store, in order and byte for byte. A log's
//! files are told apart by their headers, and stand in the order of their numbers, so that an opening of the other store finds the
//! tenant's topics, records, committed offsets and producer ids as they are here.
#![tactic(auto)]

mod copy;
mod fault;
mod laws;
mod owned;

pub use copy::{Copied, copy_tenant};
pub use fault::MoveFault;
pub use laws::{
    alike_files_open_alike, backups_open_to_their_moment, copies_leave_the_others,
    copies_open_alike,
};
pub use owned::{TenantFiles, tenant_files};
