//! What a disk does: numbered files of bytes, and what each refusal leaves.
//!
//! [`Store`] is the one meaning of a disk under which every log above is proved once, for stores that are honest and for
//! stores that are not. A contract sees a store as a `Disk`: its table of numbers and lengths, which every store keeps; the
//! bytes of its files, which are spoken of only where the store is honest; and how often its device has failed. Each call
//! takes one disk to the next as `specs/Disk.antt` says.
//!
//! [`MemoryStore`] keeps its files in memory, is honest always and never fails. [`FusedStore`] refuses chosen calls of any
//! other store, as a failing disk would. [`read_file`] reads a whole file.
#![tactic(auto)]

mod direct;
mod fault;
mod fused;
mod memory;
mod read;
mod store;

pub use direct::Direct;
pub use fault::StoreFault;
pub use fused::{Fuse, FusedStore};
pub use memory::MemoryStore;
pub use read::read_file;
pub use store::Store;
