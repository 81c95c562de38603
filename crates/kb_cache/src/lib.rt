//! What was read and written last, kept in memory.
//!
//! [`CachedStore`] is a store over another. It keeps what is appended to files that are read, and what is read in small pieces, and answers
//! a read from memory where that has all of its bytes. To its callers it is the store inside.
#![tactic(auto)]

mod asked;
mod cache;
mod cached;
mod entries;

pub use cache::{LARGEST_ENTRY, LARGEST_READ};
pub use cached::CachedStore;
