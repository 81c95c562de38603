//! A store by which what a loss of power may leave stays simple.
//!
//! [`DurableStore`] is a store over another. It puts off each removal until what was changed before it is synced, and syncs the store
//! inside before it makes a file. [`append_stands`] and the like say of any store what no loss of power can touch.
#![tactic(auto)]

mod durable;
mod promises;
mod torn;
mod waiting;

pub use durable::DurableStore;
pub use promises::{append_stands, create_stands, cut_stands, remove_stands, sync_stands};
pub use waiting::MOST_REMOVALS;
