//! The one queue of all tenants' waiting requests.
//!
//! A fetch that waits for records and a group's member that waits for the others are parked here
//! by the number of their connection, until a deadline, under the keys that may make them ready.
//! [`Waits`] is the queue, and a [`WaitKey`] names a partition, a group or anything of one tenant.
//!
//! The contracts see the queue as a finite map from connections to their waits, so a connection
//! has at most one. `due`, `touched` and `touched_any` give exactly the parked connections whose
//! deadline has come, which wait under a key, or under one of several keys at least, and `all`
//! gives all of them: each once, ascending, and the queue stays as it is. `first_deadline` is the
//! least deadline of all.
//!
//! The entries stand in a slab. One set orders all of them by deadline, and each key has its
//! ordered set of connections, so what a call costs is the logarithm of what is parked and what
//! it answers, whatever other tenants park.
#![tactic(auto)]

mod entries;
mod entry;
mod gather;
mod key;
mod waiters;
mod waits;

pub use key::{GroupId, WaitKey};
pub use waits::Waits;
