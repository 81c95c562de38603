//! What a start on the files of a store would lose, before anything is lost.
//!
//! [`Postponed`] is a store that puts off what is cut and removed until the first write ([`PutsOff`]): an opening makes no write, so
//! that what it would drop can be looked at while all of it is still there. [`whole_batches`] tells how many whole batches stand in the
//! bytes that would go, [`is_damaged`] whether they may be of a damaged batch, [`read_stray`] why a file is of no log, and
//! [`snapshot_end`] how far a catalog's snapshot reaches.
#![tactic(auto)]

mod change;
mod ending;
mod look;
mod postponed;
mod promises;
mod snapshot;
mod stray;
mod whole;

pub use ending::{behind_run, is_damaged};
pub use look::{
    bytes_among, header_among, snapshot_end_among, stray_among, tail_among, whole_among,
};
pub use postponed::{Postponed, PutsOff};
pub use promises::{a_loss_is_that_inside, a_whole_batch_is_not_cut_short, sync_lasts_inside};
pub use snapshot::snapshot_end;
pub use stray::{Stray, read_stray};
pub use whole::{Whole, whole_batches};
