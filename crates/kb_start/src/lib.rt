//! What a start on a data folder would lose or leave aside, and whether it goes on.
//!
//! [`Left`] is a file before and after an opening. [`survey`] says of which files whole batches would be gone, and which files are of
//! no log. [`why_refused`] judges that by what the operator agrees to ([`Consent`]). What is dropped of damaged files goes to a [`Keeper`]
//! first ([`keep_dropped`]), an end with a damaged batch alone, too ([`damaged_files`]).
//!
//! Files that are in the way of what is written from now on ([`files_in_way`]) go to one whole ([`keep_whole`]), where there is consent.
//! So do damaged files whose header cannot be read ([`unreadable_files`]).
//! [`deleted_files`] says which files are of deleted topics, and [`remove_files`] removes them.
#![tactic(auto)]

mod aside;
mod damaged;
mod deleted;
mod generations;
mod kept;
mod left;
mod losses;
mod starts;
mod verdict;

pub use aside::{files_in_way, keep_whole, unreadable_files};
pub use damaged::damaged_files;
pub use deleted::{CatalogOf, Deleted, deleted_files, remove_files};
pub use kept::{KeepFault, Keeper, KeeperRefused, keep_dropped};
pub use left::{Left, Total};
pub use losses::{Loss, Opened, StrayCounts, Surveyed, is_replaced, survey};
pub use starts::recorded_starts;
pub use verdict::{Cause, Consent, why_refused};
