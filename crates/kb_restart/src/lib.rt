//! A broker that opens with what the files of its store say.
//!
//! [`open_broker`] reads the header of each file once, makes of each tenant's files what it has (`kb_opening`), and gives the broker of
//! those tenants, to which nobody is connected. Files that are of no log are left alone, and their numbers are told. What of a file is
//! not of its log is dropped; no other file is changed. What was dropped is told by [`dropped_between`] two lists of [`file_lengths`],
//! of before and after. Beside the broker stands the instance that each tenant's next topic gets. How much there is now is told by
//! [`Counts`] and [`FileTotal`]. [`reopen`] stops a broker and opens one with the files that it leaves.
//!
//! [`run_from_files`] opens a broker and runs events on it. [`run_both_from_files`] does so on two stores: a tenant gets on a broker with
//! its files alone what it gets on one with the files of many.
#![tactic(auto)]

mod again;
mod both;
mod counts;
mod lengths;
mod opening;
mod promises;

pub use again::reopen;
pub use both::{Ran, run_both_from_files, run_from_files};
pub use counts::Counts;
pub use lengths::{Dropped, FileLength, FileTotal, dropped_between, file_lengths};
pub use opening::{Restarted, open_broker};
pub use promises::opened_alone_from_files_is_the_same;
