//! What a broker's program asks of its operator and tells him: the settings, the data folder, and lines on standard error.
//!
//! [`settings_of`] reads the settings of a file, or says what is wrong with it, and [`look_at_start`] looks at what the process may have
//! open. [`hold`] takes the data folder, [`tell_disk`] tells where its disk has too little, [`tell_reserve`] where there was no room for
//! its reserve, and [`store_in`] is the store of its files. A [`Journal`] tells what happens while it is open, and a [`FolderJournal`] what
//! the system refuses to it, on [`Lines`] that wait for no reader. [`write_report`] tells what a start would find, and changes nothing.
#![tactic(auto)]

mod address;
mod bucket;
mod changed;
mod counts;
mod deleted;
mod disk;
mod dropped;
mod entries;
mod fault;
mod fits;
mod folder;
mod journal;
mod laws;
mod limits;
mod lines;
mod look;
mod named;
mod others;
mod reasons;
mod refused;
mod report;
mod reserve;
mod settings;
mod shown;
mod start;
mod sums;
mod texts;
mod write;

pub use address::{address_text, addresses_text, listen_fault};
pub use changed::last_change;
pub use counts::{RefusalCounts, TenantRefusals, Unread};
pub use deleted::find_deleted;
pub use disk::{disk_text, tell_disk};
pub use fault::OperatorFault;
pub use folder::{
    DataStore, HeldFolder, hold, is_folder, look_into, store_in, store_to_read, store_to_serve,
};
pub use journal::{Closed, Held, Journal, Word};
pub use laws::{logins_tell_no_password, names_end_no_line};
pub use lines::{LineLog, Lines};
pub use look::look_at_start;
pub use named::settings_of_files;
pub use refused::FolderJournal;
pub use report::write_report;
pub use reserve::tell_reserve;
pub use settings::{data_folder, settings_in, settings_of};
pub use shown::write_settings;
pub use start::examine;
