//! The files of a store as text, for a person to read.
//!
//! [`dump`] writes a line for each file, by rising number: whose log it is of and where it begins. Behind it stands a line for
//! each batch of the file, one after another, and one for bytes behind them that begin none:
//!
//! ```text
//! file 0 tenant a instance 1 partition 0 base 0
//! batch base 0 count 3 size 91
//! file 1 tenant a meta generation 2 base 0
//! damaged at 43
//! file 2 stray
//! ```
//!
//! Nothing of the store is changed. It keeps a line and a batch in memory, and no whole file.
#![tactic(auto)]

mod fault;
mod files;
mod line;
mod write;

pub use fault::DumpFault;
pub use files::dump;
