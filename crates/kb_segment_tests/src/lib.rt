//! Worked cases of segment files: their headers as bytes, what is printed of them, logs that are opened from them, and a folder on a disk.
//!
//! There is nothing here but tests.
#![tactic(auto)]

#[cfg(test)]
mod alone;
#[cfg(test)]
mod cached;
#[cfg(test)]
mod dumped;
#[cfg(test)]
mod folders;
#[cfg(test)]
mod headers;
#[cfg(test)]
mod opened;
