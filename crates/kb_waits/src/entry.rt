//! What is kept of a parked connection.

use crate::key::WaitKey;

/// The wait of one connection.
#[derive(Drop)]
pub(crate) struct Entry {
    pub(crate) deadline: u64,
    pub(crate) keys: Vec<WaitKey>,
}
