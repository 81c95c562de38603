//! What a folder of the system's refused last.

use std::alloc::{AllocError, Global};
use std::cell::Cell;
use std::io;
use std::rc::Rc;

/// A call of a folder.
#[derive(Clone, Copy, Debug, PartialEq, Eq)]
pub enum FolderCall {
    /// The names of its files.
    List,
    /// The length of a file.
    Length,
    /// A new file.
    Create,
    /// Bytes behind the end of a file.
    Write,
    /// Bytes of a file.
    Read,
    /// A cut of a file to its first bytes.
    Cut,
    /// The removal of a file.
    Remove,
    /// A sync of a file, or of the folder's names.
    Sync,
}

/// A call that the system refused.
#[derive(Clone, Copy, Debug, Drop)]
pub struct Refusal {
    /// The call.
    pub call: FolderCall,
    /// The number of the file; none where the folder itself was asked.
    pub file: Option<u64>,
    /// Why, in the system's words.
    pub error: io::Error,
}

/// The last refusal of a folder, which the folder notes and whoever has another handle of it tells.
#[derive(Drop)]
pub struct Refusals {
    last: Rc<Cell<Option<Refusal>>>,
}

impl Refusals {
    /// Nothing was refused yet.
    pub fn new(alloc: Global) -> Result<Self, AllocError> {
        Ok(Refusals {
            last: Rc::new(alloc, Cell::new(None))?,
        })
    }

    /// Another handle of the same.
    pub fn share(&self) -> Result<Self, AllocError> {
        Ok(Refusals {
            last: self.last.clone()?,
        })
    }

    /// The last refusal since this was asked last.
    pub fn take(&self) -> Option<Refusal> {
        self.last.replace(None)
    }

    /// Notes a refusal in the place of the last one.
    pub fn note(&self, refusal: Refusal) {
        self.last.set(Some(refusal));
    }
}
