//! A folder in memory.

ghost use Rattle.kb_folder.specs.Folder.{ReadsWhole};

use crate::name::file_name;
use crate::{Folder, FolderFault};
use std::alloc::Global;
use std::collections::BTreeMap;

/// A folder in memory. It is honest, and refuses for want of memory alone.
#[derive(Drop)]
pub struct MemoryFolder {
    alloc: Global,
    files: BTreeMap<u64, Vec<u8>>,
}

impl MemoryFolder {
    /// A folder with no file.
    pub fn new(alloc: Global) -> Self {
        MemoryFolder {
            alloc,
            files: BTreeMap::new(alloc),
        }
    }
}

impl Folder for MemoryFolder {
    ghost use Rattle.kb_store.specs.Loss.{nothing_left};
    ghost use Rattle.kb_store.specs.LossLaws.{nothing_timely};
    ghost use Rattle.kb_folder.specs.Memory.{memory_contents};

    ghost contents = { λ f. memory_contents f.files.entries };

    ghost loss = { λ _. nothing_left };

    ghost timely = { λ _. nothing_timely };

    fn names(&mut self, alloc: Global) -> Result<Vec<String>, FolderFault> {
        let mut names = Vec::new(alloc);
        for number in self.files.keys() {
            names.push(file_name(alloc, *number)?)?;
        }
        Ok(names)
    }

    fn len(&mut self, file: u64) -> Result<u64, FolderFault> {
        match self.files.get(&file) {
            Some(bytes) => Ok(bytes.len() as u64),
            None => unreachable!(),
        }
    }

    fn create(&mut self, file: u64) -> Result<(), FolderFault> {
        self.files.insert(file, Vec::new(self.alloc))?;
        Ok(())
    }

    fn write_end(&mut self, file: u64, _end: u64, bytes: &[u8]) -> Result<usize, FolderFault> {
        match self.files.get_mut(&file) {
            Some(kept) => {
                kept.extend_from_slice(bytes)?;
                Ok(bytes.len())
            }
            None => unreachable!(),
        }
    }

    fn read_at(&mut self, file: u64, at: u64, buffer: &mut [u8]) -> Result<usize, FolderFault> {
        match self.files.get(&file) {
            Some(kept) => Ok(copy_within(kept, at, buffer)),
            None => unreachable!(),
        }
    }

    fn cut(&mut self, file: u64, len: u64) -> Result<(), FolderFault> {
        match self.files.get_mut(&file) {
            Some(kept) => {
                kept.truncate(len as usize);
                Ok(())
            }
            None => unreachable!(),
        }
    }

    fn remove(&mut self, file: u64) -> Result<(), FolderFault> {
        self.files.remove(&file);
        Ok(())
    }

    fn sync(&mut self) -> Result<(), FolderFault> {
        Ok(())
    }
}

/// Fills a buffer with a part of some bytes, where it is within them, and answers how many bytes that is.
fn copy_within(bytes: &[u8], at: u64, buffer: &mut [u8]) -> usize
    ensures { ReadsWhole bytes.now at buffer.old result buffer.new }
{
    if at > bytes.len() as u64 || buffer.len() > bytes.len() - at as usize {
        return 0;
    }
    let from = &bytes[at as usize..];
    buffer.copy_from_slice(&from[..buffer.len()]);
    buffer.len()
}
