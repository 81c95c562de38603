//! Files in memory.
ghost use Rattle.std.specs.Prelude.{◌≡◌, ◌+◌, ◌≤◌, length, take, drop};
ghost use Rattle.std.specs.FinMap as map;
ghost use Rattle.kb_store.specs.Memory.{memory_disk, memory_lawful};
ghost use Rattle.kb_store.specs.Loss.{nothing_left};
ghost use Rattle.kb_store.specs.LossLaws.{nothing_timely};

use crate::{Store, StoreFault};
use std::alloc::Global;
use std::collections::BTreeMap;

/// A store in memory. It is honest, and its device never fails, so that it refuses for want of memory alone.
#[derive(Drop)]
pub struct MemoryStore {
    alloc: Global,
    files: BTreeMap<u64, Vec<u8>>,
}

impl MemoryStore {
    /// A store with no file.
    pub fn new(alloc: Global) -> Self
        ensures { (⟦<MemoryStore as Store>⟧.disk result).table ≡ map.empty }
    {
        MemoryStore {
            alloc,
            files: BTreeMap::new(alloc),
        }
    }
}

impl Store for MemoryStore {
    ghost disk = { λ s. memory_disk s.files.entries };

    ghost loss = { λ _. nothing_left };

    ghost settled = { λ _. Unit {0} };

    ghost lawful = { λ s. memory_lawful s.files.entries };

    ghost timely = { λ _. nothing_timely };

    fn failures(&self) -> u64 {
        0
    }

    fn list(&mut self, alloc: Global) -> Result<Vec<u64>, StoreFault> {
        let mut numbers = Vec::new(alloc);
        for number in self.files.keys() {
            numbers.push(*number)?;
        }
        Ok(numbers)
    }

    fn len(&mut self, file: u64) -> Result<u64, StoreFault> {
        match self.files.get(&file) {
            Some(bytes) => Ok(bytes.len() as u64),
            None => unreachable!(),
        }
    }

    fn create(&mut self, file: u64) -> Result<(), StoreFault> {
        self.files.insert(file, Vec::new(self.alloc))?;
        Ok(())
    }

    fn append(&mut self, file: u64, bytes: &[u8]) -> Result<(), StoreFault> {
        match self.files.get_mut(&file) {
            Some(kept) => Ok(kept.extend_from_slice(bytes)?),
            None => unreachable!(),
        }
    }

    fn read_at(&mut self, file: u64, at: u64, buffer: &mut [u8]) -> Result<(), StoreFault> {
        match self.files.get(&file) {
            Some(kept) => {
                copy_part(kept, at, buffer);
                Ok(())
            }
            None => unreachable!(),
        }
    }

    fn cut(&mut self, file: u64, len: u64) -> Result<(), StoreFault> {
        match self.files.get_mut(&file) {
            Some(kept) => {
                kept.truncate(len as usize);
                Ok(())
            }
            None => unreachable!(),
        }
    }

    fn remove(&mut self, file: u64) -> Result<(), StoreFault> {
        self.files.remove(&file);
        Ok(())
    }

    fn sync(&mut self) -> Result<(), StoreFault> {
        Ok(())
    }

    fn is_synced(&self) -> bool {
        true
    }
}

/// Fills a buffer with a part of some bytes.
fn copy_part(bytes: &[u8], at: u64, buffer: &mut [u8])
    requires { at + length buffer.old ≤ length bytes.now }
    ensures { buffer.new ≡ take (length buffer.old) (drop at bytes.now) }
{
    let from = &bytes[at as usize..];
    buffer.copy_from_slice(&from[..buffer.len()]);
}
