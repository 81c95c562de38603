//! The queue as a plain list, searched from end to end: what the tests compare the queue with.

use kb_waits::WaitKey;
use std::alloc::{AllocError, Global};

/// Each connection with its deadline and its keys, in the order of parking.
#[derive(Drop)]
pub(crate) struct PlainWaits {
    entries: Vec<(u64, u64, Vec<WaitKey>)>,
}

impl PlainWaits {
    pub(crate) fn new(alloc: Global) -> Self {
        PlainWaits {
            entries: Vec::new(alloc),
        }
    }

    pub(crate) fn parked(&self) -> usize {
        self.entries.len()
    }

    pub(crate) fn park(
        &mut self,
        connection: u64,
        deadline: u64,
        keys: Vec<WaitKey>,
    ) -> Result<(), AllocError> {
        self.entries.push((connection, deadline, keys))?;
        Ok(())
    }

    pub(crate) fn forget(&mut self, connection: u64) {
        self.entries.retain(|p| p.0 != connection);
    }

    pub(crate) fn due(&self, clock: u64, out: &mut Vec<u64>) -> Result<(), AllocError> {
        out.clear();
        for p in &self.entries {
            if p.1 <= clock {
                out.push(p.0)?;
            }
        }
        out.sort_unstable();
        Ok(())
    }

    pub(crate) fn touched(&self, key: &WaitKey, out: &mut Vec<u64>) -> Result<(), AllocError> {
        out.clear();
        for p in &self.entries {
            if p.2.contains(key) {
                out.push(p.0)?;
            }
        }
        out.sort_unstable();
        Ok(())
    }

    pub(crate) fn touched_any(
        &self,
        keys: &[WaitKey],
        out: &mut Vec<u64>,
    ) -> Result<(), AllocError> {
        out.clear();
        for p in &self.entries {
            if keys.iter().any(|k| p.2.contains(k)) {
                out.push(p.0)?;
            }
        }
        out.sort_unstable();
        Ok(())
    }
}
