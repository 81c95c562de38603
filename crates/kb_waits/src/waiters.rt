//! Who waits for each key.
ghost use Rattle.std.specs.Prelude.{OnOk, OnErr};
ghost use Rattle.kb_waits.specs.Waiters.{NobodyWaits, WaitsForNone, SameWaiters};
ghost use Rattle.kb_waits.specs.Waiters.{Joins, JoinsEach, Leaves, LeavesEach};

use crate::key::WaitKey;
use std::alloc::{AllocError, Global};
use std::collections::{BTreeMap, BTreeSet};

/// The connections that wait for each key, ascending. A key for which nobody waits takes no memory.
#[derive(Drop)]
pub(crate) struct Waiters {
    pub(crate) alloc: Global,
    pub(crate) sets: BTreeMap<WaitKey, BTreeSet<u64>>,
}

impl Waiters {
    /// Nobody waits.
    pub(crate) fn new(alloc: Global) -> Self
        ensures { NobodyWaits result }
    {
        Waiters {
            alloc,
            sets: BTreeMap::new(alloc),
        }
    }

    /// The connection waits for the key.
    fn add(&mut self, key: &WaitKey, connection: u64) -> Result<(), AllocError>
        ensures added { OnOk result (Joins key.now connection self.old self.new) }
        ensures refused { OnErr result (SameWaiters self.old self.new) }
    {
        if let Some(set) = self.sets.get_mut(key) {
            set.insert(connection)?;
            return Ok(());
        }
        let mut set = BTreeSet::new(self.alloc);
        set.insert(connection)?;
        self.sets.insert(key.clone()?, set)?;
        Ok(())
    }

    /// The connection waits for the key no longer.
    fn remove(&mut self, key: &WaitKey, connection: u64)
        ensures { Leaves key.now connection self.old self.new }
    {
        let Some(set) = self.sets.get_mut(key) else {
            return;
        };
        set.remove(&connection);
        if set.is_empty() {
            self.sets.remove(key);
        }
    }

    /// The connection, which waited for none, waits for each of the keys.
    pub(crate) fn add_all(&mut self, keys: &[WaitKey], connection: u64) -> Result<(), AllocError>
        requires { WaitsForNone self.old connection }
        ensures added { OnOk result (JoinsEach keys.now connection self.old self.new) }
        ensures refused { OnErr result (SameWaiters self.old self.new) }
    {
        for key in keys {
            match self.add(key, connection) {
                Ok(()) => {}
                Err(refused) => {
                    self.remove_all(keys, connection);
                    return Err(refused);
                }
            }
        }
        Ok(())
    }

    /// The connection waits for none of the keys any longer.
    pub(crate) fn remove_all(&mut self, keys: &[WaitKey], connection: u64)
        ensures { LeavesEach keys.now connection self.old self.new }
    {
        for key in keys {
            self.remove(key, connection);
        }
    }
}
