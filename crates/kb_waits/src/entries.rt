//! The parked connections and their entries.
ghost use Rattle.std.specs.Prelude.{◌≡◌, ◌≤◌, None, OnOk, OnErr, IfErr, vec_capacity, []};
ghost use Rattle.std.specs.Option.{option_map};
ghost use Rattle.std.specs.FinMap as map;
ghost use Rattle.kb_waits.specs.Entry.{wait_of};
ghost use Rattle.kb_waits.specs.Queue.{AreParked, IsAny};

use crate::entry::Entry;
use slab::Slab;
use std::alloc::Global;
use std::collections::BTreeMap;
use std::marker::Model;

/// The entries stand in a slab, and a map finds the slot of a connection.
#[derive(Drop)]
pub(crate) struct Entries {
    slots: BTreeMap<u64, usize>,
    slab: Slab<Entry>,
}

impl Model for Entries {
    ghost use Rattle.kb_waits.specs.Queue.{Queue, queue_code};
    ghost use Rattle.kb_waits.specs.Entries.{queue_at, HasSlots};

    ghost Value = { Queue };

    ghost coded = { queue_code };

    ghost view = { λ e. queue_at e.slab e.slots.entries };

    ghost invariant = { λ e. HasSlots e.slab e.slots.entries };
}

impl Entries {
    /// No entry.
    pub(crate) fn new(alloc: Global) -> Self
        ensures { result ≡ map.empty }
    {
        Entries {
            slots: BTreeMap::new(alloc),
            slab: Slab::new(alloc),
        }
    }

    /// How many connections have an entry.
    pub(crate) fn len(&self) -> usize
        ensures { result ≡ map.len self.now }
    {
        self.slots.len()
    }

    /// Whether the connection has an entry.
    pub(crate) fn contains(&self, connection: u64) -> bool
        ensures { result ≡ map.contains_key self.now connection }
    {
        self.slots.contains_key(&connection)
    }

    /// Puts all connections into `out`, ascending. It is empty, and has room.
    pub(crate) fn push_numbers(&self, out: &mut Vec<u64>)
        requires empty { out.old.items ≡ [] }
        requires room { map.len self.now ≤ vec_capacity out.old }
        ensures pushed { AreParked self.now IsAny out.new.items }
        ensures capacity { vec_capacity out.new ≡ vec_capacity out.old }
    {
        for (connection, _) in &self.slots {
            out.push_reserved(*connection);
        }
    }

    /// Adds the entry of a connection that has none. A refusal gives it back.
    pub(crate) fn insert(&mut self, connection: u64, entry: Entry) -> Result<(), Entry>
        requires { map.get self.old connection ≡ None }
        ensures inserted { OnOk result (self.new ≡ map.insert self.old connection (wait_of entry)) }
        ensures refused { OnErr result (self.new ≡ self.old) }
        ensures given_back { IfErr result (λ e. e ≡ entry) }
    {
        if self.slab.reserve(1).is_err() {
            return Err(entry);
        }
        let slot = self.slab.vacant_key();
        match self.slots.insert(connection, slot) {
            Ok(_) => {
                self.slab.insert_reserved(entry);
                Ok(())
            }
            Err(_) => Err(entry),
        }
    }

    /// Takes out the entry of the connection, if it has one.
    pub(crate) fn remove(&mut self, connection: u64) -> Option<Entry>
        ensures removed { self.new ≡ map.remove self.old connection }
        ensures entry { option_map wait_of result ≡ map.get self.old connection }
    {
        let slot = self.slots.remove(&connection)?;
        self.slab.try_remove(slot)
    }
}
