//! The queue of waiting requests.
ghost use Rattle.std.specs.Prelude.{◌≡◌, ◌≢◌, ℕ, ◌≤◌, None, OnOk, OnErr, IsOk, vec_capacity};
ghost use Rattle.std.specs.Bool.{OnFalse};
ghost use Rattle.std.specs.FinMap as fin;
ghost use Rattle.kb_waits.specs.Queue.{AreParked, IsAny, IsDue, IsFirstDeadline, IsUnder, IsUnderAny};

use crate::entries::Entries;
use crate::entry::Entry;
use crate::gather::{clear_with_room, collect, push_all, push_due};
use crate::key::WaitKey;
use crate::waiters::Waiters;
use std::alloc::{AllocError, Global};
use std::collections::BTreeSet;
use std::marker::Model;

/// The queue of the waiting requests of all tenants, by the numbers of their connections.
///
/// Contracts see it as a finite map from connections to their waits.
#[derive(Drop)]
pub struct Waits {
    entries: Entries,
    deadlines: BTreeSet<(u64, u64)>,
    waiters: Waiters,
}

impl Model for Waits {
    ghost use Rattle.kb_waits.specs.Queue.{Queue, queue_code};
    ghost use Rattle.kb_waits.specs.Waits.{IsIndexed};

    ghost Value = { Queue };

    ghost coded = { queue_code };

    ghost view = { λ w. w.entries };

    ghost invariant = { λ w. IsIndexed w.entries w.deadlines w.waiters };
}

impl Waits {
    /// The empty queue. Takes no memory.
    pub fn new(alloc: Global) -> Self
        ensures { result ≡ fin.empty }
    {
        Waits {
            entries: Entries::new(alloc),
            deadlines: BTreeSet::new(alloc),
            waiters: Waiters::new(alloc),
        }
    }

    /// How many connections are parked.
    pub fn parked(&self) -> usize
        ensures { result ≡ fin.len self.now }
    {
        self.entries.len()
    }

    /// Whether the connection is parked.
    pub fn is_parked(&self, connection: u64) -> bool
        ensures parked { result ≡ fin.contains_key self.now connection }
        ensures free { OnFalse result (fin.get self.now connection ≡ None) }
    {
        self.entries.contains(connection)
    }

    /// Parks a connection that is not parked until `deadline`, in milliseconds, under each of the
    /// keys. A key may stand twice among them.
    ///
    /// After an `Err`, which is want of memory, the queue is as before.
    pub fn park(
        &mut self,
        connection: u64,
        deadline: u64,
        keys: Vec<WaitKey>,
    ) -> Result<(), AllocError>
        requires { fin.get self.old connection ≡ None }
        ensures parked { OnOk result (self.new
            ≡ fin.insert self.old connection (record { deadline = deadline; keys = keys.items })) }
        ensures others { (n : ℕ) → n ≢ connection → fin.get self.new n ≡ fin.get self.old n }
        ensures refused { OnErr result (self.new ≡ self.old) }
    {
        self.waiters.add_all(&keys, connection)?;
        match self.deadlines.insert((deadline, connection)) {
            Ok(_) => {}
            Err(_) => {
                self.waiters.remove_all(&keys, connection);
                return Err(AllocError);
            }
        }
        match self.entries.insert(connection, Entry { deadline, keys }) {
            Ok(()) => Ok(()),
            Err(entry) => {
                self.deadlines.remove(&(deadline, connection));
                self.waiters.remove_all(&entry.keys, connection);
                Err(AllocError)
            }
        }
    }

    /// Takes the connection out of the queue, if it is parked. Takes no memory.
    pub fn forget(&mut self, connection: u64)
        ensures removed { self.new ≡ fin.remove self.old connection }
        ensures gone { fin.get self.new connection ≡ None }
        ensures others { (n : ℕ) → n ≢ connection → fin.get self.new n ≡ fin.get self.old n }
    {
        if let Some(entry) = self.entries.remove(connection) {
            self.deadlines.remove(&(entry.deadline, connection));
            self.waiters.remove_all(&entry.keys, connection);
        }
    }

    /// The least deadline of a parked connection, in milliseconds; `None` exactly where none is
    /// parked. It goes over no other connection.
    pub fn first_deadline(&self) -> Option<u64>
        ensures { IsFirstDeadline self.now result }
    {
        match self.deadlines.first() {
            Some(pair) => Some(pair.0),
            None => None,
        }
    }

    /// Replaces what is in `out` by the connections whose deadline is the clock or earlier, each
    /// once, ascending.
    ///
    /// Where `out` has room for `parked()` numbers this takes no memory and succeeds. After an
    /// `Err`, which is want of memory, `out` has what it had.
    pub fn due(&self, clock: u64, out: &mut Vec<u64>) -> Result<(), AllocError>
        ensures due { OnOk result (AreParked self.now (IsDue clock) out.new.items) }
        ensures room { vec_capacity out.old ≤ vec_capacity out.new }
        ensures succeeds { fin.len self.now ≤ vec_capacity out.old → IsOk result }
        ensures refused { OnErr result (out.new.items ≡ out.old.items) }
    {
        clear_with_room(out, self.deadlines.len())?;
        push_due(&self.deadlines, clock, out);
        out.sort_unstable();
        Ok(())
    }

    /// Replaces what is in `out` by all parked connections, each once, ascending.
    ///
    /// Where `out` has room for `parked()` numbers this takes no memory and succeeds. After an
    /// `Err`, which is want of memory, `out` has what it had.
    pub fn all(&self, out: &mut Vec<u64>) -> Result<(), AllocError>
        ensures all { OnOk result (AreParked self.now IsAny out.new.items) }
        ensures room { vec_capacity out.old ≤ vec_capacity out.new }
        ensures succeeds { fin.len self.now ≤ vec_capacity out.old → IsOk result }
        ensures refused { OnErr result (out.new.items ≡ out.old.items) }
    {
        clear_with_room(out, self.parked())?;
        self.entries.push_numbers(out);
        Ok(())
    }

    /// Replaces what is in `out` by the connections that are parked under the key, each once,
    /// ascending.
    ///
    /// Where `out` has room for `parked()` numbers this takes no memory and succeeds. After an
    /// `Err`, which is want of memory, `out` has what it had.
    pub fn touched(&self, key: &WaitKey, out: &mut Vec<u64>) -> Result<(), AllocError>
        ensures touched { OnOk result (AreParked self.now (IsUnder key.now) out.new.items) }
        ensures room { vec_capacity out.old ≤ vec_capacity out.new }
        ensures succeeds { fin.len self.now ≤ vec_capacity out.old → IsOk result }
        ensures refused { OnErr result (out.new.items ≡ out.old.items) }
    {
        let Some(set) = self.waiters.sets.get(key) else {
            out.clear();
            return Ok(());
        };
        clear_with_room(out, set.len())?;
        push_all(set, out);
        Ok(())
    }

    /// Replaces what is in `out` by the connections that are parked under one of the keys at
    /// least, each once, ascending.
    ///
    /// A connection is gone over once for each of the keys under which it is parked. After an
    /// `Err`, which is want of memory, `out` has what it had.
    pub fn touched_any(&self, keys: &[WaitKey], out: &mut Vec<u64>) -> Result<(), AllocError>
        ensures touched { OnOk result (AreParked self.now (IsUnderAny keys.now) out.new.items) }
        ensures refused { OnErr result (out.new.items ≡ out.old.items) }
    {
        if let [key] = keys {
            return self.touched(key, out);
        }
        let mut found = collect(&self.waiters, keys)?;
        found.sort_unstable();
        found.dedup();
        *out = found;
        Ok(())
    }
}
