//! Until when a socket may keep silent. Nobody who says nothing holds others up.

ghost use Rattle.std.specs.Prelude.{◌≡◌, [], length, OnOk, OnErr};
ghost use Rattle.std.specs.BTreeMap.{insert_entry, is_at};
ghost use Rattle.std.specs.Map.{remove_entry};
ghost use Rattle.std.specs.BTreeSet.{insert_key};
ghost use Rattle.std.specs.Set.{remove_key};
ghost use Rattle.std.specs.Ordering.{nat_cmp};
ghost use Rattle.kb_node.specs.Deadlines.{later, first, oldest, first_deadline, due};
ghost use Rattle.kb_node.specs.Deadlines.{by_moment, patience, first_end, silent, without_silent, has_moved};

use std::alloc::{AllocError, Global};
use std::collections::{BTreeMap, BTreeSet};

/// How long a socket may take no byte of its reply at most, in milliseconds, while so much is unread that nobody is served: so long does one
/// stand in the way of the others.
const STALL_MILLIS: u64 = 10_000;

/// When a socket is tried again that took something of its reply, in milliseconds. The system tells late of a little room, and there is some
/// right behind each write that was cut short: without this it would look as if the peer had read by the next try.
pub const TRY_MILLIS: u64 = 500;

/// The moment that is so many milliseconds after now.
pub fn later(now: u64, millis: u64) -> u64
    ensures { result ≡ later now millis }
{
    now.saturating_add(millis)
}

/// The connections whose sockets have not logged in, by rising number, and until when each may. Numbers rise with time, so the first is
/// the oldest, and its moment comes first.
#[derive(Drop)]
pub struct Strangers {
    /// How long a socket may take to log in, in milliseconds.
    millis: u64,
    deadlines: BTreeMap<u64, u64>,
}

impl Strangers {
    /// None. Each that comes has so many milliseconds to log in.
    pub fn new(alloc: Global, millis: u64) -> Self
        ensures millis { result.millis ≡ millis }
        ensures none { result.deadlines.entries ≡ [] }
    {
        Strangers {
            millis,
            deadlines: BTreeMap::new(alloc),
        }
    }

    /// One more, which came now.
    pub fn admit(&mut self, connection: u64, now: u64) -> Result<(), AllocError>
        ensures admitted { OnOk result (self.new.deadlines.entries
            ≡ insert_entry nat_cmp self.old.deadlines.entries connection (later now self.old.millis)) }
        ensures refused { OnErr result (self.new.deadlines.entries ≡ self.old.deadlines.entries) }
        ensures millis { self.new.millis ≡ self.old.millis }
    {
        match self.deadlines.insert(connection, later(now, self.millis)) {
            Ok(_) => Ok(()),
            Err(_) => Err(AllocError),
        }
    }

    /// It has logged in, or is closed. Takes no memory.
    pub fn forget(&mut self, connection: u64)
        ensures others { self.new.deadlines.entries ≡ remove_entry (is_at (nat_cmp connection)) self.old.deadlines.entries }
        ensures millis { self.new.millis ≡ self.old.millis }
    {
        self.deadlines.remove(&connection);
    }

    /// The one that came first, and its moment.
    fn first(&self) -> Option<(u64, u64)>
        ensures { result ≡ first self.now.deadlines.entries }
    {
        match self.deadlines.first_key_value() {
            Some((connection, deadline)) => Some((*connection, *deadline)),
            None => None,
        }
    }

    /// The one that came first.
    pub fn oldest(&self) -> Option<u64>
        ensures { result ≡ oldest self.now.deadlines.entries }
    {
        match self.first() {
            Some((connection, _)) => Some(connection),
            None => None,
        }
    }

    /// The first moment at which one is to be closed: the greatest number where there is none.
    pub fn first_deadline(&self) -> u64
        ensures { result ≡ first_deadline self.now.deadlines.entries }
    {
        match self.first() {
            Some((_, deadline)) => deadline,
            None => u64::MAX,
        }
    }

    /// The one that came first, where its moment has come.
    pub fn due(&self, now: u64) -> Option<u64>
        ensures { result ≡ due now self.now.deadlines.entries }
    {
        match self.first() {
            Some((connection, deadline)) if deadline <= now => Some(connection),
            _ => None,
        }
    }
}

/// How long a socket may take no byte of its reply, of so many milliseconds: less where so much is unread that nobody is asked.
pub fn patience(may_ask: bool, millis: u64) -> u64
    ensures { result ≡ patience may_ask millis }
{
    if may_ask {
        millis
    } else {
        millis.min(STALL_MILLIS)
    }
}

/// Whether a socket's silence ends or begins anew, which had so many bytes to take before and has so many after: it had none, it has none, or
/// it took some.
pub fn has_moved(before: usize, after: usize, has_taken: bool) -> bool
    ensures { result ≡ has_moved before after has_taken }
{
    before == 0 || after == 0 || has_taken
}

/// Connections, each with the moment since which something is so of its socket: as that it took no byte of its reply. The one of which it
/// is so for longest stands first.
#[derive(Drop)]
pub struct Moments {
    moments: BTreeSet<(u64, u64)>,
}

impl Moments {
    /// None.
    pub fn new(alloc: Global) -> Self
        ensures { result.moments.keys ≡ [] }
    {
        Moments {
            moments: BTreeSet::new(alloc),
        }
    }

    /// Of how many it is so.
    pub fn len(&self) -> usize
        ensures { result ≡ length self.now.moments.keys }
    {
        self.moments.len()
    }

    /// It is so of one from now on.
    pub fn begin(&mut self, connection: u64, now: u64) -> Result<(), AllocError>
        ensures begun { OnOk result (self.new.moments.keys ≡ insert_key by_moment self.old.moments.keys (now, connection)) }
        ensures refused { OnErr result (self.new.moments.keys ≡ self.old.moments.keys) }
    {
        match self.moments.insert((now, connection)) {
            Ok(_) => Ok(()),
            Err(_) => Err(AllocError),
        }
    }

    /// It was so since then, and that ends. Takes no memory.
    pub fn end(&mut self, connection: u64, since: u64)
        ensures { self.new.moments.keys ≡ remove_key (is_at (by_moment (since, connection))) self.old.moments.keys }
    {
        self.moments.remove(&(since, connection));
    }

    /// The first moment at which it is so of one for so long: the greatest number where it is so of none.
    pub fn first_end(&self, millis: u64) -> u64
        ensures { result ≡ first_end millis self.now.moments.keys }
    {
        match self.moments.first() {
            Some(pair) => later(pair.0, millis),
            None => u64::MAX,
        }
    }

    /// The one of which it is so for longest, where that is so long.
    pub fn silent(&self, now: u64, millis: u64) -> Option<u64>
        ensures { result ≡ silent now millis self.now.moments.keys }
    {
        match self.moments.first() {
            Some(pair) if later(pair.0, millis) <= now => Some(pair.1),
            _ => None,
        }
    }

    /// The same, which is taken out.
    pub fn take_silent(&mut self, now: u64, millis: u64) -> Option<u64>
        ensures silent { result ≡ silent now millis self.old.moments.keys }
        ensures others { self.new.moments.keys ≡ without_silent now millis self.old.moments.keys }
    {
        let silent = self.silent(now, millis)?;
        self.moments.pop_first();
        Some(silent)
    }
}
