//! Since when sockets took nothing of their replies.

ghost use Rattle.std.specs.Prelude.{◌≡◌, [], min, OnOk, OnErr};
ghost use Rattle.std.specs.BTreeMap.{is_at};
ghost use Rattle.std.specs.BTreeSet.{insert_key};
ghost use Rattle.std.specs.Set.{remove_key};
ghost use Rattle.kb_node.specs.Deadlines.{by_moment, by_holder, first_end, first_of, first_stall, silent, stalled, without_silent};

use crate::deadlines::{Moments, TRY_MILLIS, later};
use std::alloc::{AllocError, Global};
use std::collections::BTreeSet;

/// The connections whose sockets have a reply that is not all written, by holder, and since when each took no byte of it.
#[derive(Drop)]
pub struct Stalls {
    moments: BTreeSet<(usize, u64, u64)>,
}

impl Stalls {
    /// None.
    fn new(alloc: Global) -> Self
        ensures { result.moments.keys ≡ [] }
    {
        Stalls {
            moments: BTreeSet::new(alloc),
        }
    }

    /// One of a holder has something to take from now on, or took some of it now.
    fn begin(&mut self, holder: usize, connection: u64, now: u64) -> Result<(), AllocError>
        ensures begun { OnOk result (self.new.moments.keys ≡ insert_key by_holder self.old.moments.keys (holder, now, connection)) }
        ensures refused { OnErr result (self.new.moments.keys ≡ self.old.moments.keys) }
    {
        match self.moments.insert((holder, now, connection)) {
            Ok(_) => Ok(()),
            Err(_) => Err(AllocError),
        }
    }

    /// It took nothing since then, and that ends. Takes no memory.
    fn end(&mut self, holder: usize, connection: u64, since: u64)
        ensures { self.new.moments.keys ≡ remove_key (is_at (by_holder (holder, since, connection))) self.old.moments.keys }
    {
        self.moments.remove(&(holder, since, connection));
    }

    /// The first one of a holder, or of one behind it: the holder, since when, and the connection.
    fn first_of(&self, holder: usize) -> Option<(usize, u64, u64)>
        ensures { result ≡ first_of holder self.now.moments }
    {
        self.moments.range((holder, 0, 0)..).next().copied()
    }

    /// The one of a holder that has taken nothing for longest, where that is so long.
    fn stalled(&self, holder: usize, now: u64, millis: u64) -> Option<u64>
        ensures { result ≡ stalled holder now millis self.now.moments }
    {
        match self.first_of(holder) {
            Some((it, since, connection)) if it == holder && later(since, millis) <= now => Some(
                connection,
            ),
            _ => None,
        }
    }

    /// The first moment at which one of a holder has taken nothing for so long: the greatest number where it has none.
    fn first_end(&self, holder: usize, millis: u64) -> u64
        ensures { result ≡ first_stall holder millis self.now.moments }
    {
        match self.first_of(holder) {
            Some((it, since, _)) if it == holder => later(since, millis),
            _ => u64::MAX,
        }
    }
}

/// The connections whose sockets have a reply that is not all written, and since when each took no byte of it: of all, of those that were
/// not tried again since, and of each holder.
#[derive(Drop)]
pub struct Silences {
    unread: Moments,
    untried: Moments,
    stalls: Stalls,
}

impl Silences {
    /// None.
    pub fn new(alloc: Global) -> Self
        ensures none { (result.unread.moments.keys ≡ []) × (result.untried.moments.keys ≡ []) × (result.stalls.moments.keys ≡ []) }
    {
        Silences {
            unread: Moments::new(alloc),
            untried: Moments::new(alloc),
            stalls: Stalls::new(alloc),
        }
    }

    /// A holder's socket has something to take from now on, or took some of it now. After an `Err`, which is want of memory, it may stand
    /// in some of the lists until [`Silences::end`].
    pub fn begin(&mut self, holder: usize, connection: u64, now: u64) -> Result<(), AllocError>
        ensures unread { OnOk result (self.new.unread.moments.keys ≡ insert_key by_moment self.old.unread.moments.keys (now, connection)) }
        ensures untried { OnOk result (self.new.untried.moments.keys
            ≡ insert_key by_moment self.old.untried.moments.keys (now, connection)) }
        ensures stalls { OnOk result (self.new.stalls.moments.keys
            ≡ insert_key by_holder self.old.stalls.moments.keys (holder, now, connection)) }
    {
        self.unread.begin(connection, now)?;
        self.untried.begin(connection, now)?;
        self.stalls.begin(holder, connection, now)
    }

    /// It took nothing since then, and that ends. Takes no memory.
    pub fn end(&mut self, holder: usize, connection: u64, since: u64)
        ensures unread { self.new.unread.moments.keys ≡ remove_key (is_at (by_moment (since, connection))) self.old.unread.moments.keys }
        ensures untried { self.new.untried.moments.keys ≡ remove_key (is_at (by_moment (since, connection))) self.old.untried.moments.keys }
        ensures stalls { self.new.stalls.moments.keys
            ≡ remove_key (is_at (by_holder (holder, since, connection))) self.old.stalls.moments.keys }
    {
        self.unread.end(connection, since);
        self.untried.end(connection, since);
        self.stalls.end(holder, connection, since);
    }

    /// The one that has taken nothing for longest, where that is so long.
    pub fn silent(&self, now: u64, millis: u64) -> Option<u64>
        ensures { result ≡ silent now millis self.now.unread.moments.keys }
    {
        self.unread.silent(now, millis)
    }

    /// The one of a holder that has taken nothing for longest, where that is so long.
    pub fn stalled(&self, holder: usize, now: u64, millis: u64) -> Option<u64>
        ensures { result ≡ stalled holder now millis self.now.stalls.moments }
    {
        self.stalls.stalled(holder, now, millis)
    }

    /// The first moment at which one of a holder has taken nothing for so long: the greatest number where it has none.
    pub fn first_stall(&self, holder: usize, millis: u64) -> u64
        ensures { result ≡ first_stall holder millis self.now.stalls.moments }
    {
        self.stalls.first_end(holder, millis)
    }

    /// One that is to be tried again, and then no more until it takes something.
    pub fn take_untried(&mut self, now: u64) -> Option<u64>
        ensures untried { result ≡ silent now 500 self.old.untried.moments.keys }
        ensures others { self.new.untried.moments.keys ≡ without_silent now 500 self.old.untried.moments.keys }
        ensures unread { self.new.unread ≡ self.old.unread }
        ensures stalls { self.new.stalls ≡ self.old.stalls }
    {
        self.untried.take_silent(now, TRY_MILLIS)
    }

    /// The next moment at which one is to be tried again, or has taken nothing for so long: the greatest number where there is none.
    pub fn first_end(&self, millis: u64) -> u64
        ensures { result ≡ min (first_end millis self.now.unread.moments.keys) (first_end 500 self.now.untried.moments.keys) }
    {
        self.unread
            .first_end(millis)
            .min(self.untried.first_end(TRY_MILLIS))
    }
}
