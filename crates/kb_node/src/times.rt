//! By when requests are to be whole, and since when sockets are idle.

ghost use Rattle.std.specs.Prelude.{◌≡◌, [], min, nat_le, OnOk, IfOk, Ok, Some, None, false};
ghost use Rattle.kb_node.specs.Deadlines.{later, begun_since, first_end, silent, with_since, without_since, without_silent};

use crate::deadlines::{Moments, later};
use crate::socket::Socket;
use std::alloc::{AllocError, Global};
use std::io::{Read, Write};

/// The connections whose sockets have a request under way, each since its first byte came, and those that have logged in, each with the
/// moment from which it is looked for whether it is idle.
///
/// A socket that is used is not moved among those that are looked for: only once its moment has come is it looked at since when it is
/// idle. So a request costs nothing here that is whole at once.
#[derive(Drop)]
pub struct Times {
    /// How long a request may take, in milliseconds.
    request_millis: u64,
    /// How long a socket may be idle: for ever where it is 0.
    idle_millis: u64,
    begun: Moments,
    looked: Moments,
}

impl Times {
    /// Of no socket.
    pub fn new(alloc: Global, request_millis: u64, idle_millis: u64) -> Self
        ensures request { result.request_millis ≡ request_millis }
        ensures idle { result.idle_millis ≡ idle_millis }
        ensures none { (result.begun.moments.keys ≡ []) × (result.looked.moments.keys ≡ []) }
    {
        Times {
            request_millis,
            idle_millis,
            begun: Moments::new(alloc),
            looked: Moments::new(alloc),
        }
    }

    /// Notes since when a socket's request is under way, where one is: since the moment at which that was noted first. After an `Err`,
    /// which is want of memory, it is not known, and the socket is to be closed.
    pub fn note_request<T: Read + Write + Drop>(
        &mut self,
        socket: &mut Socket<T>,
        is_under_way: bool,
        now: u64,
    ) -> Result<(), AllocError>
        ensures since { socket.new.begun ≡ begun_since socket.old.is_anew is_under_way now socket.old.begun }
        ensures begun { OnOk result (self.new.begun.moments.keys ≡ with_since socket.old.connection socket.new.begun
            (without_since socket.old.connection socket.old.begun self.old.begun.moments.keys)) }
        ensures looked { self.new.looked ≡ self.old.looked }
        ensures rest { socket.new ≡ record socket.old { begun = socket.new.begun; is_anew = false } }
        ensures connection { socket.new.connection ≡ socket.old.connection }
    {
        let number = socket.connection();
        let before = socket.begun;
        let since = begun_since(socket.take_anew(), is_under_way, now, before);
        socket.begun = since;
        if let Some(moment) = before {
            self.begun.end(number, moment);
        }
        match since {
            Some(moment) => self.begun.begin(number, moment),
            None => Ok(()),
        }
    }

    /// The request of a socket that is under way has its whole time from now on. After an `Err`, which is want of memory, it is not known
    /// since when it is, and the socket is to be closed.
    pub fn put_off<T: Read + Write + Drop>(
        &mut self,
        socket: &mut Socket<T>,
        now: u64,
    ) -> Result<(), AllocError>
        ensures since { socket.new.begun ≡ Some now }
        ensures begun { OnOk result (self.new.begun.moments.keys ≡ with_since socket.old.connection (Some now)
            (without_since socket.old.connection socket.old.begun self.old.begun.moments.keys)) }
        ensures looked { self.new.looked ≡ self.old.looked }
        ensures rest { socket.new ≡ record socket.old { begun = Some now } }
        ensures connection { socket.new.connection ≡ socket.old.connection }
    {
        let number = socket.connection();
        if let Some(moment) = socket.begun {
            self.begun.end(number, moment);
        }
        socket.begun = Some(now);
        self.begun.begin(number, now)
    }

    /// From now on it is looked for whether a socket is idle. After an `Err`, which is want of memory, it is not.
    pub fn look_for(&mut self, connection: u64, now: u64) -> Result<Option<u64>, AllocError>
        ensures begun { self.new.begun ≡ self.old.begun }
        ensures looked { self.old.idle_millis ≡ 0 → (result ≡ Ok None) × (self.new ≡ self.old) }
        ensures moment { IfOk result (λ moment. self.new.looked.moments.keys ≡ with_since connection moment self.old.looked.moments.keys) }
    {
        if self.idle_millis == 0 {
            return Ok(None);
        }
        self.looked.begin(connection, now)?;
        Ok(Some(now))
    }

    /// A socket is closed. Takes no memory.
    pub fn forget(&mut self, connection: u64, begun: Option<u64>, looked: Option<u64>)
        ensures begun { self.new.begun.moments.keys ≡ without_since connection begun self.old.begun.moments.keys }
        ensures looked { self.new.looked.moments.keys ≡ without_since connection looked self.old.looked.moments.keys }
    {
        if let Some(moment) = begun {
            self.begun.end(connection, moment);
        }
        if let Some(moment) = looked {
            self.looked.end(connection, moment);
        }
    }

    /// The one whose request is under way for longest, where it is to be whole by now.
    pub fn slow(&self, now: u64) -> Option<u64>
        ensures { result ≡ silent now self.now.request_millis self.now.begun.moments.keys }
    {
        self.begun.silent(now, self.request_millis)
    }

    /// One whose moment has come to be looked at, which is taken out.
    pub fn take_looked(&mut self, now: u64) -> Option<u64>
        ensures looked { result ≡ silent now self.old.idle_millis self.old.looked.moments.keys }
        ensures others { self.new.looked.moments.keys ≡ without_silent now self.old.idle_millis self.old.looked.moments.keys }
        ensures idle { self.new.idle_millis ≡ self.old.idle_millis }
        ensures begun { self.new.begun ≡ self.old.begun }
    {
        self.looked.take_silent(now, self.idle_millis)
    }

    /// Whether one that is idle since then is to be closed.
    pub fn is_idle_too_long(&self, since: u64, now: u64) -> bool
        ensures { result ≡ nat_le (later since self.now.idle_millis) now }
    {
        later(since, self.idle_millis) <= now
    }

    /// The next moment at which a request is to be whole, or one is to be looked at: the greatest number where there is none.
    pub fn first_end(&self) -> u64
        ensures { result ≡ min (first_end self.now.request_millis self.now.begun.moments.keys)
            (first_end self.now.idle_millis self.now.looked.moments.keys) }
    {
        self.begun
            .first_end(self.request_millis)
            .min(self.looked.first_end(self.idle_millis))
    }
}

/// Since when a request is under way, where one is, that was since then: from now on where none was, or where that one became whole since.
fn begun_since(is_anew: bool, is_under_way: bool, now: u64, before: Option<u64>) -> Option<u64>
    ensures { result ≡ begun_since is_anew is_under_way now before }
{
    if !is_under_way {
        return None;
    }
    match before {
        Some(since) if !is_anew => Some(since),
        _ => Some(now),
    }
}
