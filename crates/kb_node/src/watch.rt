//! Which sockets are ready.

ghost use Rattle.std.specs.Prelude.{◌≡◌};

use mio::event::Iter;
use mio::unix::SourceFd;
use mio::{Events, Interest, Poll, Token};
use std::alloc::Global;
use std::io;
use std::net::Net;
use std::os::fd::RawFd;
use std::time::Duration;

/// How many sockets a wait tells of at most: more are told by the next.
const EVENTS: usize = 256;

/// Sockets under numbers, and which of them became ready.
#[derive(Drop)]
pub struct Watch {
    poll: Poll,
    events: Events,
    /// How long the last wait was at most.
    longest: Duration,
}

impl Watch {
    /// No socket.
    pub fn new<R: Net>(net: &R, alloc: Global) -> io::Result<Watch> {
        Ok(Watch {
            poll: Poll::new(net)?,
            events: Events::with_capacity(alloc, EVENTS)?,
            longest: Duration::ZERO,
        })
    }

    /// Watches a socket under a number, until it is closed.
    pub fn add(&self, socket: RawFd, number: u64) -> io::Result<()> {
        self.poll.registry().register(
            &mut SourceFd(&socket),
            Token(number as usize),
            Interest::READABLE | Interest::WRITABLE,
        )
    }

    /// Waits until a socket becomes ready, and at most so long.
    pub fn wait(&mut self, longest: Duration)
        ensures { self.new.longest ≡ longest }
    {
        self.longest = longest;
        // a wait that fails tells of no socket
        let _ = self.poll.poll(&mut self.events, Some(longest));
    }

    /// The sockets that the last wait found.
    pub fn events(&self) -> Iter<'_> {
        self.events.iter()
    }
}
