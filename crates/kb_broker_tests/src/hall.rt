//! A network in memory. Its streams carry bytes from one end to the other, as many at a time as they like.

ghost use Rattle.std.specs.Prelude.{◌≤◌};
ghost use Rattle.std.specs.Io.{ReadsAtMost, WritesAtMost};

use std::alloc::{AllocError, Global};
use std::cell::{Cell, RefCell};
use std::io;
use std::io::{ErrorKind, Read, Write};
use std::net::{Ipv4Addr, Net, OpenListener, OpenStream, Shutdown, SocketAddr};
use std::os::fd::{AsRawFd, RawFd};

/// The port of a listener that asks for any.
const PORT: u16 = 9092;

/// One way of a stream: what was written at one end and is to be read at the other.
#[derive(Drop)]
struct Way {
    bytes: Vec<u8>,
    /// How many of them were read.
    read: usize,
    /// Whether no more is written.
    is_ended: bool,
    /// Whether nobody reads any more.
    is_left: bool,
    /// Whether the end that writes went with bytes that it had not read: then a read fails in the end.
    is_reset: bool,
}

/// A stream's two ways.
#[derive(Drop)]
struct Line {
    there: RefCell<Way>,
    back: RefCell<Way>,
}

/// How many bytes go at a time.
#[derive(Clone, Copy)]
pub(crate) enum Pieces {
    /// All that there are.
    Whole,
    /// From none up to so many, by chance. It begins with that number.
    UpTo(u32, u64),
}

/// A network of some streams, which are taken one after another, and one listener.
#[derive(Drop)]
pub(crate) struct Hall {
    lines: Vec<Line>,
    /// How many of them are connected.
    joined: Cell<usize>,
    /// How many of these were accepted.
    accepted: Cell<usize>,
    pieces: Pieces,
    chance: Cell<u64>,
    /// How many bytes a way holds that are not read.
    room: usize,
}

/// The way into a network.
#[derive(Clone, Copy)]
pub(crate) struct Room<'a> {
    hall: &'a Hall,
}

/// Its listener.
#[derive(Clone, Copy)]
pub(crate) struct Door<'a> {
    hall: &'a Hall,
    address: SocketAddr,
}

/// One end of a stream.
pub(crate) struct Wire<'a> {
    hall: &'a Hall,
    incoming: &'a RefCell<Way>,
    outgoing: &'a RefCell<Way>,
}

impl Way {
    fn new(alloc: Global) -> RefCell<Way> {
        RefCell::new(Way {
            bytes: Vec::new(alloc),
            read: 0,
            is_ended: false,
            is_left: false,
            is_reset: false,
        })
    }

    /// How many bytes are to be read.
    fn unread(&self) -> usize {
        self.bytes.len().saturating_sub(self.read)
    }

    /// Some of the first bytes that are to be read.
    fn give(&mut self, hall: &Hall, buf: &mut [u8]) -> io::Result<usize>
        ensures { ReadsAtMost result buf.new }
    {
        let unread = self.bytes.get(self.read..).unwrap_or(&[]);
        if unread.is_empty() && self.is_reset {
            return Err(io::Error::from(ErrorKind::ConnectionReset));
        }
        if unread.is_empty() && self.is_ended {
            return Ok(0);
        }
        let count = hall.some_of(unread.len().min(buf.len()));
        if count == 0 {
            return Err(io::Error::from(ErrorKind::WouldBlock));
        }
        buf[..count].copy_from_slice(&unread[..count]);
        self.read = self.read.saturating_add(count);
        Ok(count)
    }

    /// Takes some of the bytes.
    fn take(&mut self, hall: &Hall, bytes: &[u8]) -> io::Result<usize>
        ensures { WritesAtMost result bytes.now }
    {
        if self.is_left {
            return Err(io::Error::from(ErrorKind::BrokenPipe));
        }
        let room = hall.room.saturating_sub(self.unread());
        let count = hall.some_of(room.min(bytes.len()));
        if count == 0 {
            return Err(io::Error::from(ErrorKind::WouldBlock));
        }
        match self.bytes.extend_from_slice(&bytes[..count]) {
            Ok(()) => Ok(count),
            Err(_) => Err(io::Error::from(ErrorKind::OutOfMemory)),
        }
    }
}

impl Hall {
    /// A network of so many streams, each way of which holds so many bytes.
    pub(crate) fn new(
        alloc: Global,
        count: usize,
        pieces: Pieces,
        room: usize,
    ) -> Result<Hall, AllocError> {
        let mut lines = Vec::new(alloc);
        for _ in 0..count {
            lines.push(Line {
                there: Way::new(alloc),
                back: Way::new(alloc),
            })?;
        }
        Ok(Hall {
            lines,
            joined: Cell::new(0),
            accepted: Cell::new(0),
            pieces,
            chance: Cell::new(match pieces {
                Pieces::Whole => 0,
                Pieces::UpTo(_, first) => first,
            }),
            room,
        })
    }

    /// The way into it.
    pub(crate) fn room(&self) -> Room<'_> {
        Room { hall: self }
    }

    /// How many of so many bytes go now.
    fn some_of(&self, count: usize) -> usize
        ensures { result ≤ count }
    {
        match self.pieces {
            Pieces::Whole => count,
            Pieces::UpTo(most, _) => count.min(self.draw(most)),
        }
    }

    /// A number up to that one, by chance.
    fn draw(&self, most: u32) -> usize {
        let next = self
            .chance
            .get()
            .wrapping_mul(6_364_136_223_846_793_005)
            .wrapping_add(1_442_695_040_888_963_407);
        self.chance.set(next);
        let drawn = (next >> 33) % (u64::from(most) + 1);
        drawn as usize
    }

    /// An end of a stream, where there is one: that of a client, or of a server.
    fn wire(&self, place: usize, is_server: bool) -> io::Result<Wire<'_>> {
        let Some(line) = self.lines.get(place) else {
            return Err(io::Error::from(ErrorKind::AddrNotAvailable));
        };
        let (incoming, outgoing) = if is_server {
            (&line.there, &line.back)
        } else {
            (&line.back, &line.there)
        };
        Ok(Wire {
            hall: self,
            incoming,
            outgoing,
        })
    }
}

/// Where a client or a listener at that port is.
fn address(port: u16) -> SocketAddr {
    SocketAddr::from((Ipv4Addr::LOCALHOST, port))
}

impl<'a> Net for Room<'a> {
    type Stream = Wire<'a>;

    type Listener = Door<'a>;

    fn bind(&self, mut at: SocketAddr) -> io::Result<Door<'a>> {
        if at.port() == 0 {
            at.set_port(PORT);
        }
        Ok(Door {
            hall: self.hall,
            address: at,
        })
    }

    fn connect(&self, _at: SocketAddr) -> io::Result<Wire<'a>> {
        let place = self.hall.joined.get();
        let wire = self.hall.wire(place, false)?;
        self.hall.joined.set(place.saturating_add(1));
        Ok(wire)
    }
}

impl<'a> OpenListener for Door<'a> {
    type Stream = Wire<'a>;

    fn accept(&self) -> io::Result<(Wire<'a>, SocketAddr)> {
        let place = self.hall.accepted.get();
        if place >= self.hall.joined.get() {
            return Err(io::Error::from(ErrorKind::WouldBlock));
        }
        self.hall.accepted.set(place.saturating_add(1));
        Ok((self.hall.wire(place, true)?, address(1)))
    }

    fn local_addr(&self) -> io::Result<SocketAddr> {
        Ok(self.address)
    }

    fn set_nonblocking(&self, _nonblocking: bool) -> io::Result<()> {
        Ok(())
    }
}

/// There is no descriptor.
impl<'a> AsRawFd for Door<'a> {
    fn as_raw_fd(&self) -> RawFd {
        -1
    }
}

/// There is no descriptor.
impl<'a> AsRawFd for Wire<'a> {
    fn as_raw_fd(&self) -> RawFd {
        -1
    }
}

impl<'a> Read for Wire<'a> {
    fn read(&mut self, buf: &mut [u8]) -> io::Result<usize> {
        match self.incoming.try_borrow_mut() {
            Ok(mut way) => way.give(self.hall, buf),
            Err(_) => Err(io::Error::from(ErrorKind::WouldBlock)),
        }
    }
}

impl<'a> Write for Wire<'a> {
    fn write(&mut self, buf: &[u8]) -> io::Result<usize> {
        match self.outgoing.try_borrow_mut() {
            Ok(mut way) => way.take(self.hall, buf),
            Err(_) => Err(io::Error::from(ErrorKind::WouldBlock)),
        }
    }

    fn flush(&mut self) -> io::Result<()> {
        Ok(())
    }
}

impl<'a> OpenStream for Wire<'a> {
    fn set_nonblocking(&self, _nonblocking: bool) -> io::Result<()> {
        Ok(())
    }

    fn set_nodelay(&self, _nodelay: bool) -> io::Result<()> {
        Ok(())
    }

    fn shutdown(&self, _how: Shutdown) -> io::Result<()> {
        if let Ok(mut way) = self.outgoing.try_borrow_mut() {
            way.is_ended = true;
        }
        Ok(())
    }
}

/// The other end is told of it.
impl<'a> Drop for Wire<'a> {
    fn drop(self) {
        let Wire {
            hall: _,
            incoming,
            outgoing,
        } = self;
        let mut is_reset = false;
        if let Ok(mut way) = incoming.try_borrow_mut() {
            way.is_left = true;
            is_reset = way.unread() > 0;
        }
        if let Ok(mut way) = outgoing.try_borrow_mut() {
            way.is_ended = true;
            way.is_reset |= is_reset;
        }
    }
}
