//! The listeners of the pages, and their connections.

ghost use Rattle.std.specs.Prelude.{◌≤◌, IfOk, vec_len};

use crate::peer::Peer;
use crate::route::authorization;
use crate::site::{Site, Source};
use std::alloc::Global;
use std::hash::RandomState;
use std::io;
use std::io::ErrorKind;
use std::net::{Net, OpenListener, OpenStream, SocketAddr, TcpListener, ToSocketAddrs};
use std::os::fd::AsRawFd;

/// The most connections at a time: a further one is closed at once.
const PEERS: usize = 16;

/// The most connections that a turn accepts.
const ACCEPTS: usize = 64;

/// For how many milliseconds a connection is open at most.
const MILLIS: u64 = 5_000;

/// Linux's number for an address of a family that the machine does not have.
const EAFNOSUPPORT: i32 = 97;

/// Pages on a network. A turn waits for no peer.
#[derive(Drop)]
pub struct Pages<R: Net> {
    alloc: Global,
    keys: RandomState,
    listeners: Vec<R::Listener>,
    peers: Vec<Peer<R::Stream>>,
    /// What a request has to have in its field `authorization`, if anything.
    asked: Option<Vec<u8>>,
    /// Whether a listener or a connection may go on, though the system does not tell so again.
    is_due: bool,
}

impl<R: Net> Pages<R> {
    /// Listens on every address that a host stands for, at a port. With a token each page but `/healthz` is for who names it.
    ///
    /// Where the machine has some of the addresses alone, those are listened on.
    pub fn open(
        net: &R,
        alloc: Global,
        keys: RandomState,
        address: &str,
        token: Option<&str>,
    ) -> io::Result<Pages<R>> {
        let asked = match token {
            Some(token) => Some(authorization(alloc, token)?),
            None => None,
        };
        let mut pages = Pages {
            alloc,
            keys,
            listeners: Vec::new(alloc),
            peers: Vec::with_capacity(alloc, PEERS)?,
            asked,
            is_due: true,
        };
        let mut missing = io::Error::from(ErrorKind::AddrNotAvailable);
        for address in address.to_socket_addrs(net)? {
            match listen(net, address) {
                Ok(listener) => pages.listeners.push(listener)?,
                Err(e) if is_missing(&e) => missing = e,
                Err(e) => return Err(e),
            }
        }
        if pages.listeners.is_empty() {
            return Err(missing);
        }
        Ok(pages)
    }

    /// The pages are to be turned once somebody connects.
    pub fn watch<S: Source>(&self, source: &S) -> io::Result<()> {
        for listener in &self.listeners {
            source.wake_by(listener.as_raw_fd())?;
        }
        Ok(())
    }

    /// Takes new connections, and serves those that are there: a page each. One that is open for 5 seconds is closed. The moment is in
    /// milliseconds. Where no file became ready that the pages are woken by, and nothing was left to be done, the system is not asked.
    pub fn turn<S: Source>(&mut self, source: &S, now: u64, is_ready: bool) {
        if is_ready || self.is_due {
            self.is_due = false;
            self.accept_all(source, now);
            self.serve(source);
        }
        self.peers.retain(|peer| !peer.is_over && now < peer.until);
    }

    /// Takes the connections that wait.
    fn accept_all<S: Source>(&mut self, source: &S, now: u64) {
        for _ in 0..ACCEPTS {
            let Some(stream) = self.accept() else {
                return;
            };
            // one that cannot be taken is closed
            let _ = self.take_in(source, stream, now);
        }
        self.is_due = true;
    }

    /// Reads and writes what can be read and written now.
    fn serve<S: Source>(&mut self, source: &S) {
        let mut site = Site {
            alloc: self.alloc,
            asked: &self.asked,
            source,
        };
        for peer in &mut self.peers {
            self.is_due |= peer.turn(&mut site);
        }
    }

    /// A socket that waits at one of the listeners. Where an accept was refused it is tried again in the next turn.
    fn accept(&mut self) -> Option<R::Stream> {
        for listener in &self.listeners {
            match listener.accept() {
                Ok((stream, _)) => return Some(stream),
                Err(e) if e.kind() == ErrorKind::WouldBlock => {}
                Err(_) => self.is_due = true,
            }
        }
        None
    }

    /// Takes a connection in, below the limit.
    fn take_in<S: Source>(&mut self, source: &S, stream: R::Stream, now: u64) -> io::Result<()> {
        if self.peers.len() >= PEERS {
            return Err(io::Error::from(ErrorKind::QuotaExceeded));
        }
        stream.set_nonblocking(true)?;
        source.wake_by(stream.as_raw_fd())?;
        let until = now.saturating_add(MILLIS);
        self.peers
            .push(Peer::new(self.alloc, self.keys, stream, until))?;
        Ok(())
    }
}

/// Whether the machine has no such address.
fn is_missing(error: &io::Error) -> bool {
    error.kind() == ErrorKind::AddrNotAvailable || error.raw_os_error() == Some(EAFNOSUPPORT)
}

/// A listener that never waits.
fn listen<R: Net>(net: &R, address: SocketAddr) -> io::Result<R::Listener> {
    let listener = TcpListener::bind(net, address)?;
    listener.set_nonblocking(true)?;
    Ok(listener)
}
