//! A connection to the pages.

use crate::site::{Site, Source};
use http_server::{Config, Connection};
use http1::Limits;
use std::alloc::Global;
use std::hash::RandomState;
use std::io::{ErrorKind, Read, Write};

/// How many reads and writes a turn has at most for a connection.
const STEPS: usize = 64;

/// A request's head has at most so many bytes, and no body.
const HEAD: usize = 8192;

/// A connection, which gets one page.
#[derive(Drop)]
pub struct Peer<T> {
    stream: T,
    connection: Connection,
    /// When it is closed, in milliseconds.
    pub until: u64,
    /// Whether it is to be closed now.
    pub is_over: bool,
}

/// What a read or a write came to.
#[derive(Clone, Copy, PartialEq, Eq)]
enum Step {
    /// Something was read or written.
    Moved,
    /// The system has to be waited for.
    Waits,
    /// There is nothing more to be done.
    Ended,
}

impl<T: Read + Write + Drop> Peer<T> {
    /// A connection that is closed at that moment.
    pub fn new(alloc: Global, keys: RandomState, stream: T, until: u64) -> Peer<T> {
        let config = Config {
            limits: Limits {
                max_head_len: HEAD,
                max_extensions_len: HEAD,
                max_trailers_len: HEAD,
            },
            max_body_len: 0,
            max_pending: 0,
            read_size: HEAD,
        };
        Peer {
            stream,
            connection: Connection::new(alloc, keys, config),
            until,
            is_over: false,
        }
    }

    /// Reads what came, and writes what is to be told. It answers whether it may go on though the system does not tell so.
    pub fn turn<S: Source>(&mut self, site: &mut Site<'_, S>) -> bool {
        for _ in 0..STEPS {
            match self.step(site) {
                Step::Moved => {}
                Step::Waits => return false,
                Step::Ended => {
                    self.is_over = true;
                    return false;
                }
            }
        }
        true
    }

    fn step<S: Source>(&mut self, site: &mut Site<'_, S>) -> Step {
        let moved = if self.connection.wants_write() {
            self.connection.write_to(&mut self.stream)
        } else if self.connection.wants_read() {
            self.connection.read_from(&mut self.stream)
        } else {
            return Step::Ended;
        };
        match moved {
            Ok(_) => {
                self.connection.advance(site);
                Step::Moved
            }
            Err(e) => match e.kind() {
                ErrorKind::Interrupted => Step::Moved,
                ErrorKind::WouldBlock => Step::Waits,
                _ => Step::Ended,
            },
        }
    }
}
