//! What an edge waits for beside its sockets, where it listens, how many of them there are, and when its last commit was.

ghost use Rattle.std.specs.Prelude.{◌≡◌, ◌<◌, false, vec_len};
ghost use Rattle.kb_node.specs.Seats.{open_strangers, open_with};

use crate::edge::Edge;
use kb_log::PartitionLog;
use kb_store::Store;
use std::net::{Net, SocketAddr};
use std::os::fd::RawFd;
use std::{io, mem};

/// The number under which other files are watched, to which no connection comes.
pub(super) const BESIDE: u64 = u64::MAX;

impl<R: Net, S: Store, L: PartitionLog + Drop> Edge<R, S, L> {
    /// A wait ends too once this file becomes ready, until the file is closed: [`Edge::take_beside`] tells it. An edge that was bound
    /// without a watch does not wait.
    pub fn watch_also(&self, file: RawFd) -> io::Result<()> {
        match &self.watch {
            Some(watch) => watch.add(file, BESIDE),
            None => Ok(()),
        }
    }

    /// Whether one of these files became ready since that was asked last.
    pub fn take_beside(&mut self) -> bool
        ensures ready { result ≡ self.old.is_beside_ready }
        ensures asked { self.new.is_beside_ready ≡ false }
        ensures host { self.new.host ≡ self.old.host }
        ensures sockets { self.new.sockets ≡ self.old.sockets }
    {
        mem::replace(&mut self.is_beside_ready, false)
    }

    /// The port that is listened on.
    pub fn port(&self) -> u16 {
        self.doors.port()
    }

    /// The addresses that are listened on.
    pub fn addresses(&self) -> &[SocketAddr]
        ensures { result.now ≡ self.now.doors.addresses.items }
    {
        self.doors.addresses()
    }

    /// How many sockets there are, those that have not logged in among them.
    pub fn sockets_len(&self) -> usize
        ensures { result ≡ vec_len self.now.sockets }
    {
        self.sockets.len()
    }

    /// How many open sockets are bound to a tenant with a share, which let them in: as many are counted for it.
    pub fn open_sockets(&self, tenant: usize) -> u64
        ensures { tenant < self.now.shares.tenants → result ≡ open_with tenant self.now.sockets.items }
    {
        self.shares.used(tenant)
    }

    /// How many open sockets have not logged in.
    pub fn open_strangers(&self) -> u64
        ensures { result ≡ open_strangers self.now.sockets.items }
    {
        self.shares.strangers()
    }

    /// The moment of the last commit, in milliseconds: 0 before the first.
    pub fn last_commit(&self) -> u64
        ensures { result ≡ self.now.host.commits.last }
    {
        self.host.commits().last()
    }

    /// How many sockets there are at most at a time.
    pub fn most_sockets(&self) -> usize
        ensures { result ≡ self.now.limit }
    {
        self.limit
    }
}
