//! The listeners of an edge.

ghost use Rattle.std.specs.Net.Grammar.{IsSocketText};
ghost use Rattle.std.specs.Prelude.{◌≡◌, ◌≤◌, ◌<◌, ◌+◌, vec_len, IfOk, OnErr, OnOk};
ghost use Rattle.kb_node.specs.Doors.{IsAtPort, IsListenedOn, first_port};

use crate::watch::Watch;
use std::alloc::{AllocError, AllocFailed, Global};
use std::io;
use std::io::ErrorKind;
use std::net::{Net, OpenListener, SocketAddr, TcpListener, ToSocketAddrs};
use std::os::fd::AsRawFd;

/// The number under which the listeners are watched, which no connection has.
pub const DOOR: u64 = 0;

/// Linux's number for an address of a family that the machine does not have.
const EAFNOSUPPORT: i32 = 97;

/// What stood in the way of listening: the name could not be looked up, or this address of it cannot be listened on.
#[derive(Clone, Copy)]
pub struct BindCause {
    /// The address, where it is one.
    pub address: Option<SocketAddr>,
    /// What the system says.
    pub error: io::Error,
}

/// Why nothing is listened on.
#[derive(Clone, Copy)]
pub enum DoorFault {
    Bind(BindCause),
    /// Memory was refused.
    Memory,
}

impl From<AllocError> for DoorFault {
    fn from(_e: AllocError) -> DoorFault {
        DoorFault::Memory
    }
}

impl<T: Drop> From<AllocFailed<T>> for DoorFault {
    fn from(_e: AllocFailed<T>) -> DoorFault {
        DoorFault::Memory
    }
}

/// Listeners that never wait, each with its address.
#[derive(Drop)]
pub struct Doors<R: Net> {
    listeners: Vec<R::Listener>,
    addresses: Vec<SocketAddr>,
}

impl<R: Net> Doors<R> {
    /// Listens on every address that `HOST:PORT` stands for. At port 0 the system chooses one, and the same for all of them.
    ///
    /// An address that the machine does not have is passed over where it has another of them. One that cannot be listened on for
    /// another reason is a fault.
    pub fn open(
        net: &R,
        alloc: Global,
        address: &str,
        watch: &Option<Watch>,
    ) -> Result<Doors<R>, DoorFault>
        ensures some { IfOk result (λ doors. 0 < vec_len doors.listeners) }
        ensures paired { IfOk result (λ doors. vec_len doors.addresses ≡ vec_len doors.listeners) }
        // An address that is spelled out is one, and has one listener.
        ensures spelled { (at : SocketAddr) → IsSocketText address.now at → IfOk result (λ doors. vec_len doors.listeners ≡ 1) }
    {
        let found = match address.to_socket_addrs(net) {
            Ok(found) => found,
            Err(e) => return Err(not_bound(None, e)),
        };
        let mut doors = Doors {
            listeners: Vec::new(alloc),
            addresses: Vec::new(alloc),
        };
        let mut missing = not_bound(None, io::Error::from(ErrorKind::AddrNotAvailable));
        for address in found {
            match doors.add(net, address, watch) {
                Err(fault) if is_missing(&fault) => missing = fault,
                added => added?,
            }
        }
        if doors.listeners.is_empty() {
            return Err(missing);
        }
        Ok(doors)
    }

    /// Listens on one more address, unless it is listened on.
    fn add(&mut self, net: &R, address: SocketAddr, watch: &Option<Watch>) -> Result<(), DoorFault>
        ensures paired { vec_len self.old.addresses ≡ vec_len self.old.listeners
            → vec_len self.new.addresses ≡ vec_len self.new.listeners }
        ensures listens { OnOk result (0 < vec_len self.new.addresses) }
        ensures most { vec_len self.new.listeners ≤ vec_len self.old.listeners + 1 }
        // It is listened on from now on, at one more listener, or was before.
        ensures added { OnOk result (IsListenedOn address
            (record { listeners = self.old.listeners.items; addresses = self.old.addresses.items })
            (record { listeners = self.new.listeners.items; addresses = self.new.addresses.items })) }
        ensures refused { OnErr result ((self.new.listeners.items ≡ self.old.listeners.items)
            × (self.new.addresses.items ≡ self.old.addresses.items)) }
    {
        let address = with_port(address, self.port());
        if self.addresses.contains(&address) {
            return Ok(());
        }
        self.listeners.reserve(1)?;
        self.addresses.reserve(1)?;
        match listen(net, address, watch) {
            Ok((listener, address)) => {
                self.listeners.push_reserved(listener);
                self.addresses.push_reserved(address);
                Ok(())
            }
            Err(e) => Err(not_bound(Some(address), e)),
        }
    }

    /// The port of all of them, or 0 where there is none.
    pub fn port(&self) -> u16
        ensures { result ≡ first_port self.now.addresses.items }
    {
        self.addresses.first().map_or(0, |address| address.port())
    }

    /// The addresses that are listened on.
    pub fn addresses(&self) -> &[SocketAddr]
        ensures { result.now ≡ self.now.addresses.items }
    {
        &self.addresses
    }

    /// A socket that waits at one of them. `WouldBlock`: none does.
    pub fn accept(&self) -> io::Result<(R::Stream, SocketAddr)> {
        for listener in &self.listeners {
            match listener.accept() {
                Err(e) if e.kind() == ErrorKind::WouldBlock => {}
                accepted => return accepted,
            }
        }
        Err(io::Error::from(ErrorKind::WouldBlock))
    }
}

/// An address, but with that port where it names none.
fn with_port(mut address: SocketAddr, port: u16) -> SocketAddr
    ensures { IsAtPort port address result }
{
    if address.port() == 0 {
        address.set_port(port);
    }
    address
}

fn not_bound(address: Option<SocketAddr>, error: io::Error) -> DoorFault {
    DoorFault::Bind(BindCause { address, error })
}

/// Whether the machine has no such address.
fn is_missing(fault: &DoorFault) -> bool {
    match fault {
        DoorFault::Bind(cause) => {
            cause.error.kind() == ErrorKind::AddrNotAvailable
                || cause.error.raw_os_error() == Some(EAFNOSUPPORT)
        }
        DoorFault::Memory => false,
    }
}

/// A listener that never waits, and its address.
fn listen<R: Net>(
    net: &R,
    address: SocketAddr,
    watch: &Option<Watch>,
) -> io::Result<(R::Listener, SocketAddr)> {
    let listener = TcpListener::bind(net, address)?;
    listener.set_nonblocking(true)?;
    let address = listener.local_addr()?;
    if let Some(watch) = watch {
        watch.add(listener.as_raw_fd(), DOOR)?;
    }
    Ok((listener, address))
}
