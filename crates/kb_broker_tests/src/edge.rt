//! An edge on a network, and a client on the other side.

use crate::host::Host;
use kb_node::{BindFault, Edge, Limits};
use kb_segment_log::SegmentLog;
use kb_store::MemoryStore;
use std::alloc::Global;
use std::io;
use std::io::{ErrorKind, Read, Write};
use std::net::{Net, OpenStream, Shutdown, TcpStream};

/// What the clients see of an edge. What drives it takes any, which keeps its proofs short.
pub(crate) trait Server {
    /// The port that is listened on.
    fn port(&self) -> u16;

    /// A turn at a moment: how many sockets it accepted, how many bytes it read and wrote, how many sockets it closed, how many of these
    /// since as many were open as may be, and how many that had not logged in.
    fn turn(&mut self, alloc: Global, now: u32) -> [u64; 6];
}

/// An edge on a network.
#[derive(Drop)]
pub(crate) struct Node<R: Net> {
    edge: Edge<R, MemoryStore, SegmentLog>,
}

impl<R: Net> Node<R> {
    /// An edge for a broker, with those limits, on a port of the network's choice.
    pub(crate) fn bind(
        net: &R,
        alloc: Global,
        host: Host,
        limits: Limits,
    ) -> Result<Node<R>, BindFault> {
        match Edge::bind(net, alloc, host.into_broker(), "127.0.0.1:0", limits) {
            Ok(edge) => Ok(Node { edge }),
            Err(refused) => Err(refused.fault),
        }
    }
}

impl<R: Net> Server for Node<R> {
    fn port(&self) -> u16 {
        self.edge.port()
    }

    fn turn(&mut self, alloc: Global, now: u32) -> [u64; 6] {
        // a store in memory refuses no sync
        let turn = self.edge.turn(alloc, u64::from(now)).unwrap_or_default();
        [
            turn.accepted,
            turn.read,
            turn.written,
            turn.closed,
            turn.turned_away,
            turn.strangers,
        ]
    }
}

/// A client on the other side, and what it got since it began to listen.
#[derive(Drop)]
pub(crate) struct Client<R: Net> {
    stream: R::Stream,
    pub(crate) got: Vec<u8>,
    pub(crate) is_over: bool,
}

impl<R: Net> Client<R> {
    pub(crate) fn connect(net: &R, alloc: Global, port: u16) -> io::Result<Client<R>> {
        let stream = TcpStream::connect(net, ("127.0.0.1", port))?;
        stream.set_nonblocking(true)?;
        stream.set_nodelay(true)?;
        Ok(Client {
            stream,
            got: Vec::new(alloc),
            is_over: false,
        })
    }

    /// Takes what there is now.
    pub(crate) fn look(&mut self) -> io::Result<()> {
        let mut buffer = [0u8; 4096];
        match self.stream.read(&mut buffer) {
            Ok(0) => self.is_over = true,
            Ok(n) => self.got.extend_from_slice(&buffer[..n])?,
            Err(e) if e.kind() == ErrorKind::WouldBlock => {}
            Err(_) => self.is_over = true,
        }
        Ok(())
    }

    /// Sends bytes.
    pub(crate) fn send(&mut self, bytes: &[u8]) -> io::Result<()> {
        self.stream.write_all(bytes)
    }

    /// Sends the first of some bytes, as many as are taken now: how many those are.
    pub(crate) fn send_some(&mut self, bytes: &[u8]) -> usize {
        self.stream.write(bytes).unwrap_or(0)
    }

    /// Sends no more.
    pub(crate) fn end(&mut self) -> io::Result<()> {
        self.stream.shutdown(Shutdown::Write)
    }
}
