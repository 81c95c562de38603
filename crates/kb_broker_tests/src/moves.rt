//! What happens to an edge and its clients, one move after another. Bytes are written as `words` says.

use crate::edge::{Client, Server};
use crate::words::bytes_of;
use std::alloc::Global;
use std::io;
use std::net::Net;

/// How often a client looks for an answer.
const LOOKS: usize = 10_000;

/// How many turns an edge gets to see that a client has gone.
const TURNS: usize = 100;

/// What happens to an edge and its clients, which have numbers from 0 on, in the order in which they came.
#[derive(Clone, Copy)]
pub(crate) enum Move<'a> {
    /// A client connects.
    Join,
    /// It is that moment from here on.
    At(u32),
    /// A turn does exactly this, in the order of [`Server::turn`].
    Turns([u64; 6]),
    /// The last client goes: just one socket is closed.
    Leave,
    /// Something happens to a client.
    By(usize, Deed<'a>),
}

/// What happens to a client.
#[derive(Clone, Copy)]
pub(crate) enum Deed<'a> {
    /// It sends bytes, so many at a time, and the edge turns after each.
    Sends(&'a str, usize),
    /// It is told bytes.
    Hears(&'a str),
    /// It sends bytes, and is told others.
    Asks(&'a str, &'a str),
    /// It sends no more.
    Ends,
    /// Its connection is closed with no more bytes.
    Closed,
    /// It has not seen the end of its connection.
    Stays,
}

/// How many of some moves go as they say, before the first that does not.
pub(crate) fn play<R: Net, E: Server>(
    net: &R,
    alloc: Global,
    edge: &mut E,
    moves: &[Move<'_>],
) -> io::Result<usize> {
    let mut clients = Vec::new(alloc);
    play_among(net, alloc, edge, &mut clients, moves)
}

/// The same among clients that are there.
fn play_among<R: Net, E: Server>(
    net: &R,
    alloc: Global,
    edge: &mut E,
    clients: &mut Vec<Client<R>>,
    moves: &[Move<'_>],
) -> io::Result<usize> {
    let mut now = 0u32;
    let mut done = 0usize;
    for next in moves {
        if let Move::At(moment) = *next {
            now = moment;
        }
        if !goes(net, alloc, edge, clients, now, *next)? {
            break;
        }
        done = done.saturating_add(1);
    }
    Ok(done)
}

/// Whether a move goes as it says.
fn goes<R: Net, E: Server>(
    net: &R,
    alloc: Global,
    edge: &mut E,
    clients: &mut Vec<Client<R>>,
    now: u32,
    next: Move<'_>,
) -> io::Result<bool> {
    match next {
        Move::Join => join(net, alloc, edge.port(), clients),
        Move::At(_) => Ok(true),
        Move::Turns(counts) => Ok(turns(alloc, edge, now, counts)),
        Move::Leave => Ok(leaves(alloc, edge, clients, now)),
        Move::By(place, deed) => is_done_at(alloc, edge, clients, now, place, deed),
    }
}

/// Whether a turn does just this.
fn turns<E: Server>(alloc: Global, edge: &mut E, now: u32, counts: [u64; 6]) -> bool {
    edge.turn(alloc, now) == counts
}

/// Whether what happens to the client at a place goes as it says.
fn is_done_at<R: Net, E: Server>(
    alloc: Global,
    edge: &mut E,
    clients: &mut [Client<R>],
    now: u32,
    place: usize,
    deed: Deed<'_>,
) -> io::Result<bool> {
    match clients.get_mut(place) {
        Some(client) => is_done(alloc, edge, client, now, deed),
        None => Ok(false),
    }
}

/// A client connects.
fn join<R: Net>(
    net: &R,
    alloc: Global,
    port: u16,
    clients: &mut Vec<Client<R>>,
) -> io::Result<bool> {
    let client = Client::connect(net, alloc, port)?;
    clients.push(client)?;
    Ok(true)
}

/// The last client goes: whether just one socket is closed in the turns that follow.
fn leaves<R: Net, E: Server>(
    alloc: Global,
    edge: &mut E,
    clients: &mut Vec<Client<R>>,
    now: u32,
) -> bool {
    drop(clients.pop());
    count_closed(alloc, edge, now) == 1
}

/// How many sockets are closed in the turns that follow.
fn count_closed<E: Server>(alloc: Global, edge: &mut E, now: u32) -> u64 {
    let mut closed = 0u64;
    for _ in 0..TURNS {
        closed = closed.saturating_add(edge.turn(alloc, now)[3]);
    }
    closed
}

/// Whether what happens to a client goes as it says.
fn is_done<R: Net, E: Server>(
    alloc: Global,
    edge: &mut E,
    client: &mut Client<R>,
    now: u32,
    deed: Deed<'_>,
) -> io::Result<bool> {
    match deed {
        Deed::Sends(bytes, size) => sends(alloc, edge, client, now, bytes, size),
        Deed::Hears(reply) => hears(alloc, edge, client, now, reply),
        Deed::Asks(bytes, reply) => {
            client.send(&bytes_of(alloc, bytes)?)?;
            hears(alloc, edge, client, now, reply)
        }
        Deed::Ends => {
            client.end()?;
            Ok(true)
        }
        Deed::Closed => {
            listen(alloc, edge, client, now, 1)?;
            Ok(client.is_over && client.got.is_empty())
        }
        Deed::Stays => Ok(!client.is_over),
    }
}

/// A client sends bytes, so many at a time, and the edge turns after each.
fn sends<R: Net, E: Server>(
    alloc: Global,
    edge: &mut E,
    client: &mut Client<R>,
    now: u32,
    bytes: &str,
    size: usize,
) -> io::Result<bool> {
    let bytes = bytes_of(alloc, bytes)?;
    for piece in bytes.chunks(size.max(1)) {
        client.send(piece)?;
        edge.turn(alloc, now);
    }
    Ok(true)
}

/// Whether a client is told bytes.
fn hears<R: Net, E: Server>(
    alloc: Global,
    edge: &mut E,
    client: &mut Client<R>,
    now: u32,
    reply: &str,
) -> io::Result<bool> {
    let reply = bytes_of(alloc, reply)?;
    listen(alloc, edge, client, now, reply.len())?;
    Ok(client.got == reply)
}

/// Turns the edge until that many bytes have come to a client, or its connection is over.
fn listen<R: Net, E: Server>(
    alloc: Global,
    edge: &mut E,
    client: &mut Client<R>,
    now: u32,
    count: usize,
) -> io::Result<()> {
    client.got.clear();
    for _ in 0..LOOKS {
        if client.got.len() >= count || client.is_over {
            break;
        }
        edge.turn(alloc, now);
        client.look()?;
    }
    Ok(())
}
