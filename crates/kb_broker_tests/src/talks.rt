//! Clients that say all that they have to say, over a network in memory that carries any number of bytes at a time. What they are told is
//! what a run of a broker gives that gets the same bytes, each client's at once.

use crate::edge::{Client, Node, Server};
use crate::hall::{Hall, Pieces};
use crate::host::Host;
use crate::words::bytes_of;
use kb_broker::Written;
use kb_node::{Limits, Sync};
use std::alloc::{AllocError, Global};
use std::io;
use std::net::Net;
use std::ops::Range;
use std::test::Fail;

/// What is said on each connection, what it is told, and whether it is shut: by a client of each tenant, by one that does not log in, and
/// by one whose login fails.
const TALKS: [(&str, &str, bool); 4] = [
    (
        "handshake ann create append hi fetch append hi metadata",
        "offered welcome created appended-0 fetched hi appended-1 described",
        false,
    ),
    (
        "handshake bob create metadata append yo fetch 00000007",
        "offered welcome created described appended-0 fetched yo",
        true,
    ),
    (
        "versions gssapi versions",
        "served gssapi-refused served",
        false,
    ),
    ("handshake ann-wrong versions", "offered denied", true),
];

/// How many turns a talk has at most. A client that does not log in has ten seconds.
const TURNS: u32 = 9_000;

/// How many turns follow in which nothing is to come.
const MORE: u32 = 50;

/// For how many turns a client reads nothing.
const DEAF: u32 = 2_000;

/// How the bytes go: how many at a time at most, how many a way holds, and when a reply waits for a commit.
const WAYS: [(u32, usize, Sync); 6] = [
    (2, 4096, Sync::Interval),
    (7, 16, Sync::Always),
    (7, 4096, Sync::Never),
    (60, 64, Sync::Interval),
    (300, 4096, Sync::Always),
    (4096, 5, Sync::Never),
];

/// A client that says something.
#[derive(Drop)]
struct Talker<R: Net> {
    client: Client<R>,
    words: Vec<u8>,
    said: usize,
    is_deaf: bool,
}

impl<R: Net> Talker<R> {
    fn join(net: &R, alloc: Global, port: u16, words: &str) -> io::Result<Talker<R>> {
        let words = bytes_of(alloc, words)?;
        Ok(Talker {
            client: Client::connect(net, alloc, port)?,
            words,
            said: 0,
            is_deaf: false,
        })
    }

    /// Says what is taken now, and hears what there is.
    fn go_on(&mut self) -> io::Result<()> {
        let rest = self.words.get(self.said..).unwrap_or(&[]);
        self.said = self.said.saturating_add(self.client.send_some(rest));
        if self.is_deaf {
            return Ok(());
        }
        self.client.look()
    }

    /// Whether it was told just this, and is over if it was shut.
    fn was_told(&self, written: &Written) -> bool {
        self.client.got == written.bytes && self.client.is_over == written.shut
    }
}

/// A client for each talk.
fn join_all<R: Net>(net: &R, alloc: Global, port: u16) -> io::Result<Vec<Talker<R>>> {
    let mut talkers = Vec::new(alloc);
    for (words, _, _) in &TALKS {
        talkers.push(Talker::join(net, alloc, port, words)?)?;
    }
    Ok(talkers)
}

/// All go on.
fn go_on_all<R: Net>(talkers: &mut [Talker<R>]) -> io::Result<()> {
    for talker in talkers {
        talker.go_on()?;
    }
    Ok(())
}

/// What a run of a broker gives each of them.
fn run(alloc: Global) -> Result<Vec<Written>, AllocError> {
    let mut host = Host::new(alloc)?;
    for number in 1..5 {
        host.open(number)?;
    }
    let [first, second, third, fourth] = &TALKS;
    let first = bytes_of(alloc, first.0)?;
    let second = bytes_of(alloc, second.0)?;
    let third = bytes_of(alloc, third.0)?;
    let fourth = bytes_of(alloc, fourth.0)?;
    host.run(first, second, third, fourth)
}

/// How many of the first clients were told what the run gives.
fn count_told<R: Net>(talkers: &[Talker<R>], told: &[Written]) -> usize {
    let mut count = 0usize;
    for (talker, written) in talkers.iter().zip(told) {
        if !talker.was_told(written) {
            break;
        }
        count = count.saturating_add(1);
    }
    count
}

/// Turns an edge at each of some moments, and lets its clients go on, until they were told all, and some turns longer. It answers how many
/// of the first were told all, and how many sockets were closed.
fn talk<R: Net, E: Server>(
    alloc: Global,
    edge: &mut E,
    talkers: &mut [Talker<R>],
    told: &[Written],
    moments: Range<u32>,
) -> io::Result<(usize, u64)> {
    let (mut left, mut closed) = (MORE, 0u64);
    for now in moments {
        if left == 0 {
            break;
        }
        closed = closed.saturating_add(edge.turn(alloc, now)[3]);
        go_on_all(talkers)?;
        if count_told(talkers, told) == talkers.len() {
            left = left.saturating_sub(1);
        }
    }
    Ok((count_told(talkers, told), closed))
}

/// The first client reads nothing at first, and so gets nothing, and the others are told all. Behind that it reads.
fn hear_later<R: Net, E: Server>(
    alloc: Global,
    edge: &mut E,
    talkers: &mut [Talker<R>],
    told: &[Written],
) -> io::Result<(usize, u64)> {
    set_deaf(talkers, true);
    talk(alloc, edge, talkers, told, 0..DEAF)?;
    let others = count_told(behind(talkers), behind(told));
    let are_told = others == behind(told).len() && got_first(talkers) == 0;
    set_deaf(talkers, false);
    let (count, closed) = talk(alloc, edge, talkers, told, DEAF..TURNS)?;
    Ok((if are_told { count } else { 0 }, closed))
}

/// All but the first.
fn behind<T>(all: &[T]) -> &[T] {
    all.get(1..).unwrap_or(&[])
}

/// How many bytes the first client got.
fn got_first<R: Net>(talkers: &[Talker<R>]) -> usize {
    match talkers.first() {
        Some(talker) => talker.client.got.len(),
        None => 0,
    }
}

/// Whether the first client reads nothing.
fn set_deaf<R: Net>(talkers: &mut [Talker<R>], is_deaf: bool) {
    if let Some(talker) = talkers.first_mut() {
        talker.is_deaf = is_deaf;
    }
}

/// All but the first client go after so many turns, in the middle of what they say or hear.
fn go_after<R: Net, E: Server>(
    alloc: Global,
    edge: &mut E,
    talkers: &mut Vec<Talker<R>>,
    told: &[Written],
    turns: u32,
) -> io::Result<(usize, u64)> {
    for now in 0..turns {
        edge.turn(alloc, now);
        go_on_all(talkers)?;
    }
    talkers.truncate(1);
    talk(alloc, edge, talkers, told, turns..TURNS)
}

/// What the clients of an edge do.
#[derive(Clone, Copy)]
enum Course {
    /// They say all, and hear.
    All,
    /// The first one hears later.
    HearLater,
    /// The others go after so many turns.
    GoAfter(u32),
}

/// Clients do so: how many are told what the run gives, and how many sockets are closed in the end.
fn take_course<R: Net, E: Server>(
    net: &R,
    alloc: Global,
    edge: &mut E,
    told: &[Written],
    course: Course,
) -> io::Result<(usize, u64)> {
    let mut talkers = join_all(net, alloc, edge.port())?;
    match course {
        Course::All => talk(alloc, edge, &mut talkers, told, 0..TURNS),
        Course::HearLater => hear_later(alloc, edge, &mut talkers, told),
        Course::GoAfter(turns) => go_after(alloc, edge, &mut talkers, told, turns),
    }
}

/// The same of clients of a new broker on a network.
fn serves<R: Net>(
    net: &R,
    alloc: Global,
    limits: Limits,
    told: &[Written],
    course: Course,
) -> Result<(usize, u64), Fail> {
    let mut edge = Node::bind(net, alloc, Host::new(alloc)?, limits)?;
    Ok(take_course(net, alloc, &mut edge, told, course)?)
}

/// The same over a network in memory, where bytes go so.
fn takes_course(
    alloc: Global,
    way: (u32, usize, Sync),
    told: &[Written],
    course: Course,
) -> Result<(usize, u64), Fail> {
    let (most, room, sync) = way;
    let hall = Hall::new(alloc, TALKS.len(), Pieces::UpTo(most, room as u64), room)?;
    let limits = Limits {
        sync,
        ..Limits::default()
    };
    serves(&hall.room(), alloc, limits, told, course)
}

/// How many of the first talks have just these replies.
fn count_right(alloc: Global, told: &[Written]) -> Result<usize, AllocError> {
    let mut count = 0usize;
    for (written, (_, reply, is_shut)) in told.iter().zip(&TALKS) {
        if written.bytes != bytes_of(alloc, reply)? || written.shut != *is_shut {
            break;
        }
        count = count.saturating_add(1);
    }
    Ok(count)
}

#[test]
fn a_run_tells_what_each_connection_got(rt: HostRuntime) -> Result<(), Fail> {
    let told = run(rt.alloc())?;
    assert!(rt; told.len() == TALKS.len());
    assert!(rt; count_right(rt.alloc(), &told)? == TALKS.len());
    Ok(())
}

#[test]
fn bytes_may_go_in_any_pieces(rt: HostRuntime) -> Result<(), Fail> {
    let told = run(rt.alloc())?;
    for way in &WAYS {
        let done = takes_course(rt.alloc(), *way, &told, Course::All)?;
        assert!(rt; done == (TALKS.len(), 2), "up to {} bytes", way.0);
    }
    Ok(())
}

#[test]
fn a_client_that_reads_later_loses_nothing(rt: HostRuntime) -> Result<(), Fail> {
    let told = run(rt.alloc())?;
    let way = (40, 24, Sync::Interval);
    assert!(rt; takes_course(rt.alloc(), way, &told, Course::HearLater)? == (TALKS.len(), 0));
    Ok(())
}

#[test]
fn clients_that_go_change_nothing(rt: HostRuntime) -> Result<(), Fail> {
    let told = run(rt.alloc())?;
    for turns in [1, 5, 9, 20] {
        let way = (20, 64, Sync::Interval);
        let done = takes_course(rt.alloc(), way, &told, Course::GoAfter(turns))?;
        assert!(rt; done == (1, 3), "after {turns} turns");
    }
    Ok(())
}
