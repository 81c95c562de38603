//! Edges on the loopback, and on a network in memory.

use crate::edge::Node;
use crate::hall::{Hall, Pieces};
use crate::host::Host;
use crate::moves::{Deed, Move, play};
use Deed::{Asks, Closed, Ends, Hears, Sends, Stays};
use Move::{At, By, Join, Leave, Turns};
use kb_node::Limits;
use std::alloc::Global;
use std::net::Net;
use std::test::Fail;

/// Nothing happens in a turn.
const IDLE: Move<'static> = Turns([0, 0, 0, 0, 0, 0]);

/// A wrong password is answered 100 ms later.
const USERS_LOG_IN: [Move<'static>; 13] = [
    Join,
    Join,
    By(0, Asks("gssapi", "gssapi-refused")),
    By(0, Asks("handshake ann", "offered welcome")),
    By(0, Asks("ann-again", "illegal")),
    By(1, Asks("handshake", "offered")),
    By(1, Sends("ann-wrong", 26)),
    At(99),
    IDLE,
    At(100),
    By(1, Hears("denied")),
    By(1, Closed),
    By(0, Stays),
];

const A_REQUEST_BEFORE_THE_LOGIN_IS_SHUT: [Move<'static>; 3] = [
    Join,
    By(0, Asks("metadata", "")),
    By(0, Closed),
];

const A_BATCH_COMES_BACK: [Move<'static>; 4] = [
    Join,
    By(0, Asks("handshake ann", "offered welcome")),
    By(0, Asks("create append hi", "created appended-0")),
    By(0, Asks("fetch", "fetched hi")),
];

const A_CLIENT_MAY_SEND_BYTE_BY_BYTE: [Move<'static>; 3] = [
    Join,
    By(0, Sends("versions", 1)),
    By(0, Hears("served")),
];

const A_CLIENT_MAY_CLOSE_IN_THE_MIDDLE: [Move<'static>; 5] = [
    Join,
    Join,
    By(1, Sends("0000000a001200", 7)),
    Leave,
    By(0, Asks("versions", "served")),
];

/// What a shut connection sends is not read, and what is behind a wrong login is not answered.
const WHAT_IS_BEHIND_A_WRONG_LOGIN_IS_NOT_READ: [Move<'static>; 6] = [
    Join,
    By(0, Asks("handshake", "offered")),
    By(0, Sends("ann-wrong versions versions", 54)),
    At(100),
    By(0, Hears("denied")),
    By(0, Closed),
];

/// A client that sends no more is gone: what it sent before is answered.
const A_CLIENT_MAY_SEND_NO_MORE: [Move<'static>; 5] = [
    Join,
    Join,
    By(1, Asks("versions", "served")),
    By(1, Ends),
    By(1, Closed),
];

/// A client goes that has not read its answer, so that the system resets the connection.
const A_CLIENT_MAY_RESET: [Move<'static>; 5] = [
    Join,
    Join,
    By(1, Sends("versions", 14)),
    Leave,
    By(0, Asks("versions", "served")),
];

/// A fetch waits until another client's batch comes.
const A_WAIT_ENDS_BY_ANOTHER: [Move<'static>; 9] = [
    Join,
    Join,
    By(0, Asks("handshake ann", "offered welcome")),
    By(0, Asks("create append hi", "created appended-0")),
    By(0, Sends("wait", 58)),
    IDLE,
    By(1, Asks("handshake ann", "offered welcome")),
    By(1, Asks("append hi", "appended-1")),
    By(0, Hears("came hi")),
];

/// A fetch waits a second, and not less.
const A_WAIT_ENDS_BY_ITS_DEADLINE: [Move<'static>; 9] = [
    Join,
    By(0, Asks("handshake ann", "offered welcome")),
    By(0, Asks("create append hi", "created appended-0")),
    At(5000),
    By(0, Sends("wait", 58)),
    At(5999),
    IDLE,
    At(6000),
    By(0, Hears("nothing-came")),
];

/// A client has ten seconds for its login, whatever it sends before. One that has logged in may be silent.
const A_CLIENT_LOGS_IN_IN_TIME: [Move<'static>; 14] = [
    Join,
    Join,
    By(0, Asks("handshake ann", "offered welcome")),
    By(1, Asks("versions", "served")),
    At(9999),
    By(1, Asks("handshake", "offered")),
    By(1, Sends("0000", 2)),
    IDLE,
    At(10_000),
    Turns([0, 0, 0, 1, 0, 1]),
    By(1, Closed),
    At(90_000),
    IDLE,
    By(0, Asks("create", "created")),
];

/// Where one client may be there, it makes room for another until it has logged in.
const ONE_AT_A_TIME: [Move<'static>; 8] = [
    Join,
    Turns([1, 0, 0, 0, 0, 0]),
    Join,
    Turns([1, 0, 0, 1, 0, 1]),
    By(0, Closed),
    By(1, Asks("handshake ann", "offered welcome")),
    Join,
    Turns([1, 0, 0, 1, 1, 0]),
];

/// The last number is given to one client, and none is left for the next.
const THE_LAST_NUMBER: [Move<'static>; 5] = [
    Join,
    By(0, Asks("versions", "served")),
    Join,
    Turns([1, 0, 0, 1, 0, 0]),
    By(1, Closed),
];

/// The most clients of a scene.
const CLIENTS: usize = 4;

/// What happens to an edge, under its name: how many sockets it may have, and which number its broker gave to a connection before.
type Scene = (&'static str, u32, u64, &'static [Move<'static>]);

const SCENES: [Scene; 13] = [
    ("users log in", 1024, 0, &USERS_LOG_IN),
    (
        "a request before the login is shut",
        1024,
        0,
        &A_REQUEST_BEFORE_THE_LOGIN_IS_SHUT,
    ),
    ("a batch comes back", 1024, 0, &A_BATCH_COMES_BACK),
    (
        "a client may send byte by byte",
        1024,
        0,
        &A_CLIENT_MAY_SEND_BYTE_BY_BYTE,
    ),
    (
        "a client may close in the middle",
        1024,
        0,
        &A_CLIENT_MAY_CLOSE_IN_THE_MIDDLE,
    ),
    (
        "what is behind a wrong login is not read",
        1024,
        0,
        &WHAT_IS_BEHIND_A_WRONG_LOGIN_IS_NOT_READ,
    ),
    (
        "a client may send no more",
        1024,
        0,
        &A_CLIENT_MAY_SEND_NO_MORE,
    ),
    ("a client may reset", 1024, 0, &A_CLIENT_MAY_RESET),
    ("a wait ends by another", 1024, 0, &A_WAIT_ENDS_BY_ANOTHER),
    (
        "a wait ends by its deadline",
        1024,
        0,
        &A_WAIT_ENDS_BY_ITS_DEADLINE,
    ),
    (
        "a client logs in in time",
        1024,
        0,
        &A_CLIENT_LOGS_IN_IN_TIME,
    ),
    (
        "a client that logged in makes no room",
        1,
        0,
        &ONE_AT_A_TIME,
    ),
    (
        "the last number is given once",
        1024,
        u64::MAX - 1,
        &THE_LAST_NUMBER,
    ),
];

/// How many moves of a scene go as they say.
fn plays<R: Net>(net: &R, alloc: Global, scene: &Scene) -> Result<usize, Fail> {
    let (_, sockets, number, moves) = *scene;
    let mut host = Host::new(alloc)?;
    if number > 0 {
        host.open(number)?;
    }
    let limits = Limits {
        sockets,
        ..Limits::default()
    };
    let mut edge = Node::bind(net, alloc, host, limits)?;
    Ok(play(net, alloc, &mut edge, moves)?)
}

/// The name of the first scene that goes otherwise, and none where all go as they say.
fn first_wrong<R: Net>(net: &R, alloc: Global) -> Result<&'static str, Fail> {
    for scene in &SCENES {
        if plays(net, alloc, scene)? < scene.3.len() {
            return Ok(scene.0);
        }
    }
    Ok("")
}

/// The same in memory, where each write is read whole.
fn first_wrong_in_memory(alloc: Global) -> Result<&'static str, Fail> {
    let clients = CLIENTS * SCENES.len();
    let hall = Hall::new(alloc, clients, Pieces::Whole, usize::MAX)?;
    first_wrong(&hall.room(), alloc)
}

#[test]
fn scenes_are_played(rt: HostRuntime) -> Result<(), Fail> {
    let wrong = first_wrong(&rt, rt.alloc())?;
    assert!(rt; wrong.is_empty(), "{wrong}");
    Ok(())
}

#[test]
fn scenes_are_played_in_memory(rt: HostRuntime) -> Result<(), Fail> {
    let wrong = first_wrong_in_memory(rt.alloc())?;
    assert!(rt; wrong.is_empty(), "{wrong}");
    Ok(())
}
