//! A fetch, a search by time and a look at a fetch that waits, where the store refuses to read: each is answered, and not shut. Where
//! there cannot be enough for it a waiting fetch asks no store.
ghost use Rattle.std.specs.Prelude.{IfOk};
ghost use Rattle.kb_tenants.specs.Tenants.{AreKept};

use kb_log::{PartitionLog, Shelf};
use kb_segment_log::SegmentLog;
use kb_store::{Fuse, FusedStore, MemoryStore, Store};
use kb_tenant::{Answer, DataLimits, Node, Request, Wait, WaitingFetch};
use kb_tenants::Tenants;
use kb_wire::{Text, api_key};
use std::alloc::{AllocError, Global};
use std::process::Abort;
use std::test::Fail;

/// CreateTopics of `t` with one partition.
const CREATE: &[u8] =
    b"\x00\x00\x00\x01\x00\x01t\x00\x00\x00\x01\x00\x01\x00\x00\x00\x00\x00\x00\x00\x00\x00\x00\x13\x88";

/// Produce to `t` of a batch of one record.
const APPEND: &[u8] =
    b"\xff\xff\x00\x01\x00\x00\x03\xe8\x00\x00\x00\x01\x00\x01t\x00\x00\x00\x01\x00\x00\x00\x00\x00\x00\x00\x46\
    \x00\x00\x00\x00\x00\x00\x00\x00\x00\x00\x00\x3a\xff\xff\xff\xff\x02\x71\xa3\xaf\x2c\x00\x00\x00\x00\x00\x00\
    \x00\x00\x00\x00\x00\x00\x00\x05\x00\x00\x00\x00\x00\x00\x00\x05\xff\xff\xff\xff\xff\xff\xff\xff\xff\xff\xff\xff\xff\xff\
    \x00\x00\x00\x01\x10\x00\x00\x00\x01\x04hi\x00";

/// Fetch of it from offset 0 on.
const FETCH: &[u8] =
    b"\xff\xff\xff\xff\x00\x00\x00\x64\x00\x00\x00\x01\x00\x10\x00\x00\x00\x00\x00\x00\x01\x00\x01t\x00\x00\x00\x01\
    \x00\x00\x00\x00\x00\x00\x00\x00\x00\x00\x00\x00\x00\x10\x00\x00";

/// The same, of a megabyte at least.
const FETCH_MUCH: &[u8] =
    b"\xff\xff\xff\xff\x00\x00\x00\x64\x00\x10\x00\x00\x00\x10\x00\x00\x00\x00\x00\x00\x01\x00\x01t\x00\x00\x00\x01\
    \x00\x00\x00\x00\x00\x00\x00\x00\x00\x00\x00\x00\x00\x10\x00\x00";

/// Its reply where the store refuses: KAFKA_STORAGE_ERROR, and no records.
const REFUSED: &[u8] =
    b"\x00\x00\x00\x31\x00\x00\x00\x09\x00\x00\x00\x00\x00\x00\x00\x01\x00\x01t\x00\x00\x00\x01\x00\x00\x00\x00\x00\x38\
    \xff\xff\xff\xff\xff\xff\xff\xff\xff\xff\xff\xff\xff\xff\xff\xff\xff\xff\xff\xff\x00\x00\x00\x00";

/// ListOffsets of its first record from time 5 on.
const SEARCH: &[u8] =
    b"\xff\xff\xff\xff\x00\x00\x00\x01\x00\x01t\x00\x00\x00\x01\x00\x00\x00\x00\x00\x00\x00\x00\x00\x00\x00\x05";

/// Its reply where the store refuses: KAFKA_STORAGE_ERROR, and no offset.
const UNKNOWN: &[u8] =
    b"\x00\x00\x00\x25\x00\x00\x00\x09\x00\x00\x00\x01\x00\x01t\x00\x00\x00\x01\x00\x00\x00\x00\x00\x38\
    \xff\xff\xff\xff\xff\xff\xff\xff\xff\xff\xff\xff\xff\xff\xff\xff";

/// What is asked of the tenant once its topic has a record.
#[derive(Clone, Copy)]
enum Asked {
    Look,
    Fetch,
    Search,
}

/// The tenant `a`, without topics, on that store.
fn one<L: PartitionLog + Drop, S: Store + Drop>(
    alloc: Global,
    store: S,
) -> Result<Tenants<L, S>, Fail>
    ensures { IfOk result (λ one. AreKept L.log S.disk one) }
{
    let shelf = Shelf::new(alloc, store, 1).map_err(|_| AllocError)?;
    let mut tenants = Tenants::new(alloc, shelf);
    tenants.add(alloc, "a", 1_048_576)?;
    Ok(tenants)
}

/// Asks a request of the tenant.
fn ask<L: PartitionLog + Drop, S: Store>(
    rt: &impl Abort,
    alloc: Global,
    tenants: &mut Tenants<L, S>,
    api_key: i16,
    body: &[u8],
) -> kb_tenant_api::Answer
    requires { AreKept L.log S.disk tenants.old }
    ensures { AreKept L.log S.disk tenants.new }
{
    let node = Node {
        host: Text::new("localhost"),
        port: 9092,
        limits: DataLimits::none(),
    };
    let request = Request {
        connection: 1,
        api_key,
        api_version: 0,
        correlation_id: 9,
        body,
    };
    assert!(rt; 0 < tenants.len());
    tenants.serve(alloc, 0, 1000, &node, &request).answer
}

/// The fetch of that body, where it waits at time 1000.
fn waiting<L: PartitionLog + Drop, S: Store>(
    rt: &impl Abort,
    alloc: Global,
    tenants: &mut Tenants<L, S>,
    body: &[u8],
) -> Option<WaitingFetch>
    requires { AreKept L.log S.disk tenants.old }
    ensures { AreKept L.log S.disk tenants.new }
{
    match ask(rt, alloc, tenants, api_key::FETCH, body) {
        kb_tenant_api::Answer::Plain(Answer::Wait { fetch, .. }) => Some(fetch),
        _ => None,
    }
}

/// What a fetch that waits until that deadline is answered at time 1000.
fn looked<L: PartitionLog + Drop, S: Store>(
    rt: &impl Abort,
    alloc: Global,
    tenants: &mut Tenants<L, S>,
    fetch: &WaitingFetch,
    deadline: u64,
) -> Answer
    requires { AreKept L.log S.disk tenants.old }
    ensures { AreKept L.log S.disk tenants.new }
{
    let wait = Wait {
        correlation_id: 9,
        deadline,
        fetch,
    };
    assert!(rt; 0 < tenants.len());
    tenants.look(alloc, 0, 1000, &wait)
}

/// Whether an answer is that reply.
fn is_reply(answer: &Answer, reply: &[u8]) -> bool {
    match answer {
        Answer::Reply(bytes) => bytes.as_slice() == reply,
        _ => false,
    }
}

/// Asks it, and answers whether that is answered with the code of a failing store.
fn is_told<L: PartitionLog + Drop, S: Store>(
    rt: &impl Abort,
    alloc: Global,
    tenants: &mut Tenants<L, S>,
    fetch: &WaitingFetch,
    asked: Asked,
) -> bool
    requires { AreKept L.log S.disk tenants.old }
    ensures { AreKept L.log S.disk tenants.new }
{
    let (answer, reply) = match asked {
        Asked::Look => return is_reply(&looked(rt, alloc, tenants, fetch, 1000), REFUSED),
        Asked::Fetch => (ask(rt, alloc, tenants, api_key::FETCH, FETCH), REFUSED),
        Asked::Search => (
            ask(rt, alloc, tenants, api_key::LIST_OFFSETS, SEARCH),
            UNKNOWN,
        ),
    };
    match answer {
        kb_tenant_api::Answer::Plain(answer) => is_reply(&answer, reply),
        _ => false,
    }
}

/// Makes the topic, appends a batch and asks, on a store that refuses that call. Where it was the last that was refused it was
/// answered so. Answers whether it was.
fn is_refused(rt: &impl Abort, alloc: Global, call: u64, asked: Asked) -> Result<bool, Fail> {
    let store = FusedStore::new(MemoryStore::new(alloc), Fuse::Once(call), 0);
    let mut tenants = one::<SegmentLog, _>(alloc, store)?;
    ask(rt, alloc, &mut tenants, api_key::CREATE_TOPICS, CREATE);
    let waits = waiting(rt, alloc, &mut tenants, FETCH); // there is no record yet
    ask(rt, alloc, &mut tenants, api_key::PRODUCE, APPEND);
    if !tenants.is_calm() {
        return Ok(false);
    }
    let Some(fetch) = waits else {
        return Ok(false);
    };
    let told = is_told(rt, alloc, &mut tenants, &fetch, asked);
    if tenants.is_calm() {
        return Ok(false);
    }
    assert!(rt; told, "{call}");
    Ok(true)
}

/// Makes the topic, appends a batch and looks at a fetch that wants more, on a store that refuses that call and all behind it. Answers
/// whether the look was the first to meet them.
fn is_silent(rt: &impl Abort, alloc: Global, call: u64) -> Result<bool, Fail> {
    let store = FusedStore::new(MemoryStore::new(alloc), Fuse::From(call), 0);
    let mut tenants = one::<SegmentLog, _>(alloc, store)?;
    ask(rt, alloc, &mut tenants, api_key::CREATE_TOPICS, CREATE);
    ask(rt, alloc, &mut tenants, api_key::PRODUCE, APPEND);
    if !tenants.is_calm() {
        return Ok(false);
    }
    let Some(fetch) = waiting(rt, alloc, &mut tenants, FETCH_MUCH) else {
        return Ok(false);
    };
    let answer = looked(rt, alloc, &mut tenants, &fetch, 2000);
    assert!(rt;
        matches!(answer, Answer::NoReply) && tenants.is_calm(),
        "{call}"
    );
    Ok(true)
}

/// Refuses each call of the store in turn, and sees that some of them are those of what is asked.
fn refuses_each(rt: &impl Abort, alloc: Global, asked: Asked) -> Result<(), Fail> {
    let mut some = false;
    for call in 2..16 {
        some |= is_refused(rt, alloc, call, asked)?;
    }
    assert!(rt; some);
    Ok(())
}

#[test]
fn a_look_that_the_store_refuses_is_answered(rt: HostRuntime) -> Result<(), Fail> {
    refuses_each(&rt, rt.alloc(), Asked::Look)
}

#[test]
fn a_fetch_that_the_store_refuses_is_answered(rt: HostRuntime) -> Result<(), Fail> {
    refuses_each(&rt, rt.alloc(), Asked::Fetch)
}

#[test]
fn a_search_that_the_store_refuses_is_answered(rt: HostRuntime) -> Result<(), Fail> {
    refuses_each(&rt, rt.alloc(), Asked::Search)
}

#[test]
fn a_fetch_that_surely_waits_asks_no_store(rt: HostRuntime) -> Result<(), Fail> {
    let mut some = false;
    for call in 2..16 {
        some |= is_silent(&rt, rt.alloc(), call)?;
    }
    assert!(rt; some);
    Ok(())
}
