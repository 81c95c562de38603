//! Two tenants on one shelf.
ghost use Rattle.std.specs.Prelude.{◌≡◌, [], ◌∷◌, IfOk};
ghost use Rattle.kb_store.specs.Memory.{memory_disk};
ghost use Rattle.kb_log.specs.ListLog.{list_log};
ghost use Rattle.kb_tenant_api.specs.Hosted.{new_tenant};
ghost use Rattle.kb_tenants.specs.Tenants.{AreKept, hosted};

use kb_log::{ListLog, Shelf};
use kb_store::MemoryStore;
use kb_tenant::{Answer, DataLimits, Node, Request};
use kb_tenants::Tenants;
use kb_wire::{Text, api_key};
use std::alloc::{AllocError, Global};
use std::process::Abort;
use std::test::Fail;

/// CreateTopics of `t` with one partition that keeps batches for 1000 milliseconds.
const CREATE_KEPT: &[u8] =
    b"\x00\x00\x00\x01\x00\x01t\x00\x00\x00\x01\x00\x01\x00\x00\x00\x00\x00\x00\x00\x01\x00\x0cretention.ms\x00\x041000\x00\x00\x13\x88";

/// It is made.
const MADE: &[u8] = b"\x00\x00\x00\x0d\x00\x00\x00\x09\x00\x00\x00\x01\x00\x01t\x00\x00";

/// Produce to `t` of a batch of one record with timestamp 5.
const APPEND: &[u8] =
    b"\xff\xff\x00\x01\x00\x00\x03\xe8\x00\x00\x00\x01\x00\x01t\x00\x00\x00\x01\x00\x00\x00\x00\x00\x00\x00\x46\
    \x00\x00\x00\x00\x00\x00\x00\x00\x00\x00\x00\x3a\xff\xff\xff\xff\x02\x71\xa3\xaf\x2c\x00\x00\x00\x00\x00\x00\
    \x00\x00\x00\x00\x00\x00\x00\x05\x00\x00\x00\x00\x00\x00\x00\x05\xff\xff\xff\xff\xff\xff\xff\xff\xff\xff\xff\xff\xff\xff\
    \x00\x00\x00\x01\x10\x00\x00\x00\x01\x04hi\x00";

/// It is appended at offset 0.
const APPENDED: &[u8] =
    b"\x00\x00\x00\x29\x00\x00\x00\x09\x00\x00\x00\x01\x00\x01t\x00\x00\x00\x01\x00\x00\x00\x00\x00\x00\
    \x00\x00\x00\x00\x00\x00\x00\x00\xff\xff\xff\xff\xff\xff\xff\xff\x00\x00\x00\x00";

/// The tenants `a` and `b`, without topics.
fn two(alloc: Global) -> Result<Tenants<ListLog, MemoryStore>, Fail>
    ensures invariant { IfOk result (λ two. AreKept list_log (λ s. memory_disk s.files.entries) two) }
    ensures hosted { IfOk result (λ two. hosted list_log (λ s. memory_disk s.files.entries) two
        ≡ new_tenant (97 ∷ []) ∷ new_tenant (98 ∷ []) ∷ []) }
{
    let shelf = Shelf::new(alloc, MemoryStore::new(alloc), 1).map_err(|_| AllocError)?;
    let mut tenants = Tenants::new(alloc, shelf);
    tenants.add(alloc, "a", 1_048_576)?;
    tenants.add(alloc, "b", 1_048_576)?;
    Ok(tenants)
}

/// Whether an answer is that reply.
fn is_reply(answer: &kb_tenant_api::Answer, reply: &[u8]) -> bool {
    match answer {
        kb_tenant_api::Answer::Plain(Answer::Reply(bytes)) => bytes.as_slice() == reply,
        _ => false,
    }
}

/// Plays some requests, each with its tenant, its API key, its body and its reply, and sees that no refusal is counted.
fn plays(
    rt: &impl Abort,
    alloc: Global,
    tenants: &mut Tenants<ListLog, MemoryStore>,
    asked: &[(usize, i16, &[u8], &[u8])],
)
    requires { AreKept list_log (λ s. memory_disk s.files.entries) tenants.old }
    ensures { AreKept list_log (λ s. memory_disk s.files.entries) tenants.new }
{
    let node = Node {
        host: Text::new("localhost"),
        port: 9092,
        limits: DataLimits::none(),
    };
    for (tenant, api_key, body, reply) in asked {
        let request = Request {
            connection: 1,
            api_key: *api_key,
            api_version: 0,
            correlation_id: 9,
            body,
        };
        assert!(rt; *tenant < tenants.len());
        let served = tenants.serve(alloc, *tenant, 1000, &node, &request);
        assert!(rt; is_reply(&served.answer, reply));
        assert!(rt; tenants.is_calm());
    }
}

/// Each moment of these, and whether it drops a batch.
const MOMENTS: [(u64, bool); 4] = [(1000, false), (1005, false), (1006, true), (1006, false)];

#[test]
fn a_batch_is_due_once(rt: HostRuntime) -> Result<(), Fail> {
    let mut tenants = two(rt.alloc())?;
    let asked = [
        (1, api_key::CREATE_TOPICS, CREATE_KEPT, MADE),
        (1, api_key::PRODUCE, APPEND, APPENDED),
    ];
    plays(&rt, rt.alloc(), &mut tenants, &asked);
    for (clock, is_due) in &MOMENTS {
        assert!(rt;
            drops(&rt, rt.alloc(), &mut tenants, *clock) == *is_due,
            "{clock}"
        );
    }
    Ok(())
}

/// Whether a moment drops batches.
fn drops(
    rt: &impl Abort,
    alloc: Global,
    tenants: &mut Tenants<ListLog, MemoryStore>,
    clock: u64,
) -> bool
    requires { AreKept list_log (λ s. memory_disk s.files.entries) tenants.old }
    ensures { AreKept list_log (λ s. memory_disk s.files.entries) tenants.new }
{
    assert!(rt; clock < 2000);
    tenants.pass(alloc, clock).is_none()
}

#[test]
fn refusals_are_counted_by_tenant(rt: HostRuntime) -> Result<(), Fail> {
    let mut tenants = two(rt.alloc())?;
    assert_eq!(rt; tenants.len(), 2);
    assert!(rt; tenants.is_calm());
    tenants.refuse(1);
    assert!(rt; !tenants.is_calm());
    assert_eq!(rt; tenants.refusals_named(b"a"), 0);
    assert_eq!(rt; tenants.refusals_named(b"b"), 1);
    assert_eq!(rt; tenants.refusals_named(b"c"), 0);
    Ok(())
}

#[test]
fn nothing_is_due_where_nothing_is_there(rt: HostRuntime) -> Result<(), Fail> {
    let mut tenants = two(rt.alloc())?;
    assert!(rt; !drops(&rt, rt.alloc(), &mut tenants, 1000));
    Ok(())
}
