//! A fetch that is answered, or waits.
ghost use Rattle.std.specs.Prelude.{◌≡◌, ◌≤◌, ◌++◌, true, IfOk, OnOk};
ghost use Rattle.kb_wire.specs.declared.clock.TheConstants.{MAX_CLOCK};
ghost use Rattle.kb_store.specs.Disk.{Files};
ghost use Rattle.kb_api_data.specs.Layouts.{fetch_request};
ghost use Rattle.kb_api_data.specs.declared.fetch_v5.FetchReplyV5.{FetchReplyV5};
ghost use Rattle.kb_tenant_state.specs.Scene.{WhereHonest};
ghost use Rattle.kb_tenant.specs.Fetch.{deadline_of, fetch_answer, look_written, places_in, places_of, reply_written, IsServed};
ghost use Rattle.kb_tenant.specs.Told.{HasFailed, IsFetchMade, IsFetchReady};
ghost use Rattle.kb_tenant_state.specs.Parts.{scene, world_of};
ghost use Rattle.kb_tenant_state.specs.Steps.{IsStep, Meets};

use crate::fetch::asked::AskedFetch;
use crate::fetch::given::not_negative;
use crate::fetch::now::fetch_now;
use crate::fetch::partition::place_of;
use crate::fetch::waits::surely_waits;
use kb_api_data::FetchPartition;
use kb_log::{PartitionLog, Shelf};
use kb_store::Store;
use kb_tenant_state::{Parts, TopicPartition};
use kb_wire::Sink;
use std::alloc::{AllocError, Global};

/// What became of a fetch.
#[derive(Drop)]
pub(crate) enum Fetching {
    /// Its reply was written.
    Reply,
    /// It waits for one of these partitions, until the deadline at most.
    Wait {
        deadline: u64,
        keys: Vec<TopicPartition>,
    },
}

/// Adds the partitions that a topic's entries ask for.
fn add_places(
    places: &mut Vec<TopicPartition>,
    topic: Option<u64>,
    entries: &[FetchPartition],
) -> Result<(), AllocError>
    ensures { OnOk result (places.new.items ≡ places.old.items ++ places_in topic entries.now) }
{
    for entry in entries {
        if let Some(place) = place_of(topic, entry) {
            places.push(place)?;
        }
    }
    Ok(())
}

/// The partitions that a fetch asks for, in order.
fn places<L: PartitionLog + Drop>(
    alloc: Global,
    parts: &Parts<L>,
    request: &AskedFetch,
) -> Result<Vec<TopicPartition>, AllocError>
    ensures { IfOk result (λ places.
        (files : Files) → places.items ≡ places_of (world_of L.log parts.now files) request.now) }
{
    let mut places = Vec::new(alloc);
    for topic in request.topics() {
        let instance = parts.topic_named(topic.name());
        add_places(&mut places, instance, topic.partitions())?;
    }
    Ok(places)
}

/// Until when a fetch of this moment waits at most.
fn deadline(clock: u64, request: &AskedFetch) -> u64
    requires { clock ≤ MAX_CLOCK }
    ensures { result ≡ deadline_of clock request.now }
{
    clock + not_negative(request.max_wait_ms())
}

/// Looks at a waiting fetch: writes its reply if it waits no longer, and answers whether it did.
///
/// Where it still waits the sink is as before; where that is sure beforehand nothing is copied or read. A partition that memory or
/// the store refused has that error's code in the reply, which is then written. An `Err` may leave a front of the reply there.
pub(crate) fn look<L: PartitionLog + Drop, S: Store>(
    alloc: Global,
    parts: &mut Parts<L>,
    shelf: &mut Shelf<S>,
    clock: u64,
    has_starts: bool,
    request: &AskedFetch,
    deadline: u64,
    sink: &mut Sink,
) -> Result<bool, AllocError>
    requires sound { (scene L.log S.disk parts.old shelf.old).sound }
    requires fits { fetch_request.Fits request.now }
    ensures step { IsStep (scene L.log S.disk parts.old shelf.old) (scene L.log S.disk parts.new shelf.new) }
    ensures same { let a = scene L.log S.disk parts.old shelf.old in let b = scene L.log S.disk parts.new shelf.new in
        b.disk.honest → a.agrees → b.state.world ≡ a.state.world }
    ensures meets { let a = scene L.log S.disk parts.old shelf.old in
        IfOk result (λ done. Meets a (scene L.log S.disk parts.new shelf.new)
        ((done, sink.new.bytes) ≡ look_written has_starts sink.old.bytes (fetch_answer a.state.world clock request.now deadline))) }
    ensures told { let a = scene L.log S.disk parts.old shelf.old in let b = scene L.log S.disk parts.new shelf.new in
        IfOk result (λ done. WhereHonest a b ((reply : FetchReplyV5)
        × (IsFetchReady (HasFailed a b) a.state.world clock deadline request.now done reply
        × (done ≡ true → sink.new.bytes ≡ sink.old.bytes ++ reply_written has_starts reply)))) }
{
    if surely_waits(parts, clock, request, deadline) {
        return Ok(false);
    }
    let before = sink.len();
    let given = fetch_now(alloc, parts, shelf, has_starts, request, sink)?;
    if given.is_ready(clock, deadline) {
        return Ok(true);
    }
    sink.truncate(before);
    Ok(false)
}

/// Serves a fetch: writes its reply, or answers until when and for which partitions it waits.
///
/// Where it waits the sink is as before. An `Err` may leave a front of the reply there.
pub(crate) fn serve_fetch<L: PartitionLog + Drop, S: Store>(
    alloc: Global,
    parts: &mut Parts<L>,
    shelf: &mut Shelf<S>,
    clock: u64,
    has_starts: bool,
    request: &AskedFetch,
    sink: &mut Sink,
) -> Result<Fetching, AllocError>
    requires sound { (scene L.log S.disk parts.old shelf.old).sound }
    requires clock { clock ≤ MAX_CLOCK }
    requires fits { fetch_request.Fits request.now }
    ensures step { IsStep (scene L.log S.disk parts.old shelf.old) (scene L.log S.disk parts.new shelf.new) }
    ensures same { let a = scene L.log S.disk parts.old shelf.old in let b = scene L.log S.disk parts.new shelf.new in
        b.disk.honest → a.agrees → b.state.world ≡ a.state.world }
    ensures meets { let a = scene L.log S.disk parts.old shelf.old in
        IfOk result (λ served. Meets a (scene L.log S.disk parts.new shelf.new)
        (IsServed has_starts a.state.world clock request.now
        (fetch_answer a.state.world clock request.now (deadline_of clock request.now))
        sink.old.bytes served sink.new.bytes)) }
    ensures told { let a = scene L.log S.disk parts.old shelf.old in let b = scene L.log S.disk parts.new shelf.new in
        IfOk result (λ served. WhereHonest a b
        (IsFetchMade (HasFailed a b) has_starts a.state.world clock request.now sink.old.bytes served sink.new.bytes)) }
{
    let deadline = deadline(clock, request);
    if look(
        alloc, parts, shelf, clock, has_starts, request, deadline, sink,
    )? {
        return Ok(Fetching::Reply);
    }
    Ok(Fetching::Wait {
        deadline,
        keys: places(alloc, parts, request)?,
    })
}
