//! A fetch as a version of the API asks it (Kafka protocol guide, "The Messages: Fetch").
//!
//! From version 5 on a request tells where a follower's logs start, which nobody asks for here, and a reply where the partition's
//! log does. From version 7 on a request names a fetch session, of which there is none: one that goes on with a session is refused
//! as a whole, and a full fetch is answered with session 0. From version 9 on the epochs of leaders are passed over.
ghost use Rattle.std.specs.Prelude.{◌≡◌, ◌++◌, map, IfOk, Ok, OnOk};
ghost use Rattle.kb_wire.specs.Reads.{ReadsWhole};
ghost use Rattle.kb_api_data.specs.Layouts.{fetch_request};
ghost use Rattle.kb_tenant.specs.Entries.{fetch_entries, within};
ghost use Rattle.kb_tenant.specs.Fetch.{asked_as, asked_fetch, asks, at_once, has_epochs};
ghost use Rattle.kb_tenant.specs.Fetch.{has_session, has_starts, in_session, is_full};
ghost use Rattle.kb_tenant.specs.Fetch.{plain, plain_partition, plain_partition_v9, plain_topic, plain_topic_v9};
ghost use Rattle.kb_tenant.specs.Fetch.{request_read, session_front};
ghost use Rattle.kb_tenant.specs.Replies.{begun};

use crate::answer::begin;
use crate::fetch::asked::{AskedFetch, AskedTopic};
use crate::within::within;
use kb_api_data::{
    FetchPartition, FetchPartitionV5, FetchPartitionV9, FetchRequest, FetchRequestV5,
    FetchRequestV7, FetchTopic, FetchTopicV5, FetchTopicV9,
};
use kb_wire::{Array, ErrorCode, Layout, ReadFault, Sink};
use std::alloc::{AllocError, Global};

/// The code of a reply to a fetch that goes on with a session: there is none.
const FETCH_SESSION_ID_NOT_FOUND: i16 = 70;

/// What a request asks.
#[derive(Drop)]
pub(crate) struct Asked {
    /// The fetch. It asks nothing where it goes on with a session.
    pub request: AskedFetch,
    /// The error code of its session, which its reply has from version 7 on.
    pub code: i16,
}

/// Whether a version has fetch sessions.
fn has_session(version: i16) -> bool
    ensures { result ≡ has_session version }
{
    version >= 7
}

/// Whether a request of a version has the epochs of leaders.
fn has_epochs(version: i16) -> bool
    ensures { result ≡ has_epochs version }
{
    version >= 9
}

/// Whether a fetch is full: it begins a session or wants none. A session that it names is to end, and there is none.
fn is_full<T>(request: &FetchRequestV7<'_, T>) -> bool
    ensures { result ≡ is_full request.now.session_epoch }
{
    request.session_epoch == 0 || request.session_epoch == -1
}

/// Whether a version tells where logs start.
pub(crate) fn has_starts(version: i16) -> bool
    ensures { result ≡ has_starts version }
{
    version >= 5
}

/// A topic's entries without the starts of a follower's logs.
fn plain_partitions(
    alloc: Global,
    entries: &[FetchPartitionV5],
) -> Result<Array<FetchPartition>, AllocError>
    ensures { IfOk result (λ plain. plain ≡ map plain_partition entries.now) }
{
    let mut plain = Array::new(alloc);
    for entry in entries {
        plain.push(FetchPartition {
            partition: entry.partition,
            fetch_offset: entry.fetch_offset,
            partition_max_bytes: entry.partition_max_bytes,
        })?;
    }
    Ok(plain)
}

/// The topics without the starts of a follower's logs.
fn plain_topics(alloc: Global, topics: &[FetchTopicV5<'_>]) -> Result<Array<AskedTopic>, AllocError>
    ensures { IfOk result (λ plain. plain ≡ map plain_topic topics.now) }
{
    let mut plain = Array::new(alloc);
    for topic in topics {
        let entries = plain_partitions(alloc, topic.partitions.as_slice())?;
        plain.push(AskedTopic::new(alloc, topic.topic.as_str(), entries)?)?;
    }
    Ok(plain)
}

/// A topic's entries of version 9, without the starts of a follower's logs and the epochs of leaders.
fn plain_partitions_v9(
    alloc: Global,
    entries: &[FetchPartitionV9],
) -> Result<Array<FetchPartition>, AllocError>
    ensures { IfOk result (λ plain. plain ≡ map plain_partition_v9 entries.now) }
{
    let mut plain = Array::new(alloc);
    for asked in entries {
        plain.push(FetchPartition {
            partition: asked.partition,
            fetch_offset: asked.fetch_offset,
            partition_max_bytes: asked.partition_max_bytes,
        })?;
    }
    Ok(plain)
}

/// The same of topics.
fn plain_topics_v9(
    alloc: Global,
    topics: &[FetchTopicV9<'_>],
) -> Result<Array<AskedTopic>, AllocError>
    ensures { IfOk result (λ plain. plain ≡ map plain_topic_v9 topics.now) }
{
    let mut plain = Array::new(alloc);
    for topic in topics {
        let entries = plain_partitions_v9(alloc, topic.second.as_slice())?;
        plain.push(AskedTopic::new(alloc, topic.first.as_str(), entries)?)?;
    }
    Ok(plain)
}

/// A request asks these topics, with that error code of its session.
fn asks<T>(request: &FetchRequestV7<'_, T>, code: i16, topics: Array<AskedTopic>) -> Asked
    ensures { result ≡ asks request.now code topics }
{
    Asked {
        request: AskedFetch {
            replica_id: request.replica_id,
            max_wait_ms: request.max_wait_ms,
            min_bytes: request.min_bytes,
            max_bytes: request.max_bytes,
            isolation_level: request.isolation_level,
            topics,
        },
        code,
    }
}

/// What a request of version 7 or 8 asks.
fn asked_v7<'a>(
    alloc: Global,
    request: &FetchRequestV7<'a, FetchTopicV5<'a>>,
) -> Result<Asked, AllocError>
    ensures { IfOk result (λ asked. asked ≡ in_session plain_topic request.now) }
{
    if !is_full(request) {
        return Ok(asks(request, FETCH_SESSION_ID_NOT_FOUND, Array::new(alloc)));
    }
    let topics = plain_topics(alloc, request.topics.as_slice())?;
    Ok(asks(request, ErrorCode::None.code(), topics))
}

/// What a request of version 9 asks.
fn asked_v9<'a>(
    alloc: Global,
    request: &FetchRequestV7<'a, FetchTopicV9<'a>>,
) -> Result<Asked, AllocError>
    ensures { IfOk result (λ asked. asked ≡ in_session plain_topic_v9 request.now) }
{
    if !is_full(request) {
        return Ok(asks(request, FETCH_SESSION_ID_NOT_FOUND, Array::new(alloc)));
    }
    let topics = plain_topics_v9(alloc, request.topics.as_slice())?;
    Ok(asks(request, ErrorCode::None.code(), topics))
}

/// A request without the starts of a follower's logs.
fn plain(alloc: Global, request: &FetchRequestV5<'_>) -> Result<AskedFetch, AllocError>
    ensures { IfOk result (λ asked. asked ≡ plain request.now) }
{
    Ok(AskedFetch {
        replica_id: request.replica_id,
        max_wait_ms: request.max_wait_ms,
        min_bytes: request.min_bytes,
        max_bytes: request.max_bytes,
        isolation_level: request.isolation_level,
        topics: plain_topics(alloc, request.topics.as_slice())?,
    })
}

/// The entries of a topic of version 4.
fn own_partitions(
    alloc: Global,
    entries: &[FetchPartition],
) -> Result<Array<FetchPartition>, AllocError>
    ensures { IfOk result (λ own. own ≡ entries.now) }
{
    let mut own = Array::new(alloc);
    for wanted in entries {
        own.push(FetchPartition {
            partition: wanted.partition,
            fetch_offset: wanted.fetch_offset,
            partition_max_bytes: wanted.partition_max_bytes,
        })?;
    }
    Ok(own)
}

/// The topics of version 4.
fn own_topics(alloc: Global, topics: &[FetchTopic<'_>]) -> Result<Array<AskedTopic>, AllocError>
    ensures { IfOk result (λ own. own ≡ topics.now) }
{
    let mut own = Array::new(alloc);
    for topic in topics {
        let entries = own_partitions(alloc, topic.partitions.as_slice())?;
        own.push(AskedTopic::new(alloc, topic.topic.as_str(), entries)?)?;
    }
    Ok(own)
}

/// A request of version 4.
fn own(alloc: Global, request: &FetchRequest<'_>) -> Result<AskedFetch, AllocError>
    ensures { IfOk result (λ asked. asked ≡ request.now) }
{
    Ok(AskedFetch {
        replica_id: request.replica_id,
        max_wait_ms: request.max_wait_ms,
        min_bytes: request.min_bytes,
        max_bytes: request.max_bytes,
        isolation_level: request.isolation_level,
        topics: own_topics(alloc, request.topics.as_slice())?,
    })
}

/// What a request of a version without sessions asks.
fn at_once(request: AskedFetch) -> Asked
    ensures { result ≡ at_once request }
{
    Asked {
        request,
        code: ErrorCode::None.code(),
    }
}

/// Reads a whole body of a request of a version.
#[tactic(auto, using(crate::proofs::Versions::read_fits))]
fn read_request(alloc: Global, version: i16, body: &[u8]) -> Result<Asked, ReadFault>
    ensures fits { IfOk result (λ asked. fetch_request.Fits asked.request) }
    ensures exact { ReadsWhole (asked_as version body.now) result }
{
    if has_epochs(version) {
        let epochs = FetchRequestV7::<FetchTopicV9<'_>>::read(alloc, body)?;
        return Ok(asked_v9(alloc, &epochs)?);
    }
    if has_session(version) {
        let session = FetchRequestV7::<FetchTopicV5<'_>>::read(alloc, body)?;
        return Ok(asked_v7(alloc, &session)?);
    }
    if has_starts(version) {
        let starts = FetchRequestV5::read(alloc, body)?;
        return Ok(at_once(plain(alloc, &starts)?));
    }
    let request = FetchRequest::read(alloc, body)?;
    Ok(at_once(own(alloc, &request)?))
}

/// Reads a whole body of a request, unless it names more entries than a limit allows.
pub(crate) fn read_request_within(
    alloc: Global,
    limit: Option<u64>,
    version: i16,
    body: &[u8],
) -> Result<Asked, ReadFault>
    ensures fits { IfOk result (λ asked. fetch_request.Fits asked.request) }
    ensures exact { ReadsWhole (within limit fetch_entries (asked_fetch version body.now)) (request_read result) }
    ensures spelled { IfOk result (λ asked. asked_as version body.now ≡ Ok asked) }
{
    let asked = read_request(alloc, version, body)?;
    let Asked { request, code } = asked;
    let request = within(limit, request)?;
    Ok(Asked { request, code })
}

/// Writes the error code of a session, where the version has sessions. The throttle time in front of it is the connection's.
fn put_session(version: i16, code: i16, sink: &mut Sink) -> Result<(), AllocError>
    ensures { OnOk result (sink.new.bytes ≡ sink.old.bytes ++ session_front version code) }
{
    if has_session(version) {
        return sink.put_i16(code);
    }
    Ok(())
}

/// Begins the reply to a request, with the error code of its session where the version has sessions.
pub(crate) fn begin_reply(
    alloc: Global,
    correlation_id: i32,
    version: i16,
    code: i16,
) -> Result<Sink, AllocError>
    ensures { IfOk result (λ sink. sink.bytes ≡ begun correlation_id ++ session_front version code) }
{
    let mut sink = begin(alloc, correlation_id)?;
    put_session(version, code, &mut sink)?;
    Ok(sink)
}
