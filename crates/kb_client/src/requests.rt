//! The requests of a client, each as its bytes.

ghost use Rattle.std.specs.Prelude.{◌≡◌, ◌≤◌, ◌<◌, ◌^◌, length, pos, IfOk};
ghost use Rattle.kb_client.specs.Requests.{request_text, handshake_text, plain_message, authenticate_text, create_text, identify_text};
ghost use Rattle.kb_client.specs.Requests.{produce_topics, produce_text, IsBatchOf};
ghost use Rattle.kb_client.specs.Fetched.{fetch_topics, fetch_text, patience};

use crate::line::Line;
use crate::stage::ProducerId;
use crate::target::Target;
use kb_api_data::{
    CreateTopic, CreateTopicsRequest, FetchPartitionV5, FetchRequestV5, FetchTopicV5,
    InitProducerIdRequest, ProducePartition, ProduceRequest, ProduceTopic,
};
use kb_api_group::{RequestHeader, SaslAuthenticateRequest, SaslHandshakeRequest};
use kb_batch::BatchBuilder;
use kb_wire::{Array, Blob, Layout, Sink, Text, api_key};
use std::alloc::{AllocError, Global};

/// The greatest size of a request, which is an INT32.
const MAX_SIZE: usize = 2_147_483_647;

/// The bytes of a header without a client's name, and of the fields of a Fetch request but for the name.
const FETCH_FIELDS: usize = 64;

/// The most bytes of records that are asked for.
const MAX_FETCH_BYTES: i32 = 1_048_576;

/// The start of a log of one's own, which only a replica has.
const NO_LOG_START: i64 = -1;

/// How long a reply may wait for a byte, in milliseconds, where more is waited for.
const MAX_WAIT_MS: i32 = 500;

/// The bytes of a header without a client's name, and of the fields of a Produce request but for the batch and the name.
const PRODUCE_FIELDS: usize = 64;

/// A request of that key and version: its size, its header and its body, of some `room` bytes.
fn request<'a, T: Layout<'a>>(
    alloc: Global,
    api: (i16, i16),
    correlation_id: i32,
    body: &T,
    room: usize,
) -> Result<Vec<u8>, AllocError>
    requires { T.codec.Fits body.now }
    ensures { IfOk result (λ text. text.items ≡ request_text api.0 api.1 correlation_id (T.codec.written body.now)) }
{
    let header = RequestHeader {
        api_key: api.0,
        api_version: api.1,
        correlation_id,
        client_id: None,
    };
    let mut message = Sink::new(alloc);
    message.reserve(room)?;
    header.write(&mut message)?;
    body.write(&mut message)?;
    if message.len() > MAX_SIZE {
        return Err(AllocError);
    }
    let mut text = Sink::new(alloc);
    text.put_blob(message.as_slice())?;
    Ok(text.into_vec())
}

/// SaslHandshake: the mechanism PLAIN.
pub fn handshake(alloc: Global, id: i32) -> Result<Vec<u8>, AllocError>
    ensures { IfOk result (λ text. text.items ≡ handshake_text id) }
{
    let body = SaslHandshakeRequest {
        mechanism: Text::new("PLAIN"),
    };
    request(alloc, (api_key::SASL_HANDSHAKE, 1), id, &body, 32)
}

/// The message of PLAIN (RFC 4616).
fn plain_message(alloc: Global, target: &Target) -> Result<Vec<u8>, AllocError>
    ensures message { IfOk result (λ message. message.items ≡ plain_message target.now) }
    ensures short { IfOk result (λ message. length message.items ≤ 512) }
{
    let mut message = Vec::new(alloc);
    message.push(0)?;
    message.extend_from_slice(target.user().as_bytes())?;
    message.push(0)?;
    message.extend_from_slice(target.password().as_bytes())?;
    Ok(message)
}

/// SaslAuthenticate: the user and the password.
pub fn authenticate(alloc: Global, id: i32, target: &Target) -> Result<Vec<u8>, AllocError>
    ensures { IfOk result (λ text. text.items ≡ authenticate_text id target.now) }
{
    let message = plain_message(alloc, target)?;
    let body = SaslAuthenticateRequest {
        auth_bytes: Blob::new(&message),
    };
    request(alloc, (api_key::SASL_AUTHENTICATE, 0), id, &body, 600)
}

/// CreateTopics: the topic with so many partitions.
pub fn create(
    alloc: Global,
    id: i32,
    target: &Target,
    partitions: i32,
) -> Result<Vec<u8>, AllocError>
    ensures { IfOk result (λ text. text.items ≡ create_text id target.now partitions) }
{
    let mut topics = Array::new(alloc);
    topics.push(CreateTopic {
        name: Text::new(target.topic()),
        num_partitions: partitions,
        replication_factor: 1,
        assignments: Array::new(alloc),
        configs: Array::new(alloc),
    })?;
    let body = CreateTopicsRequest {
        topics,
        timeout_ms: 5000,
    };
    request(alloc, (api_key::CREATE_TOPICS, 0), id, &body, 400)
}

/// InitProducerId: an id without a transaction.
pub fn identify(alloc: Global, id: i32) -> Result<Vec<u8>, AllocError>
    ensures { IfOk result (λ text. text.items ≡ identify_text id) }
{
    let body = InitProducerIdRequest {
        transactional_id: None,
        transaction_timeout_ms: 60_000,
    };
    request(alloc, (api_key::INIT_PRODUCER_ID, 0), id, &body, 32)
}

/// The batch of a line alone.
pub fn batch_of(
    alloc: Global,
    producer: ProducerId,
    sequence: i32,
    line: &Line,
) -> Result<Vec<u8>, AllocError>
    ensures { IfOk result (λ batch. IsBatchOf producer sequence line.now batch.items) }
{
    let mut builder = BatchBuilder::new(alloc, producer.id, producer.epoch, sequence);
    match builder.push(line.timestamp(), None, Some(line.bytes())) {
        Ok(()) => match builder.finish() {
            Ok(batch) => Ok(batch),
            Err(_) => Err(AllocError),
        },
        Err(_) => Err(AllocError),
    }
}

/// The topics of a Produce request: the partition with the batch.
fn topics_of<'a>(
    alloc: Global,
    target: &'a Target,
    batch: &'a [u8],
) -> Result<Array<ProduceTopic<'a>>, AllocError>
    ensures { IfOk result (λ topics. topics ≡ produce_topics target.now batch.now) }
{
    let mut partitions = Array::new(alloc);
    partitions.push(ProducePartition {
        index: target.partition(),
        records: Some(Blob::new(batch)),
    })?;
    let mut topics = Array::new(alloc);
    topics.push(ProduceTopic {
        name: Text::new(target.topic()),
        partitions,
    })?;
    Ok(topics)
}

/// Produce: a batch for the partition, to be answered once it is stored.
pub fn produce<'a>(
    alloc: Global,
    id: i32,
    target: &'a Target,
    batch: &'a [u8],
) -> Result<Vec<u8>, AllocError>
    requires { length batch.now ≤ 1048588 }
    ensures { IfOk result (λ text. text.items ≡ produce_text id target.now batch.now) }
{
    let body = ProduceRequest {
        transactional_id: None,
        acks: -1,
        timeout_ms: 30_000,
        topics: topics_of(alloc, target, batch)?,
    };
    let room = PRODUCE_FIELDS + target.topic().len() + batch.len();
    request(alloc, (api_key::PRODUCE, 3), id, &body, room)
}

/// The topics of a Fetch request: the partition from an offset on.
fn fetch_topics_of<'a>(
    alloc: Global,
    target: &'a Target,
    offset: i64,
) -> Result<Array<FetchTopicV5<'a>>, AllocError>
    ensures { IfOk result (λ topics. topics ≡ fetch_topics target.now offset) }
{
    let mut partitions = Array::new(alloc);
    partitions.push(FetchPartitionV5 {
        partition: target.partition(),
        fetch_offset: offset,
        log_start_offset: NO_LOG_START,
        partition_max_bytes: MAX_FETCH_BYTES,
    })?;
    let mut topics = Array::new(alloc);
    topics.push(FetchTopicV5 {
        topic: Text::new(target.topic()),
        partitions,
    })?;
    Ok(topics)
}

/// How long a reply may wait for a byte, in milliseconds.
fn patience(follow: bool) -> i32
    ensures { result ≡ patience follow }
{
    if follow { MAX_WAIT_MS } else { 0 }
}

/// Fetch: whole batches of the partition from an offset on. With `follow` the reply may wait for a byte.
pub fn fetch(
    alloc: Global,
    id: i32,
    target: &Target,
    offset: i64,
    follow: bool,
) -> Result<Vec<u8>, AllocError>
    ensures { IfOk result (λ text. text.items ≡ fetch_text id target.now offset follow) }
{
    let body = FetchRequestV5 {
        replica_id: -1,
        max_wait_ms: patience(follow),
        min_bytes: 1,
        max_bytes: MAX_FETCH_BYTES,
        isolation_level: 0,
        topics: fetch_topics_of(alloc, target, offset)?,
    };
    let room = FETCH_FIELDS + target.topic().len();
    request(alloc, (api_key::FETCH, 5), id, &body, room)
}
