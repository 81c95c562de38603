//! CreateTopics (Kafka protocol guide): topics are made, one after another. A request of version 1 may ask that they are only
//! checked, and each answer has a message, which is null; any other version is answered as 0.
ghost use Rattle.std.specs.Prelude.{◌≡◌, ◌++◌, ◌+◌, ◌<◌, ◌^◌, length, pos, IfOk, List, Ok, OnErr, OnOk};
ghost use Rattle.kb_api_data.specs.Layouts.{create_topics_request_v1};
ghost use Rattle.kb_api_data.specs.declared.create_topics.CreateTopicReply.{CreateTopicReply};
ghost use Rattle.kb_tenant_state.specs.Scene.{WhereHonest};
ghost use Rattle.kb_store.specs.Disk.{Files};
ghost use Rattle.kb_wire.specs.Codec.{string};
ghost use Rattle.kb_wire.specs.Reads.{ReadsWhole};
ghost use Rattle.kb_tenant.specs.CreateTopics.{asked_creations, checked_all, checked_unless, code_in, created_all, creation_in};
ghost use Rattle.kb_tenant.specs.CreateTopics.{creations_in, made, made_of, refusal};
ghost use Rattle.kb_tenant.specs.Entries.{create_topics_entries, within};
ghost use Rattle.kb_tenant.specs.Settings.{settings_in};
ghost use Rattle.kb_tenant.specs.Told.{AreCreationsCut, CreationFailed, IsCreationTold, IsFaultOf, IsTold};
ghost use Rattle.kb_tenant.specs.Turns.{AreServed};
ghost use Rattle.kb_tenant_state.specs.Parts.{scene, world_of};
ghost use Rattle.kb_tenant_state.specs.Steps.{IsStep, Meets};
ghost use Rattle.kb_tenant_state.specs.Tied.{IsTied};
ghost use Rattle.kb_tenant_state.specs.Told.{IsCreationWant, IsDone};

mod room;

use crate::create_topics::room::Room;
use crate::limits::DataLimits;
use crate::repeated::Repeated;
use crate::within::within;
use kb_api_data::{
    CreateConfig, CreateTopic, CreateTopicReply, CreateTopicReplyV1, CreateTopicsRequest,
    CreateTopicsRequestV1,
};
use kb_log::{PartitionLog, Shelf};
use kb_store::Store;
use kb_tenant_state::Parts;
use kb_topics::{CatalogFault, ConfigReader, TopicConfig, is_legal_name};
use kb_wire::{ErrorCode, Layout, ReadFault, Sink, Text};
use std::alloc::{AllocError, Global};

/// The error code for what a call of the catalog answered.
pub(crate) fn code_in(answer: Result<(), CatalogFault>) -> i16
    ensures { result ≡ code_in answer }
{
    match answer {
        Ok(()) => ErrorCode::None.code(),
        Err(fault) => fault.code(),
    }
}

/// The settings of a topic that is given these, and the defaults; none where it may not be given one of them.
fn settings_in(configs: &[CreateConfig<'_>]) -> Option<TopicConfig>
    ensures { result ≡ settings_in configs.now }
{
    let mut reader = ConfigReader::new();
    for config in configs {
        let value = config.value.as_ref().map(|value| value.as_str());
        if !reader.read(config.name.as_str(), value) {
            return None;
        }
    }
    Some(reader.config())
}

/// Why a topic is refused before its settings are read, the first cause. `repeated`: its name stands twice in the request;
/// `exists`: a topic of that name is there.
fn refusal(topic: &CreateTopic<'_>, repeated: bool, exists: bool) -> Option<ErrorCode>
    ensures { result ≡ refusal repeated exists topic.now }
{
    if repeated {
        return Some(ErrorCode::InvalidRequest);
    }
    if !is_legal_name(topic.name.as_str()) {
        return Some(ErrorCode::InvalidTopic);
    }
    if exists {
        return Some(ErrorCode::TopicAlreadyExists);
    }
    if topic.num_partitions < 1 || topic.num_partitions > 64 {
        return Some(ErrorCode::InvalidPartitions);
    }
    if topic.replication_factor != 1 {
        return Some(ErrorCode::InvalidReplicationFactor);
    }
    if !topic.assignments.is_empty() {
        return Some(ErrorCode::InvalidReplicaAssignment);
    }
    None
}

/// Makes a topic, and answers its error code.
fn create_topic<L: PartitionLog + Drop, S: Store>(
    parts: &mut Parts<L>,
    shelf: &mut Shelf<S>,
    limits: DataLimits,
    topic: &CreateTopic<'_>,
    repeated: bool,
) -> i16
    requires sound { (scene L.log S.disk parts.old shelf.old).sound }
    ensures step { IsStep (scene L.log S.disk parts.old shelf.old) (scene L.log S.disk parts.new shelf.new) }
    ensures meets { let a = scene L.log S.disk parts.old shelf.old in let b = scene L.log S.disk parts.new shelf.new in
        Meets a b ((b.state.world, result) ≡ made limits repeated a.state.world topic.now) }
    ensures told { let a = scene L.log S.disk parts.old shelf.old in let b = scene L.log S.disk parts.new shelf.new in
        IsTold a b ((b.state.world, result) ≡ made limits repeated a.state.world topic.now) (IsFaultOf (IsCreationWant a b) result) }
    // A topic that is answered with no error is in the catalog, whatever else was refused.
    ensures acknowledged { let a = scene L.log S.disk parts.old shelf.old in let b = scene L.log S.disk parts.new shelf.new in
        result ≡ pos 0 → IsDone a b ((b.state.world, result) ≡ made limits repeated a.state.world topic.now) }
{
    let name = topic.name.as_str();
    let exists = parts.topic_named(name).is_some();
    if let Some(error) = refusal(topic, repeated, exists) {
        return error.code();
    }
    let Some(config) = settings_in(topic.configs.as_slice()) else {
        return ErrorCode::InvalidConfig.code();
    };
    let partitions = topic.num_partitions;
    let room = Room::of(parts, limits);
    if room.is_too_small(limits, partitions) {
        return ErrorCode::PolicyViolation.code();
    }
    if room.topics >= 1000 {
        return code_in(Err(CatalogFault::TooMany));
    }
    code_in(parts.create(shelf, name, partitions, config))
}

/// What making a topic would be answered where so much room is left, of which it then takes its part. Nothing is made.
///
/// The first cause is answered: one before the settings, a setting that a topic may not be given, the tenant's limits, 1,000 topics.
fn check_topic(
    limits: DataLimits,
    topic: &CreateTopic<'_>,
    repeated: bool,
    exists: bool,
    room: &mut Room,
) -> i16
    ensures { (room.new, result) ≡ checked_unless limits room.old topic.now (refusal repeated exists topic.now) }
{
    if let Some(error) = refusal(topic, repeated, exists) {
        return error.code();
    }
    if settings_in(topic.configs.as_slice()).is_none() {
        return ErrorCode::InvalidConfig.code();
    }
    if room.is_too_small(limits, topic.num_partitions) {
        return ErrorCode::PolicyViolation.code();
    }
    if room.topics >= 1000 {
        return code_in(Err(CatalogFault::TooMany));
    }
    *room = room.behind(topic.num_partitions);
    ErrorCode::None.code()
}

/// The request that a body spells in a version. None of version 0 is only checked.
#[tactic(auto, using(crate::proofs::Creating::request_fits))]
pub fn read_create_topics<'a>(
    alloc: Global,
    version: i16,
    body: &'a [u8],
) -> Result<CreateTopicsRequestV1<'a>, ReadFault>
    ensures exact { ReadsWhole (asked_creations version body.now) result }
    ensures fits { IfOk result (λ r. create_topics_request_v1.Fits r) }
{
    if version == 1 {
        return CreateTopicsRequestV1::read(alloc, body);
    }
    let CreateTopicsRequest { topics, timeout_ms } = CreateTopicsRequest::read(alloc, body)?;
    Ok(CreateTopicsRequestV1 {
        topics,
        timeout_ms,
        validate_only: false,
    })
}

/// The same, unless it names more topics than a limit allows.
pub(crate) fn read_creations_within<'a>(
    alloc: Global,
    limit: Option<u64>,
    version: i16,
    body: &'a [u8],
) -> Result<CreateTopicsRequestV1<'a>, ReadFault>
    ensures exact { ReadsWhole (within limit create_topics_entries (asked_creations version body.now)) result }
    ensures spelled { IfOk result (λ r. asked_creations version body.now ≡ Ok r) }
    ensures fits { IfOk result (λ r. create_topics_request_v1.Fits r) }
{
    let asked = read_create_topics(alloc, version, body)?;
    within(limit, asked)
}

/// Writes what a topic is answered.
#[tactic(auto, using(crate::proofs::Creating::answer_fits, crate::proofs::Creating::answer_fits_v1))]
fn put_answer(version: i16, name: &str, error_code: i16, sink: &mut Sink) -> Result<(), AllocError>
    requires { string.Fits name.now }
    ensures { OnOk result (sink.new.bytes ≡ sink.old.bytes ++ creation_in version (record { name = name.now; error_code = error_code })) }
{
    let name = Text::new(name);
    if version == 1 {
        let reply = CreateTopicReplyV1 {
            name,
            error_code,
            error_message: None,
        };
        return reply.write(sink);
    }
    let reply = CreateTopicReply { name, error_code };
    reply.write(sink)
}

/// Checks the topics of a request in order, as if those before had been made, and writes the reply of a version behind what is
/// in the sink. Nothing is made.
pub fn check_topics<L: PartitionLog + Drop>(
    alloc: Global,
    parts: &Parts<L>,
    limits: DataLimits,
    version: i16,
    request: &CreateTopicsRequestV1<'_>,
    sink: &mut Sink,
) -> Result<(), AllocError>
    requires { create_topics_request_v1.Fits request.now }
    ensures written { (files : Files) → OnOk result
        (sink.new.bytes ≡ sink.old.bytes ++ creations_in version (checked_all limits (world_of L.log parts.now files) request.now.topics)) }
    // That is what making them would be answered, where an instance is left for each.
    ensures foretold { (files : Files) → let w = world_of L.log parts.now files in
        IsTied w → w.known.creates + length request.now.topics < 2 ^ 63
        → OnOk result (sink.new.bytes ≡ sink.old.bytes ++ creations_in version (created_all limits w (made_of request.now)).1) }
{
    let entries = request.topics.as_slice();
    let repeated = Repeated::among(alloc, entries)?;
    let mut room = Room::of(parts, limits);
    sink.put_count(entries.len())?;
    for topic in entries {
        let name = topic.name.as_str();
        let exists = parts.topic_named(name).is_some();
        let error_code = check_topic(limits, topic, repeated.contains(name), exists, &mut room);
        put_answer(version, name, error_code, sink)?;
    }
    Ok(())
}

/// Makes the topics of a request in order, and writes the reply of a version behind what is in the sink.
///
/// A name that stands twice is refused each time, and so is a topic that is past the limits. `timeout_ms` has no effect. An `Err`
/// leaves the topics that were made.
pub fn create_topics<L: PartitionLog + Drop, S: Store>(
    alloc: Global,
    parts: &mut Parts<L>,
    shelf: &mut Shelf<S>,
    limits: DataLimits,
    version: i16,
    request: &CreateTopicsRequestV1<'_>,
    sink: &mut Sink,
) -> Result<(), AllocError>
    requires sound { (scene L.log S.disk parts.old shelf.old).sound }
    requires fits { create_topics_request_v1.Fits request.now }
    ensures step { IsStep (scene L.log S.disk parts.old shelf.old) (scene L.log S.disk parts.new shelf.new) }
    ensures meets { let a = scene L.log S.disk parts.old shelf.old in let b = scene L.log S.disk parts.new shelf.new in
        OnOk result (Meets a b (let r = created_all limits a.state.world (made_of request.now) in
        (b.state.world ≡ r.0) × (sink.new.bytes ≡ sink.old.bytes ++ creations_in version r.1))) }
    // A topic that is answered with no error is in the catalog, whatever else was refused.
    ensures told { OnOk result (let a = scene L.log S.disk parts.old shelf.old in let b = scene L.log S.disk parts.new shelf.new in
        WhereHonest a b ((replies : List CreateTopicReply)
        × ((sink.new.bytes ≡ sink.old.bytes ++ creations_in version (record { topics = replies }))
        × AreServed (IsCreationTold (CreationFailed a b) limits request.now.topics) a.state.world request.now.topics b.state.world
        replies))) }
    // On an `Err` the first topics are so told, and no other is made.
    ensures cut { OnErr result (let a = scene L.log S.disk parts.old shelf.old in let b = scene L.log S.disk parts.new shelf.new in
        WhereHonest a b (AreCreationsCut (CreationFailed a b) limits a.state.world request.now b.state.world)) }
{
    let topics = request.topics.as_slice();
    let repeated = Repeated::among(alloc, topics)?;
    sink.put_count(topics.len())?;
    for topic in topics {
        let name = topic.name.as_str();
        let error_code = create_topic(parts, shelf, limits, topic, repeated.contains(name));
        put_answer(version, name, error_code, sink)?;
    }
    Ok(())
}
