//! A request of a tenant, by its key.
ghost use Rattle.std.specs.Prelude.{◌≡◌, ◌≤◌, [], IfOk, OnErr};
ghost use Rattle.kb_wire.specs.declared.clock.TheConstants.{MAX_CLOCK};
ghost use Rattle.kb_wire.specs.Codec.{string, whole};
ghost use Rattle.kb_wire.specs.declared.api_key.TheConstants.{PRODUCE};
ghost use Rattle.kb_api_data.specs.Layouts.{produce_request};
ghost use Rattle.kb_api_data.specs.Layouts.{delete_records_request, delete_topics_request, init_producer_id_request};
ghost use Rattle.kb_store.specs.Disk.{Files};
ghost use Rattle.kb_tenant_state.specs.Scene.{WhereHonest};
ghost use Rattle.kb_tenant_state.specs.Parts.{scene, world_of};
ghost use Rattle.kb_tenant_state.specs.Steps.{IsStep, Meets};
ghost use Rattle.kb_tenant_state.specs.Told.{IsLogFull};
ghost use Rattle.kb_tenant.specs.Answered.{answered, IsTruthful};
ghost use Rattle.kb_tenant.specs.CreateTopics.{asked_creations};
ghost use Rattle.kb_tenant.specs.DescribeConfigs.{asked_configs};
ghost use Rattle.kb_tenant.specs.Entries.{describe_configs_entries};
ghost use Rattle.kb_tenant.specs.Entries.{create_topics_entries, delete_records_entries, delete_topics_entries, fetch_entries};
ghost use Rattle.kb_tenant.specs.Entries.{list_offsets_entries, metadata_entries, produce_entries, within};
ghost use Rattle.kb_tenant.specs.Fetch.{asked_fetch};
ghost use Rattle.kb_tenant.specs.ListOffsets.{asked_listing};
ghost use Rattle.kb_tenant.specs.Metadata.{asked_metadata};
ghost use Rattle.kb_tenant.specs.Replies.{IsAnswer};
ghost use Rattle.kb_tenant.specs.Told.{CatalogFailed, CreationFailed, HasFailed, Acknowledges, AcknowledgesCreations};
ghost use Rattle.kb_tenant.specs.Told.{AcknowledgesIssue, AcknowledgesRemovals, IsSpared};
ghost use Rattle.kb_tenant.specs.Told.{AcknowledgesDeletions, AnswersFetch, AnswersListing, AnswersLook};
ghost use Rattle.kb_tenant.specs.Serve.{if_read, of_produce, of_fetch, of_list_offsets, of_metadata, of_create_topics, of_delete_records};
ghost use Rattle.kb_tenant.specs.Serve.{of_describe_configs};
ghost use Rattle.kb_tenant.specs.declared.answer.Answer.TheVariants as answers;
ghost use Rattle.kb_tenant.specs.Serve.{of_delete_topics, of_init_producer_id, plainly_served, looked, IsOutcome, IsServed};

use crate::answer::{Answer, begin, finish, finish_within, most_bytes};
use crate::create_topics::{check_topics, create_topics, read_creations_within};
use crate::delete_records::delete_records;
use crate::delete_topics::delete_topics;
use crate::describe_configs::{describe_configs, read_configs_within};
use crate::fetch;
use crate::fetch::{Asked, Fetching, WaitingFetch, begin_reply, read_request_within, serve_fetch};
use crate::group_offsets::{serve_find_coordinator, serve_offset_commit, serve_offset_fetch};
use crate::init_producer_id::init_producer_id;
use crate::limits::DataLimits;
use crate::list_offsets::{has_epochs, list_offsets, read_list_offsets_within};
use crate::metadata::{metadata, read_metadata_within};
use crate::node::Node;
use crate::produce::{produce, tells_starts};
use crate::request::{Request, Wait};
use crate::within::read_within;
use kb_api_data::{
    DeleteRecordsRequest, DeleteTopicsRequest, InitProducerIdRequest, ProduceRequest, config_key,
};
use kb_log::{PartitionLog, Shelf};
use kb_store::Store;
use kb_tenant_state::{Parts, TopicPartition};
use kb_wire::{ErrorCode, Layout, ReadFault, api_key};
use std::alloc::{AllocError, Global};

/// What became of a request.
#[derive(Drop)]
pub struct Served {
    /// What it comes to for the connection that sent it.
    pub answer: Answer,
    /// The partitions that it changed, in order: waits for them are to be looked at.
    pub touched: Vec<TopicPartition>,
}

/// Produce. Where acks is 0 there is no reply.
fn serve_produce<L: PartitionLog + Drop, S: Store>(
    alloc: Global,
    parts: &mut Parts<L>,
    shelf: &mut Shelf<S>,
    limits: DataLimits,
    request: &Request<'_>,
    touched: &mut Vec<TopicPartition>,
) -> Result<Answer, ReadFault>
    requires untouched { touched.old.items ≡ [] }
    requires sound { (scene L.log S.disk parts.old shelf.old).sound }
    ensures step { IsStep (scene L.log S.disk parts.old shelf.old) (scene L.log S.disk parts.new shelf.new) }
    ensures meets { let a = scene L.log S.disk parts.old shelf.old in let b = scene L.log S.disk parts.new shelf.new in
        Meets a b (IsServed request.now.correlation_id
        (if_read a.state.world (within limits.request_entries produce_entries (whole produce_request request.now.body.now))
        (of_produce request.now.api_version limits.bytes a.state.world)) b.state.world touched.new.items result) }
    ensures acknowledged { let a = scene L.log S.disk parts.old shelf.old in let b = scene L.log S.disk parts.new shelf.new in
        IfOk result (λ answer. WhereHonest a b (Acknowledges
        (HasFailed a b) limits.bytes request.now.correlation_id request.now.api_version a.state.world request.now.body.now b.state.world
        touched.new.items answer)) }
    ensures spared { let a = scene L.log S.disk parts.old shelf.old in let b = scene L.log S.disk parts.new shelf.new in
        OnErr result (b.state.world ≡ a.state.world) }
    ensures shut { let a = scene L.log S.disk parts.old shelf.old in let b = scene L.log S.disk parts.new shelf.new in
        IfOk result (λ answer. IsSpared request.now.api_version a.state.world request.now.body.now b.state.world answer) }
{
    let asked = read_within::<ProduceRequest<'_>>(alloc, limits.request_entries, request.body)?;
    let mut sink = begin(alloc, request.correlation_id)?;
    let has_starts = tells_starts(request.api_version);
    produce(
        parts,
        shelf,
        limits.bytes,
        has_starts,
        &asked,
        touched,
        &mut sink,
    )?;
    if asked.acks == 0 {
        return Ok(Answer::NoReply);
    }
    Ok(finish(sink))
}

/// Fetch. It may wait.
fn serve_a_fetch<L: PartitionLog + Drop, S: Store>(
    alloc: Global,
    parts: &mut Parts<L>,
    shelf: &mut Shelf<S>,
    clock: u64,
    limits: DataLimits,
    request: &Request<'_>,
) -> Result<Answer, ReadFault>
    requires clock { clock ≤ MAX_CLOCK }
    requires sound { (scene L.log S.disk parts.old shelf.old).sound }
    ensures step { IsStep (scene L.log S.disk parts.old shelf.old) (scene L.log S.disk parts.new shelf.new) }
    ensures same { let a = scene L.log S.disk parts.old shelf.old in let b = scene L.log S.disk parts.new shelf.new in
        b.disk.honest → a.agrees → b.state.world ≡ a.state.world }
    ensures meets { let a = scene L.log S.disk parts.old shelf.old in let b = scene L.log S.disk parts.new shelf.new in
        Meets a b (IsServed request.now.correlation_id
        (if_read a.state.world (within limits.request_entries fetch_entries (asked_fetch request.now.api_version request.now.body.now))
        (of_fetch request.now.api_version request.now.body.now limits.fetch_bytes a.state.world clock)) b.state.world [] result) }
    ensures fetched { let a = scene L.log S.disk parts.old shelf.old in let b = scene L.log S.disk parts.new shelf.new in
        IfOk result (λ answer. WhereHonest a b (AnswersFetch (HasFailed a b)
        request.now.correlation_id request.now.api_version limits.fetch_bytes a.state.world clock request.now.body.now answer)) }
{
    let version = request.api_version;
    let read = read_request_within(alloc, limits.request_entries, version, request.body)?;
    let Asked {
        request: whole,
        code,
    } = read;
    let mut asked = whole;
    asked.bound(limits.fetch_bytes);
    let mut sink = begin_reply(alloc, request.correlation_id, version, code)?;
    let has_starts = fetch::has_starts(version);
    match serve_fetch(alloc, parts, shelf, clock, has_starts, &asked, &mut sink)? {
        Fetching::Reply => Ok(finish(sink)),
        Fetching::Wait { deadline, keys } => Ok(Answer::Wait {
            deadline,
            fetch: WaitingFetch::new(alloc, version, request.body, limits.fetch_bytes, asked)?,
            keys,
        }),
    }
}

/// ListOffsets.
fn serve_list_offsets<L: PartitionLog + Drop, S: Store>(
    alloc: Global,
    parts: &mut Parts<L>,
    shelf: &mut Shelf<S>,
    limit: Option<u64>,
    request: &Request<'_>,
) -> Result<Answer, ReadFault>
    requires { (scene L.log S.disk parts.old shelf.old).sound }
    ensures step { IsStep (scene L.log S.disk parts.old shelf.old) (scene L.log S.disk parts.new shelf.new) }
    ensures same { let a = scene L.log S.disk parts.old shelf.old in let b = scene L.log S.disk parts.new shelf.new in
        b.disk.honest → a.agrees → b.state.world ≡ a.state.world }
    ensures meets { let a = scene L.log S.disk parts.old shelf.old in let b = scene L.log S.disk parts.new shelf.new in
        Meets a b (IsServed request.now.correlation_id
        (if_read a.state.world (within limit list_offsets_entries (asked_listing request.now.api_version request.now.body.now))
        (of_list_offsets request.now.api_version a.state.world)) b.state.world [] result) }
    ensures listed { let a = scene L.log S.disk parts.old shelf.old in let b = scene L.log S.disk parts.new shelf.new in
        IfOk result (λ answer. WhereHonest a b (AnswersListing (HasFailed a b)
        request.now.correlation_id request.now.api_version a.state.world request.now.body.now answer)) }
{
    let version = request.api_version;
    let asked = read_list_offsets_within(alloc, limit, version, request.body)?;
    let mut sink = begin(alloc, request.correlation_id)?;
    list_offsets(parts, shelf, has_epochs(version), &asked, &mut sink)?;
    Ok(finish(sink))
}

/// Metadata. Its reply is no longer than the tenant's limit allows.
fn serve_metadata<L: PartitionLog + Drop>(
    alloc: Global,
    parts: &Parts<L>,
    node: &Node<'_>,
    request: &Request<'_>,
) -> Result<Answer, ReadFault>
    requires { string.Fits node.now.host }
    ensures { (files : Files) → let w = world_of L.log parts.now files in
        IsServed request.now.correlation_id
        (if_read w (within node.now.limits.request_entries metadata_entries (asked_metadata request.now.api_version request.now.body.now))
        (of_metadata node.now request.now.api_version w)) w [] result }
{
    let limit = node.limits.request_entries;
    let asked = read_metadata_within(alloc, limit, request.api_version, request.body)?;
    let mut sink = begin(alloc, request.correlation_id)?;
    let reply_limit = node.limits.reply_bytes;
    let most = most_bytes(reply_limit);
    metadata(parts, node, request.api_version, &asked, most, &mut sink)?;
    Ok(finish_within(reply_limit, sink))
}

/// CreateTopics.
fn serve_create_topics<L: PartitionLog + Drop, S: Store>(
    alloc: Global,
    parts: &mut Parts<L>,
    shelf: &mut Shelf<S>,
    limits: DataLimits,
    request: &Request<'_>,
) -> Result<Answer, ReadFault>
    requires { (scene L.log S.disk parts.old shelf.old).sound }
    ensures step { IsStep (scene L.log S.disk parts.old shelf.old) (scene L.log S.disk parts.new shelf.new) }
    ensures meets { let a = scene L.log S.disk parts.old shelf.old in let b = scene L.log S.disk parts.new shelf.new in
        Meets a b (IsServed request.now.correlation_id
        (if_read a.state.world (within limits.request_entries create_topics_entries
        (asked_creations request.now.api_version request.now.body.now))
        (of_create_topics limits request.now.api_version a.state.world)) b.state.world [] result) }
    ensures acknowledged { let a = scene L.log S.disk parts.old shelf.old in let b = scene L.log S.disk parts.new shelf.new in
        IfOk result (λ answer. WhereHonest a b (AcknowledgesCreations
        (CreationFailed a b) limits request.now.correlation_id request.now.api_version a.state.world request.now.body.now b.state.world
        answer)) }
    ensures cut { let a = scene L.log S.disk parts.old shelf.old in let b = scene L.log S.disk parts.new shelf.new in
        OnErr result (WhereHonest a b (AcknowledgesCreations
        (CreationFailed a b) limits request.now.correlation_id request.now.api_version a.state.world request.now.body.now b.state.world
        answers.Shut)) }
{
    let version = request.api_version;
    let asked = read_creations_within(alloc, limits.request_entries, version, request.body)?;
    let mut sink = begin(alloc, request.correlation_id)?;
    if asked.validate_only {
        check_topics(alloc, parts, limits, version, &asked, &mut sink)?;
        return Ok(finish(sink));
    }
    create_topics(alloc, parts, shelf, limits, version, &asked, &mut sink)?;
    Ok(finish(sink))
}

/// DeleteTopics.
fn serve_delete_topics<L: PartitionLog + Drop, S: Store>(
    alloc: Global,
    parts: &mut Parts<L>,
    shelf: &mut Shelf<S>,
    limit: Option<u64>,
    request: &Request<'_>,
    touched: &mut Vec<TopicPartition>,
) -> Result<Answer, ReadFault>
    requires untouched { touched.old.items ≡ [] }
    requires sound { (scene L.log S.disk parts.old shelf.old).sound }
    ensures step { IsStep (scene L.log S.disk parts.old shelf.old) (scene L.log S.disk parts.new shelf.new) }
    ensures meets { let a = scene L.log S.disk parts.old shelf.old in let b = scene L.log S.disk parts.new shelf.new in
        Meets a b (IsServed request.now.correlation_id
        (if_read a.state.world (within limit delete_topics_entries (whole delete_topics_request request.now.body.now))
        (of_delete_topics request.now.api_version a.state.world))
        b.state.world touched.new.items result) }
    ensures acknowledged { let a = scene L.log S.disk parts.old shelf.old in let b = scene L.log S.disk parts.new shelf.new in
        IfOk result (λ answer. WhereHonest a b (AcknowledgesRemovals
        (CatalogFailed a b) limit request.now.correlation_id request.now.api_version a.state.world request.now.body.now b.state.world
        touched.new.items answer)) }
    ensures cut { let a = scene L.log S.disk parts.old shelf.old in let b = scene L.log S.disk parts.new shelf.new in
        OnErr result (WhereHonest a b (AcknowledgesRemovals
        (CatalogFailed a b) limit request.now.correlation_id request.now.api_version a.state.world request.now.body.now b.state.world
        touched.new.items answers.Shut)) }
{
    let asked = read_within::<DeleteTopicsRequest<'_>>(alloc, limit, request.body)?;
    let mut sink = begin(alloc, request.correlation_id)?;
    delete_topics(
        parts,
        shelf,
        request.api_version,
        &asked,
        touched,
        &mut sink,
    )?;
    Ok(finish(sink))
}

/// DeleteRecords.
fn serve_delete_records<L: PartitionLog + Drop, S: Store>(
    alloc: Global,
    parts: &mut Parts<L>,
    shelf: &mut Shelf<S>,
    limit: Option<u64>,
    request: &Request<'_>,
    touched: &mut Vec<TopicPartition>,
) -> Result<Answer, ReadFault>
    requires untouched { touched.old.items ≡ [] }
    requires sound { (scene L.log S.disk parts.old shelf.old).sound }
    ensures step { IsStep (scene L.log S.disk parts.old shelf.old) (scene L.log S.disk parts.new shelf.new) }
    ensures meets { let a = scene L.log S.disk parts.old shelf.old in let b = scene L.log S.disk parts.new shelf.new in
        Meets a b (IsServed request.now.correlation_id
        (if_read a.state.world (within limit delete_records_entries (whole delete_records_request request.now.body.now))
        (of_delete_records a.state.world)) b.state.world touched.new.items result) }
    ensures acknowledged { let a = scene L.log S.disk parts.old shelf.old in let b = scene L.log S.disk parts.new shelf.new in
        IfOk result (λ answer. WhereHonest a b (AcknowledgesDeletions (CatalogFailed a b) limit
        request.now.correlation_id a.state.world request.now.body.now b.state.world touched.new.items answer)) }
    ensures cut { let a = scene L.log S.disk parts.old shelf.old in let b = scene L.log S.disk parts.new shelf.new in
        OnErr result (WhereHonest a b (AcknowledgesDeletions (CatalogFailed a b) limit
        request.now.correlation_id a.state.world request.now.body.now b.state.world touched.new.items answers.Shut)) }
{
    let asked = read_within::<DeleteRecordsRequest<'_>>(alloc, limit, request.body)?;
    let mut sink = begin(alloc, request.correlation_id)?;
    delete_records(parts, shelf, &asked, touched, &mut sink)?;
    Ok(finish(sink))
}

/// InitProducerId.
fn serve_init_producer_id<L: PartitionLog + Drop, S: Store>(
    alloc: Global,
    parts: &mut Parts<L>,
    shelf: &mut Shelf<S>,
    request: &Request<'_>,
) -> Result<Answer, ReadFault>
    requires { (scene L.log S.disk parts.old shelf.old).sound }
    ensures step { IsStep (scene L.log S.disk parts.old shelf.old) (scene L.log S.disk parts.new shelf.new) }
    ensures meets { let a = scene L.log S.disk parts.old shelf.old in let b = scene L.log S.disk parts.new shelf.new in
        Meets a b (IsServed request.now.correlation_id
        (if_read a.state.world (whole init_producer_id_request request.now.body.now) (of_init_producer_id a.state.world)) b.state.world []
        result) }
    ensures acknowledged { let a = scene L.log S.disk parts.old shelf.old in let b = scene L.log S.disk parts.new shelf.new in
        IfOk result (λ answer. WhereHonest a b (AcknowledgesIssue
        (CatalogFailed a b) request.now.correlation_id a.state.world request.now.body.now b.state.world answer)) }
    ensures cut { let a = scene L.log S.disk parts.old shelf.old in let b = scene L.log S.disk parts.new shelf.new in
        OnErr result (WhereHonest a b (AcknowledgesIssue
        (CatalogFailed a b) request.now.correlation_id a.state.world request.now.body.now b.state.world answers.Shut)) }
{
    let asked = InitProducerIdRequest::read(alloc, request.body)?;
    let mut sink = begin(alloc, request.correlation_id)?;
    init_producer_id(parts, shelf, &asked, &mut sink)?;
    Ok(finish(sink))
}

/// DescribeConfigs. Its reply is no longer than the tenant's limit allows.
fn serve_describe_configs<L: PartitionLog + Drop>(
    alloc: Global,
    parts: &Parts<L>,
    limits: DataLimits,
    request: &Request<'_>,
) -> Result<Answer, ReadFault>
    ensures { (files : Files) → let w = world_of L.log parts.now files in
        IsServed request.now.correlation_id
        (if_read w (within limits.request_entries describe_configs_entries (asked_configs request.now.api_version request.now.body.now))
        (of_describe_configs limits.reply_bytes request.now.api_version w)) w [] result }
{
    let version = request.api_version;
    let asked = read_configs_within(alloc, limits.request_entries, version, request.body)?;
    let mut sink = begin(alloc, request.correlation_id)?;
    let most = most_bytes(limits.reply_bytes);
    describe_configs(alloc, parts, version, &asked, most, &mut sink)?;
    Ok(finish_within(limits.reply_bytes, sink))
}

/// Serves a request by its key. A key that is not a tenant's shuts the connection.
#[tactic(auto, unfolding(crate::specs::Serve::plainly_served))]
fn serve_by_key<L: PartitionLog + Drop, S: Store>(
    alloc: Global,
    parts: &mut Parts<L>,
    shelf: &mut Shelf<S>,
    node: &Node<'_>,
    clock: u64,
    request: &Request<'_>,
    touched: &mut Vec<TopicPartition>,
) -> Result<Answer, ReadFault>
    requires untouched { touched.old.items ≡ [] }
    requires host { string.Fits node.now.host }
    requires clock { clock ≤ MAX_CLOCK }
    requires sound { (scene L.log S.disk parts.old shelf.old).sound }
    ensures step { IsStep (scene L.log S.disk parts.old shelf.old) (scene L.log S.disk parts.new shelf.new) }
    ensures meets { let a = scene L.log S.disk parts.old shelf.old in let b = scene L.log S.disk parts.new shelf.new in
        Meets a b (IsServed request.now.correlation_id
        (plainly_served node.now a.state.world clock request.now.connection request.now.api_key request.now.api_version
        request.now.body.now)
        b.state.world touched.new.items result) }
    ensures told { let a = scene L.log S.disk parts.old shelf.old in let b = scene L.log S.disk parts.new shelf.new in
        WhereHonest a b (IsTruthful (HasFailed a b) (IsLogFull b) node.now clock request.now.connection request.now.api_key
        request.now.api_version request.now.correlation_id request.now.body.now a.state.world b.state.world touched.new.items
        (answered result)) }
    ensures spared { let a = scene L.log S.disk parts.old shelf.old in let b = scene L.log S.disk parts.new shelf.new in
        request.now.api_key ≡ PRODUCE → OnErr result (b.state.world ≡ a.state.world) }
    ensures shut { let a = scene L.log S.disk parts.old shelf.old in let b = scene L.log S.disk parts.new shelf.new in
        request.now.api_key ≡ PRODUCE →
        IfOk result (λ answer. IsSpared request.now.api_version a.state.world request.now.body.now b.state.world answer) }
{
    let limit = node.limits.request_entries;
    match request.api_key {
        api_key::PRODUCE => serve_produce(alloc, parts, shelf, node.limits, request, touched),
        api_key::FETCH => serve_a_fetch(alloc, parts, shelf, clock, node.limits, request),
        api_key::LIST_OFFSETS => serve_list_offsets(alloc, parts, shelf, limit, request),
        api_key::METADATA => serve_metadata(alloc, parts, node, request),
        api_key::OFFSET_COMMIT => serve_offset_commit(alloc, parts, shelf, node.limits, request),
        api_key::OFFSET_FETCH => serve_offset_fetch(alloc, parts, node.limits, request),
        api_key::FIND_COORDINATOR => serve_find_coordinator(alloc, node, request),
        api_key::CREATE_TOPICS => serve_create_topics(alloc, parts, shelf, node.limits, request),
        api_key::DELETE_TOPICS => serve_delete_topics(alloc, parts, shelf, limit, request, touched),
        api_key::DELETE_RECORDS => serve_delete_records(
            alloc, parts, shelf, limit, request, touched,
        ),
        api_key::INIT_PRODUCER_ID => serve_init_producer_id(alloc, parts, shelf, request),
        config_key::DESCRIBE_CONFIGS => serve_describe_configs(alloc, parts, node.limits, request),
        _ => Ok(Answer::Shut),
    }
}

/// Serves a request of a tenant, at a time of the clock.
///
/// A body that is not the API's, one that names more entries than the tenant's limit allows, a key that is not a tenant's and a
/// reply whose size does not fit an INT32 shut the connection. So does a reply of Metadata, OffsetFetch or DescribeConfigs that is past
/// the tenant's limit. So does want of memory for the read request, the reply or the wait, which is counted; changes that were made stay. A
/// Produce makes none before it has the memory for its whole reply, and any other request those of its first entries. The host is to fit a
/// STRING, and the clock is at most 2^62, in milliseconds.
pub fn serve<L: PartitionLog + Drop, S: Store>(
    alloc: Global,
    parts: &mut Parts<L>,
    shelf: &mut Shelf<S>,
    node: &Node<'_>,
    clock: u64,
    request: &Request<'_>,
) -> Served
    requires host { string.Fits node.now.host }
    requires clock { clock ≤ MAX_CLOCK }
    requires sound { (scene L.log S.disk parts.old shelf.old).sound }
    ensures step { IsStep (scene L.log S.disk parts.old shelf.old) (scene L.log S.disk parts.new shelf.new) }
    ensures meets { let a = scene L.log S.disk parts.old shelf.old in let b = scene L.log S.disk parts.new shelf.new in
        Meets a b (IsOutcome request.now.correlation_id
        (plainly_served node.now a.state.world clock request.now.connection request.now.api_key request.now.api_version
        request.now.body.now)
        b.state.world result.touched.items result.answer) }
    // What is answered with no error is done, and of what is fetched or listed each partition has what is defined, or the code of what
    // refused it, whatever was refused. A request for changes that is shut did its first entries, and nothing else.
    ensures told { let a = scene L.log S.disk parts.old shelf.old in let b = scene L.log S.disk parts.new shelf.new in
        WhereHonest a b (IsTruthful (HasFailed a b) (IsLogFull b) node.now clock request.now.connection request.now.api_key
        request.now.api_version request.now.correlation_id request.now.body.now a.state.world b.state.world result.touched.items
        result.answer) }
    // A Produce whose connection is shut for want of memory has appended nothing, on any store.
    ensures spared { let a = scene L.log S.disk parts.old shelf.old in let b = scene L.log S.disk parts.new shelf.new in
        request.now.api_key ≡ PRODUCE → IsSpared request.now.api_version a.state.world request.now.body.now b.state.world result.answer }
{
    let mut touched = Vec::new(alloc);
    match serve_by_key(alloc, parts, shelf, node, clock, request, &mut touched) {
        Ok(answer) => Served { answer, touched },
        Err(ReadFault::Wire(_)) => Served {
            answer: Answer::Shut,
            touched,
        },
        Err(ReadFault::Memory) => {
            parts.refuse();
            Served {
                answer: Answer::Shut,
                touched,
            }
        }
    }
}

/// Looks at a fetch that waits until its deadline at most, at a time of the clock.
#[tactic(auto, unfolding(crate::specs::Serve::looked))]
fn look_at<L: PartitionLog + Drop, S: Store>(
    alloc: Global,
    parts: &mut Parts<L>,
    shelf: &mut Shelf<S>,
    clock: u64,
    wait: &Wait<'_>,
) -> Result<Answer, AllocError>
    requires { (scene L.log S.disk parts.old shelf.old).sound }
    ensures step { IsStep (scene L.log S.disk parts.old shelf.old) (scene L.log S.disk parts.new shelf.new) }
    ensures same { let a = scene L.log S.disk parts.old shelf.old in let b = scene L.log S.disk parts.new shelf.new in
        b.disk.honest → a.agrees → b.state.world ≡ a.state.world }
    ensures meets { let a = scene L.log S.disk parts.old shelf.old in let b = scene L.log S.disk parts.new shelf.new in
        IfOk result (λ answer. Meets a b ((b.state.world ≡ a.state.world) × IsAnswer wait.now.correlation_id
        (looked a.state.world clock wait.now.deadline wait.now.fetch.now.version wait.now.fetch.now.limit wait.now.fetch.now.body)
        answer)) }
    ensures told { let a = scene L.log S.disk parts.old shelf.old in let b = scene L.log S.disk parts.new shelf.new in
        IfOk result (λ answer. WhereHonest a b (AnswersLook (HasFailed a b) wait.now.correlation_id wait.now.fetch.now.version
        wait.now.fetch.now.limit a.state.world clock wait.now.deadline wait.now.fetch.now.body answer)) }
{
    let version = wait.fetch.version();
    let asked = wait.fetch.asked();
    // what waits is a full fetch
    let mut sink = begin_reply(alloc, wait.correlation_id, version, ErrorCode::None.code())?;
    let has_starts = fetch::has_starts(version);
    if fetch::look(
        alloc,
        parts,
        shelf,
        clock,
        has_starts,
        asked,
        wait.deadline,
        &mut sink,
    )? {
        return Ok(finish(sink));
    }
    Ok(Answer::NoReply)
}

/// Looks at a fetch that waits until its deadline at most, at a time of the clock.
///
/// It is answered where it waits no longer; `NoReply` says that it still waits. The world stays, whatever is refused. A partition that
/// memory or the store refused is answered with the code that names it, and then the fetch waits no longer. Want of memory for the
/// reply shuts the connection and is counted.
pub fn look<L: PartitionLog + Drop, S: Store>(
    alloc: Global,
    parts: &mut Parts<L>,
    shelf: &mut Shelf<S>,
    clock: u64,
    wait: &Wait<'_>,
) -> Answer
    requires { (scene L.log S.disk parts.old shelf.old).sound }
    ensures step { IsStep (scene L.log S.disk parts.old shelf.old) (scene L.log S.disk parts.new shelf.new) }
    ensures same { let a = scene L.log S.disk parts.old shelf.old in let b = scene L.log S.disk parts.new shelf.new in
        b.disk.honest → a.agrees → b.state.world ≡ a.state.world }
    ensures meets { let a = scene L.log S.disk parts.old shelf.old in let b = scene L.log S.disk parts.new shelf.new in
        Meets a b ((b.state.world ≡ a.state.world)
        × IsAnswer wait.now.correlation_id
        (looked a.state.world clock wait.now.deadline wait.now.fetch.now.version wait.now.fetch.now.limit
        wait.now.fetch.now.body) result) }
    // Whatever was refused, a reply has of each partition what is defined, or the code of what refused it.
    ensures told { let a = scene L.log S.disk parts.old shelf.old in let b = scene L.log S.disk parts.new shelf.new in
        WhereHonest a b (AnswersLook (HasFailed a b) wait.now.correlation_id wait.now.fetch.now.version
        wait.now.fetch.now.limit a.state.world clock wait.now.deadline wait.now.fetch.now.body result) }
{
    match look_at(alloc, parts, shelf, clock, wait) {
        Ok(answer) => answer,
        Err(_) => {
            parts.refuse();
            Answer::Shut
        }
    }
}
