//! A request of a tenant, by its key.
ghost use Rattle.std.specs.Prelude.{◌≡◌, ◌≤◌, [], IfOk, IsOk};
ghost use Rattle.kb_wire.specs.declared.clock.TheConstants.{MAX_CLOCK};
ghost use Rattle.kb_wire.specs.Codec.{string};
ghost use Rattle.kb_wire.specs.declared.api_key.TheConstants.{PRODUCE};
ghost use Rattle.kb_tenant_state.specs.Scene.{WhereHonest};
ghost use Rattle.kb_tenant_state.specs.Parts.{scene};
ghost use Rattle.kb_tenant_state.specs.Steps.{IsStep, Meets};
ghost use Rattle.kb_tenant_state.specs.Told.{IsLogFull};
ghost use Rattle.kb_tenant.specs.Told.{HasFailed, IsSpared};
ghost use Rattle.kb_tenant_api.specs.Acknowledged.{answered, AreGroupsAfter, AreGroupsOf, IsOfCommits, IsOfMembers, IsPlainly, IsTruthful};
ghost use Rattle.kb_tenant_api.specs.Waiters.{IsWaitTold, IsWaitToldBy};
ghost use Rattle.kb_tenant_api.specs.Serve.{has_released, served, IsOutcome, IsServed};

use crate::answer::{Answer, Served};
use crate::commits::commit_offsets;
use crate::deletions::delete_groups;
use crate::members::{heartbeat, join_group, leave_group, sync_group};
use crate::replies::is_anyone_released;
use crate::tools::{describe_groups, list_groups};
use kb_api_group::group_key;
use kb_coordinator::Coordinator;
use kb_log::{PartitionLog, Shelf};
use kb_store::Store;
use kb_tenant::{Node, Request};
use kb_tenant_state::{Parts, TopicPartition};
use kb_wire::{ReadFault, api_key};
use std::alloc::Global;

/// Serves a request by its key.
fn serve_by_key<L: PartitionLog + Drop, S: Store>(
    alloc: Global,
    parts: &mut Parts<L>,
    groups: &mut Coordinator,
    shelf: &mut Shelf<S>,
    node: &Node<'_>,
    clock: u64,
    request: &Request<'_>,
    touched: &mut Vec<TopicPartition>,
) -> Result<Answer, ReadFault>
    requires untouched { touched.old.items ≡ [] }
    requires host { string.Fits node.now.host }
    requires clock { clock ≤ MAX_CLOCK }
    requires sound { (scene L.log S.disk parts.old shelf.old).sound }
    ensures step { IsStep (scene L.log S.disk parts.old shelf.old) (scene L.log S.disk parts.new shelf.new) }
    ensures meets { let a = scene L.log S.disk parts.old shelf.old in let b = scene L.log S.disk parts.new shelf.new in
        Meets a b (IsServed request.now.correlation_id
        (served node.now a.state.world clock groups.old request.now.connection request.now.api_key request.now.api_version
        request.now.body.now) b.state.world groups.new touched.new.items result) }
    ensures told { let a = scene L.log S.disk parts.old shelf.old in let b = scene L.log S.disk parts.new shelf.new in
        WhereHonest a b (IsTruthful (HasFailed a b) (IsLogFull b) node.now clock request.now.connection request.now.api_key
        request.now.api_version request.now.correlation_id request.now.body.now a.state.world groups.old b.state.world groups.new
        touched.new.items (answered result)) }
    ensures spared { let a = scene L.log S.disk parts.old shelf.old in let b = scene L.log S.disk parts.new shelf.new in
        request.now.api_key ≡ PRODUCE
        → IfOk result (λ answer. IsPlainly (IsSpared request.now.api_version a.state.world request.now.body.now b.state.world) answer) }
    ensures answered { (IsOfMembers request.now.api_key → ⊥) → (IsOfCommits request.now.api_key → ⊥) → IsOk result }
    ensures groups { let a = scene L.log S.disk parts.old shelf.old in
        AreGroupsOf request.now.api_key groups.old (served node.now a.state.world clock groups.old request.now.connection
        request.now.api_key request.now.api_version request.now.body.now).groups result groups.new }
    ensures waits { IsWaitToldBy request.now.connection groups.old result groups.new }
{
    let limits = node.limits;
    match request.api_key {
        api_key::OFFSET_COMMIT => {
            commit_offsets(alloc, parts, groups, shelf, clock, limits, request)
        }
        api_key::JOIN_GROUP => join_group(alloc, groups, clock, request),
        api_key::HEARTBEAT => heartbeat(alloc, groups, clock, request),
        api_key::LEAVE_GROUP => leave_group(alloc, groups, clock, request),
        api_key::SYNC_GROUP => sync_group(alloc, groups, clock, request),
        group_key::DESCRIBE_GROUPS => describe_groups(alloc, groups, limits, request),
        group_key::LIST_GROUPS => list_groups(alloc, groups, limits.reply_bytes, request),
        group_key::DELETE_GROUPS => {
            delete_groups(alloc, parts, groups, shelf, limits.request_entries, request)
        }
        _ => {
            groups.silence();
            let served = kb_tenant::serve(alloc, parts, shelf, node, clock, request);
            *touched = served.touched;
            Ok(Answer::Plain(served.answer))
        }
    }
}

/// What became of a request after which its tenant has these groups.
fn served_with(answer: Answer, touched: Vec<TopicPartition>, groups: &Coordinator) -> Served
    ensures answer { result.answer ≡ answer }
    ensures touched { result.touched ≡ touched }
    ensures released { result.released ≡ has_released groups.now }
{
    let released = is_anyone_released(groups);
    Served {
        answer,
        touched,
        released,
    }
}

/// Serves a request of a tenant, at a time of the clock in milliseconds.
///
/// A body that is not the API's, one that names more entries than the tenant's limit allows, a key that is not a tenant's and a reply
/// that is too long shut the connection. So does want of memory for the read request, the reply or a wait, which is
/// counted. Whatever was refused, and on any store, the groups are then those that the request makes, or those of before without the
/// last replies. Of those that are to be deleted some may be gone. The host is to fit a STRING.
pub fn serve<L: PartitionLog + Drop, S: Store>(
    alloc: Global,
    parts: &mut Parts<L>,
    groups: &mut Coordinator,
    shelf: &mut Shelf<S>,
    node: &Node<'_>,
    clock: u64,
    request: &Request<'_>,
) -> Served
    requires host { string.Fits node.now.host }
    requires clock { clock ≤ MAX_CLOCK }
    requires sound { (scene L.log S.disk parts.old shelf.old).sound }
    ensures step { IsStep (scene L.log S.disk parts.old shelf.old) (scene L.log S.disk parts.new shelf.new) }
    ensures meets { let a = scene L.log S.disk parts.old shelf.old in let b = scene L.log S.disk parts.new shelf.new in
        Meets a b (IsOutcome request.now.correlation_id
        (served node.now a.state.world clock groups.old request.now.connection request.now.api_key request.now.api_version
        request.now.body.now) b.state.world groups.new result.touched.items result.answer) }
    // What is answered with no error is done, and of what is fetched or listed each partition has what is defined, or the code of what
    // refused it, whatever was refused. A request for changes that is shut did its first entries, and nothing else.
    ensures told { let a = scene L.log S.disk parts.old shelf.old in let b = scene L.log S.disk parts.new shelf.new in
        WhereHonest a b (IsTruthful (HasFailed a b) (IsLogFull b) node.now clock request.now.connection request.now.api_key
        request.now.api_version request.now.correlation_id request.now.body.now a.state.world groups.old b.state.world
        groups.new result.touched.items result.answer) }
    // A Produce whose connection is shut for want of memory has appended nothing, on any store.
    ensures spared { let a = scene L.log S.disk parts.old shelf.old in let b = scene L.log S.disk parts.new shelf.new in
        request.now.api_key ≡ PRODUCE
        → IsPlainly (IsSpared request.now.api_version a.state.world request.now.body.now b.state.world) result.answer }
    ensures groups { let a = scene L.log S.disk parts.old shelf.old in
        AreGroupsAfter request.now.api_key groups.old (served node.now a.state.world clock groups.old request.now.connection
        request.now.api_key request.now.api_version request.now.body.now).groups result.answer groups.new }
    ensures waits { IsWaitTold request.now.connection groups.old result.answer groups.new }
    ensures released { result.released ≡ has_released groups.new }
{
    let mut touched = Vec::new(alloc);
    match serve_by_key(
        alloc,
        parts,
        groups,
        shelf,
        node,
        clock,
        request,
        &mut touched,
    ) {
        Ok(answer) => served_with(answer, touched, groups),
        Err(ReadFault::Wire(_)) => served_with(
            Answer::Plain(kb_tenant::Answer::Shut),
            touched,
            groups,
        ),
        Err(ReadFault::Memory) => {
            parts.refuse();
            served_with(Answer::Plain(kb_tenant::Answer::Shut), touched, groups)
        }
    }
}
