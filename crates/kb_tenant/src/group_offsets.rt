//! Requests about the offsets of groups, from their bodies to their replies.
ghost use Rattle.std.specs.Prelude.{[], IfOk, OnErr};
ghost use Rattle.kb_store.specs.Disk.{Files};
ghost use Rattle.kb_tenant_state.specs.Scene.{WhereHonest};
ghost use Rattle.kb_tenant.specs.Entries.{commit_entries, offset_fetch_entries, within};
ghost use Rattle.kb_tenant.specs.FindCoordinator.{asked_coordinator};
ghost use Rattle.kb_tenant.specs.OffsetCommit.{asked_commit};
ghost use Rattle.kb_tenant.specs.OffsetFetch.{asked_offsets};
ghost use Rattle.kb_tenant.specs.Told.{AcknowledgesCommits, CatalogFailed};
ghost use Rattle.kb_tenant.specs.declared.answer.Answer.TheVariants as answers;
ghost use Rattle.kb_tenant.specs.Serve.{if_read, of_find_coordinator, of_offset_commit, of_offset_fetch, IsServed};
ghost use Rattle.kb_wire.specs.Codec.{string};
ghost use Rattle.kb_tenant_state.specs.Parts.{scene, world_of};
ghost use Rattle.kb_tenant_state.specs.Steps.{IsStep, Meets};
ghost use Rattle.kb_tenant_state.specs.World.{World};

use crate::answer::{Answer, begin, finish, finish_within, most_bytes};
use crate::find_coordinator::{find_coordinator, has_key_type, read_find_coordinator};
use crate::group_commit::{offset_commit, read_commit_within, refusal_of};
use crate::limits::DataLimits;
use crate::node::Node;
use crate::offset_fetch::{has_code, has_epochs, offset_fetch, read_offset_fetch_within};
use crate::request::Request;
use kb_log::{PartitionLog, Shelf};
use kb_store::Store;
use kb_tenant_state::Parts;
use kb_wire::{ReadFault, Sink};
use std::alloc::Global;

/// OffsetCommit, of a tenant whose groups have no members.
pub(crate) fn serve_offset_commit<L: PartitionLog + Drop, S: Store>(
    alloc: Global,
    parts: &mut Parts<L>,
    shelf: &mut Shelf<S>,
    limits: DataLimits,
    request: &Request<'_>,
) -> Result<Answer, ReadFault>
    requires { (scene L.log S.disk parts.old shelf.old).sound }
    ensures step { IsStep (scene L.log S.disk parts.old shelf.old) (scene L.log S.disk parts.new shelf.new) }
    ensures meets { let a = scene L.log S.disk parts.old shelf.old in let b = scene L.log S.disk parts.new shelf.new in
        Meets a b (IsServed request.now.correlation_id
        (if_read a.state.world (within limits.request_entries commit_entries (asked_commit request.now.api_version request.now.body.now))
        (of_offset_commit limits a.state.world)) b.state.world [] result) }
    ensures acknowledged { let a = scene L.log S.disk parts.old shelf.old in let b = scene L.log S.disk parts.new shelf.new in
        IfOk result (λ answer. WhereHonest a b (AcknowledgesCommits
        (CatalogFailed a b) limits request.now.correlation_id request.now.api_version a.state.world request.now.body.now b.state.world
        answer)) }
    ensures cut { let a = scene L.log S.disk parts.old shelf.old in let b = scene L.log S.disk parts.new shelf.new in
        OnErr result (WhereHonest a b (AcknowledgesCommits
        (CatalogFailed a b) limits request.now.correlation_id request.now.api_version a.state.world request.now.body.now b.state.world
        answers.Shut)) }
{
    let limit = limits.request_entries;
    let asked = read_commit_within(alloc, limit, request.api_version, request.body)?;
    let mut sink = begin(alloc, request.correlation_id)?;
    let refusal = refusal_of(asked.group_id.as_str(), asked.generation_id);
    offset_commit(parts, shelf, limits, &asked, refusal, &mut sink)?;
    Ok(finish(sink))
}

/// OffsetFetch. Its reply is no longer than the tenant's limit allows.
pub(crate) fn serve_offset_fetch<L: PartitionLog + Drop>(
    alloc: Global,
    parts: &Parts<L>,
    limits: DataLimits,
    request: &Request<'_>,
) -> Result<Answer, ReadFault>
    ensures { (files : Files) → let w = world_of L.log parts.now files in
        IsServed request.now.correlation_id
        (if_read w (within limits.request_entries offset_fetch_entries (asked_offsets request.now.api_version request.now.body.now))
        (of_offset_fetch limits.reply_bytes request.now.api_version w)) w [] result }
{
    let has_code = has_code(request.api_version);
    let has_epochs = has_epochs(request.api_version);
    let entries = limits.request_entries;
    let asked = read_offset_fetch_within(alloc, entries, has_code, request.body)?;
    let mut sink = begin(alloc, request.correlation_id)?;
    let most = most_bytes(limits.reply_bytes);
    offset_fetch(parts, has_code, has_epochs, &asked, most, &mut sink)?;
    Ok(finish_within(limits.reply_bytes, sink))
}

/// FindCoordinator. The group is not looked at.
pub(crate) fn serve_find_coordinator(
    alloc: Global,
    node: &Node<'_>,
    request: &Request<'_>,
) -> Result<Answer, ReadFault>
    requires { string.Fits node.now.host }
    ensures { (w : World) →
        IsServed request.now.correlation_id (if_read w (asked_coordinator request.now.api_version request.now.body.now)
        (of_find_coordinator node.now request.now.api_version w)) w [] result }
{
    let has_key_type = has_key_type(request.api_version);
    let is_group = read_find_coordinator(alloc, has_key_type, request.body)?;
    let mut sink = begin(alloc, request.correlation_id)?;
    find_coordinator(node, has_key_type, is_group, &mut sink)?;
    Ok(finish(sink))
}
