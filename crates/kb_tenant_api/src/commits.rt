//! OffsetCommit of a tenant whose groups have members.
ghost use Rattle.std.specs.Prelude.{◌≡◌, [], IfOk, OnErr};
ghost use Rattle.kb_coordinator.specs.Calls.{after_may_commit};
ghost use Rattle.kb_tenant_state.specs.Scene.{WhereHonest};
ghost use Rattle.kb_tenant.specs.Entries.{commit_entries, within};
ghost use Rattle.kb_tenant.specs.OffsetCommit.{asked_commit};
ghost use Rattle.kb_tenant.specs.Told.{CatalogFailed};
ghost use Rattle.kb_tenant_state.specs.Parts.{scene};
ghost use Rattle.kb_tenant_state.specs.Steps.{IsStep, Meets};
ghost use Rattle.kb_tenant.specs.declared.answer.Answer.TheVariants as plain;
ghost use Rattle.kb_tenant_api.specs.Acknowledged.{AcknowledgesCommits, AreGroupsBy};
ghost use Rattle.kb_tenant_api.specs.Serve.{commit_refusal, if_read, of_offset_commit, IsServed};
ghost use Rattle.kb_tenant_api.specs.declared.answer.Answer.TheVariants as answers;

use crate::answer::Answer;
use kb_api_group::OffsetCommitRequest;
use kb_coordinator::Coordinator;
use kb_log::{PartitionLog, Shelf};
use kb_store::Store;
use kb_tenant::{DataLimits, Request, begin, finish, offset_commit, read_commit_within};
use kb_tenant_state::Parts;
use kb_wire::ReadFault;
use std::alloc::Global;

/// The error code of each entry of a commit, if its group refuses the member. The session of one that may commit starts again.
fn refusal(groups: &mut Coordinator, clock: u64, request: &OffsetCommitRequest<'_>) -> Option<i16>
    ensures refusal { result ≡ commit_refusal groups.old request.now }
    ensures after { groups.new ≡ after_may_commit clock request.now.group_id request.now.member_id request.now.generation_id groups.old }
{
    let error = groups
        .may_commit(
            request.group_id.as_str(),
            request.generation_id,
            request.member_id.as_str(),
            clock,
        )
        .code();
    if error == 0 { None } else { Some(error) }
}

/// OffsetCommit, at that clock in milliseconds, within a tenant's limits.
pub(crate) fn commit_offsets<L: PartitionLog + Drop, S: Store>(
    alloc: Global,
    parts: &mut Parts<L>,
    groups: &mut Coordinator,
    shelf: &mut Shelf<S>,
    clock: u64,
    limits: DataLimits,
    request: &Request<'_>,
) -> Result<Answer, ReadFault>
    requires { (scene L.log S.disk parts.old shelf.old).sound }
    ensures step { IsStep (scene L.log S.disk parts.old shelf.old) (scene L.log S.disk parts.new shelf.new) }
    ensures meets { let a = scene L.log S.disk parts.old shelf.old in let b = scene L.log S.disk parts.new shelf.new in
        Meets a b (IsServed request.now.correlation_id
        (if_read a.state.world groups.old
        (within limits.request_entries commit_entries (asked_commit request.now.api_version request.now.body.now))
        (of_offset_commit limits a.state.world clock groups.old)) b.state.world groups.new [] result) }
    // An offset that is answered with no error is what the catalog has, whatever else was refused.
    ensures acknowledged { let a = scene L.log S.disk parts.old shelf.old in let b = scene L.log S.disk parts.new shelf.new in
        IfOk result (λ answer. WhereHonest a b (AcknowledgesCommits
        (CatalogFailed a b) limits request.now.correlation_id request.now.api_version groups.old a.state.world request.now.body.now
        b.state.world answer)) }
    // On an `Err` the first offsets are so told, and nothing else is committed.
    ensures cut { let a = scene L.log S.disk parts.old shelf.old in let b = scene L.log S.disk parts.new shelf.new in
        OnErr result (WhereHonest a b (AcknowledgesCommits
        (CatalogFailed a b) limits request.now.correlation_id request.now.api_version groups.old a.state.world request.now.body.now
        b.state.world (answers.Plain plain.Shut))) }
    ensures groups { let a = scene L.log S.disk parts.old shelf.old in
        AreGroupsBy groups.old (if_read a.state.world groups.old
        (within limits.request_entries commit_entries (asked_commit request.now.api_version request.now.body.now))
        (of_offset_commit limits a.state.world clock groups.old)).groups result groups.new }
{
    groups.silence();
    let limit = limits.request_entries;
    let asked = read_commit_within(alloc, limit, request.api_version, request.body)?;
    let mut sink = begin(alloc, request.correlation_id)?;
    let refusal = refusal(groups, clock, &asked);
    offset_commit(parts, shelf, limits, &asked, refusal, &mut sink)?;
    Ok(Answer::Plain(finish(sink)))
}
