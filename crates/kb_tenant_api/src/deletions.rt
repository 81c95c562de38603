//! DeleteGroups: groups without members go, with all that they committed.
ghost use Rattle.std.specs.Prelude.{◌≡◌, ◌≢◌, ◌++◌, ◌⊎◌, ◌<◌, ◌^◌, [], List, IfOk, OnErr, OnOk, length, true, false, if◌then◌else◌};
ghost use Rattle.kb_api_group.specs.Layouts.{delete_groups_reply, delete_groups_request};
ghost use Rattle.kb_api_group.specs.declared.delete_groups.DeletedGroup.{DeletedGroup as Entry};
ghost use Rattle.kb_wire.specs.Codec.{whole};
ghost use Rattle.kb_tenant_state.specs.Parts.{scene};
ghost use Rattle.kb_tenant_state.specs.Scene.{WhereHonest};
ghost use Rattle.kb_tenant_state.specs.Steps.{IsStep, Meets};
ghost use Rattle.kb_tenant_state.specs.Told.{IsCatalogWant};
ghost use Rattle.kb_tenant.specs.Entries.{delete_groups_entries, within};
ghost use Rattle.kb_tenant.specs.Told.{CatalogFailed, IsFaultOf, IsTold};
ghost use Rattle.kb_tenant.specs.Turns.{in_turn, AreServed};
ghost use Rattle.kb_tenant.specs.declared.answer.Answer.TheVariants as plain;
ghost use Rattle.kb_tenant_api.specs.Acknowledged.{without_empty, AcknowledgesGroupDeletions, AreFewer, AreGroupDeletionsCut, HaveGone};
ghost use Rattle.kb_tenant_api.specs.Acknowledged.{IsGroupDeletionTold};
ghost use Rattle.kb_tenant_api.specs.Deletions.{deleted_entry, deleted_group, deletions};
ghost use Rattle.kb_tenant_api.specs.Serve.{if_read, of_delete, IsServed};
ghost use Rattle.kb_tenant_api.specs.declared.answer.Answer.TheVariants as answers;

use crate::answer::Answer;
use kb_api_group::{DeleteGroupsRequest, DeletedGroup};
use kb_coordinator::Coordinator;
use kb_log::{PartitionLog, Shelf};
use kb_store::Store;
use kb_tenant::{Request, begin, finish, read_within};
use kb_tenant_state::Parts;
use kb_topics::CatalogFault;
use kb_wire::{ErrorCode, Layout, ReadFault, Sink, Text};
use std::alloc::{AllocError, Global};

/// The code of a group that committed nothing: none where it was there, and is gone.
fn code_of_uncommitted(was_there: bool) -> ErrorCode
    ensures { result ≡ (if was_there then ErrorCode.None else ErrorCode.GroupIdNotFound) }
{
    if was_there {
        ErrorCode::None
    } else {
        ErrorCode::GroupIdNotFound
    }
}

/// Whether that is the fault of a group that committed nothing.
fn is_unknown(fault: &CatalogFault) -> bool
    ensures unknown { result ≡ true → fault.now ≡ CatalogFault.Unknown }
    ensures other { result ≡ false → fault.now ≢ CatalogFault.Unknown }
{
    matches!(fault, CatalogFault::Unknown)
}

/// Deletes a group, if it has no members, with all that it committed, and answers its error code.
///
/// What it committed goes first, which is recorded. Where that is refused nothing has changed.
fn delete_group<L: PartitionLog + Drop, S: Store>(
    parts: &mut Parts<L>,
    groups: &mut Coordinator,
    shelf: &mut Shelf<S>,
    id: &str,
) -> i16
    requires sound { (scene L.log S.disk parts.old shelf.old).sound }
    requires text { length id.now < 2 ^ 15 }
    ensures step { IsStep (scene L.log S.disk parts.old shelf.old) (scene L.log S.disk parts.new shelf.new) }
    ensures meets { let a = scene L.log S.disk parts.old shelf.old in let b = scene L.log S.disk parts.new shelf.new in
        Meets a b (((b.state.world, groups.new), result) ≡ deleted_group (a.state.world, groups.old) id.now) }
    ensures told { let a = scene L.log S.disk parts.old shelf.old in let b = scene L.log S.disk parts.new shelf.new in
        IsTold a b (((b.state.world, groups.new), result) ≡ deleted_group (a.state.world, groups.old) id.now)
        (IsFaultOf (IsCatalogWant a b) result × (groups.new ≡ groups.old)) }
    // Also on a store that is not honest.
    ensures fewer { (groups.new ≡ groups.old) ⊎ (groups.new ≡ without_empty id.now groups.old) }
{
    if id.is_empty() {
        return ErrorCode::InvalidGroupId.code();
    }
    if groups.has_members(id) {
        return ErrorCode::NonEmptyGroup.code();
    }
    match parts.delete_group(shelf, id) {
        Ok(()) => {
            groups.delete(id);
            ErrorCode::None.code()
        }
        Err(fault) => {
            if is_unknown(&fault) {
                code_of_uncommitted(groups.delete(id)).code()
            } else {
                fault.code()
            }
        }
    }
}

/// Deletes the groups of a request in order, and writes the reply behind what is in the sink. An `Err` leaves the groups deleted that
/// were.
fn delete_each<L: PartitionLog + Drop, S: Store>(
    parts: &mut Parts<L>,
    groups: &mut Coordinator,
    shelf: &mut Shelf<S>,
    request: &DeleteGroupsRequest<'_>,
    sink: &mut Sink,
) -> Result<(), AllocError>
    requires sound { (scene L.log S.disk parts.old shelf.old).sound }
    requires fits { delete_groups_request.Fits request.now }
    ensures step { IsStep (scene L.log S.disk parts.old shelf.old) (scene L.log S.disk parts.new shelf.new) }
    ensures meets { let a = scene L.log S.disk parts.old shelf.old in let b = scene L.log S.disk parts.new shelf.new in
        OnOk result (Meets a b (let r = in_turn deleted_entry (a.state.world, groups.old) request.now.group_ids in
        ((b.state.world, groups.new) ≡ r.0) × (sink.new.bytes ≡ sink.old.bytes ++ delete_groups_reply.written (deletions r.1)))) }
    // A group that is answered with no error is gone, whatever else was refused.
    ensures told { let a = scene L.log S.disk parts.old shelf.old in let b = scene L.log S.disk parts.new shelf.new in
        OnOk result (WhereHonest a b ((results : List Entry)
        × ((sink.new.bytes ≡ sink.old.bytes ++ delete_groups_reply.written (deletions results))
        × AreServed (IsGroupDeletionTold (CatalogFailed a b)) (a.state.world, groups.old) request.now.group_ids
        (b.state.world, groups.new) results))) }
    // On an `Err` the first groups are so told, and nothing else is deleted.
    ensures cut { let a = scene L.log S.disk parts.old shelf.old in let b = scene L.log S.disk parts.new shelf.new in
        OnErr result (WhereHonest a b (AreGroupDeletionsCut (CatalogFailed a b) (a.state.world, groups.old) request.now
        (b.state.world, groups.new))) }
    ensures fewer { HaveGone groups.old groups.new }
{
    let ids = request.group_ids.as_slice();
    sink.put_i32(0)?;
    sink.put_count(ids.len())?;
    for id in ids {
        let id = id.as_str();
        let reply = DeletedGroup {
            group_id: Text::new(id),
            error_code: delete_group(parts, groups, shelf, id),
        };
        reply.write(sink)?;
    }
    Ok(())
}

/// DeleteGroups, of a request that names no more groups than a limit allows.
pub(crate) fn delete_groups<L: PartitionLog + Drop, S: Store>(
    alloc: Global,
    parts: &mut Parts<L>,
    groups: &mut Coordinator,
    shelf: &mut Shelf<S>,
    limit: Option<u64>,
    request: &Request<'_>,
) -> Result<Answer, ReadFault>
    requires { (scene L.log S.disk parts.old shelf.old).sound }
    ensures step { IsStep (scene L.log S.disk parts.old shelf.old) (scene L.log S.disk parts.new shelf.new) }
    ensures meets { let a = scene L.log S.disk parts.old shelf.old in let b = scene L.log S.disk parts.new shelf.new in
        Meets a b (IsServed request.now.correlation_id
        (if_read a.state.world groups.old (within limit delete_groups_entries (whole delete_groups_request request.now.body.now))
        (of_delete a.state.world groups.old)) b.state.world groups.new [] result) }
    ensures acknowledged { let a = scene L.log S.disk parts.old shelf.old in let b = scene L.log S.disk parts.new shelf.new in
        IfOk result (λ answer. WhereHonest a b (AcknowledgesGroupDeletions (CatalogFailed a b) limit
        request.now.correlation_id groups.old a.state.world request.now.body.now b.state.world groups.new answer)) }
    ensures cut { let a = scene L.log S.disk parts.old shelf.old in let b = scene L.log S.disk parts.new shelf.new in
        OnErr result (WhereHonest a b (AcknowledgesGroupDeletions (CatalogFailed a b) limit request.now.correlation_id groups.old
        a.state.world request.now.body.now b.state.world groups.new (answers.Plain plain.Shut))) }
    // Also on an `Err`, and whatever was refused.
    ensures fewer { AreFewer groups.old groups.new }
{
    groups.silence();
    let asked = read_within::<DeleteGroupsRequest<'_>>(alloc, limit, request.body)?;
    let mut sink = begin(alloc, request.correlation_id)?;
    delete_each(parts, groups, shelf, &asked, &mut sink)?;
    Ok(Answer::Plain(finish(sink)))
}
