//! The requests of a group's members, from their bodies to their replies: JoinGroup, SyncGroup, Heartbeat, LeaveGroup.
//!
//! Each forgets the last replies first. The body is read and the reply begun, with room for what is always written, before the groups
//! change: a want of memory there leaves them as they were.
ghost use Rattle.std.specs.Prelude.{◌≡◌, ◌≤◌, ℤ, [], IfOk, Ok};
ghost use Rattle.kb_wire.specs.declared.clock.TheConstants.{MAX_CLOCK};
ghost use Rattle.kb_api_group.specs.Layouts.{heartbeat_request, join_group_request, leave_group_request, sync_group_request};
ghost use Rattle.kb_tenant.specs.Replies.{begun};
ghost use Rattle.kb_wire.specs.Codec.{whole};
ghost use Rattle.kb_tenant_state.specs.World.{World};
ghost use Rattle.kb_tenant_api.specs.Replies.{IsAnswer};
ghost use Rattle.kb_tenant_api.specs.Waiters.{IsWaitToldBy};
ghost use Rattle.kb_tenant_api.specs.Acknowledged.{AreGroupsBy};
ghost use Rattle.kb_tenant_api.specs.Serve.{if_read, of_heartbeat, of_join, of_leave, of_sync, sync_reaction, IsServed};

use crate::answer::Answer;
use kb_api_group::{
    HeartbeatReply, HeartbeatRequest, JoinGroupRequest, LeaveGroupReply, LeaveGroupRequest,
    SyncGroupRequest,
};
use kb_coordinator::{Coordinator, put_join_refusal, put_sync};
use kb_groups::SyncAnswer;
use kb_tenant::{Request, begin, finish};
use kb_wire::{Layout, ReadFault, Sink};
use std::alloc::{AllocError, Global};

/// How many bytes an error code takes.
const CODE_BYTES: usize = 2;

/// JoinGroup, at that clock in milliseconds. One that is accepted waits.
pub(crate) fn join_group(
    alloc: Global,
    groups: &mut Coordinator,
    clock: u64,
    request: &Request<'_>,
) -> Result<Answer, ReadFault>
    requires { clock ≤ MAX_CLOCK }
    ensures served { (w : World)
        → IsServed request.now.correlation_id (if_read w groups.old (whole join_group_request request.now.body.now)
        (of_join w clock request.now.connection groups.old)) w groups.new [] result }
    ensures groups { (w : World)
        → AreGroupsBy groups.old (if_read w groups.old (whole join_group_request request.now.body.now)
        (of_join w clock request.now.connection groups.old)).groups result groups.new }
    ensures waits { IsWaitToldBy request.now.connection groups.old result groups.new }
{
    groups.silence();
    let asked = JoinGroupRequest::read(alloc, request.body)?;
    let mut sink = begin(alloc, request.correlation_id)?;
    let error = groups.join(&asked, request.connection, clock)?.code();
    if error == 0 {
        return Ok(Answer::Rebalance);
    }
    put_join_refusal(alloc, error, asked.member_id.as_str().as_bytes(), &mut sink)?;
    Ok(Answer::Plain(finish(sink)))
}

/// What a sync comes to whose reply is begun; one that waits has none yet.
fn sync_answer(answer: &SyncAnswer, mut sink: Sink) -> Result<Answer, AllocError>
    ensures answer { (id : ℤ) → sink.bytes ≡ begun id → IfOk result (λ answered. IsAnswer id (sync_reaction answer.now) answered) }
    ensures waits { answer.now ≡ SyncAnswer.Waits → result ≡ Ok Answer.Rebalance }
{
    if let SyncAnswer::Waits = answer {
        return Ok(Answer::Rebalance);
    }
    put_sync(answer, &mut sink)?;
    Ok(Answer::Plain(finish(sink)))
}

/// SyncGroup, at that clock in milliseconds. It may wait.
pub(crate) fn sync_group(
    alloc: Global,
    groups: &mut Coordinator,
    clock: u64,
    request: &Request<'_>,
) -> Result<Answer, ReadFault>
    ensures served { (w : World)
        → IsServed request.now.correlation_id (if_read w groups.old (whole sync_group_request request.now.body.now)
        (of_sync w clock request.now.connection groups.old)) w groups.new [] result }
    ensures groups { (w : World)
        → AreGroupsBy groups.old (if_read w groups.old (whole sync_group_request request.now.body.now)
        (of_sync w clock request.now.connection groups.old)).groups result groups.new }
    ensures waits { IsWaitToldBy request.now.connection groups.old result groups.new }
{
    groups.silence();
    let asked = SyncGroupRequest::read(alloc, request.body)?;
    let sink = begin(alloc, request.correlation_id)?;
    let answer = groups.sync(&asked, request.connection, clock)?;
    Ok(sync_answer(&answer, sink)?)
}

/// Heartbeat, at that clock in milliseconds.
#[tactic(auto, unfolding(kb_api_group::specs::Layouts::heartbeat_reply, kb_wire::specs::Codec::int))]
pub(crate) fn heartbeat(
    alloc: Global,
    groups: &mut Coordinator,
    clock: u64,
    request: &Request<'_>,
) -> Result<Answer, ReadFault>
    ensures served { (w : World)
        → IsServed request.now.correlation_id (if_read w groups.old (whole heartbeat_request request.now.body.now)
        (of_heartbeat w clock groups.old)) w groups.new [] result }
    ensures groups { (w : World)
        → AreGroupsBy groups.old (if_read w groups.old (whole heartbeat_request request.now.body.now)
        (of_heartbeat w clock groups.old)).groups result groups.new }
{
    groups.silence();
    let asked = HeartbeatRequest::read(alloc, request.body)?;
    let mut sink = begin(alloc, request.correlation_id)?;
    sink.reserve(CODE_BYTES)?;
    let code = groups.heartbeat(&asked, clock);
    let reply = HeartbeatReply {
        error_code: code.number(),
    };
    reply.write(&mut sink)?;
    Ok(Answer::Plain(finish(sink)))
}

/// LeaveGroup, at that clock in milliseconds.
#[tactic(auto, unfolding(kb_api_group::specs::Layouts::leave_group_reply, kb_wire::specs::Codec::int))]
pub(crate) fn leave_group(
    alloc: Global,
    groups: &mut Coordinator,
    clock: u64,
    request: &Request<'_>,
) -> Result<Answer, ReadFault>
    requires { clock ≤ MAX_CLOCK }
    ensures served { (w : World)
        → IsServed request.now.correlation_id (if_read w groups.old (whole leave_group_request request.now.body.now)
        (of_leave w clock groups.old)) w groups.new [] result }
    ensures groups { (w : World)
        → AreGroupsBy groups.old (if_read w groups.old (whole leave_group_request request.now.body.now)
        (of_leave w clock groups.old)).groups result groups.new }
{
    groups.silence();
    let asked = LeaveGroupRequest::read(alloc, request.body)?;
    let mut sink = begin(alloc, request.correlation_id)?;
    sink.reserve(CODE_BYTES)?;
    let code = groups.leave(&asked, clock)?;
    let reply = LeaveGroupReply {
        error_code: code.number(),
    };
    reply.write(&mut sink)?;
    Ok(Answer::Plain(finish(sink)))
}
