//! The bodies of replies.
ghost use Rattle.std.specs.Prelude.{◌≡◌, ◌++◌, OnOk, List, map};
ghost use Rattle.kb_wire.specs.Codec.{array, blob, string};
ghost use Rattle.kb_api_group.specs.Layouts.{join_group_reply, join_member};
ghost use Rattle.kb_api_group.specs.declared.join_group.JoinMember.{JoinMember};
ghost use Rattle.kb_groups.specs.Codes.{number};
ghost use Rattle.kb_coordinator.specs.Replies.{id_of, join_refusal, joined_spelled, listed, spelled, sync_reply, sync_spelled};

use kb_groups::{Code, Joined, Listed, Reply, SyncAnswer, member_id};
use kb_wire::Sink;
use std::alloc::{AllocError, Global};

/// Writes a text of bytes. One that is longer than an INT16 can count is refused as want of memory.
pub(crate) fn put_text(text: &[u8], sink: &mut Sink) -> Result<(), AllocError>
    ensures { OnOk result (sink.new.bytes ≡ sink.old.bytes ++ string.written text.now) }
{
    if text.len() > i16::MAX as usize {
        return Err(AllocError);
    }
    sink.put_i16(text.len() as i16)?;
    sink.put_bytes(text)
}

/// Writes bytes. More than an INT32 can count are refused as want of memory.
pub(crate) fn put_blob(bytes: &[u8], sink: &mut Sink) -> Result<(), AllocError>
    ensures { OnOk result (sink.new.bytes ≡ sink.old.bytes ++ blob.written bytes.now) }
{
    if bytes.len() > i32::MAX as usize {
        return Err(AllocError);
    }
    sink.put_blob(bytes)
}

/// Writes the members as the leader gets them. More than an INT32 can count are refused as want of memory.
fn put_members(alloc: Global, members: &[Listed], sink: &mut Sink) -> Result<(), AllocError>
    ensures { OnOk result (sink.new.bytes ≡ sink.old.bytes ++ (array join_member).written (map listed members.now)) }
{
    if members.len() > i32::MAX as usize {
        return Err(AllocError);
    }
    sink.put_count(members.len())?;
    for member in members {
        put_member(alloc, member, sink)?;
    }
    Ok(())
}

/// Writes a member.
#[tactic(auto, unfolding(kb_api_group::specs::Layouts::join_member))]
fn put_member(alloc: Global, member: &Listed, sink: &mut Sink) -> Result<(), AllocError>
    ensures { OnOk result (sink.new.bytes ≡ sink.old.bytes ++ join_member.written (listed member.now)) }
{
    let id = member_id(alloc, member.member)?;
    put_text(id.as_slice(), sink)?;
    put_blob(member.metadata.as_slice(), sink)
}

/// Writes what stands before the members in the reply of JoinGroup.
fn put_join_front(
    error_code: i16,
    generation: i32,
    protocol: &[u8],
    leader: &[u8],
    member: &[u8],
    sink: &mut Sink,
) -> Result<(), AllocError>
    ensures { (members : List JoinMember) → OnOk result (sink.new.bytes ++ (array join_member).written members
        ≡ sink.old.bytes ++ join_group_reply.written
        (record {
          error_code = error_code;
          generation_id = generation;
          protocol_name = protocol.now;
          leader = leader.now;
          member_id = member.now;
          members = members;
        })) }
{
    sink.put_i16(error_code)?;
    sink.put_i32(generation)?;
    put_text(protocol, sink)?;
    put_text(leader, sink)?;
    put_text(member, sink)
}

/// Writes the reply to a join that is refused, with the member id that it asked.
pub fn put_join_refusal(
    alloc: Global,
    error_code: i16,
    member_id: &[u8],
    sink: &mut Sink,
) -> Result<(), AllocError>
    ensures { OnOk result (sink.new.bytes ≡ sink.old.bytes ++ join_refusal error_code member_id.now) }
{
    put_join_front(error_code, -1, &[], &[], member_id, sink)?;
    put_members(alloc, &[], sink)
}

/// Writes the reply to a join that a generation answers.
fn put_joined(alloc: Global, joined: &Joined, sink: &mut Sink) -> Result<(), AllocError>
    ensures { OnOk result (sink.new.bytes ≡ sink.old.bytes ++ joined_spelled joined.now) }
{
    let leader = member_id(alloc, joined.leader)?;
    let member = member_id(alloc, joined.member)?;
    put_join_front(
        0,
        joined.generation,
        joined.protocol.as_slice(),
        leader.as_slice(),
        member.as_slice(),
        sink,
    )?;
    put_members(alloc, joined.members.as_slice(), sink)
}

/// Writes the reply of SyncGroup.
#[tactic(auto, unfolding(kb_api_group::specs::Layouts::sync_group_reply))]
fn put_sync_reply(error_code: i16, assignment: &[u8], sink: &mut Sink) -> Result<(), AllocError>
    ensures { OnOk result (sink.new.bytes ≡ sink.old.bytes ++ sync_reply error_code assignment.now) }
{
    sink.put_i16(error_code)?;
    put_blob(assignment, sink)
}

/// Writes the reply to a join that its own member's leave or a later join refused.
fn put_refused(
    alloc: Global,
    code: Code,
    asked: Option<u64>,
    sink: &mut Sink,
) -> Result<(), AllocError>
    ensures { OnOk result (sink.new.bytes ≡ sink.old.bytes ++ join_refusal (number code) (id_of asked)) }
{
    match asked {
        None => put_join_refusal(alloc, code.number(), &[], sink),
        Some(number) => {
            let id = member_id(alloc, number)?;
            put_join_refusal(alloc, code.number(), id.as_slice(), sink)
        }
    }
}

/// Writes the reply to a request that waited.
pub fn put_reply(alloc: Global, reply: &Reply, sink: &mut Sink) -> Result<(), AllocError>
    ensures { OnOk result (sink.new.bytes ≡ sink.old.bytes ++ spelled reply.now) }
{
    match reply {
        Reply::Joined(joined) => put_joined(alloc, joined, sink),
        Reply::JoinRefused(code, asked) => put_refused(alloc, *code, *asked, sink),
        Reply::Synced(assignment) => put_sync_reply(0, assignment.as_slice(), sink),
        Reply::SyncRefused(code) => put_sync_reply(code.number(), &[], sink),
    }
}

/// Writes the reply to a sync; nothing to one that waits.
pub fn put_sync(answer: &SyncAnswer, sink: &mut Sink) -> Result<(), AllocError>
    ensures { OnOk result (sink.new.bytes ≡ sink.old.bytes ++ sync_spelled answer.now) }
{
    match answer {
        SyncAnswer::Refused(code) => put_sync_reply(code.number(), &[], sink),
        SyncAnswer::Got(assignment) => put_sync_reply(0, assignment.as_slice(), sink),
        SyncAnswer::Waits => Ok(()),
    }
}
