//! The groups of a tenant, as DescribeGroups tells them.
ghost use Rattle.std.specs.Prelude.{◌≡◌, ◌++◌, [], OnOk, List, map, option_copied, pos};
ghost use Rattle.kb_wire.specs.Codec.{array};
ghost use Rattle.kb_api_group.specs.Layouts.{describe_groups_reply, described_group, described_member};
ghost use Rattle.kb_api_group.specs.declared.describe_groups.DescribedMember.{DescribedMember};
ghost use Rattle.kb_coordinator.specs.Tools.{array_until, dead, described, description, descriptions, descriptions_until, member_told};
ghost use Rattle.kb_coordinator.specs.Tools.{AreUntil};

use crate::coordinator::Coordinator;
use crate::replies::{put_blob, put_text};
use kb_api_group::DescribeGroupsRequest;
use kb_groups::{Member, Members, State, member_id};
use kb_wire::{Sink, Text};
use std::alloc::{AllocError, Global};

/// Writes a member, under its group's protocol.
fn put_member(
    alloc: Global,
    number: u64,
    member: &Member,
    protocol: Option<&[u8]>,
    sink: &mut Sink,
) -> Result<(), AllocError>
    ensures { OnOk result (sink.new.bytes ≡ sink.old.bytes ++ described_member.written (member_told (option_copied protocol.entry)
        (number, member.now))) }
{
    let id = member_id(alloc, number)?;
    put_text(id.as_slice(), sink)?;
    put_text(&[], sink)?;
    put_text(&[], sink)?;
    put_blob(member.metadata_under(protocol), sink)?;
    put_blob(member.assignment_under(protocol), sink)
}

/// Writes the members in joining order. More than an INT32 can count are refused as want of memory.
fn put_members(
    alloc: Global,
    members: &Members,
    protocol: Option<&[u8]>,
    sink: &mut Sink,
) -> Result<(), AllocError>
    ensures { OnOk result (sink.new.bytes ≡ sink.old.bytes ++ (array described_member).written (map (member_told
        (option_copied protocol.entry)) members.now)) }
{
    if members.len() > i32::MAX as usize {
        return Err(AllocError);
    }
    sink.put_count(members.len())?;
    for i in 0..members.len() {
        if let Some((number, member)) = members.get(i) {
            put_member(alloc, *number, member, protocol, sink)?;
        }
    }
    Ok(())
}

/// Writes no members.
fn put_no_members(sink: &mut Sink) -> Result<(), AllocError>
    ensures { OnOk result (sink.new.bytes ≡ sink.old.bytes ++ (array described_member).written []) }
{
    sink.put_count(0)
}

/// Writes what stands before the members.
fn put_front(
    id: &[u8],
    state: &[u8],
    protocol_type: &[u8],
    protocol: &[u8],
    sink: &mut Sink,
) -> Result<(), AllocError>
    ensures { (members : List DescribedMember) → OnOk result (sink.new.bytes ++ (array described_member).written members
        ≡ sink.old.bytes ++ described_group.written
        (record {
          error_code = pos 0;
          group_id = id.now;
          group_state = state.now;
          protocol_type = protocol_type.now;
          protocol_data = protocol.now;
          members = members;
        })) }
{
    sink.put_i16(0)?;
    put_text(id, sink)?;
    put_text(state, sink)?;
    put_text(protocol_type, sink)?;
    put_text(protocol, sink)
}

/// Writes a group that is there.
fn put_known(alloc: Global, id: &[u8], state: &State, sink: &mut Sink) -> Result<(), AllocError>
    ensures { OnOk result (sink.new.bytes ≡ sink.old.bytes ++ described_group.written (described id.now state.now)) }
{
    let protocol = state.protocol();
    put_front(
        id,
        state.phase.name().as_bytes(),
        state.protocol_type.as_slice(),
        protocol.unwrap_or(&[]),
        sink,
    )?;
    put_members(alloc, &state.members, protocol, sink)
}

/// Writes a group that is not there.
fn put_dead(id: &[u8], sink: &mut Sink) -> Result<(), AllocError>
    ensures { OnOk result (sink.new.bytes ≡ sink.old.bytes ++ described_group.written (dead id.now)) }
{
    put_front(id, "Dead".as_bytes(), &[], &[], sink)?;
    put_no_members(sink)
}

impl Coordinator {
    /// Writes the group of that id.
    fn put_group(&self, id: &str, sink: &mut Sink) -> Result<(), AllocError>
        ensures { OnOk result (sink.new.bytes ≡ sink.old.bytes ++ described_group.written (description self.now id.now)) }
    {
        match self.place(id) {
            None => put_dead(id.as_bytes(), sink),
            Some(place) => {
                let state = self.groups[place].group.state();
                put_known(self.alloc, id.as_bytes(), state, sink)
            }
        }
    }

    /// Writes the groups of these ids, until the sink has more than so many bytes. More groups than an INT32 can count are refused as
    /// want of memory.
    fn put_groups(&self, ids: &[Text<'_>], most: usize, sink: &mut Sink) -> Result<(), AllocError>
        ensures { OnOk result (sink.new.bytes ≡ array_until most described_group sink.old.bytes (map (description self.now) ids.now)) }
    {
        if ids.len() > i32::MAX as usize {
            return Err(AllocError);
        }
        sink.put_count(ids.len())?;
        for id in ids {
            if sink.len() > most {
                return Ok(());
            }
            self.put_group(id.as_str(), sink)?;
        }
        Ok(())
    }

    /// Writes the reply of DescribeGroups: each group that is named, in the order of the request, as often as it is named.
    ///
    /// The writing stops with the group that takes the sink past so many bytes.
    pub fn put_descriptions(
        &self,
        request: &DescribeGroupsRequest<'_>,
        most: usize,
        sink: &mut Sink,
    ) -> Result<(), AllocError>
        ensures exact { OnOk result (sink.new.bytes ≡ descriptions_until most self.now request.now sink.old.bytes) }
        ensures whole { OnOk result (AreUntil most
            (sink.old.bytes ++ describe_groups_reply.written (descriptions self.now request.now)) sink.new.bytes) }
    {
        self.put_groups(request.group_ids.as_slice(), most, sink)
    }
}
