//! The groups of a tenant, as ListGroups tells them.
ghost use Rattle.std.specs.Prelude.{◌≡◌, ◌++◌, OnOk, map};
ghost use Rattle.kb_api_group.specs.Layouts.{list_groups_reply, listed_group};
ghost use Rattle.kb_coordinator.specs.Tools.{array_until, group_list, list_until, listed, AreUntil};

use crate::coordinator::Coordinator;
use crate::groups::Entry;
use crate::replies::put_text;
use kb_wire::Sink;
use std::alloc::AllocError;

/// Writes a group.
#[tactic(auto, unfolding(kb_api_group::specs::Layouts::listed_group))]
fn put_group(entry: &Entry, sink: &mut Sink) -> Result<(), AllocError>
    ensures { OnOk result (sink.new.bytes ≡ sink.old.bytes ++ listed_group.written (listed entry.now)) }
{
    put_text(entry.id.as_slice(), sink)?;
    put_text(entry.group.state().protocol_type.as_slice(), sink)
}

/// Writes the groups, until the sink has more than so many bytes. More groups than an INT32 can count are refused as want of memory.
fn put_groups(groups: &[Entry], most: usize, sink: &mut Sink) -> Result<(), AllocError>
    ensures { OnOk result (sink.new.bytes ≡ array_until most listed_group sink.old.bytes (map listed groups.now)) }
{
    if groups.len() > i32::MAX as usize {
        return Err(AllocError);
    }
    sink.put_count(groups.len())?;
    for entry in groups {
        if sink.len() > most {
            return Ok(());
        }
        put_group(entry, sink)?;
    }
    Ok(())
}

impl Coordinator {
    /// Writes the reply of ListGroups: all groups of the tenant, in byte order of their ids.
    ///
    /// The writing stops with the group that takes the sink past so many bytes.
    pub fn put_list(&self, most: usize, sink: &mut Sink) -> Result<(), AllocError>
        ensures exact { OnOk result (sink.new.bytes ≡ list_until most self.now sink.old.bytes) }
        ensures whole { OnOk result (AreUntil most (sink.old.bytes ++ list_groups_reply.written (group_list self.now)) sink.new.bytes) }
    {
        sink.put_i16(0)?;
        put_groups(&self.groups, most, sink)
    }
}
