//! SyncGroup (Kafka protocol guide, key 14, version 0): the request and the reply.

use kb_wire::{Array, Blob, Cursor, Layout, ReadFault, Sink, Text};
use std::alloc::{AllocError, Global};

/// A member's assignment, in a request of SyncGroup.
#[derive(Drop)]
pub struct SyncAssignment<'a> {
    pub member_id: Text<'a>,
    pub assignment: Blob<'a>,
}

impl<'a> Layout<'a> for SyncAssignment<'a> {
    ghost use Rattle.kb_api_group.specs.Layouts.{sync_assignment};
    ghost use Rattle.kb_api_group.specs.Lawful.{sync_assignment_lawful};

    ghost codec = { sync_assignment };

    ghost lawful = { sync_assignment_lawful };

    #[tactic(auto, unfolding(crate::specs::Layouts::sync_assignment))]
    fn read_from(alloc: Global, cursor: &mut Cursor<'a>) -> Result<SyncAssignment<'a>, ReadFault> {
        Ok(SyncAssignment {
            member_id: Text::read_from(alloc, cursor)?,
            assignment: Blob::read_from(alloc, cursor)?,
        })
    }

    #[tactic(auto, unfolding(crate::specs::Layouts::sync_assignment))]
    fn write_to(&self, sink: &mut Sink) -> Result<(), AllocError> {
        self.member_id.write_to(sink)?;
        self.assignment.write_to(sink)
    }
}

/// A request of SyncGroup: the leader's has each member's assignment, the others' none.
#[derive(Drop)]
pub struct SyncGroupRequest<'a> {
    pub group_id: Text<'a>,
    pub generation_id: i32,
    pub member_id: Text<'a>,
    pub assignments: Array<SyncAssignment<'a>>,
}

impl<'a> Layout<'a> for SyncGroupRequest<'a> {
    ghost use Rattle.kb_api_group.specs.Layouts.{sync_group_request};
    ghost use Rattle.kb_api_group.specs.Lawful.{sync_group_request_lawful};

    ghost codec = { sync_group_request };

    ghost lawful = { sync_group_request_lawful };

    #[tactic(auto, unfolding(crate::specs::Layouts::sync_group_request))]
    fn read_from(
        alloc: Global,
        cursor: &mut Cursor<'a>,
    ) -> Result<SyncGroupRequest<'a>, ReadFault> {
        Ok(SyncGroupRequest {
            group_id: Text::read_from(alloc, cursor)?,
            generation_id: i32::read_from(alloc, cursor)?,
            member_id: Text::read_from(alloc, cursor)?,
            assignments: Array::read_from(alloc, cursor)?,
        })
    }

    #[tactic(auto, unfolding(crate::specs::Layouts::sync_group_request))]
    fn write_to(&self, sink: &mut Sink) -> Result<(), AllocError> {
        self.group_id.write_to(sink)?;
        self.generation_id.write_to(sink)?;
        self.member_id.write_to(sink)?;
        self.assignments.write_to(sink)
    }
}

/// The reply of SyncGroup: the member's own assignment.
#[derive(Drop)]
pub struct SyncGroupReply<'a> {
    pub error_code: i16,
    pub assignment: Blob<'a>,
}

impl<'a> Layout<'a> for SyncGroupReply<'a> {
    ghost use Rattle.kb_api_group.specs.Layouts.{sync_group_reply};
    ghost use Rattle.kb_api_group.specs.Lawful.{sync_group_reply_lawful};

    ghost codec = { sync_group_reply };

    ghost lawful = { sync_group_reply_lawful };

    #[tactic(auto, unfolding(crate::specs::Layouts::sync_group_reply))]
    fn read_from(alloc: Global, cursor: &mut Cursor<'a>) -> Result<SyncGroupReply<'a>, ReadFault> {
        Ok(SyncGroupReply {
            error_code: i16::read_from(alloc, cursor)?,
            assignment: Blob::read_from(alloc, cursor)?,
        })
    }

    #[tactic(auto, unfolding(crate::specs::Layouts::sync_group_reply))]
    fn write_to(&self, sink: &mut Sink) -> Result<(), AllocError> {
        self.error_code.write_to(sink)?;
        self.assignment.write_to(sink)
    }
}
