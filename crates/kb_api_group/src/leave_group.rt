//! LeaveGroup (Kafka protocol guide, key 13, version 0): the request and the reply.

use kb_wire::{Cursor, Layout, ReadFault, Sink, Text};
use std::alloc::{AllocError, Global};

/// A request of LeaveGroup.
#[derive(Drop)]
pub struct LeaveGroupRequest<'a> {
    pub group_id: Text<'a>,
    pub member_id: Text<'a>,
}

impl<'a> Layout<'a> for LeaveGroupRequest<'a> {
    ghost use Rattle.kb_api_group.specs.Layouts.{leave_group_request};
    ghost use Rattle.kb_api_group.specs.Lawful.{leave_group_request_lawful};

    ghost codec = { leave_group_request };

    ghost lawful = { leave_group_request_lawful };

    #[tactic(auto, unfolding(crate::specs::Layouts::leave_group_request))]
    fn read_from(
        alloc: Global,
        cursor: &mut Cursor<'a>,
    ) -> Result<LeaveGroupRequest<'a>, ReadFault> {
        Ok(LeaveGroupRequest {
            group_id: Text::read_from(alloc, cursor)?,
            member_id: Text::read_from(alloc, cursor)?,
        })
    }

    #[tactic(auto, unfolding(crate::specs::Layouts::leave_group_request))]
    fn write_to(&self, sink: &mut Sink) -> Result<(), AllocError> {
        self.group_id.write_to(sink)?;
        self.member_id.write_to(sink)
    }
}

/// The reply of LeaveGroup.
#[derive(Drop)]
pub struct LeaveGroupReply {
    pub error_code: i16,
}

impl<'a> Layout<'a> for LeaveGroupReply {
    ghost use Rattle.kb_api_group.specs.Layouts.{leave_group_reply};
    ghost use Rattle.kb_api_group.specs.Lawful.{leave_group_reply_lawful};

    ghost codec = { leave_group_reply };

    ghost lawful = { leave_group_reply_lawful };

    #[tactic(auto, unfolding(crate::specs::Layouts::leave_group_reply))]
    fn read_from(alloc: Global, cursor: &mut Cursor<'a>) -> Result<LeaveGroupReply, ReadFault> {
        Ok(LeaveGroupReply {
            error_code: i16::read_from(alloc, cursor)?,
        })
    }

    #[tactic(auto, unfolding(crate::specs::Layouts::leave_group_reply))]
    fn write_to(&self, sink: &mut Sink) -> Result<(), AllocError> {
        self.error_code.write_to(sink)
    }
}
