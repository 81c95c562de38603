//! Heartbeat (Kafka protocol guide, key 12, version 0): the request and the reply.

use kb_wire::{Cursor, Layout, ReadFault, Sink, Text};
use std::alloc::{AllocError, Global};

/// A request of Heartbeat: the member is alive, in that generation of the group.
#[derive(Drop)]
pub struct HeartbeatRequest<'a> {
    pub group_id: Text<'a>,
    pub generation_id: i32,
    pub member_id: Text<'a>,
}

impl<'a> Layout<'a> for HeartbeatRequest<'a> {
    ghost use Rattle.kb_api_group.specs.Layouts.{heartbeat_request};
    ghost use Rattle.kb_api_group.specs.Lawful.{heartbeat_request_lawful};

    ghost codec = { heartbeat_request };

    ghost lawful = { heartbeat_request_lawful };

    #[tactic(auto, unfolding(crate::specs::Layouts::heartbeat_request))]
    fn read_from(
        alloc: Global,
        cursor: &mut Cursor<'a>,
    ) -> Result<HeartbeatRequest<'a>, ReadFault> {
        Ok(HeartbeatRequest {
            group_id: Text::read_from(alloc, cursor)?,
            generation_id: i32::read_from(alloc, cursor)?,
            member_id: Text::read_from(alloc, cursor)?,
        })
    }

    #[tactic(auto, unfolding(crate::specs::Layouts::heartbeat_request))]
    fn write_to(&self, sink: &mut Sink) -> Result<(), AllocError> {
        self.group_id.write_to(sink)?;
        self.generation_id.write_to(sink)?;
        self.member_id.write_to(sink)
    }
}

/// The reply of Heartbeat.
#[derive(Drop)]
pub struct HeartbeatReply {
    pub error_code: i16,
}

impl<'a> Layout<'a> for HeartbeatReply {
    ghost use Rattle.kb_api_group.specs.Layouts.{heartbeat_reply};
    ghost use Rattle.kb_api_group.specs.Lawful.{heartbeat_reply_lawful};

    ghost codec = { heartbeat_reply };

    ghost lawful = { heartbeat_reply_lawful };

    #[tactic(auto, unfolding(crate::specs::Layouts::heartbeat_reply))]
    fn read_from(alloc: Global, cursor: &mut Cursor<'a>) -> Result<HeartbeatReply, ReadFault> {
        Ok(HeartbeatReply {
            error_code: i16::read_from(alloc, cursor)?,
        })
    }

    #[tactic(auto, unfolding(crate::specs::Layouts::heartbeat_reply))]
    fn write_to(&self, sink: &mut Sink) -> Result<(), AllocError> {
        self.error_code.write_to(sink)
    }
}
