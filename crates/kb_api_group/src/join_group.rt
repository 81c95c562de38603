//! JoinGroup (Kafka protocol guide, key 11, version 1): the request and the reply.

use kb_wire::{Array, Blob, Cursor, Layout, ReadFault, Sink, Text};
use std::alloc::{AllocError, Global};

/// A protocol that the member can take, with what it says of itself under it, in a request of JoinGroup.
#[derive(Drop)]
pub struct JoinProtocol<'a> {
    pub name: Text<'a>,
    pub metadata: Blob<'a>,
}

impl<'a> Layout<'a> for JoinProtocol<'a> {
    ghost use Rattle.kb_api_group.specs.Layouts.{join_protocol};
    ghost use Rattle.kb_api_group.specs.Lawful.{join_protocol_lawful};

    ghost codec = { join_protocol };

    ghost lawful = { join_protocol_lawful };

    #[tactic(auto, unfolding(crate::specs::Layouts::join_protocol))]
    fn read_from(alloc: Global, cursor: &mut Cursor<'a>) -> Result<JoinProtocol<'a>, ReadFault> {
        Ok(JoinProtocol {
            name: Text::read_from(alloc, cursor)?,
            metadata: Blob::read_from(alloc, cursor)?,
        })
    }

    #[tactic(auto, unfolding(crate::specs::Layouts::join_protocol))]
    fn write_to(&self, sink: &mut Sink) -> Result<(), AllocError> {
        self.name.write_to(sink)?;
        self.metadata.write_to(sink)
    }
}

/// A request of JoinGroup. `member_id` is empty where the member joins for the first time, and `protocols` stand in
/// the order of preference.
#[derive(Drop)]
pub struct JoinGroupRequest<'a> {
    pub group_id: Text<'a>,
    pub session_timeout_ms: i32,
    pub rebalance_timeout_ms: i32,
    pub member_id: Text<'a>,
    pub protocol_type: Text<'a>,
    pub protocols: Array<JoinProtocol<'a>>,
}

impl<'a> Layout<'a> for JoinGroupRequest<'a> {
    ghost use Rattle.kb_api_group.specs.Layouts.{join_group_request};
    ghost use Rattle.kb_api_group.specs.Lawful.{join_group_request_lawful};

    ghost codec = { join_group_request };

    ghost lawful = { join_group_request_lawful };

    #[tactic(auto, unfolding(crate::specs::Layouts::join_group_request))]
    fn read_from(
        alloc: Global,
        cursor: &mut Cursor<'a>,
    ) -> Result<JoinGroupRequest<'a>, ReadFault> {
        Ok(JoinGroupRequest {
            group_id: Text::read_from(alloc, cursor)?,
            session_timeout_ms: i32::read_from(alloc, cursor)?,
            rebalance_timeout_ms: i32::read_from(alloc, cursor)?,
            member_id: Text::read_from(alloc, cursor)?,
            protocol_type: Text::read_from(alloc, cursor)?,
            protocols: Array::read_from(alloc, cursor)?,
        })
    }

    #[tactic(auto, unfolding(crate::specs::Layouts::join_group_request))]
    fn write_to(&self, sink: &mut Sink) -> Result<(), AllocError> {
        self.group_id.write_to(sink)?;
        self.session_timeout_ms.write_to(sink)?;
        self.rebalance_timeout_ms.write_to(sink)?;
        self.member_id.write_to(sink)?;
        self.protocol_type.write_to(sink)?;
        self.protocols.write_to(sink)
    }
}

/// A member and its metadata under the chosen protocol, in the reply of JoinGroup.
#[derive(Drop)]
pub struct JoinMember<'a> {
    pub member_id: Text<'a>,
    pub metadata: Blob<'a>,
}

impl<'a> Layout<'a> for JoinMember<'a> {
    ghost use Rattle.kb_api_group.specs.Layouts.{join_member};
    ghost use Rattle.kb_api_group.specs.Lawful.{join_member_lawful};

    ghost codec = { join_member };

    ghost lawful = { join_member_lawful };

    #[tactic(auto, unfolding(crate::specs::Layouts::join_member))]
    fn read_from(alloc: Global, cursor: &mut Cursor<'a>) -> Result<JoinMember<'a>, ReadFault> {
        Ok(JoinMember {
            member_id: Text::read_from(alloc, cursor)?,
            metadata: Blob::read_from(alloc, cursor)?,
        })
    }

    #[tactic(auto, unfolding(crate::specs::Layouts::join_member))]
    fn write_to(&self, sink: &mut Sink) -> Result<(), AllocError> {
        self.member_id.write_to(sink)?;
        self.metadata.write_to(sink)
    }
}

/// The reply of JoinGroup: the generation that began, and its chosen protocol. `members` is empty but for the leader.
#[derive(Drop)]
pub struct JoinGroupReply<'a> {
    pub error_code: i16,
    pub generation_id: i32,
    pub protocol_name: Text<'a>,
    pub leader: Text<'a>,
    pub member_id: Text<'a>,
    pub members: Array<JoinMember<'a>>,
}

impl<'a> Layout<'a> for JoinGroupReply<'a> {
    ghost use Rattle.kb_api_group.specs.Layouts.{join_group_reply};
    ghost use Rattle.kb_api_group.specs.Lawful.{join_group_reply_lawful};

    ghost codec = { join_group_reply };

    ghost lawful = { join_group_reply_lawful };

    #[tactic(auto, unfolding(crate::specs::Layouts::join_group_reply))]
    fn read_from(alloc: Global, cursor: &mut Cursor<'a>) -> Result<JoinGroupReply<'a>, ReadFault> {
        Ok(JoinGroupReply {
            error_code: i16::read_from(alloc, cursor)?,
            generation_id: i32::read_from(alloc, cursor)?,
            protocol_name: Text::read_from(alloc, cursor)?,
            leader: Text::read_from(alloc, cursor)?,
            member_id: Text::read_from(alloc, cursor)?,
            members: Array::read_from(alloc, cursor)?,
        })
    }

    #[tactic(auto, unfolding(crate::specs::Layouts::join_group_reply))]
    fn write_to(&self, sink: &mut Sink) -> Result<(), AllocError> {
        self.error_code.write_to(sink)?;
        self.generation_id.write_to(sink)?;
        self.protocol_name.write_to(sink)?;
        self.leader.write_to(sink)?;
        self.member_id.write_to(sink)?;
        self.members.write_to(sink)
    }
}
