//! DescribeGroups (Kafka protocol guide, key 15, version 0): the request and the reply.

use kb_wire::{Array, Blob, Cursor, Layout, ReadFault, Sink, Text};
use std::alloc::{AllocError, Global};

/// A request of DescribeGroups: what are these groups, and who is in them? (`groups` in the Kafka protocol guide)
#[derive(Drop)]
pub struct DescribeGroupsRequest<'a> {
    pub group_ids: Array<Text<'a>>,
}

impl<'a> Layout<'a> for DescribeGroupsRequest<'a> {
    ghost use Rattle.kb_api_group.specs.Layouts.{describe_groups_request};
    ghost use Rattle.kb_api_group.specs.Lawful.{describe_groups_request_lawful};

    ghost codec = { describe_groups_request };

    ghost lawful = { describe_groups_request_lawful };

    #[tactic(auto, unfolding(crate::specs::Layouts::describe_groups_request))]
    fn read_from(
        alloc: Global,
        cursor: &mut Cursor<'a>,
    ) -> Result<DescribeGroupsRequest<'a>, ReadFault> {
        Ok(DescribeGroupsRequest {
            group_ids: Array::read_from(alloc, cursor)?,
        })
    }

    #[tactic(auto, unfolding(crate::specs::Layouts::describe_groups_request))]
    fn write_to(&self, sink: &mut Sink) -> Result<(), AllocError> {
        self.group_ids.write_to(sink)
    }
}

/// A member, in the reply of DescribeGroups. Its metadata is that under the group's protocol.
#[derive(Drop)]
pub struct DescribedMember<'a> {
    pub member_id: Text<'a>,
    pub client_id: Text<'a>,
    pub client_host: Text<'a>,
    pub member_metadata: Blob<'a>,
    pub member_assignment: Blob<'a>,
}

impl<'a> Layout<'a> for DescribedMember<'a> {
    ghost use Rattle.kb_api_group.specs.Layouts.{described_member};
    ghost use Rattle.kb_api_group.specs.Lawful.{described_member_lawful};

    ghost codec = { described_member };

    ghost lawful = { described_member_lawful };

    #[tactic(auto, unfolding(crate::specs::Layouts::described_member))]
    fn read_from(alloc: Global, cursor: &mut Cursor<'a>) -> Result<DescribedMember<'a>, ReadFault> {
        Ok(DescribedMember {
            member_id: Text::read_from(alloc, cursor)?,
            client_id: Text::read_from(alloc, cursor)?,
            client_host: Text::read_from(alloc, cursor)?,
            member_metadata: Blob::read_from(alloc, cursor)?,
            member_assignment: Blob::read_from(alloc, cursor)?,
        })
    }

    #[tactic(auto, unfolding(crate::specs::Layouts::described_member))]
    fn write_to(&self, sink: &mut Sink) -> Result<(), AllocError> {
        self.member_id.write_to(sink)?;
        self.client_id.write_to(sink)?;
        self.client_host.write_to(sink)?;
        self.member_metadata.write_to(sink)?;
        self.member_assignment.write_to(sink)
    }
}

/// A group, in the reply of DescribeGroups. `protocol_data` is the name of the protocol that the group took.
#[derive(Drop)]
pub struct DescribedGroup<'a> {
    pub error_code: i16,
    pub group_id: Text<'a>,
    pub group_state: Text<'a>,
    pub protocol_type: Text<'a>,
    pub protocol_data: Text<'a>,
    pub members: Array<DescribedMember<'a>>,
}

impl<'a> Layout<'a> for DescribedGroup<'a> {
    ghost use Rattle.kb_api_group.specs.Layouts.{described_group};
    ghost use Rattle.kb_api_group.specs.Lawful.{described_group_lawful};

    ghost codec = { described_group };

    ghost lawful = { described_group_lawful };

    #[tactic(auto, unfolding(crate::specs::Layouts::described_group))]
    fn read_from(alloc: Global, cursor: &mut Cursor<'a>) -> Result<DescribedGroup<'a>, ReadFault> {
        Ok(DescribedGroup {
            error_code: i16::read_from(alloc, cursor)?,
            group_id: Text::read_from(alloc, cursor)?,
            group_state: Text::read_from(alloc, cursor)?,
            protocol_type: Text::read_from(alloc, cursor)?,
            protocol_data: Text::read_from(alloc, cursor)?,
            members: Array::read_from(alloc, cursor)?,
        })
    }

    #[tactic(auto, unfolding(crate::specs::Layouts::described_group))]
    fn write_to(&self, sink: &mut Sink) -> Result<(), AllocError> {
        self.error_code.write_to(sink)?;
        self.group_id.write_to(sink)?;
        self.group_state.write_to(sink)?;
        self.protocol_type.write_to(sink)?;
        self.protocol_data.write_to(sink)?;
        self.members.write_to(sink)
    }
}

/// The reply of DescribeGroups: a group for each id that was asked.
#[derive(Drop)]
pub struct DescribeGroupsReply<'a> {
    pub groups: Array<DescribedGroup<'a>>,
}

impl<'a> Layout<'a> for DescribeGroupsReply<'a> {
    ghost use Rattle.kb_api_group.specs.Layouts.{describe_groups_reply};
    ghost use Rattle.kb_api_group.specs.Lawful.{describe_groups_reply_lawful};

    ghost codec = { describe_groups_reply };

    ghost lawful = { describe_groups_reply_lawful };

    #[tactic(auto, unfolding(crate::specs::Layouts::describe_groups_reply))]
    fn read_from(
        alloc: Global,
        cursor: &mut Cursor<'a>,
    ) -> Result<DescribeGroupsReply<'a>, ReadFault> {
        Ok(DescribeGroupsReply {
            groups: Array::read_from(alloc, cursor)?,
        })
    }

    #[tactic(auto, unfolding(crate::specs::Layouts::describe_groups_reply))]
    fn write_to(&self, sink: &mut Sink) -> Result<(), AllocError> {
        self.groups.write_to(sink)
    }
}
