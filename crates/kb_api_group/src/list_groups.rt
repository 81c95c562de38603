//! ListGroups (Kafka protocol guide, key 16, version 0): the request and the reply.

use kb_wire::{Array, Cursor, Layout, ReadFault, Sink, Text};
use std::alloc::{AllocError, Global};

/// A request of ListGroups: which groups are there? Its body is empty.
#[derive(Drop)]
pub struct ListGroupsRequest {}

impl<'a> Layout<'a> for ListGroupsRequest {
    ghost use Rattle.kb_api_group.specs.Layouts.{list_groups_request};
    ghost use Rattle.kb_api_group.specs.Lawful.{list_groups_request_lawful};

    ghost codec = { list_groups_request };

    ghost lawful = { list_groups_request_lawful };

    #[tactic(auto, unfolding(crate::specs::Layouts::list_groups_request, kb_wire::specs::Codec::nothing))]
    fn read_from(_alloc: Global, _cursor: &mut Cursor<'a>) -> Result<ListGroupsRequest, ReadFault> {
        Ok(ListGroupsRequest {})
    }

    #[tactic(auto, using(kb_wire::specs::Sunk::adds_put), unfolding(crate::specs::Layouts::list_groups_request, kb_wire::specs::Codec::nothing))]
    fn write_to(&self, _sink: &mut Sink) -> Result<(), AllocError> {
        Ok(())
    }
}

/// A group, in the reply of ListGroups.
#[derive(Drop)]
pub struct ListedGroup<'a> {
    pub group_id: Text<'a>,
    pub protocol_type: Text<'a>,
}

impl<'a> Layout<'a> for ListedGroup<'a> {
    ghost use Rattle.kb_api_group.specs.Layouts.{listed_group};
    ghost use Rattle.kb_api_group.specs.Lawful.{listed_group_lawful};

    ghost codec = { listed_group };

    ghost lawful = { listed_group_lawful };

    #[tactic(auto, unfolding(crate::specs::Layouts::listed_group))]
    fn read_from(alloc: Global, cursor: &mut Cursor<'a>) -> Result<ListedGroup<'a>, ReadFault> {
        Ok(ListedGroup {
            group_id: Text::read_from(alloc, cursor)?,
            protocol_type: Text::read_from(alloc, cursor)?,
        })
    }

    #[tactic(auto, unfolding(crate::specs::Layouts::listed_group))]
    fn write_to(&self, sink: &mut Sink) -> Result<(), AllocError> {
        self.group_id.write_to(sink)?;
        self.protocol_type.write_to(sink)
    }
}

/// The reply of ListGroups: the groups that are there.
#[derive(Drop)]
pub struct ListGroupsReply<'a> {
    pub error_code: i16,
    pub groups: Array<ListedGroup<'a>>,
}

impl<'a> Layout<'a> for ListGroupsReply<'a> {
    ghost use Rattle.kb_api_group.specs.Layouts.{list_groups_reply};
    ghost use Rattle.kb_api_group.specs.Lawful.{list_groups_reply_lawful};

    ghost codec = { list_groups_reply };

    ghost lawful = { list_groups_reply_lawful };

    #[tactic(auto, unfolding(crate::specs::Layouts::list_groups_reply))]
    fn read_from(alloc: Global, cursor: &mut Cursor<'a>) -> Result<ListGroupsReply<'a>, ReadFault> {
        Ok(ListGroupsReply {
            error_code: i16::read_from(alloc, cursor)?,
            groups: Array::read_from(alloc, cursor)?,
        })
    }

    #[tactic(auto, unfolding(crate::specs::Layouts::list_groups_reply))]
    fn write_to(&self, sink: &mut Sink) -> Result<(), AllocError> {
        self.error_code.write_to(sink)?;
        self.groups.write_to(sink)
    }
}
