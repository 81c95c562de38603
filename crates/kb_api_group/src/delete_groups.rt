//! DeleteGroups (Kafka protocol guide, key 42, versions 0 and 1, which are spelled alike): the request and the reply.

use kb_wire::{Array, Cursor, Layout, ReadFault, Sink, Text};
use std::alloc::{AllocError, Global};

/// A request of DeleteGroups: these groups, and all that they committed, are to go. (`groups_names` in the Kafka protocol guide)
#[derive(Drop)]
pub struct DeleteGroupsRequest<'a> {
    pub group_ids: Array<Text<'a>>,
}

impl<'a> Layout<'a> for DeleteGroupsRequest<'a> {
    ghost use Rattle.kb_api_group.specs.Layouts.{delete_groups_request};
    ghost use Rattle.kb_api_group.specs.Lawful.{delete_groups_request_lawful};

    ghost codec = { delete_groups_request };

    ghost lawful = { delete_groups_request_lawful };

    #[tactic(auto, unfolding(crate::specs::Layouts::delete_groups_request))]
    fn read_from(
        alloc: Global,
        cursor: &mut Cursor<'a>,
    ) -> Result<DeleteGroupsRequest<'a>, ReadFault> {
        Ok(DeleteGroupsRequest {
            group_ids: Array::read_from(alloc, cursor)?,
        })
    }

    #[tactic(auto, unfolding(crate::specs::Layouts::delete_groups_request))]
    fn write_to(&self, sink: &mut Sink) -> Result<(), AllocError> {
        self.group_ids.write_to(sink)
    }
}

/// What a group's deletion is answered, in the reply of DeleteGroups.
#[derive(Drop)]
pub struct DeletedGroup<'a> {
    pub group_id: Text<'a>,
    pub error_code: i16,
}

impl<'a> Layout<'a> for DeletedGroup<'a> {
    ghost use Rattle.kb_api_group.specs.Layouts.{deleted_group};
    ghost use Rattle.kb_api_group.specs.Lawful.{deleted_group_lawful};

    ghost codec = { deleted_group };

    ghost lawful = { deleted_group_lawful };

    #[tactic(auto, unfolding(crate::specs::Layouts::deleted_group))]
    fn read_from(alloc: Global, cursor: &mut Cursor<'a>) -> Result<DeletedGroup<'a>, ReadFault> {
        Ok(DeletedGroup {
            group_id: Text::read_from(alloc, cursor)?,
            error_code: i16::read_from(alloc, cursor)?,
        })
    }

    #[tactic(auto, unfolding(crate::specs::Layouts::deleted_group))]
    fn write_to(&self, sink: &mut Sink) -> Result<(), AllocError> {
        self.group_id.write_to(sink)?;
        self.error_code.write_to(sink)
    }
}

/// The reply of DeleteGroups: how long the client is held back, and what each group's deletion is answered, in the request's order.
#[derive(Drop)]
pub struct DeleteGroupsReply<'a> {
    pub throttle_time_ms: i32,
    pub results: Array<DeletedGroup<'a>>,
}

impl<'a> Layout<'a> for DeleteGroupsReply<'a> {
    ghost use Rattle.kb_api_group.specs.Layouts.{delete_groups_reply};
    ghost use Rattle.kb_api_group.specs.Lawful.{delete_groups_reply_lawful};

    ghost codec = { delete_groups_reply };

    ghost lawful = { delete_groups_reply_lawful };

    #[tactic(auto, unfolding(crate::specs::Layouts::delete_groups_reply))]
    fn read_from(
        alloc: Global,
        cursor: &mut Cursor<'a>,
    ) -> Result<DeleteGroupsReply<'a>, ReadFault> {
        Ok(DeleteGroupsReply {
            throttle_time_ms: i32::read_from(alloc, cursor)?,
            results: Array::read_from(alloc, cursor)?,
        })
    }

    #[tactic(auto, unfolding(crate::specs::Layouts::delete_groups_reply))]
    fn write_to(&self, sink: &mut Sink) -> Result<(), AllocError> {
        self.throttle_time_ms.write_to(sink)?;
        self.results.write_to(sink)
    }
}
