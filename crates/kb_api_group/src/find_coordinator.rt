//! FindCoordinator (Kafka protocol guide, key 10, version 0): the request and the reply.

use kb_wire::{Cursor, Layout, ReadFault, Sink, Text};
use std::alloc::{AllocError, Global};

/// A request of FindCoordinator: which broker looks after the group?
#[derive(Drop)]
pub struct FindCoordinatorRequest<'a> {
    pub group_id: Text<'a>,
}

impl<'a> Layout<'a> for FindCoordinatorRequest<'a> {
    ghost use Rattle.kb_api_group.specs.Layouts.{find_coordinator_request};
    ghost use Rattle.kb_api_group.specs.Lawful.{find_coordinator_request_lawful};

    ghost codec = { find_coordinator_request };

    ghost lawful = { find_coordinator_request_lawful };

    #[tactic(auto, unfolding(crate::specs::Layouts::find_coordinator_request))]
    fn read_from(
        alloc: Global,
        cursor: &mut Cursor<'a>,
    ) -> Result<FindCoordinatorRequest<'a>, ReadFault> {
        Ok(FindCoordinatorRequest {
            group_id: Text::read_from(alloc, cursor)?,
        })
    }

    #[tactic(auto, unfolding(crate::specs::Layouts::find_coordinator_request))]
    fn write_to(&self, sink: &mut Sink) -> Result<(), AllocError> {
        self.group_id.write_to(sink)
    }
}

/// The reply of FindCoordinator: the coordinator's number and address.
#[derive(Drop)]
pub struct FindCoordinatorReply<'a> {
    pub error_code: i16,
    pub node_id: i32,
    pub host: Text<'a>,
    pub port: i32,
}

impl<'a> Layout<'a> for FindCoordinatorReply<'a> {
    ghost use Rattle.kb_api_group.specs.Layouts.{find_coordinator_reply};
    ghost use Rattle.kb_api_group.specs.Lawful.{find_coordinator_reply_lawful};

    ghost codec = { find_coordinator_reply };

    ghost lawful = { find_coordinator_reply_lawful };

    #[tactic(auto, unfolding(crate::specs::Layouts::find_coordinator_reply))]
    fn read_from(
        alloc: Global,
        cursor: &mut Cursor<'a>,
    ) -> Result<FindCoordinatorReply<'a>, ReadFault> {
        Ok(FindCoordinatorReply {
            error_code: i16::read_from(alloc, cursor)?,
            node_id: i32::read_from(alloc, cursor)?,
            host: Text::read_from(alloc, cursor)?,
            port: i32::read_from(alloc, cursor)?,
        })
    }

    #[tactic(auto, unfolding(crate::specs::Layouts::find_coordinator_reply))]
    fn write_to(&self, sink: &mut Sink) -> Result<(), AllocError> {
        self.error_code.write_to(sink)?;
        self.node_id.write_to(sink)?;
        self.host.write_to(sink)?;
        self.port.write_to(sink)
    }
}
