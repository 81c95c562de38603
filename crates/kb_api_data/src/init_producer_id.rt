//! InitProducerId, version 0 (Kafka protocol guide). A producer asks for an id, under which its batches are stored once.

use kb_wire::{Cursor, Layout, ReadFault, Sink, Text};
use std::alloc::{AllocError, Global};

/// A request of InitProducerId, version 0.
#[derive(Drop)]
pub struct InitProducerIdRequest<'a> {
    pub transactional_id: Option<Text<'a>>,
    pub transaction_timeout_ms: i32,
}

impl<'a> Layout<'a> for InitProducerIdRequest<'a> {
    ghost use Rattle.kb_api_data.specs.Layouts.{init_producer_id_request};
    ghost use Rattle.kb_api_data.specs.Lawful.{init_producer_id_request_lawful};

    ghost codec = { init_producer_id_request };

    ghost lawful = { init_producer_id_request_lawful };

    #[tactic(auto, unfolding(crate::specs::Layouts::init_producer_id_request))]
    fn read_from(
        alloc: Global,
        cursor: &mut Cursor<'a>,
    ) -> Result<InitProducerIdRequest<'a>, ReadFault> {
        Ok(InitProducerIdRequest {
            transactional_id: Option::read_from(alloc, cursor)?,
            transaction_timeout_ms: i32::read_from(alloc, cursor)?,
        })
    }

    #[tactic(auto, unfolding(crate::specs::Layouts::init_producer_id_request))]
    fn write_to(&self, sink: &mut Sink) -> Result<(), AllocError> {
        self.transactional_id.write_to(sink)?;
        self.transaction_timeout_ms.write_to(sink)
    }
}

/// The reply of InitProducerId, version 0.
#[derive(Drop)]
pub struct InitProducerIdReply {
    pub throttle_time_ms: i32,
    pub error_code: i16,
    pub producer_id: i64,
    pub producer_epoch: i16,
}

impl<'a> Layout<'a> for InitProducerIdReply {
    ghost use Rattle.kb_api_data.specs.Layouts.{init_producer_id_reply};
    ghost use Rattle.kb_api_data.specs.Lawful.{init_producer_id_reply_lawful};

    ghost codec = { init_producer_id_reply };

    ghost lawful = { init_producer_id_reply_lawful };

    #[tactic(auto, unfolding(crate::specs::Layouts::init_producer_id_reply))]
    fn read_from(alloc: Global, cursor: &mut Cursor<'a>) -> Result<InitProducerIdReply, ReadFault> {
        Ok(InitProducerIdReply {
            throttle_time_ms: i32::read_from(alloc, cursor)?,
            error_code: i16::read_from(alloc, cursor)?,
            producer_id: i64::read_from(alloc, cursor)?,
            producer_epoch: i16::read_from(alloc, cursor)?,
        })
    }

    #[tactic(auto, unfolding(crate::specs::Layouts::init_producer_id_reply))]
    fn write_to(&self, sink: &mut Sink) -> Result<(), AllocError> {
        self.throttle_time_ms.write_to(sink)?;
        self.error_code.write_to(sink)?;
        self.producer_id.write_to(sink)?;
        self.producer_epoch.write_to(sink)
    }
}
