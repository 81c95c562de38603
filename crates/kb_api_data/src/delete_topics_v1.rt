//! DeleteTopics, version 1 (Kafka protocol guide). Its request is that of version 0.

use crate::delete_topics::DeleteTopicReply;
use kb_wire::{Array, Cursor, Layout, ReadFault, Sink};
use std::alloc::{AllocError, Global};

/// The reply of DeleteTopics, version 1.
#[derive(Drop)]
pub struct DeleteTopicsReplyV1<'a> {
    pub throttle_time_ms: i32,
    pub topics: Array<DeleteTopicReply<'a>>,
}

impl<'a> Layout<'a> for DeleteTopicsReplyV1<'a> {
    ghost use Rattle.kb_api_data.specs.Layouts.{delete_topics_reply_v1};
    ghost use Rattle.kb_api_data.specs.Lawful.{delete_topics_reply_v1_lawful};

    ghost codec = { delete_topics_reply_v1 };

    ghost lawful = { delete_topics_reply_v1_lawful };

    #[tactic(auto, unfolding(crate::specs::Layouts::delete_topics_reply_v1))]
    fn read_from(
        alloc: Global,
        cursor: &mut Cursor<'a>,
    ) -> Result<DeleteTopicsReplyV1<'a>, ReadFault> {
        Ok(DeleteTopicsReplyV1 {
            throttle_time_ms: i32::read_from(alloc, cursor)?,
            topics: Array::read_from(alloc, cursor)?,
        })
    }

    #[tactic(auto, unfolding(crate::specs::Layouts::delete_topics_reply_v1))]
    fn write_to(&self, sink: &mut Sink) -> Result<(), AllocError> {
        self.throttle_time_ms.write_to(sink)?;
        self.topics.write_to(sink)
    }
}
