//! DeleteTopics, version 0 (Kafka protocol guide). Topics to be deleted, and the answer for each.

use kb_wire::{Array, Cursor, Layout, ReadFault, Sink, Text};
use std::alloc::{AllocError, Global};

/// A request of DeleteTopics, version 0.
#[derive(Drop)]
pub struct DeleteTopicsRequest<'a> {
    pub names: Array<Text<'a>>,
    pub timeout_ms: i32,
}

impl<'a> Layout<'a> for DeleteTopicsRequest<'a> {
    ghost use Rattle.kb_api_data.specs.Layouts.{delete_topics_request};
    ghost use Rattle.kb_api_data.specs.Lawful.{delete_topics_request_lawful};

    ghost codec = { delete_topics_request };

    ghost lawful = { delete_topics_request_lawful };

    #[tactic(auto, unfolding(crate::specs::Layouts::delete_topics_request))]
    fn read_from(
        alloc: Global,
        cursor: &mut Cursor<'a>,
    ) -> Result<DeleteTopicsRequest<'a>, ReadFault> {
        Ok(DeleteTopicsRequest {
            names: Array::read_from(alloc, cursor)?,
            timeout_ms: i32::read_from(alloc, cursor)?,
        })
    }

    #[tactic(auto, unfolding(crate::specs::Layouts::delete_topics_request))]
    fn write_to(&self, sink: &mut Sink) -> Result<(), AllocError> {
        self.names.write_to(sink)?;
        self.timeout_ms.write_to(sink)
    }
}

/// A topic, in the reply of DeleteTopics.
#[derive(Drop)]
pub struct DeleteTopicReply<'a> {
    pub name: Text<'a>,
    pub error_code: i16,
}

impl<'a> Layout<'a> for DeleteTopicReply<'a> {
    ghost use Rattle.kb_api_data.specs.Layouts.{delete_topic_reply};
    ghost use Rattle.kb_api_data.specs.Lawful.{delete_topic_reply_lawful};

    ghost codec = { delete_topic_reply };

    ghost lawful = { delete_topic_reply_lawful };

    #[tactic(auto, unfolding(crate::specs::Layouts::delete_topic_reply))]
    fn read_from(
        alloc: Global,
        cursor: &mut Cursor<'a>,
    ) -> Result<DeleteTopicReply<'a>, ReadFault> {
        Ok(DeleteTopicReply {
            name: Text::read_from(alloc, cursor)?,
            error_code: i16::read_from(alloc, cursor)?,
        })
    }

    #[tactic(auto, unfolding(crate::specs::Layouts::delete_topic_reply))]
    fn write_to(&self, sink: &mut Sink) -> Result<(), AllocError> {
        self.name.write_to(sink)?;
        self.error_code.write_to(sink)
    }
}

/// The reply of DeleteTopics, version 0.
#[derive(Drop)]
pub struct DeleteTopicsReply<'a> {
    pub topics: Array<DeleteTopicReply<'a>>,
}

impl<'a> Layout<'a> for DeleteTopicsReply<'a> {
    ghost use Rattle.kb_api_data.specs.Layouts.{delete_topics_reply};
    ghost use Rattle.kb_api_data.specs.Lawful.{delete_topics_reply_lawful};

    ghost codec = { delete_topics_reply };

    ghost lawful = { delete_topics_reply_lawful };

    #[tactic(auto, unfolding(crate::specs::Layouts::delete_topics_reply))]
    fn read_from(
        alloc: Global,
        cursor: &mut Cursor<'a>,
    ) -> Result<DeleteTopicsReply<'a>, ReadFault> {
        Ok(DeleteTopicsReply {
            topics: Array::read_from(alloc, cursor)?,
        })
    }

    #[tactic(auto, unfolding(crate::specs::Layouts::delete_topics_reply))]
    fn write_to(&self, sink: &mut Sink) -> Result<(), AllocError> {
        self.topics.write_to(sink)
    }
}
