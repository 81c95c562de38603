//! CreateTopics, version 1 (Kafka protocol guide). As version 0, with requests that are only to be checked, and messages of errors.

use crate::create_topics::CreateTopic;
use kb_wire::{Array, Cursor, Layout, ReadFault, Sink, Text};
use std::alloc::{AllocError, Global};

/// A request of CreateTopics, version 1.
#[derive(Drop)]
pub struct CreateTopicsRequestV1<'a> {
    pub topics: Array<CreateTopic<'a>>,
    pub timeout_ms: i32,
    /// The topics are checked, and none is made.
    pub validate_only: bool,
}

impl<'a> Layout<'a> for CreateTopicsRequestV1<'a> {
    ghost use Rattle.kb_api_data.specs.Layouts.{create_topics_request_v1};
    ghost use Rattle.kb_api_data.specs.Lawful.{create_topics_request_v1_lawful};

    ghost codec = { create_topics_request_v1 };

    ghost lawful = { create_topics_request_v1_lawful };

    #[tactic(auto, unfolding(crate::specs::Layouts::create_topics_request_v1))]
    fn read_from(
        alloc: Global,
        cursor: &mut Cursor<'a>,
    ) -> Result<CreateTopicsRequestV1<'a>, ReadFault> {
        Ok(CreateTopicsRequestV1 {
            topics: Array::read_from(alloc, cursor)?,
            timeout_ms: i32::read_from(alloc, cursor)?,
            validate_only: bool::read_from(alloc, cursor)?,
        })
    }

    #[tactic(auto, unfolding(crate::specs::Layouts::create_topics_request_v1))]
    fn write_to(&self, sink: &mut Sink) -> Result<(), AllocError> {
        self.topics.write_to(sink)?;
        self.timeout_ms.write_to(sink)?;
        self.validate_only.write_to(sink)
    }
}

/// A topic, in the reply of CreateTopics, version 1.
#[derive(Drop)]
pub struct CreateTopicReplyV1<'a> {
    pub name: Text<'a>,
    pub error_code: i16,
    pub error_message: Option<Text<'a>>,
}

impl<'a> Layout<'a> for CreateTopicReplyV1<'a> {
    ghost use Rattle.kb_api_data.specs.Layouts.{create_topic_reply_v1};
    ghost use Rattle.kb_api_data.specs.Lawful.{create_topic_reply_v1_lawful};

    ghost codec = { create_topic_reply_v1 };

    ghost lawful = { create_topic_reply_v1_lawful };

    #[tactic(auto, unfolding(crate::specs::Layouts::create_topic_reply_v1))]
    fn read_from(
        alloc: Global,
        cursor: &mut Cursor<'a>,
    ) -> Result<CreateTopicReplyV1<'a>, ReadFault> {
        Ok(CreateTopicReplyV1 {
            name: Text::read_from(alloc, cursor)?,
            error_code: i16::read_from(alloc, cursor)?,
            error_message: Option::read_from(alloc, cursor)?,
        })
    }

    #[tactic(auto, unfolding(crate::specs::Layouts::create_topic_reply_v1))]
    fn write_to(&self, sink: &mut Sink) -> Result<(), AllocError> {
        self.name.write_to(sink)?;
        self.error_code.write_to(sink)?;
        self.error_message.write_to(sink)
    }
}

/// The reply of CreateTopics, version 1.
#[derive(Drop)]
pub struct CreateTopicsReplyV1<'a> {
    pub topics: Array<CreateTopicReplyV1<'a>>,
}

impl<'a> Layout<'a> for CreateTopicsReplyV1<'a> {
    ghost use Rattle.kb_api_data.specs.Layouts.{create_topics_reply_v1};
    ghost use Rattle.kb_api_data.specs.Lawful.{create_topics_reply_v1_lawful};

    ghost codec = { create_topics_reply_v1 };

    ghost lawful = { create_topics_reply_v1_lawful };

    #[tactic(auto, unfolding(crate::specs::Layouts::create_topics_reply_v1))]
    fn read_from(
        alloc: Global,
        cursor: &mut Cursor<'a>,
    ) -> Result<CreateTopicsReplyV1<'a>, ReadFault> {
        Ok(CreateTopicsReplyV1 {
            topics: Array::read_from(alloc, cursor)?,
        })
    }

    #[tactic(auto, unfolding(crate::specs::Layouts::create_topics_reply_v1))]
    fn write_to(&self, sink: &mut Sink) -> Result<(), AllocError> {
        self.topics.write_to(sink)
    }
}
