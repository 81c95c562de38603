//! CreateTopics, version 0 (Kafka protocol guide). Topics to be made, each with its settings, and the answer for each.

use kb_wire::{Array, Cursor, Layout, ReadFault, Sink, Text};
use std::alloc::{AllocError, Global};

/// An assignment, in a request of CreateTopics.
#[derive(Drop)]
pub struct CreateAssignment {
    pub partition: i32,
    pub brokers: Array<i32>,
}

impl<'a> Layout<'a> for CreateAssignment {
    ghost use Rattle.kb_api_data.specs.Layouts.{create_assignment};
    ghost use Rattle.kb_api_data.specs.Lawful.{create_assignment_lawful};

    ghost codec = { create_assignment };

    ghost lawful = { create_assignment_lawful };

    #[tactic(auto, unfolding(crate::specs::Layouts::create_assignment))]
    fn read_from(alloc: Global, cursor: &mut Cursor<'a>) -> Result<CreateAssignment, ReadFault> {
        Ok(CreateAssignment {
            partition: i32::read_from(alloc, cursor)?,
            brokers: Array::read_from(alloc, cursor)?,
        })
    }

    #[tactic(auto, unfolding(crate::specs::Layouts::create_assignment))]
    fn write_to(&self, sink: &mut Sink) -> Result<(), AllocError> {
        self.partition.write_to(sink)?;
        self.brokers.write_to(sink)
    }
}

/// A setting, in a request of CreateTopics.
#[derive(Drop)]
pub struct CreateConfig<'a> {
    pub name: Text<'a>,
    pub value: Option<Text<'a>>,
}

impl<'a> Layout<'a> for CreateConfig<'a> {
    ghost use Rattle.kb_api_data.specs.Layouts.{create_config};
    ghost use Rattle.kb_api_data.specs.Lawful.{create_config_lawful};

    ghost codec = { create_config };

    ghost lawful = { create_config_lawful };

    #[tactic(auto, unfolding(crate::specs::Layouts::create_config))]
    fn read_from(alloc: Global, cursor: &mut Cursor<'a>) -> Result<CreateConfig<'a>, ReadFault> {
        Ok(CreateConfig {
            name: Text::read_from(alloc, cursor)?,
            value: Option::read_from(alloc, cursor)?,
        })
    }

    #[tactic(auto, unfolding(crate::specs::Layouts::create_config))]
    fn write_to(&self, sink: &mut Sink) -> Result<(), AllocError> {
        self.name.write_to(sink)?;
        self.value.write_to(sink)
    }
}

/// A topic, in a request of CreateTopics.
#[derive(Drop)]
pub struct CreateTopic<'a> {
    pub name: Text<'a>,
    pub num_partitions: i32,
    pub replication_factor: i16,
    pub assignments: Array<CreateAssignment>,
    pub configs: Array<CreateConfig<'a>>,
}

impl<'a> Layout<'a> for CreateTopic<'a> {
    ghost use Rattle.kb_api_data.specs.Layouts.{create_topic};
    ghost use Rattle.kb_api_data.specs.Lawful.{create_topic_lawful};

    ghost codec = { create_topic };

    ghost lawful = { create_topic_lawful };

    #[tactic(auto, unfolding(crate::specs::Layouts::create_topic))]
    fn read_from(alloc: Global, cursor: &mut Cursor<'a>) -> Result<CreateTopic<'a>, ReadFault> {
        Ok(CreateTopic {
            name: Text::read_from(alloc, cursor)?,
            num_partitions: i32::read_from(alloc, cursor)?,
            replication_factor: i16::read_from(alloc, cursor)?,
            assignments: Array::read_from(alloc, cursor)?,
            configs: Array::read_from(alloc, cursor)?,
        })
    }

    #[tactic(auto, unfolding(crate::specs::Layouts::create_topic))]
    fn write_to(&self, sink: &mut Sink) -> Result<(), AllocError> {
        self.name.write_to(sink)?;
        self.num_partitions.write_to(sink)?;
        self.replication_factor.write_to(sink)?;
        self.assignments.write_to(sink)?;
        self.configs.write_to(sink)
    }
}

/// A request of CreateTopics, version 0.
#[derive(Drop)]
pub struct CreateTopicsRequest<'a> {
    pub topics: Array<CreateTopic<'a>>,
    pub timeout_ms: i32,
}

impl<'a> Layout<'a> for CreateTopicsRequest<'a> {
    ghost use Rattle.kb_api_data.specs.Layouts.{create_topics_request};
    ghost use Rattle.kb_api_data.specs.Lawful.{create_topics_request_lawful};

    ghost codec = { create_topics_request };

    ghost lawful = { create_topics_request_lawful };

    #[tactic(auto, unfolding(crate::specs::Layouts::create_topics_request))]
    fn read_from(
        alloc: Global,
        cursor: &mut Cursor<'a>,
    ) -> Result<CreateTopicsRequest<'a>, ReadFault> {
        Ok(CreateTopicsRequest {
            topics: Array::read_from(alloc, cursor)?,
            timeout_ms: i32::read_from(alloc, cursor)?,
        })
    }

    #[tactic(auto, unfolding(crate::specs::Layouts::create_topics_request))]
    fn write_to(&self, sink: &mut Sink) -> Result<(), AllocError> {
        self.topics.write_to(sink)?;
        self.timeout_ms.write_to(sink)
    }
}

/// A topic, in the reply of CreateTopics.
#[derive(Drop)]
pub struct CreateTopicReply<'a> {
    pub name: Text<'a>,
    pub error_code: i16,
}

impl<'a> Layout<'a> for CreateTopicReply<'a> {
    ghost use Rattle.kb_api_data.specs.Layouts.{create_topic_reply};
    ghost use Rattle.kb_api_data.specs.Lawful.{create_topic_reply_lawful};

    ghost codec = { create_topic_reply };

    ghost lawful = { create_topic_reply_lawful };

    #[tactic(auto, unfolding(crate::specs::Layouts::create_topic_reply))]
    fn read_from(
        alloc: Global,
        cursor: &mut Cursor<'a>,
    ) -> Result<CreateTopicReply<'a>, ReadFault> {
        Ok(CreateTopicReply {
            name: Text::read_from(alloc, cursor)?,
            error_code: i16::read_from(alloc, cursor)?,
        })
    }

    #[tactic(auto, unfolding(crate::specs::Layouts::create_topic_reply))]
    fn write_to(&self, sink: &mut Sink) -> Result<(), AllocError> {
        self.name.write_to(sink)?;
        self.error_code.write_to(sink)
    }
}

/// The reply of CreateTopics, version 0.
#[derive(Drop)]
pub struct CreateTopicsReply<'a> {
    pub topics: Array<CreateTopicReply<'a>>,
}

impl<'a> Layout<'a> for CreateTopicsReply<'a> {
    ghost use Rattle.kb_api_data.specs.Layouts.{create_topics_reply};
    ghost use Rattle.kb_api_data.specs.Lawful.{create_topics_reply_lawful};

    ghost codec = { create_topics_reply };

    ghost lawful = { create_topics_reply_lawful };

    #[tactic(auto, unfolding(crate::specs::Layouts::create_topics_reply))]
    fn read_from(
        alloc: Global,
        cursor: &mut Cursor<'a>,
    ) -> Result<CreateTopicsReply<'a>, ReadFault> {
        Ok(CreateTopicsReply {
            topics: Array::read_from(alloc, cursor)?,
        })
    }

    #[tactic(auto, unfolding(crate::specs::Layouts::create_topics_reply))]
    fn write_to(&self, sink: &mut Sink) -> Result<(), AllocError> {
        self.topics.write_to(sink)
    }
}
