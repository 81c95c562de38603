//! Produce, version 3 (Kafka protocol guide). Batches of records for partitions, and where each was appended.

use kb_wire::{Array, Blob, Cursor, Layout, ReadFault, Sink, Text};
use std::alloc::{AllocError, Global};

/// A partition, in a request of Produce.
#[derive(Drop)]
pub struct ProducePartition<'a> {
    pub index: i32,
    pub records: Option<Blob<'a>>,
}

impl<'a> Layout<'a> for ProducePartition<'a> {
    ghost use Rattle.kb_api_data.specs.Layouts.{produce_partition};
    ghost use Rattle.kb_api_data.specs.Lawful.{produce_partition_lawful};

    ghost codec = { produce_partition };

    ghost lawful = { produce_partition_lawful };

    #[tactic(auto, unfolding(crate::specs::Layouts::produce_partition))]
    fn read_from(
        alloc: Global,
        cursor: &mut Cursor<'a>,
    ) -> Result<ProducePartition<'a>, ReadFault> {
        Ok(ProducePartition {
            index: i32::read_from(alloc, cursor)?,
            records: Option::read_from(alloc, cursor)?,
        })
    }

    #[tactic(auto, unfolding(crate::specs::Layouts::produce_partition))]
    fn write_to(&self, sink: &mut Sink) -> Result<(), AllocError> {
        self.index.write_to(sink)?;
        self.records.write_to(sink)
    }
}

/// A topic, in a request of Produce.
#[derive(Drop)]
pub struct ProduceTopic<'a> {
    pub name: Text<'a>,
    pub partitions: Array<ProducePartition<'a>>,
}

impl<'a> Layout<'a> for ProduceTopic<'a> {
    ghost use Rattle.kb_api_data.specs.Layouts.{produce_topic};
    ghost use Rattle.kb_api_data.specs.Lawful.{produce_topic_lawful};

    ghost codec = { produce_topic };

    ghost lawful = { produce_topic_lawful };

    #[tactic(auto, unfolding(crate::specs::Layouts::produce_topic))]
    fn read_from(alloc: Global, cursor: &mut Cursor<'a>) -> Result<ProduceTopic<'a>, ReadFault> {
        Ok(ProduceTopic {
            name: Text::read_from(alloc, cursor)?,
            partitions: Array::read_from(alloc, cursor)?,
        })
    }

    #[tactic(auto, unfolding(crate::specs::Layouts::produce_topic))]
    fn write_to(&self, sink: &mut Sink) -> Result<(), AllocError> {
        self.name.write_to(sink)?;
        self.partitions.write_to(sink)
    }
}

/// A request of Produce, version 3.
#[derive(Drop)]
pub struct ProduceRequest<'a> {
    pub transactional_id: Option<Text<'a>>,
    pub acks: i16,
    pub timeout_ms: i32,
    pub topics: Array<ProduceTopic<'a>>,
}

impl<'a> Layout<'a> for ProduceRequest<'a> {
    ghost use Rattle.kb_api_data.specs.Layouts.{produce_request};
    ghost use Rattle.kb_api_data.specs.Lawful.{produce_request_lawful};

    ghost codec = { produce_request };

    ghost lawful = { produce_request_lawful };

    #[tactic(auto, unfolding(crate::specs::Layouts::produce_request))]
    fn read_from(alloc: Global, cursor: &mut Cursor<'a>) -> Result<ProduceRequest<'a>, ReadFault> {
        Ok(ProduceRequest {
            transactional_id: Option::read_from(alloc, cursor)?,
            acks: i16::read_from(alloc, cursor)?,
            timeout_ms: i32::read_from(alloc, cursor)?,
            topics: Array::read_from(alloc, cursor)?,
        })
    }

    #[tactic(auto, unfolding(crate::specs::Layouts::produce_request))]
    fn write_to(&self, sink: &mut Sink) -> Result<(), AllocError> {
        self.transactional_id.write_to(sink)?;
        self.acks.write_to(sink)?;
        self.timeout_ms.write_to(sink)?;
        self.topics.write_to(sink)
    }
}

/// A partition, in the reply of Produce.
#[derive(Drop)]
pub struct ProducePartitionReply {
    pub index: i32,
    pub error_code: i16,
    pub base_offset: i64,
    pub log_append_time_ms: i64,
}

impl<'a> Layout<'a> for ProducePartitionReply {
    ghost use Rattle.kb_api_data.specs.Layouts.{produce_partition_reply};
    ghost use Rattle.kb_api_data.specs.Lawful.{produce_partition_reply_lawful};

    ghost codec = { produce_partition_reply };

    ghost lawful = { produce_partition_reply_lawful };

    #[tactic(auto, unfolding(crate::specs::Layouts::produce_partition_reply))]
    fn read_from(
        alloc: Global,
        cursor: &mut Cursor<'a>,
    ) -> Result<ProducePartitionReply, ReadFault> {
        Ok(ProducePartitionReply {
            index: i32::read_from(alloc, cursor)?,
            error_code: i16::read_from(alloc, cursor)?,
            base_offset: i64::read_from(alloc, cursor)?,
            log_append_time_ms: i64::read_from(alloc, cursor)?,
        })
    }

    #[tactic(auto, unfolding(crate::specs::Layouts::produce_partition_reply))]
    fn write_to(&self, sink: &mut Sink) -> Result<(), AllocError> {
        self.index.write_to(sink)?;
        self.error_code.write_to(sink)?;
        self.base_offset.write_to(sink)?;
        self.log_append_time_ms.write_to(sink)
    }
}

/// A topic, in the reply of Produce.
#[derive(Drop)]
pub struct ProduceTopicReply<'a> {
    pub name: Text<'a>,
    pub partitions: Array<ProducePartitionReply>,
}

impl<'a> Layout<'a> for ProduceTopicReply<'a> {
    ghost use Rattle.kb_api_data.specs.Layouts.{produce_topic_reply};
    ghost use Rattle.kb_api_data.specs.Lawful.{produce_topic_reply_lawful};

    ghost codec = { produce_topic_reply };

    ghost lawful = { produce_topic_reply_lawful };

    #[tactic(auto, unfolding(crate::specs::Layouts::produce_topic_reply))]
    fn read_from(
        alloc: Global,
        cursor: &mut Cursor<'a>,
    ) -> Result<ProduceTopicReply<'a>, ReadFault> {
        Ok(ProduceTopicReply {
            name: Text::read_from(alloc, cursor)?,
            partitions: Array::read_from(alloc, cursor)?,
        })
    }

    #[tactic(auto, unfolding(crate::specs::Layouts::produce_topic_reply))]
    fn write_to(&self, sink: &mut Sink) -> Result<(), AllocError> {
        self.name.write_to(sink)?;
        self.partitions.write_to(sink)
    }
}

/// The reply of Produce, version 3.
#[derive(Drop)]
pub struct ProduceReply<'a> {
    pub topics: Array<ProduceTopicReply<'a>>,
    pub throttle_time_ms: i32,
}

impl<'a> Layout<'a> for ProduceReply<'a> {
    ghost use Rattle.kb_api_data.specs.Layouts.{produce_reply};
    ghost use Rattle.kb_api_data.specs.Lawful.{produce_reply_lawful};

    ghost codec = { produce_reply };

    ghost lawful = { produce_reply_lawful };

    #[tactic(auto, unfolding(crate::specs::Layouts::produce_reply))]
    fn read_from(alloc: Global, cursor: &mut Cursor<'a>) -> Result<ProduceReply<'a>, ReadFault> {
        Ok(ProduceReply {
            topics: Array::read_from(alloc, cursor)?,
            throttle_time_ms: i32::read_from(alloc, cursor)?,
        })
    }

    #[tactic(auto, unfolding(crate::specs::Layouts::produce_reply))]
    fn write_to(&self, sink: &mut Sink) -> Result<(), AllocError> {
        self.topics.write_to(sink)?;
        self.throttle_time_ms.write_to(sink)
    }
}
