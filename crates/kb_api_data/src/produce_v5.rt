//! The reply of Produce, versions 5 and 6 (Kafka protocol guide, "The Messages: Produce"). As version 3, with the offsets that logs
//! start at.

use kb_wire::{Array, Cursor, Layout, ReadFault, Sink, Text};
use std::alloc::{AllocError, Global};

/// A partition, in the reply of Produce, version 5.
#[derive(Drop)]
pub struct ProducePartitionReplyV5 {
    pub index: i32,
    pub error_code: i16,
    pub base_offset: i64,
    pub log_append_time_ms: i64,
    /// The offset that the partition's log starts at, and -1 where the batch is refused.
    pub log_start_offset: i64,
}

impl<'a> Layout<'a> for ProducePartitionReplyV5 {
    ghost use Rattle.kb_api_data.specs.ProduceV5.{produce_partition_reply_v5, produce_partition_reply_v5_lawful};

    ghost codec = { produce_partition_reply_v5 };

    ghost lawful = { produce_partition_reply_v5_lawful };

    #[tactic(auto, unfolding(crate::specs::ProduceV5::produce_partition_reply_v5))]
    fn read_from(
        alloc: Global,
        cursor: &mut Cursor<'a>,
    ) -> Result<ProducePartitionReplyV5, ReadFault> {
        Ok(ProducePartitionReplyV5 {
            index: i32::read_from(alloc, cursor)?,
            error_code: i16::read_from(alloc, cursor)?,
            base_offset: i64::read_from(alloc, cursor)?,
            log_append_time_ms: i64::read_from(alloc, cursor)?,
            log_start_offset: i64::read_from(alloc, cursor)?,
        })
    }

    #[tactic(auto, unfolding(crate::specs::ProduceV5::produce_partition_reply_v5))]
    fn write_to(&self, sink: &mut Sink) -> Result<(), AllocError> {
        self.index.write_to(sink)?;
        self.error_code.write_to(sink)?;
        self.base_offset.write_to(sink)?;
        self.log_append_time_ms.write_to(sink)?;
        self.log_start_offset.write_to(sink)
    }
}

/// A topic, in the reply of Produce, version 5.
#[derive(Drop)]
pub struct ProduceTopicReplyV5<'a> {
    pub name: Text<'a>,
    pub partitions: Array<ProducePartitionReplyV5>,
}

impl<'a> Layout<'a> for ProduceTopicReplyV5<'a> {
    ghost use Rattle.kb_api_data.specs.ProduceV5.{produce_topic_reply_v5, produce_topic_reply_v5_lawful};

    ghost codec = { produce_topic_reply_v5 };

    ghost lawful = { produce_topic_reply_v5_lawful };

    #[tactic(auto, unfolding(crate::specs::ProduceV5::produce_topic_reply_v5))]
    fn read_from(
        alloc: Global,
        cursor: &mut Cursor<'a>,
    ) -> Result<ProduceTopicReplyV5<'a>, ReadFault> {
        Ok(ProduceTopicReplyV5 {
            name: Text::read_from(alloc, cursor)?,
            partitions: Array::read_from(alloc, cursor)?,
        })
    }

    #[tactic(auto, unfolding(crate::specs::ProduceV5::produce_topic_reply_v5))]
    fn write_to(&self, sink: &mut Sink) -> Result<(), AllocError> {
        self.name.write_to(sink)?;
        self.partitions.write_to(sink)
    }
}

/// The reply of Produce, version 5.
#[derive(Drop)]
pub struct ProduceReplyV5<'a> {
    pub topics: Array<ProduceTopicReplyV5<'a>>,
    pub throttle_time_ms: i32,
}

impl<'a> Layout<'a> for ProduceReplyV5<'a> {
    ghost use Rattle.kb_api_data.specs.ProduceV5.{produce_reply_v5, produce_reply_v5_lawful};

    ghost codec = { produce_reply_v5 };

    ghost lawful = { produce_reply_v5_lawful };

    #[tactic(auto, unfolding(crate::specs::ProduceV5::produce_reply_v5))]
    fn read_from(alloc: Global, cursor: &mut Cursor<'a>) -> Result<ProduceReplyV5<'a>, ReadFault> {
        Ok(ProduceReplyV5 {
            topics: Array::read_from(alloc, cursor)?,
            throttle_time_ms: i32::read_from(alloc, cursor)?,
        })
    }

    #[tactic(auto, unfolding(crate::specs::ProduceV5::produce_reply_v5))]
    fn write_to(&self, sink: &mut Sink) -> Result<(), AllocError> {
        self.topics.write_to(sink)?;
        self.throttle_time_ms.write_to(sink)
    }
}
