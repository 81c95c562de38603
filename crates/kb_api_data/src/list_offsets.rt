//! ListOffsets, version 1 (Kafka protocol guide). Offsets asked by time: -1 is the end of a partition, -2 its start.

use kb_wire::{Array, Cursor, Layout, ReadFault, Sink, Text};
use std::alloc::{AllocError, Global};

/// A partition, in a request of ListOffsets.
#[derive(Drop)]
pub struct ListOffsetsPartition {
    pub partition: i32,
    pub timestamp: i64,
}

impl<'a> Layout<'a> for ListOffsetsPartition {
    ghost use Rattle.kb_api_data.specs.Layouts.{list_offsets_partition};
    ghost use Rattle.kb_api_data.specs.Lawful.{list_offsets_partition_lawful};

    ghost codec = { list_offsets_partition };

    ghost lawful = { list_offsets_partition_lawful };

    #[tactic(auto, unfolding(crate::specs::Layouts::list_offsets_partition))]
    fn read_from(
        alloc: Global,
        cursor: &mut Cursor<'a>,
    ) -> Result<ListOffsetsPartition, ReadFault> {
        Ok(ListOffsetsPartition {
            partition: i32::read_from(alloc, cursor)?,
            timestamp: i64::read_from(alloc, cursor)?,
        })
    }

    #[tactic(auto, unfolding(crate::specs::Layouts::list_offsets_partition))]
    fn write_to(&self, sink: &mut Sink) -> Result<(), AllocError> {
        self.partition.write_to(sink)?;
        self.timestamp.write_to(sink)
    }
}

/// A topic, in a request of ListOffsets.
#[derive(Drop)]
pub struct ListOffsetsTopic<'a> {
    pub name: Text<'a>,
    pub partitions: Array<ListOffsetsPartition>,
}

impl<'a> Layout<'a> for ListOffsetsTopic<'a> {
    ghost use Rattle.kb_api_data.specs.Layouts.{list_offsets_topic};
    ghost use Rattle.kb_api_data.specs.Lawful.{list_offsets_topic_lawful};

    ghost codec = { list_offsets_topic };

    ghost lawful = { list_offsets_topic_lawful };

    #[tactic(auto, unfolding(crate::specs::Layouts::list_offsets_topic))]
    fn read_from(
        alloc: Global,
        cursor: &mut Cursor<'a>,
    ) -> Result<ListOffsetsTopic<'a>, ReadFault> {
        Ok(ListOffsetsTopic {
            name: Text::read_from(alloc, cursor)?,
            partitions: Array::read_from(alloc, cursor)?,
        })
    }

    #[tactic(auto, unfolding(crate::specs::Layouts::list_offsets_topic))]
    fn write_to(&self, sink: &mut Sink) -> Result<(), AllocError> {
        self.name.write_to(sink)?;
        self.partitions.write_to(sink)
    }
}

/// A request of ListOffsets, version 1.
#[derive(Drop)]
pub struct ListOffsetsRequest<'a> {
    pub replica_id: i32,
    pub topics: Array<ListOffsetsTopic<'a>>,
}

impl<'a> Layout<'a> for ListOffsetsRequest<'a> {
    ghost use Rattle.kb_api_data.specs.Layouts.{list_offsets_request};
    ghost use Rattle.kb_api_data.specs.Lawful.{list_offsets_request_lawful};

    ghost codec = { list_offsets_request };

    ghost lawful = { list_offsets_request_lawful };

    #[tactic(auto, unfolding(crate::specs::Layouts::list_offsets_request))]
    fn read_from(
        alloc: Global,
        cursor: &mut Cursor<'a>,
    ) -> Result<ListOffsetsRequest<'a>, ReadFault> {
        Ok(ListOffsetsRequest {
            replica_id: i32::read_from(alloc, cursor)?,
            topics: Array::read_from(alloc, cursor)?,
        })
    }

    #[tactic(auto, unfolding(crate::specs::Layouts::list_offsets_request))]
    fn write_to(&self, sink: &mut Sink) -> Result<(), AllocError> {
        self.replica_id.write_to(sink)?;
        self.topics.write_to(sink)
    }
}

/// A partition, in the reply of ListOffsets.
#[derive(Drop)]
pub struct ListOffsetsPartitionReply {
    pub partition: i32,
    pub error_code: i16,
    pub timestamp: i64,
    pub offset: i64,
}

impl<'a> Layout<'a> for ListOffsetsPartitionReply {
    ghost use Rattle.kb_api_data.specs.Layouts.{list_offsets_partition_reply};
    ghost use Rattle.kb_api_data.specs.Lawful.{list_offsets_partition_reply_lawful};

    ghost codec = { list_offsets_partition_reply };

    ghost lawful = { list_offsets_partition_reply_lawful };

    #[tactic(auto, unfolding(crate::specs::Layouts::list_offsets_partition_reply))]
    fn read_from(
        alloc: Global,
        cursor: &mut Cursor<'a>,
    ) -> Result<ListOffsetsPartitionReply, ReadFault> {
        Ok(ListOffsetsPartitionReply {
            partition: i32::read_from(alloc, cursor)?,
            error_code: i16::read_from(alloc, cursor)?,
            timestamp: i64::read_from(alloc, cursor)?,
            offset: i64::read_from(alloc, cursor)?,
        })
    }

    #[tactic(auto, unfolding(crate::specs::Layouts::list_offsets_partition_reply))]
    fn write_to(&self, sink: &mut Sink) -> Result<(), AllocError> {
        self.partition.write_to(sink)?;
        self.error_code.write_to(sink)?;
        self.timestamp.write_to(sink)?;
        self.offset.write_to(sink)
    }
}

/// A topic, in the reply of ListOffsets.
#[derive(Drop)]
pub struct ListOffsetsTopicReply<'a> {
    pub name: Text<'a>,
    pub partitions: Array<ListOffsetsPartitionReply>,
}

impl<'a> Layout<'a> for ListOffsetsTopicReply<'a> {
    ghost use Rattle.kb_api_data.specs.Layouts.{list_offsets_topic_reply};
    ghost use Rattle.kb_api_data.specs.Lawful.{list_offsets_topic_reply_lawful};

    ghost codec = { list_offsets_topic_reply };

    ghost lawful = { list_offsets_topic_reply_lawful };

    #[tactic(auto, unfolding(crate::specs::Layouts::list_offsets_topic_reply))]
    fn read_from(
        alloc: Global,
        cursor: &mut Cursor<'a>,
    ) -> Result<ListOffsetsTopicReply<'a>, ReadFault> {
        Ok(ListOffsetsTopicReply {
            name: Text::read_from(alloc, cursor)?,
            partitions: Array::read_from(alloc, cursor)?,
        })
    }

    #[tactic(auto, unfolding(crate::specs::Layouts::list_offsets_topic_reply))]
    fn write_to(&self, sink: &mut Sink) -> Result<(), AllocError> {
        self.name.write_to(sink)?;
        self.partitions.write_to(sink)
    }
}

/// The reply of ListOffsets, version 1.
#[derive(Drop)]
pub struct ListOffsetsReply<'a> {
    pub topics: Array<ListOffsetsTopicReply<'a>>,
}

impl<'a> Layout<'a> for ListOffsetsReply<'a> {
    ghost use Rattle.kb_api_data.specs.Layouts.{list_offsets_reply};
    ghost use Rattle.kb_api_data.specs.Lawful.{list_offsets_reply_lawful};

    ghost codec = { list_offsets_reply };

    ghost lawful = { list_offsets_reply_lawful };

    #[tactic(auto, unfolding(crate::specs::Layouts::list_offsets_reply))]
    fn read_from(
        alloc: Global,
        cursor: &mut Cursor<'a>,
    ) -> Result<ListOffsetsReply<'a>, ReadFault> {
        Ok(ListOffsetsReply {
            topics: Array::read_from(alloc, cursor)?,
        })
    }

    #[tactic(auto, unfolding(crate::specs::Layouts::list_offsets_reply))]
    fn write_to(&self, sink: &mut Sink) -> Result<(), AllocError> {
        self.topics.write_to(sink)
    }
}
