//! DeleteRecords, version 0 (Kafka protocol guide). Partitions whose records before an offset are deleted, and where each starts then.

use kb_wire::{Array, Cursor, Layout, ReadFault, Sink, Text};
use std::alloc::{AllocError, Global};

/// A partition, in a request of DeleteRecords.
#[derive(Drop)]
pub struct DeleteRecordsPartition {
    pub partition: i32,
    /// The records before this offset are deleted; -1 means the end.
    pub offset: i64,
}

impl<'a> Layout<'a> for DeleteRecordsPartition {
    ghost use Rattle.kb_api_data.specs.Layouts.{delete_records_partition};
    ghost use Rattle.kb_api_data.specs.Lawful.{delete_records_partition_lawful};

    ghost codec = { delete_records_partition };

    ghost lawful = { delete_records_partition_lawful };

    #[tactic(auto, unfolding(crate::specs::Layouts::delete_records_partition))]
    fn read_from(
        alloc: Global,
        cursor: &mut Cursor<'a>,
    ) -> Result<DeleteRecordsPartition, ReadFault> {
        Ok(DeleteRecordsPartition {
            partition: i32::read_from(alloc, cursor)?,
            offset: i64::read_from(alloc, cursor)?,
        })
    }

    #[tactic(auto, unfolding(crate::specs::Layouts::delete_records_partition))]
    fn write_to(&self, sink: &mut Sink) -> Result<(), AllocError> {
        self.partition.write_to(sink)?;
        self.offset.write_to(sink)
    }
}

/// A topic, in a request of DeleteRecords.
#[derive(Drop)]
pub struct DeleteRecordsTopic<'a> {
    pub name: Text<'a>,
    pub partitions: Array<DeleteRecordsPartition>,
}

impl<'a> Layout<'a> for DeleteRecordsTopic<'a> {
    ghost use Rattle.kb_api_data.specs.Layouts.{delete_records_topic};
    ghost use Rattle.kb_api_data.specs.Lawful.{delete_records_topic_lawful};

    ghost codec = { delete_records_topic };

    ghost lawful = { delete_records_topic_lawful };

    #[tactic(auto, unfolding(crate::specs::Layouts::delete_records_topic))]
    fn read_from(
        alloc: Global,
        cursor: &mut Cursor<'a>,
    ) -> Result<DeleteRecordsTopic<'a>, ReadFault> {
        Ok(DeleteRecordsTopic {
            name: Text::read_from(alloc, cursor)?,
            partitions: Array::read_from(alloc, cursor)?,
        })
    }

    #[tactic(auto, unfolding(crate::specs::Layouts::delete_records_topic))]
    fn write_to(&self, sink: &mut Sink) -> Result<(), AllocError> {
        self.name.write_to(sink)?;
        self.partitions.write_to(sink)
    }
}

/// A request of DeleteRecords, version 0.
#[derive(Drop)]
pub struct DeleteRecordsRequest<'a> {
    pub topics: Array<DeleteRecordsTopic<'a>>,
    pub timeout_ms: i32,
}

impl<'a> Layout<'a> for DeleteRecordsRequest<'a> {
    ghost use Rattle.kb_api_data.specs.Layouts.{delete_records_request};
    ghost use Rattle.kb_api_data.specs.Lawful.{delete_records_request_lawful};

    ghost codec = { delete_records_request };

    ghost lawful = { delete_records_request_lawful };

    #[tactic(auto, unfolding(crate::specs::Layouts::delete_records_request))]
    fn read_from(
        alloc: Global,
        cursor: &mut Cursor<'a>,
    ) -> Result<DeleteRecordsRequest<'a>, ReadFault> {
        Ok(DeleteRecordsRequest {
            topics: Array::read_from(alloc, cursor)?,
            timeout_ms: i32::read_from(alloc, cursor)?,
        })
    }

    #[tactic(auto, unfolding(crate::specs::Layouts::delete_records_request))]
    fn write_to(&self, sink: &mut Sink) -> Result<(), AllocError> {
        self.topics.write_to(sink)?;
        self.timeout_ms.write_to(sink)
    }
}

/// A partition, in the reply of DeleteRecords.
#[derive(Drop)]
pub struct DeleteRecordsPartitionReply {
    pub partition: i32,
    /// The offset that the partition starts at; -1 where it is refused.
    pub low_watermark: i64,
    pub error_code: i16,
}

impl<'a> Layout<'a> for DeleteRecordsPartitionReply {
    ghost use Rattle.kb_api_data.specs.Layouts.{delete_records_partition_reply};
    ghost use Rattle.kb_api_data.specs.Lawful.{delete_records_partition_reply_lawful};

    ghost codec = { delete_records_partition_reply };

    ghost lawful = { delete_records_partition_reply_lawful };

    #[tactic(auto, unfolding(crate::specs::Layouts::delete_records_partition_reply))]
    fn read_from(
        alloc: Global,
        cursor: &mut Cursor<'a>,
    ) -> Result<DeleteRecordsPartitionReply, ReadFault> {
        Ok(DeleteRecordsPartitionReply {
            partition: i32::read_from(alloc, cursor)?,
            low_watermark: i64::read_from(alloc, cursor)?,
            error_code: i16::read_from(alloc, cursor)?,
        })
    }

    #[tactic(auto, unfolding(crate::specs::Layouts::delete_records_partition_reply))]
    fn write_to(&self, sink: &mut Sink) -> Result<(), AllocError> {
        self.partition.write_to(sink)?;
        self.low_watermark.write_to(sink)?;
        self.error_code.write_to(sink)
    }
}

/// A topic, in the reply of DeleteRecords.
#[derive(Drop)]
pub struct DeleteRecordsTopicReply<'a> {
    pub name: Text<'a>,
    pub partitions: Array<DeleteRecordsPartitionReply>,
}

impl<'a> Layout<'a> for DeleteRecordsTopicReply<'a> {
    ghost use Rattle.kb_api_data.specs.Layouts.{delete_records_topic_reply};
    ghost use Rattle.kb_api_data.specs.Lawful.{delete_records_topic_reply_lawful};

    ghost codec = { delete_records_topic_reply };

    ghost lawful = { delete_records_topic_reply_lawful };

    #[tactic(auto, unfolding(crate::specs::Layouts::delete_records_topic_reply))]
    fn read_from(
        alloc: Global,
        cursor: &mut Cursor<'a>,
    ) -> Result<DeleteRecordsTopicReply<'a>, ReadFault> {
        Ok(DeleteRecordsTopicReply {
            name: Text::read_from(alloc, cursor)?,
            partitions: Array::read_from(alloc, cursor)?,
        })
    }

    #[tactic(auto, unfolding(crate::specs::Layouts::delete_records_topic_reply))]
    fn write_to(&self, sink: &mut Sink) -> Result<(), AllocError> {
        self.name.write_to(sink)?;
        self.partitions.write_to(sink)
    }
}

/// The reply of DeleteRecords, version 0.
#[derive(Drop)]
pub struct DeleteRecordsReply<'a> {
    pub throttle_time_ms: i32,
    pub topics: Array<DeleteRecordsTopicReply<'a>>,
}

impl<'a> Layout<'a> for DeleteRecordsReply<'a> {
    ghost use Rattle.kb_api_data.specs.Layouts.{delete_records_reply};
    ghost use Rattle.kb_api_data.specs.Lawful.{delete_records_reply_lawful};

    ghost codec = { delete_records_reply };

    ghost lawful = { delete_records_reply_lawful };

    #[tactic(auto, unfolding(crate::specs::Layouts::delete_records_reply))]
    fn read_from(
        alloc: Global,
        cursor: &mut Cursor<'a>,
    ) -> Result<DeleteRecordsReply<'a>, ReadFault> {
        Ok(DeleteRecordsReply {
            throttle_time_ms: i32::read_from(alloc, cursor)?,
            topics: Array::read_from(alloc, cursor)?,
        })
    }

    #[tactic(auto, unfolding(crate::specs::Layouts::delete_records_reply))]
    fn write_to(&self, sink: &mut Sink) -> Result<(), AllocError> {
        self.throttle_time_ms.write_to(sink)?;
        self.topics.write_to(sink)
    }
}
