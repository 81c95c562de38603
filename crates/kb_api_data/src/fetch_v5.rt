//! Fetch, version 5 (Kafka protocol guide). As version 4, with the offsets that logs start at.

use crate::fetch::AbortedTransaction;
use kb_wire::{Array, Blob, Cursor, Layout, ReadFault, Sink, Text};
use std::alloc::{AllocError, Global};

/// A partition, in a request of Fetch, version 5.
#[derive(Drop)]
pub struct FetchPartitionV5 {
    pub partition: i32,
    pub fetch_offset: i64,
    /// The offset that a follower's log starts at. The broker ignores it.
    pub log_start_offset: i64,
    pub partition_max_bytes: i32,
}

impl<'a> Layout<'a> for FetchPartitionV5 {
    ghost use Rattle.kb_api_data.specs.Layouts.{fetch_partition_v5};
    ghost use Rattle.kb_api_data.specs.Lawful.{fetch_partition_v5_lawful};

    ghost codec = { fetch_partition_v5 };

    ghost lawful = { fetch_partition_v5_lawful };

    #[tactic(auto, unfolding(crate::specs::Layouts::fetch_partition_v5))]
    fn read_from(alloc: Global, cursor: &mut Cursor<'a>) -> Result<FetchPartitionV5, ReadFault> {
        Ok(FetchPartitionV5 {
            partition: i32::read_from(alloc, cursor)?,
            fetch_offset: i64::read_from(alloc, cursor)?,
            log_start_offset: i64::read_from(alloc, cursor)?,
            partition_max_bytes: i32::read_from(alloc, cursor)?,
        })
    }

    #[tactic(auto, unfolding(crate::specs::Layouts::fetch_partition_v5))]
    fn write_to(&self, sink: &mut Sink) -> Result<(), AllocError> {
        self.partition.write_to(sink)?;
        self.fetch_offset.write_to(sink)?;
        self.log_start_offset.write_to(sink)?;
        self.partition_max_bytes.write_to(sink)
    }
}

/// A topic, in a request of Fetch, version 5.
#[derive(Drop)]
pub struct FetchTopicV5<'a> {
    pub topic: Text<'a>,
    pub partitions: Array<FetchPartitionV5>,
}

impl<'a> Layout<'a> for FetchTopicV5<'a> {
    ghost use Rattle.kb_api_data.specs.Layouts.{fetch_topic_v5};
    ghost use Rattle.kb_api_data.specs.Lawful.{fetch_topic_v5_lawful};

    ghost codec = { fetch_topic_v5 };

    ghost lawful = { fetch_topic_v5_lawful };

    #[tactic(auto, unfolding(crate::specs::Layouts::fetch_topic_v5))]
    fn read_from(alloc: Global, cursor: &mut Cursor<'a>) -> Result<FetchTopicV5<'a>, ReadFault> {
        Ok(FetchTopicV5 {
            topic: Text::read_from(alloc, cursor)?,
            partitions: Array::read_from(alloc, cursor)?,
        })
    }

    #[tactic(auto, unfolding(crate::specs::Layouts::fetch_topic_v5))]
    fn write_to(&self, sink: &mut Sink) -> Result<(), AllocError> {
        self.topic.write_to(sink)?;
        self.partitions.write_to(sink)
    }
}

/// A request of Fetch, version 5.
#[derive(Drop)]
pub struct FetchRequestV5<'a> {
    pub replica_id: i32,
    pub max_wait_ms: i32,
    pub min_bytes: i32,
    pub max_bytes: i32,
    pub isolation_level: i8,
    pub topics: Array<FetchTopicV5<'a>>,
}

impl<'a> Layout<'a> for FetchRequestV5<'a> {
    ghost use Rattle.kb_api_data.specs.Layouts.{fetch_request_v5};
    ghost use Rattle.kb_api_data.specs.Lawful.{fetch_request_v5_lawful};

    ghost codec = { fetch_request_v5 };

    ghost lawful = { fetch_request_v5_lawful };

    #[tactic(auto, unfolding(crate::specs::Layouts::fetch_request_v5))]
    fn read_from(alloc: Global, cursor: &mut Cursor<'a>) -> Result<FetchRequestV5<'a>, ReadFault> {
        Ok(FetchRequestV5 {
            replica_id: i32::read_from(alloc, cursor)?,
            max_wait_ms: i32::read_from(alloc, cursor)?,
            min_bytes: i32::read_from(alloc, cursor)?,
            max_bytes: i32::read_from(alloc, cursor)?,
            isolation_level: i8::read_from(alloc, cursor)?,
            topics: Array::read_from(alloc, cursor)?,
        })
    }

    #[tactic(auto, unfolding(crate::specs::Layouts::fetch_request_v5))]
    fn write_to(&self, sink: &mut Sink) -> Result<(), AllocError> {
        self.replica_id.write_to(sink)?;
        self.max_wait_ms.write_to(sink)?;
        self.min_bytes.write_to(sink)?;
        self.max_bytes.write_to(sink)?;
        self.isolation_level.write_to(sink)?;
        self.topics.write_to(sink)
    }
}

/// A partition, in the reply of Fetch, version 5.
#[derive(Drop)]
pub struct FetchPartitionReplyV5<'a> {
    pub partition: i32,
    pub error_code: i16,
    pub high_watermark: i64,
    pub last_stable_offset: i64,
    pub log_start_offset: i64,
    pub aborted_transactions: Option<Array<AbortedTransaction>>,
    pub records: Option<Blob<'a>>,
}

impl<'a> Layout<'a> for FetchPartitionReplyV5<'a> {
    ghost use Rattle.kb_api_data.specs.Layouts.{fetch_partition_reply_v5};
    ghost use Rattle.kb_api_data.specs.Lawful.{fetch_partition_reply_v5_lawful};

    ghost codec = { fetch_partition_reply_v5 };

    ghost lawful = { fetch_partition_reply_v5_lawful };

    #[tactic(auto, unfolding(crate::specs::Layouts::fetch_partition_reply_v5))]
    fn read_from(
        alloc: Global,
        cursor: &mut Cursor<'a>,
    ) -> Result<FetchPartitionReplyV5<'a>, ReadFault> {
        Ok(FetchPartitionReplyV5 {
            partition: i32::read_from(alloc, cursor)?,
            error_code: i16::read_from(alloc, cursor)?,
            high_watermark: i64::read_from(alloc, cursor)?,
            last_stable_offset: i64::read_from(alloc, cursor)?,
            log_start_offset: i64::read_from(alloc, cursor)?,
            aborted_transactions: Option::read_from(alloc, cursor)?,
            records: Option::read_from(alloc, cursor)?,
        })
    }

    #[tactic(auto, unfolding(crate::specs::Layouts::fetch_partition_reply_v5))]
    fn write_to(&self, sink: &mut Sink) -> Result<(), AllocError> {
        self.partition.write_to(sink)?;
        self.error_code.write_to(sink)?;
        self.high_watermark.write_to(sink)?;
        self.last_stable_offset.write_to(sink)?;
        self.log_start_offset.write_to(sink)?;
        self.aborted_transactions.write_to(sink)?;
        self.records.write_to(sink)
    }
}

/// A topic, in the reply of Fetch, version 5.
#[derive(Drop)]
pub struct FetchTopicReplyV5<'a> {
    pub topic: Text<'a>,
    pub partitions: Array<FetchPartitionReplyV5<'a>>,
}

impl<'a> Layout<'a> for FetchTopicReplyV5<'a> {
    ghost use Rattle.kb_api_data.specs.Layouts.{fetch_topic_reply_v5};
    ghost use Rattle.kb_api_data.specs.Lawful.{fetch_topic_reply_v5_lawful};

    ghost codec = { fetch_topic_reply_v5 };

    ghost lawful = { fetch_topic_reply_v5_lawful };

    #[tactic(auto, unfolding(crate::specs::Layouts::fetch_topic_reply_v5))]
    fn read_from(
        alloc: Global,
        cursor: &mut Cursor<'a>,
    ) -> Result<FetchTopicReplyV5<'a>, ReadFault> {
        Ok(FetchTopicReplyV5 {
            topic: Text::read_from(alloc, cursor)?,
            partitions: Array::read_from(alloc, cursor)?,
        })
    }

    #[tactic(auto, unfolding(crate::specs::Layouts::fetch_topic_reply_v5))]
    fn write_to(&self, sink: &mut Sink) -> Result<(), AllocError> {
        self.topic.write_to(sink)?;
        self.partitions.write_to(sink)
    }
}

/// The reply of Fetch, version 5.
#[derive(Drop)]
pub struct FetchReplyV5<'a> {
    pub throttle_time_ms: i32,
    pub topics: Array<FetchTopicReplyV5<'a>>,
}

impl<'a> Layout<'a> for FetchReplyV5<'a> {
    ghost use Rattle.kb_api_data.specs.Layouts.{fetch_reply_v5};
    ghost use Rattle.kb_api_data.specs.Lawful.{fetch_reply_v5_lawful};

    ghost codec = { fetch_reply_v5 };

    ghost lawful = { fetch_reply_v5_lawful };

    #[tactic(auto, unfolding(crate::specs::Layouts::fetch_reply_v5))]
    fn read_from(alloc: Global, cursor: &mut Cursor<'a>) -> Result<FetchReplyV5<'a>, ReadFault> {
        Ok(FetchReplyV5 {
            throttle_time_ms: i32::read_from(alloc, cursor)?,
            topics: Array::read_from(alloc, cursor)?,
        })
    }

    #[tactic(auto, unfolding(crate::specs::Layouts::fetch_reply_v5))]
    fn write_to(&self, sink: &mut Sink) -> Result<(), AllocError> {
        self.throttle_time_ms.write_to(sink)?;
        self.topics.write_to(sink)
    }
}
