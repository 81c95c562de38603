//! Fetch, version 4 (Kafka protocol guide). Records asked from offsets on, and the whole batches that are given.

use kb_wire::{Array, Blob, Cursor, Layout, ReadFault, Sink, Text};
use std::alloc::{AllocError, Global};

/// A partition, in a request of Fetch.
#[derive(Drop)]
pub struct FetchPartition {
    pub partition: i32,
    pub fetch_offset: i64,
    pub partition_max_bytes: i32,
}

impl<'a> Layout<'a> for FetchPartition {
    ghost use Rattle.kb_api_data.specs.Layouts.{fetch_partition};
    ghost use Rattle.kb_api_data.specs.Lawful.{fetch_partition_lawful};

    ghost codec = { fetch_partition };

    ghost lawful = { fetch_partition_lawful };

    #[tactic(auto, unfolding(crate::specs::Layouts::fetch_partition))]
    fn read_from(alloc: Global, cursor: &mut Cursor<'a>) -> Result<FetchPartition, ReadFault> {
        Ok(FetchPartition {
            partition: i32::read_from(alloc, cursor)?,
            fetch_offset: i64::read_from(alloc, cursor)?,
            partition_max_bytes: i32::read_from(alloc, cursor)?,
        })
    }

    #[tactic(auto, unfolding(crate::specs::Layouts::fetch_partition))]
    fn write_to(&self, sink: &mut Sink) -> Result<(), AllocError> {
        self.partition.write_to(sink)?;
        self.fetch_offset.write_to(sink)?;
        self.partition_max_bytes.write_to(sink)
    }
}

/// A topic, in a request of Fetch.
#[derive(Drop)]
pub struct FetchTopic<'a> {
    pub topic: Text<'a>,
    pub partitions: Array<FetchPartition>,
}

impl<'a> Layout<'a> for FetchTopic<'a> {
    ghost use Rattle.kb_api_data.specs.Layouts.{fetch_topic};
    ghost use Rattle.kb_api_data.specs.Lawful.{fetch_topic_lawful};

    ghost codec = { fetch_topic };

    ghost lawful = { fetch_topic_lawful };

    #[tactic(auto, unfolding(crate::specs::Layouts::fetch_topic))]
    fn read_from(alloc: Global, cursor: &mut Cursor<'a>) -> Result<FetchTopic<'a>, ReadFault> {
        Ok(FetchTopic {
            topic: Text::read_from(alloc, cursor)?,
            partitions: Array::read_from(alloc, cursor)?,
        })
    }

    #[tactic(auto, unfolding(crate::specs::Layouts::fetch_topic))]
    fn write_to(&self, sink: &mut Sink) -> Result<(), AllocError> {
        self.topic.write_to(sink)?;
        self.partitions.write_to(sink)
    }
}

/// A request of Fetch, version 4.
#[derive(Drop)]
pub struct FetchRequest<'a> {
    pub replica_id: i32,
    pub max_wait_ms: i32,
    pub min_bytes: i32,
    pub max_bytes: i32,
    pub isolation_level: i8,
    pub topics: Array<FetchTopic<'a>>,
}

impl<'a> Layout<'a> for FetchRequest<'a> {
    ghost use Rattle.kb_api_data.specs.Layouts.{fetch_request};
    ghost use Rattle.kb_api_data.specs.Lawful.{fetch_request_lawful};

    ghost codec = { fetch_request };

    ghost lawful = { fetch_request_lawful };

    #[tactic(auto, unfolding(crate::specs::Layouts::fetch_request))]
    fn read_from(alloc: Global, cursor: &mut Cursor<'a>) -> Result<FetchRequest<'a>, ReadFault> {
        Ok(FetchRequest {
            replica_id: i32::read_from(alloc, cursor)?,
            max_wait_ms: i32::read_from(alloc, cursor)?,
            min_bytes: i32::read_from(alloc, cursor)?,
            max_bytes: i32::read_from(alloc, cursor)?,
            isolation_level: i8::read_from(alloc, cursor)?,
            topics: Array::read_from(alloc, cursor)?,
        })
    }

    #[tactic(auto, unfolding(crate::specs::Layouts::fetch_request))]
    fn write_to(&self, sink: &mut Sink) -> Result<(), AllocError> {
        self.replica_id.write_to(sink)?;
        self.max_wait_ms.write_to(sink)?;
        self.min_bytes.write_to(sink)?;
        self.max_bytes.write_to(sink)?;
        self.isolation_level.write_to(sink)?;
        self.topics.write_to(sink)
    }
}

/// A transaction, in the reply of Fetch.
#[derive(Drop)]
pub struct AbortedTransaction {
    pub producer_id: i64,
    pub first_offset: i64,
}

impl<'a> Layout<'a> for AbortedTransaction {
    ghost use Rattle.kb_api_data.specs.Layouts.{aborted_transaction};
    ghost use Rattle.kb_api_data.specs.Lawful.{aborted_transaction_lawful};

    ghost codec = { aborted_transaction };

    ghost lawful = { aborted_transaction_lawful };

    #[tactic(auto, unfolding(crate::specs::Layouts::aborted_transaction))]
    fn read_from(alloc: Global, cursor: &mut Cursor<'a>) -> Result<AbortedTransaction, ReadFault> {
        Ok(AbortedTransaction {
            producer_id: i64::read_from(alloc, cursor)?,
            first_offset: i64::read_from(alloc, cursor)?,
        })
    }

    #[tactic(auto, unfolding(crate::specs::Layouts::aborted_transaction))]
    fn write_to(&self, sink: &mut Sink) -> Result<(), AllocError> {
        self.producer_id.write_to(sink)?;
        self.first_offset.write_to(sink)
    }
}

/// A partition, in the reply of Fetch.
#[derive(Drop)]
pub struct FetchPartitionReply<'a> {
    pub partition: i32,
    pub error_code: i16,
    pub high_watermark: i64,
    pub last_stable_offset: i64,
    pub aborted_transactions: Option<Array<AbortedTransaction>>,
    pub records: Option<Blob<'a>>,
}

impl<'a> Layout<'a> for FetchPartitionReply<'a> {
    ghost use Rattle.kb_api_data.specs.Layouts.{fetch_partition_reply};
    ghost use Rattle.kb_api_data.specs.Lawful.{fetch_partition_reply_lawful};

    ghost codec = { fetch_partition_reply };

    ghost lawful = { fetch_partition_reply_lawful };

    #[tactic(auto, unfolding(crate::specs::Layouts::fetch_partition_reply))]
    fn read_from(
        alloc: Global,
        cursor: &mut Cursor<'a>,
    ) -> Result<FetchPartitionReply<'a>, ReadFault> {
        Ok(FetchPartitionReply {
            partition: i32::read_from(alloc, cursor)?,
            error_code: i16::read_from(alloc, cursor)?,
            high_watermark: i64::read_from(alloc, cursor)?,
            last_stable_offset: i64::read_from(alloc, cursor)?,
            aborted_transactions: Option::read_from(alloc, cursor)?,
            records: Option::read_from(alloc, cursor)?,
        })
    }

    #[tactic(auto, unfolding(crate::specs::Layouts::fetch_partition_reply))]
    fn write_to(&self, sink: &mut Sink) -> Result<(), AllocError> {
        self.partition.write_to(sink)?;
        self.error_code.write_to(sink)?;
        self.high_watermark.write_to(sink)?;
        self.last_stable_offset.write_to(sink)?;
        self.aborted_transactions.write_to(sink)?;
        self.records.write_to(sink)
    }
}

/// A topic, in the reply of Fetch.
#[derive(Drop)]
pub struct FetchTopicReply<'a> {
    pub topic: Text<'a>,
    pub partitions: Array<FetchPartitionReply<'a>>,
}

impl<'a> Layout<'a> for FetchTopicReply<'a> {
    ghost use Rattle.kb_api_data.specs.Layouts.{fetch_topic_reply};
    ghost use Rattle.kb_api_data.specs.Lawful.{fetch_topic_reply_lawful};

    ghost codec = { fetch_topic_reply };

    ghost lawful = { fetch_topic_reply_lawful };

    #[tactic(auto, unfolding(crate::specs::Layouts::fetch_topic_reply))]
    fn read_from(alloc: Global, cursor: &mut Cursor<'a>) -> Result<FetchTopicReply<'a>, ReadFault> {
        Ok(FetchTopicReply {
            topic: Text::read_from(alloc, cursor)?,
            partitions: Array::read_from(alloc, cursor)?,
        })
    }

    #[tactic(auto, unfolding(crate::specs::Layouts::fetch_topic_reply))]
    fn write_to(&self, sink: &mut Sink) -> Result<(), AllocError> {
        self.topic.write_to(sink)?;
        self.partitions.write_to(sink)
    }
}

/// The reply of Fetch, version 4.
#[derive(Drop)]
pub struct FetchReply<'a> {
    pub throttle_time_ms: i32,
    pub topics: Array<FetchTopicReply<'a>>,
}

impl<'a> Layout<'a> for FetchReply<'a> {
    ghost use Rattle.kb_api_data.specs.Layouts.{fetch_reply};
    ghost use Rattle.kb_api_data.specs.Lawful.{fetch_reply_lawful};

    ghost codec = { fetch_reply };

    ghost lawful = { fetch_reply_lawful };

    #[tactic(auto, unfolding(crate::specs::Layouts::fetch_reply))]
    fn read_from(alloc: Global, cursor: &mut Cursor<'a>) -> Result<FetchReply<'a>, ReadFault> {
        Ok(FetchReply {
            throttle_time_ms: i32::read_from(alloc, cursor)?,
            topics: Array::read_from(alloc, cursor)?,
        })
    }

    #[tactic(auto, unfolding(crate::specs::Layouts::fetch_reply))]
    fn write_to(&self, sink: &mut Sink) -> Result<(), AllocError> {
        self.throttle_time_ms.write_to(sink)?;
        self.topics.write_to(sink)
    }
}
