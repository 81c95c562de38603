//! OffsetFetch (Kafka protocol guide, key 9, version 1): the request and the reply.

use kb_wire::{Array, Cursor, Layout, ReadFault, Sink, Text};
use std::alloc::{AllocError, Global};

/// A topic and the partitions that are asked, in a request of OffsetFetch.
#[derive(Drop)]
pub struct OffsetFetchTopic<'a> {
    pub name: Text<'a>,
    pub partitions: Array<i32>,
}

impl<'a> Layout<'a> for OffsetFetchTopic<'a> {
    ghost use Rattle.kb_api_group.specs.Layouts.{offset_fetch_topic};
    ghost use Rattle.kb_api_group.specs.Lawful.{offset_fetch_topic_lawful};

    ghost codec = { offset_fetch_topic };

    ghost lawful = { offset_fetch_topic_lawful };

    #[tactic(auto, unfolding(crate::specs::Layouts::offset_fetch_topic))]
    fn read_from(
        alloc: Global,
        cursor: &mut Cursor<'a>,
    ) -> Result<OffsetFetchTopic<'a>, ReadFault> {
        Ok(OffsetFetchTopic {
            name: Text::read_from(alloc, cursor)?,
            partitions: Array::read_from(alloc, cursor)?,
        })
    }

    #[tactic(auto, unfolding(crate::specs::Layouts::offset_fetch_topic))]
    fn write_to(&self, sink: &mut Sink) -> Result<(), AllocError> {
        self.name.write_to(sink)?;
        self.partitions.write_to(sink)
    }
}

/// A request of OffsetFetch: which offsets has the group committed?
#[derive(Drop)]
pub struct OffsetFetchRequest<'a> {
    pub group_id: Text<'a>,
    pub topics: Array<OffsetFetchTopic<'a>>,
}

impl<'a> Layout<'a> for OffsetFetchRequest<'a> {
    ghost use Rattle.kb_api_group.specs.Layouts.{offset_fetch_request};
    ghost use Rattle.kb_api_group.specs.Lawful.{offset_fetch_request_lawful};

    ghost codec = { offset_fetch_request };

    ghost lawful = { offset_fetch_request_lawful };

    #[tactic(auto, unfolding(crate::specs::Layouts::offset_fetch_request))]
    fn read_from(
        alloc: Global,
        cursor: &mut Cursor<'a>,
    ) -> Result<OffsetFetchRequest<'a>, ReadFault> {
        Ok(OffsetFetchRequest {
            group_id: Text::read_from(alloc, cursor)?,
            topics: Array::read_from(alloc, cursor)?,
        })
    }

    #[tactic(auto, unfolding(crate::specs::Layouts::offset_fetch_request))]
    fn write_to(&self, sink: &mut Sink) -> Result<(), AllocError> {
        self.group_id.write_to(sink)?;
        self.topics.write_to(sink)
    }
}

/// The committed offset of a partition, or -1 for none, in the reply of OffsetFetch.
#[derive(Drop)]
pub struct OffsetFetchPartitionReply<'a> {
    pub partition: i32,
    pub offset: i64,
    pub metadata: Option<Text<'a>>,
    pub error_code: i16,
}

impl<'a> Layout<'a> for OffsetFetchPartitionReply<'a> {
    ghost use Rattle.kb_api_group.specs.Layouts.{offset_fetch_partition_reply};
    ghost use Rattle.kb_api_group.specs.Lawful.{offset_fetch_partition_reply_lawful};

    ghost codec = { offset_fetch_partition_reply };

    ghost lawful = { offset_fetch_partition_reply_lawful };

    #[tactic(auto, unfolding(crate::specs::Layouts::offset_fetch_partition_reply))]
    fn read_from(
        alloc: Global,
        cursor: &mut Cursor<'a>,
    ) -> Result<OffsetFetchPartitionReply<'a>, ReadFault> {
        Ok(OffsetFetchPartitionReply {
            partition: i32::read_from(alloc, cursor)?,
            offset: i64::read_from(alloc, cursor)?,
            metadata: Option::read_from(alloc, cursor)?,
            error_code: i16::read_from(alloc, cursor)?,
        })
    }

    #[tactic(auto, unfolding(crate::specs::Layouts::offset_fetch_partition_reply))]
    fn write_to(&self, sink: &mut Sink) -> Result<(), AllocError> {
        self.partition.write_to(sink)?;
        self.offset.write_to(sink)?;
        self.metadata.write_to(sink)?;
        self.error_code.write_to(sink)
    }
}

/// A topic, in the reply of OffsetFetch.
#[derive(Drop)]
pub struct OffsetFetchTopicReply<'a> {
    pub name: Text<'a>,
    pub partitions: Array<OffsetFetchPartitionReply<'a>>,
}

impl<'a> Layout<'a> for OffsetFetchTopicReply<'a> {
    ghost use Rattle.kb_api_group.specs.Layouts.{offset_fetch_topic_reply};
    ghost use Rattle.kb_api_group.specs.Lawful.{offset_fetch_topic_reply_lawful};

    ghost codec = { offset_fetch_topic_reply };

    ghost lawful = { offset_fetch_topic_reply_lawful };

    #[tactic(auto, unfolding(crate::specs::Layouts::offset_fetch_topic_reply))]
    fn read_from(
        alloc: Global,
        cursor: &mut Cursor<'a>,
    ) -> Result<OffsetFetchTopicReply<'a>, ReadFault> {
        Ok(OffsetFetchTopicReply {
            name: Text::read_from(alloc, cursor)?,
            partitions: Array::read_from(alloc, cursor)?,
        })
    }

    #[tactic(auto, unfolding(crate::specs::Layouts::offset_fetch_topic_reply))]
    fn write_to(&self, sink: &mut Sink) -> Result<(), AllocError> {
        self.name.write_to(sink)?;
        self.partitions.write_to(sink)
    }
}

/// The reply of OffsetFetch.
#[derive(Drop)]
pub struct OffsetFetchReply<'a> {
    pub topics: Array<OffsetFetchTopicReply<'a>>,
}

impl<'a> Layout<'a> for OffsetFetchReply<'a> {
    ghost use Rattle.kb_api_group.specs.Layouts.{offset_fetch_reply};
    ghost use Rattle.kb_api_group.specs.Lawful.{offset_fetch_reply_lawful};

    ghost codec = { offset_fetch_reply };

    ghost lawful = { offset_fetch_reply_lawful };

    #[tactic(auto, unfolding(crate::specs::Layouts::offset_fetch_reply))]
    fn read_from(
        alloc: Global,
        cursor: &mut Cursor<'a>,
    ) -> Result<OffsetFetchReply<'a>, ReadFault> {
        Ok(OffsetFetchReply {
            topics: Array::read_from(alloc, cursor)?,
        })
    }

    #[tactic(auto, unfolding(crate::specs::Layouts::offset_fetch_reply))]
    fn write_to(&self, sink: &mut Sink) -> Result<(), AllocError> {
        self.topics.write_to(sink)
    }
}
