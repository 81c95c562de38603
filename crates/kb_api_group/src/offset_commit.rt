//! OffsetCommit (Kafka protocol guide, key 8, version 2): the request and the reply.

use kb_wire::{Array, Cursor, Layout, ReadFault, Sink, Text};
use std::alloc::{AllocError, Global};

/// The offset that a group has reached in a partition, in a request of OffsetCommit.
#[derive(Drop)]
pub struct CommitPartition<'a> {
    pub partition: i32,
    pub offset: i64,
    pub metadata: Option<Text<'a>>,
}

impl<'a> Layout<'a> for CommitPartition<'a> {
    ghost use Rattle.kb_api_group.specs.Layouts.{commit_partition};
    ghost use Rattle.kb_api_group.specs.Lawful.{commit_partition_lawful};

    ghost codec = { commit_partition };

    ghost lawful = { commit_partition_lawful };

    #[tactic(auto, unfolding(crate::specs::Layouts::commit_partition))]
    fn read_from(alloc: Global, cursor: &mut Cursor<'a>) -> Result<CommitPartition<'a>, ReadFault> {
        Ok(CommitPartition {
            partition: i32::read_from(alloc, cursor)?,
            offset: i64::read_from(alloc, cursor)?,
            metadata: Option::read_from(alloc, cursor)?,
        })
    }

    #[tactic(auto, unfolding(crate::specs::Layouts::commit_partition))]
    fn write_to(&self, sink: &mut Sink) -> Result<(), AllocError> {
        self.partition.write_to(sink)?;
        self.offset.write_to(sink)?;
        self.metadata.write_to(sink)
    }
}

/// A topic, in a request of OffsetCommit.
#[derive(Drop)]
pub struct CommitTopic<'a> {
    pub name: Text<'a>,
    pub partitions: Array<CommitPartition<'a>>,
}

impl<'a> Layout<'a> for CommitTopic<'a> {
    ghost use Rattle.kb_api_group.specs.Layouts.{commit_topic};
    ghost use Rattle.kb_api_group.specs.Lawful.{commit_topic_lawful};

    ghost codec = { commit_topic };

    ghost lawful = { commit_topic_lawful };

    #[tactic(auto, unfolding(crate::specs::Layouts::commit_topic))]
    fn read_from(alloc: Global, cursor: &mut Cursor<'a>) -> Result<CommitTopic<'a>, ReadFault> {
        Ok(CommitTopic {
            name: Text::read_from(alloc, cursor)?,
            partitions: Array::read_from(alloc, cursor)?,
        })
    }

    #[tactic(auto, unfolding(crate::specs::Layouts::commit_topic))]
    fn write_to(&self, sink: &mut Sink) -> Result<(), AllocError> {
        self.name.write_to(sink)?;
        self.partitions.write_to(sink)
    }
}

/// A request of OffsetCommit. `generation_id` is below 0 where no member of the group commits.
#[derive(Drop)]
pub struct OffsetCommitRequest<'a> {
    pub group_id: Text<'a>,
    pub generation_id: i32,
    pub member_id: Text<'a>,
    pub retention_time_ms: i64,
    pub topics: Array<CommitTopic<'a>>,
}

impl<'a> Layout<'a> for OffsetCommitRequest<'a> {
    ghost use Rattle.kb_api_group.specs.Layouts.{offset_commit_request};
    ghost use Rattle.kb_api_group.specs.Lawful.{offset_commit_request_lawful};

    ghost codec = { offset_commit_request };

    ghost lawful = { offset_commit_request_lawful };

    #[tactic(auto, unfolding(crate::specs::Layouts::offset_commit_request))]
    fn read_from(
        alloc: Global,
        cursor: &mut Cursor<'a>,
    ) -> Result<OffsetCommitRequest<'a>, ReadFault> {
        Ok(OffsetCommitRequest {
            group_id: Text::read_from(alloc, cursor)?,
            generation_id: i32::read_from(alloc, cursor)?,
            member_id: Text::read_from(alloc, cursor)?,
            retention_time_ms: i64::read_from(alloc, cursor)?,
            topics: Array::read_from(alloc, cursor)?,
        })
    }

    #[tactic(auto, unfolding(crate::specs::Layouts::offset_commit_request))]
    fn write_to(&self, sink: &mut Sink) -> Result<(), AllocError> {
        self.group_id.write_to(sink)?;
        self.generation_id.write_to(sink)?;
        self.member_id.write_to(sink)?;
        self.retention_time_ms.write_to(sink)?;
        self.topics.write_to(sink)
    }
}

/// A partition, in the reply of OffsetCommit.
#[derive(Drop)]
pub struct CommitPartitionReply {
    pub partition: i32,
    pub error_code: i16,
}

impl<'a> Layout<'a> for CommitPartitionReply {
    ghost use Rattle.kb_api_group.specs.Layouts.{commit_partition_reply};
    ghost use Rattle.kb_api_group.specs.Lawful.{commit_partition_reply_lawful};

    ghost codec = { commit_partition_reply };

    ghost lawful = { commit_partition_reply_lawful };

    #[tactic(auto, unfolding(crate::specs::Layouts::commit_partition_reply))]
    fn read_from(
        alloc: Global,
        cursor: &mut Cursor<'a>,
    ) -> Result<CommitPartitionReply, ReadFault> {
        Ok(CommitPartitionReply {
            partition: i32::read_from(alloc, cursor)?,
            error_code: i16::read_from(alloc, cursor)?,
        })
    }

    #[tactic(auto, unfolding(crate::specs::Layouts::commit_partition_reply))]
    fn write_to(&self, sink: &mut Sink) -> Result<(), AllocError> {
        self.partition.write_to(sink)?;
        self.error_code.write_to(sink)
    }
}

/// A topic, in the reply of OffsetCommit.
#[derive(Drop)]
pub struct CommitTopicReply<'a> {
    pub name: Text<'a>,
    pub partitions: Array<CommitPartitionReply>,
}

impl<'a> Layout<'a> for CommitTopicReply<'a> {
    ghost use Rattle.kb_api_group.specs.Layouts.{commit_topic_reply};
    ghost use Rattle.kb_api_group.specs.Lawful.{commit_topic_reply_lawful};

    ghost codec = { commit_topic_reply };

    ghost lawful = { commit_topic_reply_lawful };

    #[tactic(auto, unfolding(crate::specs::Layouts::commit_topic_reply))]
    fn read_from(
        alloc: Global,
        cursor: &mut Cursor<'a>,
    ) -> Result<CommitTopicReply<'a>, ReadFault> {
        Ok(CommitTopicReply {
            name: Text::read_from(alloc, cursor)?,
            partitions: Array::read_from(alloc, cursor)?,
        })
    }

    #[tactic(auto, unfolding(crate::specs::Layouts::commit_topic_reply))]
    fn write_to(&self, sink: &mut Sink) -> Result<(), AllocError> {
        self.name.write_to(sink)?;
        self.partitions.write_to(sink)
    }
}

/// The reply of OffsetCommit: a code for each partition.
#[derive(Drop)]
pub struct OffsetCommitReply<'a> {
    pub topics: Array<CommitTopicReply<'a>>,
}

impl<'a> Layout<'a> for OffsetCommitReply<'a> {
    ghost use Rattle.kb_api_group.specs.Layouts.{offset_commit_reply};
    ghost use Rattle.kb_api_group.specs.Lawful.{offset_commit_reply_lawful};

    ghost codec = { offset_commit_reply };

    ghost lawful = { offset_commit_reply_lawful };

    #[tactic(auto, unfolding(crate::specs::Layouts::offset_commit_reply))]
    fn read_from(
        alloc: Global,
        cursor: &mut Cursor<'a>,
    ) -> Result<OffsetCommitReply<'a>, ReadFault> {
        Ok(OffsetCommitReply {
            topics: Array::read_from(alloc, cursor)?,
        })
    }

    #[tactic(auto, unfolding(crate::specs::Layouts::offset_commit_reply))]
    fn write_to(&self, sink: &mut Sink) -> Result<(), AllocError> {
        self.topics.write_to(sink)
    }
}
