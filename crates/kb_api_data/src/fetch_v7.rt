//! Fetch, versions 7 to 9 (Kafka protocol guide, "The Messages: Fetch"). As version 5, but a request names a fetch session and what it
//! no longer wants of one. From version 9 on each of its entries has a leader epoch, too.

use crate::both::Both;
use kb_wire::{Array, Cursor, Layout, ReadFault, Sink, Text};
use std::alloc::{AllocError, Global};

/// A partition, in a request of Fetch, version 9.
#[derive(Drop)]
pub struct FetchPartitionV9 {
    pub partition: i32,
    /// The epoch of the partition's leader, as the client knows it. The broker ignores it.
    pub current_leader_epoch: i32,
    pub fetch_offset: i64,
    /// The offset that a follower's log starts at. The broker ignores it.
    pub log_start_offset: i64,
    pub partition_max_bytes: i32,
}

impl<'a> Layout<'a> for FetchPartitionV9 {
    ghost use Rattle.kb_api_data.specs.FetchSession.{fetch_partition_v9, fetch_partition_v9_lawful};

    ghost codec = { fetch_partition_v9 };

    ghost lawful = { fetch_partition_v9_lawful };

    #[tactic(auto, unfolding(crate::specs::FetchSession::fetch_partition_v9))]
    fn read_from(alloc: Global, cursor: &mut Cursor<'a>) -> Result<FetchPartitionV9, ReadFault> {
        Ok(FetchPartitionV9 {
            partition: i32::read_from(alloc, cursor)?,
            current_leader_epoch: i32::read_from(alloc, cursor)?,
            fetch_offset: i64::read_from(alloc, cursor)?,
            log_start_offset: i64::read_from(alloc, cursor)?,
            partition_max_bytes: i32::read_from(alloc, cursor)?,
        })
    }

    #[tactic(auto, unfolding(crate::specs::FetchSession::fetch_partition_v9))]
    fn write_to(&self, sink: &mut Sink) -> Result<(), AllocError> {
        self.partition.write_to(sink)?;
        self.current_leader_epoch.write_to(sink)?;
        self.fetch_offset.write_to(sink)?;
        self.log_start_offset.write_to(sink)?;
        self.partition_max_bytes.write_to(sink)
    }
}

/// A topic, in a request of Fetch, version 9: its name and its partitions.
pub type FetchTopicV9<'a> = Both<Text<'a>, Array<FetchPartitionV9>>;

/// A topic that a fetch session is to forget partitions of: its name and their numbers.
pub type ForgottenTopic<'a> = Both<Text<'a>, Array<i32>>;

/// A request of Fetch, version 7 or 8, with topics of version 5. With those of version 9 it is one of version 9.
#[derive(Drop)]
pub struct FetchRequestV7<'a, T> {
    pub replica_id: i32,
    pub max_wait_ms: i32,
    pub min_bytes: i32,
    pub max_bytes: i32,
    pub isolation_level: i8,
    /// The fetch session; 0 is none.
    pub session_id: i32,
    /// How far the session came; 0 is to begin one, and -1 to have none.
    pub session_epoch: i32,
    pub topics: Array<T>,
    pub forgotten_topics_data: Array<ForgottenTopic<'a>>,
}

impl<'a, T: Layout<'a>> Layout<'a> for FetchRequestV7<'a, T> {
    ghost use Rattle.kb_api_data.specs.FetchSession.{fetch_request_v7, fetch_request_v7_lawful};

    ghost codec = { fetch_request_v7 T.codec };

    ghost lawful = { fetch_request_v7_lawful T.lawful };

    #[tactic(auto, unfolding(crate::specs::FetchSession::fetch_request_v7))]
    fn read_from(
        alloc: Global,
        cursor: &mut Cursor<'a>,
    ) -> Result<FetchRequestV7<'a, T>, ReadFault> {
        Ok(FetchRequestV7 {
            replica_id: i32::read_from(alloc, cursor)?,
            max_wait_ms: i32::read_from(alloc, cursor)?,
            min_bytes: i32::read_from(alloc, cursor)?,
            max_bytes: i32::read_from(alloc, cursor)?,
            isolation_level: i8::read_from(alloc, cursor)?,
            session_id: i32::read_from(alloc, cursor)?,
            session_epoch: i32::read_from(alloc, cursor)?,
            topics: Array::read_from(alloc, cursor)?,
            forgotten_topics_data: Array::read_from(alloc, cursor)?,
        })
    }

    #[tactic(auto, unfolding(crate::specs::FetchSession::fetch_request_v7))]
    fn write_to(&self, sink: &mut Sink) -> Result<(), AllocError> {
        self.replica_id.write_to(sink)?;
        self.max_wait_ms.write_to(sink)?;
        self.min_bytes.write_to(sink)?;
        self.max_bytes.write_to(sink)?;
        self.isolation_level.write_to(sink)?;
        self.session_id.write_to(sink)?;
        self.session_epoch.write_to(sink)?;
        self.topics.write_to(sink)?;
        self.forgotten_topics_data.write_to(sink)
    }
}
