//! A partition's answer in a reply of Fetch, version 5, before its records are appended.
ghost use Rattle.std.specs.Prelude.{◌≡◌, ◌≤◌, ◌<◌, ◌+◌, ◌^◌, ◌++◌, ℕ, List, length, OnOk, OnErr, IsOk};
ghost use Rattle.kb_api_data.specs.FetchRecords.{answer_front_v5, answer_with_v5, answer_written_v5};
ghost use Rattle.kb_api_data.specs.Layouts.{fetch_partition_reply_v5};

use crate::fetch_v5::FetchPartitionReplyV5;
use kb_wire::{Blob, Layout, Sink};
use std::alloc::AllocError;

/// A partition's answer in a reply of Fetch, version 5, without its records.
///
/// It is written and its records are counted as those of a [`FetchPartitionFront`](crate::FetchPartitionFront).
#[derive(Clone, Copy, Debug, PartialEq, Eq)]
pub struct FetchPartitionFrontV5 {
    pub partition: i32,
    pub error_code: i16,
    pub high_watermark: i64,
    pub last_stable_offset: i64,
    pub log_start_offset: i64,
}

impl FetchPartitionFrontV5 {
    /// Writes the answer with records of length 0, which is 38 bytes. An `Err` changes nothing.
    ///
    /// Once records stand behind it, and [`count_records`](crate::count_records) has set their length, the whole answer is there.
    pub fn write(&self, sink: &mut Sink) -> Result<(), AllocError>
        ensures ok { OnOk result (sink.new.bytes ≡ sink.old.bytes ++ answer_front_v5 self.now) }
        ensures err { OnErr result (sink.new.bytes ≡ sink.old.bytes) }
        ensures succeeds { 38 ≤ sink.old.room → IsOk result }
        ensures room { OnOk result (sink.old.room ≤ sink.new.room + 38) }
        ensures err_room { OnErr result (sink.old.room ≤ sink.new.room) }
        ensures size { length (answer_front_v5 self.now) ≡ 38 }
        // With records of any bytes that an INT32 can count, the whole answer is read again as that answer.
        ensures spelled { (records : List ℕ) → length records < 2 ^ 31
            → fetch_partition_reply_v5.Spells (answer_written_v5 self.now records) (answer_with_v5 self.now records) }
    {
        let answer = FetchPartitionReplyV5 {
            partition: self.partition,
            error_code: self.error_code,
            high_watermark: self.high_watermark,
            last_stable_offset: self.last_stable_offset,
            log_start_offset: self.log_start_offset,
            aborted_transactions: None,
            records: Some(Blob::new(&[])),
        };
        answer.write(sink)
    }
}
