//! The records of a reply of Fetch, appended where they are sent from.
ghost use Rattle.std.specs.Prelude.{◌≡◌, ◌≤◌, ◌<◌, ◌+◌, ◌-◌, ◌^◌, ◌++◌, [], ℕ, List, length, take, drop, OnOk, OnErr, IsOk};
ghost use Rattle.std.specs.Int.{w32, to_be_bytes};
ghost use Rattle.kb_api_data.specs.FetchRecords.{answer_front, answer_with, answer_written};
ghost use Rattle.kb_api_data.specs.FetchRecords.{answer_front_v5, answer_written_v5};
ghost use Rattle.kb_api_data.specs.Layouts.{fetch_partition_reply};
ghost use Rattle.kb_api_data.specs.declared.fetch_records_v5.FetchPartitionFrontV5.{FetchPartitionFrontV5};

use crate::fetch::FetchPartitionReply;
use kb_wire::{Blob, Layout, Sink};
use std::alloc::AllocError;

/// A partition's answer in a reply of Fetch, without its records.
///
/// Fetched bytes are to be copied once, from where they are kept into the connection's output. So the answer is first
/// written with no records; then the records are appended behind it, and [`count_records`] sets their length.
#[derive(Clone, Copy, Debug, PartialEq, Eq)]
pub struct FetchPartitionFront {
    pub partition: i32,
    pub error_code: i16,
    pub high_watermark: i64,
    pub last_stable_offset: i64,
}

impl FetchPartitionFront {
    /// Writes the answer with records of length 0, which is 30 bytes. An `Err` changes nothing.
    ///
    /// Once records stand behind it, and [`count_records`] has set their length, the whole answer is there.
    pub fn write(&self, sink: &mut Sink) -> Result<(), AllocError>
        ensures ok { OnOk result (sink.new.bytes ≡ sink.old.bytes ++ answer_front self.now) }
        ensures err { OnErr result (sink.new.bytes ≡ sink.old.bytes) }
        ensures succeeds { 30 ≤ sink.old.room → IsOk result }
        ensures room { OnOk result (sink.old.room ≤ sink.new.room + 30) }
        ensures err_room { OnErr result (sink.old.room ≤ sink.new.room) }
        ensures size { length (answer_front self.now) ≡ 30 }
        // With records of any bytes that an INT32 can count, the whole answer is read again as that answer.
        ensures spelled { (records : List ℕ) → length records < 2 ^ 31
            → fetch_partition_reply.Spells (answer_written self.now records) (answer_with self.now records) }
    {
        let answer = FetchPartitionReply {
            partition: self.partition,
            error_code: self.error_code,
            high_watermark: self.high_watermark,
            last_stable_offset: self.last_stable_offset,
            aborted_transactions: None,
            records: Some(Blob::new(&[])),
        };
        answer.write(sink)
    }
}

/// Sets the length of the records that stand at the end of some bytes, from `start` on, behind a front of their answer.
pub fn count_records(bytes: &mut [u8], start: usize)
    requires front { 4 ≤ start }
    requires within { start ≤ length bytes.old }
    requires fits { length bytes.old - start < 2 ^ 31 }
    ensures placed { bytes.new ≡ take (start - 4) bytes.old ++ to_be_bytes w32 (length bytes.old - start) ++ drop start bytes.old }
    // A front and the records behind it become the whole answer with these records.
    ensures whole { (before records : List ℕ) (front : FetchPartitionFront) → bytes.old ≡ before ++ answer_front front ++ records
        → start ≡ length (before ++ answer_front front) → bytes.new ≡ before ++ answer_written front records }
    // So do those of version 5.
    ensures whole_v5 { (before records : List ℕ) (front : FetchPartitionFrontV5) → bytes.old ≡ before ++ answer_front_v5 front ++ records
        → start ≡ length (before ++ answer_front_v5 front) → bytes.new ≡ before ++ answer_written_v5 front records }
{
    let count = (bytes.len() - start) as u32;
    let place = &mut bytes[start - 4..start];
    place.copy_from_slice(&count.to_be_bytes());
}
