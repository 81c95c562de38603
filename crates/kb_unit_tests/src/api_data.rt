//! Records of a reply of Fetch, appended where they are sent from.

use kb_api_data::{FetchPartitionFront, count_records};
use kb_wire::Sink;
use std::test::*;

/// An answer without an error, whose high watermark and last stable offset are 1, with three bytes of records.
#[rattlefmt::skip]
const ANSWER: [u8; 33] = [
    0, 0, 0, 0, 0, 0, 0, 0, 0, 0, 0, 0, 0, 1, 0, 0, 0, 0, 0, 0, 0, 1, 0xff, 0xff, 0xff, 0xff, 0, 0, 0, 3, 7, 8, 9,
];

/// A front, records behind it and their length are the answer that a broker sends.
#[test]
fn records_are_appended_behind_their_answer(rt: HostRuntime) -> Result<(), Fail> {
    let front = FetchPartitionFront {
        partition: 0,
        error_code: 0,
        high_watermark: 1,
        last_stable_offset: 1,
    };
    let mut sink = Sink::new(rt.alloc());
    front.write(&mut sink)?;
    let start = sink.len();
    sink.put_bytes(&[7, 8, 9])?;
    let mut bytes = sink.into_vec();
    count_records(&mut bytes, start);
    assert!(rt; bytes.as_slice() == ANSWER.as_slice());
    Ok(())
}
