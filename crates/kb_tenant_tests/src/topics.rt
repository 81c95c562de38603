//! The bytes of a meta log, over a log in memory. They were written by a program in another language.

mod steps;

use crate::words::bytes;
use Step::{Commit, Create, Delete, DeleteGroup, Issue, Start};
use kb_topics::TopicConfig;
use std::test::Fail;
use steps::{Kept, Step};

/// The meta log of the creation of `t` and of `u`, the deletion of `u`, the producer ids 0, 1 and 2, the start of partition 0 of
/// `t` moved to 1, the commit of offset 1 there by `g` with metadata `m`, and the deletion of `g`: each batch as its offset, length,
/// epoch, magic and checksum, its front and its record.
const RECORDED: &str = "\
    0000000000000000 00000058 00000000 02 1b94e8c5 front 4c00000001400100017400000000000000000000000100000000240c8400ffffffffffffffff00 \
    0000000000000001 00000058 00000000 02 e72def6e front 4c000000014001000175000000000000000100000003ffffffffffffffff00000000000003e800 \
    0000000000000002 0000003c 00000000 02 a7c5f637 front 1400000001080200017500 \
    0000000000000003 00000041 00000000 02 d5fa0eaf front 1e000000011203000000000000000000 \
    0000000000000004 00000041 00000000 02 c65896d8 front 1e000000011203000000000000000100 \
    0000000000000005 00000041 00000000 02 f2bf3e41 front 1e000000011203000000000000000200 \
    0000000000000006 0000004d 00000000 02 8aed839a front 36000000012a05000000000000000000000000000000000000000100 \
    0000000000000007 00000053 00000000 02 35a91e50 front 42000000013604000167000000000000000000000000000000000000000100016d00 \
    0000000000000008 0000003c 00000000 02 0a00e391 front 1400000001080800016700";

const STANDARD: TopicConfig = TopicConfig {
    retention_ms: 604_800_000,
    retention_bytes: -1,
};

/// Any time, and 1000 bytes.
const SMALL: TopicConfig = TopicConfig {
    retention_ms: -1,
    retention_bytes: 1000,
};

/// The calls that it records.
const CALLS: [Step<'static>; 9] = [
    Create("t", 1, STANDARD, 0),
    Create("u", 3, SMALL, 1),
    Delete("u"),
    Issue(0),
    Issue(1),
    Issue(2),
    Start(0, 0, 1),
    Commit("g", 0, 0, 1, "m"),
    DeleteGroup("g"),
];

#[test]
fn each_call(rt: HostRuntime) -> Result<(), Fail> {
    let mut kept = Kept::new(rt.alloc())?;
    kept.take_all(&rt, &CALLS);
    let recorded = kept.recorded(rt.alloc())?;
    let want = bytes(&rt, rt.alloc(), RECORDED)?;
    assert!(rt; recorded == want);
    Ok(())
}
