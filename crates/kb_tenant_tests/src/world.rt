//! Up to which clock a tenant tells that nothing is to be dropped, over logs and files in memory.

mod steps;

use Step::{Append, Create, NextRetentionTime, RetainAll};
use kb_tenant_state::TopicPartition;
use kb_topics::TopicConfig;
use std::test::Fail;
use steps::{Step, plays};

/// A second, and any number of bytes.
const ONE_SECOND: TopicConfig = TopicConfig {
    retention_ms: 1000,
    retention_bytes: -1,
};

/// Any time, and the bytes of one batch.
const ONE_BATCH: TopicConfig = TopicConfig {
    retention_ms: -1,
    retention_bytes: 70,
};

/// Partition 0 of the first topic.
const FIRST: TopicPartition = TopicPartition {
    instance: 0,
    number: 0,
};

/// Partition 0 of the second topic.
const SECOND: TopicPartition = TopicPartition {
    instance: 1,
    number: 0,
};

/// Partition 1 of the second topic.
const BESIDE_SECOND: TopicPartition = TopicPartition {
    instance: 1,
    number: 1,
};

#[test]
fn nothing_is_due(rt: HostRuntime) -> Result<(), Fail> {
    let steps = [
        Create("t", 1, ONE_SECOND),
        NextRetentionTime(i64::MAX),
        Append(FIRST, 0),
        NextRetentionTime(1005),
        RetainAll(1005, false),
        NextRetentionTime(1005),
    ];
    plays(&rt, rt.alloc(), &steps)
}

#[test]
fn all_is_dropped_that_was_due(rt: HostRuntime) -> Result<(), Fail> {
    let steps = [
        Create("b", 1, ONE_SECOND),
        Create("a", 2, ONE_BATCH),
        Append(FIRST, 0),
        Append(SECOND, 0),
        Append(BESIDE_SECOND, 0),
        Append(BESIDE_SECOND, 1),
        RetainAll(1006, true),
        RetainAll(1006, false),
        NextRetentionTime(i64::MAX),
    ];
    plays(&rt, rt.alloc(), &steps)
}
