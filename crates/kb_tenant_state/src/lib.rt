//! The topics, producer ids and logs of one tenant, as one: a call changes the catalog and the partitions together, or
//! neither.
//!
//! What the tenant sees of them is a world, `specs/World.antt`, with no file in it. Each call of [`Parts`] is a function on worlds,
//! `specs/Calls.antt`, wherever memory and the store refuse nothing; each refusal of theirs is counted for the tenant. The
//! files of everybody else stay as they are in any case.
//!
//! [`Partitions`] are the tenant's logs, and what idempotent producers have in them. It finds a partition by the instance of its topic
//! and its number. A call for one partition does there what its log does (`kb_log`), and every other log of the tenant keeps its list
//! (`specs/Logs.antt`, `specs/PartitionCalls.antt`).
#![tactic(auto)]

mod fault;
mod ids;
mod logs;
mod partition;
mod partitions;
mod parts;
mod promises;
mod records;
mod retention;
mod retention_time;
mod sizes;
mod topic;
mod topic_partition;
mod topics;
mod usage;

pub use fault::PartitionFault;
pub use partition::Partition;
pub use partitions::Partitions;
pub use parts::Parts;
pub use promises::skipped_ids_are_fresh;
pub use topic_partition::TopicPartition;
