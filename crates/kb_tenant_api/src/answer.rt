//! What a request comes to for the connection that sent it.

use kb_tenant_state::TopicPartition;

/// What a request comes to for the connection that sent it.
#[derive(Drop)]
pub enum Answer {
    /// What needs no group: a reply, a wait for partitions, no reply, or the connection is to be shut.
    Plain(kb_tenant::Answer),
    /// A wait for its group, without a deadline: a join for the next generation, a sync for the leader's assignments.
    Rebalance,
}

/// What became of a request.
#[derive(Drop)]
pub struct Served {
    /// What it comes to for the connection that sent it.
    pub answer: Answer,
    /// The partitions that it changed, in order: waits for them are to be looked at.
    pub touched: Vec<TopicPartition>,
    /// Whether its group answered requests that waited, which may be its own: waits for groups are to be looked at.
    pub released: bool,
}
