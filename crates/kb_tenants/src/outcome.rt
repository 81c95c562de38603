//! What becomes of a request of one of the tenants.

use kb_tenant_api::Answer;
use kb_tenant_state::TopicPartition;

/// What became of a request.
#[derive(Drop)]
pub struct Outcome {
    /// What it comes to for the connection that sent it.
    pub answer: Answer,
    /// The partitions that it changed, in order: waits for them are to be looked at.
    pub touched: Vec<TopicPartition>,
    /// Whether its group answered requests that waited, which may be its own: waits for groups are to be looked at.
    pub released: bool,
    /// Whether memory or the store refused something, or the count of the tenant's refusals is at its end: then all waits of the tenant
    /// are to be looked at.
    pub refused: bool,
}
