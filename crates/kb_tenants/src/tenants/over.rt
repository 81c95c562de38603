//! What a tenant is told of its limits.
ghost use Rattle.std.specs.Prelude.{◌≡◌};
ghost use Rattle.kb_tenants.specs.Over.{room_for, told_by};

use kb_over_limit::{OverLimit, told};
use kb_tenant::{DataLimits, Request};
use kb_tenant_api::Answer;

/// How many topics a tenant may have that has no limit of its own.
const MAX_TOPICS: u64 = 1000;

/// How many more topics a tenant may have where it has so many.
pub(super) fn room_for(limits: DataLimits, topics: usize) -> u64
    ensures { result ≡ room_for limits topics }
{
    let limit = match limits.topics {
        Some(limit) => limit.min(MAX_TOPICS),
        None => MAX_TOPICS,
    };
    limit.saturating_sub(topics as u64)
}

/// What the answer to a request tells its tenant of its limits, which may have so many more topics before it. Only a reply tells any.
pub(super) fn told_by(room: u64, request: &Request<'_>, answer: &Answer) -> OverLimit
    ensures { result ≡ told_by room request.now.api_key request.now.api_version answer.now }
{
    match answer {
        Answer::Plain(kb_tenant::Answer::Reply(reply)) => {
            told(request.api_key, request.api_version, room, reply)
        }
        Answer::Plain(_) | Answer::Rebalance => OverLimit::none(),
    }
}
