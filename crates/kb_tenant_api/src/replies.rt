//! The replies to requests that waited for their groups.
ghost use Rattle.std.specs.Prelude.{◌≡◌, IfOk, OnErr, length, nat_le};
ghost use Rattle.std.specs.List.{flat_map};
ghost use Rattle.kb_tenant.specs.Replies as tenant;
ghost use Rattle.kb_tenant_api.specs.Replies.{told_to};
ghost use Rattle.kb_tenant_api.specs.Serve.{has_released};

use kb_coordinator::{Coordinator, put_reply};
use kb_groups::Release;
use kb_tenant::{begin, finish};
use std::alloc::{AllocError, Global};

/// Whether one of these lists has a reply.
fn any_reply(released: &[Vec<Release>]) -> bool
    ensures { result ≡ nat_le 1 (length (flat_map (λ v. v.items) released.now)) }
{
    for i in 0..released.len() {
        if !released[i].is_empty() {
            return true;
        }
    }
    false
}

/// Whether the last request or moment answered a request that waited.
pub(crate) fn is_anyone_released(groups: &Coordinator) -> bool
    ensures { result ≡ has_released groups.now }
{
    any_reply(groups.released())
}

/// What a request that waits for its group is answered after the last request or moment; `NoReply`: it still waits.
///
/// The connection's number says which it is, the correlation id is the request's own. An `Err` is want of memory for the reply: it is
/// not counted, and the groups have the reply still.
pub fn tell(
    alloc: Global,
    groups: &Coordinator,
    connection: u64,
    correlation_id: i32,
) -> Result<kb_tenant::Answer, AllocError>
    ensures ok { IfOk result (λ answer. tenant.IsAnswer correlation_id (told_to connection groups.now) answer) }
    ensures err { OnErr result (told_to connection groups.now ≡ tenant.Silent → ⊥) }
{
    match groups.reply_to(connection) {
        None => Ok(kb_tenant::Answer::NoReply),
        Some(reply) => {
            let mut sink = begin(alloc, correlation_id)?;
            put_reply(alloc, reply, &mut sink)?;
            Ok(finish(sink))
        }
    }
}
