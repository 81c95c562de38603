//! What a request comes to for the connection that sent it.
ghost use Rattle.std.specs.Prelude.{◌≡◌, ◌≤◌, ◌<◌, ◌-◌, ◌^◌, ◌++◌, ℕ, ℤ, List, length, drop, IfOk};
ghost use Rattle.std.specs.Int.{w32, to_be_bytes};
ghost use Rattle.kb_tenant.specs.Replies.{begun, framed, most_bytes, replies_within, AreUntil, IsAnswer, Replies};

use crate::fetch::WaitingFetch;
use kb_tenant_state::TopicPartition;
use kb_wire::Sink;
use std::alloc::{AllocError, Global};

/// What a request comes to for the connection that sent it.
#[derive(Drop)]
pub enum Answer {
    /// A reply, from its size to the end of its body.
    Reply(Vec<u8>),
    /// A wait of a fetch for one of these partitions, until the deadline at most.
    Wait {
        deadline: u64,
        fetch: WaitingFetch,
        keys: Vec<TopicPartition>,
    },
    /// No reply.
    NoReply,
    /// The connection is to be shut without a reply.
    Shut,
}

/// Begins a reply: four bytes, each 0, as room for its size (INT32), and its correlation id (Kafka protocol guide, "Response
/// Header").
///
/// The body is to be written behind them, and then `finish` sets the size. The only error is want of memory, which is not counted.
pub fn begin(alloc: Global, correlation_id: i32) -> Result<Sink, AllocError>
    ensures { IfOk result (λ sink. sink.bytes ≡ begun correlation_id) }
{
    let mut sink = Sink::new(alloc);
    sink.put_i32(0)?;
    sink.put_i32(correlation_id)?;
    Ok(sink)
}

/// Sets the size in front of some bytes to the number of those behind it.
fn set_size(bytes: &mut [u8])
    requires front { 4 ≤ length bytes.old }
    requires fits { length bytes.old - 4 < 2 ^ 31 }
    ensures placed { bytes.new ≡ to_be_bytes w32 (length bytes.old - 4) ++ drop 4 bytes.old }
    ensures len { length bytes.new ≡ length bytes.old }
    ensures whole { (id : ℤ) (body : List ℕ) → bytes.old ≡ begun id ++ body → bytes.new ≡ framed id body }
{
    let size = (bytes.len() - 4) as u32;
    let place = &mut bytes[..4];
    place.copy_from_slice(&size.to_be_bytes());
}

/// Sets the size of a reply that was begun, behind whose correlation id its body stands: the answer is that reply.
///
/// The size counts the bytes behind it, those of the correlation id and the body. One above 2,147,483,647 does not fit an INT32:
/// then the connection is to be shut. Of bytes that were not begun (`begin`) nothing is said.
#[tactic(auto, using(crate::proofs::Framing::sized, crate::proofs::Framing::long))]
pub fn finish(sink: Sink) -> Answer
    ensures { (id : ℤ) (body : List ℕ) → sink.bytes ≡ begun id ++ body → IsAnswer id (Replies body) result }
{
    let mut bytes = sink.into_vec();
    if bytes.len() < 4 || bytes.len() - 4 > i32::MAX as usize {
        return Answer::Shut;
    }
    set_size(&mut bytes);
    Answer::Reply(bytes)
}

/// How many bytes a reply of a tenant may have, with the four of its size, which counts those behind it.
pub fn most_bytes(limit: Option<u64>) -> usize
    ensures { result ≡ most_bytes limit }
{
    let largest = i32::MAX as u64;
    let size = match limit {
        Some(limit) => limit.min(largest),
        None => largest,
    };
    4 + size as usize
}

/// The same as `finish`, for a reply that is to be no longer than a limit allows.
///
/// One whose size is above it shuts the connection. Its writing may stop as soon as it is longer (`most_bytes`).
pub fn finish_within(limit: Option<u64>, sink: Sink) -> Answer
    ensures { (id : ℤ) (body : List ℕ) → AreUntil (most_bytes limit) (begun id ++ body) sink.bytes
        → IsAnswer id (replies_within limit body) result }
{
    if sink.len() > most_bytes(limit) {
        return Answer::Shut;
    }
    finish(sink)
}
