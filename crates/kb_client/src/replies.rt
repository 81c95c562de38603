//! What a client finds in a reply. Fetch alone may take memory.

ghost use Rattle.std.specs.Prelude.{◌≡◌};
ghost use Rattle.kb_wire.specs.Reads.{Answers, ReadsWhole};
ghost use Rattle.kb_client.specs.Fetched.{fetched_partition};
ghost use Rattle.kb_client.specs.Replies.{body_for, handshake_code, authenticate_code, create_code, identity, produce_code, PartitionAt};

use crate::stage::ProducerId;
use kb_api_data::{FetchPartitionReplyV5, ProducePartitionReply};
use kb_wire::{Cursor, Layout, ReadFault, WireFault};
use std::alloc::Global;

/// The body of a reply, if its correlation id is that of the request.
pub fn body_for(id: i32, frame: &[u8]) -> Result<&[u8], WireFault>
    ensures { Answers (λ body. body.now) result (body_for id frame.now) }
{
    let mut cursor = Cursor::new(frame);
    if cursor.i32()? != id {
        return Err(WireFault::Bad);
    }
    Ok(cursor.rest())
}

/// SaslHandshake: the code, whatever mechanisms follow.
pub fn handshake_code(body: &[u8]) -> Result<i16, WireFault>
    ensures { Answers (λ code. code) result (handshake_code body.now) }
{
    Cursor::new(body).i16()
}

/// SaslAuthenticate: the code.
#[tactic(auto, unfolding(kb_api_group::specs::Layouts::sasl_authenticate_reply))]
pub fn authenticate_code(body: &[u8]) -> Result<i16, WireFault>
    ensures { Answers (λ code. code) result (authenticate_code body.now) }
{
    let mut cursor = Cursor::new(body);
    let code = cursor.i16()?;
    cursor.nullable_string()?;
    cursor.blob()?;
    if !cursor.at_end() {
        return Err(WireFault::Bad);
    }
    Ok(code)
}

/// CreateTopics of one topic: its code.
pub fn create_code(body: &[u8]) -> Result<i16, WireFault>
    ensures { Answers (λ code. code) result (create_code body.now) }
{
    let mut cursor = Cursor::new(body);
    let topics = cursor.count()?;
    cursor.string()?;
    let code = cursor.i16()?;
    if !cursor.at_end() {
        return Err(WireFault::Bad);
    }
    if topics != 1 {
        return Err(WireFault::Bad);
    }
    Ok(code)
}

/// InitProducerId: the code, and the id.
#[tactic(auto, unfolding(kb_api_data::specs::Layouts::init_producer_id_reply))]
pub fn identity(body: &[u8]) -> Result<(i16, ProducerId), WireFault>
    ensures { Answers (λ reply. (reply.0, reply.1)) result (identity body.now) }
{
    let mut cursor = Cursor::new(body);
    cursor.i32()?;
    let code = cursor.i16()?;
    let id = cursor.i64()?;
    let epoch = cursor.i16()?;
    if !cursor.at_end() {
        return Err(WireFault::Bad);
    }
    Ok((code, ProducerId { id, epoch }))
}

/// Produce for one partition: its code.
#[tactic(auto, unfolding(kb_api_data::specs::Layouts::produce_partition_reply))]
pub fn produce_code(body: &[u8]) -> Result<i16, WireFault>
    ensures { Answers (λ code. code) result (produce_code body.now) }
{
    let mut cursor = Cursor::new(body);
    let topics = cursor.count()?;
    cursor.string()?;
    let partitions = cursor.count()?;
    let code = partition(&mut cursor)?.error_code;
    cursor.i32()?;
    if !cursor.at_end() {
        return Err(WireFault::Bad);
    }
    if topics != 1 || partitions != 1 {
        return Err(WireFault::Bad);
    }
    Ok(code)
}

/// A partition, in the reply of Produce.
#[tactic(auto, unfolding(kb_api_data::specs::Layouts::produce_partition_reply))]
fn partition(cursor: &mut Cursor<'_>) -> Result<ProducePartitionReply, WireFault>
    ensures { PartitionAt cursor.old result cursor.new }
{
    Ok(ProducePartitionReply {
        index: cursor.i32()?,
        error_code: cursor.i16()?,
        base_offset: cursor.i64()?,
        log_append_time_ms: cursor.i64()?,
    })
}

/// Fetch for one partition.
pub fn fetched_partition<'a>(
    alloc: Global,
    body: &'a [u8],
) -> Result<FetchPartitionReplyV5<'a>, ReadFault>
    ensures { ReadsWhole (fetched_partition body.now) result }
{
    let mut cursor = Cursor::new(body);
    cursor.i32()?;
    let topics = cursor.count()?;
    cursor.string()?;
    let partitions = cursor.count()?;
    let reply = FetchPartitionReplyV5::read_from(alloc, &mut cursor)?;
    if !cursor.at_end() {
        return Err(ReadFault::Wire(WireFault::Bad));
    }
    if topics != 1 || partitions != 1 {
        return Err(ReadFault::Wire(WireFault::Bad));
    }
    Ok(reply)
}
