//! What a session finds in a reply.

ghost use Rattle.std.specs.Prelude.{◌≡◌, IfOk, map};
ghost use Rattle.kb_wire.specs.Reads.{Answers, ReadsWhole};
ghost use Rattle.kb_client.specs.Replies.{body_for};
ghost use Rattle.kb_admin.specs.Replies.{handshake_code, authenticate_code, created_code, deleted_code, as_topic, listed_topics};
ghost use Rattle.kb_admin.specs.Replies.{sole_created, sole_deleted};

use crate::listed::Listed;
use kb_api_data::{
    CreateTopicReply, CreateTopicsReply, DeleteTopicReply, DeleteTopicsReply, MetadataReply,
    MetadataTopic,
};
use kb_api_group::{SaslAuthenticateReply, SaslHandshakeReply};
use kb_wire::{Array, Cursor, Layout, ReadFault, WireFault};
use std::alloc::{AllocError, Global};

/// The body of a reply, if its correlation id is that of the request.
pub fn body_for(id: i32, frame: &[u8]) -> Result<&[u8], WireFault>
    ensures { Answers (λ body. body.now) result (body_for id frame.now) }
{
    let mut cursor = Cursor::new(frame);
    if cursor.i32()? != id {
        return Err(WireFault::Bad);
    }
    Ok(cursor.rest())
}

/// SaslHandshake: the code.
pub fn handshake_code(alloc: Global, body: &[u8]) -> Result<i16, ReadFault>
    ensures { ReadsWhole (handshake_code body.now) result }
{
    Ok(SaslHandshakeReply::read(alloc, body)?.error_code)
}

/// SaslAuthenticate: the code.
pub fn authenticate_code(alloc: Global, body: &[u8]) -> Result<i16, ReadFault>
    ensures { ReadsWhole (authenticate_code body.now) result }
{
    Ok(SaslAuthenticateReply::read(alloc, body)?.error_code)
}

/// CreateTopics: the code of the one topic.
pub fn created_code(alloc: Global, body: &[u8]) -> Result<i16, ReadFault>
    ensures { ReadsWhole (created_code body.now) result }
{
    let reply = CreateTopicsReply::read(alloc, body)?;
    Ok(sole_created(reply.topics.as_slice())?)
}

/// The code of the only topic.
fn sole_created(topics: &[CreateTopicReply<'_>]) -> Result<i16, WireFault>
    ensures { result ≡ sole_created topics.now }
{
    match topics {
        [topic] => Ok(topic.error_code),
        _ => Err(WireFault::Bad),
    }
}

/// DeleteTopics: the code of the one topic.
pub fn deleted_code(alloc: Global, body: &[u8]) -> Result<i16, ReadFault>
    ensures { ReadsWhole (deleted_code body.now) result }
{
    let reply = DeleteTopicsReply::read(alloc, body)?;
    Ok(sole_deleted(reply.topics.as_slice())?)
}

/// The code of the only topic.
fn sole_deleted(topics: &[DeleteTopicReply<'_>]) -> Result<i16, WireFault>
    ensures { result ≡ sole_deleted topics.now }
{
    match topics {
        [topic] => Ok(topic.error_code),
        _ => Err(WireFault::Bad),
    }
}

/// Metadata: the topics.
pub fn listed_topics(alloc: Global, body: &[u8]) -> Result<Array<Listed>, ReadFault>
    ensures { ReadsWhole (listed_topics body.now) result }
{
    let reply = MetadataReply::read(alloc, body)?;
    Ok(listed_all(alloc, reply.topics.as_slice())?)
}

/// What a reply of Metadata says of its topics.
fn listed_all(alloc: Global, topics: &[MetadataTopic<'_>]) -> Result<Array<Listed>, AllocError>
    ensures { IfOk result (λ all. all ≡ map as_topic topics.now) }
{
    let mut all = Array::new(alloc);
    for topic in topics {
        all.push(Listed::new(alloc, topic)?)?;
    }
    Ok(all)
}
