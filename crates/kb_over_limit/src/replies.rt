//! What a reply tells of limits.

ghost use Rattle.std.specs.Prelude.{◌≡◌};
ghost use Rattle.kb_wire.specs.Codec.{array};
ghost use Rattle.kb_over_limit.specs.Coded.{each};
ghost use Rattle.kb_over_limit.specs.Over.{body_of, committed, created, has_code, produced, read_tally, told};
ghost use Rattle.kb_over_limit.specs.Tally.{fresh};

use crate::coded::{Coded, tally_each};
use crate::over::OverLimit;
use crate::tally::Tally;
use kb_api_data::{CreateTopicReply, CreateTopicReplyV1, ProduceTopicReply, ProduceTopicReplyV5};
use kb_api_group::CommitTopicReply;
use kb_wire::{Cursor, ErrorCode, api_key};

/// How many bytes stand before a reply's body: its size and its correlation id.
const HEAD_BYTES: usize = 8;

/// The body of a reply.
fn body_of(reply: &[u8]) -> &[u8]
    ensures { result.now ≡ body_of reply.now }
{
    if reply.len() < HEAD_BYTES {
        return &[];
    }
    &reply[HEAD_BYTES..]
}

/// What the entries of the array at the front of a body come to where there is so much room: none where no array is there.
fn tally_in<'a, T: Coded<'a>>(body: &'a [u8], room: u64) -> Tally
    ensures { result ≡ read_tally (each T.tallied) room ((array T.codec).read body.now) }
{
    let mut cursor = Cursor::new(body);
    let mut tally = Tally::fresh(room);
    match tally_each::<T>(&mut cursor, &mut tally) {
        Ok(()) => tally,
        Err(_) => Tally::fresh(room),
    }
}

/// The batches that are past the limit of bytes, by the body of a reply of Produce.
fn produced(version: i16, body: &[u8]) -> u64
    ensures { result ≡ produced version body.now }
{
    if version >= 5 {
        return tally_in::<ProduceTopicReplyV5<'_>>(body, 0).full;
    }
    tally_in::<ProduceTopicReply<'_>>(body, 0).full
}

/// The commits that are past the limit of offsets or of their texts, by the body of a reply of OffsetCommit.
fn committed(body: &[u8]) -> u64
    ensures { result ≡ committed body.now }
{
    tally_in::<CommitTopicReply<'_>>(body, 0).full
}

/// The topics of a reply of CreateTopics, by its body, where so many more may be made.
fn created(version: i16, room: u64, body: &[u8]) -> Tally
    ensures { result ≡ created version room body.now }
{
    if version == 1 {
        return tally_in::<CreateTopicReplyV1<'_>>(body, room);
    }
    tally_in::<CreateTopicReply<'_>>(body, room)
}

/// One where the code at the front of a body is that one, else none.
fn has_code(body: &[u8], error: ErrorCode) -> u64
    ensures { result ≡ has_code error body.now }
{
    let mut cursor = Cursor::new(body);
    match cursor.i16() {
        Ok(code) => u64::from(code == error.code()),
        Err(_) => 0,
    }
}

/// How many entries of a reply say that they are past a limit of their tenant. The reply is to a request of that key and version.
///
/// `room`: how many more topics the tenant may have before the request. Behind as many that were made, a topic that is refused is past
/// the limit of topics, else past that of partitions.
#[tactic(auto, unfolding(crate::specs::Over::told))]
pub fn told(key: i16, version: i16, room: u64, reply: &[u8]) -> OverLimit
    ensures { result ≡ told key version room reply.now }
{
    let mut over = OverLimit::none();
    match key {
        api_key::PRODUCE => over.bytes = produced(version, body_of(reply)),
        api_key::OFFSET_COMMIT => over.offsets = committed(body_of(reply)),
        api_key::CREATE_TOPICS => {
            let tally = created(version, room, body_of(reply));
            over.topics = tally.full;
            over.partitions = tally.beside;
        }
        api_key::JOIN_GROUP => {
            let body = body_of(reply);
            over.groups = has_code(body, ErrorCode::CoordinatorNotAvailable);
            over.group_bytes = has_code(body, ErrorCode::GroupMaxSizeReached);
        }
        api_key::SYNC_GROUP => {
            over.group_bytes = has_code(body_of(reply), ErrorCode::GroupMaxSizeReached);
        }
        _ => (),
    }
    over
}
