//! Room for a reply, whatever it is to answer.
ghost use Rattle.std.specs.Prelude.{◌≡◌, ◌≤◌, ◌<◌, ◌*◌, ◌^◌, OnOk, SomeIff};
ghost use Rattle.kb_api_data.specs.Layouts.{produce_request, produce_topic};
ghost use Rattle.kb_tenant.specs.Room.{entry_length, length_due, reply_length as reply_length_of, topic_length as topic_length_of};

use kb_api_data::{ProduceRequest, ProduceTopic};
use kb_wire::Sink;
use std::alloc::AllocError;

/// How many bytes answer so many entries.
fn entries_length(has_starts: bool, count: usize) -> usize
    requires { count < 2 ^ 31 }
    ensures exact { result ≡ entry_length has_starts * count }
    ensures small { result < 2 ^ 36 }
{
    if has_starts {
        return 30 * count;
    }
    22 * count
}

/// How many bytes answer a topic.
fn topic_length(has_starts: bool, topic: &ProduceTopic<'_>) -> usize
    requires { produce_topic.Fits topic.now }
    ensures { result ≡ topic_length_of has_starts topic.now }
{
    2 + topic.name.as_str().len() + 4 + entries_length(has_starts, topic.partitions.len())
}

/// How many bytes a reply has; none where that is no `usize`.
fn reply_length(has_starts: bool, request: &ProduceRequest<'_>) -> Option<usize>
    requires { produce_request.Fits request.now }
    ensures { SomeIff result (reply_length_of has_starts request.now < 2 ^ 64) (reply_length_of has_starts request.now) }
{
    let mut length: usize = 8;
    for topic in request.topics.as_slice() {
        length = length.checked_add(topic_length(has_starts, topic))?;
    }
    Some(length)
}

/// Makes room for the whole reply, where one is due. An `Err` leaves the sink as it was.
pub(super) fn make_room(
    due: bool,
    has_starts: bool,
    request: &ProduceRequest<'_>,
    sink: &mut Sink,
) -> Result<(), AllocError>
    requires { produce_request.Fits request.now }
    ensures bytes { sink.new.bytes ≡ sink.old.bytes }
    ensures room { OnOk result (length_due due (reply_length_of has_starts request.now) ≤ sink.new.room) }
{
    if !due {
        return Ok(());
    }
    let Some(length) = reply_length(has_starts, request) else {
        return Err(AllocError);
    };
    sink.reserve(length)
}
