//! The parts of a reply that is written only where one is due.
ghost use Rattle.std.specs.Prelude.{◌≡◌, ◌+◌, ◌++◌, length, OnOk};
ghost use Rattle.std.specs.Int.{w32};
ghost use Rattle.kb_wire.specs.Codec.{count, string};
ghost use Rattle.kb_tenant.specs.Produce.{entry_written, where_due};
ghost use Rattle.kb_tenant.specs.Room.{entry_length, length_due, IsPut};

use kb_api_data::{ProducePartitionReply, ProducePartitionReplyV5};
use kb_wire::{Layout, Sink};
use std::alloc::AllocError;

/// The count of an array.
pub(super) fn put_count(due: bool, n: usize, sink: &mut Sink) -> Result<(), AllocError>
    requires { (count w32).Fits n }
    ensures bytes { OnOk result (sink.new.bytes ≡ sink.old.bytes ++ where_due due ((count w32).written n)) }
    ensures put { IsPut (length_due due 4) sink.old result sink.new }
{
    if !due {
        return Ok(());
    }
    sink.put_count(n)
}

/// A text.
pub(super) fn put_string(due: bool, text: &str, sink: &mut Sink) -> Result<(), AllocError>
    requires { string.Fits text.now }
    ensures bytes { OnOk result (sink.new.bytes ≡ sink.old.bytes ++ where_due due (string.written text.now)) }
    ensures put { IsPut (length_due due (2 + length text.now)) sink.old result sink.new }
{
    if !due {
        return Ok(());
    }
    sink.put_string(text)
}

/// A value.
pub(super) fn put<'a, T: Layout<'a>>(
    due: bool,
    value: &T,
    sink: &mut Sink,
) -> Result<(), AllocError>
    requires { T.codec.Fits value.now }
    ensures bytes { OnOk result (sink.new.bytes ≡ sink.old.bytes ++ where_due due (T.codec.written value.now)) }
    ensures put { IsPut (length_due due (length (T.codec.written value.now))) sink.old result sink.new }
{
    if !due {
        return Ok(());
    }
    value.write(sink)
}

/// What an entry is answered, with the start of its partition's log or without it.
pub(super) fn put_entry(
    due: bool,
    has_starts: bool,
    reply: &ProducePartitionReplyV5,
    sink: &mut Sink,
) -> Result<(), AllocError>
    ensures bytes { OnOk result (sink.new.bytes ≡ sink.old.bytes ++ where_due due (entry_written has_starts reply.now)) }
    ensures put { IsPut (length_due due (entry_length has_starts)) sink.old result sink.new }
{
    if has_starts {
        return put(due, reply, sink);
    }
    let without_start = ProducePartitionReply {
        index: reply.index,
        error_code: reply.error_code,
        base_offset: reply.base_offset,
        log_append_time_ms: reply.log_append_time_ms,
    };
    put(due, &without_start, sink)
}
