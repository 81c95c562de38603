//! FindCoordinator (Kafka protocol guide): the broker that looks after a group, which is the one broker. From version 1 on a key has a
//! type, and nobody looks after one that is no group's.
ghost use Rattle.std.specs.Prelude.{◌≡◌, ◌++◌, OnOk};
ghost use Rattle.kb_api_group.specs.Layouts.{find_coordinator_reply};
ghost use Rattle.kb_tenant.specs.FindCoordinator.{coordinator_as, coordinator_for, has_key_type, is_group_as};
ghost use Rattle.kb_wire.specs.Codec.{string};
ghost use Rattle.kb_wire.specs.Reads.{ReadsWhole};

use crate::node::Node;
use kb_api_data::Both;
use kb_api_group::{FindCoordinatorReply, FindCoordinatorRequest};
use kb_wire::{ErrorCode, Layout, ReadFault, Sink, Text};
use std::alloc::{AllocError, Global};

/// The code for a key that is no group's. Clients take it at once, and ask for no other coordinator.
const TRANSACTIONAL_ID_AUTHORIZATION_FAILED: i16 = 53;

/// Whether a request of a version says what type its key has.
pub(crate) fn has_key_type(version: i16) -> bool
    ensures { result ≡ has_key_type version }
{
    version >= 1
}

/// Whether the key that a whole body asks for is a group's.
pub(crate) fn read_find_coordinator(
    alloc: Global,
    has_key_type: bool,
    body: &[u8],
) -> Result<bool, ReadFault>
    ensures { ReadsWhole (is_group_as has_key_type body.now) result }
{
    if has_key_type {
        let asked = Both::<FindCoordinatorRequest<'_>, i8>::read(alloc, body)?;
        return Ok(asked.second == 0);
    }
    let _asked = FindCoordinatorRequest::read(alloc, body)?;
    Ok(true)
}

/// The answer for a key that is a group's or not. It is the same for each group.
fn coordinator_for<'a>(node: &'a Node<'_>, is_group: bool) -> FindCoordinatorReply<'a>
    requires { string.Fits node.now.host }
    ensures is { result ≡ coordinator_for node.now is_group }
    ensures fits { find_coordinator_reply.Fits result }
{
    if is_group {
        return FindCoordinatorReply {
            error_code: ErrorCode::None.code(),
            node_id: 0,
            host: Text::new(node.host.as_str()),
            port: i32::from(node.port),
        };
    }
    FindCoordinatorReply {
        error_code: TRANSACTIONAL_ID_AUTHORIZATION_FAILED,
        node_id: -1,
        host: Text::new(""),
        port: -1,
    }
}

/// Writes a reply, with a message that is null or without one.
fn put_coordinator(
    has_message: bool,
    reply: &FindCoordinatorReply<'_>,
    sink: &mut Sink,
) -> Result<(), AllocError>
    requires { find_coordinator_reply.Fits reply.now }
    ensures { OnOk result (sink.new.bytes ≡ sink.old.bytes ++ coordinator_as has_message reply.now) }
{
    if !has_message {
        return reply.write(sink);
    }
    sink.put_i16(reply.error_code)?;
    sink.put_nullable_string(&None)?;
    sink.put_i32(reply.node_id)?;
    sink.put_string(reply.host.as_str())?;
    sink.put_i32(reply.port)
}

/// Serves FindCoordinator: writes the reply behind what the sink has, of a version whose keys have a type or not.
pub(crate) fn find_coordinator(
    node: &Node<'_>,
    has_key_type: bool,
    is_group: bool,
    sink: &mut Sink,
) -> Result<(), AllocError>
    requires { string.Fits node.now.host }
    ensures { OnOk result (sink.new.bytes ≡ sink.old.bytes ++ coordinator_as has_key_type (coordinator_for node.now is_group)) }
{
    let reply = coordinator_for(node, is_group);
    put_coordinator(has_key_type, &reply, sink)
}
