//! How a reply is laid out, and the bodies of those that need no tenant.

ghost use Rattle.std.specs.Prelude.{◌≡◌, ◌<◌, ◌≤◌, ◌^◌, ◌++◌, ℕ, List, IfOk, IfSome, OnOk, OnErr, length};
ghost use Rattle.kb_wire.specs.Codec.{array};
ghost use Rattle.kb_api_group.specs.Layouts.{api_version};
ghost use Rattle.kb_tenant.specs.Replies.{framed, reply_size};
ghost use Rattle.kb_isolation_spec.specs.Session.{throttled};
ghost use Rattle.kb_connection.specs.TenantAnswers.{body_of};
ghost use Rattle.kb_isolation_spec.specs.Greeting.{throttle_behind, versions_in, versions_reply, handshake_reply, authenticate_reply};

use kb_api_group::{ApiVersion, SaslAuthenticateReply, SaslHandshakeReply};
use kb_isolation_spec::Head;
use kb_wire::{Array, Blob, ErrorCode, Layout, Sink, Text};
use std::alloc::{AllocError, Global};

/// ApiVersions: a code and the whole table.
#[tactic(auto, unfolding(kb_api_group::specs::Layouts::api_versions_reply, kb_wire::specs::Codec::int))]
pub fn versions_body(
    alloc: Global,
    versions: &Array<ApiVersion>,
    code: ErrorCode,
) -> Result<Vec<u8>, AllocError>
    requires { (array api_version).Fits versions.now }
    ensures { IfOk result (λ body. body.items ≡ versions_reply versions.now code) }
{
    let mut sink = Sink::new(alloc);
    code.code().write(&mut sink)?;
    versions.write(&mut sink)?;
    Ok(sink.into_vec())
}

/// The bytes of a throttle time of 0 milliseconds, an INT32, which stands behind the table from version 1 of ApiVersions on.
#[tactic(auto, unfolding(kb_wire::specs::Codec::int))]
fn throttle_behind(version: i16) -> &'static [u8]
    ensures { result.now ≡ throttle_behind version }
{
    if version >= 1 { &[0, 0, 0, 0] } else { &[] }
}

/// ApiVersions of a version that is listed: the whole table, and a throttle time behind it where the version has one.
pub fn listed_body(
    alloc: Global,
    versions: &Array<ApiVersion>,
    version: i16,
) -> Result<Vec<u8>, AllocError>
    requires { (array api_version).Fits versions.now }
    ensures { IfOk result (λ body. body.items ≡ versions_in version versions.now) }
{
    let mut body = versions_body(alloc, versions, ErrorCode::None)?;
    body.extend_from_slice(throttle_behind(version))?;
    Ok(body)
}

/// SaslHandshake: a code and the mechanisms, PLAIN alone.
pub fn handshake_body(alloc: Global, code: ErrorCode) -> Result<Vec<u8>, AllocError>
    ensures { IfOk result (λ body. body.items ≡ handshake_reply code) }
{
    let mut mechanisms = Array::new(alloc);
    mechanisms.push(Text::new("PLAIN"))?;
    let reply = SaslHandshakeReply {
        error_code: code.code(),
        mechanisms,
    };
    let mut sink = Sink::new(alloc);
    reply.write(&mut sink)?;
    Ok(sink.into_vec())
}

/// SaslAuthenticate: a code, and a text where it is not 0.
pub fn authenticate_body(
    alloc: Global,
    code: ErrorCode,
    message: Option<Text<'_>>,
) -> Result<Vec<u8>, AllocError>
    requires { IfSome message (λ text. length text < 2 ^ 15) }
    ensures { IfOk result (λ body. body.items ≡ authenticate_reply code message.entry) }
{
    let reply = SaslAuthenticateReply {
        error_code: code.code(),
        error_message: message,
        auth_bytes: Blob::new(&[]),
    };
    let mut sink = Sink::new(alloc);
    reply.write(&mut sink)?;
    Ok(sink.into_vec())
}

/// The bytes of a throttle time of 0 milliseconds, an INT32, where the head has one: they stand in front of the reply's body.
pub fn throttle_time(head: Head) -> &'static [u8]
    ensures bytes { (body : List ℕ) → result.now ++ body ≡ throttled head body }
    ensures short { length result.now ≤ 4 }
{
    if head.is_throttled {
        &[0, 0, 0, 0]
    } else {
        &[]
    }
}

/// The body of a whole reply: what stands behind its size and its correlation id.
pub fn body_of(reply: &[u8]) -> &[u8]
    ensures { result.now ≡ body_of reply.now }
{
    reply.get(8..).unwrap_or_default()
}

/// Adds a size, a correlation id, a throttle time where the head has one, and a body, all or nothing.
pub fn append_reply(output: &mut Vec<u8>, head: Head, body: &[u8]) -> Result<(), AllocError>
    requires { reply_size (throttled head body.now) < 2 ^ 31 }
    ensures ok { OnOk result (output.new.items ≡ output.old.items ++ framed head.correlation_id (throttled head body.now)) }
    ensures err { OnErr result (output.new.items ≡ output.old.items) }
{
    let throttle_time = throttle_time(head);
    let size = (4 + throttle_time.len() + body.len()) as i32;
    output.try_reserve(8 + throttle_time.len() + body.len())?;
    output.extend_from_slice(&size.to_be_bytes())?;
    output.extend_from_slice(&head.correlation_id.to_be_bytes())?;
    output.extend_from_slice(throttle_time)?;
    output.extend_from_slice(body)
}
