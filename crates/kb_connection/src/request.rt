//! What a frame asks of the broker itself; the rest is for the tenant.

ghost use Rattle.std.specs.Prelude.{◌≡◌, IfOk};
ghost use Rattle.kb_api_group.specs.Layouts.{request_header};
ghost use Rattle.kb_isolation_spec.specs.Requests.{request, asked_by, asked_behind, is_served, unserved};
ghost use Rattle.kb_isolation_spec.specs.Session.{unanswerable};
ghost use Rattle.kb_connection.specs.View.{asked_of, request_of, ReadsAs};

use crate::version::{NO_HEAD, base_of, head_of};
use kb_api_group::{
    ApiVersion, ApiVersionsRequest, RequestHeader, RequestStart, SaslAuthenticateRequest,
    SaslHandshakeRequest,
};
use kb_isolation_spec::{Head, Shut};
use kb_wire::{Blob, Layout, ReadFault, Text, api_key};
use std::alloc::{AllocError, Global};

/// What a request asks: the versions, a step of the SASL greeting, or something of a tenant; or its bytes match nothing
/// that is served.
#[derive(Drop)]
pub enum Asked<'a> {
    /// ApiVersions at a version that is listed.
    Versions,
    /// ApiVersions at another version.
    OtherVersions,
    /// SaslHandshake: its version and the mechanism.
    Handshake {
        version: i16,
        mechanism: Text<'a>,
    },
    /// SaslAuthenticate: the mechanism's message.
    Authenticate(Blob<'a>),
    /// Something of a tenant, in the version that the request's is laid out as.
    Another {
        key: i16,
        version: i16,
        body: Blob<'a>,
    },
    /// Bytes that match nothing that is served.
    Malformed,
}

/// A request: what is kept of it for its reply, and what it asks.
#[derive(Drop)]
pub struct Request<'a> {
    pub head: Head,
    pub asked: Asked<'a>,
}

impl<'a> Request<'a> {
    /// The request of a frame, where those versions are listed. ApiVersions of another version is known by its key and version alone.
    #[tactic(auto, unfolding(kb_isolation_spec::specs::Requests::request))]
    pub fn read(
        alloc: Global,
        versions: &[ApiVersion],
        frame: &'a [u8],
    ) -> Result<Request<'a>, AllocError>
        ensures { IfOk result (λ r. request_of r ≡ request versions.now frame.now) }
    {
        let Ok((start, _)) = RequestStart::read(frame) else {
            return Ok(Request {
                head: NO_HEAD,
                asked: Asked::Malformed,
            });
        };
        let asked = if start.api_key == api_key::API_VERSIONS
            && !is_served(versions, start.api_key, start.api_version)
        {
            Asked::OtherVersions
        } else {
            read_asked(alloc, versions, frame)?
        };
        Ok(Request {
            head: head_of(&start),
            asked,
        })
    }
}

/// What a frame asks by its header and the body behind it.
fn read_asked<'a>(
    alloc: Global,
    versions: &[ApiVersion],
    frame: &'a [u8],
) -> Result<Asked<'a>, AllocError>
    ensures { IfOk result (λ a. asked_of a ≡ asked_behind versions.now (request_header.read frame.now)) }
{
    let Ok((header, body)) = RequestHeader::read(frame) else {
        return Ok(Asked::Malformed);
    };
    if !is_served(versions, header.api_key, header.api_version) {
        return Ok(Asked::Malformed);
    }
    match read_body(alloc, header.api_key, header.api_version, body) {
        Ok(asked) => Ok(asked),
        Err(ReadFault::Wire(_)) => Ok(Asked::Malformed),
        Err(ReadFault::Memory) => Err(AllocError),
    }
}

/// The body of a request, by its key. The tenant is asked in the version that the request's is laid out as.
fn read_body(alloc: Global, key: i16, version: i16, body: &[u8]) -> Result<Asked<'_>, ReadFault>
    ensures { ReadsAs (asked_by key version body.now) result }
{
    let asked = match key {
        api_key::API_VERSIONS => {
            ApiVersionsRequest::read(alloc, body)?;
            Asked::Versions
        }
        api_key::SASL_HANDSHAKE => Asked::Handshake {
            version,
            mechanism: SaslHandshakeRequest::read(alloc, body)?.mechanism,
        },
        api_key::SASL_AUTHENTICATE => {
            Asked::Authenticate(SaslAuthenticateRequest::read(alloc, body)?.auth_bytes)
        }
        _ => Asked::Another {
            key,
            version: base_of(key, version).version,
            body: Blob::new(body),
        },
    };
    Ok(asked)
}

/// Whether a key is served at a version: where an entry of what is listed has it, from its least version to its greatest.
#[tactic(auto, unfolding(kb_isolation_spec::specs::Requests::is_served))]
fn is_served(versions: &[ApiVersion], key: i16, version: i16) -> bool
    ensures { result ≡ is_served versions.now key version }
{
    versions.iter().any(|entry| entry.api_key == key
        && entry.min_version <= version
        && version <= entry.max_version)
}

/// Why the connection of a request of that head is shut whose bytes match nothing that is served.
pub fn unserved(versions: &[ApiVersion], head: Head) -> Shut
    ensures { result ≡ unserved versions.now head }
{
    if is_served(versions, head.api_key, head.api_version) {
        return unanswerable(head);
    }
    Shut::NotServed {
        api_key: head.api_key,
        api_version: head.api_version,
    }
}

/// Why the connection of a request of that head is shut which gets no reply.
pub fn unanswerable(head: Head) -> Shut
    ensures { result ≡ unanswerable head }
{
    Shut::Unanswerable {
        api_key: head.api_key,
        api_version: head.api_version,
    }
}
