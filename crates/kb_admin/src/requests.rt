//! The requests of a session, each as its bytes.

ghost use Rattle.std.specs.Prelude.{◌≡◌, ◌≤◌, All, IfOk, length, map};
ghost use Rattle.kb_api_data.specs.Layouts.{create_config};
ghost use Rattle.kb_client.specs.Requests.{request_text, handshake_text};
ghost use Rattle.kb_admin.specs.Requests.{plain_message, authenticate_text, config_of, create_text, delete_text, list_text};

use crate::short_text::ShortText;
use crate::task::{NewTopic, Setting};
use kb_api_data::{
    CreateConfig, CreateTopic, CreateTopicsRequest, DeleteTopicsRequest, MetadataRequest,
};
use kb_api_group::{RequestHeader, SaslAuthenticateRequest, SaslHandshakeRequest};
use kb_wire::{Array, Blob, Layout, Sink, Text, api_key};
use std::alloc::{AllocError, Global};

/// How long the broker may take, in milliseconds.
const TIMEOUT_MS: i32 = 5000;

/// The greatest size of a request and count of an array, which are INT32.
const MAX_INT32: usize = 2_147_483_647;

/// A request of that key and version: its size, its header and its body.
fn request<'a, T: Layout<'a>>(
    alloc: Global,
    api: (i16, i16),
    correlation_id: i32,
    body: &T,
) -> Result<Vec<u8>, AllocError>
    requires { T.codec.Fits body.now }
    ensures { IfOk result (λ text. text.items ≡ request_text api.0 api.1 correlation_id (T.codec.written body.now)) }
{
    let header = RequestHeader {
        api_key: api.0,
        api_version: api.1,
        correlation_id,
        client_id: None,
    };
    let mut message = Sink::new(alloc);
    header.write(&mut message)?;
    body.write(&mut message)?;
    if message.len() > MAX_INT32 {
        return Err(AllocError);
    }
    let mut text = Sink::new(alloc);
    text.put_blob(message.as_slice())?;
    Ok(text.into_vec())
}

/// SaslHandshake: the mechanism PLAIN.
pub fn handshake(alloc: Global, id: i32) -> Result<Vec<u8>, AllocError>
    ensures { IfOk result (λ text. text.items ≡ handshake_text id) }
{
    let body = SaslHandshakeRequest {
        mechanism: Text::new("PLAIN"),
    };
    request(alloc, (api_key::SASL_HANDSHAKE, 1), id, &body)
}

/// The message of PLAIN (RFC 4616).
fn plain_message(
    alloc: Global,
    user: &ShortText,
    password: &ShortText,
) -> Result<Vec<u8>, AllocError>
    ensures message { IfOk result (λ message. message.items ≡ plain_message user.now password.now) }
    ensures short { IfOk result (λ message. length message.items ≤ 512) }
{
    let mut message = Vec::new(alloc);
    message.push(0)?;
    message.extend_from_slice(user.as_str().as_bytes())?;
    message.push(0)?;
    message.extend_from_slice(password.as_str().as_bytes())?;
    Ok(message)
}

/// SaslAuthenticate: the user and the password.
pub fn authenticate(
    alloc: Global,
    id: i32,
    user: &ShortText,
    password: &ShortText,
) -> Result<Vec<u8>, AllocError>
    ensures { IfOk result (λ text. text.items ≡ authenticate_text id user.now password.now) }
{
    let message = plain_message(alloc, user, password)?;
    let body = SaslAuthenticateRequest {
        auth_bytes: Blob::new(&message),
    };
    request(alloc, (api_key::SASL_AUTHENTICATE, 0), id, &body)
}

/// Settings as CreateTopics has them.
fn configs_of<'a>(
    alloc: Global,
    settings: &'a [Setting],
) -> Result<Array<CreateConfig<'a>>, AllocError>
    ensures configs { IfOk result (λ configs. configs ≡ map config_of settings.now) }
    ensures fits { IfOk result (λ configs. All create_config.Fits configs) }
{
    let mut configs = Array::new(alloc);
    for setting in settings {
        configs.push(CreateConfig {
            name: Text::new(setting.key.as_str()),
            value: Some(Text::new(setting.value.as_str())),
        })?;
    }
    Ok(configs)
}

/// CreateTopics: the topic, on one broker. More settings than an INT32 can count are refused as want of memory.
pub fn create(alloc: Global, id: i32, topic: &NewTopic) -> Result<Vec<u8>, AllocError>
    ensures { IfOk result (λ text. text.items ≡ create_text id topic.now) }
{
    let configs = configs_of(alloc, &topic.settings)?;
    if configs.len() > MAX_INT32 {
        return Err(AllocError);
    }
    let mut topics = Array::new(alloc);
    topics.push(CreateTopic {
        name: Text::new(topic.name.as_str()),
        num_partitions: topic.partitions,
        replication_factor: 1,
        assignments: Array::new(alloc),
        configs,
    })?;
    let body = CreateTopicsRequest {
        topics,
        timeout_ms: TIMEOUT_MS,
    };
    request(alloc, (api_key::CREATE_TOPICS, 0), id, &body)
}

/// DeleteTopics: the topic of that name.
pub fn delete(alloc: Global, id: i32, name: &ShortText) -> Result<Vec<u8>, AllocError>
    ensures { IfOk result (λ text. text.items ≡ delete_text id name.now) }
{
    let mut names = Array::new(alloc);
    names.push(Text::new(name.as_str()))?;
    let body = DeleteTopicsRequest {
        names,
        timeout_ms: TIMEOUT_MS,
    };
    request(alloc, (api_key::DELETE_TOPICS, 0), id, &body)
}

/// Metadata: all topics.
pub fn list(alloc: Global, id: i32) -> Result<Vec<u8>, AllocError>
    ensures { IfOk result (λ text. text.items ≡ list_text id) }
{
    let body = MetadataRequest { topics: None };
    request(alloc, (api_key::METADATA, 1), id, &body)
}
