//! What is wrong with an entry of the settings, as a user.

use std::alloc::{AllocError, Global};
use toml::value::Array;
use toml::{Table, Value};

/// A value in short.
pub fn shown(alloc: Global, value: &Value) -> Result<String, AllocError> {
    match value {
        Value::Integer(number) => format!(in alloc; "{number}"),
        Value::String(text) if text.len() <= 64 => format!(in alloc; "{text:?}"),
        Value::String(text) => format!(in alloc; "a text of {} bytes", text.len()),
        other => format!(in alloc; "a value of type {}", other.type_str()),
    }
}

/// The place of the first entry of a name.
pub fn place_of(entries: &Array, name: Option<&str>) -> Option<usize> {
    entries.iter().position(|entry| name_of(entry) == name)
}

/// The name of an entry, where it is a text.
pub fn name_of(entry: &Value) -> Option<&str> {
    entry.get("name")?.as_str()
}

/// An entry by number, from 1, and by name, and what is wrong with it.
pub fn numbered(
    alloc: Global,
    place: usize,
    entry: &Value,
    wrong: &str,
) -> Result<String, AllocError> {
    let number = place.saturating_add(1);
    match name_of(entry) {
        Some(name) if name.len() <= 255 => format!(in alloc; " {number} ({name:?}): {wrong}"),
        _ => format!(in alloc; " {number}: {wrong}"),
    }
}

/// The first key of an entry that is none of these.
pub fn other_key<'a>(entry: &'a Table, keys: &[&str]) -> Option<&'a str> {
    entry
        .iter()
        .map(|(key, _)| key.as_str())
        .find(|key| !keys.contains(key))
}

/// What is wrong with a text of an entry, if anything. At the key `tenant` it is the name of a tenant.
pub fn text_reason(key: &str, value: Option<&Value>) -> Option<&'static str> {
    let Some(value) = value else {
        return Some("is missing");
    };
    let Value::String(text) = value else {
        return Some("is no text");
    };
    if text.is_empty() {
        Some("is empty")
    } else if key == "tenant" {
        tenant_reason(text)
    } else if text.len() > 255 {
        Some("has more than 255 bytes")
    } else if text.as_bytes().contains(&0) {
        Some("has a NUL")
    } else {
        None
    }
}

/// What is wrong with the name of a tenant that is not empty, if anything.
fn tenant_reason(text: &str) -> Option<&'static str> {
    if text.len() > 64 {
        Some("has more than 64 bytes")
    } else if text.bytes().all(is_name_byte) {
        None
    } else {
        Some("has a character that is none of a-z A-Z 0-9 . _ -")
    }
}

fn is_name_byte(byte: u8) -> bool {
    byte.is_ascii_alphanumeric() || matches!(byte, b'.' | b'_' | b'-')
}
