//! What is wrong with the limits of tenants in the settings.

use crate::entries::{name_of, numbered, other_key, place_of, shown, text_reason};
use kb_settings::is_endpoint;
use std::alloc::{AllocError, Global};
use toml::value::Array;
use toml::{Table, Value};

/// The keys of limits.
const KEYS: [&str; 11] = [
    "name",
    "connections",
    "reserved_connections",
    "groups",
    "group_bytes",
    "topics",
    "partitions",
    "offsets",
    "bytes",
    "fetch_bytes",
    "advertise",
];

/// The most limits.
const LIMITS: usize = 256;

/// What stands behind `bad settings: tenant` for a document that is right up to there.
pub fn tenants_reason(alloc: Global, document: &Table) -> Result<String, AllocError> {
    let connections = integer_of(document.get("connections")).unwrap_or(1024);
    let entries = match document.get("tenant") {
        Some(Value::Array(entries)) => entries,
        _ => return String::from_str(alloc, ": is not an array of tables `[[tenant]]`"),
    };
    for (place, entry) in entries.iter().enumerate() {
        if let Some(wrong) = entry_reason(alloc, document, connections, entry)? {
            return numbered(alloc, place, entry, &wrong);
        }
    }
    together_reason(alloc, connections, entries)
}

/// What is wrong with limits that are right each by itself.
fn together_reason(alloc: Global, connections: i64, entries: &Array) -> Result<String, AllocError> {
    if entries.len() > LIMITS {
        return format!(in alloc;
            ": there are {}, and at most {LIMITS} are taken",
            entries.len()
        );
    }
    let mut reserved = 0_i64;
    for (place, entry) in entries.iter().enumerate() {
        if let Some(first) = place_of(entries, name_of(entry))
            && first < place
        {
            let number = first.saturating_add(1);
            let wrong = format!(in alloc; "tenant {number} has the same name")?;
            return numbered(alloc, place, entry, &wrong);
        }
        let here = integer_of(entry.get("reserved_connections")).unwrap_or(0);
        reserved = reserved.saturating_add(here);
    }
    format!(in alloc;
        ": {reserved} connections are reserved, and there are only {connections}: at least one must be left"
    )
}

/// What is wrong with an entry of `tenant`, if anything.
fn entry_reason(
    alloc: Global,
    document: &Table,
    connections: i64,
    entry: &Value,
) -> Result<Option<String>, AllocError> {
    let Value::Table(entry) = entry else {
        return Ok(Some(String::from_str(alloc, "is no table")?));
    };
    if let Some(wrong) = text_reason("tenant", entry.get("name")) {
        return Ok(Some(format!(in alloc; "name {wrong}")?));
    }
    if !is_named(document.get("user"), entry.get("name")) {
        return Ok(Some(String::from_str(alloc, "no user is of this tenant")?));
    }
    if let Some(wrong) = numbers_reason(alloc, connections, entry)? {
        return Ok(Some(wrong));
    }
    if let Some(wrong) = address_reason(alloc, entry.get("advertise"))? {
        return Ok(Some(wrong));
    }
    match other_key(entry, &KEYS) {
        Some(key) => Ok(Some(format!(in alloc; "there is no such key: {key}")?)),
        None => Ok(None),
    }
}

/// What is wrong with the first wrong number of an entry, if one is.
fn numbers_reason(
    alloc: Global,
    connections: i64,
    entry: &Table,
) -> Result<Option<String>, AllocError> {
    let most = integer_of(entry.get("connections")).unwrap_or(connections);
    let numbers = [
        ("connections", 1, connections),
        ("reserved_connections", 0, most),
        ("groups", 0, 1000),
        ("group_bytes", 1_048_576, i64::MAX),
        ("topics", 0, 1000),
        ("partitions", 0, 64_000),
        ("offsets", 0, 1_000_000),
        ("bytes", 1_048_576, i64::MAX),
        ("fetch_bytes", 65_536, 8_388_608),
    ];
    for (key, low, high) in numbers {
        if let Some(wrong) = number_reason(alloc, entry.get(key), low, high)? {
            return Ok(Some(format!(in alloc; "{key}: {wrong}")?));
        }
    }
    Ok(None)
}

/// What is wrong with the address that a tenant's clients are told, if anything.
fn address_reason(alloc: Global, value: Option<&Value>) -> Result<Option<String>, AllocError> {
    match value {
        None => Ok(None),
        Some(Value::String(text)) if is_endpoint(text) => Ok(None),
        Some(value) => {
            let shown = shown(alloc, value)?;
            Ok(Some(format!(in alloc;
                "advertise: {shown} is not HOST:PORT that clients can connect to, with an IPv6 address in brackets"
            )?))
        }
    }
}

/// Whether a user is of the tenant of this name.
fn is_named(users: Option<&Value>, name: Option<&Value>) -> bool {
    let Some(Value::Array(users)) = users else {
        return false;
    };
    let Some(Value::String(name)) = name else {
        return false;
    };
    users
        .iter()
        .any(|user| tenant_of(user) == Some(name.as_str()))
}

/// The tenant of a user, where it is a text.
fn tenant_of(user: &Value) -> Option<&str> {
    user.get("tenant")?.as_str()
}

/// What is wrong with a number that may be missing, if anything.
fn number_reason(
    alloc: Global,
    value: Option<&Value>,
    low: i64,
    high: i64,
) -> Result<Option<String>, AllocError> {
    match value {
        None => Ok(None),
        Some(Value::Integer(number)) if low <= *number && *number <= high => Ok(None),
        Some(value) => {
            let shown = shown(alloc, value)?;
            Ok(Some(format!(in alloc; "{shown} is not a number from {low} to {high}")?))
        }
    }
}

/// A number, where there is one.
fn integer_of(value: Option<&Value>) -> Option<i64> {
    match value {
        Some(Value::Integer(number)) => Some(*number),
        _ => None,
    }
}
