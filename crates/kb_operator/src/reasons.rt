//! What is wrong with a key of the settings, or with a user. No password and no token is told.

use crate::entries::{name_of, numbered, other_key, place_of, shown, text_reason};
use crate::limits::tenants_reason;
use std::alloc::{AllocError, Global};
use toml::Value;
use toml::value::Array;

/// The keys of a user.
const USER_KEYS: [&str; 3] = ["name", "password", "tenant"];

/// The most users, and the most different tenants.
const USERS: usize = 1000;

/// What stands behind `bad settings: KEY` for a text of settings whose first wrong key this is.
pub fn field_reason(alloc: Global, text: &str, key: &str) -> Result<String, AllocError> {
    let Ok(document) = toml::table_from_str(alloc, text) else {
        return Ok(String::new(alloc));
    };
    if key == "user" {
        return user_reason(alloc, document.get(key));
    }
    if key == "tenant" {
        return tenants_reason(alloc, &document);
    }
    if key == "metrics_token" {
        return token_reason(alloc, document.get(key));
    }
    let Some(wanted) = wanted(key) else {
        return String::from_str(alloc, ": there is no such key");
    };
    match document.get(key) {
        Some(Value::String(host)) if key == "host" && is_host(host) => {
            format!(in alloc; ": {host:?} would be told to clients: set `advertise`, too")
        }
        Some(value) => format!(in alloc; ": {} is not {wanted}", shown(alloc, value)?),
        None => String::from_str(alloc, ": is missing"),
    }
}

/// What is wrong with the token for metrics, which is not told.
fn token_reason(alloc: Global, token: Option<&Value>) -> Result<String, AllocError> {
    match token {
        Some(_) => String::from_str(
            alloc,
            ": is not a text of 16 to 255 printable ASCII characters",
        ),
        None => String::from_str(
            alloc,
            ": is missing, and others than this machine can ask for `metrics`",
        ),
    }
}

/// What a key may be.
fn wanted(key: &str) -> Option<&str> {
    match key {
        "host" => Some("a host of 1 to 255 bytes"),
        "port" => Some("a port from 1 to 65535"),
        "advertise" => {
            Some("HOST:PORT that clients can connect to, with an IPv6 address in brackets")
        }
        "segment_bytes" => Some("a number from 4096 to 1073741824"),
        "cache_batches" => Some("a number from 1 to 65536"),
        "cache_bytes" => Some("a number from 0 to 1099511627776"),
        "connections" => Some("a number from 1 to 1000000"),
        "output_bytes" => Some("a number from 1048576 to 4294967295"),
        "sync" => Some("\"always\", \"interval\" or \"never\""),
        "sync_ms" => Some("a number from 1 to 60000"),
        "login_seconds" | "reply_seconds" | "request_seconds" => Some("a number from 1 to 3600"),
        "strangers" => Some("a number from 1 to `connections`"),
        "idle_seconds" => Some("a number from 0 to 4294967"),
        "input_bytes" => Some("a number from 8388608 to 4294967295"),
        "request_bytes" => Some("a number from 2097152 to 104857600"),
        "request_entries" => Some("a number from 1000 to 2097152"),
        "reply_bytes" => Some("a number from 1048576 to 2147483647"),
        "stock_clients" | "logins" => Some("true or false"),
        "metrics" => Some("HOST:PORT of this machine, with an IPv6 address in brackets"),
        "data" => Some("a path"),
        _ => None,
    }
}

/// Whether a host is wrong only since it would be told.
fn is_host(host: &str) -> bool {
    matches!(host, "0.0.0.0" | "::" | "[::]")
}

/// What is wrong with the users.
fn user_reason(alloc: Global, users: Option<&Value>) -> Result<String, AllocError> {
    let entries = match users {
        Some(Value::Array(entries)) if !entries.is_empty() => entries,
        Some(Value::Array(_)) | None => return String::from_str(alloc, ": there is none"),
        Some(_) => return String::from_str(alloc, ": is not an array of tables `[[user]]`"),
    };
    for (place, entry) in entries.iter().enumerate() {
        if let Some(wrong) = entry_reason(alloc, entry)? {
            return numbered(alloc, place, entry, &wrong);
        }
    }
    together_reason(alloc, entries)
}

/// What is wrong with users that are right each by itself.
fn together_reason(alloc: Global, entries: &Array) -> Result<String, AllocError> {
    if entries.len() > USERS {
        return format!(in alloc;
            ": there are {}, and at most {USERS} are taken",
            entries.len()
        );
    }
    for (place, entry) in entries.iter().enumerate() {
        if let Some(first) = place_of(entries, name_of(entry))
            && first < place
        {
            let number = first.saturating_add(1);
            let wrong = format!(in alloc; "user {number} has the same name")?;
            return numbered(alloc, place, entry, &wrong);
        }
    }
    String::from_str(alloc, ": they are of more than 256 tenants")
}

/// What is wrong with an entry of `user`, if anything.
fn entry_reason(alloc: Global, entry: &Value) -> Result<Option<String>, AllocError> {
    let Value::Table(entry) = entry else {
        return Ok(Some(String::from_str(alloc, "is no table")?));
    };
    for key in USER_KEYS {
        if let Some(wrong) = text_reason(key, entry.get(key)) {
            return Ok(Some(format!(in alloc; "{key} {wrong}")?));
        }
    }
    match other_key(entry, &USER_KEYS) {
        Some(key) => Ok(Some(format!(in alloc; "there is no such key: {key}")?)),
        None => Ok(None),
    }
}
