//! What a settings document says, key by key.

ghost use Rattle.std.specs.Prelude.{◌≡◌, ◌≤◌, None, codes, false, is_some, map, option_map, option_and_then, IfSome, IsTrue};
ghost use Rattle.std.specs.List.{list_any};
ghost use Rattle.std.specs.Str.{bytes_eq};
ghost use Rattle.toml.specs.Data.{as_bool, as_str, get_member};
ghost use Rattle.toml.specs.View.{view, table_view};
ghost use Rattle.kb_settings.specs.Settings.{is_credential, is_tenant};
ghost use Rattle.kb_settings.specs.Address.{is_listened, endpoint_in};
ghost use Rattle.kb_settings.specs.Metrics.{is_token};
ghost use Rattle.kb_settings.specs.Document.{text_in, number_in, host_in, is_told, advertise_in, folder_in, sync_in, said_or, text_of};
ghost use Rattle.kb_settings.specs.Document.{limit_in, token_in};
ghost use Rattle.kb_settings.specs.Document.{other_key};
ghost use Rattle.kb_settings.specs.declared.sync.Sync.TheVariants.{Interval};

use crate::address::{bare, endpoint, is_listened};
use crate::limits;
use crate::sync::Sync;
use toml::{Table, Value};

/// The value at a key.
pub fn at<'a>(document: &'a Table, key: &str) -> Option<&'a Value>
    ensures { option_map (λ value. view value.now) result ≡ get_member key.now (table_view document.now) }
{
    document.get(key)
}

/// The host that is listened on.
pub fn host(document: &Table) -> Option<&str>
    ensures says { option_map (λ text. text.now) result
        ≡ said_or (codes "localhost") (host_in (is_told (table_view document.now))) (get_member (codes "host") (table_view document.now)) }
    ensures fits { IfSome result (λ text. IsTrue (is_listened (is_told (table_view document.now)) text.now)) }
{
    let told = at(document, "advertise").is_some();
    match at(document, "host") {
        None => Some("localhost"),
        Some(value) => host_in(told, value),
    }
}

fn host_in(told: bool, value: &Value) -> Option<&str>
    ensures says { option_map (λ text. text.now) result ≡ host_in told (view value.now) }
    ensures fits { IfSome result (λ text. IsTrue (is_listened told text.now)) }
{
    let host = bare(value.as_str()?);
    if is_listened(told, host) {
        Some(host)
    } else {
        None
    }
}

/// The host and the port at a key, where it is there.
pub fn address<'a>(document: &'a Table, key: &str) -> Option<Option<(&'a str, u16)>>
    ensures says { option_map (option_map (λ endpoint. (endpoint.0.now, endpoint.1))) result
        ≡ said_or None advertise_in (get_member key.now (table_view document.now)) }
    ensures told { IfSome result (λ endpoint. is_some endpoint ≡ is_some (get_member key.now (table_view document.now))) }
    ensures host { IfSome result (λ endpoint. IfSome endpoint (λ e. IsTrue (is_listened false e.0.now))) }
    ensures port { IfSome result (λ endpoint. IfSome endpoint (λ e. 1 ≤ e.1)) }
{
    match at(document, key) {
        None => Some(None),
        Some(value) => Some(Some(endpoint_in(value)?)),
    }
}

fn endpoint_in(value: &Value) -> Option<(&str, u16)>
    ensures says { option_map (λ endpoint. (endpoint.0.now, endpoint.1)) result ≡ option_and_then endpoint_in (as_str (view value.now)) }
    ensures host { IfSome result (λ endpoint. IsTrue (is_listened false endpoint.0.now)) }
    ensures port { IfSome result (λ endpoint. 1 ≤ endpoint.1) }
{
    endpoint(value.as_str()?)
}

/// A number at a key, both limits included.
pub fn number(document: &Table, key: &str, standard: u32, low: u32, high: u32) -> Option<u32>
    requires low { low ≤ standard }
    requires high { standard ≤ high }
    ensures says { result ≡ said_or standard (number_in low high) (get_member key.now (table_view document.now)) }
    ensures low { IfSome result (λ n. low ≤ n) }
    ensures high { IfSome result (λ n. n ≤ high) }
{
    match at(document, key) {
        None => Some(standard),
        Some(value) => number_in(value, low, high),
    }
}

fn number_in(value: &Value, low: u32, high: u32) -> Option<u32>
    ensures says { result ≡ number_in low high (view value.now) }
    ensures low { IfSome result (λ n. low ≤ n) }
    ensures high { IfSome result (λ n. n ≤ high) }
{
    let Value::Integer(integer) = value else {
        return None;
    };
    match u32::try_from(*integer) {
        Ok(n) if low <= n && n <= high => Some(n),
        _ => None,
    }
}

/// A size at a key, both limits included.
pub fn size(document: &Table, key: &str, standard: u64, low: u64, high: u64) -> Option<u64>
    requires low { low ≤ standard }
    requires high { standard ≤ high }
    ensures says { result ≡ said_or standard (number_in low high) (get_member key.now (table_view document.now)) }
    ensures low { IfSome result (λ n. low ≤ n) }
    ensures high { IfSome result (λ n. n ≤ high) }
{
    match at(document, key) {
        None => Some(standard),
        Some(value) => size_in(value, low, high),
    }
}

fn size_in(value: &Value, low: u64, high: u64) -> Option<u64>
    ensures says { result ≡ number_in low high (view value.now) }
    ensures low { IfSome result (λ n. low ≤ n) }
    ensures high { IfSome result (λ n. n ≤ high) }
{
    let Value::Integer(integer) = value else {
        return None;
    };
    match u64::try_from(*integer) {
        Ok(bytes) if low <= bytes && bytes <= high => Some(bytes),
        _ => None,
    }
}

/// A limit at a key, both ends included, where it is there.
pub fn limit(document: &Table, key: &str, low: u64, high: u64) -> Option<Option<u64>>
    ensures says { result ≡ said_or None (limit_in low high) (get_member key.now (table_view document.now)) }
    ensures low { IfSome result (λ limit. IfSome limit (λ n. low ≤ n)) }
    ensures high { IfSome result (λ limit. IfSome limit (λ n. n ≤ high)) }
{
    match at(document, key) {
        None => Some(None),
        Some(value) => Some(Some(size_in(value, low, high)?)),
    }
}

/// Whether it is so.
pub fn flag(document: &Table, key: &str, standard: bool) -> Option<bool>
    ensures { result ≡ said_or standard as_bool (get_member key.now (table_view document.now)) }
{
    match at(document, key) {
        None => Some(standard),
        Some(value) => value.as_bool(),
    }
}

/// When what was done is made to last.
pub fn sync(document: &Table) -> Option<Sync>
    ensures { result ≡ said_or Interval sync_in (get_member (codes "sync") (table_view document.now)) }
{
    match at(document, "sync") {
        None => Some(Sync::Interval),
        Some(value) => sync_in(value),
    }
}

fn sync_in(value: &Value) -> Option<Sync>
    ensures { result ≡ sync_in (view value.now) }
{
    Sync::named(value.as_str()?)
}

/// The data folder, where there is one.
pub fn folder(document: &Table) -> Option<Option<&str>>
    ensures { option_map (option_map (λ text. text.now)) result
        ≡ said_or None folder_in (get_member (codes "data") (table_view document.now)) }
{
    match at(document, "data") {
        None => Some(None),
        Some(value) => folder_in(value),
    }
}

fn folder_in(value: &Value) -> Option<Option<&str>>
    ensures { option_map (option_map (λ text. text.now)) result ≡ folder_in (view value.now) }
{
    let text = value.as_str()?;
    Some(Some(text))
}

/// The token that who asks for metrics has to name, where there is one.
pub fn token(document: &Table) -> Option<Option<&str>>
    ensures says { option_map (option_map (λ text. text.now)) result
        ≡ said_or None token_in (get_member (codes "metrics_token") (table_view document.now)) }
    ensures fits { IfSome result (λ token. IfSome token (λ text. IsTrue (is_token text.now))) }
{
    match at(document, "metrics_token") {
        None => Some(None),
        Some(value) => token_in(value),
    }
}

fn token_in(value: &Value) -> Option<Option<&str>>
    ensures says { option_map (option_map (λ text. text.now)) result ≡ token_in (view value.now) }
    ensures fits { IfSome result (λ token. IfSome token (λ text. IsTrue (is_token text.now))) }
{
    let text = value.as_str()?;
    if limits::is_token(text) {
        Some(Some(text))
    } else {
        None
    }
}

/// A user's name or password.
pub fn credential<'a>(entry: &'a Table, key: &str) -> Option<&'a str>
    ensures says { option_map (λ text. text.now) result ≡ text_of is_credential key.now (table_view entry.now) }
    ensures fits { IfSome result (λ text. IsTrue (is_credential text.now)) }
{
    credential_in(at(entry, key)?)
}

fn credential_in(value: &Value) -> Option<&str>
    ensures says { option_map (λ text. text.now) result ≡ text_in is_credential (view value.now) }
    ensures fits { IfSome result (λ text. IsTrue (is_credential text.now)) }
{
    let text = value.as_str()?;
    if limits::is_credential(text) {
        Some(text)
    } else {
        None
    }
}

/// The name of a tenant.
pub fn tenant<'a>(entry: &'a Table, key: &str) -> Option<&'a str>
    ensures says { option_map (λ text. text.now) result ≡ text_of is_tenant key.now (table_view entry.now) }
    ensures fits { IfSome result (λ text. IsTrue (is_tenant text.now)) }
{
    tenant_in(at(entry, key)?)
}

fn tenant_in(value: &Value) -> Option<&str>
    ensures says { option_map (λ text. text.now) result ≡ text_in is_tenant (view value.now) }
    ensures fits { IfSome result (λ text. IsTrue (is_tenant text.now)) }
{
    let text = value.as_str()?;
    if limits::is_tenant(text) {
        Some(text)
    } else {
        None
    }
}

/// The first key, in byte order, that is none of these.
pub fn other_key<'a>(document: &'a Table, keys: &[&str]) -> Option<&'a str>
    ensures { option_map (λ key. key.now) result ≡ other_key (map (λ key. key.now) keys.now) (table_view document.now) }
{
    'members: for (key, _value) in document.iter() {
        if !is_among(key.as_str(), keys) {
            return Some(key.as_str());
        }
    }
    None
}

fn is_among(key: &str, keys: &[&str]) -> bool
    ensures { result ≡ list_any (bytes_eq key.now) (map (λ key. key.now) keys.now) }
{
    keys.iter().any(|known| *known == key)
}
