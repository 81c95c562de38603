//! A host, and `HOST:PORT`, as texts.

ghost use Rattle.std.specs.Prelude.{◌≡◌, ◌≤◌, ◌<◌, is_some, option_map, option_and_then, IfSome, IsTrue, false};
ghost use Rattle.std.specs.List.{list_all};
ghost use Rattle.kb_settings.specs.Address.{behind, around, is_wildcard, is_listened, bare, is_digit, are_digits, port_in, bracketed, parts, endpoint_in};
ghost use Rattle.kb_settings.specs.Metrics.{is_dotted, is_guarded, is_in_127, is_loopback};

use crate::limits;

/// Whether a host stands for every address of the machine.
fn is_wildcard(host: &str) -> bool
    ensures { result ≡ is_wildcard host.now }
{
    host == "0.0.0.0" || host == "::"
}

/// Whether a host may be listened on: `0.0.0.0` and `::` only where clients are told another host.
pub fn is_listened(told: bool, host: &str) -> bool
    ensures { result ≡ is_listened told host.now }
{
    limits::is_host(host) && (!is_wildcard(host) || told)
}

/// Whether a host is this machine alone: `localhost`, `::1`, or `127.` and then digits and dots.
fn is_loopback(host: &str) -> bool
    ensures { result ≡ is_loopback host.now }
{
    host == "localhost" || host == "::1" || is_in_127(around(host, '.'))
}

fn is_in_127(parts: Option<(&str, &str)>) -> bool
    ensures { result ≡ is_in_127 (option_map (λ parts. (parts.0.now, parts.1.now)) parts.entry) }
{
    match parts {
        Some((net, rest)) => net == "127" && are_dotted(rest.as_bytes()),
        None => false,
    }
}

fn are_dotted(bytes: &[u8]) -> bool
    ensures { result ≡ list_all is_dotted bytes.now }
{
    bytes.iter().all(|byte| is_digit(*byte) || *byte == b'.')
}

/// Whether a host may be listened on for metrics: this machine alone is served, or who has the token.
pub fn is_guarded(host: &str, has_token: bool) -> bool
    ensures { result ≡ is_guarded host.now has_token }
{
    is_loopback(host) || has_token
}

/// A text without the brackets around all of it.
pub fn bare(text: &str) -> &str
    ensures { result.now ≡ bare text.now }
{
    match inside(text) {
        Some((host, rest)) if rest.is_empty() => host,
        _ => text,
    }
}

/// What stands behind an opening bracket, around the first closing one.
fn inside(text: &str) -> Option<(&str, &str)>
    ensures { option_map (λ parts. (parts.0.now, parts.1.now)) result ≡ option_and_then (around 93) (behind 91 text.now) }
{
    around(behind(text, '[')?, ']')
}

/// What `HOST:PORT` says: a host that clients can be told, without brackets, and a port from 1.
pub fn endpoint(text: &str) -> Option<(&str, u16)>
    ensures says { option_map (λ endpoint. (endpoint.0.now, endpoint.1)) result ≡ endpoint_in text.now }
    ensures host { IfSome result (λ endpoint. IsTrue (is_listened false endpoint.0.now)) }
    ensures port { IfSome result (λ endpoint. 1 ≤ endpoint.1) }
{
    let (host, port) = parts(text)?;
    let port = port_in(port)?;
    if is_listened(false, host) {
        Some((host, port))
    } else {
        None
    }
}

/// Whether a text is `HOST:PORT`, where clients can be told the host: without brackets it has no colon, and the port is from 1.
pub fn is_endpoint(text: &str) -> bool
    ensures { result ≡ is_some (endpoint_in text.now) }
{
    endpoint(text).is_some()
}

/// A host and what stands behind its colon.
fn parts(text: &str) -> Option<(&str, &str)>
    ensures { option_map (λ parts. (parts.0.now, parts.1.now)) result ≡ parts text.now }
{
    match behind(text, '[') {
        Some(inside) => bracketed(inside),
        None => around(text, ':'),
    }
}

/// The same behind an opening bracket.
fn bracketed(text: &str) -> Option<(&str, &str)>
    ensures { option_map (λ parts. (parts.0.now, parts.1.now)) result ≡ bracketed text.now }
{
    let (host, rest) = around(text, ']')?;
    let port = behind(rest, ':')?;
    Some((host, port))
}

/// A port: decimal digits alone, 1 to 65,535.
fn port_in(text: &str) -> Option<u16>
    ensures says { result ≡ port_in text.now }
    ensures low { IfSome result (λ port. 1 ≤ port) }
{
    if !are_digits(text.as_bytes()) {
        return None;
    }
    let Ok(port) = text.parse::<u16>() else {
        return None;
    };
    if port >= 1 { Some(port) } else { None }
}

fn are_digits(bytes: &[u8]) -> bool
    ensures { result ≡ are_digits bytes.now }
{
    !bytes.is_empty() && all_digits(bytes)
}

fn all_digits(bytes: &[u8]) -> bool
    ensures { result ≡ list_all is_digit bytes.now }
{
    bytes.iter().all(|byte| is_digit(*byte))
}

fn is_digit(byte: u8) -> bool
    ensures { result ≡ is_digit byte }
{
    byte.is_ascii_digit()
}

/// A text without this character in front, where it stands there.
fn behind(text: &str, c: char) -> Option<&str>
    requires { c < 128 }
    ensures { option_map (λ rest. rest.now) result ≡ behind c text.now }
{
    text.strip_prefix(c)
}

/// What stands before and behind the first such character, where there is one.
fn around(text: &str, c: char) -> Option<(&str, &str)>
    requires { c < 128 }
    ensures { option_map (λ parts. (parts.0.now, parts.1.now)) result ≡ around c text.now }
{
    text.split_once(c)
}
