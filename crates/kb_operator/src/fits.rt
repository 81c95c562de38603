//! Settings that cannot be served, though each key by itself is right.

ghost use Rattle.std.specs.Prelude.{◌≡◌, None, IfOk, IfErr, option_map, string_bytes};
ghost use Rattle.kb_settings.specs.Values.{values_of};
ghost use Rattle.kb_operator.specs.Fits.{IsMisfit, colons, has_port, is_nameless, is_taken, misfit};

use crate::fault::{OperatorFault, behind_it};
use kb_settings::{Endpoint, Settings};
use std::alloc::Global;

/// A key that does not fit, and why.
#[derive(Clone, Copy)]
struct WrongKey {
    key: &'static str,
    why: &'static str,
}

/// The same settings. An `Err` is the first key of them that does not fit, and why.
pub(crate) fn fitting(alloc: Global, settings: Settings) -> Result<Settings, OperatorFault>
    ensures ok { IfOk result (λ same. same ≡ settings) }
    ensures fits { IfOk result (λ _. misfit (values_of settings) ≡ None) }
    ensures err { IfErr result (IsMisfit (values_of settings)) }
{
    match misfit(&settings) {
        None => Ok(settings),
        Some(WrongKey { key, why }) => {
            let key = String::from_str(alloc, key)?;
            let why = behind_it(alloc, String::from_str(alloc, why));
            Err(OperatorFault::Field(key, why))
        }
    }
}

/// The first key that does not fit.
fn misfit(settings: &Settings) -> Option<WrongKey>
    ensures { option_map (λ it. it.key.now) result ≡ misfit (values_of settings.now) }
{
    if is_nameless(&settings.folder) {
        return Some(WrongKey {
            key: "data",
            why: ": is empty",
        });
    }
    if has_port(&settings.host) {
        return Some(WrongKey {
            key: "host",
            why: ": has a port, which stands under the key `port`",
        });
    }
    if is_taken(settings) {
        return Some(WrongKey {
            key: "metrics",
            why: ": is where the broker listens itself",
        });
    }
    None
}

/// Whether the path of a data folder is empty.
fn is_nameless(folder: &Option<String>) -> bool
    ensures { result ≡ is_nameless (option_map (λ it. string_bytes it) folder.now) }
{
    match folder {
        Some(folder) => folder.is_empty(),
        None => false,
    }
}

/// Whether a port stands behind a host: it has one colon. An IPv6 address has two or more.
fn has_port(host: &str) -> bool
    ensures { result ≡ has_port host.now }
{
    colons(host.as_bytes()) == 1
}

/// How many colons there are.
pub(crate) fn colons(bytes: &[u8]) -> usize
    ensures { result ≡ colons bytes.now }
{
    let mut count = 0;
    for byte in bytes {
        if *byte == b':' {
            count += 1;
        }
    }
    count
}

/// Whether metrics are to be served where the broker listens.
fn is_taken(settings: &Settings) -> bool
    ensures { let v = values_of settings.now in result ≡ is_taken v.host v.port v.metrics.address }
{
    match &settings.metrics.address {
        Some(Endpoint { host, port }) => {
            *port == settings.port && host.as_str() == settings.host.as_str()
        }
        None => false,
    }
}
