//! Addresses as text.

ghost use Rattle.std.specs.Prelude.{◌≡◌, string_bytes, IfOk};
ghost use Rattle.kb_operator.specs.Shown.{host_port};

use crate::fault::{OperatorFault, behind_it};
use crate::fits::colons;
use crate::settings::{behind, cause_of};
use std::alloc::{AllocError, Global};
use std::io;
use std::net::SocketAddr;

/// `HOST:PORT`, with an IPv6 address in brackets.
pub fn address_text(alloc: Global, host: &str, port: u16) -> Result<String, AllocError>
    ensures { IfOk result (λ text. string_bytes text ≡ host_port (host.now, port)) }
{
    if colons(host.as_bytes()) > 0 {
        format!(in alloc; "[{host}]:{port}")
    } else {
        format!(in alloc; "{host}:{port}")
    }
}

/// Addresses with commas between them.
pub fn addresses_text(alloc: Global, addresses: &[SocketAddr]) -> Result<String, AllocError> {
    let mut text = String::new(alloc);
    for address in addresses {
        let comma = if text.is_empty() { "" } else { ", " };
        text.push_str(&format!(in alloc; "{comma}{address}")?)?;
    }
    Ok(text)
}

/// The fault of a host that cannot be listened on: at that address of it, if at one.
pub fn listen_fault(
    alloc: Global,
    host: &str,
    address: Option<SocketAddr>,
    error: &io::Error,
) -> OperatorFault {
    OperatorFault::Listen(behind_it(alloc, listen_reason(alloc, host, address, error)))
}

/// What stood in the way of an address.
fn listen_reason(
    alloc: Global,
    host: &str,
    address: Option<SocketAddr>,
    error: &io::Error,
) -> Result<String, AllocError> {
    let reason = cause_of(alloc, error);
    match address {
        Some(address) => {
            let address = format!(in alloc; "{address}")?;
            behind(alloc, &address, reason)
        }
        None => behind(alloc, host, reason),
    }
}
