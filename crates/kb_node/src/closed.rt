//! Connections that are told as closed: those that the broker shut, and strangers with too long a request.

ghost use Rattle.std.specs.Prelude.{◌≡◌};
ghost use Rattle.kb_node.specs.Closed.{cause_for, closed_for};

use kb_isolation_spec::Shut;
use std::net::SocketAddr;

/// Why a connection is closed, where that is told.
#[derive(Clone, Copy)]
pub enum Cause {
    /// The broker shut it for that.
    Shut(Shut),
    /// A request of more than 65,536 bytes came before its login.
    LongBeforeLogin,
}

impl Cause {
    /// Why it is told to be closed: the broker shut it, or its socket has too long a request in front before the login. Of a login that
    /// failed more is told elsewhere.
    pub fn of(shut: Option<Shut>, is_too_long: bool) -> Option<Cause>
        ensures { result ≡ cause_for shut is_too_long }
    {
        match shut {
            Some(Shut::Denied) => None,
            Some(shut) => Some(Cause::Shut(shut)),
            None if is_too_long => Some(Cause::LongBeforeLogin),
            None => None,
        }
    }
}

/// A connection that is told, and that is closed now.
#[derive(Clone, Copy)]
pub struct Closed {
    /// From where it came.
    pub address: SocketAddr,
    /// The place of its tenant, where it had logged in.
    pub tenant: Option<usize>,
    /// Why.
    pub cause: Cause,
}

impl Closed {
    /// A connection that closes, where that is told for a cause.
    pub fn of(address: SocketAddr, tenant: Option<usize>, cause: Option<Cause>) -> Option<Closed>
        ensures { result ≡ closed_for address tenant cause }
    {
        match cause {
            Some(cause) => Some(Closed {
                address,
                tenant,
                cause,
            }),
            None => None,
        }
    }
}
