//! Why a call of a client is refused.

ghost use Rattle.std.specs.Prelude.{◌≡◌};

use std::alloc::{AllocError, AllocFailed};
use thiserror::Error;

/// Why a call of a client is refused.
#[derive(Clone, Copy, Debug, PartialEq, Eq, Error)]
pub enum ClientFault {
    /// The broker does not know the user with that password. It stands for good.
    #[error("access denied")]
    Denied,
    /// The broker answered a request with this error code. It stands for good.
    #[error("broker answered {0}")]
    Code(i16),
    /// The broker sent what is no reply to the request that waits for one. It stands for good.
    #[error("protocol fault")]
    Protocol,
    /// The line has more than 1,000,000 bytes. Nothing changed.
    #[error("line too long")]
    LineTooLong,
    /// Memory ran out. Nothing changed.
    #[error("out of memory")]
    Memory,
}

impl From<AllocError> for ClientFault {
    ghost use Rattle.kb_client.specs.declared.fault.ClientFault.TheVariants.{Memory};

    ghost from_gives = { λ _ e. e ≡ Memory };

    fn from(_error: AllocError) -> ClientFault {
        ClientFault::Memory
    }
}

impl<T: Drop> From<AllocFailed<T>> for ClientFault {
    ghost use Rattle.kb_client.specs.declared.fault.ClientFault.TheVariants.{Memory};

    ghost from_gives = { λ _ e. e ≡ Memory };

    fn from(_error: AllocFailed<T>) -> ClientFault {
        ClientFault::Memory
    }
}
