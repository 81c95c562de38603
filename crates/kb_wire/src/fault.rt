//! Why bytes could not be read.

ghost use Rattle.std.specs.Prelude.{◌≡◌};
ghost use Rattle.kb_wire.specs.declared.fault.ReadFault.TheVariants.{Memory, Wire};

use std::alloc::{AllocError, AllocFailed};
use thiserror::Error;

/// What is wrong with bytes that cannot be read: the first fault from left to right.
#[derive(Clone, Copy, Debug, PartialEq, Eq, Error)]
pub enum WireFault {
    /// Fewer bytes are there than the front calls for.
    #[error("fewer bytes are there than the value has")]
    Short,
    /// The bytes that are there spell nothing.
    #[error("the bytes spell no value")]
    Bad,
}

/// Why a value was not read: the bytes, or want of memory, whichever was met first.
#[derive(Clone, Copy, Debug, PartialEq, Eq, Error)]
pub enum ReadFault {
    /// The bytes spell no value.
    #[error(transparent)]
    Wire(WireFault),
    /// An allocation was refused.
    #[error("out of memory")]
    Memory,
}

impl From<WireFault> for ReadFault {
    ghost from_gives = { λ f e. e ≡ Wire f };

    fn from(fault: WireFault) -> ReadFault {
        ReadFault::Wire(fault)
    }
}

impl From<AllocError> for ReadFault {
    ghost from_gives = { λ _ e. e ≡ Memory };

    fn from(_e: AllocError) -> ReadFault {
        ReadFault::Memory
    }
}

impl<T: Drop> From<AllocFailed<T>> for ReadFault {
    ghost from_gives = { λ _ e. e ≡ Memory };

    fn from(_e: AllocFailed<T>) -> ReadFault {
        ReadFault::Memory
    }
}
