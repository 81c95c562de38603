//! Why files are not written as text.
ghost use Rattle.std.specs.Prelude.{◌≡◌};
ghost use Rattle.kb_dump.specs.declared.fault.DumpFault.TheVariants.{Memory};

use kb_store::StoreFault;
use std::alloc::AllocError;
use thiserror::Error;

/// What ends a dump early.
#[derive(Clone, Copy, Debug, PartialEq, Eq, Error)]
pub enum DumpFault {
    /// The store refused.
    #[error("the store refused")]
    Store,
    /// Memory ran out.
    #[error("out of memory")]
    Memory,
    /// The writer failed.
    #[error("write fault")]
    Write,
}

impl From<AllocError> for DumpFault {
    ghost from_gives = { λ _ e. e ≡ Memory };

    fn from(_: AllocError) -> Self {
        DumpFault::Memory
    }
}

impl From<StoreFault> for DumpFault {
    ghost use Rattle.kb_dump.specs.Dump.{of_store};

    ghost from_gives = { λ f e. e ≡ of_store f };

    fn from(fault: StoreFault) -> Self {
        match fault {
            StoreFault::Device => DumpFault::Store,
            StoreFault::Memory => DumpFault::Memory,
        }
    }
}
