//! Why a tenant is not copied.
ghost use Rattle.std.specs.Prelude.{◌≡◌};
ghost use Rattle.kb_move.specs.declared.fault.MoveFault.TheVariants.{Store};

use kb_store::StoreFault;
use thiserror::Error;

/// Why a tenant's files are not copied.
#[derive(Clone, Copy, Debug, PartialEq, Eq, Error)]
pub enum MoveFault {
    /// No file names the tenant.
    #[error("no file is of this tenant")]
    Absent,
    /// The other store has files of the tenant already.
    #[error("there are files of this tenant already")]
    Occupied,
    /// No numbers are left for the files.
    #[error("no file numbers are left")]
    NumbersUsed,
    /// A store refused, or memory ran out.
    #[error("{0}")]
    Store(StoreFault),
}

impl From<StoreFault> for MoveFault {
    ghost from_gives = { λ f e. e ≡ Store f };

    fn from(fault: StoreFault) -> Self {
        MoveFault::Store(fault)
    }
}
