//! Why there is no budget.
ghost use Rattle.std.specs.Prelude.{◌≡◌};
ghost use Rattle.kb_shares.specs.declared.fault.BudgetFault.TheVariants.{Memory};

use std::alloc::{AllocError, AllocFailed};

/// Why there is no budget.
#[derive(Clone, Copy, Debug, PartialEq, Eq)]
pub enum BudgetFault {
    /// They are no shares of the total: a part is above its limit, or all parts together are above the total.
    Shares,
    /// Memory ran out.
    Memory,
}

impl From<AllocError> for BudgetFault {
    ghost from_gives = { λ _ e. e ≡ Memory };

    fn from(_: AllocError) -> Self {
        BudgetFault::Memory
    }
}

impl<T: Drop> From<AllocFailed<T>> for BudgetFault {
    ghost from_gives = { λ _ e. e ≡ Memory };

    fn from(_: AllocFailed<T>) -> Self {
        BudgetFault::Memory
    }
}
