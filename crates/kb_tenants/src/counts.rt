//! What is counted for a tenant beside its refusals.
ghost use Rattle.std.specs.Prelude.{◌≡◌};
ghost use Rattle.kb_tenants.specs.Counts.{no_counts, with_over, with_store};

use kb_over_limit::OverLimit;

/// What is counted for a tenant beside its refusals. What it keeps does not depend on it.
#[derive(Clone, Copy)]
pub struct Counts {
    /// How many of its refusals were the store's. The others were of memory.
    pub by_store: u64,
    /// How often it was told that it is past one of its limits.
    pub over: OverLimit,
}

impl Counts {
    /// Nothing is counted yet.
    pub(crate) fn none() -> Counts
        ensures { result ≡ no_counts }
    {
        Counts {
            by_store: 0,
            over: OverLimit::none(),
        }
    }

    /// The store has refused so many calls more. The count stays at its end.
    pub(crate) fn add_store(&mut self, failures: u64)
        ensures { self.new ≡ with_store failures self.old }
    {
        self.by_store = self.by_store.saturating_add(failures);
    }

    /// A reply told so many entries more that they are past a limit.
    pub(crate) fn add_over(&mut self, told: OverLimit)
        ensures { self.new ≡ with_over told self.old }
    {
        self.over = self.over.with(told);
    }
}
