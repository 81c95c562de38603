//! Counts of refusals.

ghost use Rattle.std.specs.Prelude.{◌≡◌};
ghost use Rattle.kb_tenant_state.specs.Counts.{counted_once};

/// A count with one more refusal. It stays at its end.
pub fn counted(refusals: u64) -> u64
    ensures { result ≡ counted_once refusals }
{
    refusals.saturating_add(1)
}
