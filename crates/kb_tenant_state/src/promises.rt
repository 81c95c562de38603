//! Laws about what a tenant sees, each as the contract of a function with an empty body.
ghost use Rattle.std.specs.Prelude.{◌≡◌, ℤ, Contains, Ok};
ghost use Rattle.kb_tenant_state.specs.Calls.{issue};
ghost use Rattle.kb_tenant_state.specs.Ids.{ids_in, skipped, GivesFresh};
ghost use Rattle.kb_tenant_state.specs.World.{World};

/// Once lost ids were skipped ([`Parts::skip_ids`](crate::Parts::skip_ids)), no producer id that is given out is that of a batch in the
/// tenant's logs. So the first batch of its producer is no repeat, and is stored.
pub fn skipped_ids_are_fresh()
    ensures skipped { (w : World) → GivesFresh (skipped w) }
    ensures fresh { (w after : World) (id : ℤ) → GivesFresh w → (after, Ok id) ≡ issue w → Contains (ids_in w) id → ⊥ }
    ensures later { (w after : World) (id : ℤ) → GivesFresh w → (after, Ok id) ≡ issue w → GivesFresh after }
{}
