//! Whether a tenant may have one batch more.
ghost use Rattle.std.specs.Prelude.{◌≡◌, Ok};
ghost use Rattle.kb_tenant.specs.Produce.{is_full as full_for};
ghost use Rattle.kb_tenant_state.specs.Parts.{scene};
ghost use Rattle.kb_tenant_state.specs.Steps.{IsStep, Meets};
ghost use Rattle.kb_tenant_state.specs.Told.{IsWant, Tells};

use crate::limits::{is_past, left_of};
use kb_batch::BatchView;
use kb_log::{PartitionLog, Shelf};
use kb_store::Store;
use kb_tenant_state::{PartitionFault, Parts};

/// Whether the tenant may not have a batch more. Nothing is asked where there is no limit.
pub(super) fn is_full<L: PartitionLog + Drop, S: Store>(
    parts: &mut Parts<L>,
    shelf: &mut Shelf<S>,
    limit: Option<u64>,
    batch: &BatchView<'_>,
) -> Result<bool, PartitionFault>
    requires { (scene L.log S.disk parts.old shelf.old).sound }
    ensures step { IsStep (scene L.log S.disk parts.old shelf.old) (scene L.log S.disk parts.new shelf.new) }
    ensures same { let a = scene L.log S.disk parts.old shelf.old in let b = scene L.log S.disk parts.new shelf.new in
        b.disk.honest → a.agrees → b.state.world ≡ a.state.world }
    ensures meets { let a = scene L.log S.disk parts.old shelf.old in
        Meets a (scene L.log S.disk parts.new shelf.new) (result ≡ Ok (full_for limit a.state.world batch.now)) }
    ensures told { let a = scene L.log S.disk parts.old shelf.old in let b = scene L.log S.disk parts.new shelf.new in
        Tells a b (result ≡ Ok (full_for limit a.state.world batch.now)) (IsWant a b) result }
{
    if limit.is_none() {
        return Ok(false);
    }
    match parts.stored(shelf) {
        Ok(stored) => Ok(is_past(left_of(limit, stored), batch.size() as u64)),
        Err(fault) => Err(fault),
    }
}
