//! What the renewal of a tenant's catalog leaves.
ghost use Rattle.std.specs.Prelude.{◌++◌, ℕ, List, OnOk};
ghost use Rattle.kb_topics.specs.Catalog.{known};
ghost use Rattle.kb_topics.specs.Known.{Known};
ghost use Rattle.kb_topics.specs.MetaLog.{IsFoldOf};
ghost use Rattle.kb_tenant_state.specs.Parts.{meta, scene};
ghost use Rattle.kb_loss.specs.Fronts.{IsFrontOf};
ghost use Rattle.kb_loss.specs.Renewed.{BeginsAnew};

use kb_log::{PartitionLog, Shelf};
use kb_snapshot::renew;
use kb_store::Store;
use kb_tenant_state::Parts;
use kb_topics::CatalogFault;
use std::alloc::Global;

/// Renews, as [`renew`] does. Where it goes well all batches that go on from those of the new generation begin with the snapshot of what
/// is known then. So they begin anew from what was known at each earlier time of the generation before.
pub fn renew_begins_anew<L: PartitionLog + Drop, S: Store>(
    alloc: Global,
    parts: &mut Parts<L>,
    shelf: &mut Shelf<S>,
) -> Result<(), CatalogFault>
    requires { (scene L.log S.disk parts.old shelf.old).sound }
    ensures { OnOk result ((S.disk shelf.new.store).honest → (generation : ℕ) (batches more : List (List ℕ)) (was : Known)
        → IsFoldOf generation batches was → IsFoldOf generation (batches ++ more) (known parts.old.catalog)
        → (later : List (List ℕ)) → IsFrontOf ((meta L.log parts.new).batches (S.disk shelf.new.store).files) later
        → BeginsAnew was later) }
{
    renew(alloc, parts, shelf)
}
