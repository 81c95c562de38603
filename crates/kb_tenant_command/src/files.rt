//! A tenant's files in one store, or in two.
ghost use Rattle.std.specs.Prelude.{◌≡◌, ◌≤◌, ℕ, List, [], length, false, bytes_eq, Err, IfOk, OnOk, OnErr};
ghost use Rattle.kb_store.specs.Disk.{HasCause, Keeps};
ghost use Rattle.kb_store.specs.Loss.{Only};
ghost use Rattle.kb_tenant_state.specs.Logs.{Logs};
ghost use Rattle.kb_topics.specs.Known.{Known};
ghost use Rattle.kb_move.specs.Alike.{Opens};
ghost use Rattle.kb_move.specs.Copied.{copied, first_number, owned, KeepsFiles};
ghost use Rattle.kb_tenant_command.specs.Removal.{HasLost};

use kb_move::{Copied, MoveFault, copy_tenant, tenant_files};
use kb_start::remove_files;
use kb_store::{Store, StoreFault};
use std::alloc::Global;

/// Removes all files of a tenant for good, and answers how many. Where the store syncs, what is left lasts then. After a refusal some first
/// ones of the tenant's files may be gone. All other files stay as they are, so each other tenant has what it had
/// ([`crate::removals_leave_the_others`]).
pub(crate) fn remove_tenant<S: Store>(
    alloc: Global,
    store: &mut S,
    tenant: &str,
) -> Result<usize, StoreFault>
    ensures count { IfOk result (λ n. (S.disk store.new).honest → n ≡ length (owned tenant.now (S.disk store.old))) }
    ensures removed { OnOk result
        (HasLost tenant.now (length (owned tenant.now (S.disk store.old))) (S.disk store.old) (S.disk store.new)) }
    ensures refused { OnErr result ((count : ℕ) × HasLost tenant.now count (S.disk store.old) (S.disk store.new)) }
    ensures lasts { OnOk result (S.settled store.new → (S.disk store.new).honest → Only (S.disk store.new).files (S.loss store.new)) }
    ensures cause { HasCause (S.disk store.old) result (S.disk store.new) }
{
    let held = tenant_files(alloc, store, tenant)?;
    remove_files(alloc, store, &held.numbers)?;
    store.sync()?;
    Ok(held.numbers.len())
}

/// Copies all files of a tenant behind those of another store, as [`copy_tenant`] does. Where that store syncs, the copies last then.
pub(crate) fn copy_to_last<F: Store, T: Store>(
    alloc: Global,
    from: &mut F,
    tenant: &str,
    to: &mut T,
) -> Result<Copied, MoveFault>
    ensures first { IfOk result (λ c. (F.disk from.new).honest → c.first ≡ first_number (F.disk from.old) (T.disk to.old)) }
    ensures files { IfOk result (λ c. (F.disk from.new).honest → c.files ≡ length (owned tenant.now (F.disk from.old))) }
    ensures copied { OnOk result ((F.disk from.new).honest → (T.disk to.new).honest
        → (T.disk to.new).files ≡ copied tenant.now (F.disk from.old) (T.disk to.old)) }
    ensures alone { OnOk result ((T.disk to.new).honest → owned tenant.now (T.disk to.old) ≡ []) }
    ensures unchanged { Keeps (F.disk from.old) (F.disk from.new) }
    ensures spared { KeepsFiles (T.disk to.old) (T.disk to.new) }
    ensures lasts { OnOk result (T.settled to.new → (T.disk to.new).honest → Only (T.disk to.new).files (T.loss to.new)) }
    // The tenant opens there to what it opens to here, and each other tenant to what it had.
    ensures opens { OnOk result ((F.disk from.new).honest → (T.disk to.new).honest → (k : Known) (logs : Logs)
        → Opens (F.disk from.old).files tenant.now k logs → Opens (T.disk to.new).files tenant.now k logs) }
    ensures beside { OnOk result ((F.disk from.new).honest → (T.disk to.new).honest → (other : List ℕ) (k : Known) (logs : Logs)
        → bytes_eq tenant.now other ≡ false → Opens (T.disk to.old).files other k logs → Opens (T.disk to.new).files other k logs) }
{
    let copied = copy_tenant(alloc, from, tenant, to)?;
    to.sync()?;
    Ok(copied)
}
