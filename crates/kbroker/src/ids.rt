//! Producer ids that the catalogs of tenants have lost.

ghost use Rattle.std.specs.Prelude.{◌≡◌, ◌≢◌, ◌<◌, ℕ, [], length, slice_get, OnOk};
ghost use Rattle.kb_broker.specs.Hosts.{is_honest};
ghost use Rattle.kb_isolation_spec.specs.Broker.{kept_of_tenant};
ghost use Rattle.kb_tenant_state.specs.Ids.{GivesFresh};
ghost use Rattle.kbroker.specs.Ids.{tenant_name, AllGiveFresh};

use crate::Fault;
use kb_broker::{Broker, TenantView};
use kb_log::PartitionLog;
use kb_node::Store;
use kb_operator::{FolderJournal, Journal, OperatorFault};
use kb_server_log::now;
use kb_topics::CatalogFault;
use std::alloc::{AllocError, Global};

/// A catalog can have lost so many ids at most. Each is written, so that many more of them would keep a start busy for ever.
const MOST_LOST: u64 = 1_000_000;

/// Why a start is refused where a batch has an id that its catalog cannot have lost.
const TOO_MANY: &str =
    "a batch has a producer id over 1000000 above those that its catalog gave out: put back the catalog of these files";

/// Why it is refused where the meta log takes no more of them.
const NO_ROOM: &str =
    "its catalog has no room for the producer ids that it lost: copy its topics to another tenant";

/// Gives out, to nobody, the producer ids that batches of tenants have and their catalogs have lost, and tells of them. Else such an id
/// would be given out again, and the first batches of its new producer would be taken for repeats and not stored.
///
/// Where a batch has an id that no catalog can have lost, the start is refused, and nothing was written.
pub fn skip_ids<S: Store, L: PartitionLog + Drop>(
    rt: &HostRuntime,
    broker: &mut Broker<S, L>,
    folder: &FolderJournal,
    journal: &mut Journal,
) -> Result<(), Fault>
    requires { broker.old.state.lines ≡ [] }
    ensures alone { broker.new.state.lines ≡ [] }
    // None that is given out from then on is that of a batch.
    ensures fresh { OnOk result (is_honest S.disk broker.new → AllGiveFresh broker.new.state) }
{
    look_at_ids(rt.alloc(), broker, folder)?;
    for place in 0..broker.tenants_len() {
        skip_ids_of(rt, broker, place, folder, journal)?;
    }
    Ok(())
}

/// Refuses a start where a batch of a tenant has an id that its catalog cannot have lost.
fn look_at_ids<S: Store, L: PartitionLog + Drop>(
    alloc: Global,
    broker: &Broker<S, L>,
    folder: &FolderJournal,
) -> Result<(), Fault> {
    for place in 0..broker.tenants_len() {
        if lost_at(broker, place) > MOST_LOST {
            return Err(ids_fault(alloc, broker, place, folder, TOO_MANY)?);
        }
    }
    Ok(())
}

/// Gives out, to nobody, the producer ids that batches of the tenant at a place have and its catalog has lost, and tells of them.
fn skip_ids_of<S: Store, L: PartitionLog + Drop>(
    rt: &HostRuntime,
    broker: &mut Broker<S, L>,
    place: usize,
    folder: &FolderJournal,
    journal: &mut Journal,
) -> Result<(), Fault>
    requires there { place < length broker.old.state.tenants }
    requires alone { broker.old.state.lines ≡ [] }
    ensures count { length broker.new.state.tenants ≡ length broker.old.state.tenants }
    ensures alone { broker.new.state.lines ≡ [] }
    ensures honest { is_honest S.disk broker.new → is_honest S.disk broker.old }
    ensures others { is_honest S.disk broker.new → (t : ℕ) → t ≢ place → kept_of_tenant broker.new.state t
        ≡ kept_of_tenant broker.old.state t }
    ensures fresh { OnOk result (is_honest S.disk broker.new → GivesFresh (kept_of_tenant broker.new.state place).world) }
{
    let lost = lost_at(broker, place);
    match broker.skip_ids(place) {
        Ok(()) => {
            if lost > 0 {
                journal.tell_lost_ids(rt.alloc(), now(rt), name_at(broker, place), lost);
            }
            Ok(())
        }
        Err(fault) => Err(refused(rt.alloc(), broker, place, folder, fault)?),
    }
}

/// How many ids the catalog of the tenant at a place has lost.
fn lost_at<S: Store, L: PartitionLog + Drop>(broker: &Broker<S, L>, place: usize) -> u64 {
    match broker.tenant(place) {
        Some(
            TenantView {
                name: _,
                parts,
                groups: _,
                store_refusals: _,
                over: _,
            },
        ) => parts.lost_ids(),
        None => 0,
    }
}

/// The name of the tenant at a place.
fn name_at<S: Store, L: PartitionLog + Drop>(broker: &Broker<S, L>, place: usize) -> &str
    ensures { result.now ≡ tenant_name (slice_get broker.now.state.tenants place) }
{
    match broker.tenant(place) {
        Some(
            TenantView {
                name,
                parts: _,
                groups: _,
                store_refusals: _,
                over: _,
            },
        ) => name,
        None => "",
    }
}

/// The fault of a tenant at a place whose lost ids are not given out.
fn refused<S: Store, L: PartitionLog + Drop>(
    alloc: Global,
    broker: &Broker<S, L>,
    place: usize,
    folder: &FolderJournal,
    fault: CatalogFault,
) -> Result<Fault, AllocError> {
    match fault {
        CatalogFault::Store => Ok(Fault::Operator(folder.store_fault(alloc))),
        CatalogFault::Memory => Ok(Fault::Operator(OperatorFault::Memory)),
        _ => ids_fault(alloc, broker, place, folder, NO_ROOM),
    }
}

/// The fault of a tenant at a place whose lost ids are not given out, and why.
fn ids_fault<S: Store, L: PartitionLog + Drop>(
    alloc: Global,
    broker: &Broker<S, L>,
    place: usize,
    folder: &FolderJournal,
    why: &str,
) -> Result<Fault, AllocError> {
    let (path, tenant) = (folder.folder(), name_at(broker, place));
    Ok(Fault::Ids(format!(in alloc; "{path}: tenant {tenant}: {why}")?))
}
