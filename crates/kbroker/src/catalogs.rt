//! Catalogs of tenants at a start.

ghost use Rattle.std.specs.Prelude.{◌≡◌, [], not, ◌||◌, ◌==◌, length};
ghost use Rattle.kbroker.specs.Shortened.{may_shorten, AreShortened};

use kb_broker::Broker;
use kb_log::PartitionLog;
use kb_node::Store;
use kb_start::Consent;
use std::alloc::Global;

/// Whether a start writes catalogs anew, where these files are of no log. With `--drop-damaged` it does so only where there are none: one
/// may hold what a damaged catalog lost, and behind a later generation of that catalog a start removes it. Without that option no such
/// file holds a whole batch that would be lost.
pub fn may_shorten(consent: Consent, strays: &[u64]) -> bool
    ensures { result ≡ may_shorten consent strays.now }
{
    !consent.drop_damaged || strays.is_empty()
}

/// Writes the catalog of each tenant anew where that makes it shorter, while nobody is connected, however long its snapshot is: while it
/// serves, the broker writes none anew whose snapshot is long.
///
/// What is refused is counted for the tenant, and is tried again at the next start.
pub fn shorten_catalogs<S: Store, L: PartitionLog + Drop>(alloc: Global, broker: &mut Broker<S, L>)
    requires { broker.old.state.lines ≡ [] }
    ensures alone { broker.new.state.lines ≡ [] }
    ensures shortened { AreShortened S.disk broker.old broker.new }
{
    for place in 0..broker.tenants_len() {
        broker.shorten_catalog(alloc, place);
    }
}
