//! A broker that is stopped and opened again.
ghost use Rattle.std.specs.Prelude.{◌≡◌, ℕ, List, Some, slice_get, IfOk};
ghost use Rattle.std.specs.FinMap.{keys};
ghost use Rattle.kb_tenant_api.specs.Hosted.{names_of};
ghost use Rattle.kb_broker.specs.Opening.{tenants_of};
ghost use Rattle.kb_restart.specs.Again.{AreStillStrays, HasSame};

use crate::opening::{Restarted, open_broker};
use kb_broker::{Broker, Listing, OpenRefused, Settings};
use kb_segment_log::SegmentLog;
use kb_store::Store;
use std::alloc::Global;

/// Stops a broker, and opens one with the files that it leaves, under the same settings.
///
/// Each tenant finds what it had, whatever was refused, where its topics took none of the files that the first one left alone. It finds
/// its topics with their settings, starts and committed offsets, how many producer ids were given out, and the log of each partition.
/// What it does not find is its groups' members.
///
/// Refused as `open_broker` is.
pub fn reopen<S: Store>(
    alloc: Global,
    broker: Broker<S, SegmentLog>,
    settings: &Settings,
    listing: Listing,
) -> Result<Restarted<S>, OpenRefused<S>>
    ensures same { IfOk result (λ opened. (S.disk opened.broker.store).honest → (strays : List ℕ) → broker.strays ≡ Some strays
        → names_of broker.state.tenants ≡ tenants_of settings.now.users.items
        → (t : ℕ) (name : List ℕ) → slice_get (names_of broker.state.tenants) t ≡ Some name
        → AreStillStrays (S.disk broker.store).files (keys (S.disk broker.store).table)
        (names_of broker.state.tenants) broker.state.tenants name strays
        → HasSame opened.broker.state.tenants broker.state.tenants t) }
{
    open_broker(alloc, settings, listing, broker.into_store())
}
