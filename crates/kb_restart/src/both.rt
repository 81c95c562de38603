//! Brokers that open with the files of a store and run.

ghost use Rattle.std.specs.Prelude.{◌≡◌, ℕ, List, Some, map, slice_get, IfOk};
ghost use Rattle.kb_isolation_spec.specs.Broker.{IsCalmFor, IsEventRun};
ghost use Rattle.kb_isolation_spec.specs.Isolation.{own_events, own_sent};
ghost use Rattle.kb_broker.specs.Opening.{opening_listing, tenants_of};
ghost use Rattle.kb_broker.specs.Runs.{happenings, sent_of};
ghost use Rattle.kb_restart.specs.Alone.{HaveSameFilesOf, RanFrom};

use crate::opening::open_broker;
use kb_broker::{Broker, Event, Listing, OpenFault, Settings, Written};
use kb_segment_log::SegmentLog;
use kb_store::Store;
use std::alloc::Global;

/// A broker behind a run, and what the run wrote.
#[derive(Drop)]
pub struct Ran<S: Store> {
    pub broker: Broker<S, SegmentLog>,
    pub written: Vec<Written>,
}

/// Opens a broker with the files of a store, and runs the events on it.
///
/// Refused as `open_broker` is, and where memory is refused to the run.
pub fn run_from_files<S: Store + Drop>(
    alloc: Global,
    settings: &Settings,
    listing: Listing,
    store: S,
    events: &[Event],
) -> Result<Ran<S>, OpenFault>
    requires { IsEventRun 0 (happenings events.now) }
    ensures ran { IfOk result (λ ran. (S.disk ran.broker.store).honest
        → RanFrom listing settings.now (S.disk store).files (happenings events.now) ran.broker.state ran.written.items) }
{
    let mut broker = match open_broker(alloc, settings, listing, store) {
        Ok(opened) => opened.broker,
        Err(refused) => return Err(refused.fault),
    };
    match broker.run(alloc, events) {
        Ok(written) => Ok(Ran { broker, written }),
        Err(_) => Err(OpenFault::Memory),
    }
}

/// Two brokers, each opened with the files of its own store, and a run on each. Both have the same settings.
///
/// Where both stores have the same files of a tenant, whatever else is in them, and nothing but the tenant's own events and the moments
/// come to the second broker, all that the second run writes is what the tenant's connections got in the first. This holds where nothing
/// was refused to the tenant, nor to a connection that was not bound, and the stores are honest to the end. Whose the events are, and
/// what was refused, is told from a broker of those settings to which nothing came yet.
///
/// Refused as `run_from_files` is, of the one store or of the other.
pub fn run_both_from_files<S: Store + Drop>(
    alloc: Global,
    settings: &Settings,
    listing: Listing,
    stores: (S, S),
    events: &[Event],
    others: &[Event],
) -> Result<(Ran<S>, Ran<S>), OpenFault>
    requires first { IsEventRun 0 (happenings events.now) }
    requires second { IsEventRun 0 (happenings others.now) }
    ensures alone { IfOk result (λ both. (S.disk both.0.broker.store).honest → (S.disk both.1.broker.store).honest
        → (t : ℕ) (name : List ℕ) → slice_get (tenants_of settings.now.users.items) t ≡ Some name
        → HaveSameFilesOf name (S.disk stores.0).files (S.disk stores.1).files
        → happenings others.now ≡ own_events t (happenings events.now) (opening_listing listing settings.now)
        → IsCalmFor t (opening_listing listing settings.now) both.0.broker.state
        → IsCalmFor t (opening_listing listing settings.now) both.1.broker.state
        → map sent_of both.1.written.items
        ≡ own_sent t (happenings events.now) (opening_listing listing settings.now) (map sent_of both.0.written.items)) }
{
    let (shared, own) = stores;
    let first = run_from_files(alloc, settings, listing, shared, events)?;
    let second = run_from_files(alloc, settings, listing, own, others)?;
    Ok((first, second))
}
