//! Laws about whole runs, each as the contract of a function with an empty body, or with one that only looks at a broker.

ghost use Rattle.std.specs.Prelude.{◌≡◌, ◌≢◌, ℕ, Bool, List, Some, true, false, map};
ghost use Rattle.kb_wire.specs.declared.api_key.TheConstants.{FETCH, LIST_OFFSETS, METADATA, PRODUCE};
ghost use Rattle.kb_settings.specs.declared.settings.Settings.{Settings};
ghost use Rattle.kb_tenant.specs.LimitsKept.{AreLimitsKept};
ghost use Rattle.kb_isolation_spec.specs.Broker.{BrokerState, IsCalmFor, IsEventRun, Mine, bound_to, kept_of_tenant, view_of};
ghost use Rattle.kb_isolation_spec.specs.Greeting.{node_of};
ghost use Rattle.kb_isolation_spec.specs.Left.{LeavesWorlds};
ghost use Rattle.kb_isolation_spec.specs.LimitsKept.{StaysWithin};
ghost use Rattle.kb_isolation_spec.specs.Machine.{Happening, Sent};
ghost use Rattle.kb_isolation_spec.specs.Owners.{purge};
ghost use Rattle.kb_isolation_spec.specs.Calls.{is_open, is_shut};
ghost use Rattle.kb_isolation_spec.specs.Machine.{find_line};
ghost use Rattle.kb_isolation_spec.specs.Stranded.{NoneStranded, members_of};
ghost use Rattle.kb_connection.specs.View.{IsLimitedIn};
ghost use Rattle.kb_isolation_spec.specs.Isolation.{IsIsolated, own_events, own_sent};
ghost use Rattle.kb_broker.specs.declared.opening.Listing.{Listing};
ghost use Rattle.kb_broker.specs.declared.run.Event.{Event};
ghost use Rattle.kb_broker.specs.declared.run.Written.{Written};
ghost use Rattle.kb_broker.specs.Counts.{lines_bound_to, waiting_lines};
ghost use Rattle.kb_broker.specs.Hosts.{is_honest};
ghost use Rattle.kb_broker.specs.Members.{broker_numbered_from};
ghost use Rattle.kb_broker.specs.Opening.{lists, opening_listing};
ghost use Rattle.kb_broker.specs.Runs.{happenings, sent_of, connections_of};

use crate::broker::Broker;
use kb_log::PartitionLog;
use kb_store::Store;

/// A tenant on a broker that it shares gets what it gets on one that it has to itself. Both are newly opened with the same settings.
/// To the first come events of everybody, to the second only those of the tenant's connections and the moments. Then all that the
/// second writes is what the first writes to the tenant's connections, and the second shuts those that the first shuts of them.
///
/// On neither may anything be refused to the tenant or to a connection that is not bound. What is said of the brokers before is
/// what opening them ensures (`state` of `Broker::open_listing`), and where members are numbered from another number than 1 on, what
/// `Broker::number_members_from` ensures of both. What is said of the runs is what `Broker::run` ensures where the
/// stores are honest to the end (`headline`, `connections`).
///
/// The fewer events are a run where all the events are one.
pub fn opened_alone_is_the_same()
    ensures written { (listing : Listing) (settings : Settings) (t : ℕ) (events fewer : List Event)
        (shared after own own_after : BrokerState) (written own_written : List Written)
        → shared ≡ opening_listing listing settings → own ≡ opening_listing listing settings
        → happenings fewer ≡ own_events t (happenings events) shared
        → IsIsolated (happenings events) shared after (map sent_of written)
        → IsIsolated (happenings fewer) own own_after (map sent_of own_written)
        → map (λ (w : Written). w.conn) own_written ≡ connections_of (happenings fewer) own
        → IsCalmFor t shared after → IsCalmFor t own own_after
        → map sent_of own_written ≡ own_sent t (happenings events) shared (map sent_of written) }
    // So it is where both number their members from the same number on.
    ensures numbered { (first : ℕ) (listing : Listing) (settings : Settings) (t : ℕ) (events fewer : List Event)
        (shared after own own_after : BrokerState) (written own_written : List Written)
        → shared ≡ broker_numbered_from first (opening_listing listing settings) → own
        ≡ broker_numbered_from first (opening_listing listing settings)
        → happenings fewer ≡ own_events t (happenings events) shared
        → IsIsolated (happenings events) shared after (map sent_of written)
        → IsIsolated (happenings fewer) own own_after (map sent_of own_written)
        → map (λ (w : Written). w.conn) own_written ≡ connections_of (happenings fewer) own
        → IsCalmFor t shared after → IsCalmFor t own own_after
        → map sent_of own_written ≡ own_sent t (happenings events) shared (map sent_of written) }
    ensures run { (t : ℕ) (events fewer : List Event) (shared : BrokerState) → happenings fewer ≡ own_events t (happenings events) shared
        → IsEventRun shared.last (happenings events) → IsEventRun shared.last (happenings fewer) }
{}

/// No member of a group is left waiting where nobody answers, which each call of the broker keeps (`held`): none of any tenant waits on a
/// connection that is gone, on one that was shut, which waits for nothing (`limited` of `Broker::room`), or on one that is not bound
/// to the tenant. At the broker's start nobody waits.
pub fn nobody_is_stranded()
    ensures first { (listing : Listing) (settings : Settings) → NoneStranded (opening_listing listing settings) }
    ensures gone { (t n : ℕ) (b : BrokerState) → NoneStranded b → is_open n b ≡ false → members_of b.tenants t n ≡ 0 }
    ensures shut { (t n : ℕ) (b : BrokerState) → NoneStranded b → IsLimitedIn (find_line n b.lines) → is_shut n b ≡ true
        → members_of b.tenants t n ≡ 0 }
    ensures elsewhere { (t n : ℕ) (b : BrokerState) → NoneStranded b → bound_to n b ≢ Some t → members_of b.tenants t n ≡ 0 }
{}

/// Which connections a tenant has, and which of them wait, is read off its view: all that are bound to it are in there. So on two
/// brokers that give it the same view they are the same, as many and in the same order.
pub fn connections_are_in_the_view()
    ensures bound { (t : ℕ) (mine : ℕ → Bool) (es : List Happening) (b : BrokerState) → Mine t mine es b
        → lines_bound_to t (view_of t mine b).lines ≡ lines_bound_to t b.lines }
    ensures waiting { (t : ℕ) (mine : ℕ → Bool) (es : List Happening) (b : BrokerState) → Mine t mine es b
        → waiting_lines t (view_of t mine b).lines ≡ waiting_lines t b.lines }
{}

/// Neither listing has a part of a release alone which some clients take for the whole: they infer a release from the list, and then
/// send its versions unasked. With Produce 7 or Fetch 10 they would compress by zstd, which no batch may be. kafka-python takes
/// ListOffsets 5 for a later release than Fetch 10.
pub fn listings_are_coherent()
    ensures metadata { (listing : Listing) → lists listing METADATA 5 ≡ true → lists listing PRODUCE 4 ≡ true }
    ensures sessions { (listing : Listing) → lists listing FETCH 7 ≡ true → lists listing PRODUCE 5 ≡ true }
    ensures epochs { (listing : Listing) → lists listing FETCH 8 ≡ true → lists listing PRODUCE 6 ≡ true }
    ensures zstd { (listing : Listing) → (lists listing PRODUCE 7 ≡ false) × (lists listing FETCH 10 ≡ false) }
    ensures offsets { (listing : Listing) → lists listing LIST_OFFSETS 5 ≡ true → lists listing FETCH 10 ≡ true }
{}

/// No run of a broker brings what a tenant has past its limits, whatever others do: the bytes of its batches, its topics, their
/// partitions, the offsets that its groups have committed, and the bytes of their texts. Each is at most the limit, or at most what it
/// was before the run. The store is honest before it.
///
/// `moments`: so it is at each moment of the run of the tenant's machine. `worlds`: and so it is of what the tenant has on the broker
/// behind a run in which nothing was refused to it, nor to a connection that is not bound. What is said of that run is what
/// `Broker::run` ensures (`worlds`).
pub fn limits_are_kept<S: Store, L: PartitionLog + Drop>(broker: &Broker<S, L>)
    ensures moments { is_honest S.disk broker.now → (t : ℕ) (mine : ℕ → Bool) (es : List Happening) → IsEventRun broker.now.state.last es
        → Mine t mine es broker.now.state
        → StaysWithin (node_of broker.now.state.setup t).limits (kept_of_tenant broker.now.state t).world (purge mine es)
        (view_of t mine broker.now.state) }
    ensures worlds { is_honest S.disk broker.now → (t : ℕ) (es : List Happening) (after : BrokerState) (got : List Sent)
        → IsEventRun broker.now.state.last es → LeavesWorlds es broker.now.state after got → IsCalmFor t broker.now.state after
        → AreLimitsKept (node_of broker.now.state.setup t).limits (kept_of_tenant broker.now.state t).world (kept_of_tenant after t).world }
{
    broker.connections();
}
