//! What is on the pages of a broker that serves.

ghost use Rattle.std.specs.Prelude.{◌≡◌, ◌++◌, ◌/◌, [], None, IfOk, OnOk, map, option_map, slice_get, string_bytes, vec_len};
ghost use Rattle.kb_store.specs.Disk.{Files};
ghost use Rattle.kb_metrics.specs.Gauges.{partitions_text, tenants_text};
ghost use Rattle.kb_metrics.specs.Server.{process_text, server_text};
ghost use Rattle.kb_metrics.specs.View.{observed};
ghost use Rattle.kb_settings.specs.Values.{values_of};
ghost use Rattle.kbroker.specs.Observed.{named_limits, observed_unstored, observed_at, observed_from, observed_slot};
ghost use Rattle.kbroker.specs.Pages.{IsMetrics, IsPageOf, IsStatus, first_named, page_in, page_of};
ghost use Rattle.kbroker.specs.Server.{IsProcess, server_at};
ghost use Rattle.kbroker.specs.Causes.{causes_text, refused_text, sockets_text};
ghost use Rattle.kb_metrics.specs.Rates.{in_minute};
ghost use Rattle.kbroker.specs.Observed.{request_bytes_of, requests_of, response_bytes_of};

use crate::history::History;
use crate::process::{cpu_millis, most_files, open_files, resident_bytes};
use kb_broker::TenantView;
use kb_log::PartitionLog;
use kb_metrics::{
    Closed, Limits, ProcessGauges, ServerGauges, TenantGauges, Traffic, push_number,
    push_partitions, push_process, push_server, push_status, push_tenant_status, push_tenants,
};
use kb_node::{Edge, Settings, Store};
use kb_pages::{Form, Source};
use kb_version::VERSION;
use std::alloc::{AllocError, Global};
use std::io;
use std::net::Net;
use std::os::fd::RawFd;

/// An edge with its broker, and what happened on it.
#[derive(Drop)]
pub struct Shown<'a, R: Net, S: Store, L: PartitionLog + Drop> {
    pub rt: &'a HostRuntime,
    pub edge: &'a Edge<R, S, L>,
    pub settings: &'a Settings,
    pub history: &'a History,
    /// The moment, in milliseconds.
    pub now: u64,
}

impl<'a, R: Net, S: Store, L: PartitionLog + Drop> Source for Shown<'a, R, S, L> {
    ghost told = { λ shown.
        let edge = shown.edge.now in
        let past = shown.history.now in
        let broker = edge.host.broker in
        let seen = observed_from (values_of shown.settings.now) broker.state broker.counts edge.traffic.items in
        let server = server_at broker.state broker.strays (S.disk broker.store).failures (vec_len edge.sockets) edge.limit
        past.turns past.longest in
        let IsThis = IsProcess past.started (string_bytes past.start_text) in record {
          metrics = IsMetrics seen server IsThis;
          causes = λ text. text ≡ causes_text (in_minute (shown.now / 1000) past.refused) (vec_len edge.sockets) edge.limit;
          status = IsStatus seen server IsThis past.rates.items;
          partitions = IsPageOf partitions_text seen;
          tenant = IsPageOf page_of seen;
          is_unknown = λ name. first_named name seen ≡ None;
        } };

    fn push_all(&self, alloc: Global, form: Form, out: &mut Vec<u8>) -> Result<(), AllocError> {
        match form {
            Form::Metrics => {
                push_metrics(alloc, self.rt, self.edge, self.settings, self.history, out)
            }
            Form::Status => {
                push_status_page(alloc, self.rt, self.edge, self.settings, self.history, out)
            }
        }
    }

    fn push_causes(&self, out: &mut Vec<u8>) -> Result<(), AllocError> {
        push_refused(out, self.history.refused.in_minute(self.now / 1000))?;
        push_sockets(out, self.edge.sockets_len(), self.edge.most_sockets())
    }

    fn push_tenant(
        &self,
        alloc: Global,
        form: Form,
        tenant: &[u8],
        out: &mut Vec<u8>,
    ) -> Result<bool, AllocError> {
        let tenants = tenants_of(alloc, self.edge, self.settings)?;
        match named(&tenants, tenant) {
            Some(gauges) => {
                push_page(alloc, form, gauges, out)?;
                Ok(true)
            }
            None => Ok(false),
        }
    }

    fn wake_by(&self, file: RawFd) -> io::Result<()> {
        self.edge.watch_also(file)
    }
}

/// Writes how many calls the store refused in the last minute, where it refused some.
fn push_refused(out: &mut Vec<u8>, refused: u64) -> Result<(), AllocError>
    ensures { OnOk result (out.new.items ≡ out.old.items ++ refused_text refused) }
{
    if refused > 0 {
        out.extend_from_slice(b"store refused ")?;
        push_number(out, refused)?;
        out.extend_from_slice(b" calls in the last minute\n")?;
    }
    Ok(())
}

/// Writes how many sockets are open and may be, where no further one may be.
fn push_sockets(out: &mut Vec<u8>, sockets: usize, limit: usize) -> Result<(), AllocError>
    ensures { OnOk result (out.new.items ≡ out.old.items ++ sockets_text sockets limit) }
{
    if sockets >= limit {
        out.extend_from_slice(b"sockets ")?;
        push_number(out, sockets)?;
        out.extend_from_slice(b" of ")?;
        push_number(out, limit)?;
        out.extend_from_slice(b"\n")?;
    }
    Ok(())
}

/// Writes the page of metrics, which tells the longest turn.
fn push_metrics<R: Net, S: Store, L: PartitionLog + Drop>(
    alloc: Global,
    rt: &HostRuntime,
    edge: &Edge<R, S, L>,
    settings: &Settings,
    history: &History,
    out: &mut Vec<u8>,
) -> Result<(), AllocError>
    requires { out.old.items ≡ [] }
    ensures { OnOk result (IsMetrics
        (observed_from (values_of settings.now) edge.now.host.broker.state edge.now.host.broker.counts edge.now.traffic.items)
        (server_at edge.now.host.broker.state edge.now.host.broker.strays (S.disk edge.now.host.broker.store).failures
        (vec_len edge.now.sockets) edge.now.limit history.now.turns history.now.longest)
        (IsProcess history.now.started (string_bytes history.now.start_text)) out.new.items) }
{
    let tenants = tenants_of(alloc, edge, settings)?;
    let server = server_of(edge, history);
    let process = process_of(rt, history);
    history.is_told.set(true);
    push_all(alloc, out, &tenants, &server, &process)
}

/// Writes the status page.
fn push_status_page<R: Net, S: Store, L: PartitionLog + Drop>(
    alloc: Global,
    rt: &HostRuntime,
    edge: &Edge<R, S, L>,
    settings: &Settings,
    history: &History,
    out: &mut Vec<u8>,
) -> Result<(), AllocError>
    requires { out.old.items ≡ [] }
    ensures { OnOk result (IsStatus
        (observed_from (values_of settings.now) edge.now.host.broker.state edge.now.host.broker.counts edge.now.traffic.items)
        (server_at edge.now.host.broker.state edge.now.host.broker.strays (S.disk edge.now.host.broker.store).failures
        (vec_len edge.now.sockets) edge.now.limit history.now.turns history.now.longest)
        (IsProcess history.now.started (string_bytes history.now.start_text)) history.now.rates.items out.new.items) }
{
    let tenants = tenants_of(alloc, edge, settings)?;
    let server = server_of(edge, history);
    let process = process_of(rt, history);
    push_status(alloc, out, &server, &process, &tenants, &history.rates)
}

/// Writes the metrics: tenants first.
fn push_all<L: PartitionLog>(
    alloc: Global,
    out: &mut Vec<u8>,
    tenants: &[TenantGauges<'_, L>],
    server: &ServerGauges,
    process: &ProcessGauges<'_>,
) -> Result<(), AllocError>
    ensures { OnOk result ((files : Files) → out.new.items ≡ out.old.items
        ++ tenants_text (map (observed L.log files) tenants.now) ++ server_text server.now ++ process_text process.now) }
{
    push_tenants(alloc, out, tenants)?;
    push_server(out, server)?;
    push_process(out, process)
}

/// What is looked at of all tenants, by their places.
fn tenants_of<'a, R: Net, S: Store, L: PartitionLog + Drop>(
    alloc: Global,
    edge: &'a Edge<R, S, L>,
    settings: &Settings,
) -> Result<Vec<TenantGauges<'a, L>>, AllocError>
    ensures { IfOk result (λ tenants. map (observed_unstored L.log (S.disk edge.now.host.broker.store).files) tenants.items
        ≡ observed_from (values_of settings.now) edge.now.host.broker.state edge.now.host.broker.counts edge.now.traffic.items) }
{
    let count = edge.broker().tenants_len();
    let mut tenants = Vec::with_capacity(alloc, count)?;
    for place in 0..count {
        push_gauges(&mut tenants, edge, settings, place)?;
    }
    Ok(tenants)
}

/// Puts what is looked at of the tenant at a place behind the others, where there is one.
fn push_gauges<'a, R: Net, S: Store, L: PartitionLog + Drop>(
    tenants: &mut Vec<TenantGauges<'a, L>>,
    edge: &'a Edge<R, S, L>,
    settings: &Settings,
    place: usize,
) -> Result<(), AllocError>
    ensures { OnOk result (map (observed_unstored L.log (S.disk edge.now.host.broker.store).files) tenants.new.items
        ≡ map (observed_unstored L.log (S.disk edge.now.host.broker.store).files) tenants.old.items
        ++ observed_slot (values_of settings.now) edge.now.host.broker.state edge.now.host.broker.counts edge.now.traffic.items place) }
{
    if let Some(gauges) = gauges_at(edge, settings, place) {
        tenants.push(gauges)?;
    }
    Ok(())
}

/// What is looked at of the tenant at a place, where there is one.
fn gauges_at<'a, R: Net, S: Store, L: PartitionLog + Drop>(
    edge: &'a Edge<R, S, L>,
    settings: &Settings,
    place: usize,
) -> Option<TenantGauges<'a, L>>
    ensures { option_map (observed_unstored L.log (S.disk edge.now.host.broker.store).files) result
        ≡ option_map (observed_at (values_of settings.now) place edge.now.host.broker.state.lines edge.now.host.broker.counts
        edge.now.traffic.items) (slice_get edge.now.host.broker.state.tenants place) }
{
    let broker = edge.broker();
    let TenantView {
        name,
        parts,
        groups,
        store_refusals,
        over,
    } = broker.tenant(place)?;
    Some(TenantGauges {
        name,
        parts,
        groups,
        limits: limits_of(settings, name),
        connections: broker.connections_of(place) as u64,
        waiting: broker.waiting_of(place) as u64,
        traffic: traffic_at(edge, place),
        store_refusals,
        over,
    })
}

/// The first tenant of a name, where there is one.
fn named<'a, 'b, L: PartitionLog>(
    tenants: &'b [TenantGauges<'a, L>],
    name: &[u8],
) -> Option<&'b TenantGauges<'a, L>>
    ensures { (files : Files) → option_map (λ t. observed_unstored L.log files t.now) result
        ≡ first_named name.now (map (observed_unstored L.log files) tenants.now) }
{
    tenants.iter().find(|tenant| tenant.name.as_bytes() == name)
}

/// Writes the page of a tenant in a form.
fn push_page<L: PartitionLog>(
    alloc: Global,
    form: Form,
    tenant: &TenantGauges<'_, L>,
    out: &mut Vec<u8>,
) -> Result<(), AllocError>
    ensures { OnOk result ((files : Files) → out.new.items ≡ out.old.items ++ page_in form (observed L.log files tenant.now)) }
{
    match form {
        Form::Metrics => push_partitions(alloc, out, tenant),
        Form::Status => push_tenant_status(alloc, out, tenant),
    }
}

/// What the tenant of a name may have.
fn limits_of(settings: &Settings, tenant: &str) -> Limits
    ensures { result ≡ named_limits tenant.now (values_of settings.now) }
{
    let data = settings.data_of(tenant);
    let groups = settings.groups_of(tenant);
    Limits {
        topics: data.topics,
        partitions: data.partitions,
        offsets: Some(data.offsets),
        bytes: data.bytes,
        fetch_bytes: data.fetch_bytes,
        groups: Some(u64::from(groups.groups)),
        group_bytes: Some(groups.bytes),
    }
}

/// What was counted of the tenant at a place: nothing where that is not counted.
fn traffic_at<'a, R: Net, S: Store, L: PartitionLog + Drop>(
    edge: &'a Edge<R, S, L>,
    place: usize,
) -> Traffic<'a>
    ensures requests { result.requests.now ≡ requests_of (slice_get edge.now.traffic.items place) }
    ensures request_bytes { result.request_bytes ≡ request_bytes_of (slice_get edge.now.traffic.items place) }
    ensures response_bytes { result.response_bytes ≡ response_bytes_of (slice_get edge.now.traffic.items place) }
{
    match edge.traffic_of(place) {
        Some(counted) => Traffic {
            requests: &counted.requests,
            request_bytes: counted.request_bytes,
            response_bytes: counted.response_bytes,
        },
        None => Traffic {
            requests: &[],
            request_bytes: 0,
            response_bytes: 0,
        },
    }
}

/// What is looked at of the server.
fn server_of<R: Net, S: Store, L: PartitionLog + Drop>(
    edge: &Edge<R, S, L>,
    history: &History,
) -> ServerGauges
    ensures { result ≡ server_at edge.now.host.broker.state edge.now.host.broker.strays
        (S.disk edge.now.host.broker.store).failures (vec_len edge.now.sockets) edge.now.limit history.now.turns history.now.longest }
{
    let broker = edge.broker();
    let turns = &history.turns;
    ServerGauges {
        strangers: broker.strangers() as u64,
        sockets: edge.sockets_len() as u64,
        sockets_limit: edge.most_sockets() as u64,
        accepted: turns.accepted,
        read_bytes: turns.read,
        written_bytes: turns.written,
        logins_failed: turns.denied,
        closed: Closed {
            no_place: turns.turned_away,
            no_login: turns.strangers,
            unread_reply: turns.unread,
            idle: turns.idle,
            slow_request: turns.slow,
            limit: turns.over_limit,
        },
        refusals_before_login: broker.refusals_unbound(),
        store_failures: broker.store().failures(),
        stray_files: broker.strays().map(|files| files.len() as u64),
        turn_micros_max: history.longest,
    }
}

/// What is looked at of the process.
fn process_of<'a>(rt: &HostRuntime, history: &'a History) -> ProcessGauges<'a>
    ensures version { result.version.now ≡ VERSION.now }
    ensures began { IsProcess history.now.started (string_bytes history.now.start_text) result }
{
    ProcessGauges {
        version: VERSION,
        start_seconds: history.started() / 1000,
        start_text: &history.start_text,
        resident_bytes: resident_bytes(rt),
        open_fds: open_files(rt),
        max_fds: most_files(rt),
        cpu_millis: cpu_millis(rt),
    }
}
