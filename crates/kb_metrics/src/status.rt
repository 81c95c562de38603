//! The status page, and the page of a tenant.

ghost use Rattle.std.specs.Prelude.{◌≡◌, ◌++◌, map, length, codes, OnOk, option_copied};
ghost use Rattle.std.specs.Option.{option_map};
ghost use Rattle.std.specs.List.{flat_map, range_with_len};
ghost use Rattle.kb_metrics.specs.Markup.{cell_of, fact_of};
ghost use Rattle.kb_metrics.specs.Rows.{group_row, lag_row, partition_row, tenant_row};
ghost use Rattle.kb_metrics.specs.Status.{begin_text, both_plots, closed_facts, facts_text};
ghost use Rattle.kb_metrics.specs.Status.{group_line, lag_line, lag_sum, offset_cells, partition_line};
ghost use Rattle.kb_metrics.specs.Status.{piece_text, place_cells, plots_text};
ghost use Rattle.kb_metrics.specs.Status.{process_facts, row_at, rows_text, socket_facts, stored_cells};
ghost use Rattle.kb_metrics.specs.Status.{status_text, tenant_cells, tenant_page, tenant_text};
ghost use Rattle.kb_metrics.specs.Status.{title_text, traffic_cells, trouble_facts, whole};
ghost use Rattle.kb_metrics.specs.declared.text.Value.TheVariants.{Thousandths, Whole};

use crate::markup::{
    Cell, Fact, Tag, push_cell, push_cell_or, push_cells, push_facts, push_link_cell,
    push_name_cell, push_plot_cell, push_signed_cell, push_tag, push_text_line,
};
use crate::rates::Rates;
use crate::row::{Row, push_rows};
use crate::rows::{GroupRow, LagRow, PartitionRow, TenantRow};
use crate::server::{Closed, ProcessGauges, ServerGauges};
use crate::text::Value;
use std::alloc::AllocError;

/// A piece of a page that is always the same.
#[derive(Clone, Copy, Debug, PartialEq, Eq)]
enum Piece {
    Head,
    Tenants,
    Partitions,
    Groups,
    Lags,
    End,
}

impl Piece {
    #[tactic(auto, unfolding(crate::specs::Status::piece_text))]
    fn text(self) -> &'static str
        ensures { result.now ≡ piece_text self }
    {
        match self {
            Piece::Head => {
                "<!DOCTYPE html>\n<html lang=\"en\"><head><meta charset=\"utf-8\">\
                <meta http-equiv=\"refresh\" content=\"5\">\
                <meta name=\"viewport\" content=\"width=device-width\"><title>kbroker</title>\
                <style>body{font:14px sans-serif;margin:1em}table{border-collapse:collapse;margin:0 0 1.5em}\
                th,td{text-align:left;padding:2px 8px;border-bottom:1px solid #999}\
                svg{width:120px;height:26px;vertical-align:bottom}polyline{fill:none;stroke:currentColor}\
                @media(max-width:700px){.w,.w tbody,.w tr,.w td{display:block}\
                .w tr{border-bottom:2px solid #999}.w th{display:none}.w td{border:0}\
                .w td::before{content:attr(data-l) \": \"}}</style></head><body><h1><a href=\"/\">kbroker</a>\
                </h1>\n<table>\n"
            }
            Piece::Tenants => {
                "</table>\n<h2>Tenants</h2>\n<table class=\"w\">\n<tr><th>Tenant</th><th>Connections</th>\
                <th>Waiting</th><th>Topics</th><th>Partitions</th><th>Groups</th><th>Lag</th><th>Refusals</th>\
                <th>Stored bytes</th><th>Stored bytes, at most</th>\
                <th>Bytes in</th><th>Bytes out</th><th>In a second</th><th>Out a second</th></tr>\n"
            }
            Piece::Partitions => {
                "</table>\n<h2>Partitions</h2>\n<table class=\"w\">\n<tr><th>Topic</th><th>Partition</th>\
                <th>Start</th><th>End</th></tr>\n"
            }
            Piece::Groups => {
                "</table>\n<h2>Groups</h2>\n<table class=\"w\">\n<tr><th>Group</th><th>Members</th>\
                <th>Generation</th></tr>\n"
            }
            Piece::Lags => {
                "</table>\n<h2>Lag</h2>\n<table class=\"w\">\n<tr><th>Group</th><th>Topic</th><th>Lag</th></tr>\n"
            }
            Piece::End => "</table>\n</body></html>\n",
        }
    }
}

/// Writes the status page: the server, and a row for each tenant, whose rates stand at the same place.
pub(crate) fn push_status_page(
    out: &mut Vec<u8>,
    server: &ServerGauges,
    process: &ProcessGauges<'_>,
    tenants: &[TenantRow<'_>],
    rates: &[Rates],
) -> Result<(), AllocError>
    ensures { OnOk result (out.new.items ≡ out.old.items ++ status_text server.now process.now (map tenant_row tenants.now) rates.now) }
{
    push_piece(out, Piece::Head)?;
    push_begin(out, process)?;
    push_all_facts(out, server, process)?;
    push_piece(out, Piece::Tenants)?;
    push_tenants(out, tenants, rates)?;
    push_piece(out, Piece::End)
}

/// Writes the page of a tenant.
pub(crate) fn push_tenant_page(
    out: &mut Vec<u8>,
    tenant: &TenantRow<'_>,
    partitions: &[PartitionRow<'_>],
) -> Result<(), AllocError>
    ensures { OnOk result (out.new.items ≡ out.old.items ++ tenant_page (tenant_row tenant.now) (map partition_row partitions.now)) }
{
    push_piece(out, Piece::Head)?;
    push_title(out, tenant.name)?;
    push_piece(out, Piece::Partitions)?;
    push_rows(out, (), partitions)?;
    push_piece(out, Piece::Groups)?;
    push_rows(out, (), tenant.groups.as_slice())?;
    push_piece(out, Piece::Lags)?;
    push_rows(out, (), tenant.lags.as_slice())?;
    push_piece(out, Piece::End)
}

/// Writes whose page it is.
#[tactic(auto, unfolding(crate::specs::Status::title_text))]
fn push_title(out: &mut Vec<u8>, tenant: &str) -> Result<(), AllocError>
    ensures { OnOk result (out.new.items ≡ out.old.items ++ title_text tenant.now) }
{
    push_text_line(out, "Tenant", tenant)
}

fn push_piece(out: &mut Vec<u8>, piece: Piece) -> Result<(), AllocError>
    ensures { OnOk result (out.new.items ≡ out.old.items ++ piece_text piece) }
{
    out.extend_from_slice(piece.text().as_bytes())
}

/// Writes when the broker began to serve, and which version it is.
#[tactic(auto, unfolding(crate::specs::Status::begin_text))]
fn push_begin(out: &mut Vec<u8>, process: &ProcessGauges<'_>) -> Result<(), AllocError>
    ensures { OnOk result (out.new.items ≡ out.old.items ++ begin_text process.now) }
{
    push_text_line(out, "Up since", process.start_text)?;
    push_text_line(out, "Version", process.version)
}

#[tactic(auto, unfolding(crate::specs::Status::facts_text))]
fn push_all_facts(
    out: &mut Vec<u8>,
    server: &ServerGauges,
    process: &ProcessGauges<'_>,
) -> Result<(), AllocError>
    ensures { OnOk result (out.new.items ≡ out.old.items ++ facts_text server.now process.now) }
{
    push_facts(out, &process_facts(process))?;
    push_facts(out, &socket_facts(server))?;
    push_facts(out, &trouble_facts(server))?;
    push_facts(out, &closed_facts(&server.closed))
}

fn fact(label: &'static str, count: u64) -> Fact
    ensures { fact_of result ≡ (label.now, whole count) }
{
    Fact {
        label,
        value: Some(Value::Whole(count)),
    }
}

/// A line that may not be known.
fn known_fact(label: &'static str, count: Option<u64>) -> Fact
    ensures { fact_of result ≡ (label.now, option_map Whole count) }
{
    let value = match count {
        Some(count) => Some(Value::Whole(count)),
        None => None,
    };
    Fact { label, value }
}

#[tactic(auto, unfolding(crate::specs::Status::process_facts))]
fn process_facts(process: &ProcessGauges<'_>) -> [Fact; 4]
    ensures { map fact_of result ≡ process_facts process.now }
{
    [
        known_fact("Memory, bytes", process.resident_bytes),
        known_fact("Open files", process.open_fds),
        known_fact("Files, at most", process.max_fds),
        processor_fact(process.cpu_millis),
    ]
}

fn processor_fact(millis: Option<u64>) -> Fact
    ensures { fact_of result ≡ (codes "Processor time, seconds", option_map Thousandths millis) }
{
    let value = match millis {
        Some(count) => Some(Value::Thousandths(count)),
        None => None,
    };
    Fact {
        label: "Processor time, seconds",
        value,
    }
}

#[tactic(auto, unfolding(crate::specs::Status::socket_facts))]
fn socket_facts(server: &ServerGauges) -> [Fact; 7]
    ensures { map fact_of result ≡ socket_facts server.now }
{
    [
        fact("Sockets", server.sockets),
        fact("Sockets, at most", server.sockets_limit),
        fact("Sockets without a login", server.strangers),
        fact("Sockets accepted", server.accepted),
        fact("Bytes read", server.read_bytes),
        fact("Bytes written", server.written_bytes),
        Fact {
            label: "Longest turn, seconds",
            value: Some(Value::Millionths(server.turn_micros_max)),
        },
    ]
}

#[tactic(auto, unfolding(crate::specs::Status::trouble_facts))]
fn trouble_facts(server: &ServerGauges) -> [Fact; 4]
    ensures { map fact_of result ≡ trouble_facts server.now }
{
    [
        fact("Logins failed", server.logins_failed),
        fact("Refusals before login", server.refusals_before_login),
        fact("Calls that the store refused", server.store_failures),
        known_fact("Files of no log", server.stray_files),
    ]
}

/// How many sockets the broker closed, by cause.
#[tactic(auto, unfolding(crate::specs::Status::closed_facts))]
fn closed_facts(closed: &Closed) -> [Fact; 6]
    ensures { map fact_of result ≡ closed_facts closed.now }
{
    [
        fact("Closed: no place", closed.no_place),
        fact("Closed: no login", closed.no_login),
        fact("Closed: unread reply", closed.unread_reply),
        fact("Closed: idle", closed.idle),
        fact("Closed: slow request", closed.slow_request),
        fact("Closed: limit", closed.limit),
    ]
}

/// Writes a row for each tenant.
#[tactic(auto, unfolding(crate::specs::Status::rows_text))]
fn push_tenants(
    out: &mut Vec<u8>,
    tenants: &[TenantRow<'_>],
    rates: &[Rates],
) -> Result<(), AllocError>
    ensures { OnOk result (out.new.items ≡ out.old.items ++ rows_text (map tenant_row tenants.now) rates.now) }
{
    for place in 0..tenants.len() {
        push_row(out, tenants, rates, place)?;
    }
    Ok(())
}

/// Writes the row of the tenant at a place.
fn push_row(
    out: &mut Vec<u8>,
    tenants: &[TenantRow<'_>],
    rates: &[Rates],
    place: usize,
) -> Result<(), AllocError>
    ensures { OnOk result (out.new.items ≡ out.old.items ++ row_at (map tenant_row tenants.now) rates.now place) }
{
    match tenants.get(place) {
        Some(tenant) => push_tenant(out, tenant, rates.get(place)),
        None => Ok(()),
    }
}

/// Writes the row of a tenant.
#[tactic(auto, unfolding(crate::specs::Status::tenant_text))]
fn push_tenant(
    out: &mut Vec<u8>,
    tenant: &TenantRow<'_>,
    rates: Option<&Rates>,
) -> Result<(), AllocError>
    ensures { OnOk result (out.new.items ≡ out.old.items ++ tenant_text (tenant_row tenant.now) (option_copied rates.entry)) }
{
    push_tag(out, Tag::Row)?;
    push_link_cell(out, "Tenant", tenant.name)?;
    push_cells(out, &tenant_cells(tenant))?;
    push_stored_cells(out, tenant)?;
    push_cells(out, &traffic_cells(tenant))?;
    push_plots(out, rates)?;
    push_tag(out, Tag::RowEnd)
}

#[tactic(auto, unfolding(crate::specs::Status::tenant_cells))]
fn tenant_cells(tenant: &TenantRow<'_>) -> [Cell; 7]
    ensures { map cell_of result ≡ tenant_cells (tenant_row tenant.now) }
{
    [
        cell("Connections", tenant.connections),
        cell("Waiting", tenant.waiting),
        cell("Topics", tenant.topics),
        cell("Partitions", tenant.partitions),
        cell("Groups", tenant.groups.len() as u64),
        cell("Lag", lag_sum(&tenant.lags)),
        cell("Refusals", tenant.refusals),
    ]
}

/// Writes the bytes of a tenant's batches, and how many it may have.
#[tactic(auto, unfolding(crate::specs::Status::stored_cells))]
fn push_stored_cells(out: &mut Vec<u8>, tenant: &TenantRow<'_>) -> Result<(), AllocError>
    ensures { OnOk result (out.new.items ≡ out.old.items ++ stored_cells (tenant_row tenant.now)) }
{
    let most = tenant.limits.bytes;
    push_cell_or(out, "Stored bytes", "not known", tenant.stored)?;
    push_cell_or(out, "Stored bytes, at most", "no limit", most)
}

#[tactic(auto, unfolding(crate::specs::Status::traffic_cells))]
fn traffic_cells(tenant: &TenantRow<'_>) -> [Cell; 2]
    ensures { map cell_of result ≡ traffic_cells (tenant_row tenant.now) }
{
    [
        cell("Bytes in", tenant.request_bytes),
        cell("Bytes out", tenant.response_bytes),
    ]
}

fn cell(label: &'static str, value: u64) -> Cell
    ensures { cell_of result ≡ (label.now, value) }
{
    Cell { label, value }
}

/// How far groups are behind together. It stays at the greatest number.
fn lag_sum(lags: &[LagRow<'_>]) -> u64
    ensures { result ≡ lag_sum (map lag_row lags.now) }
{
    let mut sum: u64 = 0;
    for lag in lags {
        sum = sum.saturating_add(lag.value);
    }
    sum
}

/// Writes the bytes of each second, in and out, where they are known.
fn push_plots(out: &mut Vec<u8>, rates: Option<&Rates>) -> Result<(), AllocError>
    ensures { OnOk result (out.new.items ≡ out.old.items ++ plots_text (option_copied rates.entry)) }
{
    match rates {
        Some(rates) => push_both_plots(out, rates),
        None => Ok(()),
    }
}

#[tactic(auto, unfolding(crate::specs::Status::both_plots))]
fn push_both_plots(out: &mut Vec<u8>, rates: &Rates) -> Result<(), AllocError>
    ensures { OnOk result (out.new.items ≡ out.old.items ++ both_plots rates.now) }
{
    push_plot_cell(out, "In a second", rates.requests())?;
    push_plot_cell(out, "Out a second", rates.responses())
}

/// A partition, as a line.
impl<'a> Row<()> for PartitionRow<'a> {
    ghost use Rattle.kb_metrics.specs.Rows.{Partition};

    ghost Seen = { Partition };

    ghost seen = { partition_row };

    ghost text = { λ place. partition_line };

    #[tactic(auto, unfolding(crate::specs::Status::partition_line))]
    fn push(&self, out: &mut Vec<u8>, _place: ()) -> Result<(), AllocError> {
        push_tag(out, Tag::Row)?;
        push_place_cells(out, self.topic, self.number)?;
        push_offset_cells(out, self.start, self.end)?;
        push_tag(out, Tag::RowEnd)
    }
}

#[tactic(auto, unfolding(crate::specs::Status::place_cells))]
fn push_place_cells(out: &mut Vec<u8>, topic: &str, number: u64) -> Result<(), AllocError>
    ensures { OnOk result (out.new.items ≡ out.old.items ++ place_cells topic.now number) }
{
    push_name_cell(out, "Topic", topic.as_bytes())?;
    push_cell(out, "Partition", number)
}

#[tactic(auto, unfolding(crate::specs::Status::offset_cells))]
fn push_offset_cells(out: &mut Vec<u8>, start: i64, end: i64) -> Result<(), AllocError>
    ensures { OnOk result (out.new.items ≡ out.old.items ++ offset_cells start end) }
{
    push_signed_cell(out, "Start", start)?;
    push_signed_cell(out, "End", end)
}

/// A group, as a line.
impl<'a> Row<()> for GroupRow<'a> {
    ghost use Rattle.kb_metrics.specs.Rows.{Group};

    ghost Seen = { Group };

    ghost seen = { group_row };

    ghost text = { λ place. group_line };

    #[tactic(auto, unfolding(crate::specs::Status::group_line))]
    fn push(&self, out: &mut Vec<u8>, _place: ()) -> Result<(), AllocError> {
        push_tag(out, Tag::Row)?;
        push_name_cell(out, "Group", self.id)?;
        push_cell(out, "Members", self.members)?;
        push_signed_cell(out, "Generation", self.generation as i64)?;
        push_tag(out, Tag::RowEnd)
    }
}

/// How far a group is behind in a topic, as a line.
impl<'a> Row<()> for LagRow<'a> {
    ghost use Rattle.kb_metrics.specs.Rows.{Lag};

    ghost Seen = { Lag };

    ghost seen = { lag_row };

    ghost text = { λ place. lag_line };

    #[tactic(auto, unfolding(crate::specs::Status::lag_line))]
    fn push(&self, out: &mut Vec<u8>, _place: ()) -> Result<(), AllocError> {
        push_tag(out, Tag::Row)?;
        push_name_cell(out, "Group", self.group.as_bytes())?;
        push_name_cell(out, "Topic", self.topic.as_bytes())?;
        push_cell(out, "Lag", self.value)?;
        push_tag(out, Tag::RowEnd)
    }
}
