//! The status page and the page of a tenant, of what is there.

ghost use Rattle.std.specs.Prelude.{◌≡◌, ◌++◌, map, OnOk};
ghost use Rattle.kb_store.specs.Disk.{Files};
ghost use Rattle.kb_metrics.specs.Gauges.{partitions, shown_tenant};
ghost use Rattle.kb_metrics.specs.Status.{status_text, tenant_page};
ghost use Rattle.kb_metrics.specs.View.{observed};

use crate::gather::{partition_rows, tenant_row, tenant_rows};
use crate::gauges::TenantGauges;
use crate::rates::Rates;
use crate::server::{ProcessGauges, ServerGauges};
use crate::status::{push_status_page, push_tenant_page};
use kb_log::PartitionLog;
use std::alloc::{AllocError, Global};

/// Writes the status page: the server, and a row for each tenant, whose rates stand at the same place. It has no scripts, asks for itself
/// again every five seconds, and each name on it is escaped.
///
/// After an `Err`, which is want of memory, some of it may be there.
pub fn push_status<L: PartitionLog>(
    alloc: Global,
    out: &mut Vec<u8>,
    server: &ServerGauges,
    process: &ProcessGauges<'_>,
    tenants: &[TenantGauges<'_, L>],
    rates: &[Rates],
) -> Result<(), AllocError>
    ensures { OnOk result ((files : Files) → out.new.items
        ≡ out.old.items ++ status_text server.now process.now (map shown_tenant (map (observed L.log files) tenants.now)) rates.now) }
{
    let rows = tenant_rows(alloc, tenants)?;
    push_status_page(out, server, process, &rows, rates)
}

/// Writes the page of a tenant: its topics with their partitions, its groups, and their lag.
///
/// After an `Err`, which is want of memory, some of it may be there.
pub fn push_tenant_status<L: PartitionLog>(
    alloc: Global,
    out: &mut Vec<u8>,
    tenant: &TenantGauges<'_, L>,
) -> Result<(), AllocError>
    ensures { OnOk result ((files : Files) → out.new.items ≡ out.old.items
        ++ tenant_page (shown_tenant (observed L.log files tenant.now)) (partitions (observed L.log files tenant.now).world)) }
{
    let row = tenant_row(alloc, tenant)?;
    let partitions = partition_rows(alloc, tenant.parts)?;
    push_tenant_page(out, &row, &partitions)
}
