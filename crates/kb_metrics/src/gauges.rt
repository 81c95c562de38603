//! What a tenant is, to be looked at, and what the text format says of it.

ghost use Rattle.std.specs.Prelude.{◌≡◌, ◌++◌, map, OnOk};
ghost use Rattle.kb_store.specs.Disk.{Files};
ghost use Rattle.kb_metrics.specs.Gauges.{partitions_text, tenants_text};
ghost use Rattle.kb_metrics.specs.View.{observed};

use crate::families::{push_committed, push_families, push_offsets};
use crate::gather::{commit_rows, partition_rows, tenant_rows};
use crate::limits::Limits;
use kb_coordinator::Coordinator;
use kb_log::PartitionLog;
use kb_over_limit::OverLimit;
use kb_tenant_state::Parts;
use std::alloc::{AllocError, Global};

/// What came from a tenant's connections and went to them, since the process began.
#[derive(Clone, Copy)]
pub struct Traffic<'a> {
    /// How many requests there were, by API key: each number stands at the place of its key.
    pub requests: &'a [u64],
    pub request_bytes: u64,
    pub response_bytes: u64,
}

/// A tenant to look at: its name, its topics with their partitions, its groups, its limits, and what is counted of its connections.
#[derive(Drop)]
pub struct TenantGauges<'a, L: PartitionLog> {
    pub name: &'a str,
    pub parts: &'a Parts<L>,
    pub groups: &'a Coordinator,
    pub limits: Limits,
    /// Connections that are bound to it.
    pub connections: u64,
    /// Those of them that wait for the answer to a request.
    pub waiting: u64,
    pub traffic: Traffic<'a>,
    /// How many of the refusals that its parts count are the store's.
    pub store_refusals: u64,
    /// How often it was told that it is past one of its limits.
    pub over: OverLimit,
}

/// Writes what is said of tenants, a family after another: connections, what waits, topics, partitions, stored bytes where they are known,
/// committed offsets, limits, the members of each group, its lag in each topic, requests by API, bytes, refusals
/// by cause, and how often it was told that it is past a limit.
///
/// What is said of a tenant is a function of what stands in its own gauges. After an `Err`, which is want of memory, some of it may be
/// there.
pub fn push_tenants<L: PartitionLog>(
    alloc: Global,
    out: &mut Vec<u8>,
    tenants: &[TenantGauges<'_, L>],
) -> Result<(), AllocError>
    ensures { OnOk result ((files : Files) → out.new.items ≡ out.old.items ++ tenants_text (map (observed L.log files) tenants.now)) }
{
    let rows = tenant_rows(alloc, tenants)?;
    push_families(out, &rows)
}

/// Writes the start and end of each partition of a tenant, and what groups committed to it.
///
/// After an `Err`, which is want of memory, some of it may be there.
pub fn push_partitions<L: PartitionLog>(
    alloc: Global,
    out: &mut Vec<u8>,
    tenant: &TenantGauges<'_, L>,
) -> Result<(), AllocError>
    ensures { OnOk result ((files : Files) → out.new.items ≡ out.old.items ++ partitions_text (observed L.log files tenant.now)) }
{
    let partitions = partition_rows(alloc, tenant.parts)?;
    push_offsets(out, tenant.name, &partitions)?;
    let commits = commit_rows(alloc, tenant.parts)?;
    push_committed(out, tenant.name, &commits)
}
