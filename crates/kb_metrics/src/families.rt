//! What the text format says of tenants, and of a tenant's partitions.

ghost use Rattle.std.specs.Prelude.{◌≡◌, ◌++◌, IfOk, OnOk, Some, map, option_copied};
ghost use Rattle.std.specs.List.{flat_map};
ghost use Rattle.kb_metrics.specs.Causes.{cause_text, each_cause};
ghost use Rattle.kb_metrics.specs.Families.{all_families, api_name, api_text, commit_text, committed_text, counted_text};
ghost use Rattle.kb_metrics.specs.Families.{end_text, ends_text, families_text, family_text, sample_front, head_of};
ghost use Rattle.kb_metrics.specs.Families.{known_text, lag_text, members_text, number_text, offset_text, offsets_text, requests_text};
ghost use Rattle.kb_metrics.specs.Families.{said_of, start_text, starts_text, tenant_label};
ghost use Rattle.kb_metrics.specs.Limits.{each_limit, limit_text};
ghost use Rattle.kb_metrics.specs.Overs.{each_over, over_text};
ghost use Rattle.kb_metrics.specs.Rows.{commit_row, group_row, lag_row, partition_row, tenant_row};
ghost use Rattle.kb_metrics.specs.Text.{head_seen, label_of};

use crate::causes::cause_rows;
use crate::limits::{Limits, limit_rows};
use crate::overs::over_rows;
use crate::row::{Row, push_rows};
use crate::rows::{CommitRow, GroupRow, LagRow, PartitionRow, TenantRow};
use crate::text::{Head, Kind, Label, push_behind, push_family, push_front, push_sample};
use itoa::Buffer;
use kb_over_limit::OverLimit;
use std::alloc::AllocError;

/// What is counted of a tenant, or of its partitions.
#[derive(Clone, Copy, Debug, PartialEq, Eq)]
pub enum Family {
    Connections,
    Waiting,
    Topics,
    Partitions,
    StoredBytes,
    CommittedOffsets,
    Limit,
    Members,
    Lag,
    Requests,
    RequestBytes,
    ResponseBytes,
    Refusals,
    OverLimit,
    Start,
    End,
    Committed,
}

impl Family {
    fn head(self) -> Head
        ensures { head_seen result ≡ head_of self }
    {
        Head {
            name: self.name(),
            help: self.help(),
            kind: self.kind(),
        }
    }

    fn name(self) -> &'static str
        ensures { result.now ≡ (head_of self).name }
    {
        match self {
            Family::Connections => "kbroker_connections",
            Family::Waiting => "kbroker_waiting_requests",
            Family::Topics => "kbroker_topics",
            Family::Partitions => "kbroker_partitions",
            Family::StoredBytes => "kbroker_stored_bytes",
            Family::CommittedOffsets => "kbroker_committed_offsets",
            Family::Limit => "kbroker_limit",
            Family::Members => "kbroker_group_members",
            Family::Lag => "kbroker_group_lag",
            Family::Requests => "kbroker_requests_total",
            Family::RequestBytes => "kbroker_request_bytes_total",
            Family::ResponseBytes => "kbroker_response_bytes_total",
            Family::Refusals => "kbroker_refusals_total",
            Family::OverLimit => "kbroker_over_limit_total",
            Family::Start => "kbroker_partition_start_offset",
            Family::End => "kbroker_partition_end_offset",
            Family::Committed => "kbroker_group_committed_offset",
        }
    }

    fn help(self) -> &'static str
        ensures { result.now ≡ (head_of self).help }
    {
        match self {
            Family::Connections => "Open connections that are logged in.",
            Family::Waiting => "Connections that wait for the answer to a request.",
            Family::Topics => "Topics.",
            Family::Partitions => "Partitions of all topics.",
            Family::StoredBytes => "Bytes of the batches in all logs, where they are known.",
            Family::CommittedOffsets =>
                "Offsets that groups committed, one for each group and partition.",
            Family::Limit => "Limits that are set.",
            Family::Members => "Members of each group.",
            Family::Lag =>
                "Records between the committed offsets and the ends of the partitions to which the group committed.",
            Family::Requests => "Requests, by API.",
            Family::RequestBytes => "Bytes of requests.",
            Family::ResponseBytes => "Bytes of responses.",
            Family::Refusals => "Calls of memory and of the store that were refused, by cause.",
            Family::OverLimit =>
                "Topics, batches, commits and members that were refused for a limit, by what is limited.",
            Family::Start => "Offset of the first record.",
            Family::End => "Offset behind the last record.",
            Family::Committed => "Offset that a group committed.",
        }
    }

    fn kind(self) -> Kind
        ensures { result ≡ (head_of self).kind }
    {
        match self {
            Family::Requests
            | Family::RequestBytes
            | Family::ResponseBytes
            | Family::Refusals
            | Family::OverLimit => Kind::Counter,
            _ => Kind::Gauge,
        }
    }
}

/// The name of an API, by its key; none where it is not served.
fn api_name(key: usize) -> Option<&'static str>
    ensures { option_copied result ≡ api_name key }
{
    match key {
        0 => Some("Produce"),
        1 => Some("Fetch"),
        2 => Some("ListOffsets"),
        3 => Some("Metadata"),
        8 => Some("OffsetCommit"),
        9 => Some("OffsetFetch"),
        10 => Some("FindCoordinator"),
        11 => Some("JoinGroup"),
        12 => Some("Heartbeat"),
        13 => Some("LeaveGroup"),
        14 => Some("SyncGroup"),
        15 => Some("DescribeGroups"),
        16 => Some("ListGroups"),
        17 => Some("SaslHandshake"),
        18 => Some("ApiVersions"),
        19 => Some("CreateTopics"),
        20 => Some("DeleteTopics"),
        21 => Some("DeleteRecords"),
        22 => Some("InitProducerId"),
        32 => Some("DescribeConfigs"),
        36 => Some("SaslAuthenticate"),
        42 => Some("DeleteGroups"),
        _ => None,
    }
}

/// Writes what is said of tenants, a family after another.
pub(crate) fn push_families(out: &mut Vec<u8>, tenants: &[TenantRow<'_>]) -> Result<(), AllocError>
    ensures { OnOk result (out.new.items ≡ out.old.items ++ families_text (map tenant_row tenants.now)) }
{
    let families = [
        Family::Connections,
        Family::Waiting,
        Family::Topics,
        Family::Partitions,
        Family::StoredBytes,
        Family::CommittedOffsets,
        Family::Limit,
        Family::Members,
        Family::Lag,
        Family::Requests,
        Family::RequestBytes,
        Family::ResponseBytes,
        Family::Refusals,
        Family::OverLimit,
    ];
    push_each_family(out, &families, tenants)
}

/// Writes families of tenants.
fn push_each_family(
    out: &mut Vec<u8>,
    families: &[Family],
    tenants: &[TenantRow<'_>],
) -> Result<(), AllocError>
    ensures { OnOk result (out.new.items ≡ out.old.items ++ flat_map (family_text (map tenant_row tenants.now)) families.now) }
{
    for family in families {
        push_tenants(out, *family, tenants)?;
    }
    Ok(())
}

/// Writes a family of tenants.
fn push_tenants(
    out: &mut Vec<u8>,
    family: Family,
    tenants: &[TenantRow<'_>],
) -> Result<(), AllocError>
    ensures { OnOk result (out.new.items ≡ out.old.items ++ family_text (map tenant_row tenants.now) family) }
{
    push_family(out, family.head(), family, tenants)
}

/// What stands in front of each sample of a family: its name, and the label of its tenant.
fn front(out: &Vec<u8>, family: Family, tenant: &str) -> Result<Vec<u8>, AllocError>
    ensures { IfOk result (λ front. front.items ≡ sample_front family tenant.now) }
{
    let mut front = Vec::new(*out.allocator());
    push_front(&mut front, family.head().name, tenant_label(tenant))?;
    Ok(front)
}

fn tenant_label(tenant: &str) -> Label<'_>
    ensures { label_of result ≡ tenant_label tenant.now }
{
    Label {
        name: "tenant",
        value: tenant.as_bytes(),
    }
}

/// What a family says of a tenant.
impl<'a> Row<Family> for TenantRow<'a> {
    ghost use Rattle.kb_metrics.specs.Rows.{Tenant};

    ghost Seen = { Tenant };

    ghost seen = { tenant_row };

    ghost text = { said_of };

    fn push(&self, out: &mut Vec<u8>, family: Family) -> Result<(), AllocError> {
        let tenant = self.name;
        match family {
            Family::Connections => push_number(out, family, tenant, self.connections),
            Family::Waiting => push_number(out, family, tenant, self.waiting),
            Family::Topics => push_number(out, family, tenant, self.topics),
            Family::Partitions => push_number(out, family, tenant, self.partitions),
            Family::StoredBytes => push_known(out, family, tenant, self.stored),
            Family::CommittedOffsets => push_number(out, family, tenant, self.committed_offsets),
            Family::Limit => push_limits(out, family, tenant, &self.limits),
            Family::Members => push_members(out, family, tenant, &self.groups),
            Family::Lag => push_lags(out, family, tenant, &self.lags),
            Family::Requests => push_requests(out, family, tenant, self.requests),
            Family::RequestBytes => push_number(out, family, tenant, self.request_bytes),
            Family::ResponseBytes => push_number(out, family, tenant, self.response_bytes),
            Family::Refusals => push_causes(
                out,
                family,
                tenant,
                self.refusals,
                self.store_refusals,
            ),
            Family::OverLimit => push_overs(out, family, tenant, self.over),
            Family::Start | Family::End | Family::Committed => Ok(()),
        }
    }
}

/// Writes a number of a tenant.
fn push_number(
    out: &mut Vec<u8>,
    family: Family,
    tenant: &str,
    value: u64,
) -> Result<(), AllocError>
    ensures { OnOk result (out.new.items ≡ out.old.items ++ number_text family tenant.now value) }
{
    push_sample(out, family.head().name, tenant_label(tenant), &[], value)
}

/// Writes a number of a tenant, where it is known.
fn push_known(
    out: &mut Vec<u8>,
    family: Family,
    tenant: &str,
    value: Option<u64>,
) -> Result<(), AllocError>
    ensures { OnOk result (out.new.items ≡ out.old.items ++ known_text family tenant.now value) }
{
    match value {
        Some(value) => push_number(out, family, tenant, value),
        None => Ok(()),
    }
}

/// Writes the limits that are set for a tenant.
fn push_limits(
    out: &mut Vec<u8>,
    family: Family,
    tenant: &str,
    limits: &Limits,
) -> Result<(), AllocError>
    ensures { OnOk result (out.new.items
        ≡ out.old.items ++ flat_map (limit_text (sample_front family tenant.now)) (each_limit limits.now)) }
{
    let front = front(out, family, tenant)?;
    push_rows(out, front.as_slice(), &limit_rows(limits))
}

/// Writes how many refusals have each cause.
fn push_causes(
    out: &mut Vec<u8>,
    family: Family,
    tenant: &str,
    all: u64,
    store: u64,
) -> Result<(), AllocError>
    ensures { OnOk result (out.new.items
        ≡ out.old.items ++ flat_map (cause_text (sample_front family tenant.now)) (each_cause all store)) }
{
    let front = front(out, family, tenant)?;
    push_rows(out, front.as_slice(), &cause_rows(all, store))
}

/// Writes how often each limit was passed.
fn push_overs(
    out: &mut Vec<u8>,
    family: Family,
    tenant: &str,
    over: OverLimit,
) -> Result<(), AllocError>
    ensures { OnOk result (out.new.items
        ≡ out.old.items ++ flat_map (over_text (sample_front family tenant.now)) (each_over over)) }
{
    let front = front(out, family, tenant)?;
    push_rows(out, front.as_slice(), &over_rows(over))
}

/// Writes how many members each group has.
fn push_members(
    out: &mut Vec<u8>,
    family: Family,
    tenant: &str,
    groups: &[GroupRow<'_>],
) -> Result<(), AllocError>
    ensures { OnOk result (out.new.items
        ≡ out.old.items ++ flat_map (members_text (sample_front family tenant.now)) (map group_row groups.now)) }
{
    let front = front(out, family, tenant)?;
    push_rows(out, front.as_slice(), groups)
}

/// How many members a group has.
impl<'a, 'b> Row<&'b [u8]> for GroupRow<'a> {
    ghost use Rattle.kb_metrics.specs.Rows.{Group};

    ghost Seen = { Group };

    ghost seen = { group_row };

    ghost text = { λ front. members_text front.now };

    fn push(&self, out: &mut Vec<u8>, front: &'b [u8]) -> Result<(), AllocError> {
        let more = [Label {
            name: "group",
            value: self.id,
        }];
        push_behind(out, front, &more, self.members)
    }
}

/// Writes how far each group is behind in each topic.
fn push_lags(
    out: &mut Vec<u8>,
    family: Family,
    tenant: &str,
    lags: &[LagRow<'_>],
) -> Result<(), AllocError>
    ensures { OnOk result (out.new.items
        ≡ out.old.items ++ flat_map (lag_text (sample_front family tenant.now)) (map lag_row lags.now)) }
{
    let front = front(out, family, tenant)?;
    push_rows(out, front.as_slice(), lags)
}

/// How far a group is behind in a topic.
impl<'a, 'b> Row<&'b [u8]> for LagRow<'a> {
    ghost use Rattle.kb_metrics.specs.Rows.{Lag};

    ghost Seen = { Lag };

    ghost seen = { lag_row };

    ghost text = { λ front. lag_text front.now };

    fn push(&self, out: &mut Vec<u8>, front: &'b [u8]) -> Result<(), AllocError> {
        let more = [
            Label {
                name: "group",
                value: self.group.as_bytes(),
            },
            Label {
                name: "topic",
                value: self.topic.as_bytes(),
            },
        ];
        push_behind(out, front, &more, self.value)
    }
}

/// Writes how many requests there were, by API.
fn push_requests(
    out: &mut Vec<u8>,
    family: Family,
    tenant: &str,
    requests: &[u64],
) -> Result<(), AllocError>
    ensures { OnOk result (out.new.items ≡ out.old.items ++ requests_text (sample_front family tenant.now) requests.now) }
{
    let front = front(out, family, tenant)?;
    push_each_api(out, &front, requests)
}

/// Writes how many requests of each API there were.
fn push_each_api(out: &mut Vec<u8>, front: &[u8], requests: &[u64]) -> Result<(), AllocError>
    ensures { OnOk result (out.new.items ≡ out.old.items ++ requests_text front.now requests.now) }
{
    for key in 0..requests.len() {
        push_api(out, front, key, requests[key])?;
    }
    Ok(())
}

/// Writes how many requests of an API there were.
fn push_api(out: &mut Vec<u8>, front: &[u8], key: usize, count: u64) -> Result<(), AllocError>
    ensures { OnOk result (out.new.items ≡ out.old.items ++ api_text front.now (key, count)) }
{
    match api_name(key) {
        Some(api) => push_counted(out, front, api, count),
        None => Ok(()),
    }
}

/// Writes how many requests of an API there were, where there were some.
fn push_counted(out: &mut Vec<u8>, front: &[u8], api: &str, count: u64) -> Result<(), AllocError>
    ensures { OnOk result (out.new.items ≡ out.old.items ++ counted_text front.now (Some api.now) count) }
{
    if count == 0 {
        return Ok(());
    }
    let more = [Label {
        name: "api",
        value: api.as_bytes(),
    }];
    push_behind(out, front, &more, count)
}

/// Writes where partitions start and end.
pub(crate) fn push_offsets(
    out: &mut Vec<u8>,
    tenant: &str,
    partitions: &[PartitionRow<'_>],
) -> Result<(), AllocError>
    ensures { OnOk result (out.new.items ≡ out.old.items ++ offsets_text tenant.now (map partition_row partitions.now)) }
{
    push_starts(out, tenant, partitions)?;
    push_ends(out, tenant, partitions)
}

#[tactic(auto, unfolding(crate::specs::Families::starts_text))]
fn push_starts(
    out: &mut Vec<u8>,
    tenant: &str,
    partitions: &[PartitionRow<'_>],
) -> Result<(), AllocError>
    ensures { OnOk result (out.new.items ≡ out.old.items ++ starts_text tenant.now (map partition_row partitions.now)) }
{
    let front = front(out, Family::Start, tenant)?;
    push_family(out, Family::Start.head(), Starts(&front), partitions)
}

#[tactic(auto, unfolding(crate::specs::Families::ends_text))]
fn push_ends(
    out: &mut Vec<u8>,
    tenant: &str,
    partitions: &[PartitionRow<'_>],
) -> Result<(), AllocError>
    ensures { OnOk result (out.new.items ≡ out.old.items ++ ends_text tenant.now (map partition_row partitions.now)) }
{
    let front = front(out, Family::End, tenant)?;
    push_family(out, Family::End.head(), Ends(&front), partitions)
}

/// Writes what groups committed to partitions.
pub(crate) fn push_committed(
    out: &mut Vec<u8>,
    tenant: &str,
    commits: &[CommitRow<'_>],
) -> Result<(), AllocError>
    ensures { OnOk result (out.new.items ≡ out.old.items ++ committed_text tenant.now (map commit_row commits.now)) }
{
    let front = front(out, Family::Committed, tenant)?;
    push_family(out, Family::Committed.head(), front.as_slice(), commits)
}

/// The front of samples that tell where a partition starts.
#[derive(Clone, Copy)]
struct Starts<'a>(&'a [u8]);

impl<'a, 'b> Row<Starts<'b>> for PartitionRow<'a> {
    ghost use Rattle.kb_metrics.specs.Rows.{Partition};

    ghost Seen = { Partition };

    ghost seen = { partition_row };

    ghost text = { λ front. start_text front.0.now };

    fn push(&self, out: &mut Vec<u8>, front: Starts<'b>) -> Result<(), AllocError> {
        push_offset(out, front.0, self, self.start)
    }
}

/// The front of samples that tell where a partition ends.
#[derive(Clone, Copy)]
struct Ends<'a>(&'a [u8]);

impl<'a, 'b> Row<Ends<'b>> for PartitionRow<'a> {
    ghost use Rattle.kb_metrics.specs.Rows.{Partition};

    ghost Seen = { Partition };

    ghost seen = { partition_row };

    ghost text = { λ front. end_text front.0.now };

    fn push(&self, out: &mut Vec<u8>, front: Ends<'b>) -> Result<(), AllocError> {
        push_offset(out, front.0, self, self.end)
    }
}

/// Writes an offset of a partition.
fn push_offset(
    out: &mut Vec<u8>,
    front: &[u8],
    partition: &PartitionRow<'_>,
    offset: i64,
) -> Result<(), AllocError>
    ensures { OnOk result (out.new.items
        ≡ out.old.items ++ offset_text front.now (partition_row partition.now) offset) }
{
    let mut buffer = Buffer::new();
    let more = [
        Label {
            name: "topic",
            value: partition.topic.as_bytes(),
        },
        Label {
            name: "partition",
            value: buffer.format(partition.number).as_bytes(),
        },
    ];
    push_behind(out, front, &more, offset)
}

/// What a group committed to a partition.
impl<'a, 'b> Row<&'b [u8]> for CommitRow<'a> {
    ghost use Rattle.kb_metrics.specs.Rows.{Commit};

    ghost Seen = { Commit };

    ghost seen = { commit_row };

    ghost text = { λ front. commit_text front.now };

    fn push(&self, out: &mut Vec<u8>, front: &'b [u8]) -> Result<(), AllocError> {
        let mut buffer = Buffer::new();
        let more = [
            Label {
                name: "group",
                value: self.group.as_bytes(),
            },
            Label {
                name: "topic",
                value: self.topic.as_bytes(),
            },
            Label {
                name: "partition",
                value: buffer.format(self.number).as_bytes(),
            },
        ];
        push_behind(out, front, &more, self.offset)
    }
}
