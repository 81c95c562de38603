//! What a settings document says of the tenants.

ghost use Rattle.std.specs.Prelude.{◌≡◌, ◌≤◌, ◌<◌, [], IfOk, IfSome, IsTrue, map, nat_lt, option_map, option_and_then, codes, string_bytes};
ghost use Rattle.std.specs.List.{find, list_all, list_any, sum_by};
ghost use Rattle.std.specs.Str.{bytes_eq};
ghost use Rattle.toml.specs.Data.{get_member};
ghost use Rattle.toml.specs.View.{view, items_view, table_view};
ghost use Rattle.kb_settings.specs.Settings.{are_different};
ghost use Rattle.kb_settings.specs.Limits.{limits_in, is_allowed, are_limits};
ghost use Rattle.kb_settings.specs.Values.{account_of};
ghost use Rattle.kb_settings.specs.Document.{said_or, entry_limits, groups_of, data_of, all_limits, checked_limits, tenants_in};

use crate::document::{address, at, limit, number, other_key, size, tenant};
use crate::endpoint::Endpoint;
use crate::names::limited_names;
use crate::settings::User;
use crate::tenant_limits::{DataLimits, GroupLimits, TenantLimits};
use std::alloc::{AllocError, Global};
use toml::{Table, Value};

/// The keys of an entry of `tenant`.
const KEYS: [&str; 11] = [
    "name",
    "connections",
    "reserved_connections",
    "groups",
    "group_bytes",
    "topics",
    "partitions",
    "offsets",
    "bytes",
    "fetch_bytes",
    "advertise",
];

/// The limits that are of the tenant of this name, where there are some.
pub fn limits_of<'a>(tenants: &'a [TenantLimits], name: &str) -> Option<&'a TenantLimits>
    ensures { option_map (λ t. limits_in t.now) result ≡ find (λ t. bytes_eq t.name name.now) (map limits_in tenants.now) }
{
    tenants.iter().find(|limits| limits.name.as_str() == name)
}

/// The limits of tenants that a document names, unless something is wrong with them: none where it names none.
pub fn tenants(
    alloc: Global,
    document: &Table,
    connections: u32,
    users: &[User],
) -> Result<Option<Vec<TenantLimits>>, AllocError>
    requires some { 1 ≤ connections }
    requires few { connections ≤ 1000000 }
    ensures says { IfOk result (λ tenants. option_map (λ ts. map limits_in ts.items) tenants
        ≡ said_or [] (tenants_in connections (map account_of users.now)) (get_member (codes "tenant") (table_view document.now))) }
    ensures fit { IfOk result (λ tenants. IfSome tenants (λ ts.
        IsTrue (are_limits connections (map (λ u. string_bytes u.tenant) users.now) (map limits_in ts.items)))) }
{
    match at(document, "tenant") {
        None => Ok(Some(Vec::new(alloc))),
        Some(value) => tenants_in(alloc, value, connections, users),
    }
}

/// The limits of tenants that a value names, unless something is wrong with them.
fn tenants_in(
    alloc: Global,
    value: &Value,
    connections: u32,
    users: &[User],
) -> Result<Option<Vec<TenantLimits>>, AllocError>
    requires some { 1 ≤ connections }
    requires few { connections ≤ 1000000 }
    ensures says { IfOk result (λ tenants. option_map (λ ts. map limits_in ts.items) tenants
        ≡ tenants_in connections (map account_of users.now) (view value.now)) }
    ensures fit { IfOk result (λ tenants. IfSome tenants (λ ts.
        IsTrue (are_limits connections (map (λ u. string_bytes u.tenant) users.now) (map limits_in ts.items)))) }
{
    let Value::Array(entries) = value else {
        return Ok(None);
    };
    let Some(tenants) = all_limits(alloc, entries, connections)? else {
        return Ok(None);
    };
    if are_limits(alloc, connections, users, &tenants)? {
        Ok(Some(tenants))
    } else {
        Ok(None)
    }
}

/// The limits of all entries, unless one is wrong.
fn all_limits(
    alloc: Global,
    entries: &[Value],
    connections: u32,
) -> Result<Option<Vec<TenantLimits>>, AllocError>
    requires some { 1 ≤ connections }
    requires few { connections ≤ 1000000 }
    ensures { IfOk result (λ tenants. option_map (λ ts. map limits_in ts.items) tenants ≡ all_limits connections (items_view entries.now)) }
{
    let mut tenants = Vec::new(alloc);
    'entries: for entry in entries {
        let Some(limits) = limits_in(alloc, entry, connections)? else {
            return Ok(None);
        };
        tenants.push(limits)?;
    }
    Ok(Some(tenants))
}

/// The limits of an entry, unless something is wrong with it.
fn limits_in(
    alloc: Global,
    entry: &Value,
    connections: u32,
) -> Result<Option<TenantLimits>, AllocError>
    requires some { 1 ≤ connections }
    requires few { connections ≤ 1000000 }
    ensures { IfOk result (λ limits. option_map limits_in limits ≡ entry_limits connections (view entry.now)) }
{
    let Value::Table(entry) = entry else {
        return Ok(None);
    };
    let Some(name) = tenant(entry, "name") else {
        return Ok(None);
    };
    let Some(most) = number(entry, "connections", connections, 1, 1_000_000) else {
        return Ok(None);
    };
    let Some(reserved) = number(entry, "reserved_connections", 0, 0, most) else {
        return Ok(None);
    };
    let Some(groups) = groups_of(entry) else {
        return Ok(None);
    };
    let Some(data_limits) = data_of(entry) else {
        return Ok(None);
    };
    let Some(advertise) = address(entry, "advertise") else {
        return Ok(None);
    };
    if other_key(entry, &KEYS).is_some() {
        return Ok(None);
    }
    Ok(Some(TenantLimits {
        name: String::from_str(alloc, name)?,
        connections: most,
        reserved_connections: reserved,
        groups,
        data_limits,
        advertise: Endpoint::copied(alloc, advertise)?,
    }))
}

/// What the groups of an entry's tenant may take, unless a number is wrong.
fn groups_of(entry: &Table) -> Option<GroupLimits>
    ensures says { result ≡ groups_of (table_view entry.now) }
    ensures groups { IfSome result (λ limits. limits.groups ≤ 1000) }
    ensures bytes { IfSome result (λ limits. (1048576 ≤ limits.bytes) × (limits.bytes ≤ 9223372036854775807)) }
{
    let groups = number(entry, "groups", 1000, 0, 1000)?;
    let bytes = size(
        entry,
        "group_bytes",
        67_108_864,
        1_048_576,
        9_223_372_036_854_775_807,
    )?;
    Some(GroupLimits { groups, bytes })
}

/// What an entry's tenant may have, unless a number is wrong.
fn data_of(entry: &Table) -> Option<DataLimits>
    ensures says { result ≡ data_of (table_view entry.now) }
    ensures topics { IfSome result (λ limits. IfSome limits.topics (λ n. n ≤ 1000)) }
    ensures partitions { IfSome result (λ limits. IfSome limits.partitions (λ n. n ≤ 64000)) }
    ensures offsets { IfSome result (λ limits. limits.offsets ≤ 1000000) }
    ensures bytes { IfSome result (λ limits. IfSome limits.bytes (λ n. (1048576 ≤ n) × (n ≤ 9223372036854775807))) }
    ensures fetch_bytes { IfSome result (λ limits. IfSome limits.fetch_bytes (λ n. (65536 ≤ n) × (n ≤ 8388608))) }
{
    Some(DataLimits {
        topics: limit(entry, "topics", 0, 1000)?,
        partitions: limit(entry, "partitions", 0, 64_000)?,
        offsets: size(entry, "offsets", 1_000_000, 0, 1_000_000)?,
        bytes: limit(entry, "bytes", 1_048_576, 9_223_372_036_854_775_807)?,
        fetch_bytes: limit(entry, "fetch_bytes", 65_536, 8_388_608)?,
    })
}

/// Whether these are limits of at most 256 tenants, each once, that users name, within so many connections, with fewer of them
/// reserved.
fn are_limits(
    alloc: Global,
    connections: u32,
    users: &[User],
    tenants: &[TenantLimits],
) -> Result<bool, AllocError>
    ensures { IfOk result (λ are. are ≡ are_limits connections (map (λ u. string_bytes u.tenant) users.now) (map limits_in tenants.now)) }
{
    if tenants.len() > 256 {
        return Ok(false);
    }
    if limited_names(alloc, tenants)?.len() != tenants.len() {
        return Ok(false);
    }
    Ok(are_allowed(connections, users, tenants) && leaves_one(connections, tenants))
}

/// Whether each is allowed.
fn are_allowed(connections: u32, users: &[User], tenants: &[TenantLimits]) -> bool
    ensures { result ≡ list_all (λ t. is_allowed connections (map (λ u. string_bytes u.tenant) users.now) (limits_in t)) tenants.now }
{
    tenants
        .iter()
        .all(|limits| is_allowed(connections, users, limits))
}

/// Whether these are limits of a tenant that a user names, to no more than all connections.
#[tactic(auto, using(crate::proofs::AllowedConnections::any_tenant))]
fn is_allowed(connections: u32, users: &[User], limits: &TenantLimits) -> bool
    ensures { result ≡ is_allowed connections (map (λ u. string_bytes u.tenant) users.now) (limits_in limits.now) }
{
    limits.connections <= connections && is_named(users, &limits.name)
}

/// Whether a user is of the tenant of this name.
fn is_named(users: &[User], name: &str) -> bool
    ensures { result ≡ list_any (λ u. bytes_eq name.now (string_bytes u.tenant)) users.now }
{
    users.iter().any(|user| name == user.tenant.as_str())
}

/// Whether fewer connections are reserved than there are.
fn leaves_one(connections: u32, tenants: &[TenantLimits]) -> bool
    ensures { result ≡ nat_lt (sum_by (λ t. t.reserved_connections) tenants.now) connections }
{
    let mut free = connections;
    'tenants: for limits in tenants {
        let Some(rest) = free.checked_sub(limits.reserved_connections) else {
            return false;
        };
        free = rest;
    }
    free > 0
}
