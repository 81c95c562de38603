//! What settings let all tenants take together.

ghost use Rattle.std.specs.Prelude.{◌≡◌, IfOk, map, option_map};
ghost use Rattle.kb_settings.specs.Values.{values_of};
ghost use Rattle.kb_operator.specs.Sums.{told, stored_by, fetched_by, stored_at_most, fetched_at_most, held_at_most};

use kb_settings::{Settings, tenant_names};
use std::alloc::{AllocError, Global};

/// How many bytes of records a reply of Fetch has at most, where a tenant has no limit of its own.
const FETCH_BYTES: u64 = 8_388_608;

/// How many bytes of a request that may not begin yet are kept of a connection.
const NEXT_BYTES: u64 = 65_536;

/// How many bytes of batches all tenants may store together. None is no limit, where one of them has none.
pub(crate) fn stored_at_most(alloc: Global, settings: &Settings) -> Result<Option<u64>, AllocError>
    ensures { IfOk result (λ most. most ≡ option_map told (stored_at_most (values_of settings.now))) }
{
    let names = tenant_names(alloc, &settings.users)?;
    Ok(stored_by(settings, &names))
}

/// How many bytes of batches these tenants may store together.
fn stored_by(settings: &Settings, names: &[&str]) -> Option<u64>
    ensures { result ≡ option_map told (stored_by (values_of settings.now) (map (λ name. name.now) names.now)) }
{
    let mut stored = 0_u64;
    for name in names {
        stored = stored.saturating_add(settings.data_of(name).bytes?);
    }
    Some(stored)
}

/// How many bytes of records the replies of Fetch may have that all connections ask for at a time.
pub(crate) fn fetched_at_most(alloc: Global, settings: &Settings) -> Result<u64, AllocError>
    ensures { IfOk result (λ most. most ≡ told (fetched_at_most (values_of settings.now))) }
{
    let names = tenant_names(alloc, &settings.users)?;
    let most = fetched_by(settings, &names);
    Ok((settings.connections as u64).saturating_mul(most))
}

/// The most bytes of records that a reply of Fetch to one of these tenants has.
fn fetched_by(settings: &Settings, names: &[&str]) -> u64
    ensures { result ≡ fetched_by (values_of settings.now) (map (λ name. name.now) names.now) }
{
    let mut most = 0_u64;
    for name in names {
        most = most.max(settings.data_of(name).fetch_bytes.unwrap_or(FETCH_BYTES));
    }
    most
}

/// How many bytes of requests and replies all sockets may hold together.
pub(crate) fn held_at_most(settings: &Settings) -> u64
    ensures { result ≡ told (held_at_most (values_of settings.now)) }
{
    let requests = &settings.requests;
    let each = u64::from(requests.request_bytes) + NEXT_BYTES;
    u64::from(settings.connections)
        .saturating_mul(each)
        .saturating_add(u64::from(settings.output_bytes))
        .saturating_add(u64::from(requests.input_bytes))
}
