//! Names in byte order.

ghost use Rattle.std.specs.Prelude.{◌≡◌, IfOk, map, string_bytes};
ghost use Rattle.kb_settings.specs.Names.{in_order};

use crate::settings::User;
use crate::tenant_limits::TenantLimits;
use std::alloc::{AllocError, Global};

/// The names of the users, in byte order, each once.
pub fn user_names<'a>(alloc: Global, users: &'a [User]) -> Result<Vec<&'a str>, AllocError>
    ensures { IfOk result (λ names. map (λ name. name.now) names.items ≡ in_order (map (λ u. string_bytes u.name) users.now)) }
{
    let mut names = Vec::with_capacity(alloc, users.len())?;
    for user in users {
        names.push(user.name.as_str())?;
    }
    Ok(in_order(names))
}

/// The names of the users' tenants, in byte order, each once.
pub fn tenant_names<'a>(alloc: Global, users: &'a [User]) -> Result<Vec<&'a str>, AllocError>
    ensures { IfOk result (λ names. map (λ name. name.now) names.items ≡ in_order (map (λ u. string_bytes u.tenant) users.now)) }
{
    let mut names = Vec::with_capacity(alloc, users.len())?;
    for user in users {
        names.push(user.tenant.as_str())?;
    }
    Ok(in_order(names))
}

/// The names that limits are of, in byte order, each once.
pub fn limited_names<'a>(
    alloc: Global,
    tenants: &'a [TenantLimits],
) -> Result<Vec<&'a str>, AllocError>
    ensures { IfOk result (λ names. map (λ name. name.now) names.items ≡ in_order (map (λ t. string_bytes t.name) tenants.now)) }
{
    let mut names = Vec::with_capacity(alloc, tenants.len())?;
    for limits in tenants {
        names.push(limits.name.as_str())?;
    }
    Ok(in_order(names))
}

/// Names in byte order, each once.
fn in_order<'a>(mut names: Vec<&'a str>) -> Vec<&'a str>
    ensures { map (λ name. name.now) result.items ≡ in_order (map (λ name. name.now) names.entry.items) }
{
    names.sort_unstable();
    names.dedup();
    names
}
