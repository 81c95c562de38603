//! How far settings let the groups of tenants grow.

ghost use Rattle.std.specs.Prelude.{◌≡◌, ◌<◌, ◌^◌, IfOk, map};
ghost use Rattle.std.specs.List.{All};
ghost use Rattle.kb_settings.specs.Values.{values_of};
ghost use Rattle.kb_broker.specs.Limited.{limits_named};
ghost use Rattle.kb_broker.specs.Opening.{tenants_of};

use kb_coordinator::Limits;
use kb_settings::{Settings, tenant_names};
use std::alloc::{AllocError, Global};

/// How far the settings let the groups of each tenant grow, by the tenant's place in the order of names.
pub fn group_limits(alloc: Global, settings: &Settings) -> Result<Vec<Limits>, AllocError>
    ensures says { IfOk result (λ limits.
        limits.items ≡ map (limits_named (values_of settings.now)) (tenants_of settings.now.users.items)) }
    ensures within { IfOk result (λ limits. All (λ l. l.bytes < 2 ^ 63) limits.items) }
{
    let names = tenant_names(alloc, &settings.users)?;
    let mut limits = Vec::with_capacity(alloc, names.len())?;
    for name in &names {
        limits.push(limits_named(settings, name))?;
    }
    Ok(limits)
}

/// How far they let those of the tenant of this name grow.
fn limits_named(settings: &Settings, name: &str) -> Limits
    ensures says { result ≡ limits_named (values_of settings.now) name.now }
    ensures within { result.bytes < 2 ^ 63 }
{
    let groups = settings.groups_of(name);
    Limits {
        groups: u64::from(groups.groups),
        bytes: groups.bytes,
    }
}
