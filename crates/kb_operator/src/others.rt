//! The tenants that no limits of the settings name.

ghost use Rattle.std.specs.Prelude.{◌≡◌, ℕ, List, IfOk, length, map, false};
ghost use Rattle.kb_settings.specs.Limits.{standard_data, standard_groups};
ghost use Rattle.kb_settings.specs.Values.{data_of, groups_of, limits_of, values_of};
ghost use Rattle.kb_operator.specs.Others.{has_limits, others, without_limits};
ghost use Rattle.kb_operator.specs.Sums.{tenants_of, told};

use kb_settings::{ConnectionLimits, DataLimits, GroupLimits, Settings, tenant_names};
use std::alloc::{AllocError, Global};

/// What a tenant may have.
#[derive(Clone, Copy)]
pub(crate) struct Numbers {
    pub connections: ConnectionLimits,
    pub groups: GroupLimits,
    pub data: DataLimits,
}

/// How many tenants no limits name.
pub(crate) fn others(alloc: Global, settings: &Settings) -> Result<u64, AllocError>
    ensures { IfOk result (λ count. count ≡ told (others (values_of settings.now))) }
{
    let names = tenant_names(alloc, &settings.users)?;
    Ok(without_limits(settings, &names))
}

/// How many tenants the users are of.
pub(crate) fn tenant_count(alloc: Global, settings: &Settings) -> Result<usize, AllocError>
    ensures { IfOk result (λ count. count ≡ length (tenants_of (values_of settings.now))) }
{
    let names = tenant_names(alloc, &settings.users)?;
    Ok(names.len())
}

/// How many of these tenants no limits name.
fn without_limits(settings: &Settings, names: &[&str]) -> u64
    ensures { result ≡ told (without_limits (values_of settings.now) (map (λ name. name.now) names.now)) }
{
    let mut count = 0_u64;
    for name in names {
        if !has_limits(settings, name) {
            count = count.saturating_add(1);
        }
    }
    count
}

/// Whether limits name the tenant of this name.
fn has_limits(settings: &Settings, name: &str) -> bool
    ensures { result ≡ has_limits name.now (values_of settings.now) }
{
    settings
        .tenants
        .iter()
        .any(|limits| limits.name.as_str() == name)
}

/// What each tenant may have that no limits name.
#[tactic(auto, using(crate::proofs::Unlimited::none_found))]
pub(crate) fn numbers_of_others(settings: &Settings) -> Numbers
    ensures limits { let v = values_of settings.now in (name : List ℕ) → has_limits name v ≡ false
        → (result.connections ≡ limits_of name v) × (result.groups ≡ groups_of name v) × (result.data ≡ data_of name v) }
    ensures standard { (result.connections ≡ record { most = settings.now.connections; reserved = 0 })
        × (result.groups ≡ standard_groups) × (result.data ≡ standard_data) }
{
    Numbers {
        connections: ConnectionLimits {
            most: settings.connections,
            reserved: 0,
        },
        groups: GroupLimits::standard(),
        data: DataLimits::standard(),
    }
}
