//! What the holders of sockets may have of replies that are not written, and of requests that are begun.

ghost use Rattle.std.specs.Prelude.{◌≡◌, [], IfOk};
ghost use Rattle.kb_node.specs.Replies.{pool_of, share_of, tenant_count};

use kb_settings::{Settings, tenant_names};
use kb_shares::{BudgetFault, Ledger, Share};
use std::alloc::{AllocError, Global};

/// What a holder has of so many bytes, for so many tenants.
///
/// Tenants are holders by their places, and those that have not logged in are one holder behind them. A half of all bytes belongs to the
/// holders in equal parts, and the other half to whoever comes first. No holder has more than a quarter of the whole above its part.
fn share_of(total: u64, tenants: u32) -> Share
    ensures { result ≡ share_of total tenants }
{
    if tenants == 0 {
        return Share {
            own: total,
            most: total,
        };
    }
    let own = total / 2 / (u64::from(tenants) + 1);
    Share {
        own,
        most: own + total / 4,
    }
}

/// So many bytes in the shares of so many tenants, and of those that have not logged in. Nothing is counted yet.
pub fn shares_of(alloc: Global, total: u64, tenants: u32) -> Result<Ledger, BudgetFault>
    ensures pool { IfOk result (λ it. it.pool ≡ pool_of total tenants) }
    ensures none { IfOk result (λ it. it.bookings ≡ []) }
{
    let share = share_of(total, tenants);
    let shares = vec![in alloc; share; tenants as usize + 1]?;
    Ledger::new(alloc, total, &shares)
}

/// The shares of replies that are not written, for the tenants of the settings.
pub fn reply_shares(alloc: Global, settings: &Settings) -> Result<Ledger, BudgetFault>
    ensures pool { IfOk result (λ it. it.pool ≡ pool_of settings.now.output_bytes (tenant_count settings.now)) }
    ensures none { IfOk result (λ it. it.bookings ≡ []) }
{
    let tenants = tenants_of(alloc, settings)?;
    shares_of(alloc, u64::from(settings.output_bytes), tenants)
}

/// The shares of requests that are begun, for the tenants of the settings.
pub fn input_shares(alloc: Global, settings: &Settings) -> Result<Ledger, BudgetFault>
    ensures pool { IfOk result (λ it. it.pool ≡ pool_of settings.now.requests.input_bytes (tenant_count settings.now)) }
    ensures none { IfOk result (λ it. it.bookings ≡ []) }
{
    let tenants = tenants_of(alloc, settings)?;
    shares_of(alloc, u64::from(settings.requests.input_bytes), tenants)
}

/// How many tenants the settings have.
fn tenants_of(alloc: Global, settings: &Settings) -> Result<u32, AllocError>
    ensures { IfOk result (λ count. count ≡ tenant_count settings.now) }
{
    let names = tenant_names(alloc, &settings.users)?;
    Ok(u32::try_from(names.len()).unwrap_or(u32::MAX))
}
