//! Laws about what tenants keep, each as the contract of a function with an empty body.
ghost use Rattle.std.specs.Prelude.{ℕ};
ghost use Rattle.kb_tenant.specs.Batches.{HasSmallLogs};
ghost use Rattle.kb_tenant.specs.LimitsKept.{HasOrderedCommits};
ghost use Rattle.kb_tenant_api.specs.Hosted.{kept_of};
ghost use Rattle.kb_tenants.specs.Tenants.{AreKept, hosted, shelf_is_honest};

use crate::tenants::Tenants;
use kb_log::PartitionLog;
use kb_store::Store;

/// On an honest store the bounds and the batches of each tenant's logs are within their limits, whoever wrote the files of those logs:
/// none but accepted batches are read of them.
pub fn kept_logs_are_small<L: PartitionLog, S: Store>(tenants: &Tenants<L, S>)
    requires { AreKept L.log S.disk tenants.now }
    ensures { shelf_is_honest S.disk tenants.now → (t : ℕ)
        → HasSmallLogs (kept_of (hosted L.log S.disk tenants.now) t).world }
{}

/// On an honest store no group has two offsets of one partition of a tenant, whoever wrote the files: a meta log comes to no other
/// catalog.
pub fn kept_commits_are_ordered<L: PartitionLog, S: Store>(tenants: &Tenants<L, S>)
    requires { AreKept L.log S.disk tenants.now }
    ensures { shelf_is_honest S.disk tenants.now → (t : ℕ)
        → HasOrderedCommits (kept_of (hosted L.log S.disk tenants.now) t).world }
{}
