//! How far the groups of a tenant may grow.
ghost use Rattle.std.specs.Prelude.{◌≡◌, ◌<◌, ◌^◌};
ghost use Rattle.kb_tenants.specs.Counts.{all_counts};
ghost use Rattle.kb_tenants.specs.Limited.{limited_at};
ghost use Rattle.kb_tenants.specs.Members.{HaveNoGroup};
ghost use Rattle.kb_tenants.specs.Tenants.{AreKept, all_commands, hosted};

use super::Tenants;
use super::moment::next_retention_time;
use kb_coordinator::Limits;
use kb_log::PartitionLog;
use kb_store::Store;

impl<L: PartitionLog + Drop, S: Store> Tenants<L, S> {
    /// The groups of the tenant at a place have these limits from now on, where there is one. It takes no memory.
    pub fn limit_groups(&mut self, tenant: usize, limits: Limits)
        requires within { limits.bytes < 2 ^ 63 }
        requires early { HaveNoGroup (hosted L.log S.disk self.old) }
        requires invariant { AreKept L.log S.disk self.old }
        ensures invariant { AreKept L.log S.disk self.new }
        ensures state { hosted L.log S.disk self.new ≡ limited_at tenant limits (hosted L.log S.disk self.old) }
        ensures strays { self.new.strays ≡ self.old.strays }
        ensures counts { all_counts self.new ≡ all_counts self.old }
        ensures commands { all_commands L.log self.new ≡ all_commands L.log self.old }
        ensures shelf { self.new.shelf ≡ self.old.shelf }
    {
        if tenant >= self.tenants.len() {
            return;
        }
        let one = &mut self.tenants[tenant];
        one.groups.limit(limits);
        self.next_retention_time = self.next_retention_time.min(next_retention_time(one));
    }
}
