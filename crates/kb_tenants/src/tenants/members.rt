//! From which number on the members of tenants' groups are numbered.
ghost use Rattle.std.specs.Prelude.{◌≡◌, ◌<◌, ◌≤◌, ◌^◌, map};
ghost use Rattle.std.specs.List.{All};
ghost use Rattle.kb_tenants.specs.Counts.{all_counts};
ghost use Rattle.kb_tenants.specs.Members.{HasNoGroup, HaveNoGroup, numbered_from, renumbered};
ghost use Rattle.kb_tenants.specs.Tenants.{AreKept, all_commands, hosted, parts_of};

use super::{Tenant, Tenants};
use kb_log::PartitionLog;
use kb_store::Store;

/// The first new member of each of those tenants is to get that number.
fn number_each<L: PartitionLog>(tenants: &mut [Tenant<L>], first: u64)
    requires some { 1 ≤ first }
    requires within { first < 2 ^ 63 }
    requires early { All HasNoGroup tenants.old }
    ensures { tenants.new ≡ map (renumbered first) tenants.old }
{
    for i in 0..tenants.len() {
        tenants[i].groups.number_members_from(first);
    }
}

impl<L: PartitionLog + Drop, S: Store> Tenants<L, S> {
    /// The first new member of each tenant is to get this number, and each later one of the tenant the next. It takes no memory.
    pub fn number_members_from(&mut self, first: u64)
        requires some { 1 ≤ first }
        requires within { first < 2 ^ 63 }
        requires early { HaveNoGroup (hosted L.log S.disk self.old) }
        requires invariant { AreKept L.log S.disk self.old }
        ensures invariant { AreKept L.log S.disk self.new }
        ensures hosted { hosted L.log S.disk self.new ≡ numbered_from first (hosted L.log S.disk self.old) }
        ensures parts { parts_of self.new.tenants.items ≡ parts_of self.old.tenants.items }
        ensures strays { self.new.strays ≡ self.old.strays }
        ensures counts { all_counts self.new ≡ all_counts self.old }
        ensures commands { all_commands L.log self.new ≡ all_commands L.log self.old }
        ensures shelf { self.new.shelf ≡ self.old.shelf }
    {
        number_each(&mut self.tenants, first);
    }
}
