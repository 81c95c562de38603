//! When there is something to do next.

ghost use Rattle.std.specs.Prelude.{◌≡◌};
ghost use Rattle.kb_broker.specs.Deadline.{moment_after, IsNextDeadline};
ghost use Rattle.kb_broker.specs.Hosts.{AreHosted};

use crate::parking::Parking;
use kb_log::PartitionLog;
use kb_store::Store;
use kb_tenants::Tenants;

/// The moment after a clock, both in milliseconds; 0 after a clock before 1970.
fn after(clock: i64) -> u64
    ensures { result ≡ moment_after clock }
{
    if clock < 0 { 0 } else { clock as u64 + 1 }
}

/// The first moment, in milliseconds, at which the deadline of a connection that waits comes, or a tenant may have something due. It goes
/// over no connection and no tenant.
pub fn next_deadline<L: PartitionLog + Drop, S: Store>(
    parking: &Parking,
    tenants: &Tenants<L, S>,
) -> u64
    requires { AreHosted L.log S.disk tenants.now }
    ensures { IsNextDeadline parking.now tenants.now.next_retention_time result }
{
    let due = after(tenants.quiet_until());
    match parking.first_deadline() {
        Some(deadline) => deadline.min(due),
        None => due,
    }
}
