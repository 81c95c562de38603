//! Producer ids that batches have, and the catalog has lost.
//!
//! An id is recorded before it is answered, and batches with it come later. But a loss of power may leave a batch and not the record, and
//! an older catalog may be put beside newer files. Then the id would be given out again, and the first batches of its new producer would
//! be taken for repeats of the former one's. So each such id is given out to nobody.
ghost use Rattle.std.specs.Prelude.{◌≡◌, ◌<◌, ◌+◌, ◌-◌, ◌^◌, ℕ, Ok, max};
ghost use Rattle.kb_store.specs.Disk.{Files, Table};
ghost use Rattle.kb_topics.specs.Catalog.{known};
ghost use Rattle.kb_tenant_state.specs.Ids.{next_id_among, next_id_among_all, next_unused, skipped, Skips};
ghost use Rattle.kb_tenant_state.specs.Parts.{scene, world_of, Agrees, IsSound};
ghost use Rattle.kb_tenant_state.specs.Steps.{IsStep, Meets};

use crate::partition::Partition;
use crate::partitions::Partitions;
use crate::parts::Parts;
use kb_log::{PartitionLog, Shelf};
use kb_store::Store;
use kb_topics::CatalogFault;

/// So many producer ids are given out at most.
const GREATEST_COUNT: u64 = 9_223_372_036_854_775_807;

/// The least number from 0 on that is above the producer id of each batch in the logs of some partitions.
fn next_id_among<L: PartitionLog>(partitions: &[Partition<L>]) -> u64
    ensures { result ≡ next_id_among partitions.now }
{
    let mut next: u64 = 0;
    for partition in partitions {
        next = next.max(partition.next_id());
    }
    next
}

impl<L: PartitionLog> Partitions<L> {
    /// The least number from 0 on that is above the producer id of each batch in all logs. It goes over what is kept of each.
    pub(crate) fn next_id(&self) -> u64
        ensures { result ≡ next_id_among_all self.now.topics.entries }
    {
        let mut next: u64 = 0;
        for (_, partitions) in self.topics.iter() {
            next = next.max(next_id_among(partitions.as_slice()));
        }
        next
    }
}

impl<L: PartitionLog> Parts<L> {
    /// How many producer ids have to be given out, so that the next one is above each of a batch in the logs. It goes over what is kept of
    /// each batch.
    pub fn lost_ids(&self) -> u64
        ensures lost { (table : Table) (next : ℕ) (files : Files) → IsSound L.log self.now table next → Agrees L.log self.now files
            → result ≡ next_unused (world_of L.log self.now files) - (known self.now.catalog).issues }
        // So many are left.
        ensures left { (n : ℕ) → n < result → (known self.now.catalog).issues + n < 2 ^ 63 - 1 }
    {
        let next = self.partitions.next_id().min(GREATEST_COUNT);
        next.saturating_sub(self.catalog.next_producer_id())
    }
}

impl<L: PartitionLog + Drop> Parts<L> {
    /// Gives out, to nobody, each producer id that a batch in the logs has and the catalog has lost, and those below it. Then the next id
    /// is above each one of a batch.
    ///
    /// Each is recorded as ever. It ends at the first refusal, which is counted once: the ids before it stay given out.
    pub fn skip_ids<S: Store>(&mut self, shelf: &mut Shelf<S>) -> Result<(), CatalogFault>
        requires { (scene L.log S.disk self.old shelf.old).sound }
        ensures step { IsStep (scene L.log S.disk self.old shelf.old) (scene L.log S.disk self.new shelf.new) }
        ensures fixed { self.new ≡ record self.old {
          catalog = self.new.catalog;
          partitions = self.new.partitions;
          refusals = self.new.refusals;
        } }
        ensures meets { let a = scene L.log S.disk self.old shelf.old in let b = scene L.log S.disk self.new shelf.new in
            Meets a b ((b.state.world ≡ skipped a.state.world) × (result ≡ Ok tt)) }
        ensures told { Skips (scene L.log S.disk self.old shelf.old) (scene L.log S.disk self.new shelf.new) result }
    {
        let lost = self.lost_ids();
        for _ in 0..lost {
            self.give_out(shelf)?;
        }
        Ok(())
    }
}
