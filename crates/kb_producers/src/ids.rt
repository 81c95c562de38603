//! Which producer ids batches have.
ghost use Rattle.std.specs.Prelude.{◌≡◌, fold, map, max};
ghost use Rattle.kb_producers.specs.Ids as spec;
ghost use Rattle.kb_producers.specs.Ids.{ids_kept};
ghost use Rattle.kb_producers.specs.Table.{kept_from};

use crate::link::Link;

/// The number behind a producer id, which is 0 where the id is below 0.
fn behind(id: i64) -> u64
    ensures { result ≡ spec.behind id }
{
    if id < 0 { 0 } else { id as u64 + 1 }
}

/// The least number, from that one on, which is above the producer id of each of some batches.
pub(crate) fn next_among(batches: &[Link], from: u64) -> u64
    ensures { result ≡ fold max from (map spec.behind (ids_kept (map kept_from batches.now))) }
{
    let mut next = from;
    for batch in batches {
        next = next.max(behind(batch.producer_id));
    }
    next
}
