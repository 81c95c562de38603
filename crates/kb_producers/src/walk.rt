//! From link to link.
ghost use Rattle.std.specs.Prelude.{◌≡◌, map};
ghost use Rattle.kb_producers.specs.Recent.{recent_of};
ghost use Rattle.kb_producers.specs.Table.{kept_from, newest_place, AreLinked};
ghost use Rattle.kb_producers.specs.Verdict.{newest_of};

use crate::kept::Kept;
use crate::link::Link;
use crate::recent::Recent;
use std::collections::VecDeque;

/// The last batches of the producer of a batch, of which the newest is at that place: five at most, from link to link.
pub fn last_batches(links: &VecDeque<Link>, batch: Kept, newest: u32) -> Recent
    requires linked { AreLinked links.now.items }
    requires newest { newest ≡ newest_place batch.producer_id (map kept_from links.now.items) }
    ensures { recent_of result ≡ newest_of batch.producer_id (map kept_from links.now.items) }
{
    let mut recent = Recent::none(batch);
    let mut place = newest;
    for _turn in 0..5usize {
        if place == 0 {
            return recent;
        }
        let link = links[place as usize - 1];
        recent = recent.with_older(link.kept());
        place = place.saturating_sub(link.before);
    }
    recent
}
