//! Whether a fetch surely waits, by what its partitions have at most. For that nothing is written, and no store is asked.
ghost use Rattle.std.specs.Prelude.{◌≡◌, true, None, IfSome};
ghost use Rattle.kb_store.specs.Disk.{Files};
ghost use Rattle.kb_tenant.specs.Counted.{fetch_answered, Misses};
ghost use Rattle.kb_tenant.specs.Fetch.{fetch_answer};
ghost use Rattle.kb_tenant.specs.Turns.{in_turn};
ghost use Rattle.kb_tenant.specs.declared.fetch.given.Given.{Given};
ghost use Rattle.kb_tenant_state.specs.Parts.{world_of, Agrees};

use crate::fetch::asked::AskedFetch;
use crate::fetch::given::not_negative;
use crate::fetch::partition::place_of;
use kb_api_data::FetchPartition;
use kb_batch::MAX_BATCH_BYTES;
use kb_log::PartitionLog;
use kb_tenant_state::Parts;

/// How many bytes a fetch surely misses behind one more entry, of as many as it missed before. None where it may miss none, or the
/// entry may be refused.
fn missing_behind<L: PartitionLog + Drop>(
    parts: &Parts<L>,
    topic: Option<u64>,
    entry: &FetchPartition,
    missing: u64,
) -> Option<u64>
    ensures { (files : Files) → Agrees L.log parts.now files → IfSome result (λ left. (g : Given) → Misses missing g
        → Misses left (fetch_answered (world_of L.log parts.now files) topic g entry.now).0) }
{
    let place = place_of(topic, entry)?;
    // a batch over the limit is given alone
    let allowed = not_negative(entry.partition_max_bytes).max(MAX_BATCH_BYTES as u64);
    let most = parts.available(place, entry.fetch_offset)?.min(allowed);
    if most < missing {
        return Some(missing - most);
    }
    None
}

/// The same behind a topic's entries.
fn missing_behind_all<L: PartitionLog + Drop>(
    parts: &Parts<L>,
    topic: Option<u64>,
    entries: &[FetchPartition],
    missing: u64,
) -> Option<u64>
    ensures { (files : Files) → Agrees L.log parts.now files → IfSome result (λ left. (g : Given) → Misses missing g
        → Misses left (in_turn (fetch_answered (world_of L.log parts.now files) topic) g entries.now).0) }
{
    let mut left = missing;
    for entry in entries {
        left = missing_behind(parts, topic, entry, left)?;
    }
    Some(left)
}

/// Whether a fetch surely has no answer before its deadline, as its partitions are now. Where that is not sure it may wait, too.
pub(crate) fn surely_waits<L: PartitionLog + Drop>(
    parts: &Parts<L>,
    clock: u64,
    request: &AskedFetch,
    deadline: u64,
) -> bool
    ensures { (files : Files) → Agrees L.log parts.now files → result ≡ true
        → fetch_answer (world_of L.log parts.now files) clock request.now deadline ≡ None }
{
    let mut missing = not_negative(request.min_bytes());
    if missing == 0 || deadline <= clock {
        return false;
    }
    let mut is_asked = false;
    for topic in request.topics() {
        let instance = parts.topic_named(topic.name());
        let entries = topic.partitions();
        let Some(left) = missing_behind_all(parts, instance, entries, missing) else {
            return false;
        };
        missing = left;
        is_asked |= !entries.is_empty();
    }
    is_asked
}
