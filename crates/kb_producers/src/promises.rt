//! Laws about producer ids, each as the contract of a function with an empty body.
ghost use Rattle.std.specs.Prelude.{◌≡◌, ◌≤◌, ◌<ℤ◌, ℕ, ℤ, pos, List, Contains};
ghost use Rattle.kb_producers.specs.Batches.{kept_all};
ghost use Rattle.kb_producers.specs.Ids.{ids_kept, ids_of, least_above};

/// What [`ProducerTable::next_id`](crate::ProducerTable::next_id) tells of a partition's batches: the least number from 0 on above each
/// producer id that one of them has.
pub fn next_id_is_least()
    ensures above { (ids : List ℤ) (id : ℤ) → Contains ids id → id <ℤ pos (least_above ids) }
    ensures least { (ids : List ℤ) (n : ℕ) → ((id : ℤ) → Contains ids id → id <ℤ pos n) → least_above ids ≤ n }
    // The batches of which nothing is kept have no id.
    ensures kept { (batches : List (List ℕ)) → least_above (ids_kept (kept_all batches)) ≡ least_above (ids_of batches) }
{}
