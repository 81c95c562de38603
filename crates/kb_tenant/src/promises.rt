//! Laws about the definitions, each as the contract of a function with an empty body.
ghost use Rattle.std.specs.Prelude.{◌≡◌, ◌<◌, ℕ, ℤ, List, Option, Ok, None};
ghost use Rattle.std.specs.List.{Contains};
ghost use Rattle.kb_wire.specs.declared.api_key.TheConstants.{FETCH};
ghost use Rattle.kb_api_data.specs.declared.fetch.FetchRequest.{FetchRequest};
ghost use Rattle.kb_api_group.specs.declared.offset_commit.OffsetCommitRequest.{OffsetCommitRequest};
ghost use Rattle.kb_tenant_state.specs.Tied.{IsTied};
ghost use Rattle.kb_tenant_state.specs.World.{World, new_world};
ghost use Rattle.kb_tenant_state.specs.Calls.{retain, retain_all};
ghost use Rattle.kb_tenant_state.specs.declared.topic_partition.TopicPartition.{TopicPartition};
ghost use Rattle.kb_tenant.specs.Batches.{HasSmallLogs, HoldsBatches};
ghost use Rattle.kb_tenant.specs.Fetch.{asked_fetch, fetch_answer, places_of};
ghost use Rattle.kb_tenant.specs.LimitsKept.{AreLimitsKept, HasOrderedCommits};
ghost use Rattle.kb_tenant.specs.OffsetCommit.{committed_all};
ghost use Rattle.kb_tenant.specs.Replies.{Replies};
ghost use Rattle.kb_tenant.specs.Serve.{plainly_served, looked};
ghost use Rattle.kb_tenant.specs.Waiting.{AreApart, HasOwnNames, StillWaits};
ghost use Rattle.kb_tenant.specs.declared.limits.DataLimits.{DataLimits};
ghost use Rattle.kb_tenant.specs.declared.node.Node.{Node};

/// The topics of a world are tied to its logs from the start on, whatever is asked, committed or dropped by retention, at whatever
/// time. Here and below a commit may be refused for any reason, or for none.
pub fn worlds_stay_tied()
    ensures begun { IsTied new_world }
    ensures served { (node : Node) (w : World) (clock n : ℕ) (key version : ℤ) (body : List ℕ) → IsTied w
        → IsTied (plainly_served node w clock n key version body).world }
    ensures committed { (limits : DataLimits) (w : World) (refusal : Option ℤ) (q : OffsetCommitRequest) → IsTied w
        → IsTied (committed_all limits w refusal q).0 }
    ensures retained { (clock : ℕ) (w : World) (place : TopicPartition) → IsTied w → IsTied (retain clock w place).0 }
{}

/// No two topics of a world have one name, from the start on, whatever is asked, committed or dropped by retention, at whatever time.
pub fn names_stay_apart()
    ensures begun { HasOwnNames new_world }
    ensures served { (node : Node) (w : World) (clock n : ℕ) (key version : ℤ) (body : List ℕ) → HasOwnNames w
        → HasOwnNames (plainly_served node w clock n key version body).world }
    ensures committed { (limits : DataLimits) (w : World) (refusal : Option ℤ) (q : OffsetCommitRequest) → HasOwnNames w
        → HasOwnNames (committed_all limits w refusal q).0 }
    ensures retained { (clock : ℕ) (w : World) (place : TopicPartition) → HasOwnNames w → HasOwnNames (retain clock w place).0 }
{}

/// A fetch that waits has no answer after a request of that time that touches none of the places that it waits for, and waits for
/// the same places. So it is after each commit.
pub fn requests_elsewhere()
    ensures served { (node : Node) (w : World) (clock n : ℕ) (key version : ℤ) (body : List ℕ) (r : FetchRequest) (deadline : ℕ)
        → IsTied w → fetch_answer w clock r deadline ≡ None
        → AreApart (places_of w r) (plainly_served node w clock n key version body).touched
        → StillWaits w (plainly_served node w clock n key version body).world clock r deadline }
    ensures committed { (limits : DataLimits) (w : World) (clock : ℕ) (refusal : Option ℤ) (q : OffsetCommitRequest) (r : FetchRequest)
        (deadline : ℕ) → IsTied w → fetch_answer w clock r deadline ≡ None
        → StillWaits w (committed_all limits w refusal q).0 clock r deadline }
{}

/// The same after retention at a place that it does not wait for.
pub fn retention_elsewhere()
    ensures { (clock : ℕ) (w : World) (place : TopicPartition) (r : FetchRequest) (deadline : ℕ) → IsTied w
        → fetch_answer w clock r deadline ≡ None → (Contains (places_of w r) place → ⊥)
        → StillWaits w (retain clock w place).0 clock r deadline }
{}

/// A fetch that waits has no answer at each time before its deadline, while the world stays.
pub fn before_deadline()
    ensures { (w : World) (r : FetchRequest) (clock deadline now : ℕ) → fetch_answer w clock r deadline ≡ None → now < deadline
        → fetch_answer w now r deadline ≡ None }
{}

/// A fetch that has no answer before and after a request, or a commit, waits for the same places, whatever the request touched.
pub fn requests_again()
    ensures served { (node : Node) (w : World) (clock n : ℕ) (key version : ℤ) (body : List ℕ) (r : FetchRequest) (deadline : ℕ)
        → IsTied w → HasOwnNames w
        → fetch_answer w clock r deadline ≡ None
        → fetch_answer (plainly_served node w clock n key version body).world clock r deadline ≡ None
        → places_of (plainly_served node w clock n key version body).world r ≡ places_of w r }
    ensures committed { (limits : DataLimits) (w : World) (clock : ℕ) (refusal : Option ℤ) (q : OffsetCommitRequest) (r : FetchRequest)
        (deadline : ℕ) → IsTied w → HasOwnNames w
        → fetch_answer w clock r deadline ≡ None → fetch_answer (committed_all limits w refusal q).0 clock r deadline ≡ None
        → places_of (committed_all limits w refusal q).0 r ≡ places_of w r }
{}

/// Retention changes no place that a fetch asks for.
pub fn retention_again()
    ensures { (clock : ℕ) (w : World) (r : FetchRequest) → places_of (retain_all clock w).0 r ≡ places_of w r }
{}

/// The bounds and the batches of a world's logs are within their limits from the start on, whatever is asked, committed or dropped by
/// retention, at whatever time.
pub fn logs_stay_small()
    ensures begun { HasSmallLogs new_world }
    ensures served { (node : Node) (w : World) (clock n : ℕ) (key version : ℤ) (body : List ℕ) → HasSmallLogs w
        → HasSmallLogs (plainly_served node w clock n key version body).world }
    ensures committed { (limits : DataLimits) (w : World) (refusal : Option ℤ) (q : OffsetCommitRequest) → HasSmallLogs w
        → HasSmallLogs (committed_all limits w refusal q).0 }
    ensures retained { (clock : ℕ) (w : World) (place : TopicPartition) → HasSmallLogs w → HasSmallLogs (retain clock w place).0 }
{}

/// What a fetch is answered, at once (its key is 1) or after a wait: the one reply that the bytes spell, in which each partition
/// without an error gives whole batches of its log as it is at that moment, one after the other, from the one that holds the
/// asked offset, and from version 5 on tells where that log starts.
pub fn fetches_give_whole_batches()
    ensures served { (node : Node) (w : World) (clock n : ℕ) (version : ℤ) (body bytes : List ℕ) (r : FetchRequest) → HasSmallLogs w
        → asked_fetch version body ≡ Ok r
        → (plainly_served node w clock n FETCH version body).reaction ≡ Replies bytes → HoldsBatches version w r bytes }
    ensures looked { (w : World) (clock deadline : ℕ) (version : ℤ) (limit : Option ℕ) (body bytes : List ℕ) (r : FetchRequest)
        → HasSmallLogs w → asked_fetch version body ≡ Ok r
        → looked w clock deadline version limit body ≡ Replies bytes → HoldsBatches version w r bytes }
{}

/// No group has two offsets of a partition, from the start on, whatever is asked, committed or dropped by retention, at whatever time.
pub fn commits_stay_ordered()
    ensures begun { HasOrderedCommits new_world }
    ensures served { (node : Node) (w : World) (clock n : ℕ) (key version : ℤ) (body : List ℕ) → HasOrderedCommits w
        → HasOrderedCommits (plainly_served node w clock n key version body).world }
    ensures committed { (limits : DataLimits) (w : World) (refusal : Option ℤ) (q : OffsetCommitRequest) → HasOrderedCommits w
        → HasOrderedCommits (committed_all limits w refusal q).0 }
    ensures retained { (clock : ℕ) (w : World) (place : TopicPartition) → HasOrderedCommits w
        → HasOrderedCommits (retain clock w place).0 }
{}

/// No request brings what a tenant has past its limits: the bytes of its batches, its topics, their partitions, the offsets that its
/// groups have committed, and the bytes of their texts are each at most the limit, or at most what they were. Retention makes none of
/// them more: so it is whatever the limits are.
pub fn limits_are_kept()
    ensures served { (node : Node) (w : World) (clock n : ℕ) (key version : ℤ) (body : List ℕ) → HasOrderedCommits w
        → AreLimitsKept node.limits w (plainly_served node w clock n key version body).world }
    ensures committed { (limits : DataLimits) (w : World) (refusal : Option ℤ) (q : OffsetCommitRequest) → HasOrderedCommits w
        → AreLimitsKept limits w (committed_all limits w refusal q).0 }
    ensures retained { (limits : DataLimits) (clock : ℕ) (w : World) (place : TopicPartition)
        → AreLimitsKept limits w (retain clock w place).0 }
    ensures all_retained { (limits : DataLimits) (clock : ℕ) (w : World) → AreLimitsKept limits w (retain_all clock w).0 }
{}
