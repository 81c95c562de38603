//! Laws about the definitions, each as the contract of a function with an empty body. What they say of retention and of the time
//! `kb_tenant`'s laws of the same names say.
ghost use Rattle.std.specs.Prelude.{◌≡◌, ℕ, ℤ, List, Ok, None};
ghost use Rattle.kb_wire.specs.declared.api_key.TheConstants.{FETCH};
ghost use Rattle.kb_api_data.specs.declared.fetch.FetchRequest.{FetchRequest};
ghost use Rattle.kb_coordinator.specs.Groups.{Groups, silent};
ghost use Rattle.kb_tenant_state.specs.Tied.{IsTied};
ghost use Rattle.kb_tenant_state.specs.World.{World};
ghost use Rattle.kb_tenant.specs.Batches.{HasSmallLogs, HoldsBatches};
ghost use Rattle.kb_tenant.specs.Fetch.{asked_fetch, fetch_answer, places_of};
ghost use Rattle.kb_tenant.specs.LimitsKept.{AreLimitsKept, HasOrderedCommits};
ghost use Rattle.kb_tenant.specs.Replies.{Silent};
ghost use Rattle.kb_tenant.specs.Waiting.{AreApart, HasOwnNames, StillWaits};
ghost use Rattle.kb_tenant.specs.declared.node.Node.{Node};
ghost use Rattle.kb_tenant_api.specs.Replies.{replies, told_to};
ghost use Rattle.kb_tenant_api.specs.Serve.{served};
ghost use Rattle.kb_tenant_api.specs.Waiters.{AreServed, rebalances};

/// The topics of a world stay tied to its logs, whatever is asked.
pub fn worlds_stay_tied()
    ensures { (node : Node) (w : World) (clock : ℕ) (gs : Groups) (n : ℕ) (key version : ℤ) (body : List ℕ) → IsTied w
        → IsTied (served node w clock gs n key version body).world }
{}

/// No two topics of a world come to have one name, whatever is asked.
pub fn names_stay_apart()
    ensures { (node : Node) (w : World) (clock : ℕ) (gs : Groups) (n : ℕ) (key version : ℤ) (body : List ℕ) → HasOwnNames w
        → HasOwnNames (served node w clock gs n key version body).world }
{}

/// A fetch that waits has no answer after a request that touches none of the places that it waits for, and waits for the same places.
pub fn requests_elsewhere()
    ensures { (node : Node) (w : World) (clock : ℕ) (gs : Groups) (n : ℕ) (key version : ℤ) (body : List ℕ) (r : FetchRequest)
        (deadline : ℕ) → IsTied w → fetch_answer w clock r deadline ≡ None
        → AreApart (places_of w r) (served node w clock gs n key version body).touched
        → StillWaits w (served node w clock gs n key version body).world clock r deadline }
{}

/// A fetch that has no answer before and after a request waits for the same places, whatever the request touched.
pub fn requests_again()
    ensures { (node : Node) (w : World) (clock : ℕ) (gs : Groups) (n : ℕ) (key version : ℤ) (body : List ℕ) (r : FetchRequest)
        (deadline : ℕ) → IsTied w → HasOwnNames w → fetch_answer w clock r deadline ≡ None
        → fetch_answer (served node w clock gs n key version body).world clock r deadline ≡ None
        → places_of (served node w clock gs n key version body).world r ≡ places_of w r }
{}

/// A request that waits for its group gets nothing after a request that is for no group.
pub fn group_waits_elsewhere()
    ensures { (node : Node) (w : World) (clock : ℕ) (gs : Groups) (n k : ℕ) (key version : ℤ) (body : List ℕ)
        → (served node w clock gs n key version body).groups ≡ silent gs
        → told_to k (served node w clock gs n key version body).groups ≡ Silent }
{}

/// The bounds and the batches of a world's logs stay within their limits, whatever is asked.
pub fn logs_stay_small()
    ensures { (node : Node) (w : World) (clock : ℕ) (gs : Groups) (n : ℕ) (key version : ℤ) (body : List ℕ) → HasSmallLogs w
        → HasSmallLogs (served node w clock gs n key version body).world }
{}

/// What a fetch is answered at once: the one reply that the bytes spell, in which each partition without an error gives whole batches
/// of its log as it is at that moment, one after the other, from the one that holds the asked offset, and from version 5 on tells
/// where that log starts.
pub fn fetches_give_whole_batches()
    ensures { (node : Node) (w : World) (clock : ℕ) (gs : Groups) (n : ℕ) (version : ℤ) (body bytes : List ℕ) (r : FetchRequest)
        → HasSmallLogs w → asked_fetch version body ≡ Ok r
        → (served node w clock gs n FETCH version body).reaction ≡ replies bytes → HoldsBatches version w r bytes }
{}

/// A request makes no member wait but on its own connection, and there one where it comes to a wait for its group. Who waited waits
/// still, or was answered, and not both.
pub fn one_more_waits()
    ensures { (node : Node) (w : World) (clock : ℕ) (gs : Groups) (n : ℕ) (key version : ℤ) (body : List ℕ)
        → AreServed n (rebalances (served node w clock gs n key version body).reaction) gs
        (served node w clock gs n key version body).groups }
{}

/// No group comes to have two offsets of a partition, whatever is asked.
pub fn commits_stay_ordered()
    ensures { (node : Node) (w : World) (clock : ℕ) (gs : Groups) (n : ℕ) (key version : ℤ) (body : List ℕ) → HasOrderedCommits w
        → HasOrderedCommits (served node w clock gs n key version body).world }
{}

/// No request brings what a tenant has past its limits: each count is at most the limit, or at most what it was.
pub fn limits_are_kept()
    ensures { (node : Node) (w : World) (clock : ℕ) (gs : Groups) (n : ℕ) (key version : ℤ) (body : List ℕ) → HasOrderedCommits w
        → AreLimitsKept node.limits w (served node w clock gs n key version body).world }
{}
