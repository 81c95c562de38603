//! Laws about the definitions, each as the contract of a function with an empty body.
ghost use Rattle.std.specs.Prelude.{◌≡◌, ◌≤◌, ℕ, ℤ, pos, List, Bool, true, false, Option, Some, None, FitsSigned};
ghost use Rattle.std.specs.Int.{w64};
ghost use Rattle.kb_wire.specs.declared.api_key.TheConstants.{FETCH};
ghost use Rattle.kb_store.specs.Disk.{Files, Table};
ghost use Rattle.kb_log.specs.Log.{IsRun, first_base, starting};
ghost use Rattle.kb_tenant_state.specs.Logs.{LogState};
ghost use Rattle.kb_tenant_state.specs.Partitions.{Agree, AreSound, Entries, logs_of};
ghost use Rattle.kb_tenant_state.specs.World.{World};
ghost use Rattle.kb_tenant.specs.Replies.{Replies};
ghost use Rattle.kb_tenant.specs.Serve.{plainly_served, looked};
ghost use Rattle.kb_tenant.specs.declared.node.Node.{Node};
ghost use Rattle.kb_client.specs.Sent.{Target};
ghost use Rattle.kb_client_spec.specs.Consuming.{IsTyped};
ghost use Rattle.kb_client_spec.specs.Partition.{IsLog, Log, end_of_log, batches_from};
ghost use Rattle.kb_client_spec.specs.Fetching.{Fetch, accepted, is_out_of_range, records_given, refused_partition, reply_body};
ghost use Rattle.kb_client_served.specs.Served.{HasWholeLogs, IsAnswered, IsWhole, body_by, fetch_by, partition_in};

use kb_log::PartitionLog;

/// What a broker answers to a consumer's fetch, at once or after a wait, is what the other side of the consumer answers of the
/// partition as it is at that moment.
pub fn broker_answers_as_the_other_side()
    ensures served { (node : Node) (w : World) (clock n : ℕ) (target : Target) (offset : ℤ) (follow : Bool) (body : List ℕ)
        → HasWholeLogs w → IsTyped target → FitsSigned w64 offset
        → (plainly_served node w clock n FETCH (pos 5) (body_by target offset follow)).reaction ≡ Replies body
        → IsAnswered w (fetch_by target offset) body }
    ensures looked { (w : World) (clock deadline : ℕ) (limit : Option ℕ) (target : Target) (offset : ℤ) (follow : Bool) (body : List ℕ)
        → HasWholeLogs w → IsTyped target → FitsSigned w64 offset
        → looked w clock deadline (pos 5) limit (body_by target offset follow) ≡ Replies body
        → IsAnswered w (fetch_by target offset) body }
{}

/// Such an answer has error 3 where there is no such partition, and error 1 where the offset is below its start or above its end.
/// Else it has no error, the end as both watermarks, the start, and whole batches from the one that holds the offset on.
pub fn errors_are_told()
    ensures unknown { (w : World) (f : Fetch) (body : List ℕ) → IsAnswered w f body → partition_in w f.topic f.index ≡ None
        → body ≡ reply_body f (refused_partition f.index (pos 3)) }
    ensures out_of_range { (w : World) (f : Fetch) (body : List ℕ) (l : Log) → IsAnswered w f body
        → partition_in w f.topic f.index ≡ Some l → is_out_of_range l f.offset ≡ true
        → body ≡ reply_body f (refused_partition f.index (pos 1)) }
    ensures in_range { (w : World) (f : Fetch) (body : List ℕ) (l : Log) → IsAnswered w f body
        → partition_in w f.topic f.index ≡ Some l → is_out_of_range l f.offset ≡ false
        → (n : ℕ) × (body ≡ reply_body f (accepted f.index l (records_given n f.offset l.batches))) }
{}

/// Where a tenant's partitions are sound and agree with their files, each log of its world is whole.
pub fn logs_are_whole<L: PartitionLog>()
    ensures { (es : Entries L) (table : Table) (next : ℕ) (files : Files) (w : World) → AreSound L.log es table next
        → Agree L.log es files → w.logs ≡ logs_of L.log es files → HasWholeLogs w }
{}

/// A broker's log is a log of the other side, with the same end. The other side keeps the batches below the start, and the broker
/// does not: no fetch at the start or above tells the two apart.
pub fn logs_are_as_the_other_side_has_them()
    ensures log { (l : LogState) → IsWhole l → IsLog (pos (first_base l.end l.batches)) l.batches }
    ensures end { (l : LogState) → IsWhole l → end_of_log (pos (first_base l.end l.batches)) l.batches ≡ pos l.end }
    ensures trimmed { (at : ℕ) (batches : List (List ℕ)) (end start offset : ℕ) → IsRun at batches end → start ≤ offset
        → batches_from (pos offset) (starting start batches) ≡ batches_from (pos offset) batches }
{}
