//! Laws about the definitions, each as the contract of a function with an empty body.
ghost use Rattle.std.specs.Prelude.{◌≡◌, ◌≤◌, ◌<◌, ◌++◌, ℕ, Bool, false, List, [], IsSome, nat_eq};
ghost use Rattle.std.specs.FinMap.{get};
ghost use Rattle.std.specs.List.{Contains, IsDistinct};
ghost use Rattle.kb_store.specs.Disk.{Files};
ghost use Rattle.kb_segment.specs.Header.{Header};
ghost use Rattle.kb_segment_log.specs.Chain.{Chain, ComesTo};
ghost use Rattle.kb_topics.specs.Known.{Known};
ghost use Rattle.kb_topics.specs.MetaLog.{IsFoldOf, SayEach};
ghost use Rattle.kb_snapshot.specs.Snapshot.{snapshot_of};
ghost use Rattle.kb_tenant_state.specs.Logs.{Logs};
ghost use Rattle.kb_opening.specs.Opened.{IsLongestFold, IsOpened, Owners};
ghost use Rattle.kb_opening.specs.Owners.{catalog_of, partition_of};
ghost use Rattle.kb_loss.specs.Fronts.{IsFrontOf};
ghost use Rattle.kb_loss.specs.Chains.{HasAll, LastsIn};
ghost use Rattle.kb_loss.specs.Commits.{TenantAt, FollowOn, last_at};
ghost use Rattle.kb_loss.specs.Known.{GoesOnTo};
ghost use Rattle.kb_loss.specs.Renewed.{BeginsAnew};
ghost use Rattle.kb_loss.specs.Since.{AreBelow, AreLeft, AreOf, AreStill, IsWritten, Touched, made_from, untouched};
ghost use Rattle.kb_loss.specs.Tenant.{AreOfTenant, FilesLast, GoesThroughAll, HasWhatWas, IsReadAgain, TenantIsWritten};

/// Where all files of a chain are found, and each further one begins at its end or behind it, the chain of what is found has the first
/// one's batches as a front.
pub fn chains_go_on()
    ensures { (files : Files) (numbers : List ℕ) (from : ℕ) (bs : List (List ℕ)) (c : Chain files numbers from bs)
        (found : Files) (there : List ℕ) → LastsIn c 0 found there → IsDistinct nat_eq numbers → IsDistinct nat_eq there
        → (to : ℕ) (cs : List (List ℕ)) → Chain found there to cs → IsFrontOf bs cs }
{}

/// Where of a log's files none is gone but first ones, which end at a recorded start or below it, and each further one begins at its end
/// or behind it, the log has all batches from that start on.
pub fn logs_go_on()
    ensures { (files : Files) (numbers : List ℕ) (from first last : ℕ) (list : List (List ℕ))
        (c : ComesTo files numbers from first last list) (start : ℕ) → from ≤ start → (found : Files) (there : List ℕ)
        → LastsIn c.chain start found there → IsDistinct nat_eq numbers → IsDistinct nat_eq there → (first_now last_now : ℕ)
        (now : List (List ℕ)) → ComesTo found there start first_now last_now now → HasAll start list last now last_now }
{}

/// Where a catalog's batches, all of which were commands, are a front of those that are found, what is known goes on from what was
/// known.
pub fn catalogs_go_on()
    ensures { (generation : ℕ) (bs cs : List (List ℕ)) (known now : Known) → IsFoldOf generation bs known → IsFrontOf bs cs
        → IsLongestFold generation cs now → GoesOnTo known now }
{}

/// What a later generation of a catalog comes to goes on from what was known, where it begins with the snapshot of that, or of what was
/// known after more commands.
pub fn renewals_go_on()
    ensures { (generation : ℕ) (batches : List (List ℕ)) (known now : Known) → 0 < generation → BeginsAnew known batches
        → IsLongestFold generation batches now → GoesOnTo known now }
{}

/// Where a catalog had more commands, and then was renewed, the next generation begins so: its first batches are the commands of the
/// snapshot, as they were when the renewal was done.
pub fn a_renewal_begins_anew()
    ensures { (generation : ℕ) (batches more : List (List ℕ)) (known renewed : Known) (snapshot later : List (List ℕ))
        → IsFoldOf generation batches known → IsFoldOf generation (batches ++ more) renewed → SayEach snapshot (snapshot_of renewed)
        → IsFrontOf snapshot later → BeginsAnew known later }
{}

/// So it is over several renewals.
pub fn renewals_follow()
    ensures { (known mid : Known) (batches : List (List ℕ)) → GoesOnTo known mid → BeginsAnew mid batches → BeginsAnew known batches }
{}

/// What an opening finds of a tenant goes on from what its files came to, where they are found but for what may go.
pub fn tenants_go_on()
    ensures { (files : Files) (owners : Owners) (known : Known) (logs : Logs) (was : IsOpened files owners known logs)
        (found : Files) (there : Owners) (now : Known) (logs_now : Logs) → IsOpened found there now logs_now
        → IsReadAgain was found there → FilesLast was found there now → HasWhatWas known logs now logs_now }
{}

/// What is left of the files of a log that is written in order is found but for what may go.
pub fn logs_in_order_last()
    ensures { (files : Files) (numbers : List ℕ) (from : ℕ) (bs : List (List ℕ)) (c : Chain files numbers from bs)
        (test : Header → Bool) (t : Touched) (waiting : List ℕ) (start : ℕ) (found : Files) (there : List ℕ)
        → IsWritten c test t waiting start found → AreOf files test numbers → AreOf found test there
        → AreLeft files t waiting found → LastsIn c start found there }
{}

/// None of a log's files was made since a commit, where the files of the commit have numbers below a next one, and each that was made
/// has one from there on.
pub fn files_of_a_commit_are_old()
    ensures { (files : Files) (test : Header → Bool) (numbers : List ℕ) → AreOf files test numbers → (next : ℕ)
        → AreBelow next files → (grown : ℕ → Bool) (n : ℕ) → Contains numbers n → (made_from next grown).made n ≡ false }
{}

/// Before a sync none of the files is gone whose removal waits.
pub fn what_is_still_there_is_left()
    ensures { (files : Files) (t : Touched) (waiting : List ℕ) (found : Files) → AreStill files t found
        → AreLeft files t waiting found }
{}

/// Where those files are there that a sync made last, what is left of them is left of the commit's.
pub fn what_is_left_later_is_left()
    ensures { (files : Files) (t : Touched) (synced : Files) (waiting : List ℕ) (found : Files) → AreStill files t synced
        → AreLeft synced untouched waiting found → AreLeft files t waiting found }
{}

/// Nothing that a tenant had at a commit is missing in files that are left as these may be: an opening finds the catalog with all
/// commands that it had, and of each partition all records from its start on. So it is where the tenant's logs are written in order, and
/// what is left of the catalog can be read.
pub fn what_was_acknowledged_is_there()
    ensures { (files : Files) (owners : Owners) (known : Known) (logs : Logs) (was : IsOpened files owners known logs)
        (name : List ℕ) (t : Touched) (waiting : List ℕ) (found : Files) → AreLeft files t waiting found → (there : Owners)
        → AreOfTenant files name owners → AreOfTenant found name there → (now : Known) (logs_now : Logs)
        → IsReadAgain was found there → TenantIsWritten was name t waiting found there now → IsOpened found there now logs_now
        → HasWhatWas known logs now logs_now }
{}

/// What a tenant had at a commit it has after any number of further commits, losses of power and starts: its catalog with more commands,
/// and of each partition all records from its start on. So it is where each commit, or what is found after a loss, is left of the one
/// before it, and each start has what it found.
pub fn commits_go_on()
    ensures { (name : List ℕ) (commit : TenantAt name) (later : List (TenantAt name)) → FollowOn commit later
        → HasWhatWas commit.known commit.logs (last_at commit later).known (last_at commit later).logs }
{}

/// Where nothing was changed since the commit and nothing is lost, all of these premises are met: so they are together at least there.
pub fn nothing_lost_is_written_in_order()
    ensures { (files : Files) (owners : Owners) (known : Known) (logs : Logs) (was : IsOpened files owners known logs)
        (name : List ℕ) → IsFoldOf was.generation was.in_use.whole.commands known → GoesThroughAll was
        → IsReadAgain was files owners × TenantIsWritten was name untouched [] files owners known
        × AreLeft files untouched [] files }
{}

/// Of all files of a store those are a tenant's whose headers name its logs, as an opening takes them.
pub fn named_files_are_the_tenants()
    ensures { (files : Files) (numbers name : List ℕ) → IsDistinct nat_eq numbers
        → ((n : ℕ) → IsSome (get files n) → Contains numbers n)
        → AreOfTenant files name (record {
          catalog = λ g. catalog_of files name g numbers;
          partition = λ i p. partition_of files name i p numbers;
        }) }
{}
