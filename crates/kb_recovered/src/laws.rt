//! What a commit of a broker makes last, and what an opening finds of it after a loss of power.
ghost use Rattle.std.specs.Prelude.{◌≡◌, ℕ, List, Some, slice_get, OnOk};
ghost use Rattle.std.specs.FinMap.{keys};
ghost use Rattle.kb_store.specs.Disk.{Files};
ghost use Rattle.kb_segment_log.specs.SegmentLog.{segment_log};
ghost use Rattle.kb_tenant_api.specs.Hosted.{Kept, kept_of, names_of};
ghost use Rattle.kb_broker.specs.Hosts.{is_honest, IsInFiles};
ghost use Rattle.kb_restart.specs.Again.{AreApart, AreStillStrays, IsFound};
ghost use Rattle.kb_restart.specs.Restart.{IsReopened};
ghost use Rattle.kb_loss.specs.Since.{AreLeft, AreStill, HoldsSince, Touched};
ghost use Rattle.kb_recovered.specs.Commits.{FollowOn, TenantAt, last_at};
ghost use Rattle.kb_recovered.specs.Recovered.{AreAll, IsWrittenSince, KeepsWhatWas};

use kb_broker::Broker;
use kb_segment_log::SegmentLog;
use kb_store::{Store, StoreFault};

/// Commits, as [`Broker::commit`] does. Where the store has put nothing off, its files are there after a loss of power at any moment
/// from then on, but for what calls since then do.
///
/// They come to what each tenant has, whatever was refused. That what a tenant has is in the files is said by the clauses `in_files` of
/// the broker's calls. So here it is where the strays are known, those that name the tenant still are such, and no two tenants have one
/// name.
pub fn commit_lasts<S: Store>(broker: &mut Broker<S, SegmentLog>) -> Result<(), StoreFault>
    ensures found { is_honest S.disk broker.new → IsInFiles segment_log S.disk broker.new
        → (strays : List ℕ) → broker.new.strays ≡ Some strays → AreApart (names_of broker.new.state.tenants)
        → (t : ℕ) (name : List ℕ) → slice_get (names_of broker.new.state.tenants) t ≡ Some name
        → AreStillStrays (S.disk broker.new.store).files (keys (S.disk broker.new.store).table)
        (names_of broker.new.state.tenants) broker.new.state.tenants name strays
        → IsFound (S.disk broker.new.store).files (keys (S.disk broker.new.store).table) name (kept_of broker.new.state.tenants t) }
    ensures lasts { OnOk result (S.settled broker.new.store → is_honest S.disk broker.new
        → (touched : Touched) → HoldsSince (AreStill (S.disk broker.new.store).files touched)
        (S.loss broker.new.store).moment (S.loss broker.new.store)) }
{
    broker.commit()
}

/// Nothing that a tenant had at a commit is missing in files that are left as these may be: a broker that opens with them has
/// the tenant's catalog with all commands that it had, and of each partition all records from its start on. So it is where the logs of
/// the tenant are written in order, and what is left of its catalog can be read.
pub fn every_tenant_has_what_was_acknowledged()
    ensures { (files : Files) (numbers name : List ℕ) (old : Kept) (was : IsFound files numbers name old) → AreAll files numbers
        → (touched : Touched) (waiting : List ℕ) (found : Files)
        → AreLeft files touched waiting found → (there : List ℕ) → AreAll found there → (new : Kept)
        → IsReopened found there name new → IsWrittenSince was touched waiting found there new → KeepsWhatWas old new }
{}

/// So it is over any number of commits, losses of power and starts. A broker that opens after a further loss has of the tenant all that
/// it had at the first of these commits: the catalog with more commands, and of each partition all records from its start on. Each
/// commit is left of the one before it, and each start has what it found.
pub fn what_was_acknowledged_stays()
    ensures { (name : List ℕ) (commit : TenantAt name) (later : List (TenantAt name)) → FollowOn commit later
        → (touched : Touched) (waiting : List ℕ) (found : Files) → AreLeft (last_at commit later).files touched waiting found
        → (there : List ℕ) → AreAll found there → (new : Kept) → IsReopened found there name new
        → IsWrittenSince (last_at commit later).found touched waiting found there new → KeepsWhatWas commit.kept new }
{}
