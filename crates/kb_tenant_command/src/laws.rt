//! What a removal leaves of other tenants.
ghost use Rattle.std.specs.Prelude.{◌≡◌, ℕ, List, false, true, bytes_eq};
ghost use Rattle.std.specs.List.{AllByRecursion};
ghost use Rattle.kb_store.specs.Disk.{Files};
ghost use Rattle.kb_opening.specs.Owners.{says};
ghost use Rattle.kb_tenant_state.specs.Logs.{Logs};
ghost use Rattle.kb_topics.specs.Known.{Known};
ghost use Rattle.kb_start.specs.Deleted.{without_files};
ghost use Rattle.kb_move.specs.Alike.{Opens, is_named};

/// Where files are removed whose headers name a tenant, each other tenant opens to what it had.
#[tactic(auto, using(crate::proofs::Others::others_open))]
pub fn removals_leave_the_others()
    ensures { (files : Files) (numbers tenant other : List ℕ) (k : Known) (logs : Logs) → bytes_eq tenant other ≡ false
        → AllByRecursion (λ n. says files (is_named tenant) n ≡ true) numbers
        → Opens files other k logs → Opens (without_files numbers files) other k logs }
{}
