//! What a copy opens to.
ghost use Rattle.std.specs.Prelude.{◌≡◌, ◌<◌, ℕ, List, [], false, bytes_eq};
ghost use Rattle.std.specs.FinMap.{keys};
ghost use Rattle.std.specs.List.{AllByRecursion};
ghost use Rattle.kb_store.specs.Disk.{Files, Table};
ghost use Rattle.kb_topics.specs.Known.{Known};
ghost use Rattle.kb_tenant_state.specs.Logs.{Logs};
ghost use Rattle.kb_opening.specs.Opened.{IsOpened};
ghost use Rattle.kb_move.specs.Alike.{AreAlike, Opens, with_owned_files, numbers_here, numbers_there, owned_in, owners_of};
ghost use Rattle.kb_move.specs.Backup.{AreLengths, HaveGrown, IsBackup};

/// Files that say the same, in the same order, open to the same: a tenant's topics, their logs and all that groups committed.
#[tactic(auto, using(crate::proofs::Alike::opened_alike))]
pub fn alike_files_open_alike()
    ensures { (here there : Files) (pairs : List (ℕ × ℕ)) (name : List ℕ) (k : Known) (logs : Logs) → AreAlike here there pairs
        → IsOpened here (owners_of here (numbers_here pairs) name) k logs
        → IsOpened there (owners_of there (numbers_there pairs) name) k logs }
{}

/// A tenant's files, behind those of a store that has none of it, open there to what they open to here.
#[tactic(auto, using(crate::proofs::Joined::opens_joined))]
pub fn copies_open_alike()
    ensures { (from to : Files) (name : List ℕ) (n : ℕ) (k : Known) (logs : Logs) → AllByRecursion (λ m. m < n) (keys to)
        → owned_in name to ≡ [] → Opens from name k logs → Opens (with_owned_files n name from to) name k logs }
{}

/// Each other tenant of that store has there what it had.
#[tactic(auto, using(crate::proofs::Joined::opens_beside))]
pub fn copies_leave_the_others()
    ensures { (from to : Files) (name other : List ℕ) (n : ℕ) (k : Known) (logs : Logs) → AllByRecursion (λ m. m < n) (keys to)
        → bytes_eq name other ≡ false → Opens to other k logs → Opens (with_owned_files n name from to) other k logs }
{}

/// The files of a moment, copied later while they grow, each up to the length that it had then, are those of that moment. So each tenant
/// has in them what it had.
pub fn backups_open_to_their_moment()
    ensures same { (moment later backup : Files) (lengths : Table) → AreLengths lengths moment → HaveGrown moment later
        → IsBackup lengths later backup → backup ≡ moment }
    ensures opens { (moment later backup : Files) (lengths : Table) (name : List ℕ) (k : Known) (logs : Logs) → AreLengths lengths moment
        → HaveGrown moment later → IsBackup lengths later backup → Opens moment name k logs → Opens backup name k logs }
{}
