//! What a start found in a data folder, kept, leaves aside and removes, as it is told.

ghost use Rattle.std.specs.Prelude.{◌≡◌, ◌∷◌, [], ℕ, List, Some, map, string_bytes, IfOk};
ghost use Rattle.kb_server_log.specs.Change.{change_at};
ghost use Rattle.kb_settings.specs.Document.{sync_named};
ghost use Rattle.kb_operator.specs.Found.{change_by, change_text, deleted_text, found_line, held_line};
ghost use Rattle.kb_operator.specs.Found.{kept_lines, nobody_line, stray_lines};
ghost use Rattle.kb_operator.specs.Logged.{MakesText, TellsTexts, texts_of};
ghost use Rattle.kb_operator.specs.Speaks.{Announces};

use crate::deleted::deleted_text;
use crate::journal::{Held, Journal, Word};
use crate::lines::{LineLog, count_text, tell_if};
use kb_server_log::{Change, time_text};
use kb_start::{Deleted, StrayCounts, Total};
use std::alloc::{AllocError, Global};
use std::collections::BTreeMap;

impl<T: LineLog> Journal<T> {
    /// What an opening dropped of the files that a folder had: a line for each.
    pub fn tell_dropped(&mut self, now: u64, texts: Vec<String>)
        ensures { Announces T.logged now (map (λ text. string_bytes text) texts.items) self.old self.new }
    {
        if !self.is_quiet {
            tell_each(now, &texts, &mut self.lines);
        }
    }

    /// So many parts of files are kept in the folder at a path: of those that an opening drops, and so many whole ones that the start sets
    /// aside.
    pub fn tell_kept(&mut self, alloc: Global, now: u64, parts: u64, aside: u64, path: &str)
        ensures { Announces T.logged now (kept_lines parts aside path.now) self.old self.new }
    {
        if !self.is_quiet {
            tell_parts(alloc, now, parts, aside, path, &mut self.lines);
        }
    }

    /// The files that an opening left aside: of tenants that no user names, a line each, of a first write that was cut short or whose
    /// header cannot be read, and of catalogs' snapshots that were not finished.
    pub fn tell_strays(&mut self, alloc: Global, now: u64, strays: &StrayCounts)
        ensures { Announces T.logged now (stray_lines strays.now) self.old self.new }
    {
        if !self.is_quiet {
            tell_counts(alloc, now, strays, &mut self.lines);
        }
    }

    /// The files of deleted topics that a start removes, if there are any.
    pub fn tell_deleted(&mut self, alloc: Global, now: u64, deleted: &Deleted)
        ensures { Announces T.logged now (texts_of (deleted_text deleted.now)) self.old self.new }
    {
        if !self.is_quiet {
            tell_if(now, deleted_text(alloc, deleted), &mut self.lines);
        }
    }

    /// What was found in the folder, behind a word.
    pub fn tell_found(&mut self, alloc: Global, now: u64, word: Word, held: Held)
        ensures { (sync : List ℕ) × (sync_named sync ≡ Some self.old.sync)
            × Announces T.logged now (found_line word held self.old.connections sync ∷ []) self.old self.new }
    {
        let sync = self.sync.name();
        if self.is_quiet {
            return;
        }
        let text = found_text(alloc, word, held, self.connections, sync);
        self.lines.tell(now, text);
    }

    /// Where the clock is, seen from the last change of a file: a line, unless that was within a day before.
    pub fn tell_change(&mut self, alloc: Global, now: u64, changed: Option<u64>)
        ensures { (time : List ℕ) × Announces T.logged now (texts_of (change_text now changed time)) self.old self.new }
    {
        if self.is_quiet {
            return;
        }
        let Some(changed) = changed else {
            return;
        };
        tell_if(now, change_line(alloc, now, changed), &mut self.lines);
    }
}

/// Tells each of these texts.
fn tell_each<T: LineLog>(now: u64, texts: &[String], lines: &mut T)
    ensures { TellsTexts now (map (λ text. string_bytes text) texts.now) (T.logged lines.old) (T.logged lines.new) }
{
    for text in texts {
        lines.tell(now, text.clone());
    }
}

/// Tells how many parts of files are kept, and how many whole ones are set aside.
fn tell_parts<T: LineLog>(
    alloc: Global,
    now: u64,
    parts: u64,
    aside: u64,
    path: &str,
    lines: &mut T,
)
    ensures { TellsTexts now (kept_lines parts aside path.now) (T.logged lines.old) (T.logged lines.new) }
{
    let (front, dropped) = (
        "kept what is dropped of damaged files: ",
        parts.saturating_sub(aside),
    );
    tell_if(now, count_text(alloc, front, dropped, ", in ", path), lines);
    let front = "set aside files that the settings do not fit: ";
    tell_if(now, count_text(alloc, front, aside, ", in ", path), lines);
}

/// Tells how many files are of no log, by why.
fn tell_counts<T: LineLog>(alloc: Global, now: u64, strays: &StrayCounts, lines: &mut T)
    ensures { TellsTexts now (stray_lines strays.now) (T.logged lines.old) (T.logged lines.new) }
{
    tell_of_nobody(alloc, now, &strays.of_nobody, lines);
    let short = "stray files that are shorter than a header: ";
    tell_if(now, count_text(alloc, short, strays.short, "", ""), lines);
    let unreadable = "stray files whose header cannot be read: ";
    tell_if(
        now,
        count_text(alloc, unreadable, strays.unreadable, "", ""),
        lines,
    );
    let unfinished = "stray files of catalogs' snapshots that were not finished: ";
    tell_if(
        now,
        count_text(alloc, unfinished, strays.unfinished, "", ""),
        lines,
    );
}

/// Tells how many files each tenant has that no user names.
fn tell_of_nobody<T: LineLog>(
    alloc: Global,
    now: u64,
    of_nobody: &BTreeMap<String, u64>,
    lines: &mut T,
)
    ensures { TellsTexts now (map nobody_line of_nobody.now.entries) (T.logged lines.old) (T.logged lines.new) }
{
    for (tenant, files) in of_nobody {
        lines.tell(now, nobody_text(alloc, tenant, *files));
    }
}

/// How many files a tenant has that no user names.
fn nobody_text(alloc: Global, tenant: &String, files: u64) -> Result<String, AllocError>
    ensures { IfOk result (λ text. string_bytes text ≡ nobody_line (tenant.now, files)) }
{
    format!(in alloc; "stray files of tenant {tenant}, which no user names: {files}")
}

/// What a broker has that opened.
pub(crate) fn held_text(alloc: Global, held: Held) -> Result<String, AllocError>
    ensures { IfOk result (λ text. string_bytes text ≡ held_line held) }
{
    let Held {
        tenants,
        topics,
        partitions,
        strays,
        files: Total { files, bytes },
    } = held;
    format!(in alloc;
        "tenants {tenants}, topics {topics}, partitions {partitions}, files {files}, bytes {bytes}, stray files {strays}"
    )
}

/// The same behind a word.
fn found_text(
    alloc: Global,
    word: Word,
    held: Held,
    connections: u32,
    sync: &str,
) -> Result<String, AllocError>
    ensures { IfOk result (λ text. string_bytes text ≡ found_line word held connections sync.now) }
{
    let holds = held_text(alloc, held)?;
    match word {
        Word::Start => format!(in alloc;
            "start: {holds}, connections at most {connections}, sync {sync}"
        ),
        Word::Found => format!(in alloc; "found: {holds}"),
    }
}

/// Where a clock is that is before the last change of a file, or more than a day behind it.
fn change_line(alloc: Global, now: u64, changed: u64) -> Result<Option<String>, AllocError>
    ensures { (time : List ℕ) × MakesText (change_by (change_at now changed) time) result }
{
    let front = match Change::at(now, changed) {
        Change::Ahead => "the clock is before the last change of a file: ",
        Change::Old => "the last change of a file is more than a day ago: ",
        Change::Recent => return Ok(None),
    };
    let time = time_text(alloc, changed)?;
    Ok(Some(format!(in alloc; "{front}{time}")?))
}
