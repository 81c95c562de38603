//! Whether a start on a data folder goes on.

ghost use Rattle.std.specs.Prelude.{◌≡◌, ℕ, map, take, None, Some, IfOk, IfErr};
ghost use Rattle.kb_start.specs.declared.verdict.Cause.{Cause};
ghost use Rattle.kb_start.specs.Verdict as start;
ghost use Rattle.kb_store.specs.Disk.{Keeps};
ghost use Rattle.kb_operator.specs.Logged.{TellsBare};
ghost use Rattle.kb_operator.specs.Report.{Opening, damage_lines, kept_if, kept_parts, loss_lines, opening_lines, opening_of};
ghost use Rattle.kb_operator.specs.Speaks.{Announces};
ghost use Rattle.kb_operator.specs.Stopped.{IsRefusedFor};
ghost use Rattle.kb_operator.specs.Texts.{loss_line};

use crate::dropped::DroppedParts;
use crate::fault::OperatorFault;
use crate::folder::store_to_read;
use crate::journal::Journal;
use crate::lines::{LineLog, count_text, tell_bare_if};
use crate::refused::FolderJournal;
use crate::report::dropped_texts;
use crate::texts::{damage_text, loss_text, stray_text};
use kb_server_log::now;
use kb_start::{
    Cause, Consent, KeepFault, Keeper, Loss, Opened, Surveyed, damaged_files, files_in_way,
    keep_dropped, keep_whole, recorded_starts, survey, unreadable_files, why_refused,
};
use kb_store::{Store, StoreFault};
use std::alloc::{AllocError, Global};

/// How many files are told of at most.
const MOST_TOLD: usize = 20;

/// Examines an opening of a journal's folder: where whole batches would be lost, or files are there that the settings do not fit, the
/// start is refused, unless there is consent. Nothing was changed by then. What is dropped of damaged files is kept before that. So is each
/// file that does not fit, whole, and each damaged one whose header cannot be read. The answer is the numbers of these: the start is to go
/// on without them. What is dropped, set aside and left alone is told.
pub fn examine<T: LineLog>(
    rt: &HostRuntime,
    opened: &Opened<'_>,
    consent: Consent,
    folder: &FolderJournal,
    journal: &mut Journal<T>,
) -> Result<Vec<u64>, OperatorFault>
    ensures { IfOk result (λ _. (now : ℕ) × (told : Opening) × (start.why_refused consent told.surveyed ≡ None)
        × Announces T.logged now (opening_lines told) journal.old journal.new) }
{
    let alloc = rt.alloc();
    let mut store = store_to_read(rt, folder)?;
    let (surveyed, damaged, dropped) = match look_at_all(alloc, &mut store, opened) {
        Ok(found) => found,
        Err(fault) => return Err(folder.of_store(alloc, fault)),
    };
    if let Err(fault) = go_on(alloc, folder.folder(), consent, &surveyed) {
        tell_damage(
            alloc,
            folder.folder(),
            consent,
            &surveyed,
            &mut journal.lines,
        );
        return Err(fault);
    }
    let mut aside = match files_in_way(alloc, &mut store, opened) {
        Ok(files) => files,
        Err(fault) => return Err(folder.of_store(alloc, fault)),
    };
    let in_way = aside.len() as u64;
    aside.extend_from_slice(&unreadable_files(alloc, &surveyed.losses)?)?;
    let losses = &surveyed.losses;
    let kept = keep(rt, &mut store, opened, losses, &damaged, &aside, folder)?;
    tell_opening(alloc, now(rt), dropped, kept, in_way, &surveyed, journal);
    Ok(aside)
}

/// Tells which files would lose whole batches, where a start is refused for that.
fn tell_damage<T: LineLog>(
    alloc: Global,
    path: &str,
    consent: Consent,
    surveyed: &Surveyed,
    lines: &mut T,
)
    ensures { TellsBare (damage_lines path.now (start.why_refused consent surveyed.now) surveyed.now.losses.items)
        (T.logged lines.old) (T.logged lines.new) }
{
    match why_refused(consent, surveyed) {
        Some(Cause::Damage) => tell_losses(alloc, path, &surveyed.losses, lines),
        Some(Cause::Strays) | None => {}
    }
}

/// Tells what an opening drops, how many parts of that are kept and in which folder, so many of them whole files that are set aside, and
/// what it leaves aside.
fn tell_opening<T: LineLog>(
    alloc: Global,
    now: u64,
    dropped: Vec<String>,
    kept: Option<(u64, String)>,
    aside: u64,
    surveyed: &Surveyed,
    journal: &mut Journal<T>,
)
    ensures { Announces T.logged now (opening_lines (opening_of dropped.items kept aside surveyed.now)) journal.old journal.new }
{
    journal.tell_dropped(now, dropped);
    tell_kept(alloc, now, kept, aside, journal);
    journal.tell_strays(alloc, now, &surveyed.strays);
}

/// Tells how many parts are kept in a folder, if any are.
fn tell_kept<T: LineLog>(
    alloc: Global,
    now: u64,
    kept: Option<(u64, String)>,
    aside: u64,
    journal: &mut Journal<T>,
)
    ensures { Announces T.logged now (kept_if aside (kept_parts kept)) journal.old journal.new }
{
    if let Some((parts, path)) = kept {
        journal.tell_kept(alloc, now, parts, aside, &path);
    }
}

/// Keeps what an opening drops of the files of a store, in a journal's folder, that lose whole batches or a damaged one, and some files
/// whole. It says how many parts that are, and where, if there are any. Where one cannot be kept the start is refused, and nothing was
/// changed.
fn keep<S: Store>(
    rt: &HostRuntime,
    store: &mut S,
    opened: &Opened<'_>,
    losses: &[Loss],
    damaged: &[u64],
    files: &[u64],
    folder: &FolderJournal,
) -> Result<Option<(u64, String)>, OperatorFault> {
    let alloc = rt.alloc();
    let mut parts = DroppedParts::new(rt, folder.folder())?;
    if let Err(fault) = keep_all(alloc, store, opened, losses, damaged, files, &mut parts) {
        let refused = parts.give_up();
        return Err(match fault {
            KeepFault::Store(fault) => folder.of_store(alloc, fault),
            KeepFault::Keeper => refused,
        });
    }
    match parts.settle() {
        Ok(kept) => Ok(kept),
        Err(_) => Err(parts.give_up()),
    }
}

/// Gives what an opening drops of the files of a store to a keeper, where whole batches are lost or a damaged one, and then some files
/// whole.
fn keep_all<S: Store, K: Keeper>(
    alloc: Global,
    store: &mut S,
    opened: &Opened<'_>,
    losses: &[Loss],
    damaged: &[u64],
    files: &[u64],
    keeper: &mut K,
) -> Result<(), KeepFault> {
    keep_dropped(alloc, store, opened, losses, damaged, keeper)?;
    keep_whole(alloc, store, files, keeper)
}

/// Surveys the files of a store, and says which of them lose a damaged batch, and what an opening drops of them.
fn look_at_all<S: Store>(
    alloc: Global,
    store: &mut S,
    opened: &Opened<'_>,
) -> Result<(Surveyed, Vec<u64>, Vec<String>), StoreFault> {
    let surveyed = look(alloc, store, opened)?;
    let damaged = damaged_files(alloc, store, opened)?;
    let dropped = dropped_texts(alloc, store, opened, &damaged)?;
    Ok((surveyed, damaged, dropped))
}

/// Surveys the files of a store, which an opening would leave so. Where something would be lost the catalogs are read: what stands below
/// a start that they record is no loss.
pub(crate) fn look<S: Store>(
    alloc: Global,
    store: &mut S,
    opened: &Opened<'_>,
) -> Result<Surveyed, StoreFault>
    ensures unchanged { Keeps (S.disk store.old) (S.disk store.new) }
{
    let surveyed = survey(alloc, store, opened)?;
    if surveyed.losses.is_empty() {
        return Ok(surveyed);
    }
    let starts = recorded_starts(alloc, store, opened.names)?;
    let known = Opened {
        names: opened.names,
        next_instances: opened.next_instances,
        files: opened.files,
        strays: opened.strays,
        starts: &starts,
    };
    survey(alloc, store, &known)
}

/// Refuses a start on the folder at a path exactly where there is a reason to.
pub(crate) fn go_on(
    alloc: Global,
    path: &str,
    consent: Consent,
    surveyed: &Surveyed,
) -> Result<(), OperatorFault>
    ensures ok { IfOk result (λ _. start.why_refused consent surveyed.now ≡ None) }
    ensures err { IfErr result (λ fault. (cause : Cause) × (start.why_refused consent surveyed.now ≡ Some cause)
        × IsRefusedFor path.now cause surveyed.now fault) }
{
    match why_refused(consent, surveyed) {
        None => Ok(()),
        Some(Cause::Damage) => Err(refused(damage_text(alloc, path, &surveyed.losses))),
        Some(Cause::Strays) => Err(refused(stray_text(alloc, path, &surveyed.strays))),
    }
}

/// The fault of a start that is refused.
fn refused(text: Result<String, AllocError>) -> OperatorFault
    ensures ok { IfOk text (λ it. result ≡ OperatorFault.System it) }
    ensures memory { IfErr text (λ _. result ≡ OperatorFault.Memory) }
{
    match text {
        Ok(text) => OperatorFault::System(text),
        Err(_) => OperatorFault::Memory,
    }
}

/// Tells of the files that would lose whole batches, a line each, of the first ones, and how many there are more.
fn tell_losses<T: LineLog>(alloc: Global, path: &str, losses: &[Loss], lines: &mut T)
    ensures { TellsBare (loss_lines path.now losses.now) (T.logged lines.old) (T.logged lines.new) }
{
    tell_each(alloc, path, first_of(losses), lines);
    let more = losses.len().saturating_sub(MOST_TOLD) as u64;
    tell_bare_if(count_text(alloc, "and ", more, " files more", ""), lines);
}

/// The first losses of some.
fn first_of(losses: &[Loss]) -> &[Loss]
    ensures { result.now ≡ take 20 losses.now }
{
    if losses.len() > MOST_TOLD {
        &losses[..MOST_TOLD]
    } else {
        losses
    }
}

/// Tells of each of these files that it would lose whole batches.
fn tell_each<T: LineLog>(alloc: Global, path: &str, losses: &[Loss], lines: &mut T)
    ensures { TellsBare (map (loss_line path.now) losses.now) (T.logged lines.old) (T.logged lines.new) }
{
    for loss in losses {
        lines.tell_bare(loss_text(alloc, path, loss));
    }
}
