//! What a start on a data folder would find, told without one.

ghost use Rattle.std.specs.Prelude.{◌≡◌, ◌++◌, codes, map, option_map, string_bytes, IfOk, None, OnErr, OnOk, Option};
ghost use Rattle.std.specs.FinMap.{keys};
ghost use Rattle.std.specs.Io.KnownBytes.{Appends};
ghost use Rattle.kb_start.specs.Damaged.{damaged_files};
ghost use Rattle.kb_start.specs.Survey.{known_of, stray_at};
ghost use Rattle.kb_start.specs.Verdict as start;
ghost use Rattle.kb_store.specs.Disk.{Keeps};
ghost use Rattle.kb_operator.specs.Logged.{texts_of};
ghost use Rattle.kb_operator.specs.Report.{Looked, aside_lines, bytes_of_each, dropped_lines, dropped_of, lines_text, no_consent};
ghost use Rattle.kb_operator.specs.Report.{report_if, report_lines, report_text, seen_of, stray_if, verdict_lines};
ghost use Rattle.kb_operator.specs.Texts.{loss_line};
ghost use Rattle.kb_operator.specs.Written.{WritesFront};

use crate::deleted::deleted_text;
use crate::fault::OperatorFault;
use crate::folder::store_to_read;
use crate::journal::{Held, held_text};
use crate::refused::FolderJournal;
use crate::start::{go_on, look};
use crate::texts::{drop_text, loss_text, stray_line};
use crate::write::write_text;
use kb_start::{
    Cause, Consent, Deleted, Left, Loss, Opened, Surveyed, damaged_files, is_replaced, why_refused,
};
use kb_store::{Store, StoreFault};
use kb_survey::stray_among;
use std::alloc::{AllocError, Global};
use std::io::Write;

/// What was found in a folder: what a start would lose, and lines.
#[derive(Drop)]
struct Found {
    surveyed: Surveyed,
    dropped: Vec<String>,
    strays: Vec<String>,
}

/// Writes what a start on a journal's folder would find: what it has, which files of deleted topics it would remove, what it would drop of
/// each file, of which files it would lose whole batches, and which it would leave aside, and why. Where it would be refused the answer is
/// its fault. After a fault some front of that was written. The folder is only read.
pub fn write_report<W: Write>(
    rt: &HostRuntime,
    opened: &Opened<'_>,
    held: Held,
    deleted: &Deleted,
    folder: &FolderJournal,
    writer: &mut W,
) -> Result<(), OperatorFault>
    ensures ok { OnOk result ((seen : Looked) × (start.why_refused no_consent seen.surveyed ≡ None)
        × Appends (W.contents writer.old) (W.contents writer.new) (report_text (string_bytes folder.now.folder) held deleted.now seen)) }
    ensures err { OnErr result ((seen : Option Looked)
        × WritesFront (report_if (string_bytes folder.now.folder) held deleted.now seen) (W.contents writer.old) (W.contents writer.new)) }
{
    let (alloc, path) = (rt.alloc(), folder.folder());
    let mut store = store_to_read(rt, folder)?;
    let found = match look_through(alloc, path, &mut store, opened) {
        Ok(found) => found,
        Err(fault) => return Err(folder.of_store(alloc, fault)),
    };
    write_found(alloc, path, held, deleted, &found, writer)
}

/// Writes what was found in the folder at a path, and that a start goes on, or else why it is refused.
fn write_found<W: Write>(
    alloc: Global,
    path: &str,
    held: Held,
    deleted: &Deleted,
    found: &Found,
    writer: &mut W,
) -> Result<(), OperatorFault>
    ensures ok { OnOk result ((start.why_refused no_consent found.now.surveyed ≡ None)
        × Appends (W.contents writer.old) (W.contents writer.new) (report_text path.now held deleted.now (seen_of found.now))) }
    ensures err { OnErr result ((seen : Option Looked)
        × WritesFront (report_if path.now held deleted.now seen) (W.contents writer.old) (W.contents writer.new)) }
{
    let nothing = Consent {
        drop_damaged: false,
        accept_strays: false,
    };
    let mut text = found_text(alloc, path, held, deleted, found)?;
    push_verdict(&mut text, why_refused(nothing, &found.surveyed))?;
    write_text(writer, &text)?;
    go_on(alloc, path, nothing, &found.surveyed)
}

/// What was found in the folder at a path, as text.
fn found_text(
    alloc: Global,
    path: &str,
    held: Held,
    deleted: &Deleted,
    found: &Found,
) -> Result<String, AllocError>
    ensures { IfOk result (λ text. string_bytes text ≡ lines_text (report_lines path.now held deleted.now (seen_of found.now))) }
{
    let mut text = String::new(alloc);
    push_line(&mut text, &held_text(alloc, held)?)?;
    push_some(&mut text, &deleted_text(alloc, deleted)?)?;
    push_lines(&mut text, &found.dropped)?;
    push_losses(alloc, path, &mut text, &found.surveyed.losses)?;
    push_lines(&mut text, &found.strays)?;
    Ok(text)
}

/// Looks through the files of a store, which stands in the folder at a path.
fn look_through<S: Store>(
    alloc: Global,
    path: &str,
    store: &mut S,
    opened: &Opened<'_>,
) -> Result<Found, StoreFault>
    ensures dropped { let d = S.disk store.old in IfOk result (λ found. (S.disk store.new).honest
        → bytes_of_each found.dropped.items ≡ dropped_lines (damaged_files opened.now d) opened.now d opened.now.files.now) }
    ensures strays { IfOk result (λ found. (S.disk store.new).honest
        → bytes_of_each found.strays.items ≡ aside_lines path.now opened.now (S.disk store.old) opened.now.strays.now) }
    ensures unchanged { Keeps (S.disk store.old) (S.disk store.new) }
{
    let damaged = damaged_files(alloc, store, opened)?;
    let surveyed = look(alloc, store, opened)?;
    let dropped = dropped_texts(alloc, store, opened, &damaged)?;
    let strays = stray_texts(alloc, path, store, opened)?;
    Ok(Found {
        surveyed,
        dropped,
        strays,
    })
}

/// What an opening drops of the files of a store, of which some lose a damaged batch: a text for each.
pub(crate) fn dropped_texts<S: Store>(
    alloc: Global,
    store: &mut S,
    opened: &Opened<'_>,
    damaged: &[u64],
) -> Result<Vec<String>, StoreFault>
    ensures texts { IfOk result (λ texts. (S.disk store.new).honest
        → bytes_of_each texts.items ≡ dropped_lines damaged.now opened.now (S.disk store.old) opened.now.files.now) }
    ensures unchanged { Keeps (S.disk store.old) (S.disk store.new) }
{
    let mut texts = Vec::new(alloc);
    for file in opened.files {
        add_dropped(alloc, store, opened, damaged, file, &mut texts)?;
    }
    Ok(texts)
}

/// Adds what an opening drops of a file, if anything.
fn add_dropped<S: Store>(
    alloc: Global,
    store: &mut S,
    opened: &Opened<'_>,
    damaged: &[u64],
    file: &Left,
    texts: &mut Vec<String>,
) -> Result<(), StoreFault>
    ensures text { IfOk result (λ _. (S.disk store.new).honest → bytes_of_each texts.new.items
        ≡ bytes_of_each texts.old.items ++ dropped_of damaged.now opened.now (S.disk store.old) file.now) }
    ensures unchanged { Keeps (S.disk store.old) (S.disk store.new) }
{
    if !file.is_dropped() {
        return Ok(());
    }
    let is_replaced = is_replaced(alloc, store, opened, file.file)?;
    let is_damaged = damaged.contains(&file.file);
    texts.push(drop_text(alloc, file, is_replaced, is_damaged)?)?;
    Ok(())
}

/// Which files of the folder at a path an opening leaves aside, and why: a text for each.
fn stray_texts<S: Store>(
    alloc: Global,
    path: &str,
    store: &mut S,
    opened: &Opened<'_>,
) -> Result<Vec<String>, StoreFault>
    ensures texts { IfOk result (λ texts. (S.disk store.new).honest
        → bytes_of_each texts.items ≡ aside_lines path.now opened.now (S.disk store.old) opened.now.strays.now) }
    ensures unchanged { Keeps (S.disk store.old) (S.disk store.new) }
{
    let listed = store.list(alloc)?;
    let mut texts = Vec::new(alloc);
    add_strays(alloc, path, store, &listed, opened, &mut texts)?;
    Ok(texts)
}

/// Adds a text for each of these files.
fn add_strays<S: Store>(
    alloc: Global,
    path: &str,
    store: &mut S,
    listed: &[u64],
    opened: &Opened<'_>,
    texts: &mut Vec<String>,
) -> Result<(), StoreFault>
    requires { listed.now ≡ keys (S.disk store.old).table }
    ensures texts { IfOk result (λ _. (S.disk store.new).honest → bytes_of_each texts.new.items
        ≡ bytes_of_each texts.old.items ++ aside_lines path.now opened.now (S.disk store.old) opened.now.strays.now) }
    ensures unchanged { Keeps (S.disk store.old) (S.disk store.new) }
{
    for file in opened.strays {
        add_stray(alloc, path, store, listed, opened, *file, texts)?;
    }
    Ok(())
}

/// Adds why a file is left aside, where it is there.
fn add_stray<S: Store>(
    alloc: Global,
    path: &str,
    store: &mut S,
    listed: &[u64],
    opened: &Opened<'_>,
    file: u64,
    texts: &mut Vec<String>,
) -> Result<(), StoreFault>
    requires { listed.now ≡ keys (S.disk store.old).table }
    ensures text { IfOk result (λ _. (S.disk store.new).honest → bytes_of_each texts.new.items ≡ bytes_of_each texts.old.items
        ++ stray_if path.now file (stray_at (S.disk store.old) (known_of opened.now).names opened.now.next_instances.now file)) }
    ensures unchanged { Keeps (S.disk store.old) (S.disk store.new) }
{
    let (names, nexts) = (opened.names, opened.next_instances);
    if let Some(stray) = stray_among(alloc, store, listed, file, names, nexts)? {
        texts.push(stray_line(alloc, path, file, stray)?)?;
    }
    Ok(())
}

/// Adds of which files of the folder at a path whole batches would be lost.
fn push_losses(
    alloc: Global,
    path: &str,
    text: &mut String,
    losses: &[Loss],
) -> Result<(), AllocError>
    ensures { OnOk result (string_bytes text.new ≡ string_bytes text.old ++ lines_text (map (loss_line path.now) losses.now)) }
{
    for loss in losses {
        push_line(text, &loss_text(alloc, path, loss)?)?;
    }
    Ok(())
}

/// Adds a line, if there is one.
fn push_some(text: &mut String, line: &Option<String>) -> Result<(), AllocError>
    ensures { OnOk result (string_bytes text.new
        ≡ string_bytes text.old ++ lines_text (texts_of (option_map (λ it. string_bytes it) line.now))) }
{
    match line {
        Some(line) => push_line(text, line),
        None => Ok(()),
    }
}

/// Adds lines.
fn push_lines(text: &mut String, lines: &[String]) -> Result<(), AllocError>
    ensures { OnOk result (string_bytes text.new ≡ string_bytes text.old ++ lines_text (bytes_of_each lines.now)) }
{
    for line in lines {
        push_line(text, line)?;
    }
    Ok(())
}

/// Adds that a start goes on, where there is no cause to refuse it.
fn push_verdict(text: &mut String, cause: Option<Cause>) -> Result<(), AllocError>
    ensures { OnOk result (string_bytes text.new ≡ string_bytes text.old ++ lines_text (verdict_lines cause)) }
{
    match cause {
        None => push_line(text, "a start goes on"),
        Some(_) => Ok(()),
    }
}

/// Adds a line, with its end.
fn push_line(text: &mut String, line: &str) -> Result<(), AllocError>
    ensures { OnOk result (string_bytes text.new ≡ string_bytes text.old ++ (line.now ++ codes "\n")) }
{
    text.push_str(line)?;
    text.push_str("\n")
}
