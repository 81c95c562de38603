//! What is told of the files of a data folder, and of a start that is refused.

ghost use Rattle.std.specs.Prelude.{◌≡◌, ◌++◌, ◌-◌, IfOk, OnOk, string_bytes};
ghost use Rattle.std.specs.List.{flat_map};
ghost use Rattle.kb_operator.specs.FileNames.{name_of, path_of};
ghost use Rattle.kb_operator.specs.Sums.{told};
ghost use Rattle.kb_operator.specs.Texts.{batches_lost, bytes_lost, damage_mark, damage_text, damage_words, drop_line, files_of_all};
ghost use Rattle.kb_operator.specs.Texts.{loss_line, owner_text, partition_text, later_part, stray_cause, stray_line};
ghost use Rattle.kb_operator.specs.Texts.{stray_text, unknown_part};

use kb_folder::file_name;
use kb_start::{Left, Loss, StrayCounts};
use kb_survey::{Stray, Whole};
use std::alloc::{AllocError, Global};
use std::collections::BTreeMap;

/// The path of a file of the folder at a path.
pub(crate) fn path_of(alloc: Global, folder: &str, file: u64) -> Result<String, AllocError>
    ensures { IfOk result (λ text. string_bytes text ≡ path_of folder.now file) }
{
    let name = name_of(alloc, file)?;
    format!(in alloc; "{folder}/{name}")
}

/// The name of a file.
#[tactic(auto, using(crate::proofs::FileNames::named))]
fn name_of(alloc: Global, file: u64) -> Result<String, AllocError>
    ensures { IfOk result (λ text. string_bytes text ≡ name_of file) }
{
    file_name(alloc, file)
}

/// What a file of the folder at a path would lose.
pub(crate) fn loss_text(alloc: Global, path: &str, loss: &Loss) -> Result<String, AllocError>
    ensures { IfOk result (λ text. string_bytes text ≡ loss_line path.now loss.now) }
{
    let file = path_of(alloc, path, loss.file)?;
    let owner = owner_text(alloc, loss)?;
    let Whole { batches, bytes } = loss.whole;
    format!(in alloc; "{file}: {owner}: {batches} whole batches, {bytes} bytes")
}

/// Whose a file is.
fn owner_text(alloc: Global, loss: &Loss) -> Result<String, AllocError>
    ensures { IfOk result (λ text. string_bytes text ≡ owner_text loss.now.header) }
{
    let Some(header) = &loss.header else {
        return String::from_str(alloc, "its header cannot be read");
    };
    let tenant = header.tenant();
    if header.kind() == 0 {
        let text = partition_text(alloc, tenant, header.instance(), header.partition())?;
        return Ok(text);
    }
    let text = format!(in alloc; "tenant {tenant}, its catalog")?;
    Ok(text)
}

/// A partition of a tenant's topic.
fn partition_text(
    alloc: Global,
    tenant: &str,
    instance: i64,
    partition: i32,
) -> Result<String, AllocError>
    ensures { IfOk result (λ text. string_bytes text ≡ partition_text tenant.now instance partition) }
{
    format!(in alloc; "tenant {tenant}, topic number {instance}, partition {partition}")
}

/// Why a start on the folder at a path is refused that would lose whole batches.
pub(crate) fn damage_text(alloc: Global, path: &str, losses: &[Loss]) -> Result<String, AllocError>
    ensures { IfOk result (λ text. string_bytes text ≡ damage_text path.now losses.now) }
{
    let Whole { batches, bytes } = lost(losses);
    let text = damage_words(alloc, path, losses.len(), batches, bytes)?;
    Ok(text)
}

/// Why a start on the folder at a path is refused of which so many files would lose so much.
fn damage_words(
    alloc: Global,
    path: &str,
    files: usize,
    batches: u64,
    bytes: u64,
) -> Result<String, AllocError>
    ensures { IfOk result (λ text. string_bytes text ≡ damage_words path.now files batches bytes) }
{
    format!(in alloc;
        "the folder {path} has damage: {files} files would lose {batches} whole batches ({bytes} bytes). Nothing was changed. Copy the \
        folder first; then start with --drop-damaged to go on without them: they are kept in a folder of their own."
    )
}

/// How many whole batches some files would lose together.
fn lost(losses: &[Loss]) -> Whole
    ensures batches { result.batches ≡ told (batches_lost losses.now) }
    ensures bytes { result.bytes ≡ told (bytes_lost losses.now) }
{
    let mut lost = Whole {
        batches: 0,
        bytes: 0,
    };
    for loss in losses {
        lost.batches = lost.batches.saturating_add(loss.whole.batches);
        lost.bytes = lost.bytes.saturating_add(loss.whole.bytes);
    }
    lost
}

/// Why a start on the folder at a path is refused that files are in the way of.
pub(crate) fn stray_text(
    alloc: Global,
    path: &str,
    strays: &StrayCounts,
) -> Result<String, AllocError>
    ensures { IfOk result (λ text. string_bytes text ≡ stray_text path.now strays.now.unfit strays.now.never_given_out.entries) }
{
    let files = strays.unfit;
    let mut text = format!(in alloc;
        "the folder {path} has {files} files that the settings do not fit"
    )?;
    push_unknown(alloc, &mut text, &strays.never_given_out)?;
    push_later(
        alloc,
        &mut text,
        later_files(files, &strays.never_given_out),
    )?;
    text.push_str(
        ". Nothing was changed. Restore all files of a backup together into an empty folder, or start with --accept-strays to go on \
        without them: they are kept in a folder of their own.",
    )?;
    Ok(text)
}

/// Adds how many files of each tenant are of topics that its catalog does not know yet.
fn push_unknown(
    alloc: Global,
    text: &mut String,
    unknown: &BTreeMap<String, u64>,
) -> Result<(), AllocError>
    ensures { OnOk result (string_bytes text.new ≡ string_bytes text.old ++ flat_map unknown_part unknown.now.entries) }
{
    for (tenant, files) in unknown {
        let part = unknown_text(alloc, tenant, *files)?;
        text.push_str(&part)?;
    }
    Ok(())
}

/// So many files of a tenant are of topics that its catalog does not know yet.
fn unknown_text(alloc: Global, tenant: &String, files: u64) -> Result<String, AllocError>
    ensures { IfOk result (λ text. string_bytes text ≡ unknown_part (tenant.now, files)) }
{
    format!(in alloc; ", {files} of topics that the catalog of tenant {tenant} does not know yet")
}

/// How many of some files are of no tenant's topics.
fn later_files(files: u64, unknown: &BTreeMap<String, u64>) -> u64
    ensures { result ≡ files - files_of_all unknown.now.entries }
{
    let mut later = files;
    for (_, files) in unknown {
        later = later.saturating_sub(*files);
    }
    later
}

/// Adds how many files have a header of a later version, if any do.
fn push_later(alloc: Global, text: &mut String, later: u64) -> Result<(), AllocError>
    ensures { OnOk result (string_bytes text.new ≡ string_bytes text.old ++ later_part later) }
{
    if later == 0 {
        return Ok(());
    }
    text.push_str(&format!(in alloc; ", {later} with a header of a later version")?)
}

/// What an opening drops of a file, of whose generation of a catalog a greater one may have taken the place, or which may lose a damaged
/// batch.
pub(crate) fn drop_text(
    alloc: Global,
    left: &Left,
    is_replaced: bool,
    is_damaged: bool,
) -> Result<String, AllocError>
    ensures { IfOk result (λ text. string_bytes text ≡ drop_line left.now is_replaced is_damaged) }
{
    let (file, before) = (left.file, left.before);
    let mark = damage_mark(is_damaged);
    match left.after {
        Some(after) => {
            let bytes = before.saturating_sub(after);
            format!(in alloc; "dropped file {file}: {bytes} bytes behind the end of its log{mark}")
        }
        None if is_replaced => format!(in alloc;
            "dropped file {file} whole, {before} bytes: a snapshot took the place of this part of a catalog"
        ),
        None => format!(in alloc;
            "dropped file {file} whole, {before} bytes: nothing in it is of its log{mark}"
        ),
    }
}

/// What stands behind an end that may be of a damaged batch.
fn damage_mark(is_damaged: bool) -> &'static str
    ensures { result.now ≡ damage_mark is_damaged }
{
    if is_damaged {
        ", maybe with a damaged batch"
    } else {
        ""
    }
}

/// Why a file of the folder at a path is left aside.
pub(crate) fn stray_line(
    alloc: Global,
    path: &str,
    file: u64,
    stray: Stray,
) -> Result<String, AllocError>
    ensures { IfOk result (λ text. string_bytes text ≡ stray_line path.now file stray) }
{
    let file = path_of(alloc, path, file)?;
    let cause = stray_cause(stray);
    format!(in alloc; "{file}: stray: {cause}")
}

/// Why a file is of no log, in words.
fn stray_cause(stray: Stray) -> &'static str
    ensures { result.now ≡ stray_cause stray }
{
    match stray {
        Stray::Short => "it is shorter than a header",
        Stray::Unreadable => "its header cannot be read",
        Stray::LaterVersion => "its header is of a later version",
        Stray::OfNobody => "no user names its tenant",
        Stray::NeverGivenOut => "the catalog of its tenant does not know its topic yet",
        Stray::Unfinished => "it is of a snapshot of a catalog that was not finished",
        Stray::OfNoTopic => "its topic or its partition is not there any more",
    }
}
