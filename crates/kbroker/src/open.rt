//! The opening of a data folder, and what refuses it.

ghost use Rattle.std.specs.Prelude.{◌≡◌, ◌++◌, IfOk, OnErr, OnOk, Some, codes, string_bytes};
ghost use Rattle.std.specs.FinMap.{get};
ghost use Rattle.std.specs.List.{flat_map};
ghost use Rattle.kb_tenants.specs.Members.{HaveNoGroup};
ghost use Rattle.kb_broker.specs.Opening.{opening_over};
ghost use Rattle.kb_restart.specs.Restart.{have_nothing_refused};
ghost use Rattle.kbroker.specs.Ended.{memory};
ghost use Rattle.kbroker.specs.Found.{held_of, left_of, HaveLengths};
ghost use Rattle.kbroker.specs.Reported.{IsReported, IsReportedInPart};
ghost use Rattle.kbroker.specs.Words.{IsFlag};

use crate::Fault;
use clap::{Arg, ArgAction, ArgMatches, Command};
use kb_broker::{OpenFault, TenantView};
use kb_node::{Listing, Settings, tenant_names};
use kb_operator::{
    FolderJournal, Held, Journal, OperatorFault, examine, find_deleted, store_to_read, write_report,
};
use kb_restart::{Counts, FileLength, Restarted, file_lengths, open_broker};
use kb_server_log::now;
use kb_start::{CatalogOf, Consent, Deleted, Left, Opened, Total, remove_files};
use kb_survey::PutsOff;
use std::alloc::{AllocError, Global};
use std::io::Write;

/// What the command line says that a start goes on without.
pub fn consent_of(found: &ArgMatches<'_>) -> Consent
    ensures drop_damaged { IsFlag found.now (codes "drop-damaged") result.drop_damaged }
    ensures accept_strays { IsFlag found.now (codes "accept-strays") result.accept_strays }
{
    Consent {
        drop_damaged: found.get_flag("drop-damaged"),
        accept_strays: found.get_flag("accept-strays"),
    }
}

/// A command whose line says what a start goes on without.
pub fn with_consent<'a>(alloc: Global, command: Command<'a>) -> Result<Command<'a>, AllocError> {
    let drop_damaged = Arg::new(alloc, "drop-damaged")
        .long("drop-damaged")
        .help("Goes on without the whole batches that stand behind damage, and drops them")
        .action(ArgAction::SetTrue);
    let accept_strays = Arg::new(alloc, "accept-strays")
        .long("accept-strays")
        .help(
            "Goes on without files that the settings do not fit, and keeps them in a folder of their own",
        )
        .action(ArgAction::SetTrue);
    command.arg(drop_damaged)?.arg(accept_strays)
}

/// What a start on a data folder goes by.
#[derive(Clone, Copy)]
pub struct Start<'a> {
    pub settings: &'a Settings,
    pub listing: Listing,
    pub consent: Consent,
}

/// Opens the broker of a journal's folder, whose store that is, and says what it has. Where its files are a reason not to, the start is
/// refused, and nothing was changed. It goes on without those that were set aside.
pub fn open_on<S: PutsOff + Drop>(
    rt: &HostRuntime,
    start: Start<'_>,
    store: S,
    folder: &FolderJournal,
    journal: &mut Journal,
) -> Result<(Restarted<S>, Held), Fault>
    ensures fixed { IfOk result (λ opened. opened.0.broker.state
        ≡ opening_over start.entry.listing start.entry.settings.now opened.0.broker.state.tenants) }
    ensures calm { IfOk result (λ opened. have_nothing_refused opened.0.broker.state.tenants) }
    ensures no_groups { IfOk result (λ opened. HaveNoGroup opened.0.broker.state.tenants) }
{
    let alloc = rt.alloc();
    let (opened, mut files, deleted) = open_over(rt, start, store, folder)?;
    let names = tenant_names(alloc, &start.settings.users)?;
    let known = known(&names, &opened, &files);
    let aside = examine(rt, &known, start.consent, folder, journal)?;
    journal.tell_deleted(alloc, now(rt), &deleted);
    if aside.is_empty() {
        let held = held(opened.counts, &files);
        return Ok((opened, held));
    }
    let opened = open_without(alloc, start, opened, &aside, folder)?;
    files.retain(|left| !aside.contains(&left.file));
    let held = held(opened.counts, &files);
    Ok((opened, held))
}

/// Writes what a start on a journal's folder, whose store that is, would find. Where it would be refused the answer is its fault. After a
/// fault some front of that was written, or nothing.
pub fn report_on<S: PutsOff + Drop, W: Write>(
    rt: &HostRuntime,
    start: Start<'_>,
    store: S,
    folder: &FolderJournal,
    writer: &mut W,
) -> Result<(), Fault>
    ensures ok { OnOk result (IsReported (string_bytes folder.now.folder) (W.contents writer.old) (W.contents writer.new)) }
    ensures err { OnErr result (IsReportedInPart (string_bytes folder.now.folder) (W.contents writer.old) (W.contents writer.new)) }
{
    let alloc = rt.alloc();
    let (opened, files, deleted) = open_over(rt, start, store, folder)?;
    let names = tenant_names(alloc, &start.settings.users)?;
    let known = known(&names, &opened, &files);
    let held = held(opened.counts, &files);
    Ok(write_report(rt, &known, held, &deleted, folder, writer)?)
}

/// Opens the broker of a journal's folder, whose store that is, without the files of deleted topics. It says what is left of each other
/// file, and which those are.
fn open_over<S: PutsOff + Drop>(
    rt: &HostRuntime,
    start: Start<'_>,
    mut store: S,
    folder: &FolderJournal,
) -> Result<(Restarted<S>, Vec<Left>, Deleted), Fault>
    ensures fixed { IfOk result (λ opened. opened.0.broker.state
        ≡ opening_over start.entry.listing start.entry.settings.now opened.0.broker.state.tenants) }
    ensures calm { IfOk result (λ opened. have_nothing_refused opened.0.broker.state.tenants) }
    ensures no_groups { IfOk result (λ opened. HaveNoGroup opened.0.broker.state.tenants) }
{
    let alloc = rt.alloc();
    let before = match file_lengths(alloc, &mut store) {
        Ok(before) => before,
        Err(fault) => return Err(Fault::Operator(folder.of_store(alloc, fault))),
    };
    let (opened, deleted) = open_without_deleted(rt, start, store, folder)?;
    let files = files_left(alloc, opened.broker.store(), &before, &deleted.files)?;
    Ok((opened, files, deleted))
}

/// Opens the broker of a journal's folder, whose store that is. Files of deleted topics are removed from the store, and it is opened again
/// without them. Removals are put off as all that an opening does.
fn open_without_deleted<S: PutsOff + Drop>(
    rt: &HostRuntime,
    start: Start<'_>,
    store: S,
    folder: &FolderJournal,
) -> Result<(Restarted<S>, Deleted), Fault>
    ensures fixed { IfOk result (λ opened. opened.0.broker.state
        ≡ opening_over start.entry.listing start.entry.settings.now opened.0.broker.state.tenants) }
    ensures calm { IfOk result (λ opened. have_nothing_refused opened.0.broker.state.tenants) }
    ensures no_groups { IfOk result (λ opened. HaveNoGroup opened.0.broker.state.tenants) }
{
    let alloc = rt.alloc();
    let opened = open_store(alloc, start, store, folder)?;
    let deleted = deleted_in(rt, &opened, folder)?;
    if deleted.files.is_empty() {
        return Ok((opened, deleted));
    }
    let opened = open_without(alloc, start, opened, &deleted.files, folder)?;
    Ok((opened, deleted))
}

/// Opens a broker's store again, without some files, which are removed from it.
fn open_without<S: PutsOff + Drop>(
    alloc: Global,
    start: Start<'_>,
    opened: Restarted<S>,
    files: &[u64],
    folder: &FolderJournal,
) -> Result<Restarted<S>, Fault>
    ensures fixed { IfOk result (λ opened. opened.broker.state
        ≡ opening_over start.entry.listing start.entry.settings.now opened.broker.state.tenants) }
    ensures calm { IfOk result (λ opened. have_nothing_refused opened.broker.state.tenants) }
    ensures no_groups { IfOk result (λ opened. HaveNoGroup opened.broker.state.tenants) }
{
    let mut store = opened.broker.into_store();
    if let Err(fault) = remove_files(alloc, &mut store, files) {
        return Err(Fault::Operator(folder.of_store(alloc, fault)));
    }
    open_store(alloc, start, store, folder)
}

/// Opens the broker of a journal's folder, whose store that is.
fn open_store<S: PutsOff + Drop>(
    alloc: Global,
    start: Start<'_>,
    store: S,
    folder: &FolderJournal,
) -> Result<Restarted<S>, Fault>
    ensures fixed { IfOk result (λ opened. opened.broker.state
        ≡ opening_over start.entry.listing start.entry.settings.now opened.broker.state.tenants) }
    ensures calm { IfOk result (λ opened. have_nothing_refused opened.broker.state.tenants) }
    ensures no_groups { IfOk result (λ opened. HaveNoGroup opened.broker.state.tenants) }
{
    match open_broker(alloc, start.settings, start.listing, store) {
        Ok(opened) => Ok(opened),
        Err(refused) => Err(not_opened(alloc, folder, refused.fault)),
    }
}

/// The files of deleted topics among those that are of no log of a broker, by the catalogs of its tenants.
fn deleted_in<S: PutsOff + Drop>(
    rt: &HostRuntime,
    opened: &Restarted<S>,
    folder: &FolderJournal,
) -> Result<Deleted, Fault> {
    let mut catalogs = Vec::new(rt.alloc());
    for place in 0..opened.broker.tenants_len() {
        if let Some(view) = opened.broker.tenant(place) {
            let TenantView {
                name,
                parts,
                groups: _,
                store_refusals: _,
                over: _,
            } = view;
            catalogs.push(CatalogOf {
                tenant: name,
                catalog: parts.catalog(),
            })?;
        }
    }
    Ok(find_deleted(rt, folder, &catalogs, &opened.strays)?)
}

/// What is known of an opening that left those files.
fn known<'a, S: PutsOff + Drop>(
    names: &'a [&'a str],
    opened: &'a Restarted<S>,
    files: &'a [Left],
) -> Opened<'a>
    ensures names { result.names.now ≡ names.now }
    ensures instances { result.next_instances.now ≡ opened.now.next_instances.items }
    ensures files { result.files.now ≡ files.now }
    ensures strays { result.strays.now ≡ opened.now.strays.items }
{
    Opened {
        names,
        next_instances: &opened.next_instances,
        files,
        strays: &opened.strays,
        starts: &[],
    }
}

/// The fault of a broker that does not open on a folder.
fn not_opened(alloc: Global, folder: &FolderJournal, fault: OpenFault) -> Fault
    ensures { fault ≡ OpenFault.Memory → result ≡ memory }
{
    Fault::Operator(match fault {
        OpenFault::Store => folder.store_fault(alloc),
        OpenFault::Memory => OperatorFault::Memory,
    })
}

/// What is left of the files that a store had, but for those of deleted topics.
fn files_left<S: PutsOff>(
    alloc: Global,
    store: &S,
    before: &[FileLength],
    deleted: &[u64],
) -> Result<Vec<Left>, AllocError>
    ensures { IfOk result (λ files. HaveLengths (S.inside store.now).table before.now
        → files.items ≡ flat_map (left_of (S.disk store.now).table deleted.now) before.now) }
{
    let mut files = Vec::new(alloc);
    for file in before {
        add_left(store, deleted, file, &mut files)?;
    }
    Ok(files)
}

/// Adds what is left of a file that a store had, unless it is of a deleted topic.
fn add_left<S: PutsOff>(
    store: &S,
    deleted: &[u64],
    file: &FileLength,
    files: &mut Vec<Left>,
) -> Result<(), AllocError>
    ensures { OnOk result (get (S.inside store.now).table file.now.file ≡ Some file.now.length
        → files.new.items ≡ files.old.items ++ left_of (S.disk store.now).table deleted.now file.now) }
{
    if !deleted.contains(&file.file) {
        files.push(Left {
            file: file.file,
            before: file.length,
            after: store.bytes_left(file.file, file.length),
        })?;
    }
    Ok(())
}

/// What a broker that opened has, and what it leaves now of the files in its journal's folder.
pub fn held_now<S: PutsOff + Drop>(
    rt: &HostRuntime,
    opened: &Restarted<S>,
    folder: &FolderJournal,
) -> Result<Held, Fault> {
    let alloc = rt.alloc();
    let mut store = store_to_read(rt, folder)?;
    match file_lengths(alloc, &mut store) {
        Ok(there) => {
            let files = files_left(alloc, opened.broker.store(), &there, &[])?;
            Ok(held(opened.counts, &files))
        }
        Err(fault) => Err(Fault::Operator(folder.of_store(alloc, fault))),
    }
}

/// What a broker has that opened with those files.
fn held(counts: Counts, files: &[Left]) -> Held
    ensures { result ≡ held_of counts files.now }
{
    let Counts {
        tenants,
        topics,
        partitions,
        strays,
    } = counts;
    Held {
        tenants,
        topics,
        partitions,
        strays,
        files: Total::of(files),
    }
}
