//! `kbroker check`: what a file of settings comes to, and what a start on a data folder would find.

ghost use Rattle.std.specs.Prelude.{◌≡◌, ◌⊎◌, IfErr, IfOk, OnOk, option_map};
ghost use Rattle.std.specs.Io.KnownBytes.{Appends};
ghost use Rattle.kbroker.specs.Ended.{memory, unwritten, IsWords};
ghost use Rattle.kbroker.specs.Lines.{line_if};

use crate::open::{Start, report_on};
use crate::writing::{hand_on, write_text};
use crate::{Fault, command, config};
use clap::error::ErrorKind;
use clap::{Arg, ArgAction, ArgMatches, Command};
use kb_disk::disk_to_read;
use kb_node::Listing;
use kb_operator::{
    FolderJournal, OperatorFault, data_folder, disk_text, is_folder, look_into, settings_of,
    settings_of_files, write_settings,
};
use kb_start::Consent;
use std::alloc::{AllocError, Global};
use std::io;
use std::io::{BufWriter, Write};

/// What `clap` reads the words behind `check` by.
pub fn check_command<'a>(alloc: Global) -> Result<Command<'a>, AllocError> {
    let data = Arg::new(alloc, "data")
        .long("data")
        .value_name("FOLDER")
        .help("A data folder: says what a start on it would find, and changes nothing")
        .action(ArgAction::Set);
    Command::new(alloc, "check")
        .about(
            "Says what settings come to, or which key is wrong, or what a start on a data folder would find",
        )
        .arg(config(alloc))?
        .arg(data)
}

/// Says what the settings of a file come to, or what a start on a data folder would find.
pub fn check(rt: &HostRuntime, found: &ArgMatches<'_>) -> Result<(), Fault> {
    match (found.get_str("data"), found.get_str("config")) {
        (Some(folder), config) => check_data(rt, folder, config),
        (None, Some(config)) => check_settings(rt, config),
        (None, None) => Err(nothing_named(rt.alloc())?),
    }
}

/// The fault of a command line that names neither a file nor a folder, with the program's usage.
fn nothing_named(alloc: Global) -> Result<Fault, Fault>
    ensures { IfOk result (IsWords ErrorKind.MissingRequiredArgument) }
{
    let text = "check wants --config FILE or --data FOLDER";
    let fault = command(alloc)?.error(ErrorKind::MissingRequiredArgument, text)?;
    Ok(Fault::Words(fault))
}

/// Says what the settings of a file come to, judged as `serve` judges them: they name a data folder.
fn check_settings(rt: &HostRuntime, path: &str) -> Result<(), Fault> {
    let alloc = rt.alloc();
    let settings = settings_of(rt, path)?;
    let folder = data_folder(alloc, &settings)?;
    let Ok(mut writer) = BufWriter::new(alloc, io::writer(rt)) else {
        return Err(Fault::Operator(OperatorFault::Memory));
    };
    write_settings(alloc, &settings, folder, &mut writer)?;
    let short = disk_text(rt, &settings, folder)?;
    let written = write_short(alloc, short.as_deref(), &mut writer);
    hand_on(&mut writer, written)
}

/// Writes the line on a disk that has less than all tenants may store together, where there is one.
fn write_short<W: Write>(alloc: Global, short: Option<&str>, writer: &mut W) -> Result<(), Fault>
    ensures ok { OnOk result (Appends (W.contents writer.old) (W.contents writer.new) (line_if (option_map (λ t. t.now) short.entry))) }
    ensures err { IfErr result (λ fault. (fault ≡ unwritten) ⊎ (fault ≡ memory)) }
{
    match short {
        Some(text) => write_text(&format!(in alloc; "{text}\n")?, writer),
        None => Ok(()),
    }
}

/// Says what a start on a folder would find, and changes nothing. The tenants are those of the settings in a file, or else those that the
/// folder's files name. One that a process serves, or that is not there, is a fault.
fn check_data(rt: &HostRuntime, path: &str, config: Option<&str>) -> Result<(), Fault> {
    let alloc = rt.alloc();
    if !is_folder(rt, path) {
        return Err(Fault::NoFolder(String::from_str(alloc, path)?));
    }
    let _held = look_into(rt, path)?;
    let folder = FolderJournal::new(alloc, path, true)?;
    let settings = match config {
        Some(config) => settings_of(rt, config)?,
        None => settings_of_files(rt, &folder)?,
    };
    let start = Start {
        settings: &settings,
        listing: Listing::Served,
        consent: Consent::default(),
    };
    let disk = disk_to_read(rt, &settings, &folder)?;
    let Ok(mut writer) = BufWriter::new(alloc, io::writer(rt)) else {
        return Err(Fault::Operator(OperatorFault::Memory));
    };
    let short = disk_text(rt, &settings, path)?;
    write_short(alloc, short.as_deref(), &mut writer)?;
    let reported = report_on(rt, start, disk, &folder, &mut writer);
    hand_on(&mut writer, reported)
}
