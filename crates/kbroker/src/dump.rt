//! `kbroker dump`: what the files of a data folder hold.

ghost use Rattle.std.specs.Prelude.{IfErr, OnOk, OnErr};
ghost use Rattle.std.specs.FinMap.{keys};
ghost use Rattle.std.specs.Io.KnownBytes.{Appends};
ghost use Rattle.kb_store.specs.Disk.{Keeps};
ghost use Rattle.kb_dump.specs.Dump.{dump_text, WritesFront};
ghost use Rattle.kbroker.specs.Dumped.{IsBlamed, IsOfDump};

use crate::Fault;
use clap::{Arg, ArgAction, ArgMatches, Command};
use kb_dump::DumpFault;
use kb_operator::{FolderJournal, OperatorFault, is_folder, store_to_read};
use kb_store::Store;
use std::alloc::{AllocError, Global};
use std::io;
use std::io::{BufWriter, Write};

/// What `clap` reads the words behind `dump` by.
pub fn dump_command<'a>(alloc: Global) -> Result<Command<'a>, AllocError> {
    let folder = Arg::new(alloc, "folder")
        .value_name("FOLDER")
        .help("The data folder")
        .required(true)
        .action(ArgAction::Set);
    Command::new(alloc, "dump")
        .about("Prints what the files of a data folder hold, and changes nothing")
        .arg(folder)
}

/// Prints the files of a folder as text. One that is not there is a fault, and is not made.
pub fn dump(rt: &HostRuntime, found: &ArgMatches<'_>) -> Result<(), Fault> {
    let alloc = rt.alloc();
    let path = found.get_str("folder").unwrap_or("");
    if !is_folder(rt, path) {
        return Err(Fault::NoFolder(String::from_str(alloc, path)?));
    }
    let folder = FolderJournal::new(alloc, path, true)?;
    let mut store = store_to_read(rt, &folder)?;
    let Ok(mut writer) = BufWriter::new(alloc, io::writer(rt)) else {
        return Err(Fault::Operator(OperatorFault::Memory));
    };
    write_files(alloc, &folder, &mut store, &mut writer)
}

/// Writes the files of a store as text, which are those of a journal's folder, and hands on what was written: what a fault left, too.
///
/// The store is only read. After a fault some front of the text has been written.
fn write_files<S: Store, W: Write>(
    alloc: Global,
    folder: &FolderJournal,
    store: &mut S,
    writer: &mut W,
) -> Result<(), Fault>
    ensures ok { OnOk result ((S.disk store.new).honest
        → Appends (W.contents writer.old) (W.contents writer.new) (dump_text (keys (S.disk store.old).table) (S.disk store.old).files)) }
    ensures err { OnErr result ((S.disk store.new).honest
        → WritesFront (dump_text (keys (S.disk store.old).table) (S.disk store.old).files) (W.contents writer.old)
        (W.contents writer.new)) }
    ensures unchanged { Keeps (S.disk store.old) (S.disk store.new) }
    ensures cause { IfErr result (IsBlamed (S.disk store.old).failures (S.disk store.new).failures) }
{
    let dumped = kb_dump::dump(alloc, store, writer);
    // What was written before a fault is handed on too.
    if writer.flush().is_err() {
        return Err(Fault::Operator(OperatorFault::Write));
    }
    match dumped {
        Ok(()) => Ok(()),
        Err(fault) => Err(Fault::Operator(dump_fault(alloc, folder, fault))),
    }
}

/// What a fault of a dump is to the program.
fn dump_fault(alloc: Global, folder: &FolderJournal, fault: DumpFault) -> OperatorFault
    ensures { IsOfDump fault result }
{
    match fault {
        DumpFault::Store => folder.store_fault(alloc),
        DumpFault::Memory => OperatorFault::Memory,
        DumpFault::Write => OperatorFault::Write,
    }
}
