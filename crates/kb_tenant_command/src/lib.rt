//! `kbroker tenant`: takes a tenant's files from one data folder to another, or away.
//!
//! [`tenant_command`] is what the command line is read by, and [`tenant`] does what it asks for: copies by `kb_move`, removals by
//! `kb_start`. No broker serves the folders meanwhile. What comes of it is printed.
#![tactic(auto)]

mod files;
mod laws;

use clap::{Arg, ArgAction, ArgMatches, Command};
use files::{copy_to_last, remove_tenant};
use kb_folder::{FolderFault, FolderStore, HostFolder};
use kb_move::{Copied, MoveFault, tenant_files};
use kb_operator::{
    DataStore, FolderJournal, OperatorFault, hold, is_folder, look_into, store_to_read,
    store_to_serve,
};
use kb_store::StoreFault;
pub use laws::removals_leave_the_others;
use std::alloc::{AllocError, Global};
use std::fs::File;
use std::io;
use thiserror::Error;

/// Why a tenant does not go to another folder.
#[derive(Debug, Drop, Error)]
pub enum TenantFault {
    /// A folder is served, or the system refuses something.
    #[error("{0}")]
    Operator(OperatorFault),
    /// There is no folder at this path.
    #[error("kbroker: no folder {0}")]
    NoFolder(String),
    /// There is something at the path of a folder that is to be made.
    #[error("kbroker: {0} is there already: an export makes a folder of its own")]
    IsThere(String),
    /// The files of this tenant would go, and nobody said that they shall.
    #[error("kbroker: this removes all files of tenant {0} for good: say --yes")]
    Unasked(String),
    /// The files themselves are in the way.
    #[error("kbroker: tenant {tenant}: {fault} in {folder}")]
    Files {
        tenant: String,
        fault: MoveFault,
        folder: String,
    },
}

impl From<AllocError> for TenantFault {
    fn from(_e: AllocError) -> TenantFault {
        TenantFault::Operator(OperatorFault::Memory)
    }
}

impl From<OperatorFault> for TenantFault {
    fn from(e: OperatorFault) -> TenantFault {
        TenantFault::Operator(e)
    }
}

/// What `clap` reads the words behind `tenant` by.
pub fn tenant_command<'a>(alloc: Global) -> Result<Command<'a>, AllocError> {
    let export = Command::new(alloc, "export")
        .about("Copies a tenant's files from a data folder into a new folder")
        .arg(named(alloc, "data", "FOLDER", "The data folder"))?
        .arg(named(alloc, "tenant", "NAME", "The tenant"))?
        .arg(folder(alloc, "to", "TO", "The folder that is made"))?;
    let import = Command::new(alloc, "import")
        .about("Copies a tenant's files from a folder into a data folder that has none of it")
        .arg(named(alloc, "data", "FOLDER", "The data folder"))?
        .arg(named(alloc, "tenant", "NAME", "The tenant"))?
        .arg(folder(
            alloc,
            "from",
            "FROM",
            "The folder that an export made, or a data folder",
        ))?;
    let yes = Arg::new(alloc, "yes")
        .long("yes")
        .help("They are removed for good")
        .action(ArgAction::SetTrue);
    let remove = Command::new(alloc, "remove")
        .about("Removes a tenant's files from a data folder")
        .arg(named(alloc, "data", "FOLDER", "The data folder"))?
        .arg(named(alloc, "tenant", "NAME", "The tenant"))?
        .arg(yes)?;
    Command::new(alloc, "tenant")
        .about(
            "Takes a tenant's files from one data folder to another, or away, while no broker serves it",
        )
        .subcommand_required(true)
        .subcommand(export)?
        .subcommand(import)?
        .subcommand(remove)
}

/// An argument with a name, which has to be given.
fn named<'a>(alloc: Global, name: &'a str, value: &'a str, help: &'a str) -> Arg<'a> {
    folder(alloc, name, value, help).long(name)
}

/// An argument that has to be given.
fn folder<'a>(alloc: Global, name: &'a str, value: &'a str, help: &'a str) -> Arg<'a> {
    Arg::new(alloc, name)
        .value_name(value)
        .help(help)
        .required(true)
        .action(ArgAction::Set)
}

/// Takes a tenant's files from one folder to another, or away, and prints what came of it.
pub fn tenant(rt: &HostRuntime, found: &ArgMatches<'_>) -> Result<(), TenantFault> {
    let Some((verb, found)) = found.subcommand() else {
        return Ok(());
    };
    let data = found.get_str("data").unwrap_or("");
    let name = found.get_str("tenant").unwrap_or("");
    let told = match verb {
        "export" => tell_copied(
            rt,
            name,
            export(rt, name, data, found.get_str("to").unwrap_or(""))?,
        ),
        "import" => tell_copied(
            rt,
            name,
            import(rt, name, found.get_str("from").unwrap_or(""), data)?,
        ),
        _ => {
            let files = remove(rt, name, data, found.get_flag("yes"))?;
            println!(rt; "tenant {name}: removed files {files}")
        }
    };
    match told {
        Ok(()) => Ok(()),
        Err(_) => Err(TenantFault::Operator(OperatorFault::Write)),
    }
}

/// Prints what was copied of a tenant.
fn tell_copied(rt: &HostRuntime, tenant: &str, copied: Copied) -> io::Result<()> {
    let Copied {
        first,
        files,
        bytes,
    } = copied;
    println!(rt; "tenant {tenant}: files {files}, bytes {bytes}, from number {first} on")
}

/// Takes a tenant's files from a data folder into a folder that is made. There is nothing but these files in it.
fn export(rt: &HostRuntime, tenant: &str, from: &str, to: &str) -> Result<Copied, TenantFault> {
    let alloc = rt.alloc();
    if is_folder(rt, to) {
        return Err(TenantFault::IsThere(String::from_str(alloc, to)?));
    }
    let mut source = Source::open(rt, tenant, from)?;
    let _held = hold(rt, to)?;
    let journal = FolderJournal::new(alloc, to, true)?;
    let target = store_to_fill(rt, &journal)?;
    source.copy_to(alloc, tenant, &journal, target)
}

/// Takes a tenant's files from a folder into a data folder, which is made where it is missing, and keeps a reserve as one that is served.
fn import(rt: &HostRuntime, tenant: &str, from: &str, to: &str) -> Result<Copied, TenantFault> {
    let alloc = rt.alloc();
    let mut source = Source::open(rt, tenant, from)?;
    let _held = hold(rt, to)?;
    let journal = FolderJournal::new(alloc, to, true)?;
    let target = store_to_serve(rt, &journal, true)?;
    source.copy_to(alloc, tenant, &journal, target)
}

/// The store of the files in a folder. What is written or removed lasts once it is synced. It makes no reserve: a broker that serves the
/// folder makes one.
fn store_to_fill(rt: &HostRuntime, journal: &FolderJournal) -> Result<DataStore, OperatorFault> {
    let alloc = rt.alloc();
    match filled(rt, alloc, journal) {
        Ok(store) => Ok(store),
        Err(fault) => Err(journal.of_folder(alloc, fault)),
    }
}

/// The same, with the fault of the folder.
fn filled(
    rt: &HostRuntime,
    alloc: Global,
    journal: &FolderJournal,
) -> Result<DataStore, FolderFault> {
    let noted = journal.refusals().share()?;
    let folder = HostFolder::new(*rt, journal.folder())?
        .noting(noted)
        .syncing()?;
    FolderStore::new(alloc, folder)
}

/// Removes a tenant's files from a data folder, where that was asked for, and answers how many there were.
fn remove(
    rt: &HostRuntime,
    tenant: &str,
    data: &str,
    is_asked: bool,
) -> Result<usize, TenantFault> {
    let alloc = rt.alloc();
    if !is_folder(rt, data) {
        return Err(TenantFault::NoFolder(String::from_str(alloc, data)?));
    }
    if !is_asked {
        return Err(TenantFault::Unasked(String::from_str(alloc, tenant)?));
    }
    let _held = hold(rt, data)?;
    let journal = FolderJournal::new(alloc, data, true)?;
    let mut store = store_to_fill(rt, &journal)?;
    match remove_tenant(alloc, &mut store, tenant) {
        Ok(0) => Err(files_fault(alloc, tenant, MoveFault::Absent, data)?),
        Ok(files) => Ok(files),
        Err(fault) => Err(TenantFault::Operator(journal.of_store(alloc, fault))),
    }
}

/// A folder from which a tenant's files are copied. It is held open meanwhile, so that no broker begins to serve it.
#[derive(Drop)]
struct Source {
    journal: FolderJournal,
    store: DataStore,
    /// The handle that locks it, beside others that look into it.
    lock: File,
}

impl Source {
    /// The folder at a path, which has files of a tenant.
    fn open(rt: &HostRuntime, tenant: &str, path: &str) -> Result<Source, TenantFault> {
        let alloc = rt.alloc();
        if !is_folder(rt, path) {
            return Err(TenantFault::NoFolder(String::from_str(alloc, path)?));
        }
        let lock = look_into(rt, path)?;
        let journal = FolderJournal::new(alloc, path, true)?;
        let mut store = store_to_read(rt, &journal)?;
        let held = match tenant_files(alloc, &mut store, tenant) {
            Ok(held) => held,
            Err(fault) => return Err(TenantFault::Operator(journal.of_store(alloc, fault))),
        };
        if held.numbers.is_empty() {
            return Err(files_fault(alloc, tenant, MoveFault::Absent, path)?);
        }
        Ok(Source {
            journal,
            store,
            lock,
        })
    }

    /// Copies a tenant's files into the folder of another journal, whose store that is.
    fn copy_to(
        &mut self,
        alloc: Global,
        tenant: &str,
        there: &FolderJournal,
        mut target: DataStore,
    ) -> Result<Copied, TenantFault> {
        match copy_to_last(alloc, &mut self.store, tenant, &mut target) {
            Ok(copied) => Ok(copied),
            Err(MoveFault::Store(fault)) => {
                let said = fault_of(alloc, &self.journal, there, fault);
                Err(TenantFault::Operator(said))
            }
            Err(fault) => Err(files_fault(alloc, tenant, fault, there.folder())?),
        }
    }
}

/// The fault of whichever folder refused something.
fn fault_of(
    alloc: Global,
    from: &FolderJournal,
    to: &FolderJournal,
    fault: StoreFault,
) -> OperatorFault {
    match from.refusals().take() {
        Some(refusal) => {
            from.refusals().note(refusal);
            from.of_store(alloc, fault)
        }
        None => to.of_store(alloc, fault),
    }
}

/// What is wrong with a tenant's files in a folder.
fn files_fault(
    alloc: Global,
    tenant: &str,
    fault: MoveFault,
    folder: &str,
) -> Result<TenantFault, AllocError> {
    Ok(TenantFault::Files {
        tenant: String::from_str(alloc, tenant)?,
        fault,
        folder: String::from_str(alloc, folder)?,
    })
}
