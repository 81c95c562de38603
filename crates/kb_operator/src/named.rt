//! Settings for a data folder of which no settings are at hand.

ghost use Rattle.std.specs.Prelude.{◌≡◌};
ghost use Rattle.std.specs.FinMap.{keys};
ghost use Rattle.kb_store.specs.Disk.{Keeps};

use crate::fault::OperatorFault;
use crate::folder::store_to_read;
use crate::refused::FolderJournal;
use crate::settings::settings_in;
use kb_settings::Settings;
use kb_store::{Store, StoreFault};
use kb_survey::header_among;
use std::alloc::{AllocError, Global};
use std::collections::BTreeSet;

/// The settings of a file that has a user for each tenant that the files of a journal's folder name, and nothing else. Where they name
/// none, that is the fault. A tenant's name is one of settings, too, since a header with another cannot be read.
pub fn settings_of_files(
    rt: &HostRuntime,
    folder: &FolderJournal,
) -> Result<Settings, OperatorFault> {
    let alloc = rt.alloc();
    let mut store = store_to_read(rt, folder)?;
    let names = match names_in(alloc, &mut store) {
        Ok(names) => names,
        Err(fault) => return Err(folder.of_store(alloc, fault)),
    };
    if names.is_empty() {
        return Err(OperatorFault::Nobody(String::from_str(alloc, folder.folder())?));
    }
    let mut text = String::new(alloc);
    for name in &names {
        push_user(alloc, &mut text, name)?;
    }
    settings_in(alloc, folder.folder(), &text)
}

/// The tenants that the headers of a store's files name.
fn names_in<S: Store>(alloc: Global, store: &mut S) -> Result<BTreeSet<String>, StoreFault> {
    let listed = store.list(alloc)?;
    let mut names = BTreeSet::new(alloc);
    add_names(alloc, store, &listed, &mut names)?;
    Ok(names)
}

/// Adds the tenants that the headers of all files name.
fn add_names<S: Store>(
    alloc: Global,
    store: &mut S,
    listed: &[u64],
    names: &mut BTreeSet<String>,
) -> Result<(), StoreFault>
    requires { listed.now ≡ keys (S.disk store.old).table }
{
    for file in listed {
        add_name(alloc, store, listed, *file, names)?;
    }
    Ok(())
}

/// Adds the tenant that the header of a file names, where it has one.
fn add_name<S: Store>(
    alloc: Global,
    store: &mut S,
    listed: &[u64],
    file: u64,
    names: &mut BTreeSet<String>,
) -> Result<(), StoreFault>
    requires { listed.now ≡ keys (S.disk store.old).table }
    ensures unchanged { Keeps (S.disk store.old) (S.disk store.new) }
{
    if let Some(header) = header_among(alloc, store, listed, file)? {
        names.insert(String::from_str(alloc, header.tenant())?)?;
    }
    Ok(())
}

/// Adds a user of a tenant to a text of settings.
fn push_user(alloc: Global, text: &mut String, tenant: &str) -> Result<(), AllocError> {
    text.push_str(&format!(in alloc;
        "[[user]]\nname = {tenant:?}\npassword = \"none\"\ntenant = {tenant:?}\n"
    )?)
}
