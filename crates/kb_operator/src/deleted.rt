//! Files of deleted topics, as a start finds and tells them.

ghost use Rattle.std.specs.Prelude.{◌≡◌, ◌++◌, take, string_bytes, IfOk, OnOk};
ghost use Rattle.std.specs.List.{flat_map};
ghost use Rattle.kb_operator.specs.Found.{deleted_part, deleted_text, more_part};
ghost use Rattle.kb_operator.specs.Logged.{MakesText};

use crate::fault::OperatorFault;
use crate::folder::store_to_read;
use crate::refused::FolderJournal;
use kb_log::PartitionLog;
use kb_start::{CatalogOf, Deleted, deleted_files};
use std::alloc::{AllocError, Global};
use std::collections::BTreeMap;

/// How many tenants stand in the line at most: it stays below 4,096 bytes, with names of 64.
const TENANTS: usize = 40;

/// Those of some files of a journal's folder that are of deleted topics. The folder is only read.
pub fn find_deleted<L: PartitionLog>(
    rt: &HostRuntime,
    folder: &FolderJournal,
    catalogs: &[CatalogOf<'_, L>],
    files: &[u64],
) -> Result<Deleted, OperatorFault> {
    let alloc = rt.alloc();
    if files.is_empty() {
        return Ok(Deleted {
            files: Vec::new(alloc),
            by_tenant: BTreeMap::new(alloc),
        });
    }
    let mut store = store_to_read(rt, folder)?;
    match deleted_files(alloc, &mut store, catalogs, files) {
        Ok(deleted) => Ok(deleted),
        Err(fault) => Err(folder.of_store(alloc, fault)),
    }
}

/// How many files of deleted topics a start removes, and of which tenants; none where there are none.
pub(crate) fn deleted_text(alloc: Global, deleted: &Deleted) -> Result<Option<String>, AllocError>
    ensures { MakesText (deleted_text deleted.now) result }
{
    if deleted.files.is_empty() {
        return Ok(None);
    }
    let (files, tenants) = (deleted.files.len(), deleted.by_tenant.len());
    let mut text = format!(in alloc; "removes files of deleted topics: {files}")?;
    push_first(alloc, &mut text, &deleted.by_tenant)?;
    push_more(alloc, &mut text, tenants.saturating_sub(TENANTS))?;
    Ok(Some(text))
}

/// Adds how many files the first tenants have.
fn push_first(
    alloc: Global,
    text: &mut String,
    by_tenant: &BTreeMap<String, u64>,
) -> Result<(), AllocError>
    ensures { OnOk result (string_bytes text.new ≡ string_bytes text.old ++ flat_map deleted_part (take 40 by_tenant.now.entries)) }
{
    let mut room = TENANTS;
    for (tenant, files) in by_tenant {
        if room == 0 {
            return Ok(());
        }
        room -= 1;
        let part = part_text(alloc, tenant, *files)?;
        text.push_str(&part)?;
    }
    Ok(())
}

/// How many files a tenant has.
fn part_text(alloc: Global, tenant: &String, files: u64) -> Result<String, AllocError>
    ensures { IfOk result (λ text. string_bytes text ≡ deleted_part (tenant.now, files)) }
{
    format!(in alloc; ", of tenant {tenant} {files}")
}

/// Adds how many tenants are not named, if any are not.
fn push_more(alloc: Global, text: &mut String, more: usize) -> Result<(), AllocError>
    ensures { OnOk result (string_bytes text.new ≡ string_bytes text.old ++ more_part more) }
{
    if more == 0 {
        return Ok(());
    }
    text.push_str(&format!(in alloc; ", of {more} tenants more")?)
}
