//! The file of a data folder that keeps some room of the disk for catalogs.

ghost use Rattle.std.specs.Prelude.{ℕ, string_bytes};
ghost use Rattle.kb_operator.specs.Logged.{MakesText, TellsTexts, texts_of};
ghost use Rattle.kb_operator.specs.Reserve.{reserve_text};

use crate::lines::{LineLog, tell_if};
use crate::refused::FolderJournal;
use kb_server_log::now;
use std::alloc::{AllocError, Global};
use std::fs;

/// How many bytes it has, where there was room for them.
const SIZE: u64 = 4_194_304;

/// Tells where the reserve of a journal's folder, whose store is there, has not all of its bytes: there was no room for them. It says
/// what has too little, where, and what to do.
pub fn tell_reserve<T: LineLog>(rt: &HostRuntime, folder: &FolderJournal, lines: &mut T)
    ensures { (now : ℕ) × (has : ℕ) × TellsTexts now (texts_of (reserve_text (string_bytes folder.now.folder) has))
        (T.logged lines.old) (T.logged lines.new) }
{
    let (alloc, path) = (rt.alloc(), folder.folder());
    let has = reserve_bytes(rt, path).unwrap_or(0);
    tell_if(now(rt), reserve_text(alloc, path, has), lines);
}

/// How many bytes the reserve of the folder at a path has: none where it is not there.
fn reserve_bytes(rt: &HostRuntime, path: &str) -> Result<u64, AllocError> {
    let file = format!(in rt.alloc(); "{path}/reserve")?;
    match fs::metadata(rt, file.as_str()) {
        Ok(found) => Ok(found.len()),
        Err(_) => Ok(0),
    }
}

/// What is told of a reserve of so many bytes: none where it has all.
fn reserve_text(alloc: Global, path: &str, has: u64) -> Result<Option<String>, AllocError>
    ensures { MakesText (reserve_text path.now has) result }
{
    if has >= SIZE {
        return Ok(None);
    }
    let text = format!(in alloc;
        "the reserve {path}/reserve has {has} of 4194304 bytes: the disk has no room for it. Free some, and start again: without it a \
        full disk refuses topics and offsets, too"
    )?;
    Ok(Some(text))
}
