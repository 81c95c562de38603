//! When the files of a data folder were changed last.

use kb_server_log::moment_at;
use std::fs;
use std::fs::DirEntry;

/// The last moment at which a file of a log in a folder was changed, where there is one and the system tells.
pub fn last_change(rt: &HostRuntime, path: &str) -> Option<u64> {
    let mut last = None;
    for entry in fs::read_dir(rt, path).ok()? {
        if let Ok(entry) = entry {
            last = last.max(change_of(&entry));
        }
    }
    last
}

/// The moment at which a file was changed, if it is one of a log.
fn change_of(entry: &DirEntry) -> Option<u64> {
    if !entry.file_name().ends_with(".seg") {
        return None;
    }
    let time = entry.metadata().ok()?.modified().ok()?;
    Some(moment_at(time))
}
