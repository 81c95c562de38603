//! Where it stands what a start drops.

ghost use Rattle.std.specs.Prelude.{[], false};

use crate::fault::OperatorFault;
use kb_folder::file_name;
use kb_start::{Keeper, KeeperRefused};
use std::alloc::{AllocError, Global};
use std::fs::{DirBuilder, File, OpenOptions};
use std::io::{ErrorKind, Write};
use std::os::unix::fs::{DirBuilderExt, OpenOptionsExt};
use std::{fs, io};

/// The greatest number of a folder of dropped parts.
const LAST: u32 = 1_000_000;

/// A folder `dropped-N` in a data folder, with a file for each part of a file that a start drops or sets aside. It is made for the first
/// part, under the lowest number that has none.
#[derive(Drop)]
pub(crate) struct DroppedParts {
    rt: HostRuntime,
    /// The path of the data folder.
    data: String,
    /// The path of the folder of these parts, once there is one.
    folder: Option<String>,
    parts: u64,
    /// Why the last part was refused, in words.
    cause: Option<String>,
}

impl DroppedParts {
    /// None yet, of the data folder at a path.
    pub(crate) fn new(rt: &HostRuntime, data: &str) -> Result<DroppedParts, AllocError> {
        Ok(DroppedParts {
            rt: *rt,
            data: String::from_str(rt.alloc(), data)?,
            folder: None,
            parts: 0,
            cause: None,
        })
    }

    /// How many parts there are, and the path of their folder, if there are any. They last through a loss of power from then on.
    pub(crate) fn settle(&mut self) -> Result<Option<(u64, String)>, KeeperRefused> {
        let Some(folder) = self.folder.take() else {
            return Ok(None);
        };
        let synced = self
            .sync(folder.as_str())
            .and(self.sync(self.data.as_str()));
        match synced {
            Ok(()) => Ok(Some((self.parts, folder))),
            Err(text) => {
                self.folder = Some(folder);
                self.cause = text;
                Err(KeeperRefused)
            }
        }
    }

    /// Makes the names in the folder at a path last. An `Err` is why not, in words, where there is memory for them.
    fn sync(&self, path: &str) -> Result<(), Option<String>> {
        match sync_folder(&self.rt, path) {
            Ok(()) => Ok(()),
            Err(error) => Err(refused_text(self.rt.alloc(), "sync", path, error).ok()),
        }
    }

    /// Removes the parts again, of which one was refused, and says why that was.
    pub(crate) fn give_up(self) -> OperatorFault {
        let DroppedParts {
            rt,
            folder,
            cause,
            ..
        } = self;
        if let Some(folder) = folder {
            let _ = fs::remove_dir_all(&rt, folder.as_str());
        }
        match cause {
            Some(text) => OperatorFault::System(text),
            None => OperatorFault::Memory,
        }
    }

    /// Makes the folder of the parts, if there is none yet. An `Err` is why not, in words, where there is memory for them.
    fn make(&mut self) -> Result<(), Option<String>> {
        if self.folder.is_some() {
            return Ok(());
        }
        let rt = self.rt;
        let alloc = rt.alloc();
        for number in 1..=LAST {
            let data = self.data.as_str();
            let path = format!(in alloc; "{data}/dropped-{number}").map_err(|_| None)?;
            match DirBuilder::new().mode(0o700).create(&rt, path.as_str()) {
                Ok(()) => {
                    self.folder = Some(path);
                    return Ok(());
                }
                Err(error) if error.kind() == ErrorKind::AlreadyExists => {}
                Err(error) => return Err(refused_text(alloc, "make", path.as_str(), error).ok()),
            }
        }
        Err(None)
    }

    /// Writes a part into a file of its own, which lasts from then on.
    fn write(&mut self, file: u64, place: u64, bytes: &[u8]) -> Result<(), Option<String>> {
        self.make()?;
        let rt = self.rt;
        let alloc = rt.alloc();
        let Some(folder) = &self.folder else {
            return Err(None);
        };
        let name = file_name(alloc, file).map_err(|_| None)?;
        let path = format!(in alloc; "{folder}/{name}.{place}").map_err(|_| None)?;
        match write_new(&rt, path.as_str(), bytes) {
            Ok(()) => Ok(()),
            Err(error) => Err(refused_text(alloc, "write", path.as_str(), error).ok()),
        }
    }
}

impl Keeper for DroppedParts {
    // No contract can say what the system's disk holds.
    ghost is_honest = { λ _. false };

    ghost kept = { λ _. [] };

    fn keep(&mut self, file: u64, place: u64, bytes: &[u8]) -> Result<(), KeeperRefused> {
        match self.write(file, place, bytes) {
            Ok(()) => {
                self.parts = self.parts.saturating_add(1);
                Ok(())
            }
            Err(cause) => {
                self.cause = cause;
                Err(KeeperRefused)
            }
        }
    }
}

/// Makes a file with some bytes, which last from then on.
fn write_new(rt: &HostRuntime, path: &str, bytes: &[u8]) -> io::Result<()> {
    let mut file = OpenOptions::new()
        .write(true)
        .create_new(true)
        .mode(0o600)
        .open(rt, path)?;
    file.write_all(bytes)?;
    file.sync_all()
}

/// Makes the names in a folder last.
fn sync_folder(rt: &HostRuntime, path: &str) -> io::Result<()> {
    File::open(rt, path)?.sync_all()
}

/// Why a part is not kept.
fn refused_text(
    alloc: Global,
    call: &str,
    path: &str,
    error: io::Error,
) -> Result<String, AllocError> {
    format!(in alloc;
        "cannot keep what the start would drop: cannot {call} {path}: {error}. Nothing was changed."
    )
}
