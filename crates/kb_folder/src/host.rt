//! What is kept open of a folder of the system, and in mind.

ghost use Rattle.std.specs.Prelude.{◌≡◌, ◌++◌, ◌∷◌, true, None, Ok, IfOk, OnOk, OnErr, IsErr, string_bytes};
ghost use Rattle.kb_folder.specs.Changed.{NotesOn, NotesBut, HasNoted, HasNotedNames};
ghost use Rattle.kb_folder.specs.Names.{IsPathOf};
ghost use Rattle.kb_folder.specs.Reserve.{is_catalogs};

use crate::changed::Changed;
use crate::history::Handle;
use crate::name::file_name;
use crate::refusal::{FolderCall, Refusal, Refusals};
use crate::reserve::{FRONT, front_of, may_take_reserve};
use crate::{FolderFault, reserve};
use lru::LruCache;
use std::alloc::AllocError;
use std::fs::{DirBuilder, File, OpenOptions};
use std::io;
use std::io::ErrorKind;
use std::num::NonZeroUsize;
use std::os::unix::fs::{DirBuilderExt, OpenOptionsExt};
use std::rt::Files;

/// How many files are kept open between calls.
const MOST_OPEN: usize = 256;

/// The system's codes for want of descriptors, of the process and of all.
const EMFILE: i32 = 24;

const ENFILE: i32 = 23;

/// A folder of the system: its path, the files that are open, and what is kept in mind of it.
///
/// The files that were used last stay open, at most 256 of them, and fewer where the system has no descriptor for a further one. What it
/// reads and writes here is no answer on its files: the reserve, and the front of one that says whether it is a catalog's.
#[derive(Drop)]
pub(crate) struct Host<R: Files<File = File> + AllocGlobal + Clone + Drop> {
    pub(crate) rt: R,
    pub(crate) path: String,
    /// Whether files are opened for writing, too.
    writes: bool,
    pub(crate) open: LruCache<u64, Handle>,
    /// What has changed since it was made to last; none where it is not kept in mind.
    pub(crate) changed: Option<Changed>,
    /// How many bytes its reserve has; none where it keeps none.
    pub(crate) reserve: Option<u64>,
    /// Where refusals are noted.
    pub(crate) refusals: Option<Refusals>,
}

impl From<io::Error> for FolderFault {
    fn from(error: io::Error) -> Self {
        // A code is the system's own.
        if error.kind() == ErrorKind::OutOfMemory && error.raw_os_error().is_none() {
            FolderFault::Memory
        } else {
            FolderFault::Refused
        }
    }
}

impl<R: Files<File = File> + AllocGlobal + Clone + Drop> Host<R> {
    /// The folder at a path, with no file open.
    pub(crate) fn at(rt: R, path: &str, writes: bool) -> Result<Self, FolderFault>
        ensures { IfOk result (λ host. host.changed ≡ None) }
    {
        let alloc = rt.alloc();
        let most = NonZeroUsize::new(MOST_OPEN).unwrap_or(NonZeroUsize::MIN);
        Ok(Host {
            rt,
            path: String::from_str(alloc, path)?,
            writes,
            open: LruCache::new(alloc, most)?,
            changed: None,
            reserve: None,
            refusals: None,
        })
    }

    /// The path of a file.
    pub(crate) fn path(&self, file: u64) -> Result<String, AllocError>
        ensures { IfOk result (λ path. IsPathOf (string_bytes path) file) }
    {
        let name = file_name(self.rt.alloc(), file)?;
        self.path_of(name.as_str())
    }

    /// The path of a name in the folder.
    fn path_of(&self, name: &str) -> Result<String, AllocError>
        ensures { IfOk result (λ path. string_bytes path ≡ string_bytes self.now.path ++ 47 ∷ name.now) }
    {
        let mut path = self.path.clone()?;
        path.push('/')?;
        path.push_str(name)?;
        Ok(path)
    }

    /// Opens a file, where it is not open. It is the one that was used last then.
    pub(crate) fn open_one(&mut self, file: u64) -> io::Result<()>
        ensures { NotesOn self.old.changed self.new.changed }
    {
        if self.opened(file).is_ok() || self.open.promote(&file) {
            return Ok(());
        }
        let path = self.path(file)?;
        let mut options = OpenOptions::new();
        options.read(true).write(self.writes);
        let opened = self.open_with(&options, path.as_str())?;
        self.keep_open(Handle::at(path.as_str(), file, opened))
    }

    /// A file, where it is open and was used last. It costs no look-up.
    pub(crate) fn opened(&self, file: u64) -> io::Result<&Handle>
        ensures { IfOk result (λ opened. opened.now.number ≡ file) }
    {
        match self.open.peek_mru() {
            Some((_, opened)) if opened.number() == file => Ok(opened),
            _ => Err(ErrorKind::NotFound.into()),
        }
    }

    /// Opens a file. While the system has no descriptor for it the file that was used least lately is closed, and it is tried again.
    pub(crate) fn open_with(&mut self, options: &OpenOptions, path: &str) -> io::Result<File>
        ensures { NotesOn self.old.changed self.new.changed }
    {
        for _ in 0..MOST_OPEN {
            match options.open(&self.rt, path) {
                Err(error) if wants_descriptor(&error) => {
                    if !self.close_one() {
                        return Err(error);
                    }
                }
                opened => return opened,
            }
        }
        options.open(&self.rt, path)
    }

    /// What a call came to. What the system refused is noted.
    pub(crate) fn answer<T>(
        &self,
        call: FolderCall,
        file: Option<u64>,
        done: io::Result<T>,
    ) -> Result<T, FolderFault>
        ensures ok { IfOk result (λ value. done ≡ Ok value) }
        ensures err { OnErr result (IsErr done) }
    {
        match done {
            Ok(value) => Ok(value),
            Err(error) => Err(self.fault(call, file, error)),
        }
    }

    /// The fault of an error. What the system refused is noted.
    pub(crate) fn fault(
        &self,
        call: FolderCall,
        file: Option<u64>,
        error: io::Error,
    ) -> FolderFault {
        let fault = FolderFault::from(error);
        if let (FolderFault::Refused, Some(refusals)) = (fault, &self.refusals) {
            refusals.note(Refusal { call, file, error });
        }
        fault
    }

    /// Refused where the folder is to be read alone.
    pub(crate) fn to_write(&self) -> io::Result<()> {
        if self.writes {
            Ok(())
        } else {
            Err(ErrorKind::ReadOnlyFilesystem.into())
        }
    }

    /// A file, made and opened. It is noted, and so are the names.
    pub(crate) fn make(&mut self, file: u64) -> io::Result<Handle>
        ensures made { IfOk result (λ made. made.number ≡ file) }
        ensures on { NotesOn self.old.changed self.new.changed }
        ensures noted { OnOk result (HasNoted self.new.changed file × HasNotedNames self.new.changed) }
    {
        self.to_write()?;
        let path = self.path(file)?;
        let mut options = OpenOptions::new();
        options.read(true).write(true).create_new(true).mode(0o600);
        let first = self.note(file)?;
        self.note_names();
        match self.open_with(&options, path.as_str()) {
            Ok(made) => Ok(Handle::at(path.as_str(), file, made)),
            Err(error) => {
                if first {
                    self.forget(file);
                }
                Err(error)
            }
        }
    }

    /// The first bytes of a file of a length, with new ones behind it.
    pub(crate) fn front(&mut self, file: u64, len: u64, bytes: &[u8]) -> io::Result<Vec<u8>>
        ensures { NotesOn self.old.changed self.new.changed }
    {
        let mut kept = [0u8; FRONT];
        let size = len.min(FRONT as u64) as usize;
        self.open_one(file)?;
        self.opened(file)?.front(&mut kept[..size])?;
        Ok(front_of(self.rt.alloc(), &kept[..size], bytes)?)
    }

    /// Whether a file is a catalog's, by the bytes that it begins with. One that cannot be read is none.
    pub(crate) fn is_catalogs(&mut self, file: u64) -> bool
        ensures { NotesOn self.old.changed self.new.changed }
    {
        match self.front(file, FRONT as u64, &[]) {
            Ok(front) => may_take_reserve(&front),
            Err(_) => false,
        }
    }

    /// Gives so many bytes of the reserve up for a file that begins with a front, or all that it has.
    pub(crate) fn give_up(&mut self, size: u64, _front: &[u8]) -> io::Result<()>
        requires { is_catalogs _front.now ≡ true }
        ensures { NotesOn self.old.changed self.new.changed }
    {
        let left = self.reserve.unwrap_or(0).saturating_sub(size);
        self.open_reserve()?.set_len(left)?;
        self.reserve = Some(left);
        Ok(())
    }

    /// Fills the reserve again where some of it is missing and there is room.
    pub(crate) fn restore_reserve(&mut self)
        ensures { NotesOn self.old.changed self.new.changed }
    {
        let Some(len) = self.reserve else {
            return;
        };
        if len < reserve::SIZE
            && let Ok(file) = self.open_reserve()
            && reserve::fill(&file, len).is_ok()
        {
            self.reserve = Some(reserve::SIZE);
        }
    }

    /// The file of the reserve, which is made where it is missing.
    pub(crate) fn open_reserve(&mut self) -> io::Result<File>
        ensures { NotesOn self.old.changed self.new.changed }
    {
        let path = self.path_of(reserve::NAME)?;
        let mut options = OpenOptions::new();
        options.write(true).create(true).mode(0o600);
        self.open_with(&options, path.as_str())
    }

    /// Closes a file, and forgets what it has changed.
    pub(crate) fn let_go(&mut self, file: u64)
        ensures { NotesBut (λ gone. gone ≡ file) self.old.changed self.new.changed }
    {
        self.open.pop(&file);
        self.forget(file);
    }
}

/// Makes a folder where there is none, for the process's own user.
pub fn make_folder(files: &impl Files, path: &str) -> io::Result<()> {
    DirBuilder::new()
        .recursive(true)
        .mode(0o700)
        .create(files, path)
}

/// Whether a call was refused for want of descriptors.
fn wants_descriptor(error: &io::Error) -> bool {
    matches!(error.raw_os_error(), Some(EMFILE | ENFILE))
}
