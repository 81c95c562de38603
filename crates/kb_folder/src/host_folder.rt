//! A folder of the system.

ghost use Rattle.std.specs.Prelude.{◌≡◌, true, false, take, IfOk, OnOk, OnErr};
ghost use Rattle.kb_store.specs.Loss.{Only};
ghost use Rattle.std.specs.Io.{WritesAtMost};
ghost use Rattle.kb_folder.specs.Folder.{Stays, ReadsWhole, Has, bytes_in};
ghost use Rattle.kb_folder.specs.History.{resized, removed, made, measured, wrote};
ghost use Rattle.kb_folder.specs.Lasting.{Looks, folder_loss};
ghost use Rattle.kb_folder.specs.Reserve.{is_catalogs};
ghost use Rattle.kb_folder.specs.Told.{calls_of, contents_of, with};

use crate::changed::Changed;
use crate::history::{Handle, History};
use crate::host::{Host, make_folder};
use crate::refusal::{FolderCall, Refusals};
use crate::reserve::{is_full, may_take_reserve};
use crate::{Folder, FolderFault, reserve};
use std::alloc::Global;
use std::fs::File;
use std::io;
use std::io::ErrorKind;
use std::marker::Model;
use std::rt::Files;

/// Of which powers of two so many bytes are taken from the reserve, one after another, while they are too few.
const LEAST_POWER: u32 = 13;

const MOST_POWER: u32 = 23;

/// A folder of the system. Its contents are what was there when it was opened, which no contract says, and what its calls made of that. It
/// is honest as long as the system's answers are those of these contents.
///
/// The files that were used last stay open, at most 256 of them, and fewer where the system has no descriptor for a further one. No
/// call asks the system to write its own buffers out, unless the folder is [`HostFolder::syncing`]. Then what it has not noted as changed
/// lasts through a loss of power, by the system's answers to its syncs. Files that it makes are for the process's own user. A folder in
/// it that has a file's name is as a file without bytes, and is noted as a refusal.
#[derive(Drop)]
pub struct HostFolder<R: Files<File = File> + AllocGlobal + Clone + Drop> {
    host: Host<R>,
    history: History,
}

impl<R: Files<File = File> + AllocGlobal + Clone + Drop> Model for HostFolder<R> {
    ghost use Rattle.std.specs.Prelude.{is_some};
    ghost use Rattle.kb_folder.specs.Hosted.{Hosted, hosted_code};
    ghost use Rattle.kb_folder.specs.Lasting.{IsMinded};
    ghost use Rattle.kb_folder.specs.Told.{calls_of};

    ghost Value = { Hosted };

    ghost coded = { hosted_code };

    ghost view = { λ f. record { history = calls_of f.history; syncs = is_some f.host.changed } };

    ghost invariant = { λ f. IsMinded f.host.changed (calls_of f.history) };
}

impl<R: Files<File = File> + AllocGlobal + Clone + Drop> HostFolder<R> {
    /// The folder at a path. Where there is none it is made, for the process's own user.
    pub fn new(rt: R, path: &str) -> Result<Self, FolderFault>
        ensures honest { IfOk result (λ folder. (contents_of folder.history).honest) }
        ensures syncs { IfOk result (λ folder. folder.syncs ≡ false) }
    {
        make_folder(&rt, path)?;
        Ok(HostFolder {
            host: Host::at(rt, path, true)?,
            history: History::new(),
        })
    }

    /// The folder at a path, to be read alone: files are not opened for writing, and no folder is made. Calls that write are refused.
    pub fn to_read(rt: R, path: &str) -> Result<Self, FolderFault>
        ensures honest { IfOk result (λ folder. (contents_of folder.history).honest) }
        ensures syncs { IfOk result (λ folder. folder.syncs ≡ false) }
    {
        Ok(HostFolder {
            host: Host::at(rt, path, false)?,
            history: History::new(),
        })
    }

    /// The same folder, whose refusals are noted.
    pub fn noting(mut self, refusals: Refusals) -> Self
        ensures { result ≡ self }
    {
        self.host.refusals = Some(refusals);
        self
    }

    /// The same folder, with a file `reserve` of 4,194,304 bytes where there is room for it. On a full disk an append to a catalog takes
    /// room from it, so that what takes files away can be written. It is filled again after a removal or a cut that leaves room.
    pub fn with_reserve(mut self) -> Self
        ensures { result ≡ self }
    {
        let len = match self.host.open_reserve() {
            Ok(file) => file.metadata().map_or(0, |found| found.len()),
            Err(_) => 0,
        };
        self.host.reserve = Some(len.min(reserve::SIZE));
        self.host.restore_reserve();
        self
    }

    /// The same folder, which keeps in mind what it changes, so that `sync` can make it last. Without this a sync is refused.
    ///
    /// First it syncs every file that has a number, and the names, and asks the system to forget what it has in memory of each file: what
    /// a process that was killed left unsynced is to be believed only where it lasts. It syncs the names of the folders above, too, so
    /// that the folder's own lasts. So it is for an opening, before anything is read.
    ///
    /// The system writes a file that has changed out before it is closed. Once a sync was refused every later one is: the system may take
    /// for written what it could not write.
    pub fn syncing(mut self) -> Result<Self, FolderFault>
        ensures syncs { IfOk result (λ folder. folder.syncs ≡ true) }
        ensures unchanged { IfOk result (λ folder. Stays (contents_of self.history) (contents_of folder.history)) }
        ensures lasts { IfOk result (λ folder. (contents_of folder.history).honest
            → Only (contents_of folder.history).files (folder_loss folder.history)) }
    {
        self.host.sync_found(&mut self.history)?;
        self.host.changed = Some(Changed::new(self.host.rt.alloc()));
        Ok(self)
    }

    /// The length of a file. A folder is none.
    fn length(&mut self, file: u64) -> io::Result<u64>
        ensures syncs { self.new.syncs ≡ self.old.syncs }
        ensures measured { IfOk result (λ len. self.new.history ≡ with self.old.history (measured file len)) }
        ensures refused { OnErr result (self.new.history ≡ self.old.history) }
    {
        self.host.open_one(file)?;
        self.history.length(self.host.opened(file)?)
    }

    /// The length of a folder that has a file's name: it has no bytes.
    fn length_of_folder(&mut self, file: u64) -> io::Result<u64>
        ensures syncs { self.new.syncs ≡ self.old.syncs }
        ensures measured { IfOk result (λ len. self.new.history ≡ with self.old.history (measured file len)) }
        ensures refused { OnErr result (self.new.history ≡ self.old.history) }
    {
        let path = self.host.path(file)?;
        self.history.length_at(&self.host.rt, path.as_str(), file)
    }

    /// Makes a file. Where there is no room for the handle it is opened again when it is used.
    fn make(&mut self, file: u64) -> io::Result<()>
        ensures syncs { self.new.syncs ≡ self.old.syncs }
        ensures made { OnOk result (self.new.history ≡ with self.old.history (made file)) }
        ensures refused { OnErr result (self.new.history ≡ self.old.history) }
    {
        let opened = self.host.make(file)?;
        self.history.made(&opened);
        let _ = self.host.keep_open(opened);
        Ok(())
    }

    /// Writes at a place. On a full disk a catalog may take room from the reserve.
    fn write(&mut self, file: u64, at: u64, bytes: &[u8]) -> io::Result<usize>
        requires { Has (contents_of self.old.history) file }
        ensures syncs { self.new.syncs ≡ self.old.syncs }
        ensures bound { WritesAtMost result bytes.now }
        ensures wrote { IfOk result (λ n. self.new.history ≡ with self.old.history (wrote file at (take n bytes.now))) }
        ensures refused { OnErr result (self.new.history ≡ self.old.history) }
    {
        self.host.open_to_change(file)?;
        match write_at(&mut self.history, self.host.opened(file)?, at, bytes) {
            Err(error) if is_full(&error) && self.host.reserve.unwrap_or(0) > 0 => {
                let front = self.host.front(file, at, bytes)?;
                if !may_take_reserve(&front) {
                    return Err(error);
                }
                self.write_from_reserve(file, at, bytes, &front)
            }
            written => written,
        }
    }

    /// Writes at a place of a file that begins with a front, and takes more and more room from the reserve while the disk is full.
    fn write_from_reserve(
        &mut self,
        file: u64,
        at: u64,
        bytes: &[u8],
        front: &[u8],
    ) -> io::Result<usize>
        requires catalog { is_catalogs front.now ≡ true }
        requires there { Has (contents_of self.old.history) file }
        ensures syncs { self.new.syncs ≡ self.old.syncs }
        ensures bound { WritesAtMost result bytes.now }
        ensures wrote { IfOk result (λ n. self.new.history ≡ with self.old.history (wrote file at (take n bytes.now))) }
        ensures refused { OnErr result (self.new.history ≡ self.old.history) }
    {
        for power in LEAST_POWER..MOST_POWER {
            self.host.give_up(1 << power, front)?;
            self.host.open_to_change(file)?;
            match write_at(&mut self.history, self.host.opened(file)?, at, bytes) {
                Err(error) if is_full(&error) => {}
                written => return written,
            }
        }
        Err(ErrorKind::StorageFull.into())
    }

    /// Cuts a file, or lengthens it.
    fn resize(&mut self, file: u64, len: u64) -> io::Result<()>
        requires { Has (contents_of self.old.history) file }
        ensures syncs { self.new.syncs ≡ self.old.syncs }
        ensures resized { OnOk result (self.new.history ≡ with self.old.history (resized file len)) }
        ensures refused { OnErr result (self.new.history ≡ self.old.history) }
    {
        self.host.open_to_change(file)?;
        self.history.resize(self.host.opened(file)?, len)
    }

    /// Removes a file, and closes it.
    fn take_away(&mut self, file: u64) -> io::Result<()>
        ensures syncs { self.new.syncs ≡ self.old.syncs }
        ensures removed { OnOk result (self.new.history ≡ with self.old.history (removed file)) }
        ensures refused { OnErr result (self.new.history ≡ self.old.history) }
    {
        self.host.to_write()?;
        let path = self.host.path(file)?;
        self.host.note_names();
        self.history.remove(&self.host.rt, path.as_str(), file)?;
        self.host.let_go(file);
        Ok(())
    }

    /// Reads bytes of a file from a place on, up to the end of the buffer or of the file, and answers how many.
    fn read(&mut self, file: u64, at: u64, buffer: &mut [u8]) -> io::Result<usize>
        ensures syncs { self.new.syncs ≡ self.old.syncs }
        ensures bytes { IfOk result (λ n. (contents_of self.new.history).honest
            → ReadsWhole (bytes_in (contents_of self.old.history) file) at buffer.old n buffer.new) }
        ensures unchanged { Stays (contents_of self.old.history) (contents_of self.new.history) }
        ensures looks { Looks self.old.history self.new.history }
    {
        self.host.open_one(file)?;
        read_whole(&mut self.history, self.host.opened(file)?, at, buffer)
    }
}

/// Writes bytes at a place of a file. A call that a signal interrupts is made again.
fn write_at(history: &mut History, file: &Handle, at: u64, bytes: &[u8]) -> io::Result<usize>
    ensures bound { WritesAtMost result bytes.now }
    ensures wrote { IfOk result (λ n. calls_of history.new ≡ with (calls_of history.old) (wrote file.now.number at (take n bytes.now))) }
    ensures refused { OnErr result (calls_of history.new ≡ calls_of history.old) }
{
    for _ in 0..u64::MAX {
        match history.write(file, at, bytes) {
            Err(error) if error.kind() == ErrorKind::Interrupted => {}
            written => return written,
        }
    }
    Err(ErrorKind::Interrupted.into())
}

/// Reads bytes of a file from a place on, up to the end of the buffer or of the file, and answers how many.
fn read_whole(history: &mut History, file: &Handle, at: u64, buffer: &mut [u8]) -> io::Result<usize>
    ensures bytes { IfOk result (λ n. (contents_of (calls_of history.new)).honest
        → ReadsWhole (bytes_in (contents_of (calls_of history.old)) file.now.number) at buffer.old n buffer.new) }
    ensures unchanged { Stays (contents_of (calls_of history.old)) (contents_of (calls_of history.new)) }
    ensures looks { Looks (calls_of history.old) (calls_of history.new) }
{
    let mut read = 0;
    for _ in 0..u64::MAX {
        if read >= buffer.len() {
            return Ok(read);
        }
        let Some(from) = at.checked_add(read as u64) else {
            return Err(ErrorKind::InvalidInput.into());
        };
        match history.read(file, from, &mut buffer[read..]) {
            Ok(0) => return Ok(read),
            Ok(n) => read += n,
            Err(error) if error.kind() == ErrorKind::Interrupted => {}
            Err(error) => return Err(error),
        }
    }
    Err(ErrorKind::Interrupted.into())
}

impl<R: Files<File = File> + AllocGlobal + Clone + Drop> Folder for HostFolder<R> {
    ghost use Rattle.kb_folder.specs.Lasting.{folder_loss};
    ghost use Rattle.kb_folder.specs.LastingLaws.{loss_timely};
    ghost use Rattle.kb_folder.specs.Told.{contents_of};

    ghost contents = { λ f. contents_of f.history };

    ghost loss = { λ f. folder_loss f.history };

    ghost timely = { λ f. loss_timely f.history };

    fn names(&mut self, alloc: Global) -> Result<Vec<String>, FolderFault> {
        let listed = self
            .history
            .names(&self.host.rt, self.host.path.as_str(), alloc);
        self.host.answer(FolderCall::List, None, listed)
    }

    fn len(&mut self, file: u64) -> Result<u64, FolderFault> {
        let mut len = self.length(file);
        if let Err(error) = &len
            && error.kind() == ErrorKind::IsADirectory
        {
            // What is no file has no bytes. It is noted, and nothing of it is read.
            let _ = self.host.fault(FolderCall::Length, Some(file), *error);
            len = self.length_of_folder(file);
        }
        self.host.answer(FolderCall::Length, Some(file), len)
    }

    fn create(&mut self, file: u64) -> Result<(), FolderFault> {
        let made = self.make(file);
        self.host.answer(FolderCall::Create, Some(file), made)
    }

    fn write_end(&mut self, file: u64, end: u64, bytes: &[u8]) -> Result<usize, FolderFault> {
        let written = self.write(file, end, bytes);
        self.host.answer(FolderCall::Write, Some(file), written)
    }

    fn read_at(&mut self, file: u64, at: u64, buffer: &mut [u8]) -> Result<usize, FolderFault> {
        if buffer.is_empty() {
            return Ok(0);
        }
        let read = self.read(file, at, buffer);
        self.host.answer(FolderCall::Read, Some(file), read)
    }

    fn cut(&mut self, file: u64, len: u64) -> Result<(), FolderFault> {
        let cut = self.resize(file, len);
        self.host.answer(FolderCall::Cut, Some(file), cut)?;
        self.host.restore_reserve();
        Ok(())
    }

    fn remove(&mut self, file: u64) -> Result<(), FolderFault> {
        let removed = self.take_away(file);
        self.host.answer(FolderCall::Remove, Some(file), removed)?;
        self.host.restore_reserve();
        Ok(())
    }

    fn sync(&mut self) -> Result<(), FolderFault> {
        self.host.sync_changed(&mut self.history)
    }
}
