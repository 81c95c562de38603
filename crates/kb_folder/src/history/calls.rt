//! The system's calls on a folder's files.
//!
//! Each call here is one of the system's, and is noted with its answer. No prover sees that the call is made which is noted, so these
//! bodies are to be read. What stands on them is proved.

ghost use Rattle.std.specs.Prelude.{◌≡◌, take, IfOk, OnOk, OnErr};
ghost use Rattle.std.specs.Io.{ReadsAtMost, WritesAtMost};
ghost use Rattle.kb_folder.specs.History.{listing_answer, measured, read, wrote, resized, made, removed, synced, synced_names};
ghost use Rattle.kb_folder.specs.Names.{IsPathOf, numbers_named};
ghost use Rattle.kb_folder.specs.Told.{calls_of, with};

use super::History;
use crate::name::numbers_of;
use std::alloc::Global;
use std::fs::File;
use std::io::ErrorKind;
use std::os::fd::AsRawFd;
use std::os::unix::fs::FileExt;
use std::rt::Files;
use std::{fs, io};

/// Which call an answer is of.
const LISTED: u64 = 0;

const MEASURED: u64 = 1;

const READ: u64 = 2;

const WROTE: u64 = 3;

const RESIZED: u64 = 4;

const MADE: u64 = 5;

const REMOVED: u64 = 6;

const SYNCED: u64 = 7;

const NAMED: u64 = 8;

/// A file of the folder, opened, and its number.
#[derive(Drop)]
pub(crate) struct Handle {
    number: u64,
    file: File,
}

impl Handle {
    /// The file that was opened at a path.
    pub(crate) fn at(_path: &str, number: u64, file: File) -> Self
        requires { IsPathOf _path.now number }
        ensures { result.number ≡ number }
    {
        Handle { number, file }
    }

    /// Its number.
    pub(crate) fn number(&self) -> u64
        ensures { result ≡ self.now.number }
    {
        self.number
    }

    /// Reads its first bytes, as many as there is room for. It is not noted: what they say is no answer to the folder's caller.
    pub(crate) fn front(&self, buffer: &mut [u8]) -> io::Result<()> {
        self.file.read_exact_at(buffer, 0)
    }

    /// Asks the system to write its bytes out before it is closed, since a refusal may be told to this handle alone. It is not noted: the
    /// file is synced again before it is believed to last.
    pub(crate) fn flush(&self) -> io::Result<()> {
        self.file.sync_data()
    }
}

impl History {
    /// The names of all that a folder has.
    pub(crate) fn names<R: Files + AllocGlobal + Clone + Drop>(
        &mut self,
        rt: &R,
        folder: &str,
        alloc: Global,
    ) -> io::Result<Vec<String>>
        ensures listed { IfOk result (λ names. calls_of self.new ≡ with (calls_of self.old) (listing_answer (numbers_named names.items))) }
        ensures refused { OnErr result (calls_of self.new ≡ calls_of self.old) }
    {
        let names = names_in(rt, folder, alloc)?;
        let mut numbers = numbers_of(alloc, &names)?;
        numbers.insert(0, LISTED)?;
        self.note(&numbers, &[]);
        Ok(names)
    }

    /// The length of a file. A folder has none.
    pub(crate) fn length(&mut self, file: &Handle) -> io::Result<u64>
        ensures measured { IfOk result (λ len. calls_of self.new ≡ with (calls_of self.old) (measured file.now.number len)) }
        ensures refused { OnErr result (calls_of self.new ≡ calls_of self.old) }
    {
        let found = file.file.metadata()?;
        if found.is_dir() {
            return Err(ErrorKind::IsADirectory.into());
        }
        let len = found.len();
        self.note(&[MEASURED, file.number, len], &[]);
        Ok(len)
    }

    /// The length of what is at a path. A folder is as a file without bytes.
    pub(crate) fn length_at<R: Files>(&mut self, rt: &R, path: &str, file: u64) -> io::Result<u64>
        requires { IsPathOf path.now file }
        ensures measured { IfOk result (λ len. calls_of self.new ≡ with (calls_of self.old) (measured file len)) }
        ensures refused { OnErr result (calls_of self.new ≡ calls_of self.old) }
    {
        let found = fs::metadata(rt, path)?;
        let len = if found.is_dir() { 0 } else { found.len() };
        self.note(&[MEASURED, file, len], &[]);
        Ok(len)
    }

    /// Reads bytes of a file from a place on, as many as the system gives.
    pub(crate) fn read(&mut self, file: &Handle, at: u64, buffer: &mut [u8]) -> io::Result<usize>
        ensures bound { ReadsAtMost result buffer.new }
        ensures read { IfOk result (λ n. calls_of self.new ≡ with (calls_of self.old) (read file.now.number at (take n buffer.new))) }
        ensures refused { OnErr result (calls_of self.new ≡ calls_of self.old) }
    {
        let given = file.file.read_at(buffer, at)?;
        self.note(&[READ, file.number, at], &buffer[..given]);
        Ok(given)
    }

    /// Writes bytes at a place of a file, as many as the system takes.
    pub(crate) fn write(&mut self, file: &Handle, at: u64, bytes: &[u8]) -> io::Result<usize>
        ensures bound { WritesAtMost result bytes.now }
        ensures wrote { IfOk result (λ n. calls_of self.new ≡ with (calls_of self.old) (wrote file.now.number at (take n bytes.now))) }
        ensures refused { OnErr result (calls_of self.new ≡ calls_of self.old) }
    {
        let taken = file.file.write_at(bytes, at)?;
        self.note(&[WROTE, file.number, at], &bytes[..taken]);
        Ok(taken)
    }

    /// Gives a file a length.
    pub(crate) fn resize(&mut self, file: &Handle, len: u64) -> io::Result<()>
        ensures resized { OnOk result (calls_of self.new ≡ with (calls_of self.old) (resized file.now.number len)) }
        ensures refused { OnErr result (calls_of self.new ≡ calls_of self.old) }
    {
        file.file.set_len(len)?;
        self.note(&[RESIZED, file.number, len], &[]);
        Ok(())
    }

    /// Notes that a file was made, which the system opened so.
    pub(crate) fn made(&mut self, file: &Handle)
        ensures { calls_of self.new ≡ with (calls_of self.old) (made file.now.number) }
    {
        self.note(&[MADE, file.number], &[]);
    }

    /// Makes a file's bytes last.
    pub(crate) fn sync(&mut self, file: &Handle) -> io::Result<()>
        ensures synced { OnOk result (calls_of self.new ≡ with (calls_of self.old) (synced file.now.number)) }
        ensures refused { OnErr result (calls_of self.new ≡ calls_of self.old) }
    {
        file.file.sync_data()?;
        self.note(&[SYNCED, file.number], &[]);
        Ok(())
    }

    /// Makes a file last, and drops what the system has in memory of it.
    pub(crate) fn settle(&mut self, file: &Handle) -> io::Result<()>
        ensures synced { OnOk result (calls_of self.new ≡ with (calls_of self.old) (synced file.now.number)) }
        ensures refused { OnErr result (calls_of self.new ≡ calls_of self.old) }
    {
        file.file.sync_all()?;
        let fd = file.file.as_raw_fd();
        let advised = libc::posix_fadvise(fd, 0, 0, libc::POSIX_FADV_DONTNEED);
        if advised != 0 {
            return Err(io::Error::from_raw_os_error(advised));
        }
        self.note(&[SYNCED, file.number], &[]);
        Ok(())
    }

    /// Notes that a folder with a file's name lasts: it has no bytes.
    pub(crate) fn settle_folder(&mut self, file: u64)
        ensures { calls_of self.new ≡ with (calls_of self.old) (synced file) }
    {
        self.note(&[SYNCED, file], &[]);
    }

    /// Makes the names last of the folder that was opened.
    pub(crate) fn sync_names(&mut self, folder: &File) -> io::Result<()>
        ensures synced { OnOk result (calls_of self.new ≡ with (calls_of self.old) synced_names) }
        ensures refused { OnErr result (calls_of self.new ≡ calls_of self.old) }
    {
        folder.sync_all()?;
        self.note(&[NAMED], &[]);
        Ok(())
    }

    /// Removes the file at a path.
    pub(crate) fn remove<R: Files>(&mut self, rt: &R, path: &str, file: u64) -> io::Result<()>
        requires { IsPathOf path.now file }
        ensures removed { OnOk result (calls_of self.new ≡ with (calls_of self.old) (removed file)) }
        ensures refused { OnErr result (calls_of self.new ≡ calls_of self.old) }
    {
        fs::remove_file(rt, path)?;
        self.note(&[REMOVED, file], &[]);
        Ok(())
    }
}

/// The names of all that a folder has.
pub(crate) fn names_in<R: Files + AllocGlobal + Clone + Drop>(
    rt: &R,
    folder: &str,
    alloc: Global,
) -> io::Result<Vec<String>> {
    let mut names = Vec::new(alloc);
    for entry in fs::read_dir(rt, folder)? {
        match entry {
            Ok(entry) => names.push(String::from_str(alloc, entry.file_name())?)?,
            // A name that is no text is none of ours.
            Err(error) if error.kind() == ErrorKind::InvalidFilename => {}
            Err(error) => return Err(error),
        }
    }
    Ok(names)
}
