//! How long the files of a store are, and what was dropped of them from one moment to another.
ghost use Rattle.std.specs.Prelude.{◌≡◌, IfOk};
ghost use Rattle.kb_store.specs.Disk.{HasCause, Keeps, Table};
ghost use Rattle.kb_restart.specs.Lengths.{AreRising, drop_of, drops, from_file, length_at, lengths_of, listed_in, total_in, file_total_of};

use kb_store::{Store, StoreFault};
use std::alloc::{AllocError, Global};

/// A file of a store, and how many bytes it has.
#[derive(Clone, Copy, Debug, PartialEq, Eq)]
pub struct FileLength {
    pub file: u64,
    pub length: u64,
}

/// How many files there are, and how many bytes they have together. More bytes than each `u64` are told as the greatest.
#[derive(Clone, Copy, Debug, PartialEq, Eq)]
pub struct FileTotal {
    pub files: u64,
    pub bytes: u64,
}

impl FileTotal {
    /// What some files come to. Where they are all files of a store, as [`file_lengths`] gives them, it is what the store has.
    pub fn of(files: &[FileLength]) -> FileTotal
        ensures files { result ≡ file_total_of files.now }
        ensures store { (table : Table) → files.now ≡ listed_in table → result ≡ total_in table }
    {
        let mut bytes: u64 = 0;
        for file in files {
            bytes = bytes.saturating_add(file.length);
        }
        FileTotal {
            files: files.len() as u64,
            bytes,
        }
    }
}

/// A file of which something was dropped.
#[derive(Clone, Copy, Debug, PartialEq, Eq)]
pub struct Dropped {
    pub file: u64,
    /// How many bytes it had.
    pub before: u64,
    /// How many bytes it has, if it is there.
    pub after: Option<u64>,
}

/// Each file of a store with its length, by rising number.
pub fn file_lengths<S: Store>(alloc: Global, store: &mut S) -> Result<Vec<FileLength>, StoreFault>
    ensures lengths { IfOk result (λ lengths. lengths.items ≡ lengths_of (S.disk store.old)) }
    ensures rise { IfOk result (λ lengths. AreRising lengths.items) }
    ensures unchanged { Keeps (S.disk store.old) (S.disk store.new) }
    ensures cause { HasCause (S.disk store.old) result (S.disk store.new) }
{
    let files = store.list(alloc)?;
    let mut lengths = Vec::new(alloc);
    for file in &files {
        let length = store.len(*file)?;
        lengths.push(FileLength {
            file: *file,
            length,
        })?;
    }
    Ok(lengths)
}

/// The files that are gone or shorter than they were, by rising number: with the length that each had, and what it has.
///
/// A file that grew, or is new, is not among them.
pub fn dropped_between(
    alloc: Global,
    before: &[FileLength],
    after: &[FileLength],
) -> Result<Vec<Dropped>, AllocError>
    requires before { AreRising before.now }
    requires after { AreRising after.now }
    ensures { IfOk result (λ found. found.items ≡ drops before.now after.now) }
{
    let mut found = Vec::new(alloc);
    let mut rest = after;
    for file in before {
        rest = from_file(rest, file.file);
        if let Some(dropped) = drop_of(file, length_at(rest, file.file)) {
            found.push(dropped)?;
        }
    }
    Ok(found)
}

/// Some files without those in front that have lower numbers.
fn from_file(files: &[FileLength], file: u64) -> &[FileLength]
    ensures { result.now ≡ from_file file files.now }
{
    let mut rest = files;
    while let Some((first, others)) = rest.split_first() {
        if first.file >= file {
            return rest;
        }
        rest = others;
    }
    rest
}

/// The length of a file, if it is the first of some.
fn length_at(files: &[FileLength], file: u64) -> Option<u64>
    ensures { result ≡ length_at file files.now }
{
    match files.first() {
        Some(first) if first.file == file => Some(first.length),
        _ => None,
    }
}

/// What was dropped of a file that is so long now, or is gone.
fn drop_of(before: &FileLength, after: Option<u64>) -> Option<Dropped>
    ensures { result ≡ drop_of before.now after }
{
    match after {
        Some(length) if length >= before.length => None,
        _ => Some(Dropped {
            file: before.file,
            before: before.length,
            after,
        }),
    }
}
