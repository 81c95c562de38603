//! Room that is kept for catalogs on a disk that is full.

ghost use Rattle.std.specs.Prelude.{◌≡◌, ◌++◌, take, IfOk};
ghost use Rattle.kb_folder.specs.Reserve.{is_catalogs};

use std::alloc::{AllocError, Global};
use std::fs::File;
use std::io;
use std::io::ErrorKind;
use std::os::unix::fs::FileExt;

/// The name of its file in the folder. It is no number's.
pub const NAME: &str = "reserve";

/// How many bytes it has, where there is room for them.
pub const SIZE: u64 = 4_194_304;

/// How many bytes are written at a time.
const PIECE: usize = 4096;

/// What a header of a catalog begins with in version 1: `KBSG`, the version and the kind.
const CATALOG_1: [u8; 8] = *b"KBSG\x00\x01\x00\x01";

/// The same in version 2.
const CATALOG_2: [u8; 8] = *b"KBSG\x00\x02\x00\x01";

/// How many bytes of a file say whether it is a catalog's.
pub const FRONT: usize = 8;

/// Whether a file may take the reserve's room, by the bytes that it begins with: it is a catalog's.
pub fn may_take_reserve(front: &[u8]) -> bool
    ensures { result ≡ is_catalogs front.now }
{
    front.starts_with(&CATALOG_1) || front.starts_with(&CATALOG_2)
}

/// The first bytes of a file: some that it has, and behind them the first of some new ones.
pub fn front_of(alloc: Global, kept: &[u8], bytes: &[u8]) -> Result<Vec<u8>, AllocError>
    ensures { IfOk result (λ front. front.items ≡ kept.now ++ take 8 bytes.now) }
{
    let mut front = Vec::new(alloc);
    front.extend_from_slice(kept)?;
    front.extend_from_slice(&bytes[..bytes.len().min(FRONT)])?;
    Ok(front)
}

/// Writes what is missing of a reserve that has so many bytes. Where there is no room for all of it, it has so many bytes as before.
pub fn fill(file: &File, len: u64) -> io::Result<()> {
    let filled = write_from(file, len);
    if filled.is_err() {
        let _ = file.set_len(len);
    }
    filled
}

/// Writes what is missing of a reserve that has so many bytes.
fn write_from(file: &File, len: u64) -> io::Result<()> {
    let mut at = len;
    while at < SIZE {
        file.write_all_at(&[b'R'; PIECE], at)?;
        at += PIECE as u64;
    }
    Ok(())
}

/// Whether a call was refused because the disk, or what a user may have of it, is full.
pub fn is_full(error: &io::Error) -> bool {
    matches!(
        error.kind(),
        ErrorKind::StorageFull | ErrorKind::QuotaExceeded
    )
}
