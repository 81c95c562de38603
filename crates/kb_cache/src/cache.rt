//! A cache that is made when the first bytes are kept.
ghost use Rattle.std.specs.Prelude.{◌≡◌, ◌≤◌, ◌<◌, ◌+◌, ◌^◌, ℕ, [], IsSome, length, true, false};
ghost use Rattle.kb_cache.specs.Cached.{HasCap, entries_in};
ghost use Rattle.kb_cache.specs.Kept.{after_keep, behind_cut, cached_at, is_fit, is_kept, reads, total};

use crate::entries::{Entries, drop_behind, fill, keep};
use lru::LruCache;
use std::alloc::Global;
use std::hash::RandomState;
use std::num::NonZeroUsize;

/// The most bytes of an entry: what is longer is not kept.
pub const LARGEST_ENTRY: usize = 1_048_576;

/// The most bytes of a read that are kept. To copy more than 16 KiB to fresh memory costs more than to read them from the system's.
pub const LARGEST_READ: usize = 16_384;

/// How many entries are kept at most, and how many bytes in all. And how places are hashed: clients choose them.
#[derive(Clone, Copy)]
pub(crate) struct Limits {
    pub(crate) most_entries: u32,
    pub(crate) most_bytes: u64,
    pub(crate) hasher: RandomState,
}

/// A cache with room for so many entries, where memory lets it be made and it is to have some.
fn made(alloc: Global, most_entries: u32, hasher: RandomState) -> Option<Entries>
    ensures entries { entries_in result ≡ [] }
    ensures cap { HasCap most_entries result }
    ensures some { IsSome result → 0 < most_entries }
{
    let most = NonZeroUsize::new(most_entries as usize)?;
    let mut entries = LruCache::unbounded_with_hasher(alloc, hasher).ok()?;
    entries.resize(most);
    Some(entries)
}

/// Whether bytes may be kept: there are some, and not more than an entry may have.
fn is_fit(most_entries: u32, most_bytes: u64, data: &[u8]) -> bool
    ensures { result ≡ is_fit most_entries most_bytes data.now }
{
    most_entries > 0
        && !data.is_empty()
        && data.len() <= LARGEST_ENTRY
        && data.len() as u64 <= most_bytes
}

/// Keeps a copy of some bytes under a place, in a cache that is made for it where there is none. Answers whether they are there now.
pub(crate) fn keep_in(
    alloc: Global,
    cache: &mut Option<Entries>,
    bytes: &mut u64,
    limits: Limits,
    file: u64,
    at: u64,
    data: &[u8],
) -> bool
    requires counted { bytes.old ≡ total (entries_in cache.old) }
    requires within { bytes.old ≤ limits.most_bytes }
    requires cap { HasCap limits.most_entries cache.old }
    ensures counted { bytes.new ≡ total (entries_in cache.new) }
    ensures entries { entries_in cache.new ≡ after_keep limits.most_entries limits.most_bytes (entries_in cache.old) file at data.now result }
    ensures there { result ≡ false → is_fit limits.most_entries limits.most_bytes data.now ≡ true
        → length (cached_at (entries_in cache.old) file at) < length data.now }
    ensures fit { result ≡ true → is_fit limits.most_entries limits.most_bytes data.now ≡ true }
    ensures cap { HasCap limits.most_entries cache.new }
{
    if !is_fit(limits.most_entries, limits.most_bytes, data) {
        return false;
    }
    if cache.is_none() {
        *cache = made(alloc, limits.most_entries, limits.hasher);
    }
    let Some(entries) = cache else {
        return false;
    };
    keep(alloc, entries, bytes, limits.most_bytes, file, at, data)
}

/// Fills a buffer with the bytes from a place on, where they are kept. Otherwise it may leave anything in the buffer.
pub(crate) fn fill_from(cache: &mut Option<Entries>, file: u64, at: u64, buffer: &mut [u8]) -> bool
    requires { at + length buffer.old < 2 ^ 64 }
    ensures whole { result ≡ is_kept (entries_in cache.old) file at (length buffer.old) }
    ensures bytes { result ≡ true → buffer.new ≡ (reads (length buffer.old) (entries_in cache.old) file at (length buffer.old)).0 }
    ensures entries { entries_in cache.new ≡ (reads (length buffer.old) (entries_in cache.old) file at (length buffer.old)).1 }
    ensures cap { (most : ℕ) → HasCap most cache.old → HasCap most cache.new }
{
    match cache {
        Some(entries) => fill(entries, file, at, buffer),
        None => buffer.is_empty(),
    }
}

/// Drops the entries of a file that end behind a length.
pub(crate) fn drop_from(cache: &mut Option<Entries>, bytes: &mut u64, file: u64, len: u64)
    requires counted { bytes.old ≡ total (entries_in cache.old) }
    ensures counted { bytes.new ≡ total (entries_in cache.new) }
    ensures entries { entries_in cache.new ≡ behind_cut file len (entries_in cache.old) }
    ensures cap { (most : ℕ) → HasCap most cache.old → HasCap most cache.new }
{
    if let Some(entries) = cache {
        drop_behind(entries, bytes, file, len);
    }
}
